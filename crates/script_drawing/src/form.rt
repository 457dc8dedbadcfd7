//! The forms in which a script is shown.

/// The form of a drawing.
#[derive(Clone, Copy)]
pub enum Form {
    Text,
    Svg,
    /// No picture, but after each line that a step wrote the rule by which it wrote it.
    Explained,
    /// The trace as JSON: the lines, each with its rule and with what its step did.
    Json,
    /// The trace as JSON. If this is not 0, and the script has at most this many steps, with the picture as SVG and where
    /// the parts of the picture are.
    JsonWithPicture(u32),
}
