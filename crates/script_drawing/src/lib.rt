//! Drawings of flow scripts: a picture as SVG or as text, or the lines with their rules, and the program that draws.
//!
//! `drawing_of` draws the script of some bytes. The drawing contains each line of the script, in order (`Pictures`).
//! `run` is the program `flow_draw` over any reader and writer.
//!
//! # Lanes and marks
//! `steps_picture` has a lane for each flow, each subscriber and each emission that was not done at once, and a column
//! for each step that was played. `collection_picture` has a lane for a chain's source, for the other side of each zip,
//! and for what the chain gave. `marks` has the marks of a step, by what its trace says that it did. `legend_of` has an
//! entry for each kind of mark that was drawn.
//!
//! # Where the marks are
//! `parts_of` has the parts of all pictures of a script: it gives each column a width in characters, cuts the picture into
//! bands of at most `MOST_WIDTH`, and lists the parts from left to right, line by line.
//!
//! # How the parts are written
//! `text_frame` and `svg_picture` write the same parts, one as text and the other as SVG. A `Frame` has the text before
//! the lines of the script, and the text after them. `explained_frame` is the frame of lines with their rules, which
//! has no picture, and `json_frame` that of the trace as JSON. All of them go over the same `PlayedStep`s. `add_listing`
//! writes the lines, each after the step that wrote it.
//!
//! # Scripts
//! A script is a JSON value that was read and played. In any other value, a member that is missing or has another form
//! counts as an empty text, an empty list or 0; no call fails because of it.
#![tactic(auto)]

mod collection;
mod drawing;
mod flow_words;
mod form;
mod growing;
mod json;
mod layout;
mod legend;
mod lines;
mod listing;
mod mark;
mod marks;
mod page;
mod parts;
mod picture;
mod played;
mod program;
mod script_words;
mod style;
mod svg;
mod svg_marks;
mod text;

pub use drawing::drawing_of;
pub use form::Form;
pub use page::Frame;
pub use played::{DrawnFlow, Played, PlayedStep, flows_of, steps_of};
pub use program::{refuse_arguments, run};
pub use script_words::items_of;
pub use svg::{Column, LaneName, Places, svg_picture};
pub use text::{explained_frame, text_frame};
