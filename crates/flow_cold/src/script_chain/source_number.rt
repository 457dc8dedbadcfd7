//! The number of a source's fault, in one word.
ghost use Rattle.std.specs.Prelude.{◌≡◌, ◌<◌};

/// The number with which a source failed. It fills a word, so that an answer is two words.
#[derive(Clone, Copy, Drop)]
pub struct SourceNumber {
    pub number: u64,
    ghost bounded: { number < 4294967296 },
}

impl SourceNumber {
    /// Puts the number into a word.
    pub fn new(number: u32) -> SourceNumber
        ensures { result.number ≡ number }
    {
        SourceNumber {
            number: u64::from(number),
        }
    }

    /// Returns the number.
    pub fn number(self) -> u32
        ensures { result ≡ self.number }
    {
        self.number as u32
    }
}
