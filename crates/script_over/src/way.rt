//! The ways to play a script.

/// By which calls a script is played.
#[derive(Clone, Copy, Debug, PartialEq, Eq)]
pub enum Way {
    /// By the calls of flows for one thread, as `flow_play` does.
    OneThread,
    /// By the calls of handles.
    Threads,
    /// By polls of futures, and by the other calls of handles.
    Futures,
    /// By the calls of handles of flows whose values are words: states without a lock, and shared flows that are read
    /// without one.
    Word,
}

impl Way {
    /// Returns the word that an argument of the program has for it.
    pub fn word(self) -> &'static str {
        match self {
            Way::OneThread => "one-thread",
            Way::Threads => "threads",
            Way::Futures => "futures",
            Way::Word => "word",
        }
    }

    /// Returns the way that a word names.
    pub fn named(word: &str) -> Option<Way> {
        match word {
            "one-thread" => Some(Way::OneThread),
            "threads" => Some(Way::Threads),
            "futures" => Some(Way::Futures),
            "word" => Some(Way::Word),
            _ => None,
        }
    }
}
