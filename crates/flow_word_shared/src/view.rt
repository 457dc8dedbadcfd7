//! What the table of a word flow knows of its seats. Except for `RingStart`, no value of these types is ever made.
ghost use Rattle.std.specs.Prelude.{◌≡◌};

use flow_law::{Config, Knowledge, Said, Sequence, SharedCall, SharedReply};

/// The configuration of a flow, how many positions its ring has room for, how many words its values have, and how many
/// subscribers have a place. Without places, subscribers store nothing into the flow.
#[derive(Clone, Copy)]
pub struct RingStart {
    pub config: Config,
    pub room: u64,
    pub width: u64,
    pub places: u64,
}

/// A place that the holder of the lock bit has taken for a new subscriber at this position, and the subscriber's number
/// once it has subscribed.
pub struct Taken {
    pub place: u64,
    pub position: u64,
    pub number: Option<u64>,
}

/// What a caller that holds the lock bit knows.
pub struct Hold {
    /// The number of emitted values.
    pub length: u64,
    /// How many numbers were issued.
    pub issued: Option<u64>,
    /// The reset mark.
    pub mark: Option<u64>,
    /// The word of made subscriptions is this much ahead.
    pub ahead: u64,
    /// What the caller stored in the free cells.
    pub cells: Sequence<u64>,
    /// The lower bound of the positions in places.
    pub low: Option<u64>,
    /// In how many places it has looked, from the first one on.
    pub checked: u64,
    /// No position in these places is less than this one.
    pub least: u64,
    pub taken: Option<Taken>,
}

/// A subscriber's place, and whether its word says that the subscriber comes or leaves.
pub struct Post {
    pub place: u64,
    pub moves: bool,
}

/// A subscriber's number, the position of the value that it reads next, and what it found in the cells of that position
/// and the next ones, since its last call: the words of each value, and those that it has read of one more.
pub struct Reads {
    pub number: u64,
    pub position: u64,
    pub words: Sequence<Sequence<u64>>,
    pub part: Sequence<u64>,
    pub post: Option<Post>,
}

/// What one token knows, the start of its flow, what it holds, and what it reads as a subscriber.
pub struct RingKnown<T> {
    pub knows: Knowledge<Said<SharedCall<T>, SharedReply<T>>>,
    pub start: RingStart,
    pub hold: Option<Hold>,
    pub reads: Option<Reads>,
}
