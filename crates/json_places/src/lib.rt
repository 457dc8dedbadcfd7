//! Places in JSON texts: the offset of each value and each key, and the offset at which a text stops being JSON.
//!
//! In a `Text` that is JSON, a `Spot` is a value and the offset at which it begins. `member` and `item` lead from the
//! spot of an object or a list to that of one of its parts, `member_from` from member to member, and `part_from` and
//! `part_after` from item to item. `items` has the bytes of all items of a list. In a text that is not JSON, `not_json` finds where it stops being JSON, and what was
//! expected there. A `Place` is an offset as a line and a column. `nearest` finds the right word for a wrong one.
//!
//! Offsets count bytes from the start of the text, and may be beyond its end. The values of spots have to be those that
//! were read from the text: for other values the results mean nothing.
#![tactic(auto)]

mod front;
mod parts;
mod places;
mod words;

pub use front::{Stop, not_json};
pub use parts::{Extent, Member, Spot, Text};
pub use places::Place;
pub use words::nearest;
