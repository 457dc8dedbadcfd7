//! Histories of flows, as contracts speak of them.
ghost use Rattle.std.specs.Prelude.{◌≡◌};

use crate::sequence::Sequence;

/// One event of a history. Only contracts use events; no value of this type is made.
///
/// A call adds its event before it returns. So the call had ended by the time that another one began only if `began` of
/// the other one's event is greater than the number of events before this one.
pub struct HistoryEvent<E> {
    /// The name of the token through which the call was made.
    pub name: Sequence<u64>,
    /// How many events the history had when the call began, at its first step on the flow.
    pub began: u64,
    /// What the event says.
    pub what: E,
}

/// What an event of a flow says: the call and its reply. No value of this type is made.
pub struct Said<C, R> {
    pub call: C,
    pub reply: R,
}

/// What a token of a flow for several threads knows. Only contracts use it; no value of this type is made.
pub struct Knowledge<E> {
    /// The first seat's name is empty. The j-th seat made through a seat has that seat's name followed by j.
    pub name: Sequence<u64>,
    /// The number of seats made through it.
    pub made: u64,
    /// The number of its attempts that failed because of another caller.
    pub lost: u64,
    /// The history that it has seen.
    pub seen: Sequence<HistoryEvent<E>>,
}
