//! The calls and replies that a history consists of. Only contracts use these types; no value of them is made.
ghost use Rattle.std.specs.Prelude.{◌≡◌};

use crate::fault::FlowFault;
use crate::outcome::{Emit, Next};
use crate::sequence::Sequence;

/// A call of a shared flow.
pub enum SharedCall<T> {
    TryEmit(T),
    Emit(T),
    /// `poll` of the emission of this number.
    Poll(u64),
    /// `cancel` of the emission of this number.
    Cancel(u64),
    /// `subscribe` or `subscribe_with`: the name of the subscription, and its own first values.
    Subscribe(Sequence<u64>, Sequence<T>),
    /// `next` of the subscriber of this number.
    TakeNext(u64),
    /// `unsubscribe` of the subscriber of this number.
    Unsubscribe(u64),
    ReplayCache,
    ResetReplayCache,
    SubscriptionCount,
}

/// A reply of a shared flow.
pub enum SharedReply<T> {
    Emitted(Emit),
    /// The reply to `try_emit`, `poll`, `cancel` and `unsubscribe`.
    Tested(bool),
    /// The number of the new subscriber.
    Subscribed(u64),
    Received(Next<T>),
    Cached(Sequence<T>),
    Reset,
    Counted(u64),
    Refused(FlowFault),
}

/// A call of a state flow.
pub enum StateCall<T> {
    GetValue,
    Set(T),
    TryEmit(T),
    CompareAndSet(T, T),
    /// `subscribe`, with the name of the subscription.
    Subscribe(Sequence<u64>),
    /// `next` of the subscriber of this number.
    TakeNext(u64),
    /// `unsubscribe` of the subscriber of this number.
    Unsubscribe(u64),
    SubscriptionCount,
    ReplayCache,
    ResetReplayCache,
}

/// A reply of a state flow.
pub enum StateReply<T> {
    Done,
    Got(T),
    /// The reply to `try_emit`, `compare_and_set` and `unsubscribe`.
    Answered(bool),
    /// The number of the new subscriber.
    Subscribed(u64),
    Received(Next<T>),
    Counted(u64),
    Cached(Sequence<T>),
    Refused(FlowFault),
}
