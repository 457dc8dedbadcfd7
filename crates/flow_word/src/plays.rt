//! What each step on a word proves. Nothing here runs.
ghost use Rattle.std.specs.Prelude.{[], ◌++◌, map};
ghost use Rattle.flow_law.specs.history.Growth.{makes, child};
ghost use Rattle.flow_word.specs.View.{with_knows, first_in_view, others_in_view};
ghost use Rattle.flow_word.specs.Steps.{reads, reads_by, sets, exchanges, counts_all, receives, leaves, finds_room, enters, observes, looks};

use crate::view::Known;
use atomic_table::{Join, Play, Split};
use flow_law::{Packed, Sequence};

/// A load of the value's word, for `value`.
pub(crate) struct Read;

impl<T: Packed> Play<(), Sequence<Known<T>>> for Read {
    ghost then = { reads T.packs T.value_of };
}

/// A load of the value's word, for `value` through the seat of a subscription.
pub(crate) struct ReadBy;

impl<T: Packed> Play<(), Sequence<Known<T>>> for ReadBy {
    ghost then = { reads_by T.packs T.value_of };
}

/// A swap of the value's word.
pub(crate) struct Put;

impl<T: Packed> Play<(), Sequence<Known<T>>> for Put {
    ghost then = { sets T.value_of };
}

/// An exchange of the value's word.
pub(crate) struct Exchange;

impl<T: Packed> Play<(), Sequence<Known<T>>> for Exchange {
    ghost then = { exchanges T.value_of };
}

/// A load of the counts, for `subscription_count`.
pub(crate) struct Count;

impl<T: Packed> Play<(), Sequence<Known<T>>> for Count {
    ghost then = { counts_all T.value_of };
}

/// A load of the value's word, for `next`.
pub(crate) struct Receive;

impl<T: Packed> Play<(), Sequence<Known<T>>> for Receive {
    ghost then = { receives T.packs T.value_of };
}

/// A decrement of the number of subscribers, for `unsubscribe`.
pub(crate) struct Leave;

impl<T: Packed> Play<(), Sequence<Known<T>>> for Leave {
    ghost then = { leaves T.value_of };
}

/// A load of the counts, before a subscription.
pub(crate) struct FindRoom;

impl<T: Packed> Play<(), Sequence<Known<T>>> for FindRoom {
    ghost then = { finds_room T.value_of };
}

/// An exchange of the counts for those with one more subscription.
pub(crate) struct Enter;

impl<T: Packed> Play<(), Sequence<Known<T>>> for Enter {
    ghost then = { enters T.packs T.value_of };
}

/// Making a token through another one.
pub(crate) struct Make;

impl<T> Split<Sequence<Known<T>>> for Make {
    ghost left = { map (with_knows makes) };

    ghost right = { map (with_knows child) };
}

/// A view of no token, in place of one that is taken out.
pub(crate) struct Blank;

impl<T> Split<Sequence<Known<T>>> for Blank {
    ghost left = { λ v. v };

    ghost right = { λ v. [] };
}

/// Joining two tokens in one view.
pub(crate) struct Meet;

impl<T> Join<Sequence<Known<T>>> for Meet {
    ghost both = { λ v w. v ++ w };

    ghost spent = { [] };
}

/// A load, by which both tokens see the whole history so far.
pub(crate) struct Observe;

impl<T: Packed> Play<(), Sequence<Known<T>>> for Observe {
    ghost then = { observes T.value_of };
}

/// A load that changes nothing, and proves that what a token has seen begins a history.
pub(crate) struct Look;

impl<T: Packed> Play<(), Sequence<Known<T>>> for Look {
    ghost then = { looks T.value_of };
}

/// Splitting the view again.
pub(crate) struct Part;

impl<T> Split<Sequence<Known<T>>> for Part {
    ghost left = { first_in_view };

    ghost right = { others_in_view };
}
