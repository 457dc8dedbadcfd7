//! What each step on a word proves. Nothing here runs.
ghost use Rattle.std.specs.Prelude.{[], ◌++◌, map, take};
ghost use Rattle.flow_law.specs.history.Growth.{makes};
ghost use Rattle.flow_word_shared.specs.PlaceSteps.{looks_low, sets_low, checks, gives_up, takes_place, refuses_place, enrolls_at, flags, advances, frees};
ghost use Rattle.flow_word_shared.specs.View.{ring_with_knows, child_seat, first_of_two, rest_of_two, hands_over, handed_over};
ghost use Rattle.flow_word_shared.specs.Steps.{takes, counts_issued, fills, refuses, releases, publishes, counts_mark, refuses_subscriber, runs_ahead, enrolls, resets, counts_live, leaves, looks, reads_part, reads_cell, confirms, caches, refuses_cache, reads_held, observes_all, looks_back};

use crate::view::RingKnown;
use atomic_table::{Join, Play, Split};
use flow_law::{Sequence, Words};

/// An exchange of word 0, which takes the lock bit.
pub(crate) struct Take;

impl<T> Play<(), Sequence<RingKnown<T>>> for Take {
    ghost then = { takes };
}

/// A load of the made subscriptions, by the holder.
pub(crate) struct CountIssued;

impl<T> Play<(), Sequence<RingKnown<T>>> for CountIssued {
    ghost then = { counts_issued };
}

/// A store into the next free cell, by the holder.
pub(crate) struct Fill;

impl<T> Play<(), Sequence<RingKnown<T>>> for Fill {
    ghost then = { fills };
}

/// A load by the holder that has filled the free cells, if no number is left: a refused `try_emit`, or a refused `emit`.
pub(crate) struct Refuse<const TRIES: bool>;

impl<T: Words, const TRIES: bool> Play<(), Sequence<RingKnown<T>>> for Refuse<TRIES> {
    ghost then = { refuses T.value_in TRIES };
}

/// A store of word 0 by the holder, without an event.
pub(crate) struct Release;

impl<T> Play<(), Sequence<RingKnown<T>>> for Release {
    ghost then = { releases };
}

/// A store of word 0 by the holder, which emits: a `try_emit`, or an `emit`.
pub(crate) struct Publish<const TRIES: bool>;

impl<T: Words, const TRIES: bool> Play<(), Sequence<RingKnown<T>>> for Publish<TRIES> {
    ghost then = { publishes T.value_in TRIES };
}

/// A load of word 0 by a subscriber that has read all it knows of.
pub(crate) struct Look;

impl<T> Play<(), Sequence<RingKnown<T>>> for Look {
    ghost then = { looks };
}

/// A load of a cell that is not the last one of its value, by a subscriber.
pub(crate) struct ReadPart;

impl<T: Words> Play<(), Sequence<RingKnown<T>>> for ReadPart {
    ghost then = { reads_part T.are_words T.value_in };
}

/// A load of the last cell of a value, by a subscriber.
pub(crate) struct ReadCell;

impl<T: Words> Play<(), Sequence<RingKnown<T>>> for ReadCell {
    ghost then = { reads_cell T.are_words T.value_in };
}

/// A load of word 0 by a subscriber that has read cells, for one `next`.
pub(crate) struct Confirm;

impl<T: Words> Play<(), Sequence<RingKnown<T>>> for Confirm {
    ghost then = { confirms T.are_words T.value_in (take 1) };
}

/// A load of word 0 by a subscriber that has read cells, for a `next` of each value that it found.
pub(crate) struct ConfirmAll;

impl<T: Words> Play<(), Sequence<RingKnown<T>>> for ConfirmAll {
    ghost then = { confirms T.are_words T.value_in (λ words. words) };
}

/// Making a token through another one.
pub(crate) struct Make;

impl<T> Split<Sequence<RingKnown<T>>> for Make {
    ghost left = { map (ring_with_knows makes) };

    ghost right = { map child_seat };
}

/// A load of the reset mark, by the holder.
pub(crate) struct CountMark;

impl<T> Play<(), Sequence<RingKnown<T>>> for CountMark {
    ghost then = { counts_mark };
}

/// The same, if no number is left.
pub(crate) struct RefuseSubscriber;

impl<T> Play<(), Sequence<RingKnown<T>>> for RefuseSubscriber {
    ghost then = { refuses_subscriber };
}

/// A store of the made subscriptions, by the holder.
pub(crate) struct RunAhead;

impl<T> Play<(), Sequence<RingKnown<T>>> for RunAhead {
    ghost then = { runs_ahead };
}

/// An increment of the number of subscribers, by the holder.
pub(crate) struct Enroll;

impl<T> Play<(), Sequence<RingKnown<T>>> for Enroll {
    ghost then = { enrolls };
}

/// A store of the reset mark, by the holder.
pub(crate) struct ResetMark;

impl<T> Play<(), Sequence<RingKnown<T>>> for ResetMark {
    ghost then = { resets };
}

/// A load of the number of subscribers.
pub(crate) struct CountLive;

impl<T> Play<(), Sequence<RingKnown<T>>> for CountLive {
    ghost then = { counts_live };
}

/// A decrement of the number of subscribers.
pub(crate) struct Leave;

impl<T> Play<(), Sequence<RingKnown<T>>> for Leave {
    ghost then = { leaves };
}

/// A load of the reset mark, by the holder: the event of `replay_cache`.
pub(crate) struct Cache;

impl<T> Play<(), Sequence<RingKnown<T>>> for Cache {
    ghost then = { caches };
}

/// The same, if there is no memory for the values.
pub(crate) struct RefuseCache;

impl<T> Play<(), Sequence<RingKnown<T>>> for RefuseCache {
    ghost then = { refuses_cache };
}

/// A load of a cell of the replay cache, by the holder.
pub(crate) struct ReadHeld;

impl<T: Words> Play<(), Sequence<RingKnown<T>>> for ReadHeld {
    ghost then = { reads_held T.are_words T.value_in };
}

/// A view of no token, in place of one that is taken out.
pub(crate) struct Blank;

impl<T> Split<Sequence<RingKnown<T>>> for Blank {
    ghost left = { λ v. v };

    ghost right = { λ v. [] };
}

/// Joining two tokens in one view.
pub(crate) struct Meet;

impl<T> Join<Sequence<RingKnown<T>>> for Meet {
    ghost both = { λ v w. v ++ w };

    ghost spent = { [] };
}

/// A load, by which both tokens see the whole history so far.
pub(crate) struct Observe;

impl<T> Play<(), Sequence<RingKnown<T>>> for Observe {
    ghost then = { observes_all };
}

/// A load that changes nothing, and proves that what a token has seen begins a history.
pub(crate) struct LookBack;

impl<T> Play<(), Sequence<RingKnown<T>>> for LookBack {
    ghost then = { looks_back };
}

/// Splitting the view again.
pub(crate) struct Part;

impl<T> Split<Sequence<RingKnown<T>>> for Part {
    ghost left = { first_of_two };

    ghost right = { rest_of_two };
}

/// A load of the lower bound of the positions in places, by the holder.
pub(crate) struct LookLow;

impl<T> Play<(), Sequence<RingKnown<T>>> for LookLow {
    ghost then = { looks_low };
}

/// A store of that lower bound, by the holder.
pub(crate) struct SetLow;

impl<T> Play<(), Sequence<RingKnown<T>>> for SetLow {
    ghost then = { sets_low };
}

/// A load of a place by the holder that has filled the free cells: if its subscriber is a full buffer behind, an emission
/// whose value is dropped, a `try_emit` or an `emit`.
pub(crate) struct CheckPlace<const TRIES: bool>;

impl<T: Words, const TRIES: bool> Play<(), Sequence<RingKnown<T>>> for CheckPlace<TRIES> {
    ghost then = { checks T.value_in TRIES };
}

/// A store of word 0 by the holder, whose attempt failed.
pub(crate) struct GiveUp;

impl<T> Play<(), Sequence<RingKnown<T>>> for GiveUp {
    ghost then = { gives_up };
}

/// An exchange of a free place by the holder, for a new subscriber.
pub(crate) struct TakePlace;

impl<T> Play<(), Sequence<RingKnown<T>>> for TakePlace {
    ghost then = { takes_place };
}

/// A load of the reset mark by the holder, if no place is free: a refused `subscribe`.
pub(crate) struct RefusePlace;

impl<T> Play<(), Sequence<RingKnown<T>>> for RefusePlace {
    ghost then = { refuses_place };
}

/// An increment of the number of subscribers by the holder, for the subscriber whose place it has taken.
pub(crate) struct EnrollAt;

impl<T> Play<(), Sequence<RingKnown<T>>> for EnrollAt {
    ghost then = { enrolls_at };
}

/// Making the token of a new subscriber that has a place, through the holder.
pub(crate) struct HandOver;

impl<T> Split<Sequence<RingKnown<T>>> for HandOver {
    ghost left = { map hands_over };

    ghost right = { map handed_over };
}

/// A store of a subscriber's own place, which says that it comes or leaves, or that it does not.
pub(crate) struct Flag<const MOVES: bool>;

impl<T, const MOVES: bool> Play<(), Sequence<RingKnown<T>>> for Flag<MOVES> {
    ghost then = { flags MOVES };
}

/// A store of a subscriber's own place, after it has read the cells of a value: one `next`.
pub(crate) struct Advance;

impl<T: Words> Play<(), Sequence<RingKnown<T>>> for Advance {
    ghost then = { advances T.are_words T.value_in };
}

/// A store that frees the place of a subscriber that has left.
pub(crate) struct FreePlace;

impl<T> Play<(), Sequence<RingKnown<T>>> for FreePlace {
    ghost then = { frees };
}
