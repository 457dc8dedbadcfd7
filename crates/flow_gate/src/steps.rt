//! The rule of the gate's table, and what each step proves. Nothing here runs.
ghost use Rattle.std.specs.Prelude.{List, [], ◌++◌, map, false, Option, None};
ghost use Rattle.flow_law.specs.declared.history.Knowledge.{Knowledge};
ghost use Rattle.flow_law.specs.history.Growth.{makes, child};
ghost use Rattle.flow_gate.specs.View.{first_view, seat_view};
ghost use Rattle.flow_gate.specs.Rule.{GateHolds};
ghost use Rattle.flow_gate.specs.Steps.{stands_from, entered, observed, looked, left, first_known, others_known};

use crate::view::SeatView;
use atomic_table::{Join, Play, Split, TableRule};
use flow_law::Guarded;
use std::marker::{Brand, PhantomData};
use std::snapshot::Snapshot;

/// The rule of a gate's table.
pub struct GateRule;

impl<S: Guarded> TableRule<S, SeatView<S::Said>, Snapshot<S>> for GateRule {
    ghost holds = { λ first. GateHolds (S.stands first.value) };

    ghost first = { λ _. first_view };
}

/// Evidence of the events that a caller added while it was inside, such as the call that it made and the answer. For
/// contracts only.
pub trait NamesEvents<E> {
    /// The events that this evidence names for a caller whose token has this knowledge.
    ghost events: { Self → Knowledge E → List E };
}

/// Names no events.
impl<E> NamesEvents<E> for () {
    ghost events = { λ _ _. [] };
}

/// The state with which the gate began. A step does not know it; a call at `Brand` chooses it in its proof.
pub(crate) trait StartsFrom<F> {
    ghost first: { Option F };
}

impl<F> StartsFrom<F> for Brand {
    ghost first = { None };
}

/// The exchange from free to taken.
pub(crate) struct Enter<B> {
    starts: PhantomData<B>,
}

impl<S: Guarded, B: StartsFrom<S>> Play<S, SeatView<S::Said>> for Enter<B> {
    ghost then = { entered (stands_from S.stands B.first) };
}

/// A load, by which a joined view sees the whole history so far.
pub(crate) struct Observe<B> {
    starts: PhantomData<B>,
}

impl<S: Guarded, B: StartsFrom<S>> Play<S, SeatView<S::Said>> for Observe<B> {
    ghost then = { observed (stands_from S.stands B.first) };
}

/// A load that changes nothing, and proves that what a seat has seen begins a history.
pub(crate) struct Look<B> {
    starts: PhantomData<B>,
}

impl<S: Guarded, B: StartsFrom<S>> Play<S, SeatView<S::Said>> for Look<B> {
    ghost then = { looked (stands_from S.stands B.first) };
}

/// The events that a caller adds to the history, for contracts only. A call at `Brand` chooses them in its proof.
pub(crate) trait Adds<E> {
    ghost adds: { List E };
}

impl<E> Adds<E> for Brand {
    ghost adds = { [] };
}

/// The store of free, by a caller that adds these events.
pub(crate) struct Leave<W> {
    adds: PhantomData<W>,
}

impl<S, E, W: Adds<E>> Play<S, SeatView<E>> for Leave<W> {
    ghost then = { left W.adds };
}

/// Making a seat through another one.
pub(crate) struct Make;

impl<E> Split<SeatView<E>> for Make {
    ghost left = { λ v. seat_view (map makes v.known) v.holds };

    ghost right = { λ v. seat_view (map child v.known) false };
}

/// Making a seat without a token.
pub(crate) struct Spare;

impl<E> Split<SeatView<E>> for Spare {
    ghost left = { λ v. v };

    ghost right = { λ _. seat_view [] false };
}

/// Joining two seats in one view.
pub(crate) struct Meet;

impl<E> Join<SeatView<E>> for Meet {
    ghost both = { λ v w. seat_view (v.known ++ w.known) false };

    ghost spent = { seat_view [] false };
}

/// Splitting the view again.
pub(crate) struct Part;

impl<E> Split<SeatView<E>> for Part {
    ghost left = { λ v. seat_view (first_known v.known) false };

    ghost right = { λ v. seat_view (others_known v.known) false };
}
