//! What the cores of all kinds of flow share: what they stand for, and the calls of subscribers.
ghost use Rattle.std.specs.Prelude.{◌≡◌, ◌+◌, ◌≤◌, List, ℕ, Ok, IsOk};
ghost use Rattle.std.specs.Vec.{vec_len, vec_capacity};
ghost use Rattle.flow_law.specs.declared.outcome.Drained.TheVariants.{Most};
ghost use Rattle.flow_law.specs.flow.Draining.{DrainsBy};
ghost use Rattle.flow_law.specs.declared.history.HistoryEvent.{HistoryEvent};
ghost use Rattle.flow_law.specs.declared.history.Said.{Said};
ghost use Rattle.flow_law.specs.history.History.{Kind, replied};
ghost use Rattle.flow_law.specs.history.Lawful.{Lawful};
ghost use Rattle.flow_law.specs.history.Sleeping.{Sleeping};
ghost use Rattle.flow_law.specs.flow.Standing.{Documents, StandsForHistory};
ghost use Rattle.flow_core.specs.SubId.{number_of};

use crate::sub_id::SubId;
use flow_law::{FlowFault, FlowValue, Guarded, Next, Said};
use std::alloc::Allocator;

/// A flow for one thread, of any kind: what it stands for.
///
/// Its calls are in `ReaderCalls` and `SubscriberCalls`. Wherever a function with a bound is called, a proof shows that
/// the type has each method of that bound, so a function asks for the smallest trait that has what it calls.
pub trait FlowCore: Guarded<Said = Said<Self::Call, Self::Reply>> {
    type Item: FlowValue;
    /// The state of the documented flow.
    type State;

    type Call;

    type Reply;

    /// Which kind of flow it is.
    ghost kind: { Kind Self.Item Self.State Self.Call Self.Reply };

    /// The state that a new core stands for.
    ghost first: { Self → Self.State };

    /// The states for which a core stands.
    ghost stands_as: { Self → Self.State → Type 0 };

    /// When a caller that sleeps still finds nothing, or its emission still waits.
    ghost sleeping: { Sleeping kind };

    /// The kind satisfies the facts of `Lawful`.
    ghost lawful: { Lawful kind };

    /// Behind a gate, a core stands for the histories of its kind.
    ghost stands_so: { (start core : Self) (h : List (HistoryEvent (Said Self.Call Self.Reply)))
        → Self.stands start core h → StandsForHistory kind stands_as (first start) core h };

    ghost stands_then: { (start core : Self) (h : List (HistoryEvent (Said Self.Call Self.Reply)))
        → StandsForHistory kind stands_as (first start) core h → Self.stands start core h };
}

/// What tells which sleepers have something after a call.
#[derive(Clone, Copy)]
pub struct Signs {
    /// How many values subscribers could see so far.
    pub mark: u64,
    /// The number of the first emission that waits.
    pub first_waiting: Option<u64>,
    pub subscribers: u64,
    /// The number of the subscriber that came last, or 0.
    pub last_subscriber: u64,
}

/// Receiving, leaving, and what tells whom to wake: all that a reader calls.
pub trait ReaderCalls: FlowCore {
    /// Returns the next value of a subscriber, `Empty` if there is none for it, or `Gone` if no subscriber has this
    /// number.
    ///
    /// # Errors
    /// `OutOfMemory` if the value cannot be copied. The subscriber has not received it.
    fn next(&mut self, id: SubId) -> Result<Next<Self::Item>, FlowFault>
        ensures documented { Documents Self.kind Self.stands_as
            self.old (Self.kind.take_next (number_of id))
            (replied Self.kind Self.kind.received result) self.new }
        ensures given { Self.Item.IsAlwaysCopied → IsOk result };

    /// Removes a subscriber, and returns whether it was present.
    fn unsubscribe(&mut self, id: SubId) -> bool
        ensures { Documents Self.kind Self.stands_as
            self.old (Self.kind.unsubscribe (number_of id)) (Self.kind.tested result) self.new };

    /// Returns what tells which sleepers have something now.
    fn signs(&self) -> Signs
        ensures mark { (s : Self.State) → Self.stands_as self.now s
            → result.mark ≡ Self.sleeping.mark s }
        ensures first { (s : Self.State) → Self.stands_as self.now s
            → result.first_waiting ≡ Self.sleeping.first_waiting s }
        ensures subscribers { Documents Self.kind Self.stands_as
            self.now Self.kind.count (Self.kind.counted result.subscribers) self.now };
}

/// Adding subscribers, counting them, and taking many of their values at once.
pub trait SubscriberCalls: ReaderCalls {
    /// Adds a subscriber, and returns its number.
    ///
    /// # Errors
    /// `OutOfMemory`, or `Exhausted` if the flow has issued all its numbers.
    fn subscribe(&mut self) -> Result<SubId, FlowFault>
        ensures { (name : List ℕ) →
            Documents Self.kind Self.stands_as self.old (Self.kind.subscribe name)
            (replied Self.kind (λ id. Self.kind.subscribed (number_of id)) result) self.new };

    /// Appends values that the subscriber can receive, at most `most`, to the list. Returns how many, which may be 0;
    /// `next` returns the others.
    fn take_held<B: Allocator>(
        &mut self,
        id: SubId,
        most: usize,
        values: &mut Vec<Self::Item, B>,
    ) -> usize
        ensures most { result ≤ most }
        ensures taken { DrainsBy
            (λ old answer new. Documents Self.kind Self.stands_as
            old (Self.kind.take_next (number_of id)) (replied Self.kind Self.kind.received answer) new)
            result self.old values.old.items (Ok Most) values.new.items self.new }
        ensures room { (vec_len values.new ≡ vec_len values.old + result) ×
            (vec_capacity values.old ≤ vec_capacity values.new) };

    /// Returns the number of subscribers.
    fn subscription_count(&self) -> u64
        ensures { Documents Self.kind Self.stands_as
            self.now Self.kind.count (Self.kind.counted result) self.now };
}
