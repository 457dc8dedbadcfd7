//! The state that a flow's gate guards: the core, and the callers that sleep until the core has something for them.
ghost use Rattle.std.specs.Prelude.{◌≡◌, ℕ, List, false};
ghost use Rattle.std.specs.Bool.{OnTrue};
ghost use Rattle.flow_law.specs.flow.Standing.{Documents};
ghost use Rattle.flow_shared.specs.CoreCalls.{IsSleep, MaySleep};
ghost use Rattle.flow_shared.specs.Attended.{Attends, AttendedAs, attended_stands, IsAlone, IsListed};

mod removing;

use crate::core_call::{CoreCall, Made, Then, Watching};
use flow_core::{FlowCore, ReaderCalls};
use flow_law::{Guarded, Said};
use flow_sleepers::{Sleepers, Waiter};
use futures::task::Poll;
pub(crate) use removing::ToWake;
use std::alloc::{Allocator, Global};

/// A core, and the callers that sleep: readers under their subscribers' numbers, emitters under the numbers of their
/// emissions, and watchers of the number of subscribers under numbers of their own. A caller that sleeps has nothing
/// yet: a call that gives it something, ends its emission, or adds or ends a subscriber, removes it and wakes it.
pub struct Attended<S: FlowCore, A: Allocator + Copy = Global> {
    pub(crate) core: S,
    alloc: A,
    readers: Sleepers<A>,
    emitters: Sleepers<A>,
    watchers: Sleepers<A>,
    /// The number of subscribers that the watchers have seen.
    watched: u64,
    /// `false` only if no caller sleeps: one test for all lists.
    asleep: bool,
}

// Not derived, for the reason given at `Flow`.
impl<S: FlowCore + Drop, A: Allocator + Copy> Drop for Attended<S, A> {
    fn drop(self) {
        let Self {
            core: _,
            alloc: _,
            readers: _,
            emitters: _,
            watchers: _,
            watched: _,
            asleep: _,
        } = self;
    }
}

impl<S: FlowCore, A: Allocator + Copy> Guarded for Attended<S, A> {
    type Said = Said<S::Call, S::Reply>;

    ghost stands = { attended_stands S.sleeping S.first S.stands_as };
}

impl<S: FlowCore, A: Allocator + Copy> Attended<S, A> {
    /// Returns the core with no sleepers.
    pub(crate) fn new(alloc: A, core: S) -> Self
        ensures core { result.core ≡ core }
        ensures alone { IsAlone result }
    {
        Attended {
            core,
            alloc,
            readers: Sleepers::new(alloc),
            emitters: Sleepers::new(alloc),
            watchers: Sleepers::new(alloc),
            watched: 0,
            asleep: false,
        }
    }

    /// Returns the core, and wakes all sleepers.
    pub(crate) fn into_core(self) -> S
        ensures { result ≡ self.core }
    {
        let Attended {
            core,
            alloc: _,
            readers: _,
            emitters: _,
            watchers: _,
            watched: _,
            asleep: _,
        } = self;
        core
    }

    /// Returns whether it is known that no caller sleeps.
    #[inline(always)]
    pub(crate) fn is_alone(&self) -> bool
        ensures { OnTrue result (self.now.asleep ≡ false) }
    {
        !self.asleep
    }

    /// Notes whether a caller sleeps.
    fn note_sleepers(&mut self)
        ensures stays { (s : S.State) → Attends S.sleeping S.stands_as self.old s
            → AttendedAs S.sleeping S.stands_as self.new s }
        ensures readers { self.new.readers ≡ self.old.readers }
        ensures emitters { self.new.emitters ≡ self.old.emitters }
        ensures watchers { self.new.watchers ≡ self.old.watchers }
    {
        let is_alone = self.readers.is_empty()
            && self.emitters.is_empty()
            && self.watchers.is_empty();
        self.asleep = !is_alone;
    }

    /// Returns a list of no sleepers, to which a call adds those that it removes.
    pub(crate) fn none_to_wake(&self) -> ToWake<A> {
        ToWake::new(self.alloc)
    }
}

impl<S: ReaderCalls, A: Allocator + Copy> Attended<S, A> {
    /// Leaves the caller's waker in the list, if the caller sleeps.
    #[inline]
    fn sleep<W: Waiter<A>>(&mut self, then: Then, waiter: &mut W)
        ensures stays { (s : S.State) → MaySleep S.sleeping then s → AttendedAs S.sleeping S.stands_as self.old s
            → AttendedAs S.sleeping S.stands_as self.new s }
        ensures armed { IsSleep then → W.is_armed waiter.new }
        ensures listed { IsListed then self.new (W.asks_again waiter.new) }
        ensures kept { W.keeps waiter.old waiter.new }
    {
        match then {
            Then::AwaitValue(number) => {
                let _asleep: Poll<()> = self.readers.sleep(waiter, number);
                self.note_sleepers();
            }
            Then::AwaitEnd(number) => {
                let _asleep: Poll<()> = self.emitters.sleep(waiter, number);
                self.note_sleepers();
            }
            Then::Watch(Watching::Begins(number)) => {
                self.watched = self.core.signs().subscribers;
                let _asleep: Poll<()> = self.watchers.sleep(waiter, number);
                self.note_sleepers();
            }
            _ => {}
        }
    }

    /// Makes a call of the core while no caller sleeps.
    #[inline(always)]
    pub(crate) fn call_alone<C: CoreCall<S>, W: Waiter<A>>(
        &mut self,
        call: C,
        waiter: &mut W,
    ) -> C::Answer
        requires { self.old.asleep ≡ false }
        ensures documented { (name : List ℕ) → Documents S.kind (AttendedAs S.sleeping S.stands_as)
            self.old (C.call call name) (C.reply result) self.new }
        ensures also { C.also call result }
        ensures armed { IsSleep (C.then call result) → W.is_armed waiter.new }
        ensures listed { IsListed (C.then call result) self.new (W.asks_again waiter.new) }
        ensures kept { W.keeps waiter.old waiter.new }
    {
        let Made {
            answer,
            touches: _,
            then,
        } = call.run(&mut self.core);
        self.sleep(then, waiter);
        answer
    }

    /// Makes a call of the core, and removes the sleepers that have something after it.
    pub(crate) fn call_among_sleepers<C: CoreCall<S>, W: Waiter<A>>(
        &mut self,
        call: C,
        waiter: &mut W,
        woken: &mut ToWake<A>,
    ) -> C::Answer
        ensures documented { (name : List ℕ) → Documents S.kind (AttendedAs S.sleeping S.stands_as)
            self.old (C.call call name) (C.reply result) self.new }
        ensures also { C.also call result }
        ensures armed { IsSleep (C.then call result) → W.is_armed waiter.new }
        ensures listed { IsListed (C.then call result) self.new (W.asks_again waiter.new) }
        ensures kept { W.keeps waiter.old waiter.new }
    {
        let before = self.core.signs();
        let Made {
            answer,
            touches,
            then,
        } = call.run(&mut self.core);
        self.remove_touched(touches, woken);
        self.remove_due(before, woken);
        self.unwatch(then, woken);
        self.note_sleepers();
        self.sleep(then, waiter);
        answer
    }

    /// Makes a call of the core, whether callers sleep or not.
    pub(crate) fn call<C: CoreCall<S>, W: Waiter<A>>(
        &mut self,
        call: C,
        waiter: &mut W,
        woken: &mut ToWake<A>,
    ) -> C::Answer
        ensures documented { (name : List ℕ) → Documents S.kind (AttendedAs S.sleeping S.stands_as)
            self.old (C.call call name) (C.reply result) self.new }
        ensures also { C.also call result }
    {
        if self.is_alone() {
            self.call_alone(call, waiter)
        } else {
            self.call_among_sleepers(call, waiter, woken)
        }
    }
}
