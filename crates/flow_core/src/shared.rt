//! A shared flow for one thread.
ghost use Rattle.std.specs.Prelude.{◌≡◌, ◌+◌, ◌-◌, ◌<◌, ◌≤◌, true, false, None, MatchResult, length};
ghost use Rattle.std.specs.Bool.{OnTrue, OnFalse};
ghost use Rattle.flow_law.specs.flow.SharedFlow as flow;
ghost use Rattle.flow_law.specs.flow.SharedStep as step;
ghost use Rattle.flow_law.specs.flow.Standing.{StandsFor};
ghost use Rattle.flow_law.specs.flow.Covering.{Covers, kept_start, kept_need};
ghost use Rattle.flow_law.specs.declared.states.SharedFlowState.{SharedFlowState};
ghost use Rattle.flow_core.specs.SharedCore.{window_of, kept_full, pushed, CoreShows, Leads, CoreReaches, Admits, IsSettled};

mod calls;
mod counts;
mod emission;
mod kind;
mod subscribe;
mod taking;

use circular_buffer::HeapCircularBuffer;
pub use emission::EmitCase;
use flow_containers::{Queue, Subscribers};
use flow_law::{Config, FlowFault, FlowValue, Overflow};
use std::alloc::{Allocator, Global};
use std::marker::Model;

/// A shared flow (`MutableSharedFlow`) for one thread.
///
/// It keeps the values that a present or a new subscriber may still receive. `new` reserves room for `replay + extra`
/// of them, or for one. A subscription stays, and may block emitters, until `unsubscribe` ends it.
pub struct SharedCore<T: FlowValue, A: Allocator + Copy = Global> {
    alloc: A,
    config: Config,
    /// The last emitted values, from the first one that a present or a new subscriber may still receive.
    values: HeapCircularBuffer<T, A>,
    /// The number of the last emitted value, or 0.
    newest: u64,
    reset_mark: u64,
    queue: Queue<T, A>,
    subscribers: Subscribers<T, A>,
    issued: u64,
}

// Not derived: each crate that drops a core would have to prove again how its parts are dropped.
impl<T: FlowValue, A: Allocator + Copy> Drop for SharedCore<T, A> {
    fn drop(self) {
        let Self {
            alloc: _,
            config: _,
            values: _,
            newest: _,
            reset_mark: _,
            queue: _,
            subscribers: _,
            issued: _,
        } = self;
    }
}

impl<T: FlowValue, A: Allocator + Copy> Model for SharedCore<T, A> {
    ghost use Rattle.flow_law.specs.flow.Standing.{Core};

    ghost Value = { Core T };

    ghost use Rattle.flow_core.specs.SharedCore.{fields_of, IsSound};

    ghost view = { fields_of };

    ghost invariant = { λ c. IsSound c };
}

const LARGEST_CAPACITY: u64 = 65_536;

/// Returns the fault of a configuration that no flow can have.
fn fault_of(config: Config) -> Option<FlowFault>
    ensures { result ≡ flow.config_fault config }
{
    let capacity = config.replay as u64 + config.extra as u64;
    if capacity > LARGEST_CAPACITY {
        return Some(FlowFault::TooLarge);
    }
    match config.overflow {
        Overflow::Suspend => None,
        Overflow::DropOldest | Overflow::DropLatest => {
            if capacity == 0 {
                Some(FlowFault::NeedsBuffer)
            } else {
                None
            }
        }
    }
}

/// Returns how many values a subscriber may be behind before it blocks the flow.
fn capacity_of(config: Config) -> usize
    ensures { result ≡ config.replay + config.extra }
{
    config.replay as usize + config.extra as usize
}

impl<T: FlowValue, A: Allocator + Copy> SharedCore<T, A> {
    /// Makes a flow, with room for the values that it may keep: `replay + extra`, but at least one.
    ///
    /// # Errors
    /// `TooLarge` or `NeedsBuffer` if no flow can have this configuration, else `OutOfMemory`.
    pub fn new(alloc: A, config: Config) -> Result<Self, FlowFault>
        ensures { MatchResult result
            (λ core. (flow.config_fault config ≡ None) × StandsFor core (flow.first_state config))
            (flow.NoFlow config) }
    {
        if let Some(fault) = fault_of(config) {
            return Err(fault);
        }
        let window = capacity_of(config).max(1);
        let Ok(values) = HeapCircularBuffer::with_capacity(alloc, window) else {
            return Err(FlowFault::OutOfMemory);
        };
        let Ok(subscribers) = Subscribers::new(alloc, window) else {
            return Err(FlowFault::OutOfMemory);
        };
        Ok(SharedCore {
            alloc,
            config,
            values,
            newest: 0,
            reset_mark: 0,
            queue: Queue::new(alloc),
            subscribers,
            issued: 0,
        })
    }

    fn capacity(&self) -> usize
        ensures { result ≡ self.now.config.replay + self.now.config.extra }
    {
        capacity_of(self.config)
    }

    /// Returns whether a subscriber is a whole window behind.
    fn is_blocked(&self) -> bool
        ensures own { result ≡ kept_full self.now }
        ensures shown { CoreShows self.now flow.is_blocked result }
    {
        self.subscribers.is_blocked()
    }

    /// Returns whether the last value is being offered to a subscriber.
    fn is_offering(&self) -> bool
        ensures own { OnTrue result
            ((self.now.config.replay + self.now.config.extra ≡ 0) × kept_full self.now ≡ true) }
        ensures shown { CoreShows self.now flow.is_offering result }
    {
        self.capacity() == 0 && self.subscribers.is_blocked()
    }

    /// Returns how many values were emitted before the first one that is held.
    fn held_from(&self) -> u64
        ensures from { result ≡ self.now.appended - length self.now.held }
        ensures near { self.now.appended ≤ result + window_of self.now.config }
    {
        self.subscribers.emitted() - self.values.len() as u64
    }

    /// Returns the place of a position among the held values.
    fn place_of(&self, position: u64) -> usize
        requires { self.now.appended - length self.now.held ≤ position }
        ensures { result ≡ position - (self.now.appended - length self.now.held) }
    {
        (position - self.held_from()) as usize
    }

    /// Drops the values that neither a present nor a new subscriber can receive.
    fn trim(&mut self)
        ensures { CoreReaches self.old (λ s. s) self.new }
    {
        let needed = self.subscribers.least(self.held_from(), self.cache_start());
        let count = self.subscribers.emitted() - needed;
        self.values.truncate_front(count as usize);
    }

    /// Trims the ring after an emission, if the ring began where the replay cache did.
    #[inline]
    fn trim_after(&mut self, by_cache: bool)
        ensures { (s : SharedFlowState T) →
            Covers self.old s → OnFalse by_cache (StandsFor self.old s)
            → StandsFor self.new s }
    {
        if !by_cache {
            return;
        }
        self.trim();
    }

    /// Appends a value while no subscriber blocks the flow.
    fn push(&mut self, value: T, number: u64)
        requires free { kept_full self.old ≡ false }
        requires issued { self.old.appended + length self.old.queue < self.old.issued }
        ensures { self.new ≡ pushed value number self.old }
    {
        let _oldest = self.values.push_back(value);
        self.subscribers.add();
        self.newest = number;
    }

    /// Returns whether a value is queued and the flow is not blocked.
    fn may_admit(&self) -> bool
        ensures settled { OnFalse result (IsSettled self.now) }
    {
        if self.queue.len() > 0 {
            !self.is_blocked()
        } else {
            false
        }
    }

    /// Emits the first queued value, if there is one and the flow is not blocked.
    fn admit(&mut self) -> bool
        ensures admitted { OnTrue result (Admits self.old self.new) }
        ensures settled { OnFalse result
            ((self.new ≡ self.old) × Leads self.old step.settle self.new) }
    {
        if self.queue.len() == 0 {
            return false;
        }
        if self.is_blocked() {
            return false;
        }
        match self.queue.pop_front() {
            None => false,
            Some(first) => {
                self.push(first.value, first.number);
                true
            }
        }
    }

    /// Emits queued values until the flow is blocked or none is queued, and then trims the ring.
    fn settle(&mut self)
        ensures { CoreReaches self.old step.settle self.new }
    {
        while self.admit() {}
        self.trim();
    }

    /// Settles after a subscriber moved on. The ring changes only if the subscriber was the last one at the first held
    /// value, or if a queued value may be emitted.
    #[inline]
    fn settle_after(&mut self, was_last: bool)
        ensures { (s : SharedFlowState T) →
            Covers self.old s → OnFalse was_last (StandsFor self.old s)
            → StandsFor self.new (step.settle s) }
    {
        if !was_last && !self.may_admit() {
            return;
        }
        self.settle();
    }

    /// Returns the position at which the replay cache begins.
    fn cache_start(&self) -> u64
        ensures start { result ≡ kept_start self.now }
        ensures within { (self.now.appended - length self.now.held ≤ result) ×
            (result ≤ self.now.appended) }
    {
        self.subscribers
            .emitted()
            .saturating_sub(self.config.replay as u64)
            .max(self.reset_mark)
    }

    /// Returns the position of a new subscriber.
    fn entry(&self) -> u64
        ensures within { (kept_need self.now ≤ result) × (result ≤ self.now.appended) }
        ensures shown { CoreShows self.now flow.entry result }
    {
        if self.is_offering() {
            self.subscribers.emitted().saturating_sub(1)
        } else {
            self.cache_start()
        }
    }
}
