//! A seat bound to its flow, and what several callers and readers did, once their threads have ended.
ghost use Rattle.std.specs.Prelude.{◌≡◌, ◌∷◌, ◌++◌, ℕ, ◌<◌, All, IfOk, length, map, slice_index_or, vec_len};
ghost use Rattle.std.specs.Arc.{arc_value};
ghost use Rattle.flow_law.specs.laws.Closed.{makes_many, nth_child};
ghost use Rattle.flow_law.specs.history.Growth.{makes, child};
ghost use Rattle.flow_law.specs.history.HandleFaults.{answer_by, busy_fault, number_fault};
ghost use Rattle.flow_law.specs.history.Handles.{called_by, SubscribesBound};
ghost use Rattle.flow_law.specs.history.Rounds.{OnlyMeets, MeetsInTurn, HasClosedHistory};
ghost use Rattle.flow_law.specs.history.Tokens.{knowing};
ghost use Rattle.flow_shared.specs.Calls.{Counts, CountsNow, Meets};

use super::number_error;
use super::reader::FlowReader;
use crate::flow::Flow;
use crate::token::FlowSeat;
use flow_core::{FlowCore, ReaderCalls, SubscriberCalls};
use flow_law::{Busy, NumberError, OutOfMemory};
use flow_sleepers::one_more_owner;
use std::alloc::{Allocator, Global};
use std::marker::Model;
use std::sync::{Arc, Wait};

/// A seat and its flow: an `Emitter` of a shared flow, or a `Setter` of a state flow. Contracts see both.
///
/// # Dropping
/// Dropping it drops its seat: no call is made under its name any more, and the flow does not change. The last handle
/// drops the flow.
pub struct FlowCaller<S: FlowCore, A: Allocator + Copy = Global> {
    pub(crate) flow: Arc<Flow<S, A>, A>,
    pub(crate) seat: FlowSeat<S, A>,
}

// Not derived, as for `Flow`.
impl<S: FlowCore + Drop, A: Allocator + Copy> Drop for FlowCaller<S, A> {
    fn drop(self) {
        let Self { flow: _, seat: _ } = self;
    }
}

impl<S: FlowCore, A: Allocator + Copy> Model for FlowCaller<S, A> {
    ghost use Rattle.std.specs.Prelude.{◌≡◌};
    ghost use Rattle.std.specs.Arc.{arc_value};
    ghost use Rattle.atomic_table.specs.Seated.{TableId};
    ghost use Rattle.flow_law.specs.declared.history.Said.{Said};
    ghost use Rattle.flow_law.specs.history.Handles.{CallerOf, called_by};

    ghost Value = { CallerOf TableId S.State (Said S.Call S.Reply) };

    ghost view = { λ c. called_by (arc_value c.flow) c.seat };

    ghost invariant = { λ c. c.seat.table_id ≡ (arc_value c.flow).table_id };
}

impl<S: FlowCore + Drop, A: Allocator + Copy> FlowCaller<S, A> {
    /// Binds a seat to its flow.
    pub fn new(flow: Arc<Flow<S, A>, A>, seat: FlowSeat<S, A>) -> FlowCaller<S, A>
        requires { seat.table_id ≡ (arc_value flow).table_id }
        ensures { result ≡ called_by (arc_value flow) seat }
    {
        FlowCaller { flow, seat }
    }

    /// Joins what two callers of one flow have seen: afterwards both have seen the same history, with all calls so far.
    ///
    /// Call it when one caller relies on what another did, for example after a thread has ended and returned its
    /// handle.
    pub fn meet(&mut self, other: &mut FlowCaller<S, A>)
        requires { other.old.flow.table_id ≡ self.old.flow.table_id }
        ensures flow { (self.new.flow ≡ self.old.flow) × (other.new.flow ≡ other.old.flow) }
        ensures met { Meets S.kind self.old.flow
            self.old.token other.old.token self.new.token other.new.token }
    {
        self.flow.meet(&mut self.seat, &mut other.seat);
    }

    /// Returns the flow and the seat.
    pub(crate) fn into_parts(self) -> (Arc<Flow<S, A>, A>, FlowSeat<S, A>)
        ensures flow { arc_value result.0 ≡ self.flow }
        ensures token { result.1 ≡ self.token }
        ensures at { result.1.table_id ≡ self.flow.table_id }
    {
        let FlowCaller { flow, seat } = self;
        (flow, seat)
    }

    /// Returns the seat, for the flow's own calls.
    pub fn into_seat(self) -> FlowSeat<S, A>
        ensures token { result ≡ self.token }
        ensures flow { result.table_id ≡ self.flow.table_id }
    {
        let FlowCaller { flow: _, seat } = self;
        seat
    }
}

impl<S: SubscriberCalls + Drop, A: Allocator + Copy> FlowCaller<S, A> {
    /// Subscribes. A reader of a shared flow gets the replay cache first, or the value that is being offered; a reader
    /// of a state flow gets the current value.
    ///
    /// A subscriber that does not read blocks the emitters of a shared flow or loses values, depending on `overflow`,
    /// until `unsubscribe`.
    pub fn subscribe<R: Wait>(&mut self, rt: &R) -> Result<FlowReader<S, A>, NumberError>
        ensures flow { self.new.flow ≡ self.old.flow }
        ensures subscribed { SubscribesBound S.kind S.kind.subscribe self.old
            (answer_by number_fault result) self.new.token }
    {
        let flow = one_more_owner(rt, &self.flow);
        match self.flow.subscribe(rt, &mut self.seat) {
            Ok(subscription) => Ok(FlowReader::new(flow, subscription)),
            Err(fault) => Err(number_error(fault)),
        }
    }
}

impl<S: ReaderCalls + Drop, A: Allocator + Copy> FlowCaller<S, A> {
    /// Counts the subscribers. A subscription whose token was dropped still counts; one whose handle was dropped has
    /// ended, unless the drop found the flow taken at each of its many tries.
    pub fn subscription_count<R: Wait>(&mut self, rt: &R) -> u64
        ensures flow { self.new.flow ≡ self.old.flow }
        ensures counted { Counts S.kind self.old.flow self.old.token result self.new.token }
    {
        self.flow.subscription_count(rt, &mut self.seat)
    }

    /// Counts the subscribers if no other caller holds the flow; otherwise returns `Busy`.
    pub fn try_subscription_count(&mut self) -> Result<u64, Busy>
        ensures flow { self.new.flow ≡ self.old.flow }
        ensures counted { CountsNow S.kind self.old.flow self.old.token
            (answer_by busy_fault result) self.new.token }
    {
        let count = self.flow.count_now(&mut self.seat);
        count.map_err(|_busy| Busy)
    }

    /// Joins what a caller and a reader of one flow have seen, as `meet` does.
    pub fn meet_reader(&mut self, reader: &mut FlowReader<S, A>)
        requires { reader.old.flow.table_id ≡ self.old.flow.table_id }
        ensures flow { (self.new.flow ≡ self.old.flow) × (reader.new.flow ≡ reader.old.flow) }
        ensures met { Meets S.kind self.old.flow reader.old.subscription.token self.old.token
            reader.new.subscription.token self.new.token }
        ensures number { reader.new.subscription.number ≡ reader.old.subscription.number }
    {
        self.flow
            .meet_subscription(&mut reader.subscription, &mut self.seat);
    }
}

impl<S: FlowCore + Drop, A: Allocator + Copy> FlowCaller<S, A> {
    /// Makes one more caller through this one. Call it for each thread, before the thread starts. It waits while the flow
    /// has 2^63 owners.
    pub fn another<R: Wait>(&mut self, rt: &R) -> FlowCaller<S, A>
        ensures flow { (self.new.flow ≡ self.old.flow) × (result.flow ≡ self.old.flow) }
        ensures maker { self.new.token ≡ knowing self.old.token (makes self.old.token.knows) }
        ensures made { result.token ≡ knowing self.old.token (child self.old.token.knows) }
    {
        let flow = one_more_owner(rt, &self.flow);
        let made = self.flow.seat(&mut self.seat);
        FlowCaller::new(flow, made)
    }

    /// Makes `count` more callers through this one. Call it before their threads start.
    ///
    /// # Errors
    /// `OutOfMemory` if there is no memory for them. The seats that were made by then are dropped.
    pub fn others<R: Wait>(
        &mut self,
        rt: &R,
        alloc: Global,
        count: u32,
    ) -> Result<Vec<FlowCaller<S, A>>, OutOfMemory>
        ensures flow { self.new.flow ≡ self.old.flow }
        ensures maker { IfOk result (λ made. self.new.token
            ≡ knowing self.old.token (makes_many count self.old.token.knows)) }
        ensures count { IfOk result (λ made. vec_len made ≡ count) }
        ensures made { IfOk result (λ made.
            (i : ℕ) (d : _) → i < count → slice_index_or made.items i d
            ≡ called_by self.old.flow (knowing self.old.token (nth_child i self.old.token.knows))) }
    {
        let mut made = Vec::new(alloc);
        for _count in 0..count {
            if made.push(self.another(rt)).is_err() {
                return Err(OutOfMemory);
            }
        }
        Ok(made)
    }

    /// Meets each of the other callers, one after the other.
    ///
    /// Each of them has then seen what this caller had seen before, and this caller has seen what each of them had
    /// seen.
    pub fn meet_all(&mut self, others: &mut [FlowCaller<S, A>])
        requires { All (λ c. c.flow.table_id ≡ self.old.flow.table_id) others.old }
        ensures flow { self.new.flow ≡ self.old.flow }
        ensures meets { OnlyMeets self.old.token self.new.token }
        ensures count { length others.new ≡ length others.old }
        ensures flows { (i : ℕ) (d : _) → i < length others.old →
            (slice_index_or others.new i d).flow ≡ (slice_index_or others.old i d).flow }
        ensures met { (i : ℕ) (d : _) → i < length others.old →
            MeetsInTurn S.kind self.old.flow.first self.old.token.knows self.new.token.knows
            (slice_index_or others.old i d).token (slice_index_or others.new i d).token }
    {
        for k in 0..others.len() {
            let other = &mut others[k];
            self.meet(other);
        }
    }
}

impl<S: ReaderCalls + Drop, A: Allocator + Copy> FlowCaller<S, A> {
    /// Meets each of the readers, one after the other, as `meet_all` does.
    pub fn meet_readers(&mut self, readers: &mut [FlowReader<S, A>])
        requires { All (λ r. r.flow.table_id ≡ self.old.flow.table_id) readers.old }
        ensures flow { self.new.flow ≡ self.old.flow }
        ensures meets { OnlyMeets self.old.token self.new.token }
        ensures count { length readers.new ≡ length readers.old }
        ensures numbers { (i : ℕ) (d : _) → i < length readers.old →
            (slice_index_or readers.new i d).subscription.number ≡
            (slice_index_or readers.old i d).subscription.number }
        ensures flows { (i : ℕ) (d : _) → i < length readers.old →
            (slice_index_or readers.new i d).flow ≡ (slice_index_or readers.old i d).flow }
        ensures met { (i : ℕ) (d : _) → i < length readers.old →
            MeetsInTurn S.kind self.old.flow.first self.old.token.knows self.new.token.knows
            (slice_index_or readers.old i d).subscription.token
            (slice_index_or readers.new i d).subscription.token }
    {
        for k in 0..readers.len() {
            let reader = &mut readers[k];
            self.meet_reader(reader);
        }
    }

    /// Proves that a history of the flow has all that this caller, the others and the readers did, and nothing else
    /// under their names. Call it once their threads have ended.
    ///
    /// All meet, the subscribers are counted, and all meet again. After the first round the history has all that they
    /// did; the second round shows that none of them has done more.
    pub fn meet_twice<R: Wait>(
        &mut self,
        rt: &R,
        others: &mut [FlowCaller<S, A>],
        readers: &mut [FlowReader<S, A>],
    )
        requires others { All (λ c. c.flow.table_id ≡ self.old.flow.table_id) others.old }
        requires readers { All (λ r. r.flow.table_id ≡ self.old.flow.table_id) readers.old }
        ensures flow { self.new.flow ≡ self.old.flow }
        ensures closed { HasClosedHistory S.kind self.old.flow.first (self.old.token.knows ∷
            (map (λ c. c.token.knows) others.old ++
            map (λ r. r.subscription.token.knows) readers.old)) }
    {
        self.meet_all(others);
        self.meet_readers(readers);
        self.subscription_count(rt);
        self.meet_all(others);
        self.meet_readers(readers);
    }
}
