//! Taking all values that a subscriber can receive now.
ghost use Rattle.std.specs.Prelude.{◌≡◌, ◌≢◌, ◌+◌, ◌≤◌, Ok, IsOk, IfErr};
ghost use Rattle.std.specs.Result.{OnErr};
ghost use Rattle.std.specs.Vec.{vec_len, vec_capacity};
ghost use Rattle.flow_law.specs.flow.Draining.{DrainsBy, TakesBy, IsFull};
ghost use Rattle.flow_law.specs.history.HandleFaults.{answer_by, memory_fault};
ghost use Rattle.flow_law.specs.history.History.{IsSubscription};
ghost use Rattle.flow_law.specs.history.Tokens.{numbered_token};
ghost use Rattle.flow_law.specs.declared.outcome.Drained.TheVariants.{Gone, Most};
ghost use Rattle.flow_core.specs.SubId.{number_of};
ghost use Rattle.flow_shared.specs.Attended.{AttendedAs};
ghost use Rattle.flow_shared.specs.BoundReplies.{drained_by};
ghost use Rattle.flow_shared.specs.Calls.{NextsOf};
ghost use Rattle.flow_shared.specs.Drains.{CoreNexts, said_since};

use crate::attended::{Attended, ToWake};
use crate::calling::Sleepless;
use crate::flow::Flow;
use crate::subscriber::TakeNext;
use crate::token::{FlowSeat, FlowSubscription};
use flow_core::{FlowCore, SubId, SubscriberCalls};
use flow_gate::NamesEvents;
use flow_law::{Drained, FlowFault, Next, OutOfMemory, Said};
use std::alloc::Allocator;
use std::snapshot::Snapshot;
use std::sync::Wait;

/// How a `drain` ended.
#[derive(Clone, Copy, Debug, PartialEq, Eq)]
pub enum DrainEnd {
    /// As many values were taken as the call asked for. The flow may have more.
    Most,
    /// The subscriber has received all values.
    Empty,
}

/// Returns how a drain ended, for a subscriber that is not gone.
fn drain_end(ended: Result<Drained, FlowFault>) -> Result<DrainEnd, OutOfMemory>
    requires live { ended ≢ Ok Gone }
    requires memory { IfErr ended (λ fault. fault ≡ FlowFault.OutOfMemory) }
    ensures { drained_by (answer_by memory_fault result) ≡ ended }
{
    match ended {
        Ok(Drained::Most) => Ok(DrainEnd::Most),
        Ok(_) => Ok(DrainEnd::Empty),
        Err(_fault) => Err(OutOfMemory),
    }
}

impl<S: SubscriberCalls, A: Allocator + Copy> Attended<S, A> {
    /// Appends values that a subscriber can receive, at most `most`, to the list, if no caller sleeps. Returns how
    /// many.
    pub(crate) fn take_held<B: Allocator>(
        &mut self,
        id: SubId,
        most: usize,
        values: &mut Vec<S::Item, B>,
    ) -> usize
        ensures most { result ≤ most }
        ensures taken { DrainsBy
            (CoreNexts S.kind (number_of id) (AttendedAs S.sleeping S.stands_as)) result
            self.old values.old.items (Ok Most) values.new.items self.new }
        ensures room { (vec_len values.new ≡ vec_len values.old + result) ×
            (vec_capacity values.old ≤ vec_capacity values.new) }
    {
        if self.is_alone() {
            return self.core.take_held(id, most, values);
        }
        0
    }
}

/// Takes the values that a subscriber can receive, at most `most`, into a list that has room for them: first those that
/// the core holds, all at once, and then the others by `next`.
fn take_values<S: SubscriberCalls, A: Allocator + Copy, B: Allocator>(
    state: &mut Attended<S, A>,
    id: SubId,
    most: usize,
    values: &mut Vec<S::Item, B>,
    woken: &mut ToWake<A>,
) -> Result<Drained, FlowFault>
    requires { vec_len values.old + most ≤ vec_capacity values.old }
    ensures takes { TakesBy
        (CoreNexts S.kind (number_of id) (AttendedAs S.sleeping S.stands_as)) most
        state.old values.old.items result values.new.items state.new }
    ensures given { S.Item.IsAlwaysCopied → IsOk result }
{
    let taken = state.take_held(id, most, values);
    for _ in taken..most {
        match state.call(TakeNext { id }, &mut Sleepless, woken)? {
            Next::Value(value) => values.push_reserved(value),
            Next::Empty => return Ok(Drained::Empty),
            Next::Gone => return Ok(Drained::Gone),
        }
    }
    Ok(Drained::Most)
}

/// The values that a drain appended to a list, and how it ended: the events with which its caller leaves.
#[derive(Drop)]
struct Taken<'a, S: FlowCore, B: Allocator> {
    id: SubId,
    before: Snapshot<Vec<S::Item, B>>,
    values: &'a Vec<S::Item, B>,
    ended: &'a Result<Drained, FlowFault>,
}

impl<'a, S: FlowCore, B: Allocator> NamesEvents<Said<S::Call, S::Reply>> for Taken<'a, S, B> {
    ghost events = { λ e _. said_since S.kind e.id.number e.before.value.items e.values.now.items e.ended.now };
}

impl<S: SubscriberCalls + Drop, A: Allocator + Copy> Flow<S, A> {
    /// Takes values in one entry, so that no other caller comes in between, and leaves with the events that name the
    /// calls.
    fn take<R: Wait, B: Allocator>(
        &self,
        rt: &R,
        id: SubId,
        seat: &mut FlowSeat<S, A>,
        most: usize,
        values: &mut Vec<S::Item, B>,
    ) -> Result<Drained, FlowFault>
        requires some { most ≢ 0 }
        requires room { vec_len values.old + most ≤ vec_capacity values.old }
        requires flow { seat.old.table_id ≡ self.now.table_id }
        requires subscribed { IsSubscription S.kind seat.old.knows (number_of id) }
        ensures drained { DrainsBy (NextsOf S.kind self.now) most
            (numbered_token seat.old (number_of id)) values.old.items
            result values.new.items (numbered_token seat.new (number_of id)) }
        ensures subscribed { IsSubscription S.kind seat.new.knows (number_of id) }
        ensures flow { seat.new.table_id ≡ seat.old.table_id }
        ensures given { S.Item.IsAlwaysCopied → IsOk result }
    {
        self.gate.enter(rt, &mut seat.seat);
        let before = Snapshot::of(values);
        let state = seat.seat.state(&self.gate);
        let mut woken = state.none_to_wake();
        let ended = take_values(state, id, most, values, &mut woken);
        self.gate.leave(
            &mut seat.seat,
            &Taken::<S, B> {
                id,
                before,
                values,
                ended: &ended,
            },
        );
        woken.wake();
        ended
    }

    /// Takes values, in one entry for all that the list has room for.
    fn drain_by<R: Wait, B: Allocator>(
        &self,
        rt: &R,
        seat: &mut FlowSeat<S, A>,
        id: SubId,
        most: usize,
        values: &mut Vec<S::Item, B>,
    ) -> Result<Drained, FlowFault>
        requires flow { seat.old.table_id ≡ self.now.table_id }
        requires subscribed { IsSubscription S.kind seat.old.knows (number_of id) }
        ensures drained { DrainsBy (NextsOf S.kind self.now) most
            (numbered_token seat.old (number_of id)) values.old.items
            result values.new.items (numbered_token seat.new (number_of id)) }
        ensures subscribed { IsSubscription S.kind seat.new.knows (number_of id) }
        ensures flow { seat.new.table_id ≡ seat.old.table_id }
        ensures full { S.Item.IsAlwaysCopied → OnErr result (IsFull values.new) }
    {
        let mut left = most;
        while left > 0 {
            if values.reserve(1).is_err() {
                return Err(FlowFault::OutOfMemory);
            }
            let room = left.min(values.capacity() - values.len());
            match self.take(rt, id, seat, room, values)? {
                Drained::Most => left -= room,
                ended => return Ok(ended),
            }
        }
        Ok(Drained::Most)
    }

    /// Appends the values that the subscriber can receive now, at most `most`, to the list, as if by calls of `next`.
    /// `Ok` says why it stopped.
    ///
    /// All that the list has room for is taken in one entry, which costs little more than one `next`: use the same list
    /// again. Other callers come in between two values only if the list has to grow.
    ///
    /// # Errors
    /// `OutOfMemory` if the list cannot grow or a copy is refused. The next value is still in the flow, the values
    /// before it are in the list, and a later call continues.
    pub fn drain<R: Wait, B: Allocator>(
        &self,
        rt: &R,
        subscription: &mut FlowSubscription<S, A>,
        most: usize,
        values: &mut Vec<S::Item, B>,
    ) -> Result<DrainEnd, OutOfMemory>
        requires { subscription.old.token.table_id ≡ self.now.table_id }
        // Each value is one event of the history that the subscription has seen.
        ensures drained { DrainsBy (NextsOf S.kind self.now) most subscription.old values.old.items
            (drained_by (answer_by memory_fault result)) values.new.items subscription.new }
        ensures flow { subscription.new.token.table_id ≡ subscription.old.token.table_id }
        ensures number { subscription.new.number ≡ subscription.old.number }
        // If copies are never refused, it fails only with a list that is full and cannot grow.
        ensures full { S.Item.IsAlwaysCopied → OnErr result (IsFull values.new) }
    {
        let id = subscription.id;
        let ended = self.drain_by(rt, &mut subscription.seat, id, most, values);
        drain_end(ended)
    }
}
