//! The token by which a hub emits into a shared flow.
ghost use Rattle.std.specs.Prelude.{◌≡◌, false, None, is_some, IfErr};
ghost use Rattle.flow_law.specs.sharing.SharingCalls as calls;
ghost use Rattle.flow_law.specs.sharing.SharingCalls.{waits_after};
ghost use Rattle.flow_turns.specs.Hub.{put_answer};
ghost use Rattle.flow_sharing.specs.Sender.{sender_token, sender_emission};
ghost use Rattle.flow_sharing.specs.SharedFlowHub.{PutBy, PollBy, CancelBy, ResetBy};

use flow_law::{FlowFault, FlowValue, Refused};
use flow_shared::{Emission, Emitted, PolledNow, Seat, SharedFlow, Watcher};
use std::alloc::Allocator;

/// A seat, or an emission that waits and holds the seat.
#[derive(Drop)]
pub(crate) enum Sender<T: FlowValue, A: Allocator + Copy> {
    Idle(Seat<T, A>),
    Waiting(Emission<T, A>),
}

impl<T: FlowValue, A: Allocator + Copy> Sender<T, A> {
    /// Emits a value, and returns whether the emission waits.
    pub(crate) fn put(self, call: (&SharedFlow<T, A>, T)) -> (Self, Result<bool, Refused<T>>)
        requires flow { (sender_token self).table_id ≡ call.0.now.table_id }
        requires idle { sender_emission self ≡ None }
        ensures puts { PutBy call.entry.0.now.first call.entry.1
            (sender_token self) (put_answer result.1)
            (sender_token result.0) (sender_emission result.0) }
        ensures waits { is_some (sender_emission result.0)
            ≡ waits_after (calls.puts call.entry.1) (put_answer result.1) false }
        ensures handed_back { IfErr result.1 (λ refused. refused.value ≡ call.entry.1) }
        ensures flow { (sender_token result.0).table_id ≡ (sender_token self).table_id }
    {
        let (flow, value) = call;
        let Sender::Idle(seat) = self else {
            unreachable!()
        };
        match flow.emit_now(seat, value) {
            Emitted::Done(seat) => (Sender::Idle(seat), Ok(false)),
            Emitted::Queued(emission) => (Sender::Waiting(emission), Ok(true)),
            Emitted::Refused(seat, value, fault) => (
                Sender::Idle(seat),
                Err(Refused { value, fault }),
            ),
        }
    }

    /// Returns whether the emission, if there is one, still waits.
    pub(crate) fn poll(
        self,
        call: (&SharedFlow<T, A>, &mut Watcher<A>),
    ) -> (Self, Result<bool, FlowFault>)
        requires { (sender_token self).table_id ≡ call.0.now.table_id }
        ensures polls { PollBy call.entry.0.now.first (sender_emission self) (sender_token self) result.1
            (sender_token result.0) (sender_emission result.0) }
        ensures waits { is_some (sender_emission result.0)
            ≡ waits_after {T = T} calls.polls result.1 (is_some (sender_emission self)) }
        ensures busy { IfErr result.1 (λ fault. fault ≡ FlowFault.Busy) }
        ensures flow { (sender_token result.0).table_id ≡ (sender_token self).table_id }
    {
        let (flow, watcher) = call;
        match self {
            Sender::Idle(seat) => (Sender::Idle(seat), Ok(false)),
            Sender::Waiting(emission) => match flow.poll_watched(emission, watcher) {
                PolledNow::Done(seat) => (Sender::Idle(seat), Ok(false)),
                PolledNow::Waiting(emission) => (Sender::Waiting(emission), Ok(true)),
                PolledNow::Busy(emission) => (Sender::Waiting(emission), Err(FlowFault::Busy)),
            },
        }
    }

    /// Cancels the emission, if there is one, and returns whether it waited.
    pub(crate) fn cancel(self, flow: &SharedFlow<T, A>) -> (Self, Result<bool, FlowFault>)
        requires { (sender_token self).table_id ≡ flow.now.table_id }
        ensures cancels { CancelBy flow.now.first (sender_emission self) (sender_token self) result.1
            (sender_token result.0) (sender_emission result.0) }
        ensures waits { is_some (sender_emission result.0)
            ≡ waits_after {T = T} calls.cancels result.1 (is_some (sender_emission self)) }
        ensures busy { IfErr result.1 (λ fault. fault ≡ FlowFault.Busy) }
        ensures flow { (sender_token result.0).table_id ≡ (sender_token self).table_id }
    {
        match self {
            Sender::Idle(seat) => (Sender::Idle(seat), Ok(false)),
            Sender::Waiting(emission) => match flow.cancel_now(emission) {
                Ok((seat, was_waiting)) => (Sender::Idle(seat), Ok(was_waiting)),
                Err(emission) => (Sender::Waiting(emission), Err(FlowFault::Busy)),
            },
        }
    }

    /// Empties the replay cache of the flow.
    pub(crate) fn reset(self, flow: &SharedFlow<T, A>) -> (Self, Result<(), FlowFault>)
        requires flow { (sender_token self).table_id ≡ flow.now.table_id }
        requires idle { sender_emission self ≡ None }
        ensures resets { ResetBy flow.now.first (sender_token self) result.1
            (sender_token result.0) (sender_emission result.0) }
        ensures waits { is_some (sender_emission result.0) ≡ false }
        ensures flow { (sender_token result.0).table_id ≡ (sender_token self).table_id }
    {
        let Sender::Idle(mut seat) = self else {
            unreachable!()
        };
        let answer = flow.reset_now(&mut seat);
        (Sender::Idle(seat), answer)
    }
}
