//! Ending the subscription or the emission of a handle or a future that is dropped.
//!
//! A drop has no `rt`, so it makes the call that does not wait. While other callers are inside the flow, it yields the
//! thread and tries again, at most `TRIES` times.
ghost use Rattle.std.specs.Prelude.{◌≡◌, ◌+◌, IfOk, IfErr};
ghost use Rattle.flow_shared.specs.Calls.{Unsubscribes, UnsubscribesNow};
ghost use Rattle.flow_shared.specs.SharedReplies.{Cancels};

use crate::calling::{AtOnce, Sleepless};
use crate::flow::Flow;
use crate::shared::Seat;
use crate::subscriber::Unsubscribe;
use crate::token::{Emission, FlowSeat, FlowSubscription};
use flow_core::{ReaderCalls, SharedCore};
use flow_law::FlowValue;
use std::alloc::Allocator;
use std::thread;

/// How often a drop tries. A caller is inside for less than a microsecond, unless its thread is interrupted there.
pub(crate) const TRIES: u32 = 100_000;

impl<S: ReaderCalls + Drop, A: Allocator + Copy> Flow<S, A> {
    /// Ends the subscription if no other caller is inside; otherwise returns it.
    pub fn unsubscribe_now(
        &self,
        subscription: FlowSubscription<S, A>,
    ) -> Result<FlowSeat<S, A>, FlowSubscription<S, A>>
        requires { subscription.token.table_id ≡ self.now.table_id }
        ensures { UnsubscribesNow S.kind self.now subscription result }
    {
        let FlowSubscription { mut seat, id } = subscription;
        match self.call_by(&AtOnce, &mut seat, Unsubscribe { id }, &mut Sleepless) {
            Ok(_was_there) => Ok(seat),
            Err(_back) => Err(FlowSubscription { seat, id }),
        }
    }

    /// Ends the subscription within `tries` tries. If another caller was inside at each of them, returns the
    /// subscription as `Err`.
    pub(crate) fn unsubscribe_within(
        &self,
        subscription: FlowSubscription<S, A>,
        tries: u32,
    ) -> Result<FlowSeat<S, A>, FlowSubscription<S, A>>
        requires { subscription.token.table_id ≡ self.now.table_id }
        ensures ended { IfOk result (Unsubscribes S.kind self.now subscription) }
        ensures tried { IfErr result (λ back.
            back.token.knows.lost ≡ subscription.token.knows.lost + tries) }
    {
        let mut subscription = subscription;
        for _ in 0..tries {
            match self.unsubscribe_now(subscription) {
                Ok(seat) => return Ok(seat),
                Err(back) => subscription = back,
            }
            thread::yield_now();
        }
        Err(subscription)
    }
}

impl<T: FlowValue, A: Allocator + Copy> Flow<SharedCore<T, A>, A> {
    /// Cancels the emission within `tries` tries. If another caller was inside at each of them, returns it as `Err`.
    pub(crate) fn cancel_within(
        &self,
        emission: Emission<T, A>,
        tries: u32,
    ) -> Result<(Seat<T, A>, bool), Emission<T, A>>
        requires { emission.token.table_id ≡ self.now.table_id }
        ensures ended { IfOk result (Cancels self.now emission) }
        ensures tried { IfErr result (λ back.
            back.token.knows.lost ≡ emission.token.knows.lost + tries) }
    {
        let mut emission = emission;
        for _ in 0..tries {
            match self.cancel_now(emission) {
                Ok(ended) => return Ok(ended),
                Err(back) => emission = back,
            }
            thread::yield_now();
        }
        Err(emission)
    }
}
