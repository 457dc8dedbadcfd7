//! A shared flow for several threads as the hub of a sharing.
ghost use Rattle.std.specs.Prelude.{◌≡◌, ⊤, false};
ghost use Rattle.flow_sharing.specs.SeatedHub.{seated, made_two};

use crate::sender::Sender;
use core::mem::replace_with;
use flow_law::{FlowFault, FlowValue, Refused};
use flow_shared::{Seat, SharedFlow, Watcher};
use flow_turns::{CountSince, Hub, WatchedHub};
use std::alloc::{Allocator, Global};
use std::marker::Model;
use std::sync::Wait;
use std::time::Duration;

/// A borrowed `SharedFlow` into which a sharing emits beside other callers. Subscribers use the flow itself.
///
/// None of its calls waits: if another caller is inside the flow, the call answers `Busy`, and the turn reports it. The
/// next turn does what was left undone.
///
/// # Dropping
/// Dropping a hub leaves its emission queued or offered, and its two seats are lost. To cancel the emission, stop the
/// sharing by a turn, or call `cancel`.
#[derive(Drop)]
pub struct SharedFlowHub<'a, T: FlowValue, A: Allocator + Copy = Global> {
    flow: &'a SharedFlow<T, A>,
    watching: Seat<T, A>,
    sending: Sender<T, A>,
    driver: Watcher<A>,
}

impl<'a, T: FlowValue, A: Allocator + Copy> Model for SharedFlowHub<'a, T, A> {
    ghost use Rattle.atomic_table.specs.Seated.{TableId};
    ghost use Rattle.flow_sharing.specs.SharedFlowHub.{SharedSeats, shared_seats};

    ghost Value = { SharedSeats TableId T };

    ghost use Rattle.flow_sharing.specs.SeatedHub.{IsOf};
    ghost use Rattle.flow_sharing.specs.Sender.{sender_token, sender_emission};

    ghost view = { λ h. shared_seats h.flow.now h.watching (sender_token h.sending)
        (sender_emission h.sending) };

    ghost invariant = { λ h. IsOf h.watching h.flow.now × IsOf (sender_token h.sending) h.flow.now };
}

impl<'a, T: FlowValue, A: Allocator + Copy> SharedFlowHub<'a, T, A> {
    /// Makes a hub that has emitted nothing. Its two seats are made through `seat`, which the caller keeps.
    pub fn new(flow: &'a SharedFlow<T, A>, seat: &mut Seat<T, A>) -> SharedFlowHub<'a, T, A>
        requires { seat.old.table_id ≡ flow.now.table_id }
        ensures hub { result ≡ seated flow.entry.now seat.old tt }
        ensures seat { seat.new ≡ made_two seat.old }
        ensures waits { ⟦<SharedFlowHub<'a, T, A> as Hub>⟧.waits result ≡ false }
    {
        let watching = flow.seat(seat);
        let sending = Sender::Idle(flow.seat(seat));
        SharedFlowHub {
            flow,
            watching,
            sending,
            driver: flow.watcher(),
        }
    }
}

impl<'a, T: FlowValue, A: Allocator + Copy> Hub for SharedFlowHub<'a, T, A> {
    type Item = T;

    ghost use Rattle.flow_sharing.specs.SeatedHub.{has_emission};
    ghost use Rattle.flow_sharing.specs.SharedFlowHub.{SharedFlowHubDoes};

    ghost waits = { has_emission };

    ghost does = { SharedFlowHubDoes };

    ghost IsAlwaysReset = { Unit {0} };

    fn count(&mut self) -> Result<u64, FlowFault> {
        self.flow
            .count_watched(&mut self.watching, &mut self.driver)
    }

    fn put(&mut self, value: T) -> Result<bool, Refused<T>> {
        replace_with(&mut self.sending, (self.flow, value), Sender::put)
    }

    fn poll(&mut self) -> Result<bool, FlowFault> {
        let call = (self.flow, &mut self.driver);
        replace_with(&mut self.sending, call, Sender::poll)
    }

    fn cancel(&mut self) -> Result<bool, FlowFault> {
        replace_with(&mut self.sending, self.flow, Sender::cancel)
    }

    fn reset(&mut self) -> Result<(), FlowFault> {
        replace_with(&mut self.sending, self.flow, Sender::reset)
    }
}

/// A change of the number of subscribers wakes the driver, and so do the end of its emission and `ask` of a `FlowStop`.
impl<'a, T: FlowValue, A: Allocator + Copy> WatchedHub for SharedFlowHub<'a, T, A> {
    ghost Came = { λ _ _. ⊤ };

    fn count_since(&mut self) -> Result<CountSince, FlowFault> {
        match self.count() {
            Ok(count) => Ok(CountSince {
                count,
                has_come: self.driver.has_come(),
            }),
            Err(fault) => Err(fault),
        }
    }

    fn watch<R: Wait>(&mut self, rt: &R) {
        self.driver.watch(rt);
    }

    fn sleep<R: Wait>(&mut self, rt: &R, most: Option<Duration>) {
        self.driver.sleep(rt, most);
    }

    fn unwatch(&mut self) {
        self.driver.unwatch();
    }
}
