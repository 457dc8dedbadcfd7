//! A state flow for several threads as the hub of a sharing.
ghost use Rattle.std.specs.Prelude.{◌≡◌, ⊤, false};
ghost use Rattle.flow_sharing.specs.SeatedHub.{seated, made_two};

use flow_law::{FlowFault, FlowValue, Refused};
use flow_shared::{StateFlow, StateSeat, Watcher};
use flow_turns::{CountSince, Hub, WatchedHub};
use std::alloc::{Allocator, Global};
use std::marker::Model;
use std::sync::Wait;
use std::time::Duration;

/// A borrowed `StateFlow` whose value a sharing sets beside other callers. Subscribers use the flow itself.
///
/// No item waits. An item is refused only as `Busy`, if another caller is inside the flow; the next turn then sets it.
/// A reset copies the initial value, and may also fail with `OutOfMemory`. Dropping a hub loses its two seats.
#[derive(Drop)]
pub struct StateFlowHub<'a, T: FlowValue, A: Allocator + Copy = Global> {
    flow: &'a StateFlow<T, A>,
    watching: StateSeat<T, A>,
    sending: StateSeat<T, A>,
    /// The value that a reset sets.
    initial: T,
    driver: Watcher<A>,
}

impl<'a, T: FlowValue, A: Allocator + Copy> Model for StateFlowHub<'a, T, A> {
    ghost use Rattle.atomic_table.specs.Seated.{TableId};
    ghost use Rattle.flow_sharing.specs.StateFlowHub.{StateSeats, state_seats};

    ghost Value = { StateSeats TableId T };

    ghost use Rattle.flow_sharing.specs.SeatedHub.{IsOf};

    ghost view = { λ h. state_seats h.flow.now h.watching h.sending h.initial };

    ghost invariant = { λ h. IsOf h.watching h.flow.now × IsOf h.sending h.flow.now };
}

impl<'a, T: FlowValue, A: Allocator + Copy> StateFlowHub<'a, T, A> {
    /// Makes a hub that has set nothing. Its two seats are made through `seat`, which the caller keeps. `initial` is
    /// what a reset sets: the value with which the flow began.
    pub fn new(
        flow: &'a StateFlow<T, A>,
        seat: &mut StateSeat<T, A>,
        initial: T,
    ) -> StateFlowHub<'a, T, A>
        requires { seat.old.table_id ≡ flow.now.table_id }
        ensures hub { result ≡ seated flow.entry.now seat.old initial }
        ensures seat { seat.new ≡ made_two seat.old }
        ensures waits { ⟦<StateFlowHub<'a, T, A> as Hub>⟧.waits result ≡ false }
    {
        let watching = flow.seat(seat);
        let sending = flow.seat(seat);
        StateFlowHub {
            flow,
            watching,
            sending,
            initial,
            driver: flow.watcher(),
        }
    }
}

impl<'a, T: FlowValue, A: Allocator + Copy> Hub for StateFlowHub<'a, T, A> {
    type Item = T;

    ghost use Rattle.flow_sharing.specs.SeatedHub.{nothing_waits};
    ghost use Rattle.flow_sharing.specs.StateFlowHub.{StateFlowHubDoes};

    ghost waits = { nothing_waits };

    ghost does = { StateFlowHubDoes };

    ghost IsAlwaysReset = { T.IsAlwaysCopied };

    fn count(&mut self) -> Result<u64, FlowFault> {
        self.flow
            .count_watched(&mut self.watching, &mut self.driver)
    }

    fn put(&mut self, value: T) -> Result<bool, Refused<T>> {
        self.flow.set_now(&mut self.sending, value)?;
        Ok(false)
    }

    fn poll(&mut self) -> Result<bool, FlowFault> {
        Ok(false)
    }

    fn cancel(&mut self) -> Result<bool, FlowFault> {
        Ok(false)
    }

    fn reset(&mut self) -> Result<(), FlowFault> {
        let initial = match self.initial.try_copy() {
            Ok(initial) => initial,
            Err(fault) => return Err(fault),
        };
        match self.flow.set_now(&mut self.sending, initial) {
            Ok(()) => Ok(()),
            Err(refused) => Err(refused.fault),
        }
    }
}

/// A change of the number of subscribers wakes the driver, and so does `ask` of a `FlowStop`. No item of it ever waits.
impl<'a, T: FlowValue, A: Allocator + Copy> WatchedHub for StateFlowHub<'a, T, A> {
    ghost Came = { λ _ _. ⊤ };

    fn count_since(&mut self) -> Result<CountSince, FlowFault> {
        match self.count() {
            Ok(count) => Ok(CountSince {
                count,
                has_come: self.driver.has_come(),
            }),
            Err(fault) => Err(fault),
        }
    }

    fn watch<R: Wait>(&mut self, rt: &R) {
        self.driver.watch(rt);
    }

    fn sleep<R: Wait>(&mut self, rt: &R, most: Option<Duration>) {
        self.driver.sleep(rt, most);
    }

    fn unwatch(&mut self) {
        self.driver.unwatch();
    }
}
