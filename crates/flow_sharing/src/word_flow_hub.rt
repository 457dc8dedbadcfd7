//! A shared flow that is read without a lock as the hub of a sharing.
ghost use Rattle.std.specs.Prelude.{◌≡◌, false};
ghost use Rattle.flow_sharing.specs.SeatedHub.{seated, made_two};

use flow_law::{FlowFault, Refused, Words};
use flow_turns::Hub;
use flow_word_shared::{WordFlow, WordFlowSeat};
use std::marker::Model;

/// A borrowed `WordFlow` into which a sharing emits beside other callers. Subscribers use the flow itself.
///
/// No item waits: if a subscriber is a full buffer behind, it misses the oldest value under `DropOldest`; under
/// `DropLatest` the item is dropped. None of its calls waits: if another caller is faster, the call answers `Busy`, and
/// the next turn makes it again. Nothing wakes a driver that sleeps, so a caller takes the turns. Dropping a hub loses its
/// two seats.
#[derive(Drop)]
pub struct WordFlowHub<'a, T: Words> {
    flow: &'a WordFlow<T>,
    watching: WordFlowSeat<T>,
    sending: WordFlowSeat<T>,
}

impl<'a, T: Words> Model for WordFlowHub<'a, T> {
    ghost use Rattle.std.specs.Prelude.{None};
    ghost use Rattle.flow_word_shared.specs.Tokens.{WordFlowId};
    ghost use Rattle.flow_sharing.specs.SharedFlowHub.{SharedSeats, shared_seats};

    ghost Value = { SharedSeats WordFlowId T };

    ghost use Rattle.flow_sharing.specs.SeatedHub.{IsOf};

    ghost view = { λ h. shared_seats h.flow.now h.watching h.sending None };

    ghost invariant = { λ h. IsOf h.watching h.flow.now × IsOf h.sending h.flow.now };
}

impl<'a, T: Words> WordFlowHub<'a, T> {
    /// Makes a hub that has emitted nothing. Its two seats are made through `seat`, which the caller keeps.
    pub fn new(flow: &'a WordFlow<T>, seat: &mut WordFlowSeat<T>) -> WordFlowHub<'a, T>
        requires { seat.old.table_id ≡ flow.now.table_id }
        ensures hub { result ≡ seated flow.entry.now seat.old tt }
        ensures seat { seat.new ≡ made_two seat.old }
        ensures waits { ⟦<WordFlowHub<'a, T> as Hub>⟧.waits result ≡ false }
    {
        let watching = flow.seat(seat);
        let sending = flow.seat(seat);
        WordFlowHub {
            flow,
            watching,
            sending,
        }
    }
}

impl<'a, T: Words> Hub for WordFlowHub<'a, T> {
    type Item = T;

    ghost use Rattle.flow_sharing.specs.SeatedHub.{nothing_waits};
    ghost use Rattle.flow_sharing.specs.SharedFlowHub.{SharedFlowHubDoes};

    ghost waits = { nothing_waits };

    ghost does = { SharedFlowHubDoes };

    ghost IsAlwaysReset = { Unit {0} };

    fn count(&mut self) -> Result<u64, FlowFault> {
        Ok(self.flow.subscription_count(&mut self.watching))
    }

    fn put(&mut self, value: T) -> Result<bool, Refused<T>> {
        match self.flow.emit_now(&mut self.sending, value) {
            Ok(()) => Ok(false),
            Err(refused) => Err(refused),
        }
    }

    // `poll` and `cancel` read a field so that the prover looks into the hub, and finds that it has no emission.
    fn poll(&mut self) -> Result<bool, FlowFault> {
        let _flow = self.flow;
        Ok(false)
    }

    fn cancel(&mut self) -> Result<bool, FlowFault> {
        let _flow = self.flow;
        Ok(false)
    }

    fn reset(&mut self) -> Result<(), FlowFault> {
        self.flow.reset_now(&mut self.sending)
    }
}
