//! A state flow without a lock as the hub of a sharing.
ghost use Rattle.std.specs.Prelude.{◌≡◌, false, true, Ok};
ghost use Rattle.flow_law.specs.sharing.SharingCalls.{counts};
ghost use Rattle.flow_sharing.specs.SeatedHub.{seated, made_two};
ghost use Rattle.flow_sharing.specs.WordHub.{HasCome, WordHubDoes};

use flow_law::{FlowFault, Packed, Refused};
use flow_turns::{CountSince, Hub};
use flow_word::{CountWatch, WordSeat, WordState};
use std::marker::Model;

/// A borrowed `WordState` whose value a sharing sets beside other callers. Subscribers use the flow itself.
///
/// No item waits and no call is refused: each is one atomic step, so a turn is never `Busy`. Dropping a hub loses its
/// two seats.
#[derive(Drop)]
pub struct WordHub<'a, T: Packed> {
    pub(crate) flow: &'a WordState<T>,
    watching: WordSeat<T>,
    sending: WordSeat<T>,
    /// The packed value that a reset sets.
    initial: u64,
    /// The watch of the driver, if it watches: a change of the number of subscribers since the watch began wakes it.
    pub(crate) watch: Option<CountWatch<'a>>,
    /// How many subscriptions the flow had accepted at the last count of a run, if there was one.
    accepted: Option<u64>,
}

impl<'a, T: Packed> Model for WordHub<'a, T> {
    ghost use Rattle.flow_word.specs.Tokens.{WordId};
    ghost use Rattle.flow_sharing.specs.StateFlowHub.{StateSeats, state_seats};

    ghost Value = { StateSeats WordId T };

    ghost use Rattle.flow_sharing.specs.SeatedHub.{IsOf};

    ghost view = { λ h. state_seats h.flow.now h.watching h.sending (T.value_of h.initial) };

    ghost use Rattle.flow_sharing.specs.WordHub.{HasCounted};

    ghost invariant = { λ h.
        IsOf h.watching h.flow.now × IsOf h.sending h.flow.now × T.packs h.initial
        × HasCounted h.flow.now.first h.watching h.accepted };
}

impl<'a, T: Packed> WordHub<'a, T> {
    /// Makes a hub that has set nothing. Its two seats are made through `seat`, which the caller keeps. `initial` is
    /// what a reset sets: the value with which the flow began.
    pub fn new(flow: &'a WordState<T>, seat: &mut WordSeat<T>, initial: T) -> WordHub<'a, T>
        requires { seat.old.table_id ≡ flow.now.table_id }
        ensures hub { result ≡ seated flow.entry.now seat.old initial }
        ensures seat { seat.new ≡ made_two seat.old }
        ensures waits { ⟦<WordHub<'a, T> as Hub>⟧.waits result ≡ false }
    {
        let watching = flow.seat(seat);
        let sending = flow.seat(seat);
        WordHub {
            flow,
            watching,
            sending,
            initial: initial.pack(),
            watch: None,
            accepted: None,
        }
    }
}

impl<'a, T: Packed> Hub for WordHub<'a, T> {
    type Item = T;

    ghost use Rattle.flow_sharing.specs.SeatedHub.{nothing_waits};
    ghost use Rattle.flow_sharing.specs.WordHub.{WordHubDoes};

    ghost waits = { nothing_waits };

    ghost does = { WordHubDoes };

    ghost IsAlwaysReset = { Unit {0} };

    fn count(&mut self) -> Result<u64, FlowFault> {
        Ok(self.counted_since().count)
    }

    fn put(&mut self, value: T) -> Result<bool, Refused<T>> {
        self.flow.set(&mut self.sending, value);
        Ok(false)
    }

    fn poll(&mut self) -> Result<bool, FlowFault> {
        Ok(false)
    }

    fn cancel(&mut self) -> Result<bool, FlowFault> {
        Ok(false)
    }

    fn reset(&mut self) -> Result<(), FlowFault> {
        self.flow.set(&mut self.sending, T::unpack(self.initial));
        Ok(())
    }
}

impl<'a, T: Packed> WordHub<'a, T> {
    /// Counts the subscribers, and finds whether the flow has accepted a subscription since the last count.
    pub(crate) fn counted_since(&mut self) -> CountSince
        ensures counts { WordHubDoes counts self.old (Ok result.count) self.new }
        ensures came { result.has_come ≡ true → HasCome self.old self.new }
    {
        let counts = self.flow.counts(&mut self.watching);
        let last = self.accepted.replace(counts.accepted);
        CountSince {
            count: counts.subscribers,
            has_come: last.is_some_and(|accepted| accepted < counts.accepted),
        }
    }
}
