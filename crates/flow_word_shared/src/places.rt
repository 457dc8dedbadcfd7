//! The places of subscribers, into which they store their positions, if the flow drops the latest values. An emitter looks at
//! them only if a lower bound of the positions does not say that there is room.
ghost use Rattle.std.specs.Prelude.{◌≡◌, ◌≢◌, ◌<◌, ◌^◌, [], length, IfErr, Ok, true, false};
ghost use Rattle.flow_law.specs.declared.fault.FlowFault.TheVariants.{Exhausted};
ghost use Rattle.flow_law.specs.declared.call.SharedCall.TheVariants as call;
ghost use Rattle.flow_law.specs.declared.call.SharedReply.TheVariants as reply;
ghost use Rattle.flow_law.specs.declared.outcome.Next.TheVariants.{Gone};
ghost use Rattle.flow_law.specs.flow.SharedHistory.{shared_flow};
ghost use Rattle.flow_law.specs.history.Tokens.{IsBusy};
ghost use Rattle.flow_law.specs.history.Promise.{CallsAtOnceIn};
ghost use Rattle.flow_word_shared.specs.PlaceSteps.{FindsRoom, IsFilled};
ghost use Rattle.flow_word_shared.specs.Rule.{place_at};
ghost use Rattle.flow_word_shared.specs.Steps.{emission_of, emission_done};
ghost use Rattle.flow_word_shared.specs.Tokens.{ring_token, IsReading, HasPlace};

use crate::place::{Place, Room};
use crate::plays::{
    Advance, CheckPlace, CountIssued, GiveUp, LookLow, Publish, Refuse, Release, SetLow, Take,
};
use crate::reading::Pack;
use crate::token::{STRIDE, WordFlow, WordFlowSeat};
use crate::view::RingKnown;
use atomic_table::Seat;
use flow_law::{Next, Sequence, Words};

impl<T: Words> WordFlow<T> {
    /// Returns the word of a place.
    #[inline(always)]
    pub(crate) fn place_word(&self, place: u64) -> usize
        requires { place < self.now.table_id.start.places }
        ensures { result ≡ place_at self.now.table_id.start place }
    {
        self.low + STRIDE * (place as usize + 1)
    }

    /// Looks whether a subscriber is a full buffer behind, for a caller that holds the lock bit and has filled the free
    /// cells. If one is, this is an emission, by `try_emit` or by `emit`, whose value is dropped.
    pub(crate) fn find_room<const TRIES: bool>(
        &self,
        seat: &mut Seat<(), Sequence<RingKnown<T>>>,
        length: u64,
    ) -> Room
        requires flow { (ring_token seat.old).table_id ≡ self.now.table_id }
        requires places { 0 < self.now.table_id.start.places }
        requires holds { IsFilled seat.old length }
        ensures flow { seat.new.table_id ≡ seat.old.table_id }
        ensures found { FindsRoom T.value_in TRIES result seat.old.me seat.new.me }
    {
        let low = self.table.shared.load::<LookLow>(seat, self.low);
        if length.saturating_sub(low) < self.capacity {
            return Room::Open;
        }
        self.check_places::<TRIES>(seat, length)
    }

    /// Looks into each place, as `find_room` does.
    fn check_places<const TRIES: bool>(
        &self,
        seat: &mut Seat<(), Sequence<RingKnown<T>>>,
        length: u64,
    ) -> Room
        requires flow { (ring_token seat.old).table_id ≡ self.now.table_id }
        requires places { 0 < self.now.table_id.start.places }
        requires holds { IsFilled seat.old length }
        ensures flow { seat.new.table_id ≡ seat.old.table_id }
        ensures found { FindsRoom T.value_in TRIES result seat.old.me seat.new.me }
    {
        let shared = &self.table.shared;
        let mut least = length;
        for place in 0..self.places {
            let word = shared.load::<CheckPlace<TRIES>>(seat, self.place_word(place));
            if word == 0 {
                continue;
            }
            let position = word / 2 - 1;
            if length.saturating_sub(position) >= self.capacity {
                if word % 2 == 1 {
                    return Room::Unknown;
                }
                return Room::Blocked;
            }
            least = least.min(position);
        }
        shared.store::<SetLow>(seat, self.low, least);
        Room::Open
    }

    /// Tries once to emit into a flow whose subscribers have places, as `emit_once` does. If one of them is a full buffer
    /// behind, the value is dropped. The attempt also fails if such a subscriber is coming or leaving.
    pub(crate) fn emit_checked<const TRIES: bool>(
        &self,
        seat: &mut WordFlowSeat<T>,
        words: &[u64],
    ) -> Result<bool, bool>
        requires flow { seat.old.table_id ≡ self.now.table_id }
        requires places { 0 < self.now.table_id.start.places }
        requires words { T.are_words words.now }
        requires width { length words.now ≡ T.WIDTH }
        ensures emitted { result ≡ Ok true → CallsAtOnceIn shared_flow self.now.first seat.old
            (emission_of TRIES (T.value_in words.now)) (emission_done TRIES) seat.new }
        ensures refused { result ≡ Ok false → CallsAtOnceIn shared_flow self.now.first seat.old
            (emission_of TRIES (T.value_in words.now)) (reply.Refused Exhausted) seat.new }
        ensures lost { IfErr result (λ _. IsBusy seat.old seat.new) }
    {
        let expected = seat.expected;
        let shared = &self.table.shared;
        let found = shared.compare_exchange::<Take>(&mut seat.seat, 0, expected, expected + 1);
        if found != expected {
            let odd = found % 2;
            seat.expected = found - odd;
            return Err(odd == 1);
        }
        let length = expected / 2;
        self.fill(&mut seat.seat, length, words);
        match self.find_room::<TRIES>(&mut seat.seat, length) {
            Room::Open => {}
            Room::Blocked => {
                shared.store::<Release>(&mut seat.seat, 0, expected);
                return Ok(true);
            }
            Room::Unknown => {
                shared.store::<GiveUp>(&mut seat.seat, 0, expected);
                return Err(true);
            }
        }
        let made = shared.load::<CountIssued>(&mut seat.seat, 1);
        if made + length >= self.limit {
            shared.load::<Refuse<TRIES>>(&mut seat.seat, 1);
            shared.store::<Release>(&mut seat.seat, 0, expected);
            return Ok(false);
        }
        shared.store::<Publish<TRIES>>(&mut seat.seat, 0, expected + 2);
        seat.expected = expected + 2;
        self.readers.wake();
        Ok(true)
    }

    /// Receives the next value, for a subscriber that has a place. It loads the words of the value, and then stores its
    /// position into the place: until then no emitter overwrites them.
    #[inline(never)]
    pub(crate) fn next_at(
        &self,
        seat: &mut Seat<(), Sequence<RingKnown<T>>>,
        number: u64,
        position: &mut u64,
        place: &mut Place,
    ) -> Next<T>
        requires flow { (ring_token seat.old).table_id ≡ self.now.table_id }
        requires reading { IsReading seat.old number position.old [] 0 }
        requires place { HasPlace false seat.old place.old }
        requires small { position.old < 2 ^ 63 }
        ensures called { CallsAtOnceIn shared_flow self.now.first (ring_token seat.old)
            (call.TakeNext number) (reply.Received result) (ring_token seat.new) }
        ensures live { result ≢ Gone }
        ensures reading { IsReading seat.new number position.new [] 0 }
        ensures place { HasPlace false seat.new place.new }
        ensures small { position.new < 2 ^ 63 }
    {
        place.known = self.look(seat, number, *position, place.known);
        if place.known <= *position {
            return Next::Empty;
        }
        let mut words = Pack::new();
        self.read_value(seat, number, *position, place.known, 0, &mut words);
        self.table
            .shared
            .store::<Advance>(seat, place.word, 2 * *position + 4);
        *position += 1;
        Next::Value(T::of_words(words.as_slice()))
    }
}
