//! Subscribing, unsubscribing and counting.
ghost use Rattle.std.specs.Prelude.{◌≡◌, ◌⊎◌, ℕ, ◌+◌, ◌<◌, ◌^◌, IfSome, IfErr, None, [], true};
ghost use Rattle.flow_law.specs.declared.config.Overflow.TheVariants.{DropOldest};
ghost use Rattle.flow_law.specs.declared.fault.FlowFault.TheVariants.{Exhausted, OutOfMemory};
ghost use Rattle.flow_law.specs.declared.call.SharedCall.TheVariants as call;
ghost use Rattle.flow_law.specs.declared.call.SharedReply.TheVariants as reply;
ghost use Rattle.flow_law.specs.flow.SharedHistory.{shared_flow};
ghost use Rattle.flow_law.specs.history.Tokens.{IsBusy, SubscribesIn, UnsubscribesIn};
ghost use Rattle.flow_law.specs.history.Promise.{CallsAtOnceIn};
ghost use Rattle.flow_word_shared.specs.PlaceSteps.{MayTake, TakesAt};
ghost use Rattle.flow_word_shared.specs.Rule.{place_at};
ghost use Rattle.flow_word_shared.specs.Tokens.{ring_token, IsHolding, IsSubscriberAt};

use crate::place::Place;
use crate::plays::{
    CountIssued, CountLive, CountMark, Enroll, EnrollAt, Flag, FreePlace, HandOver, Leave, Make,
    RefusePlace, RefuseSubscriber, Release, RunAhead, SetLow, Take, TakePlace,
};
use crate::token::{WordFlow, WordFlowSeat, WordFlowSubscription};
use crate::view::RingKnown;
use atomic_table::Seat;
use flow_law::{FlowFault, Sequence, Words};
use std::sync::Wait;
use std::thread;

impl<T: Words> WordFlow<T> {
    /// Tries once to subscribe to a flow without places. Returns `None` if another caller was faster.
    fn try_subscribe(
        &self,
        seat: &mut WordFlowSeat<T>,
    ) -> Option<Result<WordFlowSubscription<T>, FlowFault>>
        requires flow { seat.old.table_id ≡ self.now.table_id }
        requires places { self.now.table_id.start.places ≡ 0 }
        ensures subscribed { IfSome result (λ r. SubscribesIn shared_flow
            self.now.first (λ name. call.Subscribe name []) seat.old r seat.new) }
        ensures refused { IfSome result (λ r. IfErr r (λ fault. fault ≡ Exhausted)) }
        ensures lost { result ≡ None → IsBusy seat.old seat.new }
    {
        let expected = seat.expected;
        let shared = &self.table.shared;
        let found = shared.compare_exchange::<Take>(&mut seat.seat, 0, expected, expected + 1);
        if found != expected {
            seat.expected = found - found % 2;
            return None;
        }
        let length = expected / 2;
        let made = shared.load::<CountIssued>(&mut seat.seat, 1);
        let issued = made + length;
        if issued >= self.limit {
            shared.load::<RefuseSubscriber>(&mut seat.seat, 3);
            shared.store::<Release>(&mut seat.seat, 0, expected);
            return Some(Err(FlowFault::Exhausted));
        }
        let mark = shared.load::<CountMark>(&mut seat.seat, 3);
        shared.store::<RunAhead>(&mut seat.seat, 1, made + 1);
        shared.fetch_add::<Enroll>(&mut seat.seat, 2, 1);
        shared.store::<Release>(&mut seat.seat, 0, expected);
        Some(Ok(WordFlowSubscription {
            seat: shared.split_seat::<Make>(&mut seat.seat),
            number: issued + 1,
            position: mark.max(length.saturating_sub(self.replay)),
            seen: length,
            place: None,
            has_left_waker: false,
        }))
    }

    /// Takes a free place for a new subscriber at this position, for a caller that holds the lock bit. Returns `None` if no
    /// place is free.
    fn take_place(
        &self,
        seat: &mut Seat<(), Sequence<RingKnown<T>>>,
        position: u64,
    ) -> Option<usize>
        requires flow { (ring_token seat.old).table_id ≡ self.now.table_id }
        requires small { position + 1 < 2 ^ 63 }
        requires holds { MayTake seat.old position }
        ensures flow { seat.new.table_id ≡ seat.old.table_id }
        ensures taken { IfSome result (λ word. (place : ℕ) × (place < self.now.table_id.start.places)
            × (word ≡ place_at self.now.table_id.start place) × TakesAt seat.old.me place position seat.new.me) }
        ensures full { result ≡ None → seat.new.me ≡ seat.old.me }
    {
        for place in 0..self.places {
            let word = self.place_word(place);
            let taken = 2 * position + 3;
            let found = self
                .table
                .shared
                .compare_exchange::<TakePlace>(seat, word, 0, taken);
            if found == 0 {
                return Some(word);
            }
        }
        None
    }

    /// Tries once to subscribe to a flow with places. Returns `None` if another caller was faster.
    fn try_subscribe_at(
        &self,
        seat: &mut WordFlowSeat<T>,
    ) -> Option<Result<WordFlowSubscription<T>, FlowFault>>
        requires flow { seat.old.table_id ≡ self.now.table_id }
        requires places { 0 < self.now.table_id.start.places }
        ensures subscribed { IfSome result (λ r. SubscribesIn shared_flow
            self.now.first (λ name. call.Subscribe name []) seat.old r seat.new) }
        ensures refused { IfSome result (λ r. IfErr r
            (λ fault. (fault ≡ Exhausted) ⊎ (fault ≡ OutOfMemory))) }
        ensures lost { result ≡ None → IsBusy seat.old seat.new }
    {
        let expected = seat.expected;
        let shared = &self.table.shared;
        let found = shared.compare_exchange::<Take>(&mut seat.seat, 0, expected, expected + 1);
        if found != expected {
            seat.expected = found - found % 2;
            return None;
        }
        let length = expected / 2;
        let made = shared.load::<CountIssued>(&mut seat.seat, 1);
        let issued = made + length;
        if issued >= self.limit {
            shared.load::<RefuseSubscriber>(&mut seat.seat, 3);
            shared.store::<Release>(&mut seat.seat, 0, expected);
            return Some(Err(FlowFault::Exhausted));
        }
        let mark = shared.load::<CountMark>(&mut seat.seat, 3);
        let position = mark.max(length.saturating_sub(self.replay));
        let least = length.saturating_sub(self.capacity);
        shared.store::<SetLow>(&mut seat.seat, self.low, least);
        let Some(word) = self.take_place(&mut seat.seat, position) else {
            shared.load::<RefusePlace>(&mut seat.seat, 3);
            shared.store::<Release>(&mut seat.seat, 0, expected);
            return Some(Err(FlowFault::OutOfMemory));
        };
        shared.store::<RunAhead>(&mut seat.seat, 1, made + 1);
        shared.fetch_add::<EnrollAt>(&mut seat.seat, 2, 1);
        let mut own = shared.split_seat::<HandOver>(&mut seat.seat);
        shared.store::<Flag<false>>(&mut own, word, 2 * position + 2);
        shared.store::<Release>(&mut seat.seat, 0, expected);
        Some(Ok(WordFlowSubscription {
            seat: own,
            number: issued + 1,
            position,
            seen: 0,
            place: Some(Place {
                word,
                known: length,
            }),
            has_left_waker: false,
        }))
    }

    /// Tries once to subscribe, in the way of the flow's strategy. Returns `None` if another caller was faster.
    fn try_subscription(
        &self,
        seat: &mut WordFlowSeat<T>,
    ) -> Option<Result<WordFlowSubscription<T>, FlowFault>>
        requires flow { seat.old.table_id ≡ self.now.table_id }
        ensures subscribed { IfSome result (λ r. SubscribesIn shared_flow
            self.now.first (λ name. call.Subscribe name []) seat.old r seat.new) }
        ensures refused { IfSome result (λ r. IfErr r
            (λ fault. (fault ≡ Exhausted) ⊎ (fault ≡ OutOfMemory))) }
        ensures exhausted { self.now.first.config.overflow ≡ DropOldest →
            IfSome result (λ r. IfErr r (λ fault. fault ≡ Exhausted)) }
        ensures lost { result ≡ None → IsBusy seat.old seat.new }
    {
        if self.places > 0 {
            return self.try_subscribe_at(seat);
        }
        self.try_subscribe(seat)
    }

    /// Subscribes. The subscriber receives the replay cache first.
    ///
    /// The subscription has a seat of its own, made through this one. No emitter waits for a subscriber that does not read:
    /// it misses the oldest values, or under `DropLatest` all subscribers miss the latest ones.
    ///
    /// # Errors
    /// `Exhausted` if the flow has issued as many numbers as its limit allows. Under `DropLatest` `OutOfMemory` if no place
    /// is free. It takes no memory.
    ///
    /// # Source
    /// `SharedFlow.collect`.
    pub fn subscribe<R: Wait>(
        &self,
        rt: &R,
        seat: &mut WordFlowSeat<T>,
    ) -> Result<WordFlowSubscription<T>, FlowFault>
        requires { seat.old.table_id ≡ self.now.table_id }
        ensures subscribed { SubscribesIn shared_flow
            self.now.first (λ name. call.Subscribe name []) seat.old result seat.new }
        ensures refused { IfErr result (λ fault. (fault ≡ Exhausted) ⊎ (fault ≡ OutOfMemory)) }
        ensures exhausted { self.now.first.config.overflow ≡ DropOldest →
            IfErr result (λ fault. fault ≡ Exhausted) }
    {
        for _ in rt.forever() {
            match self.try_subscription(seat) {
                Some(answer) => return answer,
                None => thread::yield_now(),
            }
        }
        unreachable!()
    }

    /// Takes a subscriber out of the flow, and frees its place if it has one.
    fn leave(
        &self,
        seat: &mut Seat<(), Sequence<RingKnown<T>>>,
        number: u64,
        position: u64,
        place: Option<Place>,
    )
        requires flow { (ring_token seat.old).table_id ≡ self.now.table_id }
        requires subscribed { IsSubscriberAt place seat.old number position 0 }
        requires small { position < 2 ^ 63 }
        ensures flow { seat.new.table_id ≡ seat.old.table_id }
        ensures called { CallsAtOnceIn shared_flow self.now.first (ring_token seat.old)
            (call.Unsubscribe number) (reply.Tested true) (ring_token seat.new) }
        ensures idle { IsHolding None seat.new }
    {
        let shared = &self.table.shared;
        match place {
            Some(place) => {
                shared.store::<Flag<true>>(seat, place.word, 2 * position + 3);
                shared.fetch_sub::<Leave>(seat, 2, 1);
                shared.store::<FreePlace>(seat, place.word, 0);
            }
            None => {
                shared.fetch_sub::<Leave>(seat, 2, 1);
            }
        }
    }

    /// Ends the subscription, and returns its seat, for other calls. A waker that a task left by a future or a stream of
    /// the subscription is removed, and the task is woken.
    pub fn unsubscribe(&self, subscription: WordFlowSubscription<T>) -> WordFlowSeat<T>
        requires { subscription.token.table_id ≡ self.now.table_id }
        ensures { UnsubscribesIn shared_flow self.now.first subscription result }
    {
        let WordFlowSubscription {
            mut seat,
            number,
            position,
            seen: _,
            place,
            has_left_waker,
        } = subscription;
        self.leave(&mut seat, number, position, place);
        if has_left_waker {
            self.readers.remove(number);
        }
        WordFlowSeat { seat, expected: 0 }
    }

    /// Counts the subscribers. A dropped subscription still counts: only `unsubscribe` ends one.
    pub fn subscription_count(&self, seat: &mut WordFlowSeat<T>) -> u64
        requires { seat.old.table_id ≡ self.now.table_id }
        ensures { CallsAtOnceIn shared_flow self.now.first seat.old call.SubscriptionCount
            (reply.Counted result) seat.new }
    {
        self.table.shared.load::<CountLive>(&mut seat.seat, 2)
    }
}
