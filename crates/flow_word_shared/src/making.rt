//! Making a flow, and its seats.
ghost use Rattle.std.specs.Prelude.{◌≡◌, ◌≢◌, ◌+◌, ◌<◌, ◌≤◌, ◌^◌, MatchResult, None};
ghost use Rattle.flow_law.specs.declared.config.Overflow.TheVariants.{DropOldest, Suspend};
ghost use Rattle.flow_law.specs.declared.fault.FlowFault.TheVariants.{OutOfMemory};
ghost use Rattle.flow_law.specs.history.Growth.{makes, child};
ghost use Rattle.flow_law.specs.flow.SharedFlow.{config_fault, first_state};
ghost use Rattle.flow_law.specs.history.Tokens.{Begins, knowing};
ghost use Rattle.flow_word_shared.specs.declared.fault.WordFlowFault.TheVariants.{Flow};
ghost use Rattle.flow_word_shared.specs.Answers.{NoWordFlow, NoPlacedFlow, with_word_limit};
ghost use Rattle.flow_word_shared.specs.Rule.{HasPlacesFor, words_of_places};

use crate::fault::WordFlowFault;
use crate::plays::Make;
use crate::token::{HEAD, STRIDE, WordFlow, WordFlowSeat, WordFlowSubscription};
use crate::view::RingStart;
use atomic_table::Table;
use flow_law::{Config, FlowFault, Overflow, Words};
use flow_word::sleepers::WordSleepers;
use std::alloc::Global;

/// The most numbers that a flow issues: twice the number of emitted values, and one more, has to fit a word.
const MOST_NUMBERS: u64 = (1 << 63) - 1;

/// The largest buffer of a shared flow.
const LARGEST_CAPACITY: u64 = 65_536;

/// Returns how many words so many places take, with those of their lower bound.
fn words_for(places: u64) -> usize
    requires { places < 2 ^ 32 }
    ensures { result ≡ words_of_places places }
{
    if places == 0 {
        return 0;
    }
    STRIDE * (places as usize + 1)
}

impl<T: Words> WordFlow<T> {
    /// Makes a flow, and its first seat. Every other seat is made through this one, directly or through other seats.
    ///
    /// It drops the oldest values, so the configuration needs a buffer and the strategy `DropOldest`; for `DropLatest` call
    /// `for_subscribers`. A limit of 2^63 or more counts as 2^63 - 1. This call takes all memory that the flow needs: the
    /// words of as many values as the buffer holds, rounded up to a power of two above that, and four more.
    ///
    /// # Errors
    /// `TooLarge` or `NeedsBuffer` as of a `SharedFlow`, else `Strategy` for another strategy, else `OutOfMemory`.
    ///
    /// # Source
    /// `MutableSharedFlow(replay, extraBufferCapacity, BufferOverflow.DROP_OLDEST)`.
    pub fn new(
        alloc: Global,
        config: Config,
    ) -> Result<(WordFlow<T>, WordFlowSeat<T>), WordFlowFault>
        ensures { MatchResult result
            (λ made. (config_fault config ≡ None) × (config.overflow ≡ DropOldest)
            × Begins (first_state (with_word_limit config)) made)
            (NoWordFlow config) }
    {
        let capacity = u64::from(config.replay) + u64::from(config.extra);
        if capacity > LARGEST_CAPACITY {
            return Err(WordFlowFault::Flow(FlowFault::TooLarge));
        }
        match config.overflow {
            Overflow::DropOldest => {}
            Overflow::DropLatest if capacity == 0 => {
                return Err(WordFlowFault::Flow(FlowFault::NeedsBuffer));
            }
            Overflow::DropLatest | Overflow::Suspend => {
                return Err(WordFlowFault::Strategy(config.overflow));
            }
        }
        if capacity == 0 {
            return Err(WordFlowFault::Flow(FlowFault::NeedsBuffer));
        }
        let limit = config.limit.min(MOST_NUMBERS);
        Self::begin(alloc, config.limit(limit), capacity, 0)
    }

    /// Makes a flow for at most so many subscribers at a time, and its first seat.
    ///
    /// It drops the oldest or the latest values. Under `DropOldest` it is the flow that `new` makes, for any number of
    /// subscribers. Under `DropLatest` each subscriber has a place, which takes eight words: for 0 subscribers the flow
    /// has one, too.
    ///
    /// # Errors
    /// `TooLarge` or `NeedsBuffer` as of a `SharedFlow`, else `Strategy` for `Suspend`, else `OutOfMemory`.
    ///
    /// # Source
    /// `MutableSharedFlow(replay, extraBufferCapacity, BufferOverflow.DROP_LATEST)`.
    pub fn for_subscribers(
        alloc: Global,
        config: Config,
        subscribers: u32,
    ) -> Result<(WordFlow<T>, WordFlowSeat<T>), WordFlowFault>
        ensures { MatchResult result
            (λ made. (config_fault config ≡ None) × (config.overflow ≢ Suspend)
            × Begins (first_state (with_word_limit config)) made)
            (NoPlacedFlow config) }
    {
        let capacity = u64::from(config.replay) + u64::from(config.extra);
        if capacity > LARGEST_CAPACITY {
            return Err(WordFlowFault::Flow(FlowFault::TooLarge));
        }
        let places = match config.overflow {
            Overflow::DropOldest => 0,
            Overflow::DropLatest => u64::from(subscribers.max(1)),
            Overflow::Suspend => return Err(WordFlowFault::Strategy(Overflow::Suspend)),
        };
        if capacity == 0 {
            return Err(WordFlowFault::Flow(FlowFault::NeedsBuffer));
        }
        let limit = config.limit.min(MOST_NUMBERS);
        Self::begin(alloc, config.limit(limit), capacity, places)
    }

    /// Makes a flow of a configuration that it may have.
    fn begin(
        alloc: Global,
        config: Config,
        capacity: u64,
        places: u64,
    ) -> Result<(WordFlow<T>, WordFlowSeat<T>), WordFlowFault>
        requires none { config_fault config ≡ None }
        requires strategy { HasPlacesFor config.overflow places × (places < 2 ^ 32) }
        requires limit { config.limit < 2 ^ 63 }
        requires capacity { (capacity ≡ config.replay + config.extra) × (0 < capacity) × (capacity ≤ 65536) }
        ensures { MatchResult result (Begins (first_state config))
            (λ fault. fault ≡ Flow OutOfMemory) }
    {
        let room = (capacity + 1).next_power_of_two();
        let width = T::WIDTH;
        let start = RingStart {
            config,
            room,
            width: width as u64,
            places,
        };
        let low = HEAD + room as usize * width;
        let tail = words_for(places);
        let Ok(words) = vec![in alloc; 0; low + tail] else {
            return Err(WordFlowFault::Flow(FlowFault::OutOfMemory));
        };
        match Table::of_words(alloc, words.as_slice(), &start) {
            Ok((table, seat)) => {
                let flow = WordFlow {
                    table,
                    alloc,
                    room,
                    mask: room - 1,
                    capacity,
                    replay: u64::from(config.replay),
                    limit: config.limit,
                    places,
                    low,
                    readers: WordSleepers::new(alloc),
                };
                Ok((flow, WordFlowSeat { seat, expected: 0 }))
            }
            Err(_failed) => Err(WordFlowFault::Flow(FlowFault::OutOfMemory)),
        }
    }

    /// Makes a seat through another one. Call it for each thread, before the thread starts.
    ///
    /// The new seat has seen what its maker had seen, and has a name of its own. After it is dropped, no call is made
    /// under its name; the flow does not change.
    pub fn seat(&self, seat: &mut WordFlowSeat<T>) -> WordFlowSeat<T>
        requires { seat.old.table_id ≡ self.now.table_id }
        ensures maker { seat.new ≡ knowing seat.old (makes seat.old.knows) }
        ensures made { result ≡ knowing seat.old (child seat.old.knows) }
    {
        let expected = seat.expected;
        WordFlowSeat {
            seat: self.table.shared.split_seat::<Make>(&mut seat.seat),
            expected,
        }
    }

    /// Makes a seat through the seat of a subscription.
    pub(crate) fn seat_by(&self, subscription: &mut WordFlowSubscription<T>) -> WordFlowSeat<T>
        requires { subscription.old.token.table_id ≡ self.now.table_id }
        ensures maker { subscription.new.token
            ≡ knowing subscription.old.token (makes subscription.old.token.knows) }
        ensures number { subscription.new.number ≡ subscription.old.number }
        ensures made { result ≡
            knowing subscription.old.token (child subscription.old.token.knows) }
    {
        WordFlowSeat {
            seat: self.table.shared.split_seat::<Make>(&mut subscription.seat),
            expected: 0,
        }
    }
}
