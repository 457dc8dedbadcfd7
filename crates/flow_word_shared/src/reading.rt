//! The steps of subscribers. A subscriber loads cells, and then word 0: the values that the buffer then still has are what
//! it receives.
ghost use Rattle.std.specs.Prelude.{◌≡◌, ◌+◌, ◌-◌, ◌*◌, ◌<◌, ◌≤◌, ◌^◌, max, [], IfOk, IfErr};
ghost use Rattle.arrayvec.specs.ArrayVec.{array_vec_len};
ghost use Rattle.flow_law.specs.declared.call.SharedCall.TheVariants as call;
ghost use Rattle.flow_law.specs.declared.call.SharedReply.TheVariants as reply;
ghost use Rattle.flow_law.specs.declared.outcome.Next.TheVariants.{Value, Empty};
ghost use Rattle.flow_law.specs.flow.SharedHistory.{shared_flow};
ghost use Rattle.flow_law.specs.history.Promise.{CallsAtOnceIn};
ghost use Rattle.flow_word_shared.specs.Answers.{IsOverrun};
ghost use Rattle.flow_word_shared.specs.Rule.{capacity_of};
ghost use Rattle.flow_word_shared.specs.Steps.{SeesMore, AreFound, log_after, values_of};
ghost use Rattle.flow_word_shared.specs.Tokens.{ring_token, post_of, IsReading};

use crate::plays::{Confirm, Look, ReadCell, ReadPart};
use crate::token::{HEAD, WordFlow};
use crate::view::RingKnown;
use arrayvec::ArrayVec;
use atomic_table::Seat;
use flow_law::{Sequence, Words};

/// How many cells a subscriber loads at most before it loads word 0.
pub(crate) const AHEAD: usize = 64;

/// The words of one value.
pub(crate) type Pack = ArrayVec<u64, 4>;

/// The words that a subscriber found in the cells of its position and the next ones.
pub(crate) type Found = ArrayVec<u64, AHEAD>;

impl<T: Words> WordFlow<T> {
    /// Returns how many values are known to be emitted. Loads word 0 only if that is not more than the position; if it is
    /// still not more, this is a `next` that finds nothing.
    #[inline(always)]
    pub(crate) fn look(
        &self,
        seat: &mut Seat<(), Sequence<RingKnown<T>>>,
        number: u64,
        position: u64,
        seen: u64,
    ) -> u64
        requires flow { (ring_token seat.old).table_id ≡ self.now.table_id }
        requires reading { IsReading seat.old number position [] seen }
        requires small { seen < 2 ^ 63 }
        ensures reading { IsReading seat.new number position [] result }
        ensures small { result < 2 ^ 63 }
        ensures few { seen + 1 < 2 ^ 63 → result + 1 < 2 ^ 63 }
        ensures post { post_of seat.new ≡ post_of seat.old }
        ensures empty { result ≤ position → CallsAtOnceIn shared_flow self.now.first (ring_token seat.old)
            (call.TakeNext number) (reply.Received Empty) (ring_token seat.new) }
        ensures more { position < result → ((ring_token seat.new).table_id ≡ (ring_token seat.old).table_id)
            × SeesMore 0 (ring_token seat.old).knows (ring_token seat.new).knows }
    {
        if position < seen {
            return seen;
        }
        self.table.shared.load::<Look>(seat, 0) / 2
    }

    /// Loads the cells of one position, which is this far ahead of the subscriber's. Appends their words to those of the
    /// positions before it.
    #[inline(always)]
    pub(crate) fn read_value<const N: usize>(
        &self,
        seat: &mut Seat<(), Sequence<RingKnown<T>>>,
        number: u64,
        position: u64,
        seen: u64,
        ahead: usize,
        words: &mut ArrayVec<u64, N>,
    )
        requires flow { (ring_token seat.old).table_id ≡ self.now.table_id }
        requires count { array_vec_len words.old ≡ ahead * T.WIDTH }
        requires room { array_vec_len words.old + T.WIDTH ≤ N }
        requires reading { IsReading seat.old number position (values_of T.WIDTH ahead words.old.items) seen }
        requires there { (position + ahead < seen) × (seen < 2 ^ 63) }
        requires found { AreFound T.are_words T.value_in (capacity_of self.now.table_id.start)
            (log_after self.now.table_id.start (ring_token seat.old).knows.seen) position
            (values_of T.WIDTH ahead words.old.items) }
        ensures count { array_vec_len words.new ≡ (ahead + 1) * T.WIDTH }
        ensures post { post_of seat.new ≡ post_of seat.old }
        ensures reading { IsReading seat.new number position
            (values_of T.WIDTH (ahead + 1) words.new.items) seen }
        ensures found { AreFound T.are_words T.value_in (capacity_of self.now.table_id.start)
            (log_after self.now.table_id.start (ring_token seat.new).knows.seen) position
            (values_of T.WIDTH (ahead + 1) words.new.items) }
        ensures sees { ((ring_token seat.new).table_id ≡ (ring_token seat.old).table_id)
            × SeesMore 0 (ring_token seat.old).knows (ring_token seat.new).knows }
    {
        let shared = &self.table.shared;
        let width = T::WIDTH;
        let first = HEAD + ((position + ahead as u64) & self.mask) as usize * width;
        let last = width - 1;
        for place in 0..last {
            let word = shared.load::<ReadPart>(seat, first + place);
            words.push(word);
        }
        let end = shared.load::<ReadCell>(seat, first + last);
        words.push(end);
    }

    /// Loads the cells of the position, and then word 0. Returns the words in these cells and the number of emitted values.
    /// If the buffer still has the position, this is the `next` of the value of these words.
    #[inline(always)]
    pub(crate) fn read(
        &self,
        seat: &mut Seat<(), Sequence<RingKnown<T>>>,
        number: u64,
        position: u64,
        seen: u64,
    ) -> (Pack, u64)
        requires flow { (ring_token seat.old).table_id ≡ self.now.table_id }
        requires places { self.now.table_id.start.places ≡ 0 }
        requires reading { IsReading seat.old number position [] seen }
        requires there { (position < seen) × (seen < 2 ^ 63) }
        ensures small { result.1 < 2 ^ 63 }
        ensures fresh { result.1 ≤ position + capacity_of self.now.table_id.start →
            T.are_words result.0.items
            × CallsAtOnceIn shared_flow self.now.first (ring_token seat.old) (call.TakeNext number)
            (reply.Received (Value (T.value_in result.0.items))) (ring_token seat.new)
            × IsReading seat.new number (position + 1) [] result.1 }
        ensures late { position + capacity_of self.now.table_id.start < result.1 →
            IsOverrun (ring_token seat.old) (ring_token seat.new)
            × IsReading seat.new number (result.1 - capacity_of self.now.table_id.start) [] result.1 }
    {
        let mut words = Pack::new();
        self.read_value(seat, number, position, seen, 0, &mut words);
        let found = self.table.shared.load::<Confirm>(seat, 0);
        (words, found / 2)
    }

    /// Loads the cells of the position and the next ones, of `count` values in all.
    pub(crate) fn read_cells(
        &self,
        seat: &mut Seat<(), Sequence<RingKnown<T>>>,
        number: u64,
        position: u64,
        seen: u64,
        count: usize,
    ) -> Found
        requires flow { (ring_token seat.old).table_id ≡ self.now.table_id }
        requires reading { IsReading seat.old number position [] seen }
        requires there { position + count ≤ seen }
        requires fits { (seen < 2 ^ 63) × (count * T.WIDTH ≤ 64) }
        ensures count { array_vec_len result ≡ count * T.WIDTH }
        ensures reading { IsReading seat.new number position (values_of T.WIDTH count result.items) seen }
        ensures found { AreFound T.are_words T.value_in (capacity_of self.now.table_id.start)
            (log_after self.now.table_id.start (ring_token seat.new).knows.seen) position
            (values_of T.WIDTH count result.items) }
        ensures sees { ((ring_token seat.new).table_id ≡ (ring_token seat.old).table_id)
            × SeesMore 0 (ring_token seat.old).knows (ring_token seat.new).knows }
    {
        let mut words = Found::new();
        for i in 0..count {
            self.read_value(seat, number, position, seen, i, &mut words);
        }
        words
    }

    /// Loads the cells of the position and the next ones, and then word 0. If the buffer still has one of these positions,
    /// this is the `next` of the first of them: returns its value. `Ok` and `Err` have the number of emitted values.
    pub(crate) fn read_ahead(
        &self,
        seat: &mut Seat<(), Sequence<RingKnown<T>>>,
        number: u64,
        position: u64,
        seen: u64,
        count: usize,
    ) -> Result<(T, u64), u64>
        requires flow { (ring_token seat.old).table_id ≡ self.now.table_id }
        requires places { self.now.table_id.start.places ≡ 0 }
        requires reading { IsReading seat.old number position [] seen }
        requires there { position + count ≤ seen }
        requires fits { (seen < 2 ^ 63) × (count * T.WIDTH ≤ 64) }
        ensures small { IfOk result (λ found. found.1 < 2 ^ 63) × IfErr result (λ length. length < 2 ^ 63) }
        ensures fresh { IfOk result (λ found.
            CallsAtOnceIn shared_flow self.now.first (ring_token seat.old) (call.TakeNext number)
            (reply.Received (Value found.0)) (ring_token seat.new)
            × IsReading seat.new number
            (max position (found.1 - capacity_of self.now.table_id.start) + 1) [] found.1) }
        ensures late { IfErr result (λ length. IsOverrun (ring_token seat.old) (ring_token seat.new)
            × IsReading seat.new number
            (max position (length - capacity_of self.now.table_id.start)) [] length) }
    {
        let words = self.read_cells(seat, number, position, seen, count);
        let length = self.table.shared.load::<Confirm>(seat, 0) / 2;
        let passed = length
            .saturating_sub(self.capacity)
            .saturating_sub(position);
        if passed >= count as u64 {
            return Err(length);
        }
        let width = T::WIDTH;
        let from = passed as usize * width;
        let value = T::of_words(&words.as_slice()[from..from + width]);
        Ok((value, length))
    }
}
