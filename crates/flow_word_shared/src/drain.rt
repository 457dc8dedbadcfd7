//! Taking all values that a subscriber can receive now.
ghost use Rattle.std.specs.Prelude.{◌≡◌, ◌≢◌, ◌+◌, ◌-◌, ◌*◌, ◌<◌, ◌≤◌, ◌^◌, ◌++◌, max, [], map, length, IfSome, IfErr, None, Some, Ok};
ghost use Rattle.std.specs.List.{AllByRecursion};
ghost use Rattle.std.specs.Result.{OnErr};
ghost use Rattle.std.specs.Vec.{vec_len, vec_capacity};
ghost use Rattle.flow_law.specs.flow.Draining.{DrainsBy, IsFull};
ghost use Rattle.flow_law.specs.history.Tokens.{numbered_token};
ghost use Rattle.flow_law.specs.declared.fault.FlowFault.TheVariants.{OutOfMemory};
ghost use Rattle.flow_law.specs.declared.outcome.Drained.TheVariants.{Gone};
ghost use Rattle.flow_law.specs.declared.outcome.Next.TheVariants.{Empty};
ghost use Rattle.flow_word_shared.specs.Answers.{IsOverrun, WordFlowNexts, NextsTaken};
ghost use Rattle.flow_word_shared.specs.Rule.{capacity_of};
ghost use Rattle.flow_word_shared.specs.Steps.{values_of};
ghost use Rattle.flow_word_shared.specs.Tokens.{ring_token, IsReading};

use crate::plays::ConfirmAll;
use crate::reading::AHEAD;
use crate::token::{WordFlow, WordFlowSubscription};
use crate::view::RingKnown;
use atomic_table::Seat;
use flow_law::{Drained, FlowFault, Next, Sequence, Words};
use std::alloc::Allocator;
use std::sync::Wait;

/// Appends the values of these words, `count` in all, to a list that has room for them.
fn unpack_all<T: Words, B: Allocator>(words: &[u64], count: usize, values: &mut Vec<T, B>)
    requires count { length words.now ≡ count * T.WIDTH }
    requires packed { AllByRecursion T.are_words (values_of T.WIDTH count words.now) }
    requires room { vec_len values.old + count ≤ vec_capacity values.old }
    ensures items { values.new.items
        ≡ values.old.items ++ map T.value_in (values_of T.WIDTH count words.now) }
    ensures room { (vec_len values.new ≡ vec_len values.old + count)
        × (vec_capacity values.new ≡ vec_capacity values.old) }
{
    let width = T::WIDTH;
    for i in 0..count {
        let from = i * width;
        values.push_reserved(T::of_words(&words[from..from + width]));
    }
}

impl<T: Words> WordFlow<T> {
    /// Loads the cells of the position and the next ones, and then word 0. Appends the values that the buffer still has: each
    /// is a `next`. Returns how many there are, and the number of emitted values.
    fn read_all<B: Allocator>(
        &self,
        seat: &mut Seat<(), Sequence<RingKnown<T>>>,
        number: u64,
        position: u64,
        seen: u64,
        count: usize,
        values: &mut Vec<T, B>,
    ) -> (usize, u64)
        requires flow { (ring_token seat.old).table_id ≡ self.now.table_id }
        requires places { self.now.table_id.start.places ≡ 0 }
        requires reading { IsReading seat.old number position [] seen }
        requires there { position + count ≤ seen }
        requires fits { (seen < 2 ^ 63) × (count * T.WIDTH ≤ 64) }
        requires room { vec_len values.old + count ≤ vec_capacity values.old }
        ensures flow { (ring_token seat.new).table_id ≡ (ring_token seat.old).table_id }
        ensures count { (result.0 ≤ count) × (result.1 < 2 ^ 63) }
        ensures within { result.0 ≢ 0 →
            max position (result.1 - capacity_of self.now.table_id.start) + result.0 ≤ position + count }
        ensures taken { result.0 ≢ 0 → NextsTaken (WordFlowNexts self.now.first) result.0
            (numbered_token (ring_token seat.old) number) values.old.items
            values.new.items (numbered_token (ring_token seat.new) number) }
        ensures late { result.0 ≡ 0 → (values.new.items ≡ values.old.items)
            × IsOverrun (ring_token seat.old) (ring_token seat.new) }
        ensures reading { IsReading seat.new number
            (max position (result.1 - capacity_of self.now.table_id.start) + result.0) [] result.1 }
        ensures room { (vec_len values.new ≡ vec_len values.old + result.0)
            × (vec_capacity values.new ≡ vec_capacity values.old) }
    {
        let words = self.read_cells(seat, number, position, seen, count);
        let length = self.table.shared.load::<ConfirmAll>(seat, 0) / 2;
        let passed = length
            .saturating_sub(self.capacity)
            .saturating_sub(position);
        let passed = passed.min(count as u64) as usize;
        let kept = count - passed;
        let width = T::WIDTH;
        unpack_all(&words.as_slice()[passed * width..], kept, values);
        (kept, length)
    }

    /// Tries once to take values, at most `most`. Returns how many it took: none if there is nothing to receive. Returns
    /// `None` if emitters have overwritten all that it read.
    fn try_take<B: Allocator>(
        &self,
        subscription: &mut WordFlowSubscription<T>,
        most: usize,
        values: &mut Vec<T, B>,
    ) -> Option<usize>
        requires flow { subscription.old.token.table_id ≡ self.now.table_id }
        requires some { 0 < most }
        requires room { vec_len values.old + most ≤ vec_capacity values.old }
        ensures taken { IfSome result (λ count. (count ≤ most) × (count ≢ 0 →
            NextsTaken (WordFlowNexts self.now.first) count subscription.old
            values.old.items values.new.items subscription.new)) }
        ensures empty { result ≡ Some 0 → (values.new.items ≡ values.old.items)
            × WordFlowNexts self.now.first subscription.old (Ok Empty) subscription.new }
        ensures late { result ≡ None → (values.new.items ≡ values.old.items)
            × (vec_len values.new ≡ vec_len values.old)
            × (vec_capacity values.new ≡ vec_capacity values.old)
            × (subscription.new.number ≡ subscription.old.number)
            × IsOverrun subscription.old.token subscription.new.token }
        ensures room { IfSome result (λ count. (vec_len values.new ≡ vec_len values.old + count)
            × (vec_capacity values.new ≡ vec_capacity values.old)) }
    {
        let WordFlowSubscription {
            seat,
            number,
            position,
            seen,
            place,
            has_left_waker: _,
        } = subscription;
        if let Some(place) = place {
            return match self.next_at(seat, *number, position, place) {
                Next::Value(value) => {
                    values.push_reserved(value);
                    Some(1)
                }
                Next::Empty => Some(0),
                Next::Gone => unreachable!(),
            };
        }
        *seen = self.look(seat, *number, *position, *seen);
        if *seen <= *position {
            return Some(0);
        }
        let count = (*seen - *position).min(most.min(AHEAD / T::WIDTH) as u64) as usize;
        let (taken, length) = self.read_all(seat, *number, *position, *seen, count, values);
        *seen = length;
        *position = (*position).max(length.saturating_sub(self.capacity)) + taken as u64;
        if taken == 0 {
            return None;
        }
        Some(taken)
    }

    /// Tries once to take values, as `try_take` does. If `ahead` is more than `most`, it reads that many cells, up to 64, and takes
    /// one value.
    fn try_some<B: Allocator>(
        &self,
        subscription: &mut WordFlowSubscription<T>,
        most: usize,
        ahead: usize,
        values: &mut Vec<T, B>,
    ) -> Option<usize>
        requires flow { subscription.old.token.table_id ≡ self.now.table_id }
        requires some { 0 < most }
        requires room { vec_len values.old + most ≤ vec_capacity values.old }
        ensures taken { IfSome result (λ count. (count ≤ most) × (count ≢ 0 →
            NextsTaken (WordFlowNexts self.now.first) count subscription.old
            values.old.items values.new.items subscription.new)) }
        ensures empty { result ≡ Some 0 → (values.new.items ≡ values.old.items)
            × WordFlowNexts self.now.first subscription.old (Ok Empty) subscription.new }
        ensures late { result ≡ None → (values.new.items ≡ values.old.items)
            × (vec_len values.new ≡ vec_len values.old)
            × (vec_capacity values.new ≡ vec_capacity values.old)
            × (subscription.new.number ≡ subscription.old.number)
            × IsOverrun subscription.old.token subscription.new.token }
    {
        if ahead <= most {
            return self.try_take(subscription, most, values);
        }
        match self.try_ahead(subscription, ahead) {
            Some(Next::Value(value)) => {
                values.push_reserved(value);
                Some(1)
            }
            Some(Next::Empty) => Some(0),
            Some(Next::Gone) => unreachable!(),
            None => None,
        }
    }

    /// Takes values, at most `most`. Returns how many it took: none if there is nothing to receive. Each try reads twice as many
    /// cells as the one before, up to 64, or `most` if that is more.
    fn take_some<R: Wait, B: Allocator>(
        &self,
        rt: &R,
        subscription: &mut WordFlowSubscription<T>,
        most: usize,
        values: &mut Vec<T, B>,
    ) -> usize
        requires flow { subscription.old.token.table_id ≡ self.now.table_id }
        requires some { 0 < most }
        requires room { vec_len values.old + most ≤ vec_capacity values.old }
        ensures taken { (result ≤ most) × (result ≢ 0 →
            NextsTaken (WordFlowNexts self.now.first) result subscription.old
            values.old.items values.new.items subscription.new) }
        ensures empty { result ≡ 0 → (values.new.items ≡ values.old.items)
            × WordFlowNexts self.now.first subscription.old (Ok Empty) subscription.new }
    {
        let mut ahead = most;
        for _ in rt.forever() {
            match self.try_some(subscription, most, ahead, values) {
                Some(count) => return count,
                None => ahead = ahead.saturating_mul(2).min(most.max(AHEAD)),
            }
        }
        unreachable!()
    }

    /// Appends the values that the subscriber can receive now, at most `most`, to the list, as if by calls of `next`.
    /// `Ok` says why it stopped.
    ///
    /// It waits for no other caller. Under `DropOldest` values of up to 64 words, or all that the list has room for, are
    /// taken at one moment: use the same list again. If emitters have overwritten all cells that it read, it tries again as
    /// `next` does, and reads twice as many: a try fails only if at least as many values were emitted meanwhile as it read.
    /// Under `DropLatest` it takes one value after the other.
    ///
    /// # Errors
    /// `OutOfMemory` if the list cannot grow. The next value is still in the flow, the values before it are in the list,
    /// and a later call continues.
    pub fn drain<R: Wait, B: Allocator>(
        &self,
        rt: &R,
        subscription: &mut WordFlowSubscription<T>,
        most: usize,
        values: &mut Vec<T, B>,
    ) -> Result<Drained, FlowFault>
        requires { subscription.old.token.table_id ≡ self.now.table_id }
        // Each value is one event of the history that the subscription has seen.
        ensures drained { DrainsBy (WordFlowNexts self.now.first) most
            subscription.old values.old.items result values.new.items subscription.new }
        ensures flow { subscription.new.token.table_id ≡ subscription.old.token.table_id }
        ensures number { subscription.new.number ≡ subscription.old.number }
        ensures live { result ≢ Ok Gone }
        ensures refused { IfErr result (λ fault. fault ≡ OutOfMemory) }
        ensures full { OnErr result (IsFull values.new) }
    {
        let mut left = most;
        while left > 0 {
            if values.reserve(1).is_err() {
                return Err(FlowFault::OutOfMemory);
            }
            let room = left.min(values.capacity() - values.len());
            let taken = self.take_some(rt, subscription, room, values);
            if taken == 0 {
                return Ok(Drained::Empty);
            }
            left -= taken;
        }
        Ok(Drained::Most)
    }
}
