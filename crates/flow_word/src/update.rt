//! Updates by a function of the value.
ghost use Rattle.std.specs.Prelude.{◌≡◌};
ghost use Rattle.flow_law.specs.history.Updates.{Updates};

use crate::token::{WordSeat, WordState};
use flow_law::Packed;
use std::sync::Wait;
use std::thread;

impl<T: Packed> WordState<T> {
    /// Makes rounds until one succeeds. Returns the packs of the value that it read and of the function's result.
    fn rounds<R: Wait, F: Fn(T) -> T>(&self, rt: &R, seat: &mut WordSeat<T>, f: F) -> (u64, u64)
        requires flow { seat.old.table_id ≡ self.now.table_id }
        requires callable { F.IsAlwaysCallable f }
        ensures flow { seat.new.table_id ≡ seat.old.table_id }
        ensures packs { T.packs result.0 × T.packs result.1 }
        ensures rounds { Updates self.now.first (F.post f) seat.old
            (T.value_of result.0) (T.value_of result.1) seat.new }
    {
        for _ in rt.forever() {
            let old = self.word(seat);
            let new = f(T::unpack(old)).pack();
            if self.exchange(seat, old, new) {
                return (old, new);
            }
            thread::yield_now();
        }
        unreachable!()
    }

    /// Updates the value by a function of it.
    ///
    /// The function is called once in each round. If the value is then no longer the one that the round read, because
    /// another caller set it in between, the round is lost: the thread yields, and the next round begins. No caller
    /// waits while the function runs.
    pub fn update<R: Wait, F: Fn(T) -> T>(&self, rt: &R, seat: &mut WordSeat<T>, f: F)
        requires flow { seat.old.table_id ≡ self.now.table_id }
        requires callable { F.IsAlwaysCallable f }
        ensures flow { seat.new.table_id ≡ seat.old.table_id }
        ensures updates { (read : _) × (set : _)
            × Updates self.now.first (F.post f) seat.old read set seat.new }
    {
        self.rounds(rt, seat, f);
    }

    /// Updates the value as `update` does, and returns the previous value.
    pub fn get_and_update<R: Wait, F: Fn(T) -> T>(&self, rt: &R, seat: &mut WordSeat<T>, f: F) -> T
        requires flow { seat.old.table_id ≡ self.now.table_id }
        requires callable { F.IsAlwaysCallable f }
        ensures flow { seat.new.table_id ≡ seat.old.table_id }
        ensures updates { (set : _) ×
            Updates self.now.first (F.post f) seat.old result set seat.new }
    {
        T::unpack(self.rounds(rt, seat, f).0)
    }

    /// Updates the value as `update` does, and returns the new value.
    pub fn update_and_get<R: Wait, F: Fn(T) -> T>(&self, rt: &R, seat: &mut WordSeat<T>, f: F) -> T
        requires flow { seat.old.table_id ≡ self.now.table_id }
        requires callable { F.IsAlwaysCallable f }
        ensures flow { seat.new.table_id ≡ seat.old.table_id }
        ensures updates { (read : _) ×
            Updates self.now.first (F.post f) seat.old read result seat.new }
    {
        T::unpack(self.rounds(rt, seat, f).1)
    }
}
