//! Entering a gate.
ghost use Rattle.std.specs.Prelude.{◌≡◌, ◌≤◌, true, false, Some};
ghost use Rattle.flow_law.specs.history.Growth.{loses};
ghost use Rattle.flow_law.specs.history.Tokens.{knowing};
ghost use Rattle.flow_gate.specs.Tokens.{idle_seat, IsIdle, Finds, FindsAtOnce};

use crate::gate::Gate;
use crate::seat::Seat;
use crate::steps::{Enter, StartsFrom};
use flow_law::Guarded;
use std::alloc::Allocator;
use std::marker::Brand;
use std::sync::Wait;
use std::thread;

impl<S: Guarded, A: Allocator> Gate<S, A> {
    /// `try_enter`, for the state `B.first` with which the gate began.
    #[inline(always)]
    fn try_enter_from<B: StartsFrom<S>>(&self, seat: &mut Seat<S>) -> bool
        requires first { B.first ≡ Some self.now.first }
        requires gate { seat.old.token.table_id ≡ self.now.table_id }
        requires idle { IsIdle seat.old }
        ensures found { result ≡ true →
            FindsAtOnce S.stands self.now seat.old.token seat.new }
        ensures lost { result ≡ false →
            seat.new ≡ idle_seat (knowing seat.old.token (loses seat.old.token.knows)) }
    {
        let shared = &self.table.shared;
        shared.compare_exchange::<Enter<B>>(&mut seat.seat, 0, 0, 1) == 0
    }

    /// Enters if no other caller is inside, and returns whether it did. If not, the seat has counted one lost exchange.
    #[inline(always)]
    pub fn try_enter(&self, seat: &mut Seat<S>) -> bool
        requires gate { seat.old.token.table_id ≡ self.now.table_id }
        requires idle { IsIdle seat.old }
        ensures found { result ≡ true →
            FindsAtOnce S.stands self.now seat.old.token seat.new }
        ensures lost { result ≡ false →
            seat.new ≡ idle_seat (knowing seat.old.token (loses seat.old.token.knows)) }
    {
        self.try_enter_from::<Brand>(seat)
    }

    /// Enters. While another caller is inside, yields the thread, and tries again when the gate is free.
    ///
    /// No contract says that it ever enters: a caller may stay inside, and others may be faster.
    #[inline(always)]
    pub fn enter<R: Wait>(&self, rt: &R, seat: &mut Seat<S>)
        requires gate { seat.old.token.table_id ≡ self.now.table_id }
        requires idle { IsIdle seat.old }
        ensures found { Finds S.stands self.now seat.old.token seat.new }
        ensures lost { seat.old.token.knows.lost ≤ seat.new.token.knows.lost }
    {
        if !self.try_enter(seat) {
            self.enter_waiting(rt, seat);
        }
    }

    /// Enters after the gate was found taken. This is a separate function, so that a call that need not wait saves no
    /// registers for it.
    #[cold]
    #[inline(never)]
    fn enter_waiting<R: Wait>(&self, rt: &R, seat: &mut Seat<S>)
        requires gate { seat.old.token.table_id ≡ self.now.table_id }
        requires idle { IsIdle seat.old }
        ensures found { Finds S.stands self.now seat.old.token seat.new }
        ensures lost { seat.old.token.knows.lost ≤ seat.new.token.knows.lost }
    {
        for _ in rt.forever() {
            thread::yield_now();
            if self.is_free() && self.try_enter(seat) {
                return;
            }
        }
        unreachable!()
    }

    /// Returns whether the gate is free right now. Does not acquire it.
    #[inline(always)]
    fn is_free(&self) -> bool {
        self.table.shared.peek(0) == 0
    }
}
