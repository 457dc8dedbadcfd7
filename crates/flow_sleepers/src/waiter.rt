//! The callers that can sleep: a task that is polled, and a thread.
ghost use Rattle.std.specs.Prelude.{◌≡◌, ◌≢◌, ◌⊎◌, ⊤, IsSome, true};
ghost use Rattle.futures.specs.Slot.{IsLeftIn};
ghost use Rattle.futures.specs.Task.{IsArmed, Keeps};
ghost use Rattle.flow_sleepers.specs.Waiters.{AsksAgain, IsReadyToWait};

use crate::limit::Limit;
use futures::task::{Context, Poll, Source, Waker};
use std::alloc::{AllocError, Allocator, Global};
use std::sync::atomic::AtomicU64;
use std::sync::atomic::Ordering::SeqCst;
use std::sync::{Arc, Wait};
use std::thread::Parker;
use std::time::{Clock, Duration};
use std::{mem, thread};

/// How often a thread asks before it leaves its waker. What it waits for often happens soon, and a sleep costs as much
/// as many looks.
const LOOKS: u32 = 32;

/// How often a thread yields between two looks, at most. A look enters the flow, and so delays the callers that the
/// thread waits for.
const YIELDS: u32 = 4;

/// The wakers of a sleeper: that of its task, or of its thread. Dropping them wakes it.
pub struct Wakers<A: Allocator = Global> {
    task: Option<Waker>,
    thread: Option<ThreadWaker<A>>,
}

// Not derived: each crate that drops a flow would prove again how its wakers are dropped.
impl<A: Allocator> Drop for Wakers<A> {
    fn drop(self) {
        let Self { task: _, thread: _ } = self;
    }
}

impl<A: Allocator> Wakers<A> {
    pub(crate) fn none() -> Self {
        Wakers {
            task: None,
            thread: None,
        }
    }

    /// Returns whether another thread may leave its waker here: no thread sleeps until this one is dropped.
    pub(crate) fn is_free(&self) -> bool {
        match &self.thread {
            Some(waker) => waker.is_over(),
            None => true,
        }
    }
}

/// A caller that can sleep.
pub trait Waiter<A: Allocator> {
    /// The caller has left its waker, or asks again.
    ghost is_armed: { Self → Type 0 };

    /// The caller asks again.
    ghost asks_again: { Self → Type 0 };

    /// What does not change when the caller leaves its waker or asks again.
    ghost keeps: { Self → Self → Type 0 };

    /// Leaves the caller's waker. If memory is refused, the caller asks again.
    fn leave_waker(&mut self, alloc: A, wakers: &mut Wakers<A>)
        ensures armed { is_armed self.new }
        ensures kept { keeps self.old self.new };

    /// Makes the caller ask again instead of sleeping.
    fn ask_again(&mut self)
        ensures again { asks_again self.new }
        ensures armed { is_armed self.new }
        ensures kept { keeps self.old self.new };

    /// Returns whether the caller asks again before it leaves a waker. No contract says when.
    fn asks_first(&self) -> bool;

    /// `keeps` holds of a caller that has not changed.
    ghost keeps_same: { (w : Self) → keeps w w };
}

impl<'a, A: Allocator> Waiter<A> for Context<'a> {
    ghost is_armed = { λ cx. IsArmed cx };

    ghost asks_again = { λ cx. cx.is_woken ≡ true };

    ghost keeps = { λ old new. Keeps old new };

    ghost keeps_same = { λ cx fact holds. holds };

    fn leave_waker(&mut self, _alloc: A, wakers: &mut Wakers<A>)
        ensures left { IsLeftIn self.old self.new wakers.new.task }
        // The clauses of the trait.
        ensures armed { IsArmed self.new }
        ensures kept { Keeps self.old self.new }
    {
        let source = Source::new();
        let _asleep: Poll<()> = self.register(&source, &mut wakers.task);
    }

    fn ask_again(&mut self) {
        let _again: Poll<()> = self.yield_now();
    }

    fn asks_first(&self) -> bool {
        false
    }
}

/// What a thread sleeps on, and its wakers wake.
struct ThreadSleep {
    parker: Parker,
    /// How many waits of the thread have ended.
    ended: AtomicU64,
}

// Not derived, for the reason given at `Wakers`.
impl Drop for ThreadSleep {
    fn drop(self) {
        let Self {
            parker: _,
            ended: _,
        } = self;
    }
}

/// The waker of a thread for one of its waits. Dropping it during that wait wakes the thread.
struct ThreadWaker<A: Allocator = Global> {
    sleep: Arc<ThreadSleep, A>,
    /// How many waits had ended before this one.
    wait: u64,
}

impl<A: Allocator> ThreadWaker<A> {
    /// Returns whether the wait has ended. The thread asks again after it.
    fn is_over(&self) -> bool {
        self.sleep.ended.load(SeqCst) != self.wait
    }
}

impl<A: Allocator> Drop for ThreadWaker<A> {
    fn drop(self) {
        let is_over = self.is_over();
        let Self { sleep, wait: _ } = self;
        if !is_over {
            sleep.parker.unpark();
        }
    }
}

/// What a thread does at its next wait.
#[derive(Drop)]
enum Rest {
    /// It yields: since its last wait or `begin` it has neither left a waker nor asked again.
    None,
    /// It sleeps until the waker that it left is dropped.
    Asleep,
    /// It yields, and asks again.
    Again,
}

/// The calling thread, which first asks several times, and then sleeps until one of its wakers is dropped. The wakers
/// that it leaves serve one wait: when the wait ends, they wake it no more, and other wakers take their places.
pub struct ThreadWaiter<A: Allocator = Global> {
    /// Made when the thread first leaves a waker.
    sleep: Option<Arc<ThreadSleep, A>>,
    rest: Rest,
    /// How often it asked without leaving a waker.
    looks: u32,
}

impl<A: Allocator> Drop for ThreadWaiter<A> {
    fn drop(self) {
        self.end_wait();
        let Self {
            sleep: _,
            rest: _,
            looks: _,
        } = self;
    }
}

impl<A: Allocator> ThreadWaiter<A> {
    /// Ends a wait: the wakers that were left for it are free.
    fn end_wait(&self) {
        if let Some(sleep) = &self.sleep {
            sleep.ended.fetch_add(1, SeqCst);
        }
    }
}

impl<A: Allocator + Copy> ThreadWaiter<A> {
    /// Makes a waiter that has left no waker. Does not allocate.
    pub fn new() -> Self {
        ThreadWaiter {
            sleep: None,
            rest: Rest::None,
            looks: 0,
        }
    }

    fn waker(&mut self, alloc: A) -> Result<ThreadWaker<A>, AllocError>
        ensures { self.new.rest ≡ self.old.rest }
    {
        if let Some(sleep) = &self.sleep {
            return Ok(ThreadWaker {
                sleep: Arc::try_clone(sleep)?,
                wait: sleep.ended.load(SeqCst),
            });
        }
        let sleep = Arc::new(
            alloc,
            ThreadSleep {
                parker: Parker::new(),
                ended: AtomicU64::new(0),
            },
        )?;
        let waker = ThreadWaker {
            sleep: Arc::try_clone(&sleep)?,
            wait: 0,
        };
        self.sleep = Some(sleep);
        Ok(waker)
    }

    /// Forgets how an earlier wait ended: a waker that was dropped before does not end the next sleep. The thread
    /// leaves one at the first call that finds nothing.
    pub fn begin<R: Wait>(&mut self, rt: &R) {
        self.rest = Rest::None;
        self.looks = LOOKS;
        self.end_wait();
        if let Some(sleep) = &self.sleep {
            sleep.parker.park_timeout(rt, Duration::ZERO);
        }
    }

    /// Sleeps until a waker that was left is dropped, or for `most`, if that is given; it may return early. If none was
    /// left, or the thread has to ask again, yields instead.
    pub fn sleep<R: Wait>(&mut self, rt: &R, most: Option<Duration>) {
        match (mem::replace(&mut self.rest, Rest::None), &self.sleep, most) {
            (Rest::Asleep, Some(sleep), Some(most)) => sleep.parker.park_timeout(rt, most),
            (Rest::Asleep, Some(sleep), None) => sleep.parker.park(rt),
            _ => self.let_others_go_first(),
        }
        self.end_wait();
    }

    /// Yields once after the first look, twice after the second, and so on up to `YIELDS` times.
    fn let_others_go_first(&self) {
        for _ in 0..self.looks.clamp(1, YIELDS) {
            thread::yield_now();
        }
    }

    /// Sleeps until the waker that was left is dropped, or yields if the thread has to ask again.
    pub fn wait<R: Wait>(&mut self, rt: &R)
        requires { IsReadyToWait self.old }
    {
        self.sleep(rt, None);
    }

    /// Sleeps as `wait` does, but no longer than the limit allows; it may return early. Returns `false` at once if no
    /// time is left.
    pub fn wait_within<R: Wait + Clock>(&mut self, rt: &R, limit: &Limit) -> bool
        requires { IsReadyToWait self.old }
    {
        let Some(left) = limit.left(rt) else {
            return false;
        };
        self.sleep(rt, Some(left));
        true
    }
}

impl<A: Allocator + Copy> Waiter<A> for ThreadWaiter<A> {
    ghost is_armed = { λ w. IsReadyToWait w };

    ghost asks_again = { λ w. AsksAgain w };

    ghost keeps = { λ old new. ⊤ };

    ghost keeps_same = { λ w. tt };

    fn leave_waker(&mut self, alloc: A, wakers: &mut Wakers<A>)
        ensures left { (self.new.rest ≡ Rest.Again) ⊎ IsSome wakers.new.thread }
        // The clauses of the trait.
        ensures armed { IsReadyToWait self.new }
        ensures kept { ⊤ }
    {
        if let Rest::Again = self.rest {
            return;
        }
        let Ok(waker) = self.waker(alloc) else {
            self.rest = Rest::Again;
            return;
        };
        self.rest = Rest::Asleep;
        wakers.thread = Some(waker);
    }

    fn ask_again(&mut self) {
        self.rest = Rest::Again;
        self.looks = self.looks.saturating_add(1);
    }

    fn asks_first(&self) -> bool {
        self.looks < LOOKS
    }
}
