//! The threads and tasks that sleep until a word of the flow changes.
ghost use Rattle.std.specs.Prelude.{◌≡◌};
ghost use Rattle.futures.specs.Task.{IsArmed, Keeps};

use flow_sleepers::Sleepers;
use futures::task::{Context, Poll};
use std::alloc::Global;
use std::snapshot::Snapshot;
use std::sync::atomic::AtomicU64;
use std::sync::atomic::Ordering::SeqCst;
use std::sync::{Mutex, Wait};
use std::time::Duration;

/// In `owed`: the holder of the list has nothing to do. No reader has this number.
const NOTHING: u64 = 0;

/// In `owed`: the holder of the list has to wake all tasks. No reader has this number.
const ALL: u64 = u64::MAX;

/// The threads and tasks that sleep until a word changes.
///
/// A sleeper is counted in `waiting` before it looks at the word, and sleeps only if it found nothing. A caller that
/// has changed the word looks at `waiting` after that. All these steps have one order, so either the sleeper sees the
/// change, or the caller sees the sleeper.
///
/// No caller waits for the list of tasks. A caller that needs the list first writes into `owed` what has to be done, and
/// then tries to take the list. A caller that gives the list back looks at `owed` after that. So either the first
/// caller gets the list, or the holder sees what is owed: a change wakes every task that was in the list, and a reader
/// that is dropped leaves no waker. The list is never locked by a wait, so a try fails only while another caller has it.
#[derive(Drop)]
pub struct WordSleepers {
    /// The number of threads that sleep or are about to, plus one if the list of tasks is not empty.
    waiting: AtomicU64,
    /// The number of changes that found a sleeper. The threads sleep on it.
    epoch: AtomicU64,
    /// What the next holder of the list has to do: `NOTHING`, `ALL`, or remove the waker under this number.
    owed: AtomicU64,
    tasks: Mutex<Sleepers<Global>>,
}

/// A caller that sleeps until a word changes, for contracts only.
pub trait Sleeper {
    /// What the caller has to do after it was announced or left its waker, and before it sleeps: to look, and to find
    /// nothing. It relates the caller before that to the caller after it.
    ghost has_looked: { Self → Self → Type 0 };
}

/// A thread that is counted among the sleepers until this is dropped.
pub struct Announcement<'a> {
    sleepers: &'a WordSleepers,
    epoch: u64,
}

/// A caller whose thread is counted among the sleepers until this is dropped, and the caller as it was before that.
pub struct Announced<'a, S> {
    announcement: Announcement<'a>,
    pub before: Snapshot<S>,
}

impl WordSleepers {
    /// Returns a list without sleepers. Does not allocate.
    pub fn new(alloc: Global) -> WordSleepers {
        WordSleepers {
            waiting: AtomicU64::new(0),
            epoch: AtomicU64::new(0),
            owed: AtomicU64::new(NOTHING),
            tasks: Mutex::new(Sleepers::new(alloc)),
        }
    }

    /// Wakes all sleepers. Call it after the word has changed. Without sleepers it is one load.
    #[inline(always)]
    pub fn wake(&self) {
        if self.waiting.load(SeqCst) != 0 {
            self.wake_all();
        }
    }

    #[inline(never)]
    fn wake_all(&self) {
        self.epoch.fetch_add(1, SeqCst);
        self.epoch.wake_all();
        self.owed.store(ALL, SeqCst);
        self.settle();
    }

    /// Removes the waker that a task left under this number, and wakes that task. Call it after the last
    /// `leave_waker` under the number. Does not wait: if another caller has the list, that caller removes it after it
    /// has given the list back; if that caller has another number to remove, it wakes all tasks.
    #[inline(never)]
    pub fn remove(&self, number: u64) {
        let is_free = self
            .owed
            .compare_exchange(NOTHING, number, SeqCst, SeqCst)
            .is_ok();
        if !is_free {
            self.owed.store(ALL, SeqCst);
        }
        self.settle();
    }

    /// Does what is owed. Does not wait: if another caller has the list, that caller does it after it has given the
    /// list back.
    fn settle(&self) {
        for _ in 0..u64::MAX {
            if self.owed.load(SeqCst) == NOTHING || !self.try_settle() {
                return;
            }
        }
    }

    /// Takes the list, and does what is owed. Returns `false` if another caller has the list.
    fn try_settle(&self) -> bool {
        let Some(mut tasks) = self.tasks.try_lock() else {
            return false;
        };
        let was_empty = tasks.is_empty();
        let woken = match self.owed.swap(NOTHING, SeqCst) {
            NOTHING => None,
            ALL => Some(tasks.take_all()),
            number => {
                tasks.wake(number);
                None
            }
        };
        if !was_empty && tasks.is_empty() {
            self.waiting.fetch_sub(1, SeqCst);
        }
        // All tasks are woken only after the list was given back.
        drop(tasks);
        match woken {
            Some(woken) => woken.wake(),
            None => {}
        }
        true
    }

    /// Counts the thread among the sleepers. After that, look at the word, and then sleep or drop the result.
    pub fn announce(&self) -> Announcement<'_> {
        self.waiting.fetch_add(1, SeqCst);
        Announcement {
            sleepers: self,
            epoch: self.epoch.load(SeqCst),
        }
    }

    /// Counts the thread of this caller among the sleepers. After that, the caller has to look before it sleeps.
    pub fn announce_caller<S>(&self, caller: &S) -> Announced<'_, S>
        ensures { result.before.value ≡ caller.now }
    {
        Announced {
            announcement: self.announce(),
            before: Snapshot::of(caller),
        }
    }

    /// Leaves the waker of the polled task, under the number of this caller. After that, look at the word once more:
    /// the task may sleep only if that finds nothing. If no waker can be kept now, the task asks to be polled again.
    pub fn leave_waker<S: Sleeper>(&self, cx: &mut Context<'_>, number: u64, _caller: &S)
        ensures armed { (now : _) → S.has_looked _caller.now now → IsArmed cx.new }
        ensures kept { Keeps cx.old cx.new }
    {
        self.register(cx, number);
        self.settle();
    }

    fn register(&self, cx: &mut Context<'_>, number: u64)
        ensures armed { IsArmed cx.new }
        ensures kept { Keeps cx.old cx.new }
    {
        let Some(mut tasks) = self.tasks.try_lock() else {
            let _again: Poll<()> = cx.yield_now();
            return;
        };
        let was_empty = tasks.is_empty();
        let _asleep: Poll<()> = tasks.sleep(cx, number);
        if was_empty && !tasks.is_empty() {
            self.waiting.fetch_add(1, SeqCst);
        }
    }
}

impl<S: Sleeper> Announced<'_, S> {
    /// Sleeps until a change after the announcement, or for `most`, if that is given. It may return early then.
    pub fn sleep<R: Wait>(self, rt: &R, _caller: &S, most: Option<Duration>)
        requires { S.has_looked self.before.value _caller.now }
    {
        let Announced {
            announcement,
            before: _,
        } = self;
        announcement.sleep(rt, most);
    }
}

impl<S> Drop for Announced<'_, S> {
    fn drop(self) {
        let Self {
            announcement: _,
            before: _,
        } = self;
    }
}

impl Announcement<'_> {
    /// Sleeps until a change after the announcement, or for `most`, if that is given. It may return early then.
    pub fn sleep<R: Wait>(self, rt: &R, most: Option<Duration>) {
        match most {
            Some(most) => self.sleep_for(rt, most),
            None => self.sleep_until_change(rt),
        }
    }

    fn sleep_until_change<R: Wait>(&self, rt: &R) {
        let epoch = &self.sleepers.epoch;
        for _ in rt.forever() {
            if epoch.load(SeqCst) != self.epoch {
                break;
            }
            epoch.park(rt, (self.epoch & 0xffff_ffff) as u32);
        }
    }

    fn sleep_for<R: Wait>(&self, rt: &R, most: Duration) {
        let epoch = &self.sleepers.epoch;
        if epoch.load(SeqCst) == self.epoch {
            epoch.park_timeout(rt, (self.epoch & 0xffff_ffff) as u32, most);
        }
    }
}

impl Drop for Announcement<'_> {
    fn drop(self) {
        let Self { sleepers, epoch: _ } = self;
        sleepers.waiting.fetch_sub(1, SeqCst);
    }
}
