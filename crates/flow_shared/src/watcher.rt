//! Callers that sleep until the number of subscribers changes.
ghost use Rattle.std.specs.Prelude.{◌≡◌, None};
ghost use Rattle.flow_shared.specs.Calls.{Counts, CountsNow};
ghost use Rattle.flow_shared.specs.CoreCalls.{after_counting};
ghost use Rattle.flow_shared.specs.SharedReplies.{PollsNow};

use crate::calling::{AtOnce, Sleepless};
use crate::core_call::{CoreCall, Made, Then, Watching};
use crate::flow::Flow;
use crate::handles::FlowCaller;
use crate::token::{Emission, FlowSeat, PolledNow};
use flow_core::{FlowCore, ReaderCalls, SharedCore, Signs};
use flow_law::{FlowFault, FlowValue};
use flow_sleepers::ThreadWaiter;
use std::alloc::{Allocator, Global};
use std::sync::Wait;
use std::sync::atomic::Ordering::Relaxed;
use std::time::Duration;

/// A count of the subscribers, and what it does to the watchers of their number.
#[derive(Drop)]
pub(crate) struct Count {
    watching: Option<Watching>,
}

impl Count {
    /// Returns a count that does not change the watchers.
    pub(crate) fn new() -> Count
        ensures { result.watching ≡ None }
    {
        Count { watching: None }
    }
}

impl<S: ReaderCalls> CoreCall<S> for Count {
    type Answer = Signs;

    ghost call = { λ c name. S.kind.count };

    ghost reply = { λ signs. S.kind.counted signs.subscribers };

    ghost then = { λ c signs. after_counting c.watching };

    #[inline(always)]
    fn run(self, core: &mut S) -> Made<Signs> {
        let then = match self.watching {
            Some(watching) => Then::Watch(watching),
            None => Then::Leave,
        };
        Made::before(core.signs(), then)
    }
}

/// What the next calls of a watcher do.
#[derive(Drop)]
enum Watch {
    /// It has no waker in the flow.
    Away,
    /// They leave its waker.
    Begins,
    /// The count removes the waker that it left.
    Ends,
}

/// A thread that can sleep until the number of subscribers changes, or an emission that it polled ends.
///
/// A turn of calls after `watch` leaves its waker in the flow, inside the gate that the calls enter anyway. The thread
/// then sleeps or ends the watch. The next count removes the waker, so that a flow without sleepers is as fast as
/// before.
#[derive(Drop)]
pub struct Watcher<A: Allocator = Global> {
    thread: ThreadWaiter<A>,
    /// The number of its waker in the flow.
    number: u64,
    watch: Watch,
    /// The number of the subscriber that had come last at the last count, if there was one.
    last_subscriber: Option<u64>,
    has_come: bool,
}

impl<A: Allocator + Copy> Watcher<A> {
    /// Begins a watch: calls with this watcher leave its waker in the flow.
    pub fn watch<R: Wait>(&mut self, rt: &R) {
        self.thread.begin(rt);
        self.watch = Watch::Begins;
    }

    /// Ends a watch if there is one: calls with this watcher leave no waker.
    pub fn unwatch(&mut self) {
        if let Watch::Begins = self.watch {
            self.watch = Watch::Ends;
        }
    }

    /// Returns whether a subscriber has come between the last two counts by this watcher, also if it has left since.
    pub fn has_come(&self) -> bool {
        self.has_come
    }

    /// Notes which subscriber had come last at a count.
    fn note(&mut self, last_subscriber: u64) {
        let before = self.last_subscriber.replace(last_subscriber);
        self.has_come = before.is_some_and(|before| before < last_subscriber);
    }

    /// Ends a watch, and sleeps until a waker that was left is dropped, or for `most`, if that is given. It may return
    /// early. If no waker was left, or a watched call has to be made again, it yields instead.
    pub fn sleep<R: Wait>(&mut self, rt: &R, most: Option<Duration>) {
        self.unwatch();
        self.thread.sleep(rt, most);
    }
}

impl<S: FlowCore + Drop, A: Allocator + Copy> Flow<S, A> {
    /// Makes a watcher of this flow. Does not allocate.
    pub fn watcher(&self) -> Watcher<A> {
        Watcher {
            thread: ThreadWaiter::new(),
            number: self.watchers.fetch_add(1, Relaxed),
            watch: Watch::Away,
            last_subscriber: None,
            has_come: false,
        }
    }
}

impl<S: ReaderCalls + Drop, A: Allocator + Copy> Flow<S, A> {
    /// Counts the subscribers as `count_now` does. In a watch, the watcher is then woken when the number changes.
    pub fn count_watched(
        &self,
        seat: &mut FlowSeat<S, A>,
        watcher: &mut Watcher<A>,
    ) -> Result<u64, FlowFault>
        requires { seat.old.table_id ≡ self.now.table_id }
        ensures { CountsNow S.kind self.now seat.old result seat.new }
    {
        let watching = match watcher.watch {
            Watch::Away => None,
            Watch::Begins => Some(Watching::Begins(watcher.number)),
            Watch::Ends => Some(Watching::Ends(watcher.number)),
        };
        match self.call_by(&AtOnce, seat, Count { watching }, &mut watcher.thread) {
            Ok(signs) => {
                if let Watch::Ends = watcher.watch {
                    watcher.watch = Watch::Away;
                }
                watcher.note(signs.last_subscriber);
                Ok(signs.subscribers)
            }
            Err(_call) => Err(FlowFault::Busy),
        }
    }
}

impl<S: ReaderCalls + Drop, A: Allocator + Copy> FlowCaller<S, A> {
    /// Counts the subscribers as `subscription_count` does, and wakes all watchers.
    pub fn count_and_wake_watchers<R: Wait>(&mut self, rt: &R) -> u64
        ensures flow { self.new.flow ≡ self.old.flow }
        ensures counted { Counts S.kind self.old.flow self.old.token result self.new.token }
    {
        let count = Count {
            watching: Some(Watching::AllEnd),
        };
        self.flow
            .call(rt, &mut self.seat, count, &mut Sleepless)
            .subscribers
    }
}

impl<T: FlowValue, A: Allocator + Copy> Flow<SharedCore<T, A>, A> {
    /// Polls an emission as `poll_now` does. In a watch, the watcher is then woken when the emission ends.
    pub fn poll_watched(
        &self,
        emission: Emission<T, A>,
        watcher: &mut Watcher<A>,
    ) -> PolledNow<T, A>
        requires { emission.token.table_id ≡ self.now.table_id }
        ensures { PollsNow self.now emission result }
    {
        match watcher.watch {
            Watch::Begins => self.poll_by(&AtOnce, emission, &mut watcher.thread),
            Watch::Away | Watch::Ends => self.poll_now(emission),
        }
    }
}
