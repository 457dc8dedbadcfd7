//! Running a sharing by one call, which sleeps while there is nothing to do.
ghost use Rattle.std.specs.Prelude.{◌≡◌, ◌≤◌, ◌/◌, min, max, None, IfSome, IfOk};
ghost use Rattle.std.specs.Bool.{OnTrue};
ghost use Rattle.std.specs.Duration.{as_nanos};
ghost use Rattle.flow_law.specs.declared.chain.End.{End};
ghost use Rattle.flow_law.specs.sharing.Sharing.{never};
ghost use Rattle.flow_turns.specs.Passing.{report_alone};
ghost use Rattle.flow_turns.specs.Policy.{ActsNext, SleepsTo};
ghost use Rattle.flow_turns.specs.SharingViews.{sharing_chain, last_observed_at, CanRun, KeepsReadings};
ghost use Rattle.flow_turns.specs.Runs.{RunsTo, RunsBy, RunsToEnd, RunsToEndBy, SomeRunTurn, TurnsByClock};

use crate::passing::RunReport;
use crate::sharing::Sharing;
use crate::watched::WatchedHub;
use flow_cold::Cold;
use flow_law::{Event, ShareFault};
use std::sync::Wait;
use std::thread::yield_now;
use std::time::{Clock, Duration};

/// A signal by which a run is asked to stop.
pub trait StopSignal {
    /// What follows from an answer that the run was asked to stop. By default nothing does: a flag that another thread
    /// sets carries no fact.
    ghost WasAsked: { Self → Type 0 } = { λ _. Unit {0} };

    /// Returns whether the run was asked to stop.
    fn is_asked(&self) -> bool
        ensures { OnTrue result (WasAsked self.now) };
}

/// A signal that never asks a run to stop.
struct NoStop;

impl StopSignal for NoStop {
    ghost WasAsked = { λ _. ⊥ };

    fn is_asked(&self) -> bool {
        false
    }
}

/// Returns the moment of a reading of the clock in milliseconds, which is at least `last`. If the clock cannot be read
/// it is `last`.
fn moment_at(read: Option<Duration>, last: u64) -> u64
    ensures read { IfSome read (λ time. result ≡ max (min (as_nanos time / 1_000_000) never) last) }
    ensures unread { read ≡ None → result ≡ last }
    ensures later { last ≤ result }
{
    match read {
        Some(time) => match u64::try_from(time.as_millis()) {
            Ok(now) => now.max(last),
            Err(_) => u64::MAX,
        },
        None => last,
    }
}

/// Returns the moment of the clock, which is at least `last`.
fn moment_of<R: Clock>(clock: &R, last: u64) -> u64
    ensures { last ≤ result }
{
    moment_at(clock.monotonic().ok(), last)
}

impl<C: Cold, H: WatchedHub<Item = C::Item>> Sharing<C, H> {
    /// Returns how long the driver may sleep if the number of subscribers does not change, or `None` if the policy
    /// waits for no moment.
    fn most_to_sleep<R: Clock>(&self, rt: &R) -> Option<Duration>
        ensures { (next : _) × ActsNext self.now.policy next
            × SleepsTo (last_observed_at self.now) next result }
    {
        let next = self.policy.next_moment()?;
        let now = moment_of(rt, self.policy.last());
        Some(Duration::from_millis(next.saturating_sub(now)))
    }

    /// Ends the watch of the hub.
    fn unwatch(&mut self)
        ensures { self.new ≡ self.old }
    {
        self.hub.unwatch();
    }

    /// Sends the driver to sleep, unless the run was asked to stop since the last turn began.
    fn sleep<R: Wait + Clock, S: StopSignal>(&mut self, rt: &R, stop: &S)
        ensures { self.new ≡ self.old }
    {
        if stop.is_asked() {
            return;
        }
        let most = self.most_to_sleep(rt);
        self.hub.sleep(rt, most);
    }

    /// Rests after a turn, unless it observed a subscriber that had left. If there is nothing to do, begins a watch for
    /// the next turn, or, after a watched turn that did not come to `Queued`, sleeps. Returns whether the hub watches the
    /// next turn.
    fn rest<R: Wait + Clock, S: StopSignal>(
        &mut self,
        rt: &R,
        stop: &S,
        turned: RunReport,
        watches: bool,
    ) -> bool
        ensures { self.new ≡ self.old }
    {
        if turned.has_passed {
            return watches;
        }
        match turned.report.event {
            Event::Put => self.unwatch(),
            Event::Pending | Event::Busy => {
                self.unwatch();
                yield_now();
            }
            Event::Idle | Event::Waiting | Event::Completed if watches => self.sleep(rt, stop),
            // The emission of a turn that came to `Queued` has not been polled.
            Event::Idle | Event::Waiting | Event::Completed | Event::Queued => {
                self.hub.watch(rt);
                return true;
            }
        }
        false
    }

    /// Takes a turn at the moment of the clock. If the turn is refused, it ends the watch of the hub.
    fn turn_by_clock<R: Clock>(&mut self, rt: &R) -> Result<RunReport, ShareFault>
        requires { CanRun C.CanAsk self.old }
        ensures callable { CanRun C.CanAsk self.new }
        ensures reads { KeepsReadings C.Reads (sharing_chain self.old) (sharing_chain self.new) }
        ensures turn { TurnsByClock C.Reads C.whole C.rest H.does H.waits H.Came
            self.old (report_alone result) self.new }
    {
        let now = moment_of(rt, self.policy.last());
        match self.turn_since(now) {
            Ok(turned) => Ok(turned),
            Err(fault) => {
                self.unwatch();
                Err(fault)
            }
        }
    }

    /// Takes turns until the run is asked to stop.
    ///
    /// The moments are those of the monotonic clock, in milliseconds, and none is before the last moment of an earlier
    /// turn. If no subscriber is counted, but one has come since the last turn, a turn observes one, and the next turn
    /// follows at once. The driver sleeps while the sharing does not run, while its emission waits, and when the chain
    /// has ended. It is woken when a subscriber subscribes or unsubscribes, when its emission ends, and at the moment of
    /// the stop or of the expiry.
    ///
    /// An emission that waits when the run is asked to stop stays in the flow, and the next run continues with it.
    /// Kotlin cancels it; so does `hub_mut().cancel()`.
    ///
    /// # Errors
    /// The fault of the last turn: the sharing has ended (`Chain`, `Ended`), or the flow refused a call (`Flow`). After
    /// `Flow`, call `run` or `turn` to continue.
    ///
    /// # Source
    /// The coroutine that `shareIn` and `stateIn` launch.
    pub fn run<R: Wait + Clock, S: StopSignal>(
        &mut self,
        rt: &R,
        stop: &S,
    ) -> Result<(), ShareFault>
        requires { CanRun C.CanAsk self.old }
        ensures callable { CanRun C.CanAsk self.new }
        ensures reads { KeepsReadings C.Reads (sharing_chain self.old) (sharing_chain self.new) }
        ensures turns { (m : C.Reading) → C.Reads (sharing_chain self.old) m
            → RunsTo (λ c. C.whole c m) (λ c. C.rest c m) H.does H.waits H.Came
            self.old result self.new }
        // The same of a chain without a reading, whatever it answers.
        ensures any_turns { RunsBy (SomeRunTurn H.does H.waits H.Came) self.old result self.new }
        ensures asked { IfOk result (λ _. S.WasAsked stop.now) }
    {
        let mut watches = false;
        for _ in rt.forever() {
            if stop.is_asked() {
                self.unwatch();
                return Ok(());
            }
            match self.turn_by_clock(rt) {
                Ok(turned) => watches = self.rest(rt, stop, turned, watches),
                Err(fault) => return Err(fault),
            }
        }
        unreachable!()
    }

    /// Takes turns until the chain has ended, as `run` does. The flow has then accepted each item since the last start,
    /// and none waits. It cannot be asked to stop, and a sharing that starts with its first subscriber waits for that
    /// subscriber.
    ///
    /// # Errors
    /// The fault of the last turn, as that of `run`.
    ///
    /// # Source
    /// A `collect` of the chain that emits each item into the flow.
    pub fn run_to_end<R: Wait + Clock>(&mut self, rt: &R) -> Result<(), ShareFault>
        requires { CanRun C.CanAsk self.old }
        ensures callable { CanRun C.CanAsk self.new }
        ensures reads { KeepsReadings C.Reads (sharing_chain self.old) (sharing_chain self.new) }
        ensures turns { (m : C.Reading) → C.Reads (sharing_chain self.old) m
            → RunsToEnd (λ c. C.whole c m)
            (λ c. C.rest c m) H.does H.waits H.Came self.old result self.new }
        ensures any_turns { RunsToEndBy (SomeRunTurn H.does H.waits H.Came)
            self.old result self.new }
    {
        let mut watches = false;
        for _ in rt.forever() {
            let turned = match self.turn_by_clock(rt) {
                Ok(turned) => turned,
                Err(refused) => return Err(refused),
            };
            match turned.report.event {
                Event::Completed => {
                    self.unwatch();
                    return Ok(());
                }
                _ => watches = self.rest(rt, &NoStop, turned, watches),
            }
        }
        unreachable!()
    }
}
