//! The turns of a run, which also observe a subscriber that came and left since the last count.
ghost use Rattle.std.specs.Prelude.{◌≡◌, true, IfOk};
ghost use Rattle.flow_law.specs.sharing.SharingCalls.{counts};
ghost use Rattle.flow_turns.specs.Passing.{count_alone, report_alone};
ghost use Rattle.flow_turns.specs.Runs.{RunTurn, SomeRunTurn};
ghost use Rattle.flow_turns.specs.SharingViews.{sharing_state, sharing_chain, hub_of, CanRun, KeepsReadings};
ghost use Rattle.flow_turns.specs.TurnParts.{ActsBy, CallsHub, FollowsCount};

use crate::answers::{refusal_of, report_of};
use crate::sharing::Sharing;
use crate::watched::{CountSince, WatchedHub};
use flow_cold::Cold;
use flow_law::{Command, FlowFault, Report, ShareFault};

/// The report of a turn of a run, and whether it observed a subscriber that had left: the next turn, which follows at
/// once, then observes the present number.
#[derive(Clone, Copy)]
pub(crate) struct RunReport {
    pub(crate) report: Report,
    pub(crate) has_passed: bool,
}

impl<C: Cold, H: WatchedHub<Item = C::Item>> Sharing<C, H> {
    /// Counts the subscribers, and finds whether one has come since the last count.
    fn counted_since(&mut self) -> Result<CountSince, FlowFault>
        requires { CanRun C.CanAsk self.old }
        ensures callable { CanRun C.CanAsk self.new }
        ensures reads { KeepsReadings C.Reads (sharing_chain self.old) (sharing_chain self.new) }
        ensures policy { self.new.policy ≡ self.old.policy }
        ensures state { sharing_state self.new ≡ sharing_state self.old }
        ensures counts { CallsHub (ActsBy C.Reads C.whole C.rest H.does H.waits)
            counts self.old (count_alone result) self.new }
        ensures came { IfOk result (λ since. since.has_come ≡ true
            → H.Came (hub_of self.old) (hub_of self.new)) }
    {
        self.hub.count_since()
    }

    /// Takes the steps that follow a count.
    fn observed(&mut self, now: u64, count: u64) -> Result<Report, ShareFault>
        requires { CanRun C.CanAsk self.old }
        ensures callable { CanRun C.CanAsk self.new }
        ensures reads { KeepsReadings C.Reads (sharing_chain self.old) (sharing_chain self.new) }
        ensures follows { FollowsCount (ActsBy C.Reads C.whole C.rest H.does H.waits)
            now count self.old result self.new }
    {
        let command = match self.policy.observe(now, count) {
            Ok(command) => command,
            Err(backwards) => return Err(ShareFault::Backwards(backwards.last)),
        };
        let outcome = self.carry_out(command);
        report_of(command, outcome)
    }

    /// Takes a turn as `turn` does. If no subscriber is counted, but one has come since the last count, it observes one.
    pub(crate) fn turn_since(&mut self, now: u64) -> Result<RunReport, ShareFault>
        requires { CanRun C.CanAsk self.old }
        ensures callable { CanRun C.CanAsk self.new }
        ensures reads { KeepsReadings C.Reads (sharing_chain self.old) (sharing_chain self.new) }
        ensures turn { (m : C.Reading) → C.Reads (sharing_chain self.old) m →
            RunTurn (λ c. C.whole c m) (λ c. C.rest c m) H.does H.waits H.Came
            now self.old (report_alone result) self.new }
        ensures any_turn { SomeRunTurn H.does H.waits H.Came
            now self.old (report_alone result) self.new }
    {
        if self.ended {
            return Err(ShareFault::Ended);
        }
        let since = match self.counted_since() {
            Ok(since) => since,
            Err(fault) => return plain(report_of(Command::Keep, refusal_of(fault))),
        };
        if since.has_come && since.count == 0 {
            return passed(self.observed(now, 1));
        }
        plain(self.observed(now, since.count))
    }
}

/// Answers a turn that observed the present number.
fn plain(answer: Result<Report, ShareFault>) -> Result<RunReport, ShareFault>
    ensures { report_alone result ≡ answer }
{
    match answer {
        Ok(report) => Ok(RunReport {
            report,
            has_passed: false,
        }),
        Err(fault) => Err(fault),
    }
}

/// Answers a turn that observed a subscriber that had left.
fn passed(answer: Result<Report, ShareFault>) -> Result<RunReport, ShareFault>
    ensures { report_alone result ≡ answer }
{
    match answer {
        Ok(report) => Ok(RunReport {
            report,
            has_passed: true,
        }),
        Err(fault) => Err(fault),
    }
}
