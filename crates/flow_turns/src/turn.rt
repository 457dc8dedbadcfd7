//! Turns of a sharing. The caller drives them, and passes the moment.
//!
//! A turn takes the steps of `turn_steps` of `flow_law` in their order: count, observe, obey the command, cancel,
//! reset, collect.
ghost use Rattle.std.specs.Prelude.{◌≡◌, ◌≢◌, [], false, IsTrue, ◌↔◌, Err};
ghost use Rattle.flow_law.specs.sharing.SharingCalls.{counts};
ghost use Rattle.flow_law.specs.sharing.SharingTurn.{at_rest};
ghost use Rattle.flow_turns.specs.SharingViews.{sharing_state, sharing_chain, hub_of, CanRun, KeepsReadings, SharesChain, IsBetweenTurns, IsQuietHub, HasObserved, has_ended};
ghost use Rattle.flow_turns.specs.TurnClauses.{TakesTurn, TakesSomeTurn, MeansAnswer, HandlesReset, StaysBetween, StaysQuiet, FaultWasAnswered, ended_after};
ghost use Rattle.flow_turns.specs.TurnParts.{ActsBy, CallsHub, CommandComesTo};

use crate::answers::{refusal_of, report_of};
use crate::hub::Hub;
use crate::policy::Policy;
use crate::sharing::Sharing;
use flow_cold::Cold;
use flow_law::{Command, Event, FlowFault, Report, ShareFault, Started};

impl<C: Cold, H: Hub<Item = C::Item>> Sharing<C, H> {
    /// Makes a sharing that has observed nothing. The hub has no emission that waits.
    pub fn new(chain: C, started: Started, hub: H) -> Self
        requires callable { C.CanAsk chain }
        requires free { H.waits hub ≡ false }
        ensures callable { CanRun C.CanAsk result }
        ensures reads { KeepsReadings C.Reads chain (sharing_chain result) }
        ensures hub { hub_of result ≡ hub }
        ensures nothing { HasObserved started result [] }
        ensures state { sharing_state result ≡ at_rest }
        ensures chain { SharesChain C.whole C.rest chain result }
        ensures between { IsBetweenTurns C.whole C.rest result }
        ensures quiet { IsQuietHub C.whole C.rest H.waits result }
    {
        Sharing {
            chain,
            hub,
            policy: Policy::new(started),
            kept: None,
            cancel_due: false,
            reset_due: false,
            completed: false,
            ended: false,
        }
    }

    /// Counts the subscribers.
    fn counted(&mut self) -> Result<u64, FlowFault>
        requires { CanRun C.CanAsk self.old }
        ensures callable { CanRun C.CanAsk self.new }
        ensures reads { KeepsReadings C.Reads (sharing_chain self.old) (sharing_chain self.new) }
        ensures policy { self.new.policy ≡ self.old.policy }
        ensures state { sharing_state self.new ≡ sharing_state self.old }
        ensures counts { CallsHub (ActsBy C.Reads C.whole C.rest H.does H.waits)
            counts self.old result self.new }
    {
        self.hub.count()
    }

    /// Takes the steps after the command: starts or stops the chain, does what is due, and then emits an item.
    pub(crate) fn carry_out(&mut self, command: Command) -> Result<Event, ShareFault>
        requires { CanRun C.CanAsk self.old }
        ensures steps { CommandComesTo (ActsBy C.Reads C.whole C.rest H.does H.waits)
            command self.old result self.new }
        ensures callable { CanRun C.CanAsk self.new }
        ensures reads { KeepsReadings C.Reads (sharing_chain self.old) (sharing_chain self.new) }
        ensures policy { self.new.policy ≡ self.old.policy }
        ensures ended { has_ended self.new ≡ ended_after result (has_ended self.old) }
        ensures not_ended { result ≢ Err ShareFault.Ended }
        ensures answered { FaultWasAnswered C.HasAnswered result self.new }
    {
        self.obey(command);
        if let Err(fault) = self.cancel_if_due() {
            return refusal_of(fault);
        }
        if let Err(fault) = self.reset_if_due() {
            return refusal_of(fault);
        }
        self.collect()
    }

    /// Takes one turn at the moment `now`, in milliseconds: counts the subscribers, starts or stops the chain as the
    /// policy says, and emits at most one item while the sharing runs.
    ///
    /// An emission that waits is polled first; once it is done the next item follows, in the same turn. The next turn
    /// does what a refusal left undone: a cancel, a reset, then a kept item, unless a stop drops it.
    ///
    /// # Errors
    /// `Backwards` if `now` is before the last moment: nothing is observed. `Chain` if the chain fails, and `Ended` in
    /// each later turn. `Flow` if the flow refuses a call; a flow that is busy is reported as an event.
    pub fn turn(&mut self, now: u64) -> Result<Report, ShareFault>
        requires { CanRun C.CanAsk self.old }
        ensures callable { CanRun C.CanAsk self.new }
        ensures reads { KeepsReadings C.Reads (sharing_chain self.old) (sharing_chain self.new) }

        // The steps of the turn, and what was observed after it.
        ensures turn { (m : C.Reading) → C.Reads (sharing_chain self.old) m
            → TakesTurn (λ c. C.whole c m)
            (λ c. C.rest c m) H.does H.waits now self.old result self.new }

        // The same of a chain without a reading, whatever it answers: the count and the command, the calls of the hub
        // and their answers, and the report.
        ensures any_turn { TakesSomeTurn H.does H.waits now self.old result self.new }

        // The sharing has ended once a turn has answered a fault of the chain. Every later turn answers `Ended`.
        ensures ended { has_ended self.new ≡ ended_after result (has_ended self.old) }
        ensures refused_after_end { IsTrue (has_ended self.old) ↔ (result ≡ Err ShareFault.Ended) }

        // A fault of the chain is the chain's own last answer. So is `OutOfMemory`.
        ensures answered { FaultWasAnswered C.HasAnswered result self.new }

        // What the report means for the items that the flow has accepted since the last start.
        ensures means { (m : C.Reading) → C.Reads (sharing_chain self.old) m
            → MeansAnswer (λ c. C.whole c m)
            (λ c. C.rest c m) H.does H.waits self.old result self.new }
        ensures resets { (m : C.Reading) → C.Reads (sharing_chain self.old) m
            → HandlesReset H.does H.waits self.old result self.new }
        ensures any_resets { HandlesReset H.does H.waits self.old result self.new }
        ensures between { (m : C.Reading) → C.Reads (sharing_chain self.old) m
            → StaysBetween (λ c. C.whole c m) (λ c. C.rest c m) self.old self.new }
        ensures quiet { (m : C.Reading) → C.Reads (sharing_chain self.old) m
            → StaysQuiet (λ c. C.whole c m) (λ c. C.rest c m) H.waits self.old result self.new }
    {
        if self.ended {
            return Err(ShareFault::Ended);
        }
        let count = match self.counted() {
            Ok(count) => count,
            Err(fault) => return report_of(Command::Keep, refusal_of(fault)),
        };
        let command = match self.policy.observe(now, count) {
            Ok(command) => command,
            Err(backwards) => return Err(ShareFault::Backwards(backwards.last)),
        };
        let outcome = self.carry_out(command);
        report_of(command, outcome)
    }
}
