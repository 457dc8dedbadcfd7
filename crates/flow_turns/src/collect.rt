//! The last step of a turn: while the sharing runs, at most one item is put into the flow.
ghost use Rattle.std.specs.Prelude.{◌≡◌, ◌≢◌, None, MatchResult, false, Err};
ghost use Rattle.flow_law.specs.sharing.SharingCalls.{polls};
ghost use Rattle.flow_law.specs.sharing.SharingTurn as steps;
ghost use Rattle.flow_operators.specs.Asking.{AskGives, OnEnd};
ghost use Rattle.flow_turns.specs.SharingViews.{sharing_state, sharing_chain, CanRun, KeepsReadings, has_ended};
ghost use Rattle.flow_turns.specs.TurnClauses.{FaultWasAnswered, ended_after};
ghost use Rattle.flow_turns.specs.TurnParts.{ActsBy, CallsHub, TurnComesTo};

use crate::answers::refusal_of;
use crate::hub::Hub;
use crate::sharing::Sharing;
use flow_cold::{Asked, Cold};
use flow_law::{Event, FlowFault, Refused, ShareFault};

/// Asks the chain, once in a turn. The answer is the chain's own, also if it is `OutOfMemory`.
fn ask_chain<C: Cold>(chain: &mut C) -> Asked<C::Item>
    requires { C.CanAsk chain.old }
    ensures callable { C.CanAsk chain.new }
    ensures reads { KeepsReadings C.Reads chain.old chain.new }
    ensures whole { (m : C.Reading) → C.whole chain.new m ≡ C.whole chain.old m }
    ensures gives { (m : C.Reading) → C.Reads chain.old m →
        AskGives (C.rest chain.old m) result (C.rest chain.new m) }
    ensures answered { OnEnd result (C.HasAnswered chain.new) }
{
    chain.ask()
}

impl<C: Cold, H: Hub<Item = C::Item>> Sharing<C, H> {
    /// Puts an item into the hub. If the hub refuses it, keeps it.
    fn put(&mut self, item: C::Item) -> Result<Event, ShareFault>
        requires callable { CanRun C.CanAsk self.old }
        requires free { H.waits self.old.hub ≡ false }
        requires empty { self.old.kept ≡ None }
        ensures steps { TurnComesTo (ActsBy C.Reads C.whole C.rest H.does H.waits)
            (λ command seen. steps.put command seen item) self.old result self.new }
        ensures callable { CanRun C.CanAsk self.new }
        ensures reads { KeepsReadings C.Reads (sharing_chain self.old) (sharing_chain self.new) }
        ensures policy { self.new.policy ≡ self.old.policy }
        ensures ended { has_ended self.new ≡ ended_after result (has_ended self.old) }
        ensures not_ended { result ≢ Err ShareFault.Ended }
        ensures answered { FaultWasAnswered C.HasAnswered result self.new }
    {
        match self.hub.put(item) {
            Ok(waits) => {
                if waits {
                    Ok(Event::Queued)
                } else {
                    Ok(Event::Put)
                }
            }
            Err(refused) => {
                let Refused { value, fault } = refused;
                self.kept = Some(value);
                refusal_of(fault)
            }
        }
    }

    /// Puts the kept item, or the chain's next one.
    fn send(&mut self) -> Result<Event, ShareFault>
        requires callable { CanRun C.CanAsk self.old }
        requires free { H.waits self.old.hub ≡ false }
        ensures steps { TurnComesTo (ActsBy C.Reads C.whole C.rest H.does H.waits)
            (λ command seen s. steps.send command seen s.kept s) self.old result self.new }
        ensures callable { CanRun C.CanAsk self.new }
        ensures reads { KeepsReadings C.Reads (sharing_chain self.old) (sharing_chain self.new) }
        ensures policy { self.new.policy ≡ self.old.policy }
        ensures ended { has_ended self.new ≡ ended_after result (has_ended self.old) }
        ensures not_ended { result ≢ Err ShareFault.Ended }
        ensures answered { FaultWasAnswered C.HasAnswered result self.new }
    {
        if let Some(item) = self.kept.take() {
            return self.put(item);
        }
        match ask_chain(&mut self.chain) {
            Asked::Item(item) => self.put(item),
            Asked::Pending => Ok(Event::Pending),
            Asked::End => {
                self.completed = true;
                Ok(Event::Completed)
            }
            Asked::Fault(fault) => {
                self.ended = true;
                Err(ShareFault::Chain(fault))
            }
        }
    }

    /// Returns whether the hub's emission waits.
    fn is_waiting(&mut self) -> Result<bool, FlowFault>
        requires { CanRun C.CanAsk self.old }
        ensures callable { CanRun C.CanAsk self.new }
        ensures reads { KeepsReadings C.Reads (sharing_chain self.old) (sharing_chain self.new) }
        ensures policy { self.new.policy ≡ self.old.policy }
        ensures state { sharing_state self.new ≡ sharing_state self.old }
        ensures polls { CallsHub (ActsBy C.Reads C.whole C.rest H.does H.waits)
            polls self.old result self.new }
        ensures waits { MatchResult result
            (λ waits. H.waits self.new.hub ≡ waits)
            (λ _. H.waits self.new.hub ≡ H.waits self.old.hub) }
    {
        self.hub.poll()
    }

    /// While the sharing runs, polls an emission that waits; if none waits, sends the next item.
    pub(crate) fn collect(&mut self) -> Result<Event, ShareFault>
        requires { CanRun C.CanAsk self.old }
        ensures steps { TurnComesTo (ActsBy C.Reads C.whole C.rest H.does H.waits)
            steps.collect_while_running self.old result self.new }
        ensures callable { CanRun C.CanAsk self.new }
        ensures reads { KeepsReadings C.Reads (sharing_chain self.old) (sharing_chain self.new) }
        ensures policy { self.new.policy ≡ self.old.policy }
        ensures ended { has_ended self.new ≡ ended_after result (has_ended self.old) }
        ensures not_ended { result ≢ Err ShareFault.Ended }
        ensures answered { FaultWasAnswered C.HasAnswered result self.new }
    {
        if !self.policy.is_running() {
            return Ok(Event::Idle);
        }
        if self.completed {
            return Ok(Event::Completed);
        }
        let waiting = match self.is_waiting() {
            Ok(waiting) => waiting,
            Err(fault) => return refusal_of(fault),
        };
        if waiting {
            return Ok(Event::Waiting);
        }
        self.send()
    }
}
