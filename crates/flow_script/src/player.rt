//! A flow of a script, as its steps are played on it.
ghost use Rattle.std.specs.Prelude.{◌≡◌, IfOk, IfErr};
ghost use Rattle.script_format.specs.Actions.{head_of_flow};
ghost use Rattle.script_chain_format.specs.Chains.{build_of};
ghost use Rattle.script_format.specs.Heads.{shared_chain, state_chain};
ghost use Rattle.flow_script.specs.ScriptMeaning as meaning;
ghost use Rattle.flow_script.specs.Cases.{player_case};
ghost use Rattle.flow_script.specs.Players.{MakesPlayer, MakesSharing, Rewinds, ShowsPlayer};
ghost use Rattle.flow_script.specs.Shown.{FollowsStep};

use crate::answer::Answer;
use crate::case::{Case, shared_case, state_case};
use crate::flow_steps::{answer_without_call, flow_step};
use crate::numbers::Numbers;
use crate::refusal::Refusal;
use crate::shared_calls::subscribe_with;
use crate::sharing_steps::sharing_step;
use flow_cold::{Cold, ScriptChain};
use flow_core::{SharedCore, StateCore};
use flow_law::Started;
use flow_turns::{CoreHub, ShareFault, Sharing, StateHub, share_in, state_in};
use script_format::{Build, FlowStep, ScriptFault, ScriptFlow};
use std::alloc::Global;

/// What the steps on a flow are played on.
#[derive(Drop)]
pub enum Player {
    Shared(SharedCore<i64>),
    State(StateCore<i64>),
    Share(Sharing<ScriptChain, CoreHub<i64>>),
    StateIn(Sharing<ScriptChain, StateHub<i64>>),
}

/// A flow into which a chain is shared, or why it was not made.
type Made = Result<Player, ShareFault>;

/// Returns the chain from its beginning, unless it could not be built.
fn rewound(chain: Build) -> Result<ScriptChain, ShareFault>
    ensures { Rewinds chain result }
{
    match chain {
        Ok(mut chain) => {
            chain.rewind();
            Ok(chain)
        }
        Err(fault) => Err(ShareFault::Chain(fault)),
    }
}

impl Player {
    fn share(alloc: Global, chain: Build, started: Started, replay: u32, limit: u64) -> Made
        ensures { MakesSharing (shared_chain (build_of chain) started replay limit) result }
    {
        let chain = rewound(chain)?;
        let sharing = share_in(alloc, chain, started, replay, limit)?;
        Ok(Player::Share(sharing))
    }

    fn state_in(alloc: Global, chain: Build, started: Started, initial: i64, limit: u64) -> Made
        ensures { MakesSharing (state_chain (build_of chain) started initial limit) result }
    {
        let chain = rewound(chain)?;
        let sharing = state_in(alloc, chain, started, initial, limit)?;
        Ok(Player::StateIn(sharing))
    }

    /// Returns a flow before its first step, or why it was not made.
    pub fn new(alloc: Global, flow: ScriptFlow) -> Result<Self, Refusal>
        ensures { MakesPlayer (head_of_flow flow) result }
    {
        match flow {
            ScriptFlow::Shared(config) => Ok(Player::Shared(SharedCore::new(alloc, config)?)),
            ScriptFlow::State { initial, limit } => {
                Ok(Player::State(StateCore::new(alloc, initial, limit)))
            }
            ScriptFlow::Share {
                chain,
                started,
                replay,
                limit,
            } => Ok(Player::share(alloc, chain, started, replay, limit)?),
            ScriptFlow::StateIn {
                chain,
                started,
                initial,
                limit,
            } => Ok(Player::state_in(alloc, chain, started, initial, limit)?),
        }
    }

    /// Returns the shared flow that the steps are played on, if it is one.
    pub fn shared_core(&self) -> Option<&SharedCore<i64>> {
        match self {
            Player::Shared(core) => Some(core),
            Player::Share(sharing) => Some(sharing.hub().core()),
            Player::State(_) | Player::StateIn(_) => None,
        }
    }

    /// Returns the state flow that the steps are played on, if it is one.
    pub fn state_core(&self) -> Option<&StateCore<i64>> {
        match self {
            Player::State(core) => Some(core),
            Player::StateIn(sharing) => Some(sharing.hub().core()),
            Player::Shared(_) | Player::Share(_) => None,
        }
    }

    /// Returns the number of subscribers.
    pub fn subscription_count(&self) -> u64 {
        match (self.shared_core(), self.state_core()) {
            (Some(core), _) => core.subscription_count(),
            (None, Some(core)) => core.subscription_count(),
            (None, None) => 0,
        }
    }

    /// Returns the case of a step, before it is played.
    pub fn case_of(&self, step: FlowStep) -> Case
        ensures { (p : meaning.Player) → ShowsPlayer self.now p → result ≡ player_case step p }
    {
        match self {
            Player::Shared(core) => shared_case(core, step),
            Player::State(core) => state_case(core, step),
            Player::Share(_) => Case::Plain,
            Player::StateIn(_) => Case::Plain,
        }
    }

    /// Subscribes with first values of the subscriber's own. Only a shared flow into which no chain is shared has this
    /// step.
    pub fn subscribe_with(
        &mut self,
        numbers: &mut Numbers,
        first: Vec<i64>,
    ) -> Result<Answer, ScriptFault>
        ensures plays { IfOk result (FollowsStep ShowsPlayer (meaning.player_subscribes_with first.items)
            self.old self.new numbers.old numbers.new) }
        ensures fault { IfErr result (λ fault. fault ≡ ScriptFault.OutOfMemory) }
    {
        match self {
            Player::Shared(core) => subscribe_with(core, numbers, first),
            _ => Ok(answer_without_call(FlowStep::Subscribe)),
        }
    }

    /// Plays a step on the flow.
    pub fn flow_step(
        &mut self,
        numbers: &mut Numbers,
        step: FlowStep,
    ) -> Result<Answer, ScriptFault>
        ensures plays { IfOk result (FollowsStep ShowsPlayer (meaning.player_turn step)
            self.old self.new numbers.old numbers.new) }
        ensures fault { IfErr result (λ fault. fault ≡ ScriptFault.OutOfMemory) }
    {
        match self {
            Player::Shared(core) => flow_step(core, numbers, step),
            Player::State(core) => flow_step(core, numbers, step),
            Player::Share(sharing) => sharing_step(sharing, numbers, step),
            Player::StateIn(sharing) => sharing_step(sharing, numbers, step),
        }
    }
}
