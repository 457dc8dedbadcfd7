//! The flows of a script, in a row on which its steps are played.
ghost use Rattle.std.specs.Prelude.{◌≡◌, ◌++◌, [], ◌∷◌, List, Option, Some, None, Ok, Err, OnOk, IfOk, IfErr, option_map, string_bytes};
ghost use Rattle.script_format.specs.Actions.{action_of, heads_of, named_head};
ghost use Rattle.script_format.specs.Heads.{NamedHead};
ghost use Rattle.flow_script.specs.declared.row.PlayedFlow.{PlayedFlow as Kept};
ghost use Rattle.flow_script.specs.Players.{MakesPlayer, ShowsPlayer};
ghost use Rattle.flow_script.specs.Refusals.{IsTold, refused_answer};
ghost use Rattle.flow_script.specs.Cases.{player_case};
ghost use Rattle.flow_script.specs.Rows.{AddsFlow, BeginsScript, FollowsPlace, FollowsRow, ShowsFlow};
ghost use Rattle.flow_script.specs.Said.{all_not_made};
ghost use Rattle.flow_script.specs.ScriptMeaning as meaning;

use crate::answer::{Answer, NotMade};
use crate::case::{Case, current};
use crate::collecting::collect;
use crate::numbers::Numbers;
use crate::player::Player;
use crate::refusal::Refusal;
use script_format::{FlowStep, NamedFlow, ScriptFault, Step};
use std::alloc::Global;

/// A flow that was made, and what the names of its steps stand for.
#[derive(Drop)]
pub struct PlayedFlow {
    player: Player,
    numbers: Numbers,
}

impl PlayedFlow {
    /// Returns a flow before its first step.
    fn new(alloc: Global, player: Player) -> Self
        ensures { (p : meaning.Player) → ShowsPlayer player p →
            ShowsFlow result (meaning.first_played p) }
    {
        PlayedFlow {
            player,
            numbers: Numbers::new(alloc),
        }
    }

    /// Returns how many values the flow has emitted, if it is a shared flow.
    pub fn emission_count(&self) -> Option<u64> {
        Some(self.player.shared_core()?.emission_count())
    }

    /// Returns how many values a shared flow keeps; those that a present or a new subscriber may still receive.
    pub fn held(&self) -> usize {
        match self.player.shared_core() {
            Some(core) => core.held(),
            None => 0,
        }
    }

    /// Returns the oldest value that a shared flow keeps.
    pub fn oldest(&self) -> Option<i64> {
        self.player.shared_core()?.held_value(0).copied()
    }

    /// Returns how many names of subscribers were introduced.
    pub fn subscribers(&self) -> usize {
        self.numbers.subscribers()
    }

    /// Returns the number of subscribers.
    pub fn subscription_count(&self) -> u64 {
        self.player.subscription_count()
    }

    /// Returns the value of a state flow.
    pub fn value(&self) -> Option<i64> {
        Some(current(self.player.state_core()?))
    }

    /// Returns the lag of the subscriber whose name has this place, if the flow is a shared flow.
    pub fn lag(&self, place: usize) -> Option<u64> {
        let id = self.numbers.subscriber_at(place)?;
        self.player.shared_core()?.lag(id)
    }

    /// Returns how many emitted values the subscriber whose name has this place has passed.
    pub fn position(&self, place: usize) -> Option<u64> {
        let lag = self.lag(place)?;
        Some(self.emission_count()?.saturating_sub(lag))
    }

    /// Returns whether the emission whose name has this place still waits.
    pub fn waits(&self, place: usize) -> bool {
        match (self.numbers.emission_at(place), self.player.shared_core()) {
            (Some(number), Some(core)) => core.poll(number),
            _ => false,
        }
    }

    /// Returns the case of a step on the flow.
    pub fn case_of(&self, step: FlowStep) -> Case
        ensures { (flow : meaning.PlayedFlow) → ShowsFlow self.now flow →
            result ≡ player_case step flow.player }
    {
        self.player.case_of(step)
    }
}

fn add_place(
    row: &mut Vec<Option<PlayedFlow>>,
    place: Option<PlayedFlow>,
) -> Result<(), ScriptFault>
    ensures added { OnOk result (row.new.items ≡ row.old.items ++ place ∷ []) }
    ensures fault { IfErr result (λ fault. fault ≡ ScriptFault.OutOfMemory) }
{
    row.push(place).map_err(|_| ScriptFault::OutOfMemory)
}

/// Adds a flow that was refused to those that were refused before it.
fn add_refused(
    not_made: &mut Vec<NotMade>,
    name: Option<String>,
    refused: Refusal,
) -> Result<(), ScriptFault>
    ensures told { OnOk result (IsTold refused) }
    ensures added { OnOk result (all_not_made not_made.new.items ≡ all_not_made not_made.old.items
        ++ meaning.not_made_flow (option_map string_bytes name) (refused_answer refused) ∷ []) }
    ensures fault { IfErr result (λ fault. fault ≡ ScriptFault.OutOfMemory) }
{
    let answer = refused.answer()?;
    not_made.push(NotMade { name, answer })?;
    Ok(())
}

/// Adds a flow that was made, and returns that the script continues.
fn add_made(
    alloc: Global,
    row: &mut Vec<Option<PlayedFlow>>,
    player: Player,
) -> Result<bool, ScriptFault>
    ensures adds { (named : NamedHead) (refused : List meaning.NotMade) →
        MakesPlayer named.flow (Ok player)
        → IfOk result (λ goes_on.
        AddsFlow named goes_on row.old.items row.new.items refused refused) }
    ensures fault { IfErr result (λ fault. fault ≡ ScriptFault.OutOfMemory) }
{
    add_place(row, Some(PlayedFlow::new(alloc, player)))?;
    Ok(true)
}

/// Adds an empty place for a flow with a name that was not made, and returns that the script continues.
fn add_not_made(
    row: &mut Vec<Option<PlayedFlow>>,
    not_made: &mut Vec<NotMade>,
    name: String,
    refused: Refusal,
) -> Result<bool, ScriptFault>
    ensures adds { (named : NamedHead) → named.name ≡ Some (string_bytes name)
        → MakesPlayer named.flow (Err refused)
        → IfOk result (λ goes_on. AddsFlow named goes_on row.old.items row.new.items
        (all_not_made not_made.old.items) (all_not_made not_made.new.items)) }
    ensures fault { IfErr result (λ fault. fault ≡ ScriptFault.OutOfMemory) }
{
    add_refused(not_made, Some(name), refused)?;
    add_place(row, None)?;
    Ok(true)
}

/// Adds a flow without a name that was not made, and returns that the script ends.
fn end_not_made(not_made: &mut Vec<NotMade>, refused: Refusal) -> Result<bool, ScriptFault>
    ensures ends { (named : NamedHead) (row : List (Option Kept)) → named.name ≡ None
        → MakesPlayer named.flow (Err refused)
        → IfOk result (λ goes_on. AddsFlow named goes_on row row
        (all_not_made not_made.old.items) (all_not_made not_made.new.items)) }
    ensures fault { IfErr result (λ fault. fault ≡ ScriptFault.OutOfMemory) }
{
    add_refused(not_made, None, refused)?;
    Ok(false)
}

/// Makes one more flow, and returns whether the script continues: it ends if a flow without a name is refused.
fn add_flow(
    alloc: Global,
    row: &mut Vec<Option<PlayedFlow>>,
    not_made: &mut Vec<NotMade>,
    named: NamedFlow,
) -> Result<bool, ScriptFault>
    ensures adds { IfOk result (λ goes_on.
        AddsFlow (named_head named) goes_on row.old.items row.new.items
        (all_not_made not_made.old.items) (all_not_made not_made.new.items)) }
    ensures fault { IfErr result (λ fault. fault ≡ ScriptFault.OutOfMemory) }
{
    let NamedFlow { name, flow } = named;
    match Player::new(alloc, flow) {
        Ok(player) => add_made(alloc, row, player),
        Err(refused) => match name {
            Some(name) => add_not_made(row, not_made, name, refused),
            None => end_not_made(not_made, refused),
        },
    }
}

/// Makes the flows in their order, before the first step. Returns `None` if a refusal ends the script.
pub fn begin(
    alloc: Global,
    not_made: &mut Vec<NotMade>,
    flows: Vec<NamedFlow>,
) -> Result<Option<Vec<Option<PlayedFlow>>>, ScriptFault>
    ensures begins { IfOk result (BeginsScript (heads_of flows.items)
        (all_not_made not_made.old.items) (all_not_made not_made.new.items)) }
    ensures fault { IfErr result (λ fault. fault ≡ ScriptFault.OutOfMemory) }
{
    let mut row = Vec::new(alloc);
    for named in flows {
        if !add_flow(alloc, &mut row, not_made, named)? {
            return Ok(None);
        }
    }
    Ok(Some(row))
}

/// Plays a step on what is at a place: a flow, or nothing if it was refused when it was made.
fn place_step(place: &mut Option<PlayedFlow>, step: FlowStep) -> Result<Answer, ScriptFault>
    ensures plays { IfOk result (FollowsPlace (meaning.player_turn step) place.old place.new) }
    ensures fault { IfErr result (λ fault. fault ≡ ScriptFault.OutOfMemory) }
{
    match place {
        Some(flow) => flow.player.flow_step(&mut flow.numbers, step),
        None => Ok(Answer::NoFlow),
    }
}

/// Plays a step on the flow at a place.
fn step_at(
    row: &mut [Option<PlayedFlow>],
    place: usize,
    step: FlowStep,
) -> Result<Answer, ScriptFault>
    ensures plays { IfOk result
        (FollowsRow (meaning.turn_at place (meaning.player_turn step)) row.old row.new) }
    ensures fault { IfErr result (λ fault. fault ≡ ScriptFault.OutOfMemory) }
{
    if place < row.len() {
        return place_step(&mut row[place], step);
    }
    Ok(Answer::NoFlow)
}

/// Subscribes to what is at a place, with first values of the subscriber's own.
fn place_subscribe(place: &mut Option<PlayedFlow>, first: Vec<i64>) -> Result<Answer, ScriptFault>
    ensures plays { IfOk result
        (FollowsPlace (meaning.player_subscribes_with first.items) place.old place.new) }
    ensures fault { IfErr result (λ fault. fault ≡ ScriptFault.OutOfMemory) }
{
    match place {
        Some(flow) => flow.player.subscribe_with(&mut flow.numbers, first),
        None => Ok(Answer::NoFlow),
    }
}

/// Subscribes to the flow at a place, with first values of the subscriber's own.
fn subscribe_at(
    row: &mut [Option<PlayedFlow>],
    place: usize,
    first: Vec<i64>,
) -> Result<Answer, ScriptFault>
    ensures plays { IfOk result
        (FollowsRow (meaning.turn_at place (meaning.player_subscribes_with first.items))
        row.old row.new) }
    ensures fault { IfErr result (λ fault. fault ≡ ScriptFault.OutOfMemory) }
{
    if place < row.len() {
        return place_subscribe(&mut row[place], first);
    }
    Ok(Answer::NoFlow)
}

/// Plays a step of a script.
pub fn row_step(
    alloc: Global,
    row: &mut Vec<Option<PlayedFlow>>,
    step: Step,
) -> Result<Answer, ScriptFault>
    ensures plays { IfOk result (FollowsRow (meaning.turn (action_of step))
        row.old.items row.new.items) }
    ensures fault { IfErr result (λ fault. fault ≡ ScriptFault.OutOfMemory) }
{
    match step {
        Step::Flow(place, step) => step_at(row.as_mut_slice(), place, step),
        Step::SubscribeWith(place, first) => subscribe_at(row.as_mut_slice(), place, first),
        Step::Collect(build) => collect(alloc, build),
    }
}
