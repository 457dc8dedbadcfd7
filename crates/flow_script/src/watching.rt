//! Watching the flows of a script while it is played: what each step did, and what it left.
ghost use Rattle.std.specs.Prelude.{◌≡◌, List, Option, IfOk, IfErr};
ghost use Rattle.script_format.specs.Actions.{action_of};
ghost use Rattle.flow_script.specs.Cases.{step_case};
ghost use Rattle.flow_script.specs.Rows.{FollowsRow, ShowsRow};
ghost use Rattle.flow_script.specs.ScriptMeaning as meaning;

use crate::answer::Answer;
use crate::case::Case;
use crate::flow_watch::{Taken, Watch};
use crate::row::{PlayedFlow, row_step};
use crate::step_case::row_case;
use crate::trace::{Act, Changes, Loss, Seen};
use script_format::{FlowStep, ScriptFault, Step};
use std::alloc::{AllocError, Global};

fn flow_at(row: &[Option<PlayedFlow>], place: Option<usize>) -> Option<&PlayedFlow> {
    row.get(place?)?.as_ref()
}

/// Returns what a step does.
fn act_of(step: &Step) -> Act {
    match step {
        Step::Flow(flow, step) => Act::OnFlow(*flow, *step),
        Step::SubscribeWith(flow, first) => Act::SubscribesWith(*flow, first.len()),
        Step::Collect(_) => Act::Collects,
    }
}

/// Returns the value that an emission drops, and the subscribers that had yet to receive it: those that are as far
/// behind as the flow's oldest value.
fn loss_of(alloc: Global, flow: &PlayedFlow) -> Result<Option<Loss>, AllocError> {
    let Some(value) = flow.oldest() else {
        return Ok(None);
    };
    let mut losers = Vec::new(alloc);
    for place in 0..flow.subscribers() {
        if flow.lag(place) == Some(flow.held() as u64) {
            losers.push(place)?;
        }
    }
    Ok(Some(Loss { value, losers }))
}

/// Returns what is known of a step's changes before it is played: what it will drop.
fn foreseen(
    alloc: Global,
    row: &[Option<PlayedFlow>],
    act: Act,
    case: Case,
) -> Result<Changes, AllocError> {
    let loss = match flow_at(row, act.flow()) {
        Some(flow) if case == Case::DropsOldest => loss_of(alloc, flow)?,
        _ => None,
    };
    Ok(Changes {
        name: None,
        emitted: None,
        lag: None,
        item: None,
        loss,
        moved: Vec::new(alloc),
        ended: Vec::new(alloc),
        after: None,
    })
}

/// Completes the changes of a step after it was played.
fn complete(
    row: &[Option<PlayedFlow>],
    watches: &mut [Watch],
    taken: &Taken<'_>,
    before: Option<u64>,
    changes: &mut Changes,
) -> Result<(), AllocError> {
    let Some(place) = taken.act.flow() else {
        return Ok(());
    };
    let Some(flow) = flow_at(row, Some(place)) else {
        return Ok(());
    };
    changes.emitted = match (before, flow.emission_count()) {
        (Some(before), Some(after)) => Some(after.saturating_sub(before)),
        _ => None,
    };
    if changes.emitted == Some(0) {
        // The flow refused the value: it has issued all its numbers.
        changes.loss = None;
    }
    match watches.get_mut(place) {
        Some(watch) => watch.add_step(flow, taken, changes),
        None => Ok(()),
    }
}

/// Returns how many values the flow at a place has emitted, if it is a shared flow.
fn emission_count(row: &[Option<PlayedFlow>], place: Option<usize>) -> Option<u64> {
    flow_at(row, place)?.emission_count()
}

/// Plays a step, and returns its answer with what is seen of it.
pub fn watched_step(
    alloc: Global,
    row: &mut Vec<Option<PlayedFlow>>,
    watches: &mut [Watch],
    step: Step,
) -> Result<(Answer, Seen), ScriptFault>
    ensures plays { IfOk result (λ told. FollowsRow (meaning.turn (action_of step))
        row.old.items row.new.items told.0) }
    ensures case { IfOk result (λ told. (flows : List (Option meaning.PlayedFlow)) →
        ShowsRow row.old.items flows → told.1.case ≡ step_case (action_of step) flows) }
    ensures fault { IfErr result (λ fault. fault ≡ ScriptFault.OutOfMemory) }
{
    let act = act_of(&step);
    let case = row_case(row.as_slice(), &step);
    let mut changes = foreseen(alloc, row.as_slice(), act, case)?;
    let before = emission_count(row.as_slice(), act.flow());
    let answer = row_step(alloc, row, step)?;
    let taken = Taken {
        act,
        case,
        answer: &answer,
    };
    complete(row.as_slice(), watches, &taken, before, &mut changes)?;
    Ok((answer, Seen { act, case, changes }))
}

/// Returns, for each step, the lag of the subscriber that it introduced.
pub fn last_lags(
    alloc: Global,
    row: &[Option<PlayedFlow>],
    steps: &[Seen],
) -> Result<Vec<Option<u64>>, AllocError> {
    let mut lags = Vec::new(alloc);
    for seen in steps {
        let place = match seen.act {
            Act::OnFlow(_, FlowStep::Subscribe) | Act::SubscribesWith(_, _) => seen.changes.name,
            _ => None,
        };
        lags.push(match (flow_at(row, seen.act.flow()), place) {
            (Some(flow), Some(place)) => flow.lag(place),
            _ => None,
        })?;
    }
    Ok(lags)
}
