//! The case of a step, by the flow on which it acts.
ghost use Rattle.std.specs.Prelude.{◌≡◌, List, Option};
ghost use Rattle.script_format.specs.Actions.{action_of};
ghost use Rattle.flow_script.specs.Cases as cases;
ghost use Rattle.flow_script.specs.Rows.{ShowsPlace, ShowsRow};
ghost use Rattle.flow_script.specs.ScriptMeaning as meaning;

use crate::case::Case;
use crate::row::PlayedFlow;
use script_format::{FlowStep, Step};

/// Returns the case of a step on what is at a place.
fn place_case(place: &Option<PlayedFlow>, step: FlowStep) -> Case
    ensures { (flow : Option meaning.PlayedFlow) → ShowsPlace place.now flow →
        result ≡ cases.place_case step flow }
{
    match place {
        Some(flow) => flow.case_of(step),
        None => Case::Plain,
    }
}

/// Returns the case of a step on the flow at a place.
fn case_at(row: &[Option<PlayedFlow>], place: usize, step: FlowStep) -> Case
    ensures { (flows : List (Option meaning.PlayedFlow)) → ShowsRow row.now flows →
        result ≡ cases.place_case step (meaning.flow_at place flows) }
{
    if place < row.len() {
        return place_case(&row[place], step);
    }
    Case::Plain
}

/// Returns the case of a step of a script, before it is played.
pub fn row_case(row: &[Option<PlayedFlow>], step: &Step) -> Case
    ensures { (flows : List (Option meaning.PlayedFlow)) → ShowsRow row.now flows →
        result ≡ cases.step_case (action_of step.now) flows }
{
    match step {
        Step::Flow(place, step) => case_at(row, *place, *step),
        Step::SubscribeWith(_, _) | Step::Collect(_) => Case::Plain,
    }
}
