//! The picture of a script's steps, which grows by a column with each step.

use crate::mark::{Admitted, Label, Note, Sign, Words};
use crate::marks::{Marks, Named, marks_of};
use crate::picture::Picture;
use crate::played::{Played, PlayedStep};
use flow_law::{Command, Event, Report};
use flow_script::{Act, Answer, Changes, FlowStep, FlowTrace, Seen, SubscriberNames, text_at};
use indexmap::IndexMap;
use serde_json::Value;
use std::alloc::{AllocError, Global};

/// The most subscribers whose losses a step shows.
const MOST_LOST: usize = 16;

/// A picture that grows by a column with each step.
#[derive(Drop)]
struct GrowingPicture<'a> {
    picture: Picture<'a>,
    /// The flows of the script. Their lanes are the first ones.
    flows: &'a [FlowTrace],
    /// The lanes of the subscribers and the emissions, by name. An emission that was done at once has none.
    lanes: IndexMap<&'a str, usize>,
    /// The lanes of the emissions of each flow, by the places of their names.
    emissions: Vec<Vec<Option<usize>>>,
    /// The subscribers that losses name.
    names: SubscriberNames<'a>,
}

impl<'a> GrowingPicture<'a> {
    /// Returns a picture with a lane for each flow of a script.
    fn new(alloc: Global, played: Played<'a>) -> Result<Self, AllocError> {
        let trace = &played.traced.trace;
        let (flows, seen) = (trace.flows.as_slice(), trace.steps.as_slice());
        let names = SubscriberNames::new(alloc, flows.len(), played.traced.steps(), seen)?;
        let mut emissions: Vec<Vec<Option<usize>>> = Vec::new(alloc);
        let mut picture = Picture::new(alloc);
        for flow in played.flows {
            emissions.push(Vec::new(alloc))?;
            picture.add_lane(Label::of(flow.name), None);
        }
        Ok(GrowingPicture {
            picture,
            flows,
            lanes: IndexMap::new(alloc),
            emissions,
            names,
        })
    }

    /// Returns the lane of the subscriber or the emission that a step names.
    fn named_lane(&self, step: &Value) -> Option<usize> {
        self.lanes.get(text_at(step, "name")).copied()
    }

    /// Adds a lane for the subscriber or the emission whose name a step introduces. `waits` is the value of an
    /// emission.
    fn add_name(&mut self, step: &'a Value, waits: Option<i64>) {
        let name = text_at(step, "name");
        let flow = if self.flows.len() > 1 {
            Some(text_at(step, "flow"))
        } else {
            None
        };
        let lane = self.picture.lanes.len();
        self.picture.add_lane(Label { name, flow }, waits);
        if self.lanes.insert(name, lane).is_err() {
            self.picture.failed = true;
        }
    }

    /// Records the lane of an emission of a flow. One that was done at once has none.
    fn add_emission(&mut self, flow: usize, lane: Option<usize>) {
        if let Some(emissions) = self.emissions.get_mut(flow)
            && emissions.push(lane).is_err()
        {
            self.picture.failed = true;
        }
    }

    /// Ends a lane with a mark in the next column.
    fn end_lane(&mut self, lane: usize, sign: Sign, words: Words<'a>) {
        let column = self.picture.columns;
        self.picture.end_lane(lane, column);
        self.picture.add_mark(lane, sign, words, Note::None);
    }

    /// Adds a mark to the lane of the flow that a step acts on.
    fn mark_flow(&mut self, flow: usize, sign: Sign, words: Words<'a>, answer: &Answer) {
        if matches!(answer, Answer::NoFlow) {
            // The lane of a flow that was refused has marks, and no line.
            self.picture.end_lane(flow, 0);
        }
        self.picture.add_mark(flow, sign, words, Note::None);
    }

    /// Adds a mark to the lane of the subscriber or the emission that a step names. An emission that was done at once
    /// has no lane: a step that finds nothing of it has its mark on the lane of the flow.
    fn mark_named(
        &mut self,
        flow: usize,
        lane: Option<usize>,
        named: Named,
        words: Words<'a>,
        lag: u64,
    ) {
        match (named, lane) {
            (Named::Untouched, _) | (Named::Ended(_), None) => {}
            (Named::Marked(sign), Some(lane)) => self
                .picture
                .add_mark(lane, sign, words, Note::behind(lag)),
            (Named::Marked(sign), None) => self.picture.add_mark(flow, sign, words, Note::None),
            (Named::Ended(sign), Some(lane)) => self.end_lane(lane, sign, words),
        }
    }

    /// Ends the lanes of the emissions of a flow that no longer wait, and returns their values. One that was cancelled
    /// has ended already.
    fn end_emissions(&mut self, flow: usize, ended: &[usize]) -> Admitted {
        let mut admitted = Admitted {
            first: [0; 3],
            count: 0,
        };
        for place in ended {
            let lane = match self.emissions.get(flow) {
                Some(emissions) => emissions.get(*place).copied().unwrap_or(None),
                None => None,
            };
            if let (Some(lane), Some(value)) = (lane, self.picture.open_value(lane)) {
                self.end_lane(lane, Sign::Value, Words::Number(value));
                admitted.push(value);
            }
        }
        admitted
    }

    /// Returns the values that a step let into a flow: those of the emissions that no longer wait, or else the items of
    /// a shared chain that it emitted.
    fn admit(&mut self, flow: usize, changes: &Changes) -> Admitted {
        let mut admitted = self.end_emissions(flow, changes.ended.as_slice());
        if changes.ended.is_empty()
            && let (Some(flow), Some(after), Some(count)) = (
                self.flows.get(flow),
                changes.after,
                changes.emitted,
            )
        {
            let end = after.emitted as usize;
            let from = end.saturating_sub(count as usize);
            for value in flow.values.as_slice().get(from..end).unwrap_or(&[]) {
                admitted.push(*value);
            }
        }
        admitted
    }

    /// Marks the value that subscribers of a flow lose by a step on the lanes of the first of them.
    fn mark_lost(&mut self, flow: usize, seen: &Seen) {
        let Some(loss) = &seen.changes.loss else {
            return;
        };
        for loser in loss.losers.iter().take(MOST_LOST) {
            if let Some(lane) = self.lanes.get(self.names.name(flow, *loser)) {
                self.picture
                    .add_mark(*lane, Sign::Lost, Words::Number(loss.value), Note::None);
            }
        }
    }

    /// Adds the marks of a step on a flow, by its answer and what was seen of it.
    fn mark_step(&mut self, flow: usize, one: PlayedStep<'a>) {
        let changes = &one.seen.changes;
        let lane = self.named_lane(one.step);
        let Marks(on_flow, on_named, words) = marks_of(one, self.picture.open_value(lane));
        self.mark_named(flow, lane, on_named, words, changes.lag.unwrap_or(0));
        let admitted = self.admit(flow, changes);
        match (on_flow, admitted.words()) {
            (Some(sign), _) => self.mark_flow(flow, sign, words, one.answer),
            (None, Some(words)) => self.mark_flow(flow, Sign::Value, words, one.answer),
            (None, None) => {}
        }
        self.mark_lost(flow, one.seen);
    }

    /// Adds the mark of a turn: the item that the flow accepted, with whether the turn started the chain, or else the
    /// turn's line.
    fn mark_turn(&mut self, flow: usize, report: Report, one: PlayedStep<'a>) {
        let note = match report.command {
            Command::Start => Note::Word(" start"),
            Command::Keep | Command::Stop | Command::StopAndReset => Note::None,
        };
        let (sign, words, note) = match (report.event, one.seen.changes.item) {
            (Event::Put, Some(item)) => (Sign::Value, Words::Number(item), note),
            (Event::Queued, Some(item)) => (Sign::Waits, Words::Number(item), note),
            _ => (Sign::Told, Words::Text(one.line), Note::None),
        };
        self.picture.add_mark(flow, sign, words, note);
    }

    /// Adds the marks of the next step. An emission that is done at once has no lane.
    fn add_step(&mut self, one: PlayedStep<'a>) {
        match (one.seen.act, one.answer) {
            (Act::OnFlow(flow, FlowStep::Emit(_)), Answer::Done) => self.add_emission(flow, None),
            (Act::OnFlow(flow, FlowStep::Emit(value)), _) => {
                let lane = self.picture.lanes.len();
                self.add_emission(flow, Some(lane));
                self.add_name(one.step, Some(value));
            }
            (Act::OnFlow(_, FlowStep::Subscribe) | Act::SubscribesWith(_, _), _) => {
                self.add_name(one.step, None);
            }
            _ => {}
        }
        match (one.seen.act.flow(), one.answer) {
            (Some(flow), Answer::Turned(report)) => self.mark_turn(flow, *report, one),
            (Some(flow), _) => self.mark_step(flow, one),
            (None, _) => {}
        }
        self.picture.columns = self.picture.columns.saturating_add(1);
    }

    /// Marks each subscriber that has values yet to receive after the last step with their number, in a column of
    /// their own.
    fn add_last_lags(&mut self, steps: &'a [PlayedStep<'a>]) {
        let marks = self.picture.marks.len();
        for one in steps {
            if one.last_lag > 0
                && let Some(lane) = self.named_lane(one.step)
            {
                self.picture
                    .add_mark(lane, Sign::Over, Words::None, Note::Behind(one.last_lag));
            }
        }
        if self.picture.marks.len() > marks {
            self.picture.columns = self.picture.columns.saturating_add(1);
        }
    }
}

/// Returns the picture of a script's steps: a lane for each flow, each subscriber and each emission that was not done
/// at once, a column for each step that was played, and one more if subscribers have values yet to receive at the end.
///
/// # Errors
/// `AllocError`: out of memory.
pub fn steps_picture<'a>(alloc: Global, played: Played<'a>) -> Result<Picture<'a>, AllocError> {
    let mut growing = GrowingPicture::new(alloc, played)?;
    for one in played.steps {
        growing.add_step(*one);
    }
    growing.add_last_lags(played.steps);
    let GrowingPicture { picture, .. } = growing;
    picture.finish()
}
