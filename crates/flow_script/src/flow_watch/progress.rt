//! What the subscribers of a flow have received, and which emissions wait.

use super::{Taken, Watch};
use crate::answer::Answer;
use crate::row::PlayedFlow;
use crate::trace::{Act, Changes, Moved, Progress};
use flow_law::Next;
use script_format::FlowStep;
use std::alloc::AllocError;

/// Returns whether a step ends a subscription, if there is one.
fn is_unsubscription(act: Act) -> bool {
    matches!(act, Act::OnFlow(_, FlowStep::Unsubscribe(_)))
}

/// Returns the only subscriber that a step may move: its own.
fn moved_alone(act: Act, name: Option<usize>) -> Option<usize> {
    match act {
        Act::OnFlow(_, FlowStep::Next(place)) => Some(place),
        Act::OnFlow(_, FlowStep::Unsubscribe(place)) => Some(place),
        Act::OnFlow(_, FlowStep::Subscribe) => name,
        Act::SubscribesWith(_, _) => name,
        _ => None,
    }
}

/// Returns whether a step may move all subscribers: it cancels an emission, or drops the oldest value.
fn may_move_all(act: Act, changes: &Changes) -> bool {
    match act {
        Act::OnFlow(_, FlowStep::Cancel(_)) => true,
        _ => changes.loss.is_some(),
    }
}

impl Watch {
    /// Returns what a subscriber has received after a step.
    fn progress(
        &self,
        flow: &PlayedFlow,
        taken: &Taken<'_>,
        name: Option<usize>,
        place: usize,
    ) -> Progress {
        let Some(before) = self.subscribers.get(place) else {
            let own = match taken.act {
                Act::SubscribesWith(_, count) => count,
                _ => 0,
            };
            let position = match taken.answer {
                Answer::Subscribed => Some(flow.position(place).unwrap_or(0)),
                _ => None,
            };
            return Progress { own, position };
        };
        let position = match taken.answer {
            Answer::Tested(true) if name == Some(place) && is_unsubscription(taken.act) => None,
            _ if flow.emission_count().is_some() => flow.position(place),
            _ => before.position,
        };
        let is_own = matches!(taken.answer, Answer::Received(Next::Value(_)));
        let own = if is_own && name == Some(place) {
            before.own.saturating_sub(1)
        } else {
            before.own
        };
        Progress { own, position }
    }

    /// Records a subscriber that the step may have moved.
    fn move_one(
        &mut self,
        flow: &PlayedFlow,
        taken: &Taken<'_>,
        changes: &mut Changes,
        place: usize,
    ) -> Result<(), AllocError> {
        let progress = self.progress(flow, taken, changes.name, place);
        if place < self.subscribers.len() {
            if self.subscribers[place] == progress {
                return Ok(());
            }
            self.subscribers[place] = progress;
        } else {
            self.subscribers.push(progress)?;
        }
        changes.moved.push(Moved {
            subscriber: place,
            progress,
        })?;
        Ok(())
    }

    /// Records the subscribers that a step moved.
    pub(super) fn move_all(
        &mut self,
        flow: &PlayedFlow,
        taken: &Taken<'_>,
        changes: &mut Changes,
    ) -> Result<(), AllocError> {
        if let Some(place) = moved_alone(taken.act, changes.name) {
            return self.move_one(flow, taken, changes, place);
        }
        if may_move_all(taken.act, changes) {
            for place in 0..self.subscribers.len() {
                self.move_one(flow, taken, changes, place)?;
            }
        }
        Ok(())
    }

    /// Records the emissions that no longer wait.
    pub(super) fn end_waits(
        &mut self,
        flow: &PlayedFlow,
        act: Act,
        changes: &mut Changes,
    ) -> Result<(), AllocError> {
        let cancelled = match act {
            Act::OnFlow(_, FlowStep::Cancel(place)) => Some(place),
            _ => None,
        };
        for place in &self.waiting {
            // They end in their order, except the one that is cancelled.
            if flow.waits(*place) {
                if cancelled.is_none() {
                    break;
                }
            } else {
                changes.ended.push(*place)?;
            }
        }
        let ended = changes.ended.as_slice();
        self.waiting.retain(|place| !ended.contains(place));
        Ok(())
    }
}
