//! The values that a flow emitted, and those that wait.

use super::{Queued, Taken, Watch};
use crate::answer::Answer;
use crate::case::Case;
use crate::trace::{Act, Changes};
use flow_law::{Command, Event, Report};
use script_format::FlowStep;
use std::alloc::AllocError;

impl Watch {
    /// Adds the values that were waiting and that the step emitted, in their order.
    fn admit(&mut self, count: u64) -> Result<(), AllocError> {
        let mut left = count;
        for queued in &self.queue {
            if left == 0 {
                break;
            }
            left -= 1;
            self.values.push(queued.value)?;
        }
        let mut place = 0u64;
        self.queue.retain(|_| {
            place = place.saturating_add(1);
            place > count
        });
        Ok(())
    }

    /// Adds the value of a step that emits one.
    fn add_value(&mut self, queued: Queued, case: Case, emitted: u64) -> Result<(), AllocError> {
        if emitted > 0 {
            self.values.push(queued.value)?;
        } else if case == Case::Queues {
            self.queue.push(queued)?;
        }
        Ok(())
    }

    /// Adds an emission, which waits if its answer says so.
    fn add_emission(
        &mut self,
        value: i64,
        answer: &Answer,
        case: Case,
        emitted: u64,
    ) -> Result<(), AllocError> {
        let place = self.emissions;
        self.emissions = place.saturating_add(1);
        let queued = Queued {
            emission: Some(place),
            value,
        };
        if matches!(answer, Answer::Queued) {
            self.waiting.push(place)?;
            return self.add_value(queued, case, emitted);
        }
        self.add_value(queued, Case::Plain, emitted)
    }

    /// Adds the item that a turn took from the chain, and forgets what a stop ended.
    fn add_turn(&mut self, report: Report, changes: &mut Changes) -> Result<(), AllocError> {
        if !matches!(report.command, Command::Keep | Command::Start) {
            self.queue.clear();
        }
        if matches!(report.command, Command::StopAndReset) {
            self.reset_mark = self.values.len() as u64;
        }
        let Some(asking) = &mut self.asking else {
            return Ok(());
        };
        changes.item = asking.item(report)?;
        let Some(value) = changes.item else {
            return Ok(());
        };
        let queued = Queued {
            emission: None,
            value,
        };
        match report.event {
            Event::Put => self.add_value(queued, Case::Appends, changes.emitted.unwrap_or(0)),
            Event::Queued => self.add_value(queued, Case::Queues, 0),
            _ => Ok(()),
        }
    }

    /// Adds the values that a step emitted or queued.
    pub(super) fn add_values(
        &mut self,
        taken: &Taken<'_>,
        changes: &mut Changes,
    ) -> Result<(), AllocError> {
        let emitted = changes.emitted.unwrap_or(0);
        match (taken.act, taken.answer) {
            (Act::OnFlow(_, FlowStep::Emit(value)), answer) => {
                self.add_emission(value, answer, taken.case, emitted)
            }
            (Act::OnFlow(_, FlowStep::TryEmit(value)), _) => {
                let queued = Queued {
                    emission: None,
                    value,
                };
                self.add_value(queued, Case::Plain, emitted)
            }
            (_, Answer::Turned(report)) => self.add_turn(*report, changes),
            (Act::OnFlow(_, FlowStep::Cancel(_)), Answer::Tested(true)) => {
                self.queue.retain(|queued| queued.emission != changes.name);
                self.admit(emitted)
            }
            (_, Answer::Reset) => {
                self.reset_mark = self.values.len() as u64;
                Ok(())
            }
            _ => self.admit(emitted),
        }
    }
}
