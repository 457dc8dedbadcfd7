//! Whether a way says what `flow_play` prints.

use crate::said::{Head, NamedHead, Said, Told};
use crate::way::Way;
use flow_script::{Answer, Answers, NotMade, add_answer};
use std::alloc::{AllocError, Global};

/// A line of `flow_play`, and what a way says in its place.
#[derive(Drop)]
pub struct Difference {
    /// The number of the line, from 1.
    pub line: usize,
    pub wanted: String,
    pub came: String,
}

/// What was found of a way.
#[derive(Drop)]
pub struct Verdict {
    /// How many lines `flow_play` prints.
    pub lines: usize,
    /// How many of them the way has, up to the first that differs.
    pub compared: usize,
    /// The calls that the way does not have, and what the flows need that it does not have, each once.
    pub lacking: Vec<&'static str>,
    pub difference: Option<Difference>,
}

/// Returns the line of an answer, without its end.
fn line_of(alloc: Global, answer: &Answer) -> Result<String, AllocError> {
    let mut line = String::new(alloc);
    add_answer(&mut line, answer)?;
    line.pop();
    Ok(line)
}

impl Verdict {
    /// Notes a call that the way does not have.
    fn lack(&mut self, call: &'static str) -> Result<(), AllocError> {
        if !self.lacking.contains(&call) {
            self.lacking.push(call)?;
        }
        Ok(())
    }

    /// Compares the line of a number with what a way says in its place.
    fn compare(
        &mut self,
        alloc: Global,
        line: usize,
        wanted: &Answer,
        came: &Answer,
    ) -> Result<(), AllocError> {
        let wanted = line_of(alloc, wanted)?;
        let came = line_of(alloc, came)?;
        if wanted.as_str() != came.as_str() {
            self.difference = Some(Difference { line, wanted, came });
        } else {
            self.compared = self.compared.saturating_add(1);
        }
        Ok(())
    }
}

/// Returns the flow that `flow_play` refused next, if it is the one with this name.
fn refused_next<'a>(not_made: &'a [NotMade], at: usize, named: &NamedHead) -> Option<&'a NotMade> {
    let refused = not_made.get(at)?;
    let is_named = match (&refused.name, &named.name) {
        (Some(wanted), Some(came)) => wanted.as_str() == came.as_str(),
        (None, None) => true,
        _ => false,
    };
    if is_named { Some(refused) } else { None }
}

impl Verdict {
    /// Compares what is said of a flow with the refusal of the flow by `flow_play`, if it was refused.
    fn compare_head(
        &mut self,
        alloc: Global,
        line: usize,
        refused: Option<&NotMade>,
        head: &Head,
    ) -> Result<(), AllocError> {
        match (refused, head) {
            (_, Head::NoCall(needed)) => self.lack(needed),
            (None, Head::Made) => Ok(()),
            (Some(refused), Head::Refused(answer)) => {
                self.compare(alloc, line, &refused.answer, answer)
            }
            (Some(refused), Head::Made) => {
                let wanted = line_of(alloc, &refused.answer)?;
                let came = String::from_str(alloc, "made")?;
                Ok(self.difference = Some(Difference { line, wanted, came }))
            }
            (None, Head::Refused(answer)) => {
                let wanted = String::from_str(alloc, "made")?;
                let came = line_of(alloc, answer)?;
                Ok(self.difference = Some(Difference { line, wanted, came }))
            }
        }
    }

    /// Compares what is said of the flows.
    fn compare_heads(
        &mut self,
        alloc: Global,
        not_made: &[NotMade],
        heads: &[NamedHead],
    ) -> Result<(), AllocError> {
        let mut at = 0usize;
        for named in heads {
            let refused = refused_next(not_made, at, named);
            let line = at.saturating_add(1);
            self.compare_head(alloc, line, refused, &named.head)?;
            if refused.is_some() {
                at = line;
            }
            if self.difference.is_some() {
                break;
            }
        }
        Ok(())
    }

    /// Compares what is said of a step.
    fn compare_step(
        &mut self,
        alloc: Global,
        line: usize,
        wanted: &Answer,
        said: Option<&Said>,
    ) -> Result<(), AllocError> {
        match said {
            Some(Said::Answer(came)) => self.compare(alloc, line, wanted, came),
            Some(Said::NoCall(call)) => self.lack(call),
            Some(Said::NoFlow) => Ok(()),
            None => {
                let wanted = line_of(alloc, wanted)?;
                let came = String::new(alloc);
                Ok(self.difference = Some(Difference { line, wanted, came }))
            }
        }
    }
}

/// Compares what a way says of a script with the answers of `flow_play`.
pub fn verdict_of(alloc: Global, wanted: &Answers, told: &Told) -> Result<Verdict, AllocError> {
    let heads = wanted.not_made.len();
    let mut verdict = Verdict {
        lines: heads.saturating_add(wanted.steps.len()),
        compared: 0,
        lacking: Vec::new(alloc),
        difference: None,
    };
    verdict.compare_heads(alloc, wanted.not_made.as_slice(), told.heads.as_slice())?;
    for (place, answer) in wanted.steps.iter().enumerate() {
        if verdict.difference.is_some() {
            break;
        }
        let line = heads.saturating_add(place).saturating_add(1);
        verdict.compare_step(alloc, line, answer, told.steps.get(place))?;
    }
    Ok(verdict)
}

fn add_lacking(text: &mut String, lacking: &[&'static str]) -> Result<(), AllocError> {
    let mut separator = ": ";
    for call in lacking {
        write!(text, "{separator}{call}")?;
        separator = ", ";
    }
    Ok(())
}

/// Adds the line about a way: that its lines are the same, how many it has if it does not have all, or the first line
/// that differs.
pub fn add_verdict(text: &mut String, way: Way, verdict: &Verdict) -> Result<(), AllocError> {
    let word = way.word();
    let Verdict {
        lines,
        compared,
        ..
    } = verdict;
    if let Some(Difference { line, wanted, came }) = &verdict.difference {
        let (wanted, came) = (wanted.as_str(), came.as_str());
        return writeln!(text, "{word}: line {line} is {came}, and not {wanted}");
    }
    if verdict.lacking.is_empty() {
        return writeln!(text, "{word}: same");
    }
    write!(
        text,
        "{word}: same in {compared} of {lines} lines; no such call over {word}"
    )?;
    add_lacking(text, verdict.lacking.as_slice())?;
    text.push('\n')
}
