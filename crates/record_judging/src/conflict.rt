//! The calls of an illegal record that contradict each other.
ghost use Rattle.std.specs.Prelude.{◌≡◌, IfOk, IfSome, string_bytes};
ghost use Rattle.record_judging.specs.Judged.{GoesWrongAt};
ghost use Rattle.record_judging.specs.Verdicts.{TellsMoment};

use crate::judging::wrong_moment;
use crate::left_out::Roles;
use crate::looks::is_look;
use crate::order::write_line;
use crate::written::{Sheet, WrittenCall};
use std::alloc::{AllocError, Global};

/// Returns when the first of a caller's calls began that is a needed look or ends at the moment.
fn begin_in(calls: &[WrittenCall], moment: u64, roles: &Roles) -> u64 {
    let mut begin = moment;
    for call in calls {
        let is_needed = is_look(*call) && roles.needs(call.number);
        if is_needed || call.end == Some(moment) {
            begin = begin.min(call.begin);
        }
    }
    begin
}

/// Returns when the first call began that is a needed look or ends at the moment.
fn begin_of(sheet: &Sheet, moment: u64, roles: &Roles) -> u64 {
    let mut begin = moment;
    for calls in sheet.rows.as_slice() {
        begin = begin.min(begin_in(calls.as_slice(), moment, roles));
    }
    begin
}

/// Returns when a call was over, or 0 if there is none.
fn end_of(call: Option<WrittenCall>) -> u64 {
    match call {
        Some(call) => call.end.unwrap_or(0),
        None => 0,
    }
}

/// Returns the last of a caller's changes that was over before the moment and not before `last` was, or `last` if there
/// is none.
fn change_in(calls: &[WrittenCall], moment: u64, last: Option<WrittenCall>) -> Option<WrittenCall> {
    let mut last_end = end_of(last);
    let mut last = last;
    for call in calls {
        let end = call.end.unwrap_or(moment);
        if end < moment && last_end <= end && !is_look(*call) {
            last_end = end;
            last = Some(*call);
        }
    }
    last
}

/// Returns the last change that was over before a moment.
fn change_before(sheet: &Sheet, moment: u64) -> Option<WrittenCall> {
    let mut last = None;
    for calls in sheet.rows.as_slice() {
        last = change_in(calls.as_slice(), moment, last);
    }
    last
}

/// The calls of an illegal record that contradict each other.
#[derive(Drop)]
pub struct Conflict {
    /// No order explains the calls that began by this moment.
    pub moment: u64,
    /// When the last change began that was over before the needed looks and the calls that end at the moment. If there
    /// is none, when the first of these looks and calls began.
    pub from: u64,
    roles: Roles,
}

impl Conflict {
    /// Finds the conflict of an illegal record. Returns None if a search gave up, which has at most `most_turns`.
    pub fn find(
        alloc: Global,
        sheet: &Sheet,
        most_turns: Option<u64>,
    ) -> Result<Option<Conflict>, AllocError>
        ensures { IfOk result (λ found. IfSome found (λ conflict. GoesWrongAt
            sheet.now.flow sheet.now.lists.items sheet.now.rows.items conflict.moment)) }
    {
        let Some(moment) = wrong_moment(alloc, sheet, most_turns)? else {
            return Ok(None);
        };
        let conflict = Conflict::at(alloc, sheet, moment)?;
        Ok(Some(conflict))
    }

    /// Returns the conflict that is complete at this moment.
    fn at(alloc: Global, sheet: &Sheet, moment: u64) -> Result<Conflict, AllocError>
        ensures { IfOk result (λ conflict. conflict.moment ≡ moment) }
    {
        let mut roles = Roles::new(alloc, sheet, moment)?;
        roles.leave_out_looks(alloc, sheet)?;
        let begin = begin_of(sheet, moment, &roles);
        let (from, end) = match change_before(sheet, begin) {
            Some(call) => (call.begin, call.end.unwrap_or(begin)),
            None => (begin, begin),
        };
        roles.leave_out_changes(alloc, sheet, end)?;
        Ok(Conflict {
            moment,
            from,
            roles,
        })
    }

    /// Returns whether a call overlaps the moments of the conflict.
    pub fn overlaps(&self, call: WrittenCall) -> bool {
        call.begin <= self.moment && !matches!(call.end, Some(end) if end < self.from)
    }

    /// Returns whether a call is needed to say why the calls are illegal.
    pub fn needs(&self, call: WrittenCall) -> bool {
        self.overlaps(call) && self.roles.needs(call.number)
    }

    /// Returns the moment and the calls that are needed, in lines.
    pub fn lines(&self, alloc: Global, sheet: &Sheet) -> Result<String, AllocError>
        ensures { IfOk result (λ lines. TellsMoment self.now.moment (string_bytes lines)) }
    {
        let mut calls = String::new(alloc);
        self.write_all(&mut calls, sheet)?;
        let (moment, from) = (self.moment, self.from);
        let mut lines = String::new(alloc);
        write!(
            lines,
            "by moment {moment} no order explains the calls; from {from} on there were:\n{calls}"
        )?;
        Ok(lines)
    }

    /// Writes the calls that are needed, in the order of their callers.
    fn write_all(&self, out: &mut String, sheet: &Sheet) -> Result<(), AllocError> {
        for (caller, calls) in sheet.rows.iter().enumerate() {
            self.write_calls(out, sheet, caller, calls.as_slice())?;
        }
        Ok(())
    }

    fn write_calls(
        &self,
        out: &mut String,
        sheet: &Sheet,
        caller: usize,
        calls: &[WrittenCall],
    ) -> Result<(), AllocError> {
        for call in calls {
            if self.needs(*call) {
                write_line(out, "  ", sheet, caller, *call)?;
            }
        }
        Ok(())
    }
}
