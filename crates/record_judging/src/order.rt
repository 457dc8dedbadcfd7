//! Writes an order of calls in words.
ghost use Rattle.std.specs.Prelude.{◌≡◌, ◌+◌, ◌<◌, ◌++◌, [], ◌∷◌, ℕ, List};
ghost use Rattle.std.specs.Prelude.{IfOk, OnOk, slice_get, string_bytes};
ghost use Rattle.std.specs.Option.{option_map};
ghost use Rattle.record_judging.specs.NextCalls.{calls_of_parts};
ghost use Rattle.record_judging.specs.Verdicts.{read_of, name_of, next_call, call_number};
ghost use Rattle.record_judging.specs.Verdicts.{AreLinesAfter};
ghost use Rattle.record_judging.specs.Cursors.{IsAt, AreAt, AddsCallLine};

use crate::judging::parts_of;
use crate::words::CallWord;
use crate::written::{Sheet, WrittenAnswer, WrittenCall, WrittenFlow};
use std::alloc::{AllocError, Global};

/// The number in the line of a turn that has no call. The calls of a record have numbers from 1.
const NO_CALL: usize = 0;

/// The position of a caller: one of its calls, and a part of that call.
#[derive(Clone, Copy)]
struct Cursor {
    call: usize,
    part: usize,
}

impl Cursor {
    /// Passes a part of a call that has this many parts, of a caller that has this many calls.
    fn pass(&mut self, parts: usize, calls: usize)
        ensures within { self.old.part + 1 < parts
            → self.new ≡ record self.old { part = self.old.part + 1 } }
        ensures last { self.old.part + 1 ≡ parts → self.old.call < calls
            → self.new ≡ record { call = self.old.call + 1; part = 0 } }
    {
        self.part = self.part.saturating_add(1);
        if self.part >= parts && self.call < calls {
            self.call += 1;
            self.part = 0;
        }
    }

    /// Returns the next part of a caller's calls, and passes it.
    fn next(&mut self, calls: &[WrittenCall], flow: WrittenFlow) -> Option<(WrittenCall, usize)>
        ensures { (lists : List ℕ) (turns : ℕ) → IsAt flow lists calls.now turns self.old
            → (option_map (λ next. next.0) result ≡ slice_get (calls_of_parts flow lists calls.now) turns)
            × IsAt flow lists calls.now (turns + 1) self.new }
    {
        let call = *calls.get(self.call)?;
        let part = self.part;
        self.pass(parts_of(call, flow), calls.len());
        Some((call, part))
    }
}

/// Returns a call's name in words.
pub fn word_of(call: CallWord) -> &'static str {
    match call {
        CallWord::Value => "value",
        CallWord::Set => "set",
        CallWord::CompareAndSet => "compare_and_set",
        CallWord::Update => "update",
        CallWord::TryEmit => "try_emit",
        CallWord::Emit => "emit",
        CallWord::Subscribe => "subscribe",
        CallWord::Next => "next",
        CallWord::Unsubscribe => "unsubscribe",
        CallWord::First => "first",
        CallWord::SubscriptionCount => "subscription_count",
        CallWord::ReplayCache => "replay_cache",
        CallWord::ResetReplayCache => "reset_replay_cache",
    }
}

fn write_answer(out: &mut String, lists: &[u64], call: WrittenCall) -> Result<(), AllocError> {
    let words = match call.answer {
        None => " (pending)",
        Some(WrittenAnswer::Done) => ": done",
        Some(WrittenAnswer::Cancelled) => ": cancelled",
        Some(WrittenAnswer::Empty) => ": empty",
        Some(WrittenAnswer::Truth(true)) => ": true",
        Some(WrittenAnswer::Truth(false)) => ": false",
        Some(WrittenAnswer::Value(number) | WrittenAnswer::Number(number)) => {
            return write!(out, ": {number}");
        }
        Some(WrittenAnswer::Values(range)) => return write!(out, ": {:?}", range.of(lists)),
        Some(WrittenAnswer::Exchange(old, new)) => return write!(out, ": {old} to {new}"),
    };
    out.push_str(words)
}

/// Writes a call with its values and its answer.
pub fn write_call(out: &mut String, sheet: &Sheet, call: WrittenCall) -> Result<(), AllocError> {
    let lists = sheet.lists.as_slice();
    let word = word_of(call.call);
    let written = match call.call {
        CallWord::Set | CallWord::TryEmit | CallWord::Emit => write!(out, "{word} {}", call.value),
        CallWord::CompareAndSet => write!(out, "{word} {} {}", call.expect, call.value),
        CallWord::Subscribe if call.first.count > 0 => {
            write!(out, "{word} {:?}", call.first.of(lists))
        }
        _ => out.push_str(word),
    };
    written?;
    write_answer(out, lists, call)
}

/// Writes a line of these words, the number of a caller's call, the caller, the call, and its moments.
pub fn write_line(
    out: &mut String,
    front: &str,
    sheet: &Sheet,
    caller: usize,
    call: WrittenCall,
) -> Result<(), AllocError> {
    let name = sheet.name(caller);
    write!(out, "{front}{}  {name} ", call.number)?;
    write_call(out, sheet, call)?;
    match call.end {
        Some(end) => writeln!(out, "  [{}, {end}]", call.begin),
        None => writeln!(out, "  [{}, ..]", call.begin),
    }
}

/// Returns what a part of a call is, if the call has several.
fn part_words(call: WrittenCall, part: usize) -> &'static str {
    match (call.call, call.answer, part) {
        (CallWord::First, _, 0) => " (it subscribes)",
        (CallWord::First, Some(WrittenAnswer::Cancelled), 1) => " (it may receive)",
        (CallWord::First, _, 1) => " (it receives)",
        (CallWord::First, _, _) => " (it leaves)",
        (CallWord::Emit, Some(_), 0) => " (it begins)",
        (CallWord::Emit, Some(WrittenAnswer::Cancelled), _) => " (it is cancelled)",
        (CallWord::Emit, Some(_), _) => " (it returns)",
        _ => "",
    }
}

/// Returns the caller's next part in an order, by the cursors of all callers. Moves the caller's cursor on.
fn next_part(
    cursors: &mut Vec<Cursor>,
    sheet: &Sheet,
    caller: usize,
) -> Option<(WrittenCall, usize)>
    ensures { (before : List ℕ) → AreAt (read_of sheet.now) before cursors.old.items
        → (option_map (λ next. next.0) result ≡ next_call (read_of sheet.now) before caller)
        × AreAt (read_of sheet.now) (before ++ caller ∷ []) cursors.new.items }
{
    let calls = sheet.rows.get(caller)?;
    let mut cursor = *cursors.get(caller)?;
    let next = cursor.next(calls.as_slice(), sheet.flow);
    cursors[caller] = cursor;
    next
}

/// Writes the line of a turn: the number of a call, the caller, and these words.
fn write_named(
    out: &mut String,
    sheet: &Sheet,
    caller: usize,
    number: usize,
    words: &str,
) -> Result<(), AllocError>
    ensures { OnOk result (AddsCallLine number
        (name_of (read_of sheet.now).names caller) (string_bytes out.old) (string_bytes out.new)) }
{
    writeln!(out, "  {number}  {} {words}", sheet.name(caller))?;
    Ok(())
}

/// Writes the line of a part of this caller's call. Writes the call to `words` first.
fn write_part(
    out: &mut String,
    words: &mut String,
    sheet: &Sheet,
    caller: usize,
    call: WrittenCall,
    part: usize,
) -> Result<(), AllocError>
    ensures { OnOk result (AddsCallLine call.number
        (name_of (read_of sheet.now).names caller) (string_bytes out.old) (string_bytes out.new)) }
{
    words.clear();
    write_call(words, sheet, call)?;
    words.push_str(part_words(call, part))?;
    write_named(out, sheet, caller, call.number, words.as_str())
}

/// Writes the line of a turn, which is the caller's next part. An order of a legal record has a part for each turn.
fn write_turn(
    out: &mut String,
    words: &mut String,
    sheet: &Sheet,
    caller: usize,
    next: Option<(WrittenCall, usize)>,
) -> Result<(), AllocError>
    ensures { OnOk result (AddsCallLine (call_number (option_map (λ part. part.0) next))
        (name_of (read_of sheet.now).names caller) (string_bytes out.old) (string_bytes out.new)) }
{
    match next {
        Some((call, part)) => write_part(out, words, sheet, caller, call, part),
        None => write_named(out, sheet, caller, NO_CALL, "has no call left"),
    }
}

/// Returns a line for each turn of an order.
pub fn order_lines(alloc: Global, sheet: &Sheet, order: &[usize]) -> Result<String, AllocError>
    ensures { IfOk result (λ lines.
        AreLinesAfter (read_of sheet.now) [] order.now (string_bytes lines)) }
{
    let mut cursors = vec![in alloc; Cursor { call: 0, part: 0 }; sheet.rows.len()]?;
    let mut words = String::new(alloc);
    let mut lines = String::new(alloc);
    for caller in order {
        let next = next_part(&mut cursors, sheet, *caller);
        write_turn(&mut lines, &mut words, sheet, *caller, next)?;
    }
    Ok(lines)
}
