//! The verdict on a record, in words and as a status.
ghost use Rattle.std.specs.Prelude.{◌≡◌, ◌++◌, IfOk, List, codes, string_bytes, ℕ};
ghost use Rattle.std.specs.Io.KnownBytes.{Appends};
ghost use Rattle.record_judging.specs.Verdicts.{TellsVerdict, TellsRecord, TellsOf, TellsOrder, IsStatus};
ghost use Rattle.record_judging.specs.Verdicts.{TellsConflict, JudgesRead, read_of, status_of, refused};
ghost use Rattle.record_judging.specs.Verdicts.{BeginsWith};

use crate::conflict::Conflict;
use crate::drawing::{Form, Picture, write_picture};
use crate::explaining::explain;
use crate::judging::{Outcome, judge};
use crate::order::order_lines;
use crate::reading::read_sheet;
use crate::refusal::{Part, Refusal, Unread, Wrong};
use crate::written::Sheet;
use flow_check::{Fault, FaultKind, Verdict};
use std::alloc::{AllocError, Global};
use std::io::{self, Write};

/// A legal history explains the calls.
const LEGAL: u8 = 0;

/// No legal history explains the calls.
const ILLEGAL: u8 = 1;

/// The arguments or the record were refused.
pub const REFUSED: u8 = 2;

/// The search took too long.
const GAVE_UP: u8 = 3;

/// The words on a record, and the status of a program that writes them.
#[derive(Drop)]
struct Told {
    words: String,
    status: u8,
}

impl Told {
    /// Joins two parts of the words.
    fn new(alloc: Global, front: &str, rest: &str, status: u8) -> Result<Told, AllocError>
        ensures { IfOk result (λ told.
            (string_bytes told.words ≡ front.now ++ rest.now) × (told.status ≡ status)) }
    {
        let mut words = String::new(alloc);
        words.push_str(front)?;
        words.push_str(rest)?;
        Ok(Told { words, status })
    }
}

/// Returns the words on why these bytes are no record.
fn tell_refusal(alloc: Global, bytes: &[u8], unread: Unread) -> Result<Told, AllocError>
    ensures { IfOk result (λ told. (told.status ≡ refused)
        × BeginsWith (codes "refused: ") (string_bytes told.words)) }
{
    let words = explain(alloc, bytes, unread)?;
    let told = Told::new(alloc, "refused: ", words.as_str(), REFUSED)?;
    Ok(told)
}

/// Returns the refusal of a record whose call of this number ends or begins too early.
fn faulty(fault: Fault, number: usize) -> Unread {
    let (key, expected) = match fault.kind {
        FaultKind::EndsEarly => ("end", "a moment from \"begin\" on"),
        FaultKind::BeginsEarly => (
            "begin",
            "a moment from the end of the caller's call before on",
        ),
    };
    let part = Part::Call(number);
    let wrong = Wrong::Value {
        key,
        expected,
        words: &[],
    };
    Unread::Refused(Refusal { part, wrong })
}

/// Returns the status of a verdict.
fn status_of(verdict: &Verdict) -> u8
    ensures { result ≡ status_of verdict.now }
{
    match verdict {
        Verdict::Legal(_) => LEGAL,
        Verdict::Illegal => ILLEGAL,
        Verdict::GaveUp => GAVE_UP,
    }
}

/// Returns the lines on a legal record: those of an order of its calls if `with_order`, and else none.
fn legal_lines(
    alloc: Global,
    sheet: &Sheet,
    order: &[usize],
    with_order: bool,
) -> Result<String, AllocError>
    ensures { IfOk result (λ lines. TellsOrder
        with_order (read_of sheet.now) order.now (string_bytes lines)) }
{
    if with_order {
        order_lines(alloc, sheet, order)
    } else {
        Ok(String::new(alloc))
    }
}

/// Returns the lines on an illegal record: the moment and the calls that show it, or none if a search gave up.
fn illegal_lines(
    alloc: Global,
    sheet: &Sheet,
    most_turns: Option<u64>,
) -> Result<String, AllocError>
    ensures { IfOk result (λ lines. TellsConflict (read_of sheet.now) (string_bytes lines)) }
{
    match Conflict::find(alloc, sheet, most_turns)? {
        Some(conflict) => {
            let lines = conflict.lines(alloc, sheet)?;
            Ok(lines)
        }
        None => Ok(String::new(alloc)),
    }
}

/// Returns the words on a record with this verdict.
#[tactic(auto, using(crate::proofs::Telling::told_legal, crate::proofs::Telling::told_illegal, crate::proofs::Telling::told_gave_up))]
fn tell_verdict(
    alloc: Global,
    sheet: &Sheet,
    verdict: &Verdict,
    with_order: bool,
    most_turns: Option<u64>,
) -> Result<Told, AllocError>
    ensures { IfOk result (λ told. (told.status ≡ status_of verdict.now)
        × TellsOf with_order (read_of sheet.now) verdict.now (string_bytes told.words)) }
{
    match verdict {
        Verdict::Legal(order) => {
            let lines = legal_lines(alloc, sheet, order.as_slice(), with_order)?;
            let told = Told::new(alloc, "legal\n", lines.as_str(), LEGAL)?;
            Ok(told)
        }
        Verdict::Illegal => {
            let lines = illegal_lines(alloc, sheet, most_turns)?;
            let told = Told::new(alloc, "illegal\n", lines.as_str(), ILLEGAL)?;
            Ok(told)
        }
        Verdict::GaveUp => {
            let told = Told::new(alloc, "gave up\n", "", GAVE_UP)?;
            Ok(told)
        }
    }
}

/// Reads the record of these bytes, and judges it.
fn judge_bytes(
    alloc: Global,
    bytes: &[u8],
    most_turns: Option<u64>,
) -> Result<(Sheet, Verdict), Unread>
    ensures { IfOk result (λ judged. JudgesRead (read_of judged.0) judged.1) }
{
    let sheet = read_sheet(alloc, bytes)?;
    let outcome = judge(alloc, &sheet, sheet.rows.as_slice(), most_turns)?;
    match outcome {
        Outcome::Judged(verdict) => Ok((sheet, verdict)),
        Outcome::Faulty(fault, number) => Err(faulty(fault, number)),
    }
}

/// Judges the record of these bytes, and returns the words on it.
#[tactic(auto, using(crate::proofs::Telling::tells_read, crate::proofs::Telling::tells_refused))]
fn tell_record(
    alloc: Global,
    bytes: &[u8],
    with_order: bool,
    most_turns: Option<u64>,
) -> Result<Told, AllocError>
    ensures { IfOk result (λ told. TellsRecord with_order told.status (string_bytes told.words)) }
{
    match judge_bytes(alloc, bytes, most_turns) {
        Ok((sheet, verdict)) => {
            let told = tell_verdict(alloc, &sheet, &verdict, with_order, most_turns)?;
            Ok(told)
        }
        Err(unread) => {
            let told = tell_refusal(alloc, bytes, unread)?;
            Ok(told)
        }
    }
}

/// Returns the word of a verdict in a picture.
fn word_of(verdict: &Verdict) -> &'static str {
    match verdict {
        Verdict::Legal(_) => "legal",
        Verdict::Illegal => "illegal",
        Verdict::GaveUp => "gave up",
    }
}

/// Draws the calls of a record with this verdict.
fn draw_verdict(
    alloc: Global,
    sheet: &Sheet,
    verdict: &Verdict,
    form: Form,
    most_turns: Option<u64>,
) -> Result<Told, AllocError>
    ensures { IfOk result (λ told. told.status ≡ status_of verdict.now) }
{
    let conflict = match verdict {
        Verdict::Illegal => Conflict::find(alloc, sheet, most_turns)?,
        _ => None,
    };
    let picture = Picture::new(alloc, sheet, conflict)?;
    let mut words = String::new(alloc);
    write_picture(alloc, &mut words, sheet, &picture, word_of(verdict), form)?;
    let status = status_of(verdict);
    Ok(Told { words, status })
}

/// Judges the record of these bytes, and draws its calls, or returns the words on why it is refused.
fn draw_bytes(
    alloc: Global,
    bytes: &[u8],
    form: Form,
    most_turns: Option<u64>,
) -> Result<Told, AllocError>
    ensures { IfOk result (λ told. IsStatus told.status) }
{
    match judge_bytes(alloc, bytes, most_turns) {
        Ok((sheet, verdict)) => {
            let told = draw_verdict(alloc, &sheet, &verdict, form, most_turns)?;
            Ok(told)
        }
        Err(unread) => {
            let told = tell_refusal(alloc, bytes, unread)?;
            Ok(told)
        }
    }
}

/// Judges the record of these bytes, writes the verdict, and returns its status. For a legal record it also writes an
/// order of the calls, if `with_order`. A search gives up after `most_turns`, by default after 1,000 for each call, or 4
/// million if that is more.
///
/// # Errors
/// Fails if memory is refused, and then writes nothing, or if a write fails, and then a first part may be written.
#[tactic(auto, using(crate::proofs::Telling::tells_verdict))]
pub fn judge_record<W: Write>(
    alloc: Global,
    out: &mut W,
    bytes: &[u8],
    with_order: bool,
    most_turns: Option<u64>,
) -> io::Result<u8>
    ensures tells { IfOk result (λ status. (words : List ℕ) × TellsVerdict with_order status words
        × Appends (W.contents out.old) (W.contents out.new) words) }
    ensures judged { IfOk result (λ status. (words : List ℕ) × TellsRecord with_order status words
        × Appends (W.contents out.old) (W.contents out.new) words) }
{
    let told = tell_record(alloc, bytes, with_order, most_turns)?;
    out.write_all(told.words.as_bytes())?;
    Ok(told.status)
}

/// Judges the record of these bytes as `judge_record` does, and draws its calls over time. For an illegal record it
/// draws those around the conflict, and marks those that contradict each other.
///
/// # Errors
/// As `judge_record`.
pub fn draw_record<W: Write>(
    alloc: Global,
    out: &mut W,
    bytes: &[u8],
    form: Form,
    most_turns: Option<u64>,
) -> io::Result<u8>
    ensures judged { IfOk result IsStatus }
{
    let told = draw_bytes(alloc, bytes, form, most_turns)?;
    out.write_all(told.words.as_bytes())?;
    Ok(told.status)
}
