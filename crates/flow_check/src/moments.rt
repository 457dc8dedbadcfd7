//! What was known of a record at a moment.
ghost use Rattle.std.specs.Prelude.{◌≡◌, map, IfOk, IfSome, IsSome};
ghost use Rattle.flow_check.specs.Moments.{is_past, past_end, known_call, known_row, IsKnown};

use crate::record::Record;
use crate::timed::Timed;
use std::alloc::{AllocError, Global};

/// The moment at which a record is cut off.
#[derive(Clone, Copy, Debug)]
pub enum Cut {
    /// The record is cut off before this moment.
    Before(u64),
    /// The record is cut off after this moment.
    By(u64),
}

impl Cut {
    /// Returns whether a moment is before the cut.
    fn is_past(self, moment: u64) -> bool
        ensures { result ≡ is_past self moment }
    {
        match self {
            Cut::Before(last) => moment < last,
            Cut::By(last) => moment <= last,
        }
    }

    fn past_end(self, end: Option<u64>) -> Option<u64>
        ensures { result ≡ past_end self end }
    {
        match end {
            None => None,
            Some(end) => { if self.is_past(end) { Some(end) } else { None } }
        }
    }
}

/// Returns a call as it was known at the cut.
fn known_call<C: Copy>(call: &Timed<C>, cut: Cut) -> Timed<C>
    ensures { result ≡ known_call cut call.now }
{
    Timed {
        call: call.call,
        begin: call.begin,
        end: cut.past_end(call.end),
    }
}

/// Returns the calls of a caller that had begun at the cut.
fn known_row<C: Copy>(
    alloc: Global,
    calls: &[Timed<C>],
    cut: Cut,
) -> Result<Vec<Timed<C>>, AllocError>
    ensures { IfOk result (λ known. known.items ≡ known_row cut calls.now) }
{
    let mut known = Vec::new(alloc);
    let mut rest = calls;
    while let Some((first, others)) = rest.split_first() {
        if cut.is_past(first.begin) {
            known.push(known_call(first, cut))?;
        }
        rest = others;
    }
    Ok(known)
}

/// Returns the calls of each caller that had begun at the cut.
fn known_rows<C: Copy>(
    alloc: Global,
    callers: &[Vec<Timed<C>>],
    cut: Cut,
) -> Result<Vec<Vec<Timed<C>>>, AllocError>
    ensures { IfOk result (λ known. IsKnown cut callers.now known.items) }
{
    let mut known = Vec::new(alloc);
    for row in callers {
        let then = known_row(alloc, row.as_slice(), cut)?;
        known.push(then)?;
    }
    Ok(known)
}

/// Returns what was known of a record at the cut. There always is such a record: it is well timed, since this one is.
pub fn known_record<C: Copy>(
    alloc: Global,
    calls: &Record<C>,
    cut: Cut,
) -> Result<Option<Record<C>>, AllocError>
    ensures cut { IfOk result (λ made. IfSome made (λ known. IsKnown cut calls.now known)) }
    ensures made { IfOk result (λ made. IsSome made) }
{
    let rows = known_rows(alloc, calls.callers(), cut)?;
    match Record::new(rows) {
        Ok(known) => Ok(Some(known)),
        Err(_) => Ok(None),
    }
}
