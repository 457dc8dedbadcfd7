//! Records of calls, and the faults that no record may have.
ghost use Rattle.std.specs.Prelude.{◌≡◌, ℕ, ◌<◌, IfOk, IfErr, MatchOption, slice_get};
ghost use Rattle.flow_check.specs.Records.{count_in, is_over_by, is_same_end, may_follow};
ghost use Rattle.flow_check.specs.Records.{IsFaultOf, IsWellAt, IsWellTimed};

use crate::remaining::{is_over_before, recorded};
use crate::timed::Timed;
use std::marker::Model;

/// What is wrong with a recorded call.
#[derive(Clone, Copy, Debug)]
pub enum FaultKind {
    /// It ends before it begins.
    EndsEarly,
    /// It begins before the caller's previous call was over.
    BeginsEarly,
}

/// A call that no record may have: which one, and what is wrong with it.
#[derive(Clone, Copy, Debug)]
pub struct Fault {
    pub caller: usize,
    /// Which of the caller's calls, from 0.
    pub index: usize,
    pub kind: FaultKind,
}

/// The calls of several callers. The calls of one caller do not overlap.
#[derive(Drop)]
pub struct Record<C: Copy> {
    callers: Vec<Vec<Timed<C>>>,
}

impl<C: Copy> Model for Record<C> {
    ghost use Rattle.flow_check.specs.Records.{CallsByCaller, IsWellTimed};

    ghost Value = { CallsByCaller C };

    ghost view = { λ r. r.callers.items };

    ghost invariant = { λ r. IsWellTimed r.callers.items };
}

fn is_over_by(end: Option<u64>, moment: u64) -> bool
    ensures { result ≡ is_over_by end moment }
{
    match end {
        None => false,
        Some(end) => end <= moment,
    }
}

fn is_same_end(one: Option<u64>, other: Option<u64>) -> bool
    ensures { result ≡ is_same_end one other }
{
    match (one, other) {
        (None, None) => true,
        (Some(one), Some(other)) => one == other,
        _ => false,
    }
}

fn may_follow<C>(call: &Timed<C>, next: &Timed<C>) -> bool
    ensures { result ≡ may_follow call.now next.now }
{
    is_over_by(call.end, next.begin)
        || (call.begin == next.begin && is_same_end(call.end, next.end))
}

/// Returns what is wrong with a caller's call of this index, or with the one after it.
fn fault_at<C: Copy>(callers: &[Vec<Timed<C>>], caller: usize, index: usize) -> Option<Fault>
    requires { index < usize.MAX }
    ensures { MatchOption result (IsWellAt callers.now caller index) (IsFaultOf callers.now) }
{
    let call = recorded(callers, caller, index)?;
    if is_over_before(call.end, call.begin) {
        return Some(Fault {
            caller,
            index,
            kind: FaultKind::EndsEarly,
        });
    }
    let next = recorded(callers, caller, index + 1)?;
    if may_follow(&call, &next) {
        return None;
    }
    Some(Fault {
        caller,
        index: index + 1,
        kind: FaultKind::BeginsEarly,
    })
}

/// Returns how many calls a caller has.
fn count_of<C: Copy>(callers: &[Vec<Timed<C>>], caller: usize) -> usize
    ensures { result ≡ count_in (slice_get callers.now caller) }
{
    match callers.get(caller) {
        None => 0,
        Some(calls) => calls.as_slice().len(),
    }
}

/// Returns a fault of a caller's calls, if there is one.
fn fault_of<C: Copy>(callers: &[Vec<Timed<C>>], caller: usize) -> Option<Fault>
    ensures { MatchOption result
        ((k : ℕ) → IsWellAt callers.now caller k)
        (IsFaultOf callers.now) }
{
    for index in 0..count_of(callers, caller) {
        if let Some(fault) = fault_at(callers, caller, index) {
            return Some(fault);
        }
    }
    None
}

/// Returns a fault of the record, if there is one.
fn first_fault<C: Copy>(callers: &[Vec<Timed<C>>]) -> Option<Fault>
    ensures { MatchOption result (IsWellTimed callers.now) (IsFaultOf callers.now) }
{
    for caller in 0..callers.len() {
        if let Some(fault) = fault_of(callers, caller) {
            return Some(fault);
        }
    }
    None
}

impl<C: Copy> Record<C> {
    /// Makes a record of the calls of each caller, in the caller's order.
    ///
    /// # Errors
    /// Returns a fault if some call has one.
    pub fn new(callers: Vec<Vec<Timed<C>>>) -> Result<Self, Fault>
        ensures kept { IfOk result (λ made. made ≡ callers.items) }
        ensures refused { IfErr result (IsFaultOf callers.items) }
    {
        match first_fault(callers.as_slice()) {
            Some(fault) => Err(fault),
            None => Ok(Record { callers }),
        }
    }

    /// Returns the calls of each caller.
    pub fn callers(&self) -> &[Vec<Timed<C>>]
        ensures same { result.now ≡ self.now }
        ensures well { IsWellTimed self.now }
    {
        self.callers.as_slice()
    }
}
