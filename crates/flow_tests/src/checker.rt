//! The checker of recorded histories: a search of few turns, and the part of a record that was known before a moment.
//! `tests/programs/worked_records.py` has records with verdicts that are worked out by hand from kotlinx.coroutines'
//! documentation. `tests/programs/test_random_records.py` compares the checker with a plain search.
use crate::compare::compare;
use flow_check::{
    Cut, Record, StateAnswer, StateEntry, StateOperation, Timed, Verdict, check_state, known_record,
};
use std::alloc::Global;
use std::process::Abort;

/// Returns a call that began and ended at these moments.
fn call(operation: StateOperation, answer: StateAnswer, begin: u64, end: u64) -> Timed<StateEntry> {
    let answer = Some(answer);
    let call = StateEntry { operation, answer };
    let end = Some(end);
    Timed { call, begin, end }
}

fn set(value: u64, begin: u64, end: u64) -> Timed<StateEntry> {
    call(StateOperation::Set(value), StateAnswer::Done, begin, end)
}

/// Returns a `subscribe` that began at 0 and ended at this moment.
fn subscribe(end: u64) -> Timed<StateEntry> {
    call(StateOperation::Subscribe, StateAnswer::Done, 0, end)
}

/// Returns the record of the calls of these callers.
fn record_of(
    rt: &impl Abort,
    alloc: Global,
    callers: &[&[Timed<StateEntry>]],
) -> Record<StateEntry> {
    let mut all = Vec::new(alloc);
    for calls in callers {
        let calls = Vec::from_slice(alloc, calls).expect(rt, "memory");
        let Ok(()) = all.push(calls) else {
            panic!(rt; "memory")
        };
    }
    Record::new(all).ok().expect(rt, "a record")
}

fn word_of(verdict: Verdict) -> &'static str {
    match verdict {
        Verdict::Legal(_order) => "legal",
        Verdict::Illegal => "illegal",
        Verdict::GaveUp => "gave up",
    }
}

/// A search that may take no turn gives up.
#[test]
fn gives_up(rt: HostRuntime) {
    let record = record_of(&rt, rt.alloc(), &[&[set(1, 0, 1)]]);
    let verdict = check_state(rt.alloc(), 0, &record, 0).expect(&rt, "memory");
    compare(&rt, "the verdict", word_of(verdict), "gave up");
}

/// Of callers that subscribe meanwhile the one that ends first comes first, so 100 turns are enough: 1 was never set.
#[test]
fn judges_many_that_subscribe_at_once(rt: HostRuntime) {
    let callers: [&[Timed<StateEntry>]; 11] = [
        &[subscribe(20)],
        &[subscribe(21)],
        &[subscribe(22)],
        &[subscribe(23)],
        &[subscribe(24)],
        &[subscribe(25)],
        &[subscribe(26)],
        &[subscribe(27)],
        &[subscribe(28)],
        &[subscribe(29)],
        &[call(StateOperation::Value, StateAnswer::Value(1), 10, 50)],
    ];
    let record = record_of(&rt, rt.alloc(), &callers);
    let verdict = check_state(rt.alloc(), 0, &record, 100).expect(&rt, "memory");
    compare(&rt, "the verdict", word_of(verdict), "illegal");
}

/// The moments at which two calls ended: None if the call had not begun, Some(None) if it had not ended.
type Ends = (Option<Option<u64>>, Option<Option<u64>>);

/// Returns the moment at which the call at this place ended.
fn end_of(known: &Record<StateEntry>, place: usize) -> Option<Option<u64>> {
    Some(known.callers().first()?.get(place)?.end)
}

/// Cuts the record, and compares the moments at which its calls ended.
fn is_cut(rt: &impl Abort, alloc: Global, record: &Record<StateEntry>, cut: Cut, ends: Ends) {
    let known = known_record(alloc, record, cut).expect(rt, "memory");
    let known = known.expect(rt, "a record");
    let found = (end_of(&known, 0), end_of(&known, 1));
    compare(rt, "the ends of known calls", found, ends);
}

/// Before a moment, a call that ends at it is pending, and a call that begins at it has not begun.
#[test]
fn cuts_records(rt: HostRuntime) {
    let alloc = rt.alloc();
    let record = record_of(&rt, alloc, &[&[set(1, 0, 3), set(2, 3, 4)]]);
    let by_three = (Some(Some(3)), Some(None));
    is_cut(&rt, alloc, &record, Cut::Before(3), (Some(None), None));
    is_cut(&rt, alloc, &record, Cut::By(3), by_three);
    is_cut(&rt, alloc, &record, Cut::Before(0), (None, None));
}
