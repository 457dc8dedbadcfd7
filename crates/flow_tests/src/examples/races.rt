//! A `cancel` and a `next` that race on two threads. Whichever is first, the subscribers receive what is documented.
use crate::compare::{compare, compare_any};
use crate::flows::{new_emitter, new_reader};
use crate::handle_calls::{begin, cancel, emission_of, next, try_emit};
use crate::host::Host;
use crate::races::{EACH, WantedEnds, race_until};
use flow_law::Config;
use flow_shared::{BoundEmission, Emitter, Reader};
use std::alloc::Global;
use std::sync::{Barrier, Wait};
use std::thread::join;

/// Each of the two calls is first in some race.
const WANTED: WantedEnds = WantedEnds { all: 100, ..EACH };

/// Reads once. Returns the value that the reader receives, if any.
fn read<R: Host>(rt: &R, start: &Barrier, run: u32, reader: &mut Reader<i64>) -> Option<i64> {
    begin(rt, start, run);
    next(rt, reader).expect(rt, "memory")
}

/// Cancels the emission. Returns whether it waited until then.
fn waited<R: Wait>(rt: &R, start: &Barrier, run: u32, emission: BoundEmission<i64>) -> bool {
    begin(rt, start, run);
    cancel(rt, emission)
}

/// Reads on one thread, and cancels the emission of this value on another one.
fn read_beside_cancel<R: Host>(
    rt: &R,
    run: u32,
    reader: &mut Reader<i64>,
    emitter: &mut Emitter<i64>,
    value: i64,
) -> (Option<i64>, bool) {
    let emission = emission_of(rt, emitter, value);
    let start = Barrier::new(2);
    join(
        rt,
        || read(rt, &start, run, reader),
        || waited(rt, &start, run.wrapping_add(2), emission),
    )
}

/// Emits 2 into a full buffer of one value, and cancels the emission while the subscriber makes room. The subscriber
/// receives 2 only if its read is first. Returns whether the cancel was first.
fn waits_for_room<R: Host>(rt: &R, run: u32, emitter: &mut Emitter<i64>) -> bool {
    let mut reader = new_reader(rt, emitter);
    compare(rt, "try_emit", try_emit(rt, emitter, 1), Ok(true));
    let (first, was_waiting) = read_beside_cancel(rt, run, &mut reader, emitter, 2);
    compare(rt, "the first value", first, Some(1));
    let second = if was_waiting { None } else { Some(2) };
    compare(rt, "the second value", next(rt, &mut reader), Ok(second));
    was_waiting
}

/// Offers 7 to two subscribers without a buffer, and cancels the emission while one of them reads. That one receives 7
/// or nothing, and the other one nothing. Returns whether the cancel was first.
fn is_offered<R: Host>(rt: &R, run: u32, emitter: &mut Emitter<i64>) -> bool {
    let mut other = new_reader(rt, emitter);
    let mut reader = new_reader(rt, emitter);
    let (taken, was_waiting) = read_beside_cancel(rt, run, &mut reader, emitter, 7);
    compare(rt, "the offer waited until the cancel", was_waiting, true);
    compare_any(rt, "what the reader took", taken, &[None, Some(7)]);
    compare(rt, "the other reader", next(rt, &mut other), Ok(None));
    compare(rt, "after the race", next(rt, &mut reader), Ok(None));
    taken == None
}

/// Races the two calls at a new flow with room for this number of values. Returns whether the cancel was first.
fn race<R: Host>(rt: &R, alloc: Global, run: u32, room: u32) -> bool {
    let mut emitter = new_emitter(rt, alloc, Config::new().extra(room));
    match room {
        0 => is_offered(rt, run, &mut emitter),
        _ => waits_for_room(rt, run, &mut emitter),
    }
}

#[test]
fn each_of_two_calls_comes_first(rt: HostRuntime) {
    race_until(&rt, WANTED, |run| race(&rt, rt.alloc(), run, 0));
    race_until(&rt, WANTED, |run| race(&rt, rt.alloc(), run, 1));
}
