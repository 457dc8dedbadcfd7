//! Values of several words are received whole, beside a thread that emits.
use crate::compare::{compare, rises};
use crate::host::Host;
use crate::races::{ONCE, race_until};
use crate::word_flows::latest::new_flow;
use crate::word_flows::quote::Quote;
use crate::word_flows::{dropping, new_word_emitter, new_word_flow};
use flow_law::{Busy, Drained, Exhausted, Rejected, Words};
use flow_word_shared::{WordEmitter, WordFlowReader};
use std::alloc::Global;
use std::fmt::Debug;
use std::process::Abort;
use std::sync::{Barrier, Wait};
use std::thread::join;

/// How many values are emitted in a race.
const VALUES: u64 = 400;

/// A value whose words all follow from its number.
trait Numbered: Words + Copy + PartialEq + Debug + Drop + Send {
    fn of_number(number: u64) -> Self;

    /// Returns the number, by the first word.
    fn number(self) -> u64;
}

impl Numbered for Quote {
    fn of_number(number: u64) -> Quote {
        Quote {
            cents: number,
            nanos: !number,
        }
    }

    fn number(self) -> u64 {
        self.cents
    }
}

impl Numbered for (u64, u64, u64, u64) {
    fn of_number(number: u64) -> (u64, u64, u64, u64) {
        (number, !number, number, !number)
    }

    fn number(self) -> u64 {
        self.0
    }
}

/// Ends the test unless the words of a value are those of its number, which is greater than the last one.
fn is_next<T: Numbered>(rt: &impl Abort, last: &mut u64, value: T) {
    compare(rt, "a whole value", value, T::of_number(value.number()));
    rises(rt, "the numbers of values", last, value.number());
}

/// Emits the values from the first number to the last one.
fn emit_all<T: Numbered, R: Wait + Abort>(
    rt: &R,
    emitter: &mut WordEmitter<T>,
    first: u64,
    last: u64,
) {
    for number in first..=last {
        let taken = emitter.emit(rt, T::of_number(number));
        compare(rt, "emit", taken, Ok(()));
    }
}

/// Emits all values, once the other thread has begun.
fn emit_beside<T: Numbered, R: Host>(rt: &R, start: &Barrier, emitter: &mut WordEmitter<T>) {
    let _order = start.wait(rt);
    emit_all(rt, emitter, 1, VALUES);
}

/// Reads until the last value. Returns how many attempts were overrun.
fn read_all<T: Numbered, R: Host>(rt: &R, start: &Barrier, reader: &mut WordFlowReader<T>) -> u64 {
    let _order = start.wait(rt);
    let mut last = 0u64;
    let mut overrun = 0u64;
    for _ in rt.forever() {
        match reader.try_next() {
            Ok(Some(value)) => is_next(rt, &mut last, value),
            Ok(None) => {}
            Err(Busy) => overrun = overrun.wrapping_add(1),
        }
        if last == VALUES {
            return overrun;
        }
    }
    unreachable!()
}

/// Drains until the last value. Returns how many were received.
fn drain_all<T: Numbered, R: Host>(
    rt: &R,
    alloc: Global,
    start: &Barrier,
    reader: &mut WordFlowReader<T>,
) -> u64 {
    let _order = start.wait(rt);
    let mut last = 0u64;
    let mut count = 0u64;
    for _ in rt.forever() {
        let mut values = Vec::new(alloc);
        let _end = reader.drain(rt, 50, &mut values).expect(rt, "memory");
        for value in values.iter() {
            is_next(rt, &mut last, *value);
            count = count.wrapping_add(1);
        }
        if last == VALUES {
            return count;
        }
    }
    unreachable!()
}

/// Returns how many attempts of a reader of a small buffer were overrun.
fn race<T: Numbered, R: Host>(rt: &R, alloc: Global) -> u64 {
    let mut emitter = new_word_emitter::<T>(rt, alloc, dropping(0, 1, u64::MAX));
    let mut reader = emitter.subscribe(rt).expect(rt, "a reader");
    let start = Barrier::new(2);
    let (overrun, ()) = join(
        rt,
        || read_all(rt, &start, &mut reader),
        || emit_beside(rt, &start, &mut emitter),
    );
    overrun
}

#[test]
fn overrun_readers_of_wide_values_get_whole_ones(rt: HostRuntime) {
    race_until(
        &rt,
        ONCE,
        |_run| race::<Quote, HostRuntime>(&rt, rt.alloc()) > 0,
    );
    race_until(&rt, ONCE, |_run| {
        race::<(u64, u64, u64, u64), HostRuntime>(&rt, rt.alloc()) > 0
    });
}

/// Drains beside an emitter, whose buffer holds all values.
fn drain_beside<T: Numbered, R: Host>(rt: &R, alloc: Global) {
    let mut emitter = new_word_emitter::<T>(rt, alloc, dropping(0, 512, u64::MAX));
    let mut reader = emitter.subscribe(rt).expect(rt, "a reader");
    let start = Barrier::new(2);
    let (count, ()) = join(
        rt,
        || drain_all(rt, alloc, &start, &mut reader),
        || emit_beside(rt, &start, &mut emitter),
    );
    compare(rt, "received", count, VALUES);
}

#[test]
fn a_drain_of_wide_values_gets_each_one_whole(rt: HostRuntime) {
    drain_beside::<Quote, HostRuntime>(&rt, rt.alloc());
    drain_beside::<(u64, u64, u64, u64), HostRuntime>(&rt, rt.alloc());
}

/// Emits two values into a flow with room for one, which drops the latest.
fn drop_latest<T: Numbered, R: Host>(rt: &R, alloc: Global) {
    let (_closing, mut emitter) = new_flow::<T>(rt, alloc, 1, 1);
    let mut reader = emitter.subscribe(rt).expect(rt, "a reader");
    emit_all(rt, &mut emitter, 1, 2);
    compare(rt, "first", reader.next(rt), Some(T::of_number(1)));
    compare(rt, "dropped", reader.next(rt), None);
}

/// Wide values are dropped or kept whole.
#[test]
fn a_flow_of_wide_values_drops_the_latest(rt: HostRuntime) {
    drop_latest::<Quote, HostRuntime>(&rt, rt.alloc());
    drop_latest::<(u64, u64, u64, u64), HostRuntime>(&rt, rt.alloc());
}

/// Returns both values of a list that has two.
fn pair_of<T: Numbered>(values: &[T]) -> Option<(T, T)> {
    match (values.len(), values.first(), values.get(1)) {
        (2, Some(first), Some(second)) => Some((*first, *second)),
        _ => None,
    }
}

/// Compares two values with those of two numbers.
fn are<T: Numbered>(rt: &impl Abort, row: &str, values: &[T], first: u64, second: u64) {
    let wanted = (T::of_number(first), T::of_number(second));
    compare(rt, row, pair_of(values), Some(wanted));
}

/// Calls of one thread: a buffer of three values, of which two are replayed, and numbers for two readers and six
/// values.
fn calls<T: Numbered, R: Host>(rt: &R, alloc: Global) {
    let (closing, mut emitter) = new_word_flow::<T>(rt, alloc, dropping(2, 1, 8));
    let mut reader = emitter.subscribe(rt).expect(rt, "a reader");
    emit_all(rt, &mut emitter, 1, 5);
    let cache = emitter.replay_cache(rt).expect(rt, "memory");
    are(rt, "replay_cache", cache.as_slice(), 4, 5);
    compare(rt, "next", reader.next(rt), Some(T::of_number(3)));
    let mut values = Vec::new(alloc);
    let end = reader.drain(rt, 9, &mut values);
    compare(rt, "drain", end, Ok(Drained::Empty));
    are(rt, "drained", values.as_slice(), 4, 5);
    drop(emitter.subscribe(rt).expect(rt, "a second reader"));
    emit_all(rt, &mut emitter, 6, 6);
    let (value, error) = (T::of_number(7), Exhausted);
    let refused = Err(Rejected { value, error });
    compare(rt, "emit 7", emitter.emit(rt, value), refused);
    drop(reader);
    drop(emitter);
    let closed = closing.close(rt);
    compare(rt, "emitted", closed.emitted(), 6);
    let cache = closed.replay_cache().expect(rt, "memory");
    are(rt, "the last replay cache", cache.as_slice(), 5, 6);
}

#[test]
fn calls_of_flows_of_wide_values(rt: HostRuntime) {
    calls::<Quote, HostRuntime>(&rt, rt.alloc());
    calls::<(u64, u64, u64, u64), HostRuntime>(&rt, rt.alloc());
}
