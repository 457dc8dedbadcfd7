//! Waits whose requests for memory are refused, each in turn. A thread without memory for its waker yields and tries
//! again, so the wait returns the same as with memory.
use crate::compare::compare;
use crate::flows::{new_reader, new_state_reader};
use crate::host::{Host, Memory};
use flow_law::{Config, Rejected};
use flow_refusals::Refusing;
use flow_shared::{Emitter, SendEnd, SharedFlow, StateFlow};
use std::alloc::Global;
use std::sync::Wait;
use std::time::{Clock, Duration};

/// A number greater than that of the requests of one wait.
const REQUESTS: u64 = 6;

fn a_millisecond() -> Duration {
    Duration::from_millis(1)
}

/// Sends a value, and once more if it is refused. Returns how the last call ended, or None if it is refused again.
fn send_again<R: Wait + Clock, A: Memory>(
    rt: &R,
    emitter: &mut Emitter<i64, A>,
    limit: Duration,
) -> Option<SendEnd> {
    match emitter.send_timeout(rt, 7, limit) {
        Ok(end) => Some(end),
        Err(Rejected { value, error: _ }) => emitter.send_timeout(rt, value, limit).ok(),
    }
}

/// Nothing is received in time, and a value finds no room in time, whichever request of each wait is refused.
fn waits_in_vain<R: Host, A: Memory>(rt: &R, memory: A, refusing: &Refusing<Global>, number: u64) {
    refusing.refuse(0);
    let (flow, seat) = SharedFlow::<i64, A>::new(memory, Config::new()).expect(rt, "a flow");
    let mut emitter = flow.into_emitter(memory, seat).expect(rt, "memory");
    let mut reader = new_reader(rt, &mut emitter);
    let limit = a_millisecond();
    refusing.refuse(number);
    compare(rt, "nothing", reader.receive_timeout(rt, limit), Ok(None));
    refusing.refuse(number);
    let sent = send_again(rt, &mut emitter, limit);
    compare(rt, "send_timeout", sent, Some(SendEnd::Cancelled));
}

#[test]
fn refused_waits_end_in_time(rt: HostRuntime) {
    let memory = Refusing::new(rt.alloc());
    for number in 1..=REQUESTS {
        waits_in_vain(&rt, &memory, &memory, number);
    }
    compare(&rt, "some run asks for less", memory.is_waiting(), true);
}

fn exceeds_eight(value: &i64) -> bool {
    *value > 8
}

/// The state does not change in time, whichever request of each wait is refused.
fn changes_in_vain<R: Host, A: Memory>(
    rt: &R,
    memory: A,
    refusing: &Refusing<Global>,
    number: u64,
) {
    refusing.refuse(0);
    let (flow, seat) = StateFlow::<i64, A>::new(memory, 0, 1).expect(rt, "a flow");
    let mut setter = flow.into_setter(memory, seat).expect(rt, "memory");
    let mut reader = new_state_reader(rt, &mut setter);
    let limit = a_millisecond();
    setter.set(rt, 7);
    compare(rt, "next", reader.next(rt), Ok(Some(7)));
    refusing.refuse(number);
    compare(rt, "unchanged", reader.changed_timeout(rt, limit), Ok(None));
    refusing.refuse(number);
    let found = reader.wait_for_timeout(rt, limit, exceeds_eight);
    compare(rt, "wait_for_timeout", found, Ok(None));
}

#[test]
fn refused_waits_for_a_state_end_in_time(rt: HostRuntime) {
    let memory = Refusing::new(rt.alloc());
    for number in 1..=REQUESTS {
        changes_in_vain(&rt, &memory, &memory, number);
    }
    compare(&rt, "some run asks for less", memory.is_waiting(), true);
}
