//! Handles own their flow: a thread and a reader outlive the function that made it.
use crate::compare::compare;
use crate::flows::{new_emitter, new_reader, new_setter, new_state_reader};
use crate::handles::views::sum_to;
use flow_law::{Config, NumberError, OutOfMemory, Rejected};
use flow_refusals::Refusing;
use flow_shared::{Emitter, Reader, Setter, SharedFlow, StateFlow, StateReader};
use std::alloc::{Allocator, Global};
use std::process::Abort;
use std::sync::Wait;
use std::thread;
use std::thread::{JoinHandle, Threads};

/// Sends the numbers from 1 to 5, and drops the emitter.
fn send_five<R: Wait>(rt: &R, mut emitter: Emitter<i64>) -> Result<(), Rejected<i64, NumberError>> {
    for value in 1..6 {
        emitter.send(rt, value)?;
    }
    Ok(())
}

/// Makes a flow, and starts a thread that sends to it. Returns the thread and a reader of the flow.
fn start<R: Wait + Threads + Abort + Send + Clone + Drop + 'static>(
    rt: &R,
    alloc: Global,
) -> (
    JoinHandle<Result<(), Rejected<i64, NumberError>>>,
    Reader<i64>,
) {
    let mut emitter = new_emitter(rt, alloc, Config::new().extra(1));
    let reader = new_reader(rt, &mut emitter);
    let there = rt.clone().expect(rt, "a runtime");
    match thread::spawn(rt, move || send_five(&there, emitter)) {
        Ok(child) => (child, reader),
        Err(_refused) => panic!(rt; "no thread"),
    }
}

/// A reader receives what a thread sends into a flow whose maker has returned. The thread has dropped its emitter then;
/// the reader still owns the flow, and makes another emitter.
#[test]
fn a_thread_outlives_the_maker_of_its_flow(rt: HostRuntime) {
    let (child, mut reader) = start(&rt, rt.alloc());
    compare(&rt, "sum", sum_to(&rt, &mut reader, 5), 15);
    compare(&rt, "sent", child.join(&rt), Ok(()));
    let mut emitter = reader.another(&rt);
    compare(&rt, "one reader", emitter.subscription_count(&rt), 1);
    compare(&rt, "room", emitter.try_emit(&rt, 6), Ok(true));
    compare(&rt, "next", reader.next(&rt), Ok(Some(6)));
    drop(reader);
    compare(&rt, "no reader", emitter.subscription_count(&rt), 0);
}

/// Makes a state flow of 0. Returns a setter and a reader of it.
fn state<R: Wait + Abort>(rt: &R, alloc: Global) -> (Setter<i64>, StateReader<i64>) {
    let mut setter = new_setter(rt, alloc, 0, u64::MAX);
    let reader = new_state_reader(rt, &mut setter);
    (setter, reader)
}

/// A reader of a state flow outlives the maker of the flow and all setters, and makes another one.
#[test]
fn a_reader_outlives_the_setters_of_its_state_flow(rt: HostRuntime) {
    let (mut setter, mut reader) = state(&rt, rt.alloc());
    compare(&rt, "first", reader.changed(&rt), Ok(0));
    let mut other = setter.another(&rt);
    other.set(&rt, 7);
    compare(&rt, "next", reader.next(&rt), Ok(Some(7)));
    drop(other);
    let set = setter.compare_and_set(&rt, &7, 8);
    compare(&rt, "compare_and_set", set, true);
    compare(&rt, "value", setter.value(&rt), Ok(8));
    drop(setter);
    compare(&rt, "changed", reader.changed(&rt), Ok(8));
    let mut setter = reader.unsubscribe(&rt);
    compare(&rt, "value", setter.value(&rt), Ok(8));
}

/// Makes both flows, and returns how the memory that their handles share is refused.
fn refused<A: Allocator + Copy>(
    rt: &impl Abort,
    memory: A,
    refusing: &Refusing<Global>,
) -> (Option<OutOfMemory>, Option<OutOfMemory>) {
    refusing.refuse(0);
    let (shared, seat) = SharedFlow::<i64, A>::new(memory, Config::new()).expect(rt, "a flow");
    let (state, first) = StateFlow::<i64, A>::new(memory, 0, u64::MAX).expect(rt, "a flow");
    refusing.refuse(1);
    let emitter = shared.into_emitter(memory, seat).err();
    refusing.refuse(1);
    let setter = state.into_setter(memory, first).err();
    (emitter, setter)
}

/// A flow that is refused the memory that its handles would share is dropped.
#[test]
fn the_first_handle_takes_memory(rt: HostRuntime) {
    let memory = Refusing::new(rt.alloc());
    let refused = refused(&rt, &memory, &memory);
    let wanted = (Some(OutOfMemory), Some(OutOfMemory));
    compare(&rt, "refused", refused, wanted);
}
