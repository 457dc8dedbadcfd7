//! Drains, of which no script has one, and refused copies of values. The values are those that kotlinx.coroutines documents
//! for the same collector.
use crate::one_thread::caller::Caller;
use flow_law::Drained::{Empty, Gone, Most};
use flow_law::Emit::{Done, Queued};
use flow_law::{Config, FlowFault, Overflow};
use std::cell::Cell;

/// A drain takes all values that the subscriber can receive, and none once it has unsubscribed.
#[test]
fn a_drain_takes_what_there_is(rt: HostRuntime) {
    let copies = Cell::new(0);
    let mut flow = Caller::new(&rt, rt.alloc(), Config::new().replay(3), &copies);
    flow.emit_all(&rt, 1, 3);
    let id = flow.subscribe(&rt);
    flow.drain(&rt, id, 2, Ok(Most), &[1, 2]);
    flow.drain(&rt, id, 10, Ok(Empty), &[1, 2, 3]);
    flow.unsubscribe(&rt, id);
    flow.drain(&rt, id, 10, Ok(Gone), &[1, 2, 3]);
    flow.drain(&rt, id, 0, Ok(Most), &[1, 2, 3]);
}

/// A drain makes room, so it also takes values that waited in the queue.
#[test]
fn a_drain_takes_what_waits(rt: HostRuntime) {
    let copies = Cell::new(0);
    let mut flow = Caller::new(&rt, rt.alloc(), Config::new().extra(1), &copies);
    let id = flow.subscribe(&rt);
    flow.emit(&rt, 1, Done);
    flow.emit(&rt, 2, Queued(3));
    flow.emit(&rt, 3, Queued(4));
    flow.drain(&rt, id, 10, Ok(Empty), &[1, 2, 3]);
}

/// A refused drain loses nothing: the second value stays in the flow, and the first one in the list.
#[test]
fn a_refused_drain_loses_nothing(rt: HostRuntime) {
    let copies = Cell::new(0);
    let mut flow = Caller::new(&rt, rt.alloc(), Config::new().extra(1), &copies);
    let id = flow.subscribe(&rt);
    flow.emit(&rt, 4, Done);
    flow.emit(&rt, 5, Queued(3));
    flow.emit(&rt, 6, Queued(4));
    flow.refuse_copy(2);
    flow.drain(&rt, id, 10, Err(FlowFault::OutOfMemory), &[4]);
    flow.drain(&rt, id, 10, Ok(Empty), &[4, 5, 6]);
}

/// A copy that is refused once is made again by the same drain.
#[test]
fn a_drain_copies_again(rt: HostRuntime) {
    let copies = Cell::new(0);
    let mut flow = Caller::new(&rt, rt.alloc(), Config::new().replay(3), &copies);
    flow.emit_all(&rt, 1, 3);
    let id = flow.subscribe(&rt);
    flow.refuse_copy(2);
    flow.drain(&rt, id, 10, Ok(Empty), &[1, 2, 3]);
}

/// A cache of one value, and room for one more.
fn room_for_two() -> Config {
    Config::new()
        .replay(1)
        .extra(1)
        .overflow(Overflow::DropOldest)
}

/// First values of a subscriber's own are moved: the first copy, which is refused, is that of a value of the flow.
#[test]
fn own_first_values_are_not_copied(rt: HostRuntime) {
    let copies = Cell::new(0);
    let mut flow = Caller::new(&rt, rt.alloc(), room_for_two(), &copies);
    flow.emit_all(&rt, 1, 1);
    let id = flow.subscribe_with(&rt, rt.alloc(), &[8, 9]);
    flow.emit_all(&rt, 2, 4);
    flow.refuse_copy(1);
    flow.receive_all(&rt, id, 8, 9);
    flow.receive_nothing(&rt, id);
    flow.receive_all(&rt, id, 3, 4);
}

#[test]
fn a_refused_copy_is_received_later(rt: HostRuntime) {
    let copies = Cell::new(0);
    let mut flow = Caller::new(&rt, rt.alloc(), room_for_two(), &copies);
    flow.emit_all(&rt, 1, 1);
    let id = flow.subscribe_with(&rt, rt.alloc(), &[8]);
    flow.emit_all(&rt, 2, 3);
    flow.refuse_copy(2);
    flow.receive(&rt, id, 8);
    flow.receive(&rt, id, 2);
    flow.receive_nothing(&rt, id);
    flow.receive(&rt, id, 3);
}
