//! Flows of more values than a script has steps, or than the largest buffer has room for.
use crate::one_thread::caller::Caller;
use flow_law::Emit::Queued;
use flow_law::{Config, Overflow};
use std::cell::Cell;

/// Of more values than the largest buffer has room for it keeps the newest.
#[test]
fn the_largest_buffer_drops_the_oldest(rt: HostRuntime) {
    let copies = Cell::new(0);
    let config = Config::new().replay(65_536).overflow(Overflow::DropOldest);
    let mut flow = Caller::new(&rt, rt.alloc(), config, &copies);
    let id = flow.subscribe(&rt);
    flow.emit_all(&rt, 0, 65_539);
    flow.caches(&rt, 65_536);
    flow.receive(&rt, id, 4);
}

/// Two thousand emitters wait in order. The subscription and value 0 have the numbers 1 and 2.
#[test]
fn many_emitters_wait_in_order(rt: HostRuntime) {
    let copies = Cell::new(0);
    let mut flow = Caller::new(&rt, rt.alloc(), Config::new().replay(1), &copies);
    let id = flow.subscribe(&rt);
    flow.emit_all(&rt, 0, 0);
    let mut number = 3u64;
    for value in 1..=2_000 {
        flow.emit(&rt, value, Queued(number));
        number = number.wrapping_add(1);
    }
    flow.receive_all(&rt, id, 0, 2_000);
}

#[test]
fn a_value_comes_after_a_hundred_thousand(rt: HostRuntime) {
    let copies = Cell::new(0);
    let mut flow = Caller::new(&rt, rt.alloc(), Config::new().replay(1), &copies);
    flow.emit_all(&rt, 0, 99_999);
    let id = flow.subscribe(&rt);
    flow.receive(&rt, id, 99_999);
    flow.emit_all(&rt, 7, 7);
    flow.receive(&rt, id, 7);
}

/// For a slow subscriber no more than the buffer is kept.
#[test]
fn no_more_than_the_buffer_is_kept(rt: HostRuntime) {
    let copies = Cell::new(0);
    let config = Config::new().extra(2).overflow(Overflow::DropOldest);
    let mut flow = Caller::new(&rt, rt.alloc(), config, &copies);
    let id = flow.subscribe(&rt);
    flow.emit_all(&rt, 0, 9_999);
    flow.keeps(&rt, "9999", 2);
    flow.receive_all(&rt, id, 9_998, 9_999);
}
