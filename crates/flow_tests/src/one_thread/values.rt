//! Lists and boxed values in flows. Two are the same if their contents are, as `StateFlow` compares by `equals`.
use crate::compare::{compare, compare_step};
use crate::one_thread::caller::list_of;
use crate::values::boxed;
use flow_core::{StateCore, SubId};
use flow_law::{Boxed, FlowFault, FlowValue, Items, Next};
use flow_refusals::CopyLimited;
use std::alloc::Global;
use std::cell::Cell;
use std::process::Abort;

/// Sets the value. Returns what the subscriber receives then, if that is a new value.
fn set_and_receive<T: FlowValue>(flow: &mut StateCore<T>, reader: SubId, value: T) -> Option<T> {
    flow.set(value);
    match flow.next(reader) {
        Ok(Next::Value(value)) => Some(value),
        _ => None,
    }
}

/// Returns the list of these values, with room for `room` more.
pub fn items(rt: &impl Abort, alloc: Global, room: usize, values: &[i64]) -> Items<i64> {
    let mut list = values.to_vec(alloc).expect(rt, "memory");
    list.reserve(room).expect(rt, "memory");
    Items::new(list)
}

/// Compares the values of a list that was received, if there is one.
fn is_list(rt: &impl Abort, list: Option<Items<i64>>, values: Option<&[i64]>) {
    match list {
        Some(list) => {
            compare(rt, "the list", Some(list.as_slice()), values);
            compare(rt, "its values", Some(list.into_inner().as_slice()), values);
        }
        None => compare(rt, "no list was received", None, values),
    }
}

/// The further values that a list has room for, its values, and what the subscriber receives once the list is set. The
/// same values in a list with more room are not a new value.
static LISTS: &[(usize, &[i64], Option<&[i64]>)] = &[
    (0, &[1, 2], Some(&[1, 2])),
    (98, &[1, 2], None),
    (0, &[1], Some(&[1])),
];

#[test]
fn a_list_is_its_values(rt: HostRuntime) {
    let mut flow = StateCore::new(rt.alloc(), items(&rt, rt.alloc(), 0, &[1, 2]), u64::MAX);
    let reader = flow.subscribe().expect(&rt, "a subscription");
    for (room, values, wanted) in LISTS {
        let list = items(&rt, rt.alloc(), *room, values);
        is_list(&rt, set_and_receive(&mut flow, reader, list), *wanted);
    }
}

/// Returns the number in the box, if there is one.
fn number_in(rt: &impl Abort, boxed: Option<Boxed<i64>>) -> Option<i64> {
    let boxed = boxed?;
    let number = *boxed.value();
    compare(rt, "inner", Box::into_inner(boxed.into_inner()), number);
    Some(number)
}

/// The number in a box that is set, and the one that the subscriber receives then.
static BOXES: &[(i64, Option<i64>)] = &[(7, Some(7)), (7, None), (8, Some(8))];

#[test]
fn a_boxed_value_is_what_the_box_contains(rt: HostRuntime) {
    let mut flow = StateCore::new(rt.alloc(), boxed(&rt, rt.alloc(), 7), u64::MAX);
    let reader = flow.subscribe().expect(&rt, "a subscription");
    for (number, wanted) in BOXES {
        let received = set_and_receive(&mut flow, reader, boxed(&rt, rt.alloc(), *number));
        compare_step(&rt, "received", number, number_in(&rt, received), *wanted);
    }
}

/// Checks that the next copy is refused, and the one after it is not.
fn is_copied_again<T: FlowValue>(rt: &impl Abort, value: &T) {
    let refused = value.try_copy().err();
    compare(rt, "a refused copy", refused, Some(FlowFault::OutOfMemory));
    compare(rt, "the next copy", value.try_copy().err(), None);
}

#[test]
fn nothing_is_copied_where_a_part_is_not(rt: HostRuntime) {
    let copies = Cell::new(0);
    let list = Items::new(list_of(&rt, rt.alloc(), &copies, &[1, 2]));
    copies.set(2);
    is_copied_again(&rt, &list);
    let Ok(content) = Box::new(rt.alloc(), CopyLimited::new(1, &copies)) else {
        panic!(rt; "memory")
    };
    copies.set(1);
    is_copied_again(&rt, &Boxed::new(content));
}
