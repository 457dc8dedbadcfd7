//! Texts and boxed numbers, whose copies take memory.
use crate::compare::compare;
use flow_law::{Boxed, Text};
use std::alloc::{Allocator, Global};
use std::process::Abort;

/// Returns a box of this number. Asks for memory once more if it is refused.
pub fn boxed<A: Allocator + Copy>(rt: &impl Abort, memory: A, number: i64) -> Boxed<i64, A> {
    if let Ok(boxed) = Box::new(memory, number) {
        return Boxed::new(boxed);
    }
    match Box::new(memory, number) {
        Ok(boxed) => Boxed::new(boxed),
        Err(_) => panic!(rt; "refused again"),
    }
}

/// Returns a list of boxes of these numbers. Asks for memory once more if its growth is refused.
pub fn boxes<A: Allocator + Copy>(
    rt: &impl Abort,
    memory: A,
    numbers: &[i64],
) -> Vec<Boxed<i64, A>, A> {
    let mut values = Vec::new(memory);
    for number in numbers {
        if let Err(refused) = values.push(boxed(rt, memory, *number)) {
            compare(rt, "grown", values.push(refused.value).is_ok(), true);
        }
    }
    values
}

/// Returns the number in the box that was received, if one was.
pub fn number_in<A: Allocator + Copy>(received: Option<Boxed<i64, A>>) -> Option<i64> {
    match received {
        Some(boxed) => Some(*boxed.value()),
        None => None,
    }
}

/// Compares the numbers of the values of a row.
pub fn are<A: Allocator + Copy>(
    rt: &impl Abort,
    row: &str,
    values: &[Boxed<i64, A>],
    numbers: &[i64],
) {
    compare(rt, row, values.len(), numbers.len());
    for (boxed, number) in values.iter().zip(numbers) {
        compare(rt, row, *boxed.value(), *number);
    }
}

pub fn text(rt: &impl Abort, alloc: Global, text: &str) -> Text {
    Text::from_str(alloc, text).expect(rt, "memory")
}
