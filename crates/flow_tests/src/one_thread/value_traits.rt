//! The traits of values that own memory: what they print, when they are equal, and that equal values have equal hashes.
use crate::compare::compare;
use crate::one_thread::values::items;
use crate::values::{boxed, text};
use flow_law::{OutOfMemory, Text};
use flow_refusals::Refusing;
use std::alloc::Global;
use std::fmt::Debug;
use std::hash::{DefaultHasher, Hash, Hasher};
use std::process::Abort;

/// A state with a text in it, whose traits are derived.
#[derive(Debug, PartialEq, Eq, Hash, Drop)]
enum Page {
    Loading,
    Ready(Text),
}

fn ready(rt: &impl Abort, alloc: Global, title: &str) -> Page {
    Page::Ready(text(rt, alloc, title))
}

fn hash_of<T: Hash>(value: &T) -> u64 {
    let mut state = DefaultHasher::new();
    value.hash(&mut state);
    state.finish()
}

/// Compares with `equal` whether two values are equal, and whether their hashes are.
fn are_equal<T: PartialEq + Hash>(rt: &impl Abort, row: &str, first: &T, second: &T, equal: bool) {
    compare(rt, row, *first == *second, equal);
    compare(rt, row, hash_of(first) == hash_of(second), equal);
}

fn is_printed<T: Debug>(rt: &impl Abort, alloc: Global, value: &T, wanted: &str) {
    let printed = format!(in alloc; "{value:?}").expect(rt, "memory");
    compare(rt, "what is printed", printed.as_str(), wanted);
}

/// Two texts, and whether they are equal.
static TEXTS: &[(&str, &str, bool)] = &[
    ("page", "page", true),
    ("page", "pages", false),
    ("page", "pago", false),
    ("", "", true),
];

#[test]
fn texts_are_equal_if_their_bytes_are(rt: HostRuntime) {
    for (first, second, equal) in TEXTS {
        let left = ready(&rt, rt.alloc(), first);
        let right = ready(&rt, rt.alloc(), second);
        are_equal(&rt, second, &left, &right, *equal);
    }
}

/// A text is hashed as a `str` is and printed as it is, and in a state with quotes.
#[test]
fn a_text_is_hashed_and_printed(rt: HostRuntime) {
    let page = text(&rt, rt.alloc(), "page");
    compare(&rt, "the hash", hash_of(&page), hash_of(&"page"));
    let printed = format!(in rt.alloc(); "{page}, {page:>6}").expect(&rt, "memory");
    compare(&rt, "what is printed", printed.as_str(), "page,   page");
    is_printed(&rt, rt.alloc(), &Page::Loading, "Loading");
    let page = ready(&rt, rt.alloc(), "page");
    is_printed(&rt, rt.alloc(), &page, "Ready(\"page\")");
}

#[test]
fn a_text_is_refused_without_memory(rt: HostRuntime) {
    let memory = Refusing::new(rt.alloc());
    memory.refuse(1);
    let refused = Text::from_str(&memory, "page").err();
    compare(&rt, "a refused text", refused, Some(OutOfMemory));
}

#[test]
fn a_list_is_compared_and_printed_by_its_values(rt: HostRuntime) {
    let list = items(&rt, rt.alloc(), 0, &[1, 2]);
    let same = items(&rt, rt.alloc(), 0, &[1, 2]);
    are_equal(&rt, "the same values", &list, &same, true);
    let shorter = items(&rt, rt.alloc(), 0, &[1]);
    are_equal(&rt, "a shorter list", &list, &shorter, false);
    is_printed(&rt, rt.alloc(), &list, "[1, 2]");
}

#[test]
fn a_box_is_compared_and_printed_by_its_value(rt: HostRuntime) {
    let seven = boxed(&rt, rt.alloc(), 7);
    let same = boxed(&rt, rt.alloc(), 7);
    are_equal(&rt, "the same value", &seven, &same, true);
    let other = boxed(&rt, rt.alloc(), 8);
    are_equal(&rt, "another value", &seven, &other, false);
    is_printed(&rt, rt.alloc(), &seven, "7");
}
