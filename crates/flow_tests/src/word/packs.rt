//! Packs of the least and the greatest values of each type.
use crate::compare::compare;
use crate::word::celsius::Celsius;
use flow_law::Packed;
use std::fmt::Debug;
use std::process::Abort;

/// Checks that unpacking a packed value returns it.
fn come_back<T: Packed + Copy + PartialEq + Debug + Drop>(
    rt: &impl Abort,
    row: &str,
    values: &[T],
) {
    for value in values {
        compare(rt, row, T::unpack((*value).pack()), *value);
    }
}

#[test]
fn numbers(rt: HostRuntime) {
    come_back(&rt, "i64", &[i64::MIN, -1, 0, 1, i64::MAX]);
    come_back(&rt, "i32", &[i32::MIN, -1, 0, 1, i32::MAX]);
    come_back(&rt, "i16", &[i16::MIN, -1, 0, 1, i16::MAX]);
    come_back(&rt, "i8", &[i8::MIN, -1, 0, 1, i8::MAX]);
    come_back(&rt, "u64", &[0, 1, u64::MAX]);
    come_back(&rt, "u32", &[0, 1, u32::MAX]);
    come_back(&rt, "u16", &[0, 1, u16::MAX]);
    come_back(&rt, "u8", &[0, 1, u8::MAX]);
}

fn celsius(degrees: i32) -> Celsius {
    Celsius { degrees }
}

#[test]
fn other_values(rt: HostRuntime) {
    come_back(&rt, "bool", &[false, true]);
    come_back(&rt, "char", &['\0', '\u{D7FF}', '\u{E000}', char::MAX]);
    come_back(&rt, "()", &[()]);
    come_back(&rt, "Option", &[None, Some(0), Some(u32::MAX)]);
    come_back(&rt, "a pair", &[(0, 0), (u32::MAX, i32::MIN), (0, -1)]);
    let warm = [celsius(-40), celsius(0), celsius(100)];
    come_back(&rt, "Celsius", &warm);
}
