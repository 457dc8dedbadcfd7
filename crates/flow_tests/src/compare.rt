//! Compares what a call returned with what it should return.
use std::fmt::Debug;
use std::process::Abort;

/// Ends the test unless what came of this row is what is wanted.
pub fn compare<T: PartialEq + Debug + Drop>(rt: &impl Abort, row: &str, came: T, wanted: T) {
    assert_eq!(rt; came, wanted, "{row}: left came, and right was wanted");
}

/// Ends the test unless what came of this row is one of the values that are wanted.
pub fn compare_any<T: PartialEq + Debug + Drop>(rt: &impl Abort, row: &str, came: T, wanted: &[T]) {
    let is_wanted = wanted.contains(&came);
    assert!(rt;
        is_wanted,
        "{row}: {came:?} came, and one of {wanted:?} was wanted"
    );
}

/// Ends the test unless what came of this step of a row is what is wanted.
pub fn compare_step<S: Debug, T: PartialEq + Debug + Drop>(
    rt: &impl Abort,
    row: &str,
    step: &S,
    came: T,
    wanted: T,
) {
    assert_eq!(rt;
        came,
        wanted,
        "{row}, {step:?}: left came, and right was wanted"
    );
}

/// Ends the test unless this value of a row is greater than the last one, whose place it then takes.
pub fn rises<T: PartialOrd + Copy + Debug>(rt: &impl Abort, row: &str, last: &mut T, value: T) {
    let before = *last;
    assert!(rt; value > before, "{row}: {value:?} came after {before:?}");
    *last = value;
}
