//! How answers are compared.
use std::fmt::Debug;
use std::process::Abort;

/// The answer to a row is the one that is wanted.
pub fn same<T: PartialEq + Debug>(rt: &impl Abort, answer: &T, want: &T, row: &str) {
    assert_eq!(rt; answer, want, "{row}");
}

/// The answer to a row is as it is wanted.
pub fn holds(rt: &impl Abort, is_wanted: bool, row: &str, answer: &str) {
    assert!(rt; is_wanted, "{row} gives {answer}");
}
