// Who asserts is lent what is looked at: a test's own exits drop what it holds.

use std::fmt::Debug;
use std::process::Abort;

/// That what is seen is what is expected.
pub fn shows<T: Copy + Debug + PartialEq>(rt: &impl Abort, seen: T, expected: T) {
    assert_eq!(rt; seen, expected);
}

/// Asserts that this was printed.
pub fn check_told(rt: &impl Abort, told: &str, wanted: &str) {
    shows(rt, told, wanted);
}
