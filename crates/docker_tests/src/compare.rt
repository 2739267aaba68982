//! Comparisons for tests: each ends the test if two values differ. Each assertion is in a function
//! of its own, so it is proved only once for all tests.

use std::fmt::Debug;
use std::process::Abort;

/// Asserts that two values are equal.
pub(crate) fn same<T: PartialEq + Debug + Drop>(rt: &impl Abort, got: T, wanted: T) {
    assert_eq!(rt; got, wanted);
}

/// Asserts that two values are equal. The failure message contains this name.
pub(crate) fn same_in<T: PartialEq + Debug + Drop>(rt: &impl Abort, name: &str, got: T, wanted: T) {
    assert_eq!(rt; got, wanted, "{name}");
}

/// Asserts that two values are equal. The failure message contains these words.
pub(crate) fn same_of<T: PartialEq + Debug + Drop>(
    rt: &impl Abort,
    words: &[&str],
    got: T,
    wanted: T,
) {
    assert_eq!(rt; got, wanted, "{words:?}");
}
