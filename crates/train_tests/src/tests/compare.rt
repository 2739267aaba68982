//! Tests compare values by calling `same`, which ends the test if the values differ. The assertion
//! is in a separate function, so the assertion is proved once for all tests.
use std::fmt::Debug;
use std::process::Abort;

/// Asserts that two values are equal.
pub(super) fn same<T: PartialEq + Debug + Drop>(rt: &impl Abort, got: T, wanted: T) {
    assert_eq!(rt; got, wanted);
}
