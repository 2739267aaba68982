//! Tests compare values by calling these functions, which end the test if the values differ. The
//! assertions are in separate functions, so each assertion is proved once for all tests.
use std::fmt::Debug;
use std::process::Abort;

/// Asserts that two values are equal.
pub(super) fn same<T: PartialEq + Debug + Drop>(rt: &impl Abort, got: T, wanted: T) {
    assert_eq!(rt; got, wanted);
}

/// Asserts that two values are equal. If they differ, the name of the row is printed.
pub(super) fn same_in<T: PartialEq + Debug + Drop>(rt: &impl Abort, name: &str, got: T, wanted: T) {
    assert_eq!(rt; got, wanted, "{name}");
}
