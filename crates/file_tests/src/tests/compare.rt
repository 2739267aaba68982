//! Functions with which the tests compare values. They end the test if the values differ. Each is a
//! function of its own, so that its assertion is proved only once for all tests.
use std::alloc::Global;
use std::fmt::{Debug, Display};
use std::process::Abort;

/// Asserts that two values are equal.
pub(super) fn same<T: PartialEq + Debug + Drop>(rt: &impl Abort, got: T, wanted: T) {
    assert_eq!(rt; got, wanted);
}

/// Asserts that two values are equal. If they aren't, the failure message shows this name, which
/// identifies the row of a table that the values belong to.
pub(super) fn same_in<T: PartialEq + Debug + Drop>(rt: &impl Abort, name: &str, got: T, wanted: T) {
    assert_eq!(rt; got, wanted, "{name}");
}

/// Asserts that a value is printed as this text.
pub(super) fn prints<T: Display + Drop>(rt: &impl Abort, alloc: Global, value: T, wanted: &str) {
    let text = format!(in alloc; "{value}").expect(rt, "the text");
    same(rt, text.as_str(), wanted);
}
