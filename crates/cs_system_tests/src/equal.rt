//! The one assertion that prints two values, which costs most of what a test's proof takes.
use std::fmt::Debug;
use std::process::Abort;

/// That both are equal. A failure names the row.
pub fn same<T: PartialEq + Debug>(rt: &impl Abort, found: &T, want: &T, row: impl Debug + Copy) {
    assert_eq!(rt; found, want, "of {row:?}");
}
