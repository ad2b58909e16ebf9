//! Comparisons, each one call: the code of `assert_eq!` would stand in each test and be proved there.

use std::process::Abort;

/// Stops the test where the two differ.
pub fn same<T: Copy + PartialEq>(rt: &impl Abort, found: T, wanted: T) {
    assert!(rt; found == wanted);
}
