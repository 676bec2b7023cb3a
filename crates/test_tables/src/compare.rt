//! Values that are to be the same, compared in functions that promise nothing: a test of many comparisons stays
//! cheap to prove.

use std::fmt::Debug;
use std::process::Abort;

/// Asks for this value.
pub fn same<T: PartialEq + Debug + Drop>(rt: &impl Abort, given: T, wanted: T) {
    assert!(rt; given == wanted);
}
