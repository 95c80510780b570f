//! What tests compare: both values are printed where they differ.
use std::fmt::Debug;
use std::process::Abort;

/// Fails where both differ. It has no contract: tests alone call it, and are run.
pub fn equal<T: PartialEq + Debug + Drop>(rt: impl Abort + Copy, reported: T, wanted: T) {
    assert_eq!(rt; reported, wanted);
}
