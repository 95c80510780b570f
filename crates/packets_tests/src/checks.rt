//! Assertions as functions: each is proved once, and a call of it costs the proof of a test little.
//! They have no contracts: tests alone call them, and are run.

use std::alloc::Global;
use std::fmt::{Debug, Display};
use std::process::Abort;
use std::str;

/// Fails where a value is not the expected one, and shows both.
pub(super) fn equal<T: PartialEq + Debug + Drop>(rt: impl Abort + Copy, actual: T, wanted: T) {
    assert_eq!(rt; actual, wanted);
}

/// Fails where it is not so.
pub(super) fn holds(rt: impl Abort + Copy, is_so: bool) {
    assert!(rt; is_so);
}

/// Compares a text, and shows both where they differ.
pub(super) fn is_text(rt: impl Abort + Copy, actual: &[u8], wanted: &str) {
    let Ok(actual) = str::from_utf8(actual) else {
        panic!(rt; "no text");
    };
    assert_eq!(rt; actual, wanted);
}

/// Compares how a value is shown.
pub(super) fn is_shown_as<T: Display>(
    rt: impl Abort + Copy,
    alloc: Global,
    actual: &T,
    wanted: &str,
) {
    let Ok(text) = format!(in alloc; "{actual}") else {
        panic!(rt; "no memory");
    };
    is_text(rt, text.as_bytes(), wanted);
}

/// Ends a test.
pub(super) fn fail(rt: impl Abort + Copy, why: &str) -> ! {
    panic!(rt; "{why}")
}
