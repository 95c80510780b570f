//! Comparisons as functions: each is proved once, and a call of it costs the proof of a test
//! little. They have no contracts: tests alone call them, and are run.

use std::fmt::{Debug, Display};
use std::process::Abort;
use std::test::*;

/// Fails where the value found isn't the expected one, and shows both.
pub fn equal<T: PartialEq + Debug + Drop>(rt: impl Abort + Copy, reported: T, wanted: T) {
    assert_eq!(rt; reported, wanted);
}

/// The same of bytes.
pub fn equal_bytes(rt: impl Abort + Copy, reported: &[u8], wanted: &[u8]) {
    assert_eq!(rt; reported, wanted);
}

/// Fails where a write failed, or the bytes written are not the expected ones.
pub fn is_written(rt: impl Abort + Copy, done: bool, there: &[u8], wanted: &[u8]) {
    equal(rt, (done, there), (true, wanted));
}

/// The same of the text that a value is shown as.
pub fn shows<T: Debug>(rt: impl Abort + AllocGlobal + Copy, reported: &T, wanted: &str) {
    match format!(in rt.alloc(); "{reported:?}") {
        Ok(text) => equal(rt, text.as_str(), wanted),
        Err(_) => panic!(rt; "no memory for a text"),
    }
}

/// The same of the text that a value is printed as.
pub fn reads<T: Display>(rt: impl Abort + AllocGlobal + Copy, reported: &T, wanted: &str) {
    match format!(in rt.alloc(); "{reported}") {
        Ok(text) => equal(rt, text.as_str(), wanted),
        Err(_) => panic!(rt; "no memory for a text"),
    }
}

/// Ends a test.
pub fn fail(rt: impl Abort + Copy, why: &str) -> ! {
    panic!(rt; "{why}")
}
