//! What tests assert, as functions: proved once, and cheap in the proof of each test. Tests alone
//! call them and are run, so they have no contracts.

use std::alloc::Global;
use std::fmt::{Debug, Display};
use std::process::Abort;
use std::test::*;

/// Fails where a value is not the expected one, and shows both.
pub fn equal<T: PartialEq + Debug + Drop>(rt: impl Abort + Copy, described: T, wanted: T) {
    assert_eq!(rt; described, wanted);
}

/// The same of bytes.
pub fn equal_bytes(rt: impl Abort + Copy, described: &[u8], wanted: &[u8]) {
    assert_eq!(rt; described, wanted);
}

/// The same for a row of a table, which is shown too.
pub fn equal_in<T: PartialEq + Debug>(rt: impl Abort + Copy, row: &str, described: &T, wanted: &T) {
    assert_eq!(rt; described, wanted, "{row}");
}

/// Fails where it is not so.
pub fn holds(rt: impl Abort + Copy, is_so: bool) {
    assert!(rt; is_so);
}

/// The same for a row of a table, which is shown.
pub fn holds_in(rt: impl Abort + Copy, row: &str, is_so: bool) {
    assert!(rt; is_so, "{row}");
}

/// Fails where an error doesn't show the text of the one in it, and shows both texts.
pub fn have_one_text(
    rt: impl Abort + Copy,
    alloc: Global,
    error: &impl Display,
    inner: &impl Display,
) {
    match (format!(in alloc; "{error}"), format!(in alloc; "{inner}")) {
        (Ok(error), Ok(inner)) => {
            equal(rt, error.as_str(), inner.as_str());
            equal(rt, inner.is_empty(), false);
        }
        _ => panic!(rt; "no memory"),
    }
}

/// A buffer with one byte. Where the first try for the byte finds no memory, the next one does.
pub fn held(rt: impl Abort + Copy, alloc: Global) -> Vec<u8> {
    let mut buffer = Vec::new(alloc);
    equal(
        rt,
        (buffer.push(0xaa).is_ok() || buffer.push(0xaa).is_ok()),
        true,
    );
    buffer
}

/// Fails where the bytes aren't these two in a row.
pub fn are_joined(rt: impl Abort + Copy, bytes: &[u8], prefix: &[u8], rest: &[u8]) {
    equal(rt, bytes.get(..prefix.len()), Some(prefix));
    equal(rt, bytes.get(prefix.len()..), Some(rest));
}

/// Ends a test.
pub fn fail(rt: impl Abort + Copy, why: &str) -> ! {
    panic!(rt; "{why}")
}
