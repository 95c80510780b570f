//! What tests compare, and bytes that they put together. A test ends here that finds another value
//! or no memory.
//! Calls have no contracts: tests alone make them, and are run.
use std::fmt::Debug;
use std::process::Abort;

pub fn equal<T: PartialEq + Debug + Drop>(rt: impl Abort + Copy, actual: T, wanted: T) {
    assert_eq!(rt; actual, wanted);
}

/// The same of bytes.
pub fn equal_bytes(rt: impl Abort + Copy, actual: &[u8], wanted: &[u8]) {
    assert_eq!(rt; actual, wanted);
}

pub fn holds(rt: impl Abort + Copy, is_so: bool) {
    assert!(rt; is_so);
}

/// Appends these parts to the bytes.
pub fn append(rt: impl Abort + Copy, bytes: &mut Vec<u8>, parts: &[&[u8]]) {
    for part in parts {
        assert!(rt; bytes.extend_from_slice(part).is_ok());
    }
}

/// These parts, one after the other.
pub fn joined(rt: impl Abort + AllocGlobal + Copy, parts: &[&[u8]]) -> Vec<u8> {
    let mut bytes = Vec::new(rt.alloc());
    append(rt, &mut bytes, parts);
    bytes
}

/// These bytes, so often.
pub fn repeated(rt: impl Abort + AllocGlobal + Copy, bytes: &[u8], count: usize) -> Vec<u8> {
    bytes.repeat(rt.alloc(), count).expect(&rt, "no memory")
}
