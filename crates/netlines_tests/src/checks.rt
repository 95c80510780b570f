//! What tests compare and join, as functions: each is proved once, and its calls cost a test's
//! proof little. They have no contracts, as tests alone call them.
use fault_devices::Tally;
use std::alloc::{AllocError, Global};
use std::fmt::Debug;
use std::process::Abort;
use std::test::*;

/// Prints what `tools/faults_tried` reads.
pub fn print_tally(rt: &HostRuntime, tally: &Tally) -> Result<(), Fail> {
    println!(rt; "{tally}")?;
    Ok(())
}

/// Ends a test with another value than the expected one, and shows both.
pub fn equal<T: PartialEq + Debug + Drop>(rt: impl Abort + Copy, actual: T, wanted: T) {
    assert_eq!(rt; actual, wanted);
}

/// The same of bytes.
pub fn equal_bytes(rt: impl Abort + Copy, actual: &[u8], wanted: &[u8]) {
    assert_eq!(rt; actual, wanted);
}

/// Ends a test in which it is not so.
pub fn holds(rt: impl Abort + Copy, is_so: bool) {
    assert!(rt; is_so);
}

/// So many lines are ended in the bytes.
pub fn ended_lines(bytes: &[u8]) -> usize {
    let mut count = 0usize;
    for byte in bytes {
        if *byte == b'\n' {
            count = count.saturating_add(1);
        }
    }
    count
}

/// The bytes so many times over.
pub fn repeated(alloc: Global, bytes: &[u8], times: usize) -> Result<Vec<u8>, AllocError> {
    let mut all = Vec::new(alloc);
    for _ in 0..times {
        all.extend_from_slice(bytes)?;
    }
    Ok(all)
}
