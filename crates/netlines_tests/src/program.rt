//! The flush, the status and the name of an error.
use crate::checks::{equal, equal_bytes};
use fault_devices::UnflushableWriter;
use netlines::{RunError, answer_input, exit_code, fault_name};
use std::process::ExitCode;
use std::test::Fail;

#[test]
fn answers_what_is_read(rt: HostRuntime) -> Result<(), Fail> {
    let mut output = Vec::new(rt.alloc());
    answer_input(rt.alloc(), &mut b"\n".as_slice(), &mut output)?;
    equal_bytes(rt, output.as_slice(), b"bad line\n".as_slice());
    Ok(())
}

#[test]
fn a_flush_that_fails_is_a_failed_write(rt: HostRuntime) {
    let mut writer = UnflushableWriter::new(rt.alloc(), usize::MAX);
    let done = answer_input(rt.alloc(), &mut b"\n".as_slice(), &mut writer);
    equal(rt, done, Err(RunError::Write));
    equal_bytes(rt, writer.taken.as_slice(), b"bad line\n".as_slice());
}

#[test]
fn errors_have_names(rt: HostRuntime) {
    let rows = [
        (RunError::Read, "read"),
        (RunError::Write, "write"),
        (RunError::WriteZero, "write"),
        (RunError::Memory, "memory"),
        (RunError::TooManyReads, "reads"),
    ];
    for (error, name) in rows {
        equal(rt, fault_name(error), name);
        equal(rt, exit_code(&rt, Err(error)), ExitCode::FAILURE);
    }
    equal(rt, exit_code(&rt, Ok(())), ExitCode::SUCCESS);
}

#[test]
#[should_panic(expected = "netlines: reads")]
fn errors_are_reported(rt: HostRuntime) {
    let _ = exit_code(&rt, Err(RunError::TooManyReads));
    panic!(rt; "reported");
}
