//! Assertions as functions: each is proved once, and a call of it costs the proof of a test little.
//! They have no contracts: tests alone call them, and are run.

ghost use Rattle.std.specs.Prelude.{◌≡◌};

use ep_base::LenSource;
use ep_base::err::{Layer, LenError};
use std::alloc::AllocError;
use std::fmt::{Debug, Display};
use std::process::Abort;
use std::test::*;

/// Fails where `is_so` is false.
pub fn holds(rt: impl Abort + Copy, is_so: bool) {
    assert!(rt; is_so);
}

// Fails where a text is another, and reports the row and both.
fn is_text<R: Display + Drop>(
    rt: impl Abort + Copy,
    row: R,
    observed: Result<String, AllocError>,
    wanted: &str,
) {
    match observed {
        Ok(observed) => assert_eq!(rt; observed.as_str(), wanted, "at {row}"),
        Err(_) => panic!(rt; "no memory for a text"),
    }
}

/// Fails where a value is shown otherwise, and reports the row and both.
pub fn shows<R: Display + Drop, T: Debug>(
    rt: impl Abort + AllocGlobal + Copy,
    row: R,
    observed: &T,
    wanted: &str,
) {
    is_text(rt, row, format!(in rt.alloc(); "{observed:?}"), wanted);
}

/// Fails where this is not the text of each of these errors.
pub fn read_as<E: Display, F: Display, G: Display>(
    rt: impl Abort + AllocGlobal + Copy,
    (first, second, third): (&E, &F, &G),
    text: &str,
) {
    is_text(rt, "first", format!(in rt.alloc(); "{first}"), text);
    is_text(rt, "second", format!(in rt.alloc(); "{second}"), text);
    is_text(rt, "third", format!(in rt.alloc(); "{third}"), text);
}

/// Fails where this is not the text of an error.
pub fn reads_as<E: Display>(rt: impl Abort + AllocGlobal + Copy, error: &E, text: &str) {
    is_text(rt, "a text", format!(in rt.alloc(); "{error}"), text);
}

/// Fails where one of these errors has another text than the last.
pub fn read_alike<E: Display, F: Display, G: Display, H: Display>(
    rt: impl Abort + AllocGlobal + Copy,
    errors: (&E, &F, &G),
    last: &H,
) {
    match format!(in rt.alloc(); "{last}") {
        Ok(text) => read_as(rt, errors, text.as_str()),
        Err(_) => panic!(rt; "no memory for a text"),
    }
}

/// The error of too few bytes in a slice that tests expect, at offset 0.
pub fn missing_in_slice(required_len: usize, len: usize, layer: Layer) -> LenError
    ensures { result.layer_start_offset ≡ 0 }
{
    LenError {
        required_len,
        len,
        len_source: LenSource::Slice,
        layer,
        layer_start_offset: 0,
    }
}

/// Ends a test.
pub fn fail(rt: impl Abort + Copy, why: &str) -> ! {
    panic!(rt; "{why}")
}
