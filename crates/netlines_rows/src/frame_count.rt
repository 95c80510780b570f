//! The frames in the lines of an input.

use crate::headers::Frames;
use bstr::ByteSlice;
use hex::FromHexError;
use std::alloc::{AllocError, Global};

/// The frame of each line `frame` of a row, whatever its channel. A line whose last word isn't whole
/// bytes in hex has none. The only error is out of memory. It has no contract: what the program
/// prints is compared with what is stored.
pub fn count_frames(
    alloc: Global,
    row: &str,
    text: &[u8],
    frames: &mut Frames,
) -> Result<(), AllocError> {
    let mut number = 0usize;
    for line in text.split_str(b"\n") {
        number = number.saturating_add(1);
        if line.starts_with(b"frame ") {
            if let Some((_, digits)) = line.rsplit_once_str(b" ") {
                match hex::decode(alloc, digits) {
                    Ok(frame) => frames.count(alloc, row, number, frame.as_slice())?,
                    Err(FromHexError::OutOfMemory) => return Err(AllocError),
                    Err(_) => {}
                }
            }
        }
    }
    Ok(())
}
