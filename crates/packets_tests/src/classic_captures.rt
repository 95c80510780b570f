//! Classic captures of frames that are written in hex.

use hex::FromHexError;
use std::alloc::Global;

/// A capture of these frames, high byte first, on links of this type. The first came at
/// 1700000000 s, and each other one 1500 us after the one before it. It has no contract: tests alone
/// call it, and are run.
pub fn capture_of(alloc: Global, link_type: u32, frames: &[&str]) -> Result<Vec<u8>, FromHexError> {
    let mut capture = header(alloc, link_type)?;
    let mut microseconds = 0u32;
    for frame in frames {
        add_frame(alloc, &mut capture, microseconds, *frame)?;
        microseconds = microseconds.wrapping_add(1500);
    }
    Ok(capture)
}

fn header(alloc: Global, link_type: u32) -> Result<Vec<u8>, FromHexError> {
    let mut capture = Vec::from_slice(
        alloc,
        b"\xa1\xb2\xc3\xd4\x00\x02\x00\x04\0\0\0\0\0\0\0\0\x00\x04\x00\x00",
    )?;
    capture.extend_from_slice(&link_type.to_be_bytes())?;
    Ok(capture)
}

fn add_frame(
    alloc: Global,
    capture: &mut Vec<u8>,
    microseconds: u32,
    frame: &str,
) -> Result<(), FromHexError> {
    let bytes = hex::decode(alloc, frame)?;
    let len = ((bytes.len() % 0x1_0000_0000) as u32).to_be_bytes();
    capture.extend_from_slice(&1_700_000_000u32.to_be_bytes())?;
    capture.extend_from_slice(&microseconds.to_be_bytes())?;
    capture.extend_from_slice(&len)?;
    capture.extend_from_slice(&len)?;
    capture.extend_from_slice(bytes.as_slice())?;
    Ok(())
}
