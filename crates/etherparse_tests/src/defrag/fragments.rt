//! Buffers, as the tests make them. The functions have no contracts: tests alone call them, and are
//! run.

use ep_base::{IpFragOffset, IpNumber};
use etherparse::defrag::IpDefragBuf;
use std::alloc::Global;
use std::process::Abort;

/// The zero bytes that fragments are cut from.
pub const ZEROS: &[u8] = &[0; 64];

/// An empty buffer; no contract, as above.
pub fn empty(alloc: Global) -> IpDefragBuf {
    IpDefragBuf::new(IpNumber::UDP, Vec::new(alloc), Vec::new(alloc))
}

/// An empty buffer that refuses overlaps; no contract, as above.
pub fn refusing(alloc: Global) -> IpDefragBuf {
    IpDefragBuf::new_refusing_overlap(alloc, IpNumber::UDP, Vec::new(alloc), Vec::new(alloc))
}

/// The offset of so many units of 8 bytes; no contract, as above.
pub fn offset(rt: impl Abort + Copy, units: u16) -> IpFragOffset {
    let Ok(offset) = IpFragOffset::try_new(units) else {
        panic!(rt; "{units} is no offset");
    };
    offset
}

/// Whether a buffer's copy is equal to it, or `None` without memory; no contract, as above.
pub fn is_its_copy(buf: &IpDefragBuf) -> Option<bool> {
    match buf.try_clone() {
        Ok(copy) => Some(copy == *buf),
        Err(_) => None,
    }
}

/// Whether these are the bytes of a buffer; no contract, as above.
pub fn has_bytes(buf: &IpDefragBuf, bytes: &[u8]) -> bool {
    buf.data().as_slice() == bytes
}
