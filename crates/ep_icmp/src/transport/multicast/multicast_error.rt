//! Why reports and queries of multicast groups can't be read.
ghost use Rattle.std.specs.Prelude.{◌≡◌, ◌≤◌, length, OnOk};
ghost use Rattle.ep_icmp.specs.Multicast as multicast;

use thiserror::Error;

/// A message has fewer bytes than its kind needs.
#[derive(Clone, Copy, Debug, PartialEq, Eq, Error)]
#[error("multicast group message: {needed_len} byte(s) are needed, and {actual_len} are there")]
pub struct MulticastError {
    /// How many bytes it needs.
    pub needed_len: usize,
    /// How many bytes it has.
    pub actual_len: usize,
}

/// Fewer bytes are left than the record of a group needs.
#[derive(Clone, Copy, Debug, PartialEq, Eq, Error)]
#[error("group record at offset {offset}: {needed_len} byte(s) are needed, and {actual_len} are left")]
pub struct GroupRecordError {
    /// The offset of the record, in bytes from the first record on.
    pub offset: usize,
    /// How many bytes it needs: at first those before its sources, then all.
    pub needed_len: usize,
    /// How many bytes are left.
    pub actual_len: usize,
}

// Tests that a message has so many bytes.
pub(crate) fn needs(bytes: &[u8], needed_len: usize) -> Result<(), MulticastError>
    ensures exact { result ≡ multicast.needs needed_len bytes.now tt }
    ensures room { OnOk result (needed_len ≤ length bytes.now) }
{
    if bytes.len() < needed_len {
        return Err(MulticastError {
            needed_len,
            actual_len: bytes.len(),
        });
    }
    Ok(())
}
