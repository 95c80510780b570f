//! A message of neighbor discovery up to its options.
ghost use Rattle.std.specs.Prelude.{◌≡◌, ◌+◌, ◌≤◌, ◌++◌, List, ℕ, length, IfSome, IfOk, IfErr, IsOk, OnOk, OnErr, Some, Err};
ghost use Rattle.std.specs.Prelude.{None, IfNone, IsSomeAnd, IsOkAnd, vec_len, vec_capacity};
ghost use Rattle.ep_icmp.specs.Ndp as ndp;

use super::{NdpError, NdpMessage, NdpSlice};
use arrayvec::ArrayVec;
use std::alloc::AllocError;

/// A message of neighbor discovery up to its options (RFC 4861, section 4). In its bytes numbers are
/// high byte first.
#[derive(Clone, Copy, Debug, PartialEq, Eq)]
pub struct NdpHeader {
    /// The message.
    pub message: NdpMessage,
    /// The checksum over a pseudo header and the whole message (RFC 4443, section 2.3).
    pub checksum: u16,
}

impl NdpHeader {
    /// The least length in bytes.
    pub const MIN_LEN: usize = 8;

    /// The greatest length in bytes, and how many `to_bytes` has space for.
    pub const MAX_LEN: usize = 40;

    /// The header at the start of a message, and its options. `None` where the first byte isn't the
    /// type of one, 133 to 137; too few bytes for that type are refused (layer `Icmpv6`).
    pub fn from_slice(slice: &[u8]) -> Option<Result<(NdpHeader, &[u8]), NdpError>>
        ensures none { IfNone result (ndp.message_at slice.now ≡ None) }
        // The start of the slice is a header, and is read so.
        ensures found { IfSome result (λ r. IfOk r (λ read. ndp.IsRead slice.now read.0 read.1.now)) }
        // A prefix that is a header is read.
        ensures only { (prefix rest : List ℕ) → ndp.IsNdpHeader prefix → slice.now ≡ prefix ++ rest
            → IsSomeAnd result (λ r. IsOkAnd r (λ read. (read.0 ≡ ndp.ndp_header_of prefix)
            × (read.1.now ≡ rest))) }
        // Else bytes are missing.
        ensures err { IfSome result (λ r. IfErr r (λ e. ndp.message_at slice.now ≡ Some (Err e))) }
    {
        match NdpSlice::from_slice(slice) {
            None => None,
            Some(Ok(message)) => Some(Ok((message.header(), message.options_slice()))),
            Some(Err(error)) => Some(Err(error)),
        }
    }

    /// The length in bytes: 8, 16, 24, 24 or 40.
    pub fn header_len(&self) -> usize
        ensures { result ≡ ndp.header_len self.now.message }
    {
        self.message.header_len()
    }

    /// The bytes, with the checksum as it is, code 0 and reserved bits 0.
    pub fn to_bytes(&self) -> ArrayVec<u8, 40>
        ensures bytes { result.items ≡ ndp.encoding self.now }
        // They are a header, with these fields.
        ensures header { ndp.IsNdpHeader result.items }
        ensures fields { ndp.ndp_header_of result.items ≡ self.now }
    {
        self.field_bytes()
    }

    // Apart from `to_bytes`, whose other clauses follow from these.
    fn field_bytes(&self) -> ArrayVec<u8, 40>
        ensures bytes { result.items ≡ ndp.encoding self.now }
        ensures fits { ndp.Fits self.now }
    {
        let mut bytes = ArrayVec::new();
        let [c0, c1] = self.checksum.to_be_bytes();
        bytes
            .try_extend_from_slice(&[self.message.type_u8(), 0, c0, c1])
            .unwrap();
        bytes
            .try_extend_from_slice(self.message.field_bytes().as_slice())
            .unwrap();
        bytes
    }

    /// Appends the bytes, as `to_bytes` gives them.
    ///
    /// Where no memory is left for them, the buffer keeps its bytes.
    pub fn write(&self, buffer: &mut Vec<u8>) -> Result<(), AllocError>
        ensures ok { OnOk result (buffer.new.items ≡ buffer.old.items ++ ndp.encoding self.now) }
        ensures err { OnErr result (buffer.new.items ≡ buffer.old.items) }
        // It fails only where capacity was missing, and capacity never shrinks.
        ensures succeeds { vec_len buffer.old + length (ndp.encoding self.now)
            ≤ vec_capacity buffer.old → IsOk result }
        ensures capacity { vec_capacity buffer.old ≤ vec_capacity buffer.new }
    {
        buffer.extend_from_slice(self.to_bytes().as_slice())
    }
}
