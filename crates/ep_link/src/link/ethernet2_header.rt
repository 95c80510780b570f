//! Ethernet II headers as values.
ghost use Rattle.std.specs.Prelude.{◌≡◌, ◌+◌, ◌<◌, ◌≤◌, ℕ, List, ◌++◌, length, drop, Err, OnOk, OnErr, IsOk, IfOk};
ghost use Rattle.std.specs.Prelude.{IfErr, IsOkAnd, MatchResult, vec_len, vec_capacity};
ghost use Rattle.ep_base.specs.declared.err.layer.Layer.TheVariants as layer;
ghost use Rattle.ep_link.specs.Ethernet.{ethernet_len, default_header, ethernet_header_of, encoding, IsRead, Fits};
ghost use Rattle.ep_tag.specs.Prefix.{prefix_at};

use super::Ethernet2HeaderSlice;
use ep_base::EtherType;
use ep_base::err::{Layer, LenError, SliceWriteSpaceError};
use ep_tag::laws::prefix::prefixes_are_found;
use std::alloc::AllocError;

/// An Ethernet II header (RFC 894). In its 14 bytes the destination comes first, and the ether
/// type is held high byte first.
#[derive(Clone, Debug, PartialEq, Eq, Drop)]
pub struct Ethernet2Header {
    /// The source address.
    pub source: [u8; 6],
    /// The destination address.
    pub destination: [u8; 6],
    /// The ether type of what follows the header.
    pub ether_type: EtherType,
}

impl Ethernet2Header {
    /// The length of an Ethernet II header in bytes.
    pub const LEN: usize = 14;

    /// The header at the start of the slice, and the bytes after it. A slice of fewer than 14
    /// bytes is refused.
    pub fn from_slice(slice: &[u8]) -> Result<(Ethernet2Header, &[u8]), LenError>
        // The start of the slice is a header, and is read so.
        ensures found { IfOk result (λ r. IsRead slice.now r.0 r.1.now) }
        // Any 14 bytes are read.
        ensures only { (prefix rest : List ℕ) → length prefix ≡ ethernet_len
            → slice.now ≡ prefix ++ rest
            → IsOkAnd result (λ r. (r.0 ≡ ethernet_header_of prefix) × (r.1.now ≡ rest)) }
        ensures err { IfErr result
            (λ e. prefix_at layer.Ethernet2Header ethernet_len slice.now ≡ Err e) }
        ensures offset { IfErr result (λ e. e.layer_start_offset ≡ 0) }
    {
        prefixes_are_found();
        let header = Ethernet2HeaderSlice::from_slice(slice)?;
        let rest = &slice[Ethernet2Header::LEN..];
        Ok((header.to_header(), rest))
    }

    /// The fields that 14 bytes encode.
    pub fn from_bytes(bytes: [u8; 14]) -> Ethernet2Header
        ensures { result ≡ ethernet_header_of bytes }
    {
        Ethernet2HeaderSlice::of_bytes(&bytes).to_header()
    }

    /// The length of an Ethernet II header in bytes.
    pub fn header_len(&self) -> usize
        ensures { result ≡ 14 }
    {
        Ethernet2Header::LEN
    }

    /// The bytes of the header.
    #[inline(always)]
    pub fn to_bytes(&self) -> [u8; 14]
        ensures bytes { result ≡ encoding self.now }
        // They encode these fields.
        ensures fields { ethernet_header_of result ≡ self.now }
    {
        self.encoded()
    }

    #[inline(always)]
    fn encoded(&self) -> [u8; 14]
        ensures bytes { result ≡ encoding self.now }
        ensures fits { Fits self.now }
    {
        let destination = &self.destination;
        let source = &self.source;
        let ether_type = self.ether_type.0.to_be_bytes();
        [
            destination[0],
            destination[1],
            destination[2],
            destination[3],
            destination[4],
            destination[5],
            source[0],
            source[1],
            source[2],
            source[3],
            source[4],
            source[5],
            ether_type[0],
            ether_type[1],
        ]
    }

    /// Writes the bytes of the header over the first 14 bytes of the slice. A shorter slice is
    /// refused, and unchanged.
    pub fn write_to_slice(&self, slice: &mut [u8]) -> Result<(), SliceWriteSpaceError>
        ensures ok { OnOk result (slice.new ≡ encoding self.now ++ drop ethernet_len slice.old) }
        ensures err { OnErr result (slice.new ≡ slice.old) }
        ensures outcome { MatchResult result (λ _. ethernet_len ≤ length slice.old)
            (λ e. (length slice.old < ethernet_len) × (e ≡ record {
              required_len = ethernet_len;
              len = length slice.old;
              layer = layer.Ethernet2Header;
              layer_start_offset = 0;
            })) }
    {
        if slice.len() < Ethernet2Header::LEN {
            return Err(SliceWriteSpaceError {
                required_len: Ethernet2Header::LEN,
                len: slice.len(),
                layer: Layer::Ethernet2Header,
                layer_start_offset: 0,
            });
        }
        slice[..Ethernet2Header::LEN].copy_from_slice(&self.to_bytes());
        Ok(())
    }

    /// Appends the bytes of the header.
    #[inline(always)]
    pub fn write(&self, buffer: &mut Vec<u8>) -> Result<(), AllocError>
        ensures ok { OnOk result (buffer.new.items ≡ buffer.old.items ++ encoding self.now) }
        ensures len { OnOk result (vec_len buffer.new ≡ vec_len buffer.old + ethernet_len) }
        ensures err { OnErr result (buffer.new.items ≡ buffer.old.items) }
        // It fails only where capacity was missing, and capacity never shrinks.
        ensures succeeds { vec_len buffer.old + ethernet_len ≤ vec_capacity buffer.old
            → IsOk result }
        ensures capacity { vec_capacity buffer.old ≤ vec_capacity buffer.new }
    {
        buffer.extend_from_slice(&self.to_bytes())
    }
}

impl Default for Ethernet2Header {
    ghost is_default = { λ header. header ≡ default_header };

    /// 0 in every field.
    fn default() -> Self {
        Ethernet2Header {
            source: [0; 6],
            destination: [0; 6],
            ether_type: EtherType(0),
        }
    }
}
