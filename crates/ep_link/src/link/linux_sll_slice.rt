//! Packets of Linux cooked captures, borrowed.
ghost use Rattle.std.specs.Prelude.{◌≡◌, ◌≤◌, length, drop, IfErr};
ghost use Rattle.ep_base.specs.SliceError.{content_offset};
ghost use Rattle.ep_link.specs.Sll.{sll_len, greatest_packet_type, packet_type_of};
ghost use Rattle.ep_link.specs.SllFault.{whole_at};
ghost use Rattle.ep_link.specs.SllPayload.{payload_of};

use super::linux_sll_bytes::LinuxSllBytes;
use super::{LinuxSllHeader, LinuxSllPacketType, LinuxSllPayloadSlice};
use crate::err::linux_sll::{HeaderError, HeaderSliceError};
use ep_base::err::{Layer, LenError};

// As many bytes as a slice has.
const MOST: usize = usize::MAX;

/// A packet of a Linux cooked capture (libpcap's page on LINKTYPE_LINUX_SLL), borrowed: the header
/// and all bytes after it. A contract sees the value as the bytes of both.
pub type LinuxSllSlice<'a> = LinuxSllBytes<'a, { MOST }>;

impl<'a> LinuxSllBytes<'a, { MOST }> {
    /// The header at the start of the slice, and what follows it. Refused are, in this order, a
    /// slice of fewer than 16 bytes and a packet type above 4.
    pub fn from_slice(slice: &'a [u8]) -> Result<LinuxSllSlice<'a>, HeaderSliceError>
        ensures exact { result ≡ whole_at slice.now }
        ensures offset { IfErr result (λ e. content_offset e ≡ 0) }
    {
        if slice.len() < LinuxSllHeader::LEN {
            return Err(HeaderSliceError::Len(LenError::too_few_bytes(
                Layer::LinuxSllHeader,
                LinuxSllHeader::LEN,
                slice.len(),
            )));
        }
        let packet_type = u16::from_be_bytes([slice[0], slice[1]]);
        if packet_type > LinuxSllPacketType::MAX_VAL {
            return Err(HeaderSliceError::Content(HeaderError::UnsupportedPacketTypeField {
                packet_type,
            }));
        }
        Ok(LinuxSllBytes { slice })
    }

    /// The header and all bytes after it.
    pub fn slice(&self) -> &'a [u8]
        ensures bytes { result.now ≡ self.now }
        ensures least { sll_len ≤ length self.now }
        ensures packet_type { packet_type_of self.now ≤ greatest_packet_type }
    {
        self.slice
    }

    /// The length of the header in bytes.
    pub fn header_len(&self) -> usize
        ensures { result ≡ 16 }
    {
        LinuxSllHeader::LEN
    }

    /// What follows the header, under its protocol.
    pub fn payload(&self) -> LinuxSllPayloadSlice<'a>
        ensures { result ≡ payload_of self.now }
    {
        LinuxSllPayloadSlice {
            protocol_type: self.protocol_type(),
            payload: self.payload_slice(),
        }
    }

    /// The bytes after the header.
    pub fn payload_slice(&self) -> &'a [u8]
        ensures { result.now ≡ drop sll_len self.now }
    {
        &self.slice[LinuxSllHeader::LEN..]
    }
}
