//! Headers of Linux cooked captures as values.
ghost use Rattle.std.specs.Prelude.{◌≡◌, ◌+◌, ◌≤◌, ℕ, List, ◌++◌, length, Err, OnOk, OnErr, IsOk, IfOk, IfErr, IsOkAnd};
ghost use Rattle.std.specs.Prelude.{vec_len, vec_capacity};
ghost use Rattle.ep_base.specs.SliceError.{content_offset};
ghost use Rattle.ep_link.specs.Sll.{sll_len, IsSllHeader, NamesProtocol, IsRead, Fits, sll_header_of, encoding};
ghost use Rattle.ep_link.specs.SllFault.{header_at};

use super::{ArpHardwareId, LinuxSllHeaderSlice, LinuxSllPacketType, LinuxSllProtocolType};
use crate::err::linux_sll::HeaderSliceError;
use std::alloc::AllocError;

/// The header of a Linux cooked capture, version 1 (libpcap's page on LINKTYPE_LINUX_SLL). Its
/// 16 bytes hold numbers high byte first.
#[derive(Clone, Debug, PartialEq, Eq, Drop)]
pub struct LinuxSllHeader {
    /// Who the packet was sent to, or by.
    pub packet_type: LinuxSllPacketType,
    /// The type of the link.
    pub arp_hrd_type: ArpHardwareId,
    /// How many bytes of the address are the sender's.
    pub sender_address_valid_length: u16,
    /// The sender's link address, and bytes without meaning after it.
    pub sender_address: [u8; 8],
    /// What follows the header.
    pub protocol_type: LinuxSllProtocolType,
}

impl LinuxSllHeader {
    /// The length of the header in bytes.
    pub const LEN: usize = 16;

    /// The header at the start of the slice, and the bytes after it. Refused are, in this order, a
    /// slice of fewer than 16 bytes and a packet type above 4.
    pub fn from_slice(slice: &[u8]) -> Result<(LinuxSllHeader, &[u8]), HeaderSliceError>
        // The start of the slice is a header, and is read so.
        ensures found { IfOk result (λ r. IsRead slice.now r.0 r.1.now) }
        // A prefix that is a header is read.
        ensures only { (prefix rest : List ℕ) → IsSllHeader prefix → slice.now ≡ prefix ++ rest
            → IsOkAnd result (λ r. (r.0 ≡ sll_header_of prefix) × (r.1.now ≡ rest)) }
        // Else it is the first fault.
        ensures err { IfErr result (λ e. header_at slice.now ≡ Err e) }
        ensures offset { IfErr result (λ e. content_offset e ≡ 0) }
    {
        let header = LinuxSllHeaderSlice::from_slice(slice)?;
        let rest = &slice[LinuxSllHeader::LEN..];
        Ok((header.to_header(), rest))
    }

    /// The length of the header in bytes.
    pub fn header_len(&self) -> usize
        ensures { result ≡ 16 }
    {
        LinuxSllHeader::LEN
    }

    /// The bytes of the header.
    pub fn to_bytes(&self) -> [u8; 16]
        ensures bytes { result ≡ encoding self.now }
        // They are a header, with these fields where hardware type and number name the protocol.
        ensures header { IsSllHeader result }
        ensures fields { NamesProtocol self.now → sll_header_of result ≡ self.now }
    {
        self.encoded()
    }

    fn encoded(&self) -> [u8; 16]
        ensures bytes { result ≡ encoding self.now }
        ensures fits { Fits self.now }
    {
        let packet_type = self.packet_type.value().to_be_bytes();
        let hardware_type = self.arp_hrd_type.0.to_be_bytes();
        let address_len = self.sender_address_valid_length.to_be_bytes();
        let number = u16::from(self.protocol_type).to_be_bytes();
        let address = &self.sender_address;
        [
            packet_type[0],
            packet_type[1],
            hardware_type[0],
            hardware_type[1],
            address_len[0],
            address_len[1],
            address[0],
            address[1],
            address[2],
            address[3],
            address[4],
            address[5],
            address[6],
            address[7],
            number[0],
            number[1],
        ]
    }

    /// Appends the bytes of the header.
    pub fn write(&self, buffer: &mut Vec<u8>) -> Result<(), AllocError>
        ensures ok { OnOk result (buffer.new.items ≡ buffer.old.items ++ encoding self.now) }
        ensures len { OnOk result (vec_len buffer.new ≡ vec_len buffer.old + sll_len) }
        ensures err { OnErr result (buffer.new.items ≡ buffer.old.items) }
        // It fails only where capacity was missing, and capacity never shrinks.
        ensures succeeds { vec_len buffer.old + sll_len ≤ vec_capacity buffer.old → IsOk result }
        ensures capacity { vec_capacity buffer.old ≤ vec_capacity buffer.new }
    {
        buffer.extend_from_slice(&self.to_bytes())
    }
}
