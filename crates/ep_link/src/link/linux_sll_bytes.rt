//! The bytes of the header of a Linux cooked capture, alone or with what follows it.
ghost use Rattle.std.specs.Prelude.{◌≡◌, ◌≤◌, ℕ, List, length, nat_eq};
ghost use Rattle.std.specs.Cmp.Lexicographic.{pointwise};
ghost use Rattle.std.specs.Cmp.Rules.{comparing};
ghost use Rattle.std.proofs.Common.{rules};
ghost use Rattle.ep_base.specs.Bytes.{num};
ghost use Rattle.ep_link.specs.Sll.{sll_len, greatest_packet_type, packet_type_of, hardware_type_of, address_len_of};
ghost use Rattle.ep_link.specs.Sll.{address_of, protocol_of, sll_header_of};

use super::{ArpHardwareId, LinuxSllHeader, LinuxSllPacketType, LinuxSllProtocolType};
use std::fmt;
use std::marker::Model;

/// The header of a Linux cooked capture (libpcap's page on LINKTYPE_LINUX_SLL), borrowed: a slice
/// of at most `MOST` bytes that begins with the header. A contract sees the value as those bytes.
#[derive(Clone, Drop)]
pub struct LinuxSllBytes<'a, const MOST: usize> {
    pub(super) slice: &'a [u8],
}

impl<'a, const MOST: usize> Model for LinuxSllBytes<'a, MOST> {
    ghost Value = { List ℕ };

    ghost view = { λ packet. packet.slice.now };

    ghost invariant = { λ packet. (sll_len ≤ length packet.slice.now)
        × (packet_type_of packet.slice.now ≤ greatest_packet_type)
        × (length packet.slice.now ≤ MOST) };
}

impl<'a, const MOST: usize> LinuxSllBytes<'a, MOST> {
    /// Who the packet was sent to, or by.
    pub fn packet_type(&self) -> LinuxSllPacketType
        ensures { result ≡ packet_type_of self.now }
    {
        LinuxSllPacketType::try_from(u16::from_be_bytes([self.slice[0], self.slice[1]])).unwrap()
    }

    /// The type of the link.
    pub fn arp_hrd_type(&self) -> ArpHardwareId
        ensures { result ≡ hardware_type_of self.now }
    {
        ArpHardwareId(u16::from_be_bytes([self.slice[2], self.slice[3]]))
    }

    /// How many bytes of the address are the sender's.
    pub fn sender_address_valid_length(&self) -> u16
        ensures { result ≡ address_len_of self.now }
    {
        u16::from_be_bytes([self.slice[4], self.slice[5]])
    }

    /// The sender's link address, and bytes without meaning after it.
    pub fn sender_address(&self) -> [u8; 8]
        ensures { result ≡ address_of self.now }
    {
        self.slice[6..14].try_into().unwrap()
    }

    /// What follows the header.
    pub fn protocol_type(&self) -> LinuxSllProtocolType
        ensures { result ≡ protocol_of (hardware_type_of self.now) (num self.now 14 2) }
    {
        let number = u16::from_be_bytes([self.slice[14], self.slice[15]]);
        LinuxSllProtocolType::from((self.arp_hrd_type(), number))
    }

    /// The fields of the header.
    pub fn to_header(&self) -> LinuxSllHeader
        ensures { result ≡ sll_header_of self.now }
    {
        LinuxSllHeader {
            packet_type: self.packet_type(),
            arp_hrd_type: self.arp_hrd_type(),
            sender_address_valid_length: self.sender_address_valid_length(),
            sender_address: self.sender_address(),
            protocol_type: self.protocol_type(),
        }
    }
}

impl<'a, const MOST: usize> fmt::Debug for LinuxSllBytes<'a, MOST> {
    fn fmt<W: fmt::Write>(&self, f: &mut fmt::Formatter<W>) -> fmt::Result {
        let name = if MOST == LinuxSllHeader::LEN {
            "LinuxSllHeaderSlice"
        } else {
            "LinuxSllSlice"
        };
        f.debug_struct(name).field("slice", &self.slice).finish()
    }
}

impl<'a, const MOST: usize> PartialEq for LinuxSllBytes<'a, MOST> {
    ghost eq = { pointwise nat_eq };

    ghost laws = { Prim.search (comparing, rules) };

    fn eq(&self, other: &Self) -> bool {
        self.slice == other.slice
    }
}

impl<'a, const MOST: usize> Eq for LinuxSllBytes<'a, MOST> {
    ghost laws = { Prim.search (comparing, rules) };
}
