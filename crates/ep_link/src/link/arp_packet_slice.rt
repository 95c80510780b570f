//! ARP packets as borrowed bytes.
ghost use Rattle.std.specs.Prelude.{◌≡◌, ◌≤◌, ◌+◌, ◌*◌, ℕ, List, length, IfErr, nat_eq};
ghost use Rattle.std.specs.Cmp.Lexicographic.{pointwise};
ghost use Rattle.std.specs.Cmp.Rules.{comparing};
ghost use Rattle.std.proofs.Common.{rules};
ghost use Rattle.ep_link.specs.Arp.{IsArpPacket, packet_at, hw_len_of, proto_len_of, hw_type_of};
ghost use Rattle.ep_link.specs.Arp.{proto_type_of, operation_of, addresses_of, after_sender_hw, after_sender};
ghost use Rattle.ep_link.specs.Arp.{after_target_hw, sender_hw_of, sender_proto_of, target_hw_of, target_proto_of};
ghost use Rattle.ep_link.specs.Arp.{fields_of};
ghost use Rattle.ep_base.specs.LenError.{too_few_bytes};
ghost use Rattle.ep_base.specs.declared.err.layer.Layer.TheVariants as layer;
ghost use Rattle.ep_base.specs.declared.len_source.LenSource.TheVariants.{ArpAddrLengths};

use super::{ArpHardwareId, ArpOperation, ArpPacket};
use ep_base::err::{Layer, LenError};
use ep_base::{EtherType, LenSource};
use std::marker::Model;

/// The bytes of an ARP packet (RFC 826), borrowed: 8, and two hardware and two protocol addresses
/// as long as the packet says. They were tested when the value was made. A contract sees the value
/// as those bytes.
#[derive(Clone, Debug, Drop)]
pub struct ArpPacketSlice<'a> {
    slice: &'a [u8],
}

impl<'a> Model for ArpPacketSlice<'a> {
    ghost Value = { List ℕ };

    ghost view = { λ packet. packet.slice.now };

    ghost invariant = { λ packet. IsArpPacket packet.slice.now };
}

impl<'a> ArpPacketSlice<'a> {
    /// The packet at the start of the slice. Refused are, in this order, a slice of fewer than
    /// 8 bytes, and one that the four addresses don't fit, whose length is then bounded by
    /// `ArpAddrLengths`.
    pub fn from_slice(slice: &'a [u8]) -> Result<ArpPacketSlice<'a>, LenError>
        // The packet, or the first error of too few bytes: law `arp::packets_are_found`.
        ensures exact { result ≡ packet_at slice.now }
        ensures offset { IfErr result (λ e. e.layer_start_offset ≡ 0) }
    {
        if slice.len() < 8 {
            return Err(LenError::too_few_bytes(Layer::Arp, 8, slice.len()));
        }
        let packet_len = 8 + 2 * usize::from(slice[4]) + 2 * usize::from(slice[5]);
        if slice.len() < packet_len {
            return Err(addresses_cut(packet_len, slice.len()));
        }
        Ok(ArpPacketSlice {
            slice: &slice[..packet_len],
        })
    }

    /// The packet's bytes.
    pub fn slice(&self) -> &'a [u8]
        ensures bytes { result.now ≡ self.now }
        ensures packet { IsArpPacket self.now }
    {
        self.slice
    }

    /// The type of the hardware addresses.
    pub fn hw_addr_type(&self) -> ArpHardwareId
        ensures { result ≡ hw_type_of self.now }
    {
        ArpHardwareId(u16::from_be_bytes([self.slice[0], self.slice[1]]))
    }

    /// The type of the protocol addresses: the ether type of the protocol.
    pub fn proto_addr_type(&self) -> EtherType
        ensures { result ≡ proto_type_of self.now }
    {
        EtherType(u16::from_be_bytes([self.slice[2], self.slice[3]]))
    }

    /// The length of a hardware address in bytes.
    pub fn hw_addr_size(&self) -> u8
        ensures { result ≡ hw_len_of self.now }
    {
        self.slice[4]
    }

    /// The length of a protocol address in bytes.
    pub fn proto_addr_size(&self) -> u8
        ensures { result ≡ proto_len_of self.now }
    {
        self.slice[5]
    }

    /// What the packet is for.
    pub fn operation(&self) -> ArpOperation
        ensures { result ≡ operation_of self.now }
    {
        ArpOperation(u16::from_be_bytes([self.slice[6], self.slice[7]]))
    }

    /// The sender's hardware address.
    pub fn sender_hw_addr(&self) -> &'a [u8]
        ensures bytes { result.now ≡ sender_hw_of self.now }
        ensures len { length result.now ≡ hw_len_of self.now }
        ensures most { length result.now ≤ 255 }
    {
        let hw_len = usize::from(self.slice[4]);
        let (address, _) = self.addresses().split_at(hw_len);
        address
    }

    /// The sender's protocol address.
    pub fn sender_protocol_addr(&self) -> &'a [u8]
        ensures bytes { result.now ≡ sender_proto_of self.now }
        ensures len { length result.now ≡ proto_len_of self.now }
        ensures most { length result.now ≤ 255 }
    {
        let proto_len = usize::from(self.slice[5]);
        let (address, _) = self.after_sender_hw().split_at(proto_len);
        address
    }

    /// The target's hardware address.
    pub fn target_hw_addr(&self) -> &'a [u8]
        ensures bytes { result.now ≡ target_hw_of self.now }
        ensures len { length result.now ≡ hw_len_of self.now }
        ensures most { length result.now ≤ 255 }
    {
        let hw_len = usize::from(self.slice[4]);
        let (address, _) = self.after_sender().split_at(hw_len);
        address
    }

    /// The target's protocol address.
    pub fn target_protocol_addr(&self) -> &'a [u8]
        ensures bytes { result.now ≡ target_proto_of self.now }
        ensures len { length result.now ≡ proto_len_of self.now }
        ensures most { length result.now ≤ 255 }
    {
        let proto_len = usize::from(self.slice[5]);
        let (address, _) = self.after_target_hw().split_at(proto_len);
        address
    }

    // The four addresses, one after the other, and what is left of them after each.

    fn addresses(&self) -> &'a [u8]
        ensures bytes { result.now ≡ addresses_of self.now }
        ensures len { length result.now ≡ 2 * hw_len_of self.now + 2 * proto_len_of self.now }
    {
        let (_, rest) = self.slice.split_at(8);
        rest
    }

    fn after_sender_hw(&self) -> &'a [u8]
        ensures bytes { result.now ≡ after_sender_hw self.now }
        ensures len { length result.now ≡ hw_len_of self.now + 2 * proto_len_of self.now }
    {
        let hw_len = usize::from(self.slice[4]);
        let (_, rest) = self.addresses().split_at(hw_len);
        rest
    }

    fn after_sender(&self) -> &'a [u8]
        ensures bytes { result.now ≡ after_sender self.now }
        ensures len { length result.now ≡ hw_len_of self.now + proto_len_of self.now }
    {
        let proto_len = usize::from(self.slice[5]);
        let (_, rest) = self.after_sender_hw().split_at(proto_len);
        rest
    }

    fn after_target_hw(&self) -> &'a [u8]
        ensures bytes { result.now ≡ after_target_hw self.now }
        ensures len { length result.now ≡ proto_len_of self.now }
    {
        let hw_len = usize::from(self.slice[4]);
        let (_, rest) = self.after_sender().split_at(hw_len);
        rest
    }

    /// The fields, with the addresses copied.
    pub fn to_packet(&self) -> ArpPacket
        ensures { result ≡ fields_of self.now }
    {
        ArpPacket::of_addresses(
            self.hw_addr_type(),
            self.proto_addr_type(),
            self.operation(),
            self.sender_hw_addr(),
            self.sender_protocol_addr(),
            self.target_hw_addr(),
            self.target_protocol_addr(),
        )
    }
}

// The address lengths need so many bytes, and fewer are there.
fn addresses_cut(required_len: usize, len: usize) -> LenError
    ensures { result
        ≡ record (too_few_bytes layer.Arp required_len len) { len_source = ArpAddrLengths } }
{
    LenError {
        len_source: LenSource::ArpAddrLengths,
        ..LenError::too_few_bytes(Layer::Arp, required_len, len)
    }
}

impl<'a> PartialEq for ArpPacketSlice<'a> {
    ghost eq = { pointwise nat_eq };

    ghost laws = { Prim.search (comparing, rules) };

    fn eq(&self, other: &Self) -> bool {
        self.slice == other.slice
    }
}

impl<'a> Eq for ArpPacketSlice<'a> {
    ghost laws = { Prim.search (comparing, rules) };
}
