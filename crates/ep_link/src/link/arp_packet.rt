//! ARP packets of addresses of any type, as values.
ghost use Rattle.std.specs.Prelude.{◌≡◌, ◌+◌, ◌*◌, ◌≤◌, ℕ, List, ◌++◌, length, Ok, Err, OnOk, OnErr, IsOk, IfOk, IfErr};
ghost use Rattle.std.specs.Prelude.{IsOkAnd, vec_len, vec_capacity};
ghost use Rattle.arrayvec.specs.ArrayVec.{array_vec_len};
ghost use Rattle.ep_link.specs.Arp.{ArpFields, IsArp, IsArpPacket, Fits, fields_of, fixed_encoding, packet_at};
ghost use Rattle.ep_link.specs.Arp.{packet_len_in, encoding, IsRead};
ghost use Rattle.ep_link.specs.ArpEthIpv4.{eth_ipv4_at};
ghost use Rattle.ep_link.specs.ArpNew.{new_at};

use super::{ArpEthIpv4Packet, ArpHardwareId, ArpOperation, ArpPacketSlice};
use crate::err::arp::{ArpEthIpv4FromError, ArpHwAddrError, ArpNewError, ArpProtoAddrError};
use arrayvec::ArrayVec;
use ep_base::EtherType;
use ep_base::err::LenError;
use std::alloc::AllocError;
use std::marker::Model;

/// An ARP packet (RFC 826). Sender and target have hardware addresses of one length and protocol
/// addresses of one length, at most 255 bytes each. A contract sees the value as its fields.
#[derive(Clone, Debug, PartialEq, Eq, Drop)]
pub struct ArpPacket {
    /// The type of the hardware addresses.
    pub hw_addr_type: ArpHardwareId,
    /// The type of the protocol addresses: the ether type of the protocol.
    pub proto_addr_type: EtherType,
    /// What the packet is for.
    pub operation: ArpOperation,
    sender_hw_addr: ArrayVec<u8, 255>,
    sender_protocol_addr: ArrayVec<u8, 255>,
    target_hw_addr: ArrayVec<u8, 255>,
    target_protocol_addr: ArrayVec<u8, 255>,
}

impl Model for ArpPacket {
    ghost Value = { ArpFields };

    ghost view = { λ p. record {
      hw_addr_type = p.hw_addr_type;
      proto_addr_type = p.proto_addr_type;
      operation = p.operation;
      sender_hw_addr = p.sender_hw_addr.items;
      sender_protocol_addr = p.sender_protocol_addr.items;
      target_hw_addr = p.target_hw_addr.items;
      target_protocol_addr = p.target_protocol_addr.items;
    } };

    ghost invariant = { λ p. (length p.sender_hw_addr.items ≡ length p.target_hw_addr.items)
        × (length p.sender_hw_addr.items ≤ 255)
        × (length p.sender_protocol_addr.items ≡ length p.target_protocol_addr.items)
        × (length p.sender_protocol_addr.items ≤ 255) };

    ghost inverse = { λ a. record {
      hw_addr_type = a.hw_addr_type;
      proto_addr_type = a.proto_addr_type;
      operation = a.operation;
      sender_hw_addr = record { items = a.sender_hw_addr };
      sender_protocol_addr = record { items = a.sender_protocol_addr };
      target_hw_addr = record { items = a.target_hw_addr };
      target_protocol_addr = record { items = a.target_protocol_addr };
    } };
}

impl ArpPacket {
    /// The length in bytes of a packet whose addresses are as long as can be.
    pub const MAX_LEN: usize = 1028;

    /// A packet of these addresses. Refused are, in this order, hardware addresses of different
    /// lengths, hardware addresses of more than 255 bytes, and the same of protocol addresses.
    pub fn new(
        hw_addr_type: ArpHardwareId,
        proto_addr_type: EtherType,
        operation: ArpOperation,
        sender_hw_addr: &[u8],
        sender_protocol_addr: &[u8],
        target_hw_addr: &[u8],
        target_protocol_addr: &[u8],
    ) -> Result<ArpPacket, ArpNewError>
        ensures { result ≡ new_at (record {
          hw_addr_type = hw_addr_type;
          proto_addr_type = proto_addr_type;
          operation = operation;
          sender_hw_addr = sender_hw_addr.now;
          sender_protocol_addr = sender_protocol_addr.now;
          target_hw_addr = target_hw_addr.now;
          target_protocol_addr = target_protocol_addr.now;
        }) }
    {
        let hw_len = sender_hw_addr.len();
        if hw_len != target_hw_addr.len() {
            let error = ArpHwAddrError::LenNonMatching(hw_len, target_hw_addr.len());
            return Err(ArpNewError::HwAddr(error));
        }
        if hw_len > 255 {
            return Err(ArpNewError::HwAddr(ArpHwAddrError::LenTooBig(hw_len)));
        }
        let proto_len = sender_protocol_addr.len();
        if proto_len != target_protocol_addr.len() {
            let error = ArpProtoAddrError::LenNonMatching(proto_len, target_protocol_addr.len());
            return Err(ArpNewError::ProtoAddr(error));
        }
        if proto_len > 255 {
            return Err(ArpNewError::ProtoAddr(ArpProtoAddrError::LenTooBig(proto_len)));
        }
        Ok(ArpPacket::of_addresses(
            hw_addr_type,
            proto_addr_type,
            operation,
            sender_hw_addr,
            sender_protocol_addr,
            target_hw_addr,
            target_protocol_addr,
        ))
    }

    // The packet of addresses that pair up.
    pub(super) fn of_addresses(
        hw_addr_type: ArpHardwareId,
        proto_addr_type: EtherType,
        operation: ArpOperation,
        sender_hw_addr: &[u8],
        sender_protocol_addr: &[u8],
        target_hw_addr: &[u8],
        target_protocol_addr: &[u8],
    ) -> ArpPacket
        requires hw { length sender_hw_addr.now ≡ length target_hw_addr.now }
        requires hw_small { length sender_hw_addr.now ≤ 255 }
        requires proto { length sender_protocol_addr.now ≡ length target_protocol_addr.now }
        requires proto_small { length sender_protocol_addr.now ≤ 255 }
        ensures { result ≡ record {
          hw_addr_type = hw_addr_type;
          proto_addr_type = proto_addr_type;
          operation = operation;
          sender_hw_addr = sender_hw_addr.now;
          sender_protocol_addr = sender_protocol_addr.now;
          target_hw_addr = target_hw_addr.now;
          target_protocol_addr = target_protocol_addr.now;
        } }
    {
        ArpPacket {
            hw_addr_type,
            proto_addr_type,
            operation,
            sender_hw_addr: address_of(sender_hw_addr),
            sender_protocol_addr: address_of(sender_protocol_addr),
            target_hw_addr: address_of(target_hw_addr),
            target_protocol_addr: address_of(target_protocol_addr),
        }
    }

    /// The packet at the start of the slice. Refused are, in this order, a slice of fewer than
    /// 8 bytes, and one that the four addresses don't fit, whose length is then bounded by
    /// `ArpAddrLengths`.
    pub fn from_slice(slice: &[u8]) -> Result<ArpPacket, LenError>
        // The start of the slice is a packet, and is read so.
        ensures found { IfOk result (λ a. IsRead slice.now a) }
        // A prefix that is a packet is read.
        ensures only { (prefix rest : List ℕ) → IsArpPacket prefix → slice.now ≡ prefix ++ rest
            → result ≡ Ok (fields_of prefix) }
        // Else it is the first error of too few bytes.
        ensures err { IfErr result (λ e. packet_at slice.now ≡ Err e) }
        ensures offset { IfErr result (λ e. e.layer_start_offset ≡ 0) }
    {
        let packet = ArpPacketSlice::from_slice(slice)?;
        Ok(packet.to_packet())
    }

    /// The packet as one between Ethernet and IPv4 addresses. Refused are, in this order, hardware
    /// addresses of another type than Ethernet's, protocol addresses of another type than IPv4's,
    /// hardware addresses that haven't 6 bytes, and protocol addresses that haven't 4.
    pub fn try_eth_ipv4(&self) -> Result<ArpEthIpv4Packet, ArpEthIpv4FromError>
        ensures { result ≡ eth_ipv4_at self.now }
    {
        if self.hw_addr_type != ArpHardwareId::ETHERNET {
            return Err(ArpEthIpv4FromError::NonMatchingHwType(self.hw_addr_type));
        }
        if self.proto_addr_type != EtherType::IPV4 {
            return Err(ArpEthIpv4FromError::NonMatchingProtocolType(self.proto_addr_type));
        }
        if self.hw_addr_size() != 6 {
            return Err(ArpEthIpv4FromError::NonMatchingHwAddrSize(self.hw_addr_size()));
        }
        if self.protocol_addr_size() != 4 {
            return Err(ArpEthIpv4FromError::NonMatchingProtoAddrSize(self.protocol_addr_size()));
        }
        Ok(ArpEthIpv4Packet {
            operation: self.operation,
            sender_mac: self.sender_hw_addr().try_into().unwrap(),
            sender_ipv4: self.sender_protocol_addr().try_into().unwrap(),
            target_mac: self.target_hw_addr().try_into().unwrap(),
            target_ipv4: self.target_protocol_addr().try_into().unwrap(),
        })
    }

    /// The length of a hardware address in bytes.
    pub fn hw_addr_size(&self) -> u8
        ensures { result ≡ length self.now.sender_hw_addr }
    {
        self.sender_hw_addr.len() as u8
    }

    /// The length of a protocol address in bytes.
    pub fn protocol_addr_size(&self) -> u8
        ensures { result ≡ length self.now.sender_protocol_addr }
    {
        self.sender_protocol_addr.len() as u8
    }

    /// The sender's hardware address.
    pub fn sender_hw_addr(&self) -> &[u8]
        ensures { result.now ≡ self.now.sender_hw_addr }
    {
        self.sender_hw_addr.as_slice()
    }

    /// The sender's protocol address.
    pub fn sender_protocol_addr(&self) -> &[u8]
        ensures { result.now ≡ self.now.sender_protocol_addr }
    {
        self.sender_protocol_addr.as_slice()
    }

    /// The target's hardware address.
    pub fn target_hw_addr(&self) -> &[u8]
        ensures bytes { result.now ≡ self.now.target_hw_addr }
        ensures len { length result.now ≡ length self.now.sender_hw_addr }
    {
        self.target_hw_addr.as_slice()
    }

    /// The target's protocol address.
    pub fn target_protocol_addr(&self) -> &[u8]
        ensures bytes { result.now ≡ self.now.target_protocol_addr }
        ensures len { length result.now ≡ length self.now.sender_protocol_addr }
    {
        self.target_protocol_addr.as_slice()
    }

    /// The length of the packet in bytes: 8, and two hardware and two protocol addresses.
    pub fn packet_len(&self) -> usize
        ensures len { result ≡ packet_len_in self.now }
        ensures most { result ≤ 1028 }
    {
        8 + 2 * self.sender_hw_addr.len() + 2 * self.sender_protocol_addr.len()
    }

    /// The bytes of the packet.
    pub fn to_bytes(&self) -> ArrayVec<u8, 1028>
        ensures bytes { result.items ≡ encoding self.now }
        // They are a packet, with these fields.
        ensures packet { IsArpPacket result.items }
        ensures fields { fields_of result.items ≡ self.now }
    {
        self.encoded()
    }

    fn encoded(&self) -> ArrayVec<u8, 1028>
        ensures bytes { result.items ≡ encoding self.now }
        ensures fits { Fits self.now }
        ensures arp { IsArp self.now }
    {
        let _packet = &self.sender_hw_addr;
        let fixed_part = self.fixed_part();
        let mut bytes = ArrayVec::new();
        bytes.try_extend_from_slice(&fixed_part).unwrap();
        bytes.try_extend_from_slice(self.sender_hw_addr()).unwrap();
        bytes
            .try_extend_from_slice(self.sender_protocol_addr())
            .unwrap();
        bytes.try_extend_from_slice(self.target_hw_addr()).unwrap();
        bytes
            .try_extend_from_slice(self.target_protocol_addr())
            .unwrap();
        bytes
    }

    fn fixed_part(&self) -> [u8; 8]
        ensures bytes { result ≡ fixed_encoding self.now }
        ensures fits { Fits self.now }
    {
        let hw_type = self.hw_addr_type.0.to_be_bytes();
        let proto_type = self.proto_addr_type.0.to_be_bytes();
        let operation = self.operation.0.to_be_bytes();
        [
            hw_type[0],
            hw_type[1],
            proto_type[0],
            proto_type[1],
            self.hw_addr_size(),
            self.protocol_addr_size(),
            operation[0],
            operation[1],
        ]
    }

    /// Appends the bytes of the packet.
    pub fn write(&self, buffer: &mut Vec<u8>) -> Result<(), AllocError>
        ensures ok { OnOk result (buffer.new.items ≡ buffer.old.items ++ encoding self.now) }
        ensures len { OnOk result (vec_len buffer.new
            ≡ vec_len buffer.old + packet_len_in self.now) }
        ensures err { OnErr result (buffer.new.items ≡ buffer.old.items) }
        // It fails only where capacity was missing, and capacity never shrinks.
        ensures succeeds { vec_len buffer.old + packet_len_in self.now ≤ vec_capacity buffer.old
            → IsOk result }
        ensures capacity { vec_capacity buffer.old ≤ vec_capacity buffer.new }
    {
        let bytes = self.to_bytes();
        buffer.extend_from_slice(bytes.as_slice())
    }
}

fn address_of(bytes: &[u8]) -> ArrayVec<u8, 255>
    requires { length bytes.now ≤ 255 }
    ensures { result.items ≡ bytes.now }
{
    let mut address = ArrayVec::new();
    address.try_extend_from_slice(bytes).unwrap();
    address
}
