//! What `Clone`, `PartialEq`, `Ord`, `Default` and `Hash` of the types here mean, each clause about
//! the relation that the type's own impl names.
ghost use Rattle.std.specs.Prelude.{◌≡◌, ◌++◌, ℕ, pos};
ghost use Rattle.std.specs.Cmp.Lexicographic.{slice_cmp};
ghost use Rattle.std.specs.Hash as fed;
ghost use Rattle.std.specs.Ordering.{nat_cmp};
ghost use Rattle.ep_base.specs.Traits.{DefaultIs, HashIsOf, IsPlainData, OrderIsOf, VariantFeeds};
ghost use Rattle.ep_link.specs.Sll.{protocol_number};
ghost use Rattle.ep_link.specs.SllPayload.{kind_index, protocol_ordered_as};
ghost use Rattle.ep_link.specs.declared.err.arp.arp_eth_ipv4_from_error.ArpEthIpv4FromError.TheVariants as from;
ghost use Rattle.ep_link.specs.declared.err.arp.arp_hw_addr_error.ArpHwAddrError.TheVariants as hardware;
ghost use Rattle.ep_link.specs.declared.err.arp.arp_new_error.ArpNewError.TheVariants as new;
ghost use Rattle.ep_link.specs.declared.err.arp.arp_proto_addr_error.ArpProtoAddrError.TheVariants as protocol;
ghost use Rattle.ep_link.specs.declared.err.linux_sll.header_error.HeaderError.TheVariants as cooked;
ghost use Rattle.ep_link.specs.declared.link.arp_hardware_id.ArpHardwareId.{ArpHardwareId};
ghost use Rattle.ep_link.specs.declared.link.arp_operation.ArpOperation.{ArpOperation};
ghost use Rattle.ep_link.specs.declared.link.linux_sll_protocol_type.LinuxSllProtocolType.{LinuxSllProtocolType};

use crate::err::{arp, linux_sll};
use crate::{
    ArpEthIpv4Packet, ArpHardwareId, ArpOperation, ArpPacket, ArpPacketSlice, Ethernet2Header,
    Ethernet2HeaderSlice, Ethernet2Slice, LinkHeader, LinkSlice, LinuxSllHeader,
    LinuxSllHeaderSlice, LinuxSllPacketType, LinuxSllPayloadSlice, LinuxSllProtocolType,
    LinuxSllSlice,
};
use ep_base::EtherType;
use ep_base::laws::traits::Value;
use std::hash::Hash;

/// A copy is the value and takes no memory. Equal are the values that are the same: all fields of a
/// header, packet or error, all bytes of a slice, and the kind of link or fault.
pub fn types_are_plain_data<'a>()
    ensures arp_hardware_id { IsPlainData ⟦<ArpHardwareId as Value>⟧ }
    ensures arp_operation { IsPlainData ⟦<ArpOperation as Value>⟧ }
    ensures linux_sll_packet_type { IsPlainData ⟦<LinuxSllPacketType as Value>⟧ }
    ensures arp_packet { IsPlainData ⟦<ArpPacket as Value>⟧ }
    ensures arp_eth_ipv4_packet { IsPlainData ⟦<ArpEthIpv4Packet as Value>⟧ }
    ensures ethernet2_header { IsPlainData ⟦<Ethernet2Header as Value>⟧ }
    ensures linux_sll_header { IsPlainData ⟦<LinuxSllHeader as Value>⟧ }
    ensures linux_sll_protocol_type { IsPlainData ⟦<LinuxSllProtocolType as Value>⟧ }
    ensures link_header { IsPlainData ⟦<LinkHeader as Value>⟧ }
    ensures arp_packet_slice { IsPlainData ⟦<ArpPacketSlice<'a> as Value>⟧ }
    ensures ethernet2_header_slice { IsPlainData ⟦<Ethernet2HeaderSlice<'a> as Value>⟧ }
    ensures ethernet2_slice { IsPlainData ⟦<Ethernet2Slice<'a> as Value>⟧ }
    ensures linux_sll_header_slice { IsPlainData ⟦<LinuxSllHeaderSlice<'a> as Value>⟧ }
    ensures linux_sll_slice { IsPlainData ⟦<LinuxSllSlice<'a> as Value>⟧ }
    ensures linux_sll_payload_slice { IsPlainData ⟦<LinuxSllPayloadSlice<'a> as Value>⟧ }
    ensures link_slice { IsPlainData ⟦<LinkSlice<'a> as Value>⟧ }
    ensures arp_hw_addr_error { IsPlainData ⟦<arp::ArpHwAddrError as Value>⟧ }
    ensures arp_proto_addr_error { IsPlainData ⟦<arp::ArpProtoAddrError as Value>⟧ }
    ensures arp_new_error { IsPlainData ⟦<arp::ArpNewError as Value>⟧ }
    ensures arp_eth_ipv4_from_error { IsPlainData ⟦<arp::ArpEthIpv4FromError as Value>⟧ }
    ensures linux_sll_header_error { IsPlainData ⟦<linux_sll::HeaderError as Value>⟧ }
{
    ep_base::laws::traits::types_are_plain_data();
    ep_tag::laws::traits::types_are_plain_data();
}

/// Numbers are ordered as numbers.
pub fn orders_are_of_numbers()
    ensures arp_hardware_id { OrderIsOf (λ id. id.0) ⟦<ArpHardwareId as Ord>⟧.cmp }
    ensures arp_operation { OrderIsOf (λ operation. operation.0) ⟦<ArpOperation as Ord>⟧.cmp }
    ensures linux_sll_packet_type { OrderIsOf (λ n. n) ⟦<LinuxSllPacketType as Ord>⟧.cmp }
{}

/// Protocols are ordered by their kind, as it is declared, then by their number; a hasher is fed
/// both.
pub fn protocols_by_kind_and_number()
    ensures order { (a b : LinuxSllProtocolType) → ⟦<LinuxSllProtocolType as Ord>⟧.cmp a b
        ≡ slice_cmp nat_cmp (protocol_ordered_as a) (protocol_ordered_as b) }
    ensures hash { HashIsOf (λ p. fed.isize (pos (kind_index p)) ++ fed.u16 (protocol_number p))
        ⟦<LinuxSllProtocolType as Hash>⟧.hash_input }
{}

/// The number 0 is the default.
pub fn defaults_are_zero()
    ensures arp_hardware_id { DefaultIs (record { 0 = 0 })
        ⟦<ArpHardwareId as Default>⟧.is_default }
    ensures arp_operation { DefaultIs (record { 0 = 0 }) ⟦<ArpOperation as Default>⟧.is_default }
{}

/// A hasher is fed a number as it is.
pub fn hashes_are_of_numbers()
    ensures arp_hardware_id { HashIsOf (λ id. fed.u16 id.0) ⟦<ArpHardwareId as Hash>⟧.hash_input }
    ensures arp_operation { HashIsOf (λ operation. fed.u16 operation.0)
        ⟦<ArpOperation as Hash>⟧.hash_input }
    ensures linux_sll_packet_type { HashIsOf fed.u16 ⟦<LinuxSllPacketType as Hash>⟧.hash_input }
{}

/// A hasher is fed which error one is, as they are declared, and then all its fields.
pub fn errors_hash_all_fields()
    ensures hardware_lens { (m n : ℕ) → ⟦<arp::ArpHwAddrError as Hash>⟧.hash_input
        (hardware.LenNonMatching m n) ≡ fed.isize (pos 0) ++ fed.usize m ++ fed.usize n }
    ensures hardware_len { VariantFeeds ⟦<arp::ArpHwAddrError as Hash>⟧.hash_input
        1 hardware.LenTooBig fed.usize }
    ensures protocol_lens { (m n : ℕ) → ⟦<arp::ArpProtoAddrError as Hash>⟧.hash_input
        (protocol.LenNonMatching m n) ≡ fed.isize (pos 0) ++ fed.usize m ++ fed.usize n }
    ensures protocol_len { VariantFeeds ⟦<arp::ArpProtoAddrError as Hash>⟧.hash_input
        1 protocol.LenTooBig fed.usize }
    ensures hardware { VariantFeeds ⟦<arp::ArpNewError as Hash>⟧.hash_input
        0 new.HwAddr ⟦<arp::ArpHwAddrError as Hash>⟧.hash_input }
    ensures protocol { VariantFeeds ⟦<arp::ArpNewError as Hash>⟧.hash_input
        1 new.ProtoAddr ⟦<arp::ArpProtoAddrError as Hash>⟧.hash_input }
    ensures hardware_type { VariantFeeds ⟦<arp::ArpEthIpv4FromError as Hash>⟧.hash_input
        0 from.NonMatchingHwType ⟦<ArpHardwareId as Hash>⟧.hash_input }
    ensures protocol_type { VariantFeeds ⟦<arp::ArpEthIpv4FromError as Hash>⟧.hash_input
        1 from.NonMatchingProtocolType ⟦<EtherType as Hash>⟧.hash_input }
    ensures hardware_size { VariantFeeds ⟦<arp::ArpEthIpv4FromError as Hash>⟧.hash_input
        2 from.NonMatchingHwAddrSize fed.u8 }
    ensures protocol_size { VariantFeeds ⟦<arp::ArpEthIpv4FromError as Hash>⟧.hash_input
        3 from.NonMatchingProtoAddrSize fed.u8 }
    ensures packet_type { VariantFeeds ⟦<linux_sll::HeaderError as Hash>⟧.hash_input
        0 cooked.UnsupportedPacketTypeField fed.u16 }
    ensures hardware_id { VariantFeeds ⟦<linux_sll::HeaderError as Hash>⟧.hash_input
        1 cooked.UnsupportedArpHardwareId ⟦<ArpHardwareId as Hash>⟧.hash_input }
{}
