//! The numbers that the C header names.
ghost use Rattle.std.specs.Prelude.{◌≡◌, [], ◌∷◌};
ghost use Rattle.etherparse.specs.base.declared.err.layer.Layer.TheVariants as layer;
ghost use Rattle.etherparse.specs.base.declared.len_source.LenSource.TheVariants as source;
ghost use Rattle.etherparse_structs.specs.Plan.{field_number};
ghost use Rattle.etherparse_structs.specs.Refusal.{layer_number, source_number};
ghost use Rattle.etherparse_structs.specs.Verdict.{verdict_number};
ghost use Rattle.etherparse_structs.specs.declared.plan.PlanField.TheVariants as field;
ghost use Rattle.checksum_verdicts.specs.declared.verdict.Verdict.TheVariants as verdict;

use crate::refusal::{
    REFUSAL_AUTH_HEADER_LEN, REFUSAL_HOP_BY_HOP_NOT_AT_START, REFUSAL_IP_VERSION,
    REFUSAL_IPV4_HEADER_LEN, REFUSAL_IPV4_VERSION, REFUSAL_IPV6_VERSION,
    REFUSAL_LINUX_SLL_HARDWARE_TYPE, REFUSAL_LINUX_SLL_PACKET_TYPE, REFUSAL_MACSEC_SHORT_LEN,
    REFUSAL_MACSEC_VERSION, REFUSAL_NONE, REFUSAL_TCP_DATA_OFFSET, REFUSAL_TOO_FEW_BYTES,
};
use crate::{COMPLETED, DONE, NO_MEMORY, NO_ROOM, REFUSED, WRONG_STATE};

/// The statuses of calls.
pub fn statuses() -> [u32; 6]
    ensures { result ≡ 0 ∷ 1 ∷ 2 ∷ 3 ∷ 4 ∷ 5 ∷ [] }
{
    [DONE, NO_ROOM, NO_MEMORY, REFUSED, WRONG_STATE, COMPLETED]
}

/// The kinds of refusals: of too few bytes, of each link layer, of each network layer, and of TCP.
pub fn refusal_kinds() -> [u32; 13]
    ensures { result ≡ 0 ∷ 1 ∷ 2 ∷ 3 ∷ 4 ∷ 5 ∷ 6 ∷ 7 ∷ 8 ∷ 9 ∷ 10 ∷ 11 ∷ 12 ∷ [] }
{
    [
        REFUSAL_NONE,
        REFUSAL_TOO_FEW_BYTES,
        REFUSAL_LINUX_SLL_PACKET_TYPE,
        REFUSAL_LINUX_SLL_HARDWARE_TYPE,
        REFUSAL_MACSEC_VERSION,
        REFUSAL_MACSEC_SHORT_LEN,
        REFUSAL_IP_VERSION,
        REFUSAL_IPV4_VERSION,
        REFUSAL_IPV4_HEADER_LEN,
        REFUSAL_IPV6_VERSION,
        REFUSAL_AUTH_HEADER_LEN,
        REFUSAL_HOP_BY_HOP_NOT_AT_START,
        REFUSAL_TCP_DATA_OFFSET,
    ]
}

/// The layers.
pub fn layers()
    ensures link { (layer_number layer.LinuxSllHeader ≡ 1)
        × (layer_number layer.Ethernet2Header ≡ 2) × (layer_number layer.EtherPayload ≡ 3) }
    ensures tags { (layer_number layer.VlanHeader ≡ 4) × (layer_number layer.MacsecHeader ≡ 5)
        × (layer_number layer.MacsecPacket ≡ 6) }
    ensures ipv4 { (layer_number layer.IpHeader ≡ 7) × (layer_number layer.Ipv4Header ≡ 8)
        × (layer_number layer.Ipv4Packet ≡ 9) × (layer_number layer.IpAuthHeader ≡ 10) }
    ensures ipv6 { (layer_number layer.Ipv6Header ≡ 11) × (layer_number layer.Ipv6Packet ≡ 12) }
    ensures extensions { (layer_number layer.Ipv6ExtHeader ≡ 13)
        × (layer_number layer.Ipv6HopByHopHeader ≡ 14)
        × (layer_number layer.Ipv6DestOptionsHeader ≡ 15)
        × (layer_number layer.Ipv6RouteHeader ≡ 16) × (layer_number layer.Ipv6FragHeader ≡ 17) }
    ensures udp { (layer_number layer.UdpHeader ≡ 18) × (layer_number layer.UdpPayload ≡ 19) }
    ensures tcp { layer_number layer.TcpHeader ≡ 20 }
    ensures icmp { (layer_number layer.Icmpv4 ≡ 21) × (layer_number layer.Icmpv4Timestamp ≡ 22)
        × (layer_number layer.Icmpv4TimestampReply ≡ 23) × (layer_number layer.Icmpv6 ≡ 24) }
    ensures arp { layer_number layer.Arp ≡ 25 }
{}

/// Where a length comes from.
pub fn sources()
    ensures bytes { source_number source.Slice ≡ 1 }
    ensures macsec { source_number source.MacsecShortLength ≡ 2 }
    ensures ip { (source_number source.Ipv4HeaderTotalLen ≡ 3)
        × (source_number source.Ipv6HeaderPayloadLen ≡ 4) }
    ensures transport { (source_number source.UdpHeaderLen ≡ 5)
        × (source_number source.TcpHeaderLen ≡ 6) }
    ensures arp { source_number source.ArpAddrLengths ≡ 7 }
{}

/// What may be refused of a packet to build.
pub fn plan_fields()
    ensures link { (field_number field.Link ≡ 1) × (field_number field.PacketType ≡ 2) }
    ensures tags { (field_number field.TagCount ≡ 3) × (field_number field.OuterVlanId ≡ 4)
        × (field_number field.OuterPriority ≡ 5) × (field_number field.InnerVlanId ≡ 6)
        × (field_number field.InnerPriority ≡ 7) }
    ensures ip { field_number field.IpVersion ≡ 8 }
    ensures ipv4 { (field_number field.Dscp ≡ 9) × (field_number field.Ecn ≡ 10)
        × (field_number field.FragmentOffset ≡ 11) × (field_number field.Ipv4OptionsLen ≡ 12) }
    ensures ipv6 { field_number field.FlowLabel ≡ 13 }
    ensures extensions { (field_number field.HopByHopOptions ≡ 14)
        × (field_number field.DestinationOptions ≡ 15) × (field_number field.Routing ≡ 16)
        × (field_number field.FragmentHeader ≡ 17) × (field_number field.Authentication ≡ 18)
        × (field_number field.FinalDestinationOptions ≡ 19) }
    ensures transport { (field_number field.Transport ≡ 20)
        × (field_number field.OptionsLen ≡ 21) }
    ensures arp { (field_number field.HardwareAddresses ≡ 22)
        × (field_number field.ProtocolAddresses ≡ 23) }
    ensures payload { field_number field.Payload ≡ 24 }
{}

/// The verdicts on a message that can be read: no checksum, a right one, a wrong one.
pub fn verdict_numbers()
    ensures { (verdict_number verdict.None ≡ 0) × (verdict_number verdict.Good ≡ 1)
        × (verdict_number verdict.Bad ≡ 2) }
{}
