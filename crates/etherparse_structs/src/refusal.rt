//! Why a packet is refused, as numbers.
ghost use Rattle.std.specs.Prelude.{◌≡◌};
ghost use Rattle.etherparse_structs.specs.Refusal.{content_refusal, layer_number, no_refusal, refusal_of};
ghost use Rattle.etherparse_structs.specs.Refusal.{source_number};

use etherparse::LenSource;
use etherparse::err::packet::SliceError;
use etherparse::err::{Layer, LenError, ip, ipv4, ipv6, ipv6_exts, linux_sll, macsec, tcp};

/// Nothing is refused.
pub const REFUSAL_NONE: u32 = 0;

/// A layer has too few bytes.
pub const REFUSAL_TOO_FEW_BYTES: u32 = 1;

/// A packet type of a Linux cooked capture above 4.
pub const REFUSAL_LINUX_SLL_PACKET_TYPE: u32 = 2;

/// A hardware type of a Linux cooked capture that isn't read; all are today.
pub const REFUSAL_LINUX_SLL_HARDWARE_TYPE: u32 = 3;

/// A MACsec version other than 0.
pub const REFUSAL_MACSEC_VERSION: u32 = 4;

/// A MACsec short length below that of the ether type.
pub const REFUSAL_MACSEC_SHORT_LEN: u32 = 5;

/// An IP version other than 4 and 6.
pub const REFUSAL_IP_VERSION: u32 = 6;

/// An IP version other than 4 where the ether type names IPv4.
pub const REFUSAL_IPV4_VERSION: u32 = 7;

/// A length of an IPv4 header (IHL) below 5.
pub const REFUSAL_IPV4_HEADER_LEN: u32 = 8;

/// An IP version other than 6 where the ether type names IPv6.
pub const REFUSAL_IPV6_VERSION: u32 = 9;

/// A payload length 0 of an authentication header.
pub const REFUSAL_AUTH_HEADER_LEN: u32 = 10;

/// Hop-by-hop options after another extension header.
pub const REFUSAL_HOP_BY_HOP_NOT_AT_START: u32 = 11;

/// A TCP data offset below 5.
pub const REFUSAL_TCP_DATA_OFFSET: u32 = 12;

/// Why a packet is refused. All fields are 0 where it isn't.
#[repr(C)]
#[derive(Drop)]
pub struct EpRefusal {
    /// Which of the refusals it is: 0 none, 1 too few bytes, and from 2 on a header that breaks its
    /// format.
    pub kind: u32,
    /// The layer at fault, numbered from 1 as the errors of `etherparse` name the layers.
    pub layer: u32,
    /// Of too few bytes: how many the layer needs.
    pub needed: usize,
    /// Of too few bytes: how many are there.
    pub there: usize,
    /// Of too few bytes: the offset of the layer's first byte.
    pub place: usize,
    /// Of too few bytes: where their number comes from.
    pub source: u32,
    /// Of a header that breaks its format: the wrong value of its field.
    pub value: u32,
}

/// Nothing is refused.
pub(crate) fn no_refusal() -> EpRefusal
    ensures { result ≡ no_refusal }
{
    content(REFUSAL_NONE, 0, 0)
}

/// The refusal by an error.
pub(crate) fn refusal(error: SliceError) -> EpRefusal
    ensures { result ≡ refusal_of error }
{
    match error {
        SliceError::Len(error) => too_few_bytes(error),
        SliceError::LinuxSll(linux_sll::HeaderError::UnsupportedPacketTypeField { packet_type }) =>
            { content(REFUSAL_LINUX_SLL_PACKET_TYPE, 1, u32::from(packet_type)) }
        SliceError::LinuxSll(
            linux_sll::HeaderError::UnsupportedArpHardwareId { arp_hardware_type },
        ) => content(
            REFUSAL_LINUX_SLL_HARDWARE_TYPE,
            1,
            u32::from(arp_hardware_type.0),
        ),
        SliceError::Macsec(macsec::HeaderError::UnexpectedVersion) => content(
            REFUSAL_MACSEC_VERSION,
            5,
            1,
        ),
        SliceError::Macsec(macsec::HeaderError::InvalidUnmodifiedShortLen) => content(
            REFUSAL_MACSEC_SHORT_LEN,
            5,
            1,
        ),
        SliceError::Ip(ip::HeaderError::UnsupportedIpVersion { version_number }) => {
            content(REFUSAL_IP_VERSION, 7, u32::from(version_number))
        }
        SliceError::Ip(ip::HeaderError::Ipv4HeaderLengthSmallerThanHeader { ihl }) => {
            content(REFUSAL_IPV4_HEADER_LEN, 8, u32::from(ihl))
        }
        SliceError::Ipv4(ipv4::HeaderError::UnexpectedVersion { version_number }) => {
            content(REFUSAL_IPV4_VERSION, 8, u32::from(version_number))
        }
        SliceError::Ipv4(ipv4::HeaderError::HeaderLengthSmallerThanHeader { ihl }) => {
            content(REFUSAL_IPV4_HEADER_LEN, 8, u32::from(ihl))
        }
        SliceError::Ipv6(ipv6::HeaderError::UnexpectedVersion { version_number }) => {
            content(REFUSAL_IPV6_VERSION, 11, u32::from(version_number))
        }
        SliceError::Ipv4Exts(_) => content(REFUSAL_AUTH_HEADER_LEN, 10, 0),
        SliceError::Ipv6Exts(ipv6_exts::HeaderError::HopByHopNotAtStart) => content(
            REFUSAL_HOP_BY_HOP_NOT_AT_START,
            14,
            0,
        ),
        SliceError::Ipv6Exts(ipv6_exts::HeaderError::IpAuth(_)) => content(
            REFUSAL_AUTH_HEADER_LEN,
            10,
            0,
        ),
        SliceError::Tcp(tcp::HeaderError::DataOffsetTooSmall { data_offset }) => {
            content(REFUSAL_TCP_DATA_OFFSET, 20, u32::from(data_offset))
        }
    }
}

fn too_few_bytes(error: LenError) -> EpRefusal
    ensures { result ≡ record {
      kind = 1;
      layer = layer_number error.layer;
      needed = error.required_len;
      there = error.len;
      place = error.layer_start_offset;
      source = source_number error.len_source;
      value = 0;
    } }
{
    EpRefusal {
        kind: REFUSAL_TOO_FEW_BYTES,
        layer: layer_number(error.layer),
        needed: error.required_len,
        there: error.len,
        place: error.layer_start_offset,
        source: source_number(error.len_source),
        value: 0,
    }
}

fn content(kind: u32, layer: u32, value: u32) -> EpRefusal
    ensures { result ≡ content_refusal kind layer value }
{
    EpRefusal {
        kind,
        layer,
        needed: 0,
        there: 0,
        place: 0,
        source: 0,
        value,
    }
}

/// The number of a layer.
pub(crate) fn layer_number(layer: Layer) -> u32
    ensures { result ≡ layer_number layer }
{
    match layer {
        Layer::LinuxSllHeader => 1,
        Layer::Ethernet2Header => 2,
        Layer::EtherPayload => 3,
        Layer::VlanHeader => 4,
        Layer::MacsecHeader => 5,
        Layer::MacsecPacket => 6,
        Layer::IpHeader => 7,
        Layer::Ipv4Header => 8,
        Layer::Ipv4Packet => 9,
        Layer::IpAuthHeader => 10,
        Layer::Ipv6Header => 11,
        Layer::Ipv6Packet => 12,
        Layer::Ipv6ExtHeader => 13,
        Layer::Ipv6HopByHopHeader => 14,
        Layer::Ipv6DestOptionsHeader => 15,
        Layer::Ipv6RouteHeader => 16,
        Layer::Ipv6FragHeader => 17,
        Layer::UdpHeader => 18,
        Layer::UdpPayload => 19,
        Layer::TcpHeader => 20,
        Layer::Icmpv4 => 21,
        Layer::Icmpv4Timestamp => 22,
        Layer::Icmpv4TimestampReply => 23,
        Layer::Icmpv6 => 24,
        Layer::Arp => 25,
    }
}

fn source_number(source: LenSource) -> u32
    ensures { result ≡ source_number source }
{
    match source {
        LenSource::Slice => 1,
        LenSource::MacsecShortLength => 2,
        LenSource::Ipv4HeaderTotalLen => 3,
        LenSource::Ipv6HeaderPayloadLen => 4,
        LenSource::UdpHeaderLen => 5,
        LenSource::TcpHeaderLen => 6,
        LenSource::ArpAddrLengths => 7,
    }
}
