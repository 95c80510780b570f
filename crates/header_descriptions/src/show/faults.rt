//! Faults of headers, in words.

use crate::show::line::Line;
use ep_base::LenSource;
use ep_base::err::{Layer, LenError};
use ep_ext::err::{ip_auth, ipv6_exts};
use ep_ip::err::{ipv4, ipv6};
use ep_ipslice::err::ip;
use ep_link::err::linux_sll;
use ep_tag::err::macsec;
use ep_tcpudp::err::tcp;
use std::alloc::AllocError;

/// The layer with too few bytes, how many it needs, where in what, and how many are there; or a UDP
/// length that is less than that of the header. It has no contract: tests compare the texts.
pub fn len(line: &mut Line<'_>, error: &LenError, of: &str) -> Result<(), AllocError> {
    if error.len_source == LenSource::UdpHeaderLen {
        line.counted("UDP length ", error.len as u64)?;
        return line.counted(" below ", error.required_len as u64);
    }
    line.text(layer_name(error.layer))?;
    line.counted(" cut off: ", error.required_len as u64)?;
    line.counted(" bytes needed at byte ", error.layer_start_offset as u64)?;
    line.text(of)?;
    line.counted(", ", error.len as u64)?;
    line.text(" there")?;
    line.text(source_name(error.len_source))
}

/// A header of a Linux cooked capture. It has no contract: tests compare the texts.
pub fn linux_sll(line: &mut Line<'_>, error: &linux_sll::HeaderError) -> Result<(), AllocError> {
    match error {
        linux_sll::HeaderError::UnsupportedPacketTypeField { packet_type } => {
            line.counted("cooked packet of type ", u64::from(*packet_type))
        }
        linux_sll::HeaderError::UnsupportedArpHardwareId { arp_hardware_type } => {
            line.counted(
                "cooked packet of hardware type ",
                u64::from(arp_hardware_type.0),
            )
        }
    }
}

/// An IP header of either version. It has no contract: tests compare the texts.
pub fn ip(line: &mut Line<'_>, error: &ip::HeaderError) -> Result<(), AllocError> {
    match error {
        ip::HeaderError::UnsupportedIpVersion { version_number } => {
            line.counted("IP header of version ", u64::from(*version_number))
        }
        ip::HeaderError::Ipv4HeaderLengthSmallerThanHeader { ihl } => header_length(line, *ihl),
    }
}

/// An IPv4 header. It has no contract: tests compare the texts.
pub fn ipv4(line: &mut Line<'_>, error: &ipv4::HeaderError) -> Result<(), AllocError> {
    match error {
        ipv4::HeaderError::UnexpectedVersion { version_number } => {
            line.counted("IPv4 header of version ", u64::from(*version_number))
        }
        ipv4::HeaderError::HeaderLengthSmallerThanHeader { ihl } => header_length(line, *ihl),
    }
}

fn header_length(line: &mut Line<'_>, ihl: u8) -> Result<(), AllocError> {
    line.counted("IPv4 header length ", ihl.into())?;
    line.text(" below 5")
}

/// A MACsec header. It has no contract: tests compare the texts.
pub fn macsec(line: &mut Line<'_>, error: &macsec::HeaderError) -> Result<(), AllocError> {
    line.text(match error {
        macsec::HeaderError::UnexpectedVersion => "MACsec version 1",
        macsec::HeaderError::InvalidUnmodifiedShortLen => {
            "MACsec short length 1 leaves no room for the ether type"
        }
    })
}

/// An IPv6 header. It has no contract: tests compare the texts.
pub fn ipv6(line: &mut Line<'_>, error: &ipv6::HeaderError) -> Result<(), AllocError> {
    let ipv6::HeaderError::UnexpectedVersion { version_number } = error;
    line.counted("IPv6 header of version ", u64::from(*version_number))
}

/// An authentication header. It has no contract: tests compare the texts.
pub fn ip_auth(line: &mut Line<'_>, error: &ip_auth::HeaderError) -> Result<(), AllocError> {
    let ip_auth::HeaderError::ZeroPayloadLen = error;
    line.text("authentication header of length 0")
}

/// Extension headers of IPv6. It has no contract: tests compare the texts.
pub fn ipv6_exts(line: &mut Line<'_>, error: &ipv6_exts::HeaderError) -> Result<(), AllocError> {
    match error {
        ipv6_exts::HeaderError::HopByHopNotAtStart => {
            line.text("hop-by-hop options after another header")
        }
        ipv6_exts::HeaderError::IpAuth(error) => ip_auth(line, error),
    }
}

/// A TCP header. It has no contract: tests compare the texts.
pub fn tcp(line: &mut Line<'_>, error: &tcp::HeaderError) -> Result<(), AllocError> {
    let tcp::HeaderError::DataOffsetTooSmall { data_offset } = error;
    line.counted("TCP data offset ", u64::from(*data_offset))?;
    line.text(" below 5")
}

/// A layer by its usual name. It has no contract: tests compare the texts.
pub fn layer_name(layer: Layer) -> &'static str {
    match layer {
        Layer::LinuxSllHeader => "cooked header",
        Layer::Ethernet2Header => "Ethernet header",
        Layer::EtherPayload => "Ethernet payload",
        Layer::VlanHeader => "VLAN tag",
        Layer::MacsecHeader => "MACsec header",
        Layer::MacsecPacket => "MACsec packet",
        Layer::IpHeader => "IP header",
        Layer::Ipv4Header => "IPv4 header",
        Layer::Ipv4Packet => "IPv4 packet",
        Layer::IpAuthHeader => "authentication header",
        Layer::Ipv6Header => "IPv6 header",
        Layer::Ipv6Packet => "IPv6 packet",
        Layer::Ipv6ExtHeader => "IPv6 extension header",
        Layer::Ipv6HopByHopHeader => "hop-by-hop header",
        Layer::Ipv6DestOptionsHeader => "destination options header",
        Layer::Ipv6RouteHeader => "routing header",
        Layer::Ipv6FragHeader => "fragment header",
        Layer::UdpHeader => "UDP header",
        Layer::UdpPayload => "UDP datagram",
        Layer::TcpHeader => "TCP header",
        Layer::Icmpv4 => "ICMP message",
        Layer::Icmpv4Timestamp => "ICMP timestamp request",
        Layer::Icmpv4TimestampReply => "ICMP timestamp reply",
        Layer::Icmpv6 => "ICMPv6 message",
        Layer::Arp => "ARP packet",
    }
}

// What says how many bytes are there, where the packet itself does. The address lengths of ARP say
// how many are needed, and a UDP length has words of its own.
fn source_name(source: LenSource) -> &'static str {
    match source {
        LenSource::Slice | LenSource::ArpAddrLengths | LenSource::UdpHeaderLen => "",
        LenSource::MacsecShortLength => " by the MACsec short length",
        LenSource::Ipv4HeaderTotalLen => " by the IPv4 total length",
        LenSource::Ipv6HeaderPayloadLen => " by the IPv6 payload length",
        LenSource::TcpHeaderLen => " by the TCP data offset",
    }
}
