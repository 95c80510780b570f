//! Each name of `etherparse` at the path that it has in the Rust crate.

use etherparse::checksum::{self, Sum16BitWords, u32_16bit_word, u64_16bit_word};
use etherparse::{EtherType, IpNumber, err, icmpv4, icmpv6, laws};

type Numbers = (
    etherparse::EtherType,
    etherparse::IpDscp,
    etherparse::IpDscpKnown,
    etherparse::IpDscpUnknownValueError,
    etherparse::IpEcn,
    etherparse::IpFragOffset,
    etherparse::IpNumber,
    etherparse::IpTrafficClass,
    etherparse::Ipv4Dscp,
    etherparse::Ipv4Ecn,
    etherparse::Ipv6FlowLabel,
    etherparse::LenSource,
);

type LinkHeaders<'a> = (
    etherparse::ArpEthIpv4Packet,
    etherparse::ArpHardwareId,
    etherparse::ArpOperation,
    etherparse::ArpPacket,
    etherparse::ArpPacketSlice<'a>,
    etherparse::Ethernet2Header,
    etherparse::Ethernet2HeaderSlice<'a>,
    etherparse::Ethernet2Slice<'a>,
    etherparse::LinkHeader,
    etherparse::LinkSlice<'a>,
    etherparse::LinuxSllHeader,
    etherparse::LinuxSllHeaderSlice<'a>,
    etherparse::LinuxSllPacketType,
    etherparse::LinuxSllPayloadSlice<'a>,
    etherparse::LinuxSllProtocolType,
    etherparse::LinuxSllSlice<'a>,
);

type Tags<'a> = (
    etherparse::DoubleVlanHeader,
    etherparse::DoubleVlanHeaderSlice<'a>,
    etherparse::DoubleVlanSlice<'a>,
    etherparse::EtherPayloadSlice<'a>,
    etherparse::LaxEtherPayloadSlice<'a>,
    etherparse::LaxLinkExtSlice<'a>,
    etherparse::LaxMacsecPayloadSlice<'a>,
    etherparse::LaxMacsecSlice<'a>,
    etherparse::LinkExtHeader,
    etherparse::LinkExtSlice<'a>,
    etherparse::MacsecAn,
    etherparse::MacsecHeader,
    etherparse::MacsecHeaderSlice<'a>,
    etherparse::MacsecPType,
    etherparse::MacsecPayloadSlice<'a>,
    etherparse::MacsecShortLen,
    etherparse::MacsecSlice<'a>,
    etherparse::SingleVlanHeader,
    etherparse::SingleVlanHeaderSlice<'a>,
    etherparse::SingleVlanSlice<'a>,
    etherparse::VlanHeader,
    etherparse::VlanId,
    etherparse::VlanPcp,
    etherparse::VlanSlice<'a>,
);

type IpPackets<'a> = (
    etherparse::IpHeader,
    etherparse::IpHeaders,
    etherparse::IpHeadersIpv6LaxFromSliceResult<'a>,
    etherparse::IpHeadersLaxFromSliceResult<'a>,
    etherparse::IpPayloadSlice<'a>,
    etherparse::IpSlice<'a>,
    etherparse::Ipv4Header,
    etherparse::Ipv4HeaderSlice<'a>,
    etherparse::Ipv4Options,
    etherparse::Ipv4Slice<'a>,
    etherparse::Ipv6Header,
    etherparse::Ipv6HeaderSlice<'a>,
    etherparse::Ipv6Slice<'a>,
    etherparse::LaxIpPayloadSlice<'a>,
    etherparse::LaxIpSlice<'a>,
    etherparse::LaxIpv4Slice<'a>,
    etherparse::LaxIpv6Slice<'a>,
    etherparse::LaxNetSlice<'a>,
    etherparse::NetHeaders,
    etherparse::NetSlice<'a>,
);

type Extensions<'a> = (
    etherparse::IpAuthHeader,
    etherparse::IpAuthHeaderSlice<'a>,
    etherparse::Ipv4Extensions,
    etherparse::Ipv4ExtensionsSlice<'a>,
    etherparse::Ipv6ExtSlot,
    etherparse::Ipv6ExtensionSlice<'a>,
    etherparse::Ipv6ExtensionSliceIter<'a>,
    etherparse::Ipv6Extensions,
    etherparse::Ipv6ExtensionsSlice<'a>,
    etherparse::Ipv6FragmentHeader,
    etherparse::Ipv6FragmentHeaderSlice<'a>,
    etherparse::Ipv6RawExtHeader,
    etherparse::Ipv6RawExtHeaderSlice<'a>,
    etherparse::Ipv6RoutingExtensions,
    etherparse::io::LimitedReader<&'a [u8]>,
);

type Messages<'a> = (
    etherparse::IcmpEchoHeader,
    etherparse::Icmpv4Header,
    etherparse::Icmpv4Slice<'a>,
    etherparse::Icmpv4Type,
    etherparse::Icmpv6Header,
    etherparse::Icmpv6Slice<'a>,
    etherparse::Icmpv6Type,
    etherparse::TcpHeader,
    etherparse::TcpHeaderSlice<'a>,
    etherparse::TcpOptionElement,
    etherparse::TcpOptionReadError,
    etherparse::TcpOptionWriteError,
    etherparse::TcpOptions,
    etherparse::TcpOptionsIterator<'a>,
    etherparse::TcpSlice<'a>,
    etherparse::TransportHeader,
    etherparse::TransportSlice<'a>,
    etherparse::UdpHeader,
    etherparse::UdpHeaderSlice<'a>,
    etherparse::UdpSlice<'a>,
);

type IcmpKinds = (
    icmpv4::DestUnreachableHeader,
    icmpv4::ParameterProblemHeader,
    icmpv4::RedirectCode,
    icmpv4::RedirectHeader,
    icmpv4::TimeExceededCode,
    icmpv4::TimestampMessage,
    icmpv6::DestUnreachableCode,
    icmpv6::ParameterProblemCode,
    icmpv6::ParameterProblemHeader,
    icmpv6::TimeExceededCode,
);

type Packets<'a> = (
    etherparse::Addresses,
    etherparse::Class<'a>,
    etherparse::IpFragment<'a>,
    etherparse::LaxPacketHeaders<'a>,
    etherparse::LaxPayloadSlice<'a>,
    etherparse::LaxSlicedPacket<'a>,
    etherparse::Message<'a>,
    etherparse::PacketHeaders<'a>,
    etherparse::SlicedFragment<'a>,
    etherparse::PayloadSlice<'a>,
    etherparse::SlicedPacket<'a>,
    etherparse::WholeMessage<'a>,
    etherparse::defrag::IpDefragBuf,
    etherparse::defrag::IpDefragError,
    etherparse::defrag::IpDefragPayloadVec,
    etherparse::defrag::IpDefragPool,
    etherparse::defrag::IpFragId,
    etherparse::defrag::IpFragRange,
    etherparse::defrag::IpFragVersionSpecId,
    etherparse::defrag::OverlapRule,
    etherparse::defrag::PoolCall<'a>,
    etherparse::defrag::PoolAnswer,
    etherparse::PacketBuilder,
    etherparse::PacketBuilderStep<etherparse::UdpHeader>,
    err::packet::BuildWriteError,
);

type Errors = (
    err::Layer,
    err::LenError,
    err::SliceWriteSpaceError,
    err::ValueTooBigError<u8>,
    err::ValueType,
    err::arp::ArpEthIpv4FromError,
    err::arp::ArpHwAddrError,
    err::arp::ArpNewError,
    err::arp::ArpProtoAddrError,
    err::double_vlan::HeaderError,
    err::double_vlan::HeaderSliceError,
    err::linux_sll::HeaderError,
    err::linux_sll::HeaderSliceError,
    err::macsec::HeaderError,
    err::macsec::HeaderSliceError,
    err::net::NetSetNextHeaderError,
    err::packet::SliceError,
    err::packet::TransportChecksumError,
    err::tcp::HeaderError,
    err::tcp::HeaderSliceError,
);

type ErrorsOfIp = (
    err::ip::HeaderError,
    err::ip::HeadersError,
    err::ip::HeadersSliceError,
    err::ip::HeadersWriteError,
    err::ip::IpDscpUnknownValueError,
    err::ip::LaxHeaderSliceError,
    err::ip::SliceError,
    err::ipv4::BadOptionsLen,
    err::ipv4::HeaderError,
    err::ipv4::HeaderSliceError,
    err::ipv4::SliceError,
    err::ipv6::HeaderError,
    err::ipv6::HeaderSliceError,
    err::ipv6::SliceError,
);

type ErrorsOfExtensions = (
    err::io::LimitedReadError,
    err::ip_auth::HeaderError,
    err::ip_auth::HeaderLimitedReadError,
    err::ip_auth::HeaderReadError,
    err::ip_auth::HeaderSliceError,
    err::ip_auth::IcvLenError,
    err::ip_exts::ExtsWalkError,
    err::ip_exts::HeaderError,
    err::ip_exts::HeadersSliceError,
    err::ipv4_exts::ExtsWalkError,
    err::ipv4_exts::HeaderWriteError,
    err::ipv6_exts::ExtPayloadLenError,
    err::ipv6_exts::ExtsWalkError,
    err::ipv6_exts::HeaderError,
    err::ipv6_exts::HeaderLimitedReadError,
    err::ipv6_exts::HeaderReadError,
    err::ipv6_exts::HeaderSliceError,
    err::ipv6_exts::HeaderWriteError,
);

#[test]
fn constants(rt: HostRuntime) {
    let found = (
        etherparse::ether_type::VLAN_TAGGED_FRAME,
        etherparse::ip_number::IPV6_DEST_OPTIONS,
        etherparse::tcp_option::KIND_TIMESTAMP,
        etherparse::defrag::MAX_IP_DEFRAG_LEN,
        etherparse::defrag::MAX_IP_DEFRAG_LEN_U16,
    );
    assert!(rt; found == (EtherType(0x8100), IpNumber(60), 8, 65535, 65535));
}

/// The eight bytes of RFC 1071, section 3, whose sum is ddf2.
#[test]
fn sums(rt: HostRuntime) {
    let text = [0x00, 0x01, 0xf2, 0x03, 0xf4, 0xf5, 0xf6, 0xf7];
    let checksum = 0x220du16.swap_bytes();
    let none = Sum16BitWords::new();
    let found = [
        checksum::sum_pieces(&[&text]),
        checksum::message_sum(none, &text, &[]).ones_complement(),
        u32_16bit_word::ones_complement(u32_16bit_word::add_slice(0, &text)),
        u64_16bit_word::ones_complement(u64_16bit_word::add_slice(0, &text)),
    ];
    assert!(rt; found == [checksum; 4]);
}

/// The sum of a pseudo header is that of its words: 10.0.0.1, 10.0.0.2, 17 and 16; and over IPv6 so
/// too.
#[test]
fn pseudo_sums(rt: HostRuntime) {
    let over_ipv4 = checksum::pseudo_sum_v4([10, 0, 0, 1], [10, 0, 0, 2], IpNumber::UDP, 16);
    let over_ipv6 = checksum::pseudo_sum_v6([0; 16], [0; 16], IpNumber::UDP, 16);
    let found = [over_ipv4.ones_complement(), over_ipv6.ones_complement()];
    assert!(rt; found == [0xebdbu16.swap_bytes(), 0xffdeu16.swap_bytes()]);
}

/// A law of each crate below, by its path.
#[test]
fn laws_of_crates() {
    laws::base::fold_of_pieces();
    laws::packet_builder::traits::types_are_plain_data();
    laws::defrag::traits::names_hash_all_fields::<u32>();
    laws::ext::chain_is_alone();
    laws::fragments::traits::types_are_plain_data();
    laws::icmp::traits::types_are_plain_data();
    laws::ip::traits::types_are_plain_data();
    laws::ipslice::traits::types_are_plain_data();
    laws::link::traits::types_are_plain_data();
    laws::packet::traits::types_are_plain_data();
    laws::tag::traits::types_are_plain_data();
    laws::tcpudp::traits::types_are_plain_data();
}
