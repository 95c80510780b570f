//! Bounded numbers, named code points and ether types.

use crate::checks::{equal, reads, shows};
use ep_base::{
    EtherType, IpDscp, IpDscpKnown, IpEcn, IpFragOffset, Ipv4Dscp, Ipv4Ecn, Ipv6FlowLabel,
    LenSource, ether_type,
};

#[test]
fn refused_numbers(rt: HostRuntime) {
    let offset =
        "Err(ValueTooBigError { actual: 8192, max_allowed: 8191, value_type: IpFragmentOffset })";
    shows(rt, &IpFragOffset::try_new(8192), offset);
    let dscp = "Err(ValueTooBigError { actual: 64, max_allowed: 63, value_type: IpDscp })";
    shows(rt, &IpDscp::try_from(64), dscp);
    let label = "Err(ValueTooBigError { actual: 1048576, max_allowed: 1048575, \
        value_type: Ipv6FlowLabel })";
    shows(rt, &Ipv6FlowLabel::try_new(1048576), label);
    let ecn = "Err(ValueTooBigError { actual: 4, max_allowed: 3, value_type: IpEcn })";
    shows(rt, &IpEcn::try_new(4), ecn);
}

fn offset(value: u16) -> IpFragOffset {
    IpFragOffset::try_new(value).unwrap_or(IpFragOffset::ZERO)
}

fn label(value: u32) -> Ipv6FlowLabel {
    Ipv6FlowLabel::try_new(value).unwrap_or(Ipv6FlowLabel::ZERO)
}

#[test]
fn accepted_numbers(rt: HostRuntime) {
    shows(rt, &IpFragOffset::try_from(7), "Ok(IpFragOffset(7))");
    equal(rt, offset(8191).byte_offset(), 65528);
    shows(rt, &Ipv4Dscp::try_from(46), "Ok(IpDscp(46))");
    equal(rt, IpDscp::try_new(63), Ok(IpDscp::MAX));
    equal(rt, IpDscp::MAX.value(), 63);
    shows(
        rt,
        &Ipv6FlowLabel::try_from(1048575),
        "Ok(Ipv6FlowLabel(1048575))",
    );
    equal(rt, Ipv6FlowLabel::MAX_U32, 1048575);
    equal(rt, IpEcn::try_from(3), Ok(IpEcn::CongestionExperienced));
}

#[test]
fn default_numbers(rt: HostRuntime) {
    equal(rt, IpFragOffset::default(), IpFragOffset::ZERO);
    equal(rt, IpDscp::default(), IpDscp::CS0);
    equal(rt, Ipv6FlowLabel::default(), Ipv6FlowLabel::ZERO);
    equal(rt, IpEcn::default(), IpEcn::ZERO);
    equal(rt, u32::from(Ipv6FlowLabel::ZERO), 0);
    equal(rt, u8::from(Ipv4Ecn::Ect0), 2);
}

#[test]
fn middle_values(rt: HostRuntime) {
    equal(rt, u16::from(offset(1234)), 1234);
    equal(rt, offset(1234).byte_offset(), 9872);
    equal(rt, u32::from(label(0xabcde)), 703710);
    equal(rt, label(0xabcde).value(), 703710);
    equal(rt, u8::from(IpDscp::EF), 46);
    equal(rt, u8::from(IpEcn::Ect1), 1);
    equal(rt, u16::from(EtherType(0x1234)), 4660);
}

#[test]
fn texts_of_numbers(rt: HostRuntime) {
    reads(rt, &IpDscp::EF, "46");
    reads(rt, &IpEcn::Ect0, "2");
    reads(rt, &offset(1234), "1234");
    reads(rt, &label(0xabcde), "703710");
}

#[test]
fn orders_and_copies(rt: HostRuntime) {
    equal(rt, (offset(7) < offset(8)), true);
    equal(rt, (label(256) > label(255)), true);
    equal(rt, (EtherType::IPV4 < EtherType::ARP), true);
    equal(rt, (IpEcn::Ect1 < IpEcn::Ect0), true);
    equal(rt, (IpDscp::CS1 < IpDscp::AF11), true);
    let dscp: Result<_, _> = IpDscp::EF.clone();
    equal(rt, dscp, Ok(IpDscp::EF));
    let len_source: Result<_, _> = LenSource::UdpHeaderLen.clone();
    equal(rt, len_source, Ok(LenSource::UdpHeaderLen));
}

// In ascending order.
const SOURCES: [LenSource; 7] = [
    LenSource::Slice,
    LenSource::MacsecShortLength,
    LenSource::Ipv4HeaderTotalLen,
    LenSource::Ipv6HeaderPayloadLen,
    LenSource::UdpHeaderLen,
    LenSource::TcpHeaderLen,
    LenSource::ArpAddrLengths,
];

#[test]
fn order_of_sources_of_lengths(rt: HostRuntime) {
    for i in 0..6usize {
        equal(rt, (i, SOURCES[i] < SOURCES[i + 1]), (i, true));
    }
}

const KNOWN: &[(IpDscpKnown, u8)] = &[
    (IpDscpKnown::ClassSelector0, 0),
    (IpDscpKnown::LowerEffort, 1),
    (IpDscpKnown::ClassSelector1, 8),
    (IpDscpKnown::AfGroup1Low, 10),
    (IpDscpKnown::AfGroup1Medium, 12),
    (IpDscpKnown::AfGroup1High, 14),
    (IpDscpKnown::ClassSelector2, 16),
    (IpDscpKnown::AfGroup2Low, 18),
    (IpDscpKnown::AfGroup2Medium, 20),
    (IpDscpKnown::AfGroup2High, 22),
    (IpDscpKnown::ClassSelector3, 24),
    (IpDscpKnown::AfGroup3Low, 26),
    (IpDscpKnown::AfGroup3Medium, 28),
    (IpDscpKnown::AfGroup3High, 30),
    (IpDscpKnown::ClassSelector4, 32),
    (IpDscpKnown::AfGroup4Low, 34),
    (IpDscpKnown::AfGroup4Medium, 36),
    (IpDscpKnown::AfGroup4High, 38),
    (IpDscpKnown::ClassSelector5, 40),
    (IpDscpKnown::VoiceAdmit, 44),
    (IpDscpKnown::ExpeditedForwarding, 46),
    (IpDscpKnown::ClassSelector6, 48),
    (IpDscpKnown::ClassSelector7, 56),
];

#[test]
fn known_code_points(rt: HostRuntime) {
    for (known, value) in KNOWN.iter() {
        equal(rt, u8::from(*known), *value);
    }
}

#[test]
fn known_code_points_of_numbers(rt: HostRuntime) {
    let forwarding = IpDscp::from(IpDscpKnown::ExpeditedForwarding);
    equal(rt, forwarding, IpDscp::EF);
    let known = "Ok(ExpeditedForwarding)";
    shows(rt, &IpDscpKnown::try_from(forwarding), known);
    let unknown = "Err(IpDscpUnknownValueError { value: 63 })";
    shows(rt, &IpDscpKnown::try_from_ip_dscp(IpDscp::MAX), unknown);
    let first = IpDscpKnown::ClassSelector0 < IpDscpKnown::LowerEffort;
    let second = IpDscpKnown::LowerEffort < IpDscpKnown::ClassSelector1;
    equal(rt, [first, second], [true, true]);
}

const ETHER_TYPES: &[(EtherType, u16)] = &[
    (EtherType::IPV4, 0x0800),
    (EtherType::ARP, 0x0806),
    (EtherType::WAKE_ON_LAN, 0x0842),
    (EtherType::VLAN_TAGGED_FRAME, 0x8100),
    (EtherType::IPV6, 0x86dd),
    (EtherType::PROVIDER_BRIDGING, 0x88a8),
    (EtherType::MACSEC, 0x88e5),
    (EtherType::VLAN_DOUBLE_TAGGED_FRAME, 0x9100),
];

#[test]
fn ether_types(rt: HostRuntime) {
    for (ether_type, value) in ETHER_TYPES.iter() {
        equal(rt, u16::from(*ether_type), *value);
    }
    equal(rt, EtherType::from(0x86dd), EtherType::IPV6);
    equal(rt, ether_type::ARP.0, 0x0806);
    equal(rt, EtherType::default().0, 0);
}
