//! The internet protocol numbers against the registry.

use crate::checks::{equal, reads, shows};
use ep_base::{IpNumber, IpTrafficClass, ip_number};
use std::process::Abort;

// The numbers from 0 on, and those from 100 on.
const FROM_0: &[IpNumber] = &[
    IpNumber::IPV6_HEADER_HOP_BY_HOP,
    IpNumber::ICMP,
    IpNumber::IGMP,
    IpNumber::GGP,
    IpNumber::IPV4,
    IpNumber::STREAM,
    IpNumber::TCP,
    IpNumber::CBT,
    IpNumber::EGP,
    IpNumber::IGP,
    IpNumber::BBN_RCC_MON,
    IpNumber::NVP_II,
    IpNumber::PUP,
    IpNumber::ARGUS,
    IpNumber::EMCON,
    IpNumber::XNET,
    IpNumber::CHAOS,
    IpNumber::UDP,
    IpNumber::MUX,
    IpNumber::DCN_MEAS,
    IpNumber::HMP,
    IpNumber::PRM,
    IpNumber::XNS_IDP,
    IpNumber::TRUNK1,
    IpNumber::TRUNK2,
    IpNumber::LEAF1,
    IpNumber::LEAF2,
    IpNumber::RDP,
    IpNumber::IRTP,
    IpNumber::ISO_TP4,
    IpNumber::NET_BLT,
    IpNumber::MFE_NSP,
    IpNumber::MERIT_INP,
    IpNumber::DCCP,
    IpNumber::THIRD_PARTY_CONNECT_PROTOCOL,
    IpNumber::IDPR,
    IpNumber::XTP,
    IpNumber::DDP,
    IpNumber::IDPR_CMTP,
    IpNumber::TP_PLUS_PLUS,
    IpNumber::IL,
    IpNumber::IPV6,
    IpNumber::SDRP,
    IpNumber::IPV6_ROUTE_HEADER,
    IpNumber::IPV6_FRAGMENTATION_HEADER,
    IpNumber::IDRP,
    IpNumber::RSVP,
    IpNumber::GRE,
    IpNumber::DSR,
    IpNumber::BNA,
    IpNumber::ENCAPSULATING_SECURITY_PAYLOAD,
    IpNumber::AUTHENTICATION_HEADER,
    IpNumber::INLSP,
    IpNumber::SWIPE,
    IpNumber::NARP,
    IpNumber::MOBILE,
    IpNumber::TLSP,
    IpNumber::SKIP,
    IpNumber::IPV6_ICMP,
    IpNumber::IPV6_NO_NEXT_HEADER,
    IpNumber::IPV6_DESTINATION_OPTIONS,
    IpNumber::ANY_HOST_INTERNAL_PROTOCOL,
    IpNumber::CFTP,
    IpNumber::ANY_LOCAL_NETWORK,
    IpNumber::SAT_EXPAK,
    IpNumber::KRYTOLAN,
    IpNumber::RVD,
    IpNumber::IPPC,
    IpNumber::ANY_DISTRIBUTED_FILE_SYSTEM,
    IpNumber::SAT_MON,
    IpNumber::VISA,
    IpNumber::IPCV,
    IpNumber::CPNX,
    IpNumber::CPHB,
    IpNumber::WSN,
    IpNumber::PVP,
    IpNumber::BR_SAT_MON,
    IpNumber::SUN_ND,
    IpNumber::WB_MON,
    IpNumber::WB_EXPAK,
    IpNumber::ISO_IP,
    IpNumber::VMTP,
    IpNumber::SECURE_VMTP,
    IpNumber::VINES,
    IpNumber::TTP_OR_IPTM,
    IpNumber::NSFNET_IGP,
    IpNumber::DGP,
    IpNumber::TCF,
    IpNumber::EIGRP,
    IpNumber::OSPFIGP,
    IpNumber::SPRITE_RPC,
    IpNumber::LARP,
    IpNumber::MTP,
    IpNumber::AX25,
    IpNumber::IPIP,
    IpNumber::MICP,
    IpNumber::SCC_SP,
    IpNumber::ETHER_IP,
    IpNumber::ENCAP,
];

const FROM_100: &[IpNumber] = &[
    IpNumber::GMTP,
    IpNumber::IFMP,
    IpNumber::PNNI,
    IpNumber::PIM,
    IpNumber::ARIS,
    IpNumber::SCPS,
    IpNumber::QNX,
    IpNumber::ACTIVE_NETWORKS,
    IpNumber::IP_COMP,
    IpNumber::SITRA_NETWORKS_PROTOCOL,
    IpNumber::COMPAQ_PEER,
    IpNumber::IPX_IN_IP,
    IpNumber::VRRP,
    IpNumber::PGM,
    IpNumber::ANY_ZERO_HOP_PROTOCOL,
    IpNumber::LAYER2_TUNNELING_PROTOCOL,
    IpNumber::DDX,
    IpNumber::IATP,
    IpNumber::STP,
    IpNumber::SRP,
    IpNumber::UTI,
    IpNumber::SIMPLE_MESSAGE_PROTOCOL,
    IpNumber::SM,
    IpNumber::PTP,
    IpNumber::ISIS_OVER_IPV4,
    IpNumber::FIRE,
    IpNumber::CRTP,
    IpNumber::CRUDP,
    IpNumber::SSCOPMCE,
    IpNumber::IPLT,
    IpNumber::SPS,
    IpNumber::PIPE,
    IpNumber::SCTP,
    IpNumber::FC,
    IpNumber::RSVP_E2E_IGNORE,
    IpNumber::MOBILITY_HEADER,
    IpNumber::UDP_LITE,
    IpNumber::MPLS_IN_IP,
    IpNumber::MANET,
    IpNumber::HIP,
    IpNumber::SHIM6,
    IpNumber::WESP,
    IpNumber::ROHC,
];

fn are_numbered(rt: impl Abort + Copy, numbers: &[IpNumber], first: u8) {
    let mut wanted = first;
    for number in numbers.iter() {
        equal(rt, number.0, wanted);
        wanted = wanted.wrapping_add(1);
    }
}

#[test]
fn ip_number_constants(rt: HostRuntime) {
    are_numbered(rt, FROM_0, 0);
    are_numbered(rt, FROM_100, 100);
    let testing = [
        IpNumber::EXPERIMENTAL_AND_TESTING_0,
        IpNumber::EXPERIMENTAL_AND_TESTING_1,
    ];
    are_numbered(rt, &testing, 253);
}

// All numbers against the registry's list of IPv6 extension header types.
const EXT_HEADERS: &[u8] = &[0, 43, 44, 50, 51, 60, 135, 139, 140, 253, 254];

#[test]
fn ext_header_numbers(rt: HostRuntime) {
    for number in 0..=255u8 {
        let found = IpNumber(number).is_ipv6_ext_header_value();
        let wanted = EXT_HEADERS.contains(&number);
        equal(rt, (number, found), (number, wanted));
    }
    let mobility = IpNumber::MOBILITY_HEADER.is_ipv6_ext_header_value();
    let icmp = IpNumber::IPV6_ICMP.is_ipv6_ext_header_value();
    equal(rt, [mobility, icmp], [true, false]);
}

#[test]
fn ip_number_calls(rt: HostRuntime) {
    let found = (
        IpNumber::from(17),
        u8::from(ip_number::AUTH),
        ip_number::UDP,
    );
    shows(rt, &found, "(IpNumber(17), 51, IpNumber(17))");
    equal(rt, IpTrafficClass::default(), IpNumber(0));
    equal(rt, (IpNumber::ICMP < IpNumber::TCP), true);
    reads(rt, &IpNumber::UDP, "17");
}

// The keyword and the protocol of a number.
fn texts(number: u8) -> [Option<&'static str>; 2] {
    let number = IpNumber(number);
    [number.keyword_str(), number.protocol_str()]
}

// Against IANA's registry.
#[test]
fn registered_texts(rt: HostRuntime) {
    equal(
        rt,
        texts(0),
        [Some("HOPOPT"), Some("IPv6 Hop-by-Hop Option")],
    );
    equal(rt, texts(17), [Some("UDP"), Some("User Datagram")]);
    equal(rt, texts(114), [None, Some("any 0-hop protocol")]);
    equal(rt, texts(128), [Some("SSCOPMCE"), None]);
    equal(rt, texts(143), [Some("Ethernet"), Some("Ethernet")]);
    equal(rt, texts(255), [Some("Reserved"), None]);
    for number in 145..=252u8 {
        equal(rt, texts(number), [None, None]);
    }
}
