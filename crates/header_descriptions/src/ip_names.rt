//! The usual names of IP protocols.

use ep_base::IpNumber;

/// The usual name of an IP protocol: the keyword of IANA's registry, or one that is better known or
/// differs from a header's name. It has no contract: tests compare the texts.
pub fn ip_number_name(number: IpNumber) -> Option<&'static str> {
    let name = match number.0 {
        0 => "HOPOPT",
        1 => "ICMP",
        2 => "IGMP",
        3 => "GGP",
        4 => "IPencap",
        5 => "ST",
        6 => "TCP",
        8 => "EGP",
        9 => "IGP",
        17 => "UDP",
        27 => "RDP",
        33 => "DCCP",
        36 => "XTP",
        41 => "IPv6-in-IP",
        43 => "IPv6-Route",
        44 => "IPv6-Frag",
        46 => "RSVP",
        47 => "GRE",
        50 => "ESP",
        51 => "AH",
        57 => "SKIP",
        58 => "ICMPv6",
        59 => "IPv6-NoNxt",
        60 => "IPv6-Opts",
        88 => "EIGRP",
        89 => "OSPF",
        94 => "IPIP",
        97 => "EtherIP",
        103 => "PIM",
        108 => "IPComp",
        112 => "VRRP",
        113 => "PGM",
        115 => "L2TP",
        124 => "IS-IS",
        132 => "SCTP",
        133 => "FC",
        135 => "MH",
        136 => "UDP-Lite",
        137 => "MPLS-in-IP",
        138 => "MANET",
        139 => "HIP",
        140 => "Shim6",
        141 => "WESP",
        142 => "ROHC",
        143 => "Ethernet-in-IP",
        144 => "AGGFRAG",
        145 => "NSH",
        _ => return None,
    };
    Some(name)
}

// Other names in use, IANA's keywords among them.
const OTHER_NAMES: [(&str, u8); 6] = [
    ("icmp6", 58),
    ("IPv6-ICMP", 58),
    ("OSPFIGP", 89),
    ("Mobility-Header", 135),
    ("UDPLite", 136),
    ("ISIS", 124),
];

/// The IP protocol with this number or, in letters of either case, this name: that which
/// [`ip_number_name`] gives, or another one in use. It has no contract: tests compare the texts.
pub fn ip_number_named(name: &str) -> Option<IpNumber> {
    if let Ok(number) = name.parse::<u8>() {
        return Some(IpNumber(number));
    }
    for number in 0..=u8::MAX {
        if let Some(known) = ip_number_name(IpNumber(number)) {
            if known.eq_ignore_ascii_case(name) {
                return Some(IpNumber(number));
            }
        }
    }
    for (other, number) in &OTHER_NAMES {
        if other.eq_ignore_ascii_case(name) {
            return Some(IpNumber(*number));
        }
    }
    None
}
