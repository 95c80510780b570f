//! The constants are the numbers that the registries assign.

ghost use Rattle.std.specs.Prelude.{◌≡◌, [], ◌∷◌, ◌++◌, map};
ghost use Rattle.ep_base.specs.declared.link.ether_types.TheConstants as ether_type;
ghost use Rattle.ep_base.specs.declared.net.ip_numbers.TheConstants as ip_number;
ghost use Rattle.ep_base.specs.IpEcn.{ecn_number};
ghost use Rattle.ep_base.specs.IpNumber.{assigned_numbers};

use crate::{EtherType, IpDscp, IpEcn, IpFragOffset, IpNumber, Ipv6FlowLabel};

/// The constants of [`IpDscp`] are these numbers.
pub fn dscp_constants() -> [IpDscp; 25]
    ensures greatest { IpDscp.MAX_U8 ≡ 63 }
    ensures constants { result ≡
        0 ∷ 63 ∷ 0 ∷ 8 ∷ 16 ∷ 24 ∷ 32 ∷ 40 ∷ 48 ∷ 56 ∷ 10 ∷ 12 ∷ 14 ∷ 18 ∷ 20 ∷ 22 ∷ 26 ∷
        28 ∷ 30 ∷ 34 ∷ 36 ∷ 38 ∷ 46 ∷ 44 ∷ 1 ∷ [] }
{
    [
        IpDscp::ZERO,
        IpDscp::MAX,
        IpDscp::CS0,
        IpDscp::CS1,
        IpDscp::CS2,
        IpDscp::CS3,
        IpDscp::CS4,
        IpDscp::CS5,
        IpDscp::CS6,
        IpDscp::CS7,
        IpDscp::AF11,
        IpDscp::AF12,
        IpDscp::AF13,
        IpDscp::AF21,
        IpDscp::AF22,
        IpDscp::AF23,
        IpDscp::AF31,
        IpDscp::AF32,
        IpDscp::AF33,
        IpDscp::AF41,
        IpDscp::AF42,
        IpDscp::AF43,
        IpDscp::EF,
        IpDscp::VOICE_ADMIT,
        IpDscp::LOWER_EFFORT,
    ]
}

/// The constants of [`IpFragOffset`] are these numbers.
pub fn frag_offset_constants() -> [IpFragOffset; 1]
    ensures greatest { IpFragOffset.MAX_U16 ≡ 8191 }
    ensures constants { result ≡ 0 ∷ [] }
{
    [IpFragOffset::ZERO]
}

/// The constants of [`Ipv6FlowLabel`] are these numbers.
pub fn flow_label_constants() -> [Ipv6FlowLabel; 1]
    ensures greatest { Ipv6FlowLabel.MAX_U32 ≡ 1048575 }
    ensures constants { result ≡ 0 ∷ [] }
{
    [Ipv6FlowLabel::ZERO]
}

/// The constants of [`IpEcn`] are these notifications.
pub fn ecn_constants()
    ensures greatest { IpEcn.MAX_U8 ≡ 3 }
    ensures constants { map ecn_number
        (IpEcn.ZERO ∷ IpEcn.ONE ∷ IpEcn.TWO ∷ IpEcn.THREE ∷ IpEcn.TRHEE ∷ []) ≡
        0 ∷ 1 ∷ 2 ∷ 3 ∷ 3 ∷ [] }
{}

/// The constants of [`IpNumber`], in the order of their numbers.
pub fn ip_number_constants()
    ensures { map (λ n. n.0) (
        IpNumber.IPV6_HEADER_HOP_BY_HOP ∷ IpNumber.ICMP ∷ IpNumber.IGMP ∷ IpNumber.GGP ∷
        IpNumber.IPV4 ∷ IpNumber.STREAM ∷ IpNumber.TCP ∷ IpNumber.CBT ∷ IpNumber.EGP ∷
        IpNumber.IGP ∷ IpNumber.BBN_RCC_MON ∷ IpNumber.NVP_II ∷ IpNumber.PUP ∷
        IpNumber.ARGUS ∷ IpNumber.EMCON ∷ IpNumber.XNET ∷ IpNumber.CHAOS ∷ IpNumber.UDP ∷
        IpNumber.MUX ∷ IpNumber.DCN_MEAS ∷ IpNumber.HMP ∷ IpNumber.PRM ∷ IpNumber.XNS_IDP ∷
        IpNumber.TRUNK1 ∷ IpNumber.TRUNK2 ∷ IpNumber.LEAF1 ∷ IpNumber.LEAF2 ∷ IpNumber.RDP ∷
        IpNumber.IRTP ∷ IpNumber.ISO_TP4 ∷ IpNumber.NET_BLT ∷ IpNumber.MFE_NSP ∷
        IpNumber.MERIT_INP ∷ IpNumber.DCCP ∷ IpNumber.THIRD_PARTY_CONNECT_PROTOCOL ∷
        IpNumber.IDPR ∷ IpNumber.XTP ∷ IpNumber.DDP ∷ IpNumber.IDPR_CMTP ∷
        IpNumber.TP_PLUS_PLUS ∷ IpNumber.IL ∷ IpNumber.IPV6 ∷ IpNumber.SDRP ∷
        IpNumber.IPV6_ROUTE_HEADER ∷ IpNumber.IPV6_FRAGMENTATION_HEADER ∷ IpNumber.IDRP ∷
        IpNumber.RSVP ∷ IpNumber.GRE ∷ IpNumber.DSR ∷ IpNumber.BNA ∷
        IpNumber.ENCAPSULATING_SECURITY_PAYLOAD ∷ IpNumber.AUTHENTICATION_HEADER ∷
        IpNumber.INLSP ∷ IpNumber.SWIPE ∷ IpNumber.NARP ∷ IpNumber.MOBILE ∷ IpNumber.TLSP ∷
        IpNumber.SKIP ∷ IpNumber.IPV6_ICMP ∷ IpNumber.IPV6_NO_NEXT_HEADER ∷
        IpNumber.IPV6_DESTINATION_OPTIONS ∷ IpNumber.ANY_HOST_INTERNAL_PROTOCOL ∷
        IpNumber.CFTP ∷ IpNumber.ANY_LOCAL_NETWORK ∷ IpNumber.SAT_EXPAK ∷ IpNumber.KRYTOLAN ∷
        IpNumber.RVD ∷ IpNumber.IPPC ∷ IpNumber.ANY_DISTRIBUTED_FILE_SYSTEM ∷
        IpNumber.SAT_MON ∷ IpNumber.VISA ∷ IpNumber.IPCV ∷ IpNumber.CPNX ∷ IpNumber.CPHB ∷
        IpNumber.WSN ∷ IpNumber.PVP ∷ IpNumber.BR_SAT_MON ∷ IpNumber.SUN_ND ∷
        IpNumber.WB_MON ∷ IpNumber.WB_EXPAK ∷ IpNumber.ISO_IP ∷ IpNumber.VMTP ∷
        IpNumber.SECURE_VMTP ∷ IpNumber.VINES ∷ IpNumber.TTP_OR_IPTM ∷ IpNumber.NSFNET_IGP ∷
        IpNumber.DGP ∷ IpNumber.TCF ∷ IpNumber.EIGRP ∷ IpNumber.OSPFIGP ∷
        IpNumber.SPRITE_RPC ∷ IpNumber.LARP ∷ IpNumber.MTP ∷ IpNumber.AX25 ∷ IpNumber.IPIP ∷
        IpNumber.MICP ∷ IpNumber.SCC_SP ∷ IpNumber.ETHER_IP ∷ IpNumber.ENCAP ∷
        IpNumber.GMTP ∷ IpNumber.IFMP ∷ IpNumber.PNNI ∷ IpNumber.PIM ∷ IpNumber.ARIS ∷
        IpNumber.SCPS ∷ IpNumber.QNX ∷ IpNumber.ACTIVE_NETWORKS ∷ IpNumber.IP_COMP ∷
        IpNumber.SITRA_NETWORKS_PROTOCOL ∷ IpNumber.COMPAQ_PEER ∷ IpNumber.IPX_IN_IP ∷
        IpNumber.VRRP ∷ IpNumber.PGM ∷ IpNumber.ANY_ZERO_HOP_PROTOCOL ∷
        IpNumber.LAYER2_TUNNELING_PROTOCOL ∷ IpNumber.DDX ∷ IpNumber.IATP ∷ IpNumber.STP ∷
        IpNumber.SRP ∷ IpNumber.UTI ∷ IpNumber.SIMPLE_MESSAGE_PROTOCOL ∷ IpNumber.SM ∷
        IpNumber.PTP ∷ IpNumber.ISIS_OVER_IPV4 ∷ IpNumber.FIRE ∷ IpNumber.CRTP ∷
        IpNumber.CRUDP ∷ IpNumber.SSCOPMCE ∷ IpNumber.IPLT ∷ IpNumber.SPS ∷ IpNumber.PIPE ∷
        IpNumber.SCTP ∷ IpNumber.FC ∷ IpNumber.RSVP_E2E_IGNORE ∷ IpNumber.MOBILITY_HEADER ∷
        IpNumber.UDP_LITE ∷ IpNumber.MPLS_IN_IP ∷ IpNumber.MANET ∷ IpNumber.HIP ∷
        IpNumber.SHIM6 ∷ IpNumber.WESP ∷ IpNumber.ROHC ∷
        IpNumber.EXPERIMENTAL_AND_TESTING_0 ∷ IpNumber.EXPERIMENTAL_AND_TESTING_1 ∷ []) ≡
        assigned_numbers }
{}

/// The constants of module `ip_number`: the same, and its short names.
pub fn ip_number_module()
    ensures { map (λ n. n.0) (
        ip_number.IPV6_HEADER_HOP_BY_HOP ∷ ip_number.ICMP ∷ ip_number.IGMP ∷ ip_number.GGP ∷
        ip_number.IPV4 ∷ ip_number.STREAM ∷ ip_number.TCP ∷ ip_number.CBT ∷ ip_number.EGP ∷
        ip_number.IGP ∷ ip_number.BBN_RCC_MON ∷ ip_number.NVP_II ∷ ip_number.PUP ∷
        ip_number.ARGUS ∷ ip_number.EMCON ∷ ip_number.XNET ∷ ip_number.CHAOS ∷
        ip_number.UDP ∷ ip_number.MUX ∷ ip_number.DCN_MEAS ∷ ip_number.HMP ∷ ip_number.PRM ∷
        ip_number.XNS_IDP ∷ ip_number.TRUNK1 ∷ ip_number.TRUNK2 ∷ ip_number.LEAF1 ∷
        ip_number.LEAF2 ∷ ip_number.RDP ∷ ip_number.IRTP ∷ ip_number.ISO_TP4 ∷
        ip_number.NET_BLT ∷ ip_number.MFE_NSP ∷ ip_number.MERIT_INP ∷ ip_number.DCCP ∷
        ip_number.THIRD_PARTY_CONNECT_PROTOCOL ∷ ip_number.IDPR ∷ ip_number.XTP ∷
        ip_number.DDP ∷ ip_number.IDPR_CMTP ∷ ip_number.TP_PLUS_PLUS ∷ ip_number.IL ∷
        ip_number.IPV6 ∷ ip_number.SDRP ∷ ip_number.IPV6_ROUTE_HEADER ∷
        ip_number.IPV6_FRAGMENTATION_HEADER ∷ ip_number.IDRP ∷ ip_number.RSVP ∷
        ip_number.GRE ∷ ip_number.DSR ∷ ip_number.BNA ∷
        ip_number.ENCAPSULATING_SECURITY_PAYLOAD ∷ ip_number.AUTHENTICATION_HEADER ∷
        ip_number.INLSP ∷ ip_number.SWIPE ∷ ip_number.NARP ∷ ip_number.MOBILE ∷
        ip_number.TLSP ∷ ip_number.SKIP ∷ ip_number.IPV6_ICMP ∷
        ip_number.IPV6_NO_NEXT_HEADER ∷ ip_number.IPV6_DESTINATION_OPTIONS ∷
        ip_number.ANY_HOST_INTERNAL_PROTOCOL ∷ ip_number.CFTP ∷ ip_number.ANY_LOCAL_NETWORK ∷
        ip_number.SAT_EXPAK ∷ ip_number.KRYTOLAN ∷ ip_number.RVD ∷ ip_number.IPPC ∷
        ip_number.ANY_DISTRIBUTED_FILE_SYSTEM ∷ ip_number.SAT_MON ∷ ip_number.VISA ∷
        ip_number.IPCV ∷ ip_number.CPNX ∷ ip_number.CPHB ∷ ip_number.WSN ∷ ip_number.PVP ∷
        ip_number.BR_SAT_MON ∷ ip_number.SUN_ND ∷ ip_number.WB_MON ∷ ip_number.WB_EXPAK ∷
        ip_number.ISO_IP ∷ ip_number.VMTP ∷ ip_number.SECURE_VMTP ∷ ip_number.VINES ∷
        ip_number.TTP_OR_IPTM ∷ ip_number.NSFNET_IGP ∷ ip_number.DGP ∷ ip_number.TCF ∷
        ip_number.EIGRP ∷ ip_number.OSPFIGP ∷ ip_number.SPRITE_RPC ∷ ip_number.LARP ∷
        ip_number.MTP ∷ ip_number.AX25 ∷ ip_number.IPIP ∷ ip_number.MICP ∷ ip_number.SCC_SP ∷
        ip_number.ETHER_IP ∷ ip_number.ENCAP ∷ ip_number.GMTP ∷ ip_number.IFMP ∷
        ip_number.PNNI ∷ ip_number.PIM ∷ ip_number.ARIS ∷ ip_number.SCPS ∷ ip_number.QNX ∷
        ip_number.ACTIVE_NETWORKS ∷ ip_number.IP_COMP ∷ ip_number.SITRA_NETWORKS_PROTOCOL ∷
        ip_number.COMPAQ_PEER ∷ ip_number.IPX_IN_IP ∷ ip_number.VRRP ∷ ip_number.PGM ∷
        ip_number.ANY_ZERO_HOP_PROTOCOL ∷ ip_number.LAYER2_TUNNELING_PROTOCOL ∷
        ip_number.DDX ∷ ip_number.IATP ∷ ip_number.STP ∷ ip_number.SRP ∷ ip_number.UTI ∷
        ip_number.SIMPLE_MESSAGE_PROTOCOL ∷ ip_number.SM ∷ ip_number.PTP ∷
        ip_number.ISIS_OVER_IPV4 ∷ ip_number.FIRE ∷ ip_number.CRTP ∷ ip_number.CRUDP ∷
        ip_number.SSCOPMCE ∷ ip_number.IPLT ∷ ip_number.SPS ∷ ip_number.PIPE ∷
        ip_number.SCTP ∷ ip_number.FC ∷ ip_number.RSVP_E2E_IGNORE ∷
        ip_number.MOBILITY_HEADER ∷ ip_number.UDP_LITE ∷ ip_number.MPLS_IN_IP ∷
        ip_number.MANET ∷ ip_number.HIP ∷ ip_number.SHIM6 ∷ ip_number.WESP ∷ ip_number.ROHC ∷
        ip_number.EXPERIMENTAL_AND_TESTING_0 ∷ ip_number.EXPERIMENTAL_AND_TESTING_1 ∷
        ip_number.IPV6_HOP_BY_HOP ∷ ip_number.IPV6_ROUTE ∷ ip_number.IPV6_FRAG ∷
        ip_number.ENCAP_SEC ∷ ip_number.AUTH ∷ ip_number.IPV6_DEST_OPTIONS ∷
        ip_number.MOBILITY ∷ ip_number.EXP0 ∷ ip_number.EXP1 ∷ []) ≡
        assigned_numbers ++ (0 ∷ 43 ∷ 44 ∷ 50 ∷ 51 ∷ 60 ∷ 135 ∷ 253 ∷ 254 ∷ []) }
{}

/// The constants of [`EtherType`].
pub fn ether_type_constants()
    ensures { map (λ n. n.0) (
        EtherType.IPV4 ∷ EtherType.ARP ∷ EtherType.WAKE_ON_LAN ∷
        EtherType.VLAN_TAGGED_FRAME ∷ EtherType.IPV6 ∷ EtherType.PROVIDER_BRIDGING ∷
        EtherType.MACSEC ∷ EtherType.VLAN_DOUBLE_TAGGED_FRAME ∷ []) ≡
        0x0800 ∷ 0x0806 ∷ 0x0842 ∷ 0x8100 ∷ 0x86dd ∷ 0x88a8 ∷ 0x88e5 ∷ 0x9100 ∷ [] }
{}

/// The constants of module `ether_type`.
pub fn ether_type_module()
    ensures { map (λ n. n.0) (
        ether_type.IPV4 ∷ ether_type.ARP ∷ ether_type.WAKE_ON_LAN ∷
        ether_type.VLAN_TAGGED_FRAME ∷ ether_type.IPV6 ∷ ether_type.PROVIDER_BRIDGING ∷
        ether_type.MACSEC ∷ ether_type.VLAN_DOUBLE_TAGGED_FRAME ∷ []) ≡
        0x0800 ∷ 0x0806 ∷ 0x0842 ∷ 0x8100 ∷ 0x86dd ∷ 0x88a8 ∷ 0x88e5 ∷ 0x9100 ∷ [] }
{}
