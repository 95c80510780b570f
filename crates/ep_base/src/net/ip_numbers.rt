//! The internet protocol numbers, each also a constant of [`IpNumber`].

use super::IpNumber;

/// IPv6 hop-by-hop options header (RFC 8200).
pub const IPV6_HEADER_HOP_BY_HOP: IpNumber = IpNumber::IPV6_HEADER_HOP_BY_HOP;

/// IPv6 hop-by-hop options header (RFC 8200): short name of `IPV6_HEADER_HOP_BY_HOP`.
pub const IPV6_HOP_BY_HOP: IpNumber = IpNumber::IPV6_HEADER_HOP_BY_HOP;

/// Internet Control Message Protocol (RFC 792).
pub const ICMP: IpNumber = IpNumber::ICMP;

/// Internet Group Management.
pub const IGMP: IpNumber = IpNumber::IGMP;

/// Gateway-to-Gateway.
pub const GGP: IpNumber = IpNumber::GGP;

/// IPv4 in IP.
pub const IPV4: IpNumber = IpNumber::IPV4;

/// Internet Stream Protocol.
pub const STREAM: IpNumber = IpNumber::STREAM;

/// Transmission Control Protocol (RFC 9293).
pub const TCP: IpNumber = IpNumber::TCP;

/// Core Based Trees.
pub const CBT: IpNumber = IpNumber::CBT;

/// Exterior Gateway Protocol.
pub const EGP: IpNumber = IpNumber::EGP;

/// Any private interior gateway protocol.
pub const IGP: IpNumber = IpNumber::IGP;

/// BBN RCC monitoring.
pub const BBN_RCC_MON: IpNumber = IpNumber::BBN_RCC_MON;

/// Network Voice Protocol.
pub const NVP_II: IpNumber = IpNumber::NVP_II;

/// PARC Universal Packet.
pub const PUP: IpNumber = IpNumber::PUP;

/// ARGUS.
pub const ARGUS: IpNumber = IpNumber::ARGUS;

/// EMCON.
pub const EMCON: IpNumber = IpNumber::EMCON;

/// Cross Net Debugger.
pub const XNET: IpNumber = IpNumber::XNET;

/// Chaos.
pub const CHAOS: IpNumber = IpNumber::CHAOS;

/// User Datagram Protocol (RFC 768).
pub const UDP: IpNumber = IpNumber::UDP;

/// Multiplexing.
pub const MUX: IpNumber = IpNumber::MUX;

/// DCN measurement subsystems.
pub const DCN_MEAS: IpNumber = IpNumber::DCN_MEAS;

/// Host Monitoring.
pub const HMP: IpNumber = IpNumber::HMP;

/// Packet Radio Measurement.
pub const PRM: IpNumber = IpNumber::PRM;

/// Xerox NS IDP.
pub const XNS_IDP: IpNumber = IpNumber::XNS_IDP;

/// Trunk-1.
pub const TRUNK1: IpNumber = IpNumber::TRUNK1;

/// Trunk-2.
pub const TRUNK2: IpNumber = IpNumber::TRUNK2;

/// Leaf-1.
pub const LEAF1: IpNumber = IpNumber::LEAF1;

/// Leaf-2.
pub const LEAF2: IpNumber = IpNumber::LEAF2;

/// Reliable Data Protocol.
pub const RDP: IpNumber = IpNumber::RDP;

/// Internet Reliable Transaction.
pub const IRTP: IpNumber = IpNumber::IRTP;

/// ISO transport protocol class 4.
pub const ISO_TP4: IpNumber = IpNumber::ISO_TP4;

/// Bulk Data Transfer Protocol.
pub const NET_BLT: IpNumber = IpNumber::NET_BLT;

/// MFE Network Services Protocol.
pub const MFE_NSP: IpNumber = IpNumber::MFE_NSP;

/// MERIT Internodal Protocol.
pub const MERIT_INP: IpNumber = IpNumber::MERIT_INP;

/// Datagram Congestion Control Protocol.
pub const DCCP: IpNumber = IpNumber::DCCP;

/// Third Party Connect Protocol.
pub const THIRD_PARTY_CONNECT_PROTOCOL: IpNumber = IpNumber::THIRD_PARTY_CONNECT_PROTOCOL;

/// Inter-Domain Policy Routing Protocol.
pub const IDPR: IpNumber = IpNumber::IDPR;

/// Xpress Transfer Protocol.
pub const XTP: IpNumber = IpNumber::XTP;

/// Datagram Delivery Protocol.
pub const DDP: IpNumber = IpNumber::DDP;

/// IDPR Control Message Transport Protocol.
pub const IDPR_CMTP: IpNumber = IpNumber::IDPR_CMTP;

/// TP++ transport protocol.
pub const TP_PLUS_PLUS: IpNumber = IpNumber::TP_PLUS_PLUS;

/// IL transport protocol.
pub const IL: IpNumber = IpNumber::IL;

/// IPv6 in IP.
pub const IPV6: IpNumber = IpNumber::IPV6;

/// Source Demand Routing Protocol.
pub const SDRP: IpNumber = IpNumber::SDRP;

/// IPv6 routing header (RFC 8200).
pub const IPV6_ROUTE_HEADER: IpNumber = IpNumber::IPV6_ROUTE_HEADER;

/// IPv6 routing header (RFC 8200): short name of `IPV6_ROUTE_HEADER`.
pub const IPV6_ROUTE: IpNumber = IpNumber::IPV6_ROUTE_HEADER;

/// IPv6 fragment header (RFC 8200).
pub const IPV6_FRAGMENTATION_HEADER: IpNumber = IpNumber::IPV6_FRAGMENTATION_HEADER;

/// IPv6 fragment header (RFC 8200): short name of `IPV6_FRAGMENTATION_HEADER`.
pub const IPV6_FRAG: IpNumber = IpNumber::IPV6_FRAGMENTATION_HEADER;

/// Inter-Domain Routing Protocol.
pub const IDRP: IpNumber = IpNumber::IDRP;

/// Reservation Protocol.
pub const RSVP: IpNumber = IpNumber::RSVP;

/// Generic Routing Encapsulation.
pub const GRE: IpNumber = IpNumber::GRE;

/// Dynamic Source Routing Protocol.
pub const DSR: IpNumber = IpNumber::DSR;

/// BNA.
pub const BNA: IpNumber = IpNumber::BNA;

/// Encapsulating Security Payload (RFC 4303).
pub const ENCAPSULATING_SECURITY_PAYLOAD: IpNumber = IpNumber::ENCAPSULATING_SECURITY_PAYLOAD;

/// Encapsulating Security Payload (RFC 4303): short name of `ENCAPSULATING_SECURITY_PAYLOAD`.
pub const ENCAP_SEC: IpNumber = IpNumber::ENCAPSULATING_SECURITY_PAYLOAD;

/// Authentication header (RFC 4302).
pub const AUTHENTICATION_HEADER: IpNumber = IpNumber::AUTHENTICATION_HEADER;

/// Authentication header (RFC 4302): short name of `AUTHENTICATION_HEADER`.
pub const AUTH: IpNumber = IpNumber::AUTHENTICATION_HEADER;

/// Integrated Net Layer Security.
pub const INLSP: IpNumber = IpNumber::INLSP;

/// IP with encryption.
pub const SWIPE: IpNumber = IpNumber::SWIPE;

/// NBMA Address Resolution Protocol.
pub const NARP: IpNumber = IpNumber::NARP;

/// IP mobility.
pub const MOBILE: IpNumber = IpNumber::MOBILE;

/// Transport Layer Security Protocol with Kryptonet key management.
pub const TLSP: IpNumber = IpNumber::TLSP;

/// SKIP.
pub const SKIP: IpNumber = IpNumber::SKIP;

/// ICMP for IPv6 (RFC 4443).
pub const IPV6_ICMP: IpNumber = IpNumber::IPV6_ICMP;

/// No next header for IPv6 (RFC 8200).
pub const IPV6_NO_NEXT_HEADER: IpNumber = IpNumber::IPV6_NO_NEXT_HEADER;

/// IPv6 destination options header (RFC 8200).
pub const IPV6_DESTINATION_OPTIONS: IpNumber = IpNumber::IPV6_DESTINATION_OPTIONS;

/// IPv6 destination options header (RFC 8200): short name of `IPV6_DESTINATION_OPTIONS`.
pub const IPV6_DEST_OPTIONS: IpNumber = IpNumber::IPV6_DESTINATION_OPTIONS;

/// Any host internal protocol.
pub const ANY_HOST_INTERNAL_PROTOCOL: IpNumber = IpNumber::ANY_HOST_INTERNAL_PROTOCOL;

/// CFTP.
pub const CFTP: IpNumber = IpNumber::CFTP;

/// Any local network.
pub const ANY_LOCAL_NETWORK: IpNumber = IpNumber::ANY_LOCAL_NETWORK;

/// SATNET and Backroom EXPAK.
pub const SAT_EXPAK: IpNumber = IpNumber::SAT_EXPAK;

/// Kryptolan.
pub const KRYTOLAN: IpNumber = IpNumber::KRYTOLAN;

/// MIT Remote Virtual Disk Protocol.
pub const RVD: IpNumber = IpNumber::RVD;

/// Internet Pluribus Packet Core.
pub const IPPC: IpNumber = IpNumber::IPPC;

/// Any distributed file system.
pub const ANY_DISTRIBUTED_FILE_SYSTEM: IpNumber = IpNumber::ANY_DISTRIBUTED_FILE_SYSTEM;

/// SATNET monitoring.
pub const SAT_MON: IpNumber = IpNumber::SAT_MON;

/// VISA protocol.
pub const VISA: IpNumber = IpNumber::VISA;

/// Internet Packet Core Utility.
pub const IPCV: IpNumber = IpNumber::IPCV;

/// Computer Protocol Network Executive.
pub const CPNX: IpNumber = IpNumber::CPNX;

/// Computer Protocol Heart Beat.
pub const CPHB: IpNumber = IpNumber::CPHB;

/// Wang Span Network.
pub const WSN: IpNumber = IpNumber::WSN;

/// Packet Video Protocol.
pub const PVP: IpNumber = IpNumber::PVP;

/// Backroom SATNET monitoring.
pub const BR_SAT_MON: IpNumber = IpNumber::BR_SAT_MON;

/// SUN ND protocol, temporary.
pub const SUN_ND: IpNumber = IpNumber::SUN_ND;

/// WIDEBAND monitoring.
pub const WB_MON: IpNumber = IpNumber::WB_MON;

/// WIDEBAND EXPAK.
pub const WB_EXPAK: IpNumber = IpNumber::WB_EXPAK;

/// ISO Internet Protocol.
pub const ISO_IP: IpNumber = IpNumber::ISO_IP;

/// Versatile Message Transaction Protocol.
pub const VMTP: IpNumber = IpNumber::VMTP;

/// Secure VMTP.
pub const SECURE_VMTP: IpNumber = IpNumber::SECURE_VMTP;

/// VINES.
pub const VINES: IpNumber = IpNumber::VINES;

/// Transaction Transport Protocol or Internet Protocol Traffic Manager.
pub const TTP_OR_IPTM: IpNumber = IpNumber::TTP_OR_IPTM;

/// NSFNET IGP.
pub const NSFNET_IGP: IpNumber = IpNumber::NSFNET_IGP;

/// Dissimilar Gateway Protocol.
pub const DGP: IpNumber = IpNumber::DGP;

/// TCF.
pub const TCF: IpNumber = IpNumber::TCF;

/// EIGRP.
pub const EIGRP: IpNumber = IpNumber::EIGRP;

/// OSPF.
pub const OSPFIGP: IpNumber = IpNumber::OSPFIGP;

/// Sprite RPC protocol.
pub const SPRITE_RPC: IpNumber = IpNumber::SPRITE_RPC;

/// Locus Address Resolution Protocol.
pub const LARP: IpNumber = IpNumber::LARP;

/// Multicast Transport Protocol.
pub const MTP: IpNumber = IpNumber::MTP;

/// AX.25 frames.
pub const AX25: IpNumber = IpNumber::AX25;

/// IP-within-IP encapsulation.
pub const IPIP: IpNumber = IpNumber::IPIP;

/// Mobile Internetworking Control Protocol.
pub const MICP: IpNumber = IpNumber::MICP;

/// Semaphore Communications security protocol.
pub const SCC_SP: IpNumber = IpNumber::SCC_SP;

/// Ethernet-within-IP encapsulation.
pub const ETHER_IP: IpNumber = IpNumber::ETHER_IP;

/// Encapsulation header.
pub const ENCAP: IpNumber = IpNumber::ENCAP;

/// GMTP.
pub const GMTP: IpNumber = IpNumber::GMTP;

/// Ipsilon Flow Management Protocol.
pub const IFMP: IpNumber = IpNumber::IFMP;

/// PNNI over IP.
pub const PNNI: IpNumber = IpNumber::PNNI;

/// Protocol Independent Multicast.
pub const PIM: IpNumber = IpNumber::PIM;

/// ARIS.
pub const ARIS: IpNumber = IpNumber::ARIS;

/// SCPS.
pub const SCPS: IpNumber = IpNumber::SCPS;

/// QNX.
pub const QNX: IpNumber = IpNumber::QNX;

/// Active Networks.
pub const ACTIVE_NETWORKS: IpNumber = IpNumber::ACTIVE_NETWORKS;

/// IP Payload Compression Protocol.
pub const IP_COMP: IpNumber = IpNumber::IP_COMP;

/// Sitara Networks Protocol.
pub const SITRA_NETWORKS_PROTOCOL: IpNumber = IpNumber::SITRA_NETWORKS_PROTOCOL;

/// Compaq Peer Protocol.
pub const COMPAQ_PEER: IpNumber = IpNumber::COMPAQ_PEER;

/// IPX in IP.
pub const IPX_IN_IP: IpNumber = IpNumber::IPX_IN_IP;

/// Virtual Router Redundancy Protocol.
pub const VRRP: IpNumber = IpNumber::VRRP;

/// PGM Reliable Transport Protocol.
pub const PGM: IpNumber = IpNumber::PGM;

/// Any 0-hop protocol.
pub const ANY_ZERO_HOP_PROTOCOL: IpNumber = IpNumber::ANY_ZERO_HOP_PROTOCOL;

/// Layer Two Tunneling Protocol.
pub const LAYER2_TUNNELING_PROTOCOL: IpNumber = IpNumber::LAYER2_TUNNELING_PROTOCOL;

/// D-II Data Exchange.
pub const DDX: IpNumber = IpNumber::DDX;

/// Interactive Agent Transfer Protocol.
pub const IATP: IpNumber = IpNumber::IATP;

/// Schedule Transfer Protocol.
pub const STP: IpNumber = IpNumber::STP;

/// SpectraLink Radio Protocol.
pub const SRP: IpNumber = IpNumber::SRP;

/// UTI.
pub const UTI: IpNumber = IpNumber::UTI;

/// Simple Message Protocol.
pub const SIMPLE_MESSAGE_PROTOCOL: IpNumber = IpNumber::SIMPLE_MESSAGE_PROTOCOL;

/// Simple Multicast Protocol.
pub const SM: IpNumber = IpNumber::SM;

/// Performance Transparency Protocol.
pub const PTP: IpNumber = IpNumber::PTP;

/// ISIS over IPv4.
pub const ISIS_OVER_IPV4: IpNumber = IpNumber::ISIS_OVER_IPV4;

/// FIRE.
pub const FIRE: IpNumber = IpNumber::FIRE;

/// Combat Radio Transport Protocol.
pub const CRTP: IpNumber = IpNumber::CRTP;

/// Combat Radio User Datagram.
pub const CRUDP: IpNumber = IpNumber::CRUDP;

/// SSCOPMCE.
pub const SSCOPMCE: IpNumber = IpNumber::SSCOPMCE;

/// IPLT.
pub const IPLT: IpNumber = IpNumber::IPLT;

/// Secure Packet Shield.
pub const SPS: IpNumber = IpNumber::SPS;

/// Private IP encapsulation within IP.
pub const PIPE: IpNumber = IpNumber::PIPE;

/// Stream Control Transmission Protocol.
pub const SCTP: IpNumber = IpNumber::SCTP;

/// Fibre Channel.
pub const FC: IpNumber = IpNumber::FC;

/// RSVP-E2E-IGNORE (RFC 3175).
pub const RSVP_E2E_IGNORE: IpNumber = IpNumber::RSVP_E2E_IGNORE;

/// IPv6 mobility header (RFC 6275).
pub const MOBILITY_HEADER: IpNumber = IpNumber::MOBILITY_HEADER;

/// IPv6 mobility header (RFC 6275): short name of `MOBILITY_HEADER`.
pub const MOBILITY: IpNumber = IpNumber::MOBILITY_HEADER;

/// UDP-Lite (RFC 3828).
pub const UDP_LITE: IpNumber = IpNumber::UDP_LITE;

/// MPLS in IP (RFC 4023).
pub const MPLS_IN_IP: IpNumber = IpNumber::MPLS_IN_IP;

/// MANET protocols (RFC 5498).
pub const MANET: IpNumber = IpNumber::MANET;

/// Host Identity Protocol (RFC 7401).
pub const HIP: IpNumber = IpNumber::HIP;

/// Shim6 protocol (RFC 5533).
pub const SHIM6: IpNumber = IpNumber::SHIM6;

/// Wrapped Encapsulating Security Payload (RFC 5840).
pub const WESP: IpNumber = IpNumber::WESP;

/// Robust Header Compression (RFC 5858).
pub const ROHC: IpNumber = IpNumber::ROHC;

/// For experiments and tests (RFC 3692).
pub const EXPERIMENTAL_AND_TESTING_0: IpNumber = IpNumber::EXPERIMENTAL_AND_TESTING_0;

/// For experiments and tests (RFC 3692): short name of `EXPERIMENTAL_AND_TESTING_0`.
pub const EXP0: IpNumber = IpNumber::EXPERIMENTAL_AND_TESTING_0;

/// For experiments and tests (RFC 3692).
pub const EXPERIMENTAL_AND_TESTING_1: IpNumber = IpNumber::EXPERIMENTAL_AND_TESTING_1;

/// For experiments and tests (RFC 3692): short name of `EXPERIMENTAL_AND_TESTING_1`.
pub const EXP1: IpNumber = IpNumber::EXPERIMENTAL_AND_TESTING_1;
