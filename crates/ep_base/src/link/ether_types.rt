//! The ether types, each also a constant of [`EtherType`].

use super::EtherType;

/// IPv4 (RFC 894).
pub const IPV4: EtherType = EtherType::IPV4;

/// The Address Resolution Protocol (RFC 826).
pub const ARP: EtherType = EtherType::ARP;

/// Wake on LAN.
pub const WAKE_ON_LAN: EtherType = EtherType::WAKE_ON_LAN;

/// A VLAN tag (IEEE 802.1Q).
pub const VLAN_TAGGED_FRAME: EtherType = EtherType::VLAN_TAGGED_FRAME;

/// IPv6 (RFC 2464).
pub const IPV6: EtherType = EtherType::IPV6;

/// A VLAN tag of a provider bridge (IEEE 802.1ad).
pub const PROVIDER_BRIDGING: EtherType = EtherType::PROVIDER_BRIDGING;

/// A MACsec header (IEEE 802.1AE).
pub const MACSEC: EtherType = EtherType::MACSEC;

/// A frame with two VLAN tags.
pub const VLAN_DOUBLE_TAGGED_FRAME: EtherType = EtherType::VLAN_DOUBLE_TAGGED_FRAME;
