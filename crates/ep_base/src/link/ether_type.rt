//! Ether types.

ghost use Rattle.std.specs.Prelude.{◌≡◌};

/// An ether type, as the registry of IEEE assigns them: what follows an Ethernet II header or
/// a tag. A frame holds it in two bytes, high byte first.
#[derive(Clone, Copy, Debug, Default, PartialEq, Eq, Hash, PartialOrd, Ord)]
pub struct EtherType(pub u16);

impl EtherType {
    /// IPv4 (RFC 894).
    pub const IPV4: EtherType = EtherType(0x0800);

    /// The Address Resolution Protocol (RFC 826).
    pub const ARP: EtherType = EtherType(0x0806);

    /// Wake on LAN.
    pub const WAKE_ON_LAN: EtherType = EtherType(0x0842);

    /// A VLAN tag (IEEE 802.1Q).
    pub const VLAN_TAGGED_FRAME: EtherType = EtherType(0x8100);

    /// IPv6 (RFC 2464).
    pub const IPV6: EtherType = EtherType(0x86dd);

    /// A VLAN tag of a provider bridge (IEEE 802.1ad).
    pub const PROVIDER_BRIDGING: EtherType = EtherType(0x88a8);

    /// A MACsec header (IEEE 802.1AE).
    pub const MACSEC: EtherType = EtherType(0x88e5);

    /// A frame with two VLAN tags.
    pub const VLAN_DOUBLE_TAGGED_FRAME: EtherType = EtherType(0x9100);
}

impl From<u16> for EtherType {
    ghost from_gives = { λ n ether_type. ether_type ≡ record { 0 = n } };

    fn from(n: u16) -> Self {
        EtherType(n)
    }
}

impl From<EtherType> for u16 {
    ghost from_gives = { λ ether_type n. n ≡ ether_type.0 };

    fn from(ether_type: EtherType) -> u16 {
        ether_type.0
    }
}
