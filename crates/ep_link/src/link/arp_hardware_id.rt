//! Hardware types of ARP, with those that Linux adds.
ghost use Rattle.std.specs.Prelude.{◌≡◌, Some};
ghost use Rattle.std.specs.Fmt.{decimal};

use std::fmt;

/// The type of a link, as IANA numbers the hardware types of ARP (RFC 826) and Linux adds to them
/// (`ARPHRD_` in `if_arp.h`). A packet holds it in two bytes, high byte first.
#[derive(Clone, Copy, Debug, Default, PartialEq, Eq, Hash, PartialOrd, Ord)]
pub struct ArpHardwareId(pub u16);

impl ArpHardwareId {
    /// Ethernet.
    pub const ETHERNET: ArpHardwareId = ArpHardwareId(1);

    /// A frame relay access device.
    pub const FRAD: ArpHardwareId = ArpHardwareId(770);

    /// Generic routing encapsulation over IP.
    pub const IPGRE: ArpHardwareId = ArpHardwareId(778);

    /// IEEE 802.11 with a radiotap header.
    pub const IEEE80211_RADIOTAP: ArpHardwareId = ArpHardwareId(803);

    /// Netlink.
    pub const NETLINK: ArpHardwareId = ArpHardwareId(824);
}

impl From<u16> for ArpHardwareId {
    ghost from_gives = { λ n id. id ≡ record { 0 = n } };

    fn from(n: u16) -> Self {
        ArpHardwareId(n)
    }
}

impl From<ArpHardwareId> for u16 {
    ghost from_gives = { λ id n. n ≡ id.0 };

    fn from(id: ArpHardwareId) -> u16 {
        id.0
    }
}

impl fmt::Display for ArpHardwareId {
    ghost output = { λ id. Some (decimal id.0) };

    fn fmt<W: fmt::Write>(&self, f: &mut fmt::Formatter<W>) -> fmt::Result {
        let n = self.0;
        write!(f, "{n}")
    }
}
