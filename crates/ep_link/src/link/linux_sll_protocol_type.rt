//! Protocol numbers of Linux cooked captures, whose meaning depends on the hardware type.
ghost use Rattle.std.specs.Prelude.{◌≡◌};
ghost use Rattle.ep_link.specs.Sll.{ether_protocol, protocol_of, protocol_number, with_number};

use super::ArpHardwareId;
use ep_base::EtherType;

// Below it a number of two bytes is no ether type (IEEE 802.3, section 3.2.6).
const LEAST_ETHER_TYPE: u16 = 0x600;

/// What follows the header of a Linux cooked capture, by the hardware type and the protocol
/// number.
#[derive(Clone, Copy, Debug, PartialEq, Eq, Hash, PartialOrd, Ord)]
pub enum LinuxSllProtocolType {
    /// The number has no meaning: under 802.11 with radiotap and frame relay.
    Ignored(u16),
    /// A protocol of netlink.
    NetlinkProtocolType(u16),
    /// A protocol of generic routing encapsulation.
    GenericRoutingEncapsulationProtocolType(u16),
    /// An ether type: 0600 or more.
    EtherType(EtherType),
    /// A number of Linux's own for a frame that isn't Ethernet II: below 0600.
    LinuxNonstandardEtherType(u16),
}

impl LinuxSllProtocolType {
    /// Sets the number. The kind of protocol stays; of the two kinds that share their hardware
    /// types, an ether type and a number of Linux's own, it becomes the one that the number
    /// belongs to.
    pub fn change_value(&mut self, value: u16)
        ensures { self.new ≡ with_number self.old value }
    {
        *self = match *self {
            LinuxSllProtocolType::Ignored(_) => LinuxSllProtocolType::Ignored(value),
            LinuxSllProtocolType::NetlinkProtocolType(_) => {
                LinuxSllProtocolType::NetlinkProtocolType(value)
            }
            LinuxSllProtocolType::GenericRoutingEncapsulationProtocolType(_) => {
                LinuxSllProtocolType::GenericRoutingEncapsulationProtocolType(value)
            }
            LinuxSllProtocolType::EtherType(_)
            | LinuxSllProtocolType::LinuxNonstandardEtherType(_) => ether_protocol(value),
        };
    }
}

fn ether_protocol(value: u16) -> LinuxSllProtocolType
    ensures { result ≡ ether_protocol value }
{
    if value >= LEAST_ETHER_TYPE {
        LinuxSllProtocolType::EtherType(EtherType(value))
    } else {
        LinuxSllProtocolType::LinuxNonstandardEtherType(value)
    }
}

impl From<(ArpHardwareId, u16)> for LinuxSllProtocolType {
    ghost from_gives = { λ pair protocol. protocol ≡ protocol_of pair.0 pair.1 };

    fn from((hardware_type, value): (ArpHardwareId, u16)) -> Self {
        match hardware_type {
            ArpHardwareId::NETLINK => LinuxSllProtocolType::NetlinkProtocolType(value),
            ArpHardwareId::IPGRE => {
                LinuxSllProtocolType::GenericRoutingEncapsulationProtocolType(value)
            }
            ArpHardwareId::IEEE80211_RADIOTAP | ArpHardwareId::FRAD => {
                LinuxSllProtocolType::Ignored(value)
            }
            _ => ether_protocol(value),
        }
    }
}

impl From<LinuxSllProtocolType> for u16 {
    ghost from_gives = { λ protocol n. n ≡ protocol_number protocol };

    fn from(protocol: LinuxSllProtocolType) -> u16 {
        match protocol {
            LinuxSllProtocolType::Ignored(value)
            | LinuxSllProtocolType::NetlinkProtocolType(value)
            | LinuxSllProtocolType::GenericRoutingEncapsulationProtocolType(value)
            | LinuxSllProtocolType::LinuxNonstandardEtherType(value) => value,
            LinuxSllProtocolType::EtherType(ether_type) => ether_type.0,
        }
    }
}
