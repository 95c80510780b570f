//! Packet types of Linux cooked captures: sent to this machine, to others, or by it.

use crate::err::linux_sll::HeaderError;
use std::marker::Model;

/// Who a packet of a Linux cooked capture was sent to, or by: a number from 0 to 4.
#[derive(Clone, Copy, Debug, PartialEq, Eq, Hash, PartialOrd, Ord)]
pub struct LinuxSllPacketType(u16);

impl Model for LinuxSllPacketType {
    ghost use Rattle.std.specs.Prelude.{ℕ, ◌≤◌};

    ghost Value = { ℕ };

    ghost view = { λ packet_type. packet_type.0 };

    ghost invariant = { λ packet_type. packet_type.0 ≤ 4 };

    ghost inverse = { λ n. record { 0 = n } };
}

impl LinuxSllPacketType {
    ghost use Rattle.std.specs.Prelude.{◌≡◌, ◌≤◌};

    /// Sent to this machine by another.
    pub const HOST: LinuxSllPacketType = LinuxSllPacketType(0);

    /// Broadcast by another machine.
    pub const BROADCAST: LinuxSllPacketType = LinuxSllPacketType(1);

    /// Multicast by another machine.
    pub const MULTICAST: LinuxSllPacketType = LinuxSllPacketType(2);

    /// Sent to another machine by another.
    pub const OTHERHOST: LinuxSllPacketType = LinuxSllPacketType(3);

    /// Sent by this machine.
    pub const OUTGOING: LinuxSllPacketType = LinuxSllPacketType(4);

    /// The greatest number.
    pub const MAX_VAL: u16 = 4;

    /// The number, 0 to 4.
    pub fn value(self) -> u16
        ensures value { result ≡ self }
        ensures small { result ≤ 4 }
    {
        self.0
    }
}

impl Default for LinuxSllPacketType {
    ghost use Rattle.std.specs.Prelude.{◌≡◌};

    ghost is_default = { λ packet_type. packet_type ≡ 0 };

    fn default() -> Self {
        LinuxSllPacketType::HOST
    }
}

impl TryFrom<u16> for LinuxSllPacketType {
    ghost use Rattle.ep_link.specs.SllFault.{IsPacketType};

    type Error = HeaderError;

    ghost try_from_gives = { IsPacketType };

    fn try_from(value: u16) -> Result<Self, HeaderError> {
        if value <= LinuxSllPacketType::MAX_VAL {
            Ok(LinuxSllPacketType(value))
        } else {
            Err(HeaderError::UnsupportedPacketTypeField { packet_type: value })
        }
    }
}

impl From<LinuxSllPacketType> for u16 {
    ghost use Rattle.std.specs.Prelude.{◌≡◌, ◌≤◌};

    ghost from_gives = { λ packet_type n. (n ≡ packet_type) × (n ≤ 4) };

    fn from(packet_type: LinuxSllPacketType) -> u16 {
        packet_type.value()
    }
}
