//! What is counted of a connection.

ghost use Rattle.std.specs.Prelude.{◌≡◌};
ghost use Rattle.tcp_streams.specs.Flows.{flow_of_value, flow_with, traffic_with};

use super::connection_state::{ConnectionState, Control};
use super::direction::Direction;

/// What is counted of a packet of a connection.
#[derive(Clone, Copy, Debug, PartialEq, Eq)]
pub struct FlowPacket {
    /// When it came, in a unit of the caller's.
    pub time: u64,
    /// How many bytes it has: those of the frame, or which else the caller counts.
    pub bytes: u64,
    /// In which direction it goes.
    pub direction: Direction,
    /// What its control flags do.
    pub control: Control,
}

/// How many packets go in a direction, and how many bytes they have, `u64::MAX` of each at most.
#[derive(Clone, Copy, Debug, Default, PartialEq, Eq)]
pub struct Traffic {
    /// The packets.
    pub packets: u64,
    /// Their bytes.
    pub bytes: u64,
}

/// What is counted of a connection, and a value of the caller's.
#[derive(Clone, Debug, PartialEq, Eq, Drop)]
pub struct Flow<T> {
    /// From the lower endpoint.
    pub from_lower: Traffic,
    /// From the higher endpoint.
    pub from_higher: Traffic,
    /// The earliest time of a packet, `u64::MAX` where none came.
    pub first: u64,
    /// The latest one, 0 where none came.
    pub last: u64,
    /// How far the connection came.
    pub state: ConnectionState,
    /// The caller's value.
    pub value: T,
}

impl Traffic {
    // One packet more, if it goes in this direction.
    fn with(self, counts: bool, bytes: u64) -> Traffic
        ensures { result ≡ traffic_with counts bytes self }
    {
        if !counts {
            return self;
        }
        Traffic {
            packets: self.packets.saturating_add(1),
            bytes: self.bytes.saturating_add(bytes),
        }
    }
}

impl<T> Flow<T> {
    /// No packet.
    pub fn new(value: T) -> Flow<T>
        ensures { result ≡ flow_of_value value }
    {
        Flow {
            from_lower: Traffic {
                packets: 0,
                bytes: 0,
            },
            from_higher: Traffic {
                packets: 0,
                bytes: 0,
            },
            first: u64::MAX,
            last: 0,
            state: ConnectionState::Unseen,
            value,
        }
    }

    /// Counts one packet more.
    pub fn count(&mut self, packet: FlowPacket)
        ensures { self.new ≡ flow_with self.old packet }
    {
        let is_from_lower = packet.direction == Direction::FromLower;
        self.from_lower = self.from_lower.with(is_from_lower, packet.bytes);
        self.from_higher = self.from_higher.with(!is_from_lower, packet.bytes);
        self.first = self.first.min(packet.time);
        self.last = self.last.max(packet.time);
        self.state = self.state.after(packet.direction, packet.control);
    }
}
