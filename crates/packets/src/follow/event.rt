//! What happens in a connection that is followed.

use tcp_streams::{Conflicts, ConnectionState, Gap, Refused};

/// What happens in a connection.
#[derive(Clone, Copy)]
pub(crate) struct Event<'e> {
    /// Which of the connections between its endpoints it is, from 1.
    pub connection: u64,
    /// The number of the packet, unless it happens at the end.
    pub packet: Option<u64>,
    /// The direction, unless it is both.
    pub direction: Option<Way>,
    /// What happens.
    pub kind: EventKind<'e>,
}

/// A direction between two endpoints that are named in an order.
#[derive(Clone, Copy, Debug, PartialEq, Eq)]
pub enum Way {
    /// From the first one.
    FromFirst,
    /// From the second one.
    FromSecond,
}

#[derive(Clone, Copy)]
pub(crate) enum EventKind<'e> {
    /// No segment came.
    NoSegments,
    /// The connection begins, as far as it is seen.
    Begin,
    /// The first segment of the direction has no SYN: bytes before it may be missing.
    JoinedLate,
    /// These bytes are there, from a position on.
    Bytes { position: u64, bytes: &'e [u8] },
    /// These positions are missing.
    Gap(Gap),
    /// These bytes aren't in the capture, though the other endpoint acknowledged them.
    Missing(Gap),
    /// Some bytes differ from those that came before.
    Conflicts(Conflicts),
    /// A segment is refused.
    Refused(Refused),
    /// How a direction ends.
    DirectionEnd(DirectionEnd),
    /// How far the connection came.
    End(ConnectionState),
}

/// How a direction ends.
#[derive(Clone, Copy)]
pub(crate) struct DirectionEnd {
    /// How many bytes it has up to the first one that is missing, those among them that were given up.
    pub len: u64,
    /// Whether FIN follows them.
    pub is_finished: bool,
    /// Where FIN stands, if it came.
    pub fin: Option<u64>,
    /// Whether SYN wasn't seen.
    pub joined_late: bool,
    /// How many bytes were given up.
    pub missing: u64,
    /// All conflicts.
    pub conflicts: Conflicts,
}
