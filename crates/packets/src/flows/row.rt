//! What is reported of a conversation.
ghost use Rattle.std.specs.Prelude.{◌≡◌, ◌+◌};
ghost use Rattle.packets.specs.Flows.{duration_of, row_of, tcp_column_by, tcp_column_of};
ghost use Rattle.captures.specs.Numbers.{capped};

use crate::Period;
use crate::flows::conversation::Conversation;
use crate::flows::conversation_counts::{ConversationCounts, DirectionCounts};
use crate::flows::transfer::Flags;
use ep_base::IpNumber;

/// A conversation, with what is counted of it. Its first packet goes forward.
#[derive(Clone, Copy, Debug, PartialEq, Eq)]
pub struct Row {
    /// The ends, in the direction of the first packet, and the protocol.
    pub conversation: Conversation,
    /// The packets that go in this direction.
    pub forward: DirectionCounts,
    /// Those that go in the other one.
    pub backward: DirectionCounts,
    /// When they came.
    pub period: Period,
}

/// The column `TCP`: what the flags of all segments of a conversation over TCP show, whatever their
/// order.
#[derive(Clone, Copy, Debug, PartialEq, Eq)]
pub enum TcpColumn {
    /// A segment with RST was seen.
    Reset,
    /// Otherwise, SYN and FIN were seen in both directions.
    Ended,
    /// Otherwise, all segments have SYN.
    SynOnly,
    /// Otherwise.
    Open,
}

impl Row {
    /// The row of a conversation from the lower end.
    pub(crate) fn of(conversation: &Conversation, flow: &ConversationCounts) -> Row
        ensures { result ≡ row_of (conversation.now, flow.now) }
    {
        if flow.begins_ascending.unwrap_or(true) {
            Row {
                conversation: *conversation,
                forward: flow.ascending,
                backward: flow.descending,
                period: flow.period,
            }
        } else {
            Row {
                conversation: conversation.turned(),
                forward: flow.descending,
                backward: flow.ascending,
                period: flow.period,
            }
        }
    }

    /// The packets in both directions, up to the greatest number of 64 bits.
    pub fn packets(&self) -> u64
        ensures { result ≡ capped (self.now.forward.packets + self.now.backward.packets) }
    {
        self.forward.packets.saturating_add(self.backward.packets)
    }

    /// Their bytes on the wire, up to the same number.
    pub fn bytes(&self) -> u64
        ensures { result ≡ capped (self.now.forward.bytes + self.now.backward.bytes) }
    {
        self.forward.bytes.saturating_add(self.backward.bytes)
    }

    /// The nanoseconds from the earliest packet to the latest.
    pub fn duration(&self) -> u64
        ensures { result ≡ duration_of self.now.period }
    {
        match (self.period.earliest, self.period.latest) {
            (Some(earliest), Some(latest)) => latest.saturating_sub(earliest),
            _ => 0,
        }
    }

    /// How far the connection came, as the flags of its segments say. There is none for packets that
    /// aren't TCP, and for those without ports.
    pub fn tcp_column(&self) -> Option<TcpColumn>
        ensures { result ≡ tcp_column_of self.now }
    {
        if self.conversation.protocol == IpNumber::TCP && self.conversation.ports.is_some() {
            Some(tcp_column_by(self.forward.flags, self.backward.flags))
        } else {
            None
        }
    }
}

fn tcp_column_by(forward: Flags, backward: Flags) -> TcpColumn
    ensures { result ≡ tcp_column_by forward backward }
{
    if forward.rst || backward.rst {
        TcpColumn::Reset
    } else if forward.syn && backward.syn && forward.fin && backward.fin {
        TcpColumn::Ended
    } else if forward.no_syn || backward.no_syn {
        TcpColumn::Open
    } else {
        TcpColumn::SynOnly
    }
}

impl TcpColumn {
    /// How it is written. It has no contract: tests compare the texts.
    pub fn name(self) -> &'static str {
        match self {
            TcpColumn::Reset => "R",
            TcpColumn::Ended => "SF",
            TcpColumn::SynOnly => "S",
            TcpColumn::Open => "open",
        }
    }
}
