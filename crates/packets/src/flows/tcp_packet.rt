//! Packets with a TCP header, as their conversations take them.
ghost use Rattle.std.specs.Prelude.{◌≡◌};
ghost use Rattle.packets.specs.Streams.{control_by, direction_by, tcp_packet};

use crate::flows::conversation::Conversation;
use crate::flows::transfer::Transfer;
use crate::message_header::MessageHeader;
use ep_base::IpNumber;
use tcp_streams::{Control, Direction};

/// A packet with a TCP header.
#[derive(Clone, Copy)]
pub(crate) struct TcpPacket {
    /// Its conversation, from the lower end.
    pub conversation: Conversation,
    /// The direction in which it goes.
    pub direction: Direction,
    /// What its flags do.
    pub control: Control,
}

/// That of a packet with this header, if it is one.
pub(crate) fn tcp_packet(transfer: &Transfer, header: Option<MessageHeader>) -> Option<TcpPacket>
    ensures { result ≡ tcp_packet transfer.now header }
{
    match (transfer.conversation, header) {
        (Some(conversation), Some(header)) => {
            if conversation.protocol == IpNumber::TCP {
                Some(TcpPacket {
                    conversation,
                    direction: direction_by(transfer.ascends),
                    control: control_by(&header),
                })
            } else {
                None
            }
        }
        _ => None,
    }
}

/// That of a packet that goes from the lower end, or from the higher one.
pub(crate) fn direction_by(ascends: bool) -> Direction
    ensures { result ≡ direction_by ascends }
{
    if ascends {
        Direction::FromLower
    } else {
        Direction::FromHigher
    }
}

fn control_by(header: &MessageHeader) -> Control
    ensures { result ≡ control_by header.now }
{
    Control::of_flags(header.syn, header.ack, header.fin, header.rst)
}
