//! Segments of TCP, and what their numbers are counted from.
ghost use Rattle.std.specs.Prelude.{◌≡◌};
ghost use Rattle.packets.specs.Segments.{either_way, initial_numbers_by, segment_in, segment_of, starts_from};

use crate::flows::conversation::Conversation;
use crate::flows::transfer::transfer_with;
use crate::message_header::MessageHeader;
use crate::{Dissection, Outline};
use ep_base::IpNumber;
use header_descriptions::show::tcp::InitialNumbers;

/// The initial sequence numbers of a connection (RFC 9293, section 3.4).
#[derive(Clone, Copy, Debug, PartialEq, Eq)]
pub struct Starts {
    /// That of the lower end of its conversation.
    pub ascending: u32,
    /// That of the higher end.
    pub descending: u32,
}

/// A segment of TCP.
#[derive(Clone, Copy, Debug, PartialEq, Eq)]
pub struct Segment {
    /// Its conversation, from the lower end.
    pub conversation: Conversation,
    /// Whether it goes from the lower end.
    pub ascends: bool,
    /// Its flag SYN.
    pub syn: bool,
    /// Its flag ACK.
    pub ack: bool,
    /// Its sequence number.
    pub sequence_number: u32,
    /// Its acknowledgment number.
    pub acknowledgment_number: u32,
}

impl Segment {
    /// That of a packet, or of the message that it completes. There is none of a packet that is
    /// refused, unless it was cut.
    pub fn of(dissection: &Dissection<'_>) -> Option<Segment>
        ensures { result ≡ segment_of dissection.now }
    {
        let header = MessageHeader::of(dissection);
        let transfer = transfer_with(Outline::of(dissection), header);
        segment_in(transfer.conversation, transfer.ascends, header)
    }

    /// The initial numbers of a connection that begins with it.
    pub(crate) fn starts(&self) -> Starts
        ensures { result ≡ starts_from self.now }
    {
        either_way(
            self.ascends,
            self.sequence_number,
            self.acknowledgment_number.wrapping_sub(1),
        )
    }

    /// Those that its numbers are counted from in such a connection.
    pub(crate) fn initial_numbers_by(&self, starts: Starts) -> InitialNumbers
        ensures { result ≡ initial_numbers_by starts self.now.ascends }
    {
        if self.ascends {
            InitialNumbers {
                sequence: starts.ascending,
                acknowledgment: starts.descending,
            }
        } else {
            InitialNumbers {
                sequence: starts.descending,
                acknowledgment: starts.ascending,
            }
        }
    }
}

fn segment_in(
    conversation: Option<Conversation>,
    ascends: bool,
    header: Option<MessageHeader>,
) -> Option<Segment>
    ensures { result ≡ segment_in conversation ascends header }
{
    let (Some(conversation), Some(header)) = (conversation, header) else {
        return None;
    };
    if conversation.protocol == IpNumber::TCP {
        Some(Segment {
            conversation,
            ascends,
            syn: header.syn,
            ack: header.ack,
            sequence_number: header.sequence_number,
            acknowledgment_number: header.acknowledgment_number,
        })
    } else {
        None
    }
}

fn either_way(ascends: bool, own: u32, other: u32) -> Starts
    ensures { result ≡ either_way ascends own other }
{
    if ascends {
        Starts {
            ascending: own,
            descending: other,
        }
    } else {
        Starts {
            ascending: other,
            descending: own,
        }
    }
}
