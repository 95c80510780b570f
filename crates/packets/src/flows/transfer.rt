//! What conversations count of a packet.
ghost use Rattle.std.specs.Prelude.{◌≡◌};
ghost use Rattle.packets.specs.Flows.{joined_flags};
ghost use Rattle.packets.specs.Transfers.{flags_of, header_ports, transfer_of, transfer_with};

use crate::flows::conversation::Conversation;
use crate::message_header::MessageHeader;
use crate::show::endpoints::Ports;
use crate::{Dissection, Outline};

/// Which flags of TCP segments were seen.
#[derive(Clone, Copy, Debug, PartialEq, Eq)]
pub struct Flags {
    /// A segment with SYN.
    pub syn: bool,
    /// One without it.
    pub no_syn: bool,
    /// One with FIN.
    pub fin: bool,
    /// One with RST.
    pub rst: bool,
}

/// What conversations count of a packet.
#[derive(Clone, Copy, Debug, PartialEq, Eq)]
pub struct Transfer {
    /// Its outline.
    pub outline: Outline,
    /// Its conversation, from the lower end. There is none of a packet without an IP header, or that
    /// is refused, unless it was cut.
    pub conversation: Option<Conversation>,
    /// Whether it goes from the lower end.
    pub ascends: bool,
    /// Its flags.
    pub flags: Flags,
}

impl Flags {
    /// No segment.
    pub const NONE: Flags = Flags {
        syn: false,
        no_syn: false,
        fin: false,
        rst: false,
    };

    /// Those of one segment more.
    pub(crate) fn add(&mut self, other: Flags)
        ensures { self.new ≡ joined_flags self.old other }
    {
        self.syn = self.syn || other.syn;
        self.no_syn = self.no_syn || other.no_syn;
        self.fin = self.fin || other.fin;
        self.rst = self.rst || other.rst;
    }
}

impl Transfer {
    /// What conversations count of a packet.
    pub fn of(dissection: &Dissection<'_>) -> Transfer
        ensures { result ≡ transfer_of dissection.now }
    {
        transfer_with(Outline::of(dissection), MessageHeader::of(dissection))
    }
}

/// The same of the packet's outline and of what its message's header says.
pub(crate) fn transfer_with(outline: Outline, header: Option<MessageHeader>) -> Transfer
    ensures { result ≡ transfer_with outline header }
{
    let flags = flags_of(header);
    match Conversation::between(&outline, header_ports(header)) {
        Some(conversation) => Transfer {
            outline,
            conversation: Some(conversation.from_lower()),
            ascends: conversation.ascends(),
            flags,
        },
        None => Transfer {
            outline,
            conversation: None,
            ascends: true,
            flags,
        },
    }
}

fn header_ports(header: Option<MessageHeader>) -> Option<Ports>
    ensures { result ≡ header_ports header }
{
    match header {
        Some(header) => Some(Ports {
            source: header.source_port,
            destination: header.destination_port,
        }),
        None => None,
    }
}

fn flags_of(header: Option<MessageHeader>) -> Flags
    ensures { result ≡ flags_of header }
{
    match header {
        Some(header) => Flags {
            syn: header.syn,
            no_syn: !header.syn,
            fin: header.fin,
            rst: header.rst,
        },
        None => Flags::NONE,
    }
}
