//! The kinds of links that packets are captured on.
ghost use Rattle.std.specs.Prelude.{◌≡◌};
ghost use Rattle.captures.specs.Framed.{captured_limit, frame_len, head_len, link_of, refused_type, taken_limit};
ghost use Rattle.captures.specs.Framed.{wire_len_on};

use crate::FRAME_LIMIT;
use crate::limits::SKIPPED_LIMIT;
use crate::link::header::HEADER_LEN;
use crate::link::wire_len::frame_wire_len;
use crate::unfit::Unfit;

/// A kind of link, by what its packets begin with. The numbers are those of the registry of link
/// types.
#[derive(Clone, Copy, Debug, PartialEq, Eq)]
pub enum Link {
    /// An Ethernet II header: link type 1.
    Ethernet,
    /// An IP header: 12, 14 and 101, and of one version 228 and 229.
    Ip,
    /// The address family of BSD loopback, in the byte order of the host: 0.
    Null,
    /// The same of OpenBSD loopback, high byte first: 108.
    Loop,
    /// A header of Linux cooked captures: 113.
    Sll,
    /// A header of their second version: 276.
    Sll2,
    /// Anything else, by its number: its packets are refused or passed over.
    Other(u16),
}

impl Link {
    /// The kind that has this number in the registry of link types.
    pub(crate) fn of(link_type: u16) -> Link
        ensures { result ≡ link_of link_type }
    {
        if link_type == 1 {
            Link::Ethernet
        } else if link_type == 12
            || link_type == 14
            || link_type == 101
            || link_type == 228
            || link_type == 229
        {
            Link::Ip
        } else if link_type == 0 {
            Link::Null
        } else if link_type == 108 {
            Link::Loop
        } else if link_type == 113 {
            Link::Sll
        } else if link_type == 276 {
            Link::Sll2
        } else {
            Link::Other(link_type)
        }
    }

    /// Its number, if its packets are refused.
    #[inline(always)]
    pub(crate) fn refused_type(self, unfit: Unfit) -> Option<u16>
        ensures { result ≡ refused_type unfit self }
    {
        match (unfit, self) {
            (Unfit::Refuse, Link::Other(number)) => Some(number),
            _ => None,
        }
    }

    /// How many bytes may be captured of a packet that is reported or passed over.
    pub(crate) fn taken_limit(self, unfit: Unfit) -> usize
        ensures { result ≡ taken_limit unfit self }
    {
        match unfit {
            Unfit::Refuse => self.captured_limit(),
            Unfit::Skip => SKIPPED_LIMIT,
        }
    }

    /// How many bytes of a packet may be captured, so that a line can hold its frame.
    pub(crate) fn captured_limit(self) -> usize
        ensures { result ≡ captured_limit self }
    {
        FRAME_LIMIT - HEADER_LEN + self.head_len()
    }

    /// How many bytes the frame of a packet had on the wire, of which so many were captured and which
    /// had so many on the wire by its record.
    #[inline(always)]
    pub(crate) fn wire_len_on(self, captured: u32, wire_len: u32) -> u32
        ensures { result ≡ wire_len_on self captured wire_len }
    {
        frame_wire_len(self.frame_len(captured), captured as usize, wire_len)
    }

    // How many bytes the frame of a packet has of which so many were captured, if it has a frame.
    #[inline(always)]
    fn frame_len(self, captured: u32) -> usize
        ensures { result ≡ frame_len self captured }
    {
        (HEADER_LEN + captured as usize).saturating_sub(self.head_len())
    }

    /// How many bytes a packet's own header has, which an Ethernet II header replaces in its frame.
    pub(crate) fn head_len(self) -> usize
        ensures { result ≡ head_len self }
    {
        match self {
            Link::Ethernet => HEADER_LEN,
            Link::Ip | Link::Other(_) => 0,
            Link::Null | Link::Loop => 4,
            Link::Sll => 16,
            Link::Sll2 => 20,
        }
    }
}
