//! A packet of a capture.
ghost use Rattle.std.specs.Prelude.{◌≡◌};
ghost use Rattle.captures.specs.Framed.{captured_len};
ghost use Rattle.captures.specs.PacketSteps.{is_cut, origin_of};

use crate::link::frame::Frame;
use crate::link::kind::Link;
use crate::link::wire_len::frame_wire_len;
use crate::origin::Origin;

/// A packet of a capture, of which at least one byte was captured.
#[derive(Debug, Drop)]
pub struct Packet<'a> {
    /// Its number in the capture, from 1. Each packet record, or block that holds a packet, has
    /// one, those too of which no byte was captured or that are passed over. Numbers stop at the
    /// greatest of 64 bits.
    pub number: u64,
    /// The number of its interface, over all sections of a pcapng file. A classic capture has one,
    /// 0.
    pub interface: u32,
    /// When it was captured, in nanoseconds since the year 1970 began. A simple packet block of a
    /// pcapng file has no time: then it is 0.
    pub time: u64,
    /// The kind of link that it was captured on.
    pub link: Link,
    /// How many bytes it had on the wire, those of its link's own header among them, as its record
    /// says: the Original Packet Length of draft-ietf-opsawg-pcap (section 5) and of
    /// draft-ietf-opsawg-pcapng (sections 4.3, 4.4 and A.1). Where it was cut as it was captured, it
    /// is more than the captured bytes. A wrong record may say less.
    pub wire_len: u32,
    /// Its bytes as an Ethernet II frame.
    pub frame: Frame<'a>,
}

impl<'a> Packet<'a> {
    /// How many of its bytes were captured, those of its link's own header among them: its record's
    /// Captured Packet Length.
    pub fn captured_len(&self) -> usize
        ensures { result ≡ captured_len self.now.link self.now.frame }
    {
        match self.link {
            Link::Ethernet => self.frame.bytes().len(),
            link => link.head_len() + self.frame.bytes().len(),
        }
    }

    /// Whether fewer of its bytes were captured than were on the wire.
    pub fn is_cut(&self) -> bool
        ensures { result ≡ is_cut self.now }
    {
        self.captured_len() < self.wire_len as usize
    }

    pub(crate) fn origin(&self) -> Origin
        ensures { result ≡ origin_of self.now }
    {
        Origin {
            channel: self.interface,
            time: self.time,
            wire_len: frame_wire_len(self.frame.len(), self.captured_len(), self.wire_len),
        }
    }
}
