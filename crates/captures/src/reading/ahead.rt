//! What is at the start of what a reader holds, without a borrow of it.
ghost use Rattle.std.specs.Prelude.{◌≡◌, None};
ghost use Rattle.captures.specs.Readers.{IsAhead};

use crate::CaptureError;
use crate::link::header::Header;
use crate::link::kind::Link;
use crate::reading::prefix::{FirstPacket, first_packet};
use crate::state::State;

/// A packet but for the bytes after its header.
#[derive(Clone, Copy)]
pub(crate) struct Found {
    pub number: u64,
    pub interface: u32,
    pub time: u64,
    pub link: Link,
    pub wire_len: u32,
    pub header: Option<Header>,
}

/// What is at the start of some bytes.
#[derive(Clone, Copy)]
pub(crate) struct Ahead {
    /// The first packet, if it is whole.
    pub found: Option<Found>,
    /// How many of the bytes are left from those after its header on.
    pub from: usize,
    /// How many bytes these are.
    pub len: usize,
    /// How many bytes follow its unit, or the units that hold no packet.
    pub left: usize,
    /// Why no unit can follow.
    pub refusal: Option<CaptureError>,
}

impl Ahead {
    /// No packet: this many bytes are left, and this is refused, if anything is.
    pub(crate) fn none(left: usize, refusal: Option<CaptureError>) -> Ahead
        ensures { result ≡ record { found = None; from = 0; len = 0; left = left; refusal = refusal } }
    {
        Ahead {
            found: None,
            from: 0,
            len: 0,
            left,
            refusal,
        }
    }
}

/// Takes the units of some bytes up to the first that holds a packet.
pub(crate) fn look_ahead(state: &mut State, bytes: &[u8]) -> Ahead
    ensures { IsAhead state.old bytes.now state.new result }
{
    let FirstPacket {
        packet,
        from,
        rest,
        refusal,
    } = first_packet(state, bytes);
    let left = rest.len();
    match packet {
        Some(packet) => Ahead {
            found: Some(Found {
                number: packet.number,
                interface: packet.interface,
                time: packet.time,
                link: packet.link,
                wire_len: packet.wire_len,
                header: packet.frame.made_header(),
            }),
            from,
            len: packet.frame.bytes().len(),
            left,
            refusal: None,
        },
        None => Ahead {
            found: None,
            from: 0,
            len: 0,
            left,
            refusal,
        },
    }
}
