//! The first packet of some bytes of a capture.
ghost use Rattle.std.specs.Prelude.{◌≤◌, ◌+◌, ◌*◌, length, IfSome};
ghost use Rattle.captures.specs.Framed.{frame_bytes};
ghost use Rattle.captures.specs.PacketSteps.{IsFirstPacket};

use crate::CaptureError;
use crate::packet::Packet;
use crate::pcap::unit::next_unit;
use crate::state::State;

/// What some bytes of a capture begin with: whole units that hold no packet, and what follows them.
#[derive(Drop)]
pub(crate) struct FirstPacket<'a> {
    /// The packet in the unit after them, if it is whole.
    pub packet: Option<Packet<'a>>,
    /// How many of the bytes are left from those of the packet's frame on.
    pub from: usize,
    /// What follows that unit, or else those without a packet.
    pub rest: &'a [u8],
    /// Why no unit can follow.
    pub refusal: Option<CaptureError>,
}

/// Takes the units of some bytes up to the first that holds a packet.
#[inline(always)]
pub(crate) fn first_packet<'a>(state: &mut State, bytes: &'a [u8]) -> FirstPacket<'a>
    ensures found { IsFirstPacket state.old bytes.now state.new result }
    ensures fits { length result.rest.now ≤ length bytes.now }
    ensures room { IfSome result.packet (λ packet. 52 + 2 * length (frame_bytes packet.frame)
        + 5 * length result.rest.now ≤ 5 * length bytes.now) }
{
    let mut rest = bytes;
    'units: loop {
        match next_unit(state, rest) {
            Ok(Some(unit)) => {
                if !unit.frame.is_empty() {
                    return FirstPacket {
                        packet: Some(Packet {
                            number: state.seen(),
                            interface: unit.origin.channel,
                            time: unit.origin.time,
                            link: unit.link,
                            wire_len: unit.wire_len,
                            frame: unit.frame,
                        }),
                        from: rest.len() - unit.at,
                        rest: unit.rest,
                        refusal: None,
                    };
                }
                rest = unit.rest;
            }
            Ok(None) => {
                return FirstPacket {
                    packet: None,
                    from: 0,
                    rest,
                    refusal: None,
                };
            }
            Err(error) => {
                return FirstPacket {
                    packet: None,
                    from: 0,
                    rest,
                    refusal: Some(error),
                };
            }
        }
    }
}
