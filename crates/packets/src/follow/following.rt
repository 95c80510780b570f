//! Follows a TCP connection through the packets of captures.
ghost use Rattle.std.specs.Prelude.{ℕ, List};
ghost use Rattle.packets.specs.Written.{AreTexts, Writes};
ghost use Rattle.packets.specs.declared.dissection.Dissection.{Dissection};

use crate::Dissection;
use crate::flows::conversation::Conversation;
use crate::flows::tcp_packet::direction_by;
use crate::flows::transfer::Transfer;
use crate::follow::connection_id::ConnectionId;
use crate::follow::event::{DirectionEnd, Event, EventKind, Way};
use crate::follow::{event_object, event_text};
use crate::run::omitted::Omitted;
use crate::run::output::{PacketWriter, write_packets};
use crate::run::rules::Rules;
use crate::whole_segment::whole_segment;
use captures::RunError;
use ep_tcpudp::TcpSlice;
use std::alloc::{AllocError, Global};
use std::cell::RefCell;
use std::hash::BuildHasher;
use std::io::{Read, Write};
use tcp_streams::{Control, Direction, FollowedSegment, Follower, Gap, SegmentFlags};

/// Which connection is followed, and how it is written.
#[derive(Clone, Copy, Debug)]
pub struct FollowOptions {
    /// Its endpoints.
    pub id: ConnectionId,
    /// The direction that is written alone, if it is one.
    pub direction: Option<Way>,
    /// How it is written.
    pub form: FollowForm,
    /// How many bytes of each direction are kept that were written, and how many are kept after
    /// missing ones.
    pub window: u32,
}

/// How a connection is written.
#[derive(Clone, Copy, Debug, PartialEq, Eq)]
pub enum FollowForm {
    /// Lines, with the bytes that are printable as they are.
    Text,
    /// Lines, with the bytes in hex.
    Hex,
    /// The bytes alone: those of both directions in the order in which they became available.
    Raw,
    /// A JSON object a line.
    Json,
}

/// Writes what goes over the TCP connections between two endpoints, of packets that aren't refused and
/// whose IP packet is whole.
#[derive(Drop)]
pub struct Following {
    alloc: Global,
    options: FollowOptions,
    connections: RefCell<Connections>,
}

// The connections, of which the last one is followed.
#[derive(Drop)]
struct Connections {
    follower: Follower,
    count: u64,
    // Whether the last one ended.
    is_over: bool,
    // How many bytes of the last one were given up.
    missing_from_lower: u64,
    missing_from_higher: u64,
}

impl Following {
    /// No packet came. It has no contract: tests compare the texts.
    pub fn new(alloc: Global, options: FollowOptions) -> Following {
        Following {
            alloc,
            options,
            connections: RefCell::new(Connections {
                follower: Follower::new(alloc, options.window),
                count: 0,
                is_over: true,
                missing_from_lower: 0,
                missing_from_higher: 0,
            }),
        }
    }

    /// Whether no segment came. It has no contract: tests compare the texts.
    pub fn is_empty(&self) -> bool {
        match self.connections.try_borrow_mut() {
            Ok(connections) => connections.count == 0,
            Err(_) => false,
        }
    }

    /// Appends how the last connection ends, or that there is none. It has no contract: tests compare
    /// the texts.
    pub(crate) fn append_end(&self, out: &mut Vec<u8>) -> Result<(), AllocError> {
        match self.connections.try_borrow_mut() {
            Ok(mut connections) => {
                let writing = Writing {
                    alloc: self.alloc,
                    options: &self.options,
                };
                if connections.count == 0 {
                    return writing.append(0, None, None, EventKind::NoSegments, out);
                }
                connections.end(&writing, out)
            }
            Err(_) => Ok(()),
        }
    }

    fn take(&self, packet: &Dissection<'_>, out: &mut Vec<u8>) -> Result<(), AllocError> {
        match whole_segment(packet) {
            Some(segment) => self.take_segment(packet, &segment, out),
            None => Ok(()),
        }
    }

    fn take_segment(
        &self,
        packet: &Dissection<'_>,
        segment: &TcpSlice<'_>,
        out: &mut Vec<u8>,
    ) -> Result<(), AllocError> {
        let Some(direction) = direction_in(packet, &self.options.id.conversation) else {
            return Ok(());
        };
        let writing = Writing {
            alloc: self.alloc,
            options: &self.options,
        };
        match self.connections.try_borrow_mut() {
            Ok(mut connections) => {
                connections.take(&writing, packet.number, direction, segment, out)
            }
            Err(_) => Ok(()),
        }
    }
}

// The direction of a packet in a conversation that is given in one direction, if it is one of it.
fn direction_in(packet: &Dissection<'_>, conversation: &Conversation) -> Option<Direction> {
    let transfer = Transfer::of(packet);
    match transfer.conversation {
        Some(other) if other == conversation.from_lower() => Some(direction_by(transfer.ascends)),
        _ => None,
    }
}

impl Connections {
    fn take(
        &mut self,
        writing: &Writing<'_>,
        packet: u64,
        direction: Direction,
        segment: &TcpSlice<'_>,
        out: &mut Vec<u8>,
    ) -> Result<(), AllocError> {
        let control = Control::of(segment);
        if control == Control::Nothing {
            return Ok(());
        }
        let number = segment.sequence_number();
        if self.follower.begins_anew(direction, number, control) {
            self.end(writing, out)?;
        }
        self.begin(writing, packet, out)?;
        if segment.ack() && !segment.rst() {
            let number = segment.acknowledgment_number();
            self.give_up(writing, packet, direction.other(), number, out)?;
        }
        let was_late = self.follower.buf(direction).joined_late();
        let flags = SegmentFlags {
            syn: segment.syn(),
            fin: segment.fin(),
            rst: segment.rst(),
        };
        let followed = self
            .follower
            .add(direction, number, flags, segment.ack(), segment.payload())?;
        if !was_late && self.follower.buf(direction).joined_late() {
            let kind = EventKind::JoinedLate;
            writing.append(self.count, Some(packet), Some(direction), kind, out)?;
        }
        self.append_followed(writing, packet, direction, followed, out)
    }

    fn begin(
        &mut self,
        writing: &Writing<'_>,
        packet: u64,
        out: &mut Vec<u8>,
    ) -> Result<(), AllocError> {
        if !self.is_over {
            return Ok(());
        }
        self.is_over = false;
        self.count = self.count.saturating_add(1);
        self.missing_from_lower = 0;
        self.missing_from_higher = 0;
        writing.append(self.count, Some(packet), None, EventKind::Begin, out)
    }

    // Gives up the bytes of a direction that are missing, though this number acknowledges them, and
    // appends those after them.
    fn give_up(
        &mut self,
        writing: &Writing<'_>,
        packet: u64,
        direction: Direction,
        number: u32,
        out: &mut Vec<u8>,
    ) -> Result<(), AllocError> {
        let mut is_new = false;
        'gaps: for _ in 0..u64::MAX {
            let Some(gap) = self.follower.give_up(direction, number) else {
                break 'gaps;
            };
            is_new = true;
            self.count_missing(direction, gap);
            self.append_missing(writing, packet, direction, gap, out)?;
        }
        match self.follower.buf(direction).gap() {
            Some(gap) if is_new => {
                let kind = EventKind::Gap(gap);
                writing.append(self.count, Some(packet), Some(direction), kind, out)
            }
            _ => Ok(()),
        }
    }

    fn count_missing(&mut self, direction: Direction, gap: Gap) {
        let count = gap.end.saturating_sub(gap.start);
        match direction {
            Direction::FromLower => {
                self.missing_from_lower = self.missing_from_lower.saturating_add(count);
            }
            Direction::FromHigher => {
                self.missing_from_higher = self.missing_from_higher.saturating_add(count);
            }
        }
    }

    // What is missing, and the bytes after it.
    fn append_missing(
        &self,
        writing: &Writing<'_>,
        packet: u64,
        direction: Direction,
        gap: Gap,
        out: &mut Vec<u8>,
    ) -> Result<(), AllocError> {
        let (count, packet, direction_of) = (self.count, Some(packet), Some(direction));
        writing.append(count, packet, direction_of, EventKind::Missing(gap), out)?;
        let position = gap.end;
        let bytes = self.follower.buf(direction).available_from(position);
        if bytes.is_empty() {
            return Ok(());
        }
        let kind = EventKind::Bytes { position, bytes };
        writing.append(count, packet, direction_of, kind, out)
    }

    fn append_followed(
        &self,
        writing: &Writing<'_>,
        packet: u64,
        direction: Direction,
        followed: FollowedSegment,
        out: &mut Vec<u8>,
    ) -> Result<(), AllocError> {
        let (count, packet, direction_of) = (self.count, Some(packet), Some(direction));
        if let Some(refused) = followed.refused {
            writing.append(
                count,
                packet,
                direction_of,
                EventKind::Refused(refused),
                out,
            )?;
        }
        if followed.conflicts.count > 0 {
            let kind = EventKind::Conflicts(followed.conflicts);
            writing.append(count, packet, direction_of, kind, out)?;
        }
        let position = followed.position;
        let bytes = self.follower.buf(direction).available_from(position);
        if !bytes.is_empty() {
            let kind = EventKind::Bytes { position, bytes };
            writing.append(count, packet, direction_of, kind, out)?;
        }
        match followed.gap {
            Some(gap) => writing.append(count, packet, direction_of, EventKind::Gap(gap), out),
            None => Ok(()),
        }
    }

    // The connection ends, if there is one.
    fn end(&mut self, writing: &Writing<'_>, out: &mut Vec<u8>) -> Result<(), AllocError> {
        if self.is_over {
            return Ok(());
        }
        self.is_over = true;
        let [first, second] = writing.directions();
        self.append_direction_end(writing, first, out)?;
        self.append_direction_end(writing, second, out)?;
        let kind = EventKind::End(self.follower.state());
        writing.append(self.count, None, None, kind, out)
    }

    // What is held after gaps, and how the direction ends.
    fn append_direction_end(
        &self,
        writing: &Writing<'_>,
        direction: Direction,
        out: &mut Vec<u8>,
    ) -> Result<(), AllocError> {
        let buf = self.follower.buf(direction);
        let mut position = 0;
        'gaps: for _ in 0..u64::MAX {
            let Some((gap, bytes)) = buf.gap_after(position) else {
                break 'gaps;
            };
            position = gap.end;
            writing.append(self.count, None, Some(direction), EventKind::Gap(gap), out)?;
            let kind = EventKind::Bytes { position, bytes };
            writing.append(self.count, None, Some(direction), kind, out)?;
        }
        let end = DirectionEnd {
            len: buf.available_end(),
            is_finished: buf.is_finished(),
            fin: buf.fin(),
            joined_late: buf.joined_late(),
            missing: match direction {
                Direction::FromLower => self.missing_from_lower,
                Direction::FromHigher => self.missing_from_higher,
            },
            conflicts: buf.conflicts(),
        };
        writing.append(
            self.count,
            None,
            Some(direction),
            EventKind::DirectionEnd(end),
            out,
        )
    }
}

// How events are written.
#[derive(Drop)]
struct Writing<'o> {
    alloc: Global,
    options: &'o FollowOptions,
}

impl Writing<'_> {
    // That from the first endpoint, and the other one.
    fn directions(&self) -> [Direction; 2] {
        if self.options.id.conversation.ascends() {
            [Direction::FromLower, Direction::FromHigher]
        } else {
            [Direction::FromHigher, Direction::FromLower]
        }
    }

    fn way_of(&self, direction: Direction) -> Way {
        let [first, _] = self.directions();
        if direction == first {
            Way::FromFirst
        } else {
            Way::FromSecond
        }
    }

    // Appends what is written of an event.
    fn append(
        &self,
        connection: u64,
        packet: Option<u64>,
        direction: Option<Direction>,
        kind: EventKind<'_>,
        out: &mut Vec<u8>,
    ) -> Result<(), AllocError> {
        let direction = match direction {
            Some(direction) => Some(self.way_of(direction)),
            None => None,
        };
        if !self.is_written(direction) {
            return Ok(());
        }
        let event = Event {
            connection,
            packet,
            direction,
            kind,
        };
        match self.options.form {
            FollowForm::Text => event_text::append_event(&event, false, out),
            FollowForm::Hex => event_text::append_event(&event, true, out),
            FollowForm::Raw => append_raw(&event, out),
            FollowForm::Json => event_object::append_event(self.alloc, &event, out),
        }
    }

    fn is_written(&self, direction: Option<Way>) -> bool {
        match (self.options.direction, direction) {
            (Some(one), Some(other)) => one == other,
            _ => true,
        }
    }
}

// The bytes that a packet makes available.
fn append_raw(event: &Event<'_>, out: &mut Vec<u8>) -> Result<(), AllocError> {
    match (event.kind, event.packet) {
        (EventKind::Bytes { bytes, .. }, Some(_)) => out.extend_from_slice(bytes),
        _ => Ok(()),
    }
}

impl PacketWriter for Following {
    // Its texts are compared by tests.
    ghost writes = { λ following packet text. Unit {0} };

    fn write_packet(&self, packet: &Dissection<'_>, out: &mut Vec<u8>) -> Result<(), AllocError> {
        self.take(packet, out)
    }
}

/// Follows a connection through the packets that the filter lets through, up to the end of the
/// capture, to where it is refused or to a limit. What a packet does is written as the lines of
/// [`write_lines`](crate::write_lines) are.
pub fn write_followed<R: Read + Drop, W: Write, S: BuildHasher + Drop>(
    alloc: Global,
    state: S,
    rules: &Rules,
    following: &Following,
    reader: R,
    writer: &mut W,
    omitted: &mut Omitted,
) -> Result<(), RunError>
    ensures { Writes (AreTexts (λ (packet : Dissection) (text : List ℕ). Unit {0})) rules.now omitted.new
        (R.remaining reader) (W.contents writer.old) (W.contents writer.new) result }
{
    write_packets(alloc, state, rules, following, reader, writer, omitted)
}
