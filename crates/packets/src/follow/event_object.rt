//! Events as JSON objects. The functions have no contracts: tests compare the texts.

use crate::follow::event::{DirectionEnd, Event, EventKind, Way};
use header_descriptions::json::fields::{begin, flag, number, text};
use serde::{Described, Serialize, Serializer};
use std::alloc::{AllocError, Global};
use tcp_streams::{ConnectionState, Gap, Refused};

/// Appends the object of an event, in a line.
pub(crate) fn append_event(
    alloc: Global,
    event: &Event<'_>,
    out: &mut Vec<u8>,
) -> Result<(), AllocError> {
    let object = EventObject { alloc, event };
    // The only error is that memory ran out.
    let Ok(bytes) = serde_json::to_vec(alloc, &object) else {
        return Err(AllocError);
    };
    out.extend_from_slice(bytes.as_slice())?;
    out.extend_from_slice(b"\n")
}

#[derive(Drop)]
struct EventObject<'o, 'e> {
    alloc: Global,
    event: &'o Event<'e>,
}

impl Described for EventObject<'_, '_> {}

impl Serialize for EventObject<'_, '_> {
    fn serialize<S: Serializer>(&self, out: &mut S) -> Result<(), S::Error> {
        out.begin_map(None)?;
        if !matches!(self.event.kind, EventKind::NoSegments) {
            number(out, "connection", self.event.connection)?;
        }
        if let Some(packet) = self.event.packet {
            number(out, "packet", packet)?;
        }
        match self.event.direction {
            Some(Way::FromFirst) => number(out, "direction", 1)?,
            Some(Way::FromSecond) => number(out, "direction", 2)?,
            None => {}
        }
        self.kind(out)?;
        out.end_map()
    }
}

impl EventObject<'_, '_> {
    fn kind<S: Serializer>(&self, out: &mut S) -> Result<(), S::Error> {
        match self.event.kind {
            EventKind::NoSegments => text(out, "event", "NoSegments"),
            EventKind::Begin => text(out, "event", "Begin"),
            EventKind::JoinedLate => text(out, "event", "JoinedLate"),
            EventKind::Bytes { position, bytes } => self.bytes(out, position, bytes),
            EventKind::Gap(Gap { start, end }) => {
                begin_variant(out, "Gap")?;
                number(out, "start", start)?;
                number(out, "end", end)?;
                end_variant(out)
            }
            EventKind::Missing(Gap { start, end }) => {
                begin_variant(out, "Missing")?;
                number(out, "position", start)?;
                number(out, "count", end.saturating_sub(start))?;
                end_variant(out)
            }
            EventKind::Conflicts(conflicts) => {
                begin_variant(out, "Conflicts")?;
                number(out, "count", conflicts.count)?;
                number(out, "first", conflicts.first.unwrap_or(0))?;
                end_variant(out)
            }
            EventKind::Refused(refused) => {
                begin(out, "event")?;
                reason(out, refused)?;
                out.end_map()
            }
            EventKind::DirectionEnd(end) => direction_end(out, end),
            EventKind::End(state) => {
                begin(out, "event")?;
                text(out, "End", state_name(state))?;
                out.end_map()
            }
        }
    }

    fn bytes<S: Serializer>(
        &self,
        out: &mut S,
        position: u64,
        bytes: &[u8],
    ) -> Result<(), S::Error> {
        begin_variant(out, "Bytes")?;
        number(out, "position", position)?;
        number(out, "len", bytes.len() as u64)?;
        match hex::encode(self.alloc, bytes) {
            Ok(digits) => text(out, "bytes", digits.as_str())?,
            Err(_) => return Err(out.custom("out of memory")),
        }
        end_variant(out)
    }
}

fn begin_variant<S: Serializer>(out: &mut S, name: &str) -> Result<(), S::Error> {
    begin(out, "event")?;
    begin(out, name)
}

fn end_variant<S: Serializer>(out: &mut S) -> Result<(), S::Error> {
    out.end_map()?;
    out.end_map()
}

fn reason<S: Serializer>(out: &mut S, refused: Refused) -> Result<(), S::Error> {
    match refused {
        Refused::OutsideWindow { window_end } => {
            begin(out, "Refused")?;
            begin(out, "OutsideWindow")?;
            number(out, "window_end", window_end)?;
            end_variant(out)
        }
        Refused::AfterFin { fin } => {
            begin(out, "Refused")?;
            begin(out, "AfterFin")?;
            number(out, "fin", fin)?;
            end_variant(out)
        }
        Refused::AfterReset => text(out, "Refused", "AfterReset"),
        Refused::OutOfMemory => text(out, "Refused", "OutOfMemory"),
    }
}

fn direction_end<S: Serializer>(out: &mut S, end: DirectionEnd) -> Result<(), S::Error> {
    begin_variant(out, "DirectionEnd")?;
    number(out, "len", end.len)?;
    flag(out, "is_finished", end.is_finished)?;
    if let Some(fin) = end.fin {
        number(out, "fin", fin)?;
    }
    flag(out, "joined_late", end.joined_late)?;
    number(out, "missing", end.missing)?;
    number(out, "conflicts", end.conflicts.count)?;
    end_variant(out)
}

/// The name of a state.
pub(crate) fn state_name(state: ConnectionState) -> &'static str {
    match state {
        ConnectionState::Unseen => "Unseen",
        ConnectionState::SynSent { .. } => "SynSent",
        ConnectionState::SynReceived { .. } => "SynReceived",
        ConnectionState::Established => "Established",
        ConnectionState::Closing { .. } => "Closing",
        ConnectionState::Closed => "Closed",
        ConnectionState::Reset => "Reset",
    }
}
