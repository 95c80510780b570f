//! Events as text. The functions have no contracts: tests compare the texts.

use crate::follow::event::{DirectionEnd, Event, EventKind, Way};
use header_descriptions::show::byte_lines::{append_byte_lines, digits};
use header_descriptions::show::{Line, Style};
use std::alloc::AllocError;
use tcp_streams::{Conflicts, ConnectionState, Gap, Refused};

/// Appends the line of an event, and the lines of its bytes: in hex, or those that are printable as
/// they are.
pub(crate) fn append_event(
    event: &Event<'_>,
    in_hex: bool,
    out: &mut Vec<u8>,
) -> Result<(), AllocError> {
    match event.kind {
        EventKind::NoSegments => return out.extend_from_slice(b"no segments\n"),
        _ => append_line(event, out)?,
    }
    match event.kind {
        EventKind::Bytes { bytes, .. } if in_hex => append_byte_lines(bytes, out),
        EventKind::Bytes { bytes, .. } => append_escaped_lines(bytes, out),
        _ => Ok(()),
    }
}

fn append_line(event: &Event<'_>, out: &mut Vec<u8>) -> Result<(), AllocError> {
    let mut line = Line::begin(Style::Plain, None, out);
    match event.direction {
        Some(Way::FromFirst) => line.text(">")?,
        Some(Way::FromSecond) => line.text("<")?,
        None => line.counted("connection ", event.connection)?,
    }
    match (event.packet, event.kind) {
        (Some(packet), _) => line.counted(" packet ", packet)?,
        (None, EventKind::Bytes { .. } | EventKind::Gap(_)) => line.text(" at the end")?,
        (None, _) => {}
    }
    kind(&mut line, event)?;
    line.text("\n")
}

fn kind(line: &mut Line<'_>, event: &Event<'_>) -> Result<(), AllocError> {
    match event.kind {
        EventKind::NoSegments => Ok(()),
        EventKind::Begin => line.text(": begins"),
        EventKind::JoinedLate => line.text(": joined late"),
        EventKind::Bytes { position, bytes } => {
            line.counted(": bytes ", position)?;
            line.counted("..", position.saturating_add(bytes.len() as u64))
        }
        EventKind::Gap(Gap { start, end }) => {
            line.counted(": gap ", start)?;
            line.counted("..", end)
        }
        EventKind::Missing(Gap { start, end }) => {
            line.text(": ")?;
            count_of_missing(line, end.saturating_sub(start))?;
            line.counted(" from ", start)
        }
        EventKind::Conflicts(conflicts) => {
            line.text(": ")?;
            count_of_conflicts(line, conflicts)
        }
        EventKind::Refused(refused) => {
            line.text(": refused, ")?;
            reason(line, refused)
        }
        EventKind::DirectionEnd(end) => direction_end(line, end),
        EventKind::End(state) => {
            line.text(": ")?;
            line.text(state_text(state))
        }
    }
}

fn count_of_missing(line: &mut Line<'_>, count: u64) -> Result<(), AllocError> {
    line.number(count)?;
    line.text(if count == 1 {
        " byte missing"
    } else {
        " bytes missing"
    })
}

fn count_of_conflicts(line: &mut Line<'_>, conflicts: Conflicts) -> Result<(), AllocError> {
    line.number(conflicts.count)?;
    line.text(if conflicts.count == 1 {
        " conflict"
    } else {
        " conflicts"
    })?;
    match conflicts.first {
        Some(first) => line.counted(" from ", first),
        None => Ok(()),
    }
}

fn reason(line: &mut Line<'_>, refused: Refused) -> Result<(), AllocError> {
    match refused {
        Refused::OutsideWindow { window_end } => {
            line.counted("it ends after the window, which ends at ", window_end)
        }
        Refused::AfterFin { fin } => line.counted("it has a byte or FIN after the FIN at ", fin),
        Refused::AfterReset => line.text("the connection was reset"),
        Refused::OutOfMemory => line.text("out of memory"),
    }
}

fn direction_end(line: &mut Line<'_>, end: DirectionEnd) -> Result<(), AllocError> {
    line.counted(" ends: bytes 0..", end.len)?;
    fin(line, end)?;
    if end.joined_late {
        line.text(", SYN not seen")?;
    }
    if end.missing > 0 {
        line.text(", ")?;
        count_of_missing(line, end.missing)?;
    }
    if end.conflicts.count == 0 {
        return Ok(());
    }
    line.text(", ")?;
    count_of_conflicts(line, end.conflicts)
}

fn fin(line: &mut Line<'_>, end: DirectionEnd) -> Result<(), AllocError> {
    match end.fin {
        Some(_) if end.is_finished => line.text(", FIN"),
        Some(fin) => {
            line.counted(", FIN at ", fin)?;
            line.text(" after missing bytes")
        }
        None => line.text(", no FIN"),
    }
}

/// How a state is written.
pub(crate) fn state_text(state: ConnectionState) -> &'static str {
    match state {
        ConnectionState::Unseen => "not opened",
        ConnectionState::SynSent { .. } => "SYN not answered",
        ConnectionState::SynReceived { .. } => "SYN not acknowledged",
        ConnectionState::Established => "open",
        ConnectionState::Closing { .. } => "half closed",
        ConnectionState::Closed => "closed",
        ConnectionState::Reset => "reset",
    }
}

// Lines that begin with a tab: one ends after each byte that ends a line.
fn append_escaped_lines(bytes: &[u8], out: &mut Vec<u8>) -> Result<(), AllocError> {
    let mut begins = true;
    for byte in bytes {
        if begins {
            out.push(b'\t')?;
        }
        append_escaped(*byte, out)?;
        begins = *byte == b'\n';
        if begins {
            out.push(b'\n')?;
        }
    }
    if begins {
        Ok(())
    } else {
        out.extend_from_slice(b"\n")
    }
}

fn append_escaped(byte: u8, out: &mut Vec<u8>) -> Result<(), AllocError> {
    match byte {
        b'\\' => out.extend_from_slice(b"\\\\"),
        b'\n' => out.extend_from_slice(b"\\n"),
        b'\r' => out.extend_from_slice(b"\\r"),
        b'\t' => out.extend_from_slice(b"\\t"),
        32..=126 => out.extend_from_slice(&[byte]),
        _ => {
            out.extend_from_slice(b"\\x")?;
            out.extend_from_slice(&digits(byte))
        }
    }
}
