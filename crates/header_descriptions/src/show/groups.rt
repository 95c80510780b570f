//! Reports and queries of multicast groups in words: multicast listener discovery over IPv6 (RFC 2710,
//! RFC 3810), and IGMP over IPv4 (RFC 2236, RFC 3376).

use crate::show::addresses::{ipv4, ipv6};
use crate::show::cut_off;
use crate::show::line::Line;
use ep_icmp::icmpv6::mld::MldMessage;
use ep_icmp::igmp::IgmpMessage;
use ep_icmp::multicast::{GroupRecord, GroupRecordError, GroupRecords, MulticastError};
use std::alloc::AllocError;

/// What a message of multicast listener discovery says after its name. It has no contract: tests
/// compare the texts.
pub(crate) fn mld(line: &mut Line<'_>, message: MldMessage<'_>) -> Result<(), AllocError> {
    match message {
        MldMessage::Query { group, .. } => queried(line, &group, &[]),
        MldMessage::QueryV2 { group, sources, .. } => {
            line.text(" v2")?;
            queried(line, &group, sources.slice())
        }
        MldMessage::Report { group } | MldMessage::Done { group } => address(line, &group),
        MldMessage::ReportV2(records) => all(line, records),
    }
}

/// What the bytes of an IGMP message say. `false` where its type is none that is read: then nothing is
/// shown. It has no contract: tests compare the texts.
#[inline(never)]
pub fn igmp(line: &mut Line<'_>, bytes: &[u8]) -> Result<bool, AllocError> {
    match IgmpMessage::from_slice(bytes) {
        Some(Ok(message)) => {
            whole_igmp(line, message)?;
            Ok(true)
        }
        Some(Err(error)) => {
            line.text(igmp_name(bytes))?;
            too_short(line, &error)?;
            Ok(true)
        }
        None => Ok(false),
    }
}

// The name of a message of which bytes are missing.
fn igmp_name(bytes: &[u8]) -> &'static str {
    match bytes.first() {
        Some(17) => " query",
        Some(18) => " report v1",
        Some(22) => " report v2",
        Some(23) => " leave",
        _ => " report v3",
    }
}

fn whole_igmp(line: &mut Line<'_>, message: IgmpMessage<'_>) -> Result<(), AllocError> {
    match message {
        IgmpMessage::Query {
            max_response_time,
            group,
        } => {
            line.text(if max_response_time == 0 {
                " query v1"
            } else {
                " query v2"
            })?;
            queried(line, &group, &[])
        }
        IgmpMessage::QueryV3 { group, sources, .. } => {
            line.text(" query v3")?;
            queried(line, &group, sources.slice())
        }
        IgmpMessage::ReportV1 { group } => {
            line.text(" report v1")?;
            address(line, &group)
        }
        IgmpMessage::ReportV2 { group } => {
            line.text(" report v2")?;
            address(line, &group)
        }
        IgmpMessage::Leave { group } => {
            line.text(" leave")?;
            address(line, &group)
        }
        IgmpMessage::ReportV3(records) => {
            line.text(" report v3")?;
            all(line, records)
        }
    }
}

/// That bytes are missing of a message. It has no contract: tests compare the texts.
pub(crate) fn too_short(line: &mut Line<'_>, error: &MulticastError) -> Result<(), AllocError> {
    cut_off(line, error.needed_len, error.actual_len)
}

// The group of a query, or that it is for all, and the sources that it is about, if it names some.
fn queried(line: &mut Line<'_>, group: &[u8], sources: &[u8]) -> Result<(), AllocError> {
    if group.iter().all(|byte| *byte == 0) {
        line.text(" for all groups")?;
    } else {
        line.text(" for")?;
        address(line, group)?;
    }
    if sources.is_empty() {
        return Ok(());
    }
    line.text(" sources")?;
    addresses(line, group.len(), sources)
}

// An address of either version by its bytes.
fn address(line: &mut Line<'_>, bytes: &[u8]) -> Result<(), AllocError> {
    line.text(" ")?;
    if let Ok(bytes) = <[u8; 4]>::try_from(bytes) {
        return ipv4(line, &bytes);
    }
    match <[u8; 16]>::try_from(bytes) {
        Ok(bytes) => ipv6(line, &bytes),
        Err(_) => Ok(()),
    }
}

// Addresses of so many bytes, one after the other.
fn addresses(line: &mut Line<'_>, len: usize, bytes: &[u8]) -> Result<(), AllocError> {
    for bytes in bytes.chunks(len.max(1)) {
        address(line, bytes)?;
    }
    Ok(())
}

// The records of a report. The first that is cut off ends them.
fn all<const N: usize>(
    line: &mut Line<'_>,
    records: GroupRecords<'_, N>,
) -> Result<(), AllocError> {
    let mut records = records;
    let mut before = "";
    for _ in 0..records.count_left() {
        next_record(line, &mut records, before)?;
        before = ",";
    }
    Ok(())
}

// The first record that is left, if there is one, after this text.
fn next_record<const N: usize>(
    line: &mut Line<'_>,
    records: &mut GroupRecords<'_, N>,
    before: &str,
) -> Result<(), AllocError> {
    let Some(item) = records.next() else {
        return Ok(());
    };
    line.text(before)?;
    record_or_error(line, &item)
}

fn record_or_error<const N: usize>(
    line: &mut Line<'_>,
    item: &Result<GroupRecord<'_, N>, GroupRecordError>,
) -> Result<(), AllocError> {
    match item {
        Ok(record) => group(
            line,
            N,
            record.slice(),
            record.kind(),
            record.sources().slice(),
        ),
        Err(error) => record_cut_off(line, error),
    }
}

// A group, by an address of so many bytes after the first four of its record, with what that says of
// it.
fn group(
    line: &mut Line<'_>,
    len: usize,
    record: &[u8],
    kind: u8,
    sources: &[u8],
) -> Result<(), AllocError> {
    address(line, record.get(4..len.saturating_add(4)).unwrap_or(&[]))?;
    line.text(" (")?;
    match kind_name(kind) {
        Some(name) => line.text(name)?,
        None => line.counted("type ", kind.into())?,
    }
    addresses(line, len, sources)?;
    line.text(")")
}

// The types of records (RFC 3376, section 4.2.12; RFC 3810, section 5.2.12).
fn kind_name(kind: u8) -> Option<&'static str> {
    match kind {
        1 => Some("is include"),
        2 => Some("is exclude"),
        3 => Some("to include"),
        4 => Some("to exclude"),
        5 => Some("allow"),
        6 => Some("block"),
        _ => None,
    }
}

// The records begin at byte 8 of a report.
fn record_cut_off(line: &mut Line<'_>, error: &GroupRecordError) -> Result<(), AllocError> {
    line.counted(" record at byte ", error.offset.saturating_add(8) as u64)?;
    line.text(" cut off")
}
