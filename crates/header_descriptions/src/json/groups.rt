//! Reports and queries of multicast groups: multicast listener discovery over IPv6 (RFC 2710, RFC
//! 3810), and IGMP over IPv4 (RFC 2236, RFC 3376).

use crate::json::fields::{Hex, begin, ipv4_string, number, printed};
use ep_icmp::icmpv6::mld::MldMessage;
use ep_icmp::igmp::IgmpMessage;
use ep_icmp::multicast::{GroupRecord, GroupRecordError, GroupRecords, MulticastError};
use serde::Serializer;
use std::net::Ipv6Addr;

/// A message of multicast listener discovery, or how many bytes are missing. It has no contract:
/// tests compare the texts.
pub(crate) fn mld<S: Serializer>(
    out: &mut S,
    read: Result<MldMessage<'_>, MulticastError>,
) -> Result<(), S::Error> {
    begin(out, "mld")?;
    match read {
        Ok(message) => whole_mld(out, message)?,
        Err(error) => too_short(out, &error)?,
    }
    out.end_map()
}

/// The message that these bytes of IGMP are, or how many bytes are missing; no member where its type
/// is none that is read. It has no contract: tests compare the texts.
#[inline(never)]
pub fn igmp<S: Serializer>(out: &mut S, bytes: &[u8]) -> Result<(), S::Error> {
    let Some(read) = IgmpMessage::from_slice(bytes) else {
        return Ok(());
    };
    begin(out, "igmp")?;
    match read {
        Ok(message) => whole_igmp(out, message)?,
        Err(error) => too_short(out, &error)?,
    }
    out.end_map()
}

fn too_short<S: Serializer>(out: &mut S, error: &MulticastError) -> Result<(), S::Error> {
    begin(out, "MulticastError")?;
    number(out, "needed_len", error.needed_len as u64)?;
    number(out, "actual_len", error.actual_len as u64)?;
    out.end_map()
}

fn whole_mld<S: Serializer>(out: &mut S, message: MldMessage<'_>) -> Result<(), S::Error> {
    match message {
        MldMessage::Query {
            max_response_delay,
            group,
        } => {
            begin(out, "Query")?;
            number(out, "max_response_delay", max_response_delay.into())?;
            address(out, "group", &group)?;
        }
        MldMessage::QueryV2 {
            max_response_code,
            group,
            sources,
        } => {
            begin(out, "QueryV2")?;
            number(out, "max_response_code", max_response_code.into())?;
            address(out, "group", &group)?;
            addresses(out, "sources", 16, sources.slice())?;
        }
        MldMessage::Report { group } => {
            begin(out, "Report")?;
            address(out, "group", &group)?;
        }
        MldMessage::Done { group } => {
            begin(out, "Done")?;
            address(out, "group", &group)?;
        }
        MldMessage::ReportV2(records) => {
            begin(out, "ReportV2")?;
            all(out, records)?;
        }
    }
    out.end_map()
}

fn whole_igmp<S: Serializer>(out: &mut S, message: IgmpMessage<'_>) -> Result<(), S::Error> {
    match message {
        IgmpMessage::Query {
            max_response_time,
            group,
        } => {
            begin(out, "Query")?;
            number(out, "max_response_time", max_response_time.into())?;
            address(out, "group", &group)?;
        }
        IgmpMessage::QueryV3 {
            max_response_code,
            group,
            sources,
        } => {
            begin(out, "QueryV3")?;
            number(out, "max_response_code", max_response_code.into())?;
            address(out, "group", &group)?;
            addresses(out, "sources", 4, sources.slice())?;
        }
        IgmpMessage::ReportV1 { group } => {
            begin(out, "ReportV1")?;
            address(out, "group", &group)?;
        }
        IgmpMessage::ReportV2 { group } => {
            begin(out, "ReportV2")?;
            address(out, "group", &group)?;
        }
        IgmpMessage::Leave { group } => {
            begin(out, "Leave")?;
            address(out, "group", &group)?;
        }
        IgmpMessage::ReportV3(records) => {
            begin(out, "ReportV3")?;
            all(out, records)?;
        }
    }
    out.end_map()
}

// The records of a report in their order. The first that is cut off ends them.
fn all<S: Serializer, const N: usize>(
    out: &mut S,
    records: GroupRecords<'_, N>,
) -> Result<(), S::Error> {
    let mut records = records;
    out.key("records")?;
    out.begin_seq(None)?;
    for _ in 0..records.count_left() {
        next_record(out, &mut records)?;
    }
    out.end_seq()
}

// The first record that is left, if there is one.
fn next_record<S: Serializer, const N: usize>(
    out: &mut S,
    records: &mut GroupRecords<'_, N>,
) -> Result<(), S::Error> {
    let Some(item) = records.next() else {
        return Ok(());
    };
    out.begin_map(None)?;
    record_or_error(out, &item)?;
    out.end_map()
}

fn record_or_error<S: Serializer, const N: usize>(
    out: &mut S,
    item: &Result<GroupRecord<'_, N>, GroupRecordError>,
) -> Result<(), S::Error> {
    match item {
        Ok(record) => {
            begin(out, "GroupRecord")?;
            number(out, "kind", record.kind().into())?;
            let group = record.slice().get(4..N.saturating_add(4));
            address(out, "group", group.unwrap_or(&[]))?;
            addresses(out, "sources", N, record.sources().slice())?;
            printed(out, "auxiliary_data", &Hex(record.auxiliary_data()))?;
        }
        Err(error) => {
            begin(out, "GroupRecordError")?;
            number(out, "offset", error.offset as u64)?;
            number(out, "needed_len", error.needed_len as u64)?;
            number(out, "actual_len", error.actual_len as u64)?;
        }
    }
    out.end_map()
}

fn address<S: Serializer>(out: &mut S, name: &str, bytes: &[u8]) -> Result<(), S::Error> {
    out.key(name)?;
    address_text(out, bytes)
}

// An address of either version by its bytes.
fn address_text<S: Serializer>(out: &mut S, bytes: &[u8]) -> Result<(), S::Error> {
    if let Ok(bytes) = <[u8; 4]>::try_from(bytes) {
        return ipv4_string(out, bytes);
    }
    match <[u8; 16]>::try_from(bytes) {
        Ok(bytes) => out.collect_str(&Ipv6Addr::from(bytes)),
        Err(_) => out.collect_str(&Hex(bytes)),
    }
}

/// A list of addresses of so many bytes, one after the other. It has no contract: tests compare the
/// texts.
pub(crate) fn addresses<S: Serializer>(
    out: &mut S,
    name: &str,
    len: usize,
    bytes: &[u8],
) -> Result<(), S::Error> {
    out.key(name)?;
    out.begin_seq(None)?;
    for bytes in bytes.chunks(len.max(1)) {
        address_text(out, bytes)?;
    }
    out.end_seq()
}
