//! Messages of multicast listener discovery and of the Internet group management protocol, as scapy
//! 2.5.0 makes them, and such as are cut off.
use crate::checks::{equal, equal_bytes, fail, reads, shows};
use ep_icmp::Icmpv6Slice;
use ep_icmp::icmpv6::mld::MldMessage;
use ep_icmp::igmp::IgmpMessage;
use ep_icmp::multicast::{GroupRecord, GroupRecords};
use std::process::Abort;

// Messages, their least lengths, and what they are read as.
#[rattlefmt::skip]
const LISTENERS: &[(&[u8], usize, &str)] = &[
    (
        &[130, 0, 89, 23, 39, 16, 0, 0, 0, 0, 0, 0, 0, 0, 0, 0, 0, 0, 0, 0, 0, 0, 0, 0], 24,
        "Query { max_response_delay: 10000, group: [0, 0, 0, 0, 0, 0, 0, 0, 0, 0, 0, 0, 0, 0, 0, 0] }",
    ),
    (
        &[131, 0, 128, 29, 0, 0, 0, 0, 255, 2, 0, 0, 0, 0, 0, 0, 0, 0, 0, 0, 0, 1, 0, 3], 24,
        "Report { group: [255, 2, 0, 0, 0, 0, 0, 0, 0, 0, 0, 0, 0, 1, 0, 3] }",
    ),
    (
        &[132, 0, 127, 31, 0, 0, 0, 0, 255, 2, 0, 0, 0, 0, 0, 0, 0, 0, 0, 0, 0, 1, 0, 3], 24,
        "Done { group: [255, 2, 0, 0, 0, 0, 0, 0, 0, 0, 0, 0, 0, 1, 0, 3] }",
    ),
    (
        &[130, 0, 243, 238, 39, 16, 0, 0, 255, 14, 0, 0, 0, 0, 0, 0, 0, 0, 0, 0, 0, 0, 0, 1, 10, 125, 0, 2, 32, 1, 13, 184, 0, 0, 0, 0, 0, 0, 0, 0, 0, 0, 0, 1, 32, 1, 13, 184, 0, 0, 0, 0, 0, 0, 0, 0, 0, 0, 0, 2], 60,
        "QueryV2 { max_response_code: 10000, group: [255, 14, 0, 0, 0, 0, 0, 0, 0, 0, 0, 0, 0, 0, 0, 1], sources: Sources { bytes: [32, 1, 13, 184, 0, 0, 0, 0, 0, 0, 0, 0, 0, 0, 0, 1, 32, 1, 13, 184, 0, 0, 0, 0, 0, 0, 0, 0, 0, 0, 0, 2] } }",
    ),
];

#[rattlefmt::skip]
const GROUPS: &[(&[u8], usize, &str)] = &[
    (
        &[17, 100, 13, 160, 224, 0, 0, 251], 8,
        "Query { max_response_time: 100, group: [224, 0, 0, 251] }",
    ),
    (
        &[18, 100, 12, 160, 224, 0, 0, 251], 8,
        "ReportV1 { group: [224, 0, 0, 251] }",
    ),
    (
        &[22, 100, 8, 160, 224, 0, 0, 251], 8,
        "ReportV2 { group: [224, 0, 0, 251] }",
    ),
    (
        &[23, 100, 7, 160, 224, 0, 0, 251], 8,
        "Leave { group: [224, 0, 0, 251] }",
    ),
    (
        &[17, 100, 119, 21, 232, 1, 1, 1, 10, 125, 0, 2, 192, 0, 2, 1, 192, 0, 2, 2], 20,
        "QueryV3 { max_response_code: 100, group: [232, 1, 1, 1], sources: Sources { bytes: [192, 0, 2, 1, 192, 0, 2, 2] } }",
    ),
];

#[rattlefmt::skip]
const LISTENER_REPORT: &[u8] = &[143, 0, 62, 11, 0, 0, 0, 2, 4, 0, 0, 0, 255, 2, 0, 0, 0, 0, 0, 0, 0, 0, 0, 0, 0, 1, 0, 3, 1, 1, 0, 1, 255, 14, 0, 0, 0, 0, 0, 0, 0, 0, 0, 0, 0, 0, 0, 1, 32, 1, 13, 184, 0, 0, 0, 0, 0, 0, 0, 0, 0, 0, 0, 1, 1, 2, 3, 4];

#[rattlefmt::skip]
const GROUP_REPORT: &[u8] = &[34, 0, 76, 252, 0, 0, 0, 2, 4, 0, 0, 0, 224, 0, 0, 251, 1, 0, 0, 1, 232, 1, 1, 1, 192, 0, 2, 1];

#[test]
fn listener_messages(rt: HostRuntime) {
    for (bytes, _, text) in LISTENERS.iter() {
        match MldMessage::from_slice(bytes) {
            Some(Ok(message)) => shows(rt, &message, text),
            _ => fail(rt, "no message"),
        }
    }
}

#[test]
fn group_messages(rt: HostRuntime) {
    for (bytes, _, text) in GROUPS.iter() {
        match IgmpMessage::from_slice(bytes) {
            Some(Ok(message)) => shows(rt, &message, text),
            _ => fail(rt, "no message"),
        }
    }
}

// A query of at least 24 bytes is one of version 1 that is followed by too few bytes, and of 28 or
// more one of version 2.
#[test]
fn cut_listener_messages(rt: HostRuntime) {
    for (bytes, len, _) in LISTENERS.iter() {
        for (index, _) in bytes.iter().enumerate() {
            is_cut_listener_message(rt, bytes, index, *len);
        }
    }
}

fn is_cut_listener_message(rt: impl Abort + Copy, bytes: &[u8], index: usize, len: usize) {
    let Some((prefix, _)) = bytes.split_at_checked(index) else {
        fail(rt, "no prefix");
    };
    match MldMessage::from_slice(prefix) {
        None => equal(rt, index, 0),
        Some(Ok(_)) => equal(rt, (index, len > 24), (24, true)),
        Some(Err(error)) => {
            equal(rt, (error.actual_len, index < len), (index, true));
            let needed = if index < 24 {
                24
            } else if index < 28 {
                28
            } else {
                len
            };
            equal(rt, error.needed_len, needed);
        }
    }
}

#[test]
fn cut_group_messages(rt: HostRuntime) {
    for (bytes, len, _) in GROUPS.iter() {
        for (index, _) in bytes.iter().enumerate() {
            is_cut_group_message(rt, bytes, index, *len);
        }
    }
}

fn is_cut_group_message(rt: impl Abort + Copy, bytes: &[u8], index: usize, len: usize) {
    let Some((prefix, _)) = bytes.split_at_checked(index) else {
        fail(rt, "no prefix");
    };
    match IgmpMessage::from_slice(prefix) {
        None => equal(rt, index, 0),
        Some(Ok(_)) => equal(rt, (index, len > 8), (8, true)),
        Some(Err(error)) => {
            equal(rt, (error.actual_len, index < len), (index, true));
            let needed = if index < 8 {
                8
            } else if index < 12 {
                12
            } else {
                len
            };
            equal(rt, error.needed_len, needed);
        }
    }
}

#[test]
fn other_types(rt: HostRuntime) {
    for type_u8 in [0u8, 16, 19, 21, 24, 33, 35, 129, 133, 142, 144] {
        let bytes = [type_u8; 40];
        equal(rt, MldMessage::from_slice(&bytes).is_none(), true);
        equal(rt, IgmpMessage::from_slice(&bytes).is_none(), true);
    }
}

#[test]
fn records_of_listeners(rt: HostRuntime) {
    let Ok(icmpv6) = Icmpv6Slice::from_slice(LISTENER_REPORT) else {
        fail(rt, "no ICMPv6 message");
    };
    let Some(Ok(MldMessage::ReportV2(mut records))) = MldMessage::from_icmpv6(&icmpv6) else {
        fail(rt, "no report");
    };
    equal(rt, (records.count_left(), records.rest().len()), (2, 60));
    let Some(Ok(first)) = records.next() else {
        fail(rt, "no record");
    };
    is_listener_record(
        rt,
        &first,
        (
            4,
            &[255, 2, 0, 0, 0, 0, 0, 0, 0, 0, 0, 0, 0, 1, 0, 3],
            &[],
            &[],
        ),
    );
    equal(rt, first.slice().len(), 20);
    let Some(Ok(second)) = records.next() else {
        fail(rt, "no record");
    };
    is_listener_record(
        rt,
        &second,
        (
            1,
            &[255, 14, 0, 0, 0, 0, 0, 0, 0, 0, 0, 0, 0, 0, 0, 1],
            &[32, 1, 13, 184, 0, 0, 0, 0, 0, 0, 0, 0, 0, 0, 0, 1],
            &[1, 2, 3, 4],
        ),
    );
    equal(
        rt,
        (records.next().is_none(), records.count_left()),
        (true, 0),
    );
}

// A type, a group, its sources and auxiliary data.
type Parts<'a> = (u8, &'a [u8], &'a [u8], &'a [u8]);

fn is_record(rt: impl Abort + Copy, found: Parts<'_>, wanted: Parts<'_>) {
    equal(rt, found.0, wanted.0);
    equal_bytes(rt, found.1, wanted.1);
    equal_bytes(rt, found.2, wanted.2);
    equal_bytes(rt, found.3, wanted.3);
}

fn is_listener_record(rt: impl Abort + Copy, record: &GroupRecord<'_, 16>, wanted: Parts<'_>) {
    let (group, sources) = (record.group(), record.sources());
    let found = (
        record.kind(),
        &group[..],
        sources.slice(),
        record.auxiliary_data(),
    );
    is_record(rt, found, wanted);
}

fn is_group_record(rt: impl Abort + Copy, record: &GroupRecord<'_, 4>, wanted: Parts<'_>) {
    let (group, sources) = (record.group(), record.sources());
    let found = (
        record.kind(),
        &group[..],
        sources.slice(),
        record.auxiliary_data(),
    );
    is_record(rt, found, wanted);
}

#[test]
fn records_of_groups(rt: HostRuntime) {
    let mut records = group_records(rt, GROUP_REPORT);
    let Some(Ok(first)) = records.next() else {
        fail(rt, "no record");
    };
    is_group_record(rt, &first, (4, &[224, 0, 0, 251], &[], &[]));
    let Some(Ok(second)) = records.next() else {
        fail(rt, "no record");
    };
    is_group_record(rt, &second, (1, &[232, 1, 1, 1], &[192, 0, 2, 1], &[]));
    equal(
        rt,
        (records.next().is_none(), records.rest().len()),
        (true, 0),
    );
}

fn group_records<'a>(rt: impl Abort + Copy, bytes: &'a [u8]) -> GroupRecords<'a, 4> {
    match IgmpMessage::from_slice(bytes) {
        Some(Ok(IgmpMessage::ReportV3(records))) => records,
        _ => fail(rt, "no report"),
    }
}

// Reports that are cut off in their second record, before its sources and in them.
#[rattlefmt::skip]
const CUT: &[(&[u8], &str, &str)] = &[
    (
        &[34, 0, 76, 252, 0, 0, 0, 2, 4, 0, 0, 0, 224, 0, 0, 251, 1, 0, 0, 1, 232],
        "GroupRecordError { offset: 8, needed_len: 8, actual_len: 5 }",
        "group record at offset 8: 8 byte(s) are needed, and 5 are left",
    ),
    (
        &[34, 0, 76, 252, 0, 0, 0, 2, 4, 0, 0, 0, 224, 0, 0, 251, 1, 0, 0, 1, 232, 1, 1, 1, 192, 0, 2],
        "GroupRecordError { offset: 8, needed_len: 12, actual_len: 11 }",
        "group record at offset 8: 12 byte(s) are needed, and 11 are left",
    ),
];

#[test]
fn records_that_are_cut_off(rt: HostRuntime) {
    for (bytes, text, message) in CUT.iter() {
        let mut records = group_records(rt, bytes);
        equal(rt, matches!(records.next(), Some(Ok(_))), true);
        match records.next() {
            Some(Err(error)) => {
                shows(rt, &error, text);
                reads(rt, &error, message);
            }
            _ => fail(rt, "no fault"),
        }
        equal(
            rt,
            (records.next().is_none(), records.count_left()),
            (true, 0),
        );
    }
}

#[test]
fn errors_as_text(rt: HostRuntime) {
    match IgmpMessage::from_slice(&[17]) {
        Some(Err(error)) => {
            shows(
                rt,
                &error,
                "MulticastError { needed_len: 8, actual_len: 1 }",
            );
            reads(
                rt,
                &error,
                "multicast group message: 8 byte(s) are needed, and 1 are there",
            );
        }
        _ => fail(rt, "no error"),
    }
}
