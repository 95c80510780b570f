//! Messages of multicast groups, over IPv4 (IGMP) and IPv6 (multicast listener discovery), as fields
//! and numbers.
ghost use Rattle.std.specs.Prelude.{◌≡◌};
ghost use Rattle.etherparse.specs.icmp.Igmp as igmp;
ghost use Rattle.etherparse.specs.icmp.Mld as mld;
ghost use Rattle.etherparse_structs.specs.GroupMessage.{about_group, igmp_struct, igmp_struct_in, mld_struct, mld_struct_in};
ghost use Rattle.etherparse_structs.specs.GroupMessage.{no_group_message, short_struct};

use crate::EpPart;
use crate::group_record::{EpGroupRecords, padded};
use etherparse::icmpv6::mld::MldMessage;
use etherparse::igmp::IgmpMessage;
use etherparse::multicast::MulticastError;

/// No message of a multicast group.
pub const GROUP_NONE: u32 = 0;

/// A query without sources: version 1 of MLD, 1 or 2 of IGMP.
pub const GROUP_QUERY: u32 = 1;

/// A query that may name sources: version 2 of MLD, 3 of IGMP.
pub const GROUP_QUERY_WITH_SOURCES: u32 = 2;

/// A report of version 1: of one group.
pub const GROUP_REPORT: u32 = 3;

/// Of IGMP: a report of version 2: of one group.
pub const GROUP_REPORT_V2: u32 = 4;

/// A group is left.
pub const GROUP_LEAVE: u32 = 5;

/// A report of records: version 2 of MLD, 3 of IGMP.
pub const GROUP_RECORDS: u32 = 6;

/// A message that is shorter than its type needs.
pub const GROUP_TOO_SHORT: u32 = 7;

/// A message of a multicast group: of IGMP over IPv4 (RFC 2236; RFC 3376), or of multicast listener
/// discovery over IPv6 (RFC 2710; RFC 3810). The fields of other kinds are 0.
#[repr(C)]
#[derive(Drop)]
pub struct EpGroupMessage {
    /// Of a query with sources: their addresses, of 4 or 16 bytes each; none: every source.
    pub sources: EpPart,
    /// Of a report of records: the records.
    pub records: EpGroupRecords,
    /// Of one that is too short: how many bytes it needs.
    pub needed: usize,
    /// Of one that is too short: how many bytes it has.
    pub there: usize,
    /// The kind, one of EP_GROUP_..
    pub kind: u32,
    /// Of a query: how long a host may wait with its report. Without sources: of IGMP in tenths of a
    /// second, 0: version 1; of MLD in milliseconds. With sources: as a code (RFC 3376, section
    /// 4.1.1; RFC 3810, section 5.1.3).
    pub max_response: u16,
    /// Of kinds 1 to 5: the address of the group, the first 4 bytes, or all 16 of IPv6. Of a query all
    /// zeros: every group.
    pub group: [u8; 16],
}

/// The message of IGMP that these bytes are.
pub fn igmp_message(message: &[u8]) -> EpGroupMessage
    ensures { result ≡ igmp_struct_in (igmp.igmp_at message.now) }
{
    match IgmpMessage::from_slice(message) {
        Some(Ok(message)) => igmp_struct(message),
        Some(Err(error)) => short_struct(error),
        None => no_group_message(),
    }
}

/// The message of multicast listener discovery that an ICMPv6 message is.
pub fn mld_message(message: &[u8]) -> EpGroupMessage
    ensures { result ≡ mld_struct_in (mld.mld_at message.now) }
{
    match MldMessage::from_slice(message) {
        Some(Ok(message)) => mld_struct(message),
        Some(Err(error)) => short_struct(error),
        None => no_group_message(),
    }
}

fn no_group_message() -> EpGroupMessage
    ensures { result ≡ no_group_message }
{
    EpGroupMessage {
        sources: EpPart::none(),
        records: EpGroupRecords {
            left: EpPart::none(),
            count: 0,
            is_ipv6: false,
        },
        needed: 0,
        there: 0,
        kind: 0,
        max_response: 0,
        group: [0; 16],
    }
}

fn short_struct(error: MulticastError) -> EpGroupMessage
    ensures { result ≡ short_struct error }
{
    EpGroupMessage {
        needed: error.needed_len,
        there: error.actual_len,
        kind: GROUP_TOO_SHORT,
        ..no_group_message()
    }
}

// A message about a group, of which a query says how long a host may wait.
fn about_group(kind: u32, max_response: u16, group: [u8; 16]) -> EpGroupMessage
    ensures { result ≡ about_group kind max_response group }
{
    EpGroupMessage {
        kind,
        max_response,
        group,
        ..no_group_message()
    }
}

fn igmp_struct(message: IgmpMessage<'_>) -> EpGroupMessage
    ensures { result ≡ igmp_struct message.entry }
{
    match message {
        IgmpMessage::Query {
            max_response_time,
            group,
        } => about_group(GROUP_QUERY, u16::from(max_response_time), padded(group)),
        IgmpMessage::QueryV3 {
            max_response_code,
            group,
            sources,
        } => EpGroupMessage {
            sources: EpPart::of(12, sources.slice()),
            ..about_group(
                GROUP_QUERY_WITH_SOURCES,
                u16::from(max_response_code),
                padded(group),
            )
        },
        IgmpMessage::ReportV1 { group } => about_group(GROUP_REPORT, 0, padded(group)),
        IgmpMessage::ReportV2 { group } => about_group(GROUP_REPORT_V2, 0, padded(group)),
        IgmpMessage::Leave { group } => about_group(GROUP_LEAVE, 0, padded(group)),
        IgmpMessage::ReportV3(records) => EpGroupMessage {
            records: EpGroupRecords {
                left: EpPart::of(8, records.rest()),
                count: u32::from(records.count_left()),
                is_ipv6: false,
            },
            kind: GROUP_RECORDS,
            ..no_group_message()
        },
    }
}

fn mld_struct(message: MldMessage<'_>) -> EpGroupMessage
    ensures { result ≡ mld_struct message.entry }
{
    match message {
        MldMessage::Query {
            max_response_delay,
            group,
        } => about_group(GROUP_QUERY, max_response_delay, group),
        MldMessage::QueryV2 {
            max_response_code,
            group,
            sources,
        } => EpGroupMessage {
            sources: EpPart::of(28, sources.slice()),
            ..about_group(GROUP_QUERY_WITH_SOURCES, max_response_code, group)
        },
        MldMessage::Report { group } => about_group(GROUP_REPORT, 0, group),
        MldMessage::Done { group } => about_group(GROUP_LEAVE, 0, group),
        MldMessage::ReportV2(records) => EpGroupMessage {
            records: EpGroupRecords {
                left: EpPart::of(8, records.rest()),
                count: u32::from(records.count_left()),
                is_ipv6: true,
            },
            kind: GROUP_RECORDS,
            ..no_group_message()
        },
    }
}
