//! The Internet group management protocol (RFC 2236, RFC 3376).
ghost use Rattle.std.specs.Prelude.{◌≡◌, ◌+◌, ◌≤◌, ◌*◌, length};
ghost use Rattle.ep_base.specs.Bytes.{num};
ghost use Rattle.ep_icmp.specs.Igmp as spec;
ghost use Rattle.ep_icmp.specs.Multicast as multicast;

use crate::multicast::{GroupRecords, MulticastError, Sources, needs};

/// A message of the Internet group management protocol, borrowed: type, group and sources.
#[derive(Clone, Debug, Drop)]
pub enum IgmpMessage<'a> {
    /// A query of version 1 or 2 (type 17, 8 bytes; RFC 2236, section 2).
    Query {
        /// How long a host may wait with its report, in tenths of a second; 0: version 1.
        max_response_time: u8,
        /// The group that is queried; all zeros: every group.
        group: [u8; 4],
    },
    /// A query of version 3 (type 17, 12 bytes or more; RFC 3376, section 4.1).
    QueryV3 {
        /// How long a host may wait with its report, as a code (section 4.1.1).
        max_response_code: u8,
        /// The group that is queried; all zeros: every group.
        group: [u8; 4],
        /// The sources that are queried; none: every source.
        sources: Sources<'a, 4>,
    },
    /// A report of version 1 (type 18).
    ReportV1 {
        /// The group that is joined.
        group: [u8; 4],
    },
    /// A report of version 2 (type 22).
    ReportV2 {
        /// The group that is joined.
        group: [u8; 4],
    },
    /// A group is left (type 23).
    Leave {
        /// The group.
        group: [u8; 4],
    },
    /// A report of version 3 (type 34; RFC 3376, section 4.2).
    ReportV3(GroupRecords<'a, 4>),
}

impl<'a> IgmpMessage<'a> {
    /// The message that this slice is. `None` where the first byte is another type than 17, 18, 22,
    /// 23 and 34; too few bytes for its type are refused. A query of 9 to 11 bytes is one of version
    /// 3 that is cut off (RFC 3376, section 7.1).
    pub fn from_slice(slice: &'a [u8]) -> Option<Result<IgmpMessage<'a>, MulticastError>>
        ensures { result ≡ spec.igmp_at slice.now }
    {
        if slice.is_empty() {
            return None;
        }
        match slice[0] {
            17 => Some(query(slice)),
            18 | 22 | 23 => Some(membership(slice)),
            34 => Some(match needs(slice, 8) {
                Ok(()) => {
                    let count = u16::from_be_bytes([slice[6], slice[7]]);
                    Ok(IgmpMessage::ReportV3(GroupRecords::new(&slice[8..], count)))
                }
                Err(error) => Err(error),
            }),
            _ => None,
        }
    }
}

// The report of version 1 or 2 or the end of a membership that the slice is.
fn membership(slice: &[u8]) -> Result<IgmpMessage<'_>, MulticastError>
    requires some { 1 ≤ length slice.now }
    ensures { result ≡ multicast.needs 8 slice.now
        (spec.member (num slice.now 0 1) (spec.group_of slice.now)) }
{
    needs(slice, 8)?;
    let group = group(slice);
    Ok(match slice[0] {
        18 => IgmpMessage::ReportV1 { group },
        22 => IgmpMessage::ReportV2 { group },
        _ => IgmpMessage::Leave { group },
    })
}

// The query that the slice is.
fn query(slice: &[u8]) -> Result<IgmpMessage<'_>, MulticastError>
    ensures { result ≡ spec.query_at slice.now }
{
    needs(slice, 8)?;
    let code = slice[1];
    if slice.len() == 8 {
        return Ok(IgmpMessage::Query {
            max_response_time: code,
            group: group(slice),
        });
    }
    needs(slice, 12)?;
    let sources = u16::from_be_bytes([slice[10], slice[11]]);
    let end = 12 + 4 * usize::from(sources);
    needs(slice, end)?;
    Ok(IgmpMessage::QueryV3 {
        max_response_code: code,
        group: group(slice),
        sources: Sources::new(&slice[12..end]),
    })
}

// The group of a message of at least 8 bytes.
fn group(slice: &[u8]) -> [u8; 4]
    requires { 8 ≤ length slice.now }
    ensures { result ≡ spec.group_of slice.now }
{
    slice[4..8].try_into().unwrap()
}
