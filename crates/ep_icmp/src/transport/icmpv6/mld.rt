//! Multicast listener discovery for IPv6 (RFC 2710, RFC 3810).
ghost use Rattle.std.specs.Prelude.{◌≡◌, ◌+◌, ◌≤◌, ◌*◌, length, Some};
ghost use Rattle.ep_base.specs.Bytes.{num};
ghost use Rattle.ep_icmp.specs.Mld as spec;

use crate::Icmpv6Slice;
use crate::multicast::{GroupRecords, MulticastError, Sources, needs};

/// A message of multicast listener discovery, borrowed: type, group and sources.
#[derive(Clone, Debug, Drop)]
pub enum MldMessage<'a> {
    /// A query of version 1 (type 130, 24 bytes; RFC 2710, section 3).
    Query {
        /// How long a listener may wait with its report, in milliseconds.
        max_response_delay: u16,
        /// The group that is queried; all zeros: every group.
        group: [u8; 16],
    },
    /// A query of version 2 (type 130, 28 bytes or more; RFC 3810, section 5.1).
    QueryV2 {
        /// How long a listener may wait with its report, as a code (section 5.1.3).
        max_response_code: u16,
        /// The group that is queried; all zeros: every group.
        group: [u8; 16],
        /// The sources that are queried; none: every source.
        sources: Sources<'a, 16>,
    },
    /// A report of version 1 (type 131).
    Report {
        /// The group that is listened to.
        group: [u8; 16],
    },
    /// The end of listening (type 132).
    Done {
        /// The group that is no more listened to.
        group: [u8; 16],
    },
    /// A report of version 2 (type 143; RFC 3810, section 5.2).
    ReportV2(GroupRecords<'a, 16>),
}

impl<'a> MldMessage<'a> {
    /// The message of multicast listener discovery that an ICMPv6 message is. `None` where it is of
    /// another type than 130, 131, 132 and 143; too few bytes for its type are refused.
    pub fn from_icmpv6(message: &Icmpv6Slice<'a>) -> Option<Result<MldMessage<'a>, MulticastError>>
        ensures { result ≡ spec.mld_at message.now }
    {
        MldMessage::from_slice(message.slice())
    }

    /// The message that this slice is. `None` where the first byte is another type than 130, 131,
    /// 132 and 143; too few bytes for its type are refused. A query of 25 to 27 bytes is one of
    /// version 2 that is cut off (RFC 3810, section 8.1).
    pub fn from_slice(slice: &'a [u8]) -> Option<Result<MldMessage<'a>, MulticastError>>
        ensures { result ≡ spec.mld_at slice.now }
    {
        if slice.is_empty() {
            return None;
        }
        match slice[0] {
            130 => Some(query(slice)),
            131 => Some(match needs(slice, 24) {
                Ok(()) => Ok(MldMessage::Report {
                    group: group(slice),
                }),
                Err(error) => Err(error),
            }),
            132 => Some(match needs(slice, 24) {
                Ok(()) => Ok(MldMessage::Done {
                    group: group(slice),
                }),
                Err(error) => Err(error),
            }),
            143 => Some(match needs(slice, 8) {
                Ok(()) => {
                    let count = u16::from_be_bytes([slice[6], slice[7]]);
                    Ok(MldMessage::ReportV2(GroupRecords::new(&slice[8..], count)))
                }
                Err(error) => Err(error),
            }),
            _ => None,
        }
    }
}

// The query that the slice is.
fn query(slice: &[u8]) -> Result<MldMessage<'_>, MulticastError>
    ensures { result ≡ spec.query_at slice.now }
{
    needs(slice, 24)?;
    let code = u16::from_be_bytes([slice[4], slice[5]]);
    if slice.len() == 24 {
        return Ok(MldMessage::Query {
            max_response_delay: code,
            group: group(slice),
        });
    }
    needs(slice, 28)?;
    let sources = u16::from_be_bytes([slice[26], slice[27]]);
    let end = 28 + 16 * usize::from(sources);
    needs(slice, end)?;
    Ok(MldMessage::QueryV2 {
        max_response_code: code,
        group: group(slice),
        sources: Sources::new(&slice[28..end]),
    })
}

// The group of a message of at least 24 bytes.
fn group(slice: &[u8]) -> [u8; 16]
    requires { 24 ≤ length slice.now }
    ensures { result ≡ spec.group_of slice.now }
{
    slice[8..24].try_into().unwrap()
}
