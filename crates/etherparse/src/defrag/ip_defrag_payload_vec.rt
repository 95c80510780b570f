//! A datagram that was reassembled.

use ep_base::{IpNumber, LenSource};

/// The payload of a datagram that was reassembled from fragments.
#[derive(Debug, PartialEq, Eq, Drop)]
pub struct IpDefragPayloadVec {
    /// The number of the payload's protocol.
    pub ip_number: IpNumber,
    /// What the lengths of the fragments came from.
    pub len_source: LenSource,
    /// The bytes.
    pub payload: Vec<u8>,
}
