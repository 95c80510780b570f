//! The payload of an IP packet that may have been cut off.

use ep_base::{IpNumber, LenSource};

/// The payload of an IP packet, after its extension headers, borrowed; only a prefix of it where
/// fewer bytes were there than the packet's own length says.
#[derive(Clone, Debug, PartialEq, Eq, Drop)]
pub struct LaxIpPayloadSlice<'a> {
    /// Whether bytes of the payload are missing.
    pub incomplete: bool,
    /// The number of what the payload starts with: that of its protocol, or of the extension header
    /// that has a fault.
    pub ip_number: IpNumber,
    /// Whether the payload is a fragment: other packets hold the rest of the datagram.
    pub fragmented: bool,
    /// What the payload's length came from.
    pub len_source: LenSource,
    /// The bytes.
    pub payload: &'a [u8],
}
