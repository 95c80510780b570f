//! A fragment of an IP datagram.
use ep_base::IpFragOffset;

/// The bytes of a fragment, and where they belong in the payload of the datagram.
#[derive(Clone, Copy, Debug, PartialEq, Eq)]
pub struct SlicedFragment<'a> {
    /// The offset of the bytes in the payload of the datagram, in units of 8 bytes.
    pub offset: IpFragOffset,
    /// Whether more fragments follow.
    pub more_fragments: bool,
    /// The bytes.
    pub bytes: &'a [u8],
}
