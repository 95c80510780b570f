//! Payloads of MACsec headers, under an ether type or modified.

use super::EtherPayloadSlice;

/// What follows a MACsec header, borrowed.
#[derive(Clone, Debug, PartialEq, Eq, Drop)]
pub enum MacsecPayloadSlice<'a> {
    /// Bytes that the header's ether type names.
    Unmodified(EtherPayloadSlice<'a>),
    /// Bytes that were encrypted or changed.
    Modified(&'a [u8]),
}
