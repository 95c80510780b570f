//! The better gateway and the traffic that it is for.

use super::RedirectCode;

/// What a redirect message carries before the packet's first bytes (RFC 792, "Redirect Message").
#[derive(Clone, Copy, Debug, PartialEq, Eq)]
pub struct RedirectHeader {
    /// For which traffic.
    pub code: RedirectCode,
    /// The address of the gateway to which that traffic should be sent, bytes 4 to 7.
    pub gateway_internet_address: [u8; 4],
}
