//! Routing headers of IPv6 with their final destination options.

ghost use Rattle.std.specs.Prelude.{◌≡◌, ◌≤◌, length, ◌++◌, unwrap_or, []};
ghost use Rattle.std.specs.Option.{option_map};
ghost use Rattle.ep_ext.specs.Raw.{raw_encoding};

use super::Ipv6RawExtHeader;

/// A routing header, and the destination options after it, which are for the last destination alone
/// (RFC 8200, section 4.1).
#[derive(Clone, Debug, PartialEq, Eq, Drop)]
pub struct Ipv6RoutingExtensions {
    /// The routing header.
    pub routing: Ipv6RawExtHeader,
    /// The destination options after it. Other headers may stand between the two.
    pub final_destination_options: Option<Ipv6RawExtHeader>,
}

impl Ipv6RoutingExtensions {
    /// The least length in bytes: of a routing header alone.
    pub const MIN_LEN: usize = 8;

    /// The greatest length in bytes: of two headers.
    pub const MAX_LEN: usize = 4096;

    /// The length of both headers in bytes.
    pub fn header_len(&self) -> usize
        ensures value { result ≡ length (raw_encoding self.now.routing
            ++ unwrap_or (option_map raw_encoding self.now.final_destination_options) []) }
        ensures most { result ≤ 4096 }
    {
        let options = match &self.final_destination_options {
            Some(header) => header.header_len(),
            None => 0,
        };
        self.routing.header_len() + options
    }
}
