//! Headers and packets of the network layer: IP of either version, or ARP.

mod ip_headers;
mod lax_ip_headers;
mod lax_net_slice;
mod net_headers;
mod net_slice;

pub use ip_headers::IpHeaders;
pub use lax_ip_headers::{IpHeadersIpv6LaxFromSliceResult, IpHeadersLaxFromSliceResult};
pub(crate) use lax_ip_headers::{LaxIpv6Headers, ipv4_parts};
pub use lax_net_slice::LaxNetSlice;
pub use net_headers::{IpHeader, NetHeaders};
pub use net_slice::NetSlice;
