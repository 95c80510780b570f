//! IP packets, borrowed.

mod body;
mod ip_payload_slice;
mod ip_slice;
mod ipv4_extensions_slice;
mod ipv4_slice;
mod ipv6_extension_slice;
mod ipv6_extension_slice_iter;
mod ipv6_extensions_slice;
mod ipv6_slice;
mod lax_ip_payload_slice;
mod lax_ip_slice;
mod lax_ipv4_slice;
mod lax_ipv6_slice;

pub use ip_payload_slice::IpPayloadSlice;
pub use ip_slice::IpSlice;
pub use ipv4_extensions_slice::Ipv4ExtensionsSlice;
pub use ipv4_slice::Ipv4Slice;
pub use ipv6_extension_slice::Ipv6ExtensionSlice;
pub use ipv6_extension_slice_iter::Ipv6ExtensionSliceIter;
pub use ipv6_extensions_slice::Ipv6ExtensionsSlice;
pub use ipv6_slice::Ipv6Slice;
pub use lax_ip_payload_slice::LaxIpPayloadSlice;
pub use lax_ip_slice::LaxIpSlice;
pub use lax_ipv4_slice::LaxIpv4Slice;
pub use lax_ipv6_slice::LaxIpv6Slice;
