//! Why bytes are no IPv6 header or packet.

pub use ep_ip::err::ipv6::{HeaderError, HeaderSliceError};
pub use ep_ipslice::err::ipv6::SliceError;
