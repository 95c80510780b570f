//! Why bytes are no IPv4 header, options or packet.

pub use ep_ip::err::ipv4::{BadOptionsLen, HeaderError, HeaderSliceError};
pub use ep_ipslice::err::ipv4::SliceError;
