//! Why bytes are no IP packet of either version, why headers are not written, and which code points
//! have no name.

pub use ep_base::IpDscpUnknownValueError;
pub use ep_ipslice::err::ip::{
    HeaderError, HeadersError, HeadersSliceError, LaxHeaderSliceError, SliceError,
};
pub use ep_packet::err::ip::HeadersWriteError;
