//! Headers and messages of the transport layer.

mod transport_header;
mod transport_slice;

pub use transport_header::TransportHeader;
pub use transport_slice::TransportSlice;
