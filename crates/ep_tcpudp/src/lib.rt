//! UDP and TCP: their headers, read and written both ways, whole segments as views of their bytes,
//! checksums, and TCP's options.
#![tactic(auto)]

pub mod err;
pub mod laws;
mod transport;

pub use transport::{
    TcpHeader, TcpHeaderSlice, TcpOptionElement, TcpOptionReadError, TcpOptionWriteError,
    TcpOptions, TcpOptionsIterator, TcpSlice, UdpHeader, UdpHeaderSlice, UdpSlice, tcp_option,
};
