//! TCP and UDP: headers as values, and views of the bytes of messages.

mod limit;
mod tcp_header;
mod tcp_header_slice;
pub mod tcp_option;
mod tcp_option_element;
mod tcp_option_read_error;
mod tcp_option_write_error;
mod tcp_options;
mod tcp_options_iterator;
mod tcp_slice;
mod tcp_view;
mod udp_header;
mod udp_header_slice;
mod udp_slice;
mod udp_view;
mod view_kind;

pub use tcp_header::TcpHeader;
pub use tcp_header_slice::TcpHeaderSlice;
pub use tcp_option_element::TcpOptionElement;
pub use tcp_option_read_error::TcpOptionReadError;
pub use tcp_option_write_error::TcpOptionWriteError;
pub use tcp_options::TcpOptions;
pub use tcp_options_iterator::TcpOptionsIterator;
pub use tcp_slice::TcpSlice;
pub use udp_header::UdpHeader;
pub use udp_header_slice::UdpHeaderSlice;
pub use udp_slice::UdpSlice;
