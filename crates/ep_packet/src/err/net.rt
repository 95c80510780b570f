//! Why no next header number was set in headers of the network layer.

mod net_set_next_header_error;

pub use net_set_next_header_error::NetSetNextHeaderError;
