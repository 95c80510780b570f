//! Why bytes are no packet, and why headers have no checksum or are not written.

pub mod ip;
pub mod net;
pub mod packet;
