//! The packets of a capture, of its bytes or of what a reader gives of them.

pub(crate) mod ahead;
pub(crate) mod packet_parser;
pub(crate) mod packet_reader;
pub(crate) mod packets;
pub(crate) mod parsed;
pub(crate) mod prefix;
pub(crate) mod read_error;
pub(crate) mod refused_at;
pub(crate) mod window;
