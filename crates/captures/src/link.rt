//! The links that packets are captured on, and their packets as Ethernet II frames.

pub(crate) mod frame;
pub(crate) mod header;
pub(crate) mod kind;
pub(crate) mod wire_len;
