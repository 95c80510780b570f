//! A line for each packet, for people. Functions that write texts have no contracts, but for those of
//! bytes (`shown_bytes`): tests compare the texts.

pub(crate) mod connections;
pub(crate) mod endpoints;
mod fragment;
mod fragment_headers;
mod icmp;
mod link;
mod message;
mod net_headers;
pub(crate) mod options;
pub(crate) mod packet_line;
mod refusal;
mod refused;
pub(crate) mod segment;
pub(crate) mod shown_bytes;
pub(crate) mod shown_lines;
