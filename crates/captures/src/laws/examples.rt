//! The definitions at literal values: what the formats' standards and the registry of link types
//! say, so that a definition can't change with the code.

pub mod frame_lines;
pub mod links;
pub mod pcap;
pub mod pcapng;
pub mod times;
