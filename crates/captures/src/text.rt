//! Lines that give frames: of packets, and as the packet records of a capture.

pub(crate) mod bad_line;
pub(crate) mod ledger;
pub(crate) mod line;
pub(crate) mod line_records;
pub(crate) mod line_words;
