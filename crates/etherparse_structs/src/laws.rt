//! The definitions at literal values, worked out from the C header and the standards, so that a
//! definition can't change with the code.

pub mod fields;
pub mod headers;
pub mod numbers;
pub mod packets;
pub mod plans;
pub mod pools;
pub mod refusals;
pub mod streams;
