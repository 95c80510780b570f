//! Classic captures: the unit at the start of their bytes, and captures written.

pub(crate) mod unit;
pub(crate) mod writer;
