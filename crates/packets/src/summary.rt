//! What is in a capture, counted.

pub(crate) mod bars;
pub(crate) mod count;
pub(crate) mod lengths;
pub(crate) mod numbers;
pub(crate) mod offload;
pub(crate) mod period;
pub(crate) mod rate;
pub(crate) mod recent;
pub(crate) mod share;
pub(crate) mod sizes;
pub(crate) mod summary;
pub(crate) mod table;
pub(crate) mod tally;
pub(crate) mod text;
pub(crate) mod verified;
