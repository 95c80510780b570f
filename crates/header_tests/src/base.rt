//! Numbers, protocol numbers, errors and sums.

mod errors;
mod ip_number;
mod lanes;
mod laws;
mod numbers;
mod sums;
