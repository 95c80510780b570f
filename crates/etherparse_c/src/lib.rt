//! The calls of `etherparse` for C: bytes are passed as a pointer and a length, and results are
//! returned as structs of numbers.
#![tactic(auto)]

mod build;
mod capture;
mod checksum;
mod fields;
mod groups;
mod pool;
mod slice;
mod streams;
mod verdict;
