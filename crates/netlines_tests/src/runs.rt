//! Runs: over devices that fail or move little, with few reads, of lines of each length, of worked
//! rows, with random keys for the names of messages, and over buffers that were used before.

mod faults;
mod few_reads;
mod hasher_states;
mod lengths;
mod reuse;
mod rounds;
pub mod rows;
pub mod texts;
