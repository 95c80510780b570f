//! Runs over a device that gives bytes and takes bytes: the device with its meaning, what calls a
//! run may make there, writes of all of some bytes, and a flush after a run.
#![tactic(auto)]

pub mod device;
mod fault;
mod flushes;
pub mod laws;
mod limits;
mod writes;

pub use device::{Device, ReaderWriter};
pub use fault::Fault;
pub use flushes::flush_after;
pub use limits::READ_COUNT_LIMIT;
pub use writes::write_whole;
