//! Laws of the headers that no single call's contract states: the contract of each function is the
//! law.

pub mod examples;
pub mod tcp;
pub mod traits;
pub mod udp;
