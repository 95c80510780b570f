//! What `netlines` answers to the lines that `captures` writes of a capture: laws that join what is
//! proved of both.
#![tactic(auto)]

pub mod laws;
