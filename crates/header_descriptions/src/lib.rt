//! What the headers of a packet say: as words of a line, for people, and as members of a JSON
//! object, for programs.
#![tactic(auto)]

mod ip_names;
pub mod json;
pub mod laws;
mod protocol;
pub mod show;

pub use ip_names::{ip_number_name, ip_number_named};
pub use protocol::Protocol;
