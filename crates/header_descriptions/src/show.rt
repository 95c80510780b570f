//! Words of a line, for people. Only the texts of times (`seconds`) and of bytes (`byte_lines`) have
//! contracts: tests compare the others.

pub mod addresses;
pub mod arp;
pub mod byte_lines;
pub mod faults;
pub mod groups;
pub mod icmp;
pub mod ip;
mod line;
pub mod names;
mod ndp;
pub mod seconds;
mod style;
pub mod tags;
pub mod tcp;
pub mod time;

pub use line::Line;
pub(crate) use line::{cut_off, digit};
pub use style::{Style, TimeForm, Tone};
