//! Members of JSON objects, for programs. The keys are the names of the library's fields. The
//! functions have no contracts: tests compare the texts.

pub mod arp;
mod extensions;
pub mod faults;
pub mod fields;
pub mod groups;
pub mod icmp;
pub mod ip;
pub mod link;
mod ndp;
pub mod tcp;
pub mod udp;
