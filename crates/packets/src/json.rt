//! A JSON object for each packet, for programs. The keys of headers and errors are the names of the
//! fields of `etherparse`. The functions have no contracts: tests compare the texts.

mod errors;
mod fragment;
mod headers;
mod icmp;
mod link;
mod net;
mod other;
pub(crate) mod packet;
mod transport;
