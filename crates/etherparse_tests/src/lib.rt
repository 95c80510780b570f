//! Tests of `etherparse` and `ep_packet` over their public calls: of packets that are read
//! (`packets`), of the builder (`builder`), of reassembly (`defrag`), and of the names and the memory
//! of all (`paths`, `memory`); and of `tcp_streams` (`connections`). They are a crate of their own, so
//! that they are proved once beside the libraries and not with each of their functions.
#![tactic(auto)]

#[cfg(test)]
mod builder;
#[cfg(test)]
mod checks;
#[cfg(test)]
mod connections;
#[cfg(test)]
mod defrag;
#[cfg(test)]
mod memory;
#[cfg(test)]
mod packets;
#[cfg(test)]
mod paths;
