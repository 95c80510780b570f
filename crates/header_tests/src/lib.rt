//! Tests of `ep_base`, `ep_ip`, `ep_tcpudp`, `ep_icmp`, `ep_tag` and `ep_link` over their public calls. They are a
//! crate of their own, so that they are proved beside these and not once more with each of their functions.
#![tactic(auto)]

#[cfg(test)]
mod base;
#[cfg(test)]
mod checks;
#[cfg(test)]
mod icmp;
#[cfg(test)]
mod ip;
#[cfg(test)]
mod link;
#[cfg(test)]
mod payloads;
#[cfg(test)]
mod tag;
#[cfg(test)]
mod transport;
