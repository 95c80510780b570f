//! IP packets in slices.

mod errors;
mod header_and_body;
mod lax;
mod packets;
mod refusals;
mod views;
