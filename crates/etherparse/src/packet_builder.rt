//! The steps by which a packet is put together.

mod appended_headers;
mod chosen_ip;
mod first_step;
mod ip_layer;
mod last_step;
mod link_steps;
mod packet_over_ip;
mod packet_state;
mod prefix;
mod step;
mod tcp_steps;
mod transport_checksums;
mod transport_steps;
mod write;

pub use first_step::PacketBuilder;
pub use last_step::{LastStep, LinkStep, TransportStep};
pub use step::PacketBuilderStep;
