//! Laws of packets, as slices and as headers: the contract of each function is the law.

mod cut;
mod faults;
mod found;
pub mod hashes;
mod headers;
mod lax;
mod lax_headers;
mod readable;
pub mod same_headers;
pub mod sliced;
mod stops;
pub mod traits;

pub use cut::{
    cut_packets_are_found, cut_packets_at_literals, cut_packets_keep_headers,
    more_bytes_keep_layers,
};
pub use faults::{offsets_at_literals, refusals_are_first_faults};
pub use found::{
    frames_without_packet_are_refused, ip_headers_are_their_parts, ip_packets_are_their_layers,
    packets_are_their_layers,
};
pub use headers::{ipv6_headers_agree_with_view, ipv6_headers_at_a_literal};
pub use lax::{cut_messages_are_found, payloads_of_whole_packets, whole_packets_are_lax_packets};
pub use lax_headers::lax_headers_are_those_of_slices;
pub use readable::{messages_at_literals, readable_messages};
pub use stops::{
    faults_stop_lax_packets, layers_ahead_of_faults_are_kept, lengths_passed_over_at_literals,
    lengths_stop_no_lax_packet, stops_at_literals,
};
