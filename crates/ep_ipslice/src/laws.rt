//! Laws of IP packets that no single call's contract states.

mod cut;
mod examples;
pub mod hashes;
mod lax;
mod packets;
pub mod traits;

pub use cut::{cut_packets_are_found, more_bytes_keep_headers};
pub use examples::{ipv4_packet_at_a_literal, ipv6_packet_at_a_literal, payload_hash_at_a_literal};
pub use lax::{
    cut_ipv4_packet_has_all_bytes, cut_ipv6_packet_has_all_bytes, faults_of_extension_headers_stop,
    lax_faults_can_be_moved, lax_packet_is_of_its_version, whole_packets_are_lax_packets,
};
pub use packets::{
    bodies_lie_within, extensions_of_a_packet, faults_are_alone, faults_can_be_moved,
    faults_found_are_first, ip_packet_is_whole, ipv4_fragment_fields, ipv4_packet_is_alone,
    ipv6_fragment_fields, ipv6_packet_is_alone, numbers_of_a_view, packets_are_their_parts,
    rows_are_found, rows_in_slots_are_views, skip_agrees_with_view,
};
