//! Packets that are read: sliced, and as headers of their own.

mod cut_frames;
mod errors;
mod ip_headers;
mod laws;
mod lax_packet_headers;
mod lax_sliced_packet;
mod net_headers;
mod net_slice;
mod packet_headers;
mod prefixes;
mod read_ip_headers;
mod slice_faults;
mod sliced_packet;
mod transport_header;
mod transport_slice;
