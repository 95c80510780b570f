//! Laws of packets, with an argument or without.
use ep_packet::laws;

#[test]
fn laws_of_packets() {
    laws::readable_messages(&[]);
    laws::ipv6_headers_agree_with_view(&[]);
    laws::ip_packets_are_their_layers();
    laws::ip_headers_are_their_parts();
}
