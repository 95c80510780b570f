//! The fields of the Ethernet II header (RFC 894) that a slice begins with.
ghost use Rattle.std.specs.Prelude.{◌≡◌, ◌≤◌, length};
ghost use Rattle.ep_link.specs.Ethernet.{ethernet_len, destination_of, source_of, next_type_of, ethernet_header_of};

use super::Ethernet2Header;
use ep_base::EtherType;

#[inline(always)]
pub(super) fn destination_of(frame: &[u8]) -> [u8; 6]
    requires { ethernet_len ≤ length frame.now }
    ensures { result ≡ destination_of frame.now }
{
    frame[..6].try_into().unwrap()
}

#[inline(always)]
pub(super) fn source_of(frame: &[u8]) -> [u8; 6]
    requires { ethernet_len ≤ length frame.now }
    ensures { result ≡ source_of frame.now }
{
    frame[6..12].try_into().unwrap()
}

#[inline(always)]
pub(super) fn ether_type_of(frame: &[u8]) -> EtherType
    requires { ethernet_len ≤ length frame.now }
    ensures { result ≡ next_type_of frame.now }
{
    EtherType(u16::from_be_bytes([frame[12], frame[13]]))
}

#[inline(always)]
pub(super) fn header_of(frame: &[u8]) -> Ethernet2Header
    requires { ethernet_len ≤ length frame.now }
    ensures { result ≡ ethernet_header_of frame.now }
{
    Ethernet2Header {
        source: source_of(frame),
        destination: destination_of(frame),
        ether_type: ether_type_of(frame),
    }
}
