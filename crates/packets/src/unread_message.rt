//! The ports of SCTP, whose header the library doesn't read.

ghost use Rattle.std.specs.Prelude.{◌≡◌};
ghost use Rattle.packets.specs.MessageHeaders.{sctp_ports};

use crate::show::endpoints::Ports;

/// The ports of an SCTP packet, which begins with a header of 12 bytes (RFC 9260, section 3.1).
pub(crate) fn sctp_ports(bytes: &[u8]) -> Option<Ports>
    ensures { result ≡ sctp_ports bytes.now }
{
    if bytes.len() < 12 {
        return None;
    }
    Some(Ports {
        source: u16::from_be_bytes([bytes[0], bytes[1]]),
        destination: u16::from_be_bytes([bytes[2], bytes[3]]),
    })
}
