//! Where the options and the extension headers of a packet are.
ghost use Rattle.std.specs.Prelude.{◌≡◌};
ghost use Rattle.etherparse_structs.specs.Extension.{packet_extensions};
ghost use Rattle.etherparse_structs.specs.Part.{options_part};

use crate::{EpExtensions, EpPacket, EpPart};

/// Where the options of its TCP header are; all fields are 0 where it has none.
pub fn tcp_options(packet: &EpPacket) -> EpPart
    ensures { result ≡ options_part 20 packet.now.tcp.header }
{
    packet.tcp.header.after_first(20)
}

/// Where the options of its IPv4 header are; all fields are 0 where it has none.
pub fn ipv4_options(packet: &EpPacket) -> EpPart
    ensures { result ≡ options_part 20 packet.now.ipv4.header }
{
    packet.ipv4.header.after_first(20)
}

/// The extension headers of its IP packet; all fields are 0 where it is none of IP.
pub fn ip_extensions(packet: &EpPacket) -> EpExtensions
    ensures { result ≡ packet_extensions packet.now }
{
    match packet.net {
        4 => extensions(&packet.ipv4.extensions, packet.ipv4.protocol),
        6 => extensions(&packet.ipv6.extensions, packet.ipv6.next_header),
        _ => extensions(&EpPart::none(), 0),
    }
}

fn extensions(part: &EpPart, next_header: u8) -> EpExtensions
    ensures { result ≡ record { left = part.now; next_header = next_header } }
{
    EpExtensions {
        left: EpPart {
            offset: part.offset,
            len: part.len,
        },
        next_header,
    }
}
