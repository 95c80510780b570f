//! The sums of pseudo headers, at which the checksums of UDP, TCP and ICMPv6 start.

ghost use Rattle.ep_base.specs.MessageSum.{SumsWords};
ghost use Rattle.ep_ip.specs.Pseudo.{pseudo_v4, pseudo_v6};

use ep_base::IpNumber;
use ep_base::checksum::Sum16BitWords;

/// The sum of the pseudo header of a message of this length in bytes over IPv4 (RFC 768; RFC 9293,
/// section 3.1).
#[inline(always)]
pub fn pseudo_sum_v4(
    source: [u8; 4],
    destination: [u8; 4],
    number: IpNumber,
    len: u16,
) -> Sum16BitWords
    ensures { SumsWords result (pseudo_v4 source destination number.0 len) }
{
    Sum16BitWords::new()
        .add_4bytes(source)
        .add_4bytes(destination)
        .add_2bytes([0, number.0])
        .add_2bytes(len.to_be_bytes())
}

/// The sum of the pseudo header of a message of this length in bytes over IPv6 (RFC 8200, section
/// 8.1).
#[inline(always)]
pub fn pseudo_sum_v6(
    source: [u8; 16],
    destination: [u8; 16],
    number: IpNumber,
    len: u32,
) -> Sum16BitWords
    ensures { SumsWords result (pseudo_v6 source destination number.0 len) }
{
    Sum16BitWords::new()
        .add_16bytes(source)
        .add_16bytes(destination)
        .add_4bytes(len.to_be_bytes())
        .add_4bytes([0, 0, 0, number.0])
}
