//! What a message's checksum says.
ghost use Rattle.std.specs.Prelude.{◌≡◌, ◌++◌, ℕ, List, if◌then◌else◌, length};
ghost use Rattle.ep_base.specs.MessageSum.{SumsWords};
ghost use Rattle.ep_base.specs.Sum.{all_ones, fold, total};
ghost use Rattle.ep_packet.specs.Readable.{as_read};
ghost use Rattle.checksum_verdicts.specs.Verdict.{pseudo, verdict_of};
ghost use Rattle.checksum_verdicts.specs.declared.verdict.Verdict.TheVariants as verdict;

use ep_base::IpNumber;
use ep_base::checksum::Sum16BitWords;
use ep_ip::checksum::{pseudo_sum_v4, pseudo_sum_v6};
use ep_packet::{Addresses, Message};

/// Whether the checksum of a message is right.
#[derive(Clone, Copy, Debug, PartialEq, Eq, Hash)]
pub enum Verdict {
    /// The words of pseudo header and message sum to all ones.
    Good,
    /// They don't.
    Bad,
    /// There is no checksum: none was sent (a UDP checksum of 0, over IPv6 too, where RFC 8200,
    /// section 8.1, has receivers drop such a datagram), or the protocol is another than UDP, TCP,
    /// ICMP and ICMPv6, or it is the ICMP of the other IP version.
    None,
}

/// The verdict on the checksum of a message (RFC 1071), with these addresses in the pseudo header.
/// Of a UDP datagram the bytes that its length field counts are summed, of other messages all. The
/// length in the pseudo header is that of what is summed; ICMPv4 has no pseudo header. While a
/// source route has addresses left, those of the IP header aren't those that the sender summed.
#[inline(always)]
pub fn judge(addresses: &Addresses, message: &Message<'_>) -> Verdict
    ensures { result ≡ verdict_of addresses.now (as_read message.now) }
{
    match (message, addresses) {
        (Message::Icmpv4(message), Addresses::V4 { .. }) => {
            judge_sum(Sum16BitWords::new(), message.slice())
        }
        (Message::Icmpv6(message), Addresses::V6 { .. }) => {
            judge_with_pseudo(addresses, IpNumber::IPV6_ICMP, message.slice())
        }
        (Message::Tcp(segment), _) => judge_with_pseudo(addresses, IpNumber::TCP, segment.slice()),
        (Message::Udp(datagram), _) if datagram.checksum() != 0 => {
            judge_with_pseudo(addresses, IpNumber::UDP, datagram.slice())
        }
        _ => Verdict::None,
    }
}

#[inline(always)]
fn judge_with_pseudo(addresses: &Addresses, number: IpNumber, summed: &[u8]) -> Verdict
    ensures { result ≡ (if all_ones (pseudo addresses.now number.0 (length summed.now) ++ summed.now)
        then verdict.Good else verdict.Bad) }
{
    judge_sum(pseudo_sum(addresses, number, summed.len()), summed)
}

// Judges what is summed after a pseudo header with this sum.
#[inline(always)]
fn judge_sum(pseudo: Sum16BitWords, summed: &[u8]) -> Verdict
    ensures { (prefix : List ℕ) → SumsWords pseudo prefix
        → result ≡ (if all_ones (prefix ++ summed.now) then verdict.Good else verdict.Bad) }
{
    if pseudo.add_slice(summed).ones_complement() == 0 {
        Verdict::Good
    } else {
        Verdict::Bad
    }
}

// The sum of the pseudo header of so many bytes.
#[inline(always)]
fn pseudo_sum(addresses: &Addresses, number: IpNumber, len: usize) -> Sum16BitWords
    ensures { SumsWords result (pseudo addresses.now number.0 len) }
{
    match addresses {
        Addresses::V4 {
            source,
            destination,
        } => pseudo_sum_v4(*source, *destination, number, (len % 0x1_0000) as u16),
        Addresses::V6 {
            source,
            destination,
        } => pseudo_sum_v6(*source, *destination, number, (len % 0x1_0000_0000) as u32),
    }
}
