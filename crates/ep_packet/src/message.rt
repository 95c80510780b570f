//! Messages of the transport layer.
ghost use Rattle.std.specs.Prelude.{◌≡◌};
ghost use Rattle.ep_packet.specs.Class.{transport_message};
ghost use Rattle.ep_packet.specs.Readable.{as_answer, as_read, message_at};

use crate::TransportSlice;
use crate::err::packet::SliceError;
use crate::layer_slices::read_transport;
use ep_base::IpNumber;
use ep_icmp::{Icmpv4Slice, Icmpv6Slice};
use ep_tcpudp::{TcpSlice, UdpSlice};

/// A message of a transport protocol, borrowed. A contract sees the bytes that are read of it
/// (`as_read`).
#[derive(Clone, Debug, PartialEq, Eq, Drop)]
pub enum Message<'m> {
    /// A message of ICMP over IPv4.
    Icmpv4(Icmpv4Slice<'m>),
    /// A TCP segment.
    Tcp(TcpSlice<'m>),
    /// A UDP datagram, up to where its length field says that it ends.
    Udp(UdpSlice<'m>),
    /// A message of ICMP over IPv6.
    Icmpv6(Icmpv6Slice<'m>),
    /// A message of any other protocol.
    Raw(&'m [u8]),
}

/// Reads a message with this IP number, whichever IP version it came over: 1, 6, 17 and 58 as
/// ICMPv4, TCP, UDP and ICMPv6, any other as [`Message::Raw`].
///
/// The error is that of the protocol's slice, with offsets counted from the start of the message.
pub fn read_message(ip_number: IpNumber, message: &[u8]) -> Result<Message<'_>, SliceError>
    ensures { as_answer result ≡ message_at ip_number.0 message.now }
{
    match read_transport(ip_number, message) {
        Ok(transport) => Ok(message_of(transport, message)),
        Err(error) => Err(error),
    }
}

/// A message as it was sliced, or all its bytes where nothing is known of its protocol.
#[inline(always)]
pub(crate) fn message_of<'m>(transport: Option<TransportSlice<'m>>, bytes: &'m [u8]) -> Message<'m>
    ensures { as_read result ≡ transport_message bytes.now transport.entry }
{
    match transport {
        Some(TransportSlice::Icmpv4(message)) => Message::Icmpv4(message),
        Some(TransportSlice::Tcp(segment)) => Message::Tcp(segment),
        Some(TransportSlice::Udp(datagram)) => Message::Udp(datagram),
        Some(TransportSlice::Icmpv6(message)) => Message::Icmpv6(message),
        None => Message::Raw(bytes),
    }
}
