//! UDP datagrams, TCP segments or ICMP messages, borrowed.

use ep_icmp::{Icmpv4Slice, Icmpv6Slice};
use ep_tcpudp::{TcpSlice, UdpSlice};

/// A whole transport message, borrowed.
#[derive(Clone, Debug, PartialEq, Eq, Drop)]
pub enum TransportSlice<'a> {
    /// A UDP datagram.
    Udp(UdpSlice<'a>),
    /// A TCP segment.
    Tcp(TcpSlice<'a>),
    /// An ICMP message over IPv4.
    Icmpv4(Icmpv4Slice<'a>),
    /// An ICMP message over IPv6.
    Icmpv6(Icmpv6Slice<'a>),
}
