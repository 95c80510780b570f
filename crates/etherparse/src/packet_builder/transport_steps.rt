//! The steps after an IP header: the header of the transport layer.

ghost use Rattle.std.specs.Prelude.{◌≡◌, Some};
ghost use Rattle.ep_icmp.specs.declared.transport.icmpv4_type.Icmpv4Type.TheVariants as v4;
ghost use Rattle.ep_icmp.specs.declared.transport.icmpv6_type.Icmpv6Type.TheVariants as v6;
ghost use Rattle.ep_packet.specs.declared.transport.transport_header.TransportHeader.TheVariants.{Tcp};
ghost use Rattle.ep_tcpudp.specs.Tcp.{new_header};
ghost use Rattle.etherparse.specs.BuiltSteps.{echo, icmpv4_of, icmpv6_of, udp_between};

use super::step::PacketBuilderStep;
use ep_icmp::{IcmpEchoHeader, Icmpv4Header, Icmpv4Type, Icmpv6Header, Icmpv6Type};
use ep_packet::{IpHeaders, TransportHeader};
use ep_tcpudp::{TcpHeader, UdpHeader};

impl PacketBuilderStep<IpHeaders> {
    /// With a UDP header between these ports.
    #[inline(always)]
    pub fn udp(self, source_port: u16, destination_port: u16) -> PacketBuilderStep<UdpHeader>
        ensures { result
            ≡ record self { transport_header = Some (udp_between source_port destination_port) } }
    {
        let mut state = self.state;
        state.transport_header = Some(TransportHeader::Udp(UdpHeader {
            source_port,
            destination_port,
            length: 0,
            checksum: 0,
        }));
        PacketBuilderStep::of(state)
    }

    /// With a TCP header with these numbers, no options, no flags, and 0 elsewhere.
    #[inline(always)]
    pub fn tcp(
        self,
        source_port: u16,
        destination_port: u16,
        sequence_number: u32,
        window_size: u16,
    ) -> PacketBuilderStep<TcpHeader>
        ensures { result ≡ record self {
          transport_header = Some (Tcp (new_header source_port destination_port sequence_number window_size));
        } }
    {
        self.tcp_header(TcpHeader::new(source_port, destination_port, sequence_number, window_size))
    }

    /// With this TCP header. Its checksum is set when the packet is written.
    #[inline(always)]
    pub fn tcp_header(self, tcp_header: TcpHeader) -> PacketBuilderStep<TcpHeader>
        ensures { result ≡ record self { transport_header = Some (Tcp tcp_header) } }
    {
        let mut state = self.state;
        state.transport_header = Some(TransportHeader::Tcp(tcp_header));
        PacketBuilderStep::of(state)
    }

    /// With the header of an ICMP message of this kind over IPv4.
    #[inline(always)]
    pub fn icmpv4(self, icmp_type: Icmpv4Type) -> PacketBuilderStep<Icmpv4Header>
        ensures { result ≡ record self { transport_header = Some (icmpv4_of icmp_type) } }
    {
        let mut state = self.state;
        state.transport_header = Some(TransportHeader::Icmpv4(Icmpv4Header {
            icmp_type,
            checksum: 0,
        }));
        PacketBuilderStep::of(state)
    }

    /// With the header of an ICMP message over IPv4 of this type and code, and with these bytes
    /// after its checksum.
    pub fn icmpv4_raw(
        self,
        type_u8: u8,
        code_u8: u8,
        bytes5to8: [u8; 4],
    ) -> PacketBuilderStep<Icmpv4Header>
        ensures { result
            ≡ record self
            { transport_header = Some (icmpv4_of (v4.Unknown type_u8 code_u8 bytes5to8)) } }
    {
        self.icmpv4(Icmpv4Type::Unknown {
            type_u8,
            code_u8,
            bytes5to8,
        })
    }

    /// With the header of an echo request over IPv4.
    pub fn icmpv4_echo_request(self, id: u16, seq: u16) -> PacketBuilderStep<Icmpv4Header>
        ensures { result
            ≡ record self { transport_header = Some (icmpv4_of (v4.EchoRequest (echo id seq))) } }
    {
        self.icmpv4(Icmpv4Type::EchoRequest(IcmpEchoHeader { id, seq }))
    }

    /// With the header of the reply to an echo request over IPv4.
    pub fn icmpv4_echo_reply(self, id: u16, seq: u16) -> PacketBuilderStep<Icmpv4Header>
        ensures { result
            ≡ record self { transport_header = Some (icmpv4_of (v4.EchoReply (echo id seq))) } }
    {
        self.icmpv4(Icmpv4Type::EchoReply(IcmpEchoHeader { id, seq }))
    }

    /// With the header of an ICMP message of this kind over IPv6.
    #[inline(always)]
    pub fn icmpv6(self, icmp_type: Icmpv6Type) -> PacketBuilderStep<Icmpv6Header>
        ensures { result ≡ record self { transport_header = Some (icmpv6_of icmp_type) } }
    {
        let mut state = self.state;
        state.transport_header = Some(TransportHeader::Icmpv6(Icmpv6Header {
            icmp_type,
            checksum: 0,
        }));
        PacketBuilderStep::of(state)
    }

    /// With the header of an ICMP message over IPv6 of this type and code, and with these bytes
    /// after its checksum.
    pub fn icmpv6_raw(
        self,
        type_u8: u8,
        code_u8: u8,
        bytes5to8: [u8; 4],
    ) -> PacketBuilderStep<Icmpv6Header>
        ensures { result
            ≡ record self
            { transport_header = Some (icmpv6_of (v6.Unknown type_u8 code_u8 bytes5to8)) } }
    {
        self.icmpv6(Icmpv6Type::Unknown {
            type_u8,
            code_u8,
            bytes5to8,
        })
    }

    /// With the header of an echo request over IPv6.
    pub fn icmpv6_echo_request(self, id: u16, seq: u16) -> PacketBuilderStep<Icmpv6Header>
        ensures { result
            ≡ record self { transport_header = Some (icmpv6_of (v6.EchoRequest (echo id seq))) } }
    {
        self.icmpv6(Icmpv6Type::EchoRequest(IcmpEchoHeader { id, seq }))
    }

    /// With the header of the reply to an echo request over IPv6.
    pub fn icmpv6_echo_reply(self, id: u16, seq: u16) -> PacketBuilderStep<Icmpv6Header>
        ensures { result
            ≡ record self { transport_header = Some (icmpv6_of (v6.EchoReply (echo id seq))) } }
    {
        self.icmpv6(Icmpv6Type::EchoReply(IcmpEchoHeader { id, seq }))
    }
}
