//! A message of a transport protocol, as fields and numbers.
ghost use Rattle.std.specs.Prelude.{◌≡◌, ◌+◌, ◌^◌, ◌<◌};
ghost use Rattle.etherparse.specs.icmp.Icmpv4.{header_len, type_of};
ghost use Rattle.etherparse_structs.specs.Transport.{icmp_struct_in, icmp_struct, no_icmp, no_tcp, no_udp};
ghost use Rattle.etherparse_structs.specs.Transport.{tcp_struct_in, tcp_struct, transport_number, udp_struct_in};
ghost use Rattle.etherparse_structs.specs.Transport.{udp_struct};

use crate::EpPart;
use etherparse::{Icmpv4Slice, Icmpv6Slice, TcpSlice, TransportSlice, UdpSlice};

/// A UDP datagram (RFC 768).
#[repr(C)]
#[derive(Drop)]
pub struct EpUdp {
    /// The header.
    pub header: EpPart,
    /// What follows it.
    pub payload: EpPart,
    /// The source port.
    pub source_port: u16,
    /// The destination port.
    pub destination_port: u16,
    /// The length of header and payload, as the header states it; 0 in a jumbogram.
    pub stated_len: u16,
    /// The checksum, as the header states it; 0 where none was sent.
    pub checksum: u16,
}

/// A TCP segment (RFC 9293). Its options follow the first 20 bytes of the header.
#[repr(C)]
#[derive(Drop)]
pub struct EpTcp {
    /// The header, options included.
    pub header: EpPart,
    /// What follows it.
    pub payload: EpPart,
    /// The sequence number.
    pub sequence_number: u32,
    /// The acknowledgment number.
    pub acknowledgment_number: u32,
    /// The source port.
    pub source_port: u16,
    /// The destination port.
    pub destination_port: u16,
    /// The window.
    pub window_size: u16,
    /// The checksum, as the header states it.
    pub checksum: u16,
    /// The urgent pointer.
    pub urgent_pointer: u16,
    /// Flag NS (RFC 3540).
    pub ns: bool,
    /// Flag FIN.
    pub fin: bool,
    /// Flag SYN.
    pub syn: bool,
    /// Flag RST.
    pub rst: bool,
    /// Flag PSH.
    pub psh: bool,
    /// Flag ACK.
    pub ack: bool,
    /// Flag URG.
    pub urg: bool,
    /// Flag ECE.
    pub ece: bool,
    /// Flag CWR.
    pub cwr: bool,
}

/// An ICMP message of either version (RFC 792; RFC 4443).
#[repr(C)]
#[derive(Drop)]
pub struct EpIcmp {
    /// The header: 20 bytes in ICMPv4's timestamp messages, else 8.
    pub header: EpPart,
    /// What follows it.
    pub payload: EpPart,
    /// The checksum, as the header states it.
    pub checksum: u16,
    /// The type.
    pub icmp_type: u8,
    /// The code.
    pub code: u8,
    /// Bytes 4 to 7, whatever the type says of them.
    pub rest: [u8; 4],
}

pub(crate) fn transport_number(message: &Option<TransportSlice<'_>>) -> u32
    ensures { result ≡ transport_number message.now }
{
    match message {
        None => 0,
        Some(TransportSlice::Udp(_)) => 17,
        Some(TransportSlice::Tcp(_)) => 6,
        Some(TransportSlice::Icmpv4(_)) => 1,
        Some(TransportSlice::Icmpv6(_)) => 58,
    }
}

/// The message at this offset, after which a header of up to 60 bytes has room.
pub(crate) fn udp_in(place: usize, message: &Option<TransportSlice<'_>>) -> EpUdp
    requires { place + 60 < 2 ^ 64 }
    ensures { result ≡ udp_struct_in place message.now }
{
    match message {
        Some(TransportSlice::Udp(datagram)) => udp_fields(place, datagram),
        _ => no_udp(),
    }
}

pub(crate) fn tcp_in(place: usize, message: &Option<TransportSlice<'_>>) -> EpTcp
    requires { place + 60 < 2 ^ 64 }
    ensures { result ≡ tcp_struct_in place message.now }
{
    match message {
        Some(TransportSlice::Tcp(segment)) => tcp_fields(place, segment),
        _ => no_tcp(),
    }
}

pub(crate) fn icmp_in(place: usize, message: &Option<TransportSlice<'_>>) -> EpIcmp
    requires { place + 60 < 2 ^ 64 }
    ensures { result ≡ icmp_struct_in place message.now }
{
    match message {
        Some(TransportSlice::Icmpv4(message)) => icmpv4_fields(place, message),
        Some(TransportSlice::Icmpv6(message)) => icmpv6_fields(place, message),
        _ => no_icmp(),
    }
}

fn no_icmp() -> EpIcmp
    ensures { result ≡ no_icmp }
{
    EpIcmp {
        header: EpPart::none(),
        payload: EpPart::none(),
        checksum: 0,
        icmp_type: 0,
        code: 0,
        rest: [0; 4],
    }
}

#[tactic(auto, using(crate::proofs::Offsets::icmpv4_header_most))]
fn icmpv4_fields(place: usize, message: &Icmpv4Slice<'_>) -> EpIcmp
    requires { place + 60 < 2 ^ 64 }
    ensures { result ≡ icmp_struct place (header_len (type_of message.now)) message.now }
{
    let len = message.header_len();
    EpIcmp {
        header: EpPart { offset: place, len },
        payload: EpPart::of(place + len, message.payload()),
        checksum: message.checksum(),
        icmp_type: message.type_u8(),
        code: message.code_u8(),
        rest: message.bytes5to8(),
    }
}

fn icmpv6_fields(place: usize, message: &Icmpv6Slice<'_>) -> EpIcmp
    requires { place + 60 < 2 ^ 64 }
    ensures { result ≡ icmp_struct place 8 message.now }
{
    let len = message.header_len();
    EpIcmp {
        header: EpPart { offset: place, len },
        payload: EpPart::of(place + len, message.payload()),
        checksum: message.checksum(),
        icmp_type: message.type_u8(),
        code: message.code_u8(),
        rest: message.bytes5to8(),
    }
}

fn no_udp() -> EpUdp
    ensures { result ≡ no_udp }
{
    EpUdp {
        header: EpPart::none(),
        payload: EpPart::none(),
        source_port: 0,
        destination_port: 0,
        stated_len: 0,
        checksum: 0,
    }
}

fn udp_fields(place: usize, datagram: &UdpSlice<'_>) -> EpUdp
    requires { place + 60 < 2 ^ 64 }
    ensures { result ≡ udp_struct place datagram.now }
{
    EpUdp {
        header: EpPart {
            offset: place,
            len: datagram.header_len(),
        },
        payload: EpPart::of(place + datagram.header_len(), datagram.payload()),
        source_port: datagram.source_port(),
        destination_port: datagram.destination_port(),
        stated_len: datagram.length(),
        checksum: datagram.checksum(),
    }
}

fn no_tcp() -> EpTcp
    ensures { result ≡ no_tcp }
{
    EpTcp {
        header: EpPart::none(),
        payload: EpPart::none(),
        sequence_number: 0,
        acknowledgment_number: 0,
        source_port: 0,
        destination_port: 0,
        window_size: 0,
        checksum: 0,
        urgent_pointer: 0,
        ns: false,
        fin: false,
        syn: false,
        rst: false,
        psh: false,
        ack: false,
        urg: false,
        ece: false,
        cwr: false,
    }
}

fn tcp_fields(place: usize, segment: &TcpSlice<'_>) -> EpTcp
    requires { place + 60 < 2 ^ 64 }
    ensures { result ≡ tcp_struct place segment.now }
{
    EpTcp {
        header: EpPart {
            offset: place,
            len: segment.header_len(),
        },
        payload: EpPart::of(place + segment.header_len(), segment.payload()),
        sequence_number: segment.sequence_number(),
        acknowledgment_number: segment.acknowledgment_number(),
        source_port: segment.source_port(),
        destination_port: segment.destination_port(),
        window_size: segment.window_size(),
        checksum: segment.checksum(),
        urgent_pointer: segment.urgent_pointer(),
        ns: segment.ns(),
        fin: segment.fin(),
        syn: segment.syn(),
        rst: segment.rst(),
        psh: segment.psh(),
        ack: segment.ack(),
        urg: segment.urg(),
        ece: segment.ece(),
        cwr: segment.cwr(),
    }
}
