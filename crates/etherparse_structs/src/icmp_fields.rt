//! The fields of an ICMP message by its kind, as numbers.
ghost use Rattle.std.specs.Prelude.{◌≡◌};
ghost use Rattle.etherparse.specs.icmp.Icmpv4Fault as icmpv4;
ghost use Rattle.etherparse.specs.icmp.Icmpv6Fault as icmpv6;
ghost use Rattle.etherparse.specs.icmp.Ndp as ndp;
ghost use Rattle.etherparse_structs.specs.IcmpFields.{echo_struct, icmpv4_fields_in, icmpv4_struct, icmpv6_fields_in};
ghost use Rattle.etherparse_structs.specs.IcmpFields.{icmpv6_struct, ndp_struct, ndp_struct_in, next_hop_mtu};
ghost use Rattle.etherparse_structs.specs.IcmpFields.{no_icmp_fields, no_ndp, pointer_of, timestamp_struct};

use etherparse::icmpv4::{DestUnreachableHeader, ParameterProblemHeader, TimestampMessage};
use etherparse::icmpv6::ndp::{NdpMessage, NdpSlice};
use etherparse::{IcmpEchoHeader, Icmpv4Slice, Icmpv4Type, Icmpv6Slice, Icmpv6Type};

/// No message, since there are too few bytes, or not the 20 of a timestamp message.
pub const ICMP_NONE: u32 = 0;

/// A type and code that have no other kind.
pub const ICMP_UNKNOWN: u32 = 1;

/// An echo request.
pub const ICMP_ECHO_REQUEST: u32 = 2;

/// The reply to one.
pub const ICMP_ECHO_REPLY: u32 = 3;

/// A packet couldn't be delivered.
pub const ICMP_DESTINATION_UNREACHABLE: u32 = 4;

/// Of ICMPv4: another gateway is the better one.
pub const ICMP_REDIRECT: u32 = 5;

/// A packet or its fragments took too long.
pub const ICMP_TIME_EXCEEDED: u32 = 6;

/// A packet's header has a fault.
pub const ICMP_PARAMETER_PROBLEM: u32 = 7;

/// Of ICMPv4: a request for the receiver's time.
pub const ICMP_TIMESTAMP_REQUEST: u32 = 8;

/// Of ICMPv4: the reply to one.
pub const ICMP_TIMESTAMP_REPLY: u32 = 9;

/// Of ICMPv6: a packet is bigger than the next link takes.
pub const ICMP_PACKET_TOO_BIG: u32 = 10;

/// What an ICMP message says beside its type and code, by its kind. The fields of other kinds are 0.
#[repr(C)]
#[derive(Drop)]
pub struct EpIcmpFields {
    /// The kind, one of EP_ICMP_..
    pub kind: u32,
    /// Of a packet too big: the greatest packet in bytes that the next link takes. Also of a
    /// destination unreachable of ICMPv4 with code 4, where nodes that don't report it write 0.
    pub mtu: u32,
    /// Of a parameter problem: the offset of the fault in the packet. With ICMPv4 only code 0 has one.
    pub pointer: u32,
    /// Of timestamps: when the request was last touched by its sender, in milliseconds since
    /// midnight UT.
    pub originate_timestamp: u32,
    /// Of timestamps: when the request was first touched by its receiver.
    pub receive_timestamp: u32,
    /// Of timestamps: when the reply was last touched by its sender.
    pub transmit_timestamp: u32,
    /// Of echoes and timestamps: the identifier, which the reply repeats.
    pub id: u16,
    /// Of echoes and timestamps: the sequence number, which the reply repeats.
    pub sequence_number: u16,
    /// Of a redirect: the address of the better gateway.
    pub gateway: [u8; 4],
}

/// A message of neighbor discovery for IPv6 (RFC 4861, section 4). The fields of other types are 0.
#[repr(C)]
#[derive(Drop)]
pub struct EpNdp {
    /// Where its options start in the message.
    pub options_offset: usize,
    /// Of a router advertisement: how long a neighbor is reachable after a confirmation, in
    /// milliseconds; 0: not given.
    pub reachable_time: u32,
    /// Of a router advertisement: the time between repeated solicitations, in milliseconds; 0: not
    /// given.
    pub retrans_timer: u32,
    /// Of a router advertisement: how long the router is a default router, in seconds; 0: it is none.
    pub router_lifetime: u16,
    /// The type: 133 router solicitation, 134 router advertisement, 135 neighbor solicitation, 136
    /// neighbor advertisement, 137 redirect; 0 none of these, or too few bytes for it.
    pub icmp_type: u8,
    /// Of a router advertisement: the hop limit for packets to send, 0 where the router gives none.
    pub hop_limit: u8,
    /// Of a router advertisement: bit M: addresses are available by DHCPv6.
    pub managed: bool,
    /// Of a router advertisement: bit O: other configuration is available by DHCPv6.
    pub other: bool,
    /// Of a neighbor advertisement: bit R: the sender is a router.
    pub router: bool,
    /// Of a neighbor advertisement: bit S: it answers a solicitation.
    pub solicited: bool,
    /// Of a neighbor advertisement: bit O: it overrides the link-layer address that is cached.
    pub overrides: bool,
    /// Of neighbor solicitations and advertisements: the address whose link-layer address it is about;
    /// of a redirect: the better first hop.
    pub target: [u8; 16],
    /// Of a redirect: the address whose packets go there.
    pub destination: [u8; 16],
}

/// The fields of the ICMPv4 message that these bytes are.
pub fn icmpv4_fields(message: &[u8]) -> EpIcmpFields
    ensures { result ≡ icmpv4_fields_in (icmpv4.message_at message.now) }
{
    match Icmpv4Slice::from_slice(message) {
        Ok(message) => icmpv4_struct(message.icmp_type()),
        Err(_) => no_icmp_fields(ICMP_NONE),
    }
}

/// The fields of the ICMPv6 message that these bytes are.
pub fn icmpv6_fields(message: &[u8]) -> EpIcmpFields
    ensures { result ≡ icmpv6_fields_in (icmpv6.message_at message.now) }
{
    match Icmpv6Slice::from_slice(message) {
        Ok(message) => icmpv6_struct(message.icmp_type()),
        Err(_) => no_icmp_fields(ICMP_NONE),
    }
}

/// The message of neighbor discovery that these bytes are.
pub fn ndp_message(message: &[u8]) -> EpNdp
    ensures { result ≡ ndp_struct_in (ndp.message_at message.now) }
{
    match NdpSlice::from_slice(message) {
        Some(Ok(message)) => ndp_in(message.message()),
        _ => no_ndp(),
    }
}

fn no_icmp_fields(kind: u32) -> EpIcmpFields
    ensures { result ≡ record no_icmp_fields { kind = kind } }
{
    EpIcmpFields {
        kind,
        mtu: 0,
        pointer: 0,
        originate_timestamp: 0,
        receive_timestamp: 0,
        transmit_timestamp: 0,
        id: 0,
        sequence_number: 0,
        gateway: [0; 4],
    }
}

fn icmpv4_struct(kind: Icmpv4Type) -> EpIcmpFields
    ensures { result ≡ icmpv4_struct kind }
{
    match kind {
        Icmpv4Type::Unknown { .. } => no_icmp_fields(ICMP_UNKNOWN),
        Icmpv4Type::EchoRequest(echo) => echo_struct(ICMP_ECHO_REQUEST, echo),
        Icmpv4Type::EchoReply(echo) => echo_struct(ICMP_ECHO_REPLY, echo),
        Icmpv4Type::DestinationUnreachable(header) => EpIcmpFields {
            mtu: u32::from(next_hop_mtu(header)),
            ..no_icmp_fields(ICMP_DESTINATION_UNREACHABLE)
        },
        Icmpv4Type::Redirect(header) => {
            let gateway = header.gateway_internet_address;
            EpIcmpFields {
                gateway,
                ..no_icmp_fields(ICMP_REDIRECT)
            }
        }
        Icmpv4Type::TimeExceeded(_) => no_icmp_fields(ICMP_TIME_EXCEEDED),
        Icmpv4Type::ParameterProblem(header) => EpIcmpFields {
            pointer: u32::from(pointer_of(header)),
            ..no_icmp_fields(ICMP_PARAMETER_PROBLEM)
        },
        Icmpv4Type::TimestampRequest(message) => timestamp_struct(ICMP_TIMESTAMP_REQUEST, message),
        Icmpv4Type::TimestampReply(message) => timestamp_struct(ICMP_TIMESTAMP_REPLY, message),
    }
}

fn icmpv6_struct(kind: Icmpv6Type) -> EpIcmpFields
    ensures { result ≡ icmpv6_struct kind }
{
    match kind {
        Icmpv6Type::Unknown { .. } => no_icmp_fields(ICMP_UNKNOWN),
        Icmpv6Type::EchoRequest(echo) => echo_struct(ICMP_ECHO_REQUEST, echo),
        Icmpv6Type::EchoReply(echo) => echo_struct(ICMP_ECHO_REPLY, echo),
        Icmpv6Type::DestinationUnreachable(_) => no_icmp_fields(ICMP_DESTINATION_UNREACHABLE),
        Icmpv6Type::TimeExceeded(_) => no_icmp_fields(ICMP_TIME_EXCEEDED),
        Icmpv6Type::ParameterProblem(header) => EpIcmpFields {
            pointer: header.pointer,
            ..no_icmp_fields(ICMP_PARAMETER_PROBLEM)
        },
        Icmpv6Type::PacketTooBig { mtu } => EpIcmpFields {
            mtu,
            ..no_icmp_fields(ICMP_PACKET_TOO_BIG)
        },
    }
}

fn echo_struct(kind: u32, echo: IcmpEchoHeader) -> EpIcmpFields
    ensures { result ≡ echo_struct kind echo }
{
    EpIcmpFields {
        id: echo.id,
        sequence_number: echo.seq,
        ..no_icmp_fields(kind)
    }
}

fn timestamp_struct(kind: u32, message: TimestampMessage) -> EpIcmpFields
    ensures { result ≡ timestamp_struct kind message }
{
    EpIcmpFields {
        id: message.id,
        sequence_number: message.seq,
        originate_timestamp: message.originate_timestamp,
        receive_timestamp: message.receive_timestamp,
        transmit_timestamp: message.transmit_timestamp,
        ..no_icmp_fields(kind)
    }
}

fn next_hop_mtu(header: DestUnreachableHeader) -> u16
    ensures { result ≡ next_hop_mtu header }
{
    match header {
        DestUnreachableHeader::FragmentationNeeded { next_hop_mtu } => next_hop_mtu,
        _ => 0,
    }
}

fn pointer_of(header: ParameterProblemHeader) -> u8
    ensures { result ≡ pointer_of header }
{
    match header {
        ParameterProblemHeader::PointerIndicatesError(pointer) => pointer,
        _ => 0,
    }
}

fn no_ndp() -> EpNdp
    ensures { result ≡ no_ndp }
{
    EpNdp {
        options_offset: 0,
        reachable_time: 0,
        retrans_timer: 0,
        router_lifetime: 0,
        icmp_type: 0,
        hop_limit: 0,
        managed: false,
        other: false,
        router: false,
        solicited: false,
        overrides: false,
        target: [0; 16],
        destination: [0; 16],
    }
}

// The message, and where its options start.
fn ndp_in(message: NdpMessage) -> EpNdp
    ensures { result ≡ record (ndp_struct message) { options_offset = ndp.header_len message } }
{
    EpNdp {
        options_offset: message.header_len(),
        ..ndp_struct(message)
    }
}

fn ndp_struct(message: NdpMessage) -> EpNdp
    ensures { result ≡ ndp_struct message }
{
    match message {
        NdpMessage::RouterSolicitation => EpNdp {
            icmp_type: 133,
            ..no_ndp()
        },
        NdpMessage::RouterAdvertisement {
            cur_hop_limit,
            managed,
            other,
            router_lifetime,
            reachable_time,
            retrans_timer,
        } => EpNdp {
            icmp_type: 134,
            hop_limit: cur_hop_limit,
            managed,
            other,
            router_lifetime,
            reachable_time,
            retrans_timer,
            ..no_ndp()
        },
        NdpMessage::NeighborSolicitation { target } => EpNdp {
            icmp_type: 135,
            target,
            ..no_ndp()
        },
        NdpMessage::NeighborAdvertisement {
            router,
            solicited,
            overrides,
            target,
        } => EpNdp {
            icmp_type: 136,
            router,
            solicited,
            overrides,
            target,
            ..no_ndp()
        },
        NdpMessage::Redirect {
            target,
            destination,
        } => EpNdp {
            icmp_type: 137,
            target,
            destination,
            ..no_ndp()
        },
    }
}
