//! The headers of a packet to build.
ghost use Rattle.std.specs.Prelude.{◌≡◌};
ghost use Rattle.etherparse_structs.specs.Plan.{field_number};

/// The headers of a packet to build. The fields of headers that it doesn't have are ignored.
/// Lengths, checksums, ether types and the numbers of headers follow from it.
#[repr(C)]
#[derive(Drop)]
pub struct EpPlan {
    /// The link header: 0 none, 1 Ethernet II, 2 a Linux cooked capture of an Ethernet device.
    pub link: u32,
    /// Of Ethernet II: the destination address.
    pub destination: [u8; 6],
    /// Of Ethernet II: the source address.
    pub source: [u8; 6],
    /// Of a cooked capture: 0 to us, 1 broadcast, 2 multicast, 3 to others, 4 from us.
    pub packet_type: u16,
    /// Of a cooked capture: how many bytes of the address are the sender's.
    pub address_len: u16,
    /// Of a cooked capture: the sender's address.
    pub address: [u8; 8],
    /// How many VLAN tags follow an Ethernet II header: 0, 1 or 2.
    pub tag_count: u32,
    /// The identifier of the first of them, 0 to 4095.
    pub outer_vlan_id: u16,
    /// The identifier of the second one, 0 to 4095.
    pub inner_vlan_id: u16,
    /// The priority of the first of them, 0 to 7 (IEEE 802.1Q, section 6.9.3).
    pub outer_priority: u8,
    /// The priority of the second one, 0 to 7.
    pub inner_priority: u8,
    /// Whether the first of them says that the frame may be dropped first.
    pub outer_drop_eligible: bool,
    /// Whether the second one says so.
    pub inner_drop_eligible: bool,
    /// The IP version: 4 or 6.
    pub ip_version: u32,
    /// Of IPv4: the source address.
    pub ipv4_source: [u8; 4],
    /// Of IPv4: the destination address.
    pub ipv4_destination: [u8; 4],
    /// Of IPv6: the source address.
    pub ipv6_source: [u8; 16],
    /// Of IPv6: the destination address.
    pub ipv6_destination: [u8; 16],
    /// Of IPv4: how many bytes of options there are, at most 40, a multiple of 4.
    pub ipv4_options_len: usize,
    /// Of IPv4: the options.
    pub ipv4_options: [u8; 40],
    /// Of IPv4: the identification, which the fragments of one datagram share.
    pub identification: u16,
    /// Of IPv4: the offset of the payload in the datagram, in units of 8 bytes, 0 to 8191.
    pub fragment_offset: u16,
    /// Of IPv4: differentiated services code point, 0 to 63 (RFC 2474).
    pub dscp: u8,
    /// Of IPv4: explicit congestion notification, 0 to 3 (RFC 3168).
    pub ecn: u8,
    /// Of IPv4: whether the packet may be fragmented. Where it may not, don't-fragment is set.
    pub may_fragment: bool,
    /// Of IPv4: whether other fragments follow.
    pub more_fragments: bool,
    /// Of IPv6: the flow label, 0 to 1048575.
    pub flow_label: u32,
    /// Of IPv6: the traffic class. Differentiated services code point are its upper 6 bits, explicit
    /// congestion notification the lower 2.
    pub traffic_class: u8,
    /// How many hops it may take: time to live of IPv4, hop limit of IPv6.
    pub hops: u8,
    /// Without a transport header: the number of the payload.
    pub payload_number: u8,
    /// The transport header: 0 none, or its number: 1 ICMPv4, 6 TCP, 17 UDP, 58 ICMPv6.
    pub transport: u32,
    /// Of UDP and TCP: the source port.
    pub source_port: u16,
    /// Of UDP and TCP: the destination port.
    pub destination_port: u16,
    /// Of ICMP: whether it is the reply to an echo request, and not the request.
    pub is_reply: bool,
    /// Of ICMP: the identifier of the echo.
    pub echo_id: u16,
    /// Of ICMP: the number of the echo.
    pub echo_sequence: u16,
    /// Of ICMP: whether it isn't an echo, but has the type, the code and the 4 bytes that follow here.
    pub icmp_is_raw: bool,
    /// Of ICMP that is no echo: its type.
    pub icmp_type: u8,
    /// Of ICMP that is no echo: its code.
    pub icmp_code: u8,
    /// Of ICMP that is no echo: the 4 bytes after the checksum.
    pub icmp_bytes: [u8; 4],
    /// Of TCP: the sequence number.
    pub sequence_number: u32,
    /// Of TCP: the acknowledgment number.
    pub acknowledgment_number: u32,
    /// Of TCP: the window.
    pub window_size: u16,
    /// Of TCP: the urgent pointer.
    pub urgent_pointer: u16,
    /// Of TCP: flag NS: ECN nonce (RFC 3540).
    pub ns: bool,
    /// Of TCP: flag FIN: no more data.
    pub fin: bool,
    /// Of TCP: flag SYN: sequence numbers are synchronized.
    pub syn: bool,
    /// Of TCP: flag RST: the connection is reset.
    pub rst: bool,
    /// Of TCP: flag PSH: push.
    pub psh: bool,
    /// Of TCP: flag ACK: the acknowledgment number counts.
    pub ack: bool,
    /// Of TCP: flag URG: the urgent pointer counts.
    pub urg: bool,
    /// Of TCP: flag ECE: ECN echo.
    pub ece: bool,
    /// Of TCP: flag CWR: congestion window reduced.
    pub cwr: bool,
    /// Of TCP: how many bytes of options there are, at most 40.
    pub options_len: usize,
    /// Of TCP: the options. They are padded with 0 to whole words of 4 bytes.
    pub options: [u8; 40],
}

/// What may be refused of a packet to build.
#[derive(Clone, Copy, Debug, PartialEq, Eq)]
pub enum PlanField {
    /// No such link header, or none before an ARP packet.
    Link,
    /// A packet type of a cooked capture above 4.
    PacketType,
    /// More than two tags, or tags without an Ethernet II header.
    TagCount,
    /// An identifier of the first tag above 4095.
    OuterVlanId,
    /// A priority of the first tag above 7.
    OuterPriority,
    /// An identifier of the second tag above 4095.
    InnerVlanId,
    /// A priority of the second tag above 7.
    InnerPriority,
    /// No such IP version.
    IpVersion,
    /// A differentiated services code point above 63.
    Dscp,
    /// An explicit congestion notification above 3.
    Ecn,
    /// An offset of a fragment over IPv4 above 8191.
    FragmentOffset,
    /// More than 40 bytes of IPv4's options, or no whole words of 4.
    Ipv4OptionsLen,
    /// A flow label above 1048575.
    FlowLabel,
    /// Hop-by-hop options of a length that no header states, not within the bytes, or over IPv4.
    HopByHopOptions,
    /// The same of destination options before a routing header.
    DestinationOptions,
    /// The same of a routing header.
    Routing,
    /// A fragment header whose offset is above 8191, or over IPv4.
    FragmentHeader,
    /// An integrity check value of a length that no header states, or not within the bytes.
    Authentication,
    /// The same as of destination options, of those after a routing header, or no routing header.
    FinalDestinationOptions,
    /// No such transport header, or ICMPv6 over IPv4.
    Transport,
    /// More than 40 bytes of TCP's options.
    OptionsLen,
    /// Hardware addresses that differ in length, have more than 255 bytes, or aren't within the bytes.
    HardwareAddresses,
    /// The same of protocol addresses.
    ProtocolAddresses,
    /// A payload that is longer than the length field of the IP header can state.
    Payload,
}

/// The number of the field.
pub(crate) fn field_number(field: PlanField) -> u32
    ensures { result ≡ field_number field }
{
    match field {
        PlanField::Link => 1,
        PlanField::PacketType => 2,
        PlanField::TagCount => 3,
        PlanField::OuterVlanId => 4,
        PlanField::OuterPriority => 5,
        PlanField::InnerVlanId => 6,
        PlanField::InnerPriority => 7,
        PlanField::IpVersion => 8,
        PlanField::Dscp => 9,
        PlanField::Ecn => 10,
        PlanField::FragmentOffset => 11,
        PlanField::Ipv4OptionsLen => 12,
        PlanField::FlowLabel => 13,
        PlanField::HopByHopOptions => 14,
        PlanField::DestinationOptions => 15,
        PlanField::Routing => 16,
        PlanField::FragmentHeader => 17,
        PlanField::Authentication => 18,
        PlanField::FinalDestinationOptions => 19,
        PlanField::Transport => 20,
        PlanField::OptionsLen => 21,
        PlanField::HardwareAddresses => 22,
        PlanField::ProtocolAddresses => 23,
        PlanField::Payload => 24,
    }
}
