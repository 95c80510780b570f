//! Why packets are refused, without the numbers that differ from packet to packet.
ghost use Rattle.std.specs.Prelude.{◌≡◌};
ghost use Rattle.packets.specs.Reasons.{auth_reason, cooked_reason, exts_reason, ip_reason, ipv4_reason, macsec_reason};

use ep_base::err::Layer;
use ep_ext::err::{ip_auth, ipv6_exts};
use ep_ip::err::ipv4;
use ep_ipslice::err::ip;
use ep_link::err::linux_sll;
use ep_packet::err::packet::SliceError;
use ep_tag::err::macsec;
use etherparse::defrag::IpDefragError;
use header_descriptions::show::faults::layer_name;
use std::fmt;

/// Why a packet is refused.
#[derive(Clone, Copy, Debug, PartialEq, Eq, Hash)]
pub enum Reason {
    /// Fewer bytes are there than this layer needs.
    CutOff(Layer),
    /// The header of a Linux cooked capture has an unknown packet type.
    CookedPacketType,
    /// The header of a Linux cooked capture has an unknown hardware type.
    CookedHardwareType,
    /// The version of a MACsec header is not 0.
    MacsecVersion,
    /// The short length of a MACsec header leaves no bytes for an ether type.
    MacsecShortLen,
    /// The version of an IP header is not the one expected there, or neither 4 nor 6.
    IpVersion,
    /// The length of an IPv4 header is below the least.
    Ipv4HeaderLen,
    /// The length of an authentication header is below the least.
    AuthHeaderLen,
    /// Hop-by-hop options come after another extension header.
    HopByHopNotFirst,
    /// The data offset of a TCP header is below the least.
    TcpDataOffset,
    /// A fragment that isn't the last has a length that is no multiple of 8.
    FragmentUnaligned,
    /// A fragment ends after the greatest length of a datagram.
    FragmentTooLong,
    /// A fragment disagrees with the end of its datagram.
    FragmentEnd,
    /// A fragment overlaps another one where that is refused.
    FragmentOverlap,
    /// There was no memory for a fragment.
    FragmentMemory,
}

impl Reason {
    ghost use Rattle.packets.specs.Reasons.{fragment_reason, reason_of};

    /// Why a frame is refused.
    pub fn of(error: SliceError) -> Reason
        ensures { result ≡ reason_of error }
    {
        match error {
            SliceError::Len(error) => Reason::CutOff(error.layer),
            SliceError::LinuxSll(error) => of_cooked(error),
            SliceError::Macsec(error) => of_macsec(error),
            SliceError::Ip(error) => of_ip(error),
            SliceError::Ipv4(error) => of_ipv4(error),
            SliceError::Ipv6(_) => Reason::IpVersion,
            SliceError::Ipv4Exts(error) => of_auth(error),
            SliceError::Ipv6Exts(error) => of_extensions(error),
            SliceError::Tcp(_) => Reason::TcpDataOffset,
        }
    }

    /// Why a fragment is refused.
    pub fn of_fragment(error: IpDefragError) -> Reason
        ensures { result ≡ fragment_reason error }
    {
        match error {
            IpDefragError::UnalignedFragmentPayloadLen { .. } => Reason::FragmentUnaligned,
            IpDefragError::SegmentTooBig { .. } => Reason::FragmentTooLong,
            IpDefragError::ConflictingEnd { .. } => Reason::FragmentEnd,
            IpDefragError::AllocationFailure { .. } => Reason::FragmentMemory,
            IpDefragError::OverlappingFragment { .. } => Reason::FragmentOverlap,
        }
    }
}

fn of_cooked(error: linux_sll::HeaderError) -> Reason
    ensures { result ≡ cooked_reason error }
{
    match error {
        linux_sll::HeaderError::UnsupportedPacketTypeField { .. } => Reason::CookedPacketType,
        linux_sll::HeaderError::UnsupportedArpHardwareId { .. } => Reason::CookedHardwareType,
    }
}

fn of_macsec(error: macsec::HeaderError) -> Reason
    ensures { result ≡ macsec_reason error }
{
    match error {
        macsec::HeaderError::UnexpectedVersion => Reason::MacsecVersion,
        macsec::HeaderError::InvalidUnmodifiedShortLen => Reason::MacsecShortLen,
    }
}

fn of_ip(error: ip::HeaderError) -> Reason
    ensures { result ≡ ip_reason error }
{
    match error {
        ip::HeaderError::UnsupportedIpVersion { .. } => Reason::IpVersion,
        ip::HeaderError::Ipv4HeaderLengthSmallerThanHeader { .. } => Reason::Ipv4HeaderLen,
    }
}

fn of_ipv4(error: ipv4::HeaderError) -> Reason
    ensures { result ≡ ipv4_reason error }
{
    match error {
        ipv4::HeaderError::UnexpectedVersion { .. } => Reason::IpVersion,
        ipv4::HeaderError::HeaderLengthSmallerThanHeader { .. } => Reason::Ipv4HeaderLen,
    }
}

fn of_auth(error: ip_auth::HeaderError) -> Reason
    ensures { result ≡ auth_reason error }
{
    match error {
        ip_auth::HeaderError::ZeroPayloadLen => Reason::AuthHeaderLen,
    }
}

fn of_extensions(error: ipv6_exts::HeaderError) -> Reason
    ensures { result ≡ exts_reason error }
{
    match error {
        ipv6_exts::HeaderError::HopByHopNotAtStart => Reason::HopByHopNotFirst,
        ipv6_exts::HeaderError::IpAuth(error) => of_auth(error),
    }
}

/// It has no contract: tests compare the texts.
impl fmt::Display for Reason {
    fn fmt<W: fmt::Write>(&self, f: &mut fmt::Formatter<W>) -> fmt::Result {
        match self {
            Reason::CutOff(layer) => {
                let name = layer_name(*layer);
                write!(f, "{name} cut off")
            }
            Reason::CookedPacketType => f.write_str("cooked packet of an unknown type"),
            Reason::CookedHardwareType => f.write_str("cooked packet of an unknown hardware type"),
            Reason::MacsecVersion => f.write_str("MACsec version 1"),
            Reason::MacsecShortLen => f.write_str("MACsec short length 1"),
            Reason::IpVersion => f.write_str("IP header of another version"),
            Reason::Ipv4HeaderLen => f.write_str("IPv4 header length below 5"),
            Reason::AuthHeaderLen => f.write_str("authentication header of length 0"),
            Reason::HopByHopNotFirst => f.write_str("hop-by-hop options after another header"),
            Reason::TcpDataOffset => f.write_str("TCP data offset below 5"),
            Reason::FragmentUnaligned => f.write_str("fragment of no multiple of 8 bytes"),
            Reason::FragmentTooLong => f.write_str("fragment beyond 65535 bytes"),
            Reason::FragmentEnd => f.write_str("fragment against the end of its message"),
            Reason::FragmentOverlap => f.write_str("fragment that overlaps another"),
            Reason::FragmentMemory => f.write_str("no memory for a fragment"),
        }
    }
}
