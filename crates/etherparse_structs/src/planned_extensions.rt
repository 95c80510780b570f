//! The extension headers of a packet to build.
ghost use Rattle.std.specs.Prelude.{◌≡◌, ◌↔◌, IsTrue, Some};
ghost use Rattle.std.specs.Option.{option_map};
ghost use Rattle.etherparse_structs.specs.Wrong.{unless};
ghost use Rattle.etherparse_structs.specs.PlannedExtensions.{HasNone, auth_in, final_options_in, fragment_in, ipv4_exts_in};
ghost use Rattle.etherparse_structs.specs.PlannedExtensions.{ipv6_exts_in, no_extensions, raw_in, wrong_auth};
ghost use Rattle.etherparse_structs.specs.PlannedExtensions.{wrong_final_options, wrong_fragment, wrong_ipv4_exts};
ghost use Rattle.etherparse_structs.specs.PlannedExtensions.{wrong_ipv6_exts, wrong_raw, wrong_there};

use crate::EpPart;
use crate::plan::PlanField;
use crate::planned_ip::fragment_offset;
use etherparse::{
    IpAuthHeader, IpNumber, Ipv4Extensions, Ipv6Extensions, Ipv6FragmentHeader, Ipv6RawExtHeader,
    Ipv6RoutingExtensions,
};

/// The extension headers of a packet to build (RFC 8200, section 4; RFC 4302). They are written in the
/// order of RFC 8200, section 4.1: hop-by-hop options, destination options, routing, fragment,
/// authentication, destination options. Over IPv4 there is authentication alone. A part of options or
/// routing is what follows the first two bytes of the header: 6 bytes and a multiple of 8, at most
/// 2046; no bytes stand for no header. Numbers and lengths of headers follow from it.
#[repr(C)]
#[derive(Drop)]
pub struct EpPlannedExtensions {
    /// Hop-by-hop options.
    pub hop_by_hop_options: EpPart,
    /// Destination options before a routing header, or where there is none.
    pub destination_options: EpPart,
    /// The routing header.
    pub routing: EpPart,
    /// Destination options after the routing header, without which they are refused.
    pub final_destination_options: EpPart,
    /// Of authentication: the integrity check value, a multiple of 4 bytes, at most 1016.
    pub integrity_check_value: EpPart,
    /// Of a fragment header: the identification, which the fragments of one datagram share.
    pub identification: u32,
    /// Of authentication: the security parameters index.
    pub spi: u32,
    /// Of authentication: the sequence number.
    pub sequence_number: u32,
    /// Of a fragment header: the offset of the payload in the datagram, in units of 8 bytes, 0 to
    /// 8191.
    pub fragment_offset: u16,
    /// Of a fragment header: whether other fragments follow.
    pub more_fragments: bool,
    /// Whether there is a fragment header.
    pub has_fragment_header: bool,
    /// Whether there is an authentication header.
    pub has_authentication: bool,
}

impl EpPlannedExtensions {
    /// No extension header.
    pub(crate) fn none() -> EpPlannedExtensions
        ensures { result ≡ no_extensions }
    {
        EpPlannedExtensions {
            hop_by_hop_options: EpPart::none(),
            destination_options: EpPart::none(),
            routing: EpPart::none(),
            final_destination_options: EpPart::none(),
            integrity_check_value: EpPart::none(),
            identification: 0,
            spi: 0,
            sequence_number: 0,
            fragment_offset: 0,
            more_fragments: false,
            has_fragment_header: false,
            has_authentication: false,
        }
    }

    /// Whether it describes no extension header.
    pub(crate) fn is_empty(&self) -> bool
        ensures { IsTrue result ↔ HasNone self.now }
    {
        if self.hop_by_hop_options.len != 0 || self.destination_options.len != 0 {
            return false;
        }
        if self.routing.len != 0 || self.final_destination_options.len != 0 {
            return false;
        }
        !self.has_fragment_header && !self.has_authentication
    }
}

/// Those of IPv4, or the first field that describes none.
#[tactic(auto, unfolding(crate::specs::PlannedExtensions::ipv4_exts_in, crate::specs::PlannedExtensions::wrong_ipv4_exts))]
pub(crate) fn ipv4_extensions(
    extensions: &EpPlannedExtensions,
    bytes: &[u8],
) -> Result<Ipv4Extensions, PlanField>
    ensures { result ≡ unless (wrong_ipv4_exts extensions.now bytes.now)
        (ipv4_exts_in extensions.now bytes.now) }
{
    not_there(&extensions.hop_by_hop_options, PlanField::HopByHopOptions)?;
    not_there(
        &extensions.destination_options,
        PlanField::DestinationOptions,
    )?;
    not_there(&extensions.routing, PlanField::Routing)?;
    if extensions.has_fragment_header {
        return Err(PlanField::FragmentHeader);
    }
    let auth = auth_header(extensions, bytes)?;
    not_there(
        &extensions.final_destination_options,
        PlanField::FinalDestinationOptions,
    )?;
    Ok(Ipv4Extensions { auth })
}

/// Those of IPv6, or the first field that describes none.
#[tactic(auto, unfolding(crate::specs::PlannedExtensions::ipv6_exts_in, crate::specs::PlannedExtensions::wrong_ipv6_exts))]
pub(crate) fn ipv6_extensions(
    extensions: &EpPlannedExtensions,
    bytes: &[u8],
) -> Result<Ipv6Extensions, PlanField>
    ensures { result ≡ unless (wrong_ipv6_exts extensions.now bytes.now)
        (ipv6_exts_in extensions.now bytes.now) }
{
    let hop_by_hop_options = raw_header(
        &extensions.hop_by_hop_options,
        bytes,
        PlanField::HopByHopOptions,
    )?;
    let destination_options = raw_header(
        &extensions.destination_options,
        bytes,
        PlanField::DestinationOptions,
    )?;
    let routing = raw_header(&extensions.routing, bytes, PlanField::Routing)?;
    let fragment = fragment_header(extensions)?;
    let auth = auth_header(extensions, bytes)?;
    let final_options = final_options(extensions, bytes)?;
    Ok(Ipv6Extensions {
        hop_by_hop_options,
        destination_options,
        routing: with_final_options(routing, final_options),
        fragment,
        auth,
    })
}

fn with_final_options(
    routing: Option<Ipv6RawExtHeader>,
    final_destination_options: Option<Ipv6RawExtHeader>,
) -> Option<Ipv6RoutingExtensions>
    ensures { result ≡ option_map (λ header. record {
      routing = header;
      final_destination_options = final_destination_options;
    }) routing }
{
    match routing {
        Some(routing) => Some(Ipv6RoutingExtensions {
            routing,
            final_destination_options,
        }),
        None => None,
    }
}

// Destination options after a routing header.
fn final_options(
    extensions: &EpPlannedExtensions,
    bytes: &[u8],
) -> Result<Option<Ipv6RawExtHeader>, PlanField>
    ensures { result ≡ unless (wrong_final_options extensions.now bytes.now)
        (final_options_in extensions.now bytes.now) }
{
    if extensions.routing.len == 0 {
        not_there(
            &extensions.final_destination_options,
            PlanField::FinalDestinationOptions,
        )?;
        return Ok(None);
    }
    raw_header(
        &extensions.final_destination_options,
        bytes,
        PlanField::FinalDestinationOptions,
    )
}

fn not_there(part: &EpPart, field: PlanField) -> Result<(), PlanField>
    ensures { result ≡ unless (wrong_there field part.now) tt }
{
    if part.len == 0 { Ok(()) } else { Err(field) }
}

#[tactic(auto, unfolding(crate::specs::PlannedExtensions::wrong_raw))]
fn raw_header(
    part: &EpPart,
    bytes: &[u8],
    field: PlanField,
) -> Result<Option<Ipv6RawExtHeader>, PlanField>
    ensures { result ≡ unless (wrong_raw bytes.now field part.now) (raw_in bytes.now part.now) }
{
    if part.len == 0 {
        return Ok(None);
    }
    let payload = part.bytes_in(bytes);
    if payload.len() != part.len || payload.len() > 2046 || payload.len() % 8 != 6 {
        return Err(field);
    }
    Ok(Some(Ipv6RawExtHeader::new_raw(IpNumber(0), payload).unwrap()))
}

fn fragment_header(
    extensions: &EpPlannedExtensions,
) -> Result<Option<Ipv6FragmentHeader>, PlanField>
    ensures { result ≡ unless (wrong_fragment extensions.now) (fragment_in extensions.now) }
{
    if !extensions.has_fragment_header {
        return Ok(None);
    }
    let offset = fragment_offset(extensions.fragment_offset, PlanField::FragmentHeader)?;
    Ok(Some(Ipv6FragmentHeader {
        next_header: IpNumber(0),
        fragment_offset: offset,
        more_fragments: extensions.more_fragments,
        identification: extensions.identification,
    }))
}

#[tactic(auto, unfolding(crate::specs::PlannedExtensions::wrong_auth))]
fn auth_header(
    extensions: &EpPlannedExtensions,
    bytes: &[u8],
) -> Result<Option<IpAuthHeader>, PlanField>
    ensures { result ≡ unless (wrong_auth extensions.now bytes.now)
        (auth_in extensions.now bytes.now) }
{
    if !extensions.has_authentication {
        return Ok(None);
    }
    let icv = extensions.integrity_check_value.bytes_in(bytes);
    if icv.len() != extensions.integrity_check_value.len || icv.len() > 1016 || icv.len() % 4 != 0 {
        return Err(PlanField::Authentication);
    }
    let header = IpAuthHeader::new(IpNumber(0), extensions.spi, extensions.sequence_number, icv);
    Ok(Some(header.unwrap()))
}
