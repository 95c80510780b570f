//! The headers of the network layer that a plan describes.
ghost use Rattle.std.specs.Prelude.{◌≡◌, ◌↔◌, IsTrue};
ghost use Rattle.etherparse.specs.base.IpEcn.{ecn_of};
ghost use Rattle.etherparse_structs.specs.Wrong.{unless, wrong_above};
ghost use Rattle.etherparse_structs.specs.PlannedIp.{ip_in, ipv4_in, ipv4_options_in, ipv6_in, wrong_ip, wrong_ipv4};
ghost use Rattle.etherparse_structs.specs.PlannedIp.{IsPlainIpv4, IsPlainIpv6, wrong_ipv4_options, wrong_ipv6};

use crate::plan::{EpPlan, PlanField};
use crate::planned_extensions::{EpPlannedExtensions, ipv4_extensions, ipv6_extensions};
use etherparse::{
    IpDscp, IpEcn, IpFragOffset, IpHeaders, IpNumber, Ipv4Header, Ipv4Options, Ipv6FlowLabel,
    Ipv6Header,
};

/// The headers of the network layer, with these extension headers, whose parts are in these bytes;
/// or the first field that describes none.
#[tactic(auto, unfolding(crate::specs::PlannedIp::ip_in, crate::specs::PlannedIp::wrong_ip))]
pub(crate) fn ip_headers(
    plan: &EpPlan,
    extensions: &EpPlannedExtensions,
    bytes: &[u8],
) -> Result<IpHeaders, PlanField>
    ensures { result ≡ unless (wrong_ip plan.now extensions.now bytes.now)
        (ip_in plan.now extensions.now bytes.now) }
{
    match plan.ip_version {
        4 => {
            let header = ipv4_header(plan)?;
            let extensions = ipv4_extensions(extensions, bytes)?;
            Ok(IpHeaders::Ipv4(header, extensions))
        }
        6 => {
            let header = ipv6_header(plan)?;
            let extensions = ipv6_extensions(extensions, bytes)?;
            Ok(IpHeaders::Ipv6(header, extensions))
        }
        _ => Err(PlanField::IpVersion),
    }
}

/// Whether they are those of IPv4 that addresses and hops determine.
pub(crate) fn is_plain_ipv4(plan: &EpPlan, extensions: &EpPlannedExtensions) -> bool
    ensures { IsTrue result ↔ IsPlainIpv4 plan.now extensions.now }
{
    if plan.ip_version != 4 || plan.ipv4_options_len != 0 {
        return false;
    }
    if plan.identification != 0 || plan.fragment_offset != 0 {
        return false;
    }
    if plan.dscp != 0 || plan.ecn != 0 {
        return false;
    }
    if plan.may_fragment || plan.more_fragments {
        return false;
    }
    extensions.is_empty()
}

/// Whether they are those of IPv6 that addresses and hops determine.
pub(crate) fn is_plain_ipv6(plan: &EpPlan, extensions: &EpPlannedExtensions) -> bool
    ensures { IsTrue result ↔ IsPlainIpv6 plan.now extensions.now }
{
    if plan.ip_version != 6 || plan.traffic_class != 0 || plan.flow_label != 0 {
        return false;
    }
    extensions.is_empty()
}

fn ipv4_header(plan: &EpPlan) -> Result<Ipv4Header, PlanField>
    ensures { result ≡ unless (wrong_ipv4 plan.now) (ipv4_in plan.now) }
{
    let dscp = dscp(plan.dscp)?;
    let ecn = ecn(plan.ecn)?;
    let fragment_offset = fragment_offset(plan.fragment_offset, PlanField::FragmentOffset)?;
    let options = ipv4_options(plan)?;
    Ok(Ipv4Header {
        dscp,
        ecn,
        total_len: 0,
        identification: plan.identification,
        dont_fragment: !plan.may_fragment,
        more_fragments: plan.more_fragments,
        fragment_offset,
        time_to_live: plan.hops,
        protocol: IpNumber(255),
        header_checksum: 0,
        source: plan.ipv4_source,
        destination: plan.ipv4_destination,
        options,
    })
}

fn ipv6_header(plan: &EpPlan) -> Result<Ipv6Header, PlanField>
    ensures { result ≡ unless (wrong_ipv6 plan.now) (ipv6_in plan.now) }
{
    let flow_label = flow_label(plan.flow_label)?;
    Ok(Ipv6Header {
        traffic_class: plan.traffic_class,
        flow_label,
        payload_length: 0,
        next_header: IpNumber(255),
        hop_limit: plan.hops,
        source: plan.ipv6_source,
        destination: plan.ipv6_destination,
    })
}

fn dscp(value: u8) -> Result<IpDscp, PlanField>
    ensures { result ≡ unless (wrong_above 63 value PlanField.Dscp) value }
{
    match IpDscp::try_new(value) {
        Ok(dscp) => Ok(dscp),
        Err(_) => Err(PlanField::Dscp),
    }
}

fn ecn(value: u8) -> Result<IpEcn, PlanField>
    ensures { result ≡ unless (wrong_above 3 value PlanField.Ecn) (ecn_of value) }
{
    match IpEcn::try_new(value) {
        Ok(ecn) => Ok(ecn),
        Err(_) => Err(PlanField::Ecn),
    }
}

fn flow_label(value: u32) -> Result<Ipv6FlowLabel, PlanField>
    ensures { result ≡ unless (wrong_above 1048575 value PlanField.FlowLabel) value }
{
    match Ipv6FlowLabel::try_new(value) {
        Ok(label) => Ok(label),
        Err(_) => Err(PlanField::FlowLabel),
    }
}

/// The offset of a fragment, or this field.
pub(crate) fn fragment_offset(units: u16, field: PlanField) -> Result<IpFragOffset, PlanField>
    ensures { result ≡ unless (wrong_above 8191 units field) units }
{
    match IpFragOffset::try_new(units) {
        Ok(offset) => Ok(offset),
        Err(_) => Err(field),
    }
}

fn ipv4_options(plan: &EpPlan) -> Result<Ipv4Options, PlanField>
    ensures { result ≡ unless (wrong_ipv4_options plan.now) (ipv4_options_in plan.now) }
{
    if plan.ipv4_options_len > 40 || plan.ipv4_options_len % 4 != 0 {
        return Err(PlanField::Ipv4OptionsLen);
    }
    match Ipv4Options::try_from(&plan.ipv4_options[..plan.ipv4_options_len]) {
        Ok(options) => Ok(options),
        Err(_) => Err(PlanField::Ipv4OptionsLen),
    }
}
