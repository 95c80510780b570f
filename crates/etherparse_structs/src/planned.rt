//! The headers that a plan describes, but for those of the network layer.
ghost use Rattle.std.specs.Prelude.{◌≡◌, ◌==◌, Some, false};
ghost use Rattle.etherparse.specs.BuiltSteps.{echo, no_headers};
ghost use Rattle.etherparse_structs.specs.Plan.{icmpv4_in, icmpv6_in, inner_tag_in, lower_headers_in};
ghost use Rattle.etherparse_structs.specs.Plan.{outer_tag_in, tag_in, tags_in, tcp_in};
ghost use Rattle.etherparse_structs.specs.Plan.{wrong_inner_tag, wrong_lower_headers, wrong_options};
ghost use Rattle.etherparse_structs.specs.Plan.{wrong_outer_tag, wrong_packet_type, wrong_tags};
ghost use Rattle.etherparse_structs.specs.PlannedIp.{ip_in, wrong_ip};
ghost use Rattle.etherparse_structs.specs.Wrong.{unless, wrong_above};

use crate::plan::{EpPlan, PlanField};
use crate::planned_extensions::EpPlannedExtensions;
use crate::planned_ip::{ip_headers, is_plain_ipv4, is_plain_ipv6};
use etherparse::{
    DoubleVlanHeader, EtherType, IcmpEchoHeader, Icmpv4Type, Icmpv6Type, IpHeaders, LinkStep,
    LinuxSllPacketType, PacketBuilder, PacketBuilderStep, SingleVlanHeader, TcpHeader, TcpOptions,
    VlanHeader, VlanId, VlanPcp,
};

/// The headers up to those of the network layer, with these extension headers, whose parts are in
/// these bytes; or the first field that describes none.
pub(crate) fn lower_headers(
    plan: &EpPlan,
    extensions: &EpPlannedExtensions,
    bytes: &[u8],
) -> Result<PacketBuilderStep<IpHeaders>, PlanField>
    ensures { result ≡ unless (wrong_lower_headers plan.now extensions.now bytes.now)
        (lower_headers_in plan.now extensions.now bytes.now) }
{
    match plan.link {
        0 => headers_without_link(plan, extensions, bytes),
        1 => headers_of_ethernet(plan, extensions, bytes),
        2 => headers_of_capture(plan, extensions, bytes),
        _ => Err(PlanField::Link),
    }
}

fn headers_without_link(
    plan: &EpPlan,
    extensions: &EpPlannedExtensions,
    bytes: &[u8],
) -> Result<PacketBuilderStep<IpHeaders>, PlanField>
    requires { plan.now.link ≡ 0 }
    ensures { result ≡ unless (wrong_lower_headers plan.now extensions.now bytes.now)
        (lower_headers_in plan.now extensions.now bytes.now) }
{
    no_tags(plan)?;
    ip_alone(plan, extensions, bytes)
}

// The 9 kilobytes of extension headers are moved only where there are some, or where fields are
// described that no smaller step has.
fn ip_alone(
    plan: &EpPlan,
    extensions: &EpPlannedExtensions,
    bytes: &[u8],
) -> Result<PacketBuilderStep<IpHeaders>, PlanField>
    ensures { result ≡ unless (wrong_ip plan.now extensions.now bytes.now)
        (record no_headers { ip_headers = Some (ip_in plan.now extensions.now bytes.now) }) }
{
    if is_plain_ipv4(plan, extensions) {
        return Ok(PacketBuilder::ipv4(plan.ipv4_source, plan.ipv4_destination, plan.hops));
    }
    if is_plain_ipv6(plan, extensions) {
        return Ok(PacketBuilder::ipv6(plan.ipv6_source, plan.ipv6_destination, plan.hops));
    }
    given_ip_alone(plan, extensions, bytes)
}

#[inline(never)]
fn given_ip_alone(
    plan: &EpPlan,
    extensions: &EpPlannedExtensions,
    bytes: &[u8],
) -> Result<PacketBuilderStep<IpHeaders>, PlanField>
    ensures { result ≡ unless (wrong_ip plan.now extensions.now bytes.now)
        (record no_headers { ip_headers = Some (ip_in plan.now extensions.now bytes.now) }) }
{
    match ip_headers(plan, extensions, bytes) {
        Ok(headers) => Ok(PacketBuilder::ip(headers)),
        Err(field) => Err(field),
    }
}

fn headers_of_ethernet(
    plan: &EpPlan,
    extensions: &EpPlannedExtensions,
    bytes: &[u8],
) -> Result<PacketBuilderStep<IpHeaders>, PlanField>
    requires { plan.now.link ≡ 1 }
    ensures { result ≡ unless (wrong_lower_headers plan.now extensions.now bytes.now)
        (lower_headers_in plan.now extensions.now bytes.now) }
{
    let ethernet = PacketBuilder::ethernet2(plan.source, plan.destination);
    match tags(plan)? {
        None => with_ip(ethernet, plan, extensions, bytes),
        Some(tags) => with_ip(ethernet.vlan(tags), plan, extensions, bytes),
    }
}

fn headers_of_capture(
    plan: &EpPlan,
    extensions: &EpPlannedExtensions,
    bytes: &[u8],
) -> Result<PacketBuilderStep<IpHeaders>, PlanField>
    requires { plan.now.link ≡ 2 }
    ensures { result ≡ unless (wrong_lower_headers plan.now extensions.now bytes.now)
        (lower_headers_in plan.now extensions.now bytes.now) }
{
    let packet_type = packet_type(plan)?;
    no_tags(plan)?;
    let step = PacketBuilder::linux_sll(packet_type, plan.address_len, plan.address);
    with_ip(step, plan, extensions, bytes)
}

fn with_ip<L: LinkStep>(
    step: PacketBuilderStep<L>,
    plan: &EpPlan,
    extensions: &EpPlannedExtensions,
    bytes: &[u8],
) -> Result<PacketBuilderStep<IpHeaders>, PlanField>
    ensures { result ≡ unless (wrong_ip plan.now extensions.now bytes.now)
        (record step { ip_headers = Some (ip_in plan.now extensions.now bytes.now) }) }
{
    if is_plain_ipv4(plan, extensions) {
        return Ok(step.ipv4(plan.ipv4_source, plan.ipv4_destination, plan.hops));
    }
    if is_plain_ipv6(plan, extensions) {
        return Ok(step.ipv6(plan.ipv6_source, plan.ipv6_destination, plan.hops));
    }
    with_given_ip(step, plan, extensions, bytes)
}

#[inline(never)]
fn with_given_ip<L: LinkStep>(
    step: PacketBuilderStep<L>,
    plan: &EpPlan,
    extensions: &EpPlannedExtensions,
    bytes: &[u8],
) -> Result<PacketBuilderStep<IpHeaders>, PlanField>
    ensures { result ≡ unless (wrong_ip plan.now extensions.now bytes.now)
        (record step { ip_headers = Some (ip_in plan.now extensions.now bytes.now) }) }
{
    match ip_headers(plan, extensions, bytes) {
        Ok(headers) => Ok(step.ip(headers)),
        Err(field) => Err(field),
    }
}

/// The packet type of a cooked capture.
pub(crate) fn packet_type(plan: &EpPlan) -> Result<LinuxSllPacketType, PlanField>
    ensures { result ≡ unless (wrong_packet_type plan.now) plan.now.packet_type }
{
    match LinuxSllPacketType::try_from(plan.packet_type) {
        Ok(packet_type) => Ok(packet_type),
        Err(_) => Err(PlanField::PacketType),
    }
}

/// No tags: only an Ethernet II header has some after it.
pub(crate) fn no_tags(plan: &EpPlan) -> Result<(), PlanField>
    requires { (plan.now.link == 1) ≡ false }
    ensures { result ≡ unless (wrong_tags plan.now) tt }
{
    match plan.tag_count {
        0 => Ok(()),
        _ => Err(PlanField::TagCount),
    }
}

/// The tags after an Ethernet II header.
pub(crate) fn tags(plan: &EpPlan) -> Result<Option<VlanHeader>, PlanField>
    requires { plan.now.link ≡ 1 }
    ensures { result ≡ unless (wrong_tags plan.now) (tags_in plan.now) }
{
    match plan.tag_count {
        0 => Ok(None),
        1 => {
            let outer = outer_tag(plan)?;
            Ok(Some(VlanHeader::Single(outer)))
        }
        2 => {
            let outer = outer_tag(plan)?;
            let inner = inner_tag(plan)?;
            Ok(Some(VlanHeader::Double(DoubleVlanHeader { outer, inner })))
        }
        _ => Err(PlanField::TagCount),
    }
}

fn outer_tag(plan: &EpPlan) -> Result<SingleVlanHeader, PlanField>
    ensures { result ≡ unless (wrong_outer_tag plan.now) (outer_tag_in plan.now) }
{
    let id = vlan_id(plan.outer_vlan_id, PlanField::OuterVlanId)?;
    let priority = priority(plan.outer_priority, PlanField::OuterPriority)?;
    Ok(tag(id, priority, plan.outer_drop_eligible))
}

fn inner_tag(plan: &EpPlan) -> Result<SingleVlanHeader, PlanField>
    ensures { result ≡ unless (wrong_inner_tag plan.now) (inner_tag_in plan.now) }
{
    let id = vlan_id(plan.inner_vlan_id, PlanField::InnerVlanId)?;
    let priority = priority(plan.inner_priority, PlanField::InnerPriority)?;
    Ok(tag(id, priority, plan.inner_drop_eligible))
}

fn tag(vlan_id: VlanId, pcp: VlanPcp, drop_eligible_indicator: bool) -> SingleVlanHeader
    ensures { result ≡ tag_in vlan_id pcp drop_eligible_indicator }
{
    SingleVlanHeader {
        pcp,
        drop_eligible_indicator,
        vlan_id,
        ether_type: EtherType(0),
    }
}

fn vlan_id(id: u16, field: PlanField) -> Result<VlanId, PlanField>
    ensures { result ≡ unless (wrong_above 4095 id field) id }
{
    match VlanId::try_new(id) {
        Ok(id) => Ok(id),
        Err(_) => Err(field),
    }
}

fn priority(priority: u8, field: PlanField) -> Result<VlanPcp, PlanField>
    ensures { result ≡ unless (wrong_above 7 priority field) priority }
{
    match VlanPcp::try_new(priority) {
        Ok(pcp) => Ok(pcp),
        Err(_) => Err(field),
    }
}

/// The TCP header.
pub(crate) fn tcp(plan: &EpPlan) -> Result<TcpHeader, PlanField>
    ensures { result ≡ unless (wrong_options plan.now) (tcp_in plan.now) }
{
    if plan.options_len > 40 {
        return Err(PlanField::OptionsLen);
    }
    let options = TcpOptions::try_from_slice(&plan.options[..plan.options_len]).unwrap();
    Ok(TcpHeader {
        source_port: plan.source_port,
        destination_port: plan.destination_port,
        sequence_number: plan.sequence_number,
        acknowledgment_number: plan.acknowledgment_number,
        ns: plan.ns,
        fin: plan.fin,
        syn: plan.syn,
        rst: plan.rst,
        psh: plan.psh,
        ack: plan.ack,
        urg: plan.urg,
        ece: plan.ece,
        cwr: plan.cwr,
        window_size: plan.window_size,
        checksum: 0,
        urgent_pointer: plan.urgent_pointer,
        options,
    })
}

/// The ICMP message over IPv4.
pub(crate) fn icmpv4(plan: &EpPlan) -> Icmpv4Type
    ensures { result ≡ icmpv4_in plan.now }
{
    if plan.icmp_is_raw {
        return Icmpv4Type::Unknown {
            type_u8: plan.icmp_type,
            code_u8: plan.icmp_code,
            bytes5to8: plan.icmp_bytes,
        };
    }
    let echo = echo(plan);
    if plan.is_reply {
        Icmpv4Type::EchoReply(echo)
    } else {
        Icmpv4Type::EchoRequest(echo)
    }
}

/// The ICMP message over IPv6.
pub(crate) fn icmpv6(plan: &EpPlan) -> Icmpv6Type
    ensures { result ≡ icmpv6_in plan.now }
{
    if plan.icmp_is_raw {
        return Icmpv6Type::Unknown {
            type_u8: plan.icmp_type,
            code_u8: plan.icmp_code,
            bytes5to8: plan.icmp_bytes,
        };
    }
    let echo = echo(plan);
    if plan.is_reply {
        Icmpv6Type::EchoReply(echo)
    } else {
        Icmpv6Type::EchoRequest(echo)
    }
}

fn echo(plan: &EpPlan) -> IcmpEchoHeader
    ensures { result ≡ echo plan.now.echo_id plan.now.echo_sequence }
{
    IcmpEchoHeader {
        id: plan.echo_id,
        seq: plan.echo_sequence,
    }
}
