//! The ARP packet that a plan describes.
ghost use Rattle.std.specs.Prelude.{◌≡◌, Some};
ghost use Rattle.etherparse_structs.specs.PlannedArp.{arp_headers_in, arp_in, wrong_arp, wrong_in_arp, wrong_pair};
ghost use Rattle.etherparse_structs.specs.Wrong.{unless};

use crate::plan::{EpPlan, PlanField};
use crate::planned::{no_tags, packet_type, tags};
use crate::{EpArp, EpPart};
use etherparse::{
    ArpHardwareId, ArpOperation, ArpPacket, EtherType, LinkStep, PacketBuilder, PacketBuilderStep,
};

/// The headers of a packet that holds this ARP packet, whose addresses are parts of these bytes; or
/// the first field that describes none.
pub(crate) fn arp_headers(
    plan: &EpPlan,
    arp: &EpArp,
    bytes: &[u8],
) -> Result<PacketBuilderStep<ArpPacket>, PlanField>
    ensures { result ≡ unless (wrong_in_arp plan.now arp.now bytes.now)
        (arp_headers_in plan.now arp.now bytes.now) }
{
    match plan.link {
        1 => arp_of_ethernet(plan, arp, bytes),
        2 => arp_of_capture(plan, arp, bytes),
        _ => Err(PlanField::Link),
    }
}

fn arp_of_ethernet(
    plan: &EpPlan,
    arp: &EpArp,
    bytes: &[u8],
) -> Result<PacketBuilderStep<ArpPacket>, PlanField>
    requires { plan.now.link ≡ 1 }
    ensures { result ≡ unless (wrong_in_arp plan.now arp.now bytes.now)
        (arp_headers_in plan.now arp.now bytes.now) }
{
    let ethernet = PacketBuilder::ethernet2(plan.source, plan.destination);
    match tags(plan)? {
        None => with_arp(ethernet, arp, bytes),
        Some(tags) => with_arp(ethernet.vlan(tags), arp, bytes),
    }
}

fn arp_of_capture(
    plan: &EpPlan,
    arp: &EpArp,
    bytes: &[u8],
) -> Result<PacketBuilderStep<ArpPacket>, PlanField>
    requires { plan.now.link ≡ 2 }
    ensures { result ≡ unless (wrong_in_arp plan.now arp.now bytes.now)
        (arp_headers_in plan.now arp.now bytes.now) }
{
    let packet_type = packet_type(plan)?;
    no_tags(plan)?;
    let step = PacketBuilder::linux_sll(packet_type, plan.address_len, plan.address);
    with_arp(step, arp, bytes)
}

fn with_arp<L: LinkStep>(
    step: PacketBuilderStep<L>,
    arp: &EpArp,
    bytes: &[u8],
) -> Result<PacketBuilderStep<ArpPacket>, PlanField>
    ensures { result ≡ unless (wrong_arp arp.now bytes.now)
        (record step { arp_packet = Some (arp_in arp.now bytes.now) }) }
{
    match arp_packet(arp, bytes) {
        Ok(packet) => Ok(step.arp(packet)),
        Err(field) => Err(field),
    }
}

#[tactic(auto, unfolding(crate::specs::PlannedArp::arp_in, crate::specs::PlannedArp::wrong_arp))]
fn arp_packet(arp: &EpArp, bytes: &[u8]) -> Result<ArpPacket, PlanField>
    ensures { result ≡ unless (wrong_arp arp.now bytes.now) (arp_in arp.now bytes.now) }
{
    pair(
        &arp.sender_hardware,
        &arp.target_hardware,
        bytes,
        PlanField::HardwareAddresses,
    )?;
    pair(
        &arp.sender_protocol,
        &arp.target_protocol,
        bytes,
        PlanField::ProtocolAddresses,
    )?;
    let packet = ArpPacket::new(
        ArpHardwareId(arp.hardware_type),
        EtherType(arp.protocol_type),
        ArpOperation(arp.operation),
        arp.sender_hardware.bytes_in(bytes),
        arp.sender_protocol.bytes_in(bytes),
        arp.target_hardware.bytes_in(bytes),
        arp.target_protocol.bytes_in(bytes),
    );
    Ok(packet.unwrap())
}

// Whether these are addresses of one length, which fits a byte.
fn pair(sender: &EpPart, target: &EpPart, bytes: &[u8], field: PlanField) -> Result<(), PlanField>
    ensures { result ≡ unless (wrong_pair bytes.now field sender.now target.now) tt }
{
    let (sender_len, target_len) = (sender.bytes_in(bytes).len(), target.bytes_in(bytes).len());
    if sender_len != sender.len
        || target_len != target.len
        || sender_len != target_len
        || sender_len > 255
    {
        return Err(field);
    }
    Ok(())
}
