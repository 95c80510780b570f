//! Packets, built.
ghost use Rattle.std.specs.Prelude.{◌≡◌, ◌≤◌, ◌<◌, ◌++◌, [], length, drop, IfSome, None, Err, IsOkUnless, MatchOption};
ghost use Rattle.std.specs.Prelude.{MatchResult, Ok, OnOk};
ghost use Rattle.std.specs.Option.{option_map, option_or};
ghost use Rattle.etherparse.specs.Built.{build_refusal, built_arp, number_in, packet_with_number};
ghost use Rattle.etherparse_structs.specs.Build.{built, error_of, has_no_room, not_built, refused};
ghost use Rattle.etherparse_structs.specs.Plan.{bytes_in, extended_bytes_in, field_of, headers_in, lower_headers_in};
ghost use Rattle.etherparse_structs.specs.Plan.{wrong_in, wrong_in_extended, wrong_transport};
ghost use Rattle.etherparse_structs.specs.PlannedArp.{arp_bytes_in, wrong_in_arp};
ghost use Rattle.etherparse_structs.specs.declared.build.BuildError.TheVariants.{Field, Memory};

use crate::plan::{EpPlan, PlanField, field_number};
use crate::planned::{icmpv4, icmpv6, lower_headers, tcp};
use crate::planned_arp::arp_headers;
use crate::planned_extensions::EpPlannedExtensions;
use crate::{DONE, EpArp, NO_MEMORY, NO_ROOM, REFUSED};
use etherparse::err::packet::BuildWriteError;
use etherparse::{ArpPacket, IpHeaders, IpNumber, PacketBuilderStep, TransportStep};
use std::alloc::Global;

/// The result of building a packet.
#[repr(C)]
#[derive(Drop)]
pub struct EpBuilt {
    /// 0 where it is built, 1 where the output is shorter than the packet, 2 where there is no
    /// memory, 3 where it is refused: EP_DONE, EP_NO_ROOM, EP_NO_MEMORY or EP_REFUSED.
    pub status: u32,
    /// What is at fault, where it is refused, else 0: the first of EP_FIELD_LINK and so on in the
    /// order of their numbers; but that the payload is too long comes before ICMPv6 over IPv4.
    pub field: u32,
    /// The length of the packet, where it is built or the output is too short, else 0.
    pub len: usize,
}

#[derive(Clone, Copy)]
pub(crate) enum BuildError {
    Memory,
    Field(PlanField),
}

/// Builds the packet of a plan with this payload, at the start of the output. Where the status
/// isn't 0 the output is as it was.
pub fn build_packet(alloc: Global, plan: &EpPlan, payload: &[u8], output: &mut [u8]) -> EpBuilt
    ensures refused { IfSome (wrong_in plan.now (length payload.now))
        (λ field. result ≡ refused field) }
    ensures codes { wrong_in plan.now (length payload.now) ≡ None → result.status ≤ 2 }
    ensures built { result.status ≡ 0 → (result ≡ built (length (bytes_in plan.now payload.now)))
        × (output.new ≡ bytes_in plan.now payload.now ++ drop result.len output.old) }
    ensures no_room { result.status ≡ 1
        → (result ≡ has_no_room (length (bytes_in plan.now payload.now)))
        × (length output.old < result.len) }
    ensures no_memory { result.status ≡ 2 → result ≡ not_built 2 0 }
    ensures unchanged { 0 < result.status → output.new ≡ output.old }
{
    build_extended_packet(
        alloc,
        plan,
        &EpPlannedExtensions::none(),
        &[],
        payload,
        output,
    )
}

/// The same with these extension headers, whose parts are in these bytes.
pub fn build_extended_packet(
    alloc: Global,
    plan: &EpPlan,
    extensions: &EpPlannedExtensions,
    bytes: &[u8],
    payload: &[u8],
    output: &mut [u8],
) -> EpBuilt
    ensures refused { IfSome (wrong_in_extended plan.now extensions.now bytes.now (length payload.now))
        (λ field. result ≡ refused field) }
    ensures codes { wrong_in_extended plan.now extensions.now bytes.now (length payload.now) ≡ None
        → result.status ≤ 2 }
    ensures built { result.status ≡ 0 → (result
        ≡ built (length (extended_bytes_in plan.now extensions.now bytes.now payload.now)))
        × (output.new ≡ extended_bytes_in plan.now extensions.now bytes.now payload.now
        ++ drop result.len output.old) }
    ensures no_room { result.status ≡ 1 → (result
        ≡ has_no_room (length (extended_bytes_in plan.now extensions.now bytes.now payload.now)))
        × (length output.old < result.len) }
    ensures no_memory { result.status ≡ 2 → result ≡ not_built 2 0 }
    ensures unchanged { 0 < result.status → output.new ≡ output.old }
{
    let mut packet = Vec::new(alloc);
    match append(plan, extensions, bytes, payload, &mut packet) {
        Ok(()) => copy_out(packet.as_slice(), output),
        Err(BuildError::Memory) => not_built(NO_MEMORY, 0),
        Err(BuildError::Field(field)) => not_built(REFUSED, field_number(field)),
    }
}

/// Builds the packet of a plan that holds this ARP packet, whose addresses are parts of these bytes.
pub fn build_arp_packet(
    alloc: Global,
    plan: &EpPlan,
    arp: &EpArp,
    bytes: &[u8],
    output: &mut [u8],
) -> EpBuilt
    ensures refused { IfSome (wrong_in_arp plan.now arp.now bytes.now)
        (λ field. result ≡ refused field) }
    ensures codes { wrong_in_arp plan.now arp.now bytes.now ≡ None → result.status ≤ 2 }
    ensures built { result.status ≡ 0
        → (result ≡ built (length (arp_bytes_in plan.now arp.now bytes.now)))
        × (output.new ≡ arp_bytes_in plan.now arp.now bytes.now ++ drop result.len output.old) }
    ensures no_room { result.status ≡ 1
        → (result ≡ has_no_room (length (arp_bytes_in plan.now arp.now bytes.now)))
        × (length output.old < result.len) }
    ensures no_memory { result.status ≡ 2 → result ≡ not_built 2 0 }
    ensures unchanged { 0 < result.status → output.new ≡ output.old }
{
    let mut packet = Vec::new(alloc);
    match append_arp(plan, arp, bytes, &mut packet) {
        Ok(()) => copy_out(packet.as_slice(), output),
        Err(BuildError::Memory) => not_built(NO_MEMORY, 0),
        Err(BuildError::Field(field)) => not_built(REFUSED, field_number(field)),
    }
}

fn not_built(status: u32, field: u32) -> EpBuilt
    ensures { result ≡ not_built status field }
{
    EpBuilt {
        status,
        field,
        len: 0,
    }
}

// Copies the packet to the start of the output, unless that is too short.
fn copy_out(packet: &[u8], output: &mut [u8]) -> EpBuilt
    ensures codes { result.status ≤ 1 }
    ensures built { result.status ≡ 0 → (result ≡ built (length packet.now))
        × (output.new ≡ packet.now ++ drop (length packet.now) output.old) }
    ensures no_room { result.status ≡ 1 → (result ≡ has_no_room (length packet.now))
        × (length output.old < length packet.now) }
    ensures unchanged { 0 < result.status → output.new ≡ output.old }
{
    let status = if packet.len() <= output.len() {
        output[..packet.len()].copy_from_slice(packet);
        DONE
    } else {
        NO_ROOM
    };
    EpBuilt {
        status,
        field: 0,
        len: packet.len(),
    }
}

// Appends the packet of a plan with these extension headers.
fn append(
    plan: &EpPlan,
    extensions: &EpPlannedExtensions,
    bytes: &[u8],
    payload: &[u8],
    packet: &mut Vec<u8>,
) -> Result<(), BuildError>
    ensures refused { MatchOption (wrong_in_extended plan.now extensions.now bytes.now (length payload.now))
        (IsOkUnless result Memory) (λ field. result ≡ Err (Field field)) }
    ensures bytes { OnOk result (packet.new.items ≡ packet.old.items
        ++ extended_bytes_in plan.now extensions.now bytes.now payload.now) }
{
    match lower_headers(plan, extensions, bytes) {
        Ok(step) => append_rest(step, plan, extensions, bytes, payload, packet),
        Err(field) => Err(BuildError::Field(field)),
    }
}

// Appends the packet of a plan whose headers up to those of the network layer are chosen.
fn append_rest(
    step: PacketBuilderStep<IpHeaders>,
    plan: &EpPlan,
    extensions: &EpPlannedExtensions,
    bytes: &[u8],
    payload: &[u8],
    packet: &mut Vec<u8>,
) -> Result<(), BuildError>
    requires { step ≡ lower_headers_in plan.now extensions.now bytes.now }
    ensures refused { MatchOption (option_or (wrong_transport plan.now) (option_map field_of
        (build_refusal (headers_in plan.now extensions.now bytes.now) (length payload.now))))
        (IsOkUnless result Memory) (λ field. result ≡ Err (Field field)) }
    ensures bytes { OnOk result (packet.new.items ≡ packet.old.items
        ++ extended_bytes_in plan.now extensions.now bytes.now payload.now) }
{
    match plan.transport {
        0 => written(step.write(packet, IpNumber(plan.payload_number), payload)),
        1 => append_message(step.icmpv4(icmpv4(plan)), payload, packet),
        6 => match tcp(plan) {
            Ok(header) => append_message(step.tcp_header(header), payload, packet),
            Err(field) => Err(BuildError::Field(field)),
        },
        17 => {
            let step = step.udp(plan.source_port, plan.destination_port);
            append_message(step, payload, packet)
        }
        58 => append_message(step.icmpv6(icmpv6(plan)), payload, packet),
        _ => Err(BuildError::Field(PlanField::Transport)),
    }
}

// Appends the packet of a plan that holds this ARP packet.
fn append_arp(
    plan: &EpPlan,
    arp: &EpArp,
    bytes: &[u8],
    packet: &mut Vec<u8>,
) -> Result<(), BuildError>
    ensures refused { MatchOption (wrong_in_arp plan.now arp.now bytes.now)
        (IsOkUnless result Memory) (λ field. result ≡ Err (Field field)) }
    ensures bytes { OnOk result (packet.new.items ≡ packet.old.items
        ++ arp_bytes_in plan.now arp.now bytes.now) }
{
    match arp_headers(plan, arp, bytes) {
        Ok(step) => append_arp_packet(step, packet),
        Err(field) => Err(BuildError::Field(field)),
    }
}

fn append_arp_packet(
    step: PacketBuilderStep<ArpPacket>,
    packet: &mut Vec<u8>,
) -> Result<(), BuildError>
    ensures outcome { IsOkUnless result Memory }
    ensures bytes { OnOk result (packet.new.items ≡ packet.old.items ++ built_arp step) }
{
    written(step.write(packet))
}

fn append_message<L: TransportStep>(
    step: PacketBuilderStep<L>,
    payload: &[u8],
    packet: &mut Vec<u8>,
) -> Result<(), BuildError>
    ensures refused { MatchOption (build_refusal step (length payload.now))
        (IsOkUnless result Memory) (λ e. result ≡ Err (Field (field_of e))) }
    ensures bytes { OnOk result (packet.new.items ≡ packet.old.items
        ++ packet_with_number step (number_in step.transport_header) payload.now) }
{
    written(step.write(packet, payload))
}

fn written(written: Result<(), BuildWriteError>) -> Result<(), BuildError>
    ensures { MatchResult written (λ _. result ≡ Ok tt) (λ e. result ≡ Err (error_of e)) }
{
    match written {
        Ok(()) => Ok(()),
        Err(error) => Err(error_of(error)),
    }
}

fn error_of(error: BuildWriteError) -> BuildError
    ensures { result ≡ error_of error }
{
    if error.memory() {
        BuildError::Memory
    } else if error.is_icmpv6_in_ipv4() {
        BuildError::Field(PlanField::Transport)
    } else {
        BuildError::Field(PlanField::Payload)
    }
}
