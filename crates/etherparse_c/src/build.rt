//! Packets, built.
ghost use Rattle.std.specs.Prelude.{◌≡◌, ◌≤◌, ◌<◌, ◌++◌, length, drop, IfSome, None};
ghost use Rattle.etherparse_structs.specs.Build.{built, has_no_room, not_built, refused};
ghost use Rattle.etherparse_structs.specs.Plan.{bytes_in, extended_bytes_in, wrong_in, wrong_in_extended};
ghost use Rattle.etherparse_structs.specs.PlannedArp.{arp_bytes_in, wrong_in_arp};

use etherparse_structs::{
    EpArp, EpBuilt, EpPlan, EpPlannedExtensions, build_arp_packet, build_extended_packet,
    build_packet,
};
use std::alloc::Global;

/// Builds the packet of a plan with this payload, at the start of the output.
///
/// The status is 0 where it is built, 1 where the output is shorter than the packet, 2 where there
/// is no memory, and 3 where a field of the plan, or the payload, is refused. Where it isn't 0 the
/// output is as it was.
#[unsafe(no_mangle)]
pub extern "C" fn ep_build(
    alloc: Global,
    plan: &EpPlan,
    payload: &[u8],
    output: &mut [u8],
) -> EpBuilt
    ensures refused { IfSome (wrong_in plan.now (length payload.now))
        (λ field. result ≡ refused field) }
    ensures codes { wrong_in plan.now (length payload.now) ≡ None → result.status ≤ 2 }
    ensures built { result.status ≡ 0 → (result ≡ built (length (bytes_in plan.now payload.now)))
        × (output.new ≡ bytes_in plan.now payload.now ++ drop result.len output.old) }
    ensures no_room { result.status ≡ 1
        → (result ≡ has_no_room (length (bytes_in plan.now payload.now)))
        × (length output.old < result.len) }
    ensures no_memory { result.status ≡ 2 → result ≡ not_built 2 0 }
    ensures unchanged { 0 < result.status → output.new ≡ output.old }
{
    build_packet(alloc, plan, payload, output)
}

/// The same with these extension headers, whose parts are in these bytes.
///
/// A part that isn't whole within the bytes is refused, as one of a length that no header states.
#[unsafe(no_mangle)]
pub extern "C" fn ep_build_with_extensions(
    alloc: Global,
    plan: &EpPlan,
    extensions: &EpPlannedExtensions,
    bytes: &[u8],
    payload: &[u8],
    output: &mut [u8],
) -> EpBuilt
    ensures refused { IfSome (wrong_in_extended plan.now extensions.now bytes.now (length payload.now))
        (λ field. result ≡ refused field) }
    ensures codes { wrong_in_extended plan.now extensions.now bytes.now (length payload.now) ≡ None
        → result.status ≤ 2 }
    ensures built { result.status ≡ 0 → (result
        ≡ built (length (extended_bytes_in plan.now extensions.now bytes.now payload.now)))
        × (output.new ≡ extended_bytes_in plan.now extensions.now bytes.now payload.now
        ++ drop result.len output.old) }
    ensures no_room { result.status ≡ 1 → (result
        ≡ has_no_room (length (extended_bytes_in plan.now extensions.now bytes.now payload.now)))
        × (length output.old < result.len) }
    ensures no_memory { result.status ≡ 2 → result ≡ not_built 2 0 }
    ensures unchanged { 0 < result.status → output.new ≡ output.old }
{
    build_extended_packet(alloc, plan, extensions, bytes, payload, output)
}

/// Builds the packet of a plan that holds an ARP packet in place of one of IP, at the start of the
/// output; of the plan it reads the link header and its tags. The types, the operation and the
/// addresses are those of `arp`, the addresses parts of these bytes: of one length for both ends,
/// at most 255.
///
/// The status is that of `ep_build`. Where it isn't 0 the output is as it was.
#[unsafe(no_mangle)]
pub extern "C" fn ep_build_arp(
    alloc: Global,
    plan: &EpPlan,
    arp: &EpArp,
    bytes: &[u8],
    output: &mut [u8],
) -> EpBuilt
    ensures refused { IfSome (wrong_in_arp plan.now arp.now bytes.now)
        (λ field. result ≡ refused field) }
    ensures codes { wrong_in_arp plan.now arp.now bytes.now ≡ None → result.status ≤ 2 }
    ensures built { result.status ≡ 0
        → (result ≡ built (length (arp_bytes_in plan.now arp.now bytes.now)))
        × (output.new ≡ arp_bytes_in plan.now arp.now bytes.now ++ drop result.len output.old) }
    ensures no_room { result.status ≡ 1
        → (result ≡ has_no_room (length (arp_bytes_in plan.now arp.now bytes.now)))
        × (length output.old < result.len) }
    ensures no_memory { result.status ≡ 2 → result ≡ not_built 2 0 }
    ensures unchanged { 0 < result.status → output.new ≡ output.old }
{
    build_arp_packet(alloc, plan, arp, bytes, output)
}
