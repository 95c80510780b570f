//! Every type and code of RFC 792 that has a variant, both ways, and neighbours that have none.
use crate::checks::{equal, equal_bytes, fail, shows};
use ep_icmp::Icmpv4Slice;
use std::process::Abort;

// A message of eight bytes, its kind, and what that kind's header is written as.
fn is_kind(rt: impl Abort + AllocGlobal + Copy, bytes: &[u8; 8], kind: &str, written: &[u8; 8]) {
    let Ok(message) = Icmpv4Slice::from_slice(bytes) else {
        fail(rt, "no message");
    };
    shows(rt, &message.icmp_type(), kind);
    let header = message.header().to_bytes();
    equal_bytes(rt, header.as_slice(), written.as_slice());
}

const UNREACHABLE: &[(u8, &str)] = &[
    (0, "DestinationUnreachable(Network)"),
    (1, "DestinationUnreachable(Host)"),
    (2, "DestinationUnreachable(Protocol)"),
    (3, "DestinationUnreachable(Port)"),
    (5, "DestinationUnreachable(SourceRouteFailed)"),
    (6, "DestinationUnreachable(NetworkUnknown)"),
    (7, "DestinationUnreachable(HostUnknown)"),
    (8, "DestinationUnreachable(Isolated)"),
    (9, "DestinationUnreachable(NetworkProhibited)"),
    (10, "DestinationUnreachable(HostProhibited)"),
    (11, "DestinationUnreachable(TosNetwork)"),
    (12, "DestinationUnreachable(TosHost)"),
    (13, "DestinationUnreachable(FilterProhibited)"),
    (14, "DestinationUnreachable(HostPrecedenceViolation)"),
    (15, "DestinationUnreachable(PrecedenceCutoff)"),
];

#[test]
fn codes_of_destination_unreachable(rt: HostRuntime) {
    for (code, kind) in UNREACHABLE.iter() {
        let bytes = [3, *code, 0x12, 0x34, 0, 0, 0, 0];
        is_kind(rt, &bytes, kind, &bytes);
    }
}

// The other types and codes: 258 is 0102, 772 is 0304.
#[rattlefmt::skip]
const KINDS: &[([u8; 8], &str)] = &[
    ([3, 4, 0x12, 0x34, 0, 0, 0x05, 0xdc], "DestinationUnreachable(FragmentationNeeded { next_hop_mtu: 1500 })"),
    (
        [5, 0, 0x12, 0x34, 10, 0, 0, 1],
        "Redirect(RedirectHeader { code: RedirectForNetwork, \
            gateway_internet_address: [10, 0, 0, 1] })",
    ),
    (
        [5, 1, 0x12, 0x34, 10, 0, 0, 1],
        "Redirect(RedirectHeader { code: RedirectForHost, \
            gateway_internet_address: [10, 0, 0, 1] })",
    ),
    (
        [5, 2, 0x12, 0x34, 10, 0, 0, 1],
        "Redirect(RedirectHeader { code: RedirectForTypeOfServiceAndNetwork, \
            gateway_internet_address: [10, 0, 0, 1] })",
    ),
    (
        [5, 3, 0x12, 0x34, 10, 0, 0, 1],
        "Redirect(RedirectHeader { code: RedirectForTypeOfServiceAndHost, \
            gateway_internet_address: [10, 0, 0, 1] })",
    ),
    ([0, 0, 0x12, 0x34, 1, 2, 3, 4], "EchoReply(IcmpEchoHeader { id: 258, seq: 772 })"),
    ([8, 0, 0x12, 0x34, 1, 2, 3, 4], "EchoRequest(IcmpEchoHeader { id: 258, seq: 772 })"),
    ([11, 0, 0x12, 0x34, 0, 0, 0, 0], "TimeExceeded(TtlExceededInTransit)"),
    ([11, 1, 0x12, 0x34, 0, 0, 0, 0], "TimeExceeded(FragmentReassemblyTimeExceeded)"),
    ([12, 0, 0x12, 0x34, 20, 0, 0, 0], "ParameterProblem(PointerIndicatesError(20))"),
    ([12, 1, 0x12, 0x34, 0, 0, 0, 0], "ParameterProblem(MissingRequiredOption)"),
    ([12, 2, 0x12, 0x34, 0, 0, 0, 0], "ParameterProblem(BadLength)"),
];

#[test]
fn other_types_and_codes(rt: HostRuntime) {
    for (bytes, kind) in KINDS.iter() {
        is_kind(rt, bytes, kind, bytes);
    }
}

// One code above those of a type that has variants, and types that have none: a1b2c3d4 in decimals.
#[rattlefmt::skip]
const UNKNOWN: &[(u8, u8, &str)] = &[
    (0, 1, "Unknown { type_u8: 0, code_u8: 1, bytes5to8: [161, 178, 195, 212] }"),
    (3, 16, "Unknown { type_u8: 3, code_u8: 16, bytes5to8: [161, 178, 195, 212] }"),
    (5, 4, "Unknown { type_u8: 5, code_u8: 4, bytes5to8: [161, 178, 195, 212] }"),
    (8, 1, "Unknown { type_u8: 8, code_u8: 1, bytes5to8: [161, 178, 195, 212] }"),
    (11, 2, "Unknown { type_u8: 11, code_u8: 2, bytes5to8: [161, 178, 195, 212] }"),
    (12, 3, "Unknown { type_u8: 12, code_u8: 3, bytes5to8: [161, 178, 195, 212] }"),
    (1, 0, "Unknown { type_u8: 1, code_u8: 0, bytes5to8: [161, 178, 195, 212] }"),
    (4, 0, "Unknown { type_u8: 4, code_u8: 0, bytes5to8: [161, 178, 195, 212] }"),
    (10, 0, "Unknown { type_u8: 10, code_u8: 0, bytes5to8: [161, 178, 195, 212] }"),
    (13, 1, "Unknown { type_u8: 13, code_u8: 1, bytes5to8: [161, 178, 195, 212] }"),
    (14, 1, "Unknown { type_u8: 14, code_u8: 1, bytes5to8: [161, 178, 195, 212] }"),
    (15, 0, "Unknown { type_u8: 15, code_u8: 0, bytes5to8: [161, 178, 195, 212] }"),
    (255, 255, "Unknown { type_u8: 255, code_u8: 255, bytes5to8: [161, 178, 195, 212] }"),
];

#[test]
fn types_and_codes_without_a_variant(rt: HostRuntime) {
    for (type_u8, code, kind) in UNKNOWN.iter() {
        let bytes = [*type_u8, *code, 0x12, 0x34, 0xa1, 0xb2, 0xc3, 0xd4];
        is_kind(rt, &bytes, kind, &bytes);
    }
}

// Unused bytes are written as 0.
#[test]
fn unused_bytes(rt: HostRuntime) {
    let host = "DestinationUnreachable(Host)";
    is_kind(
        rt,
        &[3, 1, 5, 6, 1, 2, 3, 4],
        host,
        &[3, 1, 5, 6, 0, 0, 0, 0],
    );
    let mtu = "DestinationUnreachable(FragmentationNeeded { next_hop_mtu: 772 })";
    is_kind(
        rt,
        &[3, 4, 5, 6, 1, 2, 3, 4],
        mtu,
        &[3, 4, 5, 6, 0, 0, 3, 4],
    );
    let pointer = "ParameterProblem(PointerIndicatesError(1))";
    is_kind(
        rt,
        &[12, 0, 5, 6, 1, 2, 3, 4],
        pointer,
        &[12, 0, 5, 6, 1, 0, 0, 0],
    );
    let reassembly = "TimeExceeded(FragmentReassemblyTimeExceeded)";
    is_kind(
        rt,
        &[11, 1, 5, 6, 1, 2, 3, 4],
        reassembly,
        &[11, 1, 5, 6, 0, 0, 0, 0],
    );
}
