//! Every type and code of RFC 4443 that has a variant, both ways, and neighbours that have none.
use crate::checks::{equal, equal_bytes, fail, shows};
use ep_icmp::{IcmpEchoHeader, Icmpv6Slice, Icmpv6Type};
use std::process::Abort;

// A message of eight bytes, its kind, and what that kind's header is written as.
fn is_kind(rt: impl Abort + AllocGlobal + Copy, bytes: &[u8; 8], kind: &str, written: &[u8; 8]) {
    let Ok(message) = Icmpv6Slice::from_slice(bytes) else {
        fail(rt, "no message");
    };
    shows(rt, &message.icmp_type(), kind);
    equal(rt, numbers(&message.icmp_type()), [bytes[0], bytes[1]]);
    let header = message.header().to_bytes();
    equal_bytes(rt, header.as_slice(), written.as_slice());
}

fn numbers(kind: &Icmpv6Type) -> [u8; 2] {
    [kind.type_u8(), kind.code_u8()]
}

// 258 is 0102, 772 is 0304, and 16909060 is 01020304.
#[rattlefmt::skip]
const KINDS: &[([u8; 8], &str)] = &[
    ([1, 0, 0x12, 0x34, 0, 0, 0, 0], "DestinationUnreachable(NoRoute)"),
    ([1, 1, 0x12, 0x34, 0, 0, 0, 0], "DestinationUnreachable(Prohibited)"),
    ([1, 2, 0x12, 0x34, 0, 0, 0, 0], "DestinationUnreachable(BeyondScope)"),
    ([1, 3, 0x12, 0x34, 0, 0, 0, 0], "DestinationUnreachable(Address)"),
    ([1, 4, 0x12, 0x34, 0, 0, 0, 0], "DestinationUnreachable(Port)"),
    ([1, 5, 0x12, 0x34, 0, 0, 0, 0], "DestinationUnreachable(SourceAddressFailedPolicy)"),
    ([1, 6, 0x12, 0x34, 0, 0, 0, 0], "DestinationUnreachable(RejectRoute)"),
    ([3, 0, 0x12, 0x34, 0, 0, 0, 0], "TimeExceeded(HopLimitExceeded)"),
    ([3, 1, 0x12, 0x34, 0, 0, 0, 0], "TimeExceeded(FragmentReassemblyTimeExceeded)"),
    ([128, 0, 0x12, 0x34, 1, 2, 3, 4], "EchoRequest(IcmpEchoHeader { id: 258, seq: 772 })"),
    ([129, 0, 0x12, 0x34, 1, 2, 3, 4], "EchoReply(IcmpEchoHeader { id: 258, seq: 772 })"),
    ([2, 0, 0x12, 0x34, 0, 0, 5, 0], "PacketTooBig { mtu: 1280 }"),
];

#[test]
fn types_and_codes(rt: HostRuntime) {
    for (bytes, kind) in KINDS.iter() {
        is_kind(rt, bytes, kind, bytes);
    }
}

#[rattlefmt::skip]
const PROBLEMS: &[(u8, &str)] = &[
    (0, "ParameterProblem(ParameterProblemHeader { code: ErroneousHeaderField, pointer: 16909060 })"),
    (1, "ParameterProblem(ParameterProblemHeader { code: UnrecognizedNextHeader, pointer: 16909060 })"),
    (2, "ParameterProblem(ParameterProblemHeader { code: UnrecognizedIpv6Option, pointer: 16909060 })"),
    (3, "ParameterProblem(ParameterProblemHeader { code: Ipv6FirstFragmentIncompleteHeaderChain, pointer: 16909060 })"),
    (4, "ParameterProblem(ParameterProblemHeader { code: SrUpperLayerHeaderError, pointer: 16909060 })"),
    (
        5,
        "ParameterProblem(ParameterProblemHeader { \
            code: UnrecognizedNextHeaderByIntermediateNode, pointer: 16909060 })",
    ),
    (6, "ParameterProblem(ParameterProblemHeader { code: ExtensionHeaderTooBig, pointer: 16909060 })"),
    (7, "ParameterProblem(ParameterProblemHeader { code: ExtensionHeaderChainTooLong, pointer: 16909060 })"),
    (8, "ParameterProblem(ParameterProblemHeader { code: TooManyExtensionHeaders, pointer: 16909060 })"),
    (9, "ParameterProblem(ParameterProblemHeader { code: TooManyOptionsInExtensionHeader, pointer: 16909060 })"),
    (10, "ParameterProblem(ParameterProblemHeader { code: OptionTooBig, pointer: 16909060 })"),
];

#[test]
fn codes_of_parameter_problem(rt: HostRuntime) {
    for (code, kind) in PROBLEMS.iter() {
        let bytes = [4, *code, 0x12, 0x34, 1, 2, 3, 4];
        is_kind(rt, &bytes, kind, &bytes);
    }
}

// One code above those of a type that has variants, types that have none, and those of neighbor
// discovery: a1b2c3d4 in decimals.
#[rattlefmt::skip]
const UNKNOWN: &[(u8, u8, &str)] = &[
    (1, 7, "Unknown { type_u8: 1, code_u8: 7, bytes5to8: [161, 178, 195, 212] }"),
    (2, 1, "Unknown { type_u8: 2, code_u8: 1, bytes5to8: [161, 178, 195, 212] }"),
    (3, 2, "Unknown { type_u8: 3, code_u8: 2, bytes5to8: [161, 178, 195, 212] }"),
    (4, 11, "Unknown { type_u8: 4, code_u8: 11, bytes5to8: [161, 178, 195, 212] }"),
    (128, 1, "Unknown { type_u8: 128, code_u8: 1, bytes5to8: [161, 178, 195, 212] }"),
    (129, 1, "Unknown { type_u8: 129, code_u8: 1, bytes5to8: [161, 178, 195, 212] }"),
    (0, 0, "Unknown { type_u8: 0, code_u8: 0, bytes5to8: [161, 178, 195, 212] }"),
    (5, 0, "Unknown { type_u8: 5, code_u8: 0, bytes5to8: [161, 178, 195, 212] }"),
    (127, 0, "Unknown { type_u8: 127, code_u8: 0, bytes5to8: [161, 178, 195, 212] }"),
    (130, 0, "Unknown { type_u8: 130, code_u8: 0, bytes5to8: [161, 178, 195, 212] }"),
    (255, 255, "Unknown { type_u8: 255, code_u8: 255, bytes5to8: [161, 178, 195, 212] }"),
    (133, 0, "Unknown { type_u8: 133, code_u8: 0, bytes5to8: [161, 178, 195, 212] }"),
    (134, 0, "Unknown { type_u8: 134, code_u8: 0, bytes5to8: [161, 178, 195, 212] }"),
    (135, 0, "Unknown { type_u8: 135, code_u8: 0, bytes5to8: [161, 178, 195, 212] }"),
    (136, 0, "Unknown { type_u8: 136, code_u8: 0, bytes5to8: [161, 178, 195, 212] }"),
    (137, 0, "Unknown { type_u8: 137, code_u8: 0, bytes5to8: [161, 178, 195, 212] }"),
];

#[test]
fn types_and_codes_without_a_variant(rt: HostRuntime) {
    for (type_u8, code, kind) in UNKNOWN.iter() {
        let bytes = [*type_u8, *code, 0x12, 0x34, 0xa1, 0xb2, 0xc3, 0xd4];
        is_kind(rt, &bytes, kind, &bytes);
    }
}

#[test]
fn lengths_of_an_echo_request(rt: HostRuntime) {
    let kind = Icmpv6Type::EchoRequest(IcmpEchoHeader { id: 1, seq: 2 });
    equal(
        rt,
        (kind.header_len(), kind.fixed_payload_size()),
        (8, None),
    );
}

// Unused bytes are written as 0.
#[test]
fn unused_bytes(rt: HostRuntime) {
    let address = "DestinationUnreachable(Address)";
    is_kind(
        rt,
        &[1, 3, 5, 6, 1, 2, 3, 4],
        address,
        &[1, 3, 5, 6, 0, 0, 0, 0],
    );
}
