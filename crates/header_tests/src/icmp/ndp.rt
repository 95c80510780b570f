//! Messages of neighbor discovery (RFC 4861), as scapy 2.5.0 makes them, and neighbours of theirs.
use crate::checks::{equal, equal_bytes, fail, is_written, reads, shows};
use ep_base::err::Layer;
use ep_icmp::Icmpv6Slice;
use ep_icmp::icmpv6::ndp::{
    NdpHeader, NdpMessage, NdpOption, NdpOptionData, NdpOptionWriteError, NdpOptionsIterator,
    NdpSlice,
};
use ep_icmp::laws::{constants, multicast, ndp, neighbors};
use std::process::Abort;

#[rattlefmt::skip]
const ROUTER_SOLICITATION: &[u8] = &[
    0x85, 0, 0xfb, 0xec, 0, 0, 0, 0, 1, 1, 2, 0, 0x5e, 0x10, 0x20, 0x30,
];

#[rattlefmt::skip]
const ROUTER_ADVERTISEMENT: &[u8] = &[
    0x86, 0, 0x78, 0xe3, 0x40, 0xc0, 7, 8, 0, 0, 0x75, 0x30, 0, 0, 3, 0xe8, 1, 1, 2, 0, 0x5e,
    0x10, 0x20, 0x30, 5, 1, 0, 0, 0, 0, 5, 0xdc, 3, 4, 0x40, 0xc0, 0, 0x27, 0x8d, 0, 0, 9,
    0x3a, 0x80, 0, 0, 0, 0, 0x20, 1, 0x0d, 0xb8, 0, 0, 0, 0, 0, 0, 0, 0, 0, 0, 0, 0, 0x19, 5,
    0, 0, 0, 0, 0x0e, 0x10, 0x20, 1, 0x0d, 0xb8, 0, 0, 0, 0, 0, 0, 0, 0, 0, 0, 0, 0x53, 0x20,
    1, 0x0d, 0xb8, 0, 0, 0, 0, 0, 0, 0, 0, 0, 0, 0, 0x54, 0x1f, 3, 0, 0, 0, 0, 0x0e, 0x10, 7,
    0x65, 0x78, 0x61, 0x6d, 0x70, 0x6c, 0x65, 3, 0x63, 0x6f, 0x6d, 0, 0, 0, 0,
];

#[rattlefmt::skip]
const NEIGHBOR_SOLICITATION: &[u8] = &[
    0x87, 0, 0xfc, 0x57, 0, 0, 0, 0, 0xfe, 0x80, 0, 0, 0, 0, 0, 0, 0, 0, 0, 0, 0, 0, 0, 2, 1,
    1, 2, 0, 0x5e, 0x10, 0x20, 0x30,
];

#[rattlefmt::skip]
const NEIGHBOR_ADVERTISEMENT: &[u8] = &[
    0x88, 0, 0x19, 0xdb, 0xe0, 0, 0, 0, 0xfe, 0x80, 0, 0, 0, 0, 0, 0, 0, 0, 0, 0, 0, 0, 0, 2,
    2, 1, 2, 0, 0x5e, 0x10, 0x20, 0x30,
];

#[rattlefmt::skip]
const REDIRECT: &[u8] = &[
    0x89, 0, 0xb2, 0x7d, 0, 0, 0, 0, 0xfe, 0x80, 0, 0, 0, 0, 0, 0, 0, 0, 0, 0, 0, 0, 0, 3,
    0x20, 1, 0x0d, 0xb8, 0, 0, 0, 0, 0, 0, 0, 0, 0, 0, 0, 0x99, 2, 1, 2, 0, 0x5e, 0x10, 0x20,
    0x30, 4, 4, 0, 0, 0, 0, 0, 0, 0x60, 1, 2, 3, 4, 5, 6, 7, 8, 9, 0x0a, 0x0b, 0x0c, 0x0d,
    0x0e, 0x0f, 0x10, 0x11, 0x12, 0x13, 0x14, 0x15, 0x16, 0x17,
];

#[rattlefmt::skip]
const DUPLICATE_ADDRESS_DETECTION: &[u8] = &[
    0x87, 0, 0x7c, 0x23, 0, 0, 0, 0, 0xfe, 0x80, 0, 0, 0, 0, 0, 0, 0, 0, 0, 0, 0, 0, 0, 2,
];

#[rattlefmt::skip]
const MESSAGES: &[(&[u8], usize, &str)] = &[
    (ROUTER_SOLICITATION, 8, "RouterSolicitation"),
    (
        ROUTER_ADVERTISEMENT, 16,
        "RouterAdvertisement { cur_hop_limit: 64, managed: true, other: true, router_lifetime: 1800, \
            reachable_time: 30000, retrans_timer: 1000 }",
    ),
    (
        NEIGHBOR_SOLICITATION, 24,
        "NeighborSolicitation { target: [254, 128, 0, 0, 0, 0, 0, 0, 0, 0, 0, 0, 0, 0, 0, 2] }",
    ),
    (
        NEIGHBOR_ADVERTISEMENT, 24,
        "NeighborAdvertisement { router: true, solicited: true, overrides: true, \
            target: [254, 128, 0, 0, 0, 0, 0, 0, 0, 0, 0, 0, 0, 0, 0, 2] }",
    ),
    (
        REDIRECT, 40,
        "Redirect { target: [254, 128, 0, 0, 0, 0, 0, 0, 0, 0, 0, 0, 0, 0, 0, 3], \
            destination: [32, 1, 13, 184, 0, 0, 0, 0, 0, 0, 0, 0, 0, 0, 0, 153] }",
    ),
];

#[test]
fn messages(rt: HostRuntime) {
    for (bytes, len, text) in MESSAGES.iter() {
        is_message(rt, bytes, *len, text);
    }
}

fn is_message(rt: impl Abort + AllocGlobal + Copy, bytes: &[u8], len: usize, text: &str) {
    let Some(Ok((header, options))) = NdpHeader::from_slice(bytes) else {
        fail(rt, "no message");
    };
    shows(rt, &header.message, text);
    equal(
        rt,
        (header.header_len(), options.len()),
        (len, bytes.len().wrapping_sub(len)),
    );
    equal(rt, header.message.header_len(), len);
    let Some((prefix, rest)) = bytes.split_at_checked(len) else {
        fail(rt, "no header");
    };
    equal_bytes(rt, options, rest);
    equal_bytes(rt, header.to_bytes().as_slice(), prefix);
    let mut written = Vec::new(rt.alloc());
    let done = header.write(&mut written).is_ok();
    is_written(rt, done, &written, prefix);
    is_view(rt, bytes, &header);
}

fn is_view(rt: impl Abort + AllocGlobal + Copy, bytes: &[u8], header: &NdpHeader) {
    let Ok(icmpv6) = Icmpv6Slice::from_slice(bytes) else {
        fail(rt, "no ICMPv6 message");
    };
    let Some(Ok(message)) = NdpSlice::from_icmpv6(&icmpv6) else {
        fail(rt, "no message");
    };
    equal(rt, message.header(), *header);
    equal(
        rt,
        (header.message.type_u8(), message.code_u8()),
        (icmpv6.type_u8(), 0),
    );
    equal(rt, header.checksum, icmpv6.checksum());
    equal(rt, message.header_len(), header.header_len());
    equal_bytes(rt, message.slice(), bytes);
    equal_bytes(rt, message.options().rest(), message.options_slice());
}

// Each flag alone, and reserved bits, which are written as 0.
#[rattlefmt::skip]
const FLAGS: &[(u8, u8, &str)] = &[
    (0x80, 0x80, "NeighborAdvertisement { router: true, solicited: false, overrides: false, "),
    (0x40, 0x40, "NeighborAdvertisement { router: false, solicited: true, overrides: false, "),
    (0x20, 0x20, "NeighborAdvertisement { router: false, solicited: false, overrides: true, "),
    (0x1f, 0x00, "NeighborAdvertisement { router: false, solicited: false, overrides: false, "),
];

#[test]
fn flags_of_neighbor_advertisements(rt: HostRuntime) {
    for (flags, written, text) in FLAGS.iter() {
        let mut bytes = [0u8; 24];
        bytes[0] = 136;
        bytes[1] = 7;
        bytes[4] = *flags;
        bytes[6] = 9;
        let header = header_of(rt, &bytes);
        has_flags(rt, &header, text);
        let mut wanted = [0u8; 24];
        wanted[0] = 136;
        wanted[4] = *written;
        equal_bytes(rt, header.to_bytes().as_slice(), &wanted);
    }
}

// The text starts so, and its target is all zeros.
fn has_flags(rt: impl Abort + AllocGlobal + Copy, header: &NdpHeader, start: &str) {
    match format!(in rt.alloc();
        "{start}target: [0, 0, 0, 0, 0, 0, 0, 0, 0, 0, 0, 0, 0, 0, 0, 0] }}"
    ) {
        Ok(text) => shows(rt, &header.message, &text),
        Err(_) => fail(rt, "no memory"),
    }
}

fn header_of(rt: impl Abort + Copy, bytes: &[u8]) -> NdpHeader {
    match NdpHeader::from_slice(bytes) {
        Some(Ok((header, _))) => header,
        _ => fail(rt, "no message"),
    }
}

#[test]
fn flags_of_router_advertisements(rt: HostRuntime) {
    let mut bytes = [0u8; 16];
    bytes[0] = 134;
    bytes[5] = 0x80;
    shows(
        rt,
        &header_of(rt, &bytes).message,
        "RouterAdvertisement { cur_hop_limit: 0, managed: true, other: false, router_lifetime: 0, \
            reachable_time: 0, retrans_timer: 0 }",
    );
    bytes[5] = 0x7f;
    shows(
        rt,
        &header_of(rt, &bytes).message,
        "RouterAdvertisement { cur_hop_limit: 0, managed: false, other: true, router_lifetime: 0, \
            reachable_time: 0, retrans_timer: 0 }",
    );
}

#[test]
fn cut_messages(rt: HostRuntime) {
    for (bytes, len, _) in MESSAGES.iter() {
        for (index, _) in bytes.iter().enumerate() {
            is_cut(rt, bytes, index, *len);
        }
    }
}

// So many bytes of a message with a header of this length.
fn is_cut(rt: impl Abort + AllocGlobal + Copy, bytes: &[u8], index: usize, len: usize) {
    let Some((prefix, _)) = bytes.split_at_checked(index) else {
        fail(rt, "no prefix");
    };
    match NdpSlice::from_slice(prefix) {
        None => equal(rt, index, 0),
        Some(Ok(message)) => equal(rt, (message.slice().len(), index >= len), (index, true)),
        Some(Err(error)) => {
            equal(
                rt,
                (error.required_len, error.len, index < len),
                (len, index, true),
            );
            equal(rt, error.layer, Layer::Icmpv6);
        }
    }
}

#[test]
fn other_types(rt: HostRuntime) {
    for type_u8 in [0u8, 128, 132, 138, 255] {
        let bytes = [type_u8; 40];
        equal(rt, NdpSlice::from_slice(&bytes).is_none(), true);
        equal(rt, NdpHeader::from_slice(&bytes).is_none(), true);
    }
}

// The options of the router advertisement, and those of the redirect.
#[rattlefmt::skip]
const OF_ADVERTISEMENT: &[&str] = &[
    "SourceLinkLayerAddress(NdpOptionData { bytes: [2, 0, 94, 16, 32, 48] })",
    "Mtu(1500)",
    "PrefixInformation(PrefixInformation { prefix_length: 64, on_link: true, autonomous: true, \
            valid_lifetime: 2592000, preferred_lifetime: 604800, \
            prefix: [32, 1, 13, 184, 0, 0, 0, 0, 0, 0, 0, 0, 0, 0, 0, 0] })",
    "RecursiveDnsServer { lifetime: 3600, addresses: NdpOptionData { bytes: \
            [32, 1, 13, 184, 0, 0, 0, 0, 0, 0, 0, 0, 0, 0, 0, 83, 32, 1, 13, 184, 0, 0, 0, 0, 0, 0, 0, 0, 0, 0, 0, 84] } }",
    "DnsSearchList { lifetime: 3600, names: NdpOptionData { bytes: \
            [7, 101, 120, 97, 109, 112, 108, 101, 3, 99, 111, 109, 0, 0, 0, 0] } }",
];

#[rattlefmt::skip]
const OF_REDIRECT: &[&str] = &[
    "TargetLinkLayerAddress(NdpOptionData { bytes: [2, 0, 94, 16, 32, 48] })",
    "RedirectedHeader(NdpOptionData { bytes: \
            [96, 1, 2, 3, 4, 5, 6, 7, 8, 9, 10, 11, 12, 13, 14, 15, 16, 17, 18, 19, 20, 21, 22, 23] })",
];

#[test]
fn options(rt: HostRuntime) {
    has_options(rt, ROUTER_ADVERTISEMENT, OF_ADVERTISEMENT);
    has_options(rt, REDIRECT, OF_REDIRECT);
}

fn has_options(rt: impl Abort + AllocGlobal + Copy, bytes: &[u8], texts: &[&str]) {
    let Some(Ok(message)) = NdpSlice::from_slice(bytes) else {
        fail(rt, "no message");
    };
    let mut options = message.options();
    for text in texts.iter() {
        match options.next() {
            Some(Ok(option)) => shows(rt, &option, text),
            _ => fail(rt, "no option"),
        }
    }
    equal(
        rt,
        (options.next().is_none(), options.rest().len()),
        (true, 0),
    );
}

// Options of types that have no variant, or of another length than their type has.
#[rattlefmt::skip]
const UNKNOWN: &[(&[u8], &str)] = &[
    (&[7, 1, 0, 0, 0, 0, 3, 232], "Unknown { kind: 7, bytes: NdpOptionData { bytes: [0, 0, 0, 0, 3, 232] } }"),
    (&[14, 1, 1, 2, 3, 4, 5, 6], "Unknown { kind: 14, bytes: NdpOptionData { bytes: [1, 2, 3, 4, 5, 6] } }"),
    (&[3, 1, 64, 192, 0, 0, 0, 1], "Unknown { kind: 3, bytes: NdpOptionData { bytes: [64, 192, 0, 0, 0, 1] } }"),
    (&[25, 1, 0, 0, 0, 0, 0, 1], "Unknown { kind: 25, bytes: NdpOptionData { bytes: [0, 0, 0, 0, 0, 1] } }"),
    (&[31, 1, 0, 0, 0, 0, 0, 1], "Unknown { kind: 31, bytes: NdpOptionData { bytes: [0, 0, 0, 0, 0, 1] } }"),
    (&[5, 2, 0, 0, 0, 0, 5, 220, 0, 0, 0, 0, 0, 0, 0, 0], "Unknown { kind: 5, bytes: NdpOptionData { bytes: [0, 0, 0, 0, 5, 220, 0, 0, 0, 0, 0, 0, 0, 0] } }"),
    (&[25, 2, 0, 0, 0, 0, 0, 1, 0, 0, 0, 0, 0, 0, 0, 0], "Unknown { kind: 25, bytes: NdpOptionData { bytes: [0, 0, 0, 0, 0, 1, 0, 0, 0, 0, 0, 0, 0, 0] } }"),
];

#[test]
fn unknown_options(rt: HostRuntime) {
    for (bytes, text) in UNKNOWN.iter() {
        match NdpOptionsIterator::from_slice(bytes).next() {
            Some(Ok(option)) => shows(rt, &option, text),
            _ => fail(rt, "no option"),
        }
    }
}

// Options that end with a fault after one of 8 bytes.
#[rattlefmt::skip]
const FAULTS: &[(&[u8], &str, &str)] = &[
    (
        &[1, 1, 2, 0, 0x5e, 0x10, 0x20, 0x30, 5],
        "UnexpectedEnd { offset: 8, needed_len: 2, actual_len: 1 }",
        "neighbor discovery option at offset 8: 2 byte(s) are needed, and 1 are left",
    ),
    (
        &[1, 1, 2, 0, 0x5e, 0x10, 0x20, 0x30, 5, 1, 0, 0, 0, 0, 5],
        "UnexpectedEnd { offset: 8, needed_len: 8, actual_len: 7 }",
        "neighbor discovery option at offset 8: 8 byte(s) are needed, and 7 are left",
    ),
    (
        &[1, 1, 2, 0, 0x5e, 0x10, 0x20, 0x30, 5, 0, 0, 0, 0, 0, 5, 220],
        "ZeroLength { offset: 8 }",
        "neighbor discovery option at offset 8: the length is 0",
    ),
];

#[test]
fn options_with_a_fault(rt: HostRuntime) {
    for (bytes, text, message) in FAULTS.iter() {
        let mut options = NdpOptionsIterator::from_slice(bytes);
        equal(rt, matches!(options.next(), Some(Ok(_))), true);
        match options.next() {
            Some(Err(error)) => {
                shows(rt, &error, text);
                reads(rt, &error, message);
            }
            _ => fail(rt, "no fault"),
        }
        equal(
            rt,
            (options.next().is_none(), options.rest().len()),
            (true, 0),
        );
    }
}

const ROUTER: [u8; 16] = [254, 128, 0, 0, 0, 0, 0, 0, 0, 0, 0, 0, 0, 0, 0, 1];

const ALL_ROUTERS: [u8; 16] = [255, 2, 0, 0, 0, 0, 0, 0, 0, 0, 0, 0, 0, 0, 0, 2];

const ALL_NODES: [u8; 16] = [255, 2, 0, 0, 0, 0, 0, 0, 0, 0, 0, 0, 0, 0, 0, 1];

const SOLICITED_NODE: [u8; 16] = [255, 2, 0, 0, 0, 0, 0, 0, 0, 0, 0, 1, 255, 0, 0, 2];

const UNSPECIFIED: [u8; 16] = [0, 0, 0, 0, 0, 0, 0, 0, 0, 0, 0, 0, 0, 0, 0, 0];

const NEIGHBOR: [u8; 16] = [254, 128, 0, 0, 0, 0, 0, 0, 0, 0, 0, 0, 0, 0, 0, 2];

const HOST: [u8; 16] = [32, 1, 13, 184, 0, 0, 0, 0, 0, 0, 0, 0, 0, 0, 0, 16];

const GLOBAL: [u8; 16] = [32, 1, 13, 184, 0, 0, 0, 0, 0, 0, 0, 0, 0, 0, 0, 1];

#[rattlefmt::skip]
const VALIDITY: &[(&[u8], u8, [u8; 16], [u8; 16], &str)] = &[
    (ROUTER_SOLICITATION, 255, ROUTER, ALL_ROUTERS, "Ok(())"),
    (ROUTER_ADVERTISEMENT, 255, ROUTER, ALL_NODES, "Ok(())"),
    (NEIGHBOR_SOLICITATION, 255, ROUTER, SOLICITED_NODE, "Ok(())"),
    (DUPLICATE_ADDRESS_DETECTION, 255, UNSPECIFIED, SOLICITED_NODE, "Ok(())"),
    (NEIGHBOR_ADVERTISEMENT, 255, NEIGHBOR, ROUTER, "Ok(())"),
    (REDIRECT, 255, ROUTER, HOST, "Ok(())"),
    (&[136, 0, 91, 163, 32, 0, 0, 0, 254, 128, 0, 0, 0, 0, 0, 0, 0, 0, 0, 0, 0, 0, 0, 2], 255, NEIGHBOR, ALL_NODES, "Ok(())"),
    (&[137, 0, 237, 173, 0, 0, 0, 0, 32, 1, 13, 184, 0, 0, 0, 0, 0, 0, 0, 0, 0, 0, 0, 153, 32, 1, 13, 184, 0, 0, 0, 0, 0, 0, 0, 0, 0, 0, 0, 153], 255, ROUTER, HOST, "Ok(())"),
    (ROUTER_SOLICITATION, 254, ROUTER, ALL_ROUTERS, "Err(HopLimit(254))"),
    (&[133, 1, 125, 53, 0, 0, 0, 0], 255, ROUTER, ALL_ROUTERS, "Err(Code(1))"),
    (&[134, 0, 5, 231, 64, 8, 7, 8, 0, 0, 0, 0, 0, 0, 0, 0], 255, GLOBAL, ALL_NODES, "Err(SourceNotLinkLocal)"),
    (&[135, 0, 125, 31, 0, 0, 0, 0, 255, 2, 0, 0, 0, 0, 0, 0, 0, 0, 0, 0, 0, 0, 0, 2], 255, ROUTER, SOLICITED_NODE, "Err(TargetMulticast)"),
    (&[135, 0, 123, 167, 0, 0, 0, 0, 254, 128, 0, 0, 0, 0, 0, 0, 0, 0, 0, 0, 0, 0, 0, 2], 255, UNSPECIFIED, NEIGHBOR, "Err(DestinationNotSolicitedNode)"),
    (&[135, 0, 250, 217, 0, 0, 0, 0, 254, 128, 0, 0, 0, 0, 0, 0, 0, 0, 0, 0, 0, 0, 0, 2, 1, 1, 2, 0, 94, 16, 32, 48], 255, UNSPECIFIED, SOLICITED_NODE, "Err(SourceLinkLayerAddressWithoutSource)"),
    (&[133, 0, 250, 110, 0, 0, 0, 0, 1, 1, 2, 0, 94, 16, 32, 48], 255, UNSPECIFIED, ALL_ROUTERS, "Err(SourceLinkLayerAddressWithoutSource)"),
    (&[136, 0, 91, 164, 32, 0, 0, 0, 255, 2, 0, 0, 0, 0, 0, 0, 0, 0, 0, 0, 0, 0, 0, 1], 255, NEIGHBOR, ROUTER, "Err(TargetMulticast)"),
    (&[136, 0, 27, 163, 96, 0, 0, 0, 254, 128, 0, 0, 0, 0, 0, 0, 0, 0, 0, 0, 0, 0, 0, 2], 255, NEIGHBOR, ALL_NODES, "Err(SolicitedToMulticast)"),
    (&[137, 0, 238, 67, 0, 0, 0, 0, 254, 128, 0, 0, 0, 0, 0, 0, 0, 0, 0, 0, 0, 0, 0, 3, 32, 1, 13, 184, 0, 0, 0, 0, 0, 0, 0, 0, 0, 0, 0, 153], 255, GLOBAL, HOST, "Err(SourceNotLinkLocal)"),
    (&[137, 0, 76, 38, 0, 0, 0, 0, 254, 128, 0, 0, 0, 0, 0, 0, 0, 0, 0, 0, 0, 0, 0, 3, 255, 14, 0, 0, 0, 0, 0, 0, 0, 0, 0, 0, 0, 0, 0, 153], 255, ROUTER, HOST, "Err(RedirectedMulticast)"),
    (&[137, 0, 237, 174, 0, 0, 0, 0, 32, 1, 13, 184, 0, 0, 0, 0, 0, 0, 0, 0, 0, 0, 0, 152, 32, 1, 13, 184, 0, 0, 0, 0, 0, 0, 0, 0, 0, 0, 0, 153], 255, ROUTER, HOST, "Err(TargetNotRouterNorDestination)"),
    (&[133, 0, 124, 46, 0, 0, 0, 0, 1, 0, 0, 0, 0, 0, 0, 0], 255, ROUTER, ALL_ROUTERS, "Err(Options(ZeroLength { offset: 0 }))"),
    (&[133, 0, 119, 40, 0, 0, 0, 0, 1, 1, 0, 0, 0, 0, 0, 0, 5, 1, 0, 0], 255, ROUTER, ALL_ROUTERS, "Err(Options(UnexpectedEnd { offset: 8, needed_len: 8, actual_len: 4 }))"),
    // from another router than the checksum was made for
    (ROUTER_SOLICITATION, 255, NEIGHBOR, ALL_ROUTERS, "Err(Checksum)"),
];

#[test]
fn validity(rt: HostRuntime) {
    for (bytes, hop_limit, source, destination, text) in VALIDITY.iter() {
        match NdpSlice::from_slice(bytes) {
            Some(Ok(message)) => {
                shows(
                    rt,
                    &message.is_valid(*hop_limit, *source, *destination),
                    text,
                );
            }
            _ => fail(rt, "no message"),
        }
    }
}

#[test]
fn data_of_an_option(rt: HostRuntime) {
    let Some(Ok(message)) = NdpSlice::from_slice(NEIGHBOR_ADVERTISEMENT) else {
        fail(rt, "no message");
    };
    equal(
        rt,
        matches!(message.message(), NdpMessage::NeighborAdvertisement { .. }),
        true,
    );
    let address = [2, 0, 0x5e, 0x10, 0x20, 0x30];
    match message.options().next() {
        Some(Ok(NdpOption::TargetLinkLayerAddress(found))) => {
            equal_bytes(rt, found.slice(), &address);
            equal(rt, found == NdpOptionData::new(&address), true);
        }
        _ => fail(rt, "no address"),
    }
}

// The options of both messages are written as they were read.
#[test]
fn written_options(rt: HostRuntime) {
    for (bytes, _, _) in MESSAGES.iter() {
        writes_options(rt, bytes);
    }
}

fn writes_options(rt: impl Abort + AllocGlobal + Copy, bytes: &[u8]) {
    let Some(Ok(message)) = NdpSlice::from_slice(bytes) else {
        fail(rt, "no message");
    };
    let mut options = message.options();
    let mut written = Vec::new(rt.alloc());
    for _ in 0..8u8 {
        if let Some(Ok(option)) = options.next() {
            equal(rt, option.write(&mut written), Ok(()));
        }
    }
    equal_bytes(rt, &written, message.options_slice());
}

// Options whose bytes no option of their type has, and how many these are.
#[test]
fn options_that_are_not_written(rt: HostRuntime) {
    let seven = NdpOptionData::new(&[0; 7]);
    is_not_written(rt, &NdpOption::SourceLinkLayerAddress(seven), 9);
    let many = NdpOptionData::new(&[0; 2046]);
    is_not_written(rt, &NdpOption::TargetLinkLayerAddress(many), 2048);
    let half = NdpOptionData::new(&[0; 24]);
    let servers = NdpOption::RecursiveDnsServer {
        lifetime: 1,
        addresses: half,
    };
    is_not_written(rt, &servers, 32);
    let none = NdpOptionData::new(&[]);
    let names = NdpOption::DnsSearchList {
        lifetime: 1,
        names: none,
    };
    is_not_written(rt, &names, 8);
}

fn is_not_written(rt: impl Abort + AllocGlobal + Copy, option: &NdpOption<'_>, len: usize) {
    let mut written = Vec::new(rt.alloc());
    equal(
        rt,
        option.write(&mut written),
        Err(NdpOptionWriteError::Length(len)),
    );
    equal_bytes(rt, &written, &[]);
}

#[test]
fn errors_of_writing_as_text(rt: HostRuntime) {
    reads(
        rt,
        &NdpOptionWriteError::Length(9),
        "no neighbor discovery option of this type has 9 byte(s)",
    );
    reads(
        rt,
        &NdpOptionWriteError::Memory,
        "no memory left for a neighbor discovery option",
    );
}

#[test]
fn laws(rt: HostRuntime) {
    equal(rt, ndp::lengths(), [8, 40]);
    let header = header_of(rt, NEIGHBOR_ADVERTISEMENT);
    ndp::headers_are_their_bytes(&header);
    let again = ndp::header_is_read_again(&header, NEIGHBOR_ADVERTISEMENT);
    equal(rt, matches!(again, Some(Ok(_))), true);
    ndp::items_are_options();
    ndp::options_come_back();
    multicast::items_are_records();
    constants::icmpv4_numbers();
    constants::icmpv6_numbers();
    neighbors::messages();
    neighbors::options();
    neighbors::items();
    neighbors::listener_messages();
    neighbors::group_messages();
    neighbors::records();
}
