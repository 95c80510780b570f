//! What summaries take of packets and count, at literal values.

use crate::captured::{captured, dissected, first};
use crate::checks::{equal, fail, holds};
use crate::frames::{FRAMES, REFUSED_WHOLE};
use crate::outcomes::{every_packet, packets_of};
use captures::{Packets, Skipped, Unfit};
use etherparse::err::Layer;
use etherparse::{Addresses, IpNumber};
use packets::{
    Condition, Dissection, Dissector, Ending, Filter, Fragment, FragmentState, Headers, Lengths,
    Net, NoProgress, Outline, Period, Protocol, Rate, Reason, Sizes, Summary, SummaryText, Tally,
    Verified, Words, summarize,
};
use std::alloc::Global;
use std::hash::{BuildHasher, BuildHasherDefault, RandomState};
use std::process::Abort;

type Taken = (Option<IpNumber>, Option<Reason>, Option<FragmentState>);

const TAKEN: &[Taken] = &[
    (Some(IpNumber::TCP), None, None),
    (Some(IpNumber::UDP), None, None),
    (None, None, None),
    (Some(IpNumber::IPV6_ICMP), None, None),
    (Some(IpNumber::UDP), None, Some(FragmentState::Waits)),
    (Some(IpNumber::UDP), None, Some(FragmentState::Completes)),
    (None, Some(Reason::CutOff(Layer::Ipv4Header)), None),
    (Some(IpNumber::TCP), Some(Reason::TcpDataOffset), None),
    (Some(IpNumber::UDP), None, None),
    (Some(IpNumber::UDP), None, Some(FragmentState::Waits)),
];

fn taken(packet: &Dissection<'_>) -> Taken {
    let outline = Outline::of(packet);
    (outline.headers.carried(), outline.refusal, outline.fragment)
}

#[test]
fn outlines(rt: HostRuntime) {
    let capture = captured(rt, rt.alloc(), 1, FRAMES);
    let mut dissector = Dissector::new(rt.alloc());
    let mut rows = TAKEN.iter();
    for packet in Packets::new(Unfit::Refuse, capture.as_slice()) {
        let dissection = dissected(rt, &mut dissector, &packet);
        equal(rt, Some(&taken(&dissection)), rows.next());
    }
    holds(rt, rows.next().is_none());
}

// An ICMPv6 message in a VLAN.
const ICMPV6: &str =
    "0200000000020200000000018100000586dd6000000000103a4020010db8000000000000000000000\
    00120010db8000000000000000000000002800092a8000100016162636465666768";

const ADDRESSES: Addresses = Addresses::V6 {
    source: *b"\x20\x01\x0d\xb8\0\0\0\0\0\0\0\0\0\0\0\x01",
    destination: *b"\x20\x01\x0d\xb8\0\0\0\0\0\0\0\0\0\0\0\x02",
};

const SENDER: Verified = Verified::V6 {
    source: *b"\x20\x01\x0d\xb8\0\0\0\0\0\0\0\0\0\0\0\x01",
    is_bad: false,
};

const HEADERS: Headers = Headers {
    ethernet: true,
    vlan: true,
    macsec: false,
    net: Some(Net::Ip(ADDRESSES, IpNumber::IPV6_ICMP)),
};

fn is_icmpv6(rt: impl Abort + Copy, packet: &Dissection<'_>) {
    let headers = Headers::of(packet);
    equal(
        rt,
        (headers, headers.addresses()),
        (HEADERS, Some(ADDRESSES)),
    );
    equal(rt, Verified::of(&Outline::of(packet)), Some(SENDER));
    holds(
        rt,
        headers.has(Protocol::Ipv6) && !headers.has(Protocol::Ipv4),
    );
    holds(rt, Condition::Protocol(Protocol::Vlan).holds(packet));
    holds(rt, !Condition::Bad.holds(packet));
}

#[test]
fn headers(rt: HostRuntime) {
    let capture = captured(rt, rt.alloc(), 1, &[ICMPV6]);
    let packet = first(rt, capture.as_slice());
    let dissection = dissected(rt, &mut Dissector::new(rt.alloc()), &packet);
    is_icmpv6(rt, &dissection);
    let rules = packets_of(rt, rt.alloc(), "vlan");
    holds(rt, rules.filter.matches(&dissection));
}

// Whether a packet meets the expression that a text is.
fn meets(rt: impl Abort + Copy, alloc: Global, text: &str, packet: &Dissection<'_>) -> bool {
    let Ok(words) = Words::of(alloc, text) else {
        fail(rt, "no words");
    };
    let Ok(expression) = words.expression(alloc) else {
        fail(rt, "no expression");
    };
    let met = expression.holds(packet);
    let mut filter = Filter::new(alloc);
    holds(rt, filter.add_expression(expression).is_ok());
    equal(rt, filter.matches(packet), met);
    met
}

// Of the same packet, from 2001:db8::1 to 2001:db8::2, with 74 bytes.
const EXPRESSIONS: &[(&str, bool)] = &[
    ("vlan=5 and not bad", true),
    ("bad or cut or arp", false),
    ("src=2001:db8::/32 and dst=2001:db8::2", true),
    ("dst=2001:db8::1 or src=2001:db8::2", false),
    ("len>=74 and len<=74", true),
    ("len=73", false),
];

#[test]
fn expressions_of_a_packet(rt: HostRuntime) {
    let capture = captured(rt, rt.alloc(), 1, &[ICMPV6]);
    let packet = first(rt, capture.as_slice());
    let dissection = dissected(rt, &mut Dissector::new(rt.alloc()), &packet);
    for (text, wanted) in EXPRESSIONS {
        equal(rt, meets(rt, rt.alloc(), *text, &dissection), *wanted);
    }
}

fn tally_of(packets: u64, bytes: u64, first: u64) -> Tally {
    Tally {
        packets,
        bytes,
        first: Some(first),
    }
}

fn is_tally(rt: impl Abort + Copy, actual: Tally, wanted: (u64, u64, u64)) {
    let (packets, bytes, first) = wanted;
    equal(rt, actual, tally_of(packets, bytes, first));
}

// Compares the tally of a reason that came as this one, from 0.
fn is_reason<S: BuildHasher>(
    rt: impl Abort + Copy,
    summary: &Summary<S>,
    index: usize,
    reason: Reason,
    tally: Tally,
) {
    equal(rt, summary.reasons.get(index), Some((&reason, &tally)));
}

fn are_counts<S: BuildHasher>(rt: impl Abort + Copy, summary: &Summary<S>) {
    is_tally(rt, summary.all, (10, 485, 1));
    is_tally(rt, summary.refused, (2, 75, 7));
    let datagrams = summary.protocols.over_ip.get(IpNumber::UDP);
    is_tally(rt, datagrams, (5, 240, 2));
    is_tally(rt, summary.checksums.bad, (1, 46, 2));
    is_tally(rt, summary.parts.completing, (1, 50, 6));
    equal(rt, (summary.reasons.len(), summary.flows.len()), (2, 5));
    equal(rt, summary.senders.len(), 3);
    is_reason(rt, summary, 1, Reason::TcpDataOffset, tally_of(1, 54, 8));
}

const ALL_READ: Ending = Ending {
    open: 1,
    dropped: 0,
    skipped: Skipped::NONE,
    result: Ok(()),
};

#[test]
fn summary(rt: HostRuntime) {
    let capture = captured(rt, rt.alloc(), 1, FRAMES);
    let (Ok(addresses), Ok(senders), Ok(reasons)) = (
        RandomState::new(&rt),
        RandomState::new(&rt),
        RandomState::new(&rt),
    ) else {
        fail(rt, "no random numbers");
    };
    let Ok(state) = RandomState::new(&rt) else {
        fail(rt, "no random numbers");
    };
    let mut summary = Summary::with_hashers(rt.alloc(), addresses, senders, reasons);
    holds(rt, summary.flows.is_empty());
    let (rules, reader) = (every_packet(rt.alloc()), capture.as_slice());
    let ending = summarize(
        rt.alloc(),
        state,
        &rules,
        &mut summary,
        reader,
        &mut NoProgress,
    );
    equal(rt, ending, ALL_READ);
    are_counts(rt, &summary);
}

fn are_refused(rt: impl Abort + Copy, summary: &Summary) {
    is_tally(rt, summary.refused, (2, 96, 2));
    is_tally(rt, summary.parts.completing, (2, 96, 2));
    equal(rt, summary.parts.refused, Tally::NONE);
    let cut_off = Reason::CutOff(Layer::UdpPayload);
    is_reason(rt, summary, 0, cut_off, tally_of(1, 58, 2));
    is_reason(rt, summary, 1, Reason::TcpDataOffset, tally_of(1, 38, 4));
}

// Fragments that complete what can't be read are refused, and are fragments that complete a
// datagram.
#[test]
fn messages_that_are_refused(rt: HostRuntime) {
    let capture = captured(rt, rt.alloc(), 1, REFUSED_WHOLE);
    let mut summary = Summary::new(rt.alloc());
    let (rules, reader) = (every_packet(rt.alloc()), capture.as_slice());
    let state = BuildHasherDefault::new();
    let ending = summarize(
        rt.alloc(),
        state,
        &rules,
        &mut summary,
        reader,
        &mut NoProgress,
    );
    holds(rt, ending.result.is_ok());
    are_refused(rt, &summary);
}

// A packet of which nothing but this is known.
fn outline(number: u64, time: u64, len: usize) -> Outline {
    Outline {
        number,
        time,
        len,
        captured_len: len,
        wire_len: 40,
        headers: Headers {
            ethernet: false,
            vlan: false,
            macsec: false,
            net: None,
        },
        refusal: None,
        fragment: None,
        verdict: None,
    }
}

#[test]
fn counts(rt: HostRuntime) {
    let mut tally = Tally::NONE;
    tally.add_if(false, &outline(1, 0, 10));
    tally.add(&outline(2, 0, 60));
    tally.add_if(true, &outline(3, 0, 40));
    is_tally(rt, tally, (2, 100, 2));

    // Of 0, 6, 6 and 7 binary digits.
    let mut sizes = Sizes::NONE;
    for len in [0, 32, 63, 64] {
        sizes.add(&outline(1, 0, len));
    }
    let counts = (sizes.counts[0], sizes.counts[6], sizes.counts[7]);
    equal(rt, counts, (1, 2, 1));
}

// Of 60, 40 and 30 bytes that were captured, each of 40 on the wire: the last packet was cut.
#[test]
fn lengths(rt: HostRuntime) {
    let mut lengths = Lengths::NONE;
    for (number, len) in [(1, 60), (2, 40), (3, 30)] {
        lengths.add(&outline(number, 0, len));
    }
    is_tally(rt, lengths.cut, (1, 30, 3));
    equal(rt, (lengths.wire, lengths.captured), (120, 130));
}

// The first packet is neither the earliest nor the latest.
#[test]
fn periods(rt: HostRuntime) {
    let mut period = Period::NONE;
    for time in [5, 3, 9, 4] {
        period.add(&outline(1, time, 60));
    }
    equal(rt, (period.earliest, period.latest), (Some(3), Some(9)));
}

// 63 and 64 spans of 1/512 second later. Spans are doubled where a packet comes after the 64th.
#[test]
fn rates(rt: HostRuntime) {
    let mut rate = Rate::new();
    for time in [1_000_000_000, 1_123_046_875, 1_125_000_000] {
        rate.add(&outline(1, time, 60), 1);
    }
    equal(
        rt,
        (rate.begin, rate.span),
        (Some(1_000_000_000), 3_906_250),
    );
    let counts = (rate.counts[0], rate.counts[31], rate.counts[32]);
    equal(rt, counts, (1, 1, 1));
}

const FRAGMENT: &str =
    "02000000000202000000000108004500002412342000401134930a0000010a00000200350fa0001cb3ac\
    6162636465666768";

// In which packet the datagram started for whose rest the fragments of this capture wait, whose
// first packet has such a number.
fn started_in(
    rt: impl Abort + Copy,
    dissector: &mut Dissector,
    capture: &[u8],
    number: u64,
) -> Option<u64> {
    let mut packet = first(rt, capture);
    packet.number = number;
    let dissection = dissected(rt, dissector, &packet);
    let started = match dissection.fragment {
        Some(Fragment::Waits { started }) => Some(started),
        _ => None,
    };
    started
}

// A fragment waits until its reassembly is dropped: one that came at this time is kept.
#[test]
fn open_messages(rt: HostRuntime) {
    let capture = captured(rt, rt.alloc(), 1, &[FRAGMENT]);
    let mut dissector = Dissector::new(rt.alloc());
    let time = 1_700_000_000_000_000_000;
    equal(
        rt,
        started_in(rt, &mut dissector, capture.as_slice(), 7),
        Some(7),
    );
    dissector.forget_before(time);
    equal(rt, dissector.open(), 1);
    dissector.forget_before(time + 1);
    equal(rt, dissector.open(), 0);
    // Then it starts anew.
    equal(
        rt,
        started_in(rt, &mut dissector, capture.as_slice(), 9),
        Some(9),
    );
}

// Two fragments of a datagram, whose name is hashed by random keys.
#[test]
fn a_datagram_under_random_keys(rt: HostRuntime) {
    let Ok(state) = RandomState::new(&rt) else {
        fail(rt, "no random numbers");
    };
    let capture = captured(rt, rt.alloc(), 1, &FRAMES[4..6]);
    let mut packets = Packets::new(Unfit::Refuse, capture.as_slice());
    let (Some(one), Some(other)) = (packets.next(), packets.next()) else {
        fail(rt, "no packets");
    };
    let mut dissector = Dissector::with_hasher(rt.alloc(), state);
    holds(rt, dissector.dissect(&one, true).is_ok());
    equal(rt, dissector.open(), 1);
    holds(rt, dissector.dissect(&other, true).is_ok());
    equal(rt, dissector.open(), 0);
}

const SHARES: &str = "      4000 100.0 %          135980 100.0 %         1  all packets
         1   0.0 %              14   0.0 %      4000  Ethernet
      3999  99.9 %          135966  99.9 %         1  IPv4
";

// The packet of a capture with each number from one to before another.
fn add_numbered(
    rt: impl Abort + Copy,
    from: u64,
    until: u64,
    capture: &[u8],
    dissector: &mut Dissector,
    summary: &mut Summary,
) {
    let mut packet = first(rt, capture);
    for number in from..until {
        packet.number = number;
        let dissection = dissected(rt, dissector, &packet);
        holds(rt, summary.add(&dissection).is_ok());
    }
}

fn has_text(rt: impl Abort + Copy, alloc: Global, summary: &Summary, wanted: &str) {
    let summary_text = SummaryText {
        summary,
        open: 0,
        dropped: 0,
        skipped: Skipped::NONE,
    };
    let Ok(text) = format!(in alloc; "{summary_text}") else {
        fail(rt, "no memory");
    };
    holds(rt, text.as_str().contains(wanted));
}

const IPV4: &str = "450000140001000040fd00000a0000010a000063";

const LLDP: &str = "02000000000202000000000188cc";

// Of 4000 packets one isn't of IPv4: 99.975 percent are, which is less than all.
#[test]
fn a_share_of_all_but_one(rt: HostRuntime) {
    let capture = captured(rt, rt.alloc(), 101, &[IPV4]);
    let other = captured(rt, rt.alloc(), 1, &[LLDP]);
    let mut dissector = Dissector::new(rt.alloc());
    let mut summary = Summary::new(rt.alloc());
    add_numbered(
        rt,
        1,
        4000,
        capture.as_slice(),
        &mut dissector,
        &mut summary,
    );
    add_numbered(
        rt,
        4000,
        4001,
        other.as_slice(),
        &mut dissector,
        &mut summary,
    );
    has_text(rt, rt.alloc(), &summary, SHARES);
}
