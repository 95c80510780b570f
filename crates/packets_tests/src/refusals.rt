//! The texts of refusals that no capture leads to here: of the header of a cooked capture and of an
//! IP header of either version, where an Ethernet II header is in its place, and of a fragment
//! without memory.

use crate::captured::{captured, dissected, first};
use crate::checks::{equal, fail, holds, is_shown_as, is_text};
use crate::frames::FRAMES;
use crate::outcomes::packets_of;
use captures::Link;
use etherparse::ArpHardwareId;
use etherparse::defrag::IpDefragError;
use etherparse::err::packet::SliceError;
use etherparse::err::{ip, linux_sll};
use packets::{
    Dissection, Dissector, Fragment, FrameBytes, JsonLines, Reason, ShowOptions, ShownBytes, Style,
    TimeForm,
};
use std::alloc::Global;
use std::process::Abort;

const PLAIN: ShowOptions = ShowOptions {
    style: Style::Plain,
    time: TimeForm::SinceFirst,
    width: None,
    link: false,
    bytes: ShownBytes::Nothing,
};

// An error, its line, its object and the reason.
const ERRORS: &[(SliceError, &str, &str, &str)] = &[
    (
        SliceError::LinuxSll(linux_sll::HeaderError::UnsupportedPacketTypeField { packet_type: 8 }),
        "    3   0.000000 refused: cooked packet of type 8",
        "{\"number\":3,\"time\":0,\"interface\":0,\"link_type\":\"Ip\",\"len\":20,\"wire_len\":6,\
        \"error\":{\"LinuxSll\":{\"UnsupportedPacketTypeField\":{\"packet_type\":8}}}}",
        "cooked packet of an unknown type",
    ),
    (
        SliceError::LinuxSll(linux_sll::HeaderError::UnsupportedArpHardwareId {
            arp_hardware_type: ArpHardwareId(9),
        }),
        "    3   0.000000 refused: cooked packet of hardware type 9",
        "{\"number\":3,\"time\":0,\"interface\":0,\"link_type\":\"Ip\",\"len\":20,\"wire_len\":6,\
        \"error\":{\"LinuxSll\":{\"UnsupportedArpHardwareId\":{\"arp_hardware_type\":9}}}}",
        "cooked packet of an unknown hardware type",
    ),
    (
        SliceError::Ip(ip::HeaderError::UnsupportedIpVersion { version_number: 7 }),
        "    3   0.000000 refused: IP header of version 7",
        "{\"number\":3,\"time\":0,\"interface\":0,\"link_type\":\"Ip\",\"len\":20,\"wire_len\":6,\
        \"error\":{\"Ip\":{\"UnsupportedIpVersion\":{\"version_number\":7}}}}",
        "IP header of another version",
    ),
    (
        SliceError::Ip(ip::HeaderError::Ipv4HeaderLengthSmallerThanHeader { ihl: 4 }),
        "    3   0.000000 refused: IPv4 header length 4 below 5",
        "{\"number\":3,\"time\":0,\"interface\":0,\"link_type\":\"Ip\",\"len\":20,\"wire_len\":6,\
        \"error\":{\"Ip\":{\"Ipv4HeaderLengthSmallerThanHeader\":{\"ihl\":4}}}}",
        "IPv4 header length below 5",
    ),
];

fn refused(error: SliceError) -> Dissection<'static> {
    Dissection {
        number: 3,
        first_time: 0,
        previous_time: 0,
        time: 0,
        interface: 0,
        link: Link::Ip,
        header: None,
        bytes: FrameBytes::of(&[]),
        len: 20,
        captured_len: 6,
        wire_len: 6,
        layers: Err(error),
        fragment: None,
        checksums: true,
        verdict: None,
    }
}

fn is_line(rt: impl Abort + Copy, alloc: Global, packet: &Dissection<'_>, wanted: &str) {
    let mut line = Vec::new(alloc);
    holds(rt, PLAIN.write_line(packet, &mut line).is_ok());
    is_text(rt, line.as_slice(), wanted);
}

// The object of a packet.
fn object_of(rt: impl Abort + Copy, alloc: Global, packet: &Dissection<'_>) -> Vec<u8> {
    let mut object = Vec::new(alloc);
    holds(
        rt,
        JsonLines::new(alloc, false)
            .write_line(packet, &mut object)
            .is_ok(),
    );
    object
}

fn is_object(rt: impl Abort + Copy, alloc: Global, packet: &Dissection<'_>, wanted: &str) {
    is_text(rt, object_of(rt, alloc, packet).as_slice(), wanted);
}

#[test]
fn of_packets(rt: HostRuntime) {
    for (error, line, object, reason) in ERRORS.iter() {
        is_line(rt, rt.alloc(), &refused(*error), *line);
        is_object(rt, rt.alloc(), &refused(*error), *object);
        is_shown_as(rt, rt.alloc(), &Reason::of(*error), *reason);
    }
}

// A packet that had 1514 bytes on the wire.
#[test]
fn of_packets_that_were_cut(rt: HostRuntime) {
    let error = ip::HeaderError::UnsupportedIpVersion { version_number: 7 };
    let mut packet = refused(SliceError::Ip(error));
    holds(rt, !packet.is_cut());
    packet.wire_len = 1514;
    holds(rt, packet.is_cut());
    let rules = packets_of(rt, rt.alloc(), "cut");
    holds(rt, rules.filter.matches(&packet));
    let line = "    3   0.000000 refused: IP header of version 7, cut at 6 of 1514 bytes";
    is_line(rt, rt.alloc(), &packet, line);
}

// A TCP header of 4 words: the IP header before it is there.
#[test]
fn of_a_header_that_breaks_its_format(rt: HostRuntime) {
    let capture = captured(rt, rt.alloc(), 1, &[FRAMES[7]]);
    let packet = first(rt, capture.as_slice());
    let dissection = dissected(rt, &mut Dissector::new(rt.alloc()), &packet);
    equal(rt, dissection.bytes.bytes().len(), 54);
    let Some(layers) = dissection.lax_layers() else {
        fail(rt, "no header");
    };
    holds(rt, layers.net.is_some() && layers.transport.is_none());
}

const FRAGMENT: &str =
    "02000000000202000000000108004500002412342000401134930a0000010a00000200350fa0001cb3ac\
    6162636465666768";

const LINE: &str = "    1   0.000000 10.0.0.1 > 10.0.0.2 UDP fragment at 0 len 16, more follow \
    (id 0x1234) refused: no memory for 8 bytes";

const OBJECT_END: &str =
    "\"fragment\":{\"Refused\":{\"error\":{\"AllocationFailure\":{\"len\":8}}}},\
    \"header_verdict\":\"Good\"}";

// A fragment for which there is no memory. A run ends then, and reports nothing of it.
#[test]
fn of_a_fragment(rt: HostRuntime) {
    let capture = captured(rt, rt.alloc(), 1, &[FRAGMENT]);
    let packet = first(rt, capture.as_slice());
    let mut dissection = dissected(rt, &mut Dissector::new(rt.alloc()), &packet);
    let error = IpDefragError::AllocationFailure { len: 8 };
    dissection.fragment = Some(Fragment::Refused {
        started: None,
        error,
    });
    is_line(rt, rt.alloc(), &dissection, LINE);
    let object = object_of(rt, rt.alloc(), &dissection);
    holds(rt, object.as_slice().ends_with(OBJECT_END.as_bytes()));
}
