//! Messages that are sealed, and that are not. Bytes and checksums were worked out by hand and by a
//! separate program after RFC 768, 792, 1071, 4443 and 9293.
//! Calls have no contracts: tests alone make them, and are run.
use crate::checks::equal;
use crate::messages::post::version_id;
use ep_icmp::{IcmpEchoHeader, Icmpv4Header, Icmpv4Type, Icmpv6Header, Icmpv6Type};
use ep_packet::TransportHeader;
use ep_tcpudp::{TcpHeader, UdpHeader};
use netlines::{SealError, seal_message};
use std::process::Abort;
use std::test::*;

/// A header whose checksum, and over UDP length, is to be set.
#[derive(Clone, Copy)]
pub(crate) enum Header {
    Udp(u16),
    Icmpv4Reply,
    Icmpv6Request,
    Tcp,
}

fn icmpv4_reply() -> Icmpv4Header {
    Icmpv4Header {
        icmp_type: Icmpv4Type::EchoReply(IcmpEchoHeader { id: 0, seq: 0 }),
        checksum: 0,
    }
}

fn icmpv6_request() -> Icmpv6Header {
    Icmpv6Header {
        icmp_type: Icmpv6Type::EchoRequest(IcmpEchoHeader { id: 1, seq: 2 }),
        checksum: 0,
    }
}

fn tcp() -> TcpHeader {
    let mut header = TcpHeader::new(1, 2, 3, 0x400);
    header.syn = true;
    header
}

pub(crate) fn transport(header: Header) -> TransportHeader {
    match header {
        Header::Udp(checksum) => TransportHeader::Udp(UdpHeader {
            source_port: 1,
            destination_port: 2,
            length: 0,
            checksum,
        }),
        Header::Icmpv4Reply => TransportHeader::Icmpv4(icmpv4_reply()),
        Header::Icmpv6Request => TransportHeader::Icmpv6(icmpv6_request()),
        Header::Tcp => TransportHeader::Tcp(tcp()),
    }
}

// The IP version, the header, the payload, and the sealed message.
type Sealed = (u8, Header, &'static [u8], &'static [u8]);

#[rattlefmt::skip]
const SEALED: &[Sealed] = &[
    (4, Header::Udp(0xffff), &[1, 2, 3, 4, 5, 6, 7, 8], &[0, 1, 0, 2, 0, 0x10, 0xdb, 0xb4, 1, 2, 3, 4, 5, 6, 7, 8]),
    (6, Header::Udp(0xffff), &[1, 2, 3, 4, 5, 6, 7, 8], &[0, 1, 0, 2, 0, 0x10, 0xf5, 0xb2, 1, 2, 3, 4, 5, 6, 7, 8]),
    (4, Header::Icmpv4Reply, &[], &[0, 0, 0xff, 0xff, 0, 0, 0, 0]),
    (6, Header::Icmpv6Request, b"ab", &[0x80, 0, 0x24, 0x51, 0, 1, 0, 2, 0x61, 0x62]),
    (4, Header::Tcp, &[], &[0, 1, 0, 2, 0, 0, 0, 3, 0, 0, 0, 0, 0x50, 2, 4, 0, 0x97, 0xda, 0, 0]),
];

// Compares the length of a sealed message and its first bytes, or why there is none.
fn is_sealed(
    rt: impl Abort + AllocGlobal + Copy,
    version: u8,
    header: Header,
    payload: &[u8],
    wanted: Result<usize, SealError>,
    prefix: &[u8],
) {
    let sealed = seal_message(rt.alloc(), &version_id(version), transport(header), payload);
    let (actual, bytes) = match &sealed {
        Ok(message) => (
            Ok(message.len()),
            message.get(..prefix.len()).unwrap_or(&[]),
        ),
        Err(error) => (Err(*error), &[][..]),
    };
    equal(
        rt,
        (version, payload.len(), actual, bytes),
        (version, payload.len(), wanted, prefix),
    );
}

#[test]
fn sealed_messages(rt: HostRuntime) {
    for (version, header, payload, bytes) in SEALED.iter() {
        is_sealed(rt, *version, *header, payload, Ok(bytes.len()), bytes);
    }
}

// The IP version, the header, the payload's length, and that of the message or why there is none.
type Length = (u8, Header, usize, Result<usize, SealError>);

#[rattlefmt::skip]
const LENGTHS: &[Length] = &[
    (4, Header::Icmpv6Request, 65528, Err(SealError::IcmpOfOtherVersion)),
    (6, Header::Icmpv4Reply, 0, Err(SealError::IcmpOfOtherVersion)),
    (4, Header::Udp(0), 65528, Err(SealError::TooLong)),
    (4, Header::Udp(0), 65527, Ok(65535)),
];

#[test]
fn refusals_of_sealing(rt: HostRuntime) -> Result<(), Fail> {
    let zeros = vec![in rt.alloc(); 0u8; 65528]?;
    for (version, header, len, wanted) in LENGTHS.iter() {
        let payload = zeros.get(..*len).unwrap_or(&[]);
        is_sealed(rt, *version, *header, payload, *wanted, &[]);
    }
    Ok(())
}
