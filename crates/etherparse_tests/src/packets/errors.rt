//! The texts of errors: each that of the layer at fault.

use crate::checks::have_one_text;
use ep_base::LenSource;
use ep_base::err::{Layer, LenError, ValueTooBigError, ValueType};
use ep_ext::err::{ip_auth, ipv6_exts};
use ep_ip::err::{ipv4, ipv6};
use ep_ipslice::err::ip;
use ep_link::err::linux_sll;
use ep_packet::err::packet::{SliceError, TransportChecksumError};
use ep_tag::err::macsec;
use ep_tcpudp::err::tcp;
use std::test::*;

#[test]
fn texts_of_faults_below_ip(rt: HostRuntime) {
    let len = LenError {
        required_len: 14,
        len: 13,
        len_source: LenSource::Slice,
        layer: Layer::Ethernet2Header,
        layer_start_offset: 0,
    };
    have_one_text(rt, rt.alloc(), &SliceError::Len(len), &len);
    let sll = linux_sll::HeaderError::UnsupportedPacketTypeField { packet_type: 5 };
    have_one_text(rt, rt.alloc(), &SliceError::LinuxSll(sll), &sll);
    let macsec = macsec::HeaderError::UnexpectedVersion;
    have_one_text(rt, rt.alloc(), &SliceError::Macsec(macsec), &macsec);
}

#[test]
fn texts_of_faults_of_ip(rt: HostRuntime) {
    let ip = ip::HeaderError::UnsupportedIpVersion { version_number: 5 };
    have_one_text(rt, rt.alloc(), &SliceError::Ip(ip), &ip);
    let ipv4 = ipv4::HeaderError::UnexpectedVersion { version_number: 6 };
    have_one_text(rt, rt.alloc(), &SliceError::Ipv4(ipv4), &ipv4);
    let ipv6 = ipv6::HeaderError::UnexpectedVersion { version_number: 4 };
    have_one_text(rt, rt.alloc(), &SliceError::Ipv6(ipv6), &ipv6);
}

#[test]
fn texts_of_faults_after_ip(rt: HostRuntime) {
    let auth = ip_auth::HeaderError::ZeroPayloadLen;
    have_one_text(rt, rt.alloc(), &SliceError::Ipv4Exts(auth), &auth);
    let exts = ipv6_exts::HeaderError::HopByHopNotAtStart;
    have_one_text(rt, rt.alloc(), &SliceError::Ipv6Exts(exts), &exts);
    let tcp = tcp::HeaderError::DataOffsetTooSmall { data_offset: 4 };
    have_one_text(rt, rt.alloc(), &SliceError::Tcp(tcp), &tcp);
}

#[test]
fn texts_of_missing_checksums(rt: HostRuntime) {
    let too_long = ValueTooBigError {
        actual: 65528,
        max_allowed: 65527,
        value_type: ValueType::UdpPayloadLengthIpv4,
    };
    have_one_text(
        rt,
        rt.alloc(),
        &TransportChecksumError::PayloadLen(too_long),
        &too_long,
    );
    let text = "an ICMPv6 message over IPv4, which has no checksum";
    have_one_text(rt, rt.alloc(), &TransportChecksumError::Icmpv6InIpv4, &text);
}
