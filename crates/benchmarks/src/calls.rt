//! The benchmarks of library calls, by their names.

use crate::built_frames::{TcpIpv6, UdpIpv4};
use crate::checksums::Checksums;
use crate::datagrams::UdpDatagrams;
use crate::echoes::{Icmpv4Echoes, Icmpv6Echoes};
use crate::ip_packets::{Ipv4Packets, Ipv6Packets, Ipv6PacketsTwoExtensions};
use crate::ipv4_headers::Ipv4Headers;
use crate::ipv6_extensions::{ReadExtensions, SkippedExtensions};
use crate::lax_packets::LaxSlicedMix;
use crate::links::{ArpPackets, EthernetFrames, VlanTags};
use crate::measured::{Measured, Repeats};
use crate::segments::TcpSegments;
use crate::sliced_packets::{SlicedFrames, SlicedMix};
use crate::{built_frames, job};
use std::io;

/// What the benchmark of this name gives, if there is one of library calls. It has no contract: the
/// time is a measurement, and the sum is compared with that of a plain program.
pub fn measure(rt: &HostRuntime, name: &str, repeats: Repeats) -> io::Result<Option<Measured>> {
    let measured = match name {
        "ipv4_headers" => job::measure::<Ipv4Headers>(rt, repeats),
        "ipv4_packets" => job::measure::<Ipv4Packets>(rt, repeats),
        "ipv6_packets" => job::measure::<Ipv6Packets>(rt, repeats),
        "ipv6_packets_two_extensions" => job::measure::<Ipv6PacketsTwoExtensions>(rt, repeats),
        "skipped_extensions_0" => job::measure::<SkippedExtensions<0>>(rt, repeats),
        "skipped_extensions_1" => job::measure::<SkippedExtensions<1>>(rt, repeats),
        "skipped_extensions_4" => job::measure::<SkippedExtensions<4>>(rt, repeats),
        "read_extensions_0" => job::measure::<ReadExtensions<0>>(rt, repeats),
        "read_extensions_1" => job::measure::<ReadExtensions<1>>(rt, repeats),
        "read_extensions_4" => job::measure::<ReadExtensions<4>>(rt, repeats),
        "udp_datagrams" => job::measure::<UdpDatagrams>(rt, repeats),
        "tcp_segments" => job::measure::<TcpSegments>(rt, repeats),
        "checksums_20" => job::measure::<Checksums<20>>(rt, repeats),
        "checksums_64" => job::measure::<Checksums<64>>(rt, repeats),
        "checksums_576" => job::measure::<Checksums<576>>(rt, repeats),
        "checksums_1500" => job::measure::<Checksums<1500>>(rt, repeats),
        "ethernet_frames" => job::measure::<EthernetFrames>(rt, repeats),
        "vlan_tags" => job::measure::<VlanTags>(rt, repeats),
        "arp_packets" => job::measure::<ArpPackets>(rt, repeats),
        "icmpv4_echoes" => job::measure::<Icmpv4Echoes>(rt, repeats),
        "icmpv6_echoes" => job::measure::<Icmpv6Echoes>(rt, repeats),
        "sliced_udp_ipv4" => job::measure::<SlicedFrames<0>>(rt, repeats),
        "sliced_tcp_ipv4" => job::measure::<SlicedFrames<1>>(rt, repeats),
        "sliced_udp_ipv6" => job::measure::<SlicedFrames<2>>(rt, repeats),
        "sliced_one_vlan" => job::measure::<SlicedFrames<3>>(rt, repeats),
        "sliced_two_vlans" => job::measure::<SlicedFrames<4>>(rt, repeats),
        "sliced_ipv6_options" => job::measure::<SlicedFrames<5>>(rt, repeats),
        "sliced_arp" => job::measure::<SlicedFrames<6>>(rt, repeats),
        "sliced_refused" => job::measure::<SlicedFrames<7>>(rt, repeats),
        "sliced_mix" => job::measure::<SlicedMix>(rt, repeats),
        "lax_sliced_mix" => job::measure::<LaxSlicedMix>(rt, repeats),
        "built_udp_ipv4" => built_frames::measure::<UdpIpv4>(rt, repeats),
        "built_tcp_ipv6" => built_frames::measure::<TcpIpv6>(rt, repeats),
        _ => return Ok(None),
    };
    measured.map(Some)
}
