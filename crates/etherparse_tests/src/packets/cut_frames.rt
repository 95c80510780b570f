//! Frames of each kind, cut at each byte. The layers of each prefix are those of a parser that shares
//! no code with this one and was written after IEEE 802.3, 802.1Q and 802.1AE, and RFC 768, 791, 792,
//! 826, 4302, 4443, 8200 and 9293: `tools/cut_frames/make` writes the tables.
use crate::checks::fail;
use ep_base::err::Layer;
use ep_ipslice::{Ipv6ExtensionSlice, LaxIpv4Slice, LaxIpv6Slice};
use ep_packet::err::packet::SliceError;
use ep_packet::{LaxNetSlice, LaxSlicedPacket, TransportSlice};
use ep_tag::{LaxLinkExtSlice, LaxMacsecPayloadSlice};
use std::alloc::Global;
use std::process::Abort;
use std::test::*;

// The functions below have no contracts, as tests alone call them.

fn add(rt: impl Abort + Copy, text: &mut String, word: &str) {
    if text.push_str(word).is_err() {
        fail(rt, "no memory");
    }
}

// A word of its own.
fn add_word(rt: impl Abort + Copy, text: &mut String, word: &str) {
    if !text.is_empty() {
        add(rt, text, " ");
    }
    add(rt, text, word);
}

fn tag(tag: &LaxLinkExtSlice<'_>) -> &'static str {
    match tag {
        LaxLinkExtSlice::Vlan(_) => "vlan",
        LaxLinkExtSlice::Macsec(tag) => match &tag.payload {
            LaxMacsecPayloadSlice::Unmodified(payload) if payload.incomplete => "macsec-short",
            LaxMacsecPayloadSlice::Unmodified(_) => "macsec",
            LaxMacsecPayloadSlice::Modified {
                incomplete: true,
                ..
            } => "macsec-modified-short",
            LaxMacsecPayloadSlice::Modified { .. } => "macsec-modified",
        },
    }
}

fn extension(header: &Ipv6ExtensionSlice<'_>) -> &'static str {
    match header {
        Ipv6ExtensionSlice::HopByHop(_) => "+hop",
        Ipv6ExtensionSlice::Routing(_) => "+route",
        Ipv6ExtensionSlice::Fragment(_) => "+frag",
        Ipv6ExtensionSlice::DestinationOptions(_) => "+dest",
        Ipv6ExtensionSlice::Authentication(_) => "+auth",
    }
}

fn message(message: &TransportSlice<'_>) -> &'static str {
    match message {
        TransportSlice::Udp(_) => "udp",
        TransportSlice::Tcp(_) => "tcp",
        TransportSlice::Icmpv4(_) => "icmpv4",
        TransportSlice::Icmpv6(_) => "icmpv6",
    }
}

fn add_ipv4(rt: impl Abort + Copy, text: &mut String, packet: &LaxIpv4Slice<'_>) {
    add_word(rt, text, "ipv4");
    if !packet.extensions().is_empty() {
        add(rt, text, "+auth");
    }
}

fn add_ipv6(rt: impl Abort + Copy, text: &mut String, packet: &LaxIpv6Slice<'_>) {
    add_word(rt, text, "ipv6");
    for header in packet.extensions().iter() {
        add(rt, text, extension(&header));
    }
}

fn add_net(rt: impl Abort + Copy, text: &mut String, net: &LaxNetSlice<'_>) {
    match net {
        LaxNetSlice::Ipv4(packet) => add_ipv4(rt, text, packet),
        LaxNetSlice::Ipv6(packet) => add_ipv6(rt, text, packet),
        LaxNetSlice::Arp(_) => add_word(rt, text, "arp"),
    }
}

fn add_stop(
    rt: impl Abort + Copy,
    alloc: Global,
    text: &mut String,
    error: &SliceError,
    layer: Layer,
) {
    let stop = match error {
        SliceError::Len(error) => {
            let at = error.layer_start_offset;
            format!(in alloc; " | stop {layer:?} {at}")
        }
        _ => format!(in alloc; " | stop {layer:?} content"),
    };
    match stop {
        Ok(stop) => add(rt, text, stop.as_str()),
        Err(_) => fail(rt, "no memory"),
    }
}

// The text of the layers, as tools/cut_frames/layers.py writes it.
fn described(rt: impl Abort + Copy, alloc: Global, packet: &LaxSlicedPacket<'_>) -> String {
    let mut text = String::new(alloc);
    for each in packet.link_exts.as_slice() {
        add_word(rt, &mut text, tag(each));
    }
    if let Some(net) = &packet.net {
        add_net(rt, &mut text, net);
    }
    let (fragmented, incomplete) = match packet.ip_payload() {
        Some(payload) => (payload.fragmented, payload.incomplete),
        None => (false, false),
    };
    if fragmented {
        add_word(rt, &mut text, "fragment");
    }
    if let Some(slice) = &packet.transport {
        add_word(rt, &mut text, message(slice));
    }
    if text.is_empty() {
        add(rt, &mut text, "none");
    }
    if let Some((error, layer)) = &packet.stop_err {
        add_stop(rt, alloc, &mut text, error, *layer);
    }
    if incomplete {
        add(rt, &mut text, " | cut");
    }
    text
}

fn has_layers(rt: impl Abort + Copy, alloc: Global, bytes: &[u8], wanted: &str) {
    match LaxSlicedPacket::from_ethernet(bytes) {
        Ok(packet) => {
            let text = described(rt, alloc, &packet);
            assert_eq!(rt; text.as_str(), wanted, "{bytes:?}");
        }
        Err(_) => fail(rt, "no link header"),
    }
}

// Those of the last entry with no greater length.
fn layers_at<'a>(rt: impl Abort + Copy, entries: &'a str, len: usize) -> &'a str {
    for entry in entries.rsplit(';') {
        match entry.split_once(' ') {
            Some((first, layers)) => match first.parse::<usize>() {
                Ok(first) if first <= len => return layers,
                Ok(_) => {}
                Err(_) => fail(rt, "no length"),
            },
            None => fail(rt, "no layers"),
        }
    }
    fail(rt, "no entry")
}

fn prefixes_have_layers(rt: impl Abort + Copy, alloc: Global, row: &str) {
    let (digits, entries) = match row.split_once(';') {
        Some(parts) => parts,
        None => fail(rt, "no entries"),
    };
    let frame = match hex::decode(alloc, digits) {
        Ok(frame) => frame,
        Err(_) => fail(rt, "no hex"),
    };
    for len in 14..frame.len() + 1 {
        match frame.get(..len) {
            Some(bytes) => has_layers(rt, alloc, bytes, layers_at(rt, entries, len)),
            None => fail(rt, "no prefix"),
        }
    }
}

fn rows_have_layers(rt: impl Abort + Copy, alloc: Global, table: &str) {
    for row in table.lines() {
        prefixes_have_layers(rt, alloc, row);
    }
}

// A row is a frame in hex, and then each length whose prefix has other layers than the prefix that is
// one byte shorter, with these layers.
#[rattlefmt::skip]
const TAGGED: &str = "\
020000000002020000000001810000018100000281000003810000040800;14 none | stop VlanHeader 14;18 vlan | stop VlanHeader 18;\
    22 vlan vlan | stop VlanHeader 22;26 vlan vlan vlan
0200000000020200000000018100000508004500001c00072000401146c80a0000010a000002000100020010dbb4;\
    14 none | stop VlanHeader 14;18 vlan | stop Ipv4Header 18;38 vlan ipv4 fragment | cut;46 vlan ipv4 fragment
0200000000010200000000018100f00508004500002f00070000400166c50a0000010a000002fa484686077feab0c8f3685cac9f31a8094f\
    88d1b5da203b053250;14 none | stop VlanHeader 14;18 vlan | stop Ipv4Header 18;38 vlan ipv4 | stop Icmpv4 38 | cut;\
    46 vlan ipv4 icmpv4 | cut;65 vlan ipv4 icmpv4
0200000000025c79ce1afb71810000058100000988a8ffff86dd600fffff004000fffd000000000000000000000000000001fd0000000000\
    000000000000000000022c004c4186bb86150100000145c0606600000000165b6651ed299c0e6d146a61a0ea6e42647fb8a6aeea401f9cab\
    f82bc05d99eb672c008b2bdc052613b8982a;14 none | stop VlanHeader 14;18 vlan | stop VlanHeader 18;\
    22 vlan vlan | stop VlanHeader 22;26 vlan vlan vlan | stop Ipv6Header 26;\
    66 vlan vlan vlan ipv6 | stop Ipv6HopByHopHeader 66 | cut;\
    74 vlan vlan vlan ipv6+hop | stop Ipv6FragHeader 74 | cut;82 vlan vlan vlan ipv6+hop+frag fragment | cut;\
    130 vlan vlan vlan ipv6+hop+frag fragment
8d8982dd2f08b802b4e6aab7810010058100f00988a8ffff86dd6fffffff006000fffd000000000000000000000000000001fd0000000000\
    000000000000000000023c001e2f51b6f4ea2b02e1791de923db458f52fd5cdf7d89e725530ea956919d2c006e1f00abb98c0100000145c0\
    606600000000165b6651ed299c0e6d146a61a0ea6e42647fb8a6aeea401f9cabf82bc05d99eb672c008b2bdc052613b8982a;\
    14 none | stop VlanHeader 14;18 vlan | stop VlanHeader 18;22 vlan vlan | stop VlanHeader 22;\
    26 vlan vlan vlan | stop Ipv6Header 26;66 vlan vlan vlan ipv6 | stop Ipv6HopByHopHeader 66 | cut;\
    74 vlan vlan vlan ipv6+hop | stop Ipv6DestOptionsHeader 74 | cut;\
    98 vlan vlan vlan ipv6+hop+dest | stop Ipv6RouteHeader 98 | cut;\
    106 vlan vlan vlan ipv6+hop+dest+route | stop Ipv6FragHeader 106 | cut;\
    114 vlan vlan vlan ipv6+hop+dest+route+frag fragment | cut;162 vlan vlan vlan ipv6+hop+dest+route+frag fragment
ac9249ddf76802000000000188a800058100100991000fff86dd6ff0000000162cfffd000000000000000000000000000001fd0000000000\
    000000000000000000020100003045c060661e4ff174b3d0fd707293bbb9bc94;14 none | stop VlanHeader 14;\
    18 vlan | stop VlanHeader 18;22 vlan vlan | stop VlanHeader 22;26 vlan vlan vlan | stop Ipv6Header 26;\
    66 vlan vlan vlan ipv6 | stop Ipv6FragHeader 66 | cut;74 vlan vlan vlan ipv6+frag fragment | cut;\
    88 vlan vlan vlan ipv6+frag fragment
020000000001e813f450fc4e810000099100100588e5023a91202d5a86dd6000000000102c40fd000000000000000000000000000001fd00\
    00000000000000000000000000023a000019a0bd0cb5ed1937f10d50b15912b3;14 none | stop VlanHeader 14;\
    18 vlan | stop VlanHeader 18;22 vlan vlan | stop MacsecHeader 22;30 vlan vlan macsec-short | stop Ipv6Header 30;\
    70 vlan vlan macsec-short ipv6 | stop Ipv6FragHeader 70 | cut;78 vlan vlan macsec-short ipv6+frag fragment | cut;\
    86 vlan vlan macsec ipv6+frag fragment
ef6079434b58020000000002810000058100f00508004500001c438a6000fffe5564c0a8014dffffffffffffffffffffffff;\
    14 none | stop VlanHeader 14;18 vlan | stop VlanHeader 18;22 vlan vlan | stop Ipv4Header 22;\
    42 vlan vlan ipv4 fragment | cut;50 vlan vlan ipv4 fragment
020000000002020000000002810010099100100588e500008a6fb76886dd6000000000182cfffd000000000000000000000000000001fd00\
    00000000000000000000000000023a000001a0bd0cb50001db3f00200000eb3936f1ec29bbbc;14 none | stop VlanHeader 14;\
    18 vlan | stop VlanHeader 18;22 vlan vlan | stop MacsecHeader 22;30 vlan vlan macsec | stop Ipv6Header 30;\
    70 vlan vlan macsec ipv6 | stop Ipv6FragHeader 70 | cut;78 vlan vlan macsec ipv6+frag fragment | cut;\
    94 vlan vlan macsec ipv6+frag fragment
020000000001020000000001810000058100f00508004500002f00070000400166c50a0000010a000002fa484686077feab0c8f3685cac9f\
    31a8094f88d1b5da203b053250;14 none | stop VlanHeader 14;18 vlan | stop VlanHeader 18;\
    22 vlan vlan | stop Ipv4Header 22;42 vlan vlan ipv4 | stop Icmpv4 42 | cut;50 vlan vlan ipv4 icmpv4 | cut;\
    69 vlan vlan ipv4 icmpv4
d2343381d2b8020000000002810010059100100988a8ffff080045fc001b00081fff01fd83e10a0000010a00000200000000000000;\
    14 none | stop VlanHeader 14;18 vlan | stop VlanHeader 18;22 vlan vlan | stop VlanHeader 22;\
    26 vlan vlan vlan | stop Ipv4Header 26;46 vlan vlan vlan ipv4 fragment | cut;53 vlan vlan vlan ipv4 fragment
020000000001020000000001910000059100000991000fff86dd6ff0000000102c01fd000000000000000000000000000001fd0000000000\
    000000000000000000022c00000100000007ffffffffffffffff;14 none | stop VlanHeader 14;18 vlan | stop VlanHeader 18;\
    22 vlan vlan | stop VlanHeader 22;26 vlan vlan vlan | stop Ipv6Header 26;\
    66 vlan vlan vlan ipv6 | stop Ipv6FragHeader 66 | cut;\
    74 vlan vlan vlan ipv6+frag fragment | stop Ipv6FragHeader 74 | cut;82 vlan vlan vlan ipv6+frag+frag fragment
02000000000202000000000188a803870800450000d3ffff0000ff63a6c50a0000010a0000021a136d21bb9595465b117e25ec8be3030c9e\
    38dcd3085f0b40d6743649aefd21f7cdf302d6ebcd83d0adfcdef8b55b8437f09ff3eabb5b64197c9e59e2e18bf2487fcbdd5c43d6281904\
    03877e19d1bb29c86f067864bbb533f7a29b52f4f9ef535936ac35aee4d0071b6e865b1d128f661918c1cf1084b2648068bfc4d5ac9fdbd9\
    f3813f5bab14c00f0fbc74d36db4bd51430b2c18cff32abc79fa2785f8fb43000f0d66df9348751882a661e569f1491ee423ba618e63a1f6\
    4c8b61d2f300000000;14 none | stop VlanHeader 14;18 vlan | stop Ipv4Header 18;38 vlan ipv4 | cut;229 vlan ipv4
0200000000010200000000018100f00586dd600fffff004933fffd000000000000000000000000000001fd00000000000000000000000000\
    000233020000960496ea5e1ab32f039cfbca2c01ffffb8cbe669fdae0ba995ae1bb9cafe7f71b5de2db195b76e2a498c70245a2dd3bf386d\
    86f00ef8ff8e3f71643b67af0a5ec6eb53baf3;14 none | stop VlanHeader 14;18 vlan | stop Ipv6Header 18;\
    58 vlan ipv6 | stop IpAuthHeader 58 | cut;74 vlan ipv6+auth | stop IpAuthHeader 74 | cut;\
    86 vlan ipv6+auth+auth | stop Ipv6FragHeader 86 | cut;94 vlan ipv6+auth+auth+frag fragment | cut;\
    131 vlan ipv6+auth+auth+frag fragment
0200000000020200000000029100000588e5013f2537bea386dd6000000000182cfffd000000000000000000000000000001fd0000000000\
    000000000000000000020100001900000000b5e9d0e322c4f8bbd4a7f13493fb963d1ba0938b82;14 none | stop VlanHeader 14;\
    18 vlan | stop MacsecHeader 18;26 vlan macsec-short | stop Ipv6Header 26;\
    66 vlan macsec-short ipv6 | stop Ipv6FragHeader 66 | cut;74 vlan macsec-short ipv6+frag fragment | cut;\
    87 vlan macsec ipv6+frag fragment | cut
0200000000020200000000028100000588e5021f8f45db5f86dd600fffff00182c40fd000000000000000000000000000001fd0000000000\
    000000000000000000020100001800000000b5e9d0e322c4f8bbd4a7f13493fb963dc110;14 none | stop VlanHeader 14;\
    18 vlan | stop MacsecHeader 18;26 vlan macsec-short | stop Ipv6Header 26;55 vlan macsec | stop Ipv6Header 26
0200000000010315935b0b5c9100f00588e53300841236b4f92a3ab9c0bdb66986dd6000000000202c40fd00000000000000000000000000\
    0001000000000000000000000000000000003b000001a618640effffffffffffffffffffffffffffffffffffffffffffffff;\
    14 none | stop VlanHeader 14;18 vlan | stop MacsecHeader 18;34 vlan macsec | stop Ipv6Header 34;\
    74 vlan macsec ipv6 | stop Ipv6FragHeader 74 | cut;82 vlan macsec ipv6+frag fragment | cut;\
    106 vlan macsec ipv6+frag fragment
0200000000020200000000028100000988a8f00586dd600fffff00082cfffd000000000000000000000000000001fd000000000000000000\
    0000000000023a00003900000000;14 none | stop VlanHeader 14;18 vlan | stop VlanHeader 18;\
    22 vlan vlan | stop Ipv6Header 22;62 vlan vlan ipv6 | stop Ipv6FragHeader 62 | cut;70 vlan vlan ipv6+frag fragment
0200000000010200000000018100100988a8000586dd6ff0000000282cfffd000000000000000000000000000001fd000000000000000000\
    0000000000023a000001000000000000059100000000000000000000000000000000000000000000000000000000;\
    14 none | stop VlanHeader 14;18 vlan | stop VlanHeader 18;22 vlan vlan | stop Ipv6Header 22;\
    62 vlan vlan ipv6 | stop Ipv6FragHeader 62 | cut;70 vlan vlan ipv6+frag fragment | cut;\
    102 vlan vlan ipv6+frag fragment
cedc5e41bd980200000000028100000586dd600fffff00282c40fd000000000000000000000000000001fd00000000000000000000000000\
    000211000001000000079071000200277627ffffffffffffffffffffffffffffffffffffffffffffffff;14 none | stop VlanHeader 14;\
    18 vlan | stop Ipv6Header 18;58 vlan ipv6 | stop Ipv6FragHeader 58 | cut;66 vlan ipv6+frag fragment | cut;\
    98 vlan ipv6+frag fragment
0200000000010200000000018100fea786dd6000000000d2110120010db8000000000000a5a5000000ffffffffffffffffffffffffffffff\
    ffff2087003500da000073755eca7bf4f6f07b327db8d7eb0e0d049bf2e254d8a3e5cdf44e6120144e4a49728d99e00e8c59cf6a22e97013\
    2491eb8b04e66b9ffdfae670ffc0da046ea4f9e1bbaf3bab983b8aa98d01f862d04f3584e8a60fc70e59b2068f289b9d22d9d13a2556c4aa\
    a98849f583db3c14b5ce16f33e92ced617829d2984e7e2515a7bca15159208c0971af3991ab44a692bc58064491a2deb5a38a74f56d9d918\
    d70073207a41f0c4fec83fa03b86956a7036db176bc20e73bc531765f24e3b60fd48866cac6251985d47c931;\
    14 none | stop VlanHeader 14;18 vlan | stop Ipv6Header 18;58 vlan ipv6 | stop UdpHeader 58 | cut;\
    66 vlan ipv6 udp | cut;268 vlan ipv6 udp
02000000000187f044d14765810000059100000588e5020105a6b2b186dd600fffff00082c01fd0000000000000000000000000000010000\
    00000000000000000000000000003b000029a618640eb4be;14 none | stop VlanHeader 14;18 vlan | stop VlanHeader 18;\
    22 vlan vlan | stop MacsecHeader 22;28 vlan vlan | stop MacsecHeader content
020000000001a3cc6b37d2ee91000005080060000000001e1101fd000000000000000000000000000001fd00000000000000000000000000\
    000235730035001f0000000102030405060708090a0b0c0d0e0f101112131415000000000000000000;14 none | stop VlanHeader 14;\
    18 vlan | stop Ipv4Header 18;38 vlan | stop Ipv4Header content
25601df308b702000000000288a8100081000b5c88e5011e0f1046ee08004500001cffff0000401166cf0a0000010a000002d6b5b6970008\
    bb1c11743e14e6;14 none | stop VlanHeader 14;18 vlan | stop VlanHeader 18;22 vlan vlan | stop MacsecHeader 22;\
    30 vlan vlan macsec-short | stop Ipv4Header 30;50 vlan vlan macsec-short ipv4 | stop UdpHeader 50 | cut;\
    58 vlan vlan macsec ipv4 udp
02000000000202000000000291000005080045000049000000000106b9b0000000000000000003b20050ee58faf138bb8382b8ce94f62df8\
    0000020405b4000102030405060708090a0b0c0d0e0f101112131415161718191a1b1c;14 none | stop VlanHeader 14;\
    18 vlan | stop Ipv4Header 18;38 vlan ipv4 | stop TcpHeader 38 | cut;82 vlan ipv4 tcp | cut;91 vlan ipv4 tcp
02000000000102000000000188a8000986dd600fffff00252c40fd000000000000000000000000000001fd00000000000000000000000000\
    000206ff0000e158ff253d63005075ef6a6461b2e06d10005c4c0000dca5030307010402000000;14 none | stop VlanHeader 14;\
    18 vlan | stop Ipv6Header 18;58 vlan ipv6 | stop Ipv6FragHeader 58 | cut;\
    66 vlan ipv6+frag | stop TcpHeader 66 | cut;86 vlan ipv6+frag | stop TcpHeader content | cut;\
    95 vlan ipv6+frag | stop TcpHeader content
003ed3567eea0200000000019100f0098100100586dd600fffff00582c0100000000000000000000000000000000ffffffffffffffffffff\
    ffffffffffff330000590000000801020000ab4616415a81fa3bddf5e5320000000000000000000000000000000000000000000000000000\
    0000000000000000000000000000000000000000000000000000000000000000000000000000;14 none | stop VlanHeader 14;\
    18 vlan | stop VlanHeader 18;22 vlan vlan | stop Ipv6Header 22;62 vlan vlan ipv6 | stop Ipv6FragHeader 62 | cut;\
    70 vlan vlan ipv6+frag fragment | stop IpAuthHeader 70 | cut;86 vlan vlan ipv6+frag+auth fragment | cut;\
    150 vlan vlan ipv6+frag+auth fragment
02000000000202000000000288a8f0098100000588e5033b26c7790086dd600fffff00102c4000000000000000000000000000000000ffff\
    ffffffffffffffffffffffffffff010000c90000000800000000000000009214a2754d;14 none | stop VlanHeader 14;\
    18 vlan | stop VlanHeader 18;22 vlan vlan | stop MacsecHeader 22;30 vlan vlan macsec-short | stop Ipv6Header 30;\
    70 vlan vlan macsec-short ipv6 | stop Ipv6FragHeader 70 | cut;78 vlan vlan macsec-short ipv6+frag fragment | cut;\
    86 vlan vlan macsec-short ipv6+frag fragment;87 vlan vlan macsec ipv6+frag fragment
020000000002020000000002910000099100f00586dd600fffff00402c0100000000000000000000000000000000ffffffffffffffffffff\
    ffffffffffff2b0000d0000000080100f6eaeb224c6900000000009c00000000000000000000000000000000000000000000000000000000\
    0000000000000000000000000000;14 none | stop VlanHeader 14;18 vlan | stop VlanHeader 18;\
    22 vlan vlan | stop Ipv6Header 22;62 vlan vlan ipv6 | stop Ipv6FragHeader 62 | cut;\
    70 vlan vlan ipv6+frag fragment | stop Ipv6RouteHeader 70 | cut;78 vlan vlan ipv6+frag+route fragment | cut;\
    126 vlan vlan ipv6+frag+route fragment
f20983bb72a3020000000001910000098100000586dd600fffff00182b0100000000000000000000000000000000ffffffffffffffffffff\
    ffffffffffff2c00327f7c90a73401000111000000081b90207bb96a2a5f;14 none | stop VlanHeader 14;\
    18 vlan | stop VlanHeader 18;22 vlan vlan | stop Ipv6Header 22;62 vlan vlan ipv6 | stop Ipv6RouteHeader 62 | cut;\
    70 vlan vlan ipv6+route | stop Ipv6FragHeader 70 | cut;78 vlan vlan ipv6+route+frag fragment | cut;\
    86 vlan vlan ipv6+route+frag fragment
02000000000202000000000188a800058100000908004500002400070000401100000a0000010a00000200010002001000000102030405060708;\
    14 none | stop VlanHeader 14;18 vlan | stop VlanHeader 18;22 vlan vlan | stop Ipv4Header 22;\
    42 vlan vlan ipv4 | stop UdpHeader 42 | cut;50 vlan vlan ipv4 udp | cut;58 vlan vlan ipv4 udp
0200000000020200000000019100000588a800068100000986dd6000000000101140fd000000000000000000000000000001fd0000000000\
    0000000000000000000200010002001000000102030405060708;14 none | stop VlanHeader 14;18 vlan | stop VlanHeader 18;\
    22 vlan vlan | stop VlanHeader 22;26 vlan vlan vlan | stop Ipv6Header 26;\
    66 vlan vlan vlan ipv6 | stop UdpHeader 66 | cut;74 vlan vlan vlan ipv6 udp | cut;82 vlan vlan vlan ipv6 udp
02000000000202000000000188a8000588e5000000000001810000078100000908004500002400070000401100000a0000010a0000020001\
    0002001000000102030405060708;14 none | stop VlanHeader 14;18 vlan | stop MacsecHeader 18;\
    26 vlan macsec | stop VlanHeader 26;30 vlan macsec vlan
0200000000020200000000018100000588e5002a000000018100000908004500002400070000401100000a0000010a000002000100020010\
    00000102030405060708;14 none | stop VlanHeader 14;18 vlan | stop MacsecHeader 18;\
    26 vlan macsec-short | stop VlanHeader 26;30 vlan macsec-short vlan | stop Ipv4Header 30;\
    50 vlan macsec-short vlan ipv4 | stop UdpHeader 50 | cut;58 vlan macsec-short vlan ipv4 udp | cut;\
    66 vlan macsec vlan ipv4 udp
0200000000020200000000018100000188e500010000000108004500002400070000401100000a0000010a00000200010002001000000102\
    030405060708;14 none | stop VlanHeader 14;18 vlan | stop MacsecHeader 18;24 vlan | stop MacsecHeader content
0200000000020200000000018100000308004500002400072000400100000a0000010a00000208000000000100020102030405060708;\
    14 none | stop VlanHeader 14;18 vlan | stop Ipv4Header 18;38 vlan ipv4 fragment | cut;54 vlan ipv4 fragment
0200000000020200000000018100000186dd6000000000641140fd000000000000000000000000000001fd00000000000000000000000000\
    000200010002001000000102030405060708;14 none | stop VlanHeader 14;18 vlan | stop Ipv6Header 18;\
    58 vlan ipv6 | stop UdpHeader 58 | cut;66 vlan ipv6 udp | cut
0200000000020200000000018100000208060006080002010002000000000000000000;14 none | stop VlanHeader 14;\
    18 vlan | stop Arp 18;32 vlan arp
";

#[test]
fn frames_with_vlan_tags(rt: HostRuntime) {
    rows_have_layers(rt, rt.alloc(), TAGGED);
}

#[rattlefmt::skip]
const PROTECTED: &str = "\
02000000000202000000000188e50c000000000108004500002400070000401166c00a0000010a000002000100020010dbb40102030405060708;\
    14 none | stop MacsecHeader 14;20 macsec-modified
02000000000202000000000188e500010000000108004500002400070000401166c00a0000010a000002000100020010dbb40102030405060708;\
    14 none | stop MacsecHeader 14;20 none | stop MacsecHeader content
02000000000202000000000188e500000000000108004500002400070000401166c00a0000010a000002000100020010dbb40102030405060708;\
    14 none | stop MacsecHeader 14;22 macsec | stop Ipv4Header 22;42 macsec ipv4 | stop UdpHeader 42 | cut;\
    50 macsec ipv4 udp | cut;58 macsec ipv4 udp
02000000000202000000000188e580000000000108004500002400070000401166c00a0000010a000002000100020010dbb40102030405060708;\
    14 none | stop MacsecHeader 14;20 none | stop MacsecHeader content
02000000000202000000000188e500040000000181000005ff;14 none | stop MacsecHeader 14;22 macsec-short | stop VlanHeader 22;\
    24 macsec | stop VlanHeader 22
f2b3b004253702000000000188e5510066e2bc9486dd6fffffff00240040fd000000000000000000000000000001fd000000000000000000\
    0000000000020000e49c22d89b573a00b06f2ce46d4a800000006507fff3000102030405060708090a0b;\
    14 none | stop MacsecHeader 14;22 macsec | stop Ipv6Header 22;62 macsec ipv6 | stop Ipv6HopByHopHeader 62 | cut;\
    70 macsec ipv6+hop | stop Ipv6HopByHopHeader content | cut;98 macsec ipv6+hop | stop Ipv6HopByHopHeader content
c44327598057838298215e8888e54300b170433a8100000988e503336f6c297186dd600fffff00652c01fd00000000000000000000000000\
    0001fd0000000000000000000000000000022cff0000c623a4780600000900000007b6d90050d9621b3ef3aefc6171868cd8ffff95bd0303\
    070104020000000102030405060708090a0b0c0d0e0f101112131415161718191a1b1c1d1e1f202122232425262728292a2b2c2d2e2f3031\
    32333435cec538f4cc1eae;14 none | stop MacsecHeader 14;22 macsec | stop VlanHeader 22;\
    26 macsec vlan | stop MacsecHeader 26;34 macsec vlan macsec-short | stop Ipv6Header 34;\
    74 macsec vlan macsec-short ipv6 | stop Ipv6FragHeader 74 | cut;\
    82 macsec vlan macsec-short ipv6+frag | stop Ipv6FragHeader 82 | cut;\
    83 macsec vlan macsec ipv6+frag | stop Ipv6FragHeader 82 | cut
02000000000202000000000288e501002b566ee486dd6fffffff00182c40fd000000000000000000000000000001fd000000000000000000\
    000000000002060000019a81d71b3b4e005076d2f745e138b2c69f109249;14 none | stop MacsecHeader 14;\
    22 macsec | stop Ipv6Header 22;62 macsec ipv6 | stop Ipv6FragHeader 62 | cut;70 macsec ipv6+frag fragment | cut;\
    86 macsec ipv6+frag fragment
02000000000102000000000288e5023fe82c630388e523c0bb1ac02c2ef5d5f5006b541b8100f00088a8000086dd600fffff00b10001fd00\
    0000000000000000000000000001fd0000000000000000000000000000022c006149b134a9b63cff0006bff7020d2c00d7de9a85998a1100\
    00010000000749a5536a00917d91fee72ff020e7e50b57bb96723e2ed19273338fdaf76a32467afeb1e5e9f5296d9cb742d89e11499457c2\
    d5f51895882faee08d827f06a51ad1a33f1ff4a89d66bbf6784e5bc6d346e114e9f636124dc1be6c4758694d2a1758baa8e4559c5997c6cd\
    38f786e3ab4435930e6b598cb449df9ad032fd0d47f89f8d16756c88c4fe6bd795a9f118497519a853fb3e306ce63655894c25ab90fceeb0\
    186d07efbb;14 none | stop MacsecHeader 14;22 macsec-short | stop MacsecHeader 22;\
    38 macsec-short macsec | stop VlanHeader 38;42 macsec-short macsec vlan;83 macsec macsec vlan
6706174942952ca54195bf1b88e50122ed2f1d4088a8100581000fff080045000017194a0000ff118e890a0000010a00000235ea4739;\
    14 none | stop MacsecHeader 14;22 macsec-short | stop VlanHeader 22;26 macsec-short vlan | stop VlanHeader 26;\
    30 macsec-short vlan vlan | stop Ipv4Header 30;50 macsec-short vlan vlan ipv4 | stop UdpHeader 50 | cut;\
    53 macsec-short vlan vlan ipv4 | stop UdpHeader 50;54 macsec vlan vlan ipv4 | stop UdpHeader 50
02000000000202000000000188e500007d2be8620806000108000d10000133c9a5f6ed38aa5392f9fca78d3f109d977faec2c815ddfb57b4\
    02159984410a8027a6356a87d6ec83a2d4be1ce4ff9890a2ecdd5be6ead2b68f87c80bf6828f6a09fe;14 none | stop MacsecHeader 14;\
    22 macsec | stop Arp 22;88 macsec arp
0200000000026771ad0d2ef088e500002bba8d9986dd6000000000053340fd000000000000000000000000000001fd000000000000000000\
    0000000000021104000076;14 none | stop MacsecHeader 14;22 macsec | stop Ipv6Header 22;\
    62 macsec ipv6 | stop IpAuthHeader 62 | cut;67 macsec ipv6 | stop IpAuthHeader 62
02000000000202000000000188e5202db8588a257e7ee32203acc6d586dd6ff00000000411fffd000000000000000000000000000001fd00\
    00000000000000000000000000027a9ee729024866e6;14 none | stop MacsecHeader 14;30 macsec-short | stop Ipv6Header 30;\
    70 macsec-short ipv6 | stop UdpHeader 70 | cut;73 macsec ipv6 | stop UdpHeader 70 | cut
d83c962cab7e02000000000188e5223af4226de2f6f41d0ac131530586dd6000000000102c40fd000000000000000000000000000001fd00\
    00000000000000000000000000021100000100000008d74c000200762ac44f00000000000000000000000000000000000000000000000000\
    0000000000000000000000;14 none | stop MacsecHeader 14;30 macsec-short | stop Ipv6Header 30;\
    70 macsec-short ipv6 | stop Ipv6FragHeader 70 | cut;78 macsec-short ipv6+frag fragment | cut;\
    86 macsec ipv6+frag fragment
02000000000202000000000188e500c03cb11da386dd70000000000801ff20010db8000000000000a5a5000000ffffffffffffffffffffff\
    ffffffffffff0c000000bb7247e2;14 none | stop MacsecHeader 14;22 macsec | stop Ipv6Header 22;\
    62 macsec | stop Ipv6Header content
02000000000202000000000188e562008ee44c20ee846d086bb7d4c486dd600fffff002706fffd000000000000000000000000000001fd00\
    0000000000000000000000000002269f0050f95d78aa10a649209082aa9bc62b0000080a0000000100000002020405b40000000102;\
    14 none | stop MacsecHeader 14;30 macsec | stop Ipv6Header 30;70 macsec ipv6 | stop TcpHeader 70 | cut;\
    106 macsec ipv6 tcp | cut;109 macsec ipv6 tcp
020000000001c7a364a530ce88e5123ff79f5f2188a8f00081000005eee669bfd3041087524406224a3c35d5224aa4880478a6b3df64b186\
    155dac8e6dd0461c6e9d93a5ea9c425fc5e8081ce2da399bda71551f2225ce8a92de94a9;14 none | stop MacsecHeader 14;\
    22 macsec-short | stop VlanHeader 22;26 macsec-short vlan | stop VlanHeader 26;30 macsec-short vlan vlan;\
    83 macsec vlan vlan
02000000000202000000000188e500260000000108004500002400070000401100000a0000010a00000200010002001000000102030405060708;\
    14 none | stop MacsecHeader 14;22 macsec-short | stop Ipv4Header 22;42 macsec-short ipv4 | stop UdpHeader 42 | cut;\
    50 macsec-short ipv4 udp | cut;58 macsec ipv4 udp
02000000000202000000000188e5202600000001000102030405060708004500002400070000401100000a0000010a000002000100020010\
    00000102030405060708000000000000;14 none | stop MacsecHeader 14;30 macsec-short | stop Ipv4Header 30;\
    50 macsec-short ipv4 | stop UdpHeader 50 | cut;58 macsec-short ipv4 udp | cut;66 macsec ipv4 udp
02000000000202000000000188e500180000000108004500002400070000401100000a0000010a00000200010002001000000102030405060708;\
    14 none | stop MacsecHeader 14;22 macsec-short | stop Ipv4Header 22;42 macsec-short ipv4 | stop UdpHeader 42 | cut;\
    44 macsec ipv4 | stop UdpHeader 42 | cut
02000000000202000000000188e500020000000108004500002400070000401100000a0000010a00000200010002001000000102030405060708;\
    14 none | stop MacsecHeader 14;22 macsec | stop Ipv4Header 22
02000000000202000000000188e5002f0000000108004500002400070000401100000a0000010a00000200010002001000000102030405060708;\
    14 none | stop MacsecHeader 14;22 macsec-short | stop Ipv4Header 22;42 macsec-short ipv4 | stop UdpHeader 42 | cut;\
    50 macsec-short ipv4 udp | cut;58 macsec-short ipv4 udp
02000000000202000000000188e5200000000001000102030405060708004500002400070000401100000a0000010a000002000100020010\
    00000102030405060708;14 none | stop MacsecHeader 14;30 macsec | stop Ipv4Header 30;\
    50 macsec ipv4 | stop UdpHeader 50 | cut;58 macsec ipv4 udp | cut;66 macsec ipv4 udp
02000000000202000000000188e50c0a00000001000000000000000000000000;14 none | stop MacsecHeader 14;\
    20 macsec-modified-short;30 macsec-modified
02000000000202000000000188e5080100000001000000;14 none | stop MacsecHeader 14;20 macsec-modified-short;\
    21 macsec-modified
02000000000202000000000188e52400000000010001020304050607000000000000000000000000;14 none | stop MacsecHeader 14;\
    28 macsec-modified
02000000000202000000000188e5003e0000000186dd6000000000001140fd000000000000000000000000000001fd000000000000000000\
    00000000000200010002001c00000000000000000000000000000000000000000000;14 none | stop MacsecHeader 14;\
    22 macsec-short | stop Ipv6Header 22;62 macsec-short ipv6 | stop UdpHeader 62;70 macsec-short ipv6 udp;\
    82 macsec ipv6 udp
02000000000202000000000188e580000000000108004500002400070000401100000a0000010a00000200010002001000000102030405060708;\
    14 none | stop MacsecHeader 14;20 none | stop MacsecHeader content
02000000000202000000000188e5001600000001080600010800060400010200000000010a0000010000000000000a000002;\
    14 none | stop MacsecHeader 14;22 macsec-short | stop Arp 22;42 macsec | stop Arp 22
02000000000202000000000188e5002e0000000108004500001c00070000401100000a0000010a0000020001000200080000;\
    14 none | stop MacsecHeader 14;22 macsec-short | stop Ipv4Header 22;42 macsec-short ipv4 | stop UdpHeader 42 | cut;\
    50 macsec-short ipv4 udp
02000000000202000000000188e500280000000188e5001e0000000108004500001c00070000401100000a0000010a0000020001000200080000;\
    14 none | stop MacsecHeader 14;22 macsec-short | stop MacsecHeader 22;\
    30 macsec-short macsec-short | stop Ipv4Header 30;50 macsec-short macsec-short ipv4 | stop UdpHeader 50 | cut;\
    58 macsec-short macsec ipv4 udp
02000000000202000000000188e500000000000188e500000000000188e50000000000018100000108004500002400070000401100000a00\
    00010a00000200010002001000000102030405060708;14 none | stop MacsecHeader 14;22 macsec | stop MacsecHeader 22;\
    30 macsec macsec | stop MacsecHeader 30;38 macsec macsec macsec
";

#[test]
fn frames_with_macsec(rt: HostRuntime) {
    rows_have_layers(rt, rt.alloc(), PROTECTED);
}

#[rattlefmt::skip]
const OVER_IPV4: &str = "\
02000000000202000000000108004500001c00072000401146c80a0000010a000002000100020010dbb4;14 none | stop Ipv4Header 14;\
    34 ipv4 fragment | cut;42 ipv4 fragment
02000000000202000000000108004500001c00070001401166c70a0000010a0000020102030405060709;14 none | stop Ipv4Header 14;\
    34 ipv4 fragment | cut;42 ipv4 fragment
02000000000202000000000108004500001c00070001401166c70a0000010a0000020102030405060708;14 none | stop Ipv4Header 14;\
    34 ipv4 fragment | cut;42 ipv4 fragment
02000000000202000000000108004500001c00070002401166c60a0000010a0000020102030405060708;14 none | stop Ipv4Header 14;\
    34 ipv4 fragment | cut;42 ipv4 fragment
02000000000202000000000108004500001c00072000401146c80a0000010a000002000100020020dbb4;14 none | stop Ipv4Header 14;\
    34 ipv4 fragment | cut;42 ipv4 fragment
02000000000202000000000108004500002400070000401100000a0000010a000002000100020010dbb40102030405060708;\
    14 none | stop Ipv4Header 14;34 ipv4 | stop UdpHeader 34 | cut;42 ipv4 udp | cut;50 ipv4 udp
02000000000202000000000108006500002400070000401100000a0000010a000002000100020010dbb40102030405060708;\
    14 none | stop Ipv4Header 14;34 none | stop Ipv4Header content
02000000000202000000000108004400002400070000401100000a0000010a000002000100020010dbb40102030405060708;\
    14 none | stop Ipv4Header 14;34 none | stop Ipv4Header content
02000000000202000000000108004000002400070000401100000a0000010a000002000100020010dbb40102030405060708;\
    14 none | stop Ipv4Header 14;34 none | stop Ipv4Header content
02000000000202000000000108004500001300070000401100000a0000010a000002000100020010dbb40102030405060708;\
    14 none | stop Ipv4Header 14;34 ipv4 | stop UdpHeader 34;42 ipv4 udp
02000000000202000000000108004500002500070000401100000a0000010a000002000100020010dbb40102030405060708;\
    14 none | stop Ipv4Header 14;34 ipv4 | stop UdpHeader 34 | cut;42 ipv4 udp | cut
02000000000202000000000108004500001400070000401100000a0000010a000002;14 none | stop Ipv4Header 14;\
    34 ipv4 | stop UdpHeader 34
02000000000202000000000108004600002800070000401100000a0000010a00000201010101000100020010dbb40102030405060708;\
    14 none | stop Ipv4Header 14;38 ipv4 | stop UdpHeader 38 | cut;46 ipv4 udp | cut;54 ipv4 udp
02000000000202000000000108004500002400074000401100000a0000010a000002000100020010dbb40102030405060708;\
    14 none | stop Ipv4Header 14;34 ipv4 | stop UdpHeader 34 | cut;42 ipv4 udp | cut;50 ipv4 udp
02000000000202000000000108004500002400078000401100000a0000010a000002000100020010dbb40102030405060708;\
    14 none | stop Ipv4Header 14;34 ipv4 | stop UdpHeader 34 | cut;42 ipv4 udp | cut;50 ipv4 udp
02000000000202000000000108004500002400070100401100000a0000010a000002000100020010dbb40102030405060708;\
    14 none | stop Ipv4Header 14;34 ipv4 fragment | cut;50 ipv4 fragment
02000000000202000000000108004500002400070000403300000a0000010a000002000100020010dbb40102030405060708;\
    14 none | stop Ipv4Header 14;34 ipv4 | stop IpAuthHeader 34 | cut;46 ipv4+auth | cut;50 ipv4+auth
02000000000202000000000108004500002400070000401100000a0000010a00000200010002000712340102030405060708;\
    14 none | stop Ipv4Header 14;34 ipv4 | stop UdpHeader 34 | cut;42 ipv4 udp | cut;50 ipv4 udp
02000000000202000000000108004500002400070000401100000a0000010a00000200010002000112340102030405060708;\
    14 none | stop Ipv4Header 14;34 ipv4 | stop UdpHeader 34 | cut;42 ipv4 udp | cut;50 ipv4 udp
02000000000202000000000108004500011400070000401100000a0000010a000002000100020100c2c1abababababababababababababab\
    abababababababababababababababababababababababababababababababababababababababababababababababababababababababab\
    abababababababababababababababababababababababababababababababababababababababababababababababababababababababab\
    abababababababababababababababababababababababababababababababababababababababababababababababababababababababab\
    abababababababababababababababababababababababababababababababababababababababababababababababababababababababab\
    abababababababababab;14 none | stop Ipv4Header 14;34 ipv4 | stop UdpHeader 34 | cut;42 ipv4 udp | cut;290 ipv4 udp
02000000000202000000000108004500002400070000401100000a0000010a00000200010002001112340102030405060708;\
    14 none | stop Ipv4Header 14;34 ipv4 | stop UdpHeader 34 | cut;42 ipv4 udp | cut;50 ipv4 udp
02000000000202000000000108004500001b00070000401100000a0000010a00000200010002000000;14 none | stop Ipv4Header 14;\
    34 ipv4 | stop UdpHeader 34 | cut;41 ipv4 | stop UdpHeader 34
02000000000202000000000108004500001c00070000401100000a0000010a000002000100020008ebd8;14 none | stop Ipv4Header 14;\
    34 ipv4 | stop UdpHeader 34 | cut;42 ipv4 udp
02000000000202000000000108004500001f00070000401100000a0000010a00000200010002000bebcf0102ff;\
    14 none | stop Ipv4Header 14;34 ipv4 | stop UdpHeader 34 | cut;42 ipv4 udp | cut;45 ipv4 udp
02000000000202000000000108004500002400070000401100000a0000010a00000200010002001012340102030405060708;\
    14 none | stop Ipv4Header 14;34 ipv4 | stop UdpHeader 34 | cut;42 ipv4 udp | cut;50 ipv4 udp
02000000000202000000000108004500001e00070000401100000a0000010a00000200010002000affffebd4;14 none | stop Ipv4Header 14;\
    34 ipv4 | stop UdpHeader 34 | cut;42 ipv4 udp | cut;44 ipv4 udp
0200000000020200000000010800440000240007000040fd00000a0000010a000002000100020010dbb40102030405060708;\
    14 none | stop Ipv4Header 14;34 none | stop Ipv4Header content
0200000000020200000000010800400000240007000040fd00000a0000010a000002000100020010dbb40102030405060708;\
    14 none | stop Ipv4Header 14;34 none | stop Ipv4Header content
0200000000020200000000010800450000130007000040fd00000a0000010a000002000100020010dbb40102030405060708;\
    14 none | stop Ipv4Header 14;34 ipv4
0200000000020200000000010800460000170007000040fd00000a0000010a000002000100020010dbb40102030405060708;\
    14 none | stop Ipv4Header 14;38 ipv4
0200000000020200000000010800450000130000000000fd000000000000000000;14 none | stop Ipv4Header 14
020000000002020000000001080045000013000000000000000000000000000000;14 none | stop Ipv4Header 14
02000000000202000000000108004500002400070000401166c00a0000010a000002000100020010dbb40102030405060708000000000000;\
    14 none | stop Ipv4Header 14;34 ipv4 | stop UdpHeader 34 | cut;42 ipv4 udp | cut;50 ipv4 udp
02000000000202000000000108004500002400070000401166c00a0000010a000002000100020010ebc80000000000000000;\
    14 none | stop Ipv4Header 14;34 ipv4 | stop UdpHeader 34 | cut;42 ipv4 udp | cut;50 ipv4 udp
02000000000202000000000108004500002400070000401166c00a0000010a000002000100020010ebc8ffff000000000000;\
    14 none | stop Ipv4Header 14;34 ipv4 | stop UdpHeader 34 | cut;42 ipv4 udp | cut;50 ipv4 udp
02000000000202000000000108004500002400070000401166c00a0000010a000002000100020000dbc40102030405060708;\
    14 none | stop Ipv4Header 14;34 ipv4 | stop UdpHeader 34 | cut;42 ipv4 udp | cut;50 ipv4 udp
02000000000202000000000108004500002400070000401166c00a0000010a000002000100020008ebd80102030405060708;\
    14 none | stop Ipv4Header 14;34 ipv4 | stop UdpHeader 34 | cut;42 ipv4 udp | cut;50 ipv4 udp
02000000000202000000000108004500002400070000401166c00a0000010a00000200010002001000000102030405060708;\
    14 none | stop Ipv4Header 14;34 ipv4 | stop UdpHeader 34 | cut;42 ipv4 udp | cut;50 ipv4 udp
02000000000202000000000108004500002400070000401166c00a0000010a000002000100020010dbb40102030405060709;\
    14 none | stop Ipv4Header 14;34 ipv4 | stop UdpHeader 34 | cut;42 ipv4 udp | cut;50 ipv4 udp
02000000000202000000000108004500002400070000401166c00a0000010a00000200010002001100000102030405060708;\
    14 none | stop Ipv4Header 14;34 ipv4 | stop UdpHeader 34 | cut;42 ipv4 udp | cut;50 ipv4 udp
02000000000202000000000108004500002400070000401166c00a0000010a00000200010002000700000102030405060708;\
    14 none | stop Ipv4Header 14;34 ipv4 | stop UdpHeader 34 | cut;42 ipv4 udp | cut;50 ipv4 udp
0200000000020200000000010800450000140007200040fd00000a0000010a000002;14 none | stop Ipv4Header 14;34 ipv4 fragment
0200000000020200000000010800450000140007000140fd00000a0000010a000002;14 none | stop Ipv4Header 14;34 ipv4 fragment
02000000000202000000000108004500001c0007200040fd00000a0000010a0000020102030405060708;14 none | stop Ipv4Header 14;\
    34 ipv4 fragment | cut;42 ipv4 fragment
02000000000202000000000108004500001c00071fff401146c90a0000010a0000020102030405060708;14 none | stop Ipv4Header 14;\
    34 ipv4 fragment | cut;42 ipv4 fragment
0200000000020200000000010800450000540007200840fd00000a0000010a00000200000000000000000000000000000000000000000000\
    000000000000000000000000000000000000000000000000000000000000000000000000000000000000;14 none | stop Ipv4Header 14;\
    34 ipv4 fragment | cut;98 ipv4 fragment
02000000000202000000000108004500002c0007000140fd00000a0000010a000002000000000000000000000000000000000000000000000000;\
    14 none | stop Ipv4Header 14;34 ipv4 fragment | cut;58 ipv4 fragment
02000000000202000000000108004500001c0007200040fd00000a0000010a0000020000000000000000;14 none | stop Ipv4Header 14;\
    34 ipv4 fragment | cut;42 ipv4 fragment
0200000000020200000000010800450000340007200440fd00000a0000010a00000200000000000000000000000000000000000000000000\
    00000000000000000000;14 none | stop Ipv4Header 14;34 ipv4 fragment | cut;66 ipv4 fragment
02000000000202000000000108004500001c00070000400166d80a0000010a0000020000000000000000;14 none | stop Ipv4Header 14;\
    34 ipv4 | stop Icmpv4 34 | cut;42 ipv4 icmpv4
02000000000202000000000108004500001c00070000400166d80a0000010a000002ffff000000000000;14 none | stop Ipv4Header 14;\
    34 ipv4 | stop Icmpv4 34 | cut;42 ipv4 icmpv4
02000000000202000000000108004500001c00070000400166d80a0000010a000002ffffffff00000000;14 none | stop Ipv4Header 14;\
    34 ipv4 | stop Icmpv4 34 | cut;42 ipv4 icmpv4
02000000000202000000000108004500001c00070000400100000a0000010a0000020d00000000000000;14 none | stop Ipv4Header 14;\
    34 ipv4 | stop Icmpv4 34 | cut;42 ipv4 | stop Icmpv4 34
02000000000202000000000108004500001c00070000403a00000a0000010a0000028000000000000000;14 none | stop Ipv4Header 14;\
    34 ipv4 | stop Icmpv6 34 | cut;42 ipv4 icmpv6
0200000000020200000000010800450000540007200040fd45a40a0000010a000002000102030405060708090a0b0c0d0e0f101112131415\
    161718191a1b1c1d1e1f202122232425262728292a2b2c2d2e2f303132333435363738393a3b3c3d3e3f;14 none | stop Ipv4Header 14;\
    34 ipv4 fragment | cut;98 ipv4 fragment
0200000000020200000000010800450000240007000440fd65d00a0000010a000002ffffffffffffffffffffffffffffffff;\
    14 none | stop Ipv4Header 14;34 ipv4 fragment | cut;50 ipv4 fragment
02000000000202000000000108004500002800070000400666c70a0000010a0000020001000200000003000000004002040097da0000;\
    14 none | stop Ipv4Header 14;34 ipv4 | stop TcpHeader 34 | cut;54 ipv4 | stop TcpHeader content
02000000000202000000000108004500002800070000400666c70a0000010a0000020001000200000003000000005e02040089da0000;\
    14 none | stop Ipv4Header 14;34 ipv4 | stop TcpHeader 34 | cut;54 ipv4 tcp
02000000000202000000000108004500001800070002400666d50a0000010a00000297da0000;14 none | stop Ipv4Header 14;\
    34 ipv4 fragment | cut;38 ipv4 fragment
02000000000202000000000108004500001c00072000400646d30a0000010a0000020001000200000003;14 none | stop Ipv4Header 14;\
    34 ipv4 fragment | cut;42 ipv4 fragment
02000000000202000000000108004500001c00072001400646d20a0000010a0000020000000050020400;14 none | stop Ipv4Header 14;\
    34 ipv4 fragment | cut;42 ipv4 fragment
02000000000202000000000108004500001b00072000401146c90a0000010a00000200010002001000;14 none | stop Ipv4Header 14;\
    34 ipv4 fragment | cut;41 ipv4 fragment
02000000000202000000000108004500002800070000400666c70a0000010a0000020001000200000003000000005002040097da0000;\
    14 none | stop Ipv4Header 14;34 ipv4 | stop TcpHeader 34 | cut;54 ipv4 tcp
020000000001020000000001080045ff002f60fa0000010243d20a0000010a000002000102030405060708090a0b0c0d0e0f101100001415\
    161718191a;14 none | stop Ipv4Header 14;34 ipv4 | cut;61 ipv4
020000000001020000000002080045fc001d00080000ff3aa6a00a0000010a00000200000000000000005f;14 none | stop Ipv4Header 14;\
    34 ipv4 | stop Icmpv6 34 | cut;42 ipv4 icmpv6 | cut;43 ipv4 icmpv6
02000000000202000000000108004700004000070000400600000a0000010a00000201010100940400000001000200000003000000007002\
    040000000000020405b4010101000102030405060708;14 none | stop Ipv4Header 14;42 ipv4 | stop TcpHeader 42 | cut;\
    70 ipv4 tcp | cut;78 ipv4 tcp
02000000000202000000000108004500003c00070000403300000a0000010a00000211040000000001000000000100010203040506070809\
    0a0b00010002001000000102030405060708;14 none | stop Ipv4Header 14;34 ipv4 | stop IpAuthHeader 34 | cut;\
    58 ipv4+auth | stop UdpHeader 58 | cut;66 ipv4+auth udp | cut;74 ipv4+auth udp
02000000000202000000000108004600003400072000403300000a0000010a00000200000000110100000000010000000001000100020010\
    00000102030405060708;14 none | stop Ipv4Header 14;38 ipv4 fragment | stop IpAuthHeader 38 | cut;\
    50 ipv4+auth fragment | cut;66 ipv4+auth fragment
02000000000202000000000108004500003000070000403300000a0000010a00000211000000000001000000000100010002001000000102\
    030405060708;14 none | stop Ipv4Header 14;34 ipv4 | stop IpAuthHeader 34 | cut;\
    46 ipv4 | stop IpAuthHeader content | cut;62 ipv4 | stop IpAuthHeader content
02000000000202000000000108004500002e00070000403300000a0000010a00000211050000000001000000000100010203040506070809\
    0a0b0c0d0e0f00010002001000000102030405060708;14 none | stop Ipv4Header 14;34 ipv4 | stop IpAuthHeader 34 | cut;\
    60 ipv4 | stop IpAuthHeader 34
02000000000202000000000108004500002400070010401100000a0000010a00000200010002001000000102030405060708;\
    14 none | stop Ipv4Header 14;34 ipv4 fragment | cut;50 ipv4 fragment
02000000000202000000000108004500002400074000401100000a0000010a00000200010002001000000102030405060708;\
    14 none | stop Ipv4Header 14;34 ipv4 | stop UdpHeader 34 | cut;42 ipv4 udp | cut;50 ipv4 udp
02000000000202000000000108004500002800078000400600000a0000010a0000020001000200000003000000005002040000000000;\
    14 none | stop Ipv4Header 14;34 ipv4 | stop TcpHeader 34 | cut;54 ipv4 tcp
02000000000202000000000108004500001300070000401100000a0000010a00000200010002001000000102030405060708;\
    14 none | stop Ipv4Header 14;34 ipv4 | stop UdpHeader 34;42 ipv4 udp
02000000000202000000000108004500000000070000401100000a0000010a00000200010002001000000102030405060708;\
    14 none | stop Ipv4Header 14;34 ipv4 | stop UdpHeader 34;42 ipv4 udp
02000000000202000000000108004500001400070000401100000a0000010a00000200010002001000000102030405060708;\
    14 none | stop Ipv4Header 14;34 ipv4 | stop UdpHeader 34
02000000000202000000000108004500001b00070000401100000a0000010a00000200010002001000000102030405060708;\
    14 none | stop Ipv4Header 14;34 ipv4 | stop UdpHeader 34 | cut;41 ipv4 | stop UdpHeader 34
02000000000202000000000108004500003c00070000401100000a0000010a00000200010002001000000102030405060708;\
    14 none | stop Ipv4Header 14;34 ipv4 | stop UdpHeader 34 | cut;42 ipv4 udp | cut
02000000000202000000000108004500002800070000400600000a0000010a00000200010002000000030000000050020400000000000000\
    00000000;14 none | stop Ipv4Header 14;34 ipv4 | stop TcpHeader 34 | cut;54 ipv4 tcp
02000000000202000000000108004400002400070000401100000a0000010a00000200010002001000000102030405060708;\
    14 none | stop Ipv4Header 14;34 none | stop Ipv4Header content
02000000000202000000000108004f00003000070000401100000a0000010a00000200010002001c00000000000000000000000000000000\
    000000000000;14 none | stop Ipv4Header 14
02000000000202000000000108004600001600070000401100000a0000010a0000020000000000010002001000000102030405060708;\
    14 none | stop Ipv4Header 14;38 ipv4 | stop UdpHeader 38;46 ipv4 udp
02000000000202000000000108006000000000101140fd000000000000000000000000000001fd0000000000000000000000000000020001\
    0002001000000102030405060708;14 none | stop Ipv4Header 14;34 none | stop Ipv4Header content
02000000000202000000000108004500002400070000401100000a0000010a00000200010002000000000102030405060708;\
    14 none | stop Ipv4Header 14;34 ipv4 | stop UdpHeader 34 | cut;42 ipv4 udp | cut;50 ipv4 udp
02000000000202000000000108004500002400070000401100000a0000010a00000200010002000400000102030405060708;\
    14 none | stop Ipv4Header 14;34 ipv4 | stop UdpHeader 34 | cut;42 ipv4 udp | cut;50 ipv4 udp
02000000000202000000000108004500002400070000401100000a0000010a00000200010002000700000102030405060708;\
    14 none | stop Ipv4Header 14;34 ipv4 | stop UdpHeader 34 | cut;42 ipv4 udp | cut;50 ipv4 udp
02000000000202000000000108004500002400070000401100000a0000010a00000200010002001100000102030405060708;\
    14 none | stop Ipv4Header 14;34 ipv4 | stop UdpHeader 34 | cut;42 ipv4 udp | cut;50 ipv4 udp
02000000000202000000000108004500003000070000400600000a0000010a000002000100020000000300000000f0020400000000000102\
    030405060708;14 none | stop Ipv4Header 14;34 ipv4 | stop TcpHeader 34 | cut;62 ipv4 | stop TcpHeader 34
02000000000202000000000108004500002800070000400100000a0000010a0000020d00000000010002000102030405060708090a0b;\
    14 none | stop Ipv4Header 14;34 ipv4 | stop Icmpv4 34 | cut;54 ipv4 icmpv4
02000000000202000000000108004500002800070000400100000a0000010a0000020e00000000010002000102030405060708090a0b;\
    14 none | stop Ipv4Header 14;34 ipv4 | stop Icmpv4 34 | cut;54 ipv4 icmpv4
02000000000202000000000108004500002a00070000400100000a0000010a0000020d00000000010002000102030405060708090a0b0000;\
    14 none | stop Ipv4Header 14;34 ipv4 | stop Icmpv4 34 | cut;54 ipv4 icmpv4 | cut;55 ipv4 | stop Icmpv4 34 | cut;\
    56 ipv4 | stop Icmpv4 34
02000000000202000000000108004500002800070000400100000a0000010a0000020d00000000010002000102030405060708090a0b0000;\
    14 none | stop Ipv4Header 14;34 ipv4 | stop Icmpv4 34 | cut;54 ipv4 icmpv4
02000000000202000000000108004500002800070000400100000a0000010a0000020d01000000010002000102030405060708090a0b;\
    14 none | stop Ipv4Header 14;34 ipv4 | stop Icmpv4 34 | cut;42 ipv4 icmpv4 | cut;54 ipv4 icmpv4
02000000000202000000000108004500000000070000400100000a0000010a0000020d00000000010002000102030405060708090a0b00;\
    14 none | stop Ipv4Header 14;34 ipv4 | stop Icmpv4 34;54 ipv4 icmpv4;55 ipv4 | stop Icmpv4 34
02000000000202000000000108004500001c00070000403a00000a0000010a0000020d00000000010002;14 none | stop Ipv4Header 14;\
    34 ipv4 | stop Icmpv6 34 | cut;42 ipv4 icmpv6
";

#[test]
fn frames_with_ipv4(rt: HostRuntime) {
    rows_have_layers(rt, rt.alloc(), OVER_IPV4);
}

#[rattlefmt::skip]
const OVER_IPV6: &str = "\
02000000000202000000000186dd6000000000182c40fd000000000000000000000000000001fd0000000000000000000000000000023c00\
    0001000000071100010400000000000100020010f5b2;14 none | stop Ipv6Header 14;54 ipv6 | stop Ipv6FragHeader 54 | cut;\
    62 ipv6+frag fragment | stop Ipv6DestOptionsHeader 62 | cut;70 ipv6+frag+dest fragment | cut;\
    78 ipv6+frag+dest fragment
02000000000202000000000186dd6000000000102c40fd000000000000000000000000000001fd0000000000000000000000000000023c00\
    0010000000070102030405060708;14 none | stop Ipv6Header 14;54 ipv6 | stop Ipv6FragHeader 54 | cut;\
    62 ipv6+frag fragment | stop Ipv6DestOptionsHeader 62 | cut;70 ipv6+frag fragment | stop Ipv6DestOptionsHeader 62
02000000000202000000000186dd6000000000080140fd000000000000000000000000000001fd000000000000000000000000000002ffff\
    000000000000;14 none | stop Ipv6Header 14;54 ipv6 | stop Icmpv4 54 | cut;62 ipv6 icmpv4
02000000000202000000000186dd600000000000fd40fd000000000000000000000000000001fd0000000000000000000000000000020000\
    00000000;14 none | stop Ipv6Header 14;54 ipv6
02000000000202000000000186dd6000000000102c40fd000000000000000000000000000001fd0000000000000000000000000000021100\
    0009000000070102030405060708;14 none | stop Ipv6Header 14;54 ipv6 | stop Ipv6FragHeader 54 | cut;\
    62 ipv6+frag fragment | cut;70 ipv6+frag fragment
02000000000202000000000186dd6000000000102c40fd000000000000000000000000000001fd0000000000000000000000000000021100\
    0008000000070102030405060708;14 none | stop Ipv6Header 14;54 ipv6 | stop Ipv6FragHeader 54 | cut;\
    62 ipv6+frag fragment | cut;70 ipv6+frag fragment
02000000000202000000000186dd6000000000102c40fd000000000000000000000000000001fd0000000000000000000000000000021100\
    000100000007000100020010f5b2;14 none | stop Ipv6Header 14;54 ipv6 | stop Ipv6FragHeader 54 | cut;\
    62 ipv6+frag fragment | cut;70 ipv6+frag fragment
02000000000202000000000186dd6000000000102c40fd000000000000000000000000000001fd0000000000000000000000000000021100\
    0011000000070102030405060708;14 none | stop Ipv6Header 14;54 ipv6 | stop Ipv6FragHeader 54 | cut;\
    62 ipv6+frag fragment | cut;70 ipv6+frag fragment
02000000000202000000000186dd6000000000102c40fd000000000000000000000000000001fd0000000000000000000000000000021100\
    000100000007000100020010f5b3;14 none | stop Ipv6Header 14;54 ipv6 | stop Ipv6FragHeader 54 | cut;\
    62 ipv6+frag fragment | cut;70 ipv6+frag fragment
02000000000202000000000186dd6000000000140640fd000000000000000000000000000001fd0000000000000000000000000000020001\
    0002000000030000000050020400b1d80000;14 none | stop Ipv6Header 14;54 ipv6 | stop TcpHeader 54 | cut;74 ipv6 tcp
02000000000202000000000186dd6000000000101140fd000000000000000000000000000001fd0000000000000000000000000000020001\
    00020010f5b20102030405060708;14 none | stop Ipv6Header 14;54 ipv6 | stop UdpHeader 54 | cut;62 ipv6 udp | cut;\
    70 ipv6 udp
02000000000102000000000286dd6000000000012bfffd000000000000000000000000000001fd00000000000000000000000000000200;\
    14 none | stop Ipv6Header 14;54 ipv6 | stop Ipv6RouteHeader 54 | cut;55 ipv6 | stop Ipv6RouteHeader 54
02000000000102000000000186dd6ff00000001a0140fd000000000000000000000000000001fd0000000000000000000000000000022e07\
    b2bb1c8d02b0000000000000000000000000000000000000;14 none | stop Ipv6Header 14;54 ipv6 | stop Icmpv4 54 | cut;\
    62 ipv6 icmpv4 | cut;80 ipv6 icmpv4
02000000000202000000000186dd600fffff006f2cfffd000000000000000000000000000001fd0000000000000000000000000000022c00\
    0008ffffffff060000002956c91194090050dcfadfe928f523739075a7a183cf9c43080a0000000100000002020405b40000000000000000\
    000000000000ffff000000000000000000000000000000000000000000000000000000000000000000000000000000000000000000000000\
    0000000000000000000000000000000000000000;14 none | stop Ipv6Header 14;54 ipv6 | stop Ipv6FragHeader 54 | cut;\
    62 ipv6+frag fragment | stop Ipv6FragHeader 62 | cut;70 ipv6+frag+frag fragment | cut;165 ipv6+frag+frag fragment
020000000001389adbe7bdca86dd6ff0000000000601fd000000000000000000000000000001fd000000000000000000000000000002e4dc\
    00503da042744b85b2875181a962e452a52fff;14 none | stop Ipv6Header 14;54 ipv6 | stop TcpHeader 54;74 ipv6 tcp
e39855a3e44e02000000000286dd6ff0000000203cfffd000000000000000000000000000001fd0000000000000000000000000000022c00\
    30b80fda51f4fd000001771efe3347a73b4dce070f8a9036271304e5c777;14 none | stop Ipv6Header 14;\
    54 ipv6 | stop Ipv6DestOptionsHeader 54 | cut;62 ipv6+dest | stop Ipv6FragHeader 62 | cut;\
    70 ipv6+dest+frag fragment | cut;86 ipv6+dest+frag fragment
02000000000102000000000286dd6ff00000002b2cfffd000000000000000000000000000001fd0000000000000000000000000000022b00\
    00109a81d71b0601c4bc7e070fe9fcdd1129d8144d2c0000bf850303070104020000ffffffffffffff;14 none | stop Ipv6Header 14;\
    54 ipv6 | stop Ipv6FragHeader 54 | cut;62 ipv6+frag fragment | stop Ipv6RouteHeader 62 | cut;\
    78 ipv6+frag+route fragment | cut;97 ipv6+frag+route fragment
02000000000202000000000286dd6ff0000000280001fd000000000000000000000000000001fd0000000000000000000000000000023c00\
    482cdf23bd992b00bd96e38023332c0193bead3af68e32ceda4bc2a32404fd000011771efe33;14 none | stop Ipv6Header 14;\
    54 ipv6 | stop Ipv6HopByHopHeader 54 | cut;62 ipv6+hop | stop Ipv6DestOptionsHeader 62 | cut;\
    70 ipv6+hop+dest | stop Ipv6RouteHeader 70 | cut;86 ipv6+hop+dest+route | stop Ipv6FragHeader 86 | cut;\
    94 ipv6+hop+dest+route+frag fragment
02000000000202000000000286dd600fffff001b2cfffd000000000000000000000000000001fd0000000000000000000000000000022c00\
    00009a81d71b06ff00007e2e236332efa5b165da888563a610;14 none | stop Ipv6Header 14;\
    54 ipv6 | stop Ipv6FragHeader 54 | cut;62 ipv6+frag | stop Ipv6FragHeader 62 | cut;\
    70 ipv6+frag+frag | stop TcpHeader 70 | cut;81 ipv6+frag+frag | stop TcpHeader 70
387df80bdc2a14dbd5ca95bd86dd60000000003800fffd000000000000000000000000000001fd0000000000000000000000000000023c00\
    96c88faedcc02b0042229e07c0672c00d6859474fe94fd000010771efe332db42123382ddb0cd0f43b5684e9629e243aabe1f813b142;\
    14 none | stop Ipv6Header 14;54 ipv6 | stop Ipv6HopByHopHeader 54 | cut;\
    62 ipv6+hop | stop Ipv6DestOptionsHeader 62 | cut;70 ipv6+hop+dest | stop Ipv6RouteHeader 70 | cut;\
    78 ipv6+hop+dest+route | stop Ipv6FragHeader 78 | cut;86 ipv6+hop+dest+route+frag fragment | cut;\
    110 ipv6+hop+dest+route+frag fragment
020000000001193cf767c71286dd600fffff00322cfffd000000000000000000000000000001fd0000000000000000000000000000023c00\
    0000bf55cf283c00f643a408710e3a0027e7e0c8358f0000ffff16f186a7e1f6b2bdbacc034d3eb15a0584da8a2e6d80f7aa42a5e3339807\
    332848f699db0ec9042df072;14 none | stop Ipv6Header 14;54 ipv6 | stop Ipv6FragHeader 54 | cut;\
    62 ipv6+frag | stop Ipv6DestOptionsHeader 62 | cut;70 ipv6+frag+dest | stop Ipv6DestOptionsHeader 70 | cut;\
    78 ipv6+frag+dest+dest | stop Icmpv6 78 | cut;86 ipv6+frag+dest+dest icmpv6 | cut;104 ipv6+frag+dest+dest icmpv6
02000000000102000000000186dd6ff0000000382c4020010db8000000000000a5a5000000fffd0000000000000000000000000000012cff\
    00060e7a0e7511ff00068bf16b6a09aa00350030511f0000000000000000000000000000000000000000000000000000000000000000;\
    14 none | stop Ipv6Header 14;54 ipv6 | stop Ipv6FragHeader 54 | cut;62 ipv6+frag | stop Ipv6FragHeader 62 | cut;\
    70 ipv6+frag+frag | stop UdpHeader 70 | cut;78 ipv6+frag+frag udp | cut;110 ipv6+frag+frag udp
0fea4d079d8302000000000186dd6000000000a733fffd000000000000000000000000000001fd0000000000000000000000000000023c04\
    ffffaf45efb1f3ddc6a6db41be710494234d6fe4cb062b011007c15b1bb5994cc69cd470d2a53a02f8348c88c300ec1b80e50d3f88387ef0\
    b5aa044388a00200cc1805f4314d000000000000000000000000000000000000000000000000000000000000000000000000000000000000\
    0000000000000000000000000000000000000000000000000000000000000000000000000000000000000000000000000000000000;\
    14 none | stop Ipv6Header 14;54 ipv6 | stop IpAuthHeader 54 | cut;\
    78 ipv6+auth | stop Ipv6DestOptionsHeader 78 | cut;94 ipv6+auth+dest | stop Ipv6RouteHeader 94 | cut;\
    118 ipv6+auth+dest+route | stop Icmpv6 118 | cut;126 ipv6+auth+dest+route icmpv6 | cut;\
    221 ipv6+auth+dest+route icmpv6
020000000001edfd1ccf440d86dd600fffff00200001fd000000000000000000000000000001fd0000000000000000000000000000023c00\
    59ce4a234b9e2c00e5d438470147110000310000000801b36a967925b8cd;14 none | stop Ipv6Header 14;\
    54 ipv6 | stop Ipv6HopByHopHeader 54 | cut;62 ipv6+hop | stop Ipv6DestOptionsHeader 62 | cut;\
    70 ipv6+hop+dest | stop Ipv6FragHeader 70 | cut;78 ipv6+hop+dest+frag fragment | cut;86 ipv6+hop+dest+frag fragment
02000000000102000000000186dd6ff0000000003afffd000000000000000000000000000001fd00000000000000000000000000000203b1\
    3f31ab65156900010203;14 none | stop Ipv6Header 14;54 ipv6 | stop Icmpv6 54;62 ipv6 icmpv6
02000000000102000000000186dd600fffff00232bffffffffffffffffffffffffffffffffffffffffffffffffffffffffffffffffff3c00\
    0a613d4f043d010033f54312c64b000002b0460c992a000102030405060708090a;14 none | stop Ipv6Header 14;\
    54 ipv6 | stop Ipv6RouteHeader 54 | cut;62 ipv6+route | stop Ipv6DestOptionsHeader 62 | cut;\
    70 ipv6+route+dest | stop Icmpv4 70 | cut;78 ipv6+route+dest icmpv4 | cut;89 ipv6+route+dest icmpv4
02000000000202000000000186dd4500002c00070000401100000a0000010a000002000100020018000000000000000000000000000000000000;\
    14 none | stop Ipv6Header 14;54 none | stop Ipv6Header content
02000000000202000000000186dd6000000000101140fd000000000000000000000000000001fd0000000000000000000000000000020001\
    0002000c00000102030405060708;14 none | stop Ipv6Header 14;54 ipv6 | stop UdpHeader 54 | cut;62 ipv6 udp | cut;\
    70 ipv6 udp
02000000000202000000000186dd60000000001c0640fd000000000000000000000000000001fd0000000000000000000000000000020001\
    0002000000030000000040020400000000000102030405060708;14 none | stop Ipv6Header 14;\
    54 ipv6 | stop TcpHeader 54 | cut;74 ipv6 | stop TcpHeader content | cut;82 ipv6 | stop TcpHeader content
02000000000202000000000186dd6000000000200640fd000000000000000000000000000001fd0000000000000000000000000000020001\
    000200000003000000006002040000000000020405b40102030405060708;14 none | stop Ipv6Header 14;\
    54 ipv6 | stop TcpHeader 54 | cut;78 ipv6 tcp | cut;86 ipv6 tcp
02000000000202000000000186dd6000000000140140fd000000000000000000000000000001fd0000000000000000000000000000020d00\
    000000010002000102030405060708090a0b;14 none | stop Ipv6Header 14;54 ipv6 | stop Icmpv4 54 | cut;74 ipv6 icmpv4
02000000000202000000000186dd6000000000103a40fd000000000000000000000000000001fd0000000000000000000000000000028000\
    0000000100020102030405060708;14 none | stop Ipv6Header 14;54 ipv6 | stop Icmpv6 54 | cut;62 ipv6 icmpv6 | cut;\
    70 ipv6 icmpv6
02000000000202000000000186dd6000000000680040fd000000000000000000000000000001fd0000000000000000000000000000023c00\
    0104000000002b01010c0000000000000000000000002c020400000000000000000000000000000000000000000033000000000000073c04\
    00000000010000000001000102030405060708090a0b110001040000000000010002001000000102030405060708;\
    14 none | stop Ipv6Header 14;54 ipv6 | stop Ipv6HopByHopHeader 54 | cut;\
    62 ipv6+hop | stop Ipv6DestOptionsHeader 62 | cut;78 ipv6+hop+dest | stop Ipv6RouteHeader 78 | cut;\
    102 ipv6+hop+dest+route | stop Ipv6FragHeader 102 | cut;110 ipv6+hop+dest+route+frag | stop IpAuthHeader 110 | cut;\
    134 ipv6+hop+dest+route+frag+auth | stop Ipv6DestOptionsHeader 134 | cut;\
    142 ipv6+hop+dest+route+frag+auth+dest | stop UdpHeader 142 | cut;150 ipv6+hop+dest+route+frag+auth+dest udp | cut;\
    158 ipv6+hop+dest+route+frag+auth+dest udp
02000000000202000000000186dd6000000000242c40fd000000000000000000000000000001fd0000000000000000000000000000020600\
    00000000000700010002000000030000000050020400000000000102030405060708;14 none | stop Ipv6Header 14;\
    54 ipv6 | stop Ipv6FragHeader 54 | cut;62 ipv6+frag | stop TcpHeader 62 | cut;82 ipv6+frag tcp | cut;\
    90 ipv6+frag tcp
02000000000202000000000186dd6000000000182c40fd000000000000000000000000000001fd0000000000000000000000000000021100\
    00060000000700010002001000000102030405060708;14 none | stop Ipv6Header 14;54 ipv6 | stop Ipv6FragHeader 54 | cut;\
    62 ipv6+frag | stop UdpHeader 62 | cut;70 ipv6+frag udp | cut;78 ipv6+frag udp
02000000000202000000000186dd6000000000182c40fd000000000000000000000000000001fd0000000000000000000000000000021100\
    00010000000700010002001000000102030405060708;14 none | stop Ipv6Header 14;54 ipv6 | stop Ipv6FragHeader 54 | cut;\
    62 ipv6+frag fragment | cut;78 ipv6+frag fragment
02000000000202000000000186dd6000000000382b40fd000000000000000000000000000001fd0000000000000000000000000000022c02\
    040000000000000000000000000000000000000000003c00001800000007110001040000000000010002001000000102030405060708;\
    14 none | stop Ipv6Header 14;54 ipv6 | stop Ipv6RouteHeader 54 | cut;78 ipv6+route | stop Ipv6FragHeader 78 | cut;\
    86 ipv6+route+frag fragment | stop Ipv6DestOptionsHeader 86 | cut;94 ipv6+route+frag+dest fragment | cut;\
    110 ipv6+route+frag+dest fragment
02000000000202000000000186dd6000000000203c40fd000000000000000000000000000001fd0000000000000000000000000000020000\
    010400000000110001040000000000010002001000000102030405060708;14 none | stop Ipv6Header 14;\
    54 ipv6 | stop Ipv6DestOptionsHeader 54 | cut;62 ipv6+dest | stop Ipv6HopByHopHeader content | cut;\
    86 ipv6+dest | stop Ipv6HopByHopHeader content
02000000000202000000000186dd6000000000202c40fd000000000000000000000000000001fd0000000000000000000000000000020000\
    000100000007110001040000000000010002001000000102030405060708;14 none | stop Ipv6Header 14;\
    54 ipv6 | stop Ipv6FragHeader 54 | cut;62 ipv6+frag fragment | stop Ipv6HopByHopHeader content | cut;\
    86 ipv6+frag fragment | stop Ipv6HopByHopHeader content
02000000000202000000000186dd6000000000080040fd000000000000000000000000000001fd0000000000000000000000000000020000\
    010400000000;14 none | stop Ipv6Header 14;54 ipv6 | stop Ipv6HopByHopHeader 54 | cut;\
    62 ipv6+hop | stop Ipv6HopByHopHeader content
02000000000202000000000186dd60000000001c3340fd000000000000000000000000000001fd0000000000000000000000000000021100\
    0000000001000000000100010002001000000102030405060708;14 none | stop Ipv6Header 14;\
    54 ipv6 | stop IpAuthHeader 54 | cut;66 ipv6 | stop IpAuthHeader content | cut;82 ipv6 | stop IpAuthHeader content
02000000000202000000000186dd60000000001e0040fd000000000000000000000000000001fd0000000000000000000000000000023c03\
    011c00000000000000000000000000000000000000000000000000000000110001040000000000010002001000000102030405060708;\
    14 none | stop Ipv6Header 14;54 ipv6 | stop Ipv6HopByHopHeader 54 | cut;84 ipv6 | stop Ipv6HopByHopHeader 54
02000000000202000000000186dd60000000001c2b40fd000000000000000000000000000001fd0000000000000000000000000000023c02\
    04000000000000000000000000000000000000000000110001040000000000010002001000000102030405060708;\
    14 none | stop Ipv6Header 14;54 ipv6 | stop Ipv6RouteHeader 54 | cut;\
    78 ipv6+route | stop Ipv6DestOptionsHeader 78 | cut;82 ipv6+route | stop Ipv6DestOptionsHeader 78
02000000000202000000000186dd6000000000072c40fd000000000000000000000000000001fd0000000000000000000000000000021100\
    00000000000700010002001000000102030405060708;14 none | stop Ipv6Header 14;54 ipv6 | stop Ipv6FragHeader 54 | cut;\
    61 ipv6 | stop Ipv6FragHeader 54
02000000000202000000000186dd60000000000b3340fd000000000000000000000000000001fd0000000000000000000000000000021101\
    0000000001000000000100010002001000000102030405060708;14 none | stop Ipv6Header 14;\
    54 ipv6 | stop IpAuthHeader 54 | cut;65 ipv6 | stop IpAuthHeader 54
02000000000202000000000186dd6000000000000040fd000000000000000000000000000001fd0000000000000000000000000000021100\
    01040000000000010002001000000102030405060708;14 none | stop Ipv6Header 14;54 ipv6 | stop Ipv6HopByHopHeader 54;\
    62 ipv6+hop | stop UdpHeader 62;70 ipv6+hop udp
02000000000202000000000186dd6000000000083b40fd000000000000000000000000000001fd0000000000000000000000000000020102\
    030405060708;14 none | stop Ipv6Header 14;54 ipv6 | cut;62 ipv6
02000000000202000000000186dd6000000000083240fd000000000000000000000000000001fd0000000000000000000000000000020102\
    030405060708;14 none | stop Ipv6Header 14;54 ipv6 | cut;62 ipv6
02000000000202000000000186dd6000000000083a40fd000000000000000000000000000001fd0000000000000000000000000000028000\
    00000001000200000000;14 none | stop Ipv6Header 14;54 ipv6 | stop Icmpv6 54 | cut;62 ipv6 icmpv6
";

#[test]
fn frames_with_ipv6(rt: HostRuntime) {
    rows_have_layers(rt, rt.alloc(), OVER_IPV6);
}

#[rattlefmt::skip]
const OTHERS: &str = "\
020000000002020000000001080600010800060400010200000000010a0000010000000000000a000002;14 none | stop Arp 14;42 arp
0200000000020200000000011234;14 none
020000000002020000000001080600010800060400010200000000010a0000010000000000000a0000020000000000000000000000000000\
    00000000;14 none | stop Arp 14;42 arp
02000000000202000000000108060000080000000001;14 none | stop Arp 14;22 arp
02000000000202000000000188cc000000000000;14 none
02000000000202000000000100264242030000000000;14 none
";

#[test]
fn frames_with_arp_and_others(rt: HostRuntime) {
    rows_have_layers(rt, rt.alloc(), OTHERS);
}
