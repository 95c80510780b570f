//! Laws with an argument or a result.
use ep_icmp::laws::{icmpv4, icmpv6};
use ep_icmp::{IcmpEchoHeader, Icmpv4Header, Icmpv4Type, Icmpv6Header, Icmpv6Type};

#[test]
fn lengths_of_headers(rt: HostRuntime) {
    assert!(rt; (icmpv4::lengths(), icmpv6::lengths()) == ([8, 20, 20, 4], [8, 40]));
}

#[test]
fn headers_are_read_again(rt: HostRuntime) {
    let echo = IcmpEchoHeader { id: 1, seq: 2 };
    let over_v4 = Icmpv4Header::new(Icmpv4Type::EchoReply(echo));
    let over_v6 = Icmpv6Header::new(Icmpv6Type::EchoReply(echo));
    let slice = [0, 0, 0, 0, 0, 1, 0, 2, 9];
    let read = [
        icmpv4::header_is_read_again(&over_v4, &slice).is_ok(),
        icmpv6::header_is_read_again(&over_v6, &slice).is_ok(),
    ];
    assert!(rt; read == [true, true]);
}
