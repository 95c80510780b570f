//! The expressions of `--only`: what texts are read as, and where and why others are refused.

use crate::checks::{equal, fail, is_text};
use packets::{Condition, Expression, ExpressionError, Side, TcpFlag, Word, WordError, Words};
use std::alloc::Global;
use std::process::Abort;

// What a text is read as, or the column and the reason.
fn read_as(alloc: Global, text: &str) -> Option<String> {
    let read = match Words::of(alloc, text) {
        Ok(words) => words.expression(alloc),
        Err(error) => Err(error),
    };
    match read {
        Ok(expression) => format!(in alloc; "{expression:?}").ok(),
        Err(ExpressionError::Fault(column, fault)) => {
            format!(in alloc; "{column}: {fault}").ok()
        }
        Err(ExpressionError::Memory) => None,
    }
}

fn are_read(rt: impl Abort + Copy, alloc: Global, rows: &[(&str, &str)]) {
    for (text, wanted) in rows {
        match read_as(alloc, *text) {
            Some(read) => is_text(rt, read.as_bytes(), *wanted),
            None => fail(rt, "no memory"),
        }
    }
}

// `not` binds tighter than `and`, and `and` tighter than `or`, as `!`, `&&` and `||` in C and in
// filters of tshark.
#[rattlefmt::skip]
const JOINED: &[(&str, &str)] = &[
    ("bad", "Test(Bad)"),
    ("not bad", "Not(Test(Bad))"),
    ("!bad", "Not(Test(Bad))"),
    ("NOT NOT bad", "Not(Not(Test(Bad)))"),
    ("bad and cut", "And(Test(Bad), Test(Cut))"),
    ("bad&&cut", "And(Test(Bad), Test(Cut))"),
    ("bad OR cut", "Or(Test(Bad), Test(Cut))"),
    ("bad||cut", "Or(Test(Bad), Test(Cut))"),
    ("bad or cut and refused", "Or(Test(Bad), And(Test(Cut), Test(Refused)))"),
    ("bad and cut or refused", "Or(And(Test(Bad), Test(Cut)), Test(Refused))"),
    ("not bad and cut", "And(Not(Test(Bad)), Test(Cut))"),
    ("not bad or cut", "Or(Not(Test(Bad)), Test(Cut))"),
    ("not (bad or cut)", "Not(Or(Test(Bad), Test(Cut)))"),
    ("(bad or cut) and refused", "And(Or(Test(Bad), Test(Cut)), Test(Refused))"),
    ("((bad))", "Test(Bad)"),
    ("!(!(bad))", "Not(Not(Test(Bad)))"),
    ("bad or cut or refused", "Or(Test(Bad), Or(Test(Cut), Test(Refused)))"),
];

#[test]
fn joined_conditions(rt: HostRuntime) {
    are_read(rt, rt.alloc(), JOINED);
}

// Addresses as numbers: 10.0.0.1 is 0x0a000001, 167772161.
#[rattlefmt::skip]
const CONDITIONS: &[(&str, &str)] = &[
    ("host=10.0.0.1", "Test(Host(10.0.0.1))"),
    ("host ::2", "Test(Host(::2))"),
    ("src=10.0.0.1", "Test(Ipv4(Source, 167772161, 167772161))"),
    ("DST ::2", "Test(Ipv6(Destination, 2, 2))"),
    ("net=10.0.0.0/8", "Test(Ipv4(Either, 167772160, 184549375))"),
    ("src=10.0.0.0/31", "Test(Ipv4(Source, 167772160, 167772161))"),
    ("dst 0.0.0.0/0", "Test(Ipv4(Destination, 0, 4294967295))"),
    ("net=::/126", "Test(Ipv6(Either, 0, 3))"),
    ("port=53", "Test(Port(53))"),
    ("port == 53", "Test(Port(53))"),
    ("port 1000..2000", "Test(Ports(1000, 2000))"),
    ("port>=1024", "Test(Ports(1024, 65535))"),
    ("len>=1000", "Test(WireLen(1000, 4294967295))"),
    ("len <= 64", "Test(WireLen(0, 64))"),
    ("vlan", "Test(Protocol(Vlan))"),
    ("vlan=5", "Test(VlanId(5, 5))"),
    ("vlan 5", "Test(VlanId(5, 5))"),
    ("vlan or cut", "Or(Test(Protocol(Vlan)), Test(Cut))"),
    ("(vlan)", "Test(Protocol(Vlan))"),
    ("frame=7", "Test(Number(7, 7))"),
    ("frame=100..200", "Test(Number(100, 200))"),
    ("frame>=3", "Test(Number(3, 18446744073709551615))"),
    ("fin or Syn or RST", "Or(Test(Flag(Fin)), Or(Test(Flag(Syn)), Test(Flag(Rst))))"),
];

#[test]
fn conditions_with_values(rt: HostRuntime) {
    are_read(rt, rt.alloc(), CONDITIONS);
}

#[rattlefmt::skip]
const REFUSED: &[(&str, &str)] = &[
    ("", "1: a condition is missing"),
    ("bad or", "7: a condition is missing"),
    ("bad and ()", "10: a condition is missing"),
    ("and", "1: a condition is missing"),
    ("(bad", "1: \"(\" is not closed"),
    ("bad or (cut and (refused)", "8: \"(\" is not closed"),
    ("bad)", "4: \")\" closes nothing"),
    ("bad cut", "5: \"and\" or \"or\" is missing"),
    ("(bad cut)", "6: \"and\" or \"or\" is missing"),
    ("udp or tpc", "8: no condition \"tpc\" (is \"tcp\" meant?)"),
    ("prot=53", "1: no condition \"prot\" (is \"port\" meant?)"),
    ("bad|cut", "4: no condition \"|\" (is \"||\" meant?)"),
    ("nonsense", "1: no condition \"nonsense\""),
    ("len>64", "4: no number up to 4294967295, and no range, after `len`"),
    ("host>=10.0.0.1", "7: only `=` comes before an address or a network"),
    ("host", "5: no IP address after `host`"),
    ("host and cut", "6: no IP address after `host`"),
    ("net=10.0.0.1", "5: no network after `net`, as 10.0.0.0/8"),
    ("net=10.0.0.0/33", "5: no network after `net`, as 10.0.0.0/8"),
    ("net=10.0.0.1/8", "5: bits after the prefix are not 0"),
    ("net=2001:db8::1/64", "5: bits after the prefix are not 0"),
    ("src=10.0.0.256", "5: no IP address and no network after `src` or `dst`"),
    ("port=65536", "6: no number up to 65535, and no range, after `port`"),
    ("port=2000..1000", "6: the range ends before it begins"),
    ("vlan=4096", "6: no number up to 4095, and no range, after `vlan`"),
    ("vlan=", "6: no number up to 4095, and no range, after `vlan`"),
    ("frame=x", "7: no number, and no range, after `frame`"),
];

#[test]
fn refused_texts(rt: HostRuntime) {
    are_read(rt, rt.alloc(), REFUSED);
}

// 10.0.0.0/8 as numbers.
const TEN: Condition = Condition::Ipv4(Side::Either, 0x0a00_0000, 0x0aff_ffff);

#[test]
fn networks(rt: HostRuntime) {
    let ten = Condition::ipv4_network(Side::Either, 0x0a00_0000, 8);
    equal(rt, ten, Some(TEN));
    let last_bit = Condition::ipv6_network(Side::Either, 1, 127);
    equal(rt, last_bit, None);
}

#[test]
fn words_of_a_condition(rt: HostRuntime) {
    let Ok(words) = Words::of(rt.alloc(), "udp or not bad") else {
        fail(rt, "no words");
    };
    let has = (words.have(Condition::Bad), words.have(Condition::Cut));
    equal(rt, has, (true, false));
    match Expression::of(rt.alloc(), &[Word::Test(TEN)]) {
        Ok(Expression::Test(condition)) => equal(rt, condition, TEN),
        _ => fail(rt, "another expression"),
    }
}

const WORDS: &[(&str, Result<Condition, WordError>)] = &[
    ("BAD", Ok(Condition::Bad)),
    ("ndp", Ok(Condition::Ndp)),
    ("MLD", Ok(Condition::Mld)),
    ("syn", Ok(Condition::Flag(TcpFlag::Syn))),
    ("Port 53", Ok(Condition::Port(53))),
    ("vlan=5", Ok(Condition::VlanId(5, 5))),
    ("net=10.0.0.0/8", Ok(TEN)),
    ("and", Err(WordError::Unknown)),
    ("port=x", Err(WordError::Port)),
];

#[test]
fn conditions_of_words(rt: HostRuntime) {
    for (word, wanted) in WORDS {
        equal(rt, word.parse::<Condition>(), *wanted);
    }
}
