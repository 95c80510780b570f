//! An ICMPv6 message, borrowed.
ghost use Rattle.std.specs.Prelude.{◌≡◌, ◌≤◌, ℕ, false, List, ◌++◌, length, drop, slice_range, nat_eq};
ghost use Rattle.std.specs.Cmp.Lexicographic.{pointwise};
ghost use Rattle.std.specs.Cmp.Rules.{comparing};
ghost use Rattle.std.proofs.Common.{rules};
ghost use Rattle.ep_base.specs.Bytes.{num};
ghost use Rattle.ep_base.specs.Sum.{all_ones};
ghost use Rattle.ep_icmp.specs.Fields.{echo_in};
ghost use Rattle.ep_icmp.specs.Icmpv6.{ReadableIcmpv6, icmpv6_header_of, is_listed, pseudo, type_of};
ghost use Rattle.ep_icmp.specs.Icmpv6Fault.{message_at};

use super::icmpv6::{
    DestUnreachableCode, ParameterProblemCode, ParameterProblemHeader, TimeExceededCode,
};
use super::{IcmpEchoHeader, Icmpv6Header, Icmpv6Type};
use ep_base::checksum::message_sum;
use ep_base::err::{Layer, LenError};
use ep_base::ip_number;
use ep_ip::checksum::pseudo_sum_v6;
use std::marker::Model;

/// An ICMPv6 message (RFC 4443, section 2.1): a header of 8 bytes and what follows it, borrowed.
/// Its length was tested when the value was made, so that getters test nothing. A contract sees the
/// value as those bytes.
#[derive(Clone, Debug, Drop)]
pub struct Icmpv6Slice<'a> {
    slice: &'a [u8],
}

impl<'a> Model for Icmpv6Slice<'a> {
    ghost Value = { List ℕ };

    ghost view = { λ message. message.slice.now };

    ghost invariant = { λ message. ReadableIcmpv6 message.slice.now };
}

#[tactic(auto, using(crate::proofs::Icmpv6Kinds::unknown_at, crate::proofs::Icmpv6Kinds::no_unreachable, crate::proofs::Icmpv6Kinds::no_time_exceeded, crate::proofs::Icmpv6Kinds::no_problem))]
impl<'a> Icmpv6Slice<'a> {
    /// The message that is this slice. A slice of fewer than 8 bytes is refused (layer `Icmpv6`).
    pub fn from_slice(slice: &'a [u8]) -> Result<Icmpv6Slice<'a>, LenError>
        // All of the slice, where it is a message, or that bytes are missing: law
        // `icmpv6::messages_are_found`.
        ensures exact { result ≡ message_at slice.now }
    {
        if slice.len() < Icmpv6Header::MIN_LEN {
            return Err(LenError::too_few_bytes(Layer::Icmpv6, Icmpv6Header::MIN_LEN, slice.len()));
        }
        Ok(Icmpv6Slice { slice })
    }

    /// The message's bytes.
    pub fn slice(&self) -> &'a [u8]
        ensures bytes { result.now ≡ self.now }
        ensures message { ReadableIcmpv6 self.now }
    {
        self.slice
    }

    /// The type, byte 0.
    pub fn type_u8(&self) -> u8
        ensures { result ≡ num self.now 0 1 }
    {
        self.slice[0]
    }

    /// The code, byte 1.
    pub fn code_u8(&self) -> u8
        ensures { result ≡ num self.now 1 1 }
    {
        self.slice[1]
    }

    /// The checksum, bytes 2 and 3.
    pub fn checksum(&self) -> u16
        ensures { result ≡ num self.now 2 2 }
    {
        u16::from_be_bytes([self.slice[2], self.slice[3]])
    }

    /// Whether the message between these addresses has a right checksum: pseudo header and message
    /// sum to all ones (RFC 4443, section 2.3; RFC 1071, section 1). The length in the pseudo
    /// header is the message's modulo 2 to the 32.
    pub fn is_checksum_valid(&self, source: [u8; 16], destination: [u8; 16]) -> bool
        ensures { result ≡ all_ones (pseudo source destination (length self.now) ++ self.now) }
    {
        is_sum_valid(self.slice, source, destination)
    }

    /// Bytes 4 to 7, whatever the type says of them.
    pub fn bytes5to8(&self) -> [u8; 4]
        ensures { result ≡ slice_range self.now 4 8 }
    {
        self.slice[4..8].try_into().unwrap()
    }

    /// The kind: the type, the code and what goes with them. What the table of kinds has no line
    /// for is `Unknown`.
    pub fn icmp_type(&self) -> Icmpv6Type
        ensures { result ≡ type_of self.now }
    {
        match (self.type_u8(), self.code_u8()) {
            (1, _) => self.destination_unreachable(),
            (2, 0) => Icmpv6Type::PacketTooBig { mtu: self.number() },
            (3, _) => self.time_exceeded(),
            (4, _) => self.parameter_problem(),
            (128, 0) => Icmpv6Type::EchoRequest(self.echo()),
            (129, 0) => Icmpv6Type::EchoReply(self.echo()),
            _ => self.unknown(),
        }
    }

    // Bytes 4 to 7 as a number.
    fn number(&self) -> u32
        ensures { result ≡ num self.now 4 4 }
    {
        u32::from_be_bytes(self.bytes5to8())
    }

    fn echo(&self) -> IcmpEchoHeader
        ensures { result ≡ echo_in self.now 4 }
    {
        IcmpEchoHeader::from_bytes(self.bytes5to8())
    }

    fn destination_unreachable(&self) -> Icmpv6Type
        requires { num self.now 0 1 ≡ 1 }
        ensures { result ≡ type_of self.now }
    {
        match DestUnreachableCode::from_u8(self.code_u8()) {
            Some(code) => Icmpv6Type::DestinationUnreachable(code),
            None => self.unknown(),
        }
    }

    fn time_exceeded(&self) -> Icmpv6Type
        requires { num self.now 0 1 ≡ 3 }
        ensures { result ≡ type_of self.now }
    {
        match TimeExceededCode::from_u8(self.code_u8()) {
            Some(code) => Icmpv6Type::TimeExceeded(code),
            None => self.unknown(),
        }
    }

    fn parameter_problem(&self) -> Icmpv6Type
        requires { num self.now 0 1 ≡ 4 }
        ensures { result ≡ type_of self.now }
    {
        match ParameterProblemCode::from_u8(self.code_u8()) {
            Some(code) => Icmpv6Type::ParameterProblem(ParameterProblemHeader {
                code,
                pointer: self.number(),
            }),
            None => self.unknown(),
        }
    }

    fn unknown(&self) -> Icmpv6Type
        requires { is_listed (num self.now 0 1) (num self.now 1 1) ≡ false }
        ensures { result ≡ type_of self.now }
    {
        Icmpv6Type::Unknown {
            type_u8: self.type_u8(),
            code_u8: self.code_u8(),
            bytes5to8: self.bytes5to8(),
        }
    }

    /// The length of the header in bytes, 8 for each kind.
    pub fn header_len(&self) -> usize
        ensures { result ≡ 8 }
    {
        Icmpv6Header::MIN_LEN
    }

    /// What follows the header.
    pub fn payload(&self) -> &'a [u8]
        ensures { result.now ≡ drop 8 self.now }
    {
        &self.slice[Icmpv6Header::MIN_LEN..]
    }

    /// The kind and the checksum.
    pub fn header(&self) -> Icmpv6Header
        ensures { result ≡ icmpv6_header_of self.now }
    {
        Icmpv6Header {
            icmp_type: self.icmp_type(),
            checksum: self.checksum(),
        }
    }
}

// Whether a pseudo header and a message, of at least 8 bytes, sum to all ones.
pub(super) fn is_sum_valid(message: &[u8], source: [u8; 16], destination: [u8; 16]) -> bool
    requires { 8 ≤ length message.now }
    ensures { result ≡ all_ones (pseudo source destination (length message.now) ++ message.now) }
{
    let len = (message.len() % (1 << 32)) as u32;
    let pseudo = pseudo_sum_v6(source, destination, ip_number::IPV6_ICMP, len);
    let (header, payload) = message.split_at(Icmpv6Header::MIN_LEN);
    message_sum(pseudo, header, payload).ones_complement() == 0
}

impl<'a> PartialEq for Icmpv6Slice<'a> {
    ghost eq = { pointwise nat_eq };

    ghost laws = { Prim.search (comparing, rules) };

    fn eq(&self, other: &Self) -> bool {
        self.slice == other.slice
    }
}

impl<'a> Eq for Icmpv6Slice<'a> {
    ghost laws = { Prim.search (comparing, rules) };
}
