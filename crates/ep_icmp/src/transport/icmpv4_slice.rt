//! An ICMPv4 message, borrowed.
ghost use Rattle.std.specs.Prelude.{◌≡◌, ◌≤◌, ℕ, false, List, ◌++◌, length, drop, slice_range, IsTrue};
ghost use Rattle.std.specs.Prelude.{nat_eq};
ghost use Rattle.std.specs.Cmp.Lexicographic.{pointwise};
ghost use Rattle.std.specs.Cmp.Rules.{comparing};
ghost use Rattle.std.proofs.Common.{rules};
ghost use Rattle.ep_base.specs.Bytes.{num};
ghost use Rattle.ep_icmp.specs.Icmpv4.{ReadableIcmpv4, header_len, icmpv4_header_of, is_listed, is_timestamp, type_of};
ghost use Rattle.ep_icmp.specs.Icmpv4Fault.{message_at};
ghost use Rattle.ep_icmp.specs.Fields.{echo_in, timestamp_in};

use super::icmpv4::{
    DestUnreachableHeader, ParameterProblemHeader, RedirectCode, RedirectHeader, TimeExceededCode,
    TimestampMessage,
};
use super::{IcmpEchoHeader, Icmpv4Header, Icmpv4Type};
use ep_base::err::{Layer, LenError};
use std::marker::Model;

/// An ICMPv4 message (RFC 792): a header of 8 or 20 bytes and what follows it, borrowed. Its length
/// was tested when the value was made, so that getters test nothing. A contract sees the value as
/// those bytes.
#[derive(Clone, Debug, Drop)]
pub struct Icmpv4Slice<'a> {
    slice: &'a [u8],
}

impl<'a> Model for Icmpv4Slice<'a> {
    ghost Value = { List ℕ };

    ghost view = { λ message. message.slice.now };

    ghost invariant = { λ message. ReadableIcmpv4 message.slice.now };
}

#[tactic(auto, using(crate::proofs::Icmpv4Kinds::unknown_at, crate::proofs::Icmpv4Kinds::no_unreachable, crate::proofs::Icmpv4Kinds::no_redirect, crate::proofs::Icmpv4Kinds::no_time_exceeded, crate::proofs::Icmpv4Kinds::no_problem))]
impl<'a> Icmpv4Slice<'a> {
    /// The message that is this slice. Refused are, in this order, a slice of fewer than 8 bytes
    /// (layer `Icmpv4`), and a timestamp request or reply, which carries no data, of other than 20
    /// bytes (layers `Icmpv4Timestamp` and `Icmpv4TimestampReply`).
    pub fn from_slice(slice: &'a [u8]) -> Result<Icmpv4Slice<'a>, LenError>
        // All of the slice, where it is a message, or the first fault: law
        // `icmpv4::messages_are_found`.
        ensures exact { result ≡ message_at slice.now }
    {
        if slice.len() < Icmpv4Header::MIN_LEN {
            return Err(LenError::too_few_bytes(Layer::Icmpv4, Icmpv4Header::MIN_LEN, slice.len()));
        }
        let layer = match (slice[0], slice[1]) {
            (13, 0) => Layer::Icmpv4Timestamp,
            (14, 0) => Layer::Icmpv4TimestampReply,
            _ => return Ok(Icmpv4Slice { slice }),
        };
        if slice.len() != TimestampMessage::LEN {
            return Err(LenError::too_few_bytes(layer, TimestampMessage::LEN, slice.len()));
        }
        Ok(Icmpv4Slice { slice })
    }

    /// The message's bytes.
    pub fn slice(&self) -> &'a [u8]
        ensures bytes { result.now ≡ self.now }
        ensures message { ReadableIcmpv4 self.now }
    {
        self.slice
    }

    /// The type, byte 0.
    pub fn type_u8(&self) -> u8
        ensures { result ≡ num self.now 0 1 }
    {
        self.slice[0]
    }

    /// The code, byte 1.
    pub fn code_u8(&self) -> u8
        ensures { result ≡ num self.now 1 1 }
    {
        self.slice[1]
    }

    /// The checksum, bytes 2 and 3.
    pub fn checksum(&self) -> u16
        ensures { result ≡ num self.now 2 2 }
    {
        u16::from_be_bytes([self.slice[2], self.slice[3]])
    }

    /// Bytes 4 to 7, whatever the type says of them.
    pub fn bytes5to8(&self) -> [u8; 4]
        ensures { result ≡ slice_range self.now 4 8 }
    {
        self.slice[4..8].try_into().unwrap()
    }

    /// The kind: the type, the code and what goes with them. What the table of kinds has no line
    /// for is `Unknown`.
    pub fn icmp_type(&self) -> Icmpv4Type
        ensures { result ≡ type_of self.now }
    {
        match (self.type_u8(), self.code_u8()) {
            (0, 0) => Icmpv4Type::EchoReply(self.echo()),
            (3, _) => self.destination_unreachable(),
            (5, _) => self.redirect(),
            (8, 0) => Icmpv4Type::EchoRequest(self.echo()),
            (11, _) => self.time_exceeded(),
            (12, _) => self.parameter_problem(),
            (13, 0) => Icmpv4Type::TimestampRequest(self.timestamp()),
            (14, 0) => Icmpv4Type::TimestampReply(self.timestamp()),
            _ => self.unknown(),
        }
    }

    fn echo(&self) -> IcmpEchoHeader
        ensures { result ≡ echo_in self.now 4 }
    {
        IcmpEchoHeader::from_bytes(self.bytes5to8())
    }

    fn destination_unreachable(&self) -> Icmpv4Type
        requires { num self.now 0 1 ≡ 3 }
        ensures { result ≡ type_of self.now }
    {
        let next_hop_mtu = u16::from_be_bytes([self.slice[6], self.slice[7]]);
        match DestUnreachableHeader::from_values(self.code_u8(), next_hop_mtu) {
            Some(header) => Icmpv4Type::DestinationUnreachable(header),
            None => self.unknown(),
        }
    }

    fn redirect(&self) -> Icmpv4Type
        requires { num self.now 0 1 ≡ 5 }
        ensures { result ≡ type_of self.now }
    {
        match RedirectCode::from_u8(self.code_u8()) {
            Some(code) => Icmpv4Type::Redirect(RedirectHeader {
                code,
                gateway_internet_address: self.bytes5to8(),
            }),
            None => self.unknown(),
        }
    }

    fn time_exceeded(&self) -> Icmpv4Type
        requires { num self.now 0 1 ≡ 11 }
        ensures { result ≡ type_of self.now }
    {
        match TimeExceededCode::from_u8(self.code_u8()) {
            Some(code) => Icmpv4Type::TimeExceeded(code),
            None => self.unknown(),
        }
    }

    fn parameter_problem(&self) -> Icmpv4Type
        requires { num self.now 0 1 ≡ 12 }
        ensures { result ≡ type_of self.now }
    {
        match ParameterProblemHeader::from_values(self.code_u8(), self.slice[4]) {
            Some(header) => Icmpv4Type::ParameterProblem(header),
            None => self.unknown(),
        }
    }

    fn timestamp(&self) -> TimestampMessage
        requires { IsTrue (is_timestamp self.now) }
        ensures { result ≡ timestamp_in self.now 4 }
    {
        TimestampMessage::from_bytes(self.slice[4..20].try_into().unwrap())
    }

    fn unknown(&self) -> Icmpv4Type
        requires { is_listed (num self.now 0 1) (num self.now 1 1) ≡ false }
        ensures { result ≡ type_of self.now }
    {
        Icmpv4Type::Unknown {
            type_u8: self.type_u8(),
            code_u8: self.code_u8(),
            bytes5to8: self.bytes5to8(),
        }
    }

    /// The length of the header in bytes: 20 for a timestamp message, else 8.
    pub fn header_len(&self) -> usize
        ensures value { result ≡ header_len (type_of self.now) }
        ensures within { result ≤ length self.now }
    {
        if self.is_timestamp() {
            TimestampMessage::LEN
        } else {
            Icmpv4Header::MIN_LEN
        }
    }

    fn is_timestamp(&self) -> bool
        ensures value { result ≡ is_timestamp self.now }
        ensures message { ReadableIcmpv4 self.now }
    {
        self.slice[1] == 0 && (self.slice[0] == 13 || self.slice[0] == 14)
    }

    /// What follows the header.
    pub fn payload(&self) -> &'a [u8]
        ensures { result.now ≡ drop (header_len (type_of self.now)) self.now }
    {
        &self.slice[self.header_len()..]
    }

    /// The kind and the checksum.
    pub fn header(&self) -> Icmpv4Header
        ensures { result ≡ icmpv4_header_of self.now }
    {
        Icmpv4Header {
            icmp_type: self.icmp_type(),
            checksum: self.checksum(),
        }
    }
}

impl<'a> PartialEq for Icmpv4Slice<'a> {
    ghost eq = { pointwise nat_eq };

    ghost laws = { Prim.search (comparing, rules) };

    fn eq(&self, other: &Self) -> bool {
        self.slice == other.slice
    }
}

impl<'a> Eq for Icmpv4Slice<'a> {
    ghost laws = { Prim.search (comparing, rules) };
}
