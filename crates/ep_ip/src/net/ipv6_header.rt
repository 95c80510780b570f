//! IPv6 headers as values, and the walk over the extension headers after them.

ghost use Rattle.std.specs.Prelude.{◌≡◌, ℕ, ◌+◌, ◌*◌, ◌^◌, ◌/◌, ◌<◌, ◌≤◌, List, ◌++◌, length, IfOk, IfErr, IsOkAnd};
ghost use Rattle.std.specs.Prelude.{OnOk, OnErr, IsOk, MatchResult, Err, vec_len, vec_capacity};
ghost use Rattle.ep_base.specs.Bounded.{too_big};
ghost use Rattle.ep_base.specs.Bytes.{num};
ghost use Rattle.ep_ip.specs.Ipv6Fault.{header_at};
ghost use Rattle.ep_ip.specs.Ipv6.{IsIpv6Header, IsRead, ipv6_header_of, encoding, Fits, dscp_in, ecn_in};
ghost use Rattle.ep_ip.specs.Skip as walk;

use crate::Ipv6HeaderSlice;
use crate::err::ipv6::HeaderSliceError;
use ep_base::err::{Layer, LenError, ValueTooBigError, ValueType};
use ep_base::{IpDscp, IpEcn, IpNumber, Ipv6FlowLabel};
use std::alloc::AllocError;

/// An IPv6 header (RFC 8200, section 3). Its 40 bytes hold numbers high byte first.
#[derive(Clone, Debug, PartialEq, Eq, Drop)]
pub struct Ipv6Header {
    /// The differentiated services code point in the upper 6 bits (RFC 2474, section 3), explicit
    /// congestion notification in the lower 2 (RFC 3168, section 5).
    pub traffic_class: u8,
    /// The flow label, 20 bits.
    pub flow_label: Ipv6FlowLabel,
    /// How many bytes follow the header: its extension headers and the payload.
    pub payload_length: u16,
    /// The number of the header that follows.
    pub next_header: IpNumber,
    /// How many more nodes may forward the packet.
    pub hop_limit: u8,
    /// The source address.
    pub source: [u8; 16],
    /// The destination address.
    pub destination: [u8; 16],
}

impl Ipv6Header {
    /// The length of an IPv6 header in bytes.
    pub const LEN: usize = 40;

    /// The same as `LEN`.
    pub const SERIALIZED_SIZE: usize = Ipv6Header::LEN;

    /// The header at the start of the slice, and the bytes after it. Refused are, in this order, a
    /// slice of fewer than 40 bytes and a version other than 6.
    pub fn from_slice(slice: &[u8]) -> Result<(Ipv6Header, &[u8]), HeaderSliceError>
        // The start of the slice is a header, and is read so.
        ensures found { IfOk result (λ r. IsRead slice.now r.0 r.1.now) }
        // A prefix that is a header is read.
        ensures only { (prefix rest : List ℕ) → IsIpv6Header prefix → slice.now ≡ prefix ++ rest
            → IsOkAnd result (λ r. (r.0 ≡ ipv6_header_of prefix) × (r.1.now ≡ rest)) }
        // Else it is the first fault.
        ensures err { IfErr result (λ e. header_at slice.now ≡ Err e) }
    {
        let header = Ipv6HeaderSlice::from_slice(slice)?;
        let rest = &slice[Ipv6Header::LEN..];
        Ok((header.to_header(), rest))
    }

    /// The same as `from_slice`.
    pub fn read_from_slice(slice: &[u8]) -> Result<(Ipv6Header, &[u8]), HeaderSliceError>
        ensures found { IfOk result (λ r. IsRead slice.now r.0 r.1.now) }
        ensures only { (prefix rest : List ℕ) → IsIpv6Header prefix → slice.now ≡ prefix ++ rest
            → IsOkAnd result (λ r. (r.0 ≡ ipv6_header_of prefix) × (r.1.now ≡ rest)) }
        ensures err { IfErr result (λ e. header_at slice.now ≡ Err e) }
    {
        Ipv6Header::from_slice(slice)
    }

    /// The length of an IPv6 header in bytes.
    pub fn header_len(&self) -> usize
        ensures { result ≡ 40 }
    {
        Ipv6Header::LEN
    }

    /// The differentiated services code point, the upper 6 bits of the traffic class (RFC 2474,
    /// section 3).
    pub fn dscp(&self) -> IpDscp
        ensures { result ≡ dscp_in self.now.traffic_class }
    {
        IpDscp::try_new(self.traffic_class >> 2).unwrap()
    }

    /// Explicit congestion notification, the lower 2 bits of the traffic class (RFC 3168, section
    /// 5).
    pub fn ecn(&self) -> IpEcn
        ensures { result ≡ ecn_in self.now.traffic_class }
    {
        IpEcn::try_new(self.traffic_class & 0b11).unwrap()
    }

    /// Sets the upper 6 bits of the traffic class.
    pub fn set_dscp(&mut self, dscp: IpDscp)
        ensures set { dscp_in self.new.traffic_class ≡ dscp }
        ensures kept { ecn_in self.new.traffic_class ≡ ecn_in self.old.traffic_class }
        ensures others { self.new ≡ record self.old { traffic_class = self.new.traffic_class } }
    {
        self.traffic_class = traffic_class_with(dscp, self.ecn());
    }

    /// Sets the lower 2 bits of the traffic class.
    pub fn set_ecn(&mut self, ecn: IpEcn)
        ensures set { ecn_in self.new.traffic_class ≡ ecn }
        ensures kept { dscp_in self.new.traffic_class ≡ dscp_in self.old.traffic_class }
        ensures others { self.new ≡ record self.old { traffic_class = self.new.traffic_class } }
    {
        self.traffic_class = traffic_class_with(self.dscp(), ecn);
    }

    /// Sets the payload length, which has 16 bits. It is refused above 65535.
    pub fn set_payload_length(&mut self, size: usize) -> Result<(), ValueTooBigError<usize>>
        ensures ok { OnOk result (self.new ≡ record self.old { payload_length = size }) }
        ensures err { OnErr result (self.new ≡ self.old) }
        ensures outcome { MatchResult result (λ _. size ≤ 65535)
            (λ e. (65535 < size) × (e ≡ too_big ValueType.Ipv6PayloadLength 65535 size)) }
    {
        if size > usize::from(u16::MAX) {
            return Err(ValueTooBigError {
                actual: size,
                max_allowed: usize::from(u16::MAX),
                value_type: ValueType::Ipv6PayloadLength,
            });
        }
        self.payload_length = size as u16;
        Ok(())
    }

    /// The bytes of the header.
    #[inline(always)]
    pub fn to_bytes(&self) -> [u8; 40]
        ensures bytes { result ≡ encoding self.now }
        // They are a header, with these fields.
        ensures header { IsIpv6Header result }
        ensures fields { ipv6_header_of result ≡ self.now }
    {
        self.field_bytes()
    }

    // Apart from `to_bytes`, whose other clauses follow from these.
    #[inline(always)]
    fn field_bytes(&self) -> [u8; 40]
        ensures bytes { result ≡ encoding self.now }
        ensures fits { Fits self.now }
    {
        let payload_length = self.payload_length.to_be_bytes();
        let mut bytes = [0; 40];
        bytes[..4].copy_from_slice(&self.first_word().to_be_bytes());
        bytes[4..6].copy_from_slice(&payload_length);
        bytes[6] = self.next_header.0;
        bytes[7] = self.hop_limit;
        bytes[8..24].copy_from_slice(&self.source);
        bytes[24..].copy_from_slice(&self.destination);
        bytes
    }

    // Version, traffic class and flow label, as the first 4 bytes encode them.
    #[inline(always)]
    fn first_word(&self) -> u32
        ensures value { result ≡ 6 * 2 ^ 28 + self.now.traffic_class * 2 ^
            20 + self.now.flow_label }
        ensures class { self.now.traffic_class < 2 ^ 8 }
        ensures label { self.now.flow_label < 2 ^ 20 }
    {
        let class = u32::from(self.traffic_class) << 20;
        (6 << 28) | class | self.flow_label.value()
    }

    /// Appends the bytes of the header.
    #[inline(always)]
    pub fn write(&self, buffer: &mut Vec<u8>) -> Result<(), AllocError>
        ensures ok { OnOk result (buffer.new.items ≡ buffer.old.items ++ encoding self.now) }
        ensures len { OnOk result (vec_len buffer.new ≡ vec_len buffer.old + 40) }
        ensures err { OnErr result (buffer.new.items ≡ buffer.old.items) }
        // It fails only where capacity was missing, and capacity never shrinks.
        ensures succeeds { vec_len buffer.old + 40 ≤ vec_capacity buffer.old → IsOk result }
        ensures capacity { vec_capacity buffer.old ≤ vec_capacity buffer.new }
    {
        buffer.extend_from_slice(&self.to_bytes())
    }

    /// Skips one IPv6 extension header at the start of the slice, whatever its number, and returns
    /// the number that its first byte names and the bytes after it. The number decides the length:
    /// 8 bytes for a fragment header (44), for an authentication header (51) four times its second
    /// byte and 8 more, for every other number eight times its second byte and 8 more (RFC 8200,
    /// section 4; RFC 4302, section 2.2; RFC 6564, section 4).
    pub fn skip_header_extension_in_slice(
        slice: &[u8],
        next_header: IpNumber,
    ) -> Result<(IpNumber, &[u8]), LenError>
        // What is skipped is a whole header.
        ensures found { IfOk result (λ r. (header : List ℕ) × walk.IsWhole next_header.0 header
            × (slice.now ≡ header ++ r.1.now) × (r.0.0 ≡ num header 0 1)) }
        // A whole header is skipped.
        ensures only { (header rest : List ℕ) → walk.IsWhole next_header.0 header
            → slice.now ≡ header ++ rest
            → IsOkAnd result (λ r. (r.0.0 ≡ num header 0 1) × (r.1.now ≡ rest)) }
        // Else so many bytes are missing.
        ensures refused { IfErr result (λ e.
            (length slice.now < walk.required_len next_header.0 slice.now)
            × (e ≡ walk.not_whole 0 next_header.0 slice.now)) }
    {
        Self::skip_by(slice, next_header, required_len(slice, next_header))
    }

    // The same where it is known how many bytes are needed.
    fn skip_by(
        slice: &[u8],
        next_header: IpNumber,
        required_len: usize,
    ) -> Result<(IpNumber, &[u8]), LenError>
        requires { required_len ≡ walk.required_len next_header.0 slice.now }
        ensures found { IfOk result (λ r. (header : List ℕ) × walk.IsWhole next_header.0 header
            × (slice.now ≡ header ++ r.1.now) × (r.0.0 ≡ num header 0 1)) }
        ensures only { (header rest : List ℕ) → walk.IsWhole next_header.0 header
            → slice.now ≡ header ++ rest
            → IsOkAnd result (λ r. (r.0.0 ≡ num header 0 1) × (r.1.now ≡ rest)) }
        ensures refused { IfErr result (λ e.
            (length slice.now < walk.required_len next_header.0 slice.now)
            × (e ≡ walk.not_whole 0 next_header.0 slice.now)) }
    {
        if slice.len() < required_len {
            return Err(LenError::too_few_bytes(Layer::Ipv6ExtHeader, required_len, slice.len()));
        }
        Ok((IpNumber(slice[0]), &slice[required_len..]))
    }

    /// Skips the IPv6 extension headers in a row at the start of the slice, of which the first has
    /// the given number, and returns the first number that is none of 0, 43, 44, 51, 60, 135, 139
    /// and 140, and the bytes after the headers. A header of one of these numbers that is not
    /// whole is refused, with its offset in the slice.
    ///
    /// By the law [`skip_follows_every_walk`](crate::laws::ipv6::skip_follows_every_walk) the slice
    /// is headers in a row and a rest, and however it is so, the result gives that.
    pub fn skip_all_header_extensions_in_slice(
        slice: &[u8],
        next_header: IpNumber,
    ) -> Result<(IpNumber, &[u8]), LenError>
        ensures exact { walk.Gives (walk.skip next_header.0 slice.now) result }
    {
        Self::skip_counted(slice, next_header).0
    }

    /// The same as `skip_all_header_extensions_in_slice`, and how many numbers it tested: one
    /// for each header that it skipped, and one for the number at which it ended.
    pub fn skip_counted(
        slice: &[u8],
        next_header: IpNumber,
    ) -> (Result<(IpNumber, &[u8]), LenError>, usize)
        // The slice is headers in a row and what the result gives.
        ensures found { (headers : List (List ℕ)) × (last : ℕ) × (rest : List ℕ)
            × walk.Walk next_header.0 slice.now headers last rest
            × walk.Ends headers last rest result.0 result.1 }
        // However the slice is headers in a row and a rest, the result gives that.
        ensures only { (headers : List (List ℕ)) (last : ℕ) (rest : List ℕ)
            → walk.Walk next_header.0 slice.now headers last rest
            → walk.Ends headers last rest result.0 result.1 }
        ensures bound { result.1 ≤ length slice.now / 8 + 1 }
    {
        Self::walk(slice, next_header)
    }

    // Apart from `skip_counted`, whose other clauses follow from this one.
    fn walk(slice: &[u8], next_header: IpNumber) -> (Result<(IpNumber, &[u8]), LenError>, usize)
        ensures { (headers : List (List ℕ)) × (last : ℕ) × (rest : List ℕ)
            × walk.Walk next_header.0 slice.now headers last rest
            × walk.Ends headers last rest result.0 result.1 }
    {
        let mut number = next_header;
        let mut rest = slice;
        let mut turns = 1;
        'headers: while let Some(required_len) = skipped_len(rest, number) {
            match Self::skip_by(rest, number, required_len) {
                Ok((next, following)) => {
                    number = next;
                    rest = following;
                }
                Err(error) => {
                    let offset = slice.len() - rest.len();
                    return (Err(error.add_offset(offset)), turns);
                }
            }
            turns += 1;
        }
        (Ok((number, rest)), turns)
    }
}

// How the length of the header of each number is counted: `o` in words of 8 bytes, `a` as that of an
// authentication header, `f` as that of a fragment header. A dot is at each number that is not
// skipped.
static LENGTH_KINDS: [u8; 256] = *b"\
    o...............................\
    ...........of......a........o...\
    ................................\
    ................................\
    .......o...oo...................\
    ................................\
    ................................\
    ................................";

fn length_kind(number: IpNumber) -> u8
    ensures { result ≡ walk.length_kind number.0 }
{
    LENGTH_KINDS[usize::from(number.0)]
}

// How many bytes are needed of the header of this number, if it is one that is skipped.
fn skipped_len(slice: &[u8], number: IpNumber) -> Option<usize>
    ensures { result ≡ walk.skipped_by number.0 slice.now }
{
    let kind = length_kind(number);
    if kind == b'.' {
        None
    } else {
        Some(len_of_kind(slice, kind))
    }
}

// How many bytes are needed of a header whose length is counted so. It is known once two are there.
fn len_of_kind(slice: &[u8], kind: u8) -> usize
    ensures { result ≡ walk.len_of_kind kind slice.now }
{
    if slice.len() < 2 {
        return 2;
    }
    let count = usize::from(slice[1]);
    if kind == b'o' {
        (count + 1) * 8
    } else if kind == b'f' {
        8
    } else {
        (count + 2) * 4
    }
}

fn required_len(slice: &[u8], number: IpNumber) -> usize
    ensures { result ≡ walk.required_len number.0 slice.now }
{
    match number {
        IpNumber::IPV6_FRAGMENTATION_HEADER => len_of_kind(slice, b'f'),
        IpNumber::AUTHENTICATION_HEADER => len_of_kind(slice, b'a'),
        _ => len_of_kind(slice, b'o'),
    }
}

// The traffic class of both.
fn traffic_class_with(dscp: IpDscp, ecn: IpEcn) -> u8
    ensures dscp { dscp_in result ≡ dscp }
    ensures ecn { ecn_in result ≡ ecn }
{
    (dscp.value() << 2) | ecn.value()
}

impl Default for Ipv6Header {
    ghost use Rattle.std.specs.Prelude.{◌≡◌, replicate};

    ghost is_default = { λ header. header ≡ record {
      traffic_class = 0;
      flow_label = 0;
      payload_length = 0;
      next_header = record { 0 = 255 };
      hop_limit = 0;
      source = replicate 16 0;
      destination = replicate 16 0;
    } };

    fn default() -> Self {
        Ipv6Header {
            traffic_class: 0,
            flow_label: Ipv6FlowLabel::ZERO,
            payload_length: 0,
            next_header: IpNumber(255),
            hop_limit: 0,
            source: [0; 16],
            destination: [0; 16],
        }
    }
}
