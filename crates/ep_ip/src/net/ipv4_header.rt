//! IPv4 headers as values.

ghost use Rattle.std.specs.Prelude.{◌≡◌, ℕ, ◌+◌, ◌-◌, ◌^◌, ◌<◌, ◌≤◌, ◌↔◌, List, ◌++◌, length, IfOk, IfErr, IsOkAnd};
ghost use Rattle.std.specs.Prelude.{OnOk, OnErr, IsOk, IsTrue, Ok, Err, vec_len, vec_capacity};
ghost use Rattle.ep_ip.specs.Ipv4.{IsIpv4Header, IsRead, default_header, ipv4_header_of, header_len, ihl};
ghost use Rattle.ep_ip.specs.Ipv4.{flags_and_offset, encoding, Fits, is_fragmenting};
ghost use Rattle.ep_base.specs.Bounded.{too_big};
ghost use Rattle.ep_base.specs.Sum.{all_ones};
ghost use Rattle.ep_ip.specs.Ipv4Checksum.{right_checksum, HasRightChecksum};
ghost use Rattle.ep_ip.specs.Ipv4Fault.{header_at, IsPayloadLen};
ghost use Rattle.ep_ip.specs.Ipv4Options.{IsIpv4Options};

use super::payload_len::payload_len_of;
use crate::err::ipv4::{BadOptionsLen, HeaderSliceError};
use crate::{Ipv4HeaderSlice, Ipv4Options};
use arrayvec::ArrayVec;
use ep_base::checksum::Sum16BitWords;
use ep_base::err::{LenError, ValueTooBigError, ValueType};
use ep_base::{IpDscp, IpEcn, IpFragOffset, IpNumber};
use std::alloc::AllocError;

/// An IPv4 header (RFC 791, section 3.1): its fields without the version, the length of the
/// header, which follows from the options, and the reserved bit.
///
/// The total length and the checksum are kept as they are given: nothing here compares them with
/// the other fields.
#[derive(Clone, Debug, PartialEq, Eq, Drop)]
pub struct Ipv4Header {
    /// The differentiated services code point (RFC 2474, section 3).
    pub dscp: IpDscp,
    /// Explicit congestion notification (RFC 3168, section 5).
    pub ecn: IpEcn,
    /// The length of header and payload in bytes.
    pub total_len: u16,
    /// The identification that the fragments of one datagram share.
    pub identification: u16,
    /// Whether the packet may not be fragmented.
    pub dont_fragment: bool,
    /// Whether more fragments follow this one.
    pub more_fragments: bool,
    /// The offset of the payload in the datagram's payload, in units of 8 bytes.
    pub fragment_offset: IpFragOffset,
    /// The time to live, in hops.
    pub time_to_live: u8,
    /// The number of the protocol that the payload begins with.
    pub protocol: IpNumber,
    /// The header checksum.
    pub header_checksum: u16,
    /// The source address.
    pub source: [u8; 4],
    /// The destination address.
    pub destination: [u8; 4],
    /// The options.
    pub options: Ipv4Options,
}

impl Ipv4Header {
    /// The length in bytes of a header with no options.
    pub const MIN_LEN: usize = 20;

    /// The same as a `u16`.
    pub const MIN_LEN_U16: u16 = 20;

    /// The length in bytes of a header with 40 bytes of options.
    pub const MAX_LEN: usize = 60;

    /// The older name of [`Ipv4Header::MIN_LEN`].
    pub const SERIALIZED_SIZE: usize = Ipv4Header::MIN_LEN;

    /// A header with no options for a payload of this length, with don't-fragment set, and 0 in
    /// every field that is not given, the checksum among them.
    ///
    /// A payload above 65515 bytes, which no total length can state, is refused.
    pub fn new(
        payload_len: u16,
        time_to_live: u8,
        protocol: IpNumber,
        source: [u8; 4],
        destination: [u8; 4],
    ) -> Result<Ipv4Header, ValueTooBigError<u16>>
        ensures ok { payload_len ≤ 65515 → result ≡ Ok (record default_header {
          total_len = 20 + payload_len;
          time_to_live = time_to_live;
          protocol = protocol;
          source = source;
          destination = destination;
        }) }
        ensures refused { 65515 < payload_len
            → result ≡ Err (too_big ValueType.Ipv4PayloadLength 65515 payload_len) }
    {
        let max_allowed = u16::MAX - Ipv4Header::MIN_LEN_U16;
        if payload_len > max_allowed {
            return Err(ValueTooBigError {
                actual: payload_len,
                max_allowed,
                value_type: ValueType::Ipv4PayloadLength,
            });
        }
        Ok(Ipv4Header {
            total_len: Ipv4Header::MIN_LEN_U16 + payload_len,
            time_to_live,
            protocol,
            source,
            destination,
            ..Ipv4Header::default()
        })
    }

    /// The header at the start of the slice, and what follows it.
    ///
    /// Refused as `Ipv4HeaderSlice::from_slice` refuses. The checksum and the total length are
    /// not tested, and what follows is all that the slice has.
    pub fn from_slice(slice: &[u8]) -> Result<(Ipv4Header, &[u8]), HeaderSliceError>
        // The start of the slice is a header, and is read so.
        ensures found { IfOk result (λ r. IsRead slice.now r.0 r.1.now) }
        // A prefix that is a header is read.
        ensures only { (prefix rest : List ℕ) → IsIpv4Header prefix → slice.now ≡ prefix ++ rest
            → IsOkAnd result (λ r. (r.0 ≡ ipv4_header_of prefix) × (r.1.now ≡ rest)) }
        // Else it is the first fault.
        ensures err { IfErr result (λ e. header_at slice.now ≡ Err e) }
    {
        let header = Ipv4HeaderSlice::from_slice(slice)?;
        let rest = &slice[header.slice().len()..];
        Ok((header.to_header(), rest))
    }

    /// The older name of [`Ipv4Header::from_slice`].
    pub fn read_from_slice(slice: &[u8]) -> Result<(Ipv4Header, &[u8]), HeaderSliceError>
        ensures found { IfOk result (λ r. IsRead slice.now r.0 r.1.now) }
        ensures only { (prefix rest : List ℕ) → IsIpv4Header prefix → slice.now ≡ prefix ++ rest
            → IsOkAnd result (λ r. (r.0 ≡ ipv4_header_of prefix) × (r.1.now ≡ rest)) }
        ensures err { IfErr result (λ e. header_at slice.now ≡ Err e) }
    {
        Ipv4Header::from_slice(slice)
    }

    /// The bytes of the header: the reserved bit is 0, and the checksum is the value of the field.
    ///
    /// The length field comes from the options. Where the checksum field holds
    /// [`Ipv4Header::calc_header_checksum`], the bytes sum to all ones, as a receiver tests it.
    pub fn to_bytes(&self) -> ArrayVec<u8, 60>
        ensures bytes { result.items ≡ encoding self.now }
        ensures len { length result.items ≡ header_len self.now }
        // They are a header, with these fields.
        ensures header { IsIpv4Header result.items }
        ensures fields { ipv4_header_of result.items ≡ self.now }
        // They sum to all ones exactly where the checksum is the right one, or ffff where that is
        // 0.
        ensures checked { IsTrue (all_ones result.items) ↔ HasRightChecksum self.now }
    {
        self.bytes_with_checksum(self.header_checksum)
    }

    // The bytes of the header with this checksum.
    #[inline(always)]
    fn bytes_with_checksum(&self, header_checksum: u16) -> ArrayVec<u8, 60>
        ensures bytes { result.items ≡ encoding
            (record self.now { header_checksum = header_checksum }) }
        ensures len { length result.items ≡ header_len self.now }
        ensures fits { Fits (record self.now { header_checksum = header_checksum }) }
    {
        let total_len = self.total_len.to_be_bytes();
        let identification = self.identification.to_be_bytes();
        let flags_and_offset = self.flags_and_offset().to_be_bytes();
        let checksum = header_checksum.to_be_bytes();
        let head = [
            (4 << 4) | self.ihl(),
            (self.dscp.value() << 2) | self.ecn.value(),
            total_len[0],
            total_len[1],
            identification[0],
            identification[1],
            flags_and_offset[0],
            flags_and_offset[1],
            self.time_to_live,
            self.protocol.0,
            checksum[0],
            checksum[1],
        ];
        let mut bytes = ArrayVec::new();
        bytes.try_extend_from_slice(&head).unwrap();
        bytes.try_extend_from_slice(&self.source).unwrap();
        bytes.try_extend_from_slice(&self.destination).unwrap();
        bytes
            .try_extend_from_slice(self.options.as_slice())
            .unwrap();
        bytes
    }

    #[inline(always)]
    fn flags_and_offset(&self) -> u16
        ensures value { result ≡ flags_and_offset self.now }
        ensures small { self.now.fragment_offset < 2 ^ 13 }
    {
        let dont_fragment = if self.dont_fragment { 0x4000 } else { 0 };
        let more_fragments = if self.more_fragments { 0x2000 } else { 0 };
        dont_fragment | more_fragments | self.fragment_offset.value()
    }

    /// The checksum that belongs to the other fields: the complement of the ones-complement sum of
    /// the header's 16-bit words, with its own field as 0 (RFC 791, section 3.1; RFC 1071).
    ///
    /// It is never ffff, since the first byte is never 0, and the field's value doesn't affect it.
    #[inline(always)]
    pub fn calc_header_checksum(&self) -> u16
        ensures value { result ≡ right_checksum self.now }
        ensures below { result < 65535 }
    {
        Sum16BitWords::new()
            .add_slice(self.bytes_with_checksum(0).as_slice())
            .ones_complement()
            .swap_bytes()
    }

    /// Appends the bytes of the header with the checksum that belongs to them, whatever the field
    /// holds. Of the total length nothing is tested.
    ///
    /// Where no memory is left for them, the buffer keeps its bytes.
    #[inline(always)]
    pub fn write(&self, buffer: &mut Vec<u8>) -> Result<(), AllocError>
        ensures ok { OnOk result (buffer.new.items ≡ buffer.old.items
            ++ encoding (record self.now { header_checksum = right_checksum self.now })) }
        ensures len { OnOk result (vec_len buffer.new ≡ vec_len buffer.old + header_len self.now) }
        ensures err { OnErr result (buffer.new.items ≡ buffer.old.items) }
        // It fails only where capacity was missing, and capacity never shrinks.
        ensures succeeds { vec_len buffer.old + header_len self.now ≤ vec_capacity buffer.old
            → IsOk result }
        ensures capacity { vec_capacity buffer.old ≤ vec_capacity buffer.new }
    {
        let bytes = self.bytes_with_checksum(self.calc_header_checksum());
        buffer.extend_from_slice(bytes.as_slice())
    }

    /// Appends the bytes of the header, with the checksum that its field holds.
    ///
    /// Where no memory is left for them, the buffer keeps its bytes.
    pub fn write_raw(&self, buffer: &mut Vec<u8>) -> Result<(), AllocError>
        ensures ok { OnOk result (buffer.new.items ≡ buffer.old.items ++ encoding self.now) }
        ensures len { OnOk result (vec_len buffer.new ≡ vec_len buffer.old + header_len self.now) }
        ensures err { OnErr result (buffer.new.items ≡ buffer.old.items) }
        // It fails only where capacity was missing, and capacity never shrinks.
        ensures succeeds { vec_len buffer.old + header_len self.now ≤ vec_capacity buffer.old
            → IsOk result }
        ensures capacity { vec_capacity buffer.old ≤ vec_capacity buffer.new }
    {
        buffer.extend_from_slice(self.to_bytes().as_slice())
    }

    /// The header's length in words of 4 bytes, from 5 to 15.
    #[inline(always)]
    pub fn ihl(&self) -> u8
        ensures value { result ≡ ihl self.now }
        ensures small { result ≤ 15 }
    {
        5 + (self.options.len() / 4) as u8
    }

    /// The header's length in bytes, from 20 to 60.
    #[inline(always)]
    pub fn header_len(&self) -> usize
        ensures value { result ≡ header_len self.now }
        ensures small { result ≤ 60 }
    {
        20 + self.options.len()
    }

    /// The length of the payload in bytes: what the total length leaves after the header.
    ///
    /// A total length below the header's own is a `LenError` of the layer `Ipv4Packet` with the
    /// source `Ipv4HeaderTotalLen`.
    pub fn payload_len(&self) -> Result<u16, LenError>
        ensures exact { IsPayloadLen (header_len self.now) self.now.total_len result }
        ensures only { (n : ℕ) → header_len self.now + n ≡ self.now.total_len → result ≡ Ok n }
    {
        payload_len_of(self.header_len() as u16, self.total_len)
    }

    /// Sets the total length to that of a header and payload of this many bytes.
    ///
    /// A length above [`Ipv4Header::max_payload_len`] is refused, and the header is unchanged.
    pub fn set_payload_len(&mut self, value: usize) -> Result<(), ValueTooBigError<usize>>
        ensures fits { IsOk result ↔ (header_len self.old + value ≤ 65535) }
        ensures ok { OnOk result
            (self.new ≡ record self.old { total_len = header_len self.old + value }) }
        ensures err { OnErr result (self.new ≡ self.old) }
        ensures refused { IfErr result
            (λ e. e ≡ too_big ValueType.Ipv4PayloadLength (65535 - header_len self.old) value) }
    {
        let max_allowed = usize::from(self.max_payload_len());
        if value > max_allowed {
            return Err(ValueTooBigError {
                actual: value,
                max_allowed,
                value_type: ValueType::Ipv4PayloadLength,
            });
        }
        self.total_len = (self.header_len() + value) as u16;
        Ok(())
    }

    /// The length in bytes of the longest payload that a total length can state after this header.
    pub fn max_payload_len(&self) -> u16
        ensures { header_len self.now + result ≡ 65535 }
    {
        u16::MAX - self.header_len() as u16
    }

    /// The bytes of the options.
    pub fn options(&self) -> &[u8]
        ensures bytes { result.now ≡ self.now.options }
        ensures options { IsIpv4Options result.now }
    {
        self.options.as_slice()
    }

    /// Makes these bytes the options. The header gets the length that results, and its
    /// total length stays as it is.
    ///
    /// Refused, with the header unchanged, where their number is no multiple of 4 up to 40.
    pub fn set_options(&mut self, options: &[u8]) -> Result<(), BadOptionsLen>
        ensures fits { IsOk result ↔ IsIpv4Options options.now }
        ensures ok { OnOk result (self.new ≡ record self.old { options = options.now }) }
        ensures err { OnErr result (self.new ≡ self.old) }
        ensures refused { IfErr result (λ e. e.bad_len ≡ length options.now) }
    {
        self.options = Ipv4Options::try_from(options)?;
        Ok(())
    }

    /// Whether the packet is a fragment: more fragments follow, or the offset is not 0.
    pub fn is_fragmenting_payload(&self) -> bool
        ensures { result ≡ is_fragmenting self.now.more_fragments self.now.fragment_offset }
    {
        self.more_fragments || self.fragment_offset.value() > 0
    }
}

impl Default for Ipv4Header {
    ghost is_default = { λ header. header ≡ default_header };

    /// Protocol 255, which is reserved, don't-fragment set, and 0 elsewhere.
    fn default() -> Self {
        Ipv4Header {
            dscp: IpDscp::ZERO,
            ecn: IpEcn::ZERO,
            total_len: 0,
            identification: 0,
            dont_fragment: true,
            more_fragments: false,
            fragment_offset: IpFragOffset::ZERO,
            time_to_live: 0,
            protocol: IpNumber(255),
            header_checksum: 0,
            source: [0; 4],
            destination: [0; 4],
            options: Ipv4Options::new(),
        }
    }
}
