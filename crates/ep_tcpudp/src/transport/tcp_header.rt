//! The TCP header as a value, and its checksum.

ghost use Rattle.std.specs.Prelude.{◌≡◌, ◌↔◌, ℕ, ◌+◌, ◌-◌, ◌*◌, ◌%◌, ◌≤◌, List, ◌++◌, length, take, drop, IfOk, IfErr};
ghost use Rattle.std.specs.Prelude.{IsOkAnd, OnOk, OnErr, IsOk, Ok, Err, vec_len, vec_capacity};
ghost use Rattle.ep_base.specs.MessageSum.{SumsWords};
ghost use Rattle.ep_base.specs.Sum.{fold, total};
ghost use Rattle.ep_tcpudp.specs.Limit.{value_up_to};
ghost use Rattle.ep_tcpudp.specs.Options.{options_of_elements};
ghost use Rattle.ep_tcpudp.specs.Tcp.{IsTcpHeader, IsRead, Fits, tcp_header_of, new_header, data_offset, header_len};
ghost use Rattle.ep_base.specs.Bytes.{flag};
ghost use Rattle.ep_tcpudp.specs.Tcp.{flags, encoding};
ghost use Rattle.ep_tcpudp.specs.TcpChecksum.{right_checksum, checksum_v4, checksum_v6};
ghost use Rattle.ep_tcpudp.specs.TcpFault.{header_at};
ghost use Rattle.ep_tcpudp.specs.TcpOptions.{IsTcpOptions, whole_options};

use super::limit::at_most;
use crate::err::tcp::HeaderSliceError;
use crate::{
    TcpHeaderSlice, TcpOptionElement, TcpOptionWriteError, TcpOptions, TcpOptionsIterator,
};
use arrayvec::ArrayVec;
use ep_base::IpNumber;
use ep_base::checksum::{Sum16BitWords, message_sum};
use ep_base::err::{ValueTooBigError, ValueType};
use ep_ip::checksum::{pseudo_sum_v4, pseudo_sum_v6};
use ep_ip::{Ipv4Header, Ipv6Header};
use std::alloc::AllocError;

/// A TCP header (RFC 9293, section 3.1): its fields without the data offset, which follows from the
/// options, and the reserved bits. In its bytes numbers are high byte first.
#[derive(Clone, Debug, PartialEq, Eq, Drop)]
pub struct TcpHeader {
    /// The port that the segment comes from.
    pub source_port: u16,
    /// The port that it goes to.
    pub destination_port: u16,
    /// The number of the first byte of the payload in the stream, or, where `syn` is set, the
    /// initial number, which is one less.
    pub sequence_number: u32,
    /// The number that the sender expects next; it counts where `ack` is set.
    pub acknowledgment_number: u32,
    /// Against concealed congestion notifications (RFC 3540).
    pub ns: bool,
    /// The sender has no more data.
    pub fin: bool,
    /// Sequence numbers are agreed on.
    pub syn: bool,
    /// The connection is reset.
    pub rst: bool,
    /// The data is to be passed on at once.
    pub psh: bool,
    /// The acknowledgment number counts.
    pub ack: bool,
    /// The urgent pointer counts.
    pub urg: bool,
    /// Congestion was met (RFC 3168, section 6.1).
    pub ece: bool,
    /// The sender has slowed down (RFC 3168, section 6.1).
    pub cwr: bool,
    /// How many bytes more the sender takes.
    pub window_size: u16,
    /// The checksum.
    pub checksum: u16,
    /// Where the urgent data ends, from the sequence number on; it counts where `urg` is set.
    pub urgent_pointer: u16,
    /// The options.
    pub options: TcpOptions,
}

impl TcpHeader {
    /// The length in bytes of a header with no options.
    pub const MIN_LEN: usize = 20;

    /// The length in bytes of a header with 40 bytes of options.
    pub const MAX_LEN: usize = 60;

    /// The data offset of a header with no options.
    pub const MIN_DATA_OFFSET: u8 = 5;

    /// The data offset of a header with 40 bytes of options.
    pub const MAX_DATA_OFFSET: u8 = 15;

    /// A header with these numbers, no options, no flags, and 0 elsewhere.
    #[inline(always)]
    pub fn new(
        source_port: u16,
        destination_port: u16,
        sequence_number: u32,
        window_size: u16,
    ) -> TcpHeader
        ensures { result ≡ new_header source_port destination_port sequence_number window_size }
    {
        TcpHeader {
            source_port,
            destination_port,
            sequence_number,
            acknowledgment_number: 0,
            ns: false,
            fin: false,
            syn: false,
            rst: false,
            psh: false,
            ack: false,
            urg: false,
            ece: false,
            cwr: false,
            window_size,
            checksum: 0,
            urgent_pointer: 0,
            options: TcpOptions::new(),
        }
    }

    /// The header's length in words of 4 bytes, from 5 to 15.
    #[inline(always)]
    pub fn data_offset(&self) -> u8
        ensures value { result ≡ data_offset self.now }
        ensures small { result ≤ 15 }
        ensures options { IsTcpOptions self.now.options }
    {
        TcpHeader::MIN_DATA_OFFSET + (self.options.len() / 4) as u8
    }

    /// The header's length in bytes, from 20 to 60.
    #[inline(always)]
    pub fn header_len(&self) -> usize
        ensures value { result ≡ header_len self.now }
        ensures small { result ≤ 60 }
    {
        TcpHeader::MIN_LEN + self.options.len()
    }

    /// The bytes of the options.
    pub fn options(&self) -> &[u8]
        ensures bytes { result.now ≡ self.now.options }
        ensures options { IsTcpOptions result.now }
    {
        self.options.as_slice()
    }

    /// The elements that the options encode, one after the other.
    pub fn options_iterator(&self) -> TcpOptionsIterator<'_>
        ensures { result ≡ self.now.options }
    {
        self.options.elements_iter()
    }

    /// Makes these elements the options, as [`TcpOptions::try_from_elements`] does. The header gets
    /// the data offset that goes with them.
    ///
    /// Elements that need more than 40 bytes are refused, and the header is unchanged.
    pub fn set_options(&mut self, options: &[TcpOptionElement]) -> Result<(), TcpOptionWriteError>
        ensures ok { IfOk (options_of_elements options.now)
            (λ bytes. (result ≡ Ok tt) × (self.new ≡ record self.old { options = bytes })) }
        ensures err { IfErr (options_of_elements options.now)
            (λ e. (result ≡ Err e) × (self.new ≡ self.old)) }
    {
        self.options = TcpOptions::try_from_elements(options)?;
        Ok(())
    }

    /// Makes these bytes the options, filled up with 0 to whole words. The header gets the data
    /// offset that goes with them.
    ///
    /// More than 40 bytes are refused with their number, and the header is unchanged.
    pub fn set_options_raw(&mut self, data: &[u8]) -> Result<(), TcpOptionWriteError>
        ensures fits { IsOk result ↔ (length data.now ≤ 40) }
        ensures ok { OnOk result (self.new ≡ record self.old { options = whole_options data.now }) }
        ensures err { OnErr result (self.new ≡ self.old) }
        ensures refused { IfErr result
            (λ e. e ≡ TcpOptionWriteError.NotEnoughSpace (length data.now)) }
    {
        self.options = TcpOptions::try_from_slice(data)?;
        Ok(())
    }

    /// The header at the start of the slice, and what follows it. The reserved bits are dropped.
    ///
    /// Refused as [`TcpHeaderSlice::from_slice`] refuses. The checksum is not tested, nor are the
    /// options.
    pub fn from_slice(slice: &[u8]) -> Result<(TcpHeader, &[u8]), HeaderSliceError>
        // The slice starts with a header, which has these fields.
        ensures found { IfOk result (λ r. IsRead slice.now r.0 r.1.now) }
        // A prefix that is a header is parsed.
        ensures only { (prefix rest : List ℕ) → IsTcpHeader prefix → slice.now ≡ prefix ++ rest
            → IsOkAnd result (λ r. (r.0 ≡ tcp_header_of prefix) × (r.1.now ≡ rest)) }
        // Else it is the first fault.
        ensures err { IfErr result (λ e. header_at slice.now ≡ Err e) }
    {
        let header = TcpHeaderSlice::from_slice(slice)?;
        let rest = &slice[header.slice().len()..];
        Ok((header.to_header(), rest))
    }

    /// The bytes of the header: the reserved bits are 0, and the checksum is that of the field.
    ///
    /// The data offset comes from the options.
    #[inline(always)]
    pub fn to_bytes(&self) -> ArrayVec<u8, 60>
        ensures bytes { result.items ≡ encoding self.now }
        ensures len { length result.items ≡ header_len self.now }
        // They are a header, with these fields.
        ensures header { IsTcpHeader result.items }
        ensures fields { tcp_header_of result.items ≡ self.now }
    {
        self.encoded()
    }

    #[inline(always)]
    fn encoded(&self) -> ArrayVec<u8, 60>
        ensures bytes { result.items ≡ encoding self.now }
        ensures len { length result.items ≡ header_len self.now }
        ensures fits { Fits self.now }
    {
        let mut bytes = ArrayVec::new();
        bytes
            .try_extend_from_slice(&self.fixed_bytes_with(self.checksum))
            .unwrap();
        bytes
            .try_extend_from_slice(self.options.as_slice())
            .unwrap();
        bytes
    }

    // The 20 bytes before the options, with this checksum.
    #[inline(always)]
    fn fixed_bytes_with(&self, checksum: u16) -> [u8; 20]
        ensures bytes { result ++ self.now.options
            ≡ encoding (record self.now { checksum = checksum }) }
        ensures fits { Fits (record self.now { checksum = checksum }) }
    {
        let source_port = self.source_port.to_be_bytes();
        let destination_port = self.destination_port.to_be_bytes();
        let sequence_number = self.sequence_number.to_be_bytes();
        let acknowledgment_number = self.acknowledgment_number.to_be_bytes();
        let window_size = self.window_size.to_be_bytes();
        let checksum = checksum.to_be_bytes();
        let urgent_pointer = self.urgent_pointer.to_be_bytes();
        [
            source_port[0],
            source_port[1],
            destination_port[0],
            destination_port[1],
            sequence_number[0],
            sequence_number[1],
            sequence_number[2],
            sequence_number[3],
            acknowledgment_number[0],
            acknowledgment_number[1],
            acknowledgment_number[2],
            acknowledgment_number[3],
            self.offset_and_ns(),
            self.flags(),
            window_size[0],
            window_size[1],
            checksum[0],
            checksum[1],
            urgent_pointer[0],
            urgent_pointer[1],
        ]
    }

    #[inline(always)]
    fn offset_and_ns(&self) -> u8
        ensures value { result ≡ data_offset self.now * 16 + flag self.now.ns 1 }
        ensures options { IsTcpOptions self.now.options }
    {
        self.data_offset() * 16 + flag(self.ns, 1)
    }

    #[inline(always)]
    fn flags(&self) -> u8
        ensures { result ≡ flags self.now }
    {
        flag(self.cwr, 128)
            + flag(self.ece, 64)
            + flag(self.urg, 32)
            + flag(self.ack, 16)
            + flag(self.psh, 8)
            + flag(self.rst, 4)
            + flag(self.syn, 2)
            + flag(self.fin, 1)
    }

    /// Appends the bytes of the header, with the checksum as it is.
    ///
    /// Where no memory is left for them, the buffer keeps its bytes.
    #[inline(always)]
    pub fn write(&self, buffer: &mut Vec<u8>) -> Result<(), AllocError>
        ensures ok { OnOk result (buffer.new.items ≡ buffer.old.items ++ encoding self.now) }
        ensures len { OnOk result (vec_len buffer.new ≡ vec_len buffer.old + header_len self.now) }
        ensures err { OnErr result (buffer.new.items ≡ buffer.old.items) }
        // It fails only where capacity was missing, and capacity never shrinks.
        ensures succeeds { vec_len buffer.old + header_len self.now ≤ vec_capacity buffer.old
            → IsOk result }
        ensures capacity { vec_capacity buffer.old ≤ vec_capacity buffer.new }
    {
        buffer.extend_from_slice(self.to_bytes().as_slice())
    }

    /// The checksum over IPv4: of the pseudo header between the addresses of this header, of the
    /// TCP header with its checksum as 0, and of the payload.
    ///
    /// A payload above 65535 bytes less the header is refused.
    #[inline(always)]
    pub fn calc_checksum_ipv4(
        &self,
        ip_header: &Ipv4Header,
        payload: &[u8],
    ) -> Result<u16, ValueTooBigError<usize>>
        ensures { result ≡ value_up_to ValueType.TcpPayloadLengthIpv4
            (65535 - header_len self.now) (length payload.now)
            (checksum_v4 ip_header.now.source ip_header.now.destination self.now payload.now) }
    {
        self.calc_checksum_ipv4_raw(ip_header.source, ip_header.destination, payload)
    }

    /// The same between these addresses.
    #[inline(always)]
    pub fn calc_checksum_ipv4_raw(
        &self,
        source: [u8; 4],
        destination: [u8; 4],
        payload: &[u8],
    ) -> Result<u16, ValueTooBigError<usize>>
        ensures { result ≡ value_up_to ValueType.TcpPayloadLengthIpv4
            (65535 - header_len self.now) (length payload.now)
            (checksum_v4 source destination self.now payload.now) }
    {
        let max_payload_len = u16::MAX as usize - self.header_len();
        at_most(
            payload.len(),
            max_payload_len,
            ValueType::TcpPayloadLengthIpv4,
        )?;
        let len = (self.header_len() + payload.len()) as u16;
        let pseudo = pseudo_sum_v4(source, destination, IpNumber::TCP, len);
        Ok(self.checksum_after(pseudo, payload))
    }

    /// The checksum over IPv6, as [`TcpHeader::calc_checksum_ipv4`] over IPv4.
    ///
    /// A payload above 4294967295 bytes less the header is refused.
    #[inline(always)]
    pub fn calc_checksum_ipv6(
        &self,
        ip_header: &Ipv6Header,
        payload: &[u8],
    ) -> Result<u16, ValueTooBigError<usize>>
        ensures { result ≡ value_up_to ValueType.TcpPayloadLengthIpv6
            (4294967295 - header_len self.now) (length payload.now)
            (checksum_v6 ip_header.now.source ip_header.now.destination self.now payload.now) }
    {
        self.calc_checksum_ipv6_raw(ip_header.source, ip_header.destination, payload)
    }

    /// The same between these addresses.
    #[inline(always)]
    pub fn calc_checksum_ipv6_raw(
        &self,
        source: [u8; 16],
        destination: [u8; 16],
        payload: &[u8],
    ) -> Result<u16, ValueTooBigError<usize>>
        ensures { result ≡ value_up_to ValueType.TcpPayloadLengthIpv6
            (4294967295 - header_len self.now) (length payload.now)
            (checksum_v6 source destination self.now payload.now) }
    {
        let max_payload_len = u32::MAX as usize - self.header_len();
        at_most(
            payload.len(),
            max_payload_len,
            ValueType::TcpPayloadLengthIpv6,
        )?;
        let len = (self.header_len() + payload.len()) as u32;
        let pseudo = pseudo_sum_v6(source, destination, IpNumber::TCP, len);
        Ok(self.checksum_after(pseudo, payload))
    }

    // The checksum after a pseudo header with this sum.
    #[inline(always)]
    fn checksum_after(&self, pseudo: Sum16BitWords, payload: &[u8]) -> u16
        ensures { (prefix : List ℕ) → SumsWords pseudo prefix
            → result ≡ right_checksum prefix self.now payload.now }
    {
        self.sum_after(pseudo, payload)
            .ones_complement()
            .swap_bytes()
    }

    #[inline(always)]
    fn sum_after(&self, pseudo: Sum16BitWords, payload: &[u8]) -> Sum16BitWords
        ensures { (prefix : List ℕ) → SumsWords pseudo prefix
            → result ≡ fold
            (total (prefix ++ encoding (record self.now { checksum = 0 }) ++ payload.now)) }
    {
        message_sum(pseudo, &self.fixed_bytes_with(0), self.options.as_slice()).add_slice(payload)
    }
}

impl Default for TcpHeader {
    ghost is_default = { λ header. header ≡ new_header 0 0 0 0 };

    /// 0, unset and empty in every field.
    fn default() -> Self {
        TcpHeader::new(0, 0, 0, 0)
    }
}

// A flag at its bit.
fn flag(set: bool, worth: u8) -> u8
    ensures value { result ≡ flag set worth }
    ensures small { result ≤ worth }
{
    if set { worth } else { 0 }
}
