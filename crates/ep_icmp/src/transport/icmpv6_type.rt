//! The kinds of ICMPv6 messages.
ghost use Rattle.std.specs.Prelude.{◌≡◌, ℕ, ◌++◌, List, MatchResult, None, Ok, length};
ghost use Rattle.ep_base.specs.Bounded.{too_big};
ghost use Rattle.ep_base.specs.MessageSum.{SumsWords};
ghost use Rattle.ep_base.specs.Sum.{fold, total};
ghost use Rattle.ep_icmp.specs.Icmpv6.{FieldsFit, Fits, icmpv6_with_checksum, layout_of, pseudo, right_checksum};
ghost use Rattle.ep_icmp.specs.Layout.{bytes_of_layout, bytes_of_fields};
ghost use Rattle.ep_icmp.specs.Limit.{IsWithin};

use super::icmpv6::{DestUnreachableCode, ParameterProblemHeader, TimeExceededCode};
use super::{IcmpEchoHeader, Icmpv6Header};
use ep_base::checksum::{Sum16BitWords, message_sum};
use ep_base::err::{ValueTooBigError, ValueType};
use ep_base::ip_number;
use ep_ip::checksum::pseudo_sum_v6;

/// The kind of an ICMPv6 message: its type, its code and bytes 4 to 7 of its header (RFC 4443,
/// section 2.1). The kinds of neighbor discovery (types 133 to 137) are `Unknown`.
#[derive(Clone, Debug, PartialEq, Eq, Drop)]
pub enum Icmpv6Type {
    /// A type and code that no other variant has.
    Unknown {
        /// The type.
        type_u8: u8,
        /// The code.
        code_u8: u8,
        /// What follows the checksum, bytes 4 to 7.
        bytes5to8: [u8; 4],
    },
    /// A packet couldn't be delivered (type 1, codes 0 to 6).
    DestinationUnreachable(DestUnreachableCode),
    /// A packet is bigger than the next link takes (type 2, code 0).
    PacketTooBig {
        /// The greatest packet in bytes that the next link takes (RFC 4443, section 3.2).
        mtu: u32,
    },
    /// A packet or its fragments took too long (type 3, codes 0 and 1).
    TimeExceeded(TimeExceededCode),
    /// A packet's headers have a fault (type 4, codes 0 to 10).
    ParameterProblem(ParameterProblemHeader),
    /// An echo request (type 128, code 0).
    EchoRequest(IcmpEchoHeader),
    /// The reply to an echo request (type 129, code 0).
    EchoReply(IcmpEchoHeader),
}

impl Icmpv6Type {
    /// The length of the header in bytes, 8 for each kind.
    pub fn header_len(&self) -> usize
        ensures { result ≡ 8 }
    {
        Icmpv6Header::MIN_LEN
    }

    /// The length in bytes of what follows the header, where the kind fixes it: none does.
    pub fn fixed_payload_size(&self) -> Option<usize>
        ensures { result ≡ None }
    {
        None
    }

    /// The type.
    pub fn type_u8(&self) -> u8
        ensures { result ≡ (layout_of self.now).type_u8 }
    {
        match self {
            Icmpv6Type::Unknown { type_u8, .. } => *type_u8,
            Icmpv6Type::DestinationUnreachable(_) => 1,
            Icmpv6Type::PacketTooBig { .. } => 2,
            Icmpv6Type::TimeExceeded(_) => 3,
            Icmpv6Type::ParameterProblem(_) => 4,
            Icmpv6Type::EchoRequest(_) => 128,
            Icmpv6Type::EchoReply(_) => 129,
        }
    }

    /// The code.
    pub fn code_u8(&self) -> u8
        ensures { result ≡ (layout_of self.now).code_u8 }
    {
        match self {
            Icmpv6Type::Unknown { code_u8, .. } => *code_u8,
            Icmpv6Type::DestinationUnreachable(code) => code.code_u8(),
            Icmpv6Type::TimeExceeded(code) => code.code_u8(),
            Icmpv6Type::ParameterProblem(header) => header.code.code_u8(),
            Icmpv6Type::PacketTooBig { .. }
            | Icmpv6Type::EchoRequest(_)
            | Icmpv6Type::EchoReply(_) => 0,
        }
    }

    /// The checksum of the message of this kind with this payload between these addresses: the
    /// complement of the ones-complement sum of the 16-bit words of a pseudo header, of the header
    /// with its checksum as 0, and of the payload (RFC 4443, section 2.3; RFC 8200, section 8.1).
    ///
    /// A payload of more than 4294967287 bytes is refused, since the pseudo header has 32 bits for
    /// the message's length.
    #[inline(always)]
    pub fn calc_checksum(
        &self,
        source: [u8; 16],
        destination: [u8; 16],
        payload: &[u8],
    ) -> Result<u16, ValueTooBigError<usize>>
        ensures { IsWithin (right_checksum source destination self.now payload.now)
            (length payload.now) result }
    {
        let max_allowed = u32::MAX as usize - self.header_len();
        if payload.len() > max_allowed {
            return Err(ValueTooBigError {
                actual: payload.len(),
                max_allowed,
                value_type: ValueType::Icmpv6PayloadLength,
            });
        }
        let len = (self.header_len() + payload.len()) as u32;
        let pseudo = pseudo_sum_v6(source, destination, ip_number::IPV6_ICMP, len);
        let sum = self.sum_after(pseudo, payload);
        Ok(sum.ones_complement().swap_bytes())
    }

    // The sum of the message with this payload, its checksum as 0, after a pseudo header with this
    // sum.
    fn sum_after(&self, pseudo: Sum16BitWords, payload: &[u8]) -> Sum16BitWords
        ensures { (prefix : List ℕ) → SumsWords pseudo prefix
            → result ≡ fold (total (prefix ++ bytes_of_layout (layout_of self.now) 0
            ++ payload.now)) }
    {
        message_sum(pseudo, &self.encoded_with(0), payload)
    }

    // The header with this checksum.
    pub(crate) fn encoded_with(&self, checksum: u16) -> [u8; 8]
        ensures bytes { result ≡ bytes_of_layout (layout_of self.now) checksum }
        ensures fits { Fits self.now }
    {
        let [c0, c1] = checksum.to_be_bytes();
        let [b0, b1, b2, b3] = self.bytes5to8();
        [self.type_u8(), self.code_u8(), c0, c1, b0, b1, b2, b3]
    }

    /// The header of this kind with the checksum that belongs to these addresses and this payload.
    /// Refused as by [`Icmpv6Type::calc_checksum`].
    pub fn to_header(
        self,
        source: [u8; 16],
        destination: [u8; 16],
        payload: &[u8],
    ) -> Result<Icmpv6Header, ValueTooBigError<usize>>
        ensures { IsWithin (icmpv6_with_checksum source destination self payload.now)
            (length payload.now) result }
    {
        Icmpv6Header::with_checksum(self, source, destination, payload)
    }

    // What follows the checksum.
    fn bytes5to8(&self) -> [u8; 4]
        ensures bytes { result ≡ bytes_of_fields (layout_of self.now).fields }
        ensures fits { FieldsFit self.now }
    {
        match self {
            Icmpv6Type::Unknown { bytes5to8, .. } => {
                let [b0, b1, b2, b3] = *bytes5to8;
                [b0, b1, b2, b3]
            }
            Icmpv6Type::DestinationUnreachable(_) | Icmpv6Type::TimeExceeded(_) => [0; 4],
            Icmpv6Type::PacketTooBig { mtu } => mtu.to_be_bytes(),
            Icmpv6Type::ParameterProblem(header) => header.pointer.to_be_bytes(),
            Icmpv6Type::EchoRequest(echo) | Icmpv6Type::EchoReply(echo) => echo.to_bytes(),
        }
    }
}
