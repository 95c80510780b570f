//! The kinds of ICMPv4 messages.
ghost use Rattle.std.specs.Prelude.{◌≡◌, ◌++◌, length, take};
ghost use Rattle.std.specs.Option.{option_copied};
ghost use Rattle.ep_base.specs.Sum.{fold, total};
ghost use Rattle.ep_icmp.specs.Icmpv4.{FieldsFit, Fits, fixed_payload_size, header_len, layout_of, right_checksum};
ghost use Rattle.ep_icmp.specs.Icmpv4.{timestamp_of};
ghost use Rattle.ep_icmp.specs.Layout.{prefix, bytes_of_layout, bytes_of_fields};

use super::icmpv4::{
    DestUnreachableHeader, ParameterProblemHeader, RedirectHeader, TimeExceededCode,
    TimestampMessage,
};
use super::{IcmpEchoHeader, Icmpv4Header};
use arrayvec::ArrayVec;
use ep_base::checksum::{Sum16BitWords, message_sum};

/// The kind of an ICMPv4 message: its type, its code and what follows the checksum in its header
/// (RFC 792).
#[derive(Clone, Debug, PartialEq, Eq, Drop)]
pub enum Icmpv4Type {
    /// A type and code that no other variant has.
    Unknown {
        /// The type.
        type_u8: u8,
        /// The code.
        code_u8: u8,
        /// What follows the checksum, bytes 4 to 7.
        bytes5to8: [u8; 4],
    },
    /// The reply to an echo request (type 0, code 0).
    EchoReply(IcmpEchoHeader),
    /// A packet couldn't be delivered (type 3, codes 0 to 15).
    DestinationUnreachable(DestUnreachableHeader),
    /// Another gateway is the better one (type 5, codes 0 to 3).
    Redirect(RedirectHeader),
    /// An echo request (type 8, code 0).
    EchoRequest(IcmpEchoHeader),
    /// A packet or its fragments took too long (type 11, codes 0 and 1).
    TimeExceeded(TimeExceededCode),
    /// A packet's header has a fault (type 12, codes 0 to 2).
    ParameterProblem(ParameterProblemHeader),
    /// A request for the receiver's time (type 13, code 0).
    TimestampRequest(TimestampMessage),
    /// The reply to a timestamp request (type 14, code 0).
    TimestampReply(TimestampMessage),
}

impl Icmpv4Type {
    /// The length of the header in bytes: 20 for a timestamp message, else 8.
    pub fn header_len(&self) -> usize
        ensures { result ≡ header_len self.now }
    {
        match self {
            Icmpv4Type::TimestampRequest(_) | Icmpv4Type::TimestampReply(_) =>
                TimestampMessage::LEN,
            _ => Icmpv4Header::MIN_LEN,
        }
    }

    /// The length in bytes of what follows the header, where the kind fixes it: nothing follows the
    /// header of a timestamp message.
    pub fn fixed_payload_size(&self) -> Option<usize>
        ensures { result ≡ fixed_payload_size self.now }
    {
        match self {
            Icmpv4Type::TimestampRequest(_) | Icmpv4Type::TimestampReply(_) => Some(0),
            _ => None,
        }
    }

    /// The checksum of the message of this kind with this payload: the complement of the
    /// ones-complement sum of the 16-bit words of the header, with its checksum as 0, and of the
    /// payload (RFC 792; RFC 1071). There is no pseudo header.
    #[inline(always)]
    pub fn calc_checksum(&self, payload: &[u8]) -> u16
        ensures { result ≡ right_checksum self.now payload.now }
    {
        self.sum_with(payload).ones_complement().swap_bytes()
    }

    // The sum of the message with this payload, its checksum as 0.
    #[inline(always)]
    fn sum_with(&self, payload: &[u8]) -> Sum16BitWords
        ensures { result ≡ fold (total (bytes_of_layout (layout_of self.now) 0 ++ payload.now)) }
    {
        let prefix = self.prefix_with(0);
        match self.timestamp() {
            Some(message) => message_sum(
                Sum16BitWords::new(),
                &prefix,
                &message.to_bytes()[4..],
            ).add_slice(payload),
            None => message_sum(Sum16BitWords::new(), &prefix, payload),
        }
    }

    // The first eight bytes of the header, with this checksum.
    fn prefix_with(&self, checksum: u16) -> [u8; 8]
        ensures bytes { result ≡ prefix (layout_of self.now) checksum }
        ensures fits { Fits self.now }
    {
        let [c0, c1] = checksum.to_be_bytes();
        let [b0, b1, b2, b3] = self.bytes5to8();
        [self.type_u8(), self.code_u8(), c0, c1, b0, b1, b2, b3]
    }

    // The header with this checksum.
    pub(crate) fn encoded_with(&self, checksum: u16) -> ArrayVec<u8, 20>
        ensures bytes { result.items ≡ bytes_of_layout (layout_of self.now) checksum }
        ensures len { length result.items ≡ header_len self.now }
        ensures fits { Fits self.now }
    {
        let mut bytes = ArrayVec::new();
        bytes
            .try_extend_from_slice(&self.prefix_with(checksum))
            .unwrap();
        if let Some(message) = self.timestamp() {
            bytes
                .try_extend_from_slice(&message.to_bytes()[4..])
                .unwrap();
        }
        bytes
    }

    fn timestamp(&self) -> Option<&TimestampMessage>
        ensures { option_copied result ≡ timestamp_of self.now }
    {
        match self {
            Icmpv4Type::TimestampRequest(message) | Icmpv4Type::TimestampReply(message) => Some(
                message,
            ),
            _ => None,
        }
    }

    fn type_u8(&self) -> u8
        ensures { result ≡ (layout_of self.now).type_u8 }
    {
        match self {
            Icmpv4Type::Unknown { type_u8, .. } => *type_u8,
            Icmpv4Type::EchoReply(_) => 0,
            Icmpv4Type::DestinationUnreachable(_) => 3,
            Icmpv4Type::Redirect(_) => 5,
            Icmpv4Type::EchoRequest(_) => 8,
            Icmpv4Type::TimeExceeded(_) => 11,
            Icmpv4Type::ParameterProblem(_) => 12,
            Icmpv4Type::TimestampRequest(_) => 13,
            Icmpv4Type::TimestampReply(_) => 14,
        }
    }

    fn code_u8(&self) -> u8
        ensures { result ≡ (layout_of self.now).code_u8 }
    {
        match self {
            Icmpv4Type::Unknown { code_u8, .. } => *code_u8,
            Icmpv4Type::DestinationUnreachable(header) => header.code_u8(),
            Icmpv4Type::Redirect(header) => header.code.code_u8(),
            Icmpv4Type::TimeExceeded(code) => code.code_u8(),
            Icmpv4Type::ParameterProblem(header) => header.code_u8(),
            Icmpv4Type::EchoReply(_)
            | Icmpv4Type::EchoRequest(_)
            | Icmpv4Type::TimestampRequest(_)
            | Icmpv4Type::TimestampReply(_) => 0,
        }
    }

    fn bytes5to8(&self) -> [u8; 4]
        ensures bytes { result ≡ take 4 (bytes_of_fields (layout_of self.now).fields) }
        ensures fits { FieldsFit self.now }
    {
        // Echo messages, which are most, need no jump by a table.
        if let Icmpv4Type::EchoReply(echo) | Icmpv4Type::EchoRequest(echo) = self {
            return echo.to_bytes();
        }
        match self {
            Icmpv4Type::Unknown { bytes5to8, .. } => {
                let [b0, b1, b2, b3] = *bytes5to8;
                [b0, b1, b2, b3]
            }
            Icmpv4Type::EchoReply(echo) | Icmpv4Type::EchoRequest(echo) => echo.to_bytes(),
            Icmpv4Type::DestinationUnreachable(header) => header.bytes5to8(),
            Icmpv4Type::Redirect(header) => {
                let [a0, a1, a2, a3] = header.gateway_internet_address;
                [a0, a1, a2, a3]
            }
            Icmpv4Type::TimeExceeded(_) => [0; 4],
            Icmpv4Type::ParameterProblem(header) => header.bytes5to8(),
            Icmpv4Type::TimestampRequest(message) | Icmpv4Type::TimestampReply(message) => {
                let [i0, i1, s0, s1, ..] = message.to_bytes();
                [i0, i1, s0, s1]
            }
        }
    }
}
