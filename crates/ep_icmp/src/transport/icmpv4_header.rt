//! The header of an ICMPv4 message.
ghost use Rattle.std.specs.Prelude.{◌≡◌, ◌+◌, ◌≤◌, ◌++◌, length, IfOk, IfErr, IsOk, OnOk, OnErr, Err, vec_len};
ghost use Rattle.std.specs.Prelude.{vec_capacity};
ghost use Rattle.ep_icmp.specs.Icmpv4.{HeaderFits, IsRead, IsCanonical, ReadableIcmpv4, icmpv4_with_checksum};
ghost use Rattle.ep_icmp.specs.Icmpv4.{fixed_payload_size, header_len, icmpv4_header_of, right_checksum, encoding};
ghost use Rattle.ep_icmp.specs.Icmpv4Fault.{message_at};

use super::{Icmpv4Slice, Icmpv4Type};
use arrayvec::ArrayVec;
use ep_base::err::LenError;
use std::alloc::AllocError;

/// The header of an ICMPv4 message (RFC 792): its kind and its checksum. In its bytes numbers are
/// high byte first.
#[derive(Clone, Debug, PartialEq, Eq, Drop)]
pub struct Icmpv4Header {
    /// The type and code, and what goes with them.
    pub icmp_type: Icmpv4Type,
    /// The checksum over the whole message (RFC 1071).
    pub checksum: u16,
}

impl Icmpv4Header {
    /// The least length of a header in bytes.
    pub const MIN_LEN: usize = 8;

    /// The greatest length of a header in bytes, that of a timestamp message.
    pub const MAX_LEN: usize = 20;

    /// The header of this kind with checksum 0.
    pub fn new(icmp_type: Icmpv4Type) -> Icmpv4Header
        ensures { result ≡ record { icmp_type = icmp_type; checksum = 0 } }
    {
        Icmpv4Header {
            icmp_type,
            checksum: 0,
        }
    }

    /// The header of this kind with the checksum that belongs to this payload.
    pub fn with_checksum(icmp_type: Icmpv4Type, payload: &[u8]) -> Icmpv4Header
        ensures { result ≡ icmpv4_with_checksum icmp_type payload.now }
    {
        let checksum = icmp_type.calc_checksum(payload);
        Icmpv4Header {
            icmp_type,
            checksum,
        }
    }

    /// The header of the message that is this slice, and the bytes after it. Refused are, in this
    /// order, a slice of fewer than 8 bytes (layer `Icmpv4`), and a timestamp request or reply,
    /// which carries no data, of other than 20 bytes (layers `Icmpv4Timestamp` and
    /// `Icmpv4TimestampReply`).
    pub fn from_slice(slice: &[u8]) -> Result<(Icmpv4Header, &[u8]), LenError>
        ensures found { IfOk result (λ r. IsRead slice.now r.0 r.1.now) }
        // A message is read.
        ensures only { ReadableIcmpv4 slice.now → IsOk result }
        // Else it is the first fault.
        ensures err { IfErr result (λ e. message_at slice.now ≡ Err e) }
    {
        let message = Icmpv4Slice::from_slice(slice)?;
        Ok((message.header(), message.payload()))
    }

    /// The length of the header in bytes: 20 for a timestamp message, else 8.
    pub fn header_len(&self) -> usize
        ensures { result ≡ header_len self.now.icmp_type }
    {
        self.icmp_type.header_len()
    }

    /// The length in bytes of what follows the header, where the kind fixes it: nothing follows the
    /// header of a timestamp message.
    pub fn fixed_payload_size(&self) -> Option<usize>
        ensures { result ≡ fixed_payload_size self.now.icmp_type }
    {
        self.icmp_type.fixed_payload_size()
    }

    /// Sets the checksum to the one that belongs to this payload.
    pub fn update_checksum(&mut self, payload: &[u8])
        ensures { self.new ≡ icmpv4_with_checksum self.old.icmp_type payload.now }
    {
        self.checksum = self.icmp_type.calc_checksum(payload);
    }

    /// The bytes of the header, with the checksum as it is.
    ///
    /// They are parsed as the header again, unless it is an `Unknown` of a type and code that has
    /// another variant.
    pub fn to_bytes(&self) -> ArrayVec<u8, 20>
        ensures bytes { result.items ≡ encoding self.now }
        ensures len { length result.items ≡ header_len self.now.icmp_type }
        ensures fits { HeaderFits self.now }
    {
        self.icmp_type.encoded_with(self.checksum)
    }

    /// Appends the bytes of the header, with the checksum as it is.
    ///
    /// Where no memory is left for them, the buffer keeps its bytes.
    pub fn write(&self, buffer: &mut Vec<u8>) -> Result<(), AllocError>
        ensures ok { OnOk result (buffer.new.items ≡ buffer.old.items ++ encoding self.now) }
        ensures len { OnOk result (vec_len buffer.new
            ≡ vec_len buffer.old + header_len self.now.icmp_type) }
        ensures err { OnErr result (buffer.new.items ≡ buffer.old.items) }
        // It fails only where capacity was missing, and capacity never shrinks.
        ensures succeeds { vec_len buffer.old + header_len self.now.icmp_type
            ≤ vec_capacity buffer.old → IsOk result }
        ensures capacity { vec_capacity buffer.old ≤ vec_capacity buffer.new }
    {
        buffer.extend_from_slice(self.to_bytes().as_slice())
    }
}
