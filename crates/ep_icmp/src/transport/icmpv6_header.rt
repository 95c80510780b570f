//! The header of an ICMPv6 message.
ghost use Rattle.std.specs.Prelude.{◌≡◌, ◌+◌, ◌≤◌, ◌++◌, ◌<◌, length, IfOk, IfErr, IsOk, MatchResult, None, OnOk};
ghost use Rattle.std.specs.Prelude.{OnErr, Err, vec_len, vec_capacity};
ghost use Rattle.ep_base.specs.Bounded.{too_big};
ghost use Rattle.ep_icmp.specs.Icmpv6.{HeaderFits, IsRead, ReadableIcmpv6, icmpv6_with_checksum, encoding};
ghost use Rattle.ep_icmp.specs.Icmpv6Fault.{message_at};
ghost use Rattle.ep_icmp.specs.Limit.{IsWithin, greatest_payload};

use super::{Icmpv6Slice, Icmpv6Type};
use arrayvec::ArrayVec;
use ep_base::err::{LenError, ValueTooBigError, ValueType};
use std::alloc::AllocError;

/// The header of an ICMPv6 message (RFC 4443, section 2.1): its kind and its checksum. In its bytes
/// numbers are high byte first.
#[derive(Clone, Debug, PartialEq, Eq, Drop)]
pub struct Icmpv6Header {
    /// The type and code, and what goes with them.
    pub icmp_type: Icmpv6Type,
    /// The checksum over a pseudo header and the whole message (RFC 4443, section 2.3).
    pub checksum: u16,
}

impl Icmpv6Header {
    /// The length of each header in bytes.
    pub const MIN_LEN: usize = 8;

    /// How many bytes `to_bytes` has space for.
    pub const MAX_LEN: usize = 40;

    /// The header of this kind with checksum 0.
    pub fn new(icmp_type: Icmpv6Type) -> Icmpv6Header
        ensures { result ≡ record { icmp_type = icmp_type; checksum = 0 } }
    {
        Icmpv6Header {
            icmp_type,
            checksum: 0,
        }
    }

    /// The header of this kind with the checksum that belongs to these addresses and this payload.
    /// Refused as by [`Icmpv6Type::calc_checksum`].
    pub fn with_checksum(
        icmp_type: Icmpv6Type,
        source: [u8; 16],
        destination: [u8; 16],
        payload: &[u8],
    ) -> Result<Icmpv6Header, ValueTooBigError<usize>>
        ensures { IsWithin (icmpv6_with_checksum source destination icmp_type payload.now)
            (length payload.now) result }
    {
        let checksum = icmp_type.calc_checksum(source, destination, payload)?;
        Ok(Icmpv6Header {
            icmp_type,
            checksum,
        })
    }

    /// The header of the message that is this slice, and the bytes after it. A slice of fewer than
    /// 8 bytes is refused (layer `Icmpv6`).
    pub fn from_slice(slice: &[u8]) -> Result<(Icmpv6Header, &[u8]), LenError>
        ensures found { IfOk result (λ r. IsRead slice.now r.0 r.1.now) }
        // A message is read.
        ensures only { ReadableIcmpv6 slice.now → IsOk result }
        // Else bytes are missing.
        ensures err { IfErr result (λ e. message_at slice.now ≡ Err e) }
    {
        let message = Icmpv6Slice::from_slice(slice)?;
        Ok((message.header(), message.payload()))
    }

    /// The length of the header in bytes, 8 for each kind.
    pub fn header_len(&self) -> usize
        ensures { result ≡ 8 }
    {
        self.icmp_type.header_len()
    }

    /// The length in bytes of what follows the header, where the kind fixes it: none does.
    pub fn fixed_payload_size(&self) -> Option<usize>
        ensures { result ≡ None }
    {
        self.icmp_type.fixed_payload_size()
    }

    /// Sets the checksum to the one that belongs to these addresses and this payload. Refused as by
    /// [`Icmpv6Type::calc_checksum`], with the header unchanged.
    pub fn update_checksum(
        &mut self,
        source: [u8; 16],
        destination: [u8; 16],
        payload: &[u8],
    ) -> Result<(), ValueTooBigError<usize>>
        ensures ok { OnOk result
            (self.new ≡ icmpv6_with_checksum source destination self.old.icmp_type payload.now) }
        ensures err { OnErr result (self.new ≡ self.old) }
        ensures outcome { MatchResult result (λ _. length payload.now ≤ greatest_payload)
            (λ e. (greatest_payload < length payload.now)
            × (e ≡ too_big ValueType.Icmpv6PayloadLength greatest_payload (length payload.now))) }
    {
        self.checksum = self.icmp_type.calc_checksum(source, destination, payload)?;
        Ok(())
    }

    /// The bytes of the header, with the checksum as it is.
    ///
    /// They are parsed as the header again, unless it is an `Unknown` of a type and code that has
    /// another variant.
    pub fn to_bytes(&self) -> ArrayVec<u8, 40>
        ensures bytes { result.items ≡ encoding self.now }
        ensures len { length result.items ≡ 8 }
        ensures fits { HeaderFits self.now }
    {
        let mut bytes = ArrayVec::new();
        bytes
            .try_extend_from_slice(&self.icmp_type.encoded_with(self.checksum))
            .unwrap();
        bytes
    }

    /// Appends the bytes of the header, with the checksum as it is.
    ///
    /// Where no memory is left for them, the buffer keeps its bytes.
    pub fn write(&self, buffer: &mut Vec<u8>) -> Result<(), AllocError>
        ensures ok { OnOk result (buffer.new.items ≡ buffer.old.items ++ encoding self.now) }
        ensures len { OnOk result (vec_len buffer.new ≡ vec_len buffer.old + 8) }
        ensures err { OnErr result (buffer.new.items ≡ buffer.old.items) }
        // It fails only where capacity was missing, and capacity never shrinks.
        ensures succeeds { vec_len buffer.old + 8 ≤ vec_capacity buffer.old → IsOk result }
        ensures capacity { vec_capacity buffer.old ≤ vec_capacity buffer.new }
    {
        buffer.extend_from_slice(self.to_bytes().as_slice())
    }
}
