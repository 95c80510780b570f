//! A message of neighbor discovery, borrowed.
ghost use Rattle.std.specs.Prelude.{◌≡◌, ◌≤◌, ℕ, List, length, nat_eq};
ghost use Rattle.std.specs.Cmp.Lexicographic.{pointwise};
ghost use Rattle.std.specs.Cmp.Rules.{comparing};
ghost use Rattle.std.proofs.Common.{rules};
ghost use Rattle.ep_base.specs.Bytes.{num};
ghost use Rattle.ep_icmp.specs.Ndp as ndp;
ghost use Rattle.ep_icmp.specs.NdpOptions.{items_of};
ghost use Rattle.ep_icmp.specs.NdpValid as valid;

use super::super::super::icmpv6_slice::is_sum_valid;
use super::{NdpError, NdpHeader, NdpInvalid, NdpMessage, NdpOption, NdpOptionsIterator};
use crate::Icmpv6Slice;
use ep_base::err::{Layer, LenError};
use std::marker::Model;

/// A message of neighbor discovery (RFC 4861, section 4), borrowed, with its options. That it is
/// long enough for its type was tested when the value was made, so that getters test nothing. A
/// contract sees the value as its bytes, type and checksum among them.
#[derive(Clone, Debug, Drop)]
pub struct NdpSlice<'a> {
    slice: &'a [u8],
}

impl<'a> Model for NdpSlice<'a> {
    ghost Value = { List ℕ };

    ghost view = { λ message. message.slice.now };

    ghost invariant = { λ message. ndp.IsNdp message.slice.now };
}

#[tactic(auto, using(ep_base::proofs::Bits::masks, ep_base::proofs::Bits::flag_tests))]
impl<'a> NdpSlice<'a> {
    /// The message of neighbor discovery that an ICMPv6 message is. `None` where it is of another
    /// type than 133 to 137; too few bytes for its type are refused (layer `Icmpv6`).
    pub fn from_icmpv6(message: &Icmpv6Slice<'a>) -> Option<Result<NdpSlice<'a>, NdpError>>
        ensures exact { result ≡ ndp.message_at message.now }
    {
        NdpSlice::from_slice(message.slice())
    }

    /// The message that is this slice. `None` where the first byte is no type of one; too few bytes
    /// for that type are refused (layer `Icmpv6`).
    pub fn from_slice(slice: &'a [u8]) -> Option<Result<NdpSlice<'a>, NdpError>>
        // All of the slice, where it is a message; `None`, or that bytes are missing: law
        // `ndp::messages_are_found`.
        ensures exact { result ≡ ndp.message_at slice.now }
    {
        if slice.is_empty() {
            return None;
        }
        let len = match slice[0] {
            133 => 8,
            134 => 16,
            135 | 136 => 24,
            137 => 40,
            _ => return None,
        };
        if slice.len() < len {
            return Some(Err(LenError::too_few_bytes(Layer::Icmpv6, len, slice.len())));
        }
        Some(Ok(NdpSlice { slice }))
    }

    /// The message's bytes.
    pub fn slice(&self) -> &'a [u8]
        ensures bytes { result.now ≡ self.now }
        ensures message { ndp.IsNdp self.now }
    {
        self.slice
    }

    /// The code, byte 1.
    pub fn code_u8(&self) -> u8
        ensures { result ≡ num self.now 1 1 }
    {
        self.slice[1]
    }

    /// The message and its fields.
    pub fn message(&self) -> NdpMessage
        ensures { result ≡ ndp.message_of self.now }
    {
        match self.slice[0] {
            133 => NdpMessage::RouterSolicitation,
            134 => NdpMessage::RouterAdvertisement {
                cur_hop_limit: self.slice[4],
                managed: self.slice[5] & 128 != 0,
                other: self.slice[5] & 64 != 0,
                router_lifetime: u16::from_be_bytes([self.slice[6], self.slice[7]]),
                reachable_time: u32::from_be_bytes(self.slice[8..12].try_into().unwrap()),
                retrans_timer: u32::from_be_bytes(self.slice[12..16].try_into().unwrap()),
            },
            135 => NdpMessage::NeighborSolicitation {
                target: self.slice[8..24].try_into().unwrap(),
            },
            136 => NdpMessage::NeighborAdvertisement {
                router: self.slice[4] & 128 != 0,
                solicited: self.slice[4] & 64 != 0,
                overrides: self.slice[4] & 32 != 0,
                target: self.slice[8..24].try_into().unwrap(),
            },
            _ => NdpMessage::Redirect {
                target: self.slice[8..24].try_into().unwrap(),
                destination: self.slice[24..40].try_into().unwrap(),
            },
        }
    }

    /// The message and the checksum.
    pub fn header(&self) -> NdpHeader
        ensures { result ≡ ndp.ndp_header_of self.now }
    {
        NdpHeader {
            message: self.message(),
            checksum: u16::from_be_bytes([self.slice[2], self.slice[3]]),
        }
    }

    /// The length in bytes up to the options: 8, 16, 24, 24 or 40.
    pub fn header_len(&self) -> usize
        ensures len { result ≡ ndp.len_of_type (num self.now 0 1) }
        ensures least { result ≤ length self.now }
    {
        match self.slice[0] {
            133 => 8,
            134 => 16,
            135 | 136 => 24,
            _ => 40,
        }
    }

    /// The bytes of the options.
    pub fn options_slice(&self) -> &'a [u8]
        ensures { result.now ≡ ndp.options_bytes_of self.now }
    {
        &self.slice[self.header_len()..]
    }

    /// The options, one after the other.
    pub fn options(&self) -> NdpOptionsIterator<'a>
        ensures { result ≡ record {
          rest = ndp.options_bytes_of self.now;
          end = length (ndp.options_bytes_of self.now);
        } }
    {
        NdpOptionsIterator::from_slice(self.options_slice())
    }

    /// Whether a receiver believes the message, which came with this hop limit and these addresses
    /// in its IPv6 header (RFC 4861, sections 6.1.1, 6.1.2, 7.1.1, 7.1.2 and 8.1). Refused are, in
    /// this order, a hop limit other than 255, a wrong checksum, a code other than 0, addresses that
    /// the kind of message doesn't permit, and the first option with a fault or that a source which
    /// is unspecified can't have.
    ///
    /// That a redirect comes from the router that it is about is left to the caller, who knows it.
    pub fn is_valid(
        &self,
        hop_limit: u8,
        source: [u8; 16],
        destination: [u8; 16],
    ) -> Result<(), NdpInvalid>
        ensures { result ≡ valid.unless_invalid
            (valid.invalidity hop_limit source destination self.now) }
    {
        if hop_limit != 255 {
            return Err(NdpInvalid::HopLimit(hop_limit));
        }
        if !is_sum_valid(self.slice, source, destination) {
            return Err(NdpInvalid::Checksum);
        }
        if self.code_u8() != 0 {
            return Err(NdpInvalid::Code(self.code_u8()));
        }
        let message = self.message();
        if let Some(refusal) = message.refusal(&source, &destination) {
            return Err(refusal);
        }
        match self.options_refusal(message.refuses_source_option(&source)) {
            Some(refusal) => Err(refusal),
            None => Ok(()),
        }
    }

    // The first option that makes the message invalid.
    fn options_refusal(&self, unspecified: bool) -> Option<NdpInvalid>
        ensures { result ≡ valid.items_refusal unspecified (items_of (record {
          rest = ndp.options_bytes_of self.now;
          end = length (ndp.options_bytes_of self.now);
        })) }
    {
        let mut options = self.options();
        'options: while let Some(option) = options.next() {
            match option {
                Ok(NdpOption::SourceLinkLayerAddress(_)) if unspecified => {
                    return Some(NdpInvalid::SourceLinkLayerAddressWithoutSource);
                }
                Ok(_) => {}
                Err(error) => return Some(NdpInvalid::Options(error)),
            }
        }
        None
    }
}

impl<'a> PartialEq for NdpSlice<'a> {
    ghost eq = { pointwise nat_eq };

    ghost laws = { Prim.search (comparing, rules) };

    fn eq(&self, other: &Self) -> bool {
        self.slice == other.slice
    }
}

impl<'a> Eq for NdpSlice<'a> {
    ghost laws = { Prim.search (comparing, rules) };
}
