//! One extension header of an IPv6 packet.

ghost use Rattle.std.specs.Prelude.{◌≡◌, ◌<◌, length, IfOk, IfErr, Err};
ghost use Rattle.ep_ext.specs.Chain.{IsPiece, prefix_of};
ghost use Rattle.ep_ipslice.specs.Ipv6Ext.{ext_at, ext_len, ext_of, piece_of};
ghost use Rattle.ep_ipslice.specs.Ipv6Exts.{is_fragmenting_piece};

use ep_ext::err::ip_auth;
use ep_ext::err::ipv6_exts::{HeaderError, HeaderSliceError};
use ep_ext::{
    IpAuthHeaderSlice, Ipv6ExtSlot, Ipv6FragmentHeader, Ipv6FragmentHeaderSlice,
    Ipv6RawExtHeaderSlice,
};

/// One extension header of an IPv6 packet (RFC 8200, section 4), borrowed.
#[derive(Clone, Debug, PartialEq, Eq, Drop)]
pub enum Ipv6ExtensionSlice<'a> {
    /// Hop-by-hop options (RFC 8200, section 4.3).
    HopByHop(Ipv6RawExtHeaderSlice<'a>),
    /// A routing header (RFC 8200, section 4.4).
    Routing(Ipv6RawExtHeaderSlice<'a>),
    /// A fragment header (RFC 8200, section 4.5).
    Fragment(Ipv6FragmentHeaderSlice<'a>),
    /// Destination options (RFC 8200, section 4.6).
    DestinationOptions(Ipv6RawExtHeaderSlice<'a>),
    /// An authentication header (RFC 4302, section 2).
    Authentication(IpAuthHeaderSlice<'a>),
}

impl<'a> Ipv6ExtensionSlice<'a> {
    // The header of this slot at the start of the slice.
    pub(crate) fn from_slice(
        slot: Ipv6ExtSlot,
        slice: &'a [u8],
    ) -> Result<Ipv6ExtensionSlice<'a>, HeaderSliceError>
        ensures exact { result ≡ ext_at slot slice.now }
        ensures fragmenting { IfOk result (λ ext. is_fragmenting_piece (piece_of ext)
            ≡ is_fragmenting_piece (slot, (piece_of ext).1)) }
        ensures err { IfErr result (λ e. prefix_of slot slice.now ≡ Err e) }
    {
        match slot {
            Ipv6ExtSlot::HopByHop => match Ipv6RawExtHeaderSlice::from_slice(slice) {
                Ok(header) => Ok(Ipv6ExtensionSlice::HopByHop(header)),
                Err(error) => Err(HeaderSliceError::Len(error)),
            },
            Ipv6ExtSlot::Routing => match Ipv6RawExtHeaderSlice::from_slice(slice) {
                Ok(header) => Ok(Ipv6ExtensionSlice::Routing(header)),
                Err(error) => Err(HeaderSliceError::Len(error)),
            },
            Ipv6ExtSlot::Fragment => match Ipv6FragmentHeaderSlice::from_slice(slice) {
                Ok(header) => Ok(Ipv6ExtensionSlice::Fragment(header)),
                Err(error) => Err(HeaderSliceError::Len(error)),
            },
            Ipv6ExtSlot::Destination | Ipv6ExtSlot::FinalDestination => {
                match Ipv6RawExtHeaderSlice::from_slice(slice) {
                    Ok(header) => Ok(Ipv6ExtensionSlice::DestinationOptions(header)),
                    Err(error) => Err(HeaderSliceError::Len(error)),
                }
            }
            Ipv6ExtSlot::Authentication => match IpAuthHeaderSlice::from_slice(slice) {
                Ok(header) => Ok(Ipv6ExtensionSlice::Authentication(header)),
                Err(ip_auth::HeaderSliceError::Len(error)) => Err(HeaderSliceError::Len(error)),
                Err(ip_auth::HeaderSliceError::Content(error)) => {
                    Err(HeaderSliceError::Content(HeaderError::IpAuth(error)))
                }
            },
        }
    }

    // The header of this slot that these bytes are.
    pub(super) fn of_bytes(slot: Ipv6ExtSlot, header: &'a [u8]) -> Ipv6ExtensionSlice<'a>
        requires { IsPiece slot header.now }
        ensures { result ≡ ext_of slot header.now }
    {
        match slot {
            Ipv6ExtSlot::HopByHop => {
                Ipv6ExtensionSlice::HopByHop(Ipv6RawExtHeaderSlice::of_bytes(header))
            }
            Ipv6ExtSlot::Routing => {
                Ipv6ExtensionSlice::Routing(Ipv6RawExtHeaderSlice::of_bytes(header))
            }
            Ipv6ExtSlot::Fragment => {
                Ipv6ExtensionSlice::Fragment(Ipv6FragmentHeaderSlice::of_bytes(header))
            }
            Ipv6ExtSlot::Destination | Ipv6ExtSlot::FinalDestination => {
                Ipv6ExtensionSlice::DestinationOptions(Ipv6RawExtHeaderSlice::of_bytes(header))
            }
            Ipv6ExtSlot::Authentication => {
                Ipv6ExtensionSlice::Authentication(IpAuthHeaderSlice::of_bytes(header))
            }
        }
    }

    // The bytes of the header.
    pub(crate) fn bytes(&self) -> &'a [u8]
        ensures { result.now ≡ (piece_of self.now).1 }
    {
        match self {
            Ipv6ExtensionSlice::HopByHop(header)
            | Ipv6ExtensionSlice::Routing(header)
            | Ipv6ExtensionSlice::DestinationOptions(header) => header.slice(),
            Ipv6ExtensionSlice::Fragment(header) => header.slice(),
            Ipv6ExtensionSlice::Authentication(header) => header.slice(),
        }
    }

    // Whether it is the fragment header of a fragment.
    pub(crate) fn is_fragmenting(&self) -> bool
        ensures { result ≡ is_fragmenting_piece (piece_of self.now) }
    {
        match self {
            Ipv6ExtensionSlice::Fragment(header) => header.is_fragmenting_payload(),
            _ => false,
        }
    }
}

// The length in bytes of the header of this slot with which the slice starts, by its own length
// field.
pub(super) fn ext_len(slot: Ipv6ExtSlot, slice: &[u8]) -> usize
    requires { 1 < length slice.now }
    ensures { result ≡ ext_len slot slice.now }
{
    match slot {
        Ipv6ExtSlot::Fragment => Ipv6FragmentHeader::LEN,
        Ipv6ExtSlot::Authentication => (usize::from(slice[1]) + 2) * 4,
        _ => (usize::from(slice[1]) + 1) * 8,
    }
}
