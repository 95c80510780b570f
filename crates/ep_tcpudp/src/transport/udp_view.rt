//! The bytes of a UDP datagram, or of its header alone, as a view.

ghost use Rattle.std.specs.Prelude.{◌≡◌, ◌≤◌, List, ℕ, length, nat_eq};
ghost use Rattle.std.specs.Cmp.Lexicographic.{pointwise};
ghost use Rattle.std.specs.Cmp.Rules.{comparing};
ghost use Rattle.std.proofs.Common.{rules};
ghost use Rattle.ep_tcpudp.specs.Udp.{source_port_of, destination_port_of, length_of, checksum_of, udp_header_of};

use super::view_kind::ViewKind;
use crate::UdpHeader;
use std::fmt;
use std::marker::{Model, PhantomData};

/// The bytes of a UDP datagram (RFC 768), or of its header alone, borrowed. A contract sees the
/// value as those bytes.
#[derive(Clone, Drop)]
pub struct UdpView<'a, P: ViewKind> {
    pub(super) slice: &'a [u8],
    view_kind: PhantomData<P>,
}

impl<'a, P: ViewKind> Model for UdpView<'a, P> {
    ghost Value = { List ℕ };

    ghost view = { λ udp. udp.slice.now };

    ghost invariant = { λ udp. (8 ≤ length udp.slice.now) × P.holds udp.slice.now };
}

impl<'a, P: ViewKind> UdpView<'a, P> {
    #[inline(always)]
    pub(super) fn of(slice: &'a [u8]) -> UdpView<'a, P>
        requires least { 8 ≤ length slice.now }
        requires holds { P.holds slice.now }
        ensures { result ≡ slice.now }
    {
        UdpView {
            slice,
            view_kind: PhantomData,
        }
    }

    /// The port that the datagram comes from.
    pub fn source_port(&self) -> u16
        ensures { result ≡ source_port_of self.now }
    {
        u16::from_be_bytes([self.slice[0], self.slice[1]])
    }

    /// The port that it goes to.
    pub fn destination_port(&self) -> u16
        ensures { result ≡ destination_port_of self.now }
    {
        u16::from_be_bytes([self.slice[2], self.slice[3]])
    }

    /// The length of header and payload in bytes, as the header states it, or 0.
    pub fn length(&self) -> u16
        ensures { result ≡ length_of self.now }
    {
        u16::from_be_bytes([self.slice[4], self.slice[5]])
    }

    /// The checksum, as it is.
    pub fn checksum(&self) -> u16
        ensures { result ≡ checksum_of self.now }
    {
        u16::from_be_bytes([self.slice[6], self.slice[7]])
    }

    /// The fields of the header.
    pub fn to_header(&self) -> UdpHeader
        ensures { result ≡ udp_header_of self.now }
    {
        UdpHeader {
            source_port: self.source_port(),
            destination_port: self.destination_port(),
            length: self.length(),
            checksum: self.checksum(),
        }
    }
}

impl<'a, P: ViewKind> fmt::Debug for UdpView<'a, P> {
    fn fmt<W: fmt::Write>(&self, f: &mut fmt::Formatter<W>) -> fmt::Result {
        f.debug_struct(P::VIEW).field("slice", &self.slice).finish()
    }
}

impl<'a, P: ViewKind> PartialEq for UdpView<'a, P> {
    ghost eq = { pointwise nat_eq };

    ghost laws = { Prim.search (comparing, rules) };

    fn eq(&self, other: &Self) -> bool {
        self.slice == other.slice
    }
}

impl<'a, P: ViewKind> Eq for UdpView<'a, P> {
    ghost laws = { Prim.search (comparing, rules) };
}
