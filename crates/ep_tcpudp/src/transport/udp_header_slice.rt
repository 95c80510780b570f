//! The UDP header as a view of its bytes.

ghost use Rattle.std.specs.Prelude.{◌≡◌};
ghost use Rattle.ep_tcpudp.specs.Udp.{IsUdpHeader};
ghost use Rattle.ep_tcpudp.specs.UdpFault.{header_at};

use super::udp_view::UdpView;
use super::view_kind::ViewKind;
use crate::UdpHeader;
use ep_base::err::{Layer, LenError};

/// The 8 bytes of a UDP header (RFC 768), borrowed. A contract sees the value as those bytes.
pub type UdpHeaderSlice<'a> = UdpView<'a, UdpHeader>;

impl ViewKind for UdpHeader {
    const VIEW: &'static str = "UdpHeaderSlice";

    ghost holds = { IsUdpHeader };
}

impl<'a> UdpHeaderSlice<'a> {
    /// The header at the start of the slice. A slice of fewer than 8 bytes is refused. The length
    /// field is ignored, and so is what follows the header.
    pub fn from_slice(slice: &'a [u8]) -> Result<UdpHeaderSlice<'a>, LenError>
        // The prefix that is a header, or that bytes are missing: law `udp::headers_are_found`.
        ensures exact { result ≡ header_at slice.now }
    {
        if slice.len() < UdpHeader::LEN {
            return Err(LenError::too_few_bytes(Layer::UdpHeader, UdpHeader::LEN, slice.len()));
        }
        Ok(UdpView::of(&slice[..UdpHeader::LEN]))
    }

    /// The header's 8 bytes.
    pub fn slice(&self) -> &'a [u8]
        ensures bytes { result.now ≡ self.now }
        ensures header { IsUdpHeader self.now }
    {
        self.slice
    }
}
