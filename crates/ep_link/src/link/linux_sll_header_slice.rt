//! Headers of Linux cooked captures as borrowed bytes.
ghost use Rattle.std.specs.Prelude.{◌≡◌, IfErr};
ghost use Rattle.ep_base.specs.SliceError.{content_offset};
ghost use Rattle.ep_link.specs.Sll.{IsSllHeader};
ghost use Rattle.ep_link.specs.SllFault.{header_at};

use super::linux_sll_bytes::LinuxSllBytes;
use super::{LinuxSllHeader, LinuxSllSlice};
use crate::err::linux_sll::HeaderSliceError;

/// The 16 bytes of the header of a Linux cooked capture (libpcap's page on LINKTYPE_LINUX_SLL),
/// borrowed. They were tested when the value was made. A contract sees the value as those bytes.
pub type LinuxSllHeaderSlice<'a> = LinuxSllBytes<'a, 16>;

impl<'a> LinuxSllBytes<'a, 16> {
    /// The header at the start of the slice. Refused are, in this order, a slice of fewer than
    /// 16 bytes and a packet type above 4.
    pub fn from_slice(slice: &'a [u8]) -> Result<LinuxSllHeaderSlice<'a>, HeaderSliceError>
        // The header, or the first fault: law `linux_sll::headers_are_found`.
        ensures exact { result ≡ header_at slice.now }
        ensures offset { IfErr result (λ e. content_offset e ≡ 0) }
    {
        let packet = LinuxSllSlice::from_slice(slice)?;
        Ok(LinuxSllBytes {
            slice: &packet.slice[..LinuxSllHeader::LEN],
        })
    }

    /// The header's 16 bytes.
    pub fn slice(&self) -> &'a [u8]
        ensures bytes { result.now ≡ self.now }
        ensures header { IsSllHeader self.now }
    {
        self.slice
    }
}
