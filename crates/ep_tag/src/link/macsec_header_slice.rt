//! MACsec headers as borrowed bytes.
ghost use Rattle.std.specs.Prelude.{◌≡◌, ◌<◌, ◌≤◌, ◌+◌, ◌==◌, true, ℕ, List, length, Some, None, IfErr, if◌then◌else◌};
ghost use Rattle.std.specs.Prelude.{nat_eq};
ghost use Rattle.std.specs.Cmp.Lexicographic.{pointwise};
ghost use Rattle.std.specs.Cmp.Rules.{comparing};
ghost use Rattle.std.proofs.Common.{rules};
ghost use Rattle.ep_tag.specs.Macsec.{IsMacsecHeader, version_of, endstation_id_of, has_sci, scb_of, is_encrypted};
ghost use Rattle.ep_tag.specs.Macsec.{is_changed, is_unmodified, an_of, short_len_of, packet_nr_of, sci_of, sci_len};
ghost use Rattle.ep_tag.specs.Macsec.{ether_type_of, header_len_of, next_type_of, ptype_of, has_no_room, macsec_header_of, type_len};
ghost use Rattle.ep_base.specs.Bytes.{num};
ghost use Rattle.ep_base.specs.SliceError.{content_offset};
ghost use Rattle.ep_tag.specs.MacsecFault.{header_at};
ghost use Rattle.ep_tag.specs.MacsecPayload.{payload_len_of};

use super::{MacsecAn, MacsecHeader, MacsecPType, MacsecShortLen};
use crate::err::macsec::{HeaderError, HeaderSliceError};
use ep_base::EtherType;
use ep_base::err::{Layer, LenError};
use std::marker::Model;

/// The bytes of a MACsec header (IEEE 802.1AE, clause 9), borrowed: 6, 8 more where a secure
/// channel identifier is there, and 2 more where the payload is unmodified. They were tested when
/// the value was made. A contract sees the value as those bytes.
#[derive(Clone, Debug, Drop)]
pub struct MacsecHeaderSlice<'a> {
    slice: &'a [u8],
}

impl<'a> Model for MacsecHeaderSlice<'a> {
    ghost Value = { List ℕ };

    ghost view = { λ header. header.slice.now };

    ghost invariant = { λ header. IsMacsecHeader header.slice.now };
}

#[tactic(auto, using(crate::proofs::Bits::masks))]
impl<'a> MacsecHeaderSlice<'a> {
    /// The header at the start of the slice. Refused are, in this order, a slice of fewer than
    /// 6 bytes, version 1, a short length of 1 where it has to count an ether type, and a slice
    /// shorter than the header.
    pub fn from_slice(slice: &'a [u8]) -> Result<MacsecHeaderSlice<'a>, HeaderSliceError>
        // The header at the start of the slice, or the first fault: law `macsec::headers_are_found`.
        ensures exact { result ≡ header_at slice.now }
        ensures offset { IfErr result (λ e. content_offset e ≡ 0) }
    {
        if slice.len() < MacsecHeader::MIN_LEN {
            return Err(HeaderSliceError::Len(LenError::too_few_bytes(
                Layer::MacsecHeader,
                MacsecHeader::MIN_LEN,
                slice.len(),
            )));
        }
        if has_version(slice) {
            return Err(HeaderSliceError::Content(HeaderError::UnexpectedVersion));
        }
        if has_no_room(slice) {
            return Err(HeaderSliceError::Content(HeaderError::InvalidUnmodifiedShortLen));
        }
        let header_len = header_len_of(slice);
        if slice.len() < header_len {
            return Err(HeaderSliceError::Len(LenError::too_few_bytes(
                Layer::MacsecHeader,
                header_len,
                slice.len(),
            )));
        }
        Ok(MacsecHeaderSlice {
            slice: &slice[..header_len],
        })
    }

    /// The header's bytes.
    pub fn slice(&self) -> &'a [u8]
        ensures bytes { result.now ≡ self.now }
        ensures header { IsMacsecHeader self.now }
    {
        self.slice
    }

    /// The header's length in bytes: 6, 8, 14 or 16.
    pub fn header_len(&self) -> usize
        ensures len { result ≡ length self.now }
        ensures most { result ≤ 16 }
    {
        header_len_of(self.slice)
    }

    /// Whether the sender is an end station, which its own address identifies (bit ES).
    pub fn endstation_id(&self) -> bool
        ensures { result ≡ endstation_id_of self.now }
    {
        self.slice[0] & 0x40 != 0
    }

    /// Whether a secure channel identifier is there (bit SC).
    pub fn sci_present(&self) -> bool
        ensures { result ≡ has_sci self.now }
    {
        has_sci(self.slice)
    }

    /// Whether the channel is a single copy broadcast (bit SCB).
    pub fn scb(&self) -> bool
        ensures { result ≡ scb_of self.now }
    {
        self.slice[0] & 0x10 != 0
    }

    /// The same as `scb`.
    pub fn tci_scb(&self) -> bool
        ensures { result ≡ scb_of self.now }
    {
        self.scb()
    }

    /// Whether the payload is encrypted (bit E).
    pub fn encrypted(&self) -> bool
        ensures { result ≡ is_encrypted self.now }
    {
        self.slice[0] & 0x8 != 0
    }

    /// Whether the payload was changed (bit C).
    pub fn userdata_changed(&self) -> bool
        ensures { result ≡ is_changed self.now }
    {
        self.slice[0] & 0x4 != 0
    }

    /// Whether the payload is neither encrypted nor changed, so that an ether type names it.
    pub fn is_unmodified(&self) -> bool
        ensures { result ≡ is_unmodified self.now }
    {
        is_unmodified(self.slice)
    }

    /// What follows the header.
    pub fn ptype(&self) -> MacsecPType
        ensures { result ≡ ptype_of self.now }
    {
        match (self.encrypted(), self.userdata_changed()) {
            (true, true) => MacsecPType::Encrypted,
            (true, false) => MacsecPType::EncryptedUnmodified,
            (false, true) => MacsecPType::Modified,
            (false, false) => MacsecPType::Unmodified(self.ether_type_after_sci()),
        }
    }

    // The last two bytes of a header whose payload is unmodified.
    fn ether_type_after_sci(&self) -> EtherType
        requires { is_unmodified self.now ≡ true }
        ensures { result ≡ ether_type_of self.now }
    {
        let offset = 6 + sci_len_of(self.slice);
        EtherType(u16::from_be_bytes([self.slice[offset], self.slice[offset + 1]]))
    }

    /// The association number.
    pub fn an(&self) -> MacsecAn
        ensures { result ≡ an_of self.now }
    {
        MacsecAn::try_new(self.slice[0] & MacsecAn::MAX_U8).unwrap()
    }

    /// The short length: how many bytes the header protects, the ether type of an unmodified
    /// payload among them; 0 where it doesn't say.
    pub fn short_len(&self) -> MacsecShortLen
        ensures { result ≡ short_len_of self.now }
    {
        MacsecShortLen::try_new(self.slice[1] & MacsecShortLen::MAX_U8).unwrap()
    }

    /// The packet number.
    pub fn packet_nr(&self) -> u32
        ensures { result ≡ packet_nr_of self.now }
    {
        u32::from_be_bytes([self.slice[2], self.slice[3], self.slice[4], self.slice[5]])
    }

    /// The secure channel identifier, where it is there.
    pub fn sci(&self) -> Option<u64>
        ensures { result ≡ sci_of self.now }
    {
        if self.sci_present() {
            Some(self.sci_after_packet_nr())
        } else {
            None
        }
    }

    fn sci_after_packet_nr(&self) -> u64
        requires { has_sci self.now ≡ true }
        ensures { result ≡ num self.now 6 8 }
    {
        u64::from_be_bytes([
            self.slice[6],
            self.slice[7],
            self.slice[8],
            self.slice[9],
            self.slice[10],
            self.slice[11],
            self.slice[12],
            self.slice[13],
        ])
    }

    /// The ether type of what follows the header, where the payload is unmodified.
    pub fn next_ether_type(&self) -> Option<EtherType>
        ensures { result ≡ next_type_of self.now }
    {
        if self.is_unmodified() {
            Some(self.ether_type_after_sci())
        } else {
            None
        }
    }

    /// How many bytes the short length leaves for the payload, where it isn't 0.
    pub fn expected_payload_len(&self) -> Option<usize>
        ensures { result ≡ (if short_len_of self.now == 0 then None
            else Some (payload_len_of self.now)) }
    {
        let payload_len = self.payload_len();
        if self.short_len().value() == 0 {
            None
        } else {
            Some(payload_len)
        }
    }

    // How many bytes the short length leaves for the payload, and 0 where it doesn't say.
    pub(crate) fn payload_len(&self) -> usize
        ensures len { result ≡ payload_len_of self.now }
        ensures most { result ≤ 63 }
    {
        usize::from(self.short_len().value()).saturating_sub(type_len_of(self.slice))
    }

    /// The fields. The two unused bits are dropped.
    pub fn to_header(&self) -> MacsecHeader
        ensures { result ≡ macsec_header_of self.now }
    {
        MacsecHeader {
            ptype: self.ptype(),
            endstation_id: self.endstation_id(),
            scb: self.scb(),
            an: self.an(),
            short_len: self.short_len(),
            packet_nr: self.packet_nr(),
            sci: self.sci(),
        }
    }
}

// The tests below read the first two bytes of a slice that may yet be no header.

#[tactic(auto, using(crate::proofs::Bits::masks))]
fn has_version(bytes: &[u8]) -> bool
    requires { 0 < length bytes.now }
    ensures { result ≡ version_of bytes.now }
{
    bytes[0] & 0x80 != 0
}

#[tactic(auto, using(crate::proofs::Bits::masks))]
fn is_unmodified(bytes: &[u8]) -> bool
    requires { 0 < length bytes.now }
    ensures { result ≡ is_unmodified bytes.now }
{
    bytes[0] & 0x8 == 0 && bytes[0] & 0x4 == 0
}

#[tactic(auto, using(crate::proofs::Bits::masks))]
fn has_no_room(bytes: &[u8]) -> bool
    requires { 1 < length bytes.now }
    ensures { result ≡ has_no_room bytes.now }
{
    is_unmodified(bytes) && bytes[1] & 0x3f == 1
}

#[tactic(auto, using(crate::proofs::Bits::masks))]
fn has_sci(bytes: &[u8]) -> bool
    requires { 0 < length bytes.now }
    ensures { result ≡ has_sci bytes.now }
{
    bytes[0] & 0x20 != 0
}

fn sci_len_of(bytes: &[u8]) -> usize
    requires { 0 < length bytes.now }
    ensures len { result ≡ sci_len bytes.now }
    ensures most { result ≤ 8 }
{
    if has_sci(bytes) { 8 } else { 0 }
}

fn type_len_of(bytes: &[u8]) -> usize
    requires { 0 < length bytes.now }
    ensures len { result ≡ type_len bytes.now }
    ensures most { result ≤ 2 }
{
    if is_unmodified(bytes) { 2 } else { 0 }
}

fn header_len_of(bytes: &[u8]) -> usize
    requires { 0 < length bytes.now }
    ensures len { result ≡ header_len_of bytes.now }
    ensures most { result ≤ 16 }
{
    6 + sci_len_of(bytes) + type_len_of(bytes)
}

impl<'a> PartialEq for MacsecHeaderSlice<'a> {
    ghost eq = { pointwise nat_eq };

    ghost laws = { Prim.search (comparing, rules) };

    fn eq(&self, other: &Self) -> bool {
        self.slice == other.slice
    }
}

impl<'a> Eq for MacsecHeaderSlice<'a> {
    ghost laws = { Prim.search (comparing, rules) };
}
