//! MACsec headers as values.
ghost use Rattle.std.specs.Prelude.{◌≡◌, ◌==◌, ◌&&◌, ℕ, ◌+◌, ◌≤◌, List, [], ◌∷◌, ◌++◌, length, Bool, true, false};
ghost use Rattle.std.specs.Prelude.{if◌then◌else◌, is_some, Some, None, Err, OnOk, OnErr, IsOk, IfOk, IfErr, IsOkAnd};
ghost use Rattle.std.specs.Prelude.{vec_len, vec_capacity};
ghost use Rattle.std.specs.Int.{w32, to_be_bytes};
ghost use Rattle.arrayvec.specs.ArrayVec.{array_vec_len};
ghost use Rattle.ep_base.specs.Bytes.{flag};
ghost use Rattle.ep_base.specs.SliceError.{content_offset};
ghost use Rattle.ep_tag.specs.Macsec.{IsMacsecHeader, IsRead, HasRoom, Fits, SciFits, TypeFits, macsec_header_of};
ghost use Rattle.ep_tag.specs.Macsec.{encoding, first_byte, ptype_bits, ptype_encoding, sci_encoding};
ghost use Rattle.ep_tag.specs.Macsec.{next_type_in, payload_len_in, with_payload_len};
ghost use Rattle.ep_tag.specs.MacsecFault.{header_at};

use super::{MacsecAn, MacsecHeaderSlice, MacsecPType, MacsecShortLen};
use crate::err::macsec::HeaderSliceError;
use arrayvec::ArrayVec;
use ep_base::EtherType;
use std::alloc::AllocError;

/// A MACsec header (IEEE 802.1AE, clause 9). Its 6 to 16 bytes hold numbers high byte first.
#[derive(Clone, Debug, PartialEq, Eq, Drop)]
pub struct MacsecHeader {
    /// What follows the header.
    pub ptype: MacsecPType,
    /// Whether the sender is an end station, which its own address identifies (bit ES).
    pub endstation_id: bool,
    /// Whether the channel is a single copy broadcast (bit SCB).
    pub scb: bool,
    /// The association number.
    pub an: MacsecAn,
    /// How many bytes the header protects, the ether type of an unmodified payload among them; 0
    /// where it doesn't say.
    pub short_len: MacsecShortLen,
    /// The packet number.
    pub packet_nr: u32,
    /// The secure channel identifier, where it is there.
    pub sci: Option<u64>,
}

impl MacsecHeader {
    /// The length in bytes of the fields that each header has.
    pub const MIN_LEN: usize = 6;

    /// The length in bytes of a header with a secure channel identifier and an ether type.
    pub const MAX_LEN: usize = 16;

    /// The header at the start of the slice, and all bytes after it, whatever the short length.
    /// Refused are, in this order, a slice of fewer than 6 bytes, version 1, a short length of 1
    /// where it has to count an ether type, and a slice shorter than the header.
    pub fn from_slice(slice: &[u8]) -> Result<(MacsecHeader, &[u8]), HeaderSliceError>
        // The start of the slice is a header, and is read so.
        ensures found { IfOk result (λ r. IsRead slice.now r.0 r.1.now) }
        // A prefix that is a header is read.
        ensures only { (prefix rest : List ℕ) → IsMacsecHeader prefix → slice.now ≡ prefix ++ rest
            → IsOkAnd result (λ r. (r.0 ≡ macsec_header_of prefix) × (r.1.now ≡ rest)) }
        // Else it is the first fault.
        ensures err { IfErr result (λ e. header_at slice.now ≡ Err e) }
        ensures offset { IfErr result (λ e. content_offset e ≡ 0) }
    {
        let header = MacsecHeaderSlice::from_slice(slice)?;
        let rest = &slice[header.slice().len()..];
        Ok((header.to_header(), rest))
    }

    /// The header's length in bytes: 6, 8, 14 or 16.
    pub fn header_len(&self) -> usize
        ensures { result ≡ length (encoding self.now) }
    {
        let sci_len = match self.sci {
            Some(_) => 8,
            None => 0,
        };
        let type_len = match self.ptype {
            MacsecPType::Unmodified(_) => 2,
            _ => 0,
        };
        MacsecHeader::MIN_LEN + sci_len + type_len
    }

    /// The ether type of what follows the header, where the payload is unmodified.
    pub fn next_ether_type(&self) -> Option<EtherType>
        ensures { result ≡ next_type_in self.now.ptype }
    {
        match self.ptype {
            MacsecPType::Unmodified(ether_type) => Some(ether_type),
            _ => None,
        }
    }

    /// How many bytes the short length leaves for the payload, where it isn't 0. A short length
    /// of 1 before an unmodified payload, which has no room for the ether type, leaves none.
    pub fn expected_payload_len(&self) -> Option<usize>
        ensures { result ≡ (if self.now.short_len == 0 then None
            else payload_len_in self.now.ptype self.now.short_len) }
    {
        let short_len = usize::from(self.short_len.value());
        match (short_len, self.ptype) {
            (0, _) => None,
            (1, MacsecPType::Unmodified(_)) => None,
            (_, MacsecPType::Unmodified(_)) => Some(short_len - 2),
            _ => Some(short_len),
        }
    }

    /// The bytes of the header.
    pub fn to_bytes(&self) -> ArrayVec<u8, 16>
        ensures bytes { result.items ≡ encoding self.now }
        // Where the short length has room for the ether type they are a header, with these fields.
        ensures header { HasRoom self.now → IsMacsecHeader result.items }
        ensures fields { macsec_header_of result.items ≡ self.now }
    {
        self.encoded()
    }

    fn encoded(&self) -> ArrayVec<u8, 16>
        ensures bytes { result.items ≡ encoding self.now }
        ensures fits { Fits self.now }
    {
        let packet_nr = self.packet_nr.to_be_bytes();
        let fixed_part = [
            self.first_byte(),
            self.short_len.value(),
            packet_nr[0],
            packet_nr[1],
            packet_nr[2],
            packet_nr[3],
        ];
        let mut bytes = ArrayVec::new();
        bytes.try_extend_from_slice(&fixed_part).unwrap();
        push_sci(&mut bytes, self.sci);
        push_ether_type(&mut bytes, self.ptype);
        bytes
    }

    fn first_byte(&self) -> u8
        ensures value { result ≡ first_byte self.now }
        ensures small { self.now.an ≤ 3 }
    {
        let stations = flag(self.endstation_id, 0x40) + flag(self.sci.is_some(), 0x20);
        let channel = flag(self.scb, 0x10) + self.an.value();
        let payload = match self.ptype {
            MacsecPType::Unmodified(_) => 0,
            MacsecPType::Modified => 0x4,
            MacsecPType::Encrypted => 0xc,
            MacsecPType::EncryptedUnmodified => 0x8,
        };
        stations + channel + payload
    }

    /// Sets the short length for a payload of so many bytes: before an unmodified payload it counts the
    /// two bytes of the ether type, too; from 48 on it is 0, which doesn't say the length (IEEE 802.1AE,
    /// section 9.7).
    pub fn set_payload_len(&mut self, payload_len: usize)
        ensures { self.new ≡ with_payload_len self.old payload_len }
    {
        let protected_len = match self.ptype {
            MacsecPType::Unmodified(_) => payload_len.saturating_add(2),
            _ => payload_len,
        };
        self.short_len = MacsecShortLen::from_len(protected_len);
    }

    /// Appends the bytes of the header.
    pub fn write(&self, buffer: &mut Vec<u8>) -> Result<(), AllocError>
        ensures ok { OnOk result (buffer.new.items ≡ buffer.old.items ++ encoding self.now) }
        ensures len { OnOk result (vec_len buffer.new
            ≡ vec_len buffer.old + length (encoding self.now)) }
        ensures err { OnErr result (buffer.new.items ≡ buffer.old.items) }
        // It fails only where capacity was missing, and capacity never shrinks.
        ensures succeeds { vec_len buffer.old + length (encoding self.now) ≤ vec_capacity buffer.old
            → IsOk result }
        ensures capacity { vec_capacity buffer.old ≤ vec_capacity buffer.new }
    {
        buffer.extend_from_slice(self.to_bytes().as_slice())
    }
}

// A flag at its bit.
fn flag(set: bool, worth: u8) -> u8
    ensures { result ≡ flag set worth }
{
    if set { worth } else { 0 }
}

fn push_sci(bytes: &mut ArrayVec<u8, 16>, sci: Option<u64>)
    requires { array_vec_len bytes.old ≤ 8 }
    ensures bytes { bytes.new.items ≡ bytes.old.items ++ sci_encoding sci }
    ensures len { array_vec_len bytes.new ≤ array_vec_len bytes.old + 8 }
    ensures fits { SciFits sci }
{
    if let Some(sci) = sci {
        bytes.try_extend_from_slice(&sci.to_be_bytes()).unwrap();
    }
}

fn push_ether_type(bytes: &mut ArrayVec<u8, 16>, ptype: MacsecPType)
    requires { array_vec_len bytes.old ≤ 14 }
    ensures bytes { bytes.new.items ≡ bytes.old.items ++ ptype_encoding ptype }
    ensures fits { TypeFits ptype }
{
    if let MacsecPType::Unmodified(ether_type) = ptype {
        bytes
            .try_extend_from_slice(&ether_type.0.to_be_bytes())
            .unwrap();
    }
}
