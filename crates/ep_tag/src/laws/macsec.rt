//! Laws of MACsec headers (IEEE 802.1AE, clause 9).
ghost use Rattle.std.specs.Prelude.{◌≡◌, ℕ, List, [], ◌∷◌, ◌++◌, true, false, Ok, Err, Some, None, IsOkAnd};
ghost use Rattle.ep_base.specs.Bytes.{IsBytes};
ghost use Rattle.ep_base.specs.declared.err.layer.Layer.TheVariants as layer;
ghost use Rattle.ep_base.specs.declared.len_source.LenSource.TheVariants as source;
ghost use Rattle.ep_tag.specs.declared.err.macsec.header_error.HeaderError.TheVariants.{UnexpectedVersion};
ghost use Rattle.ep_tag.specs.declared.err.macsec.header_error.HeaderError.TheVariants.{InvalidUnmodifiedShortLen};
ghost use Rattle.ep_base.specs.declared.err.slice_error.SliceError.TheVariants.{Len, Content};
ghost use Rattle.ep_tag.specs.declared.link.macsec_p_type.MacsecPType.TheVariants as ptype;
ghost use Rattle.ep_base.specs.LenError.{too_few_bytes};
ghost use Rattle.ep_base.specs.Prefixes.{TakesPrefix};
ghost use Rattle.ep_tag.specs.Macsec.{IsMacsecHeader, HasRoom, has_no_room, macsec_header_of, payload_len_in, ptype_of};
ghost use Rattle.ep_tag.specs.Macsec.{short_len_of, encoding, with_unused_bits_zero};
ghost use Rattle.ep_tag.specs.MacsecFault.{header_at};
ghost use Rattle.ep_tag.specs.MacsecPayload.{IsMacsec, Macsec, Modified, Unmodified, macsec_at, payload_len_of};

use crate::MacsecHeader;
use crate::err::macsec::HeaderSliceError;

/// The least and the greatest length of a header in bytes.
pub fn header_lengths() -> [usize; 2]
    ensures { result ≡ 6 ∷ 16 ∷ [] }
{
    [MacsecHeader::MIN_LEN, MacsecHeader::MAX_LEN]
}

/// A header's bytes encode its fields, and are a header where the short length has room for the
/// ether type; the bytes of a header have fields that encode it again, but for the two unused bits.
pub fn headers_are_their_bytes(header: &MacsecHeader)
    ensures header { HasRoom header.now → IsMacsecHeader (encoding header.now) }
    ensures fields { macsec_header_of (encoding header.now) ≡ header.now }
    ensures again { (bytes : List ℕ) → IsMacsecHeader bytes → IsBytes bytes
        → encoding (macsec_header_of bytes) ≡ with_unused_bits_zero bytes }
{
    let _bytes = header.to_bytes();
}

/// What `to_bytes` gives is read again, whatever follows it, where the short length has room for
/// the ether type.
pub fn header_is_read_again<'a>(
    header: &MacsecHeader,
    slice: &'a [u8],
) -> Result<(MacsecHeader, &'a [u8]), HeaderSliceError>
    ensures { (rest : List ℕ) → HasRoom header.now → slice.now ≡ encoding header.now ++ rest
        → IsOkAnd result (λ r. (r.0 ≡ header.now) × (r.1.now ≡ rest)) }
{
    let _bytes = header.to_bytes();
    MacsecHeader::from_slice(slice)
}

/// A header at the start of bytes is taken, whatever follows it, and nothing else is.
pub fn headers_are_found()
    ensures { (bytes : List ℕ) → TakesPrefix IsMacsecHeader bytes (header_at bytes) }
{}

/// What is found at the start of bytes is a header and a payload that they begin with, and one that
/// they begin with is found.
pub fn payloads_are_found()
    ensures found { (bytes : List ℕ) (macsec : Macsec) → macsec_at bytes ≡ Ok macsec
        → IsMacsec bytes macsec }
    ensures only { (bytes : List ℕ) (macsec : Macsec) → IsMacsec bytes macsec
        → macsec_at bytes ≡ Ok macsec }
{}

/// All flags but the version set, association 2, short length 3 with both unused bits set, packet
/// number 01020304 and a secure channel identifier.
pub fn fields_at_literals()
    ensures { macsec_header_of (0x7e ∷ 0xc3 ∷ 1 ∷ 2 ∷ 3 ∷ 4 ∷ 0xa ∷ 0xb ∷ 0xc ∷ 0xd ∷ 0xe ∷
        0xf ∷ 0x10 ∷ 0x11 ∷ [])
        ≡ record {
          ptype = ptype.Encrypted;
          endstation_id = true;
          scb = true;
          an = 2;
          short_len = 3;
          packet_nr = 0x01020304;
          sci = Some 0x0a0b0c0d0e0f1011;
        } }
{}

/// What a header's fields and what its bytes say of the payload's length after a short length
/// above 0 is the same, and there is none where the short length has no room for the ether type.
pub fn payload_lengths_agree()
    ensures room { (header : List ℕ) → has_no_room header ≡ false
        → payload_len_in (ptype_of header) (short_len_of header) ≡ Some (payload_len_of header) }
    ensures no_room { (header : List ℕ) → has_no_room header ≡ true
        → payload_len_in (ptype_of header) (short_len_of header) ≡ None }
{}

/// A short length leaves its bytes for the payload, 2 fewer where it counts an ether type, and
/// so none of 1 there.
pub fn payload_lengths_at_literals()
    ensures modified { payload_len_in ptype.Modified 1 ≡ Some 1 }
    ensures encrypted { payload_len_in ptype.Encrypted 63 ≡ Some 63 }
    ensures encrypted_unmodified { payload_len_in ptype.EncryptedUnmodified 2 ≡ Some 2 }
    ensures no_room { payload_len_in (ptype.Unmodified (record { 0 = 0x0800 })) 1 ≡ None }
    ensures type_alone { payload_len_in (ptype.Unmodified (record { 0 = 0x0800 })) 2 ≡ Some 0 }
    ensures greatest { payload_len_in (ptype.Unmodified (record { 0 = 0x0800 })) 63 ≡ Some 61 }
{}

/// Short lengths 0 and 1 under the other flags: 0 leaves all that follows, 1 a single byte, and 1
/// is refused where it has to count an ether type.
pub fn short_lengths_at_literals()
    ensures zero_identifier { macsec_at
        (0x20 ∷ 0 ∷ 0 ∷ 0 ∷ 0 ∷ 1 ∷ 10 ∷ 11 ∷ 12 ∷ 13 ∷ 14 ∷ 15 ∷ 16 ∷ 17 ∷ 8 ∷ 6 ∷ 7 ∷ 8 ∷ [])
        ≡ Ok (record {
          header = 0x20 ∷ 0 ∷ 0 ∷ 0 ∷ 0 ∷ 1 ∷ 10 ∷ 11 ∷ 12 ∷ 13 ∷ 14 ∷ 15 ∷ 16 ∷ 17 ∷ 8 ∷ 6 ∷ [];
          payload = Unmodified
              (record {
                ether_type = record { 0 = 0x0806 };
                len_source = source.Slice;
                payload = 7 ∷ 8 ∷ [];
              });
        }) }
    ensures zero_changed { macsec_at (0x44 ∷ 0 ∷ 0 ∷ 0 ∷ 0 ∷ 1 ∷ 7 ∷ 8 ∷ []) ≡ Ok (record {
      header = 0x44 ∷ 0 ∷ 0 ∷ 0 ∷ 0 ∷ 1 ∷ [];
      payload = Modified (7 ∷ 8 ∷ []);
    }) }
    ensures zero_encrypted { macsec_at (8 ∷ 0 ∷ 0 ∷ 0 ∷ 0 ∷ 1 ∷ 7 ∷ 8 ∷ []) ≡ Ok (record {
      header = 8 ∷ 0 ∷ 0 ∷ 0 ∷ 0 ∷ 1 ∷ [];
      payload = Modified (7 ∷ 8 ∷ []);
    }) }
    ensures one_encrypted { macsec_at (8 ∷ 1 ∷ 0 ∷ 0 ∷ 0 ∷ 1 ∷ 7 ∷ 8 ∷ []) ≡ Ok (record {
      header = 8 ∷ 1 ∷ 0 ∷ 0 ∷ 0 ∷ 1 ∷ [];
      payload = Modified (7 ∷ []);
    }) }
    ensures one_of_all { macsec_at (0x2c ∷ 1 ∷ 0 ∷ 0 ∷ 0 ∷ 1 ∷ 10 ∷ 11 ∷ 12 ∷ 13 ∷ 14 ∷ 15 ∷ 16 ∷
        17 ∷ 7 ∷ 8 ∷ []) ≡ Ok (record {
          header = 0x2c ∷ 1 ∷ 0 ∷ 0 ∷ 0 ∷ 1 ∷ 10 ∷ 11 ∷ 12 ∷ 13 ∷ 14 ∷ 15 ∷ 16 ∷ 17 ∷ [];
          payload = Modified (7 ∷ []);
        }) }
    ensures one_identifier { macsec_at (0x20 ∷ 1 ∷ 0 ∷ 0 ∷ 0 ∷ 1 ∷ [])
        ≡ Err (Content InvalidUnmodifiedShortLen) }
    ensures one_broadcast { macsec_at (0x53 ∷ 0xc1 ∷ 0 ∷ 0 ∷ 0 ∷ 1 ∷ 8 ∷ 6 ∷ 7 ∷ [])
        ≡ Err (Content InvalidUnmodifiedShortLen) }
{}

/// What a header makes of the bytes after it: an ether type and the payload that the short length
/// leaves after it, all bytes where the short length is 0, changed bytes; and each refusal.
pub fn payloads_at_literals()
    ensures cut { macsec_at (0 ∷ 4 ∷ 0 ∷ 0 ∷ 0 ∷ 1 ∷ 0x81 ∷ 0 ∷ 7 ∷ 8 ∷ 9 ∷ []) ≡ Ok (record {
      header = 0 ∷ 4 ∷ 0 ∷ 0 ∷ 0 ∷ 1 ∷ 0x81 ∷ 0 ∷ [];
      payload = Unmodified
          (record {
            ether_type = record { 0 = 0x8100 };
            len_source = source.MacsecShortLength;
            payload = 7 ∷ 8 ∷ [];
          });
    }) }
    ensures uncut { macsec_at (0 ∷ 0 ∷ 0 ∷ 0 ∷ 0 ∷ 1 ∷ 8 ∷ 6 ∷ 7 ∷ 8 ∷ []) ≡ Ok (record {
      header = 0 ∷ 0 ∷ 0 ∷ 0 ∷ 0 ∷ 1 ∷ 8 ∷ 6 ∷ [];
      payload = Unmodified
          (record {
            ether_type = record { 0 = 0x0806 };
            len_source = source.Slice;
            payload = 7 ∷ 8 ∷ [];
          });
    }) }
    ensures changed { macsec_at (4 ∷ 1 ∷ 0 ∷ 0 ∷ 0 ∷ 1 ∷ 7 ∷ 8 ∷ []) ≡ Ok (record {
      header = 4 ∷ 1 ∷ 0 ∷ 0 ∷ 0 ∷ 1 ∷ [];
      payload = Modified (7 ∷ []);
    }) }
    ensures version { macsec_at (0x80 ∷ 1 ∷ 0 ∷ 0 ∷ 0 ∷ 1 ∷ []) ≡ Err (Content UnexpectedVersion) }
    ensures no_room { macsec_at (0 ∷ 1 ∷ 0 ∷ 0 ∷ 0 ∷ 1 ∷ [])
        ≡ Err (Content InvalidUnmodifiedShortLen) }
    ensures header { macsec_at (0x20 ∷ 0 ∷ 0 ∷ 0 ∷ 0 ∷ 1 ∷ 7 ∷ [])
        ≡ Err (Len (too_few_bytes layer.MacsecHeader 16 7)) }
    ensures payload { macsec_at (0xc ∷ 3 ∷ 0 ∷ 0 ∷ 0 ∷ 1 ∷ 7 ∷ 8 ∷ [])
        ≡ Err (Len (too_few_bytes layer.MacsecPacket 9 8)) }
{}
