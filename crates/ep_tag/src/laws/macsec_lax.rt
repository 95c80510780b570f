//! Laws of MACsec headers whose payload may have been cut off (IEEE 802.1AE, clause 9).
ghost use Rattle.std.specs.Prelude.{◌≡◌, ◌<◌, ◌+◌, ℕ, List, [], ◌∷◌, ◌++◌, length, true, false, Ok, Err, Some};
ghost use Rattle.ep_base.specs.LenError.{too_few_bytes};
ghost use Rattle.ep_base.specs.declared.err.layer.Layer.TheVariants as layer;
ghost use Rattle.ep_base.specs.declared.err.slice_error.SliceError.{SliceError};
ghost use Rattle.ep_base.specs.declared.err.slice_error.SliceError.TheVariants.{Len, Content};
ghost use Rattle.ep_base.specs.declared.len_source.LenSource.TheVariants as source;
ghost use Rattle.ep_tag.specs.Macsec.{IsMacsecHeader};
ghost use Rattle.ep_tag.specs.MacsecFault.{header_at};
ghost use Rattle.ep_tag.specs.MacsecLax.{LaxModified, LaxUnmodified, complete, complete_in, complete_payload};
ghost use Rattle.ep_tag.specs.MacsecLax.{lax_macsec_at, lax_payload_under};
ghost use Rattle.ep_tag.specs.MacsecPayload.{Macsec, MacsecPayload, macsec_at, payload_len_of};
ghost use Rattle.ep_tag.specs.declared.err.macsec.header_error.HeaderError.{HeaderError};
ghost use Rattle.ep_tag.specs.declared.err.macsec.header_error.HeaderError.TheVariants.{UnexpectedVersion};
ghost use Rattle.ep_tag.specs.declared.err.macsec.header_error.HeaderError.TheVariants.{InvalidUnmodifiedShortLen};

/// Where header and payload are there, a lax read finds them, with nothing missing, and it finds
/// nothing missing nowhere else. Where fewer bytes follow the header than the short length leaves
/// for the payload, which the strict read refuses, it finds the header and all of these bytes,
/// incomplete, bounded by the slice. Where the header can't be read, its refusal is the same.
pub fn lax_reads_find_what_is_there()
    ensures complete { (bytes : List ℕ) (macsec : Macsec) → macsec_at bytes ≡ Ok macsec
        → lax_macsec_at bytes ≡ Ok (complete macsec) }
    ensures complete_only { (bytes : List ℕ) (macsec : Macsec)
        → lax_macsec_at bytes ≡ Ok (complete macsec) → macsec_at bytes ≡ Ok macsec }
    ensures cut_off { (header rest : List ℕ) → IsMacsecHeader header
        → length rest < payload_len_of header
        → (lax_macsec_at (header ++ rest) ≡ Ok (record {
          header = header;
          payload = lax_payload_under header true source.Slice rest;
        })) }
    ensures cut_off_strictly { (header rest : List ℕ) → IsMacsecHeader header
        → length rest < payload_len_of header
        → macsec_at (header ++ rest) ≡ Err (Len (too_few_bytes layer.MacsecPacket
        (length header + payload_len_of header) (length header + length rest))) }
    ensures refused { (bytes : List ℕ) (error : SliceError HeaderError)
        → header_at bytes ≡ Err error → lax_macsec_at bytes ≡ Err error }
    ensures payload { (payload : MacsecPayload)
        → complete_in (complete_payload payload) ≡ Some payload }
{}

/// Payloads that are cut off: of an ether type, of which 2 bytes of 4 are there; changed, of which 2
/// bytes of 3 are; and encrypted, of which none of 63 are.
pub fn cut_off_at_literals()
    ensures unmodified { lax_macsec_at (0 ∷ 6 ∷ 0 ∷ 0 ∷ 0 ∷ 1 ∷ 8 ∷ 6 ∷ 7 ∷ 8 ∷ [])
        ≡ Ok (record {
          header = 0 ∷ 6 ∷ 0 ∷ 0 ∷ 0 ∷ 1 ∷ 8 ∷ 6 ∷ [];
          payload = LaxUnmodified
              (record {
                incomplete = true;
                ether_type = record { 0 = 0x0806 };
                len_source = source.Slice;
                payload = 7 ∷ 8 ∷ [];
              });
        }) }
    ensures changed { lax_macsec_at (4 ∷ 3 ∷ 0 ∷ 0 ∷ 0 ∷ 1 ∷ 7 ∷ 8 ∷ []) ≡ Ok (record {
      header = 4 ∷ 3 ∷ 0 ∷ 0 ∷ 0 ∷ 1 ∷ [];
      payload = LaxModified true (7 ∷ 8 ∷ []);
    }) }
    ensures encrypted { lax_macsec_at (8 ∷ 63 ∷ 0 ∷ 0 ∷ 0 ∷ 1 ∷ []) ≡ Ok (record {
      header = 8 ∷ 63 ∷ 0 ∷ 0 ∷ 0 ∷ 1 ∷ [];
      payload = LaxModified true [];
    }) }
{}

/// Payloads of which nothing is missing: as many bytes as the short length leaves, more, and all
/// where it is 0.
pub fn complete_at_literals()
    ensures met { lax_macsec_at (0 ∷ 4 ∷ 0 ∷ 0 ∷ 0 ∷ 1 ∷ 8 ∷ 6 ∷ 7 ∷ 8 ∷ []) ≡ Ok (record {
      header = 0 ∷ 4 ∷ 0 ∷ 0 ∷ 0 ∷ 1 ∷ 8 ∷ 6 ∷ [];
      payload = LaxUnmodified
          (record {
            incomplete = false;
            ether_type = record { 0 = 0x0806 };
            len_source = source.MacsecShortLength;
            payload = 7 ∷ 8 ∷ [];
          });
    }) }
    ensures zero { lax_macsec_at (0 ∷ 0 ∷ 0 ∷ 0 ∷ 0 ∷ 1 ∷ 8 ∷ 6 ∷ 7 ∷ 8 ∷ []) ≡ Ok (record {
      header = 0 ∷ 0 ∷ 0 ∷ 0 ∷ 0 ∷ 1 ∷ 8 ∷ 6 ∷ [];
      payload = LaxUnmodified
          (record {
            incomplete = false;
            ether_type = record { 0 = 0x0806 };
            len_source = source.Slice;
            payload = 7 ∷ 8 ∷ [];
          });
    }) }
    ensures changed { lax_macsec_at (4 ∷ 1 ∷ 0 ∷ 0 ∷ 0 ∷ 1 ∷ 7 ∷ 8 ∷ []) ≡ Ok (record {
      header = 4 ∷ 1 ∷ 0 ∷ 0 ∷ 0 ∷ 1 ∷ [];
      payload = LaxModified false (7 ∷ []);
    }) }
{}

/// Headers that can't be read: too short, version 1, and a short length of 1 that has to count an
/// ether type.
pub fn lax_refusals_at_literals()
    ensures short { lax_macsec_at (0x20 ∷ 0 ∷ 0 ∷ 0 ∷ 0 ∷ 1 ∷ 7 ∷ [])
        ≡ Err (Len (too_few_bytes layer.MacsecHeader 16 7)) }
    ensures version { lax_macsec_at (0x80 ∷ 1 ∷ 0 ∷ 0 ∷ 0 ∷ 1 ∷ [])
        ≡ Err (Content UnexpectedVersion) }
    ensures no_room { lax_macsec_at (0 ∷ 1 ∷ 0 ∷ 0 ∷ 0 ∷ 1 ∷ [])
        ≡ Err (Content InvalidUnmodifiedShortLen) }
{}
