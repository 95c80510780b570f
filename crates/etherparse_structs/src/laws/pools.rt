//! What a pool reports of fragments and messages.
ghost use Rattle.std.specs.Prelude.{◌≡◌, ℕ, List, [], ◌∷◌, map, replicate, true, Some, None};
ghost use Rattle.etherparse.specs.base.declared.len_source.LenSource.TheVariants as source;
ghost use Rattle.etherparse.specs.IpDefragPool.{Payload};
ghost use Rattle.etherparse.specs.PoolCalls.CallResult.{Delivered, NoMemory, NotSliced, Nothing, Refused, Retained};
ghost use Rattle.etherparse.specs.declared.defrag.ip_defrag_error.IpDefragError.TheVariants.{UnalignedFragmentPayloadLen};
ghost use Rattle.etherparse.specs.declared.defrag.ip_defrag_error.IpDefragError.TheVariants.{SegmentTooBig};
ghost use Rattle.etherparse.specs.declared.defrag.ip_defrag_error.IpDefragError.TheVariants.{ConflictingEnd};
ghost use Rattle.etherparse.specs.declared.defrag.ip_defrag_error.IpDefragError.TheVariants.{AllocationFailure};
ghost use Rattle.etherparse.specs.declared.defrag.ip_defrag_error.IpDefragError.TheVariants.{OverlappingFragment};
ghost use Rattle.etherparse.specs.packet.Class.{FragmentName};
ghost use Rattle.etherparse.specs.packet.Class.Class.{Cut, Other, Refused as Faulty};
ghost use Rattle.etherparse.specs.packet.declared.addresses.Addresses.TheVariants.{V4, V6};
ghost use Rattle.etherparse.specs.packet.declared.err.packet.slice_error.SliceError.{SliceError};
ghost use Rattle.etherparse_structs.specs.FramePool.{added, addresses_in, kept_after, numbers_of, output_after};
ghost use Rattle.etherparse_structs.specs.Message.{message_of, no_message};
ghost use Rattle.etherparse_structs.specs.PartRefusal.{no_part_refusal, part_refusal_of};
ghost use Rattle.etherparse_structs.specs.Refusal.{no_refusal, refusal_of};
ghost use Rattle.etherparse_structs.specs.Verdict.{verdict_in};

/// The refusals of fragments: of 7 bytes at offset 2 that others follow, of 16 bytes at offset
/// 8191, of one that ends at byte 24 and not at 16, and of 8 bytes at offset 1 that overlap others.
/// Out of memory there is none.
pub fn fragment_refusals()
    ensures unaligned { part_refusal_of (UnalignedFragmentPayloadLen 2 7)
        ≡ record { kind = 1; offset = 2; previous_end = 0; end = 0; len = 7 } }
    ensures too_big { part_refusal_of (SegmentTooBig 8191 16 65535)
        ≡ record { kind = 2; offset = 8191; previous_end = 0; end = 0; len = 16 } }
    ensures ends { part_refusal_of (ConflictingEnd 16 24)
        ≡ record { kind = 3; offset = 0; previous_end = 16; end = 24; len = 0 } }
    ensures overlap { part_refusal_of (OverlappingFragment 1 8)
        ≡ record { kind = 4; offset = 1; previous_end = 0; end = 0; len = 8 } }
    ensures memory { part_refusal_of (AllocationFailure 8)
        ≡ record { kind = 0; offset = 0; previous_end = 0; end = 0; len = 0 } }
{}

/// Messages of two bytes: a UDP one from 10.0.0.1 to 10.0.0.2, and one of protocol 253 over IPv6.
/// The addresses of the other version are 0, as all is where there is no message.
pub fn messages()
    ensures ipv4 { message_of (V4 (10 ∷ 0 ∷ 0 ∷ 1 ∷ []) (10 ∷ 0 ∷ 0 ∷ 2 ∷ [])) (record {
      ip_number = record { 0 = 17 };
      len_source = source.Slice;
      bytes = 8 ∷ 9 ∷ [];
    }) ≡ record {
      len = 2;
      ip_version = 4;
      number = 17;
      ipv4_source = 10 ∷ 0 ∷ 0 ∷ 1 ∷ [];
      ipv4_destination = 10 ∷ 0 ∷ 0 ∷ 2 ∷ [];
      ipv6_source = replicate 16 0;
      ipv6_destination = replicate 16 0;
    } }
    ensures ipv6 { message_of (V6 (replicate 16 1) (replicate 16 2)) (record {
      ip_number = record { 0 = 253 };
      len_source = source.Slice;
      bytes = 8 ∷ 9 ∷ [];
    }) ≡ record {
      len = 2;
      ip_version = 6;
      number = 253;
      ipv4_source = replicate 4 0;
      ipv4_destination = replicate 4 0;
      ipv6_source = replicate 16 1;
      ipv6_destination = replicate 16 2;
    } }
    ensures none { no_message ≡ record {
      len = 0;
      ip_version = 0;
      number = 0;
      ipv4_source = replicate 4 0;
      ipv4_destination = replicate 4 0;
      ipv6_source = replicate 16 0;
      ipv6_destination = replicate 16 0;
    } }
{}

/// The status of a frame, by what became of it: none is complete, a message of two bytes with an
/// output of two and of one, no memory, and each refusal; a refused frame has its refusal, and a
/// refused fragment its own.
pub fn statuses_of_frames()
    ensures status { (n : ℕ) → added n ≡ record {
      status = n;
      refusal = no_refusal;
      part = no_part_refusal;
      message = no_message;
    } }
    ensures nothing { numbers_of 2 None Nothing ≡ added 0 }
    ensures complete { numbers_of 2 (Some (V4 (replicate 4 1) (replicate 4 2))) (Delivered (record {
      ip_number = record { 0 = 17 };
      len_source = source.Slice;
      bytes = 8 ∷ 9 ∷ [];
    })) ≡ record (added 5) {
      message = message_of (V4 (replicate 4 1) (replicate 4 2)) (record {
        ip_number = record { 0 = 17 };
        len_source = source.Slice;
        bytes = 8 ∷ 9 ∷ [];
      });
    } }
    ensures no_room { numbers_of 1 (Some (V4 (replicate 4 1) (replicate 4 2))) (Delivered (record {
      ip_number = record { 0 = 17 };
      len_source = source.Slice;
      bytes = 8 ∷ 9 ∷ [];
    })) ≡ record (added 1) {
      message = message_of (V4 (replicate 4 1) (replicate 4 2)) (record {
        ip_number = record { 0 = 17 };
        len_source = source.Slice;
        bytes = 8 ∷ 9 ∷ [];
      });
    } }
    ensures memory { map (numbers_of 2 None) (NoMemory ∷ Refused (AllocationFailure 8) ∷ [])
        ≡ added 2 ∷ added 2 ∷ [] }
    ensures part { map (λ e. (numbers_of 2 None (Refused e)).status) (UnalignedFragmentPayloadLen 2 7
        ∷ SegmentTooBig 8191 16 65535 ∷ ConflictingEnd 16 24 ∷ OverlappingFragment 1 8 ∷ [])
        ≡ 3 ∷ 3 ∷ 3 ∷ 3 ∷ [] }
    ensures fragment_reported { numbers_of 2 None (Refused (ConflictingEnd 16 24))
        ≡ record (added 3) { part = part_refusal_of (ConflictingEnd 16 24) } }
    ensures frame { (e : SliceError) → numbers_of 2 None (NotSliced (Some e))
        ≡ record (added 3) { refusal = refusal_of e } }
{}

/// An output of three bytes after a message of two was written, and one of a byte, for which the
/// message is kept; nothing else is written or kept.
pub fn messages_written()
    ensures written { output_after (1 ∷ 2 ∷ 3 ∷ []) (Delivered (record {
      ip_number = record { 0 = 17 };
      len_source = source.Slice;
      bytes = 8 ∷ 9 ∷ [];
    })) ≡ 8 ∷ 9 ∷ 3 ∷ [] }
    ensures not_kept { (p : Payload) → p.bytes ≡ 8 ∷ 9 ∷ []
        → kept_after 2 (Some (V4 (replicate 4 1) (replicate 4 2))) (Delivered p) ≡ None }
    ensures no_room { output_after (1 ∷ []) (Delivered (record {
      ip_number = record { 0 = 17 };
      len_source = source.Slice;
      bytes = 8 ∷ 9 ∷ [];
    })) ≡ 1 ∷ [] }
    ensures kept { (p : Payload) → p.bytes ≡ 8 ∷ 9 ∷ []
        → kept_after 1 (Some (V4 (replicate 4 1) (replicate 4 2))) (Delivered p)
        ≡ Some (V4 (replicate 4 1) (replicate 4 2), p) }
    ensures others { map (output_after (1 ∷ [])) (Nothing ∷ Refused (AllocationFailure 8)
        ∷ NotSliced None ∷ Retained ∷ NoMemory ∷ [])
        ≡ (1 ∷ []) ∷ (1 ∷ []) ∷ (1 ∷ []) ∷ (1 ∷ []) ∷ (1 ∷ []) ∷ [] }
    ensures none_kept { map (kept_after 0 None) (Nothing ∷ Refused (AllocationFailure 8)
        ∷ NotSliced None ∷ Retained ∷ NoMemory ∷ []) ≡ None ∷ None ∷ None ∷ None ∷ None ∷ [] }
{}

/// A fragment goes between its addresses, other packets have none here; and none of them has a
/// verdict.
pub fn fragments_have_addresses()
    ensures part { (name : FragmentName) (bytes : List ℕ)
        → addresses_in (Cut name 0 true bytes) ≡ Some name.addresses }
    ensures others { (addresses_in Other ≡ None) × (addresses_in Faulty ≡ None) }
    ensures verdicts { (name : FragmentName) (bytes : List ℕ)
        → (verdict_in (Cut name 0 true bytes) ≡ 3) × (verdict_in Other ≡ 3)
        × (verdict_in Faulty ≡ 3) }
{}
