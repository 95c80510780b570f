//! Checksums of IPv4 headers: one that is right by hand, and the same with a byte changed.

ghost use Rattle.std.specs.Prelude.{◌≡◌, [], ◌∷◌, true, false, None, Some, Ok, Err};
ghost use Rattle.checksum_verdicts.specs.declared.verdict.Verdict.TheVariants as verdict;
ghost use Rattle.ep_packet.specs.declared.err.packet.slice_error.SliceError.TheVariants as fault;
ghost use Rattle.ep_packet.specs.declared.sliced_packet.SlicedPacket.{SlicedPacket};
ghost use Rattle.ep_tcpudp.specs.declared.err.tcp.header_error.HeaderError.TheVariants as tcp;
ghost use Rattle.packets.specs.HeaderVerdict.{header_verdict, sum_verdict};

/// A datagram of 115 bytes from 192.168.0.1 to 192.168.0.199: the words but for the checksum sum to
/// 0x2479c, with the carry 0x479e, whose complement is 0xb861 (RFC 1071, section 1).
pub fn checksums_of_headers()
    ensures right { sum_verdict (0x45 ∷ 0 ∷ 0 ∷ 0x73 ∷ 0 ∷ 0 ∷ 0x40 ∷ 0 ∷ 0x40 ∷ 0x11 ∷ 0xb8 ∷ 0x61 ∷ 0xc0
        ∷ 0xa8 ∷ 0 ∷ 1 ∷ 0xc0 ∷ 0xa8 ∷ 0 ∷ 0xc7 ∷ []) ≡ verdict.Good }
    ensures wrong { sum_verdict (0x45 ∷ 0 ∷ 0 ∷ 0x73 ∷ 0 ∷ 0 ∷ 0x40 ∷ 0 ∷ 0x3f ∷ 0x11 ∷ 0xb8 ∷ 0x61 ∷ 0xc0
        ∷ 0xa8 ∷ 0 ∷ 1 ∷ 0xc0 ∷ 0xa8 ∷ 0 ∷ 0xc7 ∷ []) ≡ verdict.Bad }
    ensures absent { (layers : SlicedPacket) → layers.net ≡ None
        → (header_verdict true (Ok layers) ≡ None) × (header_verdict false (Ok layers) ≡ None) }
    ensures refused { header_verdict true (Err (fault.Tcp (tcp.DataOffsetTooSmall 4))) ≡ None }
{}
