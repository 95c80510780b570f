//! Worked examples of the definitions. The answers were worked out by hand after RFC 768, 791,
//! 1071, 8200 and 9293.
ghost use Rattle.std.specs.Prelude.{◌≡◌, ℕ, List, [], ◌∷◌, ◌++◌, codes, map, true, false, Some, None};
ghost use Rattle.etherparse.specs.declared.defrag.ip_frag_version_spec_id.IpFragVersionSpecId.TheVariants.{Ipv4, Ipv6};
ghost use Rattle.hex.specs.Hex.{encode_lower};
ghost use Rattle.netlines.specs.Answers.{answer_after, message_answer, takes_memory};
ghost use Rattle.netlines.specs.PostRefusal.{bad_cut};
ghost use Rattle.netlines.specs.Posted.{packet, fragments_from, tags_and_ether_type};
ghost use Rattle.checksum_verdicts.specs.declared.verdict.Verdict.TheVariants as verdict;

/// The answers to lines that hold a UDP message with a right checksum, with a wrong one and with
/// none, a frame of another ether type, a frame of 13 bytes, and a frame with half a byte.
pub fn lines_have_answers()
    ensures good { (earlier : List (List ℕ))
        → answer_after earlier
        (codes "frame 0 02000000000202000000000108004500002400070000401166c00a0000010a000002000100020010dbb40102030405060708")
        ≡ codes "message 17 good 000100020010dbb40102030405060708" }
    ensures bad { (earlier : List (List ℕ))
        → answer_after earlier
        (codes "frame 0 02000000000202000000000108004500002400070000401166c00a0000010a000002000100020010dbb40102030405060709")
        ≡ codes "message 17 bad 000100020010dbb40102030405060709" }
    ensures none { (earlier : List (List ℕ))
        → answer_after earlier
        (codes "frame 0 02000000000202000000000108004500002400070000401166c00a0000010a00000200010002001000000102030405060708")
        ≡ codes "message 17 none 00010002001000000102030405060708" }
    ensures other { (earlier : List (List ℕ))
        → answer_after earlier (codes "frame 0 0200000000020200000000011234") ≡ codes "other" }
    ensures refused { (earlier : List (List ℕ))
        → answer_after earlier (codes "frame 0 02000000000202000000000108")
        ≡ codes "refused frame" }
    ensures bad_line { (earlier : List (List ℕ))
        → answer_after earlier (codes "frame 0 0") ≡ codes "bad line" }
{}

/// The answers to lines with TCP segments: one over IPv4 and one over IPv6, both with a right
/// checksum, one whose checksum field is 0, which is a checksum like any other, and one whose data
/// offset is 4.
pub fn segments_have_answers()
    ensures v4 { (earlier : List (List ℕ))
        → answer_after earlier
        (codes "frame 0 02000000000202000000000108004500002800070000400666c70a0000010a0000020001000200000003000000005002040097da0000")
        ≡ codes "message 6 good 0001000200000003000000005002040097da0000" }
    ensures v6 { (earlier : List (List ℕ))
        → answer_after earlier
        (codes "frame 0 02000000000202000000000186dd6000000000140640fd000000000000000000000000000001fd00000000000000000000000000000200010002000000030000000050020400b1d80000")
        ≡ codes "message 6 good 00010002000000030000000050020400b1d80000" }
    ensures zero { (earlier : List (List ℕ))
        → answer_after earlier
        (codes "frame 0 02000000000202000000000108004500002800070000400666c70a0000010a0000020001000200000003000000005002040000000000")
        ≡ codes "message 6 bad 0001000200000003000000005002040000000000" }
    ensures refused { (earlier : List (List ℕ))
        → answer_after earlier
        (codes "frame 0 02000000000202000000000108004500002800070000400666c70a0000010a0000020001000200000003000000004002040097da0000")
        ≡ codes "refused frame" }
{}

/// The answers to lines with IPv6: a UDP message after destination options, the same in a first
/// fragment, and a packet whose payload length exceeds its bytes.
pub fn ipv6_lines_have_answers()
    ensures after_options { (earlier : List (List ℕ))
        → answer_after earlier
        (codes "frame 0 02000000000202000000000186dd6000000000183c40fd000000000000000000000000000001fd0000000000000000000000000000021100010400000000000100020010f5b20102030405060708")
        ≡ codes "message 17 good 000100020010f5b20102030405060708" }
    ensures fragment { answer_after []
        (codes "frame 0 02000000000202000000000186dd6000000000182c40fd000000000000000000000000000001fd0000000000000000000000000000021100000100000007000100020010f5b20102030405060708")
        ≡ codes "wait" }
    ensures cut_off { (earlier : List (List ℕ))
        → answer_after earlier
        (codes "frame 0 02000000000202000000000186dd6000000000111140fd000000000000000000000000000001fd000000000000000000000000000002000100020010f5b20102030405060708")
        ≡ codes "refused frame" }
{}

/// The answer with an empty message has a dash instead of hex digits.
pub fn empty_message_is_a_dash()
    ensures { message_answer 17 verdict.None [] ≡ codes "message 17 none -" }
{}

/// A message of 24 bytes can be cut at 8 and at 16. It can't be cut at 0 or at 24, twice at one
/// offset, or at an offset that is no multiple of 8.
pub fn cuts_are_refused()
    ensures both { bad_cut 24 (8 ∷ 16 ∷ []) ≡ None }
    ensures first { bad_cut 24 (0 ∷ 8 ∷ []) ≡ Some 0 }
    ensures twice { bad_cut 24 (8 ∷ 8 ∷ []) ≡ Some 1 }
    ensures last { bad_cut 24 (8 ∷ 24 ∷ []) ≡ Some 1 }
    ensures unaligned { bad_cut 24 (8 ∷ 12 ∷ []) ≡ Some 1 }
{}

/// The answers to the second fragment of a UDP message (RFC 791, section 3.2): alone it waits;
/// after the first one it completes the message, also where a line between them drops what came
/// before line 1. After the first fragment on another channel it waits, and so it does where a line
/// between them drops what came before line 2. A first fragment of 7 bytes is refused. `forget`
/// takes numbers of 64 bits.
pub fn fragments_have_answers()
    ensures alone { answer_after []
        (codes "frame 0 02000000000202000000000108004500001c00070001401166c70a0000010a0000020102030405060708") ≡ codes "wait" }
    ensures whole { answer_after
        (codes "frame 0 02000000000202000000000108004500001c00072000401146c80a0000010a000002000100020010dbb4" ∷ [])
        (codes "frame 0 02000000000202000000000108004500001c00070001401166c70a0000010a0000020102030405060708") ≡ codes "message 17 good 000100020010dbb40102030405060708" }
    ensures kept { answer_after
        (codes "frame 0 02000000000202000000000108004500001c00072000401146c80a0000010a000002000100020010dbb4" ∷ codes "forget 1" ∷ [])
        (codes "frame 0 02000000000202000000000108004500001c00070001401166c70a0000010a0000020102030405060708") ≡ codes "message 17 good 000100020010dbb40102030405060708" }
    ensures dropped { answer_after
        (codes "frame 0 02000000000202000000000108004500001c00072000401146c80a0000010a000002000100020010dbb4" ∷ codes "forget 2" ∷ [])
        (codes "frame 0 02000000000202000000000108004500001c00070001401166c70a0000010a0000020102030405060708") ≡ codes "wait" }
    ensures channels { answer_after
        (codes "frame 1 02000000000202000000000108004500001c00072000401146c80a0000010a000002000100020010dbb4" ∷ [])
        (codes "frame 0 02000000000202000000000108004500001c00070001401166c70a0000010a0000020102030405060708") ≡ codes "wait" }
    ensures unaligned { answer_after []
        (codes "frame 0 02000000000202000000000108004500001b00072000401146c90a0000010a00000200010002001000") ≡ codes "refused unaligned" }
    ensures ok { (earlier : List (List ℕ))
        → answer_after earlier (codes "forget 18446744073709551615") ≡ codes "ok" }
    ensures too_great { (earlier : List (List ℕ))
        → answer_after earlier (codes "forget 18446744073709551616") ≡ codes "bad line" }
{}

/// The packets of a UDP message over IPv4, uncut, and of a TCP segment over IPv4 in three
/// fragments; of a UDP message over IPv6, uncut and in two fragments; and of the middle fragment of
/// a longer one. The tags and the ether type of a frame without tags, with one and with two.
pub fn messages_have_packets()
    ensures v4 { map
        (λ posted_fragment. encode_lower
        (packet (Ipv4 (10 ∷ 0 ∷ 0 ∷ 1 ∷ []) (10 ∷ 0 ∷ 0 ∷ 2 ∷ []) 7) 17 false posted_fragment))
        (fragments_from 0 [] (0 ∷ 1 ∷ 0 ∷ 2 ∷ 0 ∷ 16 ∷ 0xdb ∷ 0xb4 ∷ 1 ∷ 2 ∷ 3 ∷
        4 ∷ 5 ∷ 6 ∷ 7 ∷ 8 ∷ []))
        ≡ codes "4500002400070000401166c00a0000010a000002000100020010dbb40102030405060708" ∷ [] }
    ensures v4_fragments { map
        (λ posted_fragment. encode_lower
        (packet (Ipv4 (10 ∷ 0 ∷ 0 ∷ 1 ∷ []) (10 ∷ 0 ∷ 0 ∷ 2 ∷ []) 7) 6 true posted_fragment))
        (fragments_from 0 (8 ∷ 16 ∷ [])
        (0 ∷ 1 ∷ 0 ∷ 2 ∷ 0 ∷ 0 ∷ 0 ∷ 3 ∷ 0 ∷ 0 ∷ 0 ∷ 0 ∷ 0x50 ∷ 2 ∷ 4 ∷ 0 ∷
        0x97 ∷ 0xda ∷ 0 ∷ 0 ∷ []))
        ≡ codes "4500001c00072000400646d30a0000010a0000020001000200000003"
        ∷ codes "4500001c00072001400646d20a0000010a0000020000000050020400"
        ∷ codes "4500001800070002400666d50a0000010a00000297da0000" ∷ [] }
    ensures v6 { map
        (λ posted_fragment. encode_lower
        (packet (Ipv6 (0xfd ∷ 0 ∷ 0 ∷ 0 ∷ 0 ∷ 0 ∷ 0 ∷ 0 ∷ 0 ∷ 0 ∷ 0 ∷ 0 ∷ 0 ∷ 0 ∷ 0 ∷ 1 ∷ [])
        (0xfd ∷ 0 ∷ 0 ∷ 0 ∷ 0 ∷ 0 ∷ 0 ∷ 0 ∷ 0 ∷ 0 ∷ 0 ∷ 0 ∷ 0 ∷ 0 ∷ 0 ∷ 2 ∷ []) 7) 17 false posted_fragment))
        (fragments_from 0 [] (0 ∷ 1 ∷ 0 ∷ 2 ∷ 0 ∷ 16 ∷ 0xf5 ∷ 0xb2 ∷ 1 ∷ 2 ∷ 3 ∷
        4 ∷ 5 ∷ 6 ∷ 7 ∷ 8 ∷ []))
        ≡ codes "6000000000101140fd000000000000000000000000000001fd000000000000000000000000000002000100020010f5b20102030405060708" ∷ [] }
    ensures v6_fragments { map
        (λ posted_fragment. encode_lower
        (packet (Ipv6 (0xfd ∷ 0 ∷ 0 ∷ 0 ∷ 0 ∷ 0 ∷ 0 ∷ 0 ∷ 0 ∷ 0 ∷ 0 ∷ 0 ∷ 0 ∷ 0 ∷ 0 ∷ 1 ∷ [])
        (0xfd ∷ 0 ∷ 0 ∷ 0 ∷ 0 ∷ 0 ∷ 0 ∷ 0 ∷ 0 ∷ 0 ∷ 0 ∷ 0 ∷ 0 ∷ 0 ∷ 0 ∷ 2 ∷ []) 7) 17 true posted_fragment))
        (fragments_from 0 (8 ∷ []) (0 ∷ 1 ∷ 0 ∷ 2 ∷ 0 ∷ 16 ∷ 0xf5 ∷ 0xb2 ∷ 1 ∷ 2 ∷ 3 ∷
        4 ∷ 5 ∷ 6 ∷ 7 ∷ 8 ∷ []))
        ≡ codes "6000000000102c40fd000000000000000000000000000001fd0000000000000000000000000000021100000100000007000100020010f5b2"
        ∷ codes "6000000000102c40fd000000000000000000000000000001fd00000000000000000000000000000211000008000000070102030405060708" ∷ [] }
    ensures v6_middle { encode_lower
        (packet (Ipv6 (0xfd ∷ 0 ∷ 0 ∷ 0 ∷ 0 ∷ 0 ∷ 0 ∷ 0 ∷ 0 ∷ 0 ∷ 0 ∷ 0 ∷ 0 ∷ 0 ∷ 0 ∷ 1 ∷ [])
        (0xfd ∷ 0 ∷ 0 ∷ 0 ∷ 0 ∷ 0 ∷ 0 ∷ 0 ∷ 0 ∷ 0 ∷ 0 ∷ 0 ∷ 0 ∷ 0 ∷ 0 ∷ 2 ∷ []) 0x01020304) 17 true
        (record { offset = 1; more = true; text = 1 ∷ 2 ∷ 3 ∷ 4 ∷ 5 ∷ 6 ∷ 7 ∷ 8 ∷ [] }))
        ≡ codes "6000000000102c40fd000000000000000000000000000001fd0000000000000000000000000000021100000901020304" ++ codes "0102030405060708" }
    ensures no_tag { encode_lower (tags_and_ether_type [] 0x0800) ≡ codes "0800" }
    ensures one_tag { encode_lower (tags_and_ether_type (5 ∷ []) 0x86dd) ≡ codes "8100000586dd" }
    ensures two_tags { encode_lower (tags_and_ether_type (5 ∷ 9 ∷ []) 0x0800) ≡ codes
        "88a80005810000090800" }
{}

/// A fragment may take memory, alone or after the first fragment of its message. None is taken for
/// one that is refused, alone or after another, for a `forget` line, for a line with an uncut
/// message, with a frame of another ether type or of 13 bytes, or for a bad line.
pub fn lines_that_take_memory()
    ensures fragment { takes_memory []
        (codes "frame 0 02000000000202000000000108004500001c00072000401146c80a0000010a000002000100020010dbb4") ≡ true }
    ensures second { takes_memory
        (codes "frame 0 02000000000202000000000108004500001c00072000401146c80a0000010a000002000100020010dbb4" ∷ [])
        (codes "frame 0 02000000000202000000000108004500001c00070001401166c70a0000010a0000020102030405060708") ≡ true }
    // It is refused since the fragment in the line before it names another end.
    ensures ended { takes_memory
        (codes "frame 0 02000000000202000000000108004500001c00070001401166c70a0000010a0000020102030405060708" ∷ [])
        (codes "frame 0 02000000000202000000000108004500001c00070002401166c60a0000010a0000020102030405060708") ≡ false }
    ensures alone { takes_memory []
        (codes "frame 0 02000000000202000000000108004500001c00070002401166c60a0000010a0000020102030405060708") ≡ true }
    ensures unaligned { takes_memory []
        (codes "frame 0 02000000000202000000000108004500001b00072000401146c90a0000010a00000200010002001000") ≡ false }
    ensures forget { (earlier : List (List ℕ)) → takes_memory earlier (codes "forget 1") ≡ false }
    ensures whole { (earlier : List (List ℕ))
        → takes_memory earlier
        (codes "frame 0 02000000000202000000000108004500002400070000401166c00a0000010a000002000100020010dbb40102030405060708") ≡ false }
    ensures other { (earlier : List (List ℕ))
        → takes_memory earlier (codes "frame 0 0200000000020200000000011234") ≡ false }
    ensures refused { (earlier : List (List ℕ))
        → takes_memory earlier (codes "frame 0 02000000000202000000000108") ≡ false }
    ensures bad_line { (earlier : List (List ℕ)) → takes_memory earlier (codes "x") ≡ false }
{}
