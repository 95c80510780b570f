//! Laws of checksums. All addresses and headers meet their conditions (`super::values`).
ghost use Rattle.std.specs.Prelude.{◌≡◌, ◌≢◌, ◌⊎◌, ◌↔◌, ◌+◌, ◌*◌, ◌≤◌, ◌<◌, ℕ, true, false, List, [], ◌∷◌, ◌++◌};
ghost use Rattle.std.specs.Prelude.{length, None, Some, Ok};
ghost use Rattle.netlines.specs.Alone.{answers_after};
ghost use Rattle.netlines.specs.Answers.{answer_after, message_answer};
ghost use Rattle.netlines.specs.Arrivals.{HasFragment};
ghost use Rattle.netlines.specs.ChangedWord.{DifferInOneWord, IsChangedFragment, summed_bytes, verdict_after};
ghost use Rattle.etherparse.specs.Fragments.{Fragment};
ghost use Rattle.etherparse.specs.IpFragId.{rule_over};
ghost use Rattle.etherparse.specs.declared.defrag.overlap_rule.OverlapRule.TheVariants.{Overwrites};
ghost use Rattle.etherparse.specs.packet.Class.{FragmentName};
ghost use Rattle.etherparse.specs.packet.Readable.{ReadMessage, message_at, udp as udp_number};
ghost use Rattle.etherparse.specs.Built.{number_of, with_message_checksum as built_header};
ghost use Rattle.etherparse.specs.declared.defrag.ip_frag_version_spec_id.IpFragVersionSpecId.{IpFragVersionSpecId};
ghost use Rattle.etherparse.specs.packet.Transport.{transport_len, transport_encoding};
ghost use Rattle.etherparse.specs.packet.declared.addresses.Addresses.{Addresses};
ghost use Rattle.etherparse.specs.packet.declared.net.ip_headers.IpHeaders.{IpHeaders};
ghost use Rattle.etherparse.specs.packet.declared.transport.transport_header.TransportHeader.{TransportHeader};
ghost use Rattle.netlines.specs.Sealed.{AddressesFit, HeaderFits, IsSealable, addresses_of, is_icmp_of_other_version};
ghost use Rattle.netlines.specs.Sealed.{seal_refusal, sealed_message_bytes, version_id_of};
ghost use Rattle.checksum_verdicts.specs.Verdict.{pseudo, summed_text, verdict_of};
ghost use Rattle.netlines.specs.Waiting.{Completes, ReturnsMessage, ReturnsChanged, lines_for, texts_for};
ghost use Rattle.netlines.specs.Waiting.{waiting_lines};
ghost use Rattle.netlines.specs.declared.seal_error.SealError.TheVariants.{IcmpOfOtherVersion, TooLong};
ghost use Rattle.checksum_verdicts.specs.declared.verdict.Verdict.TheVariants as verdict;

use etherparse::laws::defrag::fragments_agree;
use etherparse::laws::defrag::names::equal_names;
use etherparse::laws::icmp::{icmpv4, icmpv6};
use etherparse::laws::tcpudp::{tcp, udp};

/// A sealed message that can be read is good under the addresses that it was sealed for, however
/// long it is. No message can be sealed of ICMP over the other IP version, and none of UDP that is
/// longer than 65535 bytes, since its field for the length has 16 bits.
pub fn sealed_is_good()
    ensures good { (version_id : IpFragVersionSpecId) (header : TransportHeader) (payload : List ℕ)
        (message : ReadMessage) → IsSealable version_id header payload
        → message_at (number_of header) (sealed_message_bytes version_id header payload) ≡ Ok message
        → verdict_of (addresses_of version_id) message ≡ verdict.Good }
    // Whatever `seal_message` doesn't refuse can be sealed.
    ensures unrefused { (version_id : IpFragVersionSpecId) (header : TransportHeader)
        (payload : List ℕ) → AddressesFit (addresses_of version_id) → HeaderFits header
        → seal_refusal version_id header payload ≡ None → IsSealable version_id header payload }
    // It refuses ICMP over the other version, and else all that is longer than 65535 bytes, of any
    // protocol.
    ensures sealed { (version_id : IpFragVersionSpecId) (header : TransportHeader) (payload : List ℕ)
        → (seal_refusal version_id header payload ≡ None)
        ↔ ((is_icmp_of_other_version version_id header ≡ false)
        × (transport_len header + length payload ≤ 65535)) }
    ensures other_version { (version_id : IpFragVersionSpecId) (header : TransportHeader)
        (payload : List ℕ)
        → (seal_refusal version_id header payload ≡ Some IcmpOfOtherVersion)
        ↔ (is_icmp_of_other_version version_id header ≡ true) }
    ensures too_long { (version_id : IpFragVersionSpecId) (header : TransportHeader) (payload : List ℕ)
        → (seal_refusal version_id header payload ≡ Some TooLong)
        ↔ ((is_icmp_of_other_version version_id header ≡ false)
        × (65535 < transport_len header + length payload)) }
{
    icmpv4::checksums_sum_to_all_ones();
    icmpv6::checksums_sum_to_all_ones();
    tcp::sealed_sums_to_all_ones();
    udp::sealed_sums_to_all_ones();
}

/// So is a message as the builder writes it, transport header and payload, between the addresses of
/// its IP header.
pub fn built_is_good()
    ensures { (ip : IpHeaders) (header : TransportHeader) (payload : List ℕ)
        (message : ReadMessage) → IsSealable (version_id_of ip) header payload
        → message_at (number_of header)
        (transport_encoding (built_header ip payload header) ++ payload) ≡ Ok message
        → verdict_of (addresses_of (version_id_of ip)) message ≡ verdict.Good }
{
    icmpv4::checksums_sum_to_all_ones();
    icmpv6::checksums_sum_to_all_ones();
    tcp::sealed_sums_to_all_ones();
    udp::sealed_sums_to_all_ones();
}

/// Where a message is good, and one 16-bit word of what its checksum covers is changed (an odd last
/// byte counts as a word with a zero byte after it; the length and the checksum of UDP aside), the
/// new message, where it can be read, is good exactly where 0000 and ffff were exchanged and not
/// all that is summed is zero, and else bad.
pub fn one_changed_word()
    ensures message { (addresses : Addresses) (number : ℕ) (bytes following new : List ℕ)
        (message changed : ReadMessage) → AddressesFit addresses
        → message_at number bytes ≡ Ok message → verdict_of addresses message ≡ verdict.Good
        → bytes ≡ summed_bytes message ++ following → (words : DifferInOneWord (summed_bytes message)
        new)
        → (number ≡ udp_number → (length words.prefix ≢ 4) × (length words.prefix ≢ 6))
        → message_at number (new ++ following) ≡ Ok changed
        → verdict_of addresses changed
        ≡ verdict_after words.old_word words.new_word (summed_text addresses changed) }
    // The same holds of two messages that came in fragments under one name, however they were cut.
    ensures reassembled { (name : FragmentName) (channel other : ℕ)
        (earlier others : List (List ℕ)) (line changed_line text following new : List ℕ)
        (message changed : ReadMessage) → AddressesFit name.addresses
        → Completes earlier line name channel text → message_at name.number text ≡ Ok message
        → answer_after earlier line ≡ message_answer name.number verdict.Good text
        → text ≡ summed_bytes message ++ following → (words : DifferInOneWord (summed_bytes message)
        new)
        → (name.number ≡ udp_number → (length words.prefix ≢ 4) × (length words.prefix ≢ 6))
        → Completes others changed_line name other (new ++ following)
        → message_at name.number (new ++ following) ≡ Ok changed
        → answer_after others changed_line ≡ message_answer name.number
        (verdict_after words.old_word words.new_word (summed_text name.addresses changed))
        (new ++ following) }
    // The lines of a message that came over IPv4, one of them with a fragment in which one word is
    // changed, make a message that differs from the first in this word at most: a later fragment
    // may cover the word, or the message may end before it. (Over IPv6 the changed fragment
    // overlaps its repeats.)
    ensures fragment { (name : FragmentName) (channel : ℕ)
        (earlier others between prefix rest : List (List ℕ)) (last line changed : List ℕ)
        (f g h : Fragment) → rule_over name.addresses ≡ Overwrites
        → HasFragment last name channel h → ReturnsMessage (answer_after earlier last)
        → waiting_lines name channel earlier ++ last ∷ [] ≡ prefix ++ line ∷ rest
        → HasFragment line name channel f → HasFragment changed name channel g
        → (change : IsChangedFragment f g) → waiting_lines name channel others ≡ []
        → lines_for name channel between ≡ prefix ++ changed ∷ rest
        → ReturnsChanged name (8 * f.offset + length change.words.prefix)
        (answer_after earlier last) (waiting_lines name channel earlier)
        (texts_for name channel between (answers_after others between)) }
    // A message's checksum covers exactly these bytes of it, after the pseudo header for so many
    // bytes where there is one.
    ensures summed { (addresses : Addresses) (message : ReadMessage)
        → (summed_text addresses message ≡ summed_bytes message) ⊎ ((number : ℕ)
        × (summed_text addresses message ≡ pseudo addresses number (length (summed_bytes message))
        ++ summed_bytes message)) }
{
    equal_names::<u32>();
    fragments_agree();
}
