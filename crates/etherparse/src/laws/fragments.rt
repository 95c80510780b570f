//! Laws of the fragments of one datagram: the contract of each function is the law.

ghost use Rattle.std.specs.Prelude.{◌≡◌, ◌↔◌, IsTrue, List};
ghost use Rattle.etherparse.specs.Fragments.{Fragment, is_complete, Complete, FragmentsAgree, AcceptedAreDisjoint};
ghost use Rattle.etherparse.specs.Fragments.{Clashes, IsRepeat, is_repeat, overlaps};
ghost use Rattle.etherparse.specs.IpDefragBuf.{Cover};
ghost use Rattle.etherparse.specs.Joined.{NoOverlap};
ghost use Rattle.etherparse.specs.FragmentBytes.{LastByteCounts, UncoveredHasNone};
ghost use Rattle.etherparse.specs.declared.defrag.TheConstants.{MAX_IP_DEFRAG_LEN, MAX_IP_DEFRAG_LEN_U16};
ghost use Rattle.etherparse.specs.declared.defrag.overlap_rule.OverlapRule.TheVariants.{Refuses};

pub mod additions;
pub mod examples;
pub mod joined;
pub mod kept;
pub mod lengths;
pub mod traits;

pub use crate::defrag::ip_defrag_buf::every_buffer_shows_its_fragments;

/// Whatever fragments a buffer shows, empty, overlapping and late ones included: an end is known
/// and there is one section, from 0 on, exactly where an end is named and no byte below the
/// greatest end is missing.
pub fn cover()
    ensures { Cover }
{}

/// In a list of accepted fragments each ends at 65535 at most, more follows only after whole units
/// of 8 bytes, and all last ones name the same end (RFC 791, section 3.2).
pub fn fragments_agree()
    ensures { FragmentsAgree }
{}

/// Where overlaps are refused, accepted fragments that cover the same offset are the same fragment
/// that came again, and none covers an offset at the end of the datagram or after it.
pub fn accepted_are_disjoint()
    ensures { AcceptedAreDisjoint }
{}

/// Where overlaps are refused, a datagram that is complete is the bytes of some of its accepted
/// fragments, joined by their offsets: each starts where the one before it ends, so that no two
/// cover the same offset (RFC 5722; RFC 8200, section 4.5).
pub fn no_overlap()
    ensures { NoOverlap }
{}

/// Wherever a fragment is in a list: an offset that it covers, and none after it, has its byte. An
/// offset that none covers has no byte.
pub fn last_byte_counts()
    ensures last { LastByteCounts }
    ensures none { UncoveredHasNone }
{}

/// The test of completeness decides completeness.
pub fn complete_is_tested()
    ensures { (fs : List Fragment) → IsTrue (is_complete fs) ↔ Complete fs }
{}

/// The tests of a repeat and of a clash decide these.
pub fn clashes_are_tested()
    ensures repeat { (fs : List Fragment) (f : Fragment) → IsTrue (is_repeat fs f) ↔ IsRepeat fs f }
    ensures clash { (fs : List Fragment) (f : Fragment)
        → IsTrue (overlaps Refuses fs f) ↔ Clashes fs f }
{}

/// The greatest length of a datagram's payload: the greatest number in the 16 bits of an IP
/// header's length field, whatever of it the headers take (RFC 791, section 3.1; RFC 8200, section
/// 3).
pub fn greatest_lengths()
    ensures len { MAX_IP_DEFRAG_LEN ≡ 65535 }
    ensures len_u16 { MAX_IP_DEFRAG_LEN_U16 ≡ 65535 }
{}
