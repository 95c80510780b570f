//! Laws of the sum.

ghost use Rattle.ep_base.specs.MessageSum.{ChecksumSumsToAllOnes, NoZeroSumsToAllOnes};

/// A text with its checksum in it sums to all ones: where one of its words is the complement of the
/// sum of the text with 0 instead of it, or ffff where that is 0 (RFC 1071, section 1; RFC 768).
pub fn checksum_sums_to_all_ones()
    ensures complement { ChecksumSumsToAllOnes }
    ensures no_zero { NoZeroSumsToAllOnes }
{}
