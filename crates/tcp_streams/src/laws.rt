//! Laws of streams, connections and keys: the contract of each function is the law.

ghost use Rattle.tcp_streams.specs.Laws.{CutsArePlaced, NumbersAreRelative, OneTextGivesAll, OneTextGivesPrefix};
ghost use Rattle.tcp_streams.specs.Laws.{BytesStay, LateBytesAreLeftOut};
ghost use Rattle.tcp_streams.specs.Laws.{OneTextHasNoConflict, OrderDoesNotMatter, TextStays};

pub mod examples;
pub mod flows;
pub mod keys;
pub mod states;
pub mod traits;

/// Segments of one text, cut, repeated, overlapping and in any order, have no conflict, and what
/// they give is a prefix of that text; all of it, where none of its bytes is missing.
pub fn one_text()
    ensures no_conflict { OneTextHasNoConflict }
    ensures prefix { OneTextGivesPrefix }
    ensures all { OneTextGivesAll }
{}

/// A segment that has bytes of a text, and the number that they have in it, is a part of that text
/// at its position, wherever it comes: as long as less than half of all numbers lie between it and
/// what is expected next.
pub fn cuts_are_placed()
    ensures { CutsArePlaced }
{}

/// What a stream has shown never changes, whatever comes.
pub fn text_stays()
    ensures { TextStays }
{}

/// A byte that came stays at its position where others are given up. What comes later at their positions
/// is left out.
pub fn given_up_bytes_stay()
    ensures stay { BytesStay }
    ensures late { LateBytesAreLeftOut }
{}

/// Where there is no conflict, neither the order of segments matters nor how often each came.
pub fn order_does_not_matter()
    ensures { OrderDoesNotMatter }
{}

/// What becomes of segments doesn't depend on the number of the first byte: numbers wrap.
pub fn numbers_are_relative()
    ensures { NumbersAreRelative }
{}
