//! Laws of one message in two fragments: its lines, frames and words meet the conditions of other
//! laws. Headers and checksums were worked out by hand after RFC 768, 791 and 1071.
ghost use Rattle.std.specs.Prelude.{[], ◌∷◌};
ghost use Rattle.netlines.specs.Arrivals.{HasFragment};
ghost use Rattle.netlines.specs.ChangedWord.{DifferInOneWord, IsChangedFragment};
ghost use Rattle.netlines.specs.Posted.{posted_frames};
ghost use Rattle.netlines.specs.PostedInput.{AreAllPosted, IsFirstCover, IsPostedOn};
ghost use Rattle.netlines.specs.TwoFragments.{changed_fragment, first_fragment, first_frame, first_line};
ghost use Rattle.netlines.specs.TwoFragments.{second_fragment, second_frame, second_line, udp_letter, udp_message};
ghost use Rattle.netlines.specs.TwoFragments.{udp_name};
ghost use Rattle.netlines.specs.Waiting.{Completes};

/// Each of two lines has a fragment of one message, which the second one completes.
pub fn lines_have_fragments()
    ensures first { HasFragment first_line udp_name 0 first_fragment }
    ensures second { HasFragment second_line udp_name 0 second_fragment }
    ensures completes { Completes (first_line ∷ []) second_line udp_name 0 udp_message }
{}

/// The frames of these lines are those that the message is posted as, cut at 8: with the second
/// line both have come.
pub fn fragments_are_posted()
    ensures first { IsPostedOn (λ name channel. udp_message) 0 first_frame }
    ensures second { IsPostedOn (λ name channel. udp_message) 0 second_frame }
    ensures lines { AreAllPosted (λ name channel. udp_message) (first_line ∷ second_line ∷ []) }
    ensures cover { IsFirstCover (posted_frames udp_letter udp_message (8 ∷ [])) (first_frame ∷ [])
        second_frame }
{}

/// The second fragment differs in one word from its copy with another last byte, and so does the
/// text 01 from the text 02.
pub fn words_are_changed()
    ensures fragment { IsChangedFragment second_fragment changed_fragment }
    ensures odd { DifferInOneWord (1 ∷ []) (2 ∷ []) }
{}
