//! Laws of messages that are reassembled from fragments.
ghost use Rattle.std.specs.Prelude.{◌≡◌, ◌⊎◌, ℕ, true, List, [], ◌∷◌, ◌++◌, codes, map, None};
ghost use Rattle.std.specs.List.{AllZip};
ghost use Rattle.etherparse.specs.Fragments.{Fragment};
ghost use Rattle.etherparse.specs.IpFragId.{rule_over};
ghost use Rattle.etherparse.specs.declared.defrag.overlap_rule.OverlapRule.TheVariants.{Refuses};
ghost use Rattle.etherparse.specs.packet.Class.{FragmentName};
ghost use Rattle.line_grammar.specs.Commands.{command_of};
ghost use Rattle.line_grammar.specs.Commands.Command.{Frame};
ghost use Rattle.netlines.specs.Alone.{answers_after};
ghost use Rattle.netlines.specs.Answers.{answer_after, message_answer};
ghost use Rattle.netlines.specs.Arrivals.{HasFragment, lists_after_lines};
ghost use Rattle.netlines.specs.Letter.{LetterFits, name_of};
ghost use Rattle.netlines.specs.Posted.{is_fragmented, posted_frames};
ghost use Rattle.netlines.specs.PostedInput.{AnswersAgree, AreAllPosted, HaveFrames, ReturnsPosted, IsFirstCover};
ghost use Rattle.netlines.specs.PostedInput.{IsPostedFrame};
ghost use Rattle.netlines.specs.PostRefusal.{post_refusal};
ghost use Rattle.netlines.specs.Waiting.{ReturnsMessage, ReturnsJoined, line_of_message, lines_for, texts_for};
ghost use Rattle.netlines.specs.Waiting.{waiting_lines};
ghost use Rattle.checksum_verdicts.specs.declared.verdict.Verdict.{Verdict};
ghost use Rattle.netlines.specs.declared.letter.Letter.{Letter};

use etherparse::laws::defrag::names::equal_names;
use etherparse::laws::packet_builder::frames::built_frames_are_read;

/// The lines whose fragments made a message, repeated in their order where no fragment of its name
/// waits, make it again: each waits but the last, which has the same answer, whatever lines of
/// other messages come between.
pub fn replay()
    ensures { (name : FragmentName) (channel : ℕ) (earlier others between : List (List ℕ))
        (line : List ℕ) (f : Fragment) → HasFragment line name channel f
        → ReturnsMessage (answer_after earlier line) → waiting_lines name channel others ≡ []
        → lines_for name channel between ≡ waiting_lines name channel earlier ++ line ∷ []
        → texts_for name channel between (answers_after others between)
        ≡ map (λ _. codes "wait") (waiting_lines name channel earlier)
        ++ answer_after earlier line ∷ [] }
{
    equal_names::<u32>();
}

/// Where all frames were posted, with no two different messages under one name, a line is answered
/// with a message only where its frame is one of the frames of that message.
pub fn only_posted()
    ensures { (sent : FragmentName → ℕ → List ℕ) (earlier : List (List ℕ)) (line : List ℕ)
        (number : ℕ) (verdict : Verdict) (text : List ℕ)
        → AreAllPosted sent (earlier ++ line ∷ [])
        → answer_after earlier line ≡ message_answer number verdict text
        → ReturnsPosted sent line (answer_after earlier line) }
{
    built_frames_are_read();
    equal_names::<u32>();
}

/// Where all frames were posted, with no two different messages under one name, a message that came
/// in fragments has the answer of its unfragmented frame. It may have been cut in several ways, and
/// its fragments may be mixed with others, in any order and repeated.
pub fn cut_and_uncut_agree()
    // A fragment waits for the rest of the message of its name, or completes it and is answered
    // with all of it. Over IPv6, where the message was cut in several ways, two fragments may
    // overlap; then the reassembly starts anew.
    ensures message { (sent : FragmentName → ℕ → List ℕ) (earlier : List (List ℕ))
        (line : List ℕ) (name : FragmentName) (channel : ℕ) (f : Fragment)
        → AreAllPosted sent (earlier ++ line ∷ []) → HasFragment line name channel f
        → (answer_after earlier line ≡ codes "wait")
        ⊎ ((answer_after earlier line ≡ line_of_message name (sent name channel))
        ⊎ (answer_after earlier line ≡ codes "refused overlap")
        × (rule_over name.addresses ≡ Refuses)) }
    // In the second case the unfragmented frame of the message, if it has one, has the same answer,
    // after any lines and on any channel. Where the message can't be read, both are refused.
    ensures agree { (sent : FragmentName → ℕ → List ℕ) (earlier others : List (List ℕ))
        (line uncut frame : List ℕ) (letter : Letter) (channel other : ℕ) (f : Fragment)
        → AreAllPosted sent (earlier ++ line ∷ [])
        → HasFragment line (name_of letter) channel f → ReturnsMessage (answer_after earlier line)
        → IsPostedFrame letter (sent (name_of letter) channel) [] frame
        → command_of uncut ≡ Frame other frame
        → AnswersAgree (answer_after earlier line) (answer_after others uncut) }
    // Where no fragment of its name waits, the frames of a message that is cut in one way, in any
    // order and repeated, wait until the last of them that is new, which completes it.
    ensures first { (letter : Letter) (message cuts : List ℕ) (channel : ℕ)
        (others between lines came : List (List ℕ)) (line last : List ℕ)
        → LetterFits letter → post_refusal letter message cuts ≡ None → is_fragmented cuts ≡ true
        → waiting_lines (name_of letter) channel others ≡ []
        → lines_for (name_of letter) channel between ≡ lines ++ line ∷ []
        → HaveFrames channel lines came → command_of line ≡ Frame channel last
        → IsFirstCover (posted_frames letter message cuts) came last
        → texts_for (name_of letter) channel between (answers_after others between)
        ≡ map (λ _. codes "wait") lines ++ line_of_message (name_of letter) message ∷ [] }
{
    built_frames_are_read();
    equal_names::<u32>();
}

/// Over IPv6 a message that is reassembled is joined, by their offsets, from accepted fragments of
/// its name, no two of which hold the same byte (RFC 5722; RFC 8200, section 4.5).
pub fn no_overlap()
    ensures joined { (earlier : List (List ℕ)) (line : List ℕ) (name : FragmentName) (channel : ℕ)
        (f : Fragment) → rule_over name.addresses ≡ Refuses → HasFragment line name channel f
        → ReturnsMessage (answer_after earlier line)
        → ReturnsJoined name ((lists_after_lines earlier name channel).fragments ++ f ∷ [])
        (answer_after earlier line) }
    // These are the fragment of the line itself and those of the lines that wait with it.
    ensures fragments { (earlier : List (List ℕ)) (name : FragmentName) (channel : ℕ)
        → AllZip (λ line f. HasFragment line name channel f)
        (waiting_lines name channel earlier) (lists_after_lines earlier name channel).fragments }
{
    etherparse::laws::defrag::no_overlap();
    equal_names::<u32>();
}
