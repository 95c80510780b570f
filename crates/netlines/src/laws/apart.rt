//! Laws of one message among others.
ghost use Rattle.std.specs.Prelude.{◌≡◌, ℕ, List, [], ◌∷◌, ◌++◌, codes};
ghost use Rattle.etherparse.specs.Fragments.{Fragment};
ghost use Rattle.etherparse.specs.IpFragId.{rule_over};
ghost use Rattle.etherparse.specs.declared.defrag.overlap_rule.OverlapRule.TheVariants.{Refuses};
ghost use Rattle.etherparse.specs.packet.Class.{FragmentName, class_of};
ghost use Rattle.etherparse.specs.packet.Class.Class.{Whole};
ghost use Rattle.etherparse.specs.packet.Readable.{ReadMessage};
ghost use Rattle.etherparse.specs.packet.declared.addresses.Addresses.{Addresses};
ghost use Rattle.line_grammar.specs.Commands.{command_of};
ghost use Rattle.line_grammar.specs.Commands.Command.{Bad, Frame};
ghost use Rattle.netlines.specs.Alone.{IsInert, IsRefused, alone, answers_to, lines_that_matter, HasNoForget};
ghost use Rattle.netlines.specs.Alone.{on_channel, texts_that_matter};
ghost use Rattle.netlines.specs.Answers.{answer_after};
ghost use Rattle.netlines.specs.Arrivals.{HasFragment, lists_after_lines};

use etherparse::laws::defrag::names::equal_names;

/// In two inputs that have the same fragments of one message and the same `forget` lines, each at
/// the same line number, these lines have the same answers, whatever all other lines are.
pub fn isolation()
    ensures inputs { (name : FragmentName) (channel : ℕ) (lines others : List (List ℕ))
        → lines_that_matter name channel lines ≡ lines_that_matter name channel others
        → texts_that_matter name channel lines (answers_to lines)
        ≡ texts_that_matter name channel others (answers_to others) }
    // The answers stay the same where a bad line replaces each fragment of another message.
    ensures alone { (name : FragmentName) (channel : ℕ) (lines : List (List ℕ)) (bad : List ℕ)
        → command_of bad ≡ Bad
        → texts_that_matter name channel lines (answers_to lines)
        ≡ texts_that_matter name channel lines (answers_to (alone bad name channel lines)) }
    // Without `forget` lines, the lines with frames on one channel, alone, are answered as they are
    // among all others.
    ensures channels { (channel : ℕ) (lines : List (List ℕ)) → HasNoForget lines
        → answers_to (on_channel channel lines lines)
        ≡ on_channel channel lines (answers_to lines) }
{
    equal_names::<u32>();
}

/// A line that is answered `other`, `refused frame`, `refused long`, `refused unaligned` or
/// `refused end` may be replaced by a bad one, and no other answer changes.
pub fn refused_lines_are_inert()
    ensures inert { (earlier : List (List ℕ)) (line : List ℕ)
        → IsRefused (answer_after earlier line) → IsInert earlier line }
    // A fragment that is answered `refused message` ends the reassembly of its message as one that
    // completes a message does.
    ensures ends { (earlier : List (List ℕ)) (line : List ℕ) (name : FragmentName) (channel : ℕ)
        (f : Fragment) → HasFragment line name channel f
        → answer_after earlier line ≡ codes "refused message"
        → (lists_after_lines (earlier ++ line ∷ []) name channel).fragments ≡ [] }
    // So does one that is answered `refused overlap`, which occurs over IPv6 alone (RFC 5722).
    ensures overlap { (earlier : List (List ℕ)) (line : List ℕ) (name : FragmentName) (channel : ℕ)
        (f : Fragment) → HasFragment line name channel f
        → answer_after earlier line ≡ codes "refused overlap"
        → ((lists_after_lines (earlier ++ line ∷ []) name channel).fragments ≡ [])
        × (rule_over name.addresses ≡ Refuses) }
{
    equal_names::<u32>();
}

/// A line with an unfragmented message may be replaced by a bad one, and no other answer changes.
pub fn whole_lines_are_inert()
    ensures { (earlier : List (List ℕ)) (line : List ℕ) (channel : ℕ) (frame : List ℕ)
        (addresses : Addresses) (number : ℕ) (bytes : List ℕ) (message : ReadMessage)
        → command_of line ≡ Frame channel frame
        → class_of frame ≡ Whole addresses number bytes message → IsInert earlier line }
{}
