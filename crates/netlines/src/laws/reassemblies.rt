//! Laws of the list of accepted fragments that each message has after lines.
ghost use Rattle.std.specs.Prelude.{◌≡◌, ◌≢◌, ◌<◌, ◌≤◌, ◌+◌, ℕ, Bool, false, List, [], ◌∷◌, ◌++◌, Err};
ghost use Rattle.etherparse.specs.Fragments.{Fragment};
ghost use Rattle.etherparse.specs.Outcome.{held_after};
ghost use Rattle.etherparse.specs.PoolCalls.{no_lists, outcome_at};
ghost use Rattle.etherparse.specs.packet.Class.{FragmentName};
ghost use Rattle.netlines.specs.Answers.{answer_after, frame_meaning, outcome_answer, takes_memory};
ghost use Rattle.netlines.specs.Arrivals.{HasFragment, LastAccepted, lists_after_lines};
ghost use Rattle.line_grammar.specs.Commands.{command_of};
ghost use Rattle.line_grammar.specs.Commands.Command.{Forget};
ghost use Rattle.lines.specs.LineAnswers.{number_after, whole_lines_of};
ghost use Rattle.lines.specs.AnswerRuns.{IsOutput};
ghost use Rattle.lines.specs.declared.run_error.RunError.TheVariants.{Memory};

use etherparse::laws::defrag::names::equal_names;

/// What a line does to the list of accepted fragments of a message. Before any line the list is
/// empty.
pub fn lists_of_a_message()
    ensures none { (name : FragmentName) (channel : ℕ)
        → lists_after_lines [] name channel ≡ no_lists name channel }
    // The answer to a line with a fragment of the message says what becomes of the fragment, and
    // the list changes by that. The line's number becomes the time of the list.
    ensures answer { (earlier : List (List ℕ)) (line : List ℕ) (name : FragmentName) (channel : ℕ)
        (f : Fragment) → HasFragment line name channel f
        → answer_after earlier line ≡ outcome_answer name.addresses name.number
        (outcome_at (lists_after_lines earlier) name channel f) }
    ensures fragment { (earlier : List (List ℕ)) (line : List ℕ) (name : FragmentName) (channel : ℕ)
        (f : Fragment) → HasFragment line name channel f
        → lists_after_lines (earlier ++ line ∷ []) name channel
        ≡ held_after (lists_after_lines earlier name channel) (number_after earlier)
        (outcome_at (lists_after_lines earlier) name channel f) }
    // No other line changes the list but a `forget` line.
    ensures other { (earlier : List (List ℕ)) (line : List ℕ) (name : FragmentName) (channel : ℕ)
        → ((f : Fragment) → HasFragment line name channel f → ⊥)
        → ((number : ℕ) → command_of line ≡ Forget number → ⊥)
        → lists_after_lines (earlier ++ line ∷ []) name channel
        ≡ lists_after_lines earlier name channel }
{
    equal_names::<u32>();
}

/// A line `forget K` empties the lists of accepted fragments whose last one came with a line before
/// line K, and leaves all others.
pub fn forget()
    ensures dropped { (earlier : List (List ℕ)) (line : List ℕ) (number channel : ℕ)
        (name : FragmentName) → command_of line ≡ Forget number
        → (lists_after_lines earlier name channel).time < number
        → (lists_after_lines (earlier ++ line ∷ []) name channel).fragments ≡ [] }
    ensures kept { (earlier : List (List ℕ)) (line : List ℕ) (number channel : ℕ)
        (name : FragmentName) → command_of line ≡ Forget number
        → number ≤ (lists_after_lines earlier name channel).time
        → lists_after_lines (earlier ++ line ∷ []) name channel
        ≡ lists_after_lines earlier name channel }
    // The time of a list that isn't empty is the number of the line of the fragment that was
    // accepted last.
    ensures time { (lines : List (List ℕ)) (name : FragmentName) (channel : ℕ)
        → (lists_after_lines lines name channel).fragments ≢ []
        → LastAccepted lines name channel }
{
    equal_names::<u32>();
}

/// Where no whole line that was read may take memory, a run that ends out of memory has read and
/// written nothing.
pub fn only_fragments_take_memory()
    ensures { (reported : Bool) (read written : List ℕ)
        → ((before : List (List ℕ)) (line : List ℕ) (later : List (List ℕ))
        → whole_lines_of reported read ≡ before ++ line ∷ later → takes_memory before line ≡ false)
        → IsOutput frame_meaning (Err Memory) reported read written → (read ≡ []) × (written ≡ []) }
{}
