//! What answers lines, one after another.
ghost use Rattle.std.specs.Prelude.{◌≡◌, ◌≤◌, ◌++◌, ◌∷◌, ℕ, List, [], IfOk, IsTrue, MatchResult, length, take};
ghost use Rattle.lines.specs.LineAnswers.{Meaning, number_after};
ghost use Rattle.lines.specs.declared.limits.TheConstants.{ANSWER_CAPACITY};

use std::alloc::AllocError;

/// Answers lines, each by what it knows of those before it. It is given a line chunk by chunk, and
/// then the line's end.
pub trait Answerer {
    // The answer to a line after others, and where memory may run out for it.
    ghost meaning: { Meaning };

    // What is known after these lines, where this prefix of the next one is read.
    ghost shows: { Self → List (List ℕ) → List ℕ → Type 0 };

    /// Goes on with a line by its next bytes.
    fn take(&mut self, bytes: &[u8])
        ensures { (earlier : List (List ℕ)) (prefix : List ℕ) → shows self.old earlier prefix
            → shows self.new earlier (prefix ++ bytes.now) };

    /// Ends a line: writes the answer to it, ended by 0a, to the start of `out`, and returns how
    /// many bytes it has. Lines are numbered from 1. The only error is out of memory; after it
    /// nothing is stated of what is known.
    fn end(&mut self, number: u64, out: &mut [u8]) -> Result<usize, AllocError>
        requires { ANSWER_CAPACITY ≤ length out.old }
        ensures fits { IfOk result (λ end. end ≤ length out.new) }
        ensures answers { (earlier : List (List ℕ)) (line : List ℕ) → shows self.old earlier line
            → number ≡ number_after earlier → MatchResult result
            (λ end. (take end out.new ≡ meaning.answer earlier line)
            × shows self.new (earlier ++ line ∷ []) [])
            (λ e. IsTrue (meaning.takes_memory earlier line)) };
}
