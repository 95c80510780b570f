//! Laws of lines and of runs over them: the contract of each function is the law.
ghost use Rattle.std.specs.Prelude.{◌≡◌, ◌++◌, ℕ, List};
ghost use Rattle.lines.specs.Lines.{PartsAreTheText, ended_lines_of, last_line, split};
ghost use Rattle.lines.specs.LineAnswers.{Meaning, answers_to_later, answers_to_text, answers_to_ended};
ghost use Rattle.lines.specs.declared.limits.TheConstants.{LINE_LIMIT, READ_SIZE_LIMIT, ANSWER_CAPACITY};
ghost use Rattle.device_runs.specs.declared.limits.TheConstants.{READ_COUNT_LIMIT};

/// The lines that 0a ends and what comes after the last 0a, joined by 0a, are the bytes again, and
/// none of these parts holds a 0a.
pub fn parts_are_the_text()
    ensures { PartsAreTheText }
{}

/// The lines of a text with more bytes after it are those of the text, and those of what follows
/// its last 0a with the bytes after it; and so are the answers to them.
pub fn text_goes_on()
    ensures rest { (a b : List ℕ) → (split (a ++ b)).rest ≡ (split ((split a).rest ++ b)).rest }
    ensures ended { (a b : List ℕ) → ended_lines_of (a ++ b)
        ≡ ended_lines_of a ++ ended_lines_of ((split a).rest ++ b) }
    ensures answers { (m : Meaning) (a b : List ℕ) → answers_to_ended m (a ++ b)
        ≡ answers_to_ended m a
        ++ answers_to_later m.answer (ended_lines_of a) (ended_lines_of ((split a).rest ++ b)) }
    ensures end { (m : Meaning) (a : List ℕ) → answers_to_text m a
        ≡ answers_to_ended m a
        ++ answers_to_later m.answer (ended_lines_of a) (last_line (split a).rest) }
{}

/// The limits of a run are these numbers: of a line's bytes, of a read's bytes, and of reads; and
/// the space for an answer.
pub fn run_limits()
    ensures line { LINE_LIMIT ≡ 200000 }
    ensures read { READ_SIZE_LIMIT ≡ 65536 }
    ensures reads { READ_COUNT_LIMIT ≡ 1099511627776 }
    ensures answer_capacity { ANSWER_CAPACITY ≡ 200032 }
{}
