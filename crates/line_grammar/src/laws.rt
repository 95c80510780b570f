//! Laws of what lines request.
ghost use Rattle.std.specs.Prelude.{◌≡◌, ◌≤◌, ◌<◌, ◌+◌, ◌*◌, ◌/◌, ◌%◌, ◌^◌, List, ℕ, [], ◌∷◌, ◌++◌, IsTrue, Some};
ghost use Rattle.std.specs.Prelude.{codes, length};
ghost use Rattle.std.specs.Str.Parse.{digits_value};
ghost use Rattle.hex.specs.Hex.{IsBytes, encode_lower, encode_upper};
ghost use Rattle.lines.specs.Lines.{HasNoNewline};
ghost use Rattle.lines.specs.declared.limits.TheConstants.{LINE_LIMIT};
ghost use Rattle.line_grammar.specs.Commands.{FrameLinesAreTheGrammar, ForgetLinesAreTheGrammar, command_of};
ghost use Rattle.line_grammar.specs.Commands.{is_channel};
ghost use Rattle.line_grammar.specs.Commands.Command.{Forget, Frame};
ghost use Rattle.line_grammar.specs.TimedLines.{timed_frame_of};
ghost use Rattle.line_grammar.specs.Written.{written_forget, written_frame, written_timed_frame};
ghost use Rattle.line_grammar.specs.declared.frame_limits.TheConstants.{FRAME_LIMIT, TIMED_LINE_LIMIT};

/// A line gives a frame exactly where it has the form `frame CHANNEL HEX`.
pub fn frame_lines_are_the_grammar()
    ensures { FrameLinesAreTheGrammar }
{}

/// A line has datagrams dropped exactly where it has the form `forget NUMBER`.
pub fn forget_lines_are_the_grammar()
    ensures { ForgetLinesAreTheGrammar }
{}

/// Every frame of at least a byte that fits a line can be given, by lines with its digits in lower
/// case and in upper case.
pub fn frames_can_be_given()
    ensures lower { (channel frame : List ℕ) → IsTrue (is_channel channel) → IsBytes frame
        → 1 ≤ length frame → 7 + length channel + 2 * length frame ≤ LINE_LIMIT
        → command_of (codes "frame " ++ channel ++ codes " " ++ encode_lower frame)
        ≡ Frame (digits_value 10 channel) frame }
    ensures upper { (channel frame : List ℕ) → IsTrue (is_channel channel) → IsBytes frame
        → 1 ≤ length frame → 7 + length channel + 2 * length frame ≤ LINE_LIMIT
        → command_of (codes "frame " ++ channel ++ codes " " ++ encode_upper frame)
        ≡ Frame (digits_value 10 channel) frame }
    ensures worked { (command_of (codes "frame 7 00ff") ≡ Frame 7 (0 ∷ 255 ∷ []))
        × (command_of (codes "frame 07 FF") ≡ Frame 7 (255 ∷ [])) }
{}

/// The line that is written for a frame is parsed as exactly this frame on its channel, and is one
/// line.
pub fn written_frame_lines_are_read()
    ensures requests { (channel : ℕ) (frame : List ℕ) → channel < 2 ^ 32 → IsBytes frame
        → 1 ≤ length frame → length frame ≤ FRAME_LIMIT
        → command_of (written_frame channel frame) ≡ Frame channel frame }
    ensures one_line { (channel : ℕ) (frame : List ℕ) → channel < 2 ^ 32 → IsBytes frame
        → HasNoNewline (written_frame channel frame) }
{}

/// With its time, or without one, such a line is parsed again as this frame at this time.
pub fn written_times_are_read()
    ensures timed { (channel : ℕ) (frame : List ℕ) (time : ℕ) → channel < 2 ^ 32 → IsBytes frame
        → 1 ≤ length frame → length frame ≤ FRAME_LIMIT → time / 1_000_000_000 < 2 ^ 32
        → timed_frame_of (written_timed_frame channel frame time)
        ≡ Some (record {
          seconds = time / 1_000_000_000;
          nanoseconds = time % 1_000_000_000;
          frame = frame;
        }) }
    ensures untimed { (channel : ℕ) (frame : List ℕ) → channel < 2 ^ 32 → IsBytes frame
        → 1 ≤ length frame → length frame ≤ FRAME_LIMIT
        → timed_frame_of (written_frame channel frame)
        ≡ Some (record { seconds = 0; nanoseconds = 0; frame = frame }) }
    ensures one_line { (channel : ℕ) (frame : List ℕ) (time : ℕ) → channel < 2 ^ 32 → IsBytes frame
        → time / 1_000_000_000 < 2 ^ 32 → HasNoNewline (written_timed_frame channel frame time) }
{}

/// The same of the line that has datagrams dropped.
pub fn written_forget_lines_are_read()
    ensures requests { (number : ℕ) → number < 2 ^ 64
        → command_of (written_forget number) ≡ Forget number }
    ensures one_line { (number : ℕ) → number < 2 ^ 64 → HasNoNewline (written_forget number) }
    ensures worked { command_of (codes "forget 12") ≡ Forget 12 }
{}

/// Lines as they are written, and one that is read.
pub fn worked_lines()
    ensures frame { written_frame 7 (0x0a ∷ 0xff ∷ []) ≡ codes "frame 7 0aff" }
    ensures timed { written_timed_frame 7 (0x0a ∷ 0xff ∷ []) 5_000_000_000
        ≡ codes "frame 7 0aff 5 0" }
    ensures nanoseconds { written_timed_frame 7 (0x0a ∷ 0xff ∷ []) 5_000_004_003
        ≡ codes "frame 7 0aff 5 4 3" }
    ensures forget { written_forget 8 ≡ codes "forget 8" }
    ensures read { timed_frame_of (codes "frame 0 ffff 1700000000 250000")
        ≡ Some (record {
          seconds = 1_700_000_000;
          nanoseconds = 250_000_000;
          frame = 0xff ∷ 0xff ∷ [];
        }) }
{}

/// The limits are these numbers.
pub fn limits()
    ensures frame { FRAME_LIMIT ≡ 99_991 }
    ensures timed_line { TIMED_LINE_LIMIT ≡ 200_032 }
{}
