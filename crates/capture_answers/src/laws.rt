//! Laws of captures that are answered: the contract of each function is the law.
ghost use Rattle.std.specs.Prelude.{◌≡◌, ◌<◌, ◌^◌, ℕ, List, length};
ghost use Rattle.hex.specs.Hex.{IsBytes};
ghost use Rattle.captures.specs.Lines.{Packet, lines_of};
ghost use Rattle.captures.specs.CaptureRuns.{IsCapture};
ghost use Rattle.captures.specs.Texts.{with_line_ends};
ghost use Rattle.captures.specs.declared.extra.Extra.TheVariants.{Forget, Nothing};
ghost use Rattle.captures.specs.declared.skipped.Skipped.{Skipped};
ghost use Rattle.captures.specs.declared.unfit.Unfit.{Unfit};
ghost use Rattle.netlines.specs.Answers.{answers_of};
ghost use Rattle.capture_answers.specs.PacketAnswers.{packet_answers, spanned_answers};

use captures::laws::captured_packets_have_lines;

/// The lines of a whole capture are answered packet by packet: to each the answer to its frame, on
/// the channel of its interface, by the fragments that came with packets before it. With spans of so
/// many seconds the `forget` line of each span that has passed is answered `ok`, and drops the
/// datagrams of which no fragment was accepted since that span began.
pub fn captures_are_answered()
    ensures packets { (unfit : Unfit) (bytes : List ℕ) (packets : List Packet) (skipped : Skipped)
        → IsBytes bytes → IsCapture unfit bytes packets skipped
        → answers_of (lines_of Nothing packets) ≡ with_line_ends (packet_answers packets) }
    ensures spans { (unfit : Unfit) (bytes : List ℕ) (packets : List Packet) (skipped : Skipped)
        (seconds : ℕ) → IsBytes bytes → IsCapture unfit bytes packets skipped
        → length packets < 2 ^ 63
        → answers_of (lines_of (Forget seconds) packets)
        ≡ with_line_ends (spanned_answers seconds packets) }
{
    captured_packets_have_lines();
}
