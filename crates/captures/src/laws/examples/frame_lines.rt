//! Lines of frames with times and lengths on the wire, and lines that give no frame.

ghost use Rattle.std.specs.Prelude.{◌≡◌, [], codes, Some, None};
ghost use Rattle.captures.specs.CapturedFrames.{captured_frame_of, fault_of};
ghost use Rattle.captures.specs.Examples.{given_at};
ghost use Rattle.captures.specs.declared.text.bad_line.LineFault.TheVariants.{NoFraction, NoFrame, OtherAfterFrame};

/// A line of a frame alone, with its time in microseconds, with nanoseconds too, and with its length
/// on the wire after them.
pub fn frames_of_lines()
    ensures alone { captured_frame_of (codes "frame 7 0aff") ≡ Some (given_at 0 0 2) }
    ensures microseconds { captured_frame_of (codes "frame 7 0aff 5 6") ≡ Some (given_at 5 6000 2) }
    ensures nanoseconds { captured_frame_of (codes "frame 7 0aff 5 6 7")
        ≡ Some (given_at 5 6007 2) }
    ensures length { captured_frame_of (codes "frame 7 0aff 5 6 7 1500")
        ≡ Some (given_at 5 6007 1500) }
{}

/// A frame of two bytes whose line says that it had two, more, one or none on the wire: it had two at
/// least. The greatest length has 32 bits, and ten digits.
pub fn lengths_of_lines()
    ensures same { captured_frame_of (codes "frame 7 0aff 5 6 7 2") ≡ Some (given_at 5 6007 2) }
    ensures greater { captured_frame_of (codes "frame 7 0aff 5 6 7 3") ≡ Some (given_at 5 6007 3) }
    ensures less { captured_frame_of (codes "frame 7 0aff 5 6 7 1") ≡ Some (given_at 5 6007 2) }
    ensures none { captured_frame_of (codes "frame 7 0aff 5 6 7 0") ≡ Some (given_at 5 6007 2) }
    ensures greatest { captured_frame_of (codes "frame 7 0aff 5 6 7 4294967295")
        ≡ Some (given_at 5 6007 4_294_967_295) }
    ensures beyond { captured_frame_of (codes "frame 7 0aff 5 6 7 4294967296") ≡ None }
    ensures ten_digits { captured_frame_of (codes "frame 7 0aff 5 6 7 0000000009")
        ≡ Some (given_at 5 6007 9) }
    ensures eleven_digits { captured_frame_of (codes "frame 7 0aff 5 6 7 00000000009") ≡ None }
{}

/// Lines that give no frame.
pub fn lines_without_frames()
    ensures seconds { captured_frame_of (codes "frame 7 0aff 5") ≡ None }
    ensures word { captured_frame_of (codes "frame 7 0aff x") ≡ None }
    ensures more { captured_frame_of (codes "frame 7 0aff 5 6 7 8 9") ≡ None }
    ensures half_a_byte { captured_frame_of (codes "frame 7 0af 5 6") ≡ None }
    ensures other { captured_frame_of (codes "forget 7") ≡ None }
    ensures empty { captured_frame_of [] ≡ None }
{}

/// Why they give none: after a frame come the seconds of a time alone, or something else; or there is
/// no frame.
pub fn faults_of_lines()
    ensures seconds { fault_of (codes "frame 7 0aff 5") ≡ NoFraction }
    ensures word { fault_of (codes "frame 7 0aff x") ≡ OtherAfterFrame }
    ensures space { fault_of (codes "frame 7 0aff ") ≡ OtherAfterFrame }
    ensures eleven_digits { fault_of (codes "frame 7 0aff 00000000005") ≡ OtherAfterFrame }
    ensures million { fault_of (codes "frame 7 0aff 5 1000000") ≡ OtherAfterFrame }
    ensures thousand { fault_of (codes "frame 7 0aff 5 6 1000") ≡ OtherAfterFrame }
    ensures beyond { fault_of (codes "frame 7 0aff 5 6 7 4294967296") ≡ OtherAfterFrame }
    ensures more { fault_of (codes "frame 7 0aff 5 6 7 8 9") ≡ OtherAfterFrame }
    ensures half_a_byte { fault_of (codes "frame 7 0af 5") ≡ NoFrame }
    ensures no_byte { fault_of (codes "frame 7  5") ≡ NoFrame }
    ensures channel { fault_of (codes "frame x 0aff 5") ≡ NoFrame }
    ensures other { fault_of (codes "forget 7") ≡ NoFrame }
    ensures empty { fault_of [] ≡ NoFrame }
{}
