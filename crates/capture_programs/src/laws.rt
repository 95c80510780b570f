//! What `Clone` and `PartialEq` of the types here mean, and the definitions at literal values.
ghost use Rattle.std.specs.Prelude.{◌≡◌, ◌≢◌, Bool, true, false, [], ◌∷◌, ◌++◌, codes, Ok, Err};
ghost use Rattle.captures.specs.declared.capture_error.CaptureError.{CaptureError};
ghost use Rattle.captures.specs.declared.position.Position.{Position};
ghost use Rattle.captures.specs.declared.text.bad_line.BadLine.{BadLine};
ghost use Rattle.captures.specs.declared.translation.run_error.RunError.{RunError};
ghost use Rattle.captures.specs.declared.translation.run_error.RunError.TheVariants as run_error;
ghost use Rattle.capture_programs.specs.ErrorStatus.{run_status, status_of};
ghost use Rattle.capture_programs.specs.Looks.{look_of};
ghost use Rattle.capture_programs.specs.declared.looks.Look.TheVariants as look;
ghost use Rattle.ep_base.specs.Traits.{CopyIsValue, CopyNeverFails, IsPlainData};

use crate::captures_program::Mode;
use crate::{Look, Subject};
use ep_base::laws::traits::Value;

/// A copy is the value and takes no memory. Equal are the values that are the same.
pub fn types_are_plain_data()
    ensures look { IsPlainData ⟦<Look as Value>⟧ }
    ensures mode { IsPlainData ⟦<Mode as Value>⟧ }
{}

/// A copy is the value and takes no memory.
pub fn copies_are_values<'a>()
    ensures copies { CopyIsValue ⟦<Subject<'a> as Clone>⟧.is_clone }
    ensures never_fails { CopyNeverFails ⟦<Subject<'a> as Clone>⟧.is_infallible }
{}

/// What inputs look like by their first bytes: files of gzip (RFC 1952, section 2.3.1), Zstandard (RFC
/// 8878, section 3.1.1), xz (its file format, section 2.1.1.1) and bzip2, captures in both byte
/// orders, text and others.
pub fn looks_by_first_bytes()
    ensures empty { look_of [] ≡ look.Empty }
    ensures gzip { look_of (0x1f ∷ 0x8b ∷ 8 ∷ 0 ∷ []) ≡ look.Gzip }
    ensures zstd { look_of (0x28 ∷ 0xb5 ∷ 0x2f ∷ 0xfd ∷ []) ≡ look.Zstd }
    ensures xz { look_of (0xfd ∷ codes "7zXZ" ++ 0 ∷ []) ≡ look.Xz }
    ensures bzip2 { look_of (codes "BZh91AY") ≡ look.Bzip2 }
    ensures micro { (look_of (0xa1 ∷ 0xb2 ∷ 0xc3 ∷ 0xd4 ∷ []) ≡ look.Capture)
        × (look_of (0xd4 ∷ 0xc3 ∷ 0xb2 ∷ 0xa1 ∷ []) ≡ look.Capture) }
    ensures nano { (look_of (0xa1 ∷ 0xb2 ∷ 0x3c ∷ 0x4d ∷ []) ≡ look.Capture)
        × (look_of (0x4d ∷ 0x3c ∷ 0xb2 ∷ 0xa1 ∷ []) ≡ look.Capture) }
    ensures section { look_of (0x0a ∷ 0x0d ∷ 0x0d ∷ 0x0a ∷ 0x1c ∷ 0 ∷ []) ≡ look.Capture }
    ensures text { look_of (codes "frame 0 0aff\n") ≡ look.Text }
    ensures utf_8 { look_of (0xc3 ∷ 0xa9 ∷ 9 ∷ 13 ∷ 10 ∷ []) ≡ look.Text }
    ensures other { (look_of (0x7f ∷ codes "ELF") ≡ look.Other)
        × (look_of (codes "frame" ++ 0 ∷ []) ≡ look.Other)
        × (look_of (0x1f ∷ 0x8c ∷ []) ≡ look.Other) }
{}

/// The exit status of each error: 3 where the input is refused, 4 where a read or a write fails, and 5
/// out of memory or of reads. A failed write to an output that was closed has status 0.
pub fn statuses()
    ensures refused { (error : CaptureError) (position : Position)
        → status_of (run_error.Capture error position) ≡ 3 }
    ensures bad_line { (line : BadLine) → status_of (run_error.BadLine line) ≡ 3 }
    ensures read { status_of run_error.Read ≡ 4 }
    ensures write { (status_of run_error.Write ≡ 4) × (status_of run_error.WriteZero ≡ 4) }
    ensures memory { status_of run_error.Memory ≡ 5 }
    ensures reads { status_of run_error.TooManyReads ≡ 5 }
    ensures done { (closed : Bool) (done : Unit) → run_status closed (Ok done) ≡ 0 }
    ensures closed { run_status true (Err run_error.Write) ≡ 0 }
    ensures open { (error : RunError) → run_status false (Err error) ≡ status_of error }
    ensures other { (error : RunError) → error ≢ run_error.Write
        → run_status true (Err error) ≡ status_of error }
{}
