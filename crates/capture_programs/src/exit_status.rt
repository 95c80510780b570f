//! The exit status of a program whose run ends by an error.
ghost use Rattle.std.specs.Prelude.{◌≡◌};
ghost use Rattle.capture_programs.specs.ErrorStatus.{status_of};

use captures::RunError;

/// The exit status where a run ends by this error.
pub fn status(error: RunError) -> u8
    ensures { result ≡ status_of error }
{
    match error {
        RunError::Capture(_, _) | RunError::BadLine(_) => 3,
        RunError::Read | RunError::Write | RunError::WriteZero => 4,
        RunError::Memory | RunError::TooManyReads => 5,
    }
}
