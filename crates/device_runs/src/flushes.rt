//! A flush after a run.
ghost use Rattle.std.specs.Io.KnownBytes.{Keeps};
ghost use Rattle.device_runs.specs.Endings.{EndsFlushed};

use std::io::Write;

/// Flushes what a run wrote, and returns how the run ended: `done`, or `failed` where the run
/// succeeded and the flush fails. `Write` gives a flush no meaning but that it writes nothing.
pub fn flush_after<W: Write, E: Drop>(
    writer: &mut W,
    done: Result<(), E>,
    failed: E,
) -> Result<(), E>
    ensures bytes { Keeps (W.contents writer.old) (W.contents writer.new) }
    ensures ends { EndsFlushed failed done result }
{
    let flushed = writer.flush();
    match done {
        Ok(()) if flushed.is_err() => Err(failed),
        done => done,
    }
}
