//! Two runs over two readers.
ghost use Rattle.std.specs.Prelude.{IfSome, OnOk};
ghost use Rattle.netlines.specs.TwoRuns.{AreIsolated};

use crate::laws::isolation;
use crate::run;
use lines::RunError;
use std::alloc::Global;
use std::io::{Read, Write};

/// Two runs over two readers. Where both end well, the lines of a message whose fragments are in
/// both inputs at the same line numbers, with the same `forget` lines, have the same answers in
/// both outputs, whatever other lines the inputs have.
pub fn two_runs<R: Read, W: Write, Q: Read, V: Write>(
    alloc: Global,
    reader: &mut R,
    writer: &mut W,
    other_reader: &mut Q,
    other_writer: &mut V,
) -> (Result<(), RunError>, Result<(), RunError>)
    ensures { OnOk result.0 (OnOk result.1 (IfSome (R.remaining reader.old) (λ input.
        IfSome (Q.remaining other_reader.old) (λ other.
        AreIsolated input other (W.contents writer.old) (W.contents writer.new)
        (V.contents other_writer.old) (V.contents other_writer.new))))) }
{
    isolation();
    let first = run(alloc, reader, writer);
    let second = run(alloc, other_reader, other_writer);
    (first, second)
}
