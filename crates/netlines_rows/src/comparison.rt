//! Whether a row agrees.
ghost use Rattle.std.specs.Prelude.{◌≡◌, ◌↔◌, IfOk, IsTrue};
ghost use Rattle.netlines.specs.Answers.{answers_of};

use fault_devices::FaultReader;
use netlines::{READ_COUNT_LIMIT, RunError};
use std::alloc::Global;
use std::hash::BuildHasher;

/// Whether a run over the input writes exactly the expected bytes.
pub fn agrees(alloc: Global, input: &[u8], wanted: &[u8]) -> Result<bool, RunError>
    ensures { IfOk result (λ agrees. IsTrue agrees ↔ (answers_of input.now ≡ wanted.now)) }
{
    let mut reader = input;
    let mut output = Vec::new(alloc);
    netlines::run(alloc, &mut reader, &mut output)?;
    Ok(output.as_slice() == wanted)
}

/// Whether runs write the same where a read returns a byte, a pair of digits or one byte more,
/// about as many digits as are read at once, or as many as fit its buffer; with this hasher's state
/// for the names of messages. It has no contract: it is run, as a test is.
pub fn agrees_in_chunks<S: BuildHasher + Copy>(
    alloc: Global,
    state: S,
    input: &[u8],
    wanted: &[u8],
) -> Result<bool, RunError> {
    for size in [1, 2, 3, 31, 32, 33, 65_536] {
        let mut reader = FaultReader::new(input, size);
        let mut output = Vec::new(alloc);
        netlines::run_with_hasher(alloc, state, &mut reader, &mut output, READ_COUNT_LIMIT)?;
        if output.as_slice() != wanted {
            return Ok(false);
        }
    }
    Ok(true)
}
