//! A run: reads, and the answers to the lines that they give.
ghost use Rattle.std.specs.Prelude.{◌≡◌, ◌≤◌, List, [], length, IfOk, vec_len};
ghost use Rattle.lines.specs.LineAnswers.{Started};
ghost use Rattle.lines.specs.AnswerRuns.{NumbersFit, RunsBy};
ghost use Rattle.device_runs.specs.declared.limits.TheConstants.{READ_COUNT_LIMIT};

use crate::line_answerer::LineAnswerer;
use crate::{Answerer, READ_SIZE_LIMIT, RunError};
use device_runs::Device;
use std::alloc::{AllocError, Global};

/// A run of at most so many reads over any device, by an answerer that has answered no line yet:
/// each call that it makes, in its order, and how these calls end it.
pub fn run_with<A: Answerer + Drop, D: Device>(
    alloc: Global,
    answerer: A,
    device: &mut D,
    reads: u64,
) -> Result<(), RunError>
    requires answerer { A.shows answerer [] [] }
    requires reads { reads ≤ READ_COUNT_LIMIT }
    ensures { RunsBy D.transition A.meaning reads device.old device.new result }
{
    run_where_numbers_fit(alloc, answerer, device, reads)
}

/// [`run_with`] where the bytes that may be read are few enough to number the lines.
pub(crate) fn run_where_numbers_fit<A: Answerer + Drop, D: Device>(
    alloc: Global,
    answerer: A,
    device: &mut D,
    reads: u64,
) -> Result<(), RunError>
    requires answerer { A.shows answerer [] [] }
    requires numbers { NumbersFit D.transition A.meaning reads device.old }
    ensures { RunsBy D.transition A.meaning reads device.old device.new result }
{
    let Ok((mut chunk, mut lines)) = buffers(alloc, answerer) else {
        return Err(RunError::Memory);
    };
    answer_reads(chunk.as_mut_slice(), &mut lines, device, reads)
}

// All the memory of a run but that of its answerer.
fn buffers<A: Answerer + Drop>(
    alloc: Global,
    answerer: A,
) -> Result<(Vec<u8>, LineAnswerer<A>), AllocError>
    requires { A.shows answerer [] [] }
    ensures chunk { IfOk result (λ made. vec_len made.0 ≡ READ_SIZE_LIMIT) }
    ensures started { IfOk result
        (λ made. Started (A.shows made.1.answerer) made.1.count made.1.has_started [] []) }
    ensures answers { IfOk result (λ made. made.1.answers ≡ []) }
{
    let chunk = vec![in alloc; 0; READ_SIZE_LIMIT]?;
    Ok((chunk, LineAnswerer::new(alloc, answerer)?))
}

// Answers at most so many reads.
fn answer_reads<A: Answerer + Drop, D: Device>(
    chunk: &mut [u8],
    lines: &mut LineAnswerer<A>,
    device: &mut D,
    reads: u64,
) -> Result<(), RunError>
    requires room { length chunk.old ≡ READ_SIZE_LIMIT }
    requires started { Started
        (A.shows lines.old.answerer) lines.old.count lines.old.has_started [] [] }
    requires answers { lines.old.answers ≡ [] }
    requires numbers { NumbersFit D.transition A.meaning reads device.old }
    ensures { RunsBy D.transition A.meaning reads device.old device.new result }
{
    'reads: for _ in 0..reads {
        match device.read_some(chunk) {
            Ok(0) => return lines.finish(device),
            Ok(n) => lines.feed(&chunk[..n], device)?,
            Err(_) => return Err(RunError::Read),
        }
    }
    Err(RunError::TooManyReads)
}
