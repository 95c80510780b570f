//! The answers to the lines of a text in memory.
ghost use Rattle.std.specs.Prelude.{◌≡◌, [], IfOk, Some};
ghost use Rattle.device_runs.specs.Known.{known_of};
ghost use Rattle.lines.specs.Known.{MemoryCall};
ghost use Rattle.lines.specs.LineAnswers.{answers_to_text};

use crate::answer_runs::run_where_numbers_fit;
use crate::{Answerer, RunError};
use device_runs::Device;
use std::alloc::{AllocError, Global};
use std::io;

/// A text that is read, and a vector that is written. Its reads never fail; a write takes all its
/// bytes, or finds no memory for them.
#[derive(Drop)]
struct TextDevice<'t> {
    // What is left to read.
    input: &'t [u8],
    output: Vec<u8>,
}

impl<'t> Device for TextDevice<'t> {
    ghost transition = { λ s call t. MemoryCall
        (known_of (Some s.input.now) (Some s.output.items)) call
        (known_of (Some t.input.now) (Some t.output.items)) };

    fn read_some(&mut self, buf: &mut [u8]) -> io::Result<usize> {
        let len = buf.len().min(self.input.len());
        let (given, rest) = self.input.split_at(len);
        buf[..len].copy_from_slice(given);
        self.input = rest;
        Ok(len)
    }

    fn write_some(&mut self, buf: &[u8]) -> io::Result<usize> {
        self.output.extend_from_slice(buf)?;
        Ok(buf.len())
    }
}

/// The answers to all lines of a text, by an answerer that has answered no line yet. The only error
/// is out of memory.
pub fn answers_by<A: Answerer + Drop>(
    alloc: Global,
    answerer: A,
    text: &[u8],
) -> Result<Vec<u8>, AllocError>
    requires { A.shows answerer [] [] }
    ensures { IfOk result (λ answers. answers.items ≡ answers_to_text A.meaning text.now) }
{
    let mut device = TextDevice {
        input: text,
        output: Vec::new(alloc),
    };
    // Each read but the last one gives a byte at least.
    let reads = text.len() as u64 + 1;
    match run_where_numbers_fit(alloc, answerer, &mut device, reads) {
        Ok(()) => Ok(device.output),
        Err(error) => match error {
            RunError::Write | RunError::Memory => Err(AllocError),
            RunError::Read => unreachable!(),
            RunError::WriteZero => unreachable!(),
            RunError::TooManyReads => unreachable!(),
        },
    }
}
