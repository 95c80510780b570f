//! An input whose first bytes are looked at.
ghost use Rattle.std.specs.Prelude.{◌≡◌, IfOk, []};
ghost use Rattle.std.specs.Io.Buffered.{reader_buffer, reader_capacity, reader_inner, reader_remaining};
ghost use Rattle.std.specs.Io.KnownBytes.{Keeps};
ghost use Rattle.capture_programs.specs.Inputs.{left_after, looks_like, remaining_of};
ghost use Rattle.capture_programs.specs.declared.input.FirstRead.TheVariants.{Open};

use crate::looks::{Look, look_at};
use std::alloc::Global;
use std::io::{self, BufRead, BufReader, ErrorKind, Read};

// How many bytes show what an input looks like.
const LOOK_LEN: usize = 64;

/// A reader whose first bytes can be looked at.
///
/// A look is its first read. Where that reports the end each read does, and where it fails each
/// read fails: the reader is not read again.
#[derive(Drop)]
pub struct Input<R> {
    reader: BufReader<R>,
    first: FirstRead,
}

/// What a look has met.
#[derive(Clone, Copy)]
pub(crate) enum FirstRead {
    /// Bytes, or there was no look.
    Open,
    /// The end.
    AtEnd,
    /// A fault, as it is a directory.
    OfDirectory,
    /// Another fault.
    Failed,
}

impl<R: Read + Drop> Input<R> {
    /// Nothing is read yet. The only error is out of memory, for a buffer of 64 bytes.
    pub fn new(alloc: Global, reader: R) -> io::Result<Input<R>>
        ensures reader { IfOk result (λ input. reader_inner input.reader ≡ reader) }
        ensures unread { IfOk result (λ input. reader_buffer input.reader ≡ []) }
        ensures capacity { IfOk result (λ input. reader_capacity input.reader ≡ 64) }
        ensures first { IfOk result (λ input. input.first ≡ Open) }
    {
        Ok(Input {
            reader: BufReader::with_capacity(alloc, LOOK_LEN, reader)?,
            first: FirstRead::Open,
        })
    }

    /// What it looks like by what its first read gives, of which nothing is taken. A read that
    /// fails shows a directory, or nothing.
    pub fn look(&mut self) -> Look
        ensures keeps { Keeps (remaining_of R.remaining self.old) (remaining_of R.remaining self.new) }
        ensures look { result ≡ looks_like self.new }
    {
        if let FirstRead::Open = self.first {
            self.first = first_read(&mut self.reader);
        }
        match self.first {
            FirstRead::Open => look_at(self.reader.buffer()),
            FirstRead::AtEnd => Look::Empty,
            FirstRead::OfDirectory => Look::Directory,
            FirstRead::Failed => Look::Other,
        }
    }
}

// What is met where the buffer is filled, if it is empty. Nothing is taken.
fn first_read<R: Read + Drop>(reader: &mut BufReader<R>) -> FirstRead
    ensures { Keeps (reader_remaining R.remaining reader.old)
        (left_after result (reader_remaining R.remaining reader.new)) }
{
    match reader.fill_buf() {
        Ok(prefix) if prefix.is_empty() => FirstRead::AtEnd,
        Ok(_) => FirstRead::Open,
        Err(error) => match error.kind() {
            ErrorKind::IsADirectory => FirstRead::OfDirectory,
            _ => FirstRead::Failed,
        },
    }
}

impl<R: Read + Drop> Read for Input<R> {
    ghost remaining = { remaining_of R.remaining };

    fn read(&mut self, buf: &mut [u8]) -> io::Result<usize> {
        match self.first {
            FirstRead::Open => self.reader.read(buf),
            FirstRead::AtEnd => Ok(0),
            FirstRead::OfDirectory => Err(ErrorKind::IsADirectory.into()),
            FirstRead::Failed => Err(ErrorKind::Other.into()),
        }
    }
}
