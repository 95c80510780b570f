//! The readers and writers of tests: a call moves few bytes, calls are counted, and one of them
//! fails or moves fewer.
#![tactic(auto)]

ghost use Rattle.std.specs.Prelude.{◌≤◌, IfOk, length};

use std::alloc::Global;
use std::fmt;
use std::io::{self, ErrorKind, Read, Write};

/// What a call does instead of moving as many bytes as the others.
#[derive(Clone, Copy, Debug, PartialEq, Eq)]
pub enum Fault {
    Fails(ErrorKind),
    MovesNone,
    MovesOne,
}

// How many bytes of so many the call with this number moves.
fn moved(
    call: usize,
    chunk_size: usize,
    fault: Option<(usize, Fault)>,
    len: usize,
) -> io::Result<usize>
    ensures { IfOk result (λ moved. moved ≤ len) }
{
    match fault {
        Some((at, Fault::Fails(kind))) if at == call => Err(kind.into()),
        Some((at, Fault::MovesNone)) if at == call => Ok(0),
        Some((at, Fault::MovesOne)) if at == call => Ok(len.min(1)),
        _ => Ok(len.min(chunk_size)),
    }
}

/// A reader of bytes.
#[derive(Drop)]
pub struct FaultReader<'a> {
    /// The bytes that aren't read.
    pub rest: &'a [u8],
    /// How often it was called.
    pub calls: usize,
    /// The length in bytes of the last call's buffer.
    pub room: usize,
    chunk_size: usize,
    fault: Option<(usize, Fault)>,
}

impl<'a> FaultReader<'a> {
    /// Gives so many bytes a call, as long as there are some. It has no contract: tests alone call
    /// it, and are run.
    pub fn new(bytes: &'a [u8], chunk_size: usize) -> FaultReader<'a> {
        FaultReader {
            rest: bytes,
            calls: 0,
            room: 0,
            chunk_size,
            fault: None,
        }
    }

    /// The same but for this call, counted from 0; it has no contract, as `new`.
    pub fn failing(
        bytes: &'a [u8],
        chunk_size: usize,
        call: usize,
        fault: Fault,
    ) -> FaultReader<'a> {
        FaultReader {
            rest: bytes,
            calls: 0,
            room: 0,
            chunk_size,
            fault: Some((call, fault)),
        }
    }
}

impl<'a> Read for FaultReader<'a> {
    fn read(&mut self, buf: &mut [u8]) -> io::Result<usize> {
        let call = self.calls;
        self.calls = call.saturating_add(1);
        self.room = buf.len();
        let len = buf.len().min(self.rest.len());
        let count = moved(call, self.chunk_size, self.fault, len)?;
        let (given, rest) = self.rest.split_at(count);
        buf[..count].copy_from_slice(given);
        self.rest = rest;
        Ok(count)
    }
}

/// A writer that keeps the bytes.
#[derive(Drop)]
pub struct FaultWriter {
    /// The bytes that it was given and took.
    pub taken: Vec<u8>,
    /// How often `write` was called.
    pub calls: usize,
    chunk_size: usize,
    fault: Option<(usize, Fault)>,
}

impl FaultWriter {
    /// Takes so many bytes a call at most. It has no contract: tests alone call it, and are run.
    pub fn new(alloc: Global, chunk_size: usize) -> FaultWriter {
        FaultWriter {
            taken: Vec::new(alloc),
            calls: 0,
            chunk_size,
            fault: None,
        }
    }

    /// The same but for this call, counted from 0; it has no contract, as `new`.
    pub fn failing(alloc: Global, chunk_size: usize, call: usize, fault: Fault) -> FaultWriter {
        FaultWriter {
            taken: Vec::new(alloc),
            calls: 0,
            chunk_size,
            fault: Some((call, fault)),
        }
    }
}

impl Write for FaultWriter {
    fn write(&mut self, buf: &[u8]) -> io::Result<usize> {
        let call = self.calls;
        self.calls = call.saturating_add(1);
        let count = moved(call, self.chunk_size, self.fault, buf.len())?;
        self.taken.extend_from_slice(&buf[..count])?;
        Ok(count)
    }

    fn flush(&mut self) -> io::Result<()> {
        Ok(())
    }
}

/// A writer that keeps the bytes, and whose flush fails.
#[derive(Drop)]
pub struct UnflushableWriter {
    /// The bytes that it was given and took.
    pub taken: Vec<u8>,
    room: usize,
}

impl UnflushableWriter {
    /// Takes so many bytes in all. It has no contract: tests alone call it, and are run.
    pub fn new(alloc: Global, room: usize) -> UnflushableWriter {
        UnflushableWriter {
            taken: Vec::new(alloc),
            room,
        }
    }
}

impl Write for UnflushableWriter {
    fn write(&mut self, buf: &[u8]) -> io::Result<usize> {
        let count = buf.len().min(self.room);
        self.taken.extend_from_slice(&buf[..count])?;
        self.room -= count;
        Ok(count)
    }

    fn flush(&mut self) -> io::Result<()> {
        Err(ErrorKind::Other.into())
    }
}

/// At how many positions in a run a call can fail so, and at how many of them a test let it fail.
/// `tools/faults_tried` reads what it prints.
#[derive(Drop)]
pub struct Tally {
    call: &'static str,
    fault: &'static str,
    positions: usize,
    tried: usize,
}

impl Tally {
    /// No position yet, of a call that fails so: the call and the fault in words. It has no
    /// contract: tests alone call it, and print it.
    pub fn new(call: &'static str, fault: &'static str) -> Tally {
        Tally {
            call,
            fault,
            positions: 0,
            tried: 0,
        }
    }

    /// Counts the positions that a run without a fault has; it has no contract, as `new`.
    pub fn count(&mut self, positions: usize) {
        self.positions = self.positions.saturating_add(positions);
    }

    /// Counts a position that is tried; it has no contract, as `new`.
    pub fn tries(&mut self) {
        self.tried = self.tried.saturating_add(1);
    }
}

impl fmt::Display for Tally {
    fn fmt<W: fmt::Write>(&self, f: &mut fmt::Formatter<W>) -> fmt::Result {
        write!(
            f,
            "tally: {}: {}: {}: {}",
            self.call, self.fault, self.positions, self.tried
        )
    }
}
