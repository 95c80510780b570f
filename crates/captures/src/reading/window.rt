//! What is held of the bytes that a reader gave.
ghost use Rattle.std.specs.Prelude.{◌≡◌, ◌+◌, ◌-◌, ◌<◌, ◌≤◌, ◌++◌, ℕ, List, [], length, take, drop, IfOk, OnErr};
ghost use Rattle.std.specs.Prelude.{vec_len};
ghost use Rattle.std.specs.Io.KnownBytes.{Consumes, IsAtEnd, Keeps};
ghost use Rattle.captures.specs.Dropped.{last_of};
ghost use Rattle.captures.specs.Held.{HeldBytes};
ghost use Rattle.captures.specs.declared.limits.TheConstants.{INPUT_CAPACITY};

use crate::limits::INPUT_CAPACITY;
use std::alloc::{AllocError, Global};
use std::io;
use std::io::Read;
use std::marker::Model;

/// The bytes that are held of those that were read, in one buffer. Some of them, or of those before
/// them, are marked.
#[derive(Drop)]
pub(crate) struct Window {
    input: Vec<u8>,
    // The offset in the buffer of what is held,
    start: usize,
    // and of its end.
    end: usize,
    // The offset of what is marked, and how many bytes it has.
    mark: usize,
    mark_len: usize,
}

impl Model for Window {
    ghost Value = { HeldBytes };

    ghost view = { λ window. record {
      held = take (window.end - window.start) (drop window.start window.input.items);
      marked = take window.mark_len (drop window.mark window.input.items);
    } };

    ghost invariant = { λ window. (vec_len window.input ≡ INPUT_CAPACITY) × (window.start ≤ window.end)
        × (window.end ≤ INPUT_CAPACITY) × (window.mark + window.mark_len ≤ INPUT_CAPACITY) };
}

impl Window {
    /// Nothing is held, and nothing marked.
    pub(crate) fn new(alloc: Global) -> Result<Window, AllocError>
        ensures held { IfOk result (λ window. window.held ≡ []) }
        ensures marked { IfOk result (λ window. window.marked ≡ []) }
    {
        Ok(Window {
            input: vec![in alloc; 0; INPUT_CAPACITY]?,
            start: 0,
            end: 0,
            mark: 0,
            mark_len: 0,
        })
    }

    /// What is held.
    pub(crate) fn held(&self) -> &[u8]
        ensures held { result.now ≡ self.now.held }
        ensures size { length self.now.held ≤ INPUT_CAPACITY }
    {
        &self.input[self.start..self.end]
    }

    /// What is marked.
    pub(crate) fn marked(&self) -> &[u8]
        ensures { result.now ≡ self.now.marked }
    {
        &self.input[self.mark..self.mark + self.mark_len]
    }

    /// Marks `len` bytes of what is held, of which `from` are left from the first marked one on.
    pub(crate) fn mark(&mut self, from: usize, len: usize)
        requires len { len ≤ from }
        requires from { from ≤ length self.old.held }
        ensures held { self.new.held ≡ self.old.held }
        ensures marked { self.new.marked ≡ take len (last_of from self.old.held) }
    {
        self.mark = self.end - from;
        self.mark_len = len;
    }

    /// Holds no more than the last `left` bytes.
    pub(crate) fn keep(&mut self, left: usize)
        requires { left ≤ length self.old.held }
        ensures held { self.new.held ≡ last_of left self.old.held }
        ensures marked { self.new.marked ≡ self.old.marked }
    {
        self.start = self.end - left;
    }

    /// Reads after what is held, and returns how many bytes came. Nothing is marked then.
    pub(crate) fn fill<R: Read>(&mut self, reader: &mut R) -> io::Result<usize>
        requires { length self.old.held < INPUT_CAPACITY }
        ensures given { IfOk result (λ given. (chunk : List ℕ)
            × (self.new.held ≡ self.old.held ++ chunk) × (length chunk ≡ given)
            × Consumes (R.remaining reader.old) (R.remaining reader.new) chunk
            × (given ≡ 0 → IsAtEnd (R.remaining reader.new))) }
        ensures failed { OnErr result ((self.new.held ≡ self.old.held)
            × Keeps (R.remaining reader.old) (R.remaining reader.new)) }
        ensures marked { self.new.marked ≡ [] }
    {
        let left = self.end - self.start;
        let filled = fill_after(reader, self.input.as_mut_slice(), self.start, self.end);
        self.start = 0;
        self.mark = 0;
        self.mark_len = 0;
        match filled {
            Ok(given) => {
                self.end = left + given;
                Ok(given)
            }
            Err(error) => {
                self.end = left;
                Err(error)
            }
        }
    }
}

// Moves what is held to the start, and reads after it.
fn fill_after<R: Read>(
    reader: &mut R,
    input: &mut [u8],
    start: usize,
    end: usize,
) -> io::Result<usize>
    requires ordered { start ≤ end }
    requires fits { end ≤ length input.old }
    requires room { end - start < length input.old }
    ensures given { IfOk result (λ given. (chunk : List ℕ)
        × (take (end - start + given) input.new ≡ take (end - start) (drop start input.old) ++ chunk)
        × (length chunk ≡ given)
        × Consumes (R.remaining reader.old) (R.remaining reader.new) chunk
        × (given ≡ 0 → IsAtEnd (R.remaining reader.new))) }
    ensures bound { IfOk result (λ given. end - start + given ≤ length input.old) }
    ensures failed { OnErr result
        ((take (end - start) input.new ≡ take (end - start) (drop start input.old))
        × Keeps (R.remaining reader.old) (R.remaining reader.new)) }
{
    input.copy_within(start..end, 0);
    reader.read(&mut input[end - start..])
}
