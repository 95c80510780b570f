//! Lines that come in chunks.
ghost use Rattle.std.specs.Prelude.{◌≡◌, ◌≤◌, ◌<◌, ◌+◌, ◌++◌, ℕ, List, [], true, false, length, drop, take, IfOk, OnOk};
ghost use Rattle.std.specs.Prelude.{OnErr};
ghost use Rattle.lines.specs.Lines.{ended_lines_of, last_line, split};
ghost use Rattle.lines.specs.Sessions.{IsWrittenOut, RunsOut, Took, Waits, answers};

use crate::laws::text_goes_on;
use crate::{Answerer, LineAnswerer};
use device_runs::Device;
use std::alloc::{AllocError, Global};
use std::io;

/// Answers that wait to be returned. Nothing is read from this device, and a write appends.
#[derive(Drop)]
pub struct Waiting {
    output: Vec<u8>,
}

impl Device for Waiting {
    ghost transition = { λ s call t. Waits s.output call t.output };

    fn read_some(&mut self, _buf: &mut [u8]) -> io::Result<usize> {
        Ok(0)
    }

    fn write_some(&mut self, buf: &[u8]) -> io::Result<usize> {
        self.output.extend_from_slice(buf)?;
        Ok(buf.len())
    }
}

/// Lines that come in chunks, and the answers that wait to be returned.
#[derive(Drop)]
pub struct Session<A> {
    lines: LineAnswerer<A>,
    waiting: Waiting,
    has_ended: bool,
}

impl<A: Answerer + Drop> Session<A> {
    /// A session that took no byte.
    pub fn new(alloc: Global, answerer: A) -> Result<Session<A>, AllocError>
        requires { A.shows answerer [] [] }
        ensures took { IfOk result (λ session. Took A.meaning A.shows session [] []) }
        ensures going { IfOk result (λ session. session.has_ended ≡ false) }
        ensures written { IfOk result IsWrittenOut }
    {
        Ok(Session {
            lines: LineAnswerer::new(alloc, answerer)?,
            waiting: Waiting {
                output: Vec::new(alloc),
            },
            has_ended: false,
        })
    }

    /// Whether the text was ended, by `finish`.
    pub fn has_ended(&self) -> bool
        ensures { result ≡ self.now.has_ended }
    {
        self.has_ended
    }

    /// Goes on with a chunk. The only error is out of memory, which is also the error where there
    /// may be more lines than 64 bits count. After it nothing is stated of the session but that it
    /// hasn't ended.
    pub fn take(&mut self, chunk: &[u8]) -> Result<(), AllocError>
        requires going { self.old.has_ended ≡ false }
        requires written { IsWrittenOut self.old }
        ensures took { (text returned : List ℕ) → Took A.meaning A.shows self.old text returned
            → OnOk result (Took A.meaning A.shows self.new (text ++ chunk.now) returned) }
        // Where the lines can be counted, it is out of memory only where memory may run out for one
        // of them, or for their answers.
        ensures err { (text returned : List ℕ) → Took A.meaning A.shows self.old text returned
            → OnErr result (RunsOut A.meaning self.old (ended_lines_of text)
            (ended_lines_of ((split text).rest ++ chunk.now)) (length chunk.now)) }
        ensures going { self.new.has_ended ≡ false }
        ensures written { OnOk result (IsWrittenOut self.new) }
    {
        text_goes_on();
        if self.lines.count >= u64::MAX - chunk.len() as u64 {
            return Err(AllocError);
        }
        match self.lines.feed(chunk, &mut self.waiting) {
            Ok(()) => Ok(()),
            Err(_) => Err(AllocError),
        }
    }

    /// Ends the text: a last line that no 0a ended is answered. The error is that of `take`.
    pub fn finish(&mut self) -> Result<(), AllocError>
        requires going { self.old.has_ended ≡ false }
        requires written { IsWrittenOut self.old }
        ensures took { (text returned : List ℕ) → Took A.meaning A.shows self.old text returned
            → OnOk result (Took A.meaning A.shows self.new text returned) }
        ensures err { (text returned : List ℕ) → Took A.meaning A.shows self.old text returned
            → OnErr result (RunsOut A.meaning self.old (ended_lines_of text)
            (last_line (split text).rest) 0) }
        ensures ended { self.new.has_ended ≡ true }
        ensures written { IsWrittenOut self.new }
    {
        text_goes_on();
        self.has_ended = true;
        if self.lines.count == u64::MAX {
            return Err(AllocError);
        }
        match self.lines.finish(&mut self.waiting) {
            Ok(()) => Ok(()),
            Err(_) => Err(AllocError),
        }
    }

    /// Copies all answers that wait to the start of `output`, where they fit, and returns true.
    /// `written` is how many bytes they have; the bytes after them stay. Where they don't fit, the
    /// result is false, and they wait.
    pub fn return_answers(&mut self, output: &mut [u8], written: &mut usize) -> bool
        ensures room { result ≡ true → (written.new ≤ length output.new)
            × ((text returned : List ℕ) → Took A.meaning A.shows self.old text returned
            → Took A.meaning A.shows self.new text (returned ++ take written.new output.new)
            × (returned ++ take written.new output.new ≡ answers A.meaning self.new.has_ended text)) }
        ensures rest { result ≡ true → drop written.new output.new ≡ drop written.new output.old }
        ensures none { result ≡ false → (length output.new < written.new)
            × (output.new ≡ output.old)
            × ((text returned : List ℕ) → Took A.meaning A.shows self.old text returned
            → Took A.meaning A.shows self.new text returned
            × (length returned + written.new ≡ length (answers A.meaning self.new.has_ended text))) }
        ensures going { self.new.has_ended ≡ self.old.has_ended }
        ensures written { IsWrittenOut self.old → IsWrittenOut self.new }
    {
        let waiting = self.waiting.output.len();
        *written = waiting;
        if output.len() < waiting {
            return false;
        }
        output[..waiting].copy_from_slice(self.waiting.output.as_slice());
        self.waiting.output.clear();
        true
    }
}
