//! Lines that come in chunks, and their answers.
ghost use Rattle.std.specs.Prelude.{◌≡◌, ◌<◌, ◌+◌, ◌^◌, ◌++◌, ◌∷◌, ℕ, List, [], false, length, OnOk, IfOk};
ghost use Rattle.lines.specs.Endings.{ending_of};
ghost use Rattle.lines.specs.Lines.{HasNoNewline, last_line, split};
ghost use Rattle.lines.specs.LineAnswers.{Started};
ghost use Rattle.lines.specs.Writes.{Gathers, Serves};

use crate::RunError;
use crate::answer_buffer::AnswerBuffer;
use crate::answerer::Answerer;
use device_runs::Device;
use memchr::memchr;
use std::alloc::{AllocError, Global};

/// Answers lines that come in chunks.
#[derive(Drop)]
pub struct LineAnswerer<A> {
    pub answerer: A,
    /// The lines that are answered.
    pub count: u64,
    /// Whether a line has started in an earlier chunk.
    pub has_started: bool,
    pub answers: AnswerBuffer,
}

impl<A: Answerer + Drop> LineAnswerer<A> {
    /// No line has started and no answer waits. The memory for answers is allocated here.
    pub fn new(alloc: Global, answerer: A) -> Result<LineAnswerer<A>, AllocError>
        ensures answerer { IfOk result (λ lines. lines.answerer ≡ answerer) }
        ensures count { IfOk result (λ lines. lines.count ≡ 0) }
        ensures started { IfOk result (λ lines. lines.has_started ≡ false) }
        ensures answers { IfOk result (λ lines. lines.answers ≡ []) }
    {
        Ok(LineAnswerer {
            answerer,
            count: 0,
            has_started: false,
            answers: AnswerBuffer::new(alloc)?,
        })
    }

    // Goes on with a line that doesn't end in this chunk.
    fn begin(&mut self, bytes: &[u8])
        ensures started { (earlier : List (List ℕ)) (prefix : List ℕ) → Started
            (A.shows self.old.answerer) self.old.count self.old.has_started earlier prefix
            → HasNoNewline bytes.now → Started (A.shows self.new.answerer) self.new.count
            self.new.has_started earlier (prefix ++ bytes.now) }
        ensures answers { self.new.answers ≡ self.old.answers }
    {
        if bytes.is_empty() {
            return;
        }
        self.has_started = true;
        self.answerer.take(bytes);
    }

    // Answers the line that ends with these bytes.
    fn end_line<D: Device>(&mut self, tail: &[u8], device: &mut D) -> Result<(), RunError>
        requires { self.old.count + 1 < 2 ^ 64 }
        ensures gathers { (earlier : List (List ℕ)) (prefix : List ℕ) → Started
            (A.shows self.old.answerer) self.old.count self.old.has_started earlier prefix
            → Gathers D.transition (A.meaning.takes_memory earlier (prefix ++ tail.now)) device.old
            self.old.answers (A.meaning.answer earlier (prefix ++ tail.now))
            (ending_of result) self.new.answers device.new }
        ensures shows { (earlier : List (List ℕ)) (prefix : List ℕ) → Started
            (A.shows self.old.answerer) self.old.count self.old.has_started earlier prefix
            → OnOk result (A.shows self.new.answerer (earlier ++ (prefix ++ tail.now) ∷ []) []) }
        ensures count { self.new.count ≡ self.old.count + 1 }
        ensures started { self.new.has_started ≡ false }
    {
        self.count += 1;
        self.has_started = false;
        self.answerer.take(tail);
        self.answers.push(&mut self.answerer, self.count, device)
    }

    /// Goes on with a chunk: answers each line that 0a ends in it, and writes all that waits. The
    /// errors are those of a write, and out of memory; nothing is stated of the lines after an
    /// error.
    pub fn feed<D: Device>(&mut self, chunk: &[u8], device: &mut D) -> Result<(), RunError>
        requires answers { self.old.answers ≡ [] }
        requires numbers { self.old.count + length chunk.now < 2 ^ 64 }
        ensures serves { (earlier : List (List ℕ)) (prefix : List ℕ) → Started
            (A.shows self.old.answerer) self.old.count self.old.has_started earlier prefix
            → Serves D.transition A.meaning device.old earlier (split (prefix ++ chunk.now)).ended
            (ending_of result) device.new }
        ensures keeps { (earlier : List (List ℕ)) (prefix : List ℕ) → Started
            (A.shows self.old.answerer) self.old.count self.old.has_started earlier prefix
            → OnOk result (Started (A.shows self.new.answerer) self.new.count self.new.has_started
            (earlier ++ (split (prefix ++ chunk.now)).ended) (split (prefix ++ chunk.now)).rest) }
        ensures answers { OnOk result (self.new.answers ≡ []) }
    {
        let mut rest = chunk;
        'lines: while let Some(end) = memchr(b'\n', rest) {
            let (tail, later) = rest.split_at(end);
            self.end_line(tail, device)?;
            rest = &later[1..];
        }
        self.begin(rest);
        self.answers.write_out(device)
    }

    /// Answers a last line that no 0a ended, if there is one. The errors are those of `feed`.
    pub fn finish<D: Device>(&mut self, device: &mut D) -> Result<(), RunError>
        requires answers { self.old.answers ≡ [] }
        requires number { self.old.count + 1 < 2 ^ 64 }
        ensures { (earlier : List (List ℕ)) (prefix : List ℕ) → Started
            (A.shows self.old.answerer) self.old.count self.old.has_started earlier prefix
            → Serves D.transition A.meaning device.old earlier (last_line prefix)
            (ending_of result) device.new }
    {
        if !self.has_started {
            return Ok(());
        }
        self.end_line(&[], device)?;
        self.answers.write_out(device)
    }
}
