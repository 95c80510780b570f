//! Answers that wait to be written together.
ghost use Rattle.std.specs.Prelude.{◌≡◌, ◌↔◌, ◌≤◌, ◌+◌, ◌++◌, ◌∷◌, ℕ, List, [], IsTrue, OnOk, OnErr, IfOk, MatchResult};
ghost use Rattle.std.specs.Prelude.{length, take, vec_len};
ghost use Rattle.device_runs.specs.Writes.{Delivers};
ghost use Rattle.lines.specs.Endings.{ending_of};
ghost use Rattle.lines.specs.LineAnswers.{number_after};
ghost use Rattle.lines.specs.Writes.{Gathers};
ghost use Rattle.lines.specs.declared.limits.TheConstants.{ANSWER_CAPACITY};
ghost use Rattle.lines.specs.declared.answer_buffer.TheConstants.{OUTPUT_CAPACITY};

use crate::RunError;
use crate::answerer::Answerer;
use crate::limits::ANSWER_CAPACITY;
use device_runs::{Device, write_whole};
use std::alloc::{AllocError, Global};
use std::marker::Model;

/// The bytes of answers that can wait: one more answer fits where at most 65536 bytes wait.
pub const OUTPUT_CAPACITY: usize = ANSWER_CAPACITY + 65_536;

/// Answers that wait to be written. Contracts see their bytes.
#[derive(Drop)]
pub struct AnswerBuffer {
    output: Vec<u8>,
    used: usize,
}

impl Model for AnswerBuffer {
    ghost Value = { List ℕ };

    ghost view = { λ b. take b.used b.output.items };

    ghost invariant = { λ b. (vec_len b.output ≡ OUTPUT_CAPACITY) × (b.used ≤ OUTPUT_CAPACITY) };
}

impl AnswerBuffer {
    /// An empty buffer, with all the memory that it needs.
    pub fn new(alloc: Global) -> Result<AnswerBuffer, AllocError>
        ensures { IfOk result (λ buffer. buffer ≡ []) }
    {
        Ok(AnswerBuffer {
            output: vec![in alloc; 0; OUTPUT_CAPACITY]?,
            used: 0,
        })
    }

    /// Ends a line, and adds the answer to it. What waits is written first where an answer might
    /// not fit; where there is no memory for the answer, all that waits is written before the error
    /// is returned.
    pub fn push<A: Answerer, D: Device>(
        &mut self,
        answerer: &mut A,
        number: u64,
        device: &mut D,
    ) -> Result<(), RunError>
        ensures gathers { (earlier : List (List ℕ)) (line : List ℕ)
            → A.shows answerer.old earlier line → number ≡ number_after earlier
            → Gathers D.transition (A.meaning.takes_memory earlier line) device.old self.old
            (A.meaning.answer earlier line) (ending_of result) self.new device.new }
        ensures shows { (earlier : List (List ℕ)) (line : List ℕ)
            → A.shows answerer.old earlier line → number ≡ number_after earlier
            → OnOk result (A.shows answerer.new (earlier ++ line ∷ []) []) }
    {
        if !self.has_room() {
            self.write_out(device)?;
        }
        match self.add(answerer, number) {
            Ok(()) => Ok(()),
            Err(_) => {
                self.write_out(device)?;
                Err(RunError::Memory)
            }
        }
    }

    // Whether any answer can be added.
    fn has_room(&self) -> bool
        ensures { IsTrue result ↔ (length self.now + ANSWER_CAPACITY ≤ OUTPUT_CAPACITY) }
    {
        self.used <= OUTPUT_CAPACITY - ANSWER_CAPACITY
    }

    fn add<A: Answerer>(&mut self, answerer: &mut A, number: u64) -> Result<(), AllocError>
        requires { length self.old + ANSWER_CAPACITY ≤ OUTPUT_CAPACITY }
        ensures answers { (earlier : List (List ℕ)) (line : List ℕ)
            → A.shows answerer.old earlier line → number ≡ number_after earlier
            → MatchResult result
            (λ done. (self.new ≡ self.old ++ A.meaning.answer earlier line)
            × A.shows answerer.new (earlier ++ line ∷ []) [])
            (λ e. IsTrue (A.meaning.takes_memory earlier line)) }
        ensures err { OnErr result (self.new ≡ self.old) }
    {
        self.used = add_answer(answerer, number, self.output.as_mut_slice(), self.used)?;
        Ok(())
    }

    /// Writes what waits.
    pub fn write_out<D: Device>(&mut self, device: &mut D) -> Result<(), RunError>
        ensures delivers { Delivers D.transition device.old self.old (ending_of result) device.new }
        ensures empty { OnOk result (self.new ≡ []) }
    {
        write_whole(device, &self.output.as_slice()[..self.used])?;
        self.used = 0;
        Ok(())
    }
}

// Ends a line, puts the answer to it after the first `used` bytes, and returns where it ends.
fn add_answer<A: Answerer>(
    answerer: &mut A,
    number: u64,
    output: &mut [u8],
    used: usize,
) -> Result<usize, AllocError>
    requires { used + ANSWER_CAPACITY ≤ length output.old }
    ensures fits { IfOk result (λ end. end ≤ length output.new) }
    ensures prefix { take used output.new ≡ take used output.old }
    ensures answers { (earlier : List (List ℕ)) (line : List ℕ)
        → A.shows answerer.old earlier line → number ≡ number_after earlier
        → MatchResult result
        (λ end. (take end output.new ≡ take used output.old ++ A.meaning.answer earlier line)
        × A.shows answerer.new (earlier ++ line ∷ []) [])
        (λ e. IsTrue (A.meaning.takes_memory earlier line)) }
{
    let len = answerer.end(number, &mut output[used..])?;
    Ok(used + len)
}
