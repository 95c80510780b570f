//! What a run makes of its input, chunk by chunk, and such a run.
ghost use Rattle.std.specs.Prelude.{◌≡◌, ◌≤◌, ◌<◌, ◌+◌, ◌*◌, ◌++◌, ℕ, List, [], length, take, IfOk, None, vec_capacity};
ghost use Rattle.std.specs.Prelude.{vec_len};
ghost use Rattle.device_runs.specs.Runs.{Task};
ghost use Rattle.captures.specs.Endings.{ending_of};
ghost use Rattle.captures.specs.Translations.{Begins, RunEnds, IsDueBy, Translates, Finishes};
ghost use Rattle.captures.specs.declared.limits.TheConstants.{INPUT_CAPACITY, OUTPUT_CAPACITY};
ghost use Rattle.captures.specs.declared.translation.refusal.Refusal.{Refusal};

use crate::RunError;
use crate::limits::{INPUT_CAPACITY, OUTPUT_CAPACITY, READ_CHUNK};
use crate::translation::refusal::Refusal;
use device_runs::{Device, write_whole};
use std::alloc::{AllocError, Global};

/// What happens to a chunk.
#[derive(Drop)]
pub(crate) struct Translated<'a> {
    /// How many bytes are to be written.
    pub used: usize,
    /// What is to be held of the chunk.
    pub rest: &'a [u8],
    /// Why nothing can follow.
    pub refusal: Option<Refusal>,
}

/// What happens at the end of the input.
#[derive(Drop)]
pub(crate) struct Finished {
    /// How many bytes are to be written.
    pub used: usize,
    pub result: Result<(), Refusal>,
}

/// Makes some bytes of others, which come in chunks.
pub(crate) trait Translator {
    // What a run is to write, where it ends with such a translator.
    ghost task: { Self → Task Refusal };

    // What stays as it was: the same is due as long as it does.
    ghost Kept: { Type 0 };

    ghost kept: { Self → Kept };

    // How many bytes a run may read.
    ghost most: { ℕ };

    // Some bytes are held, after these were read and these written.
    ghost shows: { Self → List ℕ → List ℕ → List ℕ → Type 0 };

    /// Takes what is held and what was read after it, and puts what is to be written at the start
    /// of `out`.
    fn translate<'a>(&mut self, bytes: &'a [u8], out: &mut [u8]) -> Translated<'a>
        requires size { length bytes.now ≤ INPUT_CAPACITY }
        requires out { 5 * length bytes.now ≤ length out.old }
        ensures fits { result.used ≤ length out.new }
        ensures parts { (prefix : List ℕ) × (bytes.now ≡ prefix ++ result.rest.now) }
        ensures room { result.refusal ≡ None → length result.rest.now < INPUT_CAPACITY }
        ensures kept { kept self.new ≡ kept self.old }
        ensures translates { (held chunk read written : List ℕ) → shows self.old held read written
            → bytes.now ≡ held ++ chunk → length (read ++ chunk) ≤ most
            → Translates (task self.new) (shows self.new) result.rest.now (read ++ chunk)
            (written ++ take result.used out.new) result.refusal };

    /// The same at the end of the input, where the first `left` bytes of `input` are held.
    fn finish(&mut self, input: &mut [u8], left: usize, out: &mut [u8]) -> Finished
        requires room { left < length input.old }
        requires size { length input.old ≡ INPUT_CAPACITY }
        requires out { 5 * (left + 1) ≤ length out.old }
        ensures fits { result.used ≤ length out.new }
        ensures kept { kept self.new ≡ kept self.old }
        ensures finishes { (read written : List ℕ)
            → shows self.old (take left input.old) read written → length read ≤ most
            → Finishes (task self.new) read (written ++ take result.used out.new) result.result };
}

/// A run of at most `reads` reads, which begins with this header.
pub(crate) fn run_translator<T: Translator, D: Device>(
    alloc: Global,
    translator: &mut T,
    header: &[u8],
    device: &mut D,
    reads: u64,
) -> Result<(), RunError>
    requires begins { Begins (T.task translator.old) (T.shows translator.old) header.now }
    requires due { (t t' : T) → T.kept t' ≡ T.kept t → IsDueBy (T.task t) (T.task t') }
    requires most { INPUT_CAPACITY * reads ≤ T.most }
    ensures kept { T.kept translator.new ≡ T.kept translator.old }
    ensures ends { RunEnds (T.task translator.new) D.transition reads device.old device.new
        (ending_of result) }
{
    let Ok((mut input, mut output)) = buffers(alloc) else {
        return Err(RunError::Memory);
    };
    translate_reads(
        translator,
        header,
        input.as_mut_slice(),
        &mut output,
        device,
        reads,
    )
}

// All the memory of a run.
fn buffers(alloc: Global) -> Result<(Vec<u8>, Vec<u8>), AllocError>
    ensures input { IfOk result (λ made. vec_len made.0 ≡ INPUT_CAPACITY) }
    ensures output { IfOk result (λ made. OUTPUT_CAPACITY ≤ vec_capacity made.1) }
{
    let input = vec![in alloc; 0; INPUT_CAPACITY]?;
    Ok((input, Vec::with_capacity(alloc, OUTPUT_CAPACITY)?))
}

// Makes the first `len` bytes usable. What was cleared once isn't cleared again.
fn make_usable(output: &mut Vec<u8>, len: usize)
    requires { len ≤ vec_capacity output.old }
    ensures len { len ≤ vec_len output.new }
    ensures capacity { vec_capacity output.old ≤ vec_capacity output.new }
{
    if output.len() < len {
        output.resize(len, 0).unwrap();
    }
}

// Writes the header, and what is made of the bytes that at most `reads` reads give.
fn translate_reads<T: Translator, D: Device>(
    translator: &mut T,
    header: &[u8],
    input: &mut [u8],
    output: &mut Vec<u8>,
    device: &mut D,
    reads: u64,
) -> Result<(), RunError>
    requires begins { Begins (T.task translator.old) (T.shows translator.old) header.now }
    requires due { (t t' : T) → T.kept t' ≡ T.kept t → IsDueBy (T.task t) (T.task t') }
    requires most { INPUT_CAPACITY * reads ≤ T.most }
    requires input { length input.old ≡ INPUT_CAPACITY }
    requires output { OUTPUT_CAPACITY ≤ vec_capacity output.old }
    ensures kept { T.kept translator.new ≡ T.kept translator.old }
    ensures ends { RunEnds (T.task translator.new) D.transition reads device.old device.new
        (ending_of result) }
{
    write_whole(device, header)?;
    // How many bytes at the start of `input` are held.
    let mut left = 0;
    'reads: for _ in 0..reads {
        let end = INPUT_CAPACITY.min(left + READ_CHUNK);
        let given = match device.read_some(&mut input[left..end]) {
            Ok(given) => given,
            Err(_) => return Err(RunError::Read),
        };
        if given == 0 {
            make_usable(output, 5 * (left + 1));
            let out = output.as_mut_slice();
            let finished = translator.finish(input, left, out);
            write_whole(device, &out[..finished.used])?;
            return match finished.result {
                Ok(()) => Ok(()),
                Err(refusal) => Err(RunError::from(refusal)),
            };
        }
        make_usable(output, 5 * (left + given));
        let out = output.as_mut_slice();
        let taken = translator.translate(&input[..left + given], out);
        write_whole(device, &out[..taken.used])?;
        if let Some(refusal) = taken.refusal {
            return Err(RunError::from(refusal));
        }
        let kept = taken.rest.len();
        input.copy_within(left + given - kept..left + given, 0);
        left = kept;
    }
    Err(RunError::TooManyReads)
}
