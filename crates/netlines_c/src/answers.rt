//! A text in memory.
ghost use Rattle.std.specs.Prelude.{◌≡◌, ◌≤◌, ◌<◌, drop, length, take};
ghost use Rattle.netlines.specs.Answers.{answers_of};

use crate::{ANSWERED, NO_MEMORY, NO_ROOM};
use std::alloc::Global;

/// Answers all lines of a text, each by a line.
///
/// The result is 0 where they are answered: then `written` bytes at the start of the output are the
/// answers, and the bytes after them are as they were. It is 1 where the output is too short: then
/// `written` is the length that they need, and the output is as it was. It is 2 where it is out of
/// memory, and nothing is changed.
#[unsafe(no_mangle)]
pub extern "C" fn netlines_answers(
    alloc: Global,
    text: &[u8],
    output: &mut [u8],
    written: &mut usize,
) -> u32
    ensures answered { result ≡ 0 → (written.new ≤ length output.new)
        × (take written.new output.new ≡ answers_of text.now) }
    ensures rest { result ≡ 0 → drop written.new output.new ≡ drop written.new output.old }
    ensures no_room { result ≡ 1 → (length output.new < written.new)
        × (written.new ≡ length (answers_of text.now)) × (output.new ≡ output.old) }
    ensures no_memory { result ≡ 2 → (written.new ≡ written.old) × (output.new ≡ output.old) }
    ensures codes { result ≤ 2 }
{
    let Ok(answers) = netlines::answers(alloc, text) else {
        return NO_MEMORY;
    };
    *written = answers.len();
    if output.len() < answers.len() {
        return NO_ROOM;
    }
    output[..answers.len()].copy_from_slice(answers.as_slice());
    ANSWERED
}
