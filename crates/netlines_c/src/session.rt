//! Lines that come in chunks.
ghost use Rattle.std.specs.Prelude.{◌≡◌, ◌≤◌, ◌<◌, ◌+◌, ◌++◌, ◌⊎◌, ℕ, Bool, List, [], true, false, Some, None, length};
ghost use Rattle.std.specs.Prelude.{drop, take, IfOk, IsSome};
ghost use Rattle.netlines.specs.Answers.{answers_of, ended_answers_of, frame_meaning};
ghost use Rattle.netlines_c.specs.FrameSessions.{IsSession, TookText, shows_lines};
ghost use Rattle.lines.specs.Sessions.{IsWrittenOut, Took, answers};

use crate::frame_session::FrameSession;
use crate::held::Held;
use crate::{ANSWERED, NO_MEMORY, NO_ROOM, WRONG_STATE};
use c_handles::Loose;
use lines::Session;
use netlines::FrameAnswerer;
use std::alloc::{AllocError, Global};
use std::mem::replace;

/// Lines that come in chunks. It starts as zeros, and is changed by these calls alone.
#[repr(C)]
#[derive(Drop)]
pub struct NetlinesSession {
    /// Whether it was opened and not closed.
    pub is_open: bool,
    /// Used by these calls alone.
    pub held: Held,
}

/// Opens a session that took no byte.
///
/// The result is 0 where it is open, 2 where there is no memory, and 3 where it was open before.
/// Where it isn't 0 nothing is changed.
#[unsafe(no_mangle)]
pub extern "C" fn netlines_open(alloc: Global, session: &mut NetlinesSession) -> u32
    requires { IsSession session.old }
    ensures session { IsSession session.new }
    ensures opened { result ≡ 0 → TookText session.new false [] [] }
    ensures unchanged { 0 < result → session.new ≡ session.old }
    ensures wrong_state { session.old.is_open ≡ true → result ≡ 3 }
    ensures codes { session.old.is_open ≡ false → (result ≡ 0) ⊎ (result ≡ 2) }
{
    if session.is_open {
        return WRONG_STATE;
    }
    let Ok(frame_session) = new_frame_session(alloc) else {
        return NO_MEMORY;
    };
    put(session, frame_session);
    ANSWERED
}

/// Takes a chunk of the text, of any length, and answers each line that ends in it.
///
/// The result is 0 where the answers to all lines that have ended are written: then `written` bytes
/// at the start of the output are those that no call has written before. It is 1 where the output
/// is too short for them: then `written` is the length that they need, the output is as it was, and
/// a later call writes them, which may have an empty chunk. It is 2 where it is out of memory: then
/// the session is closed, and the output is as it was. It is 3 where the session isn't open or its
/// text has ended: then nothing is changed.
#[unsafe(no_mangle)]
pub extern "C" fn netlines_feed(
    alloc: Global,
    session: &mut NetlinesSession,
    chunk: &[u8],
    output: &mut [u8],
    written: &mut usize,
) -> u32
    requires { IsSession session.old }
    ensures session { IsSession session.new }
    ensures answered { (text returned : List ℕ) → TookText session.old false text returned → result ≡ 0
        → (written.new ≤ length output.new)
        × TookText session.new false (text ++ chunk.now) (returned ++ take written.new output.new)
        × (returned ++ take written.new output.new ≡ ended_answers_of (text ++ chunk.now)) }
    ensures rest { result ≡ 0 → drop written.new output.new ≡ drop written.new output.old }
    ensures no_room { (text returned : List ℕ) → TookText session.old false text returned → result ≡ 1
        → (length output.new < written.new) × (output.new ≡ output.old)
        × TookText session.new false (text ++ chunk.now) returned
        × (length returned + written.new ≡ length (ended_answers_of (text ++ chunk.now))) }
    ensures no_memory { result ≡ 2 → (session.new.is_open ≡ false)
        × (output.new ≡ output.old) × (written.new ≡ written.old) }
    ensures wrong_state { result ≡ 3 → (session.new.is_open ≡ session.old.is_open)
        × (session.new.held.value ≡ session.old.held.value)
        × (output.new ≡ output.old) × (written.new ≡ written.old) }
    ensures closed { session.old.is_open ≡ false → result ≡ 3 }
    ensures ended { (text returned : List ℕ) → TookText session.old true text returned → result ≡ 3 }
    ensures codes { (text returned : List ℕ) → TookText session.old false text returned → result ≤ 2 }
{
    if !session.is_open {
        return WRONG_STATE;
    }
    let mut frame_session = taken(alloc, session);
    if frame_session.session.has_ended() {
        put(session, frame_session);
        return WRONG_STATE;
    }
    match frame_session.session.take(chunk) {
        Ok(()) => return_answers(session, frame_session, output, written),
        Err(_) => NO_MEMORY,
    }
}

/// Ends the text of a session: a last line that no 0a ended is answered.
///
/// The result is 0, 1 and 2 as that of `netlines_feed`, and 3 where the session isn't open: then
/// nothing is changed. After 1 it is called again, with a longer output. With 0 the answers to the
/// whole text are written; called once more, it is 0, and `written` is 0.
#[unsafe(no_mangle)]
pub extern "C" fn netlines_finish(
    alloc: Global,
    session: &mut NetlinesSession,
    output: &mut [u8],
    written: &mut usize,
) -> u32
    requires { IsSession session.old }
    ensures session { IsSession session.new }
    ensures answered { (ended : Bool) (text returned : List ℕ) → TookText session.old ended text returned
        → result ≡ 0 → (written.new ≤ length output.new)
        × TookText session.new true text (returned ++ take written.new output.new)
        × (returned ++ take written.new output.new ≡ answers_of text) }
    ensures rest { result ≡ 0 → drop written.new output.new ≡ drop written.new output.old }
    ensures no_room { (ended : Bool) (text returned : List ℕ) → TookText session.old ended text returned
        → result ≡ 1 → (length output.new < written.new) × (output.new ≡ output.old)
        × TookText session.new true text returned
        × (length returned + written.new ≡ length (answers_of text)) }
    ensures no_memory { result ≡ 2 → (session.new.is_open ≡ false)
        × (output.new ≡ output.old) × (written.new ≡ written.old) }
    ensures wrong_state { result ≡ 3 → (session.old.is_open ≡ false) × (session.new ≡ session.old)
        × (output.new ≡ output.old) × (written.new ≡ written.old) }
    ensures closed { session.old.is_open ≡ false → result ≡ 3 }
    ensures ended { (text returned : List ℕ) → TookText session.old true text returned → result ≤ 1 }
    ensures again { (text : List ℕ) → TookText session.old true text (answers_of text)
        → (result ≡ 0) × (written.new ≡ 0) }
    ensures codes { result ≤ 3 }
{
    if !session.is_open {
        return WRONG_STATE;
    }
    let mut frame_session = taken(alloc, session);
    if frame_session.session.has_ended() {
        return return_answers(session, frame_session, output, written);
    }
    match frame_session.session.finish() {
        Ok(()) => return_answers(session, frame_session, output, written),
        Err(_) => NO_MEMORY,
    }
}

/// Closes a session, and frees all that it holds. One that isn't open stays as it is.
#[unsafe(no_mangle)]
pub extern "C" fn netlines_close(alloc: Global, session: &mut NetlinesSession)
    requires { IsSession session.old }
    ensures closed { session.new.is_open ≡ false }
    ensures freed { session.old.is_open ≡ true → session.new.held.value ≡ None }
    ensures unchanged { session.old.is_open ≡ false → session.new ≡ session.old }
{
    if session.is_open {
        drop(taken(alloc, session));
    }
}

fn new_frame_session(alloc: Global) -> Result<Box<FrameSession>, AllocError>
    ensures took { IfOk result
        (λ frame_session. Took frame_meaning shows_lines frame_session.value.session [] []) }
    ensures going { IfOk result (λ frame_session. frame_session.value.session.has_ended ≡ false) }
    ensures written { IfOk result (λ frame_session. IsWrittenOut frame_session.value.session) }
{
    let answerer = FrameAnswerer::new(alloc)?;
    let session = Session::new(alloc, answerer)?;
    match Box::new(alloc, FrameSession { session }) {
        Ok(frame_session) => Ok(frame_session),
        Err(_) => Err(AllocError),
    }
}

// What an open session holds; the session is closed then.
fn taken(alloc: Global, session: &mut NetlinesSession) -> Box<FrameSession>
    requires { IsSome session.old.held.value }
    ensures frame_session { session.old.held.value ≡ Some result.value }
    ensures closed { session.new.is_open ≡ false }
    ensures none { session.new.held.value ≡ None }
{
    session.is_open = false;
    replace(&mut session.held, Held::none())
        .into_loose(alloc)
        .into_box()
}

fn put(session: &mut NetlinesSession, frame_session: Box<FrameSession>)
    ensures held { session.new.held.value ≡ Some frame_session.value }
    ensures opened { session.new.is_open ≡ true }
{
    session.held = Held::of(Loose::of(frame_session));
    session.is_open = true;
}

// Writes the answers that wait, and puts what the session holds back.
fn return_answers(
    session: &mut NetlinesSession,
    frame_session: Box<FrameSession>,
    output: &mut [u8],
    written: &mut usize,
) -> u32
    requires { IsWrittenOut frame_session.value.session }
    ensures session { IsSession session.new }
    ensures answered { (text returned : List ℕ)
        → Took frame_meaning shows_lines frame_session.value.session text returned → result ≡ 0
        → (written.new ≤ length output.new) × TookText session.new
        frame_session.value.session.has_ended text (returned ++ take written.new output.new)
        × (returned ++ take written.new output.new
        ≡ answers frame_meaning frame_session.value.session.has_ended text) }
    ensures rest { result ≡ 0 → drop written.new output.new ≡ drop written.new output.old }
    ensures no_room { (text returned : List ℕ)
        → Took frame_meaning shows_lines frame_session.value.session text returned → result ≡ 1
        → (length output.new < written.new) × (output.new ≡ output.old)
        × TookText session.new frame_session.value.session.has_ended text returned
        × (length returned + written.new
        ≡ length (answers frame_meaning frame_session.value.session.has_ended text)) }
    ensures codes { result ≤ 1 }
{
    let mut frame_session = frame_session;
    let is_out = frame_session.session.return_answers(output, written);
    put(session, frame_session);
    if is_out { ANSWERED } else { NO_ROOM }
}
