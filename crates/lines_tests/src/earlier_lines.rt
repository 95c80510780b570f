//! A run in which an answer depends on the lines before it, and in which memory runs out midway.
ghost use Rattle.std.specs.Prelude.{◌≡◌, ◌≤◌, ◌%◌, ◌==◌, codes, false, length, not, take};
ghost use Rattle.std.specs.Prelude.{if◌then◌else◌};
ghost use Rattle.std.specs.List.{list_any};
ghost use Rattle.lines.specs.LineAnswers.{number_after};
ghost use Rattle.lines.specs.Sessions.{IsWrittenOut};

use crate::checks::equal;
use device_runs::ReaderWriter;
use lines::{Answerer, RunError, Session, answers_by, run_with};
use std::alloc::AllocError;
use std::process::Abort;
use std::test::Fail;

// Says of each line whether its number is even, and of an empty one whether it is the first. Each
// empty line takes memory, of which there is some for so many of them.
#[derive(Drop)]
struct Marker {
    marked: bool,
    // Whether the next line has a byte.
    has_byte: bool,
    room: usize,
}

fn unmarked(room: usize) -> Marker
    ensures marked { result.marked ≡ false }
    ensures has_byte { result.has_byte ≡ false }
{
    Marker {
        marked: false,
        has_byte: false,
        room,
    }
}

impl Answerer for Marker {
    ghost meaning = { record {
      answer = λ earlier line. if length line == 0
          then (if list_any (λ line. length line == 0) earlier then codes "again\n"
          else codes "first\n")
          else (if number_after earlier % 2 == 0 then codes "even\n" else codes "odd\n");
      takes_memory = λ earlier line. length line == 0;
    } };

    ghost shows = { λ marker earlier prefix.
        (marker.marked ≡ list_any (λ line. length line == 0) earlier)
        × (not marker.has_byte ≡ (length prefix == 0)) };

    fn take(&mut self, bytes: &[u8]) {
        if bytes.is_empty() {
            return;
        }
        self.has_byte = true;
    }

    fn end(&mut self, number: u64, out: &mut [u8]) -> Result<usize, AllocError> {
        if self.has_byte {
            self.has_byte = false;
            return Ok(put(parity_text(number), out));
        }
        let Some(room) = self.room.checked_sub(1) else {
            return Err(AllocError);
        };
        self.room = room;
        let text = mark_text(self.marked);
        self.marked = true;
        Ok(put(text, out))
    }
}

// Puts a text at the start of a buffer, and returns its length.
fn put(text: &[u8], out: &mut [u8]) -> usize
    requires { length text.now ≤ length out.old }
    ensures end { result ≡ length text.now }
    ensures text { take result out.new ≡ text.now }
{
    out[..text.len()].copy_from_slice(text);
    text.len()
}

fn parity_text(number: u64) -> &'static [u8]
    ensures text { result.now ≡ (if number % 2 == 0 then codes "even\n" else codes "odd\n") }
    ensures short { length result.now ≤ 6 }
{
    if number % 2 == 0 { b"even\n" } else { b"odd\n" }
}

fn mark_text(marked: bool) -> &'static [u8]
    ensures text { result.now ≡ (if marked then codes "again\n" else codes "first\n") }
    ensures short { length result.now ≤ 6 }
{
    if marked { b"again\n" } else { b"first\n" }
}

const LINES: &[u8] = b"a\nb\n\nc\n\nd";

#[test]
fn answers_by_earlier_lines(rt: HostRuntime) -> Result<(), Fail> {
    for (room, outcome, written) in [
        (2, Ok(()), "odd\neven\nfirst\neven\nagain\neven\n"),
        (1, Err(RunError::Memory), "odd\neven\nfirst\neven\n"),
        (0, Err(RunError::Memory), "odd\neven\n"),
    ] {
        let mut reader = LINES;
        let mut writer = Vec::new(rt.alloc());
        let mut device = ReaderWriter {
            reader: &mut reader,
            writer: &mut writer,
        };
        let result = run_with(rt.alloc(), unmarked(room), &mut device, 10);
        assert!(rt; result == outcome, "room for {room}");
        assert!(rt; writer.as_slice() == written.as_bytes(), "room for {room}");
    }
    Ok(())
}

#[test]
fn answers_a_text_in_memory(rt: HostRuntime) {
    let answers = answers_by(rt.alloc(), unmarked(2), LINES).expect(&rt, "no memory");
    let wanted = b"odd\neven\nfirst\neven\nagain\neven\n".as_slice();
    equal(rt, answers.as_slice(), wanted);
}

// A session returns its answers where they fit so many bytes, or reports how many bytes they have.
fn returns_answers(
    rt: impl Abort + AllocGlobal + Copy,
    session: &mut Session<Marker>,
    room: usize,
    wanted: (bool, usize),
    text: &str,
)
    ensures going { session.new.has_ended ≡ session.old.has_ended }
    ensures written { IsWrittenOut session.old → IsWrittenOut session.new }
{
    let mut output = b"\0".repeat(rt.alloc(), room).expect(&rt, "no memory");
    let mut written = 0;
    let has_room = session.return_answers(output.as_mut_slice(), &mut written);
    equal(rt, (has_room, written), wanted);
    output.truncate(if has_room { written } else { 0 });
    equal(rt, output.as_slice(), text.as_bytes());
}

#[test]
fn answers_a_text_in_chunks(rt: HostRuntime) {
    let mut session = Session::new(rt.alloc(), unmarked(2)).expect(&rt, "no memory");
    session.take(b"a").expect(&rt, "no memory");
    session.take(b"\nb\n\nc").expect(&rt, "no memory");
    returns_answers(rt, &mut session, 8, (false, 15), "");
    returns_answers(rt, &mut session, 16, (true, 15), "odd\neven\nfirst\n");
    session.finish().expect(&rt, "no memory");
    equal(rt, session.has_ended(), true);
    returns_answers(rt, &mut session, 16, (true, 5), "even\n");
}

/// Each line is a chunk of its own, and its answer is returned before the next one comes.
#[test]
fn answers_thousands_of_lines(rt: HostRuntime) {
    let mut session = Session::new(rt.alloc(), unmarked(2500)).expect(&rt, "no memory");
    for round in 0..2500u32 {
        session.take(b"a\n").expect(&rt, "no memory");
        session.take(b"\n").expect(&rt, "no memory");
        if round == 0 {
            returns_answers(rt, &mut session, 16, (true, 10), "odd\nfirst\n");
        } else {
            returns_answers(rt, &mut session, 16, (true, 10), "odd\nagain\n");
        }
    }
    session.finish().expect(&rt, "no memory");
    returns_answers(rt, &mut session, 0, (true, 0), "");
}
