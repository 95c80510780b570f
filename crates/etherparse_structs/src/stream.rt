//! One direction of a TCP connection, put together from its segments.
ghost use Rattle.std.specs.Prelude.{◌≡◌, ◌<◌, ◌⊎◌, true, false, Some, None, IfOk, IsSome};
ghost use Rattle.etherparse_structs.specs.Stream.{HasSegments, IsProgress, IsRead, IsSegmentAnswered, IsStream};
ghost use Rattle.etherparse_structs.specs.Stream.{ShowsStream, Stream, new_stream, segment_with};
ghost use Rattle.etherparse_structs.specs.StreamAdded.{no_progress, segment_status};

use crate::held_stream::HeldStream;
use crate::stream_box::StreamBox;
use crate::{DONE, EpSegmentFlags, EpStreamAdded, EpStreamProgress, NO_MEMORY, WRONG_STATE};
use c_handles::Loose;
use std::alloc::{AllocError, Global};
use std::mem::replace;
use tcp_streams::StreamBuf;

/// The bytes that one end of a TCP connection sent, put together as its segments come. Positions count
/// from 0, the number after that of SYN or, where SYN wasn't seen, that of the first segment. It starts
/// as zeros, and only these calls change it.
#[repr(C)]
#[derive(Drop)]
pub struct EpStream {
    /// Whether it was opened and not freed.
    pub is_open: bool,
    /// For these calls alone.
    pub held: HeldStream,
}

impl EpStream {
    /// Opens it without segments, with a window of so many bytes. The result is 0 where it is open,
    /// 2 where there is no memory, and 4 where it was open before. Where it isn't 0 nothing is changed.
    pub fn begin(&mut self, alloc: Global, window: usize) -> u32
        requires { IsStream self.old }
        ensures stream { IsStream self.new }
        ensures opened { result ≡ 0 → HasSegments self.new (new_stream window) }
        ensures unchanged { 0 < result → self.new ≡ self.old }
        ensures wrong_state { self.old.is_open ≡ true → result ≡ 4 }
        ensures codes { self.old.is_open ≡ false → (result ≡ 0) ⊎ (result ≡ 2) }
    {
        if self.is_open {
            return WRONG_STATE;
        }
        let Ok(opened) = new_box(alloc, window) else {
            return NO_MEMORY;
        };
        put(self, opened);
        DONE
    }

    /// Takes a segment. The status is 0 where it is accepted, 2 where there is no memory for it, 3
    /// where it is refused, and 4 where the stream isn't open. Where it isn't 0 nothing is changed.
    pub fn add(
        &mut self,
        alloc: Global,
        sequence_number: u32,
        flags: &EpSegmentFlags,
        payload: &[u8],
    ) -> EpStreamAdded
        requires { IsStream self.old }
        ensures stream { IsStream self.new }
        ensures answered { (s : Stream) → HasSegments self.old s → IsSegmentAnswered (HasSegments self.new) s
            (segment_with sequence_number flags.now payload.now) result }
        ensures closed { self.old.is_open ≡ false
            → (self.new ≡ self.old) × (result ≡ segment_status 4) }
    {
        if !self.is_open {
            return EpStreamAdded::of_status(WRONG_STATE);
        }
        let mut opened = taken(alloc, self);
        let added = opened.add(sequence_number, flags, payload);
        put(self, opened);
        added
    }

    /// Writes available bytes to the start of the output, and takes them away: all, or as many as the
    /// output has. The result is how many, 0 where the stream isn't open.
    pub fn read(&mut self, alloc: Global, output: &mut [u8]) -> usize
        requires { IsStream self.old }
        ensures stream { IsStream self.new }
        ensures read { (s : Stream) → HasSegments self.old s
            → IsRead (HasSegments self.new) s output.old output.new result }
        ensures closed { self.old.is_open ≡ false
            → (self.new ≡ self.old) × (result ≡ 0) × (output.new ≡ output.old) }
    {
        if !self.is_open {
            return 0;
        }
        let mut opened = taken(alloc, self);
        let count = opened.read(output);
        put(self, opened);
        count
    }

    /// How far it came. All fields are 0 where it isn't open.
    pub fn progress(&mut self, alloc: Global) -> EpStreamProgress
        requires { IsStream self.old }
        ensures stream { IsStream self.new }
        ensures progress { (s : Stream) → HasSegments self.old s
            → HasSegments self.new s × IsProgress s result }
        ensures closed { self.old.is_open ≡ false → (self.new ≡ self.old) × (result ≡ no_progress) }
    {
        if !self.is_open {
            return EpStreamProgress::none();
        }
        let opened = taken(alloc, self);
        let progress = EpStreamProgress::of(&opened.buf);
        put(self, opened);
        progress
    }

    /// Frees all that it holds. One that isn't open stays as it is.
    pub fn free(&mut self, alloc: Global)
        requires { IsStream self.old }
        ensures closed { self.new.is_open ≡ false }
        ensures freed { self.old.is_open ≡ true → self.new.held.value ≡ None }
        ensures unchanged { self.old.is_open ≡ false → self.new ≡ self.old }
    {
        if self.is_open {
            drop(taken(alloc, self));
        }
    }
}

fn new_box(alloc: Global, window: usize) -> Result<Box<StreamBox>, AllocError>
    ensures { IfOk result (λ opened. ShowsStream opened.value.buf (new_stream window)) }
{
    let opened = StreamBox {
        buf: StreamBuf::new(alloc, window),
    };
    match Box::new(alloc, opened) {
        Ok(opened) => Ok(opened),
        Err(_) => Err(AllocError),
    }
}

// What an open stream holds, which is closed then.
fn taken(alloc: Global, stream: &mut EpStream) -> Box<StreamBox>
    requires { IsSome stream.old.held.value }
    ensures opened { stream.old.held.value ≡ Some result.value }
    ensures closed { stream.new.is_open ≡ false }
    ensures none { stream.new.held.value ≡ None }
{
    stream.is_open = false;
    replace(&mut stream.held, HeldStream::none())
        .into_loose(alloc)
        .into_box()
}

fn put(stream: &mut EpStream, opened: Box<StreamBox>)
    ensures held { stream.new.held.value ≡ Some opened.value }
    ensures opened { stream.new.is_open ≡ true }
{
    stream.held = HeldStream::of(Loose::of(opened));
    stream.is_open = true;
}
