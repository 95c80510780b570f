//! What a stream that is open holds.
ghost use Rattle.std.specs.Prelude.{◌≡◌, ◌++◌, drop, length, min, take};
ghost use Rattle.etherparse_structs.specs.Stream.{IsRead, IsSegmentAnswered, ShowsStream, Stream, segment_with};

use crate::{EpSegmentFlags, EpStreamAdded};
use tcp_streams::{SegmentFlags, StreamBuf};

/// What a stream that is open holds.
#[derive(Drop)]
pub struct StreamBox {
    /// The bytes, as far as they came.
    pub buf: StreamBuf,
}

impl StreamBox {
    pub(crate) fn add(
        &mut self,
        sequence_number: u32,
        flags: &EpSegmentFlags,
        payload: &[u8],
    ) -> EpStreamAdded
        ensures { (s : Stream) → ShowsStream self.old.buf s → IsSegmentAnswered (ShowsStream self.new.buf) s
            (segment_with sequence_number flags.now payload.now) result }
    {
        let flags = SegmentFlags {
            syn: flags.syn,
            fin: flags.fin,
            rst: flags.rst,
        };
        EpStreamAdded::of(self.buf.add(sequence_number, flags, payload))
    }

    pub(crate) fn read(&mut self, output: &mut [u8]) -> usize
        ensures { (s : Stream) → ShowsStream self.old.buf s
            → IsRead (ShowsStream self.new.buf) s output.old output.new result }
    {
        let count = copy_prefix(self.buf.available(), output);
        self.buf.consume(count);
        count
    }
}

// Copies as many bytes as there are and fit to the start of the output.
fn copy_prefix(bytes: &[u8], output: &mut [u8]) -> usize
    ensures count { result ≡ min (length output.old) (length bytes.now) }
    ensures output { output.new ≡ take result bytes.now ++ drop result output.old }
{
    let count = output.len().min(bytes.len());
    output[..count].copy_from_slice(&bytes[..count]);
    count
}
