//! What becomes of packets and reassemblies in a run.
ghost use Rattle.std.specs.Prelude.{◌≡◌};
ghost use Rattle.etherparse.specs.PoolCalls.{Lists};
ghost use Rattle.packets.specs.Started.{Started, ShowsStarted, ShowsFragments};
ghost use Rattle.packets.specs.Courses.{begin_at, lists_at, order_at};
ghost use Rattle.packets.specs.ReassemblyMemory.{Order, ShowsOrder};
ghost use Rattle.packets.specs.Limits.{is_late};

use crate::{Dissector, Filter};
use captures::{Spans, Unfit};
use std::hash::BuildHasher;

/// What becomes of packets and reassemblies in a run.
#[derive(Drop)]
pub struct Rules {
    /// Which packets are shown or counted.
    pub filter: Filter,
    /// How many packets are taken at most, those too that the filter keeps back. Then nothing more
    /// is read. `None`: all.
    pub count: Option<u64>,
    /// In how many seconds of packet time after the first one packets are taken: the first packet
    /// that comes so many seconds or more after it ends the run, and isn't taken. Packets with
    /// earlier times than the first don't end it. `None`: all.
    pub duration: Option<u32>,
    /// What becomes of packets of links that aren't read, without a frame, or too long.
    pub unfit: Unfit,
    /// The length in seconds of the spans of packet time after one to two of which a datagram that
    /// is not complete is dropped; of 0 seconds as [`Spans::go_on`] says. `None`: never.
    pub forget: Option<u32>,
    /// How many bytes the datagrams that are not complete may take after a packet, as
    /// [`Dissector::keep_within`] counts them. With 0 no datagram is put together of fragments.
    pub reassembly_memory: u64,
    /// Whether checksums are verified.
    pub checksums: bool,
}

const NANOSECONDS: u64 = 1_000_000_000;

/// Whether a packet of this time comes so many seconds or more after the first one.
pub(crate) fn is_late(duration: Option<u32>, first: Option<u64>, time: u64) -> bool
    ensures { result ≡ is_late duration first time }
{
    match (duration, first) {
        (Some(seconds), Some(first)) => {
            time >= first && time - first >= NANOSECONDS * u64::from(seconds)
        }
        _ => false,
    }
}

/// Goes on to a packet of this time. With one by which a span has passed, the reassemblies are
/// dropped of which no fragment came since that span began.
pub(crate) fn drop_idle<S: BuildHasher>(
    forget: Option<u32>,
    spans: &mut Spans,
    time: u64,
    dissector: &mut Dissector<S>,
)
    ensures begin { spans.new.begin ≡ begin_at forget spans.old.begin time }
    ensures datagrams { (lists : Lists) → ShowsFragments dissector.old.datagrams lists
        → ShowsFragments dissector.new.datagrams (lists_at forget spans.old.begin time lists) }
    ensures started { (started : Started) → ShowsStarted dissector.old.datagrams started
        → ShowsStarted dissector.new.datagrams started }
    ensures order { (lists : Lists) (order : Order) → ShowsFragments dissector.old.datagrams lists
        → ShowsOrder dissector.old.datagrams order
        → ShowsOrder dissector.new.datagrams (order_at forget spans.old.begin time lists order) }
    ensures first_time { dissector.new.first_time ≡ dissector.old.first_time }
    ensures last_time { dissector.new.last_time ≡ dissector.old.last_time }
    ensures dropped { dissector.new.dropped ≡ dissector.old.dropped }
{
    let Some(seconds) = forget else {
        return;
    };
    if let Some(begin) = spans.go_on(seconds, time) {
        dissector.forget_before(begin);
    }
}
