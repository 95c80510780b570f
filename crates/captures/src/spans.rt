//! Spans of packet time.
ghost use Rattle.std.specs.Prelude.{◌≡◌, None};
ghost use Rattle.captures.specs.Spans.{begin_with, have_passed, passed_with};

const NANOSECONDS: u64 = 1_000_000_000;

/// Spans of packet time, one after the other. At the end of each, reassemblies may be dropped that
/// got no fragment in it. Times are in nanoseconds.
#[derive(Clone, Copy, Debug, PartialEq, Eq)]
pub struct Spans {
    // When the one began that is running.
    begin: Option<u64>,
}

impl Spans {
    /// Before the first packet.
    pub fn new() -> Spans
        ensures { result.begin ≡ None }
    {
        Spans { begin: None }
    }

    /// Advances to a packet of this time. A span begins with the first packet, and with each that
    /// comes this many seconds or more after the one before it began: then that one has passed, and
    /// when it began is returned.
    ///
    /// With 0 seconds a span has passed with each packet but the first that doesn't come before the
    /// span began. Where times run backwards none passes until they have come as far again.
    pub fn go_on(&mut self, seconds: u32, time: u64) -> Option<u64>
        ensures passed { result ≡ passed_with seconds self.old.begin time }
        ensures begin { self.new.begin ≡ begin_with seconds self.old.begin time }
    {
        let Some(begin) = self.begin else {
            self.begin = Some(time);
            return None;
        };
        if have_passed(seconds, begin, time) {
            self.begin = Some(time);
            Some(begin)
        } else {
            None
        }
    }
}

/// Whether this many seconds have passed since a span began.
#[inline(always)]
pub(crate) fn have_passed(seconds: u32, begin: u64, time: u64) -> bool
    ensures { result ≡ have_passed seconds begin time }
{
    time >= begin && time - begin >= NANOSECONDS * u64::from(seconds)
}
