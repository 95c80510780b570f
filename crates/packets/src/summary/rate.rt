//! How many packets there are in each span of time, or how much of something they have.
ghost use Rattle.std.specs.Prelude.{◌≡◌, ◌<◌, ◌≤◌, ◌+◌, ◌*◌, ◌^◌, ◌++◌, ◌∷◌, ℕ, [], List, length, slice_index};
ghost use Rattle.captures.specs.Numbers.{capped};

use crate::Outline;

/// How many spans there are.
pub const SPAN_COUNT: usize = 64;

// 1/512 second, which is a whole number of nanoseconds. Nine times doubled it is a second.
const SHORTEST: u64 = 1_953_125;

/// How many packets came in each of 64 spans of equal length, from the first packet on, or how much of
/// something they had. What came
/// with a time before it counts to the first span. A span has 1/512 second, or that doubled as
/// often as it takes to reach the last packet: where one comes after the last span, each two spans
/// become one. So the memory is the same however long a capture is. Counts stop at the greatest
/// number of 64 bits.
#[derive(Drop)]
pub struct Rate {
    /// When the first packet was captured, in nanoseconds since 1970.
    pub begin: Option<u64>,
    /// The length of a span in nanoseconds.
    pub span: u64,
    /// What is counted of each span.
    pub counts: [u64; SPAN_COUNT],
    ghost positive: { 0 < span },
}

impl Rate {
    ghost use Rattle.packets.specs.Rate.{CountsBySpan, CountsSpans};
    ghost use Rattle.packets.specs.declared.outline.Outline.{Outline};

    /// No packet.
    pub fn new() -> Rate
        ensures { (count_of : Outline → ℕ) → CountsSpans count_of result [] }
    {
        Rate {
            begin: None,
            span: SHORTEST,
            counts: no_counts(),
        }
    }

    /// Counts one packet more, which counts so much.
    pub fn add(&mut self, packet: &Outline, count: u64)
        ensures { (count_of : Outline → ℕ) (packets : List Outline) → count_of packet.now ≡ count
            → CountsSpans count_of self.old packets
            → CountsSpans count_of self.new (packets ++ packet.now ∷ []) }
    {
        let begin = self.begin.unwrap_or(packet.time);
        let since = packet.time.saturating_sub(begin);
        'spans: while since / self.span >= SPAN_COUNT as u64 {
            self.double();
        }
        let position = (since / self.span) as usize;
        self.begin = Some(begin);
        self.counts[position] = self.counts[position].saturating_add(count);
    }

    // Makes one span of each two.
    fn double(&mut self)
        requires { self.old.span < 2 ^ 63 }
        ensures counted { (count_of : Outline → ℕ) (packets : List Outline)
            → CountsBySpan count_of self.old packets → CountsBySpan count_of self.new packets }
        ensures span { self.new.span ≡ 2 * self.old.span }
        ensures begin { self.new.begin ≡ self.old.begin }
        ensures size { length self.new.counts ≡ SPAN_COUNT }
    {
        self.counts = joined(&self.counts);
        self.span *= 2;
    }
}

// One count of each two.
fn joined(counts: &[u64; SPAN_COUNT]) -> [u64; SPAN_COUNT]
    ensures pairs { (k : ℕ) → k < 32 → slice_index result k
        ≡ capped (slice_index counts.now (2 * k) + slice_index counts.now (2 * k + 1)) }
    ensures rest { (k : ℕ) → 32 ≤ k → slice_index result k ≡ 0 }
    ensures size { length result ≡ SPAN_COUNT }
{
    let mut joined = no_counts();
    'pairs: for position in 0..SPAN_COUNT / 2 {
        joined[position] = counts[2 * position].saturating_add(counts[2 * position + 1]);
    }
    joined
}

fn no_counts() -> [u64; SPAN_COUNT]
    ensures zero { (k : ℕ) → slice_index result k ≡ 0 }
    ensures size { length result ≡ SPAN_COUNT }
{
    [0; SPAN_COUNT]
}
