//! One direction of a TCP connection.

ghost use Rattle.std.specs.Prelude.{◌≡◌, ℕ, ◌+◌, ◌<◌, ◌≤◌, ◌↔◌, ◌^◌, ◌++◌, ◌∷◌, ◌==◌, [], if◌then◌else◌, List};
ghost use Rattle.std.specs.Prelude.{None, Some, false};
ghost use Rattle.std.specs.Prelude.{IsTrue, IfOk, IfErr, IsOk, IsSome, OnOk, OnErr, IfSome, IfNone, not, is_some, length, drop};
ghost use Rattle.std.specs.Prelude.{◌-◌, min, Option};
ghost use Rattle.std.specs.Option.{option_map_or};
ghost use Rattle.tcp_streams.specs.declared.gaps.Gap.{Gap};
ghost use Rattle.tcp_streams.specs.Losses.{acknowledged, acknowledged_at, gap_between, lost_after, lost_by, lost_in, lost_of};
ghost use Rattle.tcp_streams.specs.Losses.{with_given_up};
ghost use Rattle.tcp_streams.specs.Segments.{Segment, segment, bytes_of, first_number, start_number, placed_at};
ghost use Rattle.tcp_streams.specs.Segments.{placed, repeated_of};
ghost use Rattle.tcp_streams.specs.Refusals.{window_end, fin_refusal, refusal_of};
ghost use Rattle.tcp_streams.specs.Gaps.{gap_after};
ghost use Rattle.tcp_streams.specs.PlacedSegments.{Placed, byte_at, text_of, fin_of, is_reset, conflicts_with};
ghost use Rattle.tcp_streams.specs.PlacedSegments.{conflicts_of, count_from};
ghost use Rattle.tcp_streams.specs.SparseBytes.{AllHeld, byte_in, counted, size_of};
ghost use Rattle.tcp_streams.specs.StreamBuf.{Contents, Shows, IsSound, IsBounded, IsLocation, IsLocated};
ghost use Rattle.tcp_streams.specs.StreamBuf.{IsAfterGap, IsFirstGap, IsGapIn, AnswersAdd, IsAdded};
ghost use Rattle.tcp_streams.specs.StreamBuf.{available_in, next_in, placed_in, refusal_in};

use super::conflicts::Conflicts;
use super::gaps::Gap;
use super::refusal::Refused;
use super::segment_flags::SegmentFlags;
use super::sequence_numbers::{Distance, distance_between};
use super::sparse_bytes::SparseBytes;
use std::alloc::Global;
use std::marker::Model;

/// The bytes that one end of a TCP connection sent, put together as its segments come.
///
/// It holds no more bytes than its window has; as many consumed ones may stay in memory. The first
/// byte that came for a position stays. Positions count from 0, the number after that of
/// SYN or, where SYN wasn't seen, that of the first segment.
#[derive(Debug, Drop)]
pub struct StreamBuf {
    window: usize,
    start: Option<u32>,
    joined_late: bool,
    held: SparseBytes,
    fin: Option<u64>,
    is_reset: bool,
    conflicts: Conflicts,
}

impl Model for StreamBuf {
    ghost Value = { Contents };

    ghost view = { λ buf. record {
      window = buf.window;
      start = buf.start;
      joined_late = buf.joined_late;
      held = buf.held;
      fin = buf.fin;
      is_reset = buf.is_reset;
      conflicts = buf.conflicts;
    } };

    ghost invariant = { λ buf. IsSound record {
      window = buf.window;
      start = buf.start;
      joined_late = buf.joined_late;
      held = buf.held;
      fin = buf.fin;
      is_reset = buf.is_reset;
      conflicts = buf.conflicts;
    } };
}

/// What became of a segment that was accepted.
#[derive(Clone, Copy, Debug, PartialEq, Eq)]
pub struct Added {
    /// The position of its first byte, those before the ones that are held left out.
    pub position: u64,
    /// The positions of its bytes that differ from those that are held.
    pub conflicts: Conflicts,
    /// How many of its bytes stand where a byte came already, or before all that are held.
    pub repeated: u64,
}

// Where a segment stands in the stream.
#[derive(Clone, Copy)]
struct Location {
    position: u64,
    // How many of its bytes are left out, since they stand before those that are held.
    skipped: usize,
    fin: bool,
    reset: bool,
}

// The end of the window.
fn window_end(window: usize, taken: u64) -> u64
    ensures { result ≡ window_end window taken }
{
    taken.saturating_add(window as u64).min(1 << 63)
}

// The number of a segment's first byte.
fn first_number(sequence_number: u32, flags: SegmentFlags) -> u32
    ensures { result ≡ first_number sequence_number flags }
{
    if flags.syn {
        sequence_number.wrapping_add(1)
    } else {
        sequence_number
    }
}

// The bytes of the stream that a segment has: one with RST has none.
fn bytes_of(flags: SegmentFlags, payload: &[u8]) -> &[u8]
    ensures { result.now ≡ (if flags.rst then [] else payload.now) }
{
    if flags.rst { &payload[..0] } else { payload }
}

// The bytes after so many.
fn without_prefix(bytes: &[u8], count: usize) -> &[u8]
    requires { count ≤ length bytes.now }
    ensures { result.now ≡ drop count bytes.now }
{
    &bytes[count..]
}

// The location of a segment of so many bytes that begins so far from the position expected next.
fn location_at(
    distance: Distance,
    next: u64,
    taken: u64,
    flags: SegmentFlags,
    len: usize,
) -> Location
    requires short { next ≤ 2 ^ 63 + 1 }
    requires taken { taken ≤ next }
    ensures { (s : Segment) → s.flags ≡ flags → length (bytes_of s) ≡ len
        → IsLocation result (bytes_of s) (placed_at distance next taken s) }
{
    let fin = flags.fin && !flags.rst;
    match distance {
        Distance::After(count) => Location {
            position: next + u64::from(count),
            skipped: 0,
            fin,
            reset: flags.rst && count == 0,
        },
        Distance::Before(count) => Location {
            position: next.saturating_sub(u64::from(count)).max(taken),
            skipped: ((taken + u64::from(count)).saturating_sub(next) as usize).min(len),
            fin: fin && count as usize <= len,
            reset: false,
        },
    }
}

// Why FIN refuses a segment, by where FIN and the last byte stand.
fn fin_refusal(
    fin: Option<u64>,
    last: u64,
    end: u64,
    is_empty: bool,
    has_fin: bool,
) -> Option<Refused>
    ensures { (s : Placed) → end ≡ s.position + length s.bytes → is_empty ≡ (length s.bytes == 0)
        → has_fin ≡ s.fin → result ≡ fin_refusal fin last s }
{
    if let Some(fin) = fin {
        if fin < end && (has_fin || !is_empty) {
            return Some(Refused::AfterFin { fin });
        }
    }
    if has_fin && end < last.max(fin.unwrap_or(0)) {
        return Some(Refused::AfterFin { fin: end });
    }
    None
}

// The position before which a number acknowledges all bytes, by how far it lies from what is expected next.
fn acknowledged_at(distance: Distance, next: u64) -> u64
    ensures { result ≡ acknowledged_at distance next }
{
    match distance {
        Distance::After(count) => next.saturating_add(u64::from(count)).min(1 << 63),
        Distance::Before(count) => next.saturating_sub(u64::from(count)).min(1 << 63),
    }
}

fn gap_between(start: u64, end: u64) -> Option<Gap>
    ensures { result ≡ gap_between start end }
{
    if start < end {
        Some(Gap { start, end })
    } else {
        None
    }
}

// Which bytes are lost after the available ones, which end here, where none is held after them.
fn lost_after(end: u64, fin: Option<u64>, window_end: u64, acknowledged: u64) -> Option<Gap>
    ensures { result ≡ lost_after end fin window_end acknowledged }
{
    match fin {
        Some(fin) if fin <= acknowledged => gap_between(end, fin),
        None if window_end < acknowledged => gap_between(end, acknowledged),
        _ => None,
    }
}

// Which bytes are lost, by the first gap.
fn lost_by(
    first: Option<Gap>,
    end: u64,
    fin: Option<u64>,
    window_end: u64,
    acknowledged: u64,
) -> Option<Gap>
    ensures { result ≡ lost_by first end fin window_end acknowledged }
{
    match first {
        Some(gap) if gap.end <= acknowledged => Some(gap),
        Some(_) => None,
        None => lost_after(end, fin, window_end, acknowledged),
    }
}

impl StreamBuf {
    /// A buffer of so many bytes for a stream of which no segment came.
    pub fn new(alloc: Global, window: usize) -> StreamBuf
        ensures shows { Shows result [] }
        ensures window { result.window ≡ window }
        ensures start { result.start ≡ None }
        ensures joined_late { result.joined_late ≡ false }
        ensures taken { result.held.taken ≡ 0 }
    {
        StreamBuf {
            window,
            start: None,
            joined_late: false,
            held: SparseBytes::new(alloc),
            fin: None,
            is_reset: false,
            conflicts: Conflicts::none(),
        }
    }

    // The position that is expected next.
    fn next(&self) -> u64
        ensures { result ≡ next_in self.now }
    {
        let end = self.held.available_end();
        if self.fin == Some(end) { end + 1 } else { end }
    }

    /// The number of position 0, once a segment came.
    pub(crate) fn start(&self) -> Option<u32>
        ensures { result ≡ self.now.start }
    {
        self.start
    }

    // The position before which a number acknowledges all bytes.
    fn acknowledged(&self, number: u32) -> u64
        ensures { result ≡ acknowledged self.now.start (next_in self.now) number }
    {
        let Some(start) = self.start else {
            return 0;
        };
        let next = self.next();
        let expected = start.wrapping_add((next % (1 << 32)) as u32);
        acknowledged_at(distance_between(expected, number), next)
    }

    // Which bytes are lost, by a number that acknowledges.
    fn lost(&self, number: u32) -> Option<Gap>
        ensures lost { result ≡ lost_in self.now number }
        ensures sound { IsSound self.now }
    {
        let gap = self.held.first_gap();
        let end = self.held.available_end();
        let last = window_end(self.window, self.held.taken());
        let acknowledged = self.acknowledged(number);
        lost_by(gap, end, self.fin, last, acknowledged)
    }

    // Where a segment of so many bytes stands, the first of which has this number.
    fn location(&self, number: u32, flags: SegmentFlags, len: usize) -> Location
        ensures location { (s : Segment) → number ≡ first_number s.number s.flags → s.flags ≡ flags
            → length (bytes_of s) ≡ len → IsLocation result (bytes_of s) (placed_in self.now s) }
        ensures sound { IsSound self.now }
    {
        let next = self.next();
        let start = self.start.unwrap_or(number);
        let expected = start.wrapping_add((next % (1 << 32)) as u32);
        let distance = distance_between(expected, number);
        location_at(distance, next, self.held.taken(), flags, len)
    }

    // Where a segment stands, and its bytes without those that are left out.
    fn locate<'a>(
        &self,
        sequence_number: u32,
        flags: SegmentFlags,
        payload: &'a [u8],
    ) -> (Location, &'a [u8])
        ensures located { IsLocated result.0 result.1.now
            (placed_in self.now (segment sequence_number flags payload.now)) }
        ensures skipped { result.0.skipped + length result.1.now
            ≡ length (bytes_of (segment sequence_number flags payload.now)) }
        ensures fits { result.0.skipped + length result.1.now < 2 ^ 64 }
        ensures sound { IsSound self.now }
    {
        let bytes = bytes_of(flags, payload);
        let number = first_number(sequence_number, flags);
        let location = self.location(number, flags, bytes.len());
        (location, without_prefix(bytes, location.skipped))
    }

    // Why a segment of so many bytes is refused.
    fn refusal(&self, location: Location, len: usize) -> Option<Refused>
        ensures { (s : Placed) → location.position ≡ s.position → location.fin ≡ s.fin → len ≡ length s.bytes
            → result ≡ refusal_in self.now s }
    {
        let window_end = window_end(self.window, self.held.taken());
        let end = location.position.saturating_add(len as u64);
        if window_end < end {
            return Some(Refused::OutsideWindow { window_end });
        }
        if let Some(refused) = fin_refusal(self.fin, self.held.end(), end, len == 0, location.fin) {
            return Some(refused);
        }
        if self.is_reset {
            return Some(Refused::AfterReset);
        }
        None
    }

    // Adds a segment that isn't refused.
    fn accept(
        &mut self,
        location: Location,
        bytes: &[u8],
        number: u32,
        syn: bool,
    ) -> Result<Added, Refused>
        requires after { self.old.held.taken ≤ location.position }
        requires within { location.position + length bytes.now ≤ window_end self.old.window self.old.held.taken }
        requires fits { location.skipped + length bytes.now < 2 ^ 64 }
        ensures added { (s : Placed) → IsLocated location bytes.now s
            → IfOk result (IsAdded self.old self.new s number syn) }
        ensures repeated { IfOk result (λ added. added.repeated ≡ location.skipped
            + count_from (λ p. is_some (byte_in self.old.held p)) location.position (length bytes.now)) }
        ensures memory { IfErr result (λ e. e ≡ Refused.OutOfMemory) }
        ensures succeeds { AllHeld (byte_in self.old.held) location.position (length bytes.now) → IsOk result }
        ensures err { OnErr result (self.new ≡ self.old) }
        ensures sound { IsSound self.new }
    {
        let repeated = self.held.count_held(location.position, bytes.len());
        let Ok(conflicts) = self.held.add(location.position, bytes) else {
            return Err(Refused::OutOfMemory);
        };
        self.joined_late = match self.start {
            Some(_) => self.joined_late,
            None => !syn,
        };
        self.start = Some(self.start.unwrap_or(number));
        let end = location.position + bytes.len() as u64;
        self.fin = if location.fin { Some(end) } else { self.fin };
        self.is_reset = self.is_reset || location.reset;
        self.conflicts = self.conflicts.and(conflicts);
        Ok(Added {
            position: location.position,
            conflicts,
            repeated: location.skipped as u64 + repeated,
        })
    }

    /// Takes a segment: the bytes of its payload for which none is held yet, and its flags.
    ///
    /// Its position is the one nearest to what is expected next: the first byte that is missing, or
    /// the number after FIN (RFC 9293, section 3.4). Bytes that were consumed are left out. Where a byte
    /// is held, it stays; where that is another one, the position counts as a conflict. FIN
    /// counts unless it is before what is expected, and RST only at it. A segment with RST has no byte
    /// of the stream.
    ///
    /// It is refused, and nothing changes, where it ends after the window, which begins at the first
    /// byte that wasn't consumed; else where it has a byte or FIN after FIN, or its FIN stands before a
    /// byte or FIN; else after the connection was reset; else where there is no memory.
    pub fn add(
        &mut self,
        sequence_number: u32,
        flags: SegmentFlags,
        payload: &[u8],
    ) -> Result<Added, Refused>
        ensures accepted { (ss : List Placed) → Shows self.old ss →
            let s = placed self.old.start self.old.held.taken ss (segment sequence_number flags payload.now) in
            OnOk result (Shows self.new (ss ++ s ∷ [])) }
        ensures refused { (ss : List Placed) → Shows self.old ss →
            let s = placed self.old.start self.old.held.taken ss (segment sequence_number flags payload.now) in
            AnswersAdd (refusal_of self.old.window self.old.held.taken ss s) result }
        ensures position { (ss : List Placed) → Shows self.old ss →
            let s = placed self.old.start self.old.held.taken ss (segment sequence_number flags payload.now) in
            IfOk result (λ added. added.position ≡ s.position) }
        ensures conflicts { (ss : List Placed) → Shows self.old ss →
            let s = placed self.old.start self.old.held.taken ss (segment sequence_number flags payload.now) in
            IfOk result (λ added. added.conflicts ≡ counted (conflicts_with ss s)) }
        ensures repeated { (ss : List Placed) → Shows self.old ss →
            let a = segment sequence_number flags payload.now in
            let s = placed self.old.start self.old.held.taken ss a in
            IfOk result (λ added. added.repeated ≡ repeated_of ss a s) }
        ensures start { OnOk result (self.new.start ≡ Some (start_number self.old.start sequence_number flags)) }
        ensures joined_late { OnOk result (self.new.joined_late
            ≡ (if is_some self.old.start then self.old.joined_late else not flags.syn)) }
        ensures err { OnErr result (self.new ≡ self.old) }
        ensures taken { self.new.held.taken ≡ self.old.held.taken }
        ensures window { self.new.window ≡ self.old.window }
        ensures bounded { IsBounded self.new }
        // A segment of which no byte is new takes no memory.
        ensures succeeds { (ss : List Placed) → Shows self.old ss →
            let s = placed self.old.start self.old.held.taken ss (segment sequence_number flags payload.now) in
            refusal_of self.old.window self.old.held.taken ss s ≡ None
            → AllHeld (byte_at ss) s.position (length s.bytes) → IsOk result }
    {
        let (location, bytes) = self.locate(sequence_number, flags, payload);
        let number = first_number(sequence_number, flags);
        match self.refusal(location, bytes.len()) {
            Some(refused) => Err(refused),
            None => self.accept(location, bytes, number, flags.syn),
        }
    }

    /// The bytes that follow those that were consumed, up to the first that is missing.
    pub fn available(&self) -> &[u8]
        ensures bytes { result.now ≡ available_in self.now.held }
        ensures text { (ss : List Placed) → Shows self.now ss
            → result.now ≡ drop self.now.held.taken (text_of ss) }
    {
        self.held.available()
    }

    /// The position after them: that of the first byte that is missing.
    pub fn available_end(&self) -> u64
        ensures { (ss : List Placed) → Shows self.now ss → result ≡ length (text_of ss) }
    {
        self.held.available_end()
    }

    /// The available bytes from a position on: all of them, if it was consumed.
    pub fn available_from(&self, position: u64) -> &[u8]
        ensures bytes { result.now ≡ drop (position - self.now.held.taken) (available_in self.now.held) }
        ensures text { (ss : List Placed) → Shows self.now ss → self.now.held.taken ≤ position
            → result.now ≡ drop position (text_of ss) }
    {
        self.held.available_from(position)
    }

    /// Takes so many of the available bytes away, or all where there are fewer.
    pub fn consume(&mut self, count: usize)
        ensures shows { (ss : List Placed) → Shows self.old ss → Shows self.new ss }
        ensures taken { self.new.held.taken ≡ self.old.held.taken + min count (length (available_in self.old.held)) }
        ensures available { available_in self.new.held ≡ drop count (available_in self.old.held) }
        ensures start { self.new.start ≡ self.old.start }
        ensures joined_late { self.new.joined_late ≡ self.old.joined_late }
        ensures window { self.new.window ≡ self.old.window }
        ensures bounded { IsBounded self.new }
    {
        let count = count.min(self.held.available().len());
        self.held.consume(count);
    }

    /// Gives up bytes that are missing, where this number of the other endpoint acknowledges them: those
    /// of the first gap. Where there is no gap it gives up the bytes before FIN and, where FIN didn't
    /// come, those before the number, if that stands after the window.
    ///
    /// What comes later at their positions changes nothing. Bytes before them are taken away.
    pub(crate) fn give_up(&mut self, number: u32) -> Option<Gap>
        ensures lost { (ss : List Placed) → Shows self.old ss → (first : Option Gap) × IsGapIn ss first
            × (result ≡ lost_of self.old.window self.old.held.taken self.old.start ss first number) }
        ensures shows { (ss : List Placed) → Shows self.old ss → Shows self.new (with_given_up ss result) }
        ensures taken { self.new.held.taken ≡ option_map_or (λ gap. gap.end) result self.old.held.taken }
        ensures start { self.new.start ≡ self.old.start }
        ensures joined_late { self.new.joined_late ≡ self.old.joined_late }
        ensures window { self.new.window ≡ self.old.window }
    {
        match self.lost(number) {
            Some(gap) => {
                self.held.skip_to(gap.end);
                Some(gap)
            }
            None => None,
        }
    }

    /// The first positions whose bytes are missing, if bytes after them are held.
    pub fn gap(&self) -> Option<Gap>
        ensures gap { (ss : List Placed) → Shows self.now ss → IfSome result (IsFirstGap ss) }
        ensures none { (ss : List Placed) → Shows self.now ss → IfNone result
            ((p : ℕ) → length (text_of ss) ≤ p → byte_at ss p ≡ None) }
    {
        self.held.first_gap()
    }

    /// The first gap that ends after a position, of those before bytes that are held; and the bytes
    /// after it, up to the next gap or to the last byte that is held. To have all gaps, call it with 0,
    /// and then each time with the end of the gap before.
    pub fn gap_after(&self, position: u64) -> Option<(Gap, &[u8])>
        ensures gap { IfSome result (λ after. gap_after position self.now.held.gaps ≡ Some after.0) }
        ensures none { IfNone result (gap_after position self.now.held.gaps ≡ None) }
        ensures bytes { (ss : List Placed) → Shows self.now ss
            → IfSome result (λ after. IsAfterGap ss after.0 after.1.now) }
        ensures first { (ss : List Placed) → Shows self.now ss
            → IfSome result (λ after. (p : ℕ) → self.now.held.taken ≤ p → position ≤ p
            → p < after.0.start → IsSome (byte_at ss p)) }
        ensures last { (ss : List Placed) → Shows self.now ss
            → IfNone result ((p q : ℕ) → self.now.held.taken ≤ p → position ≤ p → p ≤ q
            → byte_at ss p ≡ None → byte_at ss q ≡ None) }
    {
        self.held.gap_after(position)
    }

    /// Whether all bytes before FIN came.
    pub fn is_finished(&self) -> bool
        ensures { (ss : List Placed) → Shows self.now ss
            → IsTrue result ↔ (fin_of ss ≡ Some (length (text_of ss))) }
    {
        self.fin == Some(self.held.available_end())
    }

    /// The position of FIN, if it came: bytes before it may be missing.
    pub fn fin(&self) -> Option<u64>
        ensures { (ss : List Placed) → Shows self.now ss → result ≡ fin_of ss }
    {
        self.fin
    }

    /// The conflicts of all segments.
    pub fn conflicts(&self) -> Conflicts
        ensures { (ss : List Placed) → Shows self.now ss → result ≡ counted (conflicts_of ss) }
    {
        self.conflicts
    }

    /// Whether the first segment that came had no SYN: bytes before it may be missing.
    pub fn joined_late(&self) -> bool
        ensures { result ≡ self.now.joined_late }
    {
        self.joined_late
    }

    /// Whether the connection was reset.
    pub fn is_reset(&self) -> bool
        ensures { (ss : List Placed) → Shows self.now ss → result ≡ is_reset ss }
    {
        self.is_reset
    }

    /// How much it holds: the bytes from the first one that wasn't consumed up to the last one that came, also
    /// where they are missing, and 16 for each gap. Its memory is a small multiple of the greatest size of all times,
    /// and 250 bytes more from the first time on that there are two gaps, even if only during a call.
    pub fn size(&self) -> u64
        ensures { result ≡ size_of self.now.held }
    {
        self.held.size()
    }

    /// How many bytes were consumed.
    pub fn consumed(&self) -> u64
        ensures { result ≡ self.now.held.taken }
    {
        self.held.taken()
    }
}
