//! A walk over the packets of a capture.
ghost use Rattle.std.specs.Prelude.{◌≡◌, ◌≤◌, ◌∷◌, ◌++◌, ◌⊎◌, Bool, Ok, Err, List, [], ℕ, MatchResult, None, filter};
ghost use Rattle.std.specs.Io.KnownBytes.{Consumes};
ghost use Rattle.captures.specs.Readers.{ComesTo, HasRead, skipped_by, source_of};
ghost use Rattle.captures.specs.declared.packet.Packet.{Packet};
ghost use Rattle.captures.specs.declared.unfit.Unfit.{Unfit};
ghost use Rattle.etherparse.specs.PoolCalls.{no_lists};
ghost use Rattle.packets.specs.Started.{ShowsStarted, ShowsFragments, none_started};
ghost use Rattle.packets.specs.Expressions.{lets_through};
ghost use Rattle.packets.specs.Courses.{AreDissected, Course, HasCourse, IsDissected, course_after, forgotten};
ghost use Rattle.packets.specs.Courses.{next_course, no_course, shown};
ghost use Rattle.packets.specs.ReassemblyMemory.{ShowsOrder};
ghost use Rattle.packets.specs.PacketRuns.{BreaksBy, EndsBy, EndsWithin, Leaves, Unbroken, UnlessOutOfMemory};
ghost use Rattle.packets.specs.declared.dissection.Dissection.{Dissection};

use crate::run::progress::{Progress, notify_step};
use crate::run::rules::{Rules, drop_idle, is_late};
use crate::{Dissection, Dissector};
use captures::{Packet, PacketReader, RunError, Spans};
use std::alloc::AllocError;
use std::hash::BuildHasher;
use std::io::Read;

/// Takes the packets that a filter lets through, one after the other.
pub(crate) trait Visitor {
    // Whether it writes.
    ghost writes: { Bool };

    // From one state these packets lead to another.
    ghost goes: { Self → Self → List Dissection → Type 0 };

    // And to this one where memory then ran out for the next one.
    ghost fails: { Self → Self → List Dissection → Type 0 };

    // And to this one where a write then failed.
    ghost breaks: { Self → Self → List Dissection → Type 0 };

    /// Takes a packet; it fails where memory runs out for it.
    fn visit(&mut self, packet: &Dissection<'_>) -> Result<(), AllocError>
        ensures { (start : Self) (seen : List Dissection) → goes start self.old seen
            → MatchResult result (λ _. goes start self.new (seen ++ packet.now ∷ []))
            (λ _. goes start self.new seen ⊎ fails start self.new seen) };

    /// Does what is due before the next packet.
    fn before_packet(&mut self) -> Result<(), RunError>
        ensures { (start : Self) (seen : List Dissection) → goes start self.old seen
            → MatchResult result (λ _. goes start self.new seen)
            (λ error. BreaksBy writes error (breaks start self.new seen)) };

    /// Does what is due before a read, which may wait.
    fn before_read(&mut self) -> Result<(), RunError>
        ensures { (start : Self) (seen : List Dissection) → goes start self.old seen
            → MatchResult result (λ _. goes start self.new seen)
            (λ error. BreaksBy writes error (breaks start self.new seen)) };
}

/// Shows a visitor each packet that the filter lets through, up to the end of the capture, to where
/// it is refused or to a limit.
///
/// Before each read the visitor is called, so that it keeps nothing back while a read waits. Where
/// the rules limit no count, a walk over as many packets as 64 bits count ends as too many reads do.
pub(crate) fn walk<R: Read + Drop, S: BuildHasher, V: Visitor, P: Progress>(
    rules: &Rules,
    packets: &mut PacketReader<R>,
    dissector: &mut Dissector<S>,
    visitor: &mut V,
    progress: &mut P,
) -> Result<(), RunError>
    requires unread { HasRead rules.now.unfit packets.old [] [] }
    requires datagrams { ShowsFragments dissector.old.datagrams no_lists }
    requires started { ShowsStarted dissector.old.datagrams none_started }
    requires order { ShowsOrder dissector.old.datagrams [] }
    requires dropped { dissector.old.dropped ≡ 0 }
    requires first_time { dissector.old.first_time ≡ None }
    requires last_time { dissector.old.last_time ≡ None }
    requires begins { V.goes visitor.old visitor.old [] }
    ensures { (read : List ℕ) × (given : List Packet) × (reported : List Dissection)
        × Consumes (R.remaining (source_of packets.old)) (R.remaining (source_of packets.new)) read
        × EndsWithin V.writes rules.now (skipped_by packets.new)
        (R.remaining (source_of packets.new)) read given result
        × AreDissected rules.now.checksums rules.now.forget (no_course rules.now.reassembly_memory) given reported
        × Leaves result (V.goes visitor.old visitor.new (shown rules.now.filter reported))
        (V.fails visitor.old visitor.new (shown rules.now.filter reported))
        (V.breaks visitor.old visitor.new (shown rules.now.filter reported))
        × UnlessOutOfMemory result (ShowsFragments dissector.new.datagrams
        (course_after rules.now.forget (no_course rules.now.reassembly_memory) given).lists)
        × (dissector.new.dropped
        ≡ (course_after rules.now.forget (no_course rules.now.reassembly_memory) given).dropped) }
{
    let mut spans = Spans::new();
    let limit = rules.count.unwrap_or(u64::MAX);
    let mut count: u64 = 0;
    let mut steps = 0;
    'packets: while count < limit {
        match go_on(packets, visitor, progress, &mut steps) {
            Ok(true) => {}
            Ok(false) => return Ok(()),
            Err(error) => return Err(error),
        }
        let Some(packet) = packets.packet() else {
            return Ok(());
        };
        if is_late(rules.duration, dissector.first_time, packet.time) {
            return Ok(());
        }
        match take(rules, &packet, &mut spans, dissector, visitor) {
            Ok(()) => count += 1,
            Err(_) => return Err(RunError::Memory),
        }
    }
    match rules.count {
        Some(_) => Ok(()),
        None => Err(RunError::TooManyReads),
    }
}

// Goes on to the next packet, and returns whether there is one. The visitor is called before, and
// once more where a read is needed for it.
fn go_on<R: Read + Drop, V: Visitor, P: Progress>(
    packets: &mut PacketReader<R>,
    visitor: &mut V,
    progress: &mut P,
    steps: &mut u64,
) -> Result<bool, RunError>
    ensures { (unfit : Unfit) (read : List ℕ) (given : List Packet) (start : V)
        (seen : List Dissection) → HasRead unfit packets.old read given
        → V.goes start visitor.old seen → (more : List ℕ)
        × Consumes (R.remaining (source_of packets.old)) (R.remaining (source_of packets.new)) more
        × MatchResult result
        (λ found. ComesTo unfit packets.new (R.remaining (source_of packets.new)) (read ++ more)
        given (Ok found) × V.goes start visitor.new seen)
        (λ error. EndsBy V.writes unfit (skipped_by packets.new)
        (R.remaining (source_of packets.new)) (read ++ more) given (Err error)
        × Unbroken (Err error) (V.goes start visitor.new seen) (V.breaks start visitor.new seen)) }
{
    if let Err(error) = visitor.before_packet() {
        return Err(error);
    }
    match packets.advance_held() {
        Ok(true) => return Ok(true),
        Ok(false) => {}
        Err(error) => return Err(RunError::from(error)),
    }
    if let Err(error) = visitor.before_read() {
        return Err(error);
    }
    notify_step(progress, steps, packets.consumed());
    match packets.advance() {
        Ok(found) => Ok(found),
        Err(error) => Err(RunError::from(error)),
    }
}

// Takes the next packet; it fails where memory runs out for it.
fn take<S: BuildHasher, V: Visitor>(
    rules: &Rules,
    packet: &Packet<'_>,
    spans: &mut Spans,
    dissector: &mut Dissector<S>,
    visitor: &mut V,
) -> Result<(), AllocError>
    ensures { (course : Course) (start : V) (seen : List Dissection)
        → course.memory ≡ rules.now.reassembly_memory
        → HasCourse course dissector.old spans.old → V.goes start visitor.old seen
        → MatchResult result
        (λ _. (reported : Dissection)
        × IsDissected rules.now.checksums (forgotten rules.now.forget packet.now.time course)
        packet.now reported
        × V.goes start visitor.new (seen ++ filter (lets_through rules.now.filter) (reported ∷ []))
        × HasCourse (next_course rules.now.forget course packet.now) dissector.new spans.new)
        (λ _. (V.goes start visitor.new seen ⊎ V.fails start visitor.new seen)
        × (dissector.new.dropped ≡ course.dropped)) }
{
    drop_idle(rules.forget, spans, packet.time, dissector);
    let Ok(dissection) = dissector.dissect(packet, rules.checksums) else {
        return Err(AllocError);
    };
    if rules.filter.matches(&dissection) {
        if let Err(error) = visitor.visit(&dissection) {
            return Err(error);
        }
    }
    dissector.keep_within(rules.reassembly_memory);
    Ok(())
}
