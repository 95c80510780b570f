//! What is counted of TCP connections while they are followed.

ghost use Rattle.std.specs.Prelude.{◌≡◌, ◌++◌, ◌∷◌, ℕ, [], List, IfOk, IsOk, None, OnErr, OnOk, Some, is_some, true};
ghost use Rattle.tcp_streams.specs.Counting.{Arrival, Counts, GivesUpAll, IsFollowedAs, arrival, counter_with, counts_in};
ghost use Rattle.tcp_streams.specs.Counting.{counts_with, counts_without, number_of, size_in};
ghost use Rattle.tcp_streams.specs.Following.{Connection, Follows};

use super::direction::Direction;
use super::follower::{FollowedSegment, Follower};
use super::segment_flags::SegmentFlags;
use std::alloc::{AllocError, Global};

/// What is counted of a direction of connections that are followed, `u64::MAX` of each at most.
#[derive(Clone, Copy, Debug, PartialEq, Eq)]
pub struct StreamCounts {
    /// How many bytes of its segments stand where a byte came already, or before all that are kept.
    /// Segments that are refused don't count.
    pub repeated: u64,
    /// How often a gap began where there was none.
    pub gaps: u64,
    /// How many bytes were given up: the other endpoint acknowledges them, and they hadn't come, or had
    /// been refused. If they come later and aren't refused, they count as repeated, and change nothing
    /// else.
    pub missing: u64,
    /// How many bytes differ from those that are kept for the same position.
    pub conflicts: u64,
}

/// The connections between two endpoints, one after the other, followed for what is counted.
///
/// It follows them until there is no memory, or until it is stopped. Its counts are then those of the
/// segments up to there.
#[derive(Drop)]
pub struct StreamCounter {
    follower: Option<Follower>,
    from_lower: StreamCounts,
    from_higher: StreamCounts,
}

// What a segment does, and how many bytes of the other direction it gives up.
#[derive(Clone, Copy)]
struct Followed {
    segment: FollowedSegment,
    missing: u64,
}

impl StreamCounts {
    /// No segment.
    pub const NONE: StreamCounts = StreamCounts {
        repeated: 0,
        gaps: 0,
        missing: 0,
        conflicts: 0,
    };

    // With what a segment of the direction does.
    fn with(self, followed: FollowedSegment) -> StreamCounts
        ensures { result ≡ counts_with self followed }
    {
        StreamCounts {
            repeated: self.repeated.saturating_add(followed.repeated),
            gaps: self.gaps.saturating_add(followed.begins_gap as u64),
            missing: self.missing,
            conflicts: self.conflicts.saturating_add(followed.conflicts.count),
        }
    }

    // With so many bytes of it that are given up.
    fn without(self, missing: u64) -> StreamCounts
        ensures { result ≡ counts_without self missing }
    {
        StreamCounts {
            missing: self.missing.saturating_add(missing),
            ..self
        }
    }
}

impl StreamCounter {
    /// No segment came. So many bytes of each direction are kept, and as many after them are taken.
    pub fn new(alloc: Global, window: u32) -> StreamCounter
        ensures counts { Counts window result [] }
        ensures followed { is_some result.follower ≡ true }
    {
        StreamCounter {
            follower: Some(Follower::new(alloc, window)),
            from_lower: StreamCounts::NONE,
            from_higher: StreamCounts::NONE,
        }
    }

    /// Whether all segments up to the last one are followed.
    pub fn is_followed(&self) -> bool
        ensures { result ≡ is_some self.now.follower }
    {
        self.follower.is_some()
    }

    /// What is counted of a direction.
    pub fn counts(&self, direction: Direction) -> StreamCounts
        ensures { result ≡ counts_in direction self.now }
    {
        match direction {
            Direction::FromLower => self.from_lower,
            Direction::FromHigher => self.from_higher,
        }
    }

    /// How much it holds, as [`Follower::size`] counts it; nothing once it is stopped.
    pub fn size(&self) -> u64
        ensures { result ≡ size_in self.now.follower }
    {
        match &self.follower {
            Some(follower) => follower.size(),
            None => 0,
        }
    }

    /// Follows no segment any more, and holds nothing.
    pub fn stop(&mut self)
        ensures counts { (kept : ℕ) (arrivals : List Arrival) → Counts kept self.old arrivals
            → Counts kept self.new arrivals }
        ensures stopped { self.new.follower ≡ None }
        ensures from_lower { self.new.from_lower ≡ self.old.from_lower }
        ensures from_higher { self.new.from_higher ≡ self.old.from_higher }
    {
        self.follower = None;
    }

    /// Follows a segment. Where the other endpoint's bytes are missing, though it acknowledges them by
    /// its acknowledgment number, they are given up before; one with RST acknowledges none.
    ///
    /// Where there is no memory for a segment, the result is `Err`, and the counter is stopped. From then
    /// on a segment changes nothing, and the result is `Ok`.
    pub fn add(
        &mut self,
        direction: Direction,
        sequence_number: u32,
        acknowledgment: Option<u32>,
        flags: SegmentFlags,
        payload: &[u8],
    ) -> Result<(), AllocError>
        ensures counts { (kept : ℕ) (arrivals : List Arrival) → Counts kept self.old arrivals
            → Counts kept self.new (arrivals ++ arrival direction sequence_number acknowledgment flags payload.now ∷ []) }
        ensures ok { OnOk result (is_some self.new.follower ≡ is_some self.old.follower) }
        ensures err { OnErr result (self.new ≡ record self.old { follower = None }) }
        ensures stopped { self.old.follower ≡ None → self.new ≡ self.old }
        ensures succeeds { self.old.follower ≡ None → IsOk result }
    {
        match &mut self.follower {
            None => Ok(()),
            Some(follower) => match follow(
                follower,
                direction,
                sequence_number,
                acknowledgment,
                flags,
                payload,
            ) {
                Ok(followed) => {
                    self.count(direction, followed);
                    Ok(())
                }
                Err(error) => {
                    self.follower = None;
                    Err(error)
                }
            },
        }
    }

    // Counts what a segment of this direction does.
    fn count(&mut self, direction: Direction, followed: Followed)
        ensures { self.new ≡ counter_with direction followed.segment followed.missing self.old }
    {
        match direction {
            Direction::FromLower => {
                self.from_lower = self.from_lower.with(followed.segment);
                self.from_higher = self.from_higher.without(followed.missing);
            }
            Direction::FromHigher => {
                self.from_higher = self.from_higher.with(followed.segment);
                self.from_lower = self.from_lower.without(followed.missing);
            }
        }
    }
}

// Gives up what a segment acknowledges, and takes it.
fn follow(
    follower: &mut Follower,
    direction: Direction,
    sequence_number: u32,
    acknowledgment: Option<u32>,
    flags: SegmentFlags,
    payload: &[u8],
) -> Result<Followed, AllocError>
    ensures followed { (connection : Connection) → Follows follower.old connection →
        let a = arrival direction sequence_number acknowledgment flags payload.now in
        IfOk result (λ followed. IsFollowedAs follower.old.window connection a follower.new followed.segment followed.missing) }
    ensures window { follower.new.window ≡ follower.old.window }
{
    let number = number_of(flags, acknowledgment);
    let missing = give_up_all(follower, direction.other(), number);
    let ack = acknowledgment.is_some();
    match follower.add_in(direction, sequence_number, flags, ack, payload) {
        Ok(segment) => Ok(Followed { segment, missing }),
        Err(error) => Err(error),
    }
}

fn number_of(flags: SegmentFlags, acknowledgment: Option<u32>) -> Option<u32>
    ensures { result ≡ number_of flags acknowledgment }
{
    if flags.rst { None } else { acknowledgment }
}

// Gives up all bytes of a direction that a number says to be lost, if there is one, and returns how many.
fn give_up_all(follower: &mut Follower, direction: Direction, number: Option<u32>) -> u64
    ensures lost { (connection : Connection) → Follows follower.old connection
        → GivesUpAll follower.old.window connection direction number follower.new result }
    ensures window { follower.new.window ≡ follower.old.window }
{
    match number {
        Some(number) => give_up_by(follower, direction, number),
        None => 0,
    }
}

// The same by a number.
fn give_up_by(follower: &mut Follower, direction: Direction, number: u32) -> u64
    ensures lost { (connection : Connection) → Follows follower.old connection
        → GivesUpAll follower.old.window connection direction (Some number) follower.new result }
    ensures window { follower.new.window ≡ follower.old.window }
{
    let mut missing = 0u64;
    'gaps: for _ in 0..u64::MAX {
        match follower.give_up_in(direction, number) {
            Some(gap) => missing = missing.saturating_add(gap.end.saturating_sub(gap.start)),
            None => return missing,
        }
    }
    missing
}
