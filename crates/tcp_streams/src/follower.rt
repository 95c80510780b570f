//! A TCP connection, followed.

ghost use Rattle.std.specs.Prelude.{◌≡◌, ◌≤◌, ◌++◌, ◌∷◌, ◌*◌, [], List, IfOk, IfSome, MatchResult, OnErr, OnOk};
ghost use Rattle.std.specs.Prelude.{Bool, Option};
ghost use Rattle.tcp_streams.specs.declared.gaps.Gap.{Gap};
ghost use Rattle.tcp_streams.specs.Following.{Connection, DoesNothing, Follows, IsCounted, IsFollowed, IsTaken, ShowsSide, Side, Step};
ghost use Rattle.tcp_streams.specs.Following.{begins_anew, begins_anew_by, begins_elsewhere, buf_in, connection_after, connection_for};
ghost use Rattle.tcp_streams.specs.Following.{connection_with_counted, connection_without, counts, is_ended, opens};
ghost use Rattle.tcp_streams.specs.Following.{connection_segment, connection_with, control_with, is_of_segment, new_gap};
ghost use Rattle.tcp_streams.specs.Following.{gap_begins, held_size, lost_on, side_in, side_with, side_without, taken_of, with_side};
ghost use Rattle.tcp_streams.specs.Following.Step.{Comes, GivesUp};
ghost use Rattle.tcp_streams.specs.Segments.{segment};
ghost use Rattle.tcp_streams.specs.StreamBuf.{IsGapIn};

use super::conflicts::Conflicts;
use super::connection_state::{ConnectionState, Control};
use super::direction::Direction;
use super::gaps::Gap;
use super::refusal::Refused;
use super::segment_flags::SegmentFlags;
use super::stream_buf::StreamBuf;
use std::alloc::{AllocError, Global};

/// The connections between two endpoints, one after the other: the bytes of both directions, put
/// together as segments come.
///
/// Of each direction it keeps the last bytes that became available, so that others at their positions
/// count as conflicts, and it takes as many after them.
#[derive(Drop)]
pub struct Follower {
    alloc: Global,
    window: u32,
    state: ConnectionState,
    from_lower: StreamBuf,
    from_higher: StreamBuf,
}

/// What a segment does in the connection that is followed.
#[derive(Clone, Copy, Debug, PartialEq, Eq)]
pub struct FollowedSegment {
    /// It begins a new connection: it has SYN without ACK, and the one before ended by FIN of both
    /// endpoints or by RST, or began with another number. All of that one is gone.
    pub begins_anew: bool,
    /// Where the bytes of its direction begin that it makes available:
    /// [`StreamBuf::available_from`] returns them.
    pub position: u64,
    /// The first gap after it, if that begins elsewhere than the first gap before, or if there was
    /// none.
    pub gap: Option<Gap>,
    /// It begins a gap where there was none.
    pub begins_gap: bool,
    /// The positions of its bytes that differ from those that are kept.
    pub conflicts: Conflicts,
    /// How many of its bytes stand where a byte came already, or before all that are kept.
    pub repeated: u64,
    /// Why it is refused. It does nothing then, but that its flags change the state.
    pub refused: Option<Refused>,
}

impl Follower {
    /// No segment came. So many bytes of each direction are kept, and as many after them are taken.
    pub fn new(alloc: Global, window: u32) -> Follower
        ensures follows { Follows result (connection_after window []) }
        ensures window { result.window ≡ window }
    {
        let room = 2 * window as usize;
        Follower {
            alloc,
            window,
            state: ConnectionState::Unseen,
            from_lower: StreamBuf::new(alloc, room),
            from_higher: StreamBuf::new(alloc, room),
        }
    }

    /// How far the connection came, by the flags of all its segments, those that are refused included.
    pub fn state(&self) -> ConnectionState
        ensures { (connection : Connection) → Follows self.now connection → result ≡ connection.state }
    {
        self.state
    }

    /// How much it holds of both directions, as [`StreamBuf::size`] counts it.
    pub fn size(&self) -> u64
        ensures { result ≡ held_size self.now }
    {
        self.from_lower
            .size()
            .saturating_add(self.from_higher.size())
    }

    /// The bytes of a direction.
    pub fn buf(&self, direction: Direction) -> &StreamBuf
        ensures buf { result.now ≡ buf_in direction self.now }
        ensures shows { (connection : Connection) → Follows self.now connection
            → ShowsSide self.now.window result.now (side_in direction connection) }
    {
        match direction {
            Direction::FromLower => &self.from_lower,
            Direction::FromHigher => &self.from_higher,
        }
    }

    /// Whether a segment with this number and control begins a new connection: SYN without ACK after FIN of
    /// both endpoints or RST, or with another number than the one that its direction began with.
    pub fn begins_anew(&self, direction: Direction, sequence_number: u32, control: Control) -> bool
        ensures { (connection : Connection) → Follows self.now connection
            → result ≡ begins_anew connection direction sequence_number control }
    {
        begins_anew(
            self.state,
            self.buf(direction).start(),
            sequence_number,
            control,
        )
    }

    /// Takes a segment. If it begins a new connection, nothing of the one before is left. One with
    /// neither SYN, ACK nor RST changes nothing.
    ///
    /// Where there is no memory for it, it isn't taken; a new connection begins then too.
    pub fn add(
        &mut self,
        direction: Direction,
        sequence_number: u32,
        flags: SegmentFlags,
        ack: bool,
        payload: &[u8],
    ) -> Result<FollowedSegment, AllocError>
        ensures follows { (earlier : List Step)
            → Follows self.old (connection_after self.old.window earlier) →
            let s = connection_segment direction sequence_number flags ack payload.now in
            OnOk result (Follows self.new (connection_after self.old.window (earlier ++ Comes s ∷ []))) }
        ensures followed { (earlier : List Step)
            → Follows self.old (connection_after self.old.window earlier) →
            let s = connection_segment direction sequence_number flags ack payload.now in
            IfOk result (IsFollowed self.old.window (connection_after self.old.window earlier) s) }
        // The bytes that it makes available are there.
        ensures kept { (earlier : List Step) → Follows self.old (connection_after self.old.window earlier)
            → IfOk result (λ followed. (buf_in direction self.new).held.taken ≤ followed.position) }
        ensures err { (earlier : List Step)
            → Follows self.old (connection_after self.old.window earlier) → OnErr result (Follows self.new
            (connection_for (connection_after self.old.window earlier) direction sequence_number
            (control_with flags ack))) }
        ensures window { self.new.window ≡ self.old.window }
    {
        self.add_in(direction, sequence_number, flags, ack, payload)
    }

    // The same, in any connection.
    pub(crate) fn add_in(
        &mut self,
        direction: Direction,
        sequence_number: u32,
        flags: SegmentFlags,
        ack: bool,
        payload: &[u8],
    ) -> Result<FollowedSegment, AllocError>
        ensures follows { (earlier : Connection) → Follows self.old earlier →
            let s = connection_segment direction sequence_number flags ack payload.now in
            OnOk result (Follows self.new (connection_with self.old.window earlier s)) }
        ensures followed { (earlier : Connection) → Follows self.old earlier →
            let s = connection_segment direction sequence_number flags ack payload.now in
            IfOk result (IsFollowed self.old.window earlier s) }
        ensures kept { (earlier : Connection) → Follows self.old earlier
            → IfOk result (λ followed. (buf_in direction self.new).held.taken ≤ followed.position) }
        ensures err { (earlier : Connection) → Follows self.old earlier → OnErr result (Follows self.new
            (connection_for earlier direction sequence_number (control_with flags ack))) }
        ensures window { self.new.window ≡ self.old.window }
    {
        let control = Control::of_flags(flags.syn, ack, flags.fin, flags.rst);
        if counts(control) {
            self.take_counted(direction, sequence_number, flags, control, payload)
        } else {
            Ok(self.left_out(direction))
        }
    }

    // What a segment does that changes nothing.
    fn left_out(&self, direction: Direction) -> FollowedSegment
        ensures nothing { (connection : Connection) → Follows self.now connection
            → DoesNothing (side_in direction connection) result }
        ensures kept { (connection : Connection) → Follows self.now connection
            → (buf_in direction self.now).held.taken ≤ result.position }
    {
        FollowedSegment {
            begins_anew: false,
            position: self.buf(direction).available_end(),
            gap: None,
            begins_gap: false,
            conflicts: Conflicts::none(),
            repeated: 0,
            refused: None,
        }
    }

    // Takes a segment that counts, with this control.
    fn take_counted(
        &mut self,
        direction: Direction,
        sequence_number: u32,
        flags: SegmentFlags,
        control: Control,
        payload: &[u8],
    ) -> Result<FollowedSegment, AllocError>
        ensures follows { (earlier : Connection) → Follows self.old earlier
            → (ack : Bool) → control ≡ control_with flags ack →
            let s = connection_segment direction sequence_number flags ack payload.now in
            OnOk result (Follows self.new (connection_with_counted self.old.window earlier s)) }
        ensures followed { (earlier : Connection) → Follows self.old earlier
            → (ack : Bool) → control ≡ control_with flags ack →
            let s = connection_segment direction sequence_number flags ack payload.now in
            IfOk result (IsCounted self.old.window earlier s) }
        ensures kept { (earlier : Connection) → Follows self.old earlier
            → IfOk result (λ followed. (buf_in direction self.new).held.taken ≤ followed.position) }
        ensures err { (earlier : Connection) → Follows self.old earlier
            → OnErr result (Follows self.new (connection_for earlier direction sequence_number control)) }
        ensures window { self.new.window ≡ self.old.window }
    {
        let begins_anew = self.begin(direction, sequence_number, control);
        let state = self.state.after(direction, control);
        match self.take(direction, sequence_number, flags, payload) {
            Ok(taken) => {
                self.state = state;
                Ok(FollowedSegment {
                    begins_anew,
                    ..taken
                })
            }
            Err(error) => Err(error),
        }
    }

    /// Gives up the first bytes of a direction that are lost: they are missing, and the other endpoint
    /// acknowledges them by this number. It returns their positions. The bytes after them become
    /// available: [`StreamBuf::available_from`] returns them from the end of the gap on.
    ///
    /// Lost are the bytes of the first gap, if all of them are acknowledged. Where there is no gap the
    /// bytes before FIN are lost and, where FIN didn't come, those before the number, if that stands after
    /// the window. More may be lost, until it returns `None`.
    ///
    /// What comes later at their positions changes nothing, and bytes before them are compared no more.
    pub fn give_up(&mut self, direction: Direction, acknowledgment_number: u32) -> Option<Gap>
        ensures lost { (earlier : List Step) → Follows self.old (connection_after self.old.window earlier) →
            let side = side_in direction (connection_after self.old.window earlier) in
            (first : Option Gap) × IsGapIn side.segments first
            × (result ≡ lost_on self.old.window side first acknowledgment_number) }
        ensures follows { (earlier : List Step) → Follows self.old (connection_after self.old.window earlier)
            → Follows self.new (connection_after self.old.window (earlier ++ GivesUp direction result ∷ [])) }
        // The bytes after them are there.
        ensures kept { IfSome result (λ gap. (buf_in direction self.new).held.taken ≤ gap.end) }
        ensures window { self.new.window ≡ self.old.window }
    {
        self.give_up_in(direction, acknowledgment_number)
    }

    // The same, of any connection.
    pub(crate) fn give_up_in(&mut self, direction: Direction, number: u32) -> Option<Gap>
        ensures lost { (connection : Connection) → Follows self.old connection →
            let side = side_in direction connection in (first : Option Gap) × IsGapIn side.segments first
            × (result ≡ lost_on self.old.window side first number) }
        ensures follows { (connection : Connection) → Follows self.old connection
            → Follows self.new (connection_without connection direction result) }
        ensures kept { IfSome result (λ gap. (buf_in direction self.new).held.taken ≤ gap.end) }
        ensures window { self.new.window ≡ self.old.window }
    {
        match direction {
            Direction::FromLower => give_up(&mut self.from_lower, self.window, number),
            Direction::FromHigher => give_up(&mut self.from_higher, self.window, number),
        }
    }

    // Forgets the connection where a segment with this number and control begins a new one, and returns
    // whether it does.
    fn begin(&mut self, direction: Direction, sequence_number: u32, control: Control) -> bool
        ensures follows { (connection : Connection) → Follows self.old connection
            → Follows self.new (connection_for connection direction sequence_number control) }
        ensures anew { (connection : Connection) → Follows self.old connection
            → result ≡ begins_anew connection direction sequence_number control }
        ensures window { self.new.window ≡ self.old.window }
    {
        let begins_anew = self.begins_anew(direction, sequence_number, control);
        if begins_anew {
            *self = Follower::new(self.alloc, self.window);
        }
        begins_anew
    }

    // Takes a segment of this connection, without its flags.
    fn take(
        &mut self,
        direction: Direction,
        sequence_number: u32,
        flags: SegmentFlags,
        payload: &[u8],
    ) -> Result<FollowedSegment, AllocError>
        ensures taken { (connection : Connection) → Follows self.old connection →
            let s = segment sequence_number flags payload.now in
            let side = side_in direction connection in MatchResult result
            (λ taken. Follows self.new (with_side direction connection (side_with self.old.window side s))
            × IsTaken self.old.window side s taken × ((buf_in direction self.new).held.taken ≤ taken.position))
            (λ _. Follows self.new connection) }
        ensures window { self.new.window ≡ self.old.window }
        ensures state { self.new.state ≡ self.old.state }
    {
        match direction {
            Direction::FromLower => take(
                &mut self.from_lower,
                self.window,
                sequence_number,
                flags,
                payload,
            ),
            Direction::FromHigher => take(
                &mut self.from_higher,
                self.window,
                sequence_number,
                flags,
                payload,
            ),
        }
    }
}

fn is_ended(state: ConnectionState) -> bool
    ensures { result ≡ is_ended state }
{
    matches!(state, ConnectionState::Closed | ConnectionState::Reset)
}

fn opens(control: Control) -> bool
    ensures { result ≡ opens control }
{
    matches!(control, Control::Syn)
}

// Whether a segment has SYN, ACK or RST.
fn counts(control: Control) -> bool
    ensures { result ≡ counts control }
{
    !matches!(control, Control::Nothing)
}

// Whether position 0 has another number than this one.
fn begins_elsewhere(start: Option<u32>, number: u32) -> bool
    ensures { result ≡ begins_elsewhere start number }
{
    match start {
        Some(start) => start != number,
        None => false,
    }
}

// Whether SYN with this number begins a new connection, where position 0 of its direction has that one.
fn begins_anew(
    state: ConnectionState,
    start: Option<u32>,
    sequence_number: u32,
    control: Control,
) -> bool
    ensures { result ≡ begins_anew_by state start sequence_number control }
{
    opens(control) && (is_ended(state) || begins_elsewhere(start, sequence_number.wrapping_add(1)))
}

// Takes a segment of one direction, of which so many bytes are kept.
fn take(
    buf: &mut StreamBuf,
    kept: u32,
    sequence_number: u32,
    flags: SegmentFlags,
    payload: &[u8],
) -> Result<FollowedSegment, AllocError>
    ensures { (earlier : Side) → ShowsSide kept buf.old earlier →
        let s = segment sequence_number flags payload.now in MatchResult result
        (λ taken. ShowsSide kept buf.new (side_with kept earlier s) × IsTaken kept earlier s taken
        × (buf.new.held.taken ≤ taken.position))
        (λ _. ShowsSide kept buf.new earlier) }
{
    forget(buf, kept);
    let position = buf.available_end();
    let before = buf.gap();
    match buf.add(sequence_number, flags, payload) {
        Ok(added) => {
            let after = buf.gap();
            Ok(FollowedSegment {
                begins_anew: false,
                position,
                gap: new_gap(before, after),
                begins_gap: gap_begins(before, after),
                conflicts: added.conflicts,
                repeated: added.repeated,
                refused: None,
            })
        }
        Err(refused) if is_of_segment(refused) => Ok(FollowedSegment {
            begins_anew: false,
            position,
            gap: None,
            begins_gap: false,
            conflicts: Conflicts::none(),
            repeated: 0,
            refused: Some(refused),
        }),
        Err(_) => Err(AllocError),
    }
}

// Whether a segment is refused for what it is.
fn is_of_segment(refused: Refused) -> bool
    ensures { result ≡ is_of_segment refused }
{
    match refused {
        Refused::OutsideWindow { .. } | Refused::AfterFin { .. } | Refused::AfterReset => true,
        Refused::OutOfMemory => false,
    }
}

// Gives up bytes of one direction, of which so many bytes are kept.
fn give_up(buf: &mut StreamBuf, kept: u32, number: u32) -> Option<Gap>
    ensures lost { (earlier : Side) → ShowsSide kept buf.old earlier → (first : Option Gap)
        × IsGapIn earlier.segments first × (result ≡ lost_on kept earlier first number) }
    ensures shows { (earlier : Side) → ShowsSide kept buf.old earlier
        → ShowsSide kept buf.new (side_without earlier result) }
    ensures kept { IfSome result (λ gap. buf.new.held.taken ≤ gap.end) }
{
    forget(buf, kept);
    buf.give_up(number)
}

// Forgets the available bytes but the last ones, which are kept.
fn forget(buf: &mut StreamBuf, kept: u32)
    ensures shows { (earlier : Side) → ShowsSide kept buf.old earlier
        → ShowsSide kept buf.new earlier }
    ensures taken { (earlier : Side) → ShowsSide kept buf.old earlier
        → buf.new.held.taken ≡ taken_of kept earlier }
{
    let count = buf.available().len().saturating_sub(kept as usize);
    buf.consume(count);
}

// A gap that begins elsewhere than the one before, or where there was none.
fn new_gap(before: Option<Gap>, after: Option<Gap>) -> Option<Gap>
    ensures { result ≡ new_gap before after }
{
    match (before, after) {
        (Some(before), Some(after)) if before.start == after.start => None,
        (_, after) => after,
    }
}

// Whether there is a gap, and there was none.
fn gap_begins(before: Option<Gap>, after: Option<Gap>) -> bool
    ensures { result ≡ gap_begins before after }
{
    before.is_none() && after.is_some()
}
