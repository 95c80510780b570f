//! The buffer in which one datagram is reassembled.

ghost use Rattle.std.specs.Prelude.{◌≡◌, ◌+◌, ◌*◌, ◌<◌, ◌≤◌, ◌↔◌, ◌&&◌, List, [], ◌++◌, ◌∷◌, if◌then◌else◌, length};
ghost use Rattle.std.specs.Prelude.{map, max, nat_eq, vec_capacity, is_some, not, false, None, Some, Ok, Err};
ghost use Rattle.std.specs.Prelude.{OnOk, OnErr, IfOk, IfErr, IfSome, IsOk, IsTrue};
ghost use Rattle.std.specs.Cmp.Lexicographic.{pointwise};
ghost use Rattle.std.specs.Cmp.Rules.{comparing};
ghost use Rattle.std.specs.Option.{option_eq};
ghost use Rattle.std.specs.Ordering.{on, eq_of_both};
ghost use Rattle.std.proofs.Common.{rules};
ghost use Rattle.etherparse.specs.declared.defrag.overlap_rule.OverlapRule.TheVariants.{Overwrites, Refuses};
ghost use Rattle.etherparse.specs.declared.defrag.stored_fragment.Location.TheVariants.{At};
ghost use Rattle.etherparse.specs.Fragments.{Fragment, fragment, with_all_accepted, end_of, named_end, refusal_at};
ghost use Rattle.etherparse.specs.Fragments.{accepted_count, IsRepeat, refusal_of, with_accepted, is_complete};
ghost use Rattle.etherparse.specs.Fragments.{Complete};
ghost use Rattle.etherparse.specs.IpDefragBuf.{Contents, Shows, ShowsAccepted, IsSound, AnswersAdd, Stops};
ghost use Rattle.etherparse.specs.IpDefragBuf.{unless_refused, is_whole, rule_of, empty_of, left_after, none_stored};
ghost use Rattle.etherparse.specs.IpDefragBuf.{FindsLocation, HasRoom, SameButRoom};
ghost use Rattle.etherparse.specs.IpDefragError.{is_out_of_memory};
ghost use Rattle.etherparse.specs.IpFragRange.{is_one_from_zero, same_range};
ghost use Rattle.etherparse.specs.StoredFragment.{emptied, listed_in, stored_of, same_stored};
ghost use Rattle.etherparse.specs.FragmentBytes.{text_of};
ghost use Rattle.etherparse.specs.Room.{NoLessRoom, new_room, room_in, wanted_end};

use super::datagram_bytes::DatagramBytes;
use super::overlap_rule::OverlapRule;
use super::sections::add_range;
use super::stored_fragment::{
    Location, StoredFragment, StoredFragments, clear_stored, copy_stored, find_location,
    insert_stored, reserve_stored,
};
use super::{IpDefragError, IpFragRange, MAX_IP_DEFRAG_LEN_U16};
use ep_base::{IpFragOffset, IpNumber};
use std::alloc::{AllocError, Global};
use std::marker::Model;

/// The fragments of one datagram, put together as they come, beside the number of the protocol of
/// its payload, or nothing where that is known elsewhere.
/// Its bytes are a `Vec<u8>`; in a pool, where nobody sees them before the datagram is complete, they
/// may be written late.
///
/// Bytes of a later fragment overwrite those of an earlier one (RFC 791, section 3.2); a buffer
/// made by [`IpDefragBuf::new_refusing_overlap`] refuses a fragment that overlaps another, and
/// drops the datagram (RFC 5722; RFC 8200, section 4.5).
#[derive(Debug, Drop)]
pub struct IpDefragBuf<Number = IpNumber, Bytes: DatagramBytes = Vec<u8>> {
    ip_number: Number,
    pub(super) data: Bytes,
    pub(super) sections: Vec<IpFragRange>,
    end: Option<u16>,
    // Where overlaps are refused: the accepted fragments in order, each once.
    stored_fragments: Option<StoredFragments>,
}

impl<Number, Bytes: DatagramBytes> Model for IpDefragBuf<Number, Bytes> {
    ghost Value = { Contents Number };

    ghost view = { λ buf. record {
      ip_number = buf.ip_number;
      bytes = Bytes.shown buf.data;
      sections = buf.sections.items;
      end = buf.end;
      stored_fragments = listed_in buf.stored_fragments;
      room = room_in (Bytes.capacity buf.data) buf.sections buf.stored_fragments;
    } };

    ghost invariant = { λ buf. IsSound record {
      ip_number = buf.ip_number;
      bytes = Bytes.shown buf.data;
      sections = buf.sections.items;
      end = buf.end;
      stored_fragments = listed_in buf.stored_fragments;
      room = room_in (Bytes.capacity buf.data) buf.sections buf.stored_fragments;
    } };
}

impl PartialEq for IpDefragBuf {
    ghost eq = { eq_of_both (on (λ buf. buf.ip_number.0) nat_eq)
        (eq_of_both (on (λ buf. buf.bytes) (pointwise nat_eq))
        (eq_of_both (on (λ buf. buf.sections) (pointwise same_range))
        (eq_of_both (on (λ buf. buf.end) (option_eq nat_eq))
        (on (λ buf. buf.stored_fragments) (option_eq (pointwise same_stored)))))) };

    ghost laws = { Prim.search (comparing, rules) depth 14 };

    fn eq(&self, other: &Self) -> bool {
        self.ip_number == other.ip_number
            && self.data == other.data
            && self.sections == other.sections
            && self.end == other.end
            && self.stored_fragments == other.stored_fragments
    }
}

impl Eq for IpDefragBuf {
    ghost laws = { Prim.search (comparing, rules) depth 14 };
}

// For how many bytes beside those that are there a fragment reserves capacity. The first one, where
// more follow it, reserves it for a second one of its length too: a datagram of two fragments, the
// second of which is no longer, is never moved then.
fn missing_room(there: usize, stored_fragment: StoredFragment) -> usize
    ensures room { there + result ≡ max there (wanted_end there stored_fragment) }
    ensures enough { stored_fragment.end ≤ there + result }
    ensures fits { there ≤ 65535 → there + result ≤ 65535 }
    ensures twice { result ≤ 2 * stored_fragment.end }
{
    let end = if there == 0 && stored_fragment.more_fragments {
        let len = stored_fragment.end.saturating_sub(stored_fragment.start);
        stored_fragment.end.saturating_add(len)
    } else {
        stored_fragment.end
    };
    usize::from(end).saturating_sub(there)
}

// Whether an end is known, and there is one section, from 0 on.
fn is_one_whole(end: Option<u16>, sections: &[IpFragRange]) -> bool
    ensures { result ≡ (is_some end && is_one_from_zero sections.now) }
{
    end.is_some() && matches!(sections, [section] if section.start == 0)
}

/// Where a fragment ends, in bytes, or why every buffer refuses it whose datagram has this end, if
/// one is named yet. Overlaps aren't looked for.
pub fn checked_end(
    named_end: Option<u16>,
    offset: IpFragOffset,
    more_fragments: bool,
    bytes: &[u8],
) -> Result<u16, IpDefragError>
    ensures { let f = fragment offset more_fragments bytes.now in
        result ≡ unless_refused (refusal_at named_end f) (end_of f) }
{
    let too_big = IpDefragError::SegmentTooBig {
        offset,
        payload_len: bytes.len(),
        max: MAX_IP_DEFRAG_LEN_U16,
    };
    let Ok(len) = u16::try_from(bytes.len()) else {
        return Err(too_big);
    };
    let Some(end) = offset.byte_offset().checked_add(len) else {
        return Err(too_big);
    };
    if more_fragments && len % 8 != 0 {
        return Err(IpDefragError::UnalignedFragmentPayloadLen {
            offset,
            payload_len: bytes.len(),
        });
    }
    if let Some(previous_end) = named_end {
        if previous_end < end || (!more_fragments && end != previous_end) {
            return Err(IpDefragError::ConflictingEnd {
                previous_end,
                conflicting_end: end,
            });
        }
    }
    Ok(end)
}

// No fragment was taken: a refused one is skipped, unless it was refused for lack of memory.
fn pass_over(error: IpDefragError) -> Result<bool, IpDefragError>
    ensures { result ≡ (if is_out_of_memory error then Err error else Ok false) }
{
    match error {
        IpDefragError::AllocationFailure { len } => Err(IpDefragError::AllocationFailure { len }),
        _ => Ok(false),
    }
}

impl<Number: Drop> IpDefragBuf<Number> {
    /// An empty buffer for a datagram of this protocol, over memory that is there already. Both
    /// lists are emptied.
    pub fn new(ip_number: Number, data: Vec<u8>, sections: Vec<IpFragRange>) -> IpDefragBuf<Number>
        ensures empty { Shows result [] }
        ensures value { result ≡ empty_of ip_number None (new_room «data» sections None) }
    {
        IpDefragBuf::empty(ip_number, data, sections, None)
    }

    /// The same, of a buffer that refuses fragments that overlap: for IPv6 (RFC 5722; RFC 8200,
    /// section 4.5). It takes no memory.
    pub fn new_refusing_overlap(
        alloc: Global,
        ip_number: Number,
        data: Vec<u8>,
        sections: Vec<IpFragRange>,
    ) -> IpDefragBuf<Number>
        ensures empty { Shows result [] }
        ensures value { result ≡ empty_of ip_number (Some []) (new_room «data» sections (Some [])) }
    {
        IpDefragBuf::empty(ip_number, data, sections, Some(StoredFragments::new(alloc)))
    }

    /// An empty buffer for a datagram whose fragments overlap by this rule.
    pub fn of_rule(
        rule: OverlapRule,
        alloc: Global,
        ip_number: Number,
        data: Vec<u8>,
        sections: Vec<IpFragRange>,
    ) -> IpDefragBuf<Number>
        ensures empty { Shows result [] }
        ensures ip_number { result.ip_number ≡ ip_number }
        ensures rule { rule_of result ≡ rule }
        ensures value { result
            ≡ empty_of ip_number (none_stored rule) (new_room «data» sections (none_stored rule)) }
    {
        match rule {
            OverlapRule::Overwrites => IpDefragBuf::new(ip_number, data, sections),
            OverlapRule::Refuses => {
                IpDefragBuf::new_refusing_overlap(alloc, ip_number, data, sections)
            }
        }
    }

    /// The bytes that are there, with 0 at each offset whose byte is missing.
    pub fn data(&self) -> &Vec<u8>
        ensures bytes { result.now.items ≡ self.now.bytes }
        ensures room { vec_capacity result.now ≡ self.now.room.for_bytes }
    {
        &self.data
    }

    /// The bytes and the sections, whose memory may serve another datagram.
    pub fn take_bufs(self) -> (Vec<u8>, Vec<IpFragRange>)
        ensures bytes { result.0.items ≡ self.bytes }
        ensures sections { result.1.items ≡ self.sections }
        ensures text { (fs : List Fragment) → Shows self fs → Complete fs
            → result.0.items ≡ text_of fs }
        ensures short { length result.0.items ≤ 65535 }
        ensures room { vec_capacity result.0 ≡ self.room.for_bytes }
        ensures sections_room { vec_capacity result.1 ≡ self.room.for_sections }
    {
        (self.data, self.sections)
    }
}

impl<Number: Drop, Bytes: DatagramBytes + Drop> IpDefragBuf<Number, Bytes> {
    pub(super) fn empty(
        ip_number: Number,
        mut data: Bytes,
        mut sections: Vec<IpFragRange>,
        stored_fragments: Option<StoredFragments>,
    ) -> IpDefragBuf<Number, Bytes>
        requires { IfSome (listed_in stored_fragments) (λ ms. ms ≡ []) }
        ensures empty { Shows result [] }
        ensures value { result
            ≡ empty_of ip_number (listed_in stored_fragments) (room_in (Bytes.capacity «data») sections stored_fragments) }
    {
        data.clear();
        sections.clear();
        IpDefragBuf {
            ip_number,
            data,
            sections,
            end: None,
            stored_fragments,
        }
    }

    /// How many bytes it holds: the greatest end of its fragments.
    pub(crate) fn data_len(&self) -> usize
        ensures len { result ≡ length self.now.bytes }
        ensures short { result ≤ 65535 }
    {
        self.data.len()
    }

    /// The ranges of bytes that are there, in no stated order. Ranges that follow one another are
    /// one.
    pub fn sections(&self) -> &Vec<IpFragRange>
        ensures sections { result.now.items ≡ self.now.sections }
        ensures room { vec_capacity result.now ≡ self.now.room.for_sections }
    {
        &self.sections
    }

    /// The end of the datagram, in bytes, once a last fragment named it.
    pub fn end(&self) -> Option<u16>
        ensures { result ≡ self.now.end }
    {
        self.end
    }

    /// What becomes of a fragment that overlaps those that are there.
    pub fn overlap_rule(&self) -> OverlapRule
        ensures { result ≡ rule_of self.now }
    {
        match self.stored_fragments {
            Some(_) => OverlapRule::Refuses,
            None => OverlapRule::Overwrites,
        }
    }

    /// Takes a fragment of the datagram, whose bytes overwrite those that are there. A last one
    /// names the end of the datagram and cuts the data to it.
    ///
    /// It is refused, and nothing changes, where it ends after 65535 bytes; else where more
    /// fragments follow and its length is no multiple of 8; else where the end of the datagram is
    /// known and it ends after it, or is a last one with another end. Else a buffer that refuses
    /// overlaps takes a fragment that it took already, with the same offset, flag and bytes, and
    /// nothing changes; it refuses any other one that covers an offset of a fragment that is there,
    /// and a last one that ends at or before such an offset, **and is empty then**, as it was made.
    /// Else a fragment is refused where no memory is left for it, and nothing changes. The first
    /// one, where more follow it, reserves memory for a second one of its length too.
    pub fn add(
        &mut self,
        offset: IpFragOffset,
        more_fragments: bool,
        bytes: &[u8],
    ) -> Result<(), IpDefragError>
        ensures accepted { (fs : List Fragment) → Shows self.old fs →
            let f = fragment offset more_fragments bytes.now in
            OnOk result (Shows self.new (fs ++ f ∷ [])) }
        ensures refused { (fs : List Fragment) → Shows self.old fs →
            let f = fragment offset more_fragments bytes.now in
            AnswersAdd (refusal_of (rule_of self.old) fs f) (end_of f) result }
        ensures outcome { let f = fragment offset more_fragments bytes.now in
            rule_of self.old ≡ Overwrites
            → AnswersAdd (refusal_at self.old.end f) (end_of f) result }
        // A fragment that is there already takes no memory.
        ensures repeat { (fs : List Fragment) → Shows self.old fs →
            let f = fragment offset more_fragments bytes.now in
            rule_of self.old ≡ Refuses → IsRepeat fs f → refusal_at (named_end fs) f ≡ None
            → (result ≡ Ok tt) × (self.new ≡ self.old) }
        ensures err { IfErr result (λ e. SameButRoom (left_after e self.old) self.new) }
        // Out of memory is answered only where there was no capacity, and what is there stays.
        ensures succeeds { HasRoom self.old (fragment offset more_fragments bytes.now)
            → IfErr result (λ e. is_out_of_memory e ≡ false) }
        ensures room { NoLessRoom self.old.room self.new.room }
        ensures ip_number { self.new.ip_number ≡ self.old.ip_number }
        ensures rule { rule_of self.new ≡ rule_of self.old }
    {
        let end = checked_end(self.end, offset, more_fragments, bytes)?;
        let stored_fragment = StoredFragment {
            start: offset.byte_offset(),
            end,
            more_fragments,
        };
        match self.find(stored_fragment, bytes) {
            Location::Repeat => Ok(()),
            Location::Clash => {
                self.clear();
                Err(IpDefragError::OverlappingFragment {
                    offset,
                    payload_len: bytes.len(),
                })
            }
            Location::At(index) => self.insert(index, offset, stored_fragment, bytes),
        }
    }

    // Looks for a fragment among those that are there.
    fn find(&self, stored_fragment: StoredFragment, bytes: &[u8]) -> Location
        ensures { FindsLocation self.now stored_fragment bytes.now result }
    {
        match &self.stored_fragments {
            Some(stored_fragments) => find_location(
                stored_fragments.as_slice(),
                &self.sections,
                &self.data,
                stored_fragment,
                bytes,
            ),
            None => Location::At(0),
        }
    }

    // Drops the fragments.
    fn clear(&mut self)
        ensures { self.new
            ≡ empty_of self.old.ip_number (emptied self.old.stored_fragments) self.old.room }
    {
        self.data.clear();
        self.sections.clear();
        self.end = None;
        clear_stored(&mut self.stored_fragments);
    }

    // Takes a fragment that isn't refused and is stored at this index.
    fn insert(
        &mut self,
        index: usize,
        offset: IpFragOffset,
        stored_fragment: StoredFragment,
        bytes: &[u8],
    ) -> Result<(), IpDefragError>
        requires stored_fragment { stored_fragment ≡ stored_of (fragment offset stored_fragment.more_fragments bytes.now) }
        requires unrefused { let f = fragment offset stored_fragment.more_fragments bytes.now in
            refusal_at self.old.end f ≡ None }
        requires location { FindsLocation self.old stored_fragment bytes.now (At index) }
        ensures accepted { (fs : List Fragment) → Shows self.old fs →
            let f = fragment offset stored_fragment.more_fragments bytes.now in
            OnOk result (Shows self.new (fs ++ f ∷ [])) }
        ensures memory { IfErr result (λ e. e ≡ IpDefragError.AllocationFailure stored_fragment.end) }
        ensures err { OnErr result (SameButRoom self.old self.new) }
        ensures succeeds { HasRoom self.old (fragment offset stored_fragment.more_fragments bytes.now)
            → IsOk result }
        ensures room { NoLessRoom self.old.room self.new.room }
        ensures ip_number { self.new.ip_number ≡ self.old.ip_number }
        ensures rule { rule_of self.new ≡ rule_of self.old }
    {
        // All growths come before any change.
        let len = usize::from(stored_fragment.end);
        let missing = missing_room(self.data.len(), stored_fragment);
        if self.data.try_reserve(missing).is_err()
            || self.sections.try_reserve(1).is_err()
            || !reserve_stored(&mut self.stored_fragments)
        {
            return Err(IpDefragError::AllocationFailure { len });
        }

        self.data
            .write_at(usize::from(stored_fragment.start), bytes);
        add_range(
            &mut self.sections,
            IpFragRange {
                start: stored_fragment.start,
                end: stored_fragment.end,
            },
        );
        insert_stored(&mut self.stored_fragments, index, stored_fragment);
        if !stored_fragment.more_fragments {
            self.data.truncate(len);
            self.end = Some(stored_fragment.end);
        }
        Ok(())
    }

    /// Whether all bytes of the datagram are there, and its end is known.
    pub fn is_complete(&self) -> bool
        ensures shows_accepted { ShowsAccepted self.now }
        ensures test { result ≡ is_whole self.now }
        ensures decided { (fs : List Fragment) → Shows self.now fs → result ≡ is_complete fs }
        ensures text { (fs : List Fragment) → Shows self.now fs → IsTrue result
            → self.now.bytes ≡ text_of fs }
        ensures complete { (fs : List Fragment) → Shows self.now fs → IsTrue result ↔ Complete fs }
    {
        is_one_whole(self.end, &self.sections)
    }
}

impl IpDefragBuf {
    /// The number of the protocol of the datagram's payload.
    pub fn ip_number(&self) -> IpNumber
        ensures { result ≡ self.now.ip_number }
    {
        self.ip_number
    }

    /// A buffer that is equal to this one, in memory of its own. An empty one takes none.
    pub fn try_clone(&self) -> Result<IpDefragBuf, AllocError>
        ensures copy { IfOk result (SameButRoom self.now) }
        ensures empty { self.now.bytes ≡ [] → self.now.sections ≡ []
            → self.now.stored_fragments ≡ emptied self.now.stored_fragments → IsOk result }
    {
        let mut data = Vec::with_capacity(self.data.allocator().clone()?, self.data.len())?;
        data.extend_from_slice(&self.data)?;
        let mut sections = Vec::with_capacity(
            self.sections.allocator().clone()?,
            self.sections.len(),
        )?;
        sections.extend_from_slice(&self.sections)?;
        let stored_fragments = copy_stored(&self.stored_fragments)?;
        Ok(IpDefragBuf {
            ip_number: self.ip_number,
            data,
            sections,
            end: self.end,
            stored_fragments,
        })
    }

    /// Takes fragments in order, skips those that are refused, and returns how many it took. It
    /// stops at the first one that finds no memory, with the buffer as it was before that fragment.
    /// One that overlaps where that is refused is skipped too; the following ones go into the empty
    /// buffer.
    pub fn add_all(
        &mut self,
        fragments: &[(IpFragOffset, bool, &[u8])],
    ) -> Result<usize, IpDefragError>
        ensures ok { (fs : List Fragment) → Shows self.old fs →
            OnOk result (Shows self.new (with_all_accepted (rule_of self.old) fs
            (map (λ f. fragment f.0 f.1 f.2.now) fragments.now))) }
        ensures count { (fs : List Fragment) → Shows self.old fs →
            IfOk result (λ count. count ≡ accepted_count (rule_of self.old) fs
            (map (λ f. fragment f.0 f.1 f.2.now) fragments.now)) }
        ensures cover { (fs : List Fragment) → Shows self.old fs →
            OnOk result (IsTrue (is_whole self.new)
            ↔ Complete (with_all_accepted (rule_of self.old) fs
            (map (λ f. fragment f.0 f.1 f.2.now) fragments.now))) }
        ensures err { (fs : List Fragment) → Shows self.old fs →
            IfErr result (Stops (rule_of self.old) fs
            (map (λ f. fragment f.0 f.1 f.2.now) fragments.now) self.new) }
        ensures ip_number { self.new.ip_number ≡ self.old.ip_number }
        ensures rule { rule_of self.new ≡ rule_of self.old }
        ensures room { NoLessRoom self.old.room self.new.room }
    {
        let mut count = 0;
        for &(offset, more_fragments, bytes) in fragments {
            if self.accept(offset, more_fragments, bytes)? {
                count += 1;
            }
        }
        Ok(count)
    }

    // Takes a fragment unless it is refused, and returns whether it did.
    fn accept(
        &mut self,
        offset: IpFragOffset,
        more_fragments: bool,
        bytes: &[u8],
    ) -> Result<bool, IpDefragError>
        ensures shows { (fs : List Fragment) → Shows self.old fs →
            OnOk result (Shows self.new
            (with_accepted (rule_of self.old) fs (fragment offset more_fragments bytes.now))) }
        ensures taken { (fs : List Fragment) → Shows self.old fs →
            IfOk result (λ taken. is_some
            (refusal_of (rule_of self.old) fs (fragment offset more_fragments bytes.now))
            ≡ not taken) }
        ensures err { OnErr result (SameButRoom self.old self.new) }
        ensures room { NoLessRoom self.old.room self.new.room }
        ensures memory { (fs : List Fragment) → Shows self.old fs
            → let f = fragment offset more_fragments bytes.now in
            IfErr result (λ e. (refusal_of (rule_of self.old) fs f ≡ None)
            × (e ≡ IpDefragError.AllocationFailure (end_of f))) }
        ensures ip_number { self.new.ip_number ≡ self.old.ip_number }
        ensures rule { rule_of self.new ≡ rule_of self.old }
    {
        match self.add(offset, more_fragments, bytes) {
            Ok(()) => Ok(true),
            Err(error) => pass_over(error),
        }
    }
}

/// Every buffer shows some fragments, each of which was accepted after those before it.
pub fn every_buffer_shows_its_fragments(buf: &IpDefragBuf)
    ensures { ShowsAccepted buf.now }
{
    // For the proof alone: it opens the value, of which the type's invariant holds.
    let _sections = &buf.sections;
}
