//! The sections of a datagram, in order.

ghost use Rattle.std.specs.Prelude.{◌≡◌, ◌<◌, ◌≤◌, ◌↔◌, vec_len, vec_capacity, length, IsTrue};
ghost use Rattle.std.specs.List.{remove_range};
ghost use Rattle.etherparse.specs.IpFragRange.{AddsRange, AreOrdered, EndBefore, SharesWith, StartBy};

use super::IpFragRange;

// How many sections end before a number. The result of a comparison is added and not branched on,
// since a branch would be mispredicted often.
fn count_before(sections: &[IpFragRange], start: u16) -> usize
    requires { AreOrdered sections.now }
    ensures bound { result ≤ length sections.now }
    ensures before { EndBefore sections.now start result }
{
    if sections.is_empty() {
        return 0;
    }
    let mut bits = sections.len().ilog2();
    let half = 1 << bits;
    let mut count = if sections[half - 1].end < start {
        sections.len() - half
    } else {
        0
    };
    while bits > 0 {
        bits -= 1;
        let half = 1 << bits;
        count += usize::from(sections[count + half - 1].end < start) << bits;
    }
    count + usize::from(sections[count].end < start)
}

// How many sections start by the end of a range. Of those from `first` on, which don't end before
// it, few do.
fn count_up_to(sections: &[IpFragRange], range: IpFragRange, first: usize) -> usize
    requires ordered { AreOrdered sections.now }
    requires range { range.start ≤ range.end }
    requires within { first ≤ length sections.now }
    requires first { EndBefore sections.now range.start first }
    ensures bound { result ≤ length sections.now }
    ensures up_to { StartBy sections.now range.end result }
{
    let mut count = first;
    while count < sections.len() && sections[count].start <= range.end {
        count += 1;
    }
    count
}

// Whether an offset of a range is one of a section, too. Most ranges lie after all sections.
// Between the first section that doesn't end before it and the first that shares an offset there
// are only sections of fragments without bytes.
pub(crate) fn shares_offset(sections: &[IpFragRange], range: IpFragRange) -> bool
    requires { AreOrdered sections.now }
    ensures { IsTrue result ↔ SharesWith sections.now range }
{
    let len = sections.len();
    if len > 0 && sections[len - 1].end <= range.start {
        return false;
    }
    let mut at = count_before(sections, range.start);
    while at < sections.len() && sections[at].start < range.end {
        let section = sections[at];
        if section.start.max(range.start) < section.end.min(range.end) {
            return true;
        }
        at += 1;
    }
    false
}

// Removes the sections from one index on, up to another. One or none are removed most often.
fn remove_between(sections: &mut Vec<IpFragRange>, from: usize, to: usize)
    requires ordered { from ≤ to }
    requires within { to ≤ vec_len sections.old }
    ensures items { sections.new.items ≡ remove_range sections.old.items from to }
    ensures room { vec_capacity sections.new ≡ vec_capacity sections.old }
{
    if to - from == 1 {
        sections.remove(from);
    } else if from < to {
        sections.drain(from..to);
    }
}

// Adds a range by a search for the sections that it touches, and joins it and them to one. There is
// capacity for one more section. Not inlined, since most ranges need no search.
#[inline(never)]
fn insert_range(sections: &mut Vec<IpFragRange>, range: IpFragRange)
    requires room { vec_len sections.old < vec_capacity sections.old }
    requires in_order { AreOrdered sections.old.items }
    requires range { range.start ≤ range.end }
    ensures adds { AddsRange sections.old.items sections.new.items range }
    ensures ordered { AreOrdered sections.new.items }
    ensures room { vec_capacity sections.old ≤ vec_capacity sections.new }
{
    let first = count_before(sections, range.start);
    let following = count_up_to(sections, range, first);
    if first == following {
        sections.insert(first, range).unwrap();
    } else {
        let joined = range.hull(sections[first]).hull(sections[following - 1]);
        sections[first] = joined;
        remove_between(sections, first + 1, following);
    }
}

// Adds a range to sections that are in order. Most ranges start where the last section ends, or end
// where the first one starts: these make one section longer, and no search is needed.
#[inline(always)]
pub(crate) fn add_range(sections: &mut Vec<IpFragRange>, range: IpFragRange)
    requires room { vec_len sections.old < vec_capacity sections.old }
    requires in_order { AreOrdered sections.old.items }
    requires range { range.start ≤ range.end }
    ensures adds { AddsRange sections.old.items sections.new.items range }
    ensures ordered { AreOrdered sections.new.items }
    ensures room { vec_capacity sections.old ≤ vec_capacity sections.new }
{
    let len = sections.len();
    if len > 0 {
        let (first, last) = (sections[0], sections[len - 1]);
        if last.contains(range.start) {
            sections[len - 1] = last.hull(range);
            return;
        }
        if range.start <= first.start && first.contains(range.end) {
            sections[0] = first.hull(range);
            return;
        }
    }
    insert_range(sections, range);
}
