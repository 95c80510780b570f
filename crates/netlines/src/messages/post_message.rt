//! Frames made of a message.
ghost use Rattle.std.specs.Prelude.{◌≡◌, ◌≤◌, ◌/◌, length, map, None, IfOk, IsOk, IsOkUnless, MatchOption, OnOk};
ghost use Rattle.netlines.specs.Posted.{is_fragmented, fragments_from, posted_frames};
ghost use Rattle.netlines.specs.PostRefusal.{bad_cut, is_good_cut, is_icmp_of_other_version, long_fragment};
ghost use Rattle.netlines.specs.PostRefusal.{long_fragment_from, names_extension, post_refusal, room};

use crate::messages::posted_frame::frame;
use crate::{IpFragVersionSpecId, Letter, PostError};
use etherparse::{IpFragOffset, IpNumber};
use std::alloc::{AllocError, Global};

/// The greatest length of a message in bytes.
const MESSAGE_LIMIT: usize = 65535;

/// The frames of Ethernet II in which a message is sent as a letter says, cut at these offsets in
/// bytes: one for each fragment. Their IP packets have 64 hops and no options, over IPv4
/// don't-fragment is unset, over IPv6 only a message that is cut has an extension header, the
/// fragment header, and nothing follows the fragment.
///
/// Where several refusals apply, the first one in the order of [`PostError`] is returned.
pub fn post(
    alloc: Global,
    letter: &Letter,
    message: &[u8],
    cuts: &[u32],
) -> Result<Vec<Vec<u8>>, PostError>
    // Refused where a refusal applies, and else only where it is out of memory.
    ensures refusal { MatchOption (post_refusal letter.now message.now cuts.now)
        (IsOkUnless result PostError.Memory) (λ e. result ≡ Err e) }
    ensures frames { IfOk result (λ frames. map (λ frame. frame.items) frames.items
        ≡ posted_frames letter.now message.now cuts.now) }
{
    refuse(letter, message, cuts)?;
    Ok(frames(alloc, letter, message, cuts)?)
}

// The first refusal that applies.
fn refuse(letter: &Letter, message: &[u8], cuts: &[u32]) -> Result<(), PostError>
    ensures refusal { MatchOption (post_refusal letter.now message.now cuts.now) (IsOk result)
        (λ e. result ≡ Err e) }
    ensures cuts { OnOk result (bad_cut (length message.now) cuts.now ≡ None) }
    ensures short { OnOk result (length message.now ≤ 65535) }
    ensures fits { OnOk result (long_fragment letter.now.version_id message.now cuts.now ≡ None) }
{
    if let Some(index) = bad_cut(message.len(), cuts) {
        return Err(PostError::Cuts { index });
    }
    if message.len() > MESSAGE_LIMIT {
        return Err(PostError::MessageTooLong);
    }
    if names_extension(&letter.version_id, letter.number) {
        return Err(PostError::ExtensionNumber);
    }
    if is_icmp_of_other_version(&letter.version_id, letter.number) {
        return Err(PostError::IcmpOfOtherVersion);
    }
    let room = room(&letter.version_id, is_fragmented(cuts));
    if let Some(index) = long_fragment(room, message, cuts) {
        return Err(PostError::PieceTooLong { index });
    }
    Ok(())
}

// The index of the first cut that can't be made.
fn bad_cut(len: usize, cuts: &[u32]) -> Option<usize>
    ensures { result ≡ bad_cut len cuts.now }
{
    let mut before = 0usize;
    let mut index = 0usize;
    for cut in cuts {
        let cut = *cut as usize;
        if !is_good_cut(len, before, cut) {
            return Some(index);
        }
        before = cut;
        index += 1;
    }
    None
}

fn is_good_cut(len: usize, before: usize, cut: usize) -> bool
    ensures { result ≡ is_good_cut len before cut }
{
    cut % 8 == 0 && before < cut && cut < len
}

// The index of the first fragment of more bytes than these.
fn long_fragment(room: usize, message: &[u8], cuts: &[u32]) -> Option<usize>
    requires { bad_cut (length message.now) cuts.now ≡ None }
    ensures { result ≡ long_fragment_from room 0 (fragments_from 0 cuts.now message.now) }
{
    let mut rest = message;
    let mut start = 0usize;
    let mut index = 0usize;
    for cut in cuts {
        let end = *cut as usize;
        let (posted_fragment, following) = rest.split_at(end - start);
        if posted_fragment.len() > room {
            return Some(index);
        }
        rest = following;
        start = end;
        index += 1;
    }
    if rest.len() > room { Some(index) } else { None }
}

fn names_extension(version_id: &IpFragVersionSpecId, number: IpNumber) -> bool
    ensures { result ≡ names_extension version_id.now number.0 }
{
    match version_id {
        IpFragVersionSpecId::Ipv4 { .. } => number == IpNumber::AUTHENTICATION_HEADER,
        IpFragVersionSpecId::Ipv6 { .. } => matches!(
            number,
            IpNumber::IPV6_HEADER_HOP_BY_HOP
                | IpNumber::IPV6_ROUTE_HEADER
                | IpNumber::IPV6_FRAGMENTATION_HEADER
                | IpNumber::AUTHENTICATION_HEADER
                | IpNumber::IPV6_DESTINATION_OPTIONS
        ),
    }
}

fn is_icmp_of_other_version(version_id: &IpFragVersionSpecId, number: IpNumber) -> bool
    ensures { result ≡ is_icmp_of_other_version version_id.now number.0 }
{
    match version_id {
        IpFragVersionSpecId::Ipv4 { .. } => number == IpNumber::IPV6_ICMP,
        IpFragVersionSpecId::Ipv6 { .. } => number == IpNumber::ICMP,
    }
}

// The greatest number of bytes that fit a packet after its headers.
fn room(version_id: &IpFragVersionSpecId, is_fragmented: bool) -> usize
    ensures { result ≡ room version_id.now is_fragmented }
{
    match version_id {
        IpFragVersionSpecId::Ipv4 { .. } => 65515,
        IpFragVersionSpecId::Ipv6 { .. } if is_fragmented => 65527,
        IpFragVersionSpecId::Ipv6 { .. } => 65535,
    }
}

fn is_fragmented(cuts: &[u32]) -> bool
    ensures { result ≡ is_fragmented cuts.now }
{
    !cuts.is_empty()
}

// A frame for each fragment.
fn frames(
    alloc: Global,
    letter: &Letter,
    message: &[u8],
    cuts: &[u32],
) -> Result<Vec<Vec<u8>>, AllocError>
    requires short { length message.now ≤ 65535 }
    requires cuts { bad_cut (length message.now) cuts.now ≡ None }
    requires fits { long_fragment letter.now.version_id message.now cuts.now ≡ None }
    ensures { IfOk result (λ frames. map (λ frame. frame.items) frames.items
        ≡ posted_frames letter.now message.now cuts.now) }
{
    let mut frames = Vec::with_capacity(alloc, cuts.len() + 1)?;
    let in_fragments = is_fragmented(cuts);
    let mut rest = message;
    let mut start = 0usize;
    for cut in cuts {
        let end = *cut as usize;
        let (posted_fragment, following) = rest.split_at(end - start);
        let bytes = frame(
            alloc,
            letter,
            in_fragments,
            offset(start),
            true,
            posted_fragment,
        )?;
        frames.push(bytes).unwrap();
        rest = following;
        start = end;
    }
    let bytes = frame(alloc, letter, in_fragments, offset(start), false, rest)?;
    frames.push(bytes).unwrap();
    Ok(frames)
}

// An offset in a message, from bytes to units of 8 bytes.
fn offset(start: usize) -> IpFragOffset
    requires { start ≤ 65535 }
    ensures { result ≡ start / 8 }
{
    let Ok(offset) = IpFragOffset::try_new((start / 8) as u16) else {
        unreachable!()
    };
    offset
}
