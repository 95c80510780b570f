//! The tags before a payload, one after the other.
ghost use Rattle.std.specs.Prelude.{◌≡◌, ◌≤◌, ℕ, Option, Result};
ghost use Rattle.ep_packet.specs.Tags.{FoundTags, find_tags, most_tags};

use arrayvec::ArrayVec;
use std::marker::Model;

/// A payload whose ether type may name a tag.
pub(crate) trait TaggedPayload: Drop {
    type Tag: Default + Drop;

    type Fault: Drop;

    // The tag at the start of a payload, its length, and what follows it.
    ghost tag_at: { Self → Result (Option Self.Tag) Self.Fault };

    ghost tag_len: { Self.Tag → ℕ };

    ghost payload_after: { Self.Tag → Option Self };

    /// The tag that the ether type names, if it names one.
    fn tag(&self) -> Result<Option<Self::Tag>, Self::Fault>
        ensures { result ≡ tag_at self.now };

    /// The length of a tag in bytes.
    fn tag_len(tag: &Self::Tag) -> usize
        ensures len { result ≡ tag_len tag.now }
        ensures most { result ≤ 16 };

    /// What a tag's own ether type names, where it has one.
    fn payload_after(tag: &Self::Tag) -> Option<Self>
        ensures { result ≡ payload_after tag.now };
}

/// The tags before a payload, the length of all in bytes, what the last ether type names, and the
/// fault of the next tag, counted from that tag, after which nothing is named.
#[derive(Drop)]
pub(crate) struct FoundTags<P: TaggedPayload> {
    pub tags: ArrayVec<P::Tag, 3>,
    pub len: usize,
    pub last: Option<P>,
    pub stop: Option<P::Fault>,
}

impl<P: TaggedPayload> Model for FoundTags<P> {
    ghost Value = { FoundTags P.Tag P P.Fault };

    ghost view = { λ t. record { tags = t.tags.items; len = t.len; last = t.last; stop = t.stop } };
}

impl<P: TaggedPayload> FoundTags<P> {
    /// The tags at the start of `payload`, three at most.
    #[inline(always)]
    pub(crate) fn from_payload(payload: P) -> FoundTags<P>
        ensures tags { result ≡ find_tags P.tag_at P.tag_len P.payload_after most_tags payload }
        ensures most { result.len ≤ 48 }
    {
        let mut tags = ArrayVec::new();
        let mut len = 0;
        let mut rest = payload;
        for _count in 0..3usize {
            let tag = match rest.tag() {
                Ok(Some(tag)) => tag,
                Ok(None) => {
                    return FoundTags {
                        tags,
                        len,
                        last: Some(rest),
                        stop: None,
                    };
                }
                Err(fault) => {
                    return FoundTags {
                        tags,
                        len,
                        last: None,
                        stop: Some(fault),
                    };
                }
            };
            len += P::tag_len(&tag);
            let next = P::payload_after(&tag);
            tags.push(tag);
            match next {
                Some(payload) => rest = payload,
                None => {
                    return FoundTags {
                        tags,
                        len,
                        last: None,
                        stop: None,
                    };
                }
            }
        }
        FoundTags {
            tags,
            len,
            last: Some(rest),
            stop: None,
        }
    }
}
