//! The TCP connections that are known.
ghost use Rattle.std.specs.Prelude.{◌≡◌, [], IfOk, OnOk, OnErr};
ghost use Rattle.std.specs.Map.{lookup};
ghost use Rattle.lru.specs.LruCache.{lru_cache};
ghost use Rattle.packets.specs.Segments.{initial_numbers_of, known_after};

use crate::flows::conversation::Conversation;
use crate::show::segment::{Segment, Starts};
use header_descriptions::show::tcp::InitialNumbers;
use lru::LruCache;
use std::alloc::{AllocError, Global};
use std::hash::BuildHasher;
use std::num::NonZeroUsize;

/// So many connections are known at most.
pub const KNOWN_CONNECTIONS: usize = 1 << 16;

/// The TCP connections that are known: the [`KNOWN_CONNECTIONS`] of which segments came last, each by the
/// first one that acknowledged something, or by the last one with SYN that did.
#[derive(Drop)]
pub struct Connections<S: BuildHasher> {
    known: LruCache<Conversation, Starts, S>,
}

impl<S: BuildHasher + Drop> Connections<S> {
    /// None is known. They are hashed by this state.
    pub fn with_hasher(alloc: Global, state: S) -> Result<Connections<S>, AllocError>
        ensures { IfOk result (λ connections. connections.known ≡ lru_cache [] KNOWN_CONNECTIONS) }
    {
        let Some(most) = NonZeroUsize::new(KNOWN_CONNECTIONS) else {
            return Err(AllocError);
        };
        match LruCache::with_hasher(alloc, most, state) {
            Ok(known) => Ok(Connections { known }),
            Err(_) => Err(AllocError),
        }
    }

    /// What the numbers of a segment are counted from, as by `tcpdump`: nothing, where it begins its
    /// connection or acknowledges nothing. A connection that isn't known begins with each segment, and
    /// any with SYN. Where there is no memory for it, all is as it was.
    pub fn take(&mut self, segment: &Segment) -> Result<InitialNumbers, AllocError>
        ensures numbers { IfOk result (λ numbers. numbers ≡ initial_numbers_of segment.now
            (lookup (⟦<Conversation as PartialEq>⟧.eq segment.now.conversation)
            self.old.known.entries)) }
        ensures known { OnOk result (self.new.known
            ≡ known_after ⟦<Conversation as PartialEq>⟧.eq self.old.known segment.now) }
        ensures err { OnErr result (self.new.known ≡ self.old.known) }
    {
        if !segment.ack {
            return Ok(InitialNumbers::NONE);
        }
        match self.known.peek(&segment.conversation) {
            Some(starts) if !segment.syn => {
                let numbers = segment.initial_numbers_by(*starts);
                self.known.promote(&segment.conversation);
                Ok(numbers)
            }
            _ => match self.known.put(segment.conversation, segment.starts()) {
                Ok(_) => Ok(InitialNumbers::NONE),
                Err(_) => Err(AllocError),
            },
        }
    }
}
