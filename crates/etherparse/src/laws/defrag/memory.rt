//! How much memory a fragment needs, and which spare buffers a reassembly takes, at literal values.
ghost use Rattle.std.specs.Prelude.{◌≡◌, [], ◌∷◌, true, false};
ghost use Rattle.etherparse.specs.Room.{wanted_end};
ghost use Rattle.etherparse.specs.Memory.{next_room, without_next};

/// An Ethernet frame carries 1480 bytes of a datagram over IPv4. Its first fragment needs memory
/// for a second one as long, where more follow it, and no fragment for more than the greatest
/// datagram. After others, and as a last one, a fragment needs memory up to its end.
pub fn fragments_need_memory()
    ensures first { wanted_end 0 (record { start = 0; end = 1480; more_fragments = true }) ≡ 2960 }
    ensures last { wanted_end 0 (record { start = 0; end = 1480; more_fragments = false }) ≡ 1480 }
    ensures second { wanted_end 1480
        (record { start = 1480; end = 2960; more_fragments = true }) ≡ 2960 }
    ensures last_came_first { wanted_end 0
        (record { start = 1480; end = 2008; more_fragments = false }) ≡ 2008 }
    ensures greatest { wanted_end 0
        (record { start = 0; end = 65528; more_fragments = true }) ≡ 65535 }
{}

/// The buffer that was given last is taken first, and without spare buffers there is no memory.
pub fn last_buffers_are_taken_first()
    ensures room { next_room (2960 ∷ 0 ∷ 1480 ∷ []) ≡ 1480 }
    ensures left { without_next (2960 ∷ 0 ∷ 1480 ∷ []) ≡ 2960 ∷ 0 ∷ [] }
    ensures none { next_room [] ≡ 0 }
    ensures none_left { without_next [] ≡ [] }
{}
