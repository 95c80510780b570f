//! Laws of the numbers of TCP segments, counted from the initial ones of their connection.

ghost use Rattle.std.specs.Prelude.{◌≡◌, ◌<◌, Bool, List, [], ◌∷◌, true, false, not, length, filter, Some, None};
ghost use Rattle.std.specs.Cmp.{IsEquivalence};
ghost use Rattle.std.specs.List.{AllByRecursion};
ghost use Rattle.std.specs.Map.{lookup};
ghost use Rattle.lru.specs.LruCache.{LruCache};
ghost use Rattle.packets.specs.Segments.{GoesOn, begins, initial_numbers_by, initial_numbers_of, known_after_all};
ghost use Rattle.packets.specs.Segments.{no_initial_numbers, starts_from};
ghost use Rattle.packets.specs.declared.flows.conversation.Conversation.{Conversation};
ghost use Rattle.packets.specs.declared.show.segment.Segment.{Segment};
ghost use Rattle.packets.specs.declared.show.segment.Starts.{Starts};

/// The numbers of a segment are counted from those of the segment that its connection began with,
/// whatever segments of others come between the two, as long as none pushes the connection out, and
/// none begins it anew.
pub fn numbers_by_the_first_segment()
    ensures { (same : Conversation → Conversation → Bool) → IsEquivalence same
        → (known : LruCache Conversation Starts) (first next : Segment) (between : List Segment)
        → first.ack ≡ true
        → begins first (lookup (same first.conversation) known.entries) ≡ true
        → GoesOn same first.conversation (known_after_all same known (first ∷ [])) between
        → same first.conversation next.conversation ≡ true → next.ack ≡ true → next.syn ≡ false
        → initial_numbers_of next (lookup (same next.conversation)
        (known_after_all same known (first ∷ between)).entries)
        ≡ initial_numbers_by (starts_from first) next.ascends }
{}

/// A connection stays known while fewer segments of others come than connections can be known at the same
/// time, after a segment that it begins with.
pub fn connections_stay_known()
    ensures { (same : Conversation → Conversation → Bool) → IsEquivalence same
        → (known : LruCache Conversation Starts) (first : Segment) (between : List Segment)
        → first.ack ≡ true
        → begins first (lookup (same first.conversation) known.entries) ≡ true
        → AllByRecursion (λ segment. same first.conversation segment.conversation ≡ true
        → segment.ack ≡ true → segment.syn ≡ false) between
        → length (filter (λ segment. not (same first.conversation segment.conversation)) between)
        < known.cap
        → GoesOn same first.conversation (known_after_all same known (first ∷ [])) between }
{}

/// A server's SYN of number 1000 that acknowledges 0, so that the client's had the greatest number of 32
/// bits: the numbers of the client are counted from that one and from 1000, those of the server the other
/// way round. A SYN has its own numbers, and so have a segment that acknowledges nothing and one of a
/// connection that isn't known.
pub fn numbers_of_a_handshake()
    ensures handshake { (answer : Segment) → answer.ascends ≡ false → answer.sequence_number ≡ 1000
        → answer.acknowledgment_number ≡ 0
        → (initial_numbers_by (starts_from answer) true
        ≡ record { sequence = 4_294_967_295; acknowledgment = 1000 })
        × (initial_numbers_by (starts_from answer) false
        ≡ record { sequence = 1000; acknowledgment = 4_294_967_295 }) }
    ensures synchronizes { (segment : Segment) (starts : Starts) → segment.syn ≡ true
        → initial_numbers_of segment (Some starts) ≡ no_initial_numbers }
    ensures acknowledges_nothing { (segment : Segment) (starts : Starts) → segment.ack ≡ false
        → initial_numbers_of segment (Some starts) ≡ no_initial_numbers }
    ensures unknown { (segment : Segment) → initial_numbers_of segment None ≡ no_initial_numbers }
{}
