//! The definitions at literal counts and times: the contract of each function is the law.
ghost use denote.Ref.{Bor};
ghost use Rattle.std.specs.Prelude.{◌≡◌, ◌≢◌, ℕ, true, [], ◌∷◌, None, Some, Ok, Err, nat_eq, nat_le};
ghost use Rattle.etherparse.specs.declared.defrag.ip_defrag_error.IpDefragError.TheVariants.{AllocationFailure};
ghost use Rattle.etherparse.specs.declared.defrag.ip_defrag_error.IpDefragError.TheVariants.{ConflictingEnd};
ghost use Rattle.etherparse.specs.declared.defrag.ip_defrag_error.IpDefragError.TheVariants.{OverlappingFragment};
ghost use Rattle.etherparse.specs.Counts.{Bounded, Counts, open_after, open_in, sections_after, spare_after};
ghost use Rattle.etherparse.specs.ReassemblyTable.{MayTest, Pool, Retained};
ghost use Rattle.etherparse.specs.declared.defrag.reassembly.Reassembly.{Reassembly};

/// Of three reassemblies, those that there are after a fragment: four where it starts one, two
/// where it completes one of them or overlaps it, and three where it is added to one of them,
/// completes its datagram alone, or is refused otherwise.
pub fn reassemblies_are_counted()
    ensures begins { open_after {X = ℕ} {S = ℕ} (Ok None) None 3 ≡ 4 }
    ensures goes_on { open_after {X = ℕ} {S = ℕ} (Ok None) (Some 7) 3 ≡ 3 }
    ensures alone { open_after {X = ℕ} {S = ℕ} (Ok (Some 5)) None 3 ≡ 3 }
    ensures completes { open_after {X = ℕ} {S = ℕ} (Ok (Some 5)) (Some 7) 3 ≡ 2 }
    ensures overlaps { open_after {X = ℕ} {S = ℕ} (Err (OverlappingFragment 1 8)) (Some 7) 3 ≡ 2 }
    ensures refused { open_after {X = ℕ} {S = ℕ} (Err (ConflictingEnd 16 24)) (Some 7) 3 ≡ 3 }
    ensures no_memory { open_after {X = ℕ} {S = ℕ} (Err (AllocationFailure 8)) None 3 ≡ 3 }
{}

/// Of two buffers of bytes and two of sections that are spare, those that are spare after a
/// fragment. One that starts a reassembly takes one of each; one that completes a datagram leaves
/// its sections, whose bytes are returned; another one takes and leaves none.
pub fn spare_buffers_are_counted()
    ensures begins { spare_after {X = ℕ} {E = ℕ} {S = ℕ} (Ok 5) None 2 ≡ 1 }
    ensures none_spare { spare_after {X = ℕ} {E = ℕ} {S = ℕ} (Ok 5) None 0 ≡ 0 }
    ensures goes_on { spare_after {X = ℕ} {E = ℕ} {S = ℕ} (Ok 5) (Some 7) 2 ≡ 2 }
    ensures refused { spare_after {X = ℕ} {E = ℕ} {S = ℕ} (Err 6) None 2 ≡ 2 }
    ensures begins_sections { sections_after {X = ℕ} {E = ℕ} {S = ℕ} (Ok None) None 2 ≡ 1 }
    ensures no_sections { sections_after {X = ℕ} {E = ℕ} {S = ℕ} (Ok None) None 0 ≡ 0 }
    ensures goes_on_sections { sections_after {X = ℕ} {E = ℕ} {S = ℕ} (Ok None) (Some 7) 2 ≡ 2 }
    ensures completes_sections { sections_after {X = ℕ} {E = ℕ} {S = ℕ} (Ok (Some 5)) (Some 7) 2
        ≡ 3 }
    ensures alone_sections { sections_after {X = ℕ} {E = ℕ} {S = ℕ} (Ok (Some 5)) None 2 ≡ 2 }
    ensures alone_no_sections { sections_after {X = ℕ} {E = ℕ} {S = ℕ} (Ok (Some 5)) None 0 ≡ 1 }
    ensures refused_sections { sections_after {X = ℕ} {E = ℕ} {S = ℕ} (Err 6) (Some 7) 2 ≡ 2 }
{}

/// The counts of a new pool: the first fragment of a datagram starts a reassembly, and takes no
/// spare buffer, as there is none. The fragment that completes it leaves no reassembly and one
/// spare buffer of sections, which the next reassembly takes.
pub fn counts_of_one_reassembly()
    ensures begins { (old new : Pool ℕ ℕ) → old.reassemblies ≡ [] → old.spare ≡ 0
        → old.spare_sections ≡ 0 → Counts {X = ℕ} nat_eq old new 7 (Ok None)
        → (open_in new ≡ 1) × (new.spare ≡ 0) × (new.spare_sections ≡ 0) }
    ensures completes { (reassembly : Reassembly ℕ) (old new : Pool ℕ ℕ) → old.reassemblies ≡ (7, reassembly) ∷ []
        → old.spare ≡ 0 → old.spare_sections ≡ 0 → Counts {X = ℕ} nat_eq old new 7 (Ok (Some 5))
        → (open_in new ≡ 0) × (new.spare ≡ 0) × (new.spare_sections ≡ 1) }
    ensures begins_again { (old new : Pool ℕ ℕ) → old.reassemblies ≡ [] → old.spare ≡ 0
        → old.spare_sections ≡ 1 → Counts {X = ℕ} nat_eq old new 7 (Ok None)
        → (open_in new ≡ 1) × (new.spare ≡ 0) × (new.spare_sections ≡ 0) }
    ensures other_name { (reassembly : Reassembly ℕ) (old new : Pool ℕ ℕ) → old.reassemblies ≡ (8, reassembly) ∷ []
        → old.spare ≡ 0 → old.spare_sections ≡ 0 → Counts {X = ℕ} nat_eq old new 7 (Ok None)
        → (open_in new ≡ 2) × (new.spare ≡ 0) × (new.spare_sections ≡ 0) }
{}

/// Reassemblies and spare buffers stay bounded where a reassembly starts in a spare buffer, or
/// where none is spare; where one ends and leaves its buffer; and where its datagram is returned
/// with it. They don't where one starts and the spare buffer stays spare, nor where a spare buffer
/// is added that no reassembly left.
pub fn pools_that_stay_bounded()
    ensures spare_taken { (old new : Pool ℕ ℕ) → open_in old ≡ 2 → old.spare ≡ 1 → open_in new ≡ 3
        → new.spare ≡ 0 → Bounded old new }
    ensures none_spare { (old new : Pool ℕ ℕ) → open_in old ≡ 2 → old.spare ≡ 0 → open_in new ≡ 3
        → new.spare ≡ 0 → Bounded old new }
    ensures left { (old new : Pool ℕ ℕ) → open_in old ≡ 2 → old.spare ≡ 1 → open_in new ≡ 1
        → new.spare ≡ 2 → Bounded old new }
    ensures returned { (old new : Pool ℕ ℕ) → open_in old ≡ 2 → old.spare ≡ 1 → open_in new ≡ 1
        → new.spare ≡ 1 → Bounded old new }
    ensures spare_stays { (old new : Pool ℕ ℕ) → open_in old ≡ 2 → old.spare ≡ 1 → open_in new ≡ 3
        → new.spare ≡ 1 → Bounded old new → ⊥ }
    ensures one_more { (old new : Pool ℕ ℕ) → open_in old ≡ 2 → old.spare ≡ 0 → open_in new ≡ 2
        → new.spare ≡ 1 → Bounded old new → ⊥ }
{}

/// A test may be called on the time of a reassembly, and on nothing else: it need be callable on no
/// other time, and where there is no reassembly on none. One that is callable on other times alone
/// may not be called.
pub fn times_that_are_tested()
    ensures none { MayTest {T = ℕ} (λ time. ⊥) None }
    ensures own { (reassembly : Reassembly ℕ) → reassembly.timestamp ≡ 4
        → MayTest (λ time. time.now ≡ 4) (Some reassembly) }
    ensures others { (reassembly : Reassembly ℕ) (time : Bor ℕ) → reassembly.timestamp ≡ 4 → time.now ≡ 4
        → MayTest (λ time. time.now ≡ 5) (Some reassembly) → ⊥ }
{}

/// A reassembly stays as it is exactly where the test of its time returns `true`, here for 5 and
/// later, and else nothing is left of it. None appears where there was none.
pub fn reassemblies_that_are_retained()
    ensures at_the_time { (reassembly : Reassembly ℕ) → reassembly.timestamp ≡ 5
        → Retained (λ time answer. answer ≡ nat_le 5 time) (Some reassembly) (Some reassembly) }
    ensures stays { (reassembly : Reassembly ℕ) → reassembly.timestamp ≡ 5
        → Retained (λ time answer. answer ≡ nat_le 5 time) (Some reassembly) None → ⊥ }
    ensures earlier { (reassembly : Reassembly ℕ) → reassembly.timestamp ≡ 4
        → Retained (λ time answer. answer ≡ nat_le 5 time) (Some reassembly) None }
    ensures goes { (reassembly : Reassembly ℕ) → reassembly.timestamp ≡ 4
        → Retained (λ time answer. answer ≡ nat_le 5 time) (Some reassembly) (Some reassembly) → ⊥ }
    ensures unchanged { (reassembly other : Reassembly ℕ) → reassembly ≢ other
        → Retained (λ time answer. answer ≡ nat_le 5 time) (Some reassembly) (Some other) → ⊥ }
    ensures none { Retained {T = ℕ} (λ time answer. answer ≡ nat_le 5 time) None None }
    ensures comes { (reassembly : Reassembly ℕ)
        → Retained (λ time answer. answer ≡ nat_le 5 time) None (Some reassembly) → ⊥ }
{}
