//! The definitions at literal calls: the contract of each function is the law.
ghost use Rattle.std.specs.Prelude.{◌≡◌, [], ◌∷◌, None, Some, true, false};
ghost use Rattle.device_runs.specs.Calls.{Reads, Writes, bytes_read, bytes_written, fault_of, faults_of};
ghost use Rattle.device_runs.specs.Calls.{is_end_reported, read_count};
ghost use Rattle.device_runs.specs.declared.fault.Fault.TheVariants.{NothingTaken, ReadFailed, WriteFailed};

/// Which calls are faults, and which of the three: a read or a write that fails, and a write that
/// takes none of its bytes, which is no failed write. A read that gives no bytes reports the end,
/// and a write may take only some of its bytes.
pub fn calls_that_are_faults()
    ensures read_failed { fault_of (Reads None) ≡ Some ReadFailed }
    ensures end { fault_of (Reads (Some [])) ≡ None }
    ensures read { fault_of (Reads (Some (7 ∷ []))) ≡ None }
    ensures write_failed { fault_of (Writes (1 ∷ 2 ∷ []) None) ≡ Some WriteFailed }
    ensures nothing_taken { fault_of (Writes (1 ∷ 2 ∷ []) (Some 0)) ≡ Some NothingTaken }
    ensures part_taken { fault_of (Writes (1 ∷ 2 ∷ []) (Some 1)) ≡ None }
    ensures all_taken { fault_of (Writes (1 ∷ 2 ∷ []) (Some 2)) ≡ None }
{}

/// What calls in a row read and write: a read of three bytes, a write that takes two of its three,
/// one that takes none, and a read that reports the end.
pub fn calls_in_a_row()
    ensures read { bytes_read (Reads (Some (1 ∷ 2 ∷ 3 ∷ [])) ∷ Writes (4 ∷ 5 ∷ 6 ∷ []) (Some 2)
        ∷ Writes (6 ∷ []) (Some 0) ∷ Reads (Some []) ∷ []) ≡ 1 ∷ 2 ∷ 3 ∷ [] }
    ensures written { bytes_written (Reads (Some (1 ∷ 2 ∷ 3 ∷ []))
        ∷ Writes (4 ∷ 5 ∷ 6 ∷ []) (Some 2) ∷ Writes (6 ∷ []) (Some 0) ∷ Reads (Some []) ∷ [])
        ≡ 4 ∷ 5 ∷ [] }
    ensures reads { read_count (Reads (Some (1 ∷ 2 ∷ 3 ∷ [])) ∷ Writes (4 ∷ 5 ∷ 6 ∷ []) (Some 2)
        ∷ Writes (6 ∷ []) (Some 0) ∷ Reads (Some []) ∷ []) ≡ 2 }
    ensures faults { faults_of (Reads (Some (1 ∷ 2 ∷ 3 ∷ [])) ∷ Writes (4 ∷ 5 ∷ 6 ∷ []) (Some 2)
        ∷ Writes (6 ∷ []) (Some 0) ∷ Reads (Some []) ∷ []) ≡ NothingTaken ∷ [] }
    ensures end { is_end_reported (Reads (Some (1 ∷ 2 ∷ 3 ∷ [])) ∷ Writes (4 ∷ 5 ∷ 6 ∷ []) (Some 2)
        ∷ Writes (6 ∷ []) (Some 0) ∷ Reads (Some []) ∷ []) ≡ true }
    ensures no_end { is_end_reported (Reads None ∷ Writes (4 ∷ []) None ∷ []) ≡ false }
{}
