//! Pools with what is read of their timestamps: where that is a number, what holds of a pool whose
//! timestamps are numbers holds of any other.
ghost use Rattle.std.specs.Prelude.{◌≡◌, ◌↔◌, ℕ, nat_eq, nat_le, List, Option, option_map, Result};
ghost use Rattle.std.specs.List.{IsDistinct};
ghost use Rattle.std.specs.Map.{keys_of};
ghost use Rattle.ep_packet.specs.Class.{Class};
ghost use Rattle.etherparse.specs.Fragments.{Fragment};
ghost use Rattle.etherparse.specs.declared.defrag.overlap_rule.OverlapRule.{OverlapRule};
ghost use Rattle.etherparse.specs.declared.defrag.ip_defrag_error.IpDefragError.{IpDefragError};
ghost use Rattle.etherparse.specs.Counts.{open_in};
ghost use Rattle.etherparse.specs.ReassemblyTable.{Pool, Retained, ShowsReassembly, reassembly_at};
ghost use Rattle.etherparse.specs.Timestamps.{pool_by, timestamp_at};
ghost use Rattle.etherparse.specs.IpDefragPool.{same_id};
ghost use Rattle.etherparse.specs.PoolCalls.{Lists, ShowsLists, retained_from};
ghost use Rattle.etherparse.specs.Processed.{Processed};
ghost use Rattle.etherparse.specs.declared.defrag.ip_defrag_payload_vec.IpDefragPayloadVec.{IpDefragPayloadVec};
ghost use Rattle.etherparse.specs.declared.defrag.ip_frag_id.IpFragId.{IpFragId};

/// Each reassembly shows the fragments that it showed, and what is read of its timestamp.
pub fn timestamps_are_read<T>()
    ensures timestamp { (read : T → ℕ) (pool : Pool (IpFragId ℕ) T) (id : IpFragId ℕ)
        → timestamp_at (same_id nat_eq) (pool_by read pool) id
        ≡ option_map read (timestamp_at (same_id nat_eq) pool id) }
    ensures fragments { (read : T → ℕ) (rule : OverlapRule) (pool : Pool (IpFragId ℕ) T)
        (id : IpFragId ℕ) (fs : List Fragment)
        → ShowsReassembly rule (reassembly_at (same_id nat_eq) (pool_by read pool) id) fs
        ↔ ShowsReassembly rule (reassembly_at (same_id nat_eq) pool id) fs }
{}

/// What was made of a packet is stated with what is read of its timestamp.
pub fn processed_packets_are_read<T>()
    ensures { (read : T → ℕ) (old new : Pool (IpFragId ℕ) T) (class : Class) (time : T)
        (channel : ℕ) (result : Result (Option IpDefragPayloadVec) IpDefragError)
        → Processed old class time channel result new
        → Processed (pool_by read old) class (read time) channel result (pool_by read new) }
{}

/// Where those reassemblies stay of whose timestamp a number from a bound on is read, the lists
/// after it are those retained from that bound.
pub fn retained_lists_are_read<T>()
    ensures { (read : T → ℕ) (from : ℕ) (old new : Pool (IpFragId ℕ) T) (lists : Lists)
        → ((id : IpFragId ℕ) → Retained (λ timestamp stays. stays ≡ nat_le from (read timestamp))
        (reassembly_at (same_id nat_eq) old id) (reassembly_at (same_id nat_eq) new id))
        → ShowsLists (pool_by read old) lists
        → ShowsLists (pool_by read new) (λ name channel. retained_from from (lists name channel)) }
{}

/// There are as many reassemblies, under the same names.
pub fn read_pools_have_as_many_reassemblies<T>()
    ensures open { (read : T → ℕ) (pool : Pool (IpFragId ℕ) T)
        → open_in (pool_by read pool) ≡ open_in pool }
    ensures names { (read : T → ℕ) (pool : Pool (IpFragId ℕ) T)
        → IsDistinct (same_id nat_eq) (keys_of pool.reassemblies)
        → IsDistinct (same_id nat_eq) (keys_of (pool_by read pool).reassemblies) }
{}
