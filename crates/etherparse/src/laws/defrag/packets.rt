//! What a pool may make of packets, at literal values.
ghost use Rattle.std.specs.Prelude.{◌≡◌, ℕ, true, [], replicate, None, Ok, Err};
ghost use Rattle.ep_packet.specs.Class.{FragmentName};
ghost use Rattle.ep_packet.specs.Class.Class.{Cut, Other};
ghost use Rattle.etherparse.specs.declared.defrag.ip_defrag_error.IpDefragError.TheVariants.{ConflictingEnd};
ghost use Rattle.etherparse.specs.declared.defrag.ip_defrag_error.IpDefragError.TheVariants.{UnalignedFragmentPayloadLen};
ghost use Rattle.etherparse.specs.ReassemblyTable.{Pool};
ghost use Rattle.etherparse.specs.Processed.{Processed};
ghost use Rattle.etherparse.specs.declared.defrag.ip_frag_id.IpFragId.{IpFragId};

/// A packet that is no fragment leaves a pool as it is, and nothing is answered to it. A fragment
/// of 7 bytes that others follow leaves it so, too, whatever the pool holds, and is refused as
/// unaligned; with another error it isn't.
pub fn packets_that_change_nothing()
    ensures other { (pool : Pool (IpFragId ℕ) ℕ) (time channel : ℕ)
        → Processed pool Other time channel (Ok None) pool }
    ensures other_error { (pool : Pool (IpFragId ℕ) ℕ) (time channel : ℕ)
        → Processed pool Other time channel (Err (ConflictingEnd 16 24)) pool → ⊥ }
    ensures unaligned { (pool : Pool (IpFragId ℕ) ℕ) (name : FragmentName) (time channel : ℕ)
        → Processed pool (Cut name 0 true (replicate 7 0)) time channel
        (Err (UnalignedFragmentPayloadLen 0 7)) pool }
    ensures taken { (pool : Pool (IpFragId ℕ) ℕ) (name : FragmentName) (time channel : ℕ)
        → pool.reassemblies ≡ [] → Processed pool (Cut name 0 true (replicate 8 0)) time channel
        (Err (UnalignedFragmentPayloadLen 0 8)) pool → ⊥ }
{}
