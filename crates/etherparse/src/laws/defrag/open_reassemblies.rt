//! How many reassemblies there are at once, at literal values.
ghost use denote.Ref.{Bor};
ghost use Rattle.std.specs.Prelude.{◌≡◌, ◌&&◌, ◌||◌, ◌==◌, ℕ, true, if◌then◌else◌, List, [], ◌∷◌, replicate};
ghost use Rattle.ep_packet.specs.Class.{FragmentName, class_of};
ghost use Rattle.ep_packet.specs.Class.Class.{Cut};
ghost use Rattle.etherparse.specs.Fragments.{fragment};
ghost use Rattle.etherparse.specs.IpFragId.{same_name};
ghost use Rattle.etherparse.specs.OpenReassemblies.{AreOpen, NeverMore};
ghost use Rattle.etherparse.specs.PoolCalls.{no_lists};
ghost use Rattle.etherparse.specs.declared.defrag.pool_calls.PoolCall.TheVariants.{Frame, RetainFrom};

use super::names::equal_names;

/// There is no reassembly in a new pool, and none is started by dropping some. There is one, where
/// the list of one name on one channel isn't empty, and no more, whatever is dropped.
pub fn most_reassemblies_at_once()
    ensures none { NeverMore no_lists [] 0 }
    ensures none_dropped { NeverMore no_lists (RetainFrom 5 ∷ []) 0 }
    ensures one { (only : FragmentName) → NeverMore
        (λ name channel. if same_name name only && (channel == 3)
        then record { fragments = fragment 0 true (replicate 8 1) ∷ []; time = 4 }
        else record { fragments = []; time = 0 }) [] 1 }
{
    equal_names::<u32>();
}

/// Two reassemblies before a call are more than one, though the call drops both; and a frame that
/// starts a reassembly makes one.
pub fn more_reassemblies_at_once()
    ensures before { (name : FragmentName)
        → NeverMore (λ name channel.
        record { fragments = fragment 0 true (replicate 8 1) ∷ []; time = 4 })
        (RetainFrom 5 ∷ []) 1 → ⊥ }
    ensures after { (frame : Bor (List ℕ)) (name : FragmentName)
        → class_of frame.now ≡ Cut name 0 true (replicate 8 1)
        → NeverMore no_lists (Frame frame 4 3 ∷ []) 0 → ⊥ }
{
    equal_names::<u32>();
}

/// The datagrams of one name on two channels are two reassemblies; one is not two, and there is
/// none where its list is empty.
pub fn datagrams_on_two_channels()
    ensures two { (name : FragmentName) → AreOpen
        (λ other channel. if (channel == 3) || (channel == 4)
        then record { fragments = fragment 0 true (replicate 8 1) ∷ []; time = 4 }
        else record { fragments = []; time = 0 }) ((name, 3) ∷ (name, 4) ∷ []) }
    ensures one { (name : FragmentName) → AreOpen
        (λ other channel. record { fragments = fragment 0 true (replicate 8 1) ∷ []; time = 4 })
        ((name, 3) ∷ (name, 3) ∷ []) → ⊥ }
    ensures none { (name : FragmentName) → AreOpen no_lists ((name, 3) ∷ []) → ⊥ }
{}
