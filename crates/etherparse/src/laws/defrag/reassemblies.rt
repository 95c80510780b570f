//! The definitions of names, of lists of calls and of what is answered to them, at literal
//! fragments after RFC 791 and 8200.
ghost use Rattle.std.specs.Prelude.{◌≡◌, ℕ, true, false, [], ◌∷◌, ◌++◌, List, None, Some, nat_eq, replicate};
ghost use Rattle.std.specs.List.{IsDistinct};
ghost use Rattle.std.specs.Map.{keys_of};
ghost use Rattle.ep_base.specs.declared.len_source.LenSource.TheVariants.{Ipv4HeaderTotalLen, Ipv6HeaderPayloadLen};
ghost use Rattle.ep_base.specs.declared.net.ip_number.IpNumber.{IpNumber};
ghost use Rattle.ep_packet.specs.Class.{FragmentName};
ghost use Rattle.ep_packet.specs.Class.Class.{Cut, Other, Whole, Refused as Faulty};
ghost use Rattle.ep_packet.specs.Readable.{ReadMessage};
ghost use Rattle.ep_packet.specs.declared.addresses.Addresses.{Addresses};
ghost use Rattle.ep_packet.specs.declared.addresses.Addresses.TheVariants.{V4, V6};
ghost use Rattle.ep_packet.specs.declared.err.packet.slice_error.SliceError.{SliceError};
ghost use Rattle.etherparse.specs.Counts.{open_in};
ghost use Rattle.etherparse.specs.Fragments.{Fragment, fragment};
ghost use Rattle.etherparse.specs.IpDefragBuf.{Shows};
ghost use Rattle.etherparse.specs.Room.{Room};
ghost use Rattle.etherparse.specs.IpDefragPool.{same_id};
ghost use Rattle.etherparse.specs.IpFragId.{id_named, same_name};
ghost use Rattle.etherparse.specs.OpenReassemblies.{IsOpenCount};
ghost use Rattle.etherparse.specs.PoolCalls.{FrameAnswered, HasMemory, Lists, CallsAnswered, ShowsLists, after_frame};
ghost use Rattle.etherparse.specs.PoolCalls.{answer_to_frame, no_lists, retained_from, memory_error_at};
ghost use Rattle.etherparse.specs.PoolCalls.{memory_error_at_frame};
ghost use Rattle.etherparse.specs.Processed.{PacketsAreAnswered, MemoryErrorsAreReported};
ghost use Rattle.etherparse.specs.ReassemblyTable.{Pool};
ghost use Rattle.etherparse.specs.PoolCalls.CallResult.{Delivered, NoMemory, NotSliced, Nothing, Refused, Retained};
ghost use Rattle.etherparse.specs.declared.defrag.ip_defrag_error.IpDefragError.TheVariants.{AllocationFailure};
ghost use Rattle.etherparse.specs.declared.defrag.ip_defrag_error.IpDefragError.TheVariants.{ConflictingEnd};
ghost use Rattle.etherparse.specs.declared.defrag.ip_defrag_error.IpDefragError.TheVariants.{OverlappingFragment};
ghost use Rattle.etherparse.specs.declared.defrag.ip_frag_id.IpFragId.{IpFragId};
ghost use Rattle.etherparse.specs.declared.defrag.pool_calls.PoolCall.TheVariants.{RetainFrom};
ghost use Rattle.etherparse.specs.declared.defrag.ip_frag_version_spec_id.IpFragVersionSpecId.TheVariants.{Ipv4, Ipv6};

use super::names::equal_names;

/// A new pool shows that no fragment was accepted.
pub fn a_new_pool_shows_no_lists()
    ensures { (pool : Pool (IpFragId ℕ) ℕ) → pool.reassemblies ≡ [] → ShowsLists pool no_lists }
{}

/// What `process_sliced_packet` ensures of reassemblies, stated of the list of each name: the
/// packet is answered by its name's list, which has its fragment then; or it is out of memory for
/// one that isn't refused, and all lists stay.
pub fn packets_are_answered()
    ensures { PacketsAreAnswered }
{
    equal_names::<u32>();
}

/// No answer to a frame reports out of memory, and what may be answered in its place always does.
pub fn memory_errors_are_reported()
    ensures { MemoryErrorsAreReported }
{}

/// What a pool shows depends on its reassemblies alone: spare buffers show nothing.
pub fn spare_buffers_show_nothing()
    ensures { (old new : Pool (IpFragId ℕ) ℕ) (lists : Lists) → new.reassemblies ≡ old.reassemblies
        → ShowsLists old lists → ShowsLists new lists }
{}

/// A pool in which no name is there twice has as many reassemblies as lists that it shows aren't
/// empty.
pub fn open_reassemblies_are_counted()
    ensures { (pool : Pool (IpFragId ℕ) ℕ) (lists : Lists)
        → IsDistinct (same_id nat_eq) (keys_of pool.reassemblies) → ShowsLists pool lists
        → IsOpenCount lists (open_in pool) }
{
    equal_names::<u32>();
}

/// Each component of a name has its field.
pub fn components_of_names()
    ensures ipv4 { id_named {C = ℕ}
        (record {
          vlan_ids = 5 ∷ 6 ∷ 7 ∷ [];
          addresses = V4 (10 ∷ 0 ∷ 0 ∷ 1 ∷ []) (10 ∷ 0 ∷ 0 ∷ 2 ∷ []);
          identification = 258;
          number = 17;
        }) 3
        ≡ record {
          vlan_ids = record { items = 5 ∷ 6 ∷ 7 ∷ [] };
          ip = Ipv4 (10 ∷ 0 ∷ 0 ∷ 1 ∷ []) (10 ∷ 0 ∷ 0 ∷ 2 ∷ []) 258;
          payload_ip_number = record { 0 = 17 };
          channel_id = 3;
        } }
    ensures ipv6 { id_named {C = ℕ}
        (record {
          vlan_ids = [];
          addresses = V6 (253 ∷ replicate 15 1) (253 ∷ replicate 15 2);
          identification = 16909060;
          number = 58;
        }) 3
        ≡ record {
          vlan_ids = record { items = [] };
          ip = Ipv6 (253 ∷ replicate 15 1) (253 ∷ replicate 15 2) 16909060;
          payload_ip_number = record { 0 = 58 };
          channel_id = 3;
        } }
    ensures third_tag { (addresses : Addresses)
        → same_name (record
        { vlan_ids = 5 ∷ 6 ∷ 7 ∷ []; addresses = addresses; identification = 258; number = 17 })
        (record {
          vlan_ids = 5 ∷ 6 ∷ 8 ∷ [];
          addresses = addresses;
          identification = 258;
          number = 17;
        }) ≡ false }
    ensures fewer_tags { (addresses : Addresses)
        → same_name (record
        { vlan_ids = 5 ∷ 6 ∷ []; addresses = addresses; identification = 258; number = 17 })
        (record {
          vlan_ids = 5 ∷ 6 ∷ 7 ∷ [];
          addresses = addresses;
          identification = 258;
          number = 17;
        }) ≡ false }
    ensures upper_half { same_name
        (record {
          vlan_ids = [];
          addresses = V6 (253 ∷ []) (253 ∷ []);
          identification = 65543;
          number = 17;
        })
        (record {
          vlan_ids = [];
          addresses = V6 (253 ∷ []) (253 ∷ []);
          identification = 7;
          number = 17;
        }) ≡ false }
    ensures turned { same_name
        (record {
          vlan_ids = [];
          addresses = V4 (1 ∷ []) (2 ∷ []);
          identification = 7;
          number = 17;
        })
        (record {
          vlan_ids = [];
          addresses = V4 (2 ∷ []) (1 ∷ []);
          identification = 7;
          number = 17;
        }) ≡ false }
{}

/// What is answered to a packet where the last 8 of 16 bytes came at time 4: the datagram to its
/// first bytes, the conflict to a fragment after its end, and nothing to packets that are no
/// fragments; a frame that breaks its format is reported with its fault. Other bytes at the same
/// offset are an overlap over IPv6 alone.
pub fn answers_after_a_last_fragment()
    ensures ipv4 { (ids : List ℕ) (a b : List ℕ)
        → answer_to_frame
        (λ name channel. record { fragments = fragment 1 false (replicate 8 2) ∷ []; time = 4 })
        (Cut (record { vlan_ids = ids; addresses = V4 a b; identification = 7; number = 17 }) 0 true (replicate 8 1)) 3 None
        ≡ Delivered (record {
          ip_number = record { 0 = 17 };
          len_source = Ipv4HeaderTotalLen;
          bytes = replicate 8 1 ++ replicate 8 2;
        }) }
    ensures ipv6 { (ids : List ℕ) (a b : List ℕ)
        → answer_to_frame
        (λ name channel. record { fragments = fragment 1 false (replicate 8 2) ∷ []; time = 4 })
        (Cut (record { vlan_ids = ids; addresses = V6 a b; identification = 7; number = 58 }) 0 true (replicate 8 1)) 3 None
        ≡ Delivered (record {
          ip_number = record { 0 = 58 };
          len_source = Ipv6HeaderPayloadLen;
          bytes = replicate 8 1 ++ replicate 8 2;
        }) }
    ensures other_bytes { (ids : List ℕ) (a b : List ℕ)
        → answer_to_frame
        (λ name channel. record { fragments = fragment 1 false (replicate 8 2) ∷ []; time = 4 })
        (Cut (record { vlan_ids = ids; addresses = V4 a b; identification = 7; number = 17 }) 1 false (replicate 8 3)) 3 None ≡ Nothing }
    ensures repeat { (ids : List ℕ) (a b : List ℕ)
        → answer_to_frame
        (λ name channel. record { fragments = fragment 1 false (replicate 8 2) ∷ []; time = 4 })
        (Cut (record { vlan_ids = ids; addresses = V6 a b; identification = 7; number = 17 }) 1 false (replicate 8 2)) 3 None ≡ Nothing }
    ensures overlap { (ids : List ℕ) (a b : List ℕ)
        → answer_to_frame
        (λ name channel. record { fragments = fragment 1 false (replicate 8 2) ∷ []; time = 4 })
        (Cut (record { vlan_ids = ids; addresses = V6 a b; identification = 7; number = 17 }) 1 false (replicate 8 3)) 3 None
        ≡ Refused (OverlappingFragment 1 8) }
    ensures following { (name : FragmentName)
        → answer_to_frame
        (λ name channel. record { fragments = fragment 1 false (replicate 8 2) ∷ []; time = 4 })
        (Cut name 2 true (replicate 8 3)) 3 None ≡ Refused (ConflictingEnd 16 24) }
    ensures whole { (addresses : Addresses) (message : ReadMessage)
        → answer_to_frame no_lists (Whole addresses 17 [] message) 3 None ≡ Nothing }
    ensures other { answer_to_frame no_lists Other 3 None ≡ Nothing }
    ensures faulty { (fault : SliceError)
        → answer_to_frame no_lists Faulty 3 (Some fault) ≡ NotSliced (Some fault) }
{}

/// What a fragment makes of the list of a name where the last 8 of 16 bytes came at time 4: one
/// that is accepted is appended and renews the time, one that is refused or belongs to another name
/// or channel does neither, and a complete list is empty again, and so is one with an overlap over
/// IPv6.
pub fn lists_after_a_last_fragment()
    ensures appended { after_frame
        (record { vlan_ids = []; addresses = V4 [] []; identification = 7; number = 17 }) 3
        (Cut (record { vlan_ids = []; addresses = V4 [] []; identification = 7; number = 17 }) 1
        true (replicate 8 3)) 9 3
        (record { fragments = fragment 1 false (replicate 8 2) ∷ []; time = 4 })
        ≡ record { fragments = fragment 1 false (replicate 8 2) ∷ fragment 1 true (replicate 8 3) ∷ []; time = 9 } }
    ensures refused { after_frame
        (record { vlan_ids = []; addresses = V4 [] []; identification = 7; number = 17 }) 3
        (Cut (record { vlan_ids = []; addresses = V4 [] []; identification = 7; number = 17 }) 2
        true (replicate 8 3)) 9 3
        (record { fragments = fragment 1 false (replicate 8 2) ∷ []; time = 4 })
        ≡ record { fragments = fragment 1 false (replicate 8 2) ∷ []; time = 4 } }
    ensures other_channel { after_frame
        (record { vlan_ids = []; addresses = V4 [] []; identification = 7; number = 17 }) 3
        (Cut (record { vlan_ids = []; addresses = V4 [] []; identification = 7; number = 17 }) 1
        true (replicate 8 3)) 9 2
        (record { fragments = fragment 1 false (replicate 8 2) ∷ []; time = 4 })
        ≡ record { fragments = fragment 1 false (replicate 8 2) ∷ []; time = 4 } }
    ensures other_name { after_frame
        (record { vlan_ids = []; addresses = V4 [] []; identification = 7; number = 17 }) 3
        (Cut (record { vlan_ids = []; addresses = V4 [] []; identification = 8; number = 17 }) 1
        true (replicate 8 3)) 9 3
        (record { fragments = fragment 1 false (replicate 8 2) ∷ []; time = 4 })
        ≡ record { fragments = fragment 1 false (replicate 8 2) ∷ []; time = 4 } }
    ensures repeated { after_frame
        (record { vlan_ids = []; addresses = V6 [] []; identification = 7; number = 17 }) 3
        (Cut (record { vlan_ids = []; addresses = V6 [] []; identification = 7; number = 17 }) 1
        false (replicate 8 2)) 9 3
        (record { fragments = fragment 1 false (replicate 8 2) ∷ []; time = 4 })
        ≡ record { fragments = fragment 1 false (replicate 8 2) ∷ fragment 1 false (replicate 8 2) ∷ []; time = 9 } }
    ensures overlapped { after_frame
        (record { vlan_ids = []; addresses = V6 [] []; identification = 7; number = 17 }) 3
        (Cut (record { vlan_ids = []; addresses = V6 [] []; identification = 7; number = 17 }) 1
        false (replicate 8 3)) 9 3
        (record { fragments = fragment 1 false (replicate 8 2) ∷ []; time = 4 })
        ≡ record { fragments = []; time = 9 } }
    ensures complete { after_frame
        (record { vlan_ids = []; addresses = V4 [] []; identification = 7; number = 17 }) 3
        (Cut (record { vlan_ids = []; addresses = V4 [] []; identification = 7; number = 17 }) 0
        true (replicate 8 3)) 9 3
        (record { fragments = fragment 1 false (replicate 8 2) ∷ []; time = 4 })
        ≡ record { fragments = []; time = 9 } }
{}

/// A list whose last fragment came at the time itself, or later, stays; an earlier one is dropped.
pub fn lists_from_a_time_on()
    ensures earlier { (fs : List Fragment)
        → retained_from 5 (record { fragments = fs; time = 4 })
        ≡ record { fragments = []; time = 4 } }
    ensures at_the_time { (fs : List Fragment)
        → retained_from 5 (record { fragments = fs; time = 5 })
        ≡ record { fragments = fs; time = 5 } }
    ensures later { (fs : List Fragment)
        → retained_from 5 (record { fragments = fs; time = 6 })
        ≡ record { fragments = fs; time = 6 } }
{}

/// Two answers report out of memory, and others don't.
pub fn answers_without_memory()
    ensures fragment { HasMemory (Refused (AllocationFailure 8)) → ⊥ }
    ensures retain { HasMemory NoMemory → ⊥ }
    ensures conflict { HasMemory (Refused (ConflictingEnd 16 24)) }
    ensures nothing { HasMemory Nothing }
{}

/// Out of memory may be answered to a fragment that isn't refused, with the offset at which it ends
/// in its datagram, where the last 8 of 16 bytes or its first 8 came before it, and then its list
/// is as it was; and to nothing else, `RetainFrom` neither.
pub fn errors_of_memory()
    ensures fragment { (ids : List ℕ) (a b : List ℕ)
        → memory_error_at_frame
        (λ name channel. record { fragments = fragment 1 false (replicate 8 2) ∷ []; time = 4 })
        (Cut (record { vlan_ids = ids; addresses = V6 a b; identification = 7; number = 17 }) 0 true (replicate 8 1)) 3 ≡ Some (AllocationFailure 8) }
    ensures later { (ids : List ℕ) (a b : List ℕ)
        → memory_error_at_frame
        (λ name channel. record { fragments = fragment 0 true (replicate 8 1) ∷ []; time = 4 })
        (Cut (record { vlan_ids = ids; addresses = V6 a b; identification = 7; number = 17 }) 3 true (replicate 16 3)) 3 ≡ Some (AllocationFailure 40) }
    ensures later_over_ipv4 { (ids : List ℕ) (a b : List ℕ)
        → memory_error_at_frame
        (λ name channel. record { fragments = fragment 0 true (replicate 8 1) ∷ []; time = 4 })
        (Cut (record { vlan_ids = ids; addresses = V4 a b; identification = 7; number = 17 }) 1 false (replicate 4 3)) 3 ≡ Some (AllocationFailure 12) }
    ensures stays { (a b : List ℕ)
        → FrameAnswered (λ after. (after
        (record { vlan_ids = []; addresses = V6 a b; identification = 7; number = 17 }) 3).fragments
        ≡ fragment 1 false (replicate 8 2) ∷ [])
        (λ name channel. record { fragments = fragment 1 false (replicate 8 2) ∷ []; time = 4 })
        (Cut (record { vlan_ids = []; addresses = V6 a b; identification = 7; number = 17 }) 0 true (replicate 8 1)) 9 3 None (Refused (AllocationFailure 8)) }
    ensures overlap { (ids : List ℕ) (a b : List ℕ)
        → memory_error_at_frame
        (λ name channel. record { fragments = fragment 1 false (replicate 8 2) ∷ []; time = 4 })
        (Cut (record { vlan_ids = ids; addresses = V6 a b; identification = 7; number = 17 }) 1 true (replicate 8 1)) 3 ≡ None }
    ensures refused { (name : FragmentName)
        → memory_error_at_frame
        (λ name channel. record { fragments = fragment 1 false (replicate 8 2) ∷ []; time = 4 })
        (Cut name 2 true (replicate 8 3)) 3 ≡ None }
    ensures whole { (addresses : Addresses) (message : ReadMessage)
        → memory_error_at_frame no_lists (Whole addresses 17 [] message) 3 ≡ None }
    ensures other { memory_error_at_frame no_lists Other 3 ≡ None }
    ensures faulty { memory_error_at_frame no_lists Faulty 3 ≡ None }
    ensures retain { memory_error_at no_lists (RetainFrom 5) ≡ None }
{}

/// What may be answered to `RetainFrom(5)` where the last 8 of 16 bytes came at time 4: `Retained`,
/// and the list is empty; not out of memory, and no refusal.
pub fn answers_to_retain_from()
    ensures retained { (name : FragmentName)
        → CallsAnswered (λ after. (after name 3).fragments ≡ [])
        (λ name channel. record { fragments = fragment 1 false (replicate 8 2) ∷ []; time = 4 })
        (RetainFrom 5 ∷ []) (Retained ∷ []) }
    ensures no_memory { CallsAnswered (λ after. Unit {0}) no_lists (RetainFrom 5 ∷ []) (NoMemory ∷ [])
        → ⊥ }
    ensures refused { CallsAnswered (λ after. Unit {0}) no_lists (RetainFrom 5 ∷ [])
        (Refused (AllocationFailure 0) ∷ []) → ⊥ }
    ensures none { CallsAnswered (λ after. Unit {0}) no_lists (RetainFrom 5 ∷ []) [] → ⊥ }
{}

/// A buffer with the second 8 bytes of a datagram shows that fragment, and not the first one,
/// whatever its memory.
pub fn a_fragment_that_is_shown()
    ensures shown { (room : Room) → Shows {Number = IpNumber}
        (record {
          ip_number = record { 0 = 17 };
          bytes = replicate 8 0 ++ replicate 8 2;
          sections = record { start = 8; end = 16 } ∷ [];
          end = None;
          stored_fragments = None;
          room = room;
        })
        (fragment 1 true (replicate 8 2) ∷ []) }
    ensures not_shown { (room : Room) → Shows {Number = IpNumber}
        (record {
          ip_number = record { 0 = 17 };
          bytes = replicate 8 0 ++ replicate 8 2;
          sections = record { start = 8; end = 16 } ∷ [];
          end = None;
          stored_fragments = None;
          room = room;
        })
        (fragment 0 true (replicate 8 2) ∷ []) → ⊥ }
{}
