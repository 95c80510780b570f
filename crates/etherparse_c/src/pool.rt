//! The reassembly of datagrams from their fragments.
ghost use Rattle.std.specs.Prelude.{◌≡◌, ◌<◌, ◌⊎◌, true, false, Option, Some, None, length};
ghost use Rattle.etherparse.specs.OpenReassemblies.{IsOpenCount};
ghost use Rattle.etherparse.specs.PoolCalls.{Lists, fault_in, no_lists, retained_from};
ghost use Rattle.etherparse.specs.packet.Class.{class_of, sliced_class};
ghost use Rattle.etherparse.specs.packet.Sliced.{sliced_ethernet, sliced_ip, sliced_linux_sll};
ghost use Rattle.etherparse_structs.specs.FramePool.{IsAnswered, Kept, added, completed, kept_of, written};
ghost use Rattle.etherparse_structs.specs.Pool.{IsPool, Keeps};

use etherparse::SlicedPacket;
use etherparse_structs::{EpAdded, EpPool};
use std::alloc::Global;

/// Opens a pool without fragments.
///
/// The result is 0 where it is open, 2 where there is no memory, and 4 where it was open before.
/// Where it isn't 0 nothing is changed.
#[unsafe(no_mangle)]
pub extern "C" fn ep_pool_new(alloc: Global, pool: &mut EpPool) -> u32
    requires { IsPool pool.old }
    ensures pool { IsPool pool.new }
    ensures opened { result ≡ 0 → Keeps pool.new no_lists None }
    ensures unchanged { 0 < result → pool.new ≡ pool.old }
    ensures wrong_state { pool.old.is_open ≡ true → result ≡ 4 }
    ensures codes { pool.old.is_open ≡ false → (result ≡ 0) ⊎ (result ≡ 2) }
{
    pool.begin(alloc)
}

/// Takes an Ethernet II frame, which came at this time on this channel. Fragments of different
/// channels belong to different datagrams.
///
/// The status is 5 where a message is complete with it: then the output starts with the message. It
/// is 1 where the output is shorter than the message: then the pool keeps it until `ep_pool_take`
/// returns it. It is 0 where no message is complete, since the frame is no fragment, or its
/// datagram waits for others. It is 2 where there is no memory for the fragment, and 3 where the
/// frame or the fragment is refused: then all reassemblies are as they were, but that of a fragment
/// of refusal 4 is dropped. It is 4 where the pool isn't open or keeps a message: then nothing is
/// changed.
#[unsafe(no_mangle)]
pub extern "C" fn ep_pool_add(
    alloc: Global,
    pool: &mut EpPool,
    frame: &[u8],
    time: u64,
    channel: u32,
    output: &mut [u8],
) -> EpAdded
    requires { IsPool pool.old }
    ensures pool { IsPool pool.new }
    ensures answered { (lists : Lists) → Keeps pool.old lists None → IsAnswered (Keeps pool.new)
        lists (class_of frame.now) time channel (fault_in (sliced_ethernet frame.now))
        output.old output.new result }
    ensures keeps { (lists : Lists) (kept : Kept) → Keeps pool.old lists (Some kept)
        → Keeps pool.new lists (Some kept) × (result ≡ added 4) × (output.new ≡ output.old) }
    ensures closed { pool.old.is_open ≡ false
        → (pool.new ≡ pool.old) × (result ≡ added 4) × (output.new ≡ output.old) }
{
    pool.add(
        alloc,
        SlicedPacket::from_ethernet(frame),
        time,
        channel,
        output,
    )
}

/// Takes a packet of a Linux cooked capture, as `ep_pool_add` takes a frame. One pool may take
/// frames, cooked captures and IP packets. Fragments belong together whatever they came in, if
/// channel and VLAN identifiers are the same; an IP packet has none.
#[unsafe(no_mangle)]
pub extern "C" fn ep_pool_add_linux_sll(
    alloc: Global,
    pool: &mut EpPool,
    packet: &[u8],
    time: u64,
    channel: u32,
    output: &mut [u8],
) -> EpAdded
    requires { IsPool pool.old }
    ensures pool { IsPool pool.new }
    ensures answered { (lists : Lists) → Keeps pool.old lists None → IsAnswered (Keeps pool.new)
        lists (sliced_class (sliced_linux_sll packet.now)) time channel
        (fault_in (sliced_linux_sll packet.now)) output.old output.new result }
    ensures keeps { (lists : Lists) (kept : Kept) → Keeps pool.old lists (Some kept)
        → Keeps pool.new lists (Some kept) × (result ≡ added 4) × (output.new ≡ output.old) }
    ensures closed { pool.old.is_open ≡ false
        → (pool.new ≡ pool.old) × (result ≡ added 4) × (output.new ≡ output.old) }
{
    pool.add(
        alloc,
        SlicedPacket::from_linux_sll(packet),
        time,
        channel,
        output,
    )
}

/// Takes an IP packet of either version, as `ep_pool_add` takes a frame.
#[unsafe(no_mangle)]
pub extern "C" fn ep_pool_add_ip(
    alloc: Global,
    pool: &mut EpPool,
    packet: &[u8],
    time: u64,
    channel: u32,
    output: &mut [u8],
) -> EpAdded
    requires { IsPool pool.old }
    ensures pool { IsPool pool.new }
    ensures answered { (lists : Lists) → Keeps pool.old lists None → IsAnswered (Keeps pool.new)
        lists (sliced_class (sliced_ip packet.now)) time channel
        (fault_in (sliced_ip packet.now)) output.old output.new result }
    ensures keeps { (lists : Lists) (kept : Kept) → Keeps pool.old lists (Some kept)
        → Keeps pool.new lists (Some kept) × (result ≡ added 4) × (output.new ≡ output.old) }
    ensures closed { pool.old.is_open ≡ false
        → (pool.new ≡ pool.old) × (result ≡ added 4) × (output.new ≡ output.old) }
{
    pool.add(alloc, SlicedPacket::from_ip(packet), time, channel, output)
}

/// Returns the message that a pool keeps.
///
/// The status is 5 where the output starts with it, 1 where the output is shorter than the message,
/// and 4 where the pool isn't open or keeps none.
#[unsafe(no_mangle)]
pub extern "C" fn ep_pool_take(alloc: Global, pool: &mut EpPool, output: &mut [u8]) -> EpAdded
    requires { IsPool pool.old }
    ensures pool { IsPool pool.new }
    ensures taken { (lists : Lists) (kept : Kept) → Keeps pool.old lists (Some kept)
        → Keeps pool.new lists (kept_of (length output.old) (Some kept.0) kept.1)
        × (result ≡ completed (length output.old) kept.0 kept.1)
        × (output.new ≡ written output.old kept.1) }
    ensures none { (lists : Lists) → Keeps pool.old lists None
        → Keeps pool.new lists None × (result ≡ added 4) × (output.new ≡ output.old) }
    ensures closed { pool.old.is_open ≡ false
        → (pool.new ≡ pool.old) × (result ≡ added 4) × (output.new ≡ output.old) }
{
    pool.take(alloc, output)
}

/// Drops the reassemblies whose last fragment came before this time. The result is 0, or 4 where
/// the pool isn't open.
#[unsafe(no_mangle)]
pub extern "C" fn ep_pool_forget_before(alloc: Global, pool: &mut EpPool, time: u64) -> u32
    requires { IsPool pool.old }
    ensures pool { IsPool pool.new }
    ensures retained { (lists : Lists) (kept : Option Kept) → Keeps pool.old lists kept
        → Keeps pool.new (λ name channel. retained_from time (lists name channel)) kept }
    ensures result { (pool.old.is_open ≡ true → result ≡ 0)
        × (pool.old.is_open ≡ false → (result ≡ 4) × (pool.new ≡ pool.old)) }
{
    pool.forget_before(alloc, time)
}

/// How many datagrams are not complete, 0 where the pool isn't open. A complete message isn't
/// counted.
#[unsafe(no_mangle)]
pub extern "C" fn ep_pool_open(alloc: Global, pool: &mut EpPool) -> usize
    requires { IsPool pool.old }
    ensures pool { IsPool pool.new }
    ensures counted { (lists : Lists) (kept : Option Kept) → Keeps pool.old lists kept
        → Keeps pool.new lists kept × IsOpenCount lists result }
    ensures closed { pool.old.is_open ≡ false → (result ≡ 0) × (pool.new ≡ pool.old) }
{
    pool.open_len(alloc)
}

/// Frees a pool and all that it holds. One that isn't open stays as it is.
#[unsafe(no_mangle)]
pub extern "C" fn ep_pool_free(alloc: Global, pool: &mut EpPool)
    requires { IsPool pool.old }
    ensures closed { pool.new.is_open ≡ false }
    ensures freed { pool.old.is_open ≡ true → pool.new.held.value ≡ None }
    ensures unchanged { pool.old.is_open ≡ false → pool.new ≡ pool.old }
{
    pool.free(alloc);
}
