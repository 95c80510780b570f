//! The reassembly of datagrams from their fragments.
ghost use Rattle.std.specs.Prelude.{◌≡◌, ◌<◌, ◌⊎◌, true, false, Option, Some, None, IfOk, IsSome, length};
ghost use Rattle.etherparse.specs.OpenReassemblies.{IsOpenCount};
ghost use Rattle.etherparse.specs.PoolCalls.{Lists, ShowsLists, fault_in, no_lists, retained_from};
ghost use Rattle.etherparse.specs.packet.Class.{sliced_class};
ghost use Rattle.etherparse_structs.specs.FramePool.{IsAnswered, Kept, added, completed, kept_of, written};
ghost use Rattle.etherparse_structs.specs.Pool.{IsPool, Keeps};

use crate::frame_pool::FramePool;
use crate::held::Held;
use crate::{DONE, EpAdded, NO_MEMORY, WRONG_STATE};
use c_handles::Loose;
use etherparse::SlicedPacket;
use etherparse::defrag::IpDefragPool;
use etherparse::err::packet::SliceError;
use etherparse::laws::defrag::reassemblies::a_new_pool_shows_no_lists;
use std::alloc::{AllocError, Global};
use std::mem::replace;

/// A pool that reassembles datagrams. It starts as zeros, and only these calls change it.
#[repr(C)]
#[derive(Drop)]
pub struct EpPool {
    /// Whether it was opened and not freed.
    pub is_open: bool,
    /// For these calls alone.
    pub held: Held,
}

impl EpPool {
    /// Opens it without fragments. The result is 0 where it is open, 2 where there is no memory,
    /// and 4 where it was open before. Where it isn't 0 nothing is changed.
    pub fn begin(&mut self, alloc: Global) -> u32
        requires { IsPool self.old }
        ensures pool { IsPool self.new }
        ensures opened { result ≡ 0 → Keeps self.new no_lists None }
        ensures unchanged { 0 < result → self.new ≡ self.old }
        ensures wrong_state { self.old.is_open ≡ true → result ≡ 4 }
        ensures codes { self.old.is_open ≡ false → (result ≡ 0) ⊎ (result ≡ 2) }
    {
        if self.is_open {
            return WRONG_STATE;
        }
        let Ok(frames) = new_frames(alloc) else {
            return NO_MEMORY;
        };
        put(self, frames);
        DONE
    }

    /// Takes a frame that was sliced, which came at this time on this channel, and writes the message
    /// that is complete with it, unless the output is too short. While a message is kept, no frame
    /// is taken.
    ///
    /// The status is 5 where a message is complete and written, 1 where the output is too short and
    /// the message is kept, 0 where none is complete, 2 where there is no memory for the fragment,
    /// 3 where the frame or the fragment is refused, and 4 where the pool isn't open or keeps a
    /// message.
    pub fn add(
        &mut self,
        alloc: Global,
        sliced: Result<SlicedPacket<'_>, SliceError>,
        time: u64,
        channel: u32,
        output: &mut [u8],
    ) -> EpAdded
        requires { IsPool self.old }
        ensures pool { IsPool self.new }
        ensures answered { (lists : Lists) → Keeps self.old lists None → IsAnswered
            (Keeps self.new) lists (sliced_class sliced.entry) time channel
            (fault_in sliced.entry) output.old output.new result }
        ensures keeps { (lists : Lists) (kept : Kept) → Keeps self.old lists (Some kept)
            → Keeps self.new lists (Some kept) × (result ≡ added 4) × (output.new ≡ output.old) }
        ensures closed { self.old.is_open ≡ false
            → (self.new ≡ self.old) × (result ≡ added 4) × (output.new ≡ output.old) }
    {
        if !self.is_open {
            return EpAdded::of(WRONG_STATE);
        }
        let mut frames = taken(alloc, self);
        let added = frames.take_frame(sliced, time, channel, output);
        put(self, frames);
        added
    }

    /// Writes the message that is kept, unless the output is too short. The status is 5 where it is
    /// written, 1 where the output is too short, and 4 where the pool isn't open or keeps none.
    pub fn take(&mut self, alloc: Global, output: &mut [u8]) -> EpAdded
        requires { IsPool self.old }
        ensures pool { IsPool self.new }
        ensures taken { (lists : Lists) (kept : Kept) → Keeps self.old lists (Some kept)
            → Keeps self.new lists (kept_of (length output.old) (Some kept.0) kept.1)
            × (result ≡ completed (length output.old) kept.0 kept.1)
            × (output.new ≡ written output.old kept.1) }
        ensures none { (lists : Lists) → Keeps self.old lists None
            → Keeps self.new lists None × (result ≡ added 4) × (output.new ≡ output.old) }
        ensures closed { self.old.is_open ≡ false
            → (self.new ≡ self.old) × (result ≡ added 4) × (output.new ≡ output.old) }
    {
        if !self.is_open {
            return EpAdded::of(WRONG_STATE);
        }
        let mut frames = taken(alloc, self);
        let reported = frames.take_kept(output);
        put(self, frames);
        reported
    }

    /// Drops the reassemblies whose last fragment came before this time. The result is 0, or 4
    /// where the pool isn't open.
    pub fn forget_before(&mut self, alloc: Global, time: u64) -> u32
        requires { IsPool self.old }
        ensures pool { IsPool self.new }
        ensures retained { (lists : Lists) (kept : Option Kept) → Keeps self.old lists kept
            → Keeps self.new (λ name channel. retained_from time (lists name channel)) kept }
        ensures result { (self.old.is_open ≡ true → result ≡ 0)
            × (self.old.is_open ≡ false → (result ≡ 4) × (self.new ≡ self.old)) }
    {
        if !self.is_open {
            return WRONG_STATE;
        }
        let mut frames = taken(alloc, self);
        frames.forget_before(time);
        put(self, frames);
        DONE
    }

    /// How many datagrams are not complete, 0 where it isn't open.
    pub fn open_len(&mut self, alloc: Global) -> usize
        requires { IsPool self.old }
        ensures pool { IsPool self.new }
        ensures counted { (lists : Lists) (kept : Option Kept) → Keeps self.old lists kept
            → Keeps self.new lists kept × IsOpenCount lists result }
        ensures closed { self.old.is_open ≡ false → (result ≡ 0) × (self.new ≡ self.old) }
    {
        if !self.is_open {
            return 0;
        }
        let frames = taken(alloc, self);
        let count = frames.open_len();
        put(self, frames);
        count
    }

    /// Frees all that it holds. One that isn't open stays as it is.
    pub fn free(&mut self, alloc: Global)
        requires { IsPool self.old }
        ensures closed { self.new.is_open ≡ false }
        ensures freed { self.old.is_open ≡ true → self.new.held.value ≡ None }
        ensures unchanged { self.old.is_open ≡ false → self.new ≡ self.old }
    {
        if self.is_open {
            drop(taken(alloc, self));
        }
    }
}

fn new_frames(alloc: Global) -> Result<Box<FramePool>, AllocError>
    ensures lists { IfOk result (λ frames. ShowsLists frames.value.pool no_lists) }
    ensures kept { IfOk result (λ frames. frames.value.kept ≡ None) }
{
    a_new_pool_shows_no_lists();
    let frames = FramePool {
        pool: IpDefragPool::new(alloc),
        kept: None,
    };
    match Box::new(alloc, frames) {
        Ok(frames) => Ok(frames),
        Err(_) => Err(AllocError),
    }
}

// The reassemblies of an open pool, which is closed then.
fn taken(alloc: Global, pool: &mut EpPool) -> Box<FramePool>
    requires { IsSome pool.old.held.value }
    ensures frames { pool.old.held.value ≡ Some result.value }
    ensures closed { pool.new.is_open ≡ false }
    ensures none { pool.new.held.value ≡ None }
{
    pool.is_open = false;
    replace(&mut pool.held, Held::none())
        .into_loose(alloc)
        .into_box()
}

fn put(pool: &mut EpPool, frames: Box<FramePool>)
    ensures held { pool.new.held.value ≡ Some frames.value }
    ensures opened { pool.new.is_open ≡ true }
{
    pool.held = Held::of(Loose::of(frames));
    pool.is_open = true;
}
