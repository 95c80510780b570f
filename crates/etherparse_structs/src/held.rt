//! A pool, held by C as a pointer.
ghost use Rattle.std.specs.Prelude.{◌≡◌, Option, Some, None, IsSome};
ghost use Rattle.std.specs.Coded.{coded_option};
ghost use Rattle.c_handles.specs.Holds.{holds};
ghost use Rattle.etherparse_structs.specs.declared.frame_pool.FramePool.{FramePool as Value};
ghost use Rattle.etherparse_structs.specs.contracts.frame_pool.FramePool.{the_row as row};

use crate::frame_pool::FramePool;
use c_handles::Loose;
use std::alloc::Global;
use std::marker::Model;
use std::ptr::null_mut;

/// A pointer to a pool, or to nothing.
#[repr(C)]
#[derive(Drop)]
pub struct Held {
    at: *mut u8,
    ghost value: { Option Value } by { coded_option row.coded },
}

impl Model for Held {
    ghost also_owns = { λ h. holds row h.at h.value };
}

impl Held {
    pub(crate) fn none() -> Held
        ensures { result.value ≡ None }
    {
        Held { at: null_mut() }
    }

    pub(crate) fn of(value: Loose<FramePool, Global>) -> Held
        ensures { result.value ≡ Some value.value }
    {
        let Loose { at, alloc: _ } = value;
        Held { at: at as *mut u8 }
    }

    pub(crate) fn into_loose(self, alloc: Global) -> Loose<FramePool, Global>
        requires { IsSome self.value }
        ensures { self.value ≡ Some result.value }
    {
        let Held { at } = self;
        Loose {
            at: at as *mut FramePool,
            alloc,
        }
    }
}
