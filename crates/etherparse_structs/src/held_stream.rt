//! A stream, held by C as a pointer.
ghost use Rattle.std.specs.Prelude.{◌≡◌, Option, Some, None, IsSome};
ghost use Rattle.std.specs.Coded.{coded_option};
ghost use Rattle.c_handles.specs.Holds.{holds};
ghost use Rattle.etherparse_structs.specs.declared.stream_box.StreamBox.{StreamBox as Value};
ghost use Rattle.etherparse_structs.specs.contracts.stream_box.StreamBox.{the_row as row};

use crate::stream_box::StreamBox;
use c_handles::Loose;
use std::alloc::Global;
use std::marker::Model;
use std::ptr::null_mut;

/// A pointer to a stream, or to nothing.
#[repr(C)]
#[derive(Drop)]
pub struct HeldStream {
    at: *mut u8,
    ghost value: { Option Value } by { coded_option row.coded },
}

impl Model for HeldStream {
    ghost also_owns = { λ h. holds row h.at h.value };
}

impl HeldStream {
    pub(crate) fn none() -> HeldStream
        ensures { result.value ≡ None }
    {
        HeldStream { at: null_mut() }
    }

    pub(crate) fn of(value: Loose<StreamBox, Global>) -> HeldStream
        ensures { result.value ≡ Some value.value }
    {
        let Loose { at, alloc: _ } = value;
        HeldStream { at: at as *mut u8 }
    }

    pub(crate) fn into_loose(self, alloc: Global) -> Loose<StreamBox, Global>
        requires { IsSome self.value }
        ensures { self.value ≡ Some result.value }
    {
        let HeldStream { at } = self;
        Loose {
            at: at as *mut StreamBox,
            alloc,
        }
    }
}
