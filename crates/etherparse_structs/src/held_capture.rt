//! A capture, held by C as a pointer.
ghost use Rattle.std.specs.Prelude.{◌≡◌, Option, Some, None, IsSome};
ghost use Rattle.std.specs.Coded.{coded_option};
ghost use Rattle.c_handles.specs.Holds.{holds};
ghost use Rattle.etherparse_structs.specs.declared.capture_box.CaptureBox.{CaptureBox as Value};
ghost use Rattle.etherparse_structs.specs.contracts.capture_box.CaptureBox.{the_row as row};

use crate::capture_box::CaptureBox;
use c_handles::Loose;
use std::alloc::Global;
use std::marker::Model;
use std::ptr::null_mut;

/// A pointer to a capture, or to nothing.
#[repr(C)]
#[derive(Drop)]
pub struct HeldCapture {
    at: *mut u8,
    ghost value: { Option Value } by { coded_option row.coded },
}

impl Model for HeldCapture {
    ghost also_owns = { λ h. holds row h.at h.value };
}

impl HeldCapture {
    pub(crate) fn none() -> HeldCapture
        ensures { result.value ≡ None }
    {
        HeldCapture { at: null_mut() }
    }

    pub(crate) fn of(value: Loose<CaptureBox, Global>) -> HeldCapture
        ensures { result.value ≡ Some value.value }
    {
        let Loose { at, alloc: _ } = value;
        HeldCapture { at: at as *mut u8 }
    }

    pub(crate) fn into_loose(self, alloc: Global) -> Loose<CaptureBox, Global>
        requires { IsSome self.value }
        ensures { self.value ≡ Some result.value }
    {
        let HeldCapture { at } = self;
        Loose {
            at: at as *mut CaptureBox,
            alloc,
        }
    }
}
