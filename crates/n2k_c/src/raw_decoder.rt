// What C holds: a box as its pointer, or nothing.
ghost use Rattle.std.specs.Prelude.{◌≡◌, Option, Some, None, IsSome};
ghost use Rattle.n2k_c.specs.declared.decoder.Decoder.{Decoder};
ghost use Rattle.n2k_c.specs.contracts.decoder.Decoder.{the_row};
ghost use Rattle.n2k_c.specs.DecoderView.{owned_of};

use crate::decoder::Decoder;
use crate::raw_box::RawBox;
use std::alloc::Global;
use std::marker::Model;
use std::ptr::null_mut;

#[repr(C)]
#[derive(Drop)]
pub struct RawDecoder {
    at: *mut u8,
    pub ghost holds: { Option Decoder },
}

impl Model for RawDecoder {
    ghost also_owns = { λ h. owned_of the_row h.at h.holds };
}

impl RawDecoder {
    pub(crate) fn none() -> RawDecoder
        ensures { result.holds ≡ None }
    {
        RawDecoder { at: null_mut() }
    }

    pub(crate) fn of(raw: RawBox<Decoder, Global>) -> RawDecoder
        ensures { result.holds ≡ Some raw.value }
    {
        let RawBox { at, alloc: _ } = raw;
        RawDecoder { at: at as *mut u8 }
    }

    pub(crate) fn into_raw_box(self, alloc: Global) -> RawBox<Decoder, Global>
        requires { IsSome self.holds }
        ensures { Some result.value ≡ self.holds }
    {
        let RawDecoder { at } = self;
        RawBox {
            at: at as *mut Decoder,
            alloc,
        }
    }
}

// A decoder may go to another thread, and so may what owns it: `laws.rt` has the proof.
unsafe impl Send for RawDecoder {}
