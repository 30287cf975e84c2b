ghost use Rattle.std.specs.Prelude.{◌≡◌, Option, Some, None, IsSome};
ghost use Rattle.vme_processor.specs.declared.processor.Processor.{Processor};
ghost use Rattle.vme_handle.specs.Held.{held};

use crate::loose::Loose;
use std::alloc::Global;
use std::marker::{Model, Send};
use std::ptr::null_mut;
use vme_processor::Processor;

/// What a caller outside sees of a processor: nothing.
#[repr(C)]
pub struct Hidden {
    /// No byte of the processor.
    hidden: u8,
}

/// A boxed processor by its address, or nothing.
#[repr(C)]
#[derive(Drop)]
pub struct Handle {
    at: *mut Hidden,
    pub ghost value: { Option Processor },
}

impl Model for Handle {
    ghost also_owns = { λ h. held h.at h.value };
}

impl Handle {
    /// Returns a handle of nothing.
    pub fn empty() -> Handle
        ensures { result.value ≡ None }
    {
        Handle { at: null_mut() }
    }

    /// Hides the pointer.
    fn hide(loose: Loose<Processor, Global>) -> Handle
        ensures { result.value ≡ Some loose.value }
    {
        let Loose { at, alloc: _ } = loose;
        Handle { at: at.cast() }
    }

    /// Shows the pointer.
    fn show(self, alloc: Global) -> Loose<Processor, Global>
        requires { IsSome self.value }
        ensures { Some result.value ≡ self.value }
    {
        let Handle { at } = self;
        Loose {
            at: at.cast(),
            alloc,
        }
    }

    /// Returns the handle of a boxed processor.
    pub fn of(value: Box<Processor, Global>) -> Handle
        ensures { result.value ≡ Some value.value }
    {
        Handle::hide(Loose::of(value))
    }

    /// Returns the boxed processor.
    pub fn into_box(self, alloc: Global) -> Box<Processor, Global>
        requires { IsSome self.value }
        ensures { Some result.value ≡ self.value }
    {
        self.show(alloc).into_box()
    }
}

// It may go to another thread, as the value may.
unsafe impl Send for Handle {}
