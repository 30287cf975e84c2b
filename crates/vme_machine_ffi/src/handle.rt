ghost use Rattle.std.specs.Prelude.{◌≡◌, not, ◌==◌, Some, None, IfSome, IfNone};
ghost use Rattle.std.specs.Option.{is_some};

use std::alloc::Global;
use std::mem;
use vme_handle::Handle;
use vme_processor::Processor;

/// A processor of a machine, or nothing. C starts with zeros, and hands it from call to call.
#[repr(C)]
#[derive(Drop)]
pub struct VmeProcessor {
    /// 0 if it is empty. A word, since a byte would leave padding that each call copies.
    full: usize,
    handle: Handle,
    ghost agrees: { is_some handle.value ≡ not (full == 0) },
}

impl VmeProcessor {
    /// Returns a struct without a processor.
    pub(crate) fn empty() -> VmeProcessor
        ensures { result.handle.value ≡ None }
    {
        VmeProcessor {
            full: 0,
            handle: Handle::empty(),
        }
    }

    /// Returns the struct of a processor.
    pub(crate) fn of(processor: Box<Processor, Global>) -> VmeProcessor
        ensures { result.handle.value ≡ Some processor.value }
    {
        VmeProcessor {
            full: 1,
            handle: Handle::of(processor),
        }
    }

    /// Takes the processor out, and leaves nothing.
    pub(crate) fn take(&mut self, alloc: Global) -> Option<Box<Processor, Global>>
        ensures some { IfSome result (λ b. self.old.handle.value ≡ Some b.value) }
        ensures none { IfNone result (self.old.handle.value ≡ None) }
        ensures after { self.new.handle.value ≡ None }
    {
        let VmeProcessor { full, handle } = mem::replace(self, VmeProcessor::empty());
        if full == 0 {
            return None;
        }
        Some(handle.into_box(alloc))
    }
}
