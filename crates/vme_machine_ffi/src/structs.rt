//! Processors in the structs of C, and out of them.
ghost use Rattle.std.specs.Prelude.{◌≡◌, ◌≤◌, ◌++◌, [], true, length, drop, vec_len, vec_capacity, IfOk};
ghost use Rattle.vme_machine_ffi.specs.Structs.{processors_in, full, values_of};

use crate::handle::VmeProcessor;
use std::alloc::{AllocError, Global};
use vme_processor::Processor;

/// Takes the processors out of their structs, in order, up to the first empty one. Returns whether
/// each struct had a processor.
pub(crate) fn take_all(
    alloc: Global,
    all: &mut [VmeProcessor],
    boxes: &mut Vec<Box<Processor, Global>>,
) -> bool
    requires empty { boxes.old.items ≡ [] }
    requires capacity { length all.old ≤ vec_capacity boxes.old }
    ensures len { length all.new ≡ length all.old }
    ensures most { vec_len boxes.new ≤ length all.old }
    ensures taken { full (values_of boxes.new.items) ++ processors_in (drop (vec_len boxes.new) all.new)
        ≡ processors_in all.old }
    ensures all { result ≡ true → full (values_of boxes.new.items) ≡ processors_in all.old }
{
    for i in 0..all.len() {
        let Some(processor) = all[i].take(alloc) else {
            return false;
        };
        boxes.push_reserved(processor);
    }
    true
}

/// Puts processors into the first structs, in order.
pub(crate) fn put_all(mut boxes: Vec<Box<Processor, Global>>, all: &mut [VmeProcessor])
    requires { vec_len boxes ≤ length all.old }
    ensures { processors_in all.new
        ≡ full (values_of boxes.items) ++ processors_in (drop (vec_len boxes) all.old) }
{
    while let Some(processor) = boxes.pop() {
        all[boxes.len()] = VmeProcessor::of(processor);
    }
}

/// Takes processors out of their boxes, in order.
pub(crate) fn unbox(boxes: Vec<Box<Processor, Global>>, processors: &mut Vec<Processor>)
    requires empty { processors.old.items ≡ [] }
    requires capacity { vec_len boxes ≤ vec_capacity processors.old }
    ensures { processors.new.items ≡ values_of boxes.items }
{
    for processor in boxes {
        processors.push_reserved(Box::into_inner(processor));
    }
}

/// Boxes processors, in order.
///
/// # Errors
/// `AllocError` if an allocation fails. The processors are dropped.
pub(crate) fn boxed(
    alloc: Global,
    processors: Vec<Processor>,
) -> Result<Vec<Box<Processor, Global>>, AllocError>
    ensures { IfOk result (λ boxes. values_of boxes.items ≡ processors.items) }
{
    let mut boxes = Vec::with_capacity(alloc, processors.len())?;
    for processor in processors {
        let Ok(processor) = Box::new(alloc, processor) else {
            return Err(AllocError);
        };
        boxes.push_reserved(processor);
    }
    Ok(boxes)
}
