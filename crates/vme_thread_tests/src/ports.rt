//! Tests of ports and of arrays of ports, on one thread and on several; and what they share: they
//! open a port, and make calls by its passes.
ghost use Rattle.std.specs.Prelude.{◌≡◌, All};
ghost use Rattle.vme_port.specs.Ports.{IsPassOf, passes_of};

mod arrays;
mod boards;
mod counters;
mod held;

use std::alloc::Global;
use std::process::Abort;
use vme_object::Object;
use vme_port::{Pass, Port, PortFault};

/// Opens a port of an object with `count` passes, and panics if that fails.
pub(crate) fn open<O: Object + Drop>(
    rt: &impl Abort,
    alloc: Global,
    object: O,
    count: usize,
) -> (Port<O>, Vec<Pass<O>>)
    ensures port { All (IsPassOf result.0) result.1.items }
    ensures passes { passes_of result.0 ≡ count }
{
    match Port::new(alloc, object, count) {
        Ok(opened) => opened,
        Err(PortFault::OutOfMemory) => panic!(rt; "no memory"),
        Err(PortFault::BadCount) => panic!(rt; "a bad count"),
    }
}

/// Makes one try by the pass at an index, and returns the reply.
pub(crate) fn reply_to<O: Object>(
    rt: &impl Abort,
    port: &Port<O>,
    passes: &mut Vec<Pass<O>>,
    who: usize,
    cmd: &O::Cmd,
) -> O::Reply
    requires { All (IsPassOf port.now) passes.old.items }
    ensures { All (IsPassOf port.now) passes.new.items }
{
    if who >= passes.len() {
        panic!(rt; "no pass")
    }
    match port.try_call(&mut passes[who], cmd) {
        Ok(reply) => reply,
        Err(_) => panic!(rt; "refused"),
    }
}

/// Removes and returns the last pass.
pub(crate) fn last_pass<O: Object>(
    rt: &impl Abort,
    port: &Port<O>,
    passes: &mut Vec<Pass<O>>,
) -> Pass<O>
    requires { All (IsPassOf port.now) passes.old.items }
    ensures pass { IsPassOf port.now result }
    ensures passes { All (IsPassOf port.now) passes.new.items }
{
    match passes.pop() {
        Some(pass) => pass,
        None => panic!(rt; "no pass"),
    }
}
