//! A use of `vme_object`.
ghost use Rattle.std.specs.Prelude.{true};

use std::mem;
use vme_object::Object;

/// A latch. Its one command sets it, and the reply is whether it was set before.
#[derive(Drop)]
pub struct Latch {
    pub is_set: bool,
}

impl Object for Latch {
    type Cmd = ();

    type Reply = bool;

    ghost step = { λ latch _. (record { is_set = true }, latch.is_set) };

    fn apply(&mut self, _cmd: &()) -> bool {
        mem::replace(&mut self.is_set, true)
    }
}
