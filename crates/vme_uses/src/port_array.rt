//! A use of `vme_port_array`.
ghost use Rattle.std.specs.Prelude.{◌≡◌, ◌+◌, ◌<◌, IfOk};
ghost use Rattle.vme_port_array.specs.Arrays.{IsPassOf, objects_of};

use std::sync::Wait;
use vme_object::{Counter, CounterCmd};
use vme_port::Spent;
use vme_port_array::{Pass, PortArray};

/// Bumps one counter and then reads another. All passes see these calls in this order.
pub fn bump_then_show<R: Wait>(
    rt: &R,
    array: &PortArray<Counter>,
    pass: &mut Pass<Counter>,
    bumped: usize,
    shown: usize,
) -> Result<u64, Spent>
    requires pass { IsPassOf array.now pass.old }
    requires bumped { bumped < objects_of array.now }
    requires shown { shown < objects_of array.now }
    ensures { IfOk result (λ _. pass.new.made ≡ pass.old.made + 2) }
{
    array.call(rt, pass, bumped, &CounterCmd::Bump)?;
    array.call(rt, pass, shown, &CounterCmd::Show)
}
