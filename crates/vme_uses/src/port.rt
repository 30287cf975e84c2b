//! A use of `vme_port`.
ghost use Rattle.std.specs.Prelude.{◌≡◌, ◌+◌, All, IfOk, IfSome};
ghost use Rattle.std.specs.List.{sum_by};
ghost use Rattle.vme_port.specs.Ports.{IsPassOf};

use std::sync::Wait;
use vme_object::{Counter, CounterCmd};
use vme_port::{Pass, Port, Spent};

/// Bumps a counter that other threads may bump at the same time. Returns the number before.
pub fn bump<R: Wait>(rt: &R, port: &Port<Counter>, pass: &mut Pass<Counter>) -> Result<u64, Spent>
    requires { IsPassOf port.now pass.old }
    ensures port { IsPassOf port.now pass.new }
    ensures made { IfOk result (λ _. pass.new.made ≡ pass.old.made + 1) }
{
    port.call(rt, pass, &CounterCmd::Bump)
}

/// Closes the port with all its passes, and returns the number of all calls.
pub fn total(port: Port<Counter>, passes: Vec<Pass<Counter>>) -> Option<u64>
    requires { All (IsPassOf port) passes.items }
    ensures { IfSome result (λ calls. calls ≡ sum_by (λ p. p.made) passes.items) }
{
    Some(port.settle(passes).ok()?.1)
}
