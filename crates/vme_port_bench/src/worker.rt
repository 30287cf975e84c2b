ghost use Rattle.std.specs.Prelude.{IfSome};
ghost use Rattle.vme_port_bench.specs.Workers.{HasBumped};

use std::sync::Wait;
use std::thread::Promise;
use vme_object::{Counter, CounterCmd};
use vme_port::{Pass, Port};

/// The promise of a thread: a pass that it returns is one of the port and made `calls` increments.
#[derive(Clone, Copy)]
pub struct CallsOf<'a> {
    /// The port that the thread calls.
    pub port: &'a Port<Counter>,
    /// The number of calls that the thread makes.
    pub calls: u64,
}

impl<'a> Promise<Option<Pass<Counter>>> for CallsOf<'a> {
    ghost kept_by = { λ p r. IfSome r (HasBumped p.port.now p.calls) };
}

/// Increments the counter `calls` times with this pass, and returns the pass, or `None` if the
/// history is full.
pub fn work<R: Wait>(
    rt: &R,
    port: &Port<Counter>,
    mut pass: Pass<Counter>,
    calls: u64,
) -> Option<Pass<Counter>>
    requires { HasBumped port.now 0 pass }
    ensures { IfSome result (HasBumped port.entry.now calls) }
{
    for _ in 0..calls {
        // A call that fails adds no entry, so the number of entries shows it.
        let _ = port.call(rt, &mut pass, &CounterCmd::Bump);
    }
    if pass.made() == calls {
        Some(pass)
    } else {
        None
    }
}
