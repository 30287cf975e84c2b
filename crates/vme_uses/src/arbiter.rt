//! A use of `vme_arbiter`.
ghost use Rattle.std.specs.Prelude.{◌≡◌};

use vme_arbiter::{ArbCmd, ArbReply, Arbiter};
use vme_object::Object;

/// Returns the replies to requests for the bus by two slots. The second slot waits, although its
/// level is greater.
pub fn two_requests() -> (ArbReply, ArbReply)
    ensures { result ≡ (ArbReply.Granted, ArbReply.Waiting) }
{
    let mut arbiter = Arbiter::new();
    let first = arbiter.apply(&ArbCmd::Ask { slot: 9, level: 0 });
    let second = arbiter.apply(&ArbCmd::Ask { slot: 5, level: 3 });
    (first, second)
}
