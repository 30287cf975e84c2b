//! A use of `vme_cycle`.
ghost use Rattle.std.specs.Prelude.{◌≡◌, ◌↔◌, None, IsOk};
ghost use Rattle.vme_cycle.specs.Lawful.{first_refusal};

use vme_cycle::{CycleFault, Plan, Request, Signals};

/// Returns the signals of datum `i`, or `None` after the last datum.
pub fn signals_of(request: &Request, i: u16) -> Result<Option<Signals>, CycleFault>
    ensures { IsOk result ↔ (first_refusal request.now ≡ None) }
{
    let plan = Plan::of(request)?;
    if i >= plan.len() {
        return Ok(None);
    }
    Ok(Some(plan.signals(i)))
}
