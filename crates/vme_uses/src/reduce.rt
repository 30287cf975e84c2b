//! A use of `vme_reduce`.
ghost use Rattle.std.specs.Prelude.{◌<◌, All, IfOk};

use std::alloc::Global;
use vme_explore::ExploreFault;
use vme_reduce::{Reduction, explore_choices, schedule_to};

/// Returns turns that lead to the state that a search by choices finds last, among at most a million.
pub fn schedule_to_the_last<R: Reduction>(
    alloc: Global,
    system: &R,
) -> Result<Vec<usize>, ExploreFault>
    ensures { IfOk result (λ turns. All (λ actor. actor < R.count system.now) turns.items) }
{
    let found = explore_choices(alloc, system, 1_000_000)?;
    let last = found.states.len().saturating_sub(1);
    Ok(schedule_to(alloc, system, &found, last)?)
}
