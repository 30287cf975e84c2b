//! A use of `vme_explore`.
ghost use Rattle.std.specs.Prelude.{◌<◌, All, IfOk};

use std::alloc::Global;
use vme_explore::{ExploreFault, System, explore, turns_to};

/// Returns turns that lead to the state that a search of at most a million states finds last.
pub fn turns_to_the_last<Y: System>(alloc: Global, system: &Y) -> Result<Vec<usize>, ExploreFault>
    ensures { IfOk result (λ turns. All (λ actor. actor < Y.count system.now) turns.items) }
{
    let found = explore(alloc, system, 1_000_000)?;
    let last = found.states.len().saturating_sub(1);
    Ok(turns_to(alloc, system, &found, last)?)
}
