//! A use of `vme_states`.
ghost use Rattle.std.specs.Prelude.{IfOk, length};
ghost use Rattle.vme_explore.specs.Runs.{HasAll};
ghost use Rattle.vme_states.specs.BareStates.{bare_turn, initial_bare};

use std::alloc::Global;
use vme_explore::{ExploreFault, Explored, explore};
use vme_script::Config;
use vme_states::{State, States};

/// Returns all states of a configuration, if there are at most a million.
pub fn all_states(alloc: Global, config: &Config) -> Result<Explored<State>, ExploreFault>
    ensures { IfOk result (λ found. HasAll (bare_turn config.now) (length config.now.boards)
        (initial_bare config.now) found.states.items) }
{
    explore(alloc, &States { config }, 1_000_000)
}
