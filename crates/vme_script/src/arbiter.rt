//! The kinds of arbiter, by the words that name them.
ghost use Rattle.std.specs.Prelude.{◌≡◌};
ghost use Rattle.vme_script.specs.Arbiters.{kind_named};
ghost use Rattle.vme_script.specs.Causes.{schedule_refusal, refused_as};

use crate::cause::ScheduleCause;
use vme_arbiter::ArbiterKind;

/// Returns the kind of arbiter that `word` names: `priority` or `rotating`.
#[tactic(auto, unfolding(crate::specs::Arbiters::kind_named))]
pub fn kind_named(word: &str) -> Result<ArbiterKind, ScheduleCause>
    ensures { refused_as schedule_refusal result ≡ kind_named word.now }
{
    match word {
        "priority" => Ok(ArbiterKind::Priority),
        "rotating" => Ok(ArbiterKind::Rotating),
        _ => Err(ScheduleCause::NoArbiter),
    }
}
