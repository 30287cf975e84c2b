ghost use Rattle.std.specs.Prelude.{◌≡◌};
ghost use Rattle.vme_protocol.specs.Arbitration.{two_hold, takes_ungranted, passes_grant, grants_while_busy, breaks_grants, began};

use crate::sample::Sample;
use crate::scope::Scope;

/// Whether two slots drive BBSY*, or BBSY* is not the level that the slots drive: J14.
#[tactic(auto, unfolding(crate::specs::Arbitration::two_hold))]
pub(crate) fn two_hold(scope: &Scope, s: &Sample) -> bool
    ensures { result ≡ two_hold scope.now s.now }
{
    let is_other = scope.busy_line && s.busy != (s.drivers == 0);
    scope.drivers && (s.drivers.count_ones() > 1 || is_other)
}

/// The slots that begin to drive BBSY*.
fn began(before: &Sample, after: &Sample) -> u32
    ensures { result ≡ began before.now after.now }
{
    after.drivers & (before.drivers ^ after.drivers)
}

/// Whether a slot begins to drive BBSY* without a request and a grant before.
fn takes_ungranted(before: &Sample, after: &Sample) -> bool
    ensures { result ≡ takes_ungranted before.now after.now }
{
    let began = began(before, after);
    began & (before.requests & before.grants) != began
}

/// Whether a slot begins to drive BBSY* while the grant goes on to a higher slot.
fn passes_grant(before: &Sample, after: &Sample) -> bool
    ensures { result ≡ passes_grant before.now after.now }
{
    let began = began(before, after);
    began != 0 && (before.grants | after.grants) / 2 >= began
}

/// Whether a grant begins while BBSY* is low.
fn grants_while_busy(before: &Sample, after: &Sample) -> bool
    ensures { result ≡ grants_while_busy before.now after.now }
{
    after.grants & (before.grants ^ after.grants) != 0 && !after.busy
}

/// Whether a grant and its taking are out of order: J15.
#[tactic(auto, unfolding(crate::specs::Arbitration::breaks_grants))]
pub(crate) fn breaks_grants(scope: &Scope, before: &Sample, after: &Sample) -> bool
    ensures { result ≡ breaks_grants scope.now before.now after.now }
{
    scope.grants
        && (takes_ungranted(before, after)
            || passes_grant(before, after)
            || grants_while_busy(before, after))
}
