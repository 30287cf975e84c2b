ghost use Rattle.std.specs.Prelude.{◌≡◌};
ghost use Rattle.vme_protocol.specs.Verdicts.{verdict, verdict_after};

use crate::rule::Rule;
use crate::sample::Sample;
use crate::scope::Scope;
use crate::watch::Watch;

/// The verdict on a trace.
#[derive(Clone, Copy, Debug, PartialEq, Eq)]
pub enum Verdict {
    /// No sample breaks a rule.
    Legal,
    /// The sample with this index is the first that breaks a rule, and this is the rule.
    Illegal { at: usize, rule: Rule },
}

/// Returns the verdict on a trace.
#[tactic(auto, unfolding(crate::specs::Verdicts::verdict))]
pub fn judge(scope: Scope, samples: &[Sample]) -> Verdict
    ensures { result ≡ verdict scope samples.now }
{
    match samples {
        [] => Verdict::Legal,
        [first, rest @ ..] => judge_after(Watch::new(scope, *first), rest),
    }
}

/// The verdict on samples that follow others.
fn judge_after(watch: Watch, samples: &[Sample]) -> Verdict
    ensures { result ≡ verdict_after watch samples.now 1 }
{
    let mut watch = watch;
    let mut at = 1;
    for sample in samples {
        if let Err(rule) = watch.push(sample) {
            return Verdict::Illegal { at, rule };
        }
        at += 1;
    }
    Verdict::Legal
}
