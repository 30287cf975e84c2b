//! Laws of verdicts. Each function's contract is a law; its body is empty.
ghost use Rattle.std.specs.Prelude.{◌≡◌, ℕ, List, ◌∷◌, ◌++◌, take, IsTrue};
ghost use Rattle.std.specs.List.{list_all};
ghost use Rattle.vme_protocol.specs.declared.sample.Sample.{Sample};
ghost use Rattle.vme_protocol.specs.declared.scope.Scope.{Scope};
ghost use Rattle.vme_protocol.specs.declared.rule.Rule.{Rule};
ghost use Rattle.vme_protocol.specs.declared.verdict.Verdict.TheVariants.{Legal, Illegal};
ghost use Rattle.vme_protocol.specs.Verdicts.{verdict, is_under_address_strobe};

/// States that an illegal trace stays illegal however it goes on, by the same sample and rule.
#[tactic(auto, using(crate::proofs::LawLemmas::stays))]
pub fn illegal_traces_stay_illegal()
    ensures { (scope : Scope) (samples more : List Sample) (at : ℕ) (rule : Rule) →
        verdict scope samples ≡ Illegal at rule → verdict scope (samples ++ more) ≡ Illegal at rule }
{}

/// States that an illegal trace is legal up to its illegal sample.
#[tactic(auto, using(crate::proofs::LawLemmas::legal_before))]
pub fn illegal_traces_are_legal_before()
    ensures { (scope : Scope) (samples : List Sample) (at : ℕ) (rule : Rule) →
        verdict scope samples ≡ Illegal at rule → verdict scope (take at samples) ≡ Legal }
{}

/// States that in a legal trace each data strobe is low only while AS* is; but for the model, it may
/// stay low under the answer.
pub fn strobes_are_low_under_the_address_strobe()
    ensures { (scope : Scope) (first : Sample) (samples : List Sample) →
        verdict scope (first ∷ samples) ≡ Legal → IsTrue (list_all (is_under_address_strobe scope) samples) }
{}
