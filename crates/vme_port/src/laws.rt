//! Laws about sequences of calls, made on any threads.
ghost use Rattle.std.specs.Prelude.{◌≡◌, ◌+◌, ◌++◌, [], ℕ, List, take, length, Contains};
ghost use Rattle.std.specs.List.{sum_by};
ghost use Rattle.atomic_table.specs.Seated.{TableId};
ghost use Rattle.vme_object.specs.declared.history.Entry.{Entry};
ghost use Rattle.vme_object.specs.History.{own};
ghost use Rattle.vme_object.specs.Each.{Each};
ghost use Rattle.vme_port.specs.Passes.{PassView, IsUnused};
ghost use Rattle.vme_port.specs.Calls.{Adds, Makes};
ghost use Rattle.vme_port.specs.Settlements.{Settles, HasPlaceIn};

use vme_object::Object;

/// Calls compose. Without a call, a pass makes no entry. Over one call, it makes the entries that
/// the call adds. Over two sequences of calls, it makes the entries of the first, followed by those
/// of the second.
pub fn calls_compose<O: Object>()
    ensures none { (p : PassView O.Cmd O.Reply) → Makes [] p p }
    ensures one { (start : O) (es : List (Entry O.Cmd O.Reply)) (p q : PassView O.Cmd O.Reply) →
        Adds O.step start es p q → Makes es p q }
    ensures more { (a b : List (Entry O.Cmd O.Reply)) (p q r : PassView O.Cmd O.Reply) →
        Makes a p q → Makes b q r → Makes (a ++ b) p r }
{}

/// The calls of all passes of a settled port make one history.
///
/// Each entry that a pass made after some moment has exactly one place in the history. That place
/// is after everything that the pass had seen at that moment and after the entries that the pass
/// made before this one, and the entry has the reply of the step there. The history has no other
/// entries than those of the passes, and as many as they made together. A pass that was unused at
/// that moment made exactly its own part of the history.
pub fn calls_make_one_history<O: Object>()
    ensures placed { (start object : O) (k n : ℕ) (passes : List (PassView O.Cmd O.Reply))
        (outcome : Settles O.step start k passes object n)
        (es : List (Entry O.Cmd O.Reply)) (p q : PassView O.Cmd O.Reply) →
        Contains passes q → Makes es p q →
        Each (λ i e. HasPlaceIn O.step start outcome.history p.seen (p.mine ++ take i es) e) es }
    ensures one_place { (start : O) (h seen others mine : List (Entry O.Cmd O.Reply))
        (e f : Entry O.Cmd O.Reply) → e.who ≡ f.who →
        (a : HasPlaceIn O.step start h seen mine e) → (b : HasPlaceIn O.step start h others mine f) →
        a.before ≡ b.before }
    ensures no_others { (start object : O) (k n : ℕ) (passes : List (PassView O.Cmd O.Reply))
        (outcome : Settles O.step start k passes object n) (e : Entry O.Cmd O.Reply) →
        Contains outcome.history e →
        (p : PassView O.Cmd O.Reply) × Contains passes p × Contains p.mine e }
    ensures as_many { (start object : O) (k n : ℕ) (passes : List (PassView O.Cmd O.Reply))
        (outcome : Settles O.step start k passes object n) →
        length outcome.history ≡ sum_by (λ p. length p.mine) passes }
    ensures parts { (start object : O) (k n : ℕ) (passes : List (PassView O.Cmd O.Reply))
        (outcome : Settles O.step start k passes object n) (port : TableId) (who : ℕ)
        (es : List (Entry O.Cmd O.Reply)) (p q : PassView O.Cmd O.Reply) →
        IsUnused port who p → Makes es p q → Contains passes q → own who outcome.history ≡ es }
{}
