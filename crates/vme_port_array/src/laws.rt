//! Laws about sequences of calls, made on any threads, of any objects of an array.
ghost use Rattle.std.specs.Prelude.{◌≡◌, ◌++◌, [], ℕ, List, take, length, Contains};
ghost use Rattle.std.specs.List.{sum_by};
ghost use Rattle.atomic_table.specs.Seated.{TableId};
ghost use Rattle.vme_object.specs.declared.history.Entry.{Entry};
ghost use Rattle.vme_object.specs.History.{own};
ghost use Rattle.vme_object.specs.Each.{Each};
ghost use Rattle.vme_port.specs.declared.home.Home.{Home};
ghost use Rattle.vme_port.specs.Passes.{PassView, IsUnused};
ghost use Rattle.vme_port.specs.Calls.{Makes};
ghost use Rattle.vme_port_array.specs.declared.indexed.Indexed.{Indexed};
ghost use Rattle.vme_port_array.specs.Calls.{Adds};
ghost use Rattle.vme_port_array.specs.Settlements.{Settles, HasPlaceIn};

use vme_object::Object;

/// Calls compose. A pass makes no entries over no call, and the entries that a call of any object
/// adds over that call. It makes the entries of one sequence of calls followed by those of a second
/// sequence over both.
pub fn calls_compose<O: Object>()
    ensures none { (p : PassView (Indexed O.Cmd) O.Reply) → Makes [] p p }
    ensures one { (starts : List O) (es : List (Entry (Indexed O.Cmd) O.Reply))
        (p q : PassView (Indexed O.Cmd) O.Reply) →
        Adds O.step starts es p q → Makes es p q }
    ensures more { (a b : List (Entry (Indexed O.Cmd) O.Reply))
        (p q r : PassView (Indexed O.Cmd) O.Reply) →
        Makes a p q → Makes b q r → Makes (a ++ b) p r }
{}

/// The calls of all passes of a settled array make one history of all its objects.
///
/// Each entry that a pass made after some moment has exactly one place in the history. That place
/// is behind everything that the pass had seen of any objects at that moment, and behind the
/// entries that the pass made before this one. The entry has the reply of its object's step there.
/// Each entry of the history is one that a pass made, and the history has as many entries as the
/// passes made together. If a pass was unused at that moment, the entries that it made are all
/// entries of its caller in the history.
pub fn calls_make_one_history<O: Object>()
    ensures placed { (starts : List O) (homes : List (Home O)) (k : ℕ)
        (passes : List (PassView (Indexed O.Cmd) O.Reply))
        (outcome : Settles O.step starts k passes homes)
        (es : List (Entry (Indexed O.Cmd) O.Reply)) (p q : PassView (Indexed O.Cmd) O.Reply) →
        Contains passes q → Makes es p q →
        Each (λ i e. HasPlaceIn O.step starts outcome.history p.seen (p.mine ++ take i es) e) es }
    ensures one_place { (starts : List O)
        (h seen others mine : List (Entry (Indexed O.Cmd) O.Reply))
        (e f : Entry (Indexed O.Cmd) O.Reply) → e.who ≡ f.who →
        (a : HasPlaceIn O.step starts h seen mine e) → (b : HasPlaceIn O.step starts h others mine f) →
        a.before ≡ b.before }
    ensures no_others { (starts : List O) (homes : List (Home O)) (k : ℕ)
        (passes : List (PassView (Indexed O.Cmd) O.Reply))
        (outcome : Settles O.step starts k passes homes) (e : Entry (Indexed O.Cmd) O.Reply) →
        Contains outcome.history e →
        (p : PassView (Indexed O.Cmd) O.Reply) × Contains passes p × Contains p.mine e }
    ensures as_many { (starts : List O) (homes : List (Home O)) (k : ℕ)
        (passes : List (PassView (Indexed O.Cmd) O.Reply))
        (outcome : Settles O.step starts k passes homes) →
        length outcome.history ≡ sum_by (λ p. length p.mine) passes }
    ensures parts { (starts : List O) (homes : List (Home O)) (k : ℕ)
        (passes : List (PassView (Indexed O.Cmd) O.Reply))
        (outcome : Settles O.step starts k passes homes) (port : TableId) (who : ℕ)
        (es : List (Entry (Indexed O.Cmd) O.Reply)) (p q : PassView (Indexed O.Cmd) O.Reply) →
        IsUnused port who p → Makes es p q → Contains passes q → own who outcome.history ≡ es }
{}
