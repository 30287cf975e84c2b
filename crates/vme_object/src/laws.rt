ghost use Rattle.std.specs.Prelude.{◌≡◌, ◌↔◌, ◌++◌, ◌∷◌, ◌≤◌, ℕ, List, length};
ghost use Rattle.vme_object.specs.declared.history.Entry.{Entry};
ghost use Rattle.vme_object.specs.History.{replay, IsLegal, own};

use crate::object::Object;

/// States that histories of an object compose: a second history continues where the first ends, and
/// a prefix of a legal history is legal.
pub fn histories_compose<O: Object>()
    ensures replayed { (s : O) (a b : List (Entry O.Cmd O.Reply)) →
        replay O.step s (a ++ b) ≡ replay O.step (replay O.step s a) b }
    ensures goes_on { (s : O) (a b : List (Entry O.Cmd O.Reply)) →
        IsLegal O.step s a → IsLegal O.step (replay O.step s a) b → IsLegal O.step s (a ++ b) }
    ensures begins { (s : O) (a b : List (Entry O.Cmd O.Reply)) →
        IsLegal O.step s (a ++ b) → IsLegal O.step s a }
{}

/// States that the entries of one caller in two consecutive histories are those in the first,
/// followed by those in the second. A caller has at most as many entries as the history.
pub fn entries_of_one<O: Object>()
    ensures both { (who : ℕ) (a b : List (Entry O.Cmd O.Reply)) →
        own who (a ++ b) ≡ own who a ++ own who b }
    ensures within { (who : ℕ) (h : List (Entry O.Cmd O.Reply)) →
        length (own who h) ≤ length h }
{}

/// States that a history is legal exactly where each reply is that of the step at the replay of the
/// entries before it.
pub fn replies_are_the_steps<O: Object>()
    ensures { (s : O) (h : List (Entry O.Cmd O.Reply)) → IsLegal O.step s h ↔
        ((a b : List (Entry O.Cmd O.Reply)) (e : Entry O.Cmd O.Reply) → h ≡ a ++ e ∷ b →
        e.reply ≡ (O.step (replay O.step s a) e.cmd).1) }
{}
