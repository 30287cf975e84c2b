//! Laws of processes that call the objects of an array, and of their turns.
ghost use Rattle.std.specs.Prelude.{◌≡◌, ◌<◌, ℕ, List, Option, length, All};
ghost use Rattle.vme_object.specs.declared.history.Entry.{Entry};
ghost use Rattle.vme_object.specs.Each.{Each};
ghost use Rattle.vme_port.specs.declared.home.Home.{Home};
ghost use Rattle.vme_port.specs.Passes.{PassView};
ghost use Rattle.vme_port_array.specs.declared.indexed.Indexed.{Indexed};
ghost use Rattle.vme_port_array.specs.Settlements.{Settles};
ghost use Rattle.vme_core.specs.CountedStates.{CountedState};
ghost use Rattle.vme_explore.specs.Runs.{after_turns};
ghost use Rattle.vme_order.specs.Systems.{Next, SystemOf, system_of, turn_of};
ghost use Rattle.vme_order.specs.Orders.{IsOrder};
ghost use Rattle.vme_order.specs.ArrayOrders.{opened, array_call, gathered, IsOneOrderOf, IsShown, AreTraces};

use vme_object::Object;

/// The history of a settled array is one order of the calls that its passes made: it has exactly the
/// entries of each pass, in their order, and each object is the replay of its part of it.
pub fn a_settled_array_has_one_order<O: Object>()
    ensures { (starts : List O) (k : ℕ) (passes : List (PassView (Indexed O.Cmd) O.Reply))
        (homes : List (Home O)) (outcome : Settles O.step starts k passes homes) →
        Each (λ i p. p.who ≡ i) passes →
        IsOneOrderOf O.step starts k passes (gathered passes homes) outcome.history }
{}

/// If objects answer a history, and its entries of each process lead that process to its end, then
/// some list of turns leads objects and processes there. Each turn makes the next call of a process,
/// or records its end.
pub fn one_order_of_calls_is_a_run_of_turns<M, D, R, P>()
    ensures { (act : M → ℕ → D → Option (M × R)) (next : ℕ → P → Next D R P)
        (before after : SystemOf M P) (history : List (Entry D R)) →
        IsOrder act next before history after →
        (turns : List ℕ) × All (λ who. who < length before.processes) turns
        × (after_turns (turn_of act next) before turns ≡ after) }
{}

/// What is gathered from a settled array of ports is the run of some list of turns.
///
/// The entries of each pass are a trace of its process, from the process's first state to its end.
/// Then turns of the processes lead from the opened objects to those that were gathered, with their
/// counts, and each process to its end. The objects may be shown by a state of another type
/// (`shown`), and the commands be known by what the processes asked for (`asked`).
pub fn what_is_gathered_is_a_run_of_turns<O: Object, M, D, P>()
    ensures { (act : M → ℕ → D → Option (M × O.Reply)) (asked : Indexed O.Cmd → D)
        (shown : M → List (CountedState O)) (next : ℕ → P → Next D O.Reply P)
        (starts : List O) (k : ℕ) (passes : List (PassView (Indexed O.Cmd) O.Reply))
        (homes : List (Home O)) (first : M) (firsts ends : List P)
        (outcome : Settles O.step starts k passes homes) →
        Each (λ i p. p.who ≡ i) passes → AreTraces next asked passes firsts ends →
        All (IsShown O.step act asked shown (length starts)) outcome.history →
        shown first ≡ opened k starts →
        (turns : List ℕ) × (last : M) × All (λ who. who < k) turns
        × (shown last ≡ gathered passes homes)
        × (after_turns (turn_of act next) (system_of first firsts) turns ≡ system_of last ends) }
{}

/// The objects of an array, with their counts, show themselves, and what a process asks for is the
/// command. So the law above holds of each array without another type of state.
pub fn an_array_shows_itself<O: Object>()
    ensures { (n : ℕ) (history : List (Entry (Indexed O.Cmd) O.Reply)) →
        All (IsShown O.step (array_call O.step) (λ c. c) (λ objects. objects) n) history }
{}
