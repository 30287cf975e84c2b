//! Laws of histories of a port array of boards and their arbiter.
ghost use Rattle.std.specs.Prelude.{◌≡◌, ◌<◌, ◌∷◌, [], ℕ, List, All};
ghost use mathlib.Core.Option.{some};
ghost use lib.ListN.{get_elem?};
ghost use Rattle.vme_object.specs.History.{IsLegal, own, entry};
ghost use Rattle.vme_memory.specs.declared.command.BoardCmd.{BoardCmd};
ghost use Rattle.vme_memory.specs.Boards.{Board};
ghost use Rattle.vme_arbiter.specs.declared.command.ArbCmd.{ArbCmd};
ghost use Rattle.vme_arbiter.specs.Arbitration.{Arbitration};
ghost use Rattle.vme_core.specs.declared.event.EventReply.{EventReply};
ghost use Rattle.vme_port_array.specs.declared.indexed.Indexed.{Indexed};
ghost use Rattle.vme_port_array.specs.Parts.{indexed, part};
ghost use Rattle.vme_port.specs.Passes.{PassView};
ghost use Rattle.vme_port_array.specs.Calls.{Adds};
ghost use Rattle.vme_bus_objects.specs.declared.object.BusObject.{BusObject};
ghost use Rattle.vme_bus_objects.specs.declared.object.BusObject.TheVariants as objects;
ghost use Rattle.vme_bus_objects.specs.declared.command.BusCommand.{BusCommand};
ghost use Rattle.vme_bus_objects.specs.declared.command.BusCommand.TheVariants as commands;
ghost use Rattle.vme_bus_objects.specs.Objects.{bus_object_step};
ghost use Rattle.vme_bus_objects.specs.Runs.{BusEntry, MatchesKind, run_of, transitions_of, IsBoardHistory, IsArbiterHistory, IsBoardReply, IsArbiterReply};

/// A history in which each command and reply is of its object's kind is a run of transitions. The
/// objects below `n` are boards, and object `n` is the arbiter. A legal part of a board or of the
/// arbiter in the history is its part of the run, and the transitions of a processor in the run are
/// those of its entries.
pub fn histories_are_runs()
    ensures boards { (n x : ℕ) (memory : Board) (h : List BusEntry) → x < n →
        All (MatchesKind n) h → IsLegal bus_object_step (objects.Board memory) (part x h) →
        IsBoardHistory x memory h }
    ensures arbiter { (n : ℕ) (bus : Arbitration) (h : List BusEntry) → All (MatchesKind n) h →
        IsLegal bus_object_step (objects.Arbiter bus) (part n h) → IsArbiterHistory n bus h }
    ensures processors { (who : ℕ) (h : List BusEntry) →
        transitions_of who (run_of h) ≡ run_of (own who h) }
{}

/// The reply to a command of the object's own kind is of that kind, whatever calls other passes
/// have made of the object.
pub fn replies_have_their_kind()
    ensures board { (starts : List BusObject) (who index : ℕ) (cmd : BoardCmd) (reply : EventReply)
        (p q : PassView (Indexed BusCommand) EventReply) (memory : Board) →
        get_elem? starts index ≡ some (objects.Board memory) →
        Adds bus_object_step starts (entry who (indexed index (commands.Board cmd)) reply ∷ [])
        p q →
        IsBoardReply reply }
    ensures arbiter { (starts : List BusObject) (who index : ℕ) (cmd : ArbCmd) (reply : EventReply)
        (p q : PassView (Indexed BusCommand) EventReply) (bus : Arbitration) →
        get_elem? starts index ≡ some (objects.Arbiter bus) →
        Adds bus_object_step starts (entry who (indexed index (commands.Arbiter cmd)) reply ∷ [])
        p q →
        IsArbiterReply reply }
{}
