//! Laws of faults. Each function's contract is a law; its body is empty.
ghost use Rattle.std.specs.Prelude.{◌≡◌, ℕ, List, map, Some, slice_get};
ghost use Rattle.std.specs.Option.{ok_or, option_and_then};
ghost use Rattle.vme_cycle.specs.Refusals.{first_of};
ghost use Rattle.vme_config_toml.specs.declared.file.MailboxTable.{MailboxTable};
ghost use Rattle.vme_config_toml.specs.Files.{BoardValues};
ghost use Rattle.vme_script.specs.declared.board.BoardConfig.{BoardConfig};
ghost use Rattle.vme_script.specs.declared.board_range.BoardRange.{BoardRange};
ghost use Rattle.vme_script.specs.declared.context.ScriptContext.{ScriptContext};
ghost use Rattle.vme_script.specs.declared.fault.ConfigFault.TheVariants.{BadMailbox};
ghost use Rattle.vme_script.specs.BoardRanges.{range_of};
ghost use Rattle.vme_script.specs.Boards.{board_config, entries_of};
ghost use Rattle.vme_script.specs.MailboxRefusals.{declared_mailbox};
ghost use Rattle.vme_script.specs.MailboxTables.{mailbox_from_table};
ghost use Rattle.vme_script.specs.Scripts.{lines_from};
ghost use Rattle.vme_faults.specs.Boards.{board_refusals, refusal_in};
ghost use Rattle.vme_faults.specs.Lines.{line_refusals, IsFirstOf};
ghost use Rattle.vme_faults.specs.Mailboxes.{number_refusals, place_refusals};

/// States that the first of all refusals is the one that `vme` reports, of the lines of a script,
/// of a board, of the numbers of a mailbox, and of the bytes of a mailbox on a board.
pub fn the_first_is_reported()
    ensures lines { (rules : ScriptContext) (number : ℕ) (text : List (List ℕ)) →
        IsFirstOf (lines_from rules number text) (line_refusals rules number text) }
    ensures board { (before : ℕ) (board : BoardValues) →
        refusal_in (board_config before board) ≡ first_of (board_refusals before board) }
    ensures numbers { (table : MailboxTable) →
        refusal_in (ok_or (mailbox_from_table table) BadMailbox)
        ≡ first_of (map (λ refusal. refusal.1) (number_refusals (Some table.am) (Some table.addr) (Some table.slots))) }
    ensures bytes { (boards : List BoardConfig) (earlier : List BoardRange) (table : MailboxTable)
        (place : BoardRange) (board : BoardConfig) →
        option_and_then (range_of (entries_of boards)) (mailbox_from_table table) ≡ Some place →
        slice_get boards place.board ≡ Some board →
        refusal_in (declared_mailbox boards earlier table) ≡ first_of (map (λ refusal. refusal.1)
        (place_refusals place board.entry.size (Some board.class.width) (Some board.class.rmw) earlier)) }
{}
