//! Laws of mailboxes and board ranges. Each function's contract is a law; its body is empty.
ghost use Rattle.std.specs.Prelude.{◌≡◌, ℕ, ◌+◌, ◌^◌, ◌≤◌, List, Some, slice_get};
ghost use Rattle.vme_am.specs.Spaces.{addresses_of};
ghost use Rattle.vme_decode.specs.declared.entry.Entry.{Entry};
ghost use Rattle.vme_decode.specs.Entries.{end_of};
ghost use Rattle.vme_config_toml.specs.declared.file.MailboxTable.{MailboxTable};
ghost use Rattle.vme_shared.specs.declared.mailbox.Mailbox.{Mailbox};
ghost use Rattle.vme_script.specs.declared.board_range.BoardRange.{BoardRange};
ghost use Rattle.vme_script.specs.MailboxTables.{mailbox_from_table, HasNumbers};
ghost use Rattle.vme_script.specs.BoardRanges.{range_at, share};

/// States that a mailbox made from a table has lawful numbers: a code of data or short access,
/// an address that is a multiple of four, and 1 to 64 slots.
pub fn tables_give_lawful_numbers()
    ensures { (table : MailboxTable) (mailbox : Mailbox) →
        mailbox_from_table table ≡ Some mailbox → HasNumbers mailbox }
{}

/// States that sharing a byte is symmetric, and that the addresses of a range are below 2^32 if it
/// ends within a board that ends within its space.
#[tactic(auto, using(crate::proofs::Places::shared_both_ways, crate::proofs::Places::ends_within))]
pub fn addresses_select_ranges()
    ensures both_ways { (a b : BoardRange) → share a b ≡ share b a }
    ensures within { (entries : List Entry) (am addr len : ℕ) (place : BoardRange) (entry : Entry) →
        range_at entries am addr len ≡ Some place → slice_get entries place.board ≡ Some entry →
        end_of entry ≤ addresses_of entry.space → place.offset + place.len ≤ entry.size →
        addr + len ≤ 2 ^ 32 }
{}
