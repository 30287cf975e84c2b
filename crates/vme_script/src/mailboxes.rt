//! The mailboxes of a configuration, and their checks.
ghost use Rattle.std.specs.Prelude.{◌≡◌, ◌≤◌, nat_lt, length, IfOk};
ghost use Rattle.vme_script.specs.declared.fault.ConfigFault.TheVariants.{BadMailbox};
ghost use Rattle.vme_script.specs.Answers.{Gives, refuse};
ghost use Rattle.vme_script.specs.declared.cause.mailbox.MailboxCause.TheVariants.{TooManyMailboxes};
ghost use Rattle.vme_script.specs.Causes.{mailbox_refusal, refused_as};
ghost use Rattle.vme_script.specs.CauseRules.{cause_if};
ghost use Rattle.vme_script.specs.Boards.{entries_of};
ghost use Rattle.vme_script.specs.MailboxRefusals.{declared_mailbox, mailboxes_of};

use crate::board::BoardConfig;
use crate::board_range::BoardRange;
use crate::cause::{BoardName, MailboxCause};
use crate::fault::ConfigFault;
use crate::limits::MOST_MAILBOXES;
use crate::mailbox::{check_apart, check_class, check_inside, numbers_of, place_of};
use std::alloc::Global;
use vme_config_toml::MailboxTable;
use vme_decode::AddressMap;
use vme_shared::Mailbox;

/// Checks the number of mailboxes: it is at most 16.
pub fn check_count(mailboxes: usize) -> Result<(), MailboxCause>
    ensures refusal { refused_as mailbox_refusal result ≡ refuse (nat_lt 16 mailboxes) BadMailbox }
    ensures cause { result ≡ cause_if (nat_lt 16 mailboxes) (TooManyMailboxes mailboxes) }
{
    if mailboxes > MOST_MAILBOXES {
        return Err(MailboxCause::TooManyMailboxes { mailboxes });
    }
    Ok(())
}

/// The mailbox that a table declares, and its bytes, which share none with `earlier`.
#[tactic(auto, unfolding(crate::specs::MailboxRefusals::declared_mailbox))]
fn declared_mailbox(
    boards: &[BoardConfig],
    map: &AddressMap,
    earlier: &[BoardRange],
    table: MailboxTable,
) -> Result<(Mailbox, BoardRange), MailboxCause>
    requires { map.now ≡ entries_of boards.now }
    ensures { refused_as mailbox_refusal result ≡ declared_mailbox boards.now earlier.now table }
{
    let mailbox = numbers_of(table)?;
    let place = place_of(map, mailbox)?;
    let board = boards[place.board];
    let name = BoardName::Slot(board.slot);
    check_inside(mailbox, place, name, board.entry.size)?;
    check_class(name, board.class)?;
    check_apart(place, earlier)?;
    Ok((mailbox, place))
}

/// The mailboxes of a file. `map` is the address map of `boards`.
#[tactic(auto, unfolding(crate::specs::MailboxRefusals::mailboxes_of))]
pub(crate) fn mailboxes_of(
    alloc: Global,
    boards: &[BoardConfig],
    map: &AddressMap,
    tables: &[MailboxTable],
) -> Result<Vec<Mailbox>, ConfigFault>
    requires { map.now ≡ entries_of boards.now }
    ensures mailboxes { Gives (λ mailboxes. mailboxes.items) result (mailboxes_of boards.now tables.now) }
    ensures few { IfOk result (λ mailboxes. length mailboxes.items ≤ 16) }
{
    check_count(tables.len())?;
    let mut mailboxes = Vec::with_capacity(alloc, tables.len())?;
    let mut places = Vec::with_capacity(alloc, tables.len())?;
    for table in tables {
        let (mailbox, place) = declared_mailbox(boards, map, &places, *table)?;
        mailboxes.push(mailbox)?;
        places.push(place)?;
    }
    Ok(mailboxes)
}
