//! The rules for a mailbox: its numbers, its bytes, and its board.
ghost use Rattle.std.specs.Prelude.{◌≡◌, ◌<◌, ◌-◌, ◌%◌, nat_le, not, ◌==◌, ◌&&◌, length, IfOk};
ghost use Rattle.std.specs.Option.{ok_or};
ghost use Rattle.std.specs.List.{list_any};
ghost use Rattle.vme_memory.specs.Classes.{answers_quads};
ghost use Rattle.vme_script.specs.declared.fault.ConfigFault.TheVariants.{BadMailbox};
ghost use Rattle.vme_script.specs.Answers.{refuse};
ghost use Rattle.vme_script.specs.declared.cause.mailbox.MailboxCause.TheVariants.{CodeRange, AddressNotAligned, SlotsRange, TooLong, NarrowBoard, NoModify};
ghost use Rattle.vme_script.specs.Causes.{mailbox_refusal, refused_as};
ghost use Rattle.vme_script.specs.CauseRules.{cause_if, lines_of};
ghost use Rattle.vme_script.specs.MailboxTables.{is_mailbox_code, mailbox_from_table, supports_mailboxes};
ghost use Rattle.vme_script.specs.BoardRanges.{range_of, is_within, share};

use crate::board_range::BoardRange;
use crate::cause::{BoardName, MailboxCause};
use crate::limits::MOST_MAILBOX_SLOTS;
use vme_am::{Am, Space};
use vme_config_toml::MailboxTable;
use vme_decode::AddressMap;
use vme_memory::{Class, Width8To32};
use vme_shared::Mailbox;

/// Checks the code of a mailbox: it is one of data or short access.
pub fn check_code(am: u32) -> Result<(), MailboxCause>
    ensures refusal { refused_as mailbox_refusal result ≡ refuse (not (is_mailbox_code am)) BadMailbox }
    ensures cause { result ≡ cause_if (not (is_mailbox_code am)) (CodeRange am) }
{
    match am {
        0x09 | 0x0d | 0x29 | 0x2d | 0x39 | 0x3d => Ok(()),
        _ => Err(MailboxCause::CodeRange { am }),
    }
}

/// Checks the address of a mailbox: it is a multiple of four.
pub fn check_address(addr: u32) -> Result<(), MailboxCause>
    ensures refusal { refused_as mailbox_refusal result ≡ refuse (not (addr % 4 == 0)) BadMailbox }
    ensures cause { result ≡ cause_if (not (addr % 4 == 0)) (AddressNotAligned addr) }
{
    if addr % 4 != 0 {
        return Err(MailboxCause::AddressNotAligned { addr });
    }
    Ok(())
}

/// Checks the number of slots of a mailbox: it is from 1 to 64.
pub fn check_slots(slots: u32) -> Result<(), MailboxCause>
    ensures refusal { refused_as mailbox_refusal result ≡
        refuse (not (nat_le 1 slots && nat_le slots 64)) BadMailbox }
    ensures cause { result ≡ cause_if (not (nat_le 1 slots && nat_le slots 64)) (SlotsRange slots) }
{
    if slots < 1 || slots > MOST_MAILBOX_SLOTS {
        return Err(MailboxCause::SlotsRange { slots });
    }
    Ok(())
}

/// The mailbox that a table declares, by the rules for its numbers.
#[tactic(auto, unfolding(crate::specs::MailboxTables::mailbox_from_table))]
pub(crate) fn numbers_of(table: MailboxTable) -> Result<Mailbox, MailboxCause>
    ensures { refused_as mailbox_refusal result ≡ ok_or (mailbox_from_table table) BadMailbox }
{
    check_code(table.am)?;
    check_address(table.addr)?;
    check_slots(table.slots)?;
    Ok(Mailbox {
        am: table.am as u8,
        addr: table.addr,
        slots: table.slots as u8,
    })
}

/// Returns the mailbox that a table declares, if its numbers are those of a mailbox.
///
/// Its code is one of data or short access (09, 0d, 29, 2d, 39, 3d), its address is a multiple of
/// four, and it has 1 to 64 slots. Returns `None` otherwise.
pub fn mailbox_from_table(table: MailboxTable) -> Option<Mailbox>
    ensures mailbox { result ≡ mailbox_from_table table }
{
    numbers_of(table).ok()
}

/// The cause of a mailbox whose code and address select no board.
fn no_board(mailbox: Mailbox) -> MailboxCause {
    let space = match Am::from_code(mailbox.am) {
        Ok(am) => am.space(),
        Err(_) => Space::A32,
    };
    MailboxCause::NoBoardThere {
        am: mailbox.am,
        addr: mailbox.addr,
        space,
        there: None,
    }
}

/// Returns the bytes of a mailbox, on the board that the first of them selects.
pub fn place_of(map: &AddressMap, mailbox: Mailbox) -> Result<BoardRange, MailboxCause>
    ensures place { refused_as mailbox_refusal result ≡ ok_or (range_of map.now mailbox) BadMailbox }
    ensures there { IfOk result (λ place. place.board < length map.now) }
{
    match BoardRange::of(map, mailbox) {
        Some(place) => Ok(place),
        None => Err(no_board(mailbox)),
    }
}

/// Checks that the bytes of a mailbox end within the board of this name, which has `size` bytes.
pub fn check_inside(
    mailbox: Mailbox,
    place: BoardRange,
    board: BoardName,
    size: u32,
) -> Result<(), MailboxCause>
    ensures refusal { refused_as mailbox_refusal result ≡ refuse (not (is_within place size)) BadMailbox }
    ensures cause { result ≡ cause_if (not (is_within place size))
        (TooLong mailbox.slots place.len board (size - place.offset)) }
{
    if !place.is_within(size) {
        return Err(MailboxCause::TooLong {
            slots: u32::from(mailbox.slots),
            needed: place.len,
            board,
            left: size.saturating_sub(place.offset),
        });
    }
    Ok(())
}

/// Checks that the board of this name, which has a slave of this width, has quad bytes.
pub fn check_width(board: BoardName, width: Width8To32) -> Result<(), MailboxCause>
    ensures refusal { refused_as mailbox_refusal result ≡ refuse (not (answers_quads width)) BadMailbox }
    ensures cause { result ≡ cause_if (not (answers_quads width)) (NarrowBoard board (lines_of width)) }
{
    match width {
        Width8To32::D08 => Err(MailboxCause::NarrowBoard { board, width: 8 }),
        Width8To32::D16 => Err(MailboxCause::NarrowBoard { board, width: 16 }),
        Width8To32::D32 => Ok(()),
    }
}

/// Checks that the board of this name has read-modify-writes.
pub fn check_modify(board: BoardName, rmw: bool) -> Result<(), MailboxCause>
    ensures refusal { refused_as mailbox_refusal result ≡ refuse (not rmw) BadMailbox }
    ensures cause { result ≡ cause_if (not rmw) (NoModify board) }
{
    if rmw {
        return Ok(());
    }
    Err(MailboxCause::NoModify { board })
}

/// Checks that a board of this name and class can contain mailboxes: it has 32 data lines, and
/// read-modify-writes.
pub(crate) fn check_class(board: BoardName, class: Class) -> Result<(), MailboxCause>
    ensures { refused_as mailbox_refusal result ≡ refuse (not (supports_mailboxes class)) BadMailbox }
{
    check_width(board, class.width)?;
    check_modify(board, class.rmw)
}

/// Checks that the bytes of a mailbox share none with those of earlier mailboxes.
pub fn check_apart(place: BoardRange, earlier: &[BoardRange]) -> Result<(), MailboxCause>
    ensures { refused_as mailbox_refusal result ≡
        refuse (list_any (share place) earlier.now) BadMailbox }
{
    match place.first_shared(earlier) {
        Some((other, shared)) => Err(MailboxCause::Shared {
            other,
            low: shared.offset,
            high: shared.last(),
        }),
        None => Ok(()),
    }
}
