//! The mailbox tables of a file, and their faults.
ghost use Rattle.std.specs.Prelude.{◌≡◌, ◌++◌, map, if◌then◌else◌, None, IfOk};
ghost use Rattle.std.specs.Option.{option_and_then, option_map_or};
ghost use Rattle.vme_script.specs.BoardRanges.{is_within};
ghost use Rattle.vme_script.specs.Causes.{mailbox_refusal, refused_as};
ghost use Rattle.vme_faults.specs.Sites.{sited, at_value, at_values};
ghost use Rattle.vme_faults.specs.Boards.{refusal_in};
ghost use Rattle.vme_faults.specs.Mailboxes.{mailbox_judged, code_refusal, address_refusal, slots_refusal, number_refusals, board_refusal, place_refusals};

use crate::cause::{Cause, MailboxCause};
use crate::finding::Finding;
use crate::section::Section;
use crate::tables::KnownBoard;
use std::alloc::AllocError;
use vme_am::{Am, Space};
use vme_config_toml::MailboxTable;
use vme_decode::AddressMap;
use vme_positions::Key;
use vme_script::{
    BoardRange, Mailbox, check_address, check_apart, check_code, check_inside, check_modify,
    check_slots, check_width, mailbox_from_table, place_of,
};

/// The bit of a code that states supervisory privilege.
pub(crate) const SUPERVISORY: u8 = 0x04;

/// No bytes, which are shared with none.
const NO_BYTES: BoardRange = BoardRange {
    board: 0,
    offset: 0,
    len: 0,
};

/// What is known of a mailbox.
#[derive(Clone, Copy)]
pub(crate) struct KnownMailbox {
    /// The mailbox, if all of it is known and lawful.
    pub lawful: Option<Mailbox>,
    /// Its bytes, or no bytes if they are not known to be within one board.
    pub place: BoardRange,
}

impl KnownMailbox {
    /// A mailbox of which nothing is known.
    pub(crate) fn unknown() -> KnownMailbox {
        KnownMailbox {
            lawful: None,
            place: NO_BYTES,
        }
    }
}

/// The values of a mailbox's keys. A value is `None` if it is absent, of another kind, or not from
/// 0 to 2^32 - 1.
#[derive(Clone, Copy)]
pub(crate) struct MailboxKeys {
    am: Option<u32>,
    addr: Option<u32>,
    slots: Option<u32>,
}

/// Reads the keys of a mailbox, and finds the faults of keys and of the kinds of values.
pub(crate) fn read_keys(
    section: &Section<'_>,
    found: &mut Vec<Finding>,
) -> Result<MailboxKeys, AllocError> {
    section.find_unknown(found)?;
    let am = section.required_whole(Key::Am, found)?;
    let addr = section.required_whole(Key::Addr, found)?;
    let slots = section.required_whole(Key::Slots, found)?;
    Ok(MailboxKeys { am, addr, slots })
}

/// Finds the fault of the value of `key`, if it is known and has one.
fn judge(
    section: &Section<'_>,
    key: Key,
    judged: Option<Result<(), MailboxCause>>,
    found: &mut Vec<Finding>,
) -> Result<(), AllocError>
    ensures { IfOk result (λ _. map sited found.new.items ≡ map sited found.old.items
        ++ at_value section.now.table section.now.index key (mailbox_judged judged)) }
{
    match judged {
        Some(Err(cause)) => {
            section.find_at(key, Cause::Mailbox(cause), found)?;
            Ok(())
        }
        Some(Ok(())) => Ok(()),
        None => Ok(()),
    }
}

/// The judgement of a code.
fn code_judged(am: Option<u32>) -> Option<Result<(), MailboxCause>>
    ensures { mailbox_judged result ≡ option_and_then code_refusal am }
{
    match am {
        Some(am) => Some(check_code(am)),
        None => None,
    }
}

/// The judgement of an address.
fn address_judged(addr: Option<u32>) -> Option<Result<(), MailboxCause>>
    ensures { mailbox_judged result ≡ option_and_then address_refusal addr }
{
    match addr {
        Some(addr) => Some(check_address(addr)),
        None => None,
    }
}

/// The judgement of a number of slots.
fn slots_judged(slots: Option<u32>) -> Option<Result<(), MailboxCause>>
    ensures { mailbox_judged result ≡ option_and_then slots_refusal slots }
{
    match slots {
        Some(slots) => Some(check_slots(slots)),
        None => None,
    }
}

/// Finds the faults of each number by itself. Returns the mailbox if all numbers are known and have
/// no fault.
fn check_numbers(
    section: &Section<'_>,
    keys: MailboxKeys,
    found: &mut Vec<Finding>,
) -> Result<Option<Mailbox>, AllocError>
    ensures { IfOk result (λ _. map sited found.new.items ≡ map sited found.old.items
        ++ at_values section.now.table section.now.index (number_refusals keys.am keys.addr keys.slots)) }
{
    let _am = judge(section, Key::Am, code_judged(keys.am), found)?;
    let _addr = judge(section, Key::Addr, address_judged(keys.addr), found)?;
    let _slots = judge(section, Key::Slots, slots_judged(keys.slots), found)?;
    Ok(with_numbers(keys))
}

/// The mailbox with these numbers, if all of them are known and lawful.
fn with_numbers(keys: MailboxKeys) -> Option<Mailbox> {
    match (keys.am, keys.addr, keys.slots) {
        (Some(am), Some(addr), Some(slots)) => mailbox_from_table(MailboxTable { am, addr, slots }),
        _ => None,
    }
}

/// Finds the faults of a mailbox. `boards` are all boards, and `map` their address map, if it is
/// known; `earlier` are the bytes of the mailboxes before it.
pub(crate) fn check(
    section: &Section<'_>,
    keys: MailboxKeys,
    boards: &[KnownBoard<'_>],
    map: Option<&AddressMap>,
    earlier: &[BoardRange],
    found: &mut Vec<Finding>,
) -> Result<KnownMailbox, AllocError> {
    let (Some(mailbox), Some(map)) = (check_numbers(section, keys, found)?, map) else {
        return Ok(KnownMailbox::unknown());
    };
    let Ok(place) = place_of(map, mailbox) else {
        find_no_board(section, boards, mailbox, found)?;
        return Ok(KnownMailbox::unknown());
    };
    match boards.get(place.board) {
        Some(board) => check_place(section, mailbox, place, board, earlier, found),
        None => Ok(KnownMailbox::unknown()),
    }
}

/// Finds the faults of a mailbox whose bytes begin at `place`, on this board.
fn check_place(
    section: &Section<'_>,
    mailbox: Mailbox,
    place: BoardRange,
    board: &KnownBoard<'_>,
    earlier: &[BoardRange],
    found: &mut Vec<Finding>,
) -> Result<KnownMailbox, AllocError>
    ensures { IfOk result (λ _. map sited found.new.items ≡ map sited found.old.items
        ++ at_values section.now.table section.now.index
        (place_refusals place (option_map_or (λ e. e.size) board.now.entry 0) board.now.width board.now.rmw earlier.now)) }
{
    let size = board_size(board);
    let inside = check_inside(mailbox, place, board.name(place.board), size);
    let _slots = judge(section, Key::Slots, Some(inside), found)?;
    let judged = rest_judged(board, place, size, earlier);
    let _addr = judge(section, Key::Addr, judged, found)?;
    Ok(KnownMailbox {
        lawful: lawful_if(mailbox, board, judged),
        place: known_place(place, judged),
    })
}

/// The judgement of the board and of the bytes of earlier mailboxes, if the bytes end within the
/// board, which has `size` bytes.
fn rest_judged(
    board: &KnownBoard<'_>,
    place: BoardRange,
    size: u32,
    earlier: &[BoardRange],
) -> Option<Result<(), MailboxCause>>
    ensures { mailbox_judged result ≡ (if is_within place size then
        board_refusal place board.now.width board.now.rmw earlier.now else None) }
{
    if !place.is_within(size) {
        return None;
    }
    Some(board_judged(board, place, earlier))
}

/// The number of bytes of a board, or 0 if its range is unknown.
fn board_size(board: &KnownBoard<'_>) -> u32
    ensures { result ≡ option_map_or (λ e. e.size) board.now.entry 0 }
{
    match board.entry {
        Some(entry) => entry.size,
        None => 0,
    }
}

/// The mailbox, if it is lawful and all of its board is known.
fn lawful_if(
    mailbox: Mailbox,
    board: &KnownBoard<'_>,
    judged: Option<Result<(), MailboxCause>>,
) -> Option<Mailbox> {
    match (judged, board.width, board.rmw) {
        (Some(Ok(())), Some(_), Some(_)) => Some(mailbox),
        _ => None,
    }
}

/// The bytes of a mailbox, or no bytes if they do not end within the board.
fn known_place(place: BoardRange, judged: Option<Result<(), MailboxCause>>) -> BoardRange {
    match judged {
        Some(_) => place,
        None => NO_BYTES,
    }
}

/// The judgement of a mailbox's board by what is known of it, and else of the bytes of earlier
/// mailboxes.
fn board_judged(
    board: &KnownBoard<'_>,
    place: BoardRange,
    earlier: &[BoardRange],
) -> Result<(), MailboxCause>
    ensures { refusal_in (refused_as mailbox_refusal result) ≡
        board_refusal place board.now.width board.now.rmw earlier.now }
{
    let name = board.name(place.board);
    if let Some(width) = board.width {
        check_width(name, width)?;
    }
    if let Some(rmw) = board.rmw {
        check_modify(name, rmw)?;
    }
    check_apart(place, earlier)
}

/// The board that has an address of a space, by its index, whatever the privilege of the code.
pub(crate) fn board_at(boards: &[KnownBoard<'_>], space: Space, addr: u32) -> Option<usize> {
    for (index, board) in boards.iter().enumerate() {
        if let Some(entry) = board.entry {
            let is_there = entry.base <= addr && addr - entry.base < entry.size;
            if is_there && entry.space == space {
                return Some(index);
            }
        }
    }
    None
}

/// A space in which a board has the address.
fn space_with(boards: &[KnownBoard<'_>], addr: u32) -> Option<Space> {
    for space in [Space::A16, Space::A24, Space::A32] {
        if board_at(boards, space, addr).is_some() {
            return Some(space);
        }
    }
    None
}

/// Finds that no board responds to the first byte of a mailbox.
fn find_no_board(
    section: &Section<'_>,
    boards: &[KnownBoard<'_>],
    mailbox: Mailbox,
    found: &mut Vec<Finding>,
) -> Result<(), AllocError> {
    let space = match Am::from_code(mailbox.am) {
        Ok(am) => am.space(),
        Err(_) => Space::A32,
    };
    let (am, addr) = (mailbox.am, mailbox.addr);
    if let Some(index) = board_at(boards, space, addr) {
        if let Some(board) = boards.get(index) {
            let cause = MailboxCause::SupervisoryBoard {
                board: board.name(index),
                am,
                instead: am | SUPERVISORY,
            };
            return section.find_at(Key::Am, Cause::Mailbox(cause), found);
        }
    }
    let cause = MailboxCause::NoBoardThere {
        am,
        addr,
        space,
        there: space_with(boards, addr),
    };
    section.find_at(Key::Addr, Cause::Mailbox(cause), found)
}
