//! The board tables of a file: what is known of each, and the faults of each by itself.
ghost use Rattle.std.specs.Prelude.{◌≡◌, ◌++◌, map, IfOk, option_copied};
ghost use Rattle.std.specs.Option.{ok_or, option_and_then};
ghost use Rattle.vme_script.specs.declared.fault.ConfigFault.TheVariants.{BadWord};
ghost use Rattle.vme_script.specs.Boards.{space_named, width_of};
ghost use Rattle.vme_script.specs.Causes.{board_refusal};
ghost use Rattle.vme_faults.specs.Sites.{sited, at_value, at_values};
ghost use Rattle.vme_faults.specs.Boards.{refusal_in, refusal_judged, lawful_judged, known_values, slot_refusal, level_refusal, unaligned_refusal, size_refusal, base_refusal, end_refusal, unless_refused, refusals_at_keys, greatest_slot};

use crate::cause::{BoardCause, BoardName, Cause};
use crate::finding::Finding;
use crate::section::Section;
use std::alloc::AllocError;
use vme_am::Space;
use vme_decode::Entry;
use vme_memory::Width8To32;
use vme_positions::Key;
use vme_script::{
    LAST_SLOT, check_base, check_end, check_level, check_size, check_slot, check_unaligned,
    space_named, width_of,
};

/// The values of a board's keys, or their defaults. A value is `None` if it is of another kind, not
/// from 0 to 2^32 - 1, or absent and required.
#[derive(Clone, Copy)]
pub(crate) struct BoardKeys<'a> {
    slot: Option<u32>,
    level: Option<u32>,
    space: Option<&'a str>,
    base: Option<u32>,
    size: Option<u32>,
    supervisory: Option<bool>,
    width: Option<u32>,
    uat: Option<bool>,
    rmw: Option<bool>,
    script: Option<&'a str>,
}

/// What is known of a board. A value that is refused is unknown.
#[derive(Clone, Copy)]
pub(crate) struct KnownBoard<'a> {
    /// The slot, if it is from 1 to 21.
    pub in_range: Option<u32>,
    /// The slot, if it is from 1 to 21 and above all earlier slots in that range.
    pub slot: Option<u16>,
    /// The range, if it is lawful by itself.
    pub entry: Option<Entry>,
    /// The width of the board's slave.
    pub width: Option<Width8To32>,
    /// Whether the board carries out read-modify-writes.
    pub rmw: Option<bool>,
    /// The text of the script.
    pub script: Option<&'a str>,
}

impl<'a> KnownBoard<'a> {
    /// A board of which nothing is known.
    pub(crate) fn unknown() -> KnownBoard<'a> {
        KnownBoard {
            in_range: None,
            slot: None,
            entry: None,
            width: None,
            rmw: None,
            script: None,
        }
    }

    /// The name of the board, which has this index.
    pub(crate) fn name(&self, index: usize) -> BoardName {
        match self.slot {
            Some(slot) => BoardName::Slot(slot),
            None => BoardName::Index(index),
        }
    }
}

/// Reads the keys of a board, and finds the faults of keys and of the kinds of values.
pub(crate) fn read_keys<'a>(
    section: &Section<'a>,
    found: &mut Vec<Finding>,
) -> Result<BoardKeys<'a>, AllocError> {
    section.find_unknown(found)?;
    let slot = section.required_whole(Key::Slot, found)?;
    let level = section.whole_or(Key::Level, 3, found)?;
    let space = section.str_or(Key::Space, "a32", found)?;
    let base = section.required_whole(Key::Base, found)?;
    let size = section.required_whole(Key::Size, found)?;
    let supervisory = section.bool_or(Key::Supervisory, false, found)?;
    let width = section.whole_or(Key::Width, 32, found)?;
    let uat = section.bool_or(Key::Uat, false, found)?;
    let _blt = section.bool_or(Key::Blt, true, found)?;
    let rmw = section.bool_or(Key::Rmw, true, found)?;
    let script = section.str_or(Key::Script, "", found)?;
    Ok(BoardKeys {
        slot,
        level,
        space,
        base,
        size,
        supervisory,
        width,
        uat,
        rmw,
        script,
    })
}

/// Finds the faults of a board's values. `earlier` are the boards before it.
pub(crate) fn check<'a>(
    section: &Section<'a>,
    keys: &BoardKeys<'a>,
    earlier: &[KnownBoard<'a>],
    found: &mut Vec<Finding>,
) -> Result<KnownBoard<'a>, AllocError>
    ensures { IfOk result (λ _. map sited found.new.items ≡ map sited found.old.items
        ++ at_values section.now.table section.now.index
        (refusals_at_keys (greatest_slot 0 earlier.now) (known_values keys.now))) }
{
    let slot = judge(section, Key::Slot, slot_judged(earlier, keys.slot), found)?;
    let _level = judge(section, Key::Level, level_judged(keys.level), found)?;
    let space = judge(section, Key::Space, space_judged(keys.space), found)?;
    let width = judge(section, Key::Width, width_judged(keys.width), found)?;
    let _uat = judge(
        section,
        Key::Uat,
        unaligned_judged(keys.uat, keys.width),
        found,
    )?;
    let size = judge(section, Key::Size, size_judged(keys.size), found)?;
    let base = judge(section, Key::Base, base_judged(keys.base), found)?;
    let end = judge(section, Key::Base, end_judged(space, base, size), found)?;
    Ok(KnownBoard {
        in_range: in_range(keys.slot),
        slot: known_slot(slot),
        entry: known_entry(end, (space, base, size), keys.supervisory),
        width,
        rmw: keys.rmw,
        script: keys.script,
    })
}

/// Finds the fault of the value of `key`, if it is known and has one. Returns what the rule returned
/// for a lawful value.
fn judge<T: Copy>(
    section: &Section<'_>,
    key: Key,
    judged: Option<Result<T, BoardCause>>,
    found: &mut Vec<Finding>,
) -> Result<Option<T>, AllocError>
    ensures kept { IfOk result (λ kept. kept ≡ lawful_judged judged) }
    ensures found { IfOk result (λ _. map sited found.new.items ≡ map sited found.old.items
        ++ at_value section.now.table section.now.index key (refusal_judged judged)) }
{
    match judged {
        Some(Ok(lawful)) => Ok(Some(lawful)),
        Some(Err(cause)) => {
            section.find_at(key, Cause::Board(cause), found)?;
            Ok(None)
        }
        None => Ok(None),
    }
}

/// The greatest slot that is in range, and the index of the first board with it, or 0 and 0.
fn greatest_in_range(boards: &[KnownBoard<'_>]) -> (u32, usize)
    ensures { result.0 ≡ greatest_slot 0 boards.now }
{
    let mut greatest = 0;
    let mut other = 0;
    for (index, board) in boards.iter().enumerate() {
        let slot = board.in_range.unwrap_or(0);
        if slot > greatest {
            greatest = slot;
            other = index;
        }
    }
    (greatest, other)
}

/// The index of the first board with this slot.
fn with_slot(boards: &[KnownBoard<'_>], slot: u32) -> Option<usize> {
    for (index, board) in boards.iter().enumerate() {
        if board.in_range == Some(slot) {
            return Some(index);
        }
    }
    None
}

/// The judgement of a slot after those of the `earlier` boards.
fn slot_judged(earlier: &[KnownBoard<'_>], slot: Option<u32>) -> Option<Result<u32, BoardCause>>
    ensures { refusal_judged result ≡ option_and_then (slot_refusal (greatest_slot 0 earlier.now)) slot }
{
    let slot = slot?;
    let (before, other) = greatest_in_range(earlier);
    match check_slot(before, other, slot) {
        Ok(()) => Some(Ok(slot)),
        Err(cause) => Some(Err(same_slot(earlier, cause))),
    }
}

/// The cause of a slot's refusal, which names the board with the same slot if there is one, rather
/// than the one with the greatest.
fn same_slot(earlier: &[KnownBoard<'_>], cause: BoardCause) -> BoardCause
    ensures { board_refusal result ≡ board_refusal cause }
{
    match cause {
        BoardCause::SlotOrder { slot, .. } => match with_slot(earlier, slot) {
            Some(other) => BoardCause::SlotTaken { slot, other },
            None => cause,
        },
        _ => cause,
    }
}

/// The judgement of a level.
fn level_judged(level: Option<u32>) -> Option<Result<(), BoardCause>>
    ensures { refusal_judged result ≡ option_and_then level_refusal level }
{
    match level {
        Some(level) => Some(check_level(level)),
        None => None,
    }
}

/// The judgement of the name of a space.
fn space_judged(word: Option<&str>) -> Option<Result<Space, BoardCause>>
    ensures refusal { refusal_judged result ≡
        option_and_then (λ name. refusal_in (ok_or (space_named name) BadWord)) (option_copied word.entry) }
    ensures space { lawful_judged result ≡ option_and_then space_named (option_copied word.entry) }
{
    match word {
        Some(word) => Some(space_named(word)),
        None => None,
    }
}

/// The judgement of a number of data lines.
fn width_judged(lines: Option<u32>) -> Option<Result<Width8To32, BoardCause>>
    ensures { refusal_judged result ≡
        option_and_then (λ n. refusal_in (ok_or (width_of n) BadWord)) lines }
{
    match lines {
        Some(lines) => Some(width_of(lines)),
        None => None,
    }
}

/// The judgement of unaligned transfers, if the number of data lines is lawful.
fn unaligned_judged(uat: Option<bool>, lines: Option<u32>) -> Option<Result<(), BoardCause>>
    ensures { refusal_judged result ≡ option_and_then (λ u. option_and_then (unaligned_refusal u) lines) uat }
{
    let (uat, lines) = (uat?, lines?);
    match width_of(lines) {
        Ok(_) => Some(check_unaligned(uat, lines)),
        Err(_) => None,
    }
}

/// The judgement of a size.
fn size_judged(size: Option<u32>) -> Option<Result<u32, BoardCause>>
    ensures refusal { refusal_judged result ≡ option_and_then size_refusal size }
    ensures lawful { lawful_judged result ≡ unless_refused size_refusal size }
{
    let size = size?;
    match check_size(size) {
        Ok(()) => Some(Ok(size)),
        Err(cause) => Some(Err(cause)),
    }
}

/// The judgement of a base.
fn base_judged(base: Option<u32>) -> Option<Result<u32, BoardCause>>
    ensures refusal { refusal_judged result ≡ option_and_then base_refusal base }
    ensures lawful { lawful_judged result ≡ unless_refused base_refusal base }
{
    let base = base?;
    match check_base(base) {
        Ok(()) => Some(Ok(base)),
        Err(cause) => Some(Err(cause)),
    }
}

/// The judgement of a range's end, if its space, its base and its size are lawful.
fn end_judged(
    space: Option<Space>,
    base: Option<u32>,
    size: Option<u32>,
) -> Option<Result<(), BoardCause>>
    ensures { refusal_judged result ≡ end_refusal space base size }
{
    match (space, base, size) {
        (Some(space), Some(base), Some(size)) => Some(check_end(space, base, size)),
        _ => None,
    }
}

/// The slot, if it is from 1 to 21.
fn in_range(slot: Option<u32>) -> Option<u32> {
    match slot {
        Some(slot) if 1 <= slot && slot <= LAST_SLOT => Some(slot),
        _ => None,
    }
}

/// A lawful slot as a `u16`.
fn known_slot(slot: Option<u32>) -> Option<u16> {
    match slot {
        Some(slot) if slot <= LAST_SLOT => Some(slot as u16),
        _ => None,
    }
}

/// The range of a board, if its values are known and it ends within its space.
fn known_entry(
    end: Option<()>,
    range: (Option<Space>, Option<u32>, Option<u32>),
    supervisory: Option<bool>,
) -> Option<Entry> {
    match (end, range, supervisory) {
        (Some(()), (Some(space), Some(base), Some(size)), Some(supervisory)) => Some(Entry {
            space,
            base,
            size,
            supervisory,
        }),
        _ => None,
    }
}
