//! The boards of a configuration, and the rules for each of their values.
ghost use Rattle.std.specs.Prelude.{◌≡◌, ◌≤◌, ◌+◌, ◌-◌, ◌%◌, nat_lt, nat_le, not, ◌==◌, ◌&&◌, length, true, IfOk};
ghost use Rattle.std.specs.Option.{ok_or};
ghost use Rattle.vme_am.specs.Spaces.{addresses_of};
ghost use Rattle.vme_memory.specs.Boards.{is_board_size};
ghost use Rattle.vme_script.specs.declared.fault.ConfigFault.TheVariants.{BadSlot, BadLevel, BadWord, BadSize, Misaligned, OutsideSpace};
ghost use Rattle.vme_script.specs.Answers.{Gives, refuse};
ghost use Rattle.vme_script.specs.declared.cause.board.BoardCause.TheVariants.{LevelRange, NoSpace, NoWidth, UnalignedWidth, BaseNotAligned, OutsideSpace as PastSpace};
ghost use Rattle.vme_script.specs.Causes.{board_refusal, refused_as};
ghost use Rattle.vme_script.specs.CauseRules.{cause_if, slot_rule, size_rule};
ghost use Rattle.vme_script.specs.Boards.{space_named, width_of, entry_of, class_of, range_refused, entries_of, map_of, board_config, boards_after, have_ranges};

use crate::cause::BoardCause;
use crate::fault::ConfigFault;
use crate::limits::{LAST_LEVEL, LAST_SLOT};
use std::alloc::{AllocError, Global};
use vme_am::Space;
use vme_config_toml::{BoardTable, ClassTable, RangeTable};
use vme_decode::{AddressMap, Entry, MapFault};
use vme_memory::{ByteMemory, Class, Width8To32};

/// A board as a file configures it.
#[derive(Clone, Copy, Debug, PartialEq, Eq)]
pub struct BoardConfig {
    /// The slot of the board and of its processor, from 1 to 21.
    pub slot: u16,
    /// The level on which the board's processor requests the bus, from 0 to 3.
    pub level: u8,
    /// The addresses at which the board responds.
    pub entry: Entry,
    /// The kinds of transfers to which its slave responds.
    pub class: Class,
}

/// Checks a slot: it is from 1 to 21, and above `before`, the slot of the board with index `other`,
/// or 0 if there is none.
pub fn check_slot(before: u32, other: usize, slot: u32) -> Result<(), BoardCause>
    ensures refusal { refused_as board_refusal result ≡
        refuse (not (nat_lt before slot && nat_le slot 21)) BadSlot }
    ensures cause { result ≡ slot_rule before other slot }
{
    if slot < 1 || slot > LAST_SLOT {
        return Err(BoardCause::SlotRange { slot });
    }
    if slot == before {
        return Err(BoardCause::SlotTaken { slot, other });
    }
    if slot < before {
        return Err(BoardCause::SlotOrder {
            slot,
            before,
            other,
        });
    }
    Ok(())
}

/// Checks a request level: it is at most 3.
pub fn check_level(level: u32) -> Result<(), BoardCause>
    ensures refusal { refused_as board_refusal result ≡ refuse (nat_lt 3 level) BadLevel }
    ensures cause { result ≡ cause_if (nat_lt 3 level) (LevelRange level) }
{
    if level > LAST_LEVEL {
        return Err(BoardCause::LevelRange { level });
    }
    Ok(())
}

/// Returns the address space that `word` names.
#[tactic(auto, unfolding(crate::specs::Boards::space_named))]
pub fn space_named(word: &str) -> Result<Space, BoardCause>
    ensures refusal { refused_as board_refusal result ≡ ok_or (space_named word.now) BadWord }
    ensures cause { result ≡ ok_or (space_named word.now) NoSpace }
{
    match word {
        "a16" => Ok(Space::A16),
        "a24" => Ok(Space::A24),
        "a32" => Ok(Space::A32),
        _ => Err(BoardCause::NoSpace),
    }
}

/// Returns the width of a slave with this number of data lines.
#[tactic(auto, unfolding(crate::specs::Boards::width_of))]
pub fn width_of(lines: u32) -> Result<Width8To32, BoardCause>
    ensures refusal { refused_as board_refusal result ≡ ok_or (width_of lines) BadWord }
    ensures cause { result ≡ ok_or (width_of lines) (NoWidth lines) }
{
    match lines {
        8 => Ok(Width8To32::D08),
        16 => Ok(Width8To32::D16),
        32 => Ok(Width8To32::D32),
        _ => Err(BoardCause::NoWidth { width: lines }),
    }
}

/// Checks that only a slave of 32 data lines has unaligned transfers.
pub fn check_unaligned(uat: bool, width: u32) -> Result<(), BoardCause>
    ensures refusal { refused_as board_refusal result ≡ refuse (uat && not (width == 32)) BadWord }
    ensures cause { result ≡ cause_if (uat && not (width == 32)) (UnalignedWidth width) }
{
    if uat && width != 32 {
        return Err(BoardCause::UnalignedWidth { width });
    }
    Ok(())
}

/// Checks the number of bytes of a board: it is from 4 to 1,048,576, and a multiple of four.
pub fn check_size(size: u32) -> Result<(), BoardCause>
    ensures refusal { refused_as board_refusal result ≡ refuse (not (is_board_size size)) BadSize }
    ensures cause { result ≡ size_rule size }
{
    if ByteMemory::is_size(size) {
        return Ok(());
    }
    if size % 4 != 0 && ByteMemory::is_size((size - size % 4).saturating_add(4)) {
        return Err(BoardCause::SizeNotAligned { size });
    }
    Err(BoardCause::SizeRange { size })
}

/// Checks the first address of a board: it is a multiple of four.
pub fn check_base(base: u32) -> Result<(), BoardCause>
    ensures refusal { refused_as board_refusal result ≡ refuse (not (base % 4 == 0)) Misaligned }
    ensures cause { result ≡ cause_if (not (base % 4 == 0)) (BaseNotAligned base) }
{
    if base % 4 != 0 {
        return Err(BoardCause::BaseNotAligned { base });
    }
    Ok(())
}

/// Checks that `size` bytes from `base` on end within a space.
pub fn check_end(space: Space, base: u32, size: u32) -> Result<(), BoardCause>
    ensures refusal { refused_as board_refusal result ≡
        refuse (nat_lt (addresses_of space) (base + size)) OutsideSpace }
    ensures cause { result ≡
        cause_if (nat_lt (addresses_of space) (base + size)) (PastSpace space (base + size - 1)) }
{
    let end = u64::from(base) + u64::from(size);
    if end > space.addresses() {
        let last = end - 1;
        return Err(BoardCause::OutsideSpace { space, last });
    }
    Ok(())
}

/// The range of a board.
#[tactic(auto, unfolding(crate::specs::Boards::entry_of))]
fn entry_of(range: &RangeTable<'_>) -> Result<Entry, BoardCause>
    ensures { refused_as board_refusal result ≡ entry_of range.now }
{
    let space = space_named(range.space)?;
    Ok(Entry {
        space,
        base: range.base,
        size: range.size,
        supervisory: range.supervisory,
    })
}

/// The class of a board.
#[tactic(auto, unfolding(crate::specs::Boards::class_of))]
fn class_of(class: ClassTable) -> Result<Class, BoardCause>
    ensures { refused_as board_refusal result ≡ class_of class }
{
    let width = width_of(class.width)?;
    check_unaligned(class.uat, class.width)?;
    Ok(Class {
        width,
        uat: class.uat,
        blt: class.blt,
        rmw: class.rmw,
    })
}

/// Checks a board's range: its size, its base, and that it ends within its space.
#[tactic(auto, unfolding(crate::specs::Boards::range_refused))]
fn check_range(entry: Entry) -> Result<(), BoardCause>
    ensures { refused_as board_refusal result ≡ range_refused entry }
{
    check_size(entry.size)?;
    check_base(entry.base)?;
    check_end(entry.space, entry.base, entry.size)
}

/// The configuration of a board that follows the board in slot `before`, which has index `other`.
#[tactic(auto, unfolding(crate::specs::Boards::board_config))]
fn board_config(
    before: u32,
    other: usize,
    board: &BoardTable<'_>,
) -> Result<BoardConfig, BoardCause>
    ensures { refused_as board_refusal result ≡ board_config before board.now }
{
    check_slot(before, other, board.slot)?;
    check_level(board.level)?;
    let entry = entry_of(&board.range)?;
    let class = class_of(board.class)?;
    check_range(entry)?;
    Ok(BoardConfig {
        slot: board.slot as u16,
        level: board.level as u8,
        entry,
        class,
    })
}

/// The configurations of boards, in order of slots.
pub(crate) fn board_configs(
    alloc: Global,
    boards: &[BoardTable<'_>],
) -> Result<Vec<BoardConfig>, ConfigFault>
    ensures { Gives (λ configs. configs.items) result (boards_after 0 boards.now) }
{
    let mut configs = Vec::with_capacity(alloc, boards.len())?;
    let mut before = 0;
    for board in boards {
        let other = configs.len().saturating_sub(1);
        configs.push(board_config(before, other, board)?)?;
        before = board.slot;
    }
    Ok(configs)
}

/// The ranges of boards, in order of slots.
fn entries_of(alloc: Global, boards: &[BoardConfig]) -> Result<Vec<Entry>, AllocError>
    ensures { IfOk result (λ entries. entries.items ≡ entries_of boards.now) }
{
    boards.iter().map(|board| board.entry).collect(alloc)
}

/// The address map of boards each of whose ranges is lawful by itself.
#[tactic(auto, using(crate::proofs::Maps::refusal_of_lawful), unfolding(crate::specs::Boards::map_of))]
pub(crate) fn map_of(alloc: Global, boards: &[BoardConfig]) -> Result<AddressMap, ConfigFault>
    requires most { length boards.now ≤ 21 }
    requires ranges { have_ranges boards.now ≡ true }
    ensures map { Gives (λ map. map) result (map_of (entries_of boards.now)) }
    ensures same { IfOk result (λ map. map ≡ entries_of boards.now) }
{
    match AddressMap::new(alloc, &entries_of(alloc, boards)?) {
        Ok(map) => Ok(map),
        Err(MapFault::OutOfMemory) => Err(ConfigFault::OutOfMemory),
        Err(_) => Err(ConfigFault::Overlap),
    }
}
