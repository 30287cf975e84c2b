//! Warnings of turns: slots with too few of them, or with turns and no line.
use crate::cause::FileWarning;
use crate::warnings::list::Warnings;
use std::alloc::AllocError;
use vme_positions::{Key, Place, TableName};
use vme_script::Config;

/// The turns and the mailboxes that the script of a board asks for.
#[derive(Clone, Copy)]
pub(crate) struct Demand {
    /// The number of lines that request something.
    pub lines: u32,
    /// The least number of turns of `vme step` that these lines take.
    pub least: u64,
    /// The mailboxes that these lines name: bit i is set for number i.
    pub mailboxes: u32,
    /// The slot of the board.
    pub slot: u16,
}

/// The turns of a slot in the schedule.
fn scheduled(config: &Config, slot: u16) -> u64 {
    let mut sum: u64 = 0;
    for (other, turns) in config.schedule() {
        if *other == slot {
            sum = sum.saturating_add(u64::from(*turns));
        }
    }
    sum
}

/// The place of a board's slot.
fn slot_of(board: usize) -> Place {
    Place::Key {
        table: TableName::Board,
        index: board,
        key: Key::Slot,
    }
}

/// The header of the first board.
pub(crate) const FIRST_BOARD: Place = Place::Table {
    table: TableName::Board,
    index: 0,
};

/// Finds the warnings of turns. `demands` has an element for each board, and `place` is the place
/// at which the file's turns are stated.
pub(crate) fn find_turns(
    demands: &[Demand],
    config: &Config,
    place: Place,
    warnings: &mut Warnings,
) -> Result<(), AllocError> {
    let mut lines: u64 = 0;
    let mut turns = u64::from(config.rounds());
    for demand in demands {
        lines = lines.saturating_add(u64::from(demand.lines));
        turns = turns.saturating_add(scheduled(config, demand.slot));
    }
    if lines == 0 {
        warnings.file(FileWarning::NoLines, FIRST_BOARD)?;
    } else if turns == 0 {
        warnings.file(FileWarning::NoTurns, place)?;
        return Ok(());
    }
    for (board, demand) in demands.iter().enumerate() {
        find_slot(board, demand, config, warnings)?;
    }
    Ok(())
}

/// Finds the warning of one slot's turns.
fn find_slot(
    board: usize,
    demand: &Demand,
    config: &Config,
    warnings: &mut Warnings,
) -> Result<(), AllocError> {
    let slot = demand.slot;
    let listed = scheduled(config, slot);
    let turns = listed.saturating_add(u64::from(config.rounds()));
    let least = demand.least;
    if demand.lines == 0 {
        if listed > 0 {
            warnings.file(FileWarning::IdleTurns { slot }, slot_of(board))?;
        }
    } else if turns == 0 {
        warnings.file(FileWarning::NoTurnsOfSlot { slot }, slot_of(board))?;
    } else if turns < least {
        let warning = FileWarning::FewTurns { slot, turns, least };
        warnings.file(warning, slot_of(board))?;
    }
    Ok(())
}
