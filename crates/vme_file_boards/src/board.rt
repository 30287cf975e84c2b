//! The boards of a file whose configuration is known to be lawful.
ghost use Rattle.std.specs.Prelude.{◌≡◌, ℕ, List, Ok, IfOk, IsOkUnless};
ghost use Rattle.vme_script.specs.declared.board.BoardConfig.{BoardConfig as AnyBoard};
ghost use Rattle.vme_script.specs.Boards.{board_config, boards_after};

use std::alloc::Global;
use vme_config_toml::BoardTable;
use vme_decode::Entry;
use vme_memory::Class;
use vme_script::{BoardConfig, ConfigFault, LAST_SLOT, space_named, width_of};

/// The greatest request level.
const LAST_LEVEL: u32 = 3;

/// Returns the board of a table, if the table has one.
///
/// # Errors
/// A refusal of the slot, the level or a word. Only a table without a board is refused.
#[tactic(auto, using(crate::proofs::Boards::known))]
fn board_of(table: &BoardTable<'_>) -> Result<BoardConfig, ConfigFault>
    ensures { (before : ℕ) (board : AnyBoard) → board_config before table.now ≡ Ok board → result ≡ Ok board }
{
    if table.slot > LAST_SLOT {
        return Err(ConfigFault::BadSlot);
    }
    if table.level > LAST_LEVEL {
        return Err(ConfigFault::BadLevel);
    }
    let (range, class) = (&table.range, table.class);
    let Ok(space) = space_named(range.space) else {
        return Err(ConfigFault::BadWord);
    };
    let Ok(width) = width_of(class.width) else {
        return Err(ConfigFault::BadWord);
    };
    let (base, size, supervisory) = (range.base, range.size, range.supervisory);
    let (uat, blt, rmw) = (class.uat, class.blt, class.rmw);
    Ok(BoardConfig {
        slot: table.slot as u16,
        level: table.level as u8,
        entry: Entry {
            space,
            base,
            size,
            supervisory,
        },
        class: Class {
            width,
            uat,
            blt,
            rmw,
        },
    })
}

/// Returns the boards of tables, in order, if each table has one.
///
/// # Errors
/// `OutOfMemory` if an allocation fails; or as `board_of`.
pub(crate) fn boards_of(
    alloc: Global,
    tables: &[BoardTable<'_>],
) -> Result<Vec<BoardConfig>, ConfigFault>
    ensures { (all : List AnyBoard) → boards_after 0 tables.now ≡ Ok all →
        IsOkUnless result ConfigFault.OutOfMemory × IfOk result (λ boards. boards.items ≡ all) }
{
    let mut boards = Vec::with_capacity(alloc, tables.len())?;
    for i in 0..tables.len() {
        let board = board_of(&tables[i])?;
        boards.push_reserved(board);
    }
    Ok(boards)
}
