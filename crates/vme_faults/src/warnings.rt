//! The warnings of a configuration.
ghost use Rattle.std.specs.Prelude.{◌≡◌, true, IfOk};
ghost use Rattle.std.specs.List.{list_all};
ghost use Rattle.vme_faults.specs.Severities.{is_warning};

mod decimal;
mod lines;
mod list;
mod requests;
mod shared;
mod turns;

use crate::cause::FileWarning;
use crate::finding::Finding;
use list::Warnings;
use requests::Backplane;
use shared::{Uses, find_shared};
use std::alloc::{AllocError, Global};
use toml::Table;
use turns::{Demand, FIRST_BOARD, find_turns};
use vme_config_toml::{FileTable, file_values};
use vme_positions::{Key, Place, TableName};
use vme_script::Config;

/// Returns the warnings of the configuration of a file, given its text and its document.
///
/// # Errors
///
/// An allocation failed.
pub fn warnings_of(
    alloc: Global,
    text: &[u8],
    table: &Table,
    config: &Config,
) -> Result<Vec<Finding>, AllocError>
    ensures { IfOk result (λ found. list_all is_warning found.items ≡ true) }
{
    let mut warnings = Warnings::new(alloc);
    find_in(alloc, text, table, config, &mut warnings)?;
    Ok(warnings.into_findings())
}

/// Finds the warnings of a document.
fn find_in(
    alloc: Global,
    text: &[u8],
    table: &Table,
    config: &Config,
    warnings: &mut Warnings,
) -> Result<(), AllocError> {
    match file_values(alloc, table) {
        Ok(file) => {
            find_all(alloc, &file, config, turns_place(table), warnings)?;
            decimal::find_decimals(alloc, text, &file, warnings)
        }
        Err(_) => Err(AllocError),
    }
}

/// The place at which the file's turns are stated: the value of `rounds` or else that of
/// `schedule`, or the header of the first board if both are absent.
fn turns_place(table: &Table) -> Place {
    for key in [Key::Rounds, Key::Schedule] {
        if table.get(key.name()).is_some() {
            return Place::Value {
                table: TableName::File,
                index: 0,
                key,
            };
        }
    }
    FIRST_BOARD
}

/// Finds the warnings of all scripts, and those of the file. `turns` is the place of its turns.
fn find_all<'a>(
    alloc: Global,
    file: &'a FileTable<'_>,
    config: &'a Config,
    turns: Place,
    warnings: &mut Warnings,
) -> Result<(), AllocError> {
    let mut demands: Vec<Demand> = Vec::new(alloc);
    let mut named: u32 = 0;
    let mut uses = Uses {
        accesses: Vec::new(alloc),
        watches: Vec::new(alloc),
    };
    let backplane = Backplane {
        map: config.map(),
        boards: &file.boards,
    };
    for (board, table) in file.boards.iter().enumerate() {
        let demand = lines::find_lines(board, table, &backplane, &mut uses, warnings)?;
        named |= demand.mailboxes;
        demands.push(demand)?;
    }
    find_shared(&uses, warnings)?;
    find_turns(&demands, config, turns, warnings)?;
    find_idle(config.mailboxes().len(), named, warnings)
}

/// Finds the mailboxes that no line names. Bit i of `named` is set if a line names the mailbox with
/// number i, from 1.
fn find_idle(count: usize, named: u32, warnings: &mut Warnings) -> Result<(), AllocError> {
    for index in 0..count {
        if index < 31 && named & (2 << index) == 0 {
            let place = Place::Table {
                table: TableName::Mailbox,
                index,
            };
            warnings.file(FileWarning::IdleMailbox, place)?;
        }
    }
    Ok(())
}
