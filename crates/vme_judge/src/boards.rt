//! The boards of a configuration file, as a judgement needs them.
use std::alloc::Global;
use vme_config_toml::{BoardTable, DocumentFault, FileTable, file_values, table_of};
use vme_decode::Entry;
use vme_memory::Class;
use vme_script::{Config, ConfigFault, space_named, width_of};

/// A board: its slot, its range and its class.
#[derive(Clone, Copy, Debug)]
pub struct Board {
    pub slot: u8,
    pub entry: Entry,
    pub class: Class,
}

/// Returns the boards of a configuration file, in order of slots.
///
/// # Errors
///
/// The refusal of the file, which is that of `vme`. `OutOfMemory`: an allocation failed.
pub fn boards_of(alloc: Global, text: &[u8]) -> Result<Vec<Board>, ConfigFault> {
    let table = table_of(alloc, text).map_err(refusal)?;
    let _config = Config::of_document(alloc, &table)?;
    let file = file_values(alloc, &table).map_err(refusal)?;
    listed(alloc, &file)
}

/// The refusal of a document.
fn refusal(fault: DocumentFault) -> ConfigFault {
    match fault {
        DocumentFault::NotToml => ConfigFault::NotToml,
        DocumentFault::BadKey => ConfigFault::BadKey,
        DocumentFault::OutOfMemory => ConfigFault::OutOfMemory,
    }
}

/// The boards of a file's values, whose slots rise.
fn listed(alloc: Global, file: &FileTable<'_>) -> Result<Vec<Board>, ConfigFault> {
    let mut boards = Vec::new(alloc);
    for table in file.boards.iter() {
        if let Some(board) = board_of(table) {
            boards.push(board).map_err(|_| ConfigFault::OutOfMemory)?;
        }
    }
    Ok(boards)
}

/// The board of a table, whose words are those of a lawful file.
fn board_of(table: &BoardTable<'_>) -> Option<Board> {
    let slot = u8::try_from(table.slot).ok()?;
    let entry = Entry {
        space: space_named(table.range.space).ok()?,
        base: table.range.base,
        size: table.range.size,
        supervisory: table.range.supervisory,
    };
    let class = Class {
        width: width_of(table.class.width).ok()?,
        uat: table.class.uat,
        blt: table.class.blt,
        rmw: table.class.rmw,
    };
    Some(Board { slot, entry, class })
}
