//! A use of `vme_config_toml`.
use std::alloc::Global;
use vme_config_toml::{DocumentFault, file_values, table_of};

/// Returns the size of the first board of a file, or `None` if the file has no board.
pub fn first_size(alloc: Global, text: &[u8]) -> Result<Option<u32>, DocumentFault> {
    let table = table_of(alloc, text)?;
    let file = file_values(alloc, &table)?;
    match file.boards.first() {
        Some(board) => Ok(Some(board.range.size)),
        None => Ok(None),
    }
}
