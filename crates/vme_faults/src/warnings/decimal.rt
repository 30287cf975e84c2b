//! Warnings of addresses that are written in decimal digits.
use crate::cause::FileWarning;
use crate::warnings::list::Warnings;
use std::alloc::{AllocError, Global};
use vme_config_toml::FileTable;
use vme_positions::{Key, Outline, Place, TableName};

/// Finds the bases of boards and the addresses of mailboxes whose decimal digits end in 00.
pub(crate) fn find_decimals(
    alloc: Global,
    text: &[u8],
    file: &FileTable<'_>,
    warnings: &mut Warnings,
) -> Result<(), AllocError> {
    if !has_round(file) {
        return Ok(());
    }
    let outline = Outline::of(alloc, text)?;
    for (index, board) in file.boards.iter().enumerate() {
        let place = Place::Value {
            table: TableName::Board,
            index,
            key: Key::Base,
        };
        find_decimal(text, &outline, place, board.range.base, warnings)?;
    }
    for (index, mailbox) in file.mailboxes.iter().enumerate() {
        let place = Place::Value {
            table: TableName::Mailbox,
            index,
            key: Key::Addr,
        };
        find_decimal(text, &outline, place, mailbox.addr, warnings)?;
    }
    Ok(())
}

/// Whether the decimal digits of an address end in 00.
fn is_round(value: u32) -> bool {
    value != 0 && value % 100 == 0
}

/// Whether a file has an address whose decimal digits end in 00.
fn has_round(file: &FileTable<'_>) -> bool {
    for board in &file.boards {
        if is_round(board.range.base) {
            return true;
        }
    }
    for mailbox in &file.mailboxes {
        if is_round(mailbox.addr) {
            return true;
        }
    }
    false
}

/// Whether the text of a whole number of TOML is decimal.
fn is_decimal(digits: &[u8]) -> bool {
    !matches!(digits, [] | [b'0', b'x' | b'o' | b'b', ..])
}

/// Finds one address, if its text is decimal and its digits end in 00.
fn find_decimal(
    text: &[u8],
    outline: &Outline,
    place: Place,
    value: u32,
    warnings: &mut Warnings,
) -> Result<(), AllocError> {
    if !is_round(value) {
        return Ok(());
    }
    let span = outline.range(text, &place);
    if is_decimal(&text[span.from..span.to]) {
        warnings.file(FileWarning::Decimal { value }, place)?;
    }
    Ok(())
}
