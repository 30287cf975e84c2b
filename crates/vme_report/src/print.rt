//! The lines of a report about boards and memories, appended to a buffer.
ghost use Rattle.std.specs.Prelude.{◌≡◌, ◌++◌, flat_map, OnOk};
ghost use Rattle.vme_report.specs.Texts.{count_text, counts_text, is_blank, row_text};

use std::alloc::AllocError;
use vme_grammar::{print_hex, print_number};

/// Appends the line of a board's steps and of the steps that each processor made.
#[tactic(auto, unfolding(crate::specs::Texts::counts_text))]
pub(crate) fn print_counts(
    slot: u16,
    steps: u64,
    made: &[u64],
    text: &mut Vec<u8>,
) -> Result<(), AllocError>
    ensures { OnOk result (text.new.items ≡ text.old.items ++ counts_text slot steps made.now) }
{
    text.extend_from_slice(b"board ")?;
    print_number(text, u64::from(slot))?;
    text.extend_from_slice(b" steps ")?;
    print_number(text, steps)?;
    text.extend_from_slice(b" made")?;
    print_made(made, text)?;
    text.extend_from_slice(b"\n")
}

/// Appends the number of steps that each processor made, each after a space.
fn print_made(made: &[u64], text: &mut Vec<u8>) -> Result<(), AllocError>
    ensures { OnOk result (text.new.items ≡ text.old.items ++ flat_map count_text made.now) }
{
    for count in made {
        text.extend_from_slice(b" ")?;
        print_number(text, *count)?;
    }
    Ok(())
}

/// Appends the line of a row of memory, if one of its bytes is not zero.
#[tactic(auto, unfolding(crate::specs::Texts::row_text))]
pub(crate) fn print_row(
    slot: u16,
    offset: u32,
    row: &[u8],
    text: &mut Vec<u8>,
) -> Result<(), AllocError>
    ensures { OnOk result (text.new.items ≡ text.old.items ++ row_text slot offset row.now) }
{
    if is_blank(row) {
        return Ok(());
    }
    text.extend_from_slice(b"mem ")?;
    print_number(text, u64::from(slot))?;
    text.extend_from_slice(b" ")?;
    print_hex(text, &offset.to_be_bytes())?;
    text.extend_from_slice(b" ")?;
    print_hex(text, row)?;
    text.extend_from_slice(b"\n")
}

/// Whether all bytes are zero.
fn is_blank(row: &[u8]) -> bool
    ensures { result ≡ is_blank row.now }
{
    row.iter().all(|byte| *byte == 0)
}
