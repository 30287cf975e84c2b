//! Lists of texts: the lines that a trace lacks, and what is assumed.
ghost use Rattle.std.specs.Prelude.{◌≡◌, [], ◌∷◌, ◌++◌, codes, map, string_bytes, IfOk, OnOk};
ghost use Rattle.std.specs.List.{join_by};
ghost use Rattle.vme_judge.specs.AssumedTexts.{absent, absent_lines, lacking, list_line};

use crate::boards::Board;
use crate::dump::slots_of;
use std::alloc::{AllocError, Global};
use vme_vcd_reader::Presence;

/// Returns the lines that a trace lacks.
///
/// # Errors
///
/// An allocation failed.
pub(crate) fn absent(
    alloc: Global,
    is_dump: bool,
    presence: &Presence,
    boards: &[Board],
) -> Result<Vec<String>, AllocError>
    ensures { IfOk result (λ names. map string_bytes names.items ≡ absent is_dump presence.now boards.now) }
{
    if is_dump {
        absent_lines(alloc, presence, slots_of(boards))
    } else {
        Ok(Vec::new(alloc))
    }
}

/// Returns the lines that a dump lacks, for the slots of the boards.
#[tactic(auto, unfolding(crate::specs::AssumedTexts::absent_lines))]
fn absent_lines(alloc: Global, presence: &Presence, slots: u32) -> Result<Vec<String>, AllocError>
    ensures { IfOk result (λ names. map string_bytes names.items ≡ absent_lines presence.now slots) }
{
    let mut names = Vec::new(alloc);
    push_unless(alloc, presence.bus_error, "BERR*", &mut names)?;
    push_unless(alloc, presence.busy, "BBSY*", &mut names)?;
    push_unless(alloc, presence.interrupt_acknowledge, "IACK*", &mut names)?;
    let drivers = presence.drivers & slots == slots;
    push_unless(alloc, drivers, "BBSY* of each slot", &mut names)?;
    let requests = presence.requests & slots == slots;
    push_unless(alloc, requests, "BRn* of each slot", &mut names)?;
    let grants = presence.grants & slots == slots;
    push_unless(alloc, grants, "BG3IN* to BG0IN*", &mut names)?;
    Ok(names)
}

/// Adds a name, unless what has it is there.
fn push_unless(
    alloc: Global,
    is_there: bool,
    name: &str,
    to: &mut Vec<String>,
) -> Result<(), AllocError>
    ensures { OnOk result (
        map string_bytes to.new.items ≡ map string_bytes to.old.items ++ lacking is_there name.now) }
{
    if is_there {
        return Ok(());
    }
    push_text(alloc, name, to)
}

/// Adds a text.
///
/// # Errors
///
/// An allocation failed.
pub(crate) fn push_text(alloc: Global, text: &str, to: &mut Vec<String>) -> Result<(), AllocError>
    ensures { OnOk result (map string_bytes to.new.items ≡ map string_bytes to.old.items ++ text.now ∷ []) }
{
    to.push(String::from_str(alloc, text)?)?;
    Ok(())
}

/// Appends a line of texts after a head, if there are texts.
///
/// # Errors
///
/// An allocation failed.
pub(crate) fn write_list(
    head: &str,
    texts: &[String],
    between: &str,
    to: &mut String,
) -> Result<(), AllocError>
    ensures { OnOk result (
        string_bytes to.new ≡ string_bytes to.old ++ list_line head.now between.now (map string_bytes texts.now)) }
{
    if texts.is_empty() {
        return Ok(());
    }
    write_listed(head, texts, between, to)
}

/// Appends a line of texts after a head.
fn write_listed(
    head: &str,
    texts: &[String],
    between: &str,
    to: &mut String,
) -> Result<(), AllocError>
    ensures { OnOk result (string_bytes to.new
        ≡ string_bytes to.old ++ (head.now ++ join_by string_bytes between.now texts.now ++ codes "\n")) }
{
    to.push_str(head)?;
    write_joined(texts, between, to)?;
    to.push_str("\n")
}

/// Appends texts with another one between them.
fn write_joined(texts: &[String], between: &str, to: &mut String) -> Result<(), AllocError>
    ensures { OnOk result (
        string_bytes to.new ≡ string_bytes to.old ++ join_by string_bytes between.now texts.now) }
{
    let Some((first, others)) = texts.split_first() else {
        return Ok(());
    };
    to.push_str(first)?;
    for text in others {
        write_next(text, between, to)?;
    }
    Ok(())
}

/// Appends a text after the one between.
fn write_next(text: &str, between: &str, to: &mut String) -> Result<(), AllocError>
    ensures { OnOk result (string_bytes to.new ≡ string_bytes to.old ++ (between.now ++ text.now)) }
{
    to.push_str(between)?;
    to.push_str(text)
}
