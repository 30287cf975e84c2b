//! What a verdict assumes.
ghost use Rattle.std.specs.Prelude.{◌≡◌, ◌++◌, codes, map, string_bytes, IfOk, OnOk};
ghost use Rattle.std.specs.Fmt.{decimal};
ghost use Rattle.std.specs.List.{join_by};
ghost use Rattle.vme_judge.specs.Levels.{hex};
ghost use Rattle.vme_judge.specs.AssumedTexts.{answers_assumed, assumed, ignored_code, ignored_codes, ignored_texts, is_open, is_unseen, open_text, opened_texts, others_texts, range_text, start_text, unseen_slot, unseen_slots, unseen_texts};

use crate::boards::Board;
use crate::options::{OpenBytes, Options};
use crate::tail::push_text;
use std::alloc::{AllocError, Global};
use std::fmt::Write;

/// Returns what is assumed. `ports` are the slots whose local ports the trace shows.
///
/// # Errors
///
/// An allocation failed.
#[tactic(auto, unfolding(crate::specs::AssumedTexts::assumed))]
pub(crate) fn assumed(
    alloc: Global,
    options: &Options<'_>,
    boards: &[Board],
    ports: u32,
) -> Result<Vec<String>, AllocError>
    ensures { IfOk result (λ texts. map string_bytes texts.items ≡ assumed options.now boards.now ports) }
{
    let mut texts = Vec::new(alloc);
    if options.has_answers() {
        push_answers(alloc, options, boards, ports, &mut texts)?;
    }
    let ignored = ignored_codes(alloc, options.ignored)?;
    push_ignored(alloc, ignored.as_slice(), &mut texts)?;
    Ok(texts)
}

/// Adds what is assumed of the answers of boards.
#[tactic(auto, unfolding(crate::specs::AssumedTexts::answers_assumed))]
fn push_answers(
    alloc: Global,
    options: &Options<'_>,
    boards: &[Board],
    ports: u32,
    to: &mut Vec<String>,
) -> Result<(), AllocError>
    ensures { OnOk result (map string_bytes to.new.items
        ≡ map string_bytes to.old.items ++ answers_assumed options.now boards.now ports) }
{
    push_text(alloc, start_text(options.zero), to)?;
    let slots = unseen_slots(alloc, options.open, ports, boards)?;
    push_unseen(alloc, slots.as_slice(), to)?;
    push_opened(alloc, options.open, to)?;
    push_others(alloc, options.others, to)
}

/// What memory is assumed at the start.
fn start_text(zero: bool) -> &'static str
    ensures { result.now ≡ start_text zero }
{
    if zero {
        "zeros in memory at the start"
    } else {
        "any memory at the start"
    }
}

/// Returns the slots whose local ports are assumed to access nothing.
fn unseen_slots(
    alloc: Global,
    opens: &[OpenBytes],
    ports: u32,
    boards: &[Board],
) -> Result<Vec<u8>, AllocError>
    ensures { IfOk result (λ slots. slots.items ≡ unseen_slots opens.now ports boards.now) }
{
    let mut slots = Vec::new(alloc);
    for board in boards {
        push_if_unseen(opens, ports, board, &mut slots)?;
    }
    Ok(slots)
}

/// Adds the slot of a board, if its local port is assumed to access nothing.
fn push_if_unseen(
    opens: &[OpenBytes],
    ports: u32,
    board: &Board,
    to: &mut Vec<u8>,
) -> Result<(), AllocError>
    ensures { OnOk result (to.new.items ≡ to.old.items ++ unseen_slot opens.now ports board.now) }
{
    if is_unseen(opens, ports, board.slot) {
        to.push(board.slot)?;
    }
    Ok(())
}

/// Whether a slot's local port is assumed to access nothing: the trace does not show it, and not all
/// bytes are open.
fn is_unseen(opens: &[OpenBytes], ports: u32, slot: u8) -> bool
    ensures { result ≡ is_unseen opens.now ports slot }
{
    let place = u32::from(slot.wrapping_sub(1));
    ports.wrapping_shr(place) & 1 == 0 && !is_open(opens, slot)
}

/// Whether all bytes of a slot's board may be written unseen.
fn is_open(opens: &[OpenBytes], slot: u8) -> bool
    ensures { result ≡ is_open opens.now slot }
{
    opens
        .iter()
        .any(|bytes| bytes.slot == slot && bytes.range.is_none())
}

/// Adds that the local ports of slots access nothing, if there are slots.
fn push_unseen(alloc: Global, slots: &[u8], to: &mut Vec<String>) -> Result<(), AllocError>
    ensures { OnOk result (map string_bytes to.new.items ≡ map string_bytes to.old.items ++ unseen_texts slots.now) }
{
    if slots.is_empty() {
        return Ok(());
    }
    to.push(unseen_text(alloc, slots)?)?;
    Ok(())
}

/// Returns that the local ports of slots access nothing.
fn unseen_text(alloc: Global, slots: &[u8]) -> Result<String, AllocError>
    ensures { IfOk result (λ text. string_bytes text
        ≡ codes "no access by the local port of slot " ++ join_by decimal (codes ", ") slots.now) }
{
    let mut text = String::from_str(alloc, "no access by the local port of slot ")?;
    write_slots(slots, &mut text)?;
    Ok(text)
}

/// Appends slots with commas between them.
fn write_slots(slots: &[u8], to: &mut String) -> Result<(), AllocError>
    ensures { OnOk result (
        string_bytes to.new ≡ string_bytes to.old ++ join_by decimal (codes ", ") slots.now) }
{
    let Some((first, others)) = slots.split_first() else {
        return Ok(());
    };
    write!(to, "{first}")?;
    for slot in others {
        write_next_slot(*slot, to)?;
    }
    Ok(())
}

/// Appends a comma and a slot.
fn write_next_slot(slot: u8, to: &mut String) -> Result<(), AllocError>
    ensures { OnOk result (string_bytes to.new ≡ string_bytes to.old ++ (codes ", " ++ decimal slot)) }
{
    write!(to, ", {slot}")
}

/// Adds that bytes may be written unseen, if there are such.
fn push_opened(alloc: Global, opens: &[OpenBytes], to: &mut Vec<String>) -> Result<(), AllocError>
    ensures { OnOk result (map string_bytes to.new.items ≡ map string_bytes to.old.items ++ opened_texts opens.now) }
{
    if opens.is_empty() {
        return Ok(());
    }
    to.push(opened_text(alloc, opens)?)?;
    Ok(())
}

/// Returns that bytes may be written unseen.
fn opened_text(alloc: Global, opens: &[OpenBytes]) -> Result<String, AllocError>
    ensures { IfOk result (λ text. string_bytes text
        ≡ codes "any writes by the local ports of " ++ join_by open_text (codes ", ") opens.now) }
{
    let mut text = String::from_str(alloc, "any writes by the local ports of ")?;
    write_opens(opens, &mut text)?;
    Ok(text)
}

/// Appends which bytes of slots are open, with commas between them.
fn write_opens(opens: &[OpenBytes], to: &mut String) -> Result<(), AllocError>
    ensures { OnOk result (
        string_bytes to.new ≡ string_bytes to.old ++ join_by open_text (codes ", ") opens.now) }
{
    let Some((first, others)) = opens.split_first() else {
        return Ok(());
    };
    write_open(first, to)?;
    for bytes in others {
        write_next_open(bytes, to)?;
    }
    Ok(())
}

/// Appends a comma, and which bytes of a slot are open.
fn write_next_open(bytes: &OpenBytes, to: &mut String) -> Result<(), AllocError>
    ensures { OnOk result (string_bytes to.new ≡ string_bytes to.old ++ (codes ", " ++ open_text bytes.now)) }
{
    to.push_str(", ")?;
    write_open(bytes, to)
}

/// Appends a slot, and which of its bytes are open.
fn write_open(bytes: &OpenBytes, to: &mut String) -> Result<(), AllocError>
    ensures { OnOk result (string_bytes to.new ≡ string_bytes to.old ++ open_text bytes.now) }
{
    let slot = bytes.slot;
    write!(to, "{slot}")?;
    write_range(bytes.range, to)
}

/// Appends the offsets that are open, if not all are.
fn write_range(range: Option<(u32, u32)>, to: &mut String) -> Result<(), AllocError>
    ensures { OnOk result (string_bytes to.new ≡ string_bytes to.old ++ range_text range) }
{
    let Some((from, end)) = range else {
        return Ok(());
    };
    let last = end.saturating_sub(1);
    write!(to, ":{from:x}-{last:x}")
}

/// Adds that boards which are not named answer elsewhere, if they do.
fn push_others(alloc: Global, others: bool, to: &mut Vec<String>) -> Result<(), AllocError>
    ensures { OnOk result (map string_bytes to.new.items ≡ map string_bytes to.old.items ++ others_texts others) }
{
    if !others {
        return Ok(());
    }
    push_text(
        alloc,
        "boards that are not named at all other addresses",
        to,
    )
}

/// Returns the codes whose cycles are not judged.
fn ignored_codes(alloc: Global, ignored: u64) -> Result<Vec<u8>, AllocError>
    ensures { IfOk result (λ numbers. numbers.items ≡ ignored_codes ignored) }
{
    let mut numbers = Vec::new(alloc);
    for code in 0..64u8 {
        push_if_ignored(ignored, code, &mut numbers)?;
    }
    Ok(numbers)
}

/// Adds a code, if its cycles are not judged.
fn push_if_ignored(ignored: u64, code: u8, to: &mut Vec<u8>) -> Result<(), AllocError>
    ensures { OnOk result (to.new.items ≡ to.old.items ++ ignored_code ignored code) }
{
    if ignored.wrapping_shr(u32::from(code)) & 1 != 0 {
        to.push(code)?;
    }
    Ok(())
}

/// Adds that cycles of codes change nothing, if there are codes.
fn push_ignored(alloc: Global, numbers: &[u8], to: &mut Vec<String>) -> Result<(), AllocError>
    ensures { OnOk result (map string_bytes to.new.items ≡ map string_bytes to.old.items ++ ignored_texts numbers.now) }
{
    if numbers.is_empty() {
        return Ok(());
    }
    to.push(ignored_text(alloc, numbers)?)?;
    Ok(())
}

/// Returns that cycles of codes change nothing.
fn ignored_text(alloc: Global, numbers: &[u8]) -> Result<String, AllocError>
    ensures { IfOk result (λ text. string_bytes text
        ≡ codes "cycles that are not judged change nothing: am=" ++ join_by (hex 2) (codes ",") numbers.now) }
{
    let mut text = String::from_str(alloc, "cycles that are not judged change nothing: am=")?;
    write_codes(numbers, &mut text)?;
    Ok(text)
}

/// Appends codes with commas between them.
fn write_codes(numbers: &[u8], to: &mut String) -> Result<(), AllocError>
    ensures { OnOk result (
        string_bytes to.new ≡ string_bytes to.old ++ join_by (hex 2) (codes ",") numbers.now) }
{
    let Some((first, others)) = numbers.split_first() else {
        return Ok(());
    };
    write!(to, "{first:02x}")?;
    for code in others {
        write_next_code(*code, to)?;
    }
    Ok(())
}

/// Appends a comma and a code.
fn write_next_code(code: u8, to: &mut String) -> Result<(), AllocError>
    ensures { OnOk result (string_bytes to.new ≡ string_bytes to.old ++ (codes "," ++ hex 2 code)) }
{
    write!(to, ",{code:02x}")
}
