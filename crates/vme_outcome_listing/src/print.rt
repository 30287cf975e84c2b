//! Schedules, paragraphs and the summary, appended to a buffer.
ghost use Rattle.std.specs.Prelude.{◌≡◌, ◌++◌, ◌+◌, codes, flat_map, map, OnOk};
ghost use Rattle.std.specs.Fmt.{decimal};
ghost use Rattle.std.specs.Str.Lines.{lines};
ghost use Rattle.vme_outcome_listing.specs.ListedTexts.{shown};
ghost use Rattle.vme_outcome_listing.specs.Schedules.{pair_text, pairs_text, schedule_text, tries_text, tries_line, tries_after, is_long};
ghost use Rattle.vme_outcome_listing.specs.Outputs.{cell_text, row_text, paragraph_text, number_text, kept_words, long_words, long_text, longs_text, summary_text};

use crate::asked::Form;
use crate::paragraph::Paragraph;
use std::alloc::AllocError;
use vme_grammar::print_number;
use vme_lexer::Lines;

/// The greatest number of turns in a schedule that a file may state.
const MOST_TURNS: u64 = 1_000_000;

/// Appends an outcome in a form.
#[tactic(auto, unfolding(crate::specs::Outputs::paragraph_text))]
pub(crate) fn append_paragraph(
    form: Form,
    paragraph: &Paragraph<'_>,
    text: &mut Vec<u8>,
) -> Result<(), AllocError>
    ensures { OnOk result (text.new.items
        ≡ text.old.items ++ paragraph_text form (shown paragraph.now)) }
{
    match form {
        Form::Paragraphs => {
            append_schedule(paragraph.outcome.schedule(), text)?;
            text.extend_from_slice(b"\n")?;
            append_tries_line(paragraph.outcome.tries(), text)?;
            text.extend_from_slice(paragraph.text.as_slice())?;
            text.extend_from_slice(b"\n")
        }
        Form::Table => append_row(paragraph, text),
    }
}

/// Appends an outcome as a row of a table: its lines, and the schedule.
#[tactic(auto, unfolding(crate::specs::Outputs::row_text))]
fn append_row(paragraph: &Paragraph<'_>, text: &mut Vec<u8>) -> Result<(), AllocError>
    ensures { OnOk result (text.new.items ≡ text.old.items ++ row_text (shown paragraph.now)) }
{
    append_cells(paragraph.text.as_slice(), text)?;
    append_schedule(paragraph.outcome.schedule(), text)?;
    append_tries_after(paragraph.outcome.tries(), text)?;
    text.extend_from_slice(b"\n")
}

/// Appends lines in a row of a table.
fn append_cells(all: &[u8], text: &mut Vec<u8>) -> Result<(), AllocError>
    ensures { OnOk result (text.new.items ≡ text.old.items ++ flat_map cell_text (lines all.now)) }
{
    for line in Lines::new(all) {
        text.extend_from_slice(line)?;
        text.extend_from_slice(b"; ")?;
    }
    Ok(())
}

/// Appends a schedule as a file states it.
///
/// # Errors
///
/// An allocation failed.
#[tactic(auto, unfolding(crate::specs::Schedules::schedule_text))]
pub fn append_schedule(schedule: &[(u16, u32)], text: &mut Vec<u8>) -> Result<(), AllocError>
    ensures { OnOk result (text.new.items ≡ text.old.items ++ schedule_text schedule.now) }
{
    text.extend_from_slice(b"schedule = [")?;
    append_pairs(schedule, text)?;
    text.extend_from_slice(b"]")
}

/// Appends pairs of a slot and its number of turns.
fn append_pairs(pairs: &[(u16, u32)], text: &mut Vec<u8>) -> Result<(), AllocError>
    ensures { OnOk result (text.new.items ≡ text.old.items ++ pairs_text pairs.now) }
{
    let Some((first, rest)) = pairs.split_first() else {
        return Ok(());
    };
    append_pair(first, text)?;
    for pair in rest {
        text.extend_from_slice(b", ")?;
        append_pair(pair, text)?;
    }
    Ok(())
}

/// Appends a slot and its number of turns.
fn append_pair(pair: &(u16, u32), text: &mut Vec<u8>) -> Result<(), AllocError>
    ensures { OnOk result (text.new.items ≡ text.old.items ++ pair_text pair.now) }
{
    text.extend_from_slice(b"[")?;
    print_number(text, u64::from(pair.0))?;
    text.extend_from_slice(b", ")?;
    print_number(text, u64::from(pair.1))?;
    text.extend_from_slice(b"]")
}

/// Appends the line of a number of tries, if there is one.
///
/// # Errors
///
/// An allocation failed.
#[tactic(auto, unfolding(crate::specs::Schedules::tries_line))]
pub fn append_tries_line(tries: Option<u32>, text: &mut Vec<u8>) -> Result<(), AllocError>
    ensures { OnOk result (text.new.items ≡ text.old.items ++ tries_line tries) }
{
    let Some(tries) = tries else {
        return Ok(());
    };
    append_tries(tries, text)?;
    text.extend_from_slice(b"\n")
}

/// Appends a number of tries after a schedule, if there is one.
#[tactic(auto, unfolding(crate::specs::Schedules::tries_after))]
pub(crate) fn append_tries_after(tries: Option<u32>, text: &mut Vec<u8>) -> Result<(), AllocError>
    ensures { OnOk result (text.new.items ≡ text.old.items ++ tries_after tries) }
{
    let Some(tries) = tries else {
        return Ok(());
    };
    text.extend_from_slice(b", ")?;
    append_tries(tries, text)
}

/// Appends a number of tries as a file states it.
fn append_tries(tries: u32, text: &mut Vec<u8>) -> Result<(), AllocError>
    ensures { OnOk result (text.new.items ≡ text.old.items ++ tries_text tries) }
{
    text.extend_from_slice(b"tries = ")?;
    print_number(text, u64::from(tries))
}

/// Appends the last line: the numbers of outcomes, which may be those of some lines, and of states,
/// and which outcomes have a schedule of more turns than a file may state.
#[tactic(auto, unfolding(crate::specs::Outputs::summary_text))]
pub(crate) fn append_summary(
    some: bool,
    paragraphs: &[Paragraph<'_>],
    states: usize,
    text: &mut Vec<u8>,
) -> Result<(), AllocError>
    ensures { OnOk result (text.new.items
        ≡ text.old.items ++ summary_text some (map shown paragraphs.now) states) }
{
    append_count(paragraphs.len(), b"outcome", text)?;
    append_kept_words(some, text)?;
    text.extend_from_slice(b", ")?;
    append_count(states, b"state", text)?;
    append_longs(paragraphs, text)?;
    text.extend_from_slice(b"\n")
}

/// Appends which outcomes have a schedule of more turns than a file may state.
fn append_longs(paragraphs: &[Paragraph<'_>], text: &mut Vec<u8>) -> Result<(), AllocError>
    ensures { OnOk result (text.new.items
        ≡ text.old.items ++ longs_text 1 (map shown paragraphs.now)) }
{
    let mut number = 0;
    for paragraph in paragraphs {
        number += 1;
        append_long(number, paragraph, text)?;
    }
    Ok(())
}

/// Appends that the outcome with a number has a schedule of more turns than a file may state, if it has.
#[tactic(auto, unfolding(crate::specs::Outputs::long_text))]
fn append_long(
    number: usize,
    paragraph: &Paragraph<'_>,
    text: &mut Vec<u8>,
) -> Result<(), AllocError>
    ensures { OnOk result (text.new.items
        ≡ text.old.items ++ long_text number (shown paragraph.now).schedule) }
{
    let long = is_long(paragraph.outcome.schedule());
    append_long_words(long, number, text)
}

/// Appends that the outcome with a number has such a schedule, if it has.
fn append_long_words(long: bool, number: usize, text: &mut Vec<u8>) -> Result<(), AllocError>
    ensures { OnOk result (text.new.items ≡ text.old.items ++ long_words long number) }
{
    if long {
        append_found_none(number, text)?;
    }
    Ok(())
}

/// Appends that the outcome with a number has such a schedule.
fn append_found_none(number: usize, text: &mut Vec<u8>) -> Result<(), AllocError>
    ensures { OnOk result (text.new.items ≡ text.old.items
        ++ (codes "; found no schedule of at most 1000000 turns for outcome " ++ decimal number)) }
{
    text.extend_from_slice(b"; found no schedule of at most 1000000 turns for outcome ")?;
    print_number(text, number as u64)
}

/// Returns whether a schedule has more turns than a file may state.
fn is_long(schedule: &[(u16, u32)]) -> bool
    ensures { result ≡ is_long schedule.now }
{
    let mut turns: u64 = 0;
    for pair in schedule {
        turns += u64::from(pair.1);
        if turns > MOST_TURNS {
            return true;
        }
    }
    false
}

/// Appends of which lines the outcomes are.
fn append_kept_words(some: bool, text: &mut Vec<u8>) -> Result<(), AllocError>
    ensures { OnOk result (text.new.items ≡ text.old.items ++ kept_words some) }
{
    if some {
        text.extend_from_slice(b" of these lines")?;
    }
    Ok(())
}

/// Appends a number of things.
///
/// # Errors
///
/// An allocation failed.
pub fn append_count(number: usize, thing: &[u8], text: &mut Vec<u8>) -> Result<(), AllocError>
    ensures { OnOk result (text.new.items ≡ text.old.items ++ number_text number thing.now) }
{
    print_number(text, number as u64)?;
    text.extend_from_slice(b" ")?;
    text.extend_from_slice(thing)?;
    if number != 1 {
        text.extend_from_slice(b"s")?;
    }
    Ok(())
}
