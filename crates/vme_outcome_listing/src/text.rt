//! The text of an outcome, appended to a buffer.
ghost use Rattle.std.specs.Prelude.{◌≡◌, ◌<◌, ◌++◌, length, OnOk, Some, option_copied, slice_get, unwrap_or};
ghost use Rattle.vme_report.specs.Texts.{replies_text, is_blank, row_text, memory_text};
ghost use Rattle.vme_script.specs.ReplyTexts.{line_text};
ghost use Rattle.vme_shared.specs.declared.reply.LineReply.TheVariants.{Unfinished};
ghost use Rattle.vme_stepper.specs.Reports.{numbered_replies};
ghost use Rattle.vme_states.specs.BareStates.{BareScript, bare_outcome};
ghost use Rattle.vme_outcome_listing.specs.Texts.{slots_of, scripts_text, memories_text, outcome_text};

use std::alloc::AllocError;
use vme_grammar::{print_hex, print_number};
use vme_script::{Config, Script, reply_line};
use vme_shared::LineReply;
use vme_sparse_memory::SparseMemory;
use vme_states::State;

/// The number of bytes in a row of memory.
const ROW_SIZE: u32 = 16;

/// Appends the text of the outcome of a state.
pub(crate) fn append_outcome(
    config: &Config,
    state: &State,
    text: &mut Vec<u8>,
) -> Result<(), AllocError>
    ensures { OnOk result (text.new.items
        ≡ text.old.items ++ outcome_text config.now (bare_outcome state.now)) }
{
    append_scripts(config, state, text)?;
    append_memories(config, state, text)
}

/// Appends the lines for the replies to all scripts.
fn append_scripts(config: &Config, state: &State, text: &mut Vec<u8>) -> Result<(), AllocError>
    ensures { OnOk result (text.new.items ≡ text.old.items
        ++ scripts_text (slots_of config.now) config.now.scripts (bare_outcome state.now).answers) }
{
    for board in 0..config.boards() {
        if state.processors() <= board {
            return Ok(());
        }
        append_script(config.slot(board), config.script(board), state, board, text)?;
    }
    Ok(())
}

/// Appends the lines for the replies to the script of a board's processor.
fn append_script(
    slot: u16,
    script: &Script,
    state: &State,
    board: usize,
    text: &mut Vec<u8>,
) -> Result<(), AllocError>
    requires { board < length state.now.script_states }
    ensures { OnOk result ((c : BareScript) → slice_get state.now.script_states board ≡ Some c →
        text.new.items ≡ text.old.items ++ replies_text slot (numbered_replies script.now c.ended)) }
{
    for line in 0..script.len() {
        append_reply(slot, script.number(line), state.reply(board, line), text)?;
    }
    Ok(())
}

/// Appends the line for the reply to a line of a script.
pub(crate) fn append_reply(
    slot: u16,
    number: u16,
    reply: Option<&LineReply>,
    text: &mut Vec<u8>,
) -> Result<(), AllocError>
    ensures { OnOk result (text.new.items ≡ text.old.items
        ++ line_text slot number (unwrap_or (option_copied reply.entry) Unfinished)) }
{
    match reply {
        Some(reply) => reply_line(slot, number, reply, text),
        None => reply_line(slot, number, &LineReply::Unfinished, text),
    }
}

/// Appends the rows of all memories.
fn append_memories(config: &Config, state: &State, text: &mut Vec<u8>) -> Result<(), AllocError>
    ensures { OnOk result (text.new.items ≡ text.old.items
        ++ memories_text (slots_of config.now) (bare_outcome state.now).memories) }
{
    for board in 0..config.boards() {
        if state.boards() <= board {
            return Ok(());
        }
        append_memory(config.slot(board), state.memory(board), text)?;
    }
    Ok(())
}

/// Appends the rows of a memory.
fn append_memory(slot: u16, memory: &SparseMemory, text: &mut Vec<u8>) -> Result<(), AllocError>
    ensures { OnOk result (text.new.items ≡ text.old.items ++ memory_text slot memory.now.bytes) }
{
    let _size = memory.size();
    let mut offset = 0;
    while let Some(row) = memory.next_row(offset) {
        append_row(slot, row, memory.row(row).as_slice(), text)?;
        offset = row + ROW_SIZE;
    }
    Ok(())
}

/// Returns whether all bytes are zero.
fn is_blank(row: &[u8]) -> bool
    ensures { result ≡ is_blank row.now }
{
    row.iter().all(|byte| *byte == 0)
}

/// Appends the line of a row, if one of its bytes is not zero.
#[tactic(auto, unfolding(vme_report::specs::Texts::row_text))]
fn append_row(slot: u16, offset: u32, row: &[u8], text: &mut Vec<u8>) -> Result<(), AllocError>
    ensures { OnOk result (text.new.items ≡ text.old.items ++ row_text slot offset row.now) }
{
    if is_blank(row) {
        return Ok(());
    }
    let start = offset.to_be_bytes();
    text.extend_from_slice(b"mem ")?;
    print_number(text, u64::from(slot))?;
    text.extend_from_slice(b" ")?;
    print_hex(text, &start)?;
    text.extend_from_slice(b" ")?;
    print_hex(text, row)?;
    text.extend_from_slice(b"\n")
}
