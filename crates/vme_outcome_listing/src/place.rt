//! Where a line of a condition looks, and the line that an outcome has there.
ghost use Rattle.std.specs.Prelude.{◌≡◌, ◌+◌, ◌++◌, [], take, drop, slice_get, OnOk, option_copied, unwrap_or};
ghost use Rattle.vme_grammar.specs.Texts.{hex_text};
ghost use Rattle.vme_states.specs.BareStates.{bare_outcome};
ghost use Rattle.vme_outcome_listing.specs.Places.{bytes_head, head_text, byte_text, bytes_of, line_at};

use crate::text::append_reply;
use std::alloc::AllocError;
use vme_grammar::{print_hex, print_number};
use vme_shared::LineReply;
use vme_sparse_memory::SparseMemory;
use vme_states::State;

/// Where a line of a condition looks.
#[derive(Clone, Copy, Debug, PartialEq, Eq)]
pub(crate) enum Place {
    /// The reply to a line of the script in a slot, by the line's number.
    Reply {
        slot: u16,
        number: u16,
        /// The index of the board.
        board: usize,
        /// The index of the line.
        line: usize,
    },
    /// So many bytes of the memory of the board in a slot, from an offset on.
    Bytes {
        slot: u16,
        /// The index of the board.
        board: usize,
        offset: u32,
        count: u32,
    },
}

impl Place {
    /// Appends what a line that looks at the place begins with.
    pub(crate) fn append_head(&self, text: &mut Vec<u8>) -> Result<(), AllocError>
        ensures { OnOk result (text.new.items ≡ text.old.items ++ head_text self.now) }
    {
        match *self {
            Place::Reply { slot, number, .. } => {
                print_number(text, u64::from(slot))?;
                text.extend_from_slice(b":")?;
                print_number(text, u64::from(number))?;
                text.extend_from_slice(b" ")
            }
            Place::Bytes { slot, offset, .. } => append_bytes_head(slot, offset, text),
        }
    }

    /// Appends the line that the outcome of a state has at the place.
    pub(crate) fn append_line(&self, state: &State, text: &mut Vec<u8>) -> Result<(), AllocError>
        ensures { OnOk result (text.new.items
            ≡ text.old.items ++ line_at (bare_outcome state.now) self.now) }
    {
        match *self {
            Place::Reply {
                slot,
                number,
                board,
                line,
            } => append_reply(slot, number, reply_in(state, board, line), text),
            Place::Bytes {
                slot,
                board,
                offset,
                count,
            } => {
                append_bytes_head(slot, offset, text)?;
                append_bytes(state, board, offset, count, text)?;
                text.extend_from_slice(b"\n")
            }
        }
    }
}

/// Returns the reply to a line of a processor's script, if there is one.
fn reply_in(state: &State, board: usize, line: usize) -> Option<&LineReply>
    ensures { option_copied result
        ≡ slice_get (unwrap_or (slice_get (bare_outcome state.now).answers board) []) line }
{
    if state.processors() <= board {
        return None;
    }
    state.reply(board, line)
}

/// Appends what a line of bytes of a memory begins with.
fn append_bytes_head(slot: u16, offset: u32, text: &mut Vec<u8>) -> Result<(), AllocError>
    ensures { OnOk result (text.new.items ≡ text.old.items ++ bytes_head slot offset) }
{
    let start = offset.to_be_bytes();
    text.extend_from_slice(b"mem ")?;
    print_number(text, u64::from(slot))?;
    text.extend_from_slice(b" ")?;
    print_hex(text, &start)?;
    text.extend_from_slice(b" ")
}

/// Appends so many bytes of a board's memory, from an offset on.
#[tactic(auto, using(crate::proofs::Places::memory_there, crate::proofs::Places::no_memory))]
fn append_bytes(
    state: &State,
    board: usize,
    offset: u32,
    count: u32,
    text: &mut Vec<u8>,
) -> Result<(), AllocError>
    ensures { OnOk result (text.new.items ≡ text.old.items
        ++ hex_text (take count (drop offset (bytes_of (bare_outcome state.now) board)))) }
{
    if state.boards() <= board {
        return Ok(());
    }
    append_memory_bytes(state.memory(board), offset, count, text)
}

/// Appends so many bytes of a memory, from an offset on.
fn append_memory_bytes(
    memory: &SparseMemory,
    offset: u32,
    count: u32,
    text: &mut Vec<u8>,
) -> Result<(), AllocError>
    ensures { OnOk result (text.new.items ≡ text.old.items
        ++ hex_text (take count (drop offset memory.now.bytes))) }
{
    for at in 0..count {
        append_byte(byte_at(memory, offset, at), text)?;
    }
    Ok(())
}

/// Returns the byte so far after an offset, or `None` past the end.
fn byte_at(memory: &SparseMemory, offset: u32, at: u32) -> Option<u8>
    ensures { result ≡ slice_get memory.now.bytes (offset + at) }
{
    let size = memory.size();
    if size <= offset || size - offset <= at {
        return None;
    }
    memory.byte(offset + at)
}

/// Appends a byte as two digits.
fn append_byte(byte: Option<u8>, text: &mut Vec<u8>) -> Result<(), AllocError>
    ensures { OnOk result (text.new.items ≡ text.old.items ++ byte_text byte) }
{
    match byte {
        Some(byte) => print_hex(text, &[byte]),
        None => Ok(()),
    }
}
