//! What a processor waits for, appended to a buffer.
ghost use Rattle.std.specs.Prelude.{◌≡◌, ◌++◌, ◌<◌, OnOk, Some, codes, length, slice_get};
ghost use Rattle.std.specs.Fmt.{decimal};
ghost use Rattle.vme_grammar.specs.Texts.{hex_text};
ghost use Rattle.vme_states.specs.BareStates.{BareScript, bare_outcome};
ghost use Rattle.vme_outcome_listing.specs.Texts.{slots_of};
ghost use Rattle.vme_stuck.specs.Waits.{number_of, place_text, wait_text, numbered_wait, next_wait, waits_text};

use std::alloc::AllocError;
use vme_grammar::{Line, print_hex, print_number};
use vme_script::{Config, Script};
use vme_states::State;

/// Appends what each processor waits for that has a line left.
pub(crate) fn append_waits(
    config: &Config,
    state: &State,
    text: &mut Vec<u8>,
) -> Result<(), AllocError>
    ensures { OnOk result (text.new.items ≡ text.old.items
        ++ waits_text (slots_of config.now) config.now.scripts (bare_outcome state.now).answers) }
{
    for board in 0..config.boards() {
        if state.processors() <= board {
            return Ok(());
        }
        append_wait(state, board, config.slot(board), config.script(board), text)?;
    }
    Ok(())
}

/// Appends what the processor of a board waits for, if it has a line left.
fn append_wait(
    state: &State,
    board: usize,
    slot: u16,
    script: &Script,
    text: &mut Vec<u8>,
) -> Result<(), AllocError>
    requires { board < length state.now.script_states }
    ensures { OnOk result ((c : BareScript) → slice_get state.now.script_states board ≡ Some c →
        text.new.items ≡ text.old.items ++ next_wait slot (slice_get script.now (length c.ended))) }
{
    let Some(line) = state.lines_ended(board) else {
        return Ok(());
    };
    if line < script.len() {
        append_numbered(slot, script.number(line), script.line(line), text)?;
    }
    Ok(())
}

/// Appends what a line of a slot's script with this number waits for.
#[tactic(auto, unfolding(crate::specs::Waits::numbered_wait))]
fn append_numbered(
    slot: u16,
    number: u16,
    line: &Line,
    text: &mut Vec<u8>,
) -> Result<(), AllocError>
    ensures { OnOk result (text.new.items ≡ text.old.items ++ numbered_wait slot number line.now) }
{
    append_number(slot, number, text)?;
    text.extend_from_slice(b" waits for ")?;
    append_awaited(line, text)?;
    text.extend_from_slice(b"\n")
}

/// Appends the slot and the number of a line.
fn append_number(slot: u16, number: u16, text: &mut Vec<u8>) -> Result<(), AllocError>
    ensures { OnOk result (text.new.items ≡ text.old.items ++ number_of slot number) }
{
    print_number(text, u64::from(slot))?;
    text.extend_from_slice(b":")?;
    print_number(text, u64::from(number))
}

/// Appends what a line waits for.
#[tactic(auto, unfolding(crate::specs::Waits::wait_text))]
fn append_awaited(line: &Line, text: &mut Vec<u8>) -> Result<(), AllocError>
    ensures { OnOk result (text.new.items ≡ text.old.items ++ wait_text line.now) }
{
    match line {
        Line::Await { am, addr, bytes } => append_bytes_at(bytes.as_slice(), *am, *addr, text),
        Line::Lock { am, addr } => append_thing_at(b"the lock at ", *am, *addr, text),
        Line::Put { mailbox, .. } => append_thing_in(b"space in mailbox ", *mailbox, text),
        Line::Take { mailbox } => append_thing_in(b"a word in mailbox ", *mailbox, text),
        Line::Bus(_) | Line::Local(_) | Line::Unlock { .. } => text.extend_from_slice(b"the bus"),
    }
}

/// Appends bytes and where they are awaited.
fn append_bytes_at(bytes: &[u8], am: u8, addr: u32, text: &mut Vec<u8>) -> Result<(), AllocError>
    ensures { OnOk result (text.new.items ≡ text.old.items
        ++ (hex_text bytes.now ++ (codes " at " ++ place_text am addr))) }
{
    print_hex(text, bytes)?;
    append_thing_at(b" at ", am, addr, text)
}

/// Appends words, and a code and an address.
fn append_thing_at(words: &[u8], am: u8, addr: u32, text: &mut Vec<u8>) -> Result<(), AllocError>
    ensures { OnOk result (text.new.items ≡ text.old.items ++ (words.now ++ place_text am addr)) }
{
    text.extend_from_slice(words)?;
    append_place(am, addr, text)
}

/// Appends words, and the number of a mailbox.
fn append_thing_in(words: &[u8], mailbox: u8, text: &mut Vec<u8>) -> Result<(), AllocError>
    ensures { OnOk result (text.new.items ≡ text.old.items ++ (words.now ++ decimal mailbox)) }
{
    text.extend_from_slice(words)?;
    print_number(text, u64::from(mailbox))
}

/// Appends a code and an address.
fn append_place(am: u8, addr: u32, text: &mut Vec<u8>) -> Result<(), AllocError>
    ensures { OnOk result (text.new.items ≡ text.old.items ++ place_text am addr) }
{
    print_hex(text, &[am])?;
    text.extend_from_slice(b" ")?;
    print_hex(text, &addr.to_be_bytes())
}
