//! The line of a reply, appended to a buffer.
ghost use Rattle.std.specs.Prelude.{◌≡◌, ◌++◌, length, take, OnOk, OnErr};
ghost use Rattle.vme_grammar.specs.Texts.{output_line};
ghost use Rattle.vme_script.specs.ReplyTexts.{place_text, transfer_text, shared_text, reply_text, line_text};
ghost use Rattle.vme_shared.specs.declared.outcome.SharedOutcome.TheVariants.{Took};

use std::alloc::AllocError;
use vme_grammar::{
    print_berr, print_done, print_hex, print_number, print_old, print_read, print_refusal,
};
use vme_master::Outcome;
use vme_shared::{LineReply, SharedOutcome};

/// Appends the line of the reply to line `line` of the script in slot `slot`.
///
/// # Errors
///
/// `AllocError`: an allocation failed; the text is unchanged.
#[tactic(auto, unfolding(crate::specs::ReplyTexts::line_text))]
pub fn reply_line(
    slot: u16,
    line: u16,
    reply: &LineReply,
    text: &mut Vec<u8>,
) -> Result<(), AllocError>
    ensures text { OnOk result (text.new.items ≡ text.old.items ++ line_text slot line reply.now) }
    ensures kept { OnErr result (text.new.items ≡ text.old.items) }
{
    let start = text.len();
    let end = print_line(slot, line, reply, text);
    if end.is_err() {
        text.truncate(start);
    }
    end
}

/// Appends the line of a reply, or a prefix of it if an allocation fails.
#[tactic(auto, unfolding(crate::specs::ReplyTexts::line_text))]
fn print_line(slot: u16, line: u16, reply: &LineReply, text: &mut Vec<u8>) -> Result<(), AllocError>
    ensures text { OnOk result (text.new.items ≡ text.old.items ++ line_text slot line reply.now) }
    ensures before { OnErr result (take (length text.old.items) text.new.items ≡ text.old.items) }
{
    print_place(slot, line, text)?;
    print_reply(reply, text)
}

/// Appends the slot of a script and a line's number, or a prefix of them if an allocation fails.
fn print_place(slot: u16, line: u16, text: &mut Vec<u8>) -> Result<(), AllocError>
    ensures text { OnOk result (text.new.items ≡ text.old.items ++ place_text slot line) }
    ensures before { OnErr result (take (length text.old.items) text.new.items ≡ text.old.items) }
{
    print_number(text, u64::from(slot))?;
    text.extend_from_slice(b":")?;
    print_number(text, u64::from(line))?;
    text.extend_from_slice(b" ")
}

/// Appends a reply and LF, or a prefix of them if an allocation fails.
fn print_reply(reply: &LineReply, text: &mut Vec<u8>) -> Result<(), AllocError>
    ensures text { OnOk result (text.new.items ≡ text.old.items ++ output_line (reply_text reply.now)) }
    ensures before { OnErr result (take (length text.old.items) text.new.items ≡ text.old.items) }
{
    match reply {
        LineReply::Transfer(outcome) => print_outcome(outcome, text),
        LineReply::Refused(fault) => print_refusal(text, *fault),
        LineReply::Met => text.extend_from_slice(b"met\n"),
        LineReply::Timeout => text.extend_from_slice(b"timeout\n"),
        LineReply::Shared(outcome) => print_shared(*outcome, text),
        LineReply::Unfinished => text.extend_from_slice(b"unfinished\n"),
    }
}

/// Appends the line of an outcome; if an allocation fails, the text is unchanged.
fn print_outcome(outcome: &Outcome, text: &mut Vec<u8>) -> Result<(), AllocError>
    ensures text { OnOk result
        (text.new.items ≡ text.old.items ++ output_line (transfer_text outcome.now)) }
    ensures kept { OnErr result (text.new.items ≡ text.old.items) }
{
    match outcome {
        Outcome::Read(bytes) => print_read(text, bytes.as_slice()),
        Outcome::Done => print_done(text),
        Outcome::Old(bytes) => print_old(text, bytes.as_slice()),
        Outcome::Berr { count, bytes } => print_berr(text, *count, bytes.as_slice()),
        Outcome::Denied => text.extend_from_slice(b"denied\n"),
    }
}

/// Appends the line of an outcome of a lock or a mailbox, or a prefix of it if an allocation fails.
fn print_shared(outcome: SharedOutcome, text: &mut Vec<u8>) -> Result<(), AllocError>
    ensures text { OnOk result (text.new.items ≡ text.old.items ++ output_line (shared_text outcome)) }
    ensures before { OnErr result (take (length text.old.items) text.new.items ≡ text.old.items) }
{
    match outcome {
        SharedOutcome::Taken => text.extend_from_slice(b"taken\n"),
        SharedOutcome::Unlocked => text.extend_from_slice(b"done\n"),
        SharedOutcome::Busy => text.extend_from_slice(b"busy\n"),
        SharedOutcome::Put => text.extend_from_slice(b"put\n"),
        SharedOutcome::Took(word) => print_took(word, text),
        SharedOutcome::Full => text.extend_from_slice(b"full\n"),
        SharedOutcome::Empty => text.extend_from_slice(b"empty\n"),
        SharedOutcome::Spent => text.extend_from_slice(b"spent\n"),
        SharedOutcome::Berr => text.extend_from_slice(b"berr 0\n"),
        SharedOutcome::Denied => text.extend_from_slice(b"denied\n"),
    }
}

/// Appends the line of a word that was taken, or a prefix of it if an allocation fails.
fn print_took(word: u32, text: &mut Vec<u8>) -> Result<(), AllocError>
    ensures text { OnOk result
        (text.new.items ≡ text.old.items ++ output_line (shared_text (Took word))) }
    ensures before { OnErr result (take (length text.old.items) text.new.items ≡ text.old.items) }
{
    text.extend_from_slice(b"took ")?;
    print_hex(text, &word.to_be_bytes())?;
    text.extend_from_slice(b"\n")
}
