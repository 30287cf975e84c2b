//! Whether a reply has a text.
ghost use Rattle.std.specs.Prelude.{◌≡◌, ℕ, List, IfOk};
ghost use Rattle.std.specs.Str.{bytes_eq};
ghost use Rattle.vme_grammar.specs.Texts.{output_line};
ghost use Rattle.vme_script.specs.ReplyTexts.{reply_text};

use std::alloc::{AllocError, Global};
use vme_script::reply_line;
use vme_shared::LineReply;

/// The number of bytes before the reply in the report's line `1` of slot `1`.
const PLACE_LEN: usize = 4;

/// Returns whether the text of a reply is this one.
pub(crate) fn has_text(alloc: Global, reply: &LineReply, text: &[u8]) -> Result<bool, AllocError>
    ensures { IfOk result (λ has. has ≡ bytes_eq (reply_text reply.now) text.now) }
{
    let mut line = Vec::new(alloc);
    reply_line(1, 1, reply, &mut line)?;
    let (_place, printed) = line.as_slice().split_at(PLACE_LEN);
    Ok(is_line_of(printed, text))
}

/// Returns whether a line, with its end, has this text.
fn is_line_of(line: &[u8], text: &[u8]) -> bool
    ensures { (printed : List ℕ) → line.now ≡ output_line printed →
        result ≡ bytes_eq printed text.now }
{
    match line.split_last() {
        Some((_end, printed)) => printed == text,
        None => false,
    }
}
