//! The forms of lines: one for each command word, and for a read-modify-write one for each
//! function.
ghost use Rattle.std.specs.Prelude.{◌≡◌, ◌∷◌};
ghost use Rattle.vme_lexer.specs.Words.{words};
ghost use Rattle.vme_grammar.specs.Grammar.{line_of_words};
ghost use Rattle.vme_grammar.specs.Naming.{form_named, line_named};

use crate::commands::{local_modify, local_read, local_write};
use crate::fault::LineFault;
use crate::function::Function;
use crate::line::Line;
use crate::requests::{await_bytes, block_fill, block_read, block_write, modify, read, write};
use crate::shared::{lock, put, take, unlock};
use vme_lexer::Words;

/// The form of a line: its first word says which and, for a read-modify-write, the name of the
/// function.
#[derive(Clone, Copy)]
pub(crate) enum LineForm {
    Read,
    Write,
    BlockRead,
    BlockWrite,
    BlockFill,
    Modify(Function),
    LocalRead,
    LocalWrite,
    LocalModify(Function),
    Await,
    Lock,
    Unlock,
    Put,
    Take,
}

impl LineForm {
    /// The first form that begins with `word`. For a read-modify-write, the form has the function
    /// `Set`, whatever function the line names.
    #[tactic(auto, unfolding(crate::specs::Naming::form_named), using(crate::proofs::Naming::unlock_named))]
    fn named(word: &[u8]) -> Option<LineForm>
        ensures { result ≡ form_named word.now }
    {
        match word {
            b"r" => Some(LineForm::Read),
            b"w" => Some(LineForm::Write),
            b"br" => Some(LineForm::BlockRead),
            b"bw" => Some(LineForm::BlockWrite),
            b"bf" => Some(LineForm::BlockFill),
            b"m" => Some(LineForm::Modify(Function::Set)),
            b"lr" => Some(LineForm::LocalRead),
            b"lw" => Some(LineForm::LocalWrite),
            b"lm" => Some(LineForm::LocalModify(Function::Set)),
            b"await" => Some(LineForm::Await),
            b"lock" => Some(LineForm::Lock),
            b"unlock" => Some(LineForm::Unlock),
            b"put" => Some(LineForm::Put),
            b"take" => Some(LineForm::Take),
            _ => None,
        }
    }

    /// The line of this form, by the words after the first. For a read-modify-write, these words
    /// name the function; the function of `self` is ignored.
    #[tactic(auto, unfolding(crate::specs::Naming::line_named))]
    fn line(self, operands: Words<'_>) -> Result<Line, LineFault>
        ensures { result ≡ line_named self (words operands.entry.rest.now) }
    {
        match self {
            LineForm::Read => read(operands),
            LineForm::Write => write(operands),
            LineForm::BlockRead => block_read(operands),
            LineForm::BlockWrite => block_write(operands),
            LineForm::BlockFill => block_fill(operands),
            LineForm::Modify(_) => modify(operands),
            LineForm::LocalRead => local_read(operands),
            LineForm::LocalWrite => local_write(operands),
            LineForm::LocalModify(_) => local_modify(operands),
            LineForm::Await => await_bytes(operands),
            LineForm::Lock => lock(operands),
            LineForm::Unlock => unlock(operands),
            LineForm::Put => put(operands),
            LineForm::Take => take(operands),
        }
    }
}

/// The line that the first word and the words after it spell.
#[tactic(auto, using(crate::proofs::Naming::line_is_named, crate::proofs::Naming::line_is_unnamed))]
pub(crate) fn line_of_words(word: &[u8], operands: Words<'_>) -> Result<Line, LineFault>
    ensures { result ≡ line_of_words (word.now ∷ words operands.entry.rest.now) }
{
    match LineForm::named(word) {
        Some(form) => form.line(operands),
        None => Err(LineFault::UnknownWord),
    }
}
