//! Lines that command the processor's own board through its local port, by the words after the
//! first.
ghost use Rattle.std.specs.Prelude.{◌≡◌};
ghost use Rattle.vme_grammar.specs.declared.form.LineForm.TheVariants as form;
ghost use Rattle.vme_lexer.specs.Words.{words};
ghost use Rattle.vme_grammar.specs.Naming.{line_by};
ghost use Rattle.vme_grammar.specs.Modifies.{local_modify_line};

use crate::counted::{three_and_more, two_words};
use crate::fault::LineFault;
use crate::function::Function;
use crate::line::Line;
use vme_lexer::{Words, hex_number, local_bytes, local_number};
use vme_memory::BoardCmd;

/// `lr OFF N`: a read by the local port.
#[tactic(auto, unfolding(crate::specs::Naming::line_by, crate::specs::Grammar::operands_of, crate::specs::Fields::with_field))]
pub(crate) fn local_read(operands: Words<'_>) -> Result<Line, LineFault>
    ensures { result ≡ line_by form.LocalRead (words operands.entry.rest.now) }
{
    let (offset, n) = two_words(operands).ok_or(LineFault::WordCount)?;
    let offset = hex_number(8, offset).ok_or(LineFault::BadAddress)?;
    let n = local_number(n).ok_or(LineFault::BadNumber)?;
    Ok(Line::Local(BoardCmd::LocalRead { offset, n }))
}

/// `lw OFF HEX`: a write by the local port.
#[tactic(auto, unfolding(crate::specs::Naming::line_by, crate::specs::Grammar::operands_of, crate::specs::Fields::with_field))]
pub(crate) fn local_write(operands: Words<'_>) -> Result<Line, LineFault>
    ensures { result ≡ line_by form.LocalWrite (words operands.entry.rest.now) }
{
    let (offset, bytes) = two_words(operands).ok_or(LineFault::WordCount)?;
    let offset = hex_number(8, offset).ok_or(LineFault::BadAddress)?;
    let bytes = local_bytes(bytes).ok_or(LineFault::BadBytes)?;
    Ok(Line::Local(BoardCmd::LocalWrite { offset, bytes }))
}

/// `lm OFF N FUNC`: a read-modify-write by the local port.
#[tactic(auto, unfolding(crate::specs::Modifies::local_modify_line))]
pub(crate) fn local_modify(operands: Words<'_>) -> Result<Line, LineFault>
    ensures { result ≡ local_modify_line (words operands.entry.rest.now) }
{
    let (offset, n, name, operands) = three_and_more(operands).ok_or(LineFault::WordCount)?;
    let function = Function::of(name)?;
    if !function.has_operands(operands) {
        return Err(LineFault::WordCount);
    }
    let offset = hex_number(8, offset).ok_or(LineFault::BadAddress)?;
    let n = local_number(n).ok_or(LineFault::BadNumber)?;
    let f = function.modify(n, operands)?;
    Ok(Line::Local(BoardCmd::LocalModify { offset, n, f }))
}
