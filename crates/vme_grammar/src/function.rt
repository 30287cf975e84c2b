//! The functions of a read-modify-write and their names.
ghost use Rattle.std.specs.Prelude.{◌≡◌, ◌==◌, Some, length};
ghost use Rattle.std.specs.Option.{option_map};
ghost use Rattle.vme_lexer.specs.Words.{words};
ghost use Rattle.vme_grammar.specs.Naming.{function_of};
ghost use Rattle.vme_grammar.specs.Modifies.{operand_count, operand, modify_of};

use crate::fault::LineFault;
use vme_cycle::Modify;
use vme_lanes::Datum;
use vme_lexer::{Words, exact_bytes};

/// A function of a read-modify-write, without its data.
#[derive(Clone, Copy)]
pub(crate) enum Function {
    Set,
    Exchange,
    Add,
    Compare,
}

impl Function {
    /// The function that `word` names: `set`, `xchg`, `add` or `cas`.
    #[tactic(auto, unfolding(crate::specs::Naming::function_of))]
    pub(crate) fn of(word: &[u8]) -> Result<Function, LineFault>
        ensures { result ≡ function_of (Some word.now) }
    {
        match word {
            b"set" => Ok(Function::Set),
            b"xchg" => Ok(Function::Exchange),
            b"add" => Ok(Function::Add),
            b"cas" => Ok(Function::Compare),
            _ => Err(LineFault::UnknownWord),
        }
    }

    /// Whether the number of words is the number of data that the function takes.
    pub(crate) fn has_operands(self, mut operands: Words<'_>) -> bool
        ensures { result ≡ (length (words operands.entry.rest.now) == operand_count self) }
    {
        matches!(
            (self, operands.next(), operands.next(), operands.next()),
            (Function::Set, None, _, _)
                | (Function::Exchange | Function::Add, Some(_), None, _)
                | (Function::Compare, Some(_), Some(_), None)
        )
    }

    /// The function with its data, of `n` bytes each.
    #[tactic(auto, unfolding(crate::specs::Modifies::modify_of))]
    pub(crate) fn modify(self, n: u8, mut operands: Words<'_>) -> Result<Modify, LineFault>
        ensures { result ≡ modify_of self n (words operands.entry.rest.now) }
    {
        match self {
            Function::Set => Ok(Modify::Set),
            Function::Exchange => Ok(Modify::Exchange(operand(n, operands.next())?)),
            Function::Add => Ok(Modify::Add(operand(n, operands.next())?)),
            Function::Compare => {
                let expect = operand(n, operands.next())?;
                let put = operand(n, operands.next())?;
                Ok(Modify::Compare { expect, put })
            }
        }
    }
}

/// The datum of `n` bytes that `word` spells.
fn operand(n: u8, word: Option<&[u8]>) -> Result<Datum, LineFault>
    ensures { result ≡ operand n (option_map (λ word. word.now) word.entry) }
{
    word.and_then(|hex| exact_bytes(n, hex))
        .ok_or(LineFault::BadBytes)
}
