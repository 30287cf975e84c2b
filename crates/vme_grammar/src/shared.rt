//! Lines of locks and mailboxes, by the words after the first.
ghost use Rattle.std.specs.Prelude.{◌≡◌};
ghost use Rattle.std.specs.Option.{ok_or};
ghost use Rattle.vme_grammar.specs.declared.form.LineForm.TheVariants as form;
ghost use Rattle.vme_grammar.specs.Naming.{line_by};
ghost use Rattle.vme_lexer.specs.Numbers.{decimal_number};
ghost use Rattle.vme_lexer.specs.Words.{words};

use crate::counted::{one_word, two_words};
use crate::fault::LineFault;
use crate::line::Line;
use crate::requests::field_place;
use vme_lexer::{Words, decimal_number, hex_number};

/// The number of a mailbox, of one or two decimal digits.
fn mailbox_of(number: &[u8]) -> Result<u8, LineFault>
    ensures { result ≡ ok_or (decimal_number 2 number.now) LineFault.BadNumber }
{
    let mailbox = decimal_number(2, number).ok_or(LineFault::BadNumber)?;
    Ok(mailbox as u8)
}

/// `lock AM ADDR`: take a lock.
#[tactic(auto, unfolding(crate::specs::Naming::line_by, crate::specs::Grammar::operands_of, crate::specs::Fields::with_field, crate::specs::Modifies::field_place))]
pub(crate) fn lock(operands: Words<'_>) -> Result<Line, LineFault>
    ensures { result ≡ line_by form.Lock (words operands.entry.rest.now) }
{
    let (am, addr) = two_words(operands).ok_or(LineFault::WordCount)?;
    let (am, addr) = field_place(am, addr)?;
    Ok(Line::Lock { am, addr })
}

/// `unlock AM ADDR`: free a lock.
#[tactic(auto, unfolding(crate::specs::Naming::line_by, crate::specs::Grammar::operands_of, crate::specs::Fields::with_field, crate::specs::Modifies::field_place))]
pub(crate) fn unlock(operands: Words<'_>) -> Result<Line, LineFault>
    ensures { result ≡ line_by form.Unlock (words operands.entry.rest.now) }
{
    let (am, addr) = two_words(operands).ok_or(LineFault::WordCount)?;
    let (am, addr) = field_place(am, addr)?;
    Ok(Line::Unlock { am, addr })
}

/// `put BOX HEX`: put a word into a mailbox.
#[tactic(auto, unfolding(crate::specs::Naming::line_by, crate::specs::Grammar::operands_of, crate::specs::Fields::with_field))]
pub(crate) fn put(operands: Words<'_>) -> Result<Line, LineFault>
    ensures { result ≡ line_by form.Put (words operands.entry.rest.now) }
{
    let (mailbox, word) = two_words(operands).ok_or(LineFault::WordCount)?;
    let mailbox = mailbox_of(mailbox)?;
    let word = hex_number(8, word).ok_or(LineFault::BadBytes)?;
    Ok(Line::Put { mailbox, word })
}

/// `take BOX`: take a word from a mailbox.
#[tactic(auto, unfolding(crate::specs::Naming::line_by, crate::specs::Grammar::operands_of, crate::specs::Fields::with_field))]
pub(crate) fn take(operands: Words<'_>) -> Result<Line, LineFault>
    ensures { result ≡ line_by form.Take (words operands.entry.rest.now) }
{
    let mailbox = one_word(operands).ok_or(LineFault::WordCount)?;
    let mailbox = mailbox_of(mailbox)?;
    Ok(Line::Take { mailbox })
}
