//! Lines that request the bus, by the words after the first.
ghost use Rattle.std.specs.Prelude.{◌≡◌};
ghost use Rattle.vme_grammar.specs.declared.form.LineForm.TheVariants as form;
ghost use Rattle.vme_lexer.specs.Words.{words};
ghost use Rattle.vme_grammar.specs.Naming.{line_by};
ghost use Rattle.vme_grammar.specs.Modifies.{field_place, modify_line};

use crate::counted::{five_words, four_and_more, four_words, three_words};
use crate::fault::LineFault;
use crate::function::Function;
use crate::line::Line;
use vme_cycle::{Block, Request};
use vme_lexer::{Words, decimal_number, exact_bytes, hex_bytes, hex_number, small_number};

/// The code and the address that two words spell.
#[tactic(auto, unfolding(crate::specs::Modifies::field_place))]
pub(crate) fn field_place(am: &[u8], addr: &[u8]) -> Result<(u8, u32), LineFault>
    ensures { result ≡ field_place am.now addr.now }
{
    let am = hex_number(2, am).ok_or(LineFault::BadCode)? as u8;
    let addr = hex_number(8, addr).ok_or(LineFault::BadAddress)?;
    Ok((am, addr))
}

/// `r AM ADDR N`: a read.
#[tactic(auto, unfolding(crate::specs::Naming::line_by, crate::specs::Grammar::operands_of, crate::specs::Fields::with_field, crate::specs::Modifies::field_place))]
pub(crate) fn read(operands: Words<'_>) -> Result<Line, LineFault>
    ensures { result ≡ line_by form.Read (words operands.entry.rest.now) }
{
    let (am, addr, n) = three_words(operands).ok_or(LineFault::WordCount)?;
    let (am, addr) = field_place(am, addr)?;
    let n = small_number(n).ok_or(LineFault::BadNumber)?;
    Ok(Line::Bus(Request::Read { am, addr, n }))
}

/// `w AM ADDR HEX`: a write.
#[tactic(auto, unfolding(crate::specs::Naming::line_by, crate::specs::Grammar::operands_of, crate::specs::Fields::with_field, crate::specs::Modifies::field_place))]
pub(crate) fn write(operands: Words<'_>) -> Result<Line, LineFault>
    ensures { result ≡ line_by form.Write (words operands.entry.rest.now) }
{
    let (am, addr, bytes) = three_words(operands).ok_or(LineFault::WordCount)?;
    let (am, addr) = field_place(am, addr)?;
    let bytes = hex_bytes(bytes).ok_or(LineFault::BadBytes)?;
    Ok(Line::Bus(Request::Write { am, addr, bytes }))
}

/// `br AM ADDR N COUNT`: a block read.
#[tactic(auto, unfolding(crate::specs::Naming::line_by, crate::specs::Grammar::operands_of, crate::specs::Fields::with_field, crate::specs::Modifies::field_place))]
pub(crate) fn block_read(operands: Words<'_>) -> Result<Line, LineFault>
    ensures { result ≡ line_by form.BlockRead (words operands.entry.rest.now) }
{
    let (am, addr, n, count) = four_words(operands).ok_or(LineFault::WordCount)?;
    let (am, addr) = field_place(am, addr)?;
    let n = small_number(n).ok_or(LineFault::BadNumber)?;
    let count = decimal_number(4, count).ok_or(LineFault::BadNumber)?;
    Ok(Line::Bus(Request::BlockRead { am, addr, n, count }))
}

/// `bw AM ADDR N HEX`: a block write.
#[tactic(auto, unfolding(crate::specs::Naming::line_by, crate::specs::Grammar::operands_of, crate::specs::Fields::with_field, crate::specs::Modifies::field_place))]
pub(crate) fn block_write(operands: Words<'_>) -> Result<Line, LineFault>
    ensures { result ≡ line_by form.BlockWrite (words operands.entry.rest.now) }
{
    let (am, addr, n, bytes) = four_words(operands).ok_or(LineFault::WordCount)?;
    let (am, addr) = field_place(am, addr)?;
    let n = small_number(n).ok_or(LineFault::BadNumber)?;
    let bytes = Block::from_short_slice(hex_bytes(bytes).ok_or(LineFault::BadBytes)?);
    Ok(Line::Bus(Request::BlockWrite { am, addr, n, bytes }))
}

/// `bf AM ADDR N COUNT HEX`: a block write of one datum, `COUNT` times.
#[tactic(auto, unfolding(crate::specs::Naming::line_by, crate::specs::Grammar::operands_of, crate::specs::Fields::with_field, crate::specs::Modifies::field_place))]
pub(crate) fn block_fill(operands: Words<'_>) -> Result<Line, LineFault>
    ensures { result ≡ line_by form.BlockFill (words operands.entry.rest.now) }
{
    let (am, addr, n, count, bytes) = five_words(operands).ok_or(LineFault::WordCount)?;
    let (am, addr) = field_place(am, addr)?;
    let n = small_number(n).ok_or(LineFault::BadNumber)?;
    let count = decimal_number(4, count).ok_or(LineFault::BadNumber)?;
    let bytes = exact_bytes(n, bytes).ok_or(LineFault::BadBytes)?;
    Ok(Line::Bus(Request::BlockFill {
        am,
        addr,
        n,
        count,
        bytes,
    }))
}

/// `m AM ADDR N FUNC`: a read-modify-write.
#[tactic(auto, unfolding(crate::specs::Modifies::modify_line))]
pub(crate) fn modify(operands: Words<'_>) -> Result<Line, LineFault>
    ensures { result ≡ modify_line (words operands.entry.rest.now) }
{
    let (am, addr, n, name, operands) = four_and_more(operands).ok_or(LineFault::WordCount)?;
    let function = Function::of(name)?;
    if !function.has_operands(operands) {
        return Err(LineFault::WordCount);
    }
    let (am, addr) = field_place(am, addr)?;
    let n = small_number(n).ok_or(LineFault::BadNumber)?;
    let f = function.modify(n, operands)?;
    Ok(Line::Bus(Request::Modify { am, addr, n, f }))
}

/// `await AM ADDR HEX`: reads until the bytes are found.
#[tactic(auto, unfolding(crate::specs::Naming::line_by, crate::specs::Grammar::operands_of, crate::specs::Fields::with_field, crate::specs::Modifies::field_place))]
pub(crate) fn await_bytes(operands: Words<'_>) -> Result<Line, LineFault>
    ensures { result ≡ line_by form.Await (words operands.entry.rest.now) }
{
    let (am, addr, bytes) = three_words(operands).ok_or(LineFault::WordCount)?;
    let (am, addr) = field_place(am, addr)?;
    let bytes = hex_bytes(bytes).ok_or(LineFault::BadBytes)?;
    Ok(Line::Await { am, addr, bytes })
}
