//! Lines in canonical form that request the bus, by the text after the first word.
ghost use Rattle.std.specs.Prelude.{codes};
ghost use Rattle.vme_grammar.specs.Canonical.{Asks};

use crate::canonical::data::{count_and_datum, function};
use crate::canonical::fields::{length, place};
use crate::line::Line;
use vme_cycle::{Block, Request};
use vme_lexer::{decimal_number, hex_bytes, small_number};

/// `r AM ADDR N`: a read.
#[tactic(auto, using(crate::proofs::Forms::read_asked))]
pub(crate) fn read(text: &[u8]) -> Option<Line>
    ensures { Asks (codes "r") text.now result }
{
    let (am, addr, n) = place(text)?;
    let n = small_number(n)?;
    Some(Line::Bus(Request::Read { am, addr, n }))
}

/// `w AM ADDR HEX`: a write.
#[tactic(auto, using(crate::proofs::Forms::write_asked))]
pub(crate) fn write(text: &[u8]) -> Option<Line>
    ensures { Asks (codes "w") text.now result }
{
    let (am, addr, bytes) = place(text)?;
    let bytes = hex_bytes(bytes)?;
    Some(Line::Bus(Request::Write { am, addr, bytes }))
}

/// `br AM ADDR N COUNT`: a block read.
#[tactic(auto, using(crate::proofs::Forms::block_read_asked))]
pub(crate) fn block_read(text: &[u8]) -> Option<Line>
    ensures { Asks (codes "br") text.now result }
{
    let (am, addr, text) = place(text)?;
    let (n, count) = length(text)?;
    let count = decimal_number(4, count)?;
    Some(Line::Bus(Request::BlockRead { am, addr, n, count }))
}

/// `bw AM ADDR N HEX`: a block write.
#[tactic(auto, using(crate::proofs::Forms::block_write_asked))]
pub(crate) fn block_write(text: &[u8]) -> Option<Line>
    ensures { Asks (codes "bw") text.now result }
{
    let (am, addr, text) = place(text)?;
    let (n, bytes) = length(text)?;
    let bytes = Block::from_short_slice(hex_bytes(bytes)?);
    Some(Line::Bus(Request::BlockWrite { am, addr, n, bytes }))
}

/// `bf AM ADDR N COUNT HEX`: a block write of one datum, `COUNT` times.
#[tactic(auto, using(crate::proofs::Forms::block_fill_asked))]
pub(crate) fn block_fill(text: &[u8]) -> Option<Line>
    ensures { Asks (codes "bf") text.now result }
{
    let (am, addr, text) = place(text)?;
    let (n, text) = length(text)?;
    let (count, bytes) = count_and_datum(n, text)?;
    Some(Line::Bus(Request::BlockFill {
        am,
        addr,
        n,
        count,
        bytes,
    }))
}

/// `m AM ADDR N FUNC`: a read-modify-write.
#[tactic(auto, using(crate::proofs::Forms::modify_asked))]
pub(crate) fn modify(text: &[u8]) -> Option<Line>
    ensures { Asks (codes "m") text.now result }
{
    let (am, addr, text) = place(text)?;
    let (n, text) = length(text)?;
    let f = function(n, text)?;
    Some(Line::Bus(Request::Modify { am, addr, n, f }))
}

/// `await AM ADDR HEX`: reads until the bytes are found.
#[tactic(auto, using(crate::proofs::Forms::await_asked))]
pub(crate) fn await_bytes(text: &[u8]) -> Option<Line>
    ensures { Asks (codes "await") text.now result }
{
    let (am, addr, bytes) = place(text)?;
    let bytes = hex_bytes(bytes)?;
    Some(Line::Await { am, addr, bytes })
}
