//! Lines in canonical form that command the processor's own board through its local port, by the
//! text after the first word.
ghost use Rattle.std.specs.Prelude.{codes};
ghost use Rattle.vme_grammar.specs.Canonical.{Asks};

use crate::canonical::data::function;
use crate::canonical::fields::{local_length, number};
use crate::line::Line;
use vme_lexer::{local_bytes, local_number};
use vme_memory::BoardCmd;

/// `lr OFF N`: a read by the local port.
#[tactic(auto, using(crate::proofs::Forms::local_read_asked))]
pub(crate) fn local_read(text: &[u8]) -> Option<Line>
    ensures { Asks (codes "lr") text.now result }
{
    let (offset, n) = number::<8>(text)?;
    let n = local_number(n)?;
    Some(Line::Local(BoardCmd::LocalRead { offset, n }))
}

/// `lw OFF HEX`: a write by the local port.
#[tactic(auto, using(crate::proofs::Forms::local_write_asked))]
pub(crate) fn local_write(text: &[u8]) -> Option<Line>
    ensures { Asks (codes "lw") text.now result }
{
    let (offset, bytes) = number::<8>(text)?;
    let bytes = local_bytes(bytes)?;
    Some(Line::Local(BoardCmd::LocalWrite { offset, bytes }))
}

/// `lm OFF N FUNC`: a read-modify-write by the local port.
#[tactic(auto, using(crate::proofs::Forms::local_modify_asked))]
pub(crate) fn local_modify(text: &[u8]) -> Option<Line>
    ensures { Asks (codes "lm") text.now result }
{
    let (offset, text) = number::<8>(text)?;
    let (n, text) = local_length(text)?;
    let f = function(n, text)?;
    Some(Line::Local(BoardCmd::LocalModify { offset, n, f }))
}
