//! Text that is gathered in a buffer and written in large pieces.
ghost use Rattle.std.specs.Prelude.{◌≡◌, [], true, OnOk, OnErr};
ghost use Rattle.vme_io.specs.Prefixes.{AppendsPrefix, Gathers};

use crate::sink::{Sink, write_all};
use crate::source::Failed;

/// How many bytes of text are gathered before they are written.
pub const WRITE_SIZE: usize = 65_536;

/// Writes the gathered text and clears the buffer, if the text has `WRITE_SIZE` bytes or more.
///
/// # Errors
///
/// The device failed. A prefix of the text is written, and the mark is set.
pub fn flush_if_full<W: Sink>(text: &mut Vec<u8>, writer: &mut W) -> Result<(), Failed>
    ensures gathers { OnOk result (Gathers (W.contents writer.old) (W.contents writer.new)
        text.old.items text.new.items []) }
    ensures prefix { OnErr result
        (AppendsPrefix (W.contents writer.old) (W.contents writer.new) text.old.items) }
    ensures unmarked { OnOk result (W.is_marked writer.new ≡ W.is_marked writer.old) }
    ensures marked { OnErr result (W.is_marked writer.new ≡ true) }
{
    if WRITE_SIZE <= text.len() {
        write_all(writer, text.as_slice())?;
        text.clear();
    }
    Ok(())
}
