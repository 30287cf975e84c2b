//! A whole session: from the bytes of its input to the bytes of its output.
ghost use Rattle.std.specs.Prelude.{◌≡◌, false, IfSome, OnOk, OnErr};
ghost use Rattle.std.specs.Io.KnownBytes.{Appends, IsAtEnd};
ghost use Rattle.vme_io.specs.Prefixes.{AppendsPrefix};
ghost use Rattle.vme_serve.specs.Sessions.{session_text, is_read_end, is_write_end};

use crate::fault::SessionFault;
use crate::input::{KeptLine, read_line};
use crate::service::Service;
use std::alloc::Global;
use vme_io::{Sink, Source, write_all};
use vme_script::Config;

/// How many bytes an answer can have before its buffer grows.
const ANSWER_SIZE: usize = 4_200;

/// Answers each line of the input by the boards of a configuration, in order, and writes the answer
/// before it reads the next line.
///
/// A line is `SLOT LINE`: the slot of a board in one or two digits, a space, and a line of a
/// script, at which one attempt is made. Its answer is one line. The session ends at the end of the
/// input.
///
/// If the reader has no byte model, only the fault clauses hold; if the writer has none, what is
/// written is not stated. The reader is asked for one byte at a time.
///
/// # Errors
///
/// `Read` or `Write`: the reader or the writer failed. `TooLong`: a line has 2^64 - 1 bytes or
/// more, or the input as many lines. `Memory`: an allocation failed. After a fault, a prefix of the
/// answers was written.
pub fn serve<R: Source, W: Sink>(
    alloc: Global,
    config: &Config,
    reader: &mut R,
    writer: &mut W,
) -> Result<(), SessionFault>
    requires reader_unmarked { R.is_marked reader.old ≡ false }
    requires writer_unmarked { W.is_marked writer.old ≡ false }

    // What is written is the text of the session, or a prefix of it before a fault.
    ensures text { IfSome (R.remaining reader.old) (λ input. OnOk result (Appends
        (W.contents writer.old) (W.contents writer.new) (session_text config.now input))) }
    ensures prefix { IfSome (R.remaining reader.old) (λ input. OnErr result (AppendsPrefix
        (W.contents writer.old) (W.contents writer.new) (session_text config.now input))) }
    ensures whole { IfSome (R.remaining reader.old) (λ input.
        OnOk result (IsAtEnd (R.remaining reader.new))) }

    // When each fault is returned. No clause states when `Memory` and `TooLong` are.
    ensures read { R.is_marked reader.new ≡ is_read_end result }
    ensures write { W.is_marked writer.new ≡ is_write_end result }
{
    let Ok(mut service) = Service::new(alloc, config) else {
        return Err(SessionFault::Memory);
    };
    let mut line = KeptLine::new();
    let mut text = Vec::with_capacity(alloc, ANSWER_SIZE)?;
    for _line in 0..u64::MAX {
        if !read_line(reader, &mut line)? {
            return Ok(());
        }
        text.clear();
        let asked = line.as_slice();
        service.answer(asked, &mut text)?;
        let answer = text.as_slice();
        write_all(writer, answer)?;
    }
    Err(SessionFault::TooLong)
}
