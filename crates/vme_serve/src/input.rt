//! The lines of an input, read one after another.
ghost use Rattle.std.specs.Prelude.{◌≡◌, ◌++◌, ◌∷◌, [], false, take, IfOk};
ghost use Rattle.std.specs.Str.Lines.{strip_carriage_return};
ghost use Rattle.vme_serve.specs.Sessions.{TakesLine, is_read_end, is_write_end};

use crate::fault::SessionFault;
use crate::request::INPUT_LINE_LIMIT;
use arrayvec::ArrayVec;
use vme_io::Source;

/// How many bytes of a line are kept: enough to know that the line is too long, with the CR at its
/// end.
pub(crate) const KEPT_SIZE: usize = INPUT_LINE_LIMIT + 2;

const LINE_END: u8 = b'\n';

/// What is kept of a line.
pub(crate) type KeptLine = ArrayVec<u8, KEPT_SIZE>;

/// Reads the next line into `line`, up to its end and no further, and returns whether there is one.
///
/// Of a line that is too long only the first bytes are kept.
///
/// # Errors
///
/// `Read`: the reader failed. `TooLong`: the line has 2^64 - 1 bytes or more.
pub(crate) fn read_line<R: Source>(
    reader: &mut R,
    line: &mut KeptLine,
) -> Result<bool, SessionFault>
    requires { R.is_marked reader.old ≡ false }
    ensures line { IfOk result (λ there. TakesLine
        (R.remaining reader.old) (R.remaining reader.new) line.new.items there) }
    ensures read { R.is_marked reader.new ≡ is_read_end result }
    ensures faults { is_write_end result ≡ false }
{
    line.clear();
    let mut byte = [0];
    for _byte in 0..u64::MAX {
        let Ok(count) = reader.read(&mut byte) else {
            return Err(SessionFault::Read);
        };
        if count == 0 {
            return Ok(!line.is_empty());
        }
        if byte[0] == LINE_END {
            drop_return(line);
            return Ok(true);
        }
        keep(line, byte[0]);
    }
    Err(SessionFault::TooLong)
}

/// Appends a byte if the line is not full.
fn keep(line: &mut KeptLine, byte: u8)
    ensures { line.new.items ≡ take 85 (line.old.items ++ byte ∷ []) }
{
    if !line.is_full() {
        line.push(byte);
    }
}

/// Removes the CR at the end of a line, if it ends with CR.
fn drop_return(line: &mut KeptLine)
    ensures { line.new.items ≡ strip_carriage_return line.old.items }
{
    if line.as_slice().last() == Some(&b'\r') {
        line.pop();
    }
}
