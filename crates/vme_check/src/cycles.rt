//! The engine of `bendrika cycles`: from the bytes of request lines to their findings.
ghost use Rattle.std.specs.Prelude.{◌≡◌, ◌<◌, ◌^◌, false, length, IsTrue, IfOk, IfErr, IfSome};
ghost use Rattle.std.specs.Str.Lines.{lines};
ghost use Rattle.vme_report.specs.Ends.{IsReportFault, is_write_end};
ghost use Rattle.vme_engines.specs.Faults.{IsCyclesFault, ReadsWithin, is_read_failure, is_write_failure};
ghost use Rattle.vme_check.specs.Requests.{AreCountsOf};

use crate::findings::counts_of_lines;
use crate::report::{Counts, Form, print_lines};
use std::alloc::Global;
use vme_engines::{INPUT_LIMIT, ProgramFault, read_input};
use vme_io::{Sink, Source};
use vme_report::RunFault;

/// Finds the faults and warnings of request lines, and prints them as the form says. It performs no
/// cycle. Returns how many errors and warnings there are.
///
/// The engine first reads the input, to its end or to one byte past `INPUT_LIMIT`; it prints
/// nothing before that. The contract does not state the text of the findings.
///
/// # Errors
///
/// `Read` or `Write`: the reader or the writer failed. `TooLong`: the input has more than
/// `INPUT_LIMIT` bytes. `Memory`: an allocation failed.
pub fn request_check_engine<R: Source, W: Sink>(
    alloc: Global,
    name: &str,
    form: &Form,
    reader: &mut R,
    writer: &mut W,
) -> Result<Counts, ProgramFault>
    requires reader_unmarked { R.is_marked reader.old ≡ false }
    requires writer_unmarked { W.is_marked writer.old ≡ false }
    ensures counts { IfSome (R.remaining reader.old) (λ input.
        IfOk result (λ counts. AreCountsOf (lines input) counts)) }
    ensures quiet { IsTrue form.now.quiet → writer.new ≡ writer.old }
    ensures read { R.is_marked reader.new ≡ is_read_failure result }
    ensures limit { ReadsWithin INPUT_LIMIT (R.remaining reader.old) (R.remaining reader.new) result }
    ensures write { W.is_marked writer.new ≡ is_write_failure result }
    ensures faults { IfErr result IsCyclesFault }
{
    let input = read_input(alloc, reader, INPUT_LIMIT)?;
    let counts = check_lines(alloc, name, form, input.as_slice(), writer)?;
    Ok(counts)
}

/// Finds the faults and warnings of the request lines of a text, and prints them.
fn check_lines<W: Sink>(
    alloc: Global,
    name: &str,
    form: &Form,
    text: &[u8],
    writer: &mut W,
) -> Result<Counts, RunFault>
    requires within { length text.now < 2 ^ 32 }
    requires unmarked { W.is_marked writer.old ≡ false }
    ensures counts { IfOk result (λ counts. AreCountsOf (lines text.now) counts) }
    ensures quiet { IsTrue form.now.quiet → writer.new ≡ writer.old }
    ensures write { W.is_marked writer.new ≡ is_write_end result }
    ensures faults { IfErr result IsReportFault }
{
    let counts = counts_of_lines(text);
    if !form.quiet {
        print_lines(alloc, name, text, counts, form, writer)?;
    }
    Ok(counts)
}
