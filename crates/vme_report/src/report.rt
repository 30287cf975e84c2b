//! A whole report.
ghost use Rattle.std.specs.Prelude.{◌≡◌, false, IfOk, IfErr, OnOk, OnErr};
ghost use Rattle.std.specs.Io.KnownBytes.{Appends};
ghost use Rattle.vme_io.specs.Prefixes.{AppendsPrefix};
ghost use Rattle.vme_report.specs.Ends.{IsReportFault, is_write_end};
ghost use Rattle.vme_report.specs.Reports.{report_text, report_status};

use crate::board::BoardReportRef;
use crate::fault::RunFault;
use crate::gather::gather_boards;
use crate::part::Part;
use crate::status::status_of;
use std::alloc::Global;
use vme_io::{Sink, WRITE_SIZE, write_all};
use vme_shared::Status;

/// Writes the report of `boards`, in order: a line for each reply, a line for each board's steps,
/// and a line for each row of memory that is not all zero.
///
/// Returns `Clean` if every reply is a success, otherwise `Marked`.
///
/// If the writer has no byte model, the clauses `text` and `prefix` do not state what is written.
///
/// # Errors
///
/// `Write`: the writer failed. `Memory`: an allocation failed. In both cases a prefix of the report
/// was written.
pub fn write_report<W: Sink>(
    alloc: Global,
    boards: &[BoardReportRef<'_>],
    writer: &mut W,
) -> Result<Status, RunFault>
    requires { W.is_marked writer.old ≡ false }
    ensures text { OnOk result
        (Appends (W.contents writer.old) (W.contents writer.new) (report_text boards.now)) }
    ensures prefix { OnErr result
        (AppendsPrefix (W.contents writer.old) (W.contents writer.new) (report_text boards.now)) }
    ensures status { IfOk result (λ status. status ≡ report_status boards.now) }
    ensures write { W.is_marked writer.new ≡ is_write_end result }
    ensures faults { IfErr result IsReportFault }
{
    let mut text = Vec::with_capacity(alloc, WRITE_SIZE)?;
    gather_boards(Part::Replies, boards, &mut text, writer)?;
    gather_boards(Part::Counts, boards, &mut text, writer)?;
    gather_boards(Part::Memory, boards, &mut text, writer)?;
    write_all(writer, text.as_slice())?;
    Ok(status_of(boards))
}
