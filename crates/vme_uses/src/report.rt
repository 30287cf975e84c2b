//! A use of `vme_report`.
ghost use Rattle.std.specs.Prelude.{◌≡◌, false, OnOk, ◌∷◌, []};
ghost use Rattle.std.specs.Io.KnownBytes.{Appends};
ghost use Rattle.vme_report.specs.Reports.{report_text};

use std::alloc::Global;
use vme_io::Sink;
use vme_report::{BoardReportRef, RunFault, write_report};
use vme_shared::Status;

/// Writes the report of a run of one board; returns `Clean` if each of its replies is a success.
pub fn report_of_one<W: Sink>(
    alloc: Global,
    board: BoardReportRef<'_>,
    writer: &mut W,
) -> Result<Status, RunFault>
    requires { W.is_marked writer.old ≡ false }
    ensures { OnOk result
        (Appends (W.contents writer.old) (W.contents writer.new) (report_text (board.entry ∷ []))) }
{
    write_report(alloc, &[board], writer)
}
