//! The text of a report of a run on threads.
ghost use Rattle.std.specs.Prelude.{◌≡◌, false, length, map, IfOk, IfErr, OnOk, OnErr};
ghost use Rattle.std.specs.Io.KnownBytes.{Appends};
ghost use Rattle.vme_io.specs.Prefixes.{AppendsPrefix};
ghost use Rattle.vme_report.specs.Ends.{IsReportFault, is_write_end};
ghost use Rattle.vme_report.specs.Reports.{report_text, report_status};
ghost use Rattle.vme_threads.specs.ReportTexts.{texts_of_ends, texts_of_report};

use std::alloc::{AllocError, Global};
use vme_io::Sink;
use vme_report::{BoardReportRef, RunFault, write_report};
use vme_shared::{LineReply, Status};
use vme_threads::{BoardReport, Report};

/// Writes the text of a report. The report has a list of replies for each board.
///
/// Returns `Clean` if every reply is a success, otherwise `Marked`.
///
/// # Errors
///
/// `Write`: the sink failed. `Memory`: an allocation failed. In both cases a prefix of the text was
/// written.
pub fn report_text<W: Sink>(
    alloc: Global,
    report: &Report,
    sink: &mut W,
) -> Result<Status, RunFault>
    requires unmarked { W.is_marked sink.old ≡ false }
    requires lists { length report.now.lines.items ≡ length report.now.boards.items }
    ensures text { OnOk result (Appends (W.contents sink.old) (W.contents sink.new)
        (report_text (texts_of_report report.now))) }
    ensures prefix { OnErr result (AppendsPrefix (W.contents sink.old) (W.contents sink.new)
        (report_text (texts_of_report report.now))) }
    ensures status { IfOk result (λ status. status ≡ report_status (texts_of_report report.now)) }
    ensures write { W.is_marked sink.new ≡ is_write_end result }
    ensures faults { IfErr result IsReportFault }
{
    let boards = board_refs(alloc, &report.boards, &report.lines)?;
    let status = write_report(alloc, &boards, sink)?;
    Ok(status)
}

/// The entry of each board, with the replies to the lines of its processor.
fn board_refs<'a>(
    alloc: Global,
    ends: &'a [BoardReport],
    lines: &'a [Vec<(u16, LineReply)>],
) -> Result<Vec<BoardReportRef<'a>>, AllocError>
    requires { length lines.now ≡ length ends.now }
    ensures { IfOk result (λ boards.
        boards.items ≡ texts_of_ends ends.now (map (λ one. one.items) lines.now)) }
{
    let mut boards = Vec::with_capacity(alloc, ends.len())?;
    let mut ends = ends;
    let mut lines = lines;
    while let Some((end, more)) = ends.split_first() {
        let Some((own, rest)) = lines.split_first() else {
            break;
        };
        boards.push(board_ref(end, own.as_slice()))?;
        ends = more;
        lines = rest;
    }
    Ok(boards)
}

/// The entry of one board, with the replies to the lines of its processor.
fn board_ref<'a>(end: &'a BoardReport, lines: &'a [(u16, LineReply)]) -> BoardReportRef<'a>
    ensures { result ≡ record {
      slot = end.now.slot;
      lines = lines.now;
      bytes = end.now.memory.bytes;
      steps = end.now.steps;
      made = end.now.made.items;
    } }
{
    BoardReportRef {
        slot: end.slot,
        lines,
        memory: &end.memory,
        steps: end.steps,
        made: end.made.as_slice(),
    }
}
