//! The engine of `bendrika judge`.
ghost use Rattle.std.specs.Prelude.{◌≡◌, true, false, [], ◌++◌, string_bytes, IfOk, IfSome, OnOk};
ghost use Rattle.std.specs.Io.KnownBytes.{Appends};
ghost use Rattle.vme_judge.specs.DumpRuns.{dump_so_far};
ghost use Rattle.vme_judge.specs.Dumps.{dump_status};
ghost use Rattle.vme_judge.specs.DumpTexts.{dump_of};
ghost use Rattle.vme_judge.specs.Endings.{unless, verdict_printed, PrintsDump, PrintsLog};
ghost use Rattle.vme_judge.specs.Faults.{is_read_end, is_write_end};
ghost use Rattle.vme_judge.specs.Logs.{status_of};
ghost use Rattle.vme_judge.specs.Runs.{run_so_far};
ghost use Rattle.vme_judge.specs.Verdicts.{is_log, log_of};
ghost use Rattle.vme_judge.specs.VerdictTexts.{ending_of};

use crate::boards::Board;
use crate::fault::{JudgeFault, Status};
use crate::options::Options;
use crate::run::Run;
use crate::verdict::write_end;
use std::alloc::Global;
use vme_io::{Sink, Source, write_all};
use vme_line_map::LineMap;

/// The number of bytes that one read asks for.
const PIECE: usize = 16_384;

/// Judges a trace, a dump or a bus log, by the boards of a configuration, and writes the verdict.
///
/// The trace is judged while it is read: after a sample that is not legal nothing more is read. The
/// status is that of the text, a log or a dump, if the reader has a byte model. If the writer has one
/// too, what is written is what is said before the verdict, the lines of a bus log and the findings
/// after which the judgement goes on, and the verdict on the text, and nothing else.
///
/// # Errors
///
/// `Read` or `Write`: the reader or the writer failed. `Memory`: an allocation failed. `TooLong`:
/// the trace has 2^64 - 1 pieces or more.
pub fn judge_engine<'a, S: Source, W: Sink>(
    alloc: Global,
    options: &'a Options<'a>,
    map: &'a LineMap,
    boards: &'a [Board],
    trace: &mut S,
    writer: &mut W,
) -> Result<Status, JudgeFault>
    requires reader_unmarked { S.is_marked trace.old ≡ false }
    requires writer_unmarked { W.is_marked writer.old ≡ false }
    ensures read { S.is_marked trace.new ≡ is_read_end result }
    ensures write { W.is_marked writer.new ≡ is_write_end result }
    ensures log { IfSome (S.remaining trace.old) (λ text. is_log text ≡ true →
        IfOk result (λ status. status ≡ status_of (log_of options.now boards.now text))) }
    ensures dump { IfSome (S.remaining trace.old) (λ text. is_log text ≡ false →
        IfOk result (λ status. status ≡ dump_status (dump_of options.now map.now boards.now text))) }
    ensures log_text { IfSome (S.remaining trace.old) (λ text. is_log text ≡ true →
        OnOk result (PrintsLog options.now map.now boards.now text (W.contents writer.old) (W.contents writer.new))) }
    ensures dump_text { IfSome (S.remaining trace.old) (λ text. is_log text ≡ false →
        OnOk result (PrintsDump options.now map.now boards.now text (W.contents writer.old) (W.contents writer.new))) }
{
    let mut run = Run::new(alloc, options, map, boards)?;
    let mut buffer = [0u8; PIECE];
    for _piece in 0..u64::MAX {
        let Ok(count) = trace.read(&mut buffer) else {
            return Err(JudgeFault::Read);
        };
        if count == 0 {
            run.end()?;
            return written(alloc, &run, options, map, boards, writer);
        }
        if !run.push_all(&buffer[..count])? {
            return written(alloc, &run, options, map, boards, writer);
        }
        write_pending(&mut run.judge.pending, writer)?;
    }
    Err(JudgeFault::TooLong)
}

/// Writes what is not written yet.
fn write_pending<W: Sink>(pending: &mut String, writer: &mut W) -> Result<(), JudgeFault>
    requires { W.is_marked writer.old ≡ false }
    ensures read { is_read_end result ≡ false }
    ensures write { W.is_marked writer.new ≡ is_write_end result }
    ensures text { OnOk result (Appends (W.contents writer.old) (W.contents writer.new) (string_bytes pending.old)) }
    ensures cleared { OnOk result (string_bytes pending.new ≡ []) }
{
    write_all(writer, pending.as_bytes())?;
    pending.clear();
    Ok(())
}

/// Writes the verdict, and returns the status.
fn written<W: Sink>(
    alloc: Global,
    run: &Run<'_>,
    options: &Options<'_>,
    map: &LineMap,
    boards: &[Board],
    writer: &mut W,
) -> Result<Status, JudgeFault>
    requires { W.is_marked writer.old ≡ false }
    ensures read { is_read_end result ≡ false }
    ensures write { W.is_marked writer.new ≡ is_write_end result }
    ensures status { IfOk result (λ status. status ≡ status_of (run_so_far run.now)) }
    ensures dump { IfOk result (λ status. status ≡ dump_status (dump_so_far run.now)) }
    ensures text { OnOk result (Appends (W.contents writer.old) (W.contents writer.new)
        (string_bytes run.now.judge.pending ++ verdict_printed options.now map.now boards.now (ending_of run.now))) }
{
    write_all(writer, run.judge.pending.as_bytes())?;
    let mut text = String::new(alloc);
    let status = write_end(alloc, run, options, map, boards, &mut text)?;
    write_printed(options.quiet, &text, writer)?;
    Ok(status)
}

/// Writes a text, unless nothing is to be printed.
fn write_printed<W: Sink>(quiet: bool, text: &str, writer: &mut W) -> Result<(), JudgeFault>
    requires { W.is_marked writer.old ≡ false }
    ensures read { is_read_end result ≡ false }
    ensures write { W.is_marked writer.new ≡ is_write_end result }
    ensures text { OnOk result (Appends (W.contents writer.old) (W.contents writer.new) (unless quiet text.now)) }
{
    if quiet {
        return Ok(());
    }
    write_all(writer, text.as_bytes())?;
    Ok(())
}
