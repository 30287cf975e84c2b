//! The engine of `vme run`: from the bytes of a configuration file to the report of its run on
//! threads.
ghost use Rattle.std.specs.Prelude.{ℕ, ◌≡◌, List, Err, false, length, IfOk, IfErr, IfSome, OnOk, OnErr};
ghost use Rattle.std.specs.Io.KnownBytes.{Appends};
ghost use Rattle.vme_script.specs.declared.fault.ConfigFault.{ConfigFault};
ghost use Rattle.vme_engines.specs.Faults.{EndsUnwritten, ReadsWithin, WritesPrefix, is_read_failure, is_write_failure};
ghost use Rattle.vme_engines.specs.Files.{IsRefusedAs};
ghost use Rattle.vme_run.specs.RunTexts.{IsRunText, IsSomeRunText, IsRunEngineFault, IsRunFileFault};

use crate::text::report_text;
use std::alloc::Global;
use std::sync::Wait;
use std::thread::Threads;
use vme_engines::{FILE_LIMIT, ProgramFault, parse_config, read_config};
use vme_io::{Sink, Source};
use vme_shared::Status;
use vme_threads::{Gate, run_threads};

/// A gate that lets every line pass.
#[derive(Clone, Copy, Debug)]
struct OpenGate;

impl Gate for OpenGate {
    fn before(&self, _slot: u16, _line: u16) {}

    fn after(&self, _slot: u16, _line: u16) {}
}

/// Runs the scripts of a configuration file, each on a thread of its own, and writes the report.
///
/// Returns `Clean` if every reply is a success, otherwise `Marked`.
///
/// Report and status are those of some turns of slots on one thread, after which each line has its
/// reply. Which turns they are is not stated, and there may be more of them than a file's schedule
/// and rounds can state.
///
/// The engine first reads the input, to its end or to one byte past `FILE_LIMIT`; it writes nothing
/// before all threads have ended. If the reader has no byte model, only the fault clauses hold; if
/// the writer has none, what is written is not stated. No contract states that threads run at the
/// same time, or that a call is ever served.
///
/// # Errors
///
/// `Config`: the input is not a configuration. `Read` or `Write`: the reader or the writer failed.
/// `TooLong`: the input has more than `FILE_LIMIT` bytes. `Memory`: an allocation failed. `Thread`:
/// a thread could not be started. `Spent`: an object has taken as many steps as can be counted.
/// After a fault, a prefix of a report was written, or nothing.
pub fn run_engine<T: Threads + Wait + Sync, R: Source, W: Sink>(
    rt: &T,
    alloc: Global,
    reader: &mut R,
    writer: &mut W,
) -> Result<Status, ProgramFault>
    requires reader_unmarked { R.is_marked reader.old ≡ false }
    requires writer_unmarked { W.is_marked writer.old ≡ false }

    // What is written is the text that `vme step` writes for some turns, by which each line has its
    // reply; before a fault, a prefix of such a text or nothing.
    ensures text { IfSome (R.remaining reader.old) (λ input. IfOk result (λ status.
        (text : List ℕ) × IsRunText input text status
        × Appends (W.contents writer.old) (W.contents writer.new) text)) }
    ensures prefix { IfSome (R.remaining reader.old) (λ input.
        OnErr result (WritesPrefix (IsSomeRunText input)
        (W.contents writer.old) (W.contents writer.new))) }
    ensures nothing { EndsUnwritten result → writer.new ≡ writer.old }

    // When each fault is returned. No clause states when `Memory`, `Thread` and `Spent` are.
    ensures refused { (fault : ConfigFault) → result ≡ Err (ProgramFault.Config fault) →
        IfSome (R.remaining reader.old) (λ input. IsRefusedAs input fault) }
    ensures read { R.is_marked reader.new ≡ is_read_failure result }
    ensures limit { ReadsWithin FILE_LIMIT
        (R.remaining reader.old) (R.remaining reader.new) result }
    ensures write { W.is_marked writer.new ≡ is_write_failure result }
    ensures faults { IfErr result IsRunEngineFault }
{
    let config = read_config(alloc, reader)?;
    let report = run_threads(rt, alloc, &config, &OpenGate)?;
    let status = report_text(alloc, &report, writer)?;
    Ok(status)
}

/// Runs the scripts of a configuration file whose bytes were read, each on a thread of its own, as
/// `run_engine` does. The bytes are freed before the run.
///
/// Returns `Clean` if every reply is a success, otherwise `Marked`. If the writer has no byte model,
/// what is written is not stated.
///
/// # Errors
///
/// `Config`: the bytes are not a configuration. `Write`: the writer failed. `Memory`: an allocation
/// failed. `Thread`: a thread could not be started. `Spent`: an object has taken as many steps as
/// can be counted. After a fault, a prefix of a report was written, or nothing.
pub fn run_file<T: Threads + Wait + Sync, W: Sink>(
    rt: &T,
    alloc: Global,
    file: Vec<u8>,
    writer: &mut W,
) -> Result<Status, ProgramFault>
    requires unmarked { W.is_marked writer.old ≡ false }
    ensures text { IfOk result (λ status. (text : List ℕ) × IsRunText file.items text status
        × Appends (W.contents writer.old) (W.contents writer.new) text) }
    ensures prefix { OnErr result (WritesPrefix (IsSomeRunText file.items)
        (W.contents writer.old) (W.contents writer.new)) }
    ensures nothing { EndsUnwritten result → writer.new ≡ writer.old }
    ensures refused { (fault : ConfigFault) → result ≡ Err (ProgramFault.Config fault) →
        IsRefusedAs file.items fault }
    ensures write { W.is_marked writer.new ≡ is_write_failure result }
    ensures faults { IfErr result IsRunFileFault }
{
    let config = parse_config(alloc, file.as_slice())?;
    drop(file);
    let report = run_threads(rt, alloc, &config, &OpenGate)?;
    let status = report_text(alloc, &report, writer)?;
    Ok(status)
}
