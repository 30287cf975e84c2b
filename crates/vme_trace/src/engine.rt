//! The engine of `bendrika trace`.
ghost use Rattle.std.specs.Prelude.{◌≡◌, Err, false, IfOk, IfErr, IfSome, OnOk, OnErr};
ghost use Rattle.std.specs.Io.KnownBytes.{Appends};
ghost use Rattle.vme_script.specs.declared.fault.ConfigFault.{ConfigFault};
ghost use Rattle.vme_script.specs.Configurations.{Configuration};
ghost use Rattle.vme_engines.specs.Faults.{IsStepFault, ReadsWithin, WritesPrefix, is_read_failure, is_write_failure};
ghost use Rattle.vme_engines.specs.Files.{Configures, IsRefusedAs};
ghost use Rattle.vme_stepper.specs.Schedules.{file_turns};
ghost use Rattle.vme_trace.specs.Dumps.{vcd_text};
ghost use Rattle.vme_trace.specs.Traces.{IsTraceText};

use crate::progress::Selection;
use crate::trace::write_trace;
use std::alloc::Global;
use vme_engines::{FILE_LIMIT, ProgramFault, read_config};
use vme_io::{Sink, Source};

/// Runs the scripts of a configuration file by the turns of its schedule and then by its rounds,
/// and writes the value change dump of the selected events of the run.
///
/// The engine first reads the input, to its end or to one byte past `FILE_LIMIT`; then it writes
/// while the run goes on. If the reader has no byte model, only the fault clauses hold; if the
/// writer has none, what is written is not stated.
///
/// # Errors
///
/// `Config`: the input is not a configuration. `Read` or `Write`: the reader or the writer failed.
/// `TooLong`: the input has more than `FILE_LIMIT` bytes. `Memory`: an allocation failed. After a
/// fault, a prefix of the text was written, or nothing.
pub fn trace_engine<R: Source, W: Sink>(
    alloc: Global,
    selection: Selection,
    reader: &mut R,
    writer: &mut W,
) -> Result<(), ProgramFault>
    requires reader_unmarked { R.is_marked reader.old ≡ false }
    requires writer_unmarked { W.is_marked writer.old ≡ false }
    ensures text { (config : Configuration) → IfSome (R.remaining reader.old) (λ input.
        Configures input config → OnOk result (Appends
        (W.contents writer.old) (W.contents writer.new) (vcd_text selection config (file_turns config)))) }
    ensures prefix { IfSome (R.remaining reader.old) (λ input.
        OnErr result (WritesPrefix (IsTraceText selection input)
        (W.contents writer.old) (W.contents writer.new))) }
    ensures write { W.is_marked writer.new ≡ is_write_failure result }
    ensures read { IfSome (R.remaining reader.old) (λ input.
        IfOk result (λ _. (config : Configuration) × Configures input config)) }
    ensures limit { ReadsWithin FILE_LIMIT
        (R.remaining reader.old) (R.remaining reader.new) result }
    ensures read_fault { R.is_marked reader.new ≡ is_read_failure result }
    ensures refused { (fault : ConfigFault) → result ≡ Err (ProgramFault.Config fault) →
        IfSome (R.remaining reader.old) (λ input. IsRefusedAs input fault) }
    ensures faults { IfErr result IsStepFault }
{
    let config = read_config(alloc, reader)?;
    write_trace(alloc, selection, &config, writer)?;
    Ok(())
}
