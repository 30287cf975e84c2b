//! The engine of `vme step`: from the bytes of a configuration file to the report of its run on one
//! thread.
ghost use Rattle.std.specs.Prelude.{◌≡◌, Err, false, length, IfOk, IfErr, IfSome, OnOk, OnErr};
ghost use Rattle.std.specs.Io.KnownBytes.{Appends};
ghost use Rattle.vme_script.specs.declared.fault.ConfigFault.{ConfigFault};
ghost use Rattle.vme_script.specs.Configurations.{Configuration};
ghost use Rattle.vme_engines.specs.Faults.{EndsUnwritten, IsStepFault, ReadsWithin, WritesPrefix, is_read_failure, is_write_failure};
ghost use Rattle.vme_engines.specs.Files.{Configures, IsRefusedAs};
ghost use Rattle.vme_stepper.specs.Schedules.{file_turns};
ghost use Rattle.vme_stepper.specs.Reports.{run_text, run_status};
ghost use Rattle.vme_run.specs.RunTexts.{IsStepText, IsStepFileFault};

use std::alloc::Global;
use vme_engines::{FILE_LIMIT, ProgramFault, parse_config, read_config};
use vme_io::{Sink, Source};
use vme_shared::Status;
use vme_stepper::run_configured;

/// Runs the scripts of a configuration file by the turns of its schedule and then by its rounds,
/// and writes the report.
///
/// Returns `Clean` if every reply is a success, otherwise `Marked`.
///
/// The engine first reads the input, to its end or to one byte past `FILE_LIMIT`; it writes nothing
/// before the run has ended. If the reader has no byte model, only the fault clauses hold; if the
/// writer has none, what is written is not stated.
///
/// # Errors
///
/// `Config`: the input is not a configuration. `Read` or `Write`: the reader or the writer failed.
/// `TooLong`: the input has more than `FILE_LIMIT` bytes. `Memory`: an allocation failed. After a
/// fault, a prefix of the report was written, or nothing.
pub fn step_engine<R: Source, W: Sink>(
    alloc: Global,
    reader: &mut R,
    writer: &mut W,
) -> Result<Status, ProgramFault>
    requires reader_unmarked { R.is_marked reader.old ≡ false }
    requires writer_unmarked { W.is_marked writer.old ≡ false }

    // What is written is the text of the run that the file configures; before a fault, a prefix of
    // it or nothing.
    ensures read { IfSome (R.remaining reader.old) (λ input.
        IfOk result (λ _. (config : Configuration) × Configures input config)) }
    ensures text { (config : Configuration) → IfSome (R.remaining reader.old) (λ input.
        Configures input config → OnOk result (Appends
        (W.contents writer.old) (W.contents writer.new) (run_text config (file_turns config)))) }
    ensures prefix { IfSome (R.remaining reader.old) (λ input.
        OnErr result (WritesPrefix (IsStepText input)
        (W.contents writer.old) (W.contents writer.new))) }
    ensures status { (config : Configuration) → IfSome (R.remaining reader.old) (λ input.
        Configures input config → IfOk result (λ status.
        status ≡ run_status config (file_turns config))) }
    ensures nothing { EndsUnwritten result → writer.new ≡ writer.old }

    // When each fault is returned. No clause states when `Memory` is.
    ensures refused { (fault : ConfigFault) → result ≡ Err (ProgramFault.Config fault) →
        IfSome (R.remaining reader.old) (λ input. IsRefusedAs input fault) }
    ensures read_fault { R.is_marked reader.new ≡ is_read_failure result }
    ensures limit { ReadsWithin FILE_LIMIT
        (R.remaining reader.old) (R.remaining reader.new) result }
    ensures write { W.is_marked writer.new ≡ is_write_failure result }
    ensures faults { IfErr result IsStepFault }
{
    let config = read_config(alloc, reader)?;
    let status = run_configured(alloc, &config, writer)?;
    Ok(status)
}

/// Runs the scripts of a configuration file whose bytes were read, as `step_engine` does. The bytes
/// are freed before the run.
///
/// Returns `Clean` if every reply is a success, otherwise `Marked`. If the writer has no byte model,
/// what is written is not stated.
///
/// # Errors
///
/// `Config`: the bytes are not a configuration. `Write`: the writer failed. `Memory`: an allocation
/// failed. After a fault, a prefix of the report was written, or nothing.
pub fn step_file<W: Sink>(
    alloc: Global,
    file: Vec<u8>,
    writer: &mut W,
) -> Result<Status, ProgramFault>
    requires unmarked { W.is_marked writer.old ≡ false }
    ensures read { IfOk result (λ _. (config : Configuration) × Configures file.items config) }
    ensures text { (config : Configuration) → Configures file.items config → OnOk result (Appends
        (W.contents writer.old) (W.contents writer.new) (run_text config (file_turns config))) }
    ensures prefix { OnErr result (WritesPrefix (IsStepText file.items)
        (W.contents writer.old) (W.contents writer.new)) }
    ensures status { (config : Configuration) → Configures file.items config →
        IfOk result (λ status. status ≡ run_status config (file_turns config)) }
    ensures nothing { EndsUnwritten result → writer.new ≡ writer.old }
    ensures refused { (fault : ConfigFault) → result ≡ Err (ProgramFault.Config fault) →
        IsRefusedAs file.items fault }
    ensures write { W.is_marked writer.new ≡ is_write_failure result }
    ensures faults { IfErr result IsStepFileFault }
{
    let config = parse_config(alloc, file.as_slice())?;
    drop(file);
    let status = run_configured(alloc, &config, writer)?;
    Ok(status)
}
