//! The engine of `bendrika page`.
ghost use Rattle.std.specs.Prelude.{◌≡◌, Err, false, IfOk, IfErr, IfSome, OnOk};
ghost use Rattle.vme_script.specs.declared.fault.ConfigFault.{ConfigFault};
ghost use Rattle.vme_script.specs.Configurations.{Configuration};
ghost use Rattle.vme_engines.specs.Faults.{IsStepFault, ReadsWithin, is_read_failure, is_write_failure};
ghost use Rattle.vme_engines.specs.Files.{Configures, IsRefusedAs};
ghost use Rattle.vme_page.specs.Pages.{AppendsPage};

use crate::page::write_page;
use std::alloc::Global;
use vme_engines::{FILE_LIMIT, ProgramFault, read_config};
use vme_io::{Sink, Source};
use vme_trace::EventRange;

/// Runs the scripts of a configuration file by the turns of its schedule and then by its rounds,
/// and writes a page with the timing diagrams of some events, the scripts and the report. Its title
/// is the last part of the path `name`.
///
/// The engine first reads the input, to its end or to one byte past `FILE_LIMIT`; then it writes
/// while the run goes on. If the reader has no byte model, only the fault clauses hold; if the
/// writer has none, what is written is not stated.
///
/// # Errors
///
/// `Config`: the input is not a configuration. `Read` or `Write`: the reader or the writer failed.
/// `TooLong`: the input has more than `FILE_LIMIT` bytes. `Memory`: an allocation failed. After a
/// fault, a prefix of the page was written, or nothing.
pub fn page_engine<R: Source, W: Sink>(
    alloc: Global,
    name: &str,
    range: EventRange,
    reader: &mut R,
    writer: &mut W,
) -> Result<(), ProgramFault>
    requires reader_unmarked { R.is_marked reader.old ≡ false }
    requires writer_unmarked { W.is_marked writer.old ≡ false }
    ensures page { (config : Configuration) → IfSome (R.remaining reader.old) (λ input.
        Configures input config → OnOk result
        (AppendsPage config (W.contents writer.old) (W.contents writer.new))) }
    ensures write { W.is_marked writer.new ≡ is_write_failure result }
    ensures read { IfSome (R.remaining reader.old) (λ input.
        IfOk result (λ _. (config : Configuration) × Configures input config)) }
    ensures read_fault { R.is_marked reader.new ≡ is_read_failure result }
    ensures refused { (fault : ConfigFault) → result ≡ Err (ProgramFault.Config fault) →
        IfSome (R.remaining reader.old) (λ input. IsRefusedAs input fault) }
    ensures limit { ReadsWithin FILE_LIMIT
        (R.remaining reader.old) (R.remaining reader.new) result }
    ensures faults { IfErr result IsStepFault }
{
    let config = read_config(alloc, reader)?;
    write_page(alloc, name, &config, range, writer)?;
    Ok(())
}
