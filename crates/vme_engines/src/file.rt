//! A configuration file as the input of an engine.
ghost use Rattle.std.specs.Prelude.{◌≡◌, Err, false, IfOk, IfErr, IfSome};
ghost use Rattle.vme_script.specs.declared.fault.ConfigFault.{ConfigFault};
ghost use Rattle.vme_engines.specs.Faults.{IsConfigFault, IsFileFault, ReadsWithin, is_read_failure};
ghost use Rattle.vme_engines.specs.Files.{Configures, IsRefusedAs};

use crate::fault::ProgramFault;
use crate::input::read_input;
use std::alloc::Global;
use vme_io::Source;
use vme_script::{Config, ConfigFault};

/// The greatest number of bytes of a configuration file.
pub const FILE_LIMIT: usize = 2_097_152;

/// Reads a configuration file, to its end or to one byte past `FILE_LIMIT`.
///
/// If the reader has no byte model, only the fault clauses hold.
///
/// # Errors
///
/// `Config`: the bytes are not a configuration. `Read`: the reader failed. `TooLong`: the file has
/// more than `FILE_LIMIT` bytes. `Memory`: an allocation failed.
#[tactic(auto, using(crate::proofs::InputFaults::config_within))]
pub fn read_config<R: Source>(alloc: Global, reader: &mut R) -> Result<Config, ProgramFault>
    requires unmarked { R.is_marked reader.old ≡ false }
    ensures config { IfOk result (λ config.
        IfSome (R.remaining reader.old) (λ input. Configures input config)) }
    ensures refused { (fault : ConfigFault) → result ≡ Err (ProgramFault.Config fault) →
        IfSome (R.remaining reader.old) (λ input. IsRefusedAs input fault) }
    ensures limit { ReadsWithin FILE_LIMIT
        (R.remaining reader.old) (R.remaining reader.new) result }
    ensures read { R.is_marked reader.new ≡ is_read_failure result }
    ensures faults { IfErr result IsFileFault }
{
    let input = read_input(alloc, reader, FILE_LIMIT)?;
    parse_config(alloc, input.as_slice())
}

/// Parses the configuration that the bytes of a file encode.
///
/// # Errors
///
/// `Config`: the bytes are not a configuration. `Memory`: an allocation failed.
pub fn parse_config(alloc: Global, input: &[u8]) -> Result<Config, ProgramFault>
    ensures config { IfOk result (Configures input.now) }
    ensures refused { (fault : ConfigFault) →
        result ≡ Err (ProgramFault.Config fault) → IsRefusedAs input.now fault }
    ensures faults { IfErr result IsConfigFault }
{
    match Config::read(alloc, input) {
        Ok(config) => Ok(config),
        Err(ConfigFault::OutOfMemory) => Err(ProgramFault::Memory),
        Err(fault) => Err(ProgramFault::Config(fault)),
    }
}
