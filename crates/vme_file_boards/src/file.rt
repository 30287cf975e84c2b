ghost use Rattle.std.specs.Prelude.{◌≡◌, ◌≢◌, Some, Err, IfOk, IfErr, IsUtf8};
ghost use Rattle.toml.specs.Parse.{parse_document};
ghost use Rattle.toml.specs.View.{table_view};
ghost use Rattle.vme_script.specs.Readings.{configuration_in};
ghost use Rattle.vme_file_boards.specs.Files.{HasBoards};

use crate::board::boards_of;
use std::alloc::Global;
use toml::Table;
use vme_arbiter::ArbiterKind;
use vme_config_toml::{file_values, table_of};
use vme_script::{BoardConfig, Config, ConfigFault, kind_named};

/// What a machine is opened with: the boards of a file, in order of slots, and the kind of arbiter.
#[derive(Drop)]
pub struct FileBoards {
    /// The boards.
    pub boards: Vec<BoardConfig>,
    /// The kind of arbiter.
    pub arbiter: ArbiterKind,
}

/// Returns the boards and the kind of arbiter of the document of a file.
///
/// # Errors
/// The first refusal of the document; `OutOfMemory` if an allocation fails.
#[tactic(auto, using(crate::proofs::Boards::no_values))]
fn boards_of_document(alloc: Global, table: &Table) -> Result<FileBoards, ConfigFault>
    ensures boards { IfOk result (HasBoards (Some (table_view table.now))) }
    ensures refused { IfErr result (λ fault. fault ≢ ConfigFault.OutOfMemory →
        configuration_in (Some (table_view table.now)) ≡ Err fault) }
{
    let _config = Config::of_document(alloc, table)?;
    let file = file_values(alloc, table)?;
    let boards = boards_of(alloc, &file.boards)?;
    match kind_named(file.arbiter) {
        Ok(arbiter) => Ok(FileBoards { boards, arbiter }),
        Err(_) => Err(ConfigFault::BadWord),
    }
}

/// Returns the boards and the kind of arbiter of a configuration file, by its text in TOML. The
/// whole file is checked, scripts and mailboxes too.
///
/// # Errors
/// The first refusal of the file, C1 to C14, in the order of [`Config::read`]; `OutOfMemory` if an
/// allocation fails.
#[tactic(auto, using(crate::proofs::Boards::no_document))]
pub fn boards_in(alloc: Global, text: &[u8]) -> Result<FileBoards, ConfigFault>
    ensures is_text { IfOk result (λ _. IsUtf8 text.now) }
    ensures boards { IfOk result (HasBoards (parse_document text.now)) }
    ensures refused { IfErr result (λ fault. fault ≢ ConfigFault.OutOfMemory → IsUtf8 text.now →
        configuration_in (parse_document text.now) ≡ Err fault) }
    ensures bytes { (IsUtf8 text.now → ⊥) → result ≢ Err ConfigFault.OutOfMemory →
        result ≡ Err ConfigFault.NotToml }
{
    let table = table_of(alloc, text)?;
    boards_of_document(alloc, &table)
}
