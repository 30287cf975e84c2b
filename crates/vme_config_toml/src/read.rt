//! The document of a configuration file.
ghost use Rattle.std.specs.Prelude.{◌≡◌, ◌≢◌, None, Some, IfOk, IfErr, IsUtf8};
ghost use Rattle.toml.specs.Parse.{parse_document};
ghost use Rattle.toml.specs.View.{table_view};

use crate::fault::DocumentFault;
use std::alloc::Global;
use toml::Table;

/// Parses the text of a file as a TOML document.
///
/// # Errors
///
/// `NotToml`: the text is not UTF-8 or not TOML. `OutOfMemory`: an allocation failed.
pub fn table_of(alloc: Global, text: &[u8]) -> Result<Table, DocumentFault>
    ensures table { IfOk result (λ table. IsUtf8 text.now × (parse_document text.now ≡ Some (table_view table))) }
    ensures refused { IfErr result (λ fault. fault ≢ DocumentFault.OutOfMemory →
        (fault ≡ DocumentFault.NotToml) × (IsUtf8 text.now → parse_document text.now ≡ None)) }
{
    match toml::table_from_slice(alloc, text) {
        Ok(table) => Ok(table),
        Err(error) if error.is_memory() => Err(DocumentFault::OutOfMemory),
        Err(_) => Err(DocumentFault::NotToml),
    }
}
