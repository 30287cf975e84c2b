//! Configurations read from the text of a file.
ghost use Rattle.std.specs.Prelude.{◌≡◌, ◌≢◌, Some, Err, IfOk, IsUtf8};
ghost use Rattle.toml.specs.Parse.{parse_document};
ghost use Rattle.toml.specs.View.{table_view};
ghost use Rattle.vme_script.specs.Answers.{Gives};
ghost use Rattle.vme_script.specs.Readings.{configuration_in};

use crate::config::Config;
use crate::fault::ConfigFault;
use std::alloc::Global;
use toml::Table;
use vme_config_toml::{file_values, table_of};

impl Config {
    /// Parses the text of a TOML file and returns its configuration.
    ///
    /// # Errors
    ///
    /// The first refusal, checked in this order: C6; C7; C11 and C4; for each board in order of the
    /// file C8, C9, C10, C5, C3 and C2; C1; C10 for the arbiter; C12; C13; and C14 for the first
    /// board whose script is refused. `OutOfMemory`: an allocation failed.
    #[tactic(auto, unfolding(crate::specs::Readings::configuration_in))]
    pub fn read(alloc: Global, text: &[u8]) -> Result<Config, ConfigFault>
        ensures text { IsUtf8 text.now → result ≢ Err ConfigFault.OutOfMemory →
            result ≡ configuration_in (parse_document text.now) }
        ensures is_text { IfOk result (λ _. IsUtf8 text.now) }
        ensures bytes { (IsUtf8 text.now → ⊥) → result ≢ Err ConfigFault.OutOfMemory →
            result ≡ Err ConfigFault.NotToml }
    {
        let table = table_of(alloc, text)?;
        Config::of_document(alloc, &table)
    }

    /// Returns the configuration of a TOML document, for a caller that has parsed the text.
    ///
    /// # Errors
    ///
    /// The first refusal in the order of `read`, without C6. `OutOfMemory`: an allocation failed.
    #[tactic(auto, unfolding(crate::specs::Readings::configuration_in))]
    pub fn of_document(alloc: Global, table: &Table) -> Result<Config, ConfigFault>
        ensures { Gives (λ config. config) result (configuration_in (Some (table_view table.now))) }
    {
        let file = file_values(alloc, table)?;
        Config::of(alloc, &file)
    }
}
