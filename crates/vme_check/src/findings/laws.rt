//! Laws of findings. Each function's contract is a law; its body is empty.
ghost use Rattle.std.specs.Prelude.{ℕ, List};
ghost use Rattle.vme_script.specs.Configurations.{Configuration};
ghost use Rattle.vme_script.specs.declared.fault.ConfigFault.{ConfigFault};
ghost use Rattle.vme_engines.specs.Files.{Configures, IsRefusedAs};

/// States that no file is both a configuration and refused.
pub fn no_file_is_both()
    ensures { (input : List ℕ) (config : Configuration) (fault : ConfigFault) →
        Configures input config → IsRefusedAs input fault → ⊥ }
{}
