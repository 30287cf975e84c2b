ghost use Rattle.std.specs.Prelude.{ℕ, List};
ghost use Rattle.vme_script.specs.Configurations.{Configuration};
ghost use Rattle.vme_script.specs.Lawful.{IsLawful};
ghost use Rattle.vme_engines.specs.Files.{Configures};

/// Each configuration that the bytes of a file encode is lawful. So what the laws state of lawful
/// configurations holds for each file that is not rejected.
pub fn configurations_are_lawful()
    ensures { (input : List ℕ) (config : Configuration) → Configures input config → IsLawful config }
{}
