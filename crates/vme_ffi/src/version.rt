//! The version of the library.
ghost use Rattle.std.specs.Prelude.{◌≡◌};
ghost use Rattle.vme_ffi.specs.Results.{version};

/// Version 1.0.0. `checks/header` compares it with `VERSION`.
const VERSION: u32 = 0x0001_0000;

/// Returns the version of the library: 65,536 for each major, 256 for each minor, 1 for each patch.
#[unsafe(no_mangle)]
pub extern "C" fn vme_version() -> u32
    ensures { result ≡ version }
{
    VERSION
}
