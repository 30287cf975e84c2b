//! A use of `vme_am`.
ghost use Rattle.std.specs.Prelude.{◌≤◌, ◌^◌, IfOk};

use vme_am::{Am, AmFault};

/// Returns how many bytes a master can reach with an address modifier code.
pub fn reach(code: u8) -> Result<u64, AmFault>
    ensures { IfOk result (λ count. count ≤ 2 ^ 32) }
{
    let am = Am::from_code(code)?;
    Ok(am.space().addresses())
}
