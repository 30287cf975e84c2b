//! A use of `vme_lanes`.
ghost use Rattle.std.specs.Prelude.{◌≡◌, ◌≤◌, length, IfSome};

use vme_lanes::{Datum, Location, pick, place, placed_is_picked};

/// Returns the bytes of a write as the slave gets them, or `None` if no single cycle has them.
pub fn over_the_lanes(addr: u32, bytes: &[u8]) -> Option<Datum>
    requires { length bytes.now ≤ 4 }
    ensures { IfSome result (λ datum. datum.items ≡ bytes.now) }
{
    let location = Location::of(addr, bytes.len() as u8)?;
    placed_is_picked();
    Some(pick(location, place(location, bytes)))
}
