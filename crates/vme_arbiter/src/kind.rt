ghost use Rattle.std.specs.Prelude.{◌≡◌, ◌<◌};
ghost use Rattle.vme_arbiter.specs.Levels.{first_after};

use crate::levels::HIGHEST;

/// How an arbiter chooses the level of a grant: IEEE 1014-1987, 3.3 (arbiter and requesters).
#[derive(Clone, Copy, Debug, PartialEq, Eq)]
pub enum ArbiterKind {
    /// Priority (PRI): each grant begins at the greatest level, 3.
    Priority,
    /// Rotating (RRS, round-robin select): a grant begins at the level below that of the grant
    /// before it, and at 3 after level 0.
    Rotating,
}

impl ArbiterKind {
    /// The level at which the next grant begins, after a grant on `level`.
    pub(crate) fn first_after(self, level: u8) -> u8
        requires { level < 4 }
        ensures value { result ≡ first_after self level }
        ensures in_range { result < 4 }
    {
        match self {
            ArbiterKind::Priority => HIGHEST,
            ArbiterKind::Rotating => { if level == 0 { HIGHEST } else { level - 1 } }
        }
    }
}
