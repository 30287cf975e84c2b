ghost use Rattle.std.specs.Prelude.{◌≡◌};
ghost use Rattle.std.specs.List.{list_all};
ghost use Rattle.vme_arbiter.specs.States.{is_level_or_none};

use crate::kind::ArbiterKind;
use crate::levels::LEVELS;

/// The places of an arbiter's levels: one for each slot number, and place 0, which stays empty.
pub const PLACES: usize = 22;

/// The state of an arbiter as plain data: `Arbiter::state` returns it, and `Arbiter::from_state`
/// makes an arbiter from it.
#[derive(Clone, Copy, Debug, PartialEq, Eq)]
pub struct ArbiterState {
    /// How the arbiter grants the bus.
    pub kind: ArbiterKind,
    /// The level at which the next grant begins.
    pub first: u8,
    /// The slot that holds the bus, if any.
    pub holder: Option<u16>,
    /// By slot: the level of its pending request, if any.
    pub levels: [Option<u8>; PLACES],
}

/// Whether the level of a request, if there is one, is in range.
fn is_level_or_none(level: Option<u8>) -> bool
    ensures { result ≡ is_level_or_none level }
{
    match level {
        Some(level) => level < LEVELS,
        None => true,
    }
}

/// Whether the levels of all requests are in range.
pub(crate) fn are_in_range(levels: &[Option<u8>]) -> bool
    ensures { result ≡ list_all is_level_or_none levels.now }
{
    levels.iter().all(|level| is_level_or_none(*level))
}
