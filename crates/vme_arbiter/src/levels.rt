ghost use Rattle.std.specs.Prelude.{◌≡◌, ◌≢◌, ◌<◌, ◌≤◌, ℕ, IsFalse, IsTrue, length, Some, None, IfSome, MatchOption, slice_get};
ghost use Rattle.std.specs.Option.{option_map, option_and_then};
ghost use Rattle.vme_arbiter.specs.Levels.{level_order};
ghost use Rattle.vme_arbiter.specs.Grants.{HasNone, IsGreatest};
ghost use Rattle.vme_arbiter.specs.Requests.{bus_request, next_request, requests_of};

/// The number of bus request lines, BR0* to BR3*.
pub(crate) const LEVELS: u8 = 4;

/// The greatest level.
pub(crate) const HIGHEST: u8 = 3;

/// A request for the bus: a slot drives the bus request line of a level.
#[derive(Clone, Copy, Debug)]
pub(crate) struct Request {
    pub(crate) level: u8,
    pub(crate) slot: u16,
}

/// The level of a slot's pending request, if any.
pub(crate) fn level_of(levels: &[Option<u8>], slot: u16) -> Option<u8>
    ensures { result ≡ option_and_then (λ level. level) (slice_get levels.now slot) }
{
    match levels.get(usize::from(slot)) {
        Some(level) => *level,
        None => None,
    }
}

/// Returns `true` only if two lists of levels are equal.
pub(crate) fn are_same_levels(a: &[Option<u8>], b: &[Option<u8>]) -> bool
    ensures { IsTrue result → a.now ≡ b.now }
{
    if a.len() != b.len() {
        return false;
    }
    for i in 0..a.len() {
        if a[i] != b[i] {
            return false;
        }
    }
    true
}

/// The request that the bus is granted to next, where `levels` has the level of each slot's pending
/// request and the grant begins at the level `first`: the lowest slot on the first level with a
/// request.
pub(crate) fn next_request(levels: &[Option<u8>], first: u8) -> Option<Request>
    requires few { length levels.now ≤ 65536 }
    requires in_range { (slot level : ℕ) → slice_get levels.now slot ≡ Some (Some level) → level < 4 }
    requires first { first < 4 }
    ensures next { option_map (λ next. bus_request next.level next.slot) result
        ≡ next_request (level_order first) (requests_of levels.now) }
    ensures within { IfSome result (λ next. next.slot < length levels.now) }
    ensures level { IfSome result (λ next. next.level < 4) }
    ensures none { result ≡ None → (slot level : ℕ) → slice_get levels.now slot ≢ Some (Some level) }
{
    if !has_request(levels) {
        return None;
    }
    if let Some(next) = greatest_request(levels, 0, first + 1) {
        return Some(next);
    }
    greatest_request(levels, first + 1, LEVELS)
}

/// Whether any slot has a pending request. It examines every place, so that the compiler can
/// compare several at a time: most often no request is pending, and then no level is searched.
fn has_request(levels: &[Option<u8>]) -> bool
    ensures { IsFalse result → (slot level : ℕ) → slice_get levels.now slot ≢ Some (Some level) }
{
    let mut any = false;
    for pending in levels {
        any |= pending.is_some();
    }
    any
}

/// The request of the lowest slot on the greatest level, from `from` to below `end`, with a
/// request.
fn greatest_request(levels: &[Option<u8>], from: u8, end: u8) -> Option<Request>
    requires few { length levels.now ≤ 65536 }
    ensures { MatchOption result
        (HasNone levels.now from end)
        (λ next. IsGreatest levels.now from end next.slot next.level) }
{
    for level in (from..end).rev() {
        if let Some(slot) = lowest_slot(levels, level) {
            return Some(Request { level, slot });
        }
    }
    None
}

/// The lowest slot with a request on a level.
fn lowest_slot(levels: &[Option<u8>], level: u8) -> Option<u16>
    requires few { length levels.now ≤ 65536 }
    ensures { MatchOption result
        ((slot : ℕ) → slice_get levels.now slot ≢ Some (Some level))
        (λ lowest. (slice_get levels.now lowest ≡ Some (Some level))
        × ((slot : ℕ) → slot < lowest → slice_get levels.now slot ≢ Some (Some level))) }
{
    for (slot, pending) in levels.iter().enumerate() {
        if *pending == Some(level) {
            return Some(slot as u16);
        }
    }
    None
}
