ghost use Rattle.std.specs.Prelude.{◌≡◌, ◌+◌, ◌-◌, ◌^◌, ◌<◌, MatchOption};

/// Returns the count plus one, or `None` exactly at the last count, 2^64 - 1.
pub fn next_count(count: u64) -> Option<u64>
    ensures { MatchOption result (count ≡ 2 ^ 64 - 1) (λ n. (count < 2 ^ 64 - 1) × (n ≡ count + 1)) }
{
    count.checked_add(1)
}
