//! What was seen of a trace.
ghost use Rattle.std.specs.Prelude.{◌≡◌};
ghost use Rattle.vme_judge.specs.Seen.{one_more};

/// What was seen of a trace. Counts stop at their greatest number.
#[derive(Clone, Copy, Debug, PartialEq, Eq)]
pub(crate) struct Counts {
    pub(crate) transfers: u64,
    pub(crate) data: u64,
    pub(crate) tenures: u64,
    pub(crate) accesses: u64,
    pub(crate) samples: u64,
    /// The samples before the first one at rest.
    pub(crate) skipped: u64,
}

impl Counts {
    /// Nothing.
    pub(crate) const NONE: Counts = Counts {
        transfers: 0,
        data: 0,
        tenures: 0,
        accesses: 0,
        samples: 0,
        skipped: 0,
    };
}

/// Adds one to a count.
pub(crate) fn count(number: &mut u64)
    ensures { number.new ≡ one_more number.old }
{
    *number = number.saturating_add(1);
}
