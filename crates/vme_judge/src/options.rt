//! What is asked of a judgement.
ghost use Rattle.std.specs.Prelude.{◌≡◌};
ghost use Rattle.vme_judge.specs.Openings.{has_answers};

/// Bytes of a board that may be written unseen: all, or those at offsets from `from` to before `to`.
#[derive(Clone, Copy, Debug, PartialEq, Eq)]
pub struct OpenBytes {
    pub slot: u8,
    pub range: Option<(u32, u32)>,
}

/// What is asked of a judgement.
#[derive(Clone, Copy, Debug)]
pub struct Options<'a> {
    /// The name of the trace in messages.
    pub name: &'a str,
    /// Only the order of samples is judged, not the answers of boards.
    pub protocol: bool,
    /// The rules of the model are judged too.
    pub strict: bool,
    /// Memory is zero at the start.
    pub zero: bool,
    /// Addresses of no board belong to boards that are not named.
    pub others: bool,
    /// The bus log of the trace is printed, and only the order of samples is judged.
    pub log: bool,
    /// The answer is printed as JSON.
    pub json: bool,
    /// Nothing is printed.
    pub quiet: bool,
    /// Codes whose cycles are not judged: a bit for each.
    pub ignored: u64,
    /// The greatest time from a strobe to its answer, if there is one.
    pub timeout: Option<u64>,
    /// The greatest number of findings; 0 is no limit.
    pub limit: u64,
    /// The bytes that may be written unseen.
    pub open: &'a [OpenBytes],
}

impl Options<'_> {
    /// Returns whether the answers of boards are judged.
    pub(crate) fn has_answers(&self) -> bool
        ensures { result ≡ has_answers self.now }
    {
        !self.protocol && !self.log
    }
}
