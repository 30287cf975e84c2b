//! The sample at which a trace is illegal.
ghost use Rattle.std.specs.Prelude.{◌≡◌};
ghost use Rattle.vme_judge.specs.Messages.{broken_rule};

use crate::transfer::OpenTransfer;
use vme_answers::Wrong;
use vme_protocol::{Datum, Local, Rule, Sample};
use vme_vcd_reader::ControlLine;

/// What a board's memory was asked for.
#[derive(Clone, Copy, Debug)]
pub(crate) enum Asked {
    Datum(Datum),
    Access(Local),
}

/// What is wrong at a sample.
#[derive(Clone, Copy, Debug)]
pub(crate) enum Broken {
    /// The sample may not follow the one before it.
    Order(Rule),
    /// A local port may not answer so.
    Port(Rule, u8),
    /// A board may not answer so; its slot, if it is one.
    Answer(Wrong, Asked, Option<u8>),
}

/// The sample at which a trace is illegal.
#[derive(Clone, Copy, Debug)]
pub(crate) struct Finding {
    /// The number of the line of the trace.
    pub(crate) line: u64,
    pub(crate) time: Option<u64>,
    pub(crate) broken: Broken,
    /// The samples before and at it; of a log none.
    pub(crate) samples: Option<(Sample, Sample)>,
    pub(crate) transfer: Option<OpenTransfer>,
    /// A control line that is undefined.
    pub(crate) undefined: Option<ControlLine>,
}

impl Finding {
    /// Returns the rule that is broken.
    pub(crate) fn rule(&self) -> Rule
        ensures { result ≡ broken_rule self.now.broken }
    {
        match self.broken {
            Broken::Order(rule) | Broken::Port(rule, _) => rule,
            Broken::Answer(wrong, _, _) => wrong.rule,
        }
    }
}
