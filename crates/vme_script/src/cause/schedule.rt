//! Faults of the arbiter and of the turns.
ghost use Rattle.std.specs.Prelude.{◌≡◌};
ghost use Rattle.vme_script.specs.Causes.{schedule_refusal};

use crate::fault::ConfigFault;

/// A fault of the arbiter or of the turns: C10 and C12.
#[derive(Clone, Copy, Debug, PartialEq, Eq)]
pub enum ScheduleCause {
    /// C10: no arbiter has this name.
    NoArbiter,
    /// C12: the tries are not from 1 to 1,000,000.
    TriesRange { tries: u32 },
    /// C12: the rounds are more than 1,000,000.
    RoundsRange { rounds: u32 },
    /// C12: there is no board in the slot of a pair, nor in that of `more` later pairs with the
    /// same slot. Bit i of `slots` is set where there is a board in slot i.
    NoBoardInSlot { slot: u32, more: usize, slots: u32 },
    /// C12: the turns up to this pair are more than 1,000,000. All pairs together have `turns`.
    TooManyTurns { turns: u64 },
}

impl ScheduleCause {
    /// Returns the refusal.
    pub fn refusal(self) -> ConfigFault
        ensures { result ≡ schedule_refusal self }
    {
        match self {
            ScheduleCause::NoArbiter => ConfigFault::BadWord,
            _ => ConfigFault::BadSchedule,
        }
    }
}

impl From<ScheduleCause> for ConfigFault {
    ghost from_gives = { λ cause fault. fault ≡ schedule_refusal cause };

    fn from(cause: ScheduleCause) -> ConfigFault {
        cause.refusal()
    }
}
