ghost use Rattle.std.specs.Prelude.{◌≡◌};
ghost use Rattle.vme_protocol.specs.Scopes.{is_strict, is_ignored};

/// Whose rules are judged.
#[derive(Clone, Copy, Debug, PartialEq, Eq)]
pub enum Mode {
    /// Those of the bus: a master may take the address away, and raise AS*, after the answer.
    Bus,
    /// Those of the model too: no pipelined address, no cycle of an address alone, and data that
    /// stand under the answer.
    Model,
}

/// Which rules are judged: those whose lines the trace has.
#[derive(Clone, Copy, Debug, PartialEq, Eq)]
pub struct Scope {
    /// Whose rules are judged.
    pub mode: Mode,
    /// Whether the trace has BBSY*, the line of the bus or those of the slots.
    pub busy: bool,
    /// Whether it has the BBSY* that each slot drives.
    pub drivers: bool,
    /// Whether it has the BBSY* of the bus.
    pub busy_line: bool,
    /// Whether it has the BBSY*, BRn* and BGnIN* of each slot.
    pub grants: bool,
    /// A bit for each address modifier code whose cycles are not judged.
    pub ignored: u64,
    /// The greatest time from a strobe to its answer.
    pub timeout: u64,
}

impl Scope {
    /// Returns whether the rules of the model are judged too.
    pub fn is_strict(&self) -> bool
        ensures { result ≡ is_strict self.now }
    {
        match self.mode {
            Mode::Bus => false,
            Mode::Model => true,
        }
    }

    /// Returns whether cycles with this code are not judged.
    #[tactic(auto, unfolding(crate::specs::Scopes::is_ignored))]
    pub fn is_ignored(&self, am: u8) -> bool
        ensures { result ≡ is_ignored self.now am }
    {
        (self.ignored >> (am % 64)) % 2 == 1
    }
}
