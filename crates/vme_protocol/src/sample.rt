ghost use Rattle.std.specs.Prelude.{◌≡◌, true};
ghost use Rattle.vme_protocol.specs.Samples.{is_at_rest, has_strobe, has_answer, strobe_falls, strobe_rises, answer_falls, answer_rises, address_strobe_falls, address_strobe_rises};

/// The levels of the lines of the bus at one time. `true` is high.
#[derive(Clone, Copy, Debug, PartialEq, Eq)]
pub struct Sample {
    /// The time, in the trace's unit.
    pub time: u64,
    /// AS*
    pub address_strobe: bool,
    /// DS1*
    pub ds1: bool,
    /// DS0*
    pub ds0: bool,
    /// DTACK*
    pub dtack: bool,
    /// BERR*
    pub berr: bool,
    /// IACK*; high if the trace has none.
    pub iack: bool,
    /// BBSY*; if the trace has none, high where no slot drives it.
    pub busy: bool,
    /// Whether a control line is undefined: one of those above, or of the slots' lines below.
    pub undefined: bool,
    /// WRITE*
    pub write: bool,
    /// Whether WRITE* is undefined.
    pub write_undefined: bool,
    /// AM5 to AM0
    pub am: u8,
    /// Whether a line of AM is undefined.
    pub am_undefined: bool,
    /// A31 to A01 and LWORD*, which carry D63 to D32 in eight-byte data, and D31 to D00. A line that
    /// is undefined is zero.
    pub lines: u64,
    /// A bit for each of `lines` that is undefined.
    pub lines_undefined: u64,
    /// A bit for each slot that drives BBSY* low: the lowest for slot 1.
    pub drivers: u32,
    /// A bit for each slot that drives one of BR3* to BR0* low.
    pub requests: u32,
    /// A bit for each slot of which one of BG3IN* to BG0IN* is low.
    pub grants: u32,
}

impl Sample {
    /// Returns a sample at rest: no line is driven.
    pub fn rest() -> Sample
        ensures { is_at_rest result ≡ true }
    {
        Sample {
            time: 0,
            address_strobe: true,
            ds1: true,
            ds0: true,
            dtack: true,
            berr: true,
            iack: true,
            busy: true,
            undefined: false,
            write: true,
            write_undefined: true,
            am: 0,
            am_undefined: true,
            lines: 0,
            lines_undefined: u64::MAX,
            drivers: 0,
            requests: 0,
            grants: 0,
        }
    }

    /// Returns whether AS*, the data strobes and the answers are high, and defined.
    pub fn is_at_rest(&self) -> bool
        ensures { result ≡ is_at_rest self.now }
    {
        self.address_strobe && self.ds1 && self.ds0 && self.dtack && self.berr && !self.undefined
    }

    /// Returns whether a data strobe is low.
    pub fn has_strobe(&self) -> bool
        ensures { result ≡ has_strobe self.now }
    {
        !self.ds1 || !self.ds0
    }

    /// Returns whether DTACK* or BERR* is low.
    pub fn has_answer(&self) -> bool
        ensures { result ≡ has_answer self.now }
    {
        !self.dtack || !self.berr
    }
}

/// Whether AS* falls.
pub(crate) fn address_strobe_falls(before: &Sample, after: &Sample) -> bool
    ensures { result ≡ address_strobe_falls before.now after.now }
{
    before.address_strobe && !after.address_strobe
}

/// Whether AS* rises.
pub(crate) fn address_strobe_rises(before: &Sample, after: &Sample) -> bool
    ensures { result ≡ address_strobe_rises before.now after.now }
{
    !before.address_strobe && after.address_strobe
}

/// Whether a data strobe falls.
pub(crate) fn strobe_falls(before: &Sample, after: &Sample) -> bool
    ensures { result ≡ strobe_falls before.now after.now }
{
    before.ds1 && !after.ds1 || before.ds0 && !after.ds0
}

/// Whether a data strobe rises.
pub(crate) fn strobe_rises(before: &Sample, after: &Sample) -> bool
    ensures { result ≡ strobe_rises before.now after.now }
{
    !before.ds1 && after.ds1 || !before.ds0 && after.ds0
}

/// Whether an answer falls.
pub(crate) fn answer_falls(before: &Sample, after: &Sample) -> bool
    ensures { result ≡ answer_falls before.now after.now }
{
    before.dtack && !after.dtack || before.berr && !after.berr
}

/// Whether an answer rises.
pub(crate) fn answer_rises(before: &Sample, after: &Sample) -> bool
    ensures { result ≡ answer_rises before.now after.now }
{
    !before.dtack && after.dtack || !before.berr && after.berr
}
