//! The control lines of a bus.
ghost use Rattle.std.specs.Prelude.{◌≡◌};
ghost use Rattle.vme_vcd_reader.specs.ControlLines.{control_name, first_marked};

/// The control lines of the bus, as bits of a set of those that are undefined.
pub(crate) const ADDRESS_STROBE: u32 = 1;

pub(crate) const UPPER_STROBE: u32 = 2;

pub(crate) const LOWER_STROBE: u32 = 4;

pub(crate) const ACKNOWLEDGE: u32 = 8;

pub(crate) const BUS_ERROR: u32 = 16;

pub(crate) const INTERRUPT_ACKNOWLEDGE: u32 = 32;

pub(crate) const BUSY: u32 = 64;

/// A control line of the bus, or of a slot.
#[derive(Clone, Copy, Debug, PartialEq, Eq)]
pub enum ControlLine {
    /// AS*.
    AddressStrobe,
    /// DS0*.
    LowerStrobe,
    /// DS1*.
    UpperStrobe,
    /// DTACK*.
    Acknowledge,
    /// BERR*.
    BusError,
    /// IACK*.
    InterruptAcknowledge,
    /// BBSY*.
    Busy,
    /// BBSY* as a slot drives it.
    SlotBusy,
    /// A bus request of a slot.
    SlotRequest,
    /// A bus grant of a slot.
    SlotGrant,
}

impl ControlLine {
    /// Returns what a program reports of the line.
    pub fn name(self) -> &'static str
        ensures { result.now ≡ control_name self }
    {
        match self {
            ControlLine::AddressStrobe => "AS*",
            ControlLine::UpperStrobe => "DS1*",
            ControlLine::LowerStrobe => "DS0*",
            ControlLine::Acknowledge => "DTACK*",
            ControlLine::BusError => "BERR*",
            ControlLine::InterruptAcknowledge => "IACK*",
            ControlLine::Busy => "BBSY*",
            ControlLine::SlotBusy => "BBSY* of a slot",
            ControlLine::SlotRequest => "BRn* of a slot",
            ControlLine::SlotGrant => "BGnIN* of a slot",
        }
    }
}

/// Returns the first of some lines with a mark.
pub(crate) fn first_marked(lines: &[(ControlLine, u32)]) -> Option<ControlLine>
    ensures { result ≡ first_marked lines.now }
{
    for (line, marks) in lines {
        if *marks != 0 {
            return Some(*line);
        }
    }
    None
}
