//! The lines that a variable may have.
ghost use Rattle.std.specs.Prelude.{◌≡◌};
ghost use Rattle.vme_line_map.specs.Groups.{lines, name, is_needed};

/// A group of lines. A slot is numbered from 1.
#[derive(Clone, Copy, Debug, PartialEq, Eq)]
pub enum Group {
    AddressStrobe,
    UpperStrobe,
    LowerStrobe,
    Acknowledge,
    BusError,
    InterruptAcknowledge,
    Busy,
    Write,
    LongWord,
    /// AM5 to AM0.
    Modifier,
    /// A31 to A01; a variable may have A00 too, which is not read.
    Address,
    /// D31 to D00.
    Data,
    /// What a slot drives on BBSY*.
    SlotBusy(u8),
    /// What a slot drives on BR3* to BR0*, or on one of them.
    SlotRequest(u8),
    /// BG3IN* to BG0IN* of a slot.
    SlotGrant(u8),
    /// The direction of a slot's local port: high in a write.
    PortWrite(u8),
    PortOffset(u8),
    PortData(u8),
    /// The answer of its memory: high.
    PortDone(u8),
}

impl Group {
    /// Returns the number of lines.
    pub fn lines(self) -> u8
        ensures { result ≡ lines self }
    {
        match self {
            Group::Modifier => 6,
            Group::Address | Group::Data | Group::PortOffset(_) | Group::PortData(_) => 32,
            Group::SlotRequest(_) | Group::SlotGrant(_) => 4,
            _ => 1,
        }
    }

    /// Returns what a message calls the lines.
    pub fn name(self) -> &'static str
        ensures { result.now ≡ name self }
    {
        match self {
            Group::AddressStrobe => "AS*",
            Group::UpperStrobe => "DS1*",
            Group::LowerStrobe => "DS0*",
            Group::Acknowledge => "DTACK*",
            Group::BusError => "BERR*",
            Group::InterruptAcknowledge => "IACK*",
            Group::Busy => "BBSY*",
            Group::Write => "WRITE*",
            Group::LongWord => "LWORD*",
            Group::Modifier => "AM5 to AM0",
            Group::Address => "A31 to A01",
            Group::Data => "D31 to D00",
            Group::SlotBusy(_) => "BBSY* of a slot",
            Group::SlotRequest(_) => "BRn* of a slot",
            Group::SlotGrant(_) => "BG3IN* to BG0IN* of a slot",
            Group::PortWrite(_) | Group::PortOffset(_) | Group::PortData(_) | Group::PortDone(_) =>
                "a local port",
        }
    }

    /// Returns whether no trace is judged without these lines.
    pub fn is_needed(self) -> bool
        ensures { result ≡ is_needed self }
    {
        matches!(
            self,
            Group::AddressStrobe
                | Group::UpperStrobe
                | Group::LowerStrobe
                | Group::Acknowledge
                | Group::Write
                | Group::LongWord
                | Group::Modifier
                | Group::Address
                | Group::Data
        )
    }
}
