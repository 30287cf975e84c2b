//! The variables of the dump, and their codes.
ghost use Rattle.std.specs.Prelude.{◌≡◌, ◌<◌};
ghost use Rattle.vme_trace.specs.Variables.{bus_code, slot_code, board_of, code_of};

use crate::dump::change::Code;

/// A variable of the dump: one of the bus, or one of the slot of the board with an index.
#[derive(Clone, Copy, Debug, PartialEq, Eq)]
pub enum Variable {
    /// The number of the event.
    EventNumber,
    /// The slot whose processor has the event.
    EventSlot,
    /// The slot that holds the bus.
    Holder,
    /// BBSY*.
    BusBusy,
    /// BR3* to BR0*, by the level.
    BusRequest(u8),
    /// AS*.
    AddressStrobe,
    /// AM5 to AM0.
    AddressModifier,
    /// A31 to A01.
    AddressLines,
    /// LWORD*.
    LongWord,
    /// WRITE*.
    WriteLine,
    /// DS1*.
    FirstStrobe,
    /// DS0*.
    SecondStrobe,
    /// D31 to D00.
    DataLines,
    /// D63 to D32, the upper half of eight-byte data.
    UpperDataLines,
    /// DTACK*.
    Acknowledge,
    /// BERR*.
    BusError,
    /// The number of the slot's current line.
    CurrentLine(usize),
    /// The bus request line, as the slot drives it.
    RequestLine(usize),
    /// BG3IN* to BG0IN* of the slot, on the daisy chain.
    GrantLines(usize),
    /// BBSY*, as the slot drives it.
    BusyLine(usize),
    /// Whether the board of the slot is selected.
    Selected(usize),
    /// The select line of the local port.
    PortSelect(usize),
    /// The write line of the local port.
    PortWrite(usize),
    /// The offset at the local port.
    PortOffset(usize),
    /// The data of the local port.
    PortData(usize),
    /// Whether the local port replies that an access is done.
    PortDone(usize),
    /// Whether the local port replies with a bus error.
    PortError(usize),
}

impl Variable {
    /// Returns its code.
    pub fn code(self) -> Code
        requires { board_of self < 26 }
        ensures { result ≡ code_of self }
    {
        match self {
            Variable::EventNumber => bus_code(b'A'),
            Variable::EventSlot => bus_code(b'B'),
            Variable::Holder => bus_code(b'C'),
            Variable::BusBusy => bus_code(b'D'),
            Variable::BusRequest(level) => bus_code(b'H'.saturating_sub(level)),
            Variable::AddressStrobe => bus_code(b'I'),
            Variable::AddressModifier => bus_code(b'J'),
            Variable::AddressLines => bus_code(b'K'),
            Variable::LongWord => bus_code(b'L'),
            Variable::WriteLine => bus_code(b'M'),
            Variable::FirstStrobe => bus_code(b'N'),
            Variable::SecondStrobe => bus_code(b'O'),
            Variable::DataLines => bus_code(b'P'),
            Variable::UpperDataLines => bus_code(b'Q'),
            Variable::Acknowledge => bus_code(b'R'),
            Variable::BusError => bus_code(b'S'),
            Variable::CurrentLine(board) => slot_code(board, b'a'),
            Variable::RequestLine(board) => slot_code(board, b'b'),
            Variable::GrantLines(board) => slot_code(board, b'c'),
            Variable::BusyLine(board) => slot_code(board, b'd'),
            Variable::Selected(board) => slot_code(board, b'e'),
            Variable::PortSelect(board) => slot_code(board, b'f'),
            Variable::PortWrite(board) => slot_code(board, b'g'),
            Variable::PortOffset(board) => slot_code(board, b'h'),
            Variable::PortData(board) => slot_code(board, b'i'),
            Variable::PortDone(board) => slot_code(board, b'j'),
            Variable::PortError(board) => slot_code(board, b'k'),
        }
    }
}

/// Returns the code of a variable of the bus.
fn bus_code(letter: u8) -> Code
    ensures { result ≡ bus_code letter }
{
    Code {
        first: letter,
        second: None,
    }
}

/// Returns the code of a variable of a board's slot: `a` for the first board, and a letter for the
/// variable.
fn slot_code(board: usize, letter: u8) -> Code
    requires { board < 26 }
    ensures { result ≡ slot_code board letter }
{
    Code {
        first: b'a' + board as u8,
        second: Some(letter),
    }
}
