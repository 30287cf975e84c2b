//! The values of the lines of the bus before a cell.
ghost use Rattle.std.specs.Prelude.{◌≡◌};
ghost use Rattle.vme_page.specs.Levels.{idle, levels_past};

use crate::diagram::point::value_past;
use crate::diagram::window::Window;
use vme_trace::{Change, Value, Variable};

/// The values of the lines of the bus before a cell.
#[derive(Clone, Copy, Debug, PartialEq, Eq)]
pub(crate) struct Levels {
    /// AS*.
    pub(crate) address_strobe: Value,
    /// AM5 to AM0.
    pub(crate) address_modifier: Value,
    /// A31 to A01.
    pub(crate) address_lines: Value,
    /// LWORD*.
    pub(crate) long_word: Value,
    /// WRITE*.
    pub(crate) write_line: Value,
    /// DS1*.
    pub(crate) first_strobe: Value,
    /// DS0*.
    pub(crate) second_strobe: Value,
    /// D31 to D00.
    pub(crate) data_lines: Value,
    /// D63 to D32, the upper half of eight-byte data.
    pub(crate) upper_data_lines: Value,
    /// DTACK*.
    pub(crate) acknowledge: Value,
    /// BERR*.
    pub(crate) bus_error: Value,
}

impl Levels {
    /// Returns the values before the first event.
    pub(crate) fn idle() -> Levels
        ensures { result ≡ idle }
    {
        Levels {
            address_strobe: Value::High,
            address_modifier: Value::Released,
            address_lines: Value::Released,
            long_word: Value::Free,
            write_line: Value::Free,
            first_strobe: Value::High,
            second_strobe: Value::High,
            data_lines: Value::no_lanes(),
            upper_data_lines: Value::no_lanes(),
            acknowledge: Value::High,
            bus_error: Value::High,
        }
    }

    /// Returns the values after a cell.
    #[tactic(auto, unfolding(crate::specs::Levels::levels_over))]
    pub(crate) fn past(self, window: Window, changes: &[Change]) -> Levels
        ensures { result ≡ levels_past window changes.now self }
    {
        Levels {
            address_strobe: value_past(
                window,
                Variable::AddressStrobe.code(),
                self.address_strobe,
                changes,
            ),
            address_modifier: value_past(
                window,
                Variable::AddressModifier.code(),
                self.address_modifier,
                changes,
            ),
            address_lines: value_past(
                window,
                Variable::AddressLines.code(),
                self.address_lines,
                changes,
            ),
            long_word: value_past(window, Variable::LongWord.code(), self.long_word, changes),
            write_line: value_past(window, Variable::WriteLine.code(), self.write_line, changes),
            first_strobe: value_past(
                window,
                Variable::FirstStrobe.code(),
                self.first_strobe,
                changes,
            ),
            second_strobe: value_past(
                window,
                Variable::SecondStrobe.code(),
                self.second_strobe,
                changes,
            ),
            data_lines: value_past(window, Variable::DataLines.code(), self.data_lines, changes),
            upper_data_lines: value_past(
                window,
                Variable::UpperDataLines.code(),
                self.upper_data_lines,
                changes,
            ),
            acknowledge: value_past(
                window,
                Variable::Acknowledge.code(),
                self.acknowledge,
                changes,
            ),
            bus_error: value_past(window, Variable::BusError.code(), self.bus_error, changes),
        }
    }
}
