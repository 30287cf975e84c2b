//! The values of the variables, one after another.
ghost use Rattle.std.specs.Prelude.{◌≡◌, ◌<◌, ◌≤◌, ◌++◌, flat_map, map, IfOk, OnOk};
ghost use Rattle.std.specs.List.{range_with_len};
ghost use Rattle.vme_trace.specs.Variables.{board_of};
ghost use Rattle.vme_trace.specs.Values.{valued, bus_values, slot_values, start_values, shown_after, shown_text};

use crate::dump::change::{Change, Code, Value};
use crate::dump::edge::{BEGIN, EDGES};
use crate::dump::latest::value_over;
use crate::dump::print::print_value;
use crate::dump::variable::Variable;
use std::alloc::{AllocError, Global};

/// A variable with a value.
#[derive(Clone, Copy, Debug, PartialEq, Eq)]
pub(crate) struct Shown {
    /// The variable.
    pub(crate) code: Code,
    /// Its value.
    pub(crate) value: Value,
}

/// Returns the values of the variables before the first event, on a backplane with so many boards.
#[tactic(auto, unfolding(crate::specs::Values::start_values))]
pub(crate) fn start_values(alloc: Global, boards: usize) -> Result<Vec<Shown>, AllocError>
    requires { boards ≤ 26 }
    ensures { IfOk result (λ values. values.items ≡ start_values boards) }
{
    let mut values = Vec::new(alloc);
    values.extend_from_slice(&bus_values())?;
    push_slots(&mut values, boards)?;
    Ok(values)
}

/// Appends the values of the variables of the slots of so many boards.
fn push_slots(values: &mut Vec<Shown>, boards: usize) -> Result<(), AllocError>
    requires { boards ≤ 26 }
    ensures { OnOk result
        (values.new.items ≡ values.old.items ++ flat_map slot_values (range_with_len 0 boards)) }
{
    for board in 0..boards {
        values.extend_from_slice(&slot_values(board))?;
    }
    Ok(())
}

impl Shown {
    /// Returns it after an event with these changes.
    fn after(self, changes: &[Change]) -> Shown
        ensures { result ≡ shown_after changes.now self }
    {
        Shown {
            value: value_over(self.code, changes, BEGIN, EDGES, self.value),
            ..self
        }
    }
}

/// Records the changes of an event in values.
pub(crate) fn record_values(values: &mut [Shown], changes: &[Change])
    ensures { values.new ≡ map (shown_after changes.now) values.old }
{
    for one in values.iter_mut() {
        *one = one.after(changes);
    }
}

/// Appends the lines of values.
pub(crate) fn print_values(text: &mut Vec<u8>, values: &[Shown]) -> Result<(), AllocError>
    ensures { OnOk result (text.new.items ≡ text.old.items ++ flat_map shown_text values.now) }
{
    for one in values {
        print_value(text, one.code, one.value)?;
    }
    Ok(())
}

/// Returns a variable with a value.
fn valued(variable: Variable, value: Value) -> Shown
    requires { board_of variable < 26 }
    ensures { result ≡ valued variable value }
{
    Shown {
        code: variable.code(),
        value,
    }
}

/// Returns the values of the variables of the bus before the first event.
#[tactic(auto, unfolding(crate::specs::Values::bus_values))]
fn bus_values() -> [Shown; 19]
    ensures { result ≡ bus_values }
{
    [
        valued(
            Variable::EventNumber,
            Value::Number {
                width: 32,
                number: 0,
            },
        ),
        valued(Variable::EventSlot, Value::Released),
        valued(Variable::Holder, Value::Released),
        valued(Variable::BusBusy, Value::High),
        valued(Variable::BusRequest(3), Value::High),
        valued(Variable::BusRequest(2), Value::High),
        valued(Variable::BusRequest(1), Value::High),
        valued(Variable::BusRequest(0), Value::High),
        valued(Variable::AddressStrobe, Value::High),
        valued(Variable::AddressModifier, Value::Released),
        valued(Variable::AddressLines, Value::Released),
        valued(Variable::LongWord, Value::Free),
        valued(Variable::WriteLine, Value::Free),
        valued(Variable::FirstStrobe, Value::High),
        valued(Variable::SecondStrobe, Value::High),
        valued(Variable::DataLines, Value::no_lanes()),
        valued(Variable::UpperDataLines, Value::no_lanes()),
        valued(Variable::Acknowledge, Value::High),
        valued(Variable::BusError, Value::High),
    ]
}

/// Returns the values of the variables of a board's slot before the first event.
#[tactic(auto, unfolding(crate::specs::Values::slot_values))]
fn slot_values(board: usize) -> [Shown; 11]
    requires { board < 26 }
    ensures { result ≡ slot_values board }
{
    [
        valued(Variable::CurrentLine(board), Value::Released),
        valued(Variable::RequestLine(board), Value::High),
        valued(Variable::GrantLines(board), Value::Grants(15)),
        valued(Variable::BusyLine(board), Value::High),
        valued(Variable::Selected(board), Value::Low),
        valued(Variable::PortSelect(board), Value::Low),
        valued(Variable::PortWrite(board), Value::Free),
        valued(Variable::PortOffset(board), Value::Released),
        valued(Variable::PortData(board), Value::no_lanes()),
        valued(Variable::PortDone(board), Value::Low),
        valued(Variable::PortError(board), Value::Low),
    ]
}
