//! Cells: the heading, the bars, the lines of the bus, and the local ports.
ghost use Rattle.std.specs.Prelude.{◌≡◌, ◌<◌, ◌≤◌, IfOk};
ghost use Rattle.vme_trace.specs.Variables.{board_of, code_of};
ghost use Rattle.vme_page.specs.Cells.{number_or, modifier_of, bus_row, bus_rows, bar_rows};

use crate::diagram::access::print_port;
use crate::diagram::acting::Acts;
use crate::diagram::layout::{Bar, LocalPort};
use crate::diagram::levels::Levels;
use crate::diagram::places::{LINE, Places};
use crate::diagram::point::{Point, WIDTH, first_value, number_of};
use crate::diagram::row::{Row, Style, print_rows};
use crate::diagram::shape::{print_dots, print_numbered};
use crate::diagram::strip::{CELL_WIDTH, NAMES_WIDTH};
use crate::diagram::window::Window;
use std::alloc::AllocError;
use vme_trace::{Change, Value, Variable};

/// A cell of an event.
#[derive(Clone, Copy, Debug, PartialEq, Eq)]
pub(crate) struct Cell {
    /// The edges that it shows.
    pub(crate) window: Window,
    /// Its column in the strip.
    pub(crate) column: u8,
    /// The values of the lines before it.
    pub(crate) levels: Levels,
}

/// Appends a cell whose heading has this text, and whose event has these changes. The bars are those
/// before it.
pub(crate) fn print_cell(
    text: &mut Vec<u8>,
    points: &mut Vec<Point>,
    cell: Cell,
    heading: &[u8],
    changes: &[Change],
    bars: &[Bar],
    acts: &[Acts],
    ports: &[LocalPort],
    places: Places,
) -> Result<(), AllocError> {
    begin_cell(text, cell.column, places.height)?;
    text.extend_from_slice(heading)?;
    print_bars(text, points, cell.window, changes, bars, acts, places.bars)?;
    print_bus(text, points, cell, changes, places.bus)?;
    print_local(text, points, cell.window, changes, ports, places.local)?;
    text.extend_from_slice(b"</g>\n")
}

/// Appends the begin of a cell: its place, and its left side.
fn begin_cell(text: &mut Vec<u8>, column: u8, height: u16) -> Result<(), AllocError> {
    let x = NAMES_WIDTH + CELL_WIDTH * u32::from(column);
    print_numbered(text, b"<g transform='translate(", x)?;
    print_numbered(text, b" 0)'><path class='g' d='M0 0V", u32::from(height))?;
    text.extend_from_slice(b"'/>")
}

/// Appends the bars of the slots that act in the strip.
fn print_bars(
    text: &mut Vec<u8>,
    points: &mut Vec<Point>,
    window: Window,
    changes: &[Change],
    bars: &[Bar],
    acts: &[Acts],
    top: u16,
) -> Result<(), AllocError> {
    let mut y = top;
    for i in 0..bars.len() {
        if acts.get(i) == Some(&Acts::Drives) {
            print_bar(text, points, window, changes, bars[i], y)?;
            y = y.saturating_add(LINE);
        }
    }
    Ok(())
}

/// Appends a bar, over dots.
fn print_bar(
    text: &mut Vec<u8>,
    points: &mut Vec<Point>,
    window: Window,
    changes: &[Change],
    bar: Bar,
    y: u16,
) -> Result<(), AllocError> {
    print_dots(text, 0, WIDTH, y)?;
    print_rows(text, points, window, changes, &bar_rows(bar, y))
}

/// Returns the rows of a bar: a frame while the slot requests the bus, and over it a solid bar while
/// it holds the bus.
#[tactic(auto, unfolding(crate::specs::Cells::bar_rows))]
fn bar_rows(bar: Bar, y: u16) -> [Row; 2]
    ensures { result ≡ bar_rows bar y }
{
    let request = Row {
        code: bar.request_code,
        value: bar.request,
        style: Style::Request { level: bar.level },
        y,
    };
    let busy = Row {
        code: bar.busy_code,
        value: bar.busy,
        style: Style::Busy,
        y,
    };
    [request, busy]
}

/// Appends the access of a local port, if the cell shows one.
fn print_local(
    text: &mut Vec<u8>,
    points: &mut Vec<Point>,
    window: Window,
    changes: &[Change],
    ports: &[LocalPort],
    top: Option<u16>,
) -> Result<(), AllocError> {
    let Some(y) = top else {
        return Ok(());
    };
    for port in ports {
        print_port(text, points, window, changes, *port, y)?;
    }
    Ok(())
}

/// Appends the lines of the bus.
fn print_bus(
    text: &mut Vec<u8>,
    points: &mut Vec<Point>,
    cell: Cell,
    changes: &[Change],
    top: u16,
) -> Result<(), AllocError> {
    let y = if 1000 < top { 1000 } else { top };
    let modifier = modifier_of(points, cell, changes)?;
    let rows = bus_rows(cell.column == 0, cell.levels, modifier, y);
    print_rows(text, points, cell.window, changes, &rows)
}

/// Returns the lines of the bus, from the top.
#[tactic(auto, unfolding(crate::specs::Cells::bus_rows))]
fn bus_rows(leads: bool, levels: Levels, modifier: u8, y: u16) -> [Row; 10]
    requires { y ≤ 1000 }
    ensures { result ≡ bus_rows leads levels modifier y }
{
    let address = Style::Address { leads, modifier };
    [
        bus_row(Variable::AddressLines, levels.address_lines, address, y),
        bus_row(
            Variable::UpperDataLines,
            levels.upper_data_lines,
            Style::UpperData,
            y,
        ),
        bus_row(
            Variable::WriteLine,
            levels.write_line,
            Style::Level,
            y + LINE,
        ),
        bus_row(
            Variable::LongWord,
            levels.long_word,
            Style::Level,
            y + 2 * LINE,
        ),
        bus_row(
            Variable::AddressStrobe,
            levels.address_strobe,
            Style::Level,
            y + 3 * LINE,
        ),
        bus_row(
            Variable::FirstStrobe,
            levels.first_strobe,
            Style::Level,
            y + 4 * LINE,
        ),
        bus_row(
            Variable::SecondStrobe,
            levels.second_strobe,
            Style::Level,
            y + 5 * LINE,
        ),
        bus_row(
            Variable::DataLines,
            levels.data_lines,
            Style::Data,
            y + 6 * LINE,
        ),
        bus_row(
            Variable::Acknowledge,
            levels.acknowledge,
            Style::Level,
            y + 7 * LINE,
        ),
        bus_row(
            Variable::BusError,
            levels.bus_error,
            Style::Error,
            y + 8 * LINE,
        ),
    ]
}

/// Returns a line of the bus.
fn bus_row(variable: Variable, value: Value, style: Style, y: u16) -> Row
    requires { board_of variable < 26 }
    ensures { result ≡ bus_row variable value style y }
{
    Row {
        code: variable.code(),
        value,
        style,
        y,
    }
}

/// Returns the address modifier that a cell names: that of the transfer that begins in it, or else
/// the one before.
fn modifier_of(points: &mut Vec<Point>, cell: Cell, changes: &[Change]) -> Result<u8, AllocError>
    ensures { IfOk result (λ modifier. modifier ≡ modifier_of cell changes.now) }
{
    let code = Variable::AddressModifier.code();
    let first = first_value(points, cell.window, code, changes)?;
    Ok((number_or(cell.levels.address_modifier, first) % 256) as u8)
}

/// Returns the number that a line changes to, or else the one before.
fn number_or(before: Value, first: Option<Value>) -> u32
    ensures { result ≡ number_or before first }
{
    match first {
        Some(Value::Number { number, .. }) => number,
        _ => number_of(before),
    }
}
