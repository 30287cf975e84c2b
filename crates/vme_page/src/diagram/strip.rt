//! A strip: cells side by side, and the names of their lines.

use crate::diagram::acting::{Acts, acts_of, print_waiting};
use crate::diagram::cell::{Cell, print_cell};
use crate::diagram::layout::{Bar, LocalPort, record_bars};
use crate::diagram::levels::Levels;
use crate::diagram::places::{LINE, Places};
use crate::diagram::point::{Point, changes_in};
use crate::diagram::shape::{begin_text, end_text, print_numbered, print_words};
use crate::diagram::window::Window;
use std::alloc::{AllocError, Global};
use vme_trace::Change;

/// The right end of the names.
const NAMES_END: u16 = 84;
/// The width of the names before the cells.
pub(crate) const NAMES_WIDTH: u32 = 92;
/// The width of a cell.
pub(crate) const CELL_WIDTH: u32 = 104;
/// The least width of a strip, which a list of all slots of a backplane needs.
const LEAST_WIDTH: u32 = 500;

/// A cell of the open strip.
#[derive(Drop)]
pub(crate) struct OpenCell {
    /// The edges that it shows.
    pub(crate) window: Window,
    /// The values of the lines of the bus before it.
    pub(crate) levels: Levels,
    /// The text of its heading.
    pub(crate) heading: Vec<u8>,
    /// The changes of its event.
    pub(crate) changes: Vec<Change>,
}

/// The cells of the open strip. They are printed together, since only at the end of a strip it is
/// known which slots act in it.
#[derive(Drop)]
pub(crate) struct Strip {
    alloc: Global,
    number: u32,
    bars: Vec<Bar>,
    cells: Vec<OpenCell>,
}

impl Strip {
    /// Returns a strip without cells.
    pub(crate) fn new(alloc: Global) -> Strip {
        Strip {
            alloc,
            number: 0,
            bars: Vec::new(alloc),
            cells: Vec::new(alloc),
        }
    }

    /// Begins a strip: the number of its first event, and the bars before it.
    pub(crate) fn begin(&mut self, number: u32, bars: &[Bar]) -> Result<(), AllocError> {
        self.number = number;
        self.cells.clear();
        self.bars.clear();
        self.bars.extend_from_slice(bars)
    }

    /// Appends a cell.
    pub(crate) fn push(
        &mut self,
        window: Window,
        levels: Levels,
        heading: &[u8],
        changes: &[Change],
    ) -> Result<(), AllocError> {
        let mut cell = OpenCell {
            window,
            levels,
            heading: Vec::new(self.alloc),
            changes: Vec::new(self.alloc),
        };
        cell.heading.extend_from_slice(heading)?;
        cell.changes.extend_from_slice(changes)?;
        self.cells.push(cell)?;
        Ok(())
    }

    /// Prints the strip, if it has a cell. It has none then.
    pub(crate) fn print(
        &mut self,
        text: &mut Vec<u8>,
        points: &mut Vec<Point>,
        ports: &[LocalPort],
    ) -> Result<(), AllocError> {
        if self.cells.is_empty() {
            return Ok(());
        }
        let acts = acts_of(self.alloc, self.bars.as_slice(), self.cells.as_slice())?;
        let places = places_of(acts.as_slice(), self.cells.as_slice(), ports);
        begin_strip(text, self.cells.len(), places.height, self.number)?;
        print_names(text, self.bars.as_slice(), acts.as_slice(), places)?;
        print_cells(
            text,
            points,
            self.cells.as_slice(),
            &mut self.bars,
            acts.as_slice(),
            ports,
            places,
        )?;
        self.cells.clear();
        text.extend_from_slice(b"</svg></div>\n")
    }
}

/// Returns where the lines of a strip are.
fn places_of(acts: &[Acts], cells: &[OpenCell], ports: &[LocalPort]) -> Places {
    let mut rows: u16 = 0;
    let mut waits = false;
    for act in acts {
        match act {
            Acts::Drives => rows = rows.saturating_add(1),
            Acts::Waits => waits = true,
            Acts::Rests => {}
        }
    }
    Places::of(rows, waits, has_access(cells, ports))
}

/// Returns whether a local port is accessed in some cells.
fn has_access(cells: &[OpenCell], ports: &[LocalPort]) -> bool {
    for port in ports {
        for cell in cells {
            if changes_in(Window::Whole, port.write, cell.changes.as_slice()) {
                return true;
            }
        }
    }
    false
}

/// Appends cells side by side. The bars are those before them, and then those after them.
fn print_cells(
    text: &mut Vec<u8>,
    points: &mut Vec<Point>,
    cells: &[OpenCell],
    bars: &mut Vec<Bar>,
    acts: &[Acts],
    ports: &[LocalPort],
    places: Places,
) -> Result<(), AllocError> {
    let mut column: u8 = 0;
    for cell in cells {
        let shown = Cell {
            window: cell.window,
            column,
            levels: cell.levels,
        };
        print_cell(
            text,
            points,
            shown,
            cell.heading.as_slice(),
            cell.changes.as_slice(),
            bars.as_slice(),
            acts,
            ports,
            places,
        )?;
        record_bars(bars, cell.window, cell.changes.as_slice());
        column = column.saturating_add(1);
    }
    Ok(())
}

/// Appends the begin of a strip.
fn begin_strip(
    text: &mut Vec<u8>,
    cells: usize,
    height: u16,
    number: u32,
) -> Result<(), AllocError> {
    let width = width_of(cells);
    print_numbered(text, b"<div class='f'><svg viewBox='0 0 ", width)?;
    print_numbered(text, b" ", u32::from(height))?;
    print_numbered(text, b"' width='", width)?;
    print_numbered(text, b"' height='", u32::from(height))?;
    print_numbered(text, b"' role='img' aria-label='events from ", number)?;
    text.extend_from_slice(b"'>\n")
}

/// Returns the width of a strip with so many cells.
fn width_of(cells: usize) -> u32 {
    let mut width = NAMES_WIDTH;
    for _cell in 0..cells {
        width = width.saturating_add(CELL_WIDTH);
    }
    width.max(LEAST_WIDTH)
}

/// Appends the names of the lines of a strip.
fn print_names(
    text: &mut Vec<u8>,
    bars: &[Bar],
    acts: &[Acts],
    places: Places,
) -> Result<(), AllocError> {
    print_name(text, 14, b"event")?;
    print_name(text, 29, b"slot:line")?;
    print_bar_names(text, bars, acts, places)?;
    print_waiting_names(text, bars, acts, places)?;
    print_address_names(text, u32::from(places.bus))?;
    print_data_names(text, u32::from(places.bus))?;
    print_local_name(text, places)?;
    text.extend_from_slice(b"\n")
}

/// Appends the name of a line.
fn print_name(text: &mut Vec<u8>, y: u32, name: &[u8]) -> Result<(), AllocError> {
    print_words(text, b"n", NAMES_END, y, name)
}

/// Appends the names of the bars.
fn print_bar_names(
    text: &mut Vec<u8>,
    bars: &[Bar],
    acts: &[Acts],
    places: Places,
) -> Result<(), AllocError> {
    let mut y = places.bars;
    for i in 0..bars.len() {
        if acts.get(i) == Some(&Acts::Drives) {
            print_bar_name(text, bars[i].slot, y)?;
            y = y.saturating_add(LINE);
        }
    }
    Ok(())
}

/// Appends the name of the bar of a slot, whose top is `y`.
fn print_bar_name(text: &mut Vec<u8>, slot: u16, y: u16) -> Result<(), AllocError> {
    begin_text(text, b"n", NAMES_END, u32::from(y) + 11)?;
    print_numbered(text, b"slot ", u32::from(slot))?;
    end_text(text)
}

/// Appends the slots that wait during the whole strip, if there are some.
fn print_waiting_names(
    text: &mut Vec<u8>,
    bars: &[Bar],
    acts: &[Acts],
    places: Places,
) -> Result<(), AllocError> {
    let Some(y) = places.waiting else {
        return Ok(());
    };
    print_name(text, u32::from(y) + 11, b"waiting")?;
    print_waiting(text, NAMES_WIDTH as u16 + 6, u32::from(y) + 11, bars, acts)
}

/// Appends the names of the lines of the address.
fn print_address_names(text: &mut Vec<u8>, y: u32) -> Result<(), AllocError> {
    print_name(text, y.saturating_add(11), b"AM A31-A01")?;
    print_name(text, y.saturating_add(35), b"WRITE*")?;
    print_name(text, y.saturating_add(59), b"LWORD*")?;
    print_name(text, y.saturating_add(83), b"AS*")
}

/// Appends the names of the lines of the data.
fn print_data_names(text: &mut Vec<u8>, y: u32) -> Result<(), AllocError> {
    print_name(text, y.saturating_add(107), b"DS1*")?;
    print_name(text, y.saturating_add(131), b"DS0*")?;
    print_name(text, y.saturating_add(155), b"D31-D00")?;
    print_name(text, y.saturating_add(179), b"DTACK*")?;
    print_name(text, y.saturating_add(203), b"BERR*")
}

/// Appends the name of the local accesses, if there are some.
fn print_local_name(text: &mut Vec<u8>, places: Places) -> Result<(), AllocError> {
    match places.local {
        Some(y) => print_name(text, u32::from(y) + 13, b"local port"),
        None => Ok(()),
    }
}
