//! What the slots of bars do in a strip.

use crate::diagram::layout::Bar;
use crate::diagram::point::changes_in;
use crate::diagram::shape::{begin_text, end_text, print_numbered};
use crate::diagram::strip::OpenCell;
use crate::diagram::window::Window;
use std::alloc::{AllocError, Global};
use vme_trace::{Code, Value};

/// What the slot of a bar does in a strip.
#[derive(Clone, Copy, Debug, PartialEq, Eq)]
pub(crate) enum Acts {
    /// It holds the bus at first, or drives another level on BRn* or BBSY* in some cell.
    Drives,
    /// It requests the bus in all cells.
    Waits,
    /// Nothing.
    Rests,
}

/// Returns what the slot of each bar does, by the bars before the strip and its cells.
pub(crate) fn acts_of(
    alloc: Global,
    bars: &[Bar],
    cells: &[OpenCell],
) -> Result<Vec<Acts>, AllocError> {
    let mut acts = Vec::new(alloc);
    for bar in bars {
        acts.push(act_of(*bar, cells))?;
    }
    Ok(acts)
}

/// Returns what the slot of a bar does.
fn act_of(bar: Bar, cells: &[OpenCell]) -> Acts {
    if bar.busy == Value::Low
        || is_driven(bar.request_code, cells)
        || is_driven(bar.busy_code, cells)
    {
        Acts::Drives
    } else if bar.request == Value::Low {
        Acts::Waits
    } else {
        Acts::Rests
    }
}

/// Returns whether a variable changes in some cell.
fn is_driven(code: Code, cells: &[OpenCell]) -> bool {
    for cell in cells {
        if changes_in(cell.window, code, cell.changes.as_slice()) {
            return true;
        }
    }
    false
}

/// Appends the slots that wait.
pub(crate) fn print_waiting(
    text: &mut Vec<u8>,
    x: u16,
    y: u32,
    bars: &[Bar],
    acts: &[Acts],
) -> Result<(), AllocError> {
    begin_text(text, b"q", x, y)?;
    text.extend_from_slice(b"slots")?;
    for i in 0..bars.len() {
        if acts.get(i) == Some(&Acts::Waits) {
            print_numbered(text, b" ", u32::from(bars[i].slot))?;
        }
    }
    end_text(text)
}
