//! The values of a variable in a cell.
ghost use Rattle.std.specs.Prelude.{◌≡◌, ◌<◌, ◌++◌, length, flat_map, IfOk, OnOk};
ghost use Rattle.vme_page.specs.Points.{is_in, point_in, line_points, value_past, first_value, number_of};

use crate::diagram::window::Window;
use std::alloc::AllocError;
use vme_trace::{Change, Code, Value, is_code, value_over};

/// The width of a cell.
pub(crate) const WIDTH: u8 = 104;

/// A value of a variable, and the place in a cell from which it has it.
#[derive(Clone, Copy, Debug, PartialEq, Eq)]
pub(crate) struct Point {
    /// The place.
    pub(crate) x: u8,
    /// The value.
    pub(crate) value: Value,
}

/// Returns whether a change is one of a variable in a cell.
fn is_in(window: Window, code: Code, change: &Change) -> bool
    ensures { result ≡ is_in window code change.now }
{
    is_code(code, change.code) && window.shows(change.edge)
}

/// Replaces the points by those of a variable that has a value at the begin of a cell.
pub(crate) fn collect_points(
    points: &mut Vec<Point>,
    window: Window,
    code: Code,
    value: Value,
    changes: &[Change],
) -> Result<(), AllocError>
    ensures { OnOk result (points.new.items ≡ line_points window code value changes.now) }
{
    points.clear();
    points.push(Point { x: 0, value })?;
    push_points(points, window, code, changes)
}

/// Appends the points of the changes of a variable in a cell.
fn push_points(
    points: &mut Vec<Point>,
    window: Window,
    code: Code,
    changes: &[Change],
) -> Result<(), AllocError>
    ensures { OnOk result
        (points.new.items ≡ points.old.items ++ flat_map (point_in window code) changes.now) }
{
    for change in changes {
        push_point(points, window, code, change)?;
    }
    Ok(())
}

/// Appends the point of a change, if it is one of the variable in the cell.
fn push_point(
    points: &mut Vec<Point>,
    window: Window,
    code: Code,
    change: &Change,
) -> Result<(), AllocError>
    ensures { OnOk result
        (points.new.items ≡ points.old.items ++ point_in window code change.now) }
{
    if !is_in(window, code, change) {
        return Ok(());
    }
    points.push(Point {
        x: window.place(change.edge),
        value: change.value,
    })?;
    Ok(())
}

/// Returns the value of a variable after a cell, by its value before.
pub(crate) fn value_past(window: Window, code: Code, before: Value, changes: &[Change]) -> Value
    ensures { result ≡ value_past window code changes.now before }
{
    value_over(
        code,
        changes,
        window.first_edge(),
        window.end_edge(),
        before,
    )
}

/// Returns the first value that a variable changes to in a cell, if it changes.
pub(crate) fn first_value(
    points: &mut Vec<Point>,
    window: Window,
    code: Code,
    changes: &[Change],
) -> Result<Option<Value>, AllocError>
    ensures { IfOk result (λ first. first ≡ first_value window code changes.now) }
{
    collect_points(points, window, code, Value::Free, changes)?;
    match points.get(1) {
        Some(point) => Ok(Some(point.value)),
        None => Ok(None),
    }
}

/// Returns whether a variable changes in a cell.
pub(crate) fn changes_in(window: Window, code: Code, changes: &[Change]) -> bool {
    changes.iter().any(|change| is_in(window, code, change))
}

/// Returns the place at which the value of a point ends.
pub(crate) fn end_of(points: &[Point], i: usize) -> u8
    requires { i < length points.now }
{
    match points.get(i + 1) {
        Some(next) => next.x,
        None => WIDTH,
    }
}

/// Returns the value before a point; that of the first point itself.
pub(crate) fn value_before(points: &[Point], i: usize) -> Value
    requires { i < length points.now }
{
    points[i.saturating_sub(1)].value
}

/// Returns the number that a value is; 0 if it is none.
pub(crate) fn number_of(value: Value) -> u32
    ensures { result ≡ number_of value }
{
    match value {
        Value::Number { number, .. } => number,
        _ => 0,
    }
}
