//! The value of a variable after edges of an event.
ghost use Rattle.std.specs.Prelude.{◌≡◌, ◌-◌, ◌∷◌, List};
ghost use Rattle.vme_trace.specs.declared.dump.change.Change.{Change};
ghost use Rattle.vme_trace.specs.Shown.{is_letter, is_code, is_due, value_over};

use crate::dump::change::{Change, Code, Value};

/// Returns whether a code is that of a variable.
pub fn is_code(variable: Code, code: Code) -> bool
    ensures { result ≡ is_code variable code }
{
    is_letter(variable.second, code.second) && code.first == variable.first
}

/// Returns whether a second letter is that of a variable.
fn is_letter(variable: Option<u8>, found: Option<u8>) -> bool
    ensures { result ≡ is_letter variable found }
{
    match (variable, found) {
        (None, None) => true,
        (Some(letter), Some(found)) => found == letter,
        _ => false,
    }
}

/// The last value of a variable so far, and the edge from which it has it.
#[derive(Clone, Copy)]
struct Latest {
    /// The edge.
    edge: u8,
    /// The value.
    value: Value,
}

impl Latest {
    /// Returns the last value after one more change, if that is before edge `end`.
    fn after(self, code: Code, end: u8, change: &Change) -> Latest
        ensures { (later : List Change) →
            value_over code (change.now ∷ later) self.edge (end - self.edge) self.value
            ≡ value_over code later result.edge (end - result.edge) result.value }
    {
        if is_due(code, self.edge, end, change) {
            return Latest {
                edge: change.edge,
                value: change.value,
            };
        }
        self
    }
}

/// Returns whether a change is one of a variable from an edge on, and before edge `end`.
fn is_due(code: Code, edge: u8, end: u8, change: &Change) -> bool
    ensures { result ≡ is_due code edge end change.now }
{
    is_code(code, change.code) && edge <= change.edge && change.edge < end
}

/// Returns the value of a variable after the edges of an event from one on, before edge `end`, by its
/// value before them: that of the last of the changes at the last edge.
pub fn value_over(code: Code, changes: &[Change], edge: u8, end: u8, before: Value) -> Value
    ensures { result ≡ value_over code changes.now edge (end - edge) before }
{
    let mut latest = Latest {
        edge,
        value: before,
    };
    for change in changes {
        latest = latest.after(code, end, change);
    }
    latest.value
}
