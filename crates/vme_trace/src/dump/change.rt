//! Changes of variables.
ghost use Rattle.std.specs.Prelude.{◌≡◌, ◌++◌, OnOk};
ghost use Rattle.vme_trace.specs.Changes.{level_of, no_lanes, change_if};

use std::alloc::AllocError;

/// The code of a variable.
#[derive(Clone, Copy, Debug, PartialEq, Eq)]
pub struct Code {
    /// The first letter.
    pub first: u8,
    /// The second letter, which only a variable of a slot has.
    pub second: Option<u8>,
}

/// The value of a variable.
#[derive(Clone, Copy, Debug, PartialEq, Eq)]
pub enum Value {
    /// One line is low.
    Low,
    /// One line is high.
    High,
    /// Nothing drives one line.
    Free,
    /// Nothing drives several lines.
    Released,
    /// So many binary digits of a number.
    Number { width: u8, number: u32 },
    /// Four data lanes, the most significant first.
    Lanes([Option<u8>; 4]),
    /// BG3IN* to BG0IN*, as bits.
    Grants(u8),
}

/// A change of a variable at an edge of an event.
#[derive(Clone, Copy, Debug, PartialEq, Eq)]
pub struct Change {
    /// The edge, 0 to 19.
    pub edge: u8,
    /// The variable.
    pub code: Code,
    /// Its value from now on.
    pub value: Value,
}

impl Value {
    /// Returns the level of a line.
    pub(crate) fn level(is_high: bool) -> Value
        ensures { result ≡ level_of is_high }
    {
        if is_high { Value::High } else { Value::Low }
    }

    /// Returns the lanes if nothing drives them.
    pub fn no_lanes() -> Value
        ensures { result ≡ no_lanes }
    {
        Value::Lanes([None, None, None, None])
    }
}

/// Appends a change, if it takes place.
pub(crate) fn push_if(
    changes: &mut Vec<Change>,
    takes_place: bool,
    edge: u8,
    code: Code,
    value: Value,
) -> Result<(), AllocError>
    ensures { OnOk result
        (changes.new.items ≡ changes.old.items ++ change_if takes_place edge code value) }
{
    if !takes_place {
        return Ok(());
    }
    changes.push(Change { edge, code, value })?;
    Ok(())
}
