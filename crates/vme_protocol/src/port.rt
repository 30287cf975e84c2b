ghost use Rattle.std.specs.Prelude.{◌≡◌};
ghost use Rattle.vme_protocol.specs.Ports.{len_by, local_in, local_between};

use crate::rule::Rule;

/// The lines of a slot's local port at one sample.
#[derive(Clone, Copy, Debug, PartialEq, Eq)]
pub struct Port {
    /// Whether the memory has answered: the line is high.
    pub done: bool,
    /// Whether the write line is high.
    pub write: bool,
    /// Whether the write line or the offset is undefined.
    pub undefined: bool,
    /// The offset of the first byte.
    pub offset: u32,
    /// A bit for each of the four lanes that carries a byte: the lowest for D07 to D00.
    pub lanes: u8,
    /// D31 to D00
    pub data: u32,
}

/// An access by a local port.
#[derive(Clone, Copy, Debug, PartialEq, Eq)]
pub struct Local {
    /// Whether it is a write.
    pub write: bool,
    /// The offset of the first byte.
    pub offset: u32,
    /// The number of bytes: one, two or four.
    pub len: u8,
    /// The bytes on the low lanes, the lowest address most significant.
    pub data: u32,
}

/// Returns the access that a local port has done between two samples, if it has.
///
/// # Errors
///
/// J17: it has answered with an undefined offset, direction or byte.
pub fn local_access(before: &Port, after: &Port) -> Result<Option<Local>, Rule>
    ensures { result ≡ local_between before.now after.now }
{
    if before.done || !after.done {
        return Ok(None);
    }
    match local_in(after) {
        Some(local) if !after.undefined => Ok(Some(local)),
        _ => Err(Rule::PortUndefined),
    }
}

/// The number of bytes on some lanes: one, two or four low ones.
fn len_by(lanes: u8) -> Option<u8>
    ensures { result ≡ len_by lanes }
{
    match lanes {
        1 => Some(1),
        3 => Some(2),
        15 => Some(4),
        _ => None,
    }
}

/// The access that a port shows, if it shows some bytes.
fn local_in(port: &Port) -> Option<Local>
    ensures { result ≡ local_in port.now }
{
    match len_by(port.lanes) {
        Some(len) => Some(Local {
            write: port.write,
            offset: port.offset,
            len,
            data: port.data,
        }),
        None => None,
    }
}
