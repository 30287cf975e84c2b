//! The local port of a board in an event.
ghost use Rattle.std.specs.Prelude.{◌≡◌, ◌<◌, ◌≤◌, ◌++◌, OnOk};
ghost use Rattle.vme_trace.specs.Ports.{port_lanes, new_lanes, reply_lanes, port_access, last_edge, port_changes, control_changes, select_changes, bytes_changes, lanes_if, reply_changes};

use crate::dump::change::{Change, Code, Value, push_if};
use crate::dump::edge::{
    ADDRESS_RELEASED, ANSWER_FALLS, ANSWER_RISES, BEGIN, BOARD_DRIVES, DATA_RELEASED, FIRST,
    SECOND, STROBES_RISE,
};
use crate::dump::handshake::is_berr;
use crate::dump::variable::Variable;
use std::alloc::AllocError;
use vme_cycle::Modify;
use vme_lanes::Datum;
use vme_memory::{BoardCmd, Reply};

/// What an access by a local port shows.
#[derive(Clone, Copy, Debug, PartialEq, Eq)]
pub struct PortAccess {
    /// The offset of the first byte.
    pub offset: u32,
    /// Whether it begins as a write.
    pub write: bool,
    /// The bytes that are read or written, on the low lanes, if there are any.
    pub bytes: Option<[Option<u8>; 4]>,
    /// The bytes that a read-modify-write writes.
    pub new: Option<[Option<u8>; 4]>,
    /// Whether a bus error answers.
    pub berr: bool,
}

/// Returns what a command to a local port shows with its reply.
pub(crate) fn port_access(cmd: &BoardCmd, reply: &Reply) -> Option<PortAccess>
    ensures { result ≡ port_access cmd.now reply.now }
{
    let (offset, write, bytes, new) = match cmd {
        BoardCmd::LocalRead { offset, .. } => (*offset, false, reply_lanes(reply), None),
        BoardCmd::LocalWrite { offset, bytes } => (*offset, true, port_lanes(bytes), None),
        BoardCmd::LocalModify { offset, f, .. } => {
            (*offset, false, reply_lanes(reply), new_lanes(f, reply))
        }
        BoardCmd::Cycle { .. } => return None,
    };
    Some(PortAccess {
        offset,
        write,
        bytes,
        new,
        berr: is_berr(reply),
    })
}

/// The bytes of a reply on the low lanes, if it has some.
fn reply_lanes(reply: &Reply) -> Option<[Option<u8>; 4]>
    ensures { result ≡ reply_lanes reply.now }
{
    match reply {
        Reply::Bytes(bytes) => port_lanes(bytes),
        Reply::Done | Reply::Berr => None,
    }
}

/// The bytes that a function writes in place of those of a reply.
fn new_lanes(f: &Modify, reply: &Reply) -> Option<[Option<u8>; 4]>
    ensures { result ≡ new_lanes f.now reply.now }
{
    match reply {
        Reply::Bytes(old) if f.has_len(old.len() as u8) => port_lanes(&f.value(old)),
        _ => None,
    }
}

/// One, two or four bytes on the low lanes; no other number of bytes is accessed.
fn port_lanes(bytes: &Datum) -> Option<[Option<u8>; 4]>
    ensures { result ≡ port_lanes bytes.now.items }
{
    match bytes.as_slice() {
        [a] => Some([None, None, None, Some(*a)]),
        [a, b] => Some([None, None, Some(*a), Some(*b)]),
        [a, b, c, d] => Some([Some(*a), Some(*b), Some(*c), Some(*d)]),
        _ => None,
    }
}

/// Appends the changes of an access by the local port of the board with index `board`.
#[tactic(auto, unfolding(crate::specs::Ports::port_changes))]
pub(crate) fn push_port(
    changes: &mut Vec<Change>,
    board: usize,
    access: &PortAccess,
) -> Result<(), AllocError>
    requires { board < 26 }
    ensures { OnOk result (changes.new.items ≡ changes.old.items ++ port_changes board access.now) }
{
    push_select(changes, board, access)?;
    push_control(changes, board, access)?;
    push_bytes(changes, board, access)?;
    push_reply(changes, board, access)
}

/// The edge that comes so many edges after the begin of the last handshake.
fn last_edge(access: &PortAccess, after: u8) -> u8
    requires { after ≤ 9 }
    ensures { result ≡ last_edge access.now after }
{
    if access.new.is_some() {
        SECOND + after
    } else {
        FIRST + after
    }
}

/// The select line.
#[tactic(auto, unfolding(crate::specs::Ports::select_changes))]
fn push_select(
    changes: &mut Vec<Change>,
    board: usize,
    access: &PortAccess,
) -> Result<(), AllocError>
    requires { board < 26 }
    ensures { OnOk result (changes.new.items ≡ changes.old.items ++ select_changes board access.now) }
{
    let code = Variable::PortSelect(board).code();
    push_if(changes, true, FIRST, code, Value::High)?;
    push_if(
        changes,
        true,
        last_edge(access, STROBES_RISE),
        code,
        Value::Low,
    )
}

/// The write line and the offset.
#[tactic(auto, unfolding(crate::specs::Ports::control_changes))]
fn push_control(
    changes: &mut Vec<Change>,
    board: usize,
    access: &PortAccess,
) -> Result<(), AllocError>
    requires { board < 26 }
    ensures { OnOk result (changes.new.items ≡ changes.old.items ++ control_changes board access.now) }
{
    let (write, address) = (
        Variable::PortWrite(board).code(),
        Variable::PortOffset(board).code(),
    );
    let offset = Value::Number {
        width: 32,
        number: access.offset,
    };
    push_if(changes, true, BEGIN, write, Value::level(access.write))?;
    push_if(changes, access.new.is_some(), SECOND, write, Value::High)?;
    push_if(
        changes,
        true,
        last_edge(access, ADDRESS_RELEASED),
        write,
        Value::Free,
    )?;
    push_if(changes, true, BEGIN, address, offset)?;
    push_if(
        changes,
        true,
        last_edge(access, ADDRESS_RELEASED),
        address,
        Value::Released,
    )
}

/// The data.
#[tactic(auto, unfolding(crate::specs::Ports::bytes_changes))]
fn push_bytes(
    changes: &mut Vec<Change>,
    board: usize,
    access: &PortAccess,
) -> Result<(), AllocError>
    requires { board < 26 }
    ensures { OnOk result (changes.new.items ≡ changes.old.items ++ bytes_changes board access.now) }
{
    let code = Variable::PortData(board).code();
    let drive = if access.write {
        FIRST
    } else {
        FIRST + BOARD_DRIVES
    };
    push_lanes(changes, access.bytes, drive, code)?;
    let (released, end) = (FIRST + DATA_RELEASED, SECOND + DATA_RELEASED);
    push_if(
        changes,
        access.bytes.is_some(),
        released,
        code,
        Value::no_lanes(),
    )?;
    push_lanes(changes, access.new, SECOND, code)?;
    push_if(changes, access.new.is_some(), end, code, Value::no_lanes())
}

/// Appends the change of lanes, if some carry bytes.
fn push_lanes(
    changes: &mut Vec<Change>,
    lanes: Option<[Option<u8>; 4]>,
    edge: u8,
    code: Code,
) -> Result<(), AllocError>
    ensures { OnOk result (changes.new.items ≡ changes.old.items ++ lanes_if lanes edge code) }
{
    match lanes {
        Some(lanes) => push_if(changes, true, edge, code, Value::Lanes(lanes)),
        None => Ok(()),
    }
}

/// The reply of the port.
#[tactic(auto, unfolding(crate::specs::Ports::reply_changes))]
fn push_reply(
    changes: &mut Vec<Change>,
    board: usize,
    access: &PortAccess,
) -> Result<(), AllocError>
    requires { board < 26 }
    ensures { OnOk result (changes.new.items ≡ changes.old.items ++ reply_changes board access.now) }
{
    let (done, error) = (
        Variable::PortDone(board).code(),
        Variable::PortError(board).code(),
    );
    let (first, first_end) = (FIRST + ANSWER_FALLS, FIRST + ANSWER_RISES);
    let (second, second_end) = (SECOND + ANSWER_FALLS, SECOND + ANSWER_RISES);
    push_if(changes, !access.berr, first, done, Value::High)?;
    push_if(changes, !access.berr, first_end, done, Value::Low)?;
    push_if(changes, access.new.is_some(), second, done, Value::High)?;
    push_if(changes, access.new.is_some(), second_end, done, Value::Low)?;
    push_if(changes, access.berr, first, error, Value::High)?;
    push_if(changes, access.berr, first_end, error, Value::Low)
}
