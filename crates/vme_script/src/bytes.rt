//! The bytes of a board that a line accesses.
ghost use Rattle.std.specs.Prelude.{◌≡◌, length};
ghost use Rattle.vme_cycle.specs.declared.request.Request.TheVariants.{Read};
ghost use Rattle.vme_shared.specs.Mailboxes.{set_lock, clear_lock};
ghost use Rattle.vme_script.specs.Bytes.{request_bytes, local_range, line_bytes};

use crate::board_range::BoardRange;
use vme_cycle::{Modify, Plan, Request};
use vme_decode::AddressMap;
use vme_grammar::Line;
use vme_lanes::Datum;
use vme_memory::BoardCmd;

/// The bytes of a request to the bus.
#[tactic(auto, unfolding(crate::specs::Bytes::request_bytes))]
fn request_bytes(map: &AddressMap, request: &Request) -> Option<BoardRange>
    ensures { result ≡ request_bytes map.now request.now }
{
    let Ok(plan) = Plan::of(request) else {
        return None;
    };
    let (board, offset) = map.select_at(plan.am(), plan.addr())?;
    let len = u32::from(plan.datum_len()) * u32::from(plan.len());
    Some(BoardRange { board, offset, len })
}

/// The bytes of a read that waits for `bytes`.
fn await_bytes(map: &AddressMap, am: u8, addr: u32, bytes: &Datum) -> Option<BoardRange>
    ensures { result ≡ request_bytes map.now (Read am addr (length bytes.now.items)) }
{
    let n = bytes.as_slice().len() as u8;
    request_bytes(map, &Request::Read { am, addr, n })
}

/// The byte of a lock, as taking the lock accesses it.
fn lock_bytes(map: &AddressMap, am: u8, addr: u32) -> Option<BoardRange>
    ensures { result ≡ request_bytes map.now (set_lock am addr) }
{
    let f = Modify::Set;
    request_bytes(map, &Request::Modify { am, addr, n: 1, f })
}

/// The byte of a lock, as freeing the lock accesses it.
fn unlock_bytes(map: &AddressMap, am: u8, addr: u32) -> Option<BoardRange>
    ensures { result ≡ request_bytes map.now (clear_lock am addr) }
{
    let bytes = Datum::try_from(&[0][..]).unwrap();
    request_bytes(map, &Request::Write { am, addr, bytes })
}

/// The bytes of a command to the local port of a board.
fn local_range(board: usize, command: &BoardCmd) -> Option<BoardRange>
    ensures { result ≡ local_range board command.now }
{
    let (offset, len) = match command {
        BoardCmd::LocalRead { offset, n } | BoardCmd::LocalModify { offset, n, .. } => {
            (*offset, u32::from(*n))
        }
        BoardCmd::LocalWrite { offset, bytes } => (*offset, bytes.as_slice().len() as u32),
        BoardCmd::Cycle { .. } => return None,
    };
    Some(BoardRange { board, offset, len })
}

/// Returns the bytes that a line of the script of a board accesses. `board` is the index of that
/// board. A put and a take access none.
pub fn line_bytes(map: &AddressMap, board: usize, line: &Line) -> Option<BoardRange>
    ensures { result ≡ line_bytes map.now board line.now }
{
    match line {
        Line::Bus(request) => request_bytes(map, request),
        Line::Local(command) => local_range(board, command),
        Line::Await { am, addr, bytes } => await_bytes(map, *am, *addr, bytes),
        Line::Lock { am, addr } => lock_bytes(map, *am, *addr),
        Line::Unlock { am, addr } => unlock_bytes(map, *am, *addr),
        Line::Put { .. } | Line::Take { .. } => None,
    }
}
