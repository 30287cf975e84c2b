//! The outcome that a request has in every run: its refusal, or the bus error with which it ends.
use crate::cause::{Lack, LineWarning};
use crate::cycle::{faulty_word, request_cause};
use crate::mailboxes::SUPERVISORY;
use vme_am::{Am, Space};
use vme_config_toml::BoardTable;
use vme_cycle::{Plan, Request};
use vme_decode::AddressMap;
use vme_lanes::Location;

/// The least number of turns of `vme step` that a transfer takes besides those of its data.
const TRANSFER_TURNS: u64 = 2;

/// The boards of a configuration, and their address map.
#[derive(Clone, Copy)]
pub(crate) struct Backplane<'a, 't> {
    pub map: &'a AddressMap,
    pub boards: &'a [BoardTable<'t>],
}

/// What every run of a line has in common.
#[derive(Clone, Copy)]
pub(crate) struct Outcome {
    /// The least number of turns of `vme step` that the line takes.
    pub least: u64,
    /// The warning, and the index of the word that causes it, from 0.
    pub warning: Option<(LineWarning, usize)>,
}

impl Outcome {
    /// An outcome without a warning.
    pub(crate) fn of_turns(least: u64) -> Outcome {
        Outcome {
            least,
            warning: None,
        }
    }

    /// An outcome with a warning at the address of a request.
    fn warned(least: u64, warning: LineWarning) -> Outcome {
        Outcome {
            least,
            warning: Some((warning, 2)),
        }
    }
}

/// A slot as a `u16`. The slot of a configuration is from 1 to 21, so it fits; another is 0.
pub(crate) fn slot_number(slot: u32) -> u16 {
    match u16::try_from(slot) {
        Ok(slot) => slot,
        Err(_) => 0,
    }
}

/// The outcome that a request has in every run.
pub(crate) fn outcome_of(request: &Request, backplane: &Backplane<'_, '_>) -> Outcome {
    match Plan::of(request) {
        Err(fault) => {
            let cause = request_cause(request, fault);
            Outcome {
                least: 0,
                warning: Some((LineWarning::AlwaysRefused(cause), faulty_word(cause))),
            }
        }
        Ok(plan) => match backplane.map.select_at(plan.am(), plan.addr()) {
            Some((board, offset)) => match backplane.boards.get(board) {
                Some(table) => plan_outcome(&plan, table, offset),
                None => Outcome::of_turns(TRANSFER_TURNS),
            },
            None => Outcome {
                least: TRANSFER_TURNS,
                warning: Some(no_answer(plan.am(), plan.addr(), backplane)),
            },
        },
    }
}

/// Whether a board has an address of a space, whatever the privilege of the code.
fn has_address(board: &BoardTable<'_>, space: &str, addr: u32) -> bool {
    let range = &board.range;
    range.space == space && range.base <= addr && addr - range.base < range.size
}

/// The name of a space.
fn name_of(space: Space) -> &'static str {
    match space {
        Space::A16 => "a16",
        Space::A24 => "a24",
        Space::A32 => "a32",
    }
}

/// The slot of the first board that has an address of a space.
fn slot_with(backplane: &Backplane<'_, '_>, space: Space, addr: u32) -> Option<u16> {
    for board in backplane.boards {
        if has_address(board, name_of(space), addr) {
            return Some(slot_number(board.slot));
        }
    }
    None
}

/// The warning of a transfer to which no board responds, and the index of the word that causes it:
/// the code or the address.
fn no_answer(am: Am, addr: u32, backplane: &Backplane<'_, '_>) -> (LineWarning, usize) {
    let space = am.space();
    if let Some(slot) = slot_with(backplane, space, addr) {
        let warning = LineWarning::SupervisoryBoard {
            slot,
            am: am.code(),
            instead: am.code() | SUPERVISORY,
        };
        return (warning, 1);
    }
    let mut there = None;
    for other in [Space::A16, Space::A24, Space::A32] {
        if there.is_none() {
            there = match slot_with(backplane, other, addr) {
                Some(slot) => Some((slot, other)),
                None => None,
            };
        }
    }
    let warning = LineWarning::NoBoardThere {
        space,
        addr,
        am: am.code(),
        there,
    };
    (warning, 2)
}

/// What a board does not have and a transfer needs, if there is anything.
fn lack_of(plan: &Plan<'_>, board: &BoardTable<'_>) -> Option<Lack> {
    if plan.am().kind().is_block() && !board.class.blt {
        return Some(Lack::Blocks);
    }
    if plan.modify().is_some() && !board.class.rmw {
        return Some(Lack::Modifies);
    }
    let (lines, unaligned) = match Location::of(plan.addr(), plan.datum_len()) {
        Some(location) => needs(location),
        None => (32, false),
    };
    if board.class.width < u32::from(lines) {
        return Some(Lack::DataLines(lines));
    }
    if unaligned && !board.class.uat {
        return Some(Lack::Unaligned);
    }
    None
}

/// The number of data lines that a cycle of a location needs, and whether it is unaligned.
fn needs(location: Location) -> (u8, bool) {
    match location {
        Location::Byte0 | Location::Byte1 | Location::Byte2 | Location::Byte3 => (8, false),
        Location::Bytes01 | Location::Bytes23 => (16, false),
        Location::Bytes03 => (32, false),
        Location::Bytes02 | Location::Bytes13 | Location::Bytes12 => (32, true),
    }
}

/// The outcome in every run of a lawful request whose first byte is at an offset of a board.
fn plan_outcome(plan: &Plan<'_>, board: &BoardTable<'_>, offset: u32) -> Outcome {
    let slot = slot_number(board.slot);
    if let Some(lack) = lack_of(plan, board) {
        let warning = LineWarning::BoardLacks {
            slot,
            lack,
            data: 0,
        };
        return Outcome::warned(TRANSFER_TURNS, warning);
    }
    let size = board.range.size;
    let data = u32::from(plan.len());
    let fit = size.saturating_sub(offset) / u32::from(plan.datum_len());
    if fit >= data {
        return Outcome::of_turns(TRANSFER_TURNS + u64::from(data));
    }
    let warning = if plan.am().kind().is_block() {
        LineWarning::DatumPastEnd {
            slot,
            size,
            datum: fit.saturating_add(1),
        }
    } else {
        LineWarning::PastEnd { slot, size }
    };
    Outcome::warned(TRANSFER_TURNS + u64::from(fit), warning)
}
