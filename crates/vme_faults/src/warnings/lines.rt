//! Warnings of the lines of a script.
use crate::cause::LineWarning;
use crate::warnings::list::Warnings;
use crate::warnings::requests::{Backplane, Outcome, outcome_of, slot_number};
use crate::warnings::shared::{Access, Uses, Watch, awaited_of, change_of};
use crate::warnings::turns::Demand;
use crate::words::span_of;
use std::alloc::AllocError;
use vme_config_toml::BoardTable;
use vme_cycle::{Modify, Request};
use vme_decode::AddressMap;
use vme_grammar::{Line, parse_line};
use vme_lanes::Datum;
use vme_lexer::Lines;
use vme_memory::BoardCmd;
use vme_positions::Place;
use vme_script::{BoardRange, line_bytes};

/// The least number of turns of `vme step` that a lock, an unlock, a put, a take or a wait takes if
/// it ends.
const SHARED_TURNS: u64 = 3;

/// Finds the warnings of a script's lines, and records in `uses` what the lines do to shared bytes.
/// Returns the turns and the mailboxes that the script asks for.
pub(crate) fn find_lines(
    board: usize,
    table: &BoardTable<'_>,
    backplane: &Backplane<'_, '_>,
    uses: &mut Uses,
    warnings: &mut Warnings,
) -> Result<Demand, AllocError> {
    let slot = slot_number(table.slot);
    let mut demand = Demand {
        lines: 0,
        least: 0,
        mailboxes: 0,
        slot,
    };
    let mut number: u16 = 0;
    for text in Lines::new(table.script.as_bytes()) {
        number = number.saturating_add(1);
        if let Ok(Some(line)) = parse_line(text) {
            let outcome = line_outcome(&line, table, backplane);
            demand.lines = demand.lines.saturating_add(1);
            demand.mailboxes |= mailbox_bit(&line);
            demand.least = demand.least.saturating_add(outcome.least);
            let asked = Asked {
                board,
                slot,
                number,
                text,
            };
            keep_uses(&asked, &line, outcome.warning.is_none(), backplane, uses)?;
            find_outcome(&asked, outcome, warnings)?;
        }
    }
    Ok(demand)
}

/// A line of a script that requests something.
#[derive(Clone, Copy)]
struct Asked<'a> {
    /// The index of the script's board.
    board: usize,
    /// The slot of that board.
    slot: u16,
    /// The number of the line, from 1.
    number: u16,
    /// The bytes of the line.
    text: &'a [u8],
}

/// Finds the warning of a line's outcome.
fn find_outcome(
    asked: &Asked<'_>,
    outcome: Outcome,
    warnings: &mut Warnings,
) -> Result<(), AllocError> {
    match outcome.warning {
        Some((warning, word)) => {
            let span = span_of(asked.text, word);
            let place = Place::Word {
                board: asked.board,
                line: usize::from(asked.number),
                from: span.from,
                to: span.to,
            };
            warnings.line(asked.slot, asked.number, warning, place)
        }
        None => Ok(()),
    }
}

/// Records the bytes that a line changes, and those of its lock or its wait. `is_certain` states
/// that the line has no warning.
fn keep_uses(
    asked: &Asked<'_>,
    line: &Line,
    is_certain: bool,
    backplane: &Backplane<'_, '_>,
    uses: &mut Uses,
) -> Result<(), AllocError> {
    let Some(range) = range_of(line, backplane.map, asked.board) else {
        return Ok(());
    };
    if let Some(change) = change_of(line) {
        uses.accesses.push(Access {
            range,
            change,
            slot: asked.slot,
            line: asked.number,
            is_certain,
        })?;
    }
    if let (Some(awaited), true) = (awaited_of(line), is_certain) {
        let word = if awaited == 0 { 2 } else { 3 };
        uses.watches.push(Watch {
            range,
            awaited,
            board: asked.board,
            slot: asked.slot,
            line: asked.number,
            span: span_of(asked.text, word),
        })?;
    }
    Ok(())
}

/// The bytes that a line of the script of a board accesses. A lock and an unlock have their byte
/// even if their requests are always refused.
fn range_of(line: &Line, map: &AddressMap, board: usize) -> Option<BoardRange> {
    match line {
        Line::Lock { am, addr } | Line::Unlock { am, addr } => BoardRange::at(map, *am, *addr, 1),
        _ => line_bytes(map, board, line),
    }
}

/// The bit of the mailbox that a line names, or 0: bit i for number i.
fn mailbox_bit(line: &Line) -> u32 {
    match line {
        Line::Put { mailbox, .. } | Line::Take { mailbox } if *mailbox < 32 => 1 << *mailbox,
        _ => 0,
    }
}

/// The outcome that a line has in every run.
fn line_outcome(line: &Line, board: &BoardTable<'_>, backplane: &Backplane<'_, '_>) -> Outcome {
    match line {
        Line::Bus(request) => outcome_of(request, backplane),
        Line::Local(command) => local_outcome(command, board),
        Line::Await { am, addr, bytes } => {
            let n = bytes.as_slice().len() as u8;
            shared(
                &Request::Read {
                    am: *am,
                    addr: *addr,
                    n,
                },
                backplane,
            )
        }
        Line::Lock { am, addr } => shared(
            &Request::Modify {
                am: *am,
                addr: *addr,
                n: 1,
                f: Modify::Set,
            },
            backplane,
        ),
        Line::Unlock { am, addr } => shared(
            &Request::Write {
                am: *am,
                addr: *addr,
                bytes: Datum::try_from(&[0][..]).unwrap(),
            },
            backplane,
        ),
        Line::Put { .. } | Line::Take { .. } => Outcome::of_turns(SHARED_TURNS),
    }
}

/// The outcome that a lock, an unlock or a wait has in every run. Its line makes this request once
/// or more often.
fn shared(request: &Request, backplane: &Backplane<'_, '_>) -> Outcome {
    let outcome = outcome_of(request, backplane);
    match outcome.warning {
        Some(_) => outcome,
        None => Outcome::of_turns(SHARED_TURNS),
    }
}

/// The outcome that a command to the local port has in every run.
fn local_outcome(command: &BoardCmd, board: &BoardTable<'_>) -> Outcome {
    let (offset, len) = match command {
        BoardCmd::LocalRead { offset, n } | BoardCmd::LocalModify { offset, n, .. } => {
            (*offset, u64::from(*n))
        }
        BoardCmd::LocalWrite { offset, bytes } => (*offset, bytes.as_slice().len() as u64),
        BoardCmd::Cycle { .. } => (0, 0),
    };
    let size = board.range.size;
    let warning = if u64::from(offset) + len > u64::from(size) {
        let slot = slot_number(board.slot);
        Some((LineWarning::PastEnd { slot, size }, 1))
    } else {
        None
    };
    Outcome { least: 1, warning }
}
