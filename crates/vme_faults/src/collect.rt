//! The faults of a file that is not a configuration.
use crate::cause::{Cause, DocumentCause, LineCause};
use crate::finding::{Finding, find};
use crate::mailboxes::{self, KnownMailbox};
use crate::ranges::{find_overlaps, map_of};
use crate::schedule::{check_numbers, check_pairs, read_pairs};
use crate::script::{FaultyLine, Surroundings, fault_alone, faulty_lines};
use crate::section::{Section, find_tables};
use crate::tables::{self, KnownBoard};
use crate::words::WordSpan;
use std::alloc::{AllocError, Global};
use toml::{Table, Value};
use vme_decode::AddressMap;
use vme_lexer::Lines;
use vme_positions::{Key, Place, TableName};
use vme_script::{
    BoardRange, MOST_BOARDS, MOST_LINES, MOST_MAILBOXES, Mailbox, MailboxDeclarations,
    ScriptContext, check_count,
};

/// Returns the faults of a document that can be distinguished. A test is made only where all values
/// that it needs are known and not refused themselves, so a fault that only follows from another
/// one is not found.
///
/// # Errors
///
/// An allocation failed.
pub fn faults_of(alloc: Global, table: &Table) -> Result<Vec<Finding>, AllocError> {
    let mut found = Vec::new(alloc);
    collect_file(alloc, table, &mut found)?;
    Ok(found)
}

/// Finds the faults of a document's keys, boards, mailboxes and scripts.
fn collect_file(alloc: Global, table: &Table, found: &mut Vec<Finding>) -> Result<(), AllocError> {
    let file = Section {
        values: table,
        table: TableName::File,
        index: 0,
    };
    file.find_unknown(found)?;
    check_numbers(&file, found)?;
    let pairs = read_pairs(alloc, &file, found)?;
    let boards = read_boards(alloc, &file, found)?;
    find_overlaps(&boards.known, found)?;
    let map = match boards.are_all {
        true => map_of(alloc, &boards.known)?,
        false => None,
    };
    if let (Some(pairs), true) = (pairs, boards.are_all) {
        check_pairs(alloc, &pairs, &boards.known, found)?;
    }
    let mailboxes = read_mailboxes(alloc, &file, &boards.known, map.as_ref(), found)?;
    collect_scripts(alloc, &boards.known, map.as_ref(), &mailboxes, found)
}

/// The boards of a file, at most 21 of them.
#[derive(Drop)]
struct Boards<'a> {
    known: Vec<KnownBoard<'a>>,
    /// Whether these are all boards, and at least one.
    are_all: bool,
}

/// Reads the boards of a file, and finds their faults. Of the boards past the greatest number, only
/// the first with a faulty key has findings.
fn read_boards<'a>(
    alloc: Global,
    file: &Section<'a>,
    found: &mut Vec<Finding>,
) -> Result<Boards<'a>, AllocError> {
    let mut known = Vec::new(alloc);
    let Some(items) = file.elements(Key::Board, found)? else {
        return Ok(Boards {
            known,
            are_all: false,
        });
    };
    find_count(file, items.len(), found)?;
    find_tables(Key::Board, items, found)?;
    for (index, item) in items.iter().enumerate() {
        let before = found.len();
        let board = read_board(item, index, &known, found)?;
        if index < MOST_BOARDS {
            known.push(board)?;
        } else if found.len() > before {
            break;
        }
    }
    Ok(Boards {
        known,
        are_all: !items.is_empty() && items.len() <= MOST_BOARDS,
    })
}

/// Reads one board after the `earlier` ones. If it is past the greatest number, only its keys are
/// checked.
fn read_board<'a>(
    item: &'a Value,
    index: usize,
    earlier: &[KnownBoard<'a>],
    found: &mut Vec<Finding>,
) -> Result<KnownBoard<'a>, AllocError> {
    let Value::Table(values) = item else {
        return Ok(KnownBoard::unknown());
    };
    let section = Section {
        values,
        table: TableName::Board,
        index,
    };
    let keys = tables::read_keys(&section, found)?;
    if index < MOST_BOARDS {
        tables::check(&section, &keys, earlier, found)
    } else {
        Ok(KnownBoard::unknown())
    }
}

/// Finds the fault of the number of boards: none, or more than 21. A file with tables of an unknown
/// name is not also one without a board.
fn find_count(
    file: &Section<'_>,
    boards: usize,
    found: &mut Vec<Finding>,
) -> Result<(), AllocError> {
    if boards == 0 && !file.has_unknown_tables() {
        let place = match file.value(Key::Board) {
            Some(_) => file.value_place(Key::Board),
            None => Place::File,
        };
        find(found, Cause::Document(DocumentCause::NoBoard), place)?;
    }
    if boards > MOST_BOARDS {
        let place = Place::Table {
            table: TableName::Board,
            index: MOST_BOARDS,
        };
        find(
            found,
            Cause::Document(DocumentCause::TooManyBoards { boards }),
            place,
        )?;
    }
    Ok(())
}

/// The mailboxes of a file, at most 16 of them.
#[derive(Drop)]
struct Mailboxes {
    /// Those that are lawful.
    lawful: Vec<Mailbox>,
    /// The bytes of each, or no bytes if they are unknown.
    places: Vec<BoardRange>,
    /// The number of elements of `mailbox`, if its value is an array or absent.
    declared: Option<usize>,
}

/// Reads the mailboxes of a file, and finds their faults. Of the mailboxes past the greatest
/// number, only the first with a faulty key has findings.
fn read_mailboxes(
    alloc: Global,
    file: &Section<'_>,
    boards: &[KnownBoard<'_>],
    map: Option<&AddressMap>,
    found: &mut Vec<Finding>,
) -> Result<Mailboxes, AllocError> {
    let mut lawful = Vec::new(alloc);
    let mut places = Vec::new(alloc);
    let Some(items) = file.elements(Key::Mailbox, found)? else {
        return Ok(Mailboxes {
            lawful,
            places,
            declared: None,
        });
    };
    if let Err(cause) = check_count(items.len()) {
        let place = Place::Table {
            table: TableName::Mailbox,
            index: MOST_MAILBOXES,
        };
        find(found, Cause::Mailbox(cause), place)?;
    }
    find_tables(Key::Mailbox, items, found)?;
    for (index, item) in items.iter().enumerate() {
        let before = found.len();
        let known = read_mailbox(item, index, (boards, map), &places, found)?;
        if index < MOST_MAILBOXES {
            places.push(known.place)?;
            if let Some(mailbox) = known.lawful {
                lawful.push(mailbox)?;
            }
        } else if found.len() > before {
            break;
        }
    }
    Ok(Mailboxes {
        lawful,
        places,
        declared: Some(items.len()),
    })
}

/// Reads one mailbox after the `earlier` ones. If it is past the greatest number, only its keys are
/// checked.
fn read_mailbox(
    item: &Value,
    index: usize,
    (boards, map): (&[KnownBoard<'_>], Option<&AddressMap>),
    earlier: &[BoardRange],
    found: &mut Vec<Finding>,
) -> Result<KnownMailbox, AllocError> {
    let Value::Table(values) = item else {
        return Ok(KnownMailbox::unknown());
    };
    let section = Section {
        values,
        table: TableName::Mailbox,
        index,
    };
    let keys = mailboxes::read_keys(&section, found)?;
    if index < MOST_MAILBOXES {
        mailboxes::check(&section, keys, boards, map, earlier, found)
    } else {
        Ok(KnownMailbox::unknown())
    }
}

/// Finds the faults of the scripts of all boards.
fn collect_scripts<'a>(
    alloc: Global,
    boards: &'a [KnownBoard<'a>],
    map: Option<&'a AddressMap>,
    mailboxes: &'a Mailboxes,
    found: &mut Vec<Finding>,
) -> Result<(), AllocError> {
    let are_lawful = mailboxes.declared == Some(mailboxes.lawful.len());
    for (index, board) in boards.iter().enumerate() {
        let Some(text) = board.script else {
            continue;
        };
        let around = Surroundings {
            boards,
            map,
            mailboxes: &mailboxes.places,
            declared: mailboxes.declared,
            board: index,
        };
        match map {
            Some(map) if are_lawful => {
                let context = ScriptContext::InFile(MailboxDeclarations {
                    map,
                    mailboxes: &mailboxes.lawful,
                    board: index,
                });
                let lines = faulty_lines(alloc, text.as_bytes(), &context, &around)?;
                find_lines(index, board.slot, &lines, found)?;
            }
            _ => find_alone(text.as_bytes(), board.slot, &around, found)?,
        }
        find_too_many(text.as_bytes(), index, board.slot, found)?;
    }
    Ok(())
}

/// Appends the finding of a script's line, with its cause and the bytes at fault.
fn find_line(
    board: usize,
    slot: Option<u16>,
    line: u16,
    (cause, span): (LineCause, WordSpan),
    found: &mut Vec<Finding>,
) -> Result<(), AllocError> {
    let place = Place::Word {
        board,
        line: usize::from(line),
        from: span.from,
        to: span.to,
    };
    find(found, Cause::Script { slot, line, cause }, place)
}

/// Appends the findings of a script's faulty lines.
fn find_lines(
    board: usize,
    slot: Option<u16>,
    lines: &[FaultyLine],
    found: &mut Vec<Finding>,
) -> Result<(), AllocError> {
    for line in lines {
        find_line(board, slot, line.number, (line.cause, line.span), found)?;
    }
    Ok(())
}

/// Finds the faults of the first 1,000 lines of a script whose context is not known.
fn find_alone(
    text: &[u8],
    slot: Option<u16>,
    around: &Surroundings<'_>,
    found: &mut Vec<Finding>,
) -> Result<(), AllocError> {
    let mut number: u16 = 0;
    for line in Lines::new(text) {
        if number >= MOST_LINES {
            return Ok(());
        }
        number += 1;
        if let Some(fault) = fault_alone(line, around) {
            find_line(around.board, slot, number, (fault.cause, fault.span), found)?;
        }
    }
    Ok(())
}

/// Finds that a script has more than 1,000 lines, at the first line too many.
fn find_too_many(
    text: &[u8],
    board: usize,
    slot: Option<u16>,
    found: &mut Vec<Finding>,
) -> Result<(), AllocError> {
    let mut lines: usize = 0;
    let mut to: usize = 0;
    for line in Lines::new(text) {
        if lines == usize::from(MOST_LINES) {
            to = line.len();
        }
        lines = lines.saturating_add(1);
    }
    if lines > usize::from(MOST_LINES) {
        let span = WordSpan { from: 0, to };
        let cause = LineCause::TooManyLines { lines };
        return find_line(board, slot, MOST_LINES + 1, (cause, span), found);
    }
    Ok(())
}
