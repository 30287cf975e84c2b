//! What is known before the first sample.
ghost use Rattle.std.specs.Prelude.{◌≡◌, ◌++◌, map, IfOk};
ghost use Rattle.vme_judge.specs.Openings.{open_at, opening, opening_answers, opens_in, opens_of, rule_of};
ghost use Rattle.vme_judge.specs.Standing.{standing, Stands};

use crate::boards::Board;
use crate::counts::Counts;
use crate::judge::Judge;
use crate::options::{OpenBytes, Options};
use std::alloc::{AllocError, Global};
use vme_answers::{Answers, BoardRule, Open};
use vme_protocol::{Mode, Scope};
use vme_vcd_reader::Presence;

/// The bytes that a word opens in the board with an index.
fn open_at(index: usize, size: u32, word: &OpenBytes) -> Open
    ensures { result ≡ open_at index size word.now.range }
{
    match word.range {
        None => Open {
            board: index,
            from: 0,
            to: size,
        },
        Some((from, to)) => Open {
            board: index,
            from: from.min(to.min(size)),
            to: to.min(size),
        },
    }
}

/// Appends the bytes that a word opens, of each board in its slot.
fn open_boards(word: &OpenBytes, boards: &[Board], opened: &mut Vec<Open>) -> Result<(), AllocError>
    ensures { IfOk result (λ _. opened.new.items ≡ opened.old.items ++ opens_in word.now 0 boards.now) }
{
    for (index, board) in boards.iter().enumerate() {
        if board.slot == word.slot {
            opened.push(open_at(index, board.entry.size, word))?;
        }
    }
    Ok(())
}

/// The bytes that the words open, with the boards' indices.
fn opened(alloc: Global, words: &[OpenBytes], boards: &[Board]) -> Result<Vec<Open>, AllocError>
    ensures { IfOk result (λ opened. opened.items ≡ opens_of words.now boards.now) }
{
    let mut opened = Vec::new(alloc);
    for word in words {
        open_boards(word, boards, &mut opened)?;
    }
    Ok(opened)
}

/// The boards as their answers are judged.
fn rules_of(alloc: Global, boards: &[Board]) -> Result<Vec<BoardRule>, AllocError>
    ensures { IfOk result (λ rules. rules.items ≡ map rule_of boards.now) }
{
    let mut rules = Vec::with_capacity(alloc, boards.len())?;
    for board in boards {
        rules.push(BoardRule {
            entry: board.entry,
            class: board.class,
        })?;
    }
    Ok(rules)
}

/// The boards' answers, if they are judged.
fn answers_of(
    alloc: Global,
    options: &Options<'_>,
    boards: &[Board],
) -> Result<Option<Answers>, AllocError>
    ensures { IfOk result (λ answers. answers ≡ opening_answers options.now boards.now) }
{
    if !options.has_answers() {
        return Ok(None);
    }
    let rules = rules_of(alloc, boards)?;
    let opened = opened(alloc, options.open, boards)?;
    match Answers::new(
        alloc,
        rules.as_slice(),
        opened.as_slice(),
        options.zero,
        options.others,
    ) {
        Ok(answers) => Ok(Some(answers)),
        Err(_) => Err(AllocError),
    }
}

impl<'a> Judge<'a> {
    /// Returns what is known before the first sample.
    ///
    /// # Errors
    ///
    /// An allocation failed.
    #[tactic(auto, unfolding(crate::specs::Standing::standing, crate::specs::Openings::opening))]
    pub(crate) fn new(
        alloc: Global,
        options: &'a Options<'a>,
        boards: &'a [Board],
    ) -> Result<Judge<'a>, AllocError>
        ensures opens { IfOk result (λ judge. standing judge ≡ Stands (opening options.now boards.now)) }
    {
        Ok(Judge {
            alloc,
            options,
            boards,
            answers: answers_of(alloc, options, boards)?,
            watch: None,
            scope: Scope {
                mode: if options.strict {
                    Mode::Model
                } else {
                    Mode::Bus
                },
                busy: false,
                drivers: false,
                busy_line: false,
                grants: false,
                ignored: options.ignored,
                timeout: options.timeout.unwrap_or(u64::MAX),
            },
            presence: Presence::NONE,
            counts: Counts::NONE,
            transfer: None,
            finding: None,
            found: 0,
            is_under: false,
            pending: String::new(alloc),
        })
    }
}
