//! The schedule, the tries, the rounds and the arbiter, with their faults.
ghost use Rattle.std.specs.Prelude.{◌≡◌, ◌++◌, map, IfOk};
ghost use Rattle.vme_script.specs.Causes.{schedule_refusal, refused_as};
ghost use Rattle.vme_faults.specs.Sites.{sited, at_value};
ghost use Rattle.vme_faults.specs.Boards.{refusal_in};

use crate::cause::{Cause, DocumentCause, ScheduleCause, ValueKind};
use crate::finding::{Finding, find};
use crate::section::{Section, find_range};
use crate::tables::KnownBoard;
use std::alloc::{AllocError, Global};
use toml::Value;
use vme_positions::{Key, Place};
use vme_script::{MOST_TURNS, check_rounds, check_tries, kind_named};

/// Finds the faults of the tries and the rounds, and of the arbiter's name.
pub(crate) fn check_numbers(
    section: &Section<'_>,
    found: &mut Vec<Finding>,
) -> Result<(), AllocError> {
    if let Some(word) = section.str_or(Key::Arbiter, "priority", found)? {
        judge(section, Key::Arbiter, kind_named(word), found)?;
    }
    if let Some(tries) = section.whole_or(Key::Tries, 1000, found)? {
        judge(section, Key::Tries, check_tries(tries), found)?;
    }
    if let Some(rounds) = section.whole_or(Key::Rounds, 0, found)? {
        judge(section, Key::Rounds, check_rounds(rounds), found)?;
    }
    Ok(())
}

/// Finds the fault of the value of `key`, if it has one.
fn judge<T: Copy>(
    section: &Section<'_>,
    key: Key,
    judged: Result<T, ScheduleCause>,
    found: &mut Vec<Finding>,
) -> Result<(), AllocError>
    ensures { IfOk result (λ _. map sited found.new.items ≡ map sited found.old.items
        ++ at_value section.now.table section.now.index key (refusal_in (refused_as schedule_refusal judged))) }
{
    match judged {
        Ok(_) => Ok(()),
        Err(cause) => {
            section.find_at(key, Cause::Schedule(cause), found)?;
            Ok(())
        }
    }
}

/// The slot and the turns of an element of `schedule`, each `None` if it is out of range, which is
/// found. Returns `None` if the element is not an array of two whole numbers.
fn read_pair(
    index: usize,
    item: &Value,
    found: &mut Vec<Finding>,
) -> Result<Option<(Option<u32>, Option<u32>)>, AllocError> {
    let Value::Array(items) = item else {
        return Ok(None);
    };
    let [Value::Integer(slot), Value::Integer(turns)] = items.as_slice() else {
        return Ok(None);
    };
    let slot = find_range(*slot, Place::PairSlot { index }, found)?;
    let turns = find_range(*turns, Place::PairTurns { index }, found)?;
    Ok(Some((slot, turns)))
}

/// Finds a run of elements that are no pairs: the first of them, and how many come after it.
fn find_no_pair(run: Option<(usize, usize)>, found: &mut Vec<Finding>) -> Result<(), AllocError> {
    match run {
        Some((index, more)) => {
            let place = Place::Element {
                key: Key::Schedule,
                index,
            };
            find(
                found,
                Cause::Document(DocumentCause::NotPair { more }),
                place,
            )
        }
        None => Ok(()),
    }
}

/// The pairs of a schedule. Returns `None` if an element has a fault, which is found; neighbours
/// that are no pairs are one finding.
pub(crate) fn read_pairs(
    alloc: Global,
    section: &Section<'_>,
    found: &mut Vec<Finding>,
) -> Result<Option<Vec<(u32, u32)>>, AllocError> {
    let Some(items) = section.elements(Key::Schedule, found)? else {
        return Ok(None);
    };
    let mut pairs = Vec::new(alloc);
    let mut run: Option<(usize, usize)> = None;
    for (index, item) in items.iter().enumerate() {
        match read_pair(index, item, found)? {
            Some((slot, turns)) => {
                find_no_pair(run, found)?;
                run = None;
                if let (Some(slot), Some(turns)) = (slot, turns) {
                    pairs.push((slot, turns))?;
                }
            }
            None => {
                run = match run {
                    Some((first, more)) => Some((first, more.saturating_add(1))),
                    None => Some((index, 0)),
                };
            }
        }
    }
    find_no_pair(run, found)?;
    if pairs.len() == items.len() {
        Ok(Some(pairs))
    } else {
        Ok(None)
    }
}

/// The slots of boards, as bits: bit i for slot i. Returns `None` if a board's slot is not known to
/// be from 1 to 21.
fn slots_of(boards: &[KnownBoard<'_>]) -> Option<u32> {
    let mut slots: u32 = 0;
    for board in boards {
        match board.in_range {
            Some(slot) if slot < 32 => slots |= 1 << slot,
            _ => return None,
        }
    }
    Some(slots)
}

/// Finds the faults of pairs: slots without a board, if all slots of boards are known, and too many
/// turns.
pub(crate) fn check_pairs(
    alloc: Global,
    pairs: &[(u32, u32)],
    boards: &[KnownBoard<'_>],
    found: &mut Vec<Finding>,
) -> Result<(), AllocError> {
    if let Some(slots) = slots_of(boards) {
        if !boards.is_empty() {
            find_slots(alloc, pairs, slots, found)?;
        }
    }
    find_turns(pairs, found)
}

/// Finds the slots without a board, each once, at its first pair.
fn find_slots(
    alloc: Global,
    pairs: &[(u32, u32)],
    slots: u32,
    found: &mut Vec<Finding>,
) -> Result<(), AllocError> {
    let mut missing: Vec<(u32, usize)> = Vec::new(alloc);
    for (index, (slot, _)) in pairs.iter().enumerate() {
        if *slot >= 32 || slots & (1 << *slot) == 0 {
            missing.push((*slot, index))?;
        }
    }
    missing.sort()?;
    let mut run: Option<(u32, usize, usize)> = None;
    for (slot, index) in &missing {
        run = match run {
            Some((before, first, more)) if before == *slot => {
                Some((before, first, more.saturating_add(1)))
            }
            _ => {
                find_slot(run, slots, found)?;
                Some((*slot, *index, 0))
            }
        };
    }
    find_slot(run, slots, found)
}

/// Finds a slot without a board: the slot, its first pair, and how many pairs come after it.
fn find_slot(
    run: Option<(u32, usize, usize)>,
    slots: u32,
    found: &mut Vec<Finding>,
) -> Result<(), AllocError> {
    match run {
        Some((slot, index, more)) => {
            let cause = ScheduleCause::NoBoardInSlot { slot, more, slots };
            find(found, Cause::Schedule(cause), Place::PairSlot { index })
        }
        None => Ok(()),
    }
}

/// Finds the first pair with which the turns are more than their greatest number.
fn find_turns(pairs: &[(u32, u32)], found: &mut Vec<Finding>) -> Result<(), AllocError> {
    let mut sum: u64 = 0;
    let mut passes: Option<usize> = None;
    for (index, (_, turns)) in pairs.iter().enumerate() {
        sum = sum.saturating_add(u64::from(*turns));
        if sum > u64::from(MOST_TURNS) && passes.is_none() {
            passes = Some(index);
        }
    }
    match passes {
        Some(index) => {
            let cause = ScheduleCause::TooManyTurns { turns: sum };
            find(found, Cause::Schedule(cause), Place::PairTurns { index })
        }
        None => Ok(()),
    }
}
