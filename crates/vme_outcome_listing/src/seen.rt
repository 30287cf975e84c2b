//! The lines whose replies are listed or wanted, and the outcomes up to those to other lines.
ghost use Rattle.std.specs.Prelude.{ℕ, ◌≡◌, ◌<◌, ◌≤◌, Bool, false, IfOk, List, Some, length, map, option_map, slice_get};
ghost use Rattle.std.specs.List.{list_any};
ghost use Rattle.vme_script.specs.declared.script.ScriptLine.{ScriptLine};
ghost use Rattle.vme_outcome_listing.specs.Looks.{HasEachFor, HasEachLook, IsUnseen, LeavesScript, LeavesUnseen, begin_alike, claim_wants, looks_at, wants_line};

use crate::claim::{Claim, Wanted};
use crate::kept::Kept;
use crate::place::Place;
use std::alloc::{AllocError, Global};
use vme_explore::{ExploreFault, Watch};
use vme_script::Config;
use vme_states::{KeptLines, Listing};
use vme_tenure_search::{list_outcomes, list_outcomes_of};

/// Returns each outcome, each with a schedule that gives it. If some lines are kept, one is enough of
/// the outcomes that differ in none of these and in nothing that a condition wants.
pub(crate) fn find_outcomes<H: Watch>(
    alloc: Global,
    config: &Config,
    kept: Option<&Kept>,
    claims: &[Claim<'_>],
    limit: usize,
    watch: &mut H,
) -> Result<Listing, ExploreFault>
    ensures { IfOk result (λ found.
        HasEachFor (option_map (λ k. k.now) kept.entry) config.now claims.now found.outcomes.items) }
{
    match kept {
        None => list_outcomes(alloc, config, limit, watch),
        Some(kept) => find_looks(alloc, config, kept, claims, limit, watch),
    }
}

/// Returns an outcome for each, which has the same kept lines and breaks the same conditions.
fn find_looks<H: Watch>(
    alloc: Global,
    config: &Config,
    kept: &Kept,
    claims: &[Claim<'_>],
    limit: usize,
    watch: &mut H,
) -> Result<Listing, ExploreFault>
    ensures { IfOk result (λ found. HasEachLook config.now kept.now claims.now found.outcomes.items) }
{
    let lines = lines_seen(alloc, config, kept, claims)?;
    let found = list_outcomes_of(alloc, config, &lines, limit, watch)?;
    Ok(found)
}

/// Returns the lines whose replies are listed or wanted.
fn lines_seen(
    alloc: Global,
    config: &Config,
    kept: &Kept,
    claims: &[Claim<'_>],
) -> Result<KeptLines, AllocError>
    ensures { IfOk result (λ lines. (table : List (List Bool)) × (lines ≡ Some table)
        × LeavesUnseen config.now kept.now claims.now table) }
{
    let mut table = Vec::with_capacity(alloc, config.boards())?;
    for board in 0..config.boards() {
        table.push(script_seen(alloc, config, board, kept, claims)?)?;
    }
    Ok(KeptLines::some(table))
}

/// Returns which lines of a script are among them.
fn script_seen(
    alloc: Global,
    config: &Config,
    board: usize,
    kept: &Kept,
    claims: &[Claim<'_>],
) -> Result<Vec<bool>, AllocError>
    requires { board < length config.now.boards }
    ensures { IfOk result (λ script. LeavesScript config.now kept.now claims.now board script.items) }
{
    let mut script = Vec::new(alloc);
    let count = config.script(board).len();
    for line in 0..count {
        script.push(is_seen(alloc, config, board, line, kept, claims)?)?;
    }
    Ok(script)
}

/// Returns whether a line of a script is among them.
fn is_seen(
    alloc: Global,
    config: &Config,
    board: usize,
    line: usize,
    kept: &Kept,
    claims: &[Claim<'_>],
) -> Result<bool, AllocError>
    requires board { board < length config.now.boards }
    requires line { (script : List ScriptLine) →
        slice_get config.now.scripts board ≡ Some script → line < length script }
    ensures { IfOk result (λ seen. seen ≡ false → IsUnseen config.now kept.now claims.now board line) }
{
    if is_wanted(claims, board, line) {
        return Ok(true);
    }
    let place = Place::Reply {
        slot: config.slot(board),
        number: config.script(board).number(line),
        board,
        line,
    };
    let mut text = Vec::new(alloc);
    place.append_head(&mut text)?;
    Ok(any_begins_alike(kept.heads(), text.as_slice()))
}

/// Returns whether one of some texts begins with another, or that with it.
fn any_begins_alike(heads: &[Vec<u8>], place: &[u8]) -> bool
    ensures { result ≡ list_any (λ head. begin_alike head place.now) (map (λ head. head.items) heads.now) }
{
    for head in heads {
        if begin_alike(head.as_slice(), place) {
            return true;
        }
    }
    false
}

/// Returns whether one of two texts begins with the other.
fn begin_alike(one: &[u8], other: &[u8]) -> bool
    ensures { result ≡ begin_alike one.now other.now }
{
    let mut rest = other;
    for byte in one {
        match rest.split_first() {
            None => return true,
            Some((first, more)) => {
                if *byte != *first {
                    return false;
                }
                rest = more;
            }
        }
    }
    true
}

/// Returns whether a condition wants a reply to a line of a script.
fn is_wanted(claims: &[Claim<'_>], board: usize, line: usize) -> bool
    ensures { result ≡ list_any (claim_wants board line) claims.now }
{
    for claim in claims {
        if any_alternative(claim.lines.as_slice(), board, line) {
            return true;
        }
    }
    false
}

/// Returns whether one of the lines of a condition, each of which is one of several, is such a reply.
fn any_alternative(lines: &[Vec<Wanted>], board: usize, line: usize) -> bool
    ensures { result ≡ list_any (λ alternatives. list_any (wants_line board line) alternatives)
        (map (λ alternatives. alternatives.items) lines.now) }
{
    for alternatives in lines {
        if any_wants(alternatives.as_slice(), board, line) {
            return true;
        }
    }
    false
}

/// Returns whether one of several lines is such a reply.
fn any_wants(alternatives: &[Wanted], board: usize, line: usize) -> bool
    ensures { result ≡ list_any (wants_line board line) alternatives.now }
{
    for wanted in alternatives {
        if looks_at(wanted.place, board, line) {
            return true;
        }
    }
    false
}

/// Returns whether a place is that of the reply to a line of a script.
fn looks_at(place: Place, own: usize, number: usize) -> bool
    ensures { result ≡ looks_at own number place }
{
    match place {
        Place::Reply { board, line, .. } => own == board && number == line,
        Place::Bytes { .. } => false,
    }
}
