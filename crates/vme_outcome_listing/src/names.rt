//! What the lines of conditions name in a configuration.
ghost use Rattle.std.specs.Prelude.{ℕ, ◌≡◌, ◌<◌, ◌+◌, ◌*◌, List, Some, All, IfOk, IfSome, IsTrue, length, map, take, slice_get};
ghost use Rattle.vme_grammar.specs.Texts.{output_line};
ghost use Rattle.vme_script.specs.declared.script.ScriptLine.{ScriptLine};
ghost use Rattle.vme_outcome_listing.specs.Texts.{slots_of};
ghost use Rattle.vme_outcome_listing.specs.Places.{HasPlace, Names};
ghost use Rattle.vme_outcome_listing.specs.Conditions.{AreNamed, lines_in, alternatives_of, IsClaim};
ghost use Rattle.vme_outcome_listing.specs.EngineTexts.{AreClaims};

use crate::claim::{Claim, Wanted};
use crate::condition::{Condition, trimmed_parts};
use crate::kept::Kept;
use crate::place::Place;
use crate::replies::{is_digits_of, may_reply};
use std::alloc::{AllocError, Global};
use vme_script::Config;

/// Returns what conditions want, or the index of the first condition with a line that can be in no
/// outcome of the file.
pub(crate) fn claims_of<'a>(
    alloc: Global,
    config: &Config,
    conditions: &'a [Condition<'a>],
) -> Result<Result<Vec<Claim<'a>>, usize>, AllocError>
    ensures { IfOk result (λ named. IfOk named (λ claims.
        AreClaims config.now conditions.now claims.items)) }
{
    let mut claims = Vec::with_capacity(alloc, conditions.len())?;
    for i in 0..conditions.len() {
        let condition = &conditions[i];
        match lines_of(alloc, config, condition.wanted())? {
            Some(lines) => claims.push(Claim { condition, lines })?,
            None => return Ok(Err(i)),
        }
    }
    Ok(Ok(claims))
}

/// Returns the index of the first of the lines that are kept which is no line of a script.
pub(crate) fn first_missing(
    alloc: Global,
    config: &Config,
    kept: Option<&Kept>,
) -> Result<Option<usize>, AllocError> {
    let Some(kept) = kept else {
        return Ok(None);
    };
    for (i, head) in kept.heads().iter().enumerate() {
        if head.as_slice() != b"mem ".as_slice() && !is_head(alloc, config, head.as_slice())? {
            return Ok(Some(i));
        }
    }
    Ok(None)
}

/// Returns whether the reply to a line of a script begins so.
fn is_head(alloc: Global, config: &Config, head: &[u8]) -> Result<bool, AllocError> {
    for board in 0..config.boards() {
        let script = config.script(board);
        for line in 0..script.len() {
            let place = Place::Reply {
                slot: config.slot(board),
                number: script.number(line),
                board,
                line,
            };
            let mut text = Vec::new(alloc);
            place.append_head(&mut text)?;
            if text.as_slice() == head {
                return Ok(true);
            }
        }
    }
    Ok(false)
}

/// Returns what the lines of a condition want, or `None` if one of them can be in no outcome.
fn lines_of(
    alloc: Global,
    config: &Config,
    lines: &[&str],
) -> Result<Option<Vec<Vec<Wanted>>>, AllocError>
    ensures texts { IfOk result (λ found. IfSome found (λ wanted.
        map lines_in (map (λ a. a.items) wanted.items)
        ≡ map alternatives_of (map (λ line. line.now) lines.now))) }
    ensures named { IfOk result (λ found. IfSome found (λ wanted.
        All (AreNamed config.now) (map (λ a. a.items) wanted.items))) }
{
    let mut wanted = Vec::with_capacity(alloc, lines.len())?;
    for line in lines {
        let texts = trimmed_parts(alloc, line, '|')?;
        match alternatives(alloc, config, texts.as_slice())? {
            Some(alternatives) => wanted.push(alternatives)?,
            None => return Ok(None),
        }
    }
    Ok(Some(wanted))
}

/// Returns the lines with these texts, or `None` if one of them can be in no outcome.
fn alternatives(
    alloc: Global,
    config: &Config,
    texts: &[&str],
) -> Result<Option<Vec<Wanted>>, AllocError>
    ensures texts { IfOk result (λ found. IfSome found (λ wanted.
        lines_in wanted.items ≡ map output_line (map (λ text. text.now) texts.now))) }
    ensures named { IfOk result (λ found. IfSome found (λ wanted. AreNamed config.now wanted.items)) }
{
    let mut wanted = Vec::with_capacity(alloc, texts.len())?;
    for text in texts {
        match wanted_of(alloc, config, text)? {
            Some(one) => wanted.push(one)?,
            None => return Ok(None),
        }
    }
    Ok(Some(wanted))
}

/// Returns the line with this text, or `None` if it can be in no outcome.
#[tactic(auto, using(crate::proofs::Claims::named))]
fn wanted_of(alloc: Global, config: &Config, text: &str) -> Result<Option<Wanted>, AllocError>
    ensures text { IfOk result (λ found. IfSome found (λ one. one.line ≡ output_line text.now)) }
    ensures named { IfOk result (λ found. IfSome found (λ one. Names config.now one.line one.place)) }
{
    let Some(place) = place_of(alloc, config, text)? else {
        return Ok(None);
    };
    let mut line = Vec::new(alloc);
    line.extend_from_slice(text.as_bytes())?;
    line.extend_from_slice(b"\n")?;
    let mut head = Vec::new(alloc);
    place.append_head(&mut head)?;
    if !begins(line.as_slice(), head.as_slice()) || !fits(place, head.len(), line.len()) {
        return Ok(None);
    }
    Ok(Some(Wanted { place, line }))
}

/// Returns whether a line begins with a text.
fn begins(line: &[u8], head: &[u8]) -> bool
    ensures { IsTrue result → take (length head.now) line.now ≡ head.now }
{
    if line.len() < head.len() {
        return false;
    }
    let (start, _rest) = line.split_at(head.len());
    start == head
}

/// Returns whether a line of some length, with its end, has two digits for each byte of its place
/// behind what it begins with.
fn fits(place: Place, head: usize, line: usize) -> bool
    ensures { (slot board offset count : ℕ) → place ≡ Place.Bytes slot board offset count →
        IsTrue result → line ≡ head + 2 * count + 1 }
{
    match place {
        Place::Reply { .. } => true,
        Place::Bytes { count, .. } => match line.checked_sub(head) {
            Some(rest) => rest as u64 == 2 * u64::from(count) + 1,
            None => false,
        },
    }
}

/// Returns the place that a text names, or `None` if no outcome has such a line.
fn place_of(alloc: Global, config: &Config, text: &str) -> Result<Option<Place>, AllocError>
    ensures { IfOk result (λ found. IfSome found (HasPlace config.now)) }
{
    let Some((first, rest)) = text.split_once(' ') else {
        return Ok(None);
    };
    if first == "mem" {
        return bytes_place(alloc, config, rest);
    }
    let Some((slot, number)) = first.split_once(':') else {
        return Ok(None);
    };
    reply_place(alloc, config, slot, number, rest)
}

/// Returns the place of the reply to a line, or `None` if there is no such line or it cannot have
/// this reply.
fn reply_place(
    alloc: Global,
    config: &Config,
    slot: &str,
    number: &str,
    reply: &str,
) -> Result<Option<Place>, AllocError>
    ensures { IfOk result (λ found. IfSome found (HasPlace config.now)) }
{
    let Some((slot, board)) = board_in(config, slot) else {
        return Ok(None);
    };
    let Some((number, line)) = line_at(config, board, number) else {
        return Ok(None);
    };
    if !may_reply(alloc, config, board, line, reply)? {
        return Ok(None);
    }
    Ok(Some(Place::Reply {
        slot,
        number,
        board,
        line,
    }))
}

/// Returns the place of bytes of a board's memory, or `None` if the memory does not have them.
fn bytes_place(alloc: Global, config: &Config, text: &str) -> Result<Option<Place>, AllocError>
    ensures { IfOk result (λ found. IfSome found (HasPlace config.now)) }
{
    let Some((slot, rest)) = text.split_once(' ') else {
        return Ok(None);
    };
    let Some((offset, bytes)) = rest.split_once(' ') else {
        return Ok(None);
    };
    let Some((slot, board)) = board_in(config, slot) else {
        return Ok(None);
    };
    let Ok(memory) = config.memory(alloc, board) else {
        return Err(AllocError);
    };
    let Ok(offset) = u32::from_str_radix(offset, 16) else {
        return Ok(None);
    };
    let Ok(count) = u32::try_from(bytes.len() / 2) else {
        return Ok(None);
    };
    let size = memory.size();
    if count == 0
        || size < offset
        || size - offset < count
        || !is_digits_of(bytes, bytes.len() / 2)
    {
        return Ok(None);
    }
    Ok(Some(Place::Bytes {
        slot,
        board,
        offset,
        count,
    }))
}

/// Returns a slot and the index of its board.
fn board_in(config: &Config, slot: &str) -> Option<(u16, usize)>
    ensures board { IfSome result (λ found. found.1 < length config.now.boards) }
    ensures slot { IfSome result (λ found. slice_get (slots_of config.now) found.1 ≡ Some found.0) }
{
    let slot: u16 = slot.parse().ok()?;
    for board in 0..config.boards() {
        if config.slot(board) == slot {
            return Some((slot, board));
        }
    }
    None
}

/// Returns the number of a line and its index in a board's script.
fn line_at(config: &Config, board: usize, number: &str) -> Option<(u16, usize)>
    requires { board < length config.now.boards }
    ensures line { IfSome result (λ found. (script : List ScriptLine) →
        slice_get config.now.scripts board ≡ Some script → found.1 < length script) }
    ensures number { IfSome result (λ found. (script : List ScriptLine) →
        slice_get config.now.scripts board ≡ Some script →
        slice_get (map (λ line. line.number) script) found.1 ≡ Some found.0) }
{
    let number: u16 = number.parse().ok()?;
    let script = config.script(board);
    for line in 0..script.len() {
        if script.number(line) == number {
            return Some((number, line));
        }
    }
    None
}
