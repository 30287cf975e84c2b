//! The value of a key: names of variables and their bits.
ghost use Rattle.std.specs.Prelude.{◌≡◌, ◌≤◌, ◌<◌, ◌∷◌, [], Ok, Err, MatchResult, IfOk};
ghost use Rattle.vme_line_map.specs.Texts.{number};
ghost use Rattle.vme_line_map.specs.Variables.{Leaves, added};
ghost use Rattle.vme_line_map.specs.Patterns.{and_then, pattern, of_name, one_variable, each_line, range_in, variables_between, line_variable, bits_of, bits_in as bits_said, place_of as placed_name, whole as whole_place, first_address as lowest_address};

use crate::fault::LinesProblem;
use crate::group::Group;
use crate::map::{LineMap, Place, Wanted};
use std::alloc::{AllocError, Global};
use std::fmt::Write;

/// The greatest length of a name.
const NAME_LIMIT: usize = 255;

/// Lines that a name has: from the first of a group on, high where the variable is 0 or not.
#[derive(Clone, Copy)]
struct Named {
    group: Group,
    first: u8,
    is_inverted: bool,
}

/// Adds the variables that a value names: a name; a name with `[N]` or `[N:M]`, some bits of it; or
/// a name with `{FIRST..LAST}`, a variable of one bit for each of these lines. `!` before the name
/// stands for lines that are high where the variable is 0.
///
/// # Errors
///
/// An allocation failed, or what is wrong with the value.
pub(crate) fn add_pattern(
    alloc: Global,
    map: &mut LineMap,
    group: Group,
    first: u8,
    text: &str,
) -> Result<Result<(), LinesProblem>, AllocError>
    ensures { Leaves result map.new (and_then (pattern group first text.now) (added map.old)) }
{
    let (is_inverted, name) = match text.strip_prefix("!") {
        Some(name) => (true, name),
        None => (false, text),
    };
    let named = Named {
        group,
        first,
        is_inverted,
    };
    add_name(alloc, map, named, name)
}

/// Adds the variables of a name without `!`.
fn add_name(
    alloc: Global,
    map: &mut LineMap,
    named: Named,
    name: &str,
) -> Result<Result<(), LinesProblem>, AllocError>
    ensures { Leaves result map.new (and_then (of_name named name.now) (added map.old)) }
{
    if name.is_empty() || NAME_LIMIT < name.len() {
        return Ok(Err(LinesProblem::BadName));
    }
    let Some((before, rest)) = name.split_once("{") else {
        return add_one(map, named, name);
    };
    add_each(alloc, map, named, before, rest)
}

/// Adds one variable.
fn add_one(
    map: &mut LineMap,
    named: Named,
    name: &str,
) -> Result<Result<(), LinesProblem>, AllocError>
    ensures { Leaves result map.new
        (and_then (one_variable named name.now) (added map.old)) }
{
    let (name, place) = match place_of(named.group, named.first, name) {
        Ok(found) => found,
        Err(problem) => return Ok(Err(problem)),
    };
    map.add(&Wanted {
        name: name.as_bytes(),
        group: named.group,
        place,
        is_inverted: named.is_inverted,
    })
}

/// Adds a variable of one bit for each line of a range.
fn add_each(
    alloc: Global,
    map: &mut LineMap,
    named: Named,
    before: &str,
    rest: &str,
) -> Result<Result<(), LinesProblem>, AllocError>
    ensures { Leaves result map.new (and_then (each_line named before.now rest.now) (added map.old)) }
{
    let Some((range, after)) = rest.split_once("}") else {
        return Ok(Err(LinesProblem::BadRange));
    };
    match range_of(named.group, range) {
        Ok(lines) => add_lines(alloc, map, named, (before, after), lines),
        Err(problem) => Ok(Err(problem)),
    }
}

/// The lowest and the highest line of a range.
fn range_of(group: Group, range: &str) -> Result<(u8, u8), LinesProblem>
    ensures range { result ≡ range_in group range.now }
    ensures lines { IfOk result (λ lines. (lines.0 ≤ lines.1) × (lines.1 < 32)) }
{
    let Some((one, other)) = range.split_once("..") else {
        return Err(LinesProblem::BadRange);
    };
    let (Some(one), Some(other)) = (small_number(one), small_number(other)) else {
        return Err(LinesProblem::BadRange);
    };
    let (low, high) = (one.min(other), one.max(other));
    if group.lines() <= high {
        return Err(LinesProblem::TooManyBits);
    }
    Ok((low, high))
}

/// Adds a variable of one bit for each line from one to another.
fn add_lines(
    alloc: Global,
    map: &mut LineMap,
    named: Named,
    name: (&str, &str),
    lines: (u8, u8),
) -> Result<Result<(), LinesProblem>, AllocError>
    requires order { lines.0 ≤ lines.1 }
    requires below { lines.1 < 32 }
    ensures { Leaves result map.new
        (added map.old (variables_between (line_variable named name.entry.0.now name.entry.1.now) lines.0 lines.1)) }
{
    let (low, high) = lines;
    for line in low..high + 1 {
        if let Err(problem) = add_line(alloc, map, named, name, line)? {
            return Ok(Err(problem));
        }
    }
    Ok(Ok(()))
}

/// Adds a variable of one bit for a line.
fn add_line(
    alloc: Global,
    map: &mut LineMap,
    named: Named,
    name: (&str, &str),
    line: u8,
) -> Result<Result<(), LinesProblem>, AllocError>
    ensures { Leaves result map.new
        (added map.old (line_variable named name.entry.0.now name.entry.1.now line ∷ [])) }
{
    let (before, after) = name;
    let mut text = String::new(alloc);
    write!(text, "{before}{line}{after}")?;
    map.add(&Wanted {
        name: text.as_bytes(),
        group: named.group,
        place: Place::From(line),
        is_inverted: named.is_inverted,
    })
}

/// The name without its bits, and which lines they are.
fn place_of(group: Group, first: u8, text: &str) -> Result<(&str, Place), LinesProblem>
    ensures { MatchResult result (λ found. placed_name group first text.now ≡ Ok (found.0.now, found.1))
        (λ problem. placed_name group first text.now ≡ Err problem) }
{
    let Some(inner) = text.strip_suffix("]") else {
        return Ok((text, whole(group, first)));
    };
    let Some((name, indices)) = inner.rsplit_once("[") else {
        return Err(LinesProblem::BadBits);
    };
    match bits_in(group, first, indices) {
        Ok(place) => Ok((name, place)),
        Err(problem) => Err(problem),
    }
}

/// The bits that `N` or `N:M` says.
fn bits_in(group: Group, first: u8, indices: &str) -> Result<Place, LinesProblem>
    ensures { result ≡ bits_said group first indices.now }
{
    let (one, other) = indices.split_once(":").unwrap_or((indices, indices));
    let (Some(one), Some(other)) = (index(one), index(other)) else {
        return Err(LinesProblem::BadBits);
    };
    bits_between(group, first, one, other)
}

/// All bits of a variable.
fn whole(group: Group, first: u8) -> Place
    ensures { result ≡ whole_place group first }
{
    let is_vector = matches!(group, Group::Address | Group::Data | Group::Modifier);
    if is_vector && first == 0 {
        Place::Ranged(0)
    } else {
        Place::From(first)
    }
}

/// The index of a bit.
fn index(text: &str) -> Option<u16>
    ensures { result ≡ number 16 text.now }
{
    text.parse().ok()
}

/// The number below 256 that a text writes.
pub(crate) fn small_number(text: &str) -> Option<u8>
    ensures { result ≡ number 8 text.now }
{
    text.parse().ok()
}

/// The bits between two indices.
fn bits_between(group: Group, first: u8, one: u16, other: u16) -> Result<Place, LinesProblem>
    ensures { result ≡ bits_of group first one other }
{
    let (low, high) = (one.min(other), one.max(other));
    let first = if group == Group::Address && first == 0 {
        first_address(high - low)
    } else {
        first
    };
    if u16::from(group.lines()) <= (high - low).saturating_add(u16::from(first)) {
        return Err(LinesProblem::TooManyBits);
    }
    Ok(Place::Bits { high, low, first })
}

/// The lowest address line of a vector of one bit more than this: A01 if their number is odd, A02
/// if it is two less than a multiple of eight, else A00.
fn first_address(before_last: u16) -> u8
    ensures { result ≡ lowest_address before_last }
{
    if before_last % 2 == 0 {
        1
    } else if before_last % 8 == 5 {
        2
    } else {
        0
    }
}
