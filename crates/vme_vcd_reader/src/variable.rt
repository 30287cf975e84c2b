//! A variable of the header.
ghost use Rattle.std.specs.Prelude.{◌≡◌, ◌<◌, ◌≤◌, ◌+◌, ◌-◌, ◌^◌, ◌==◌, length, IfSome};
ghost use Rattle.std.specs.List.{position};
ghost use Rattle.std.specs.Option.{option_map};
ghost use Rattle.vme_vcd_reader.specs.Headers.{small_number, with_small_digit};
ghost use Rattle.vme_line_map.specs.Variables.{shown};
ghost use Rattle.vme_vcd_reader.specs.Mapping.{declaration_of, lowest_address, lowest_line, mapped_of, right_of, span_of};
ghost use Rattle.vme_vcd_reader.specs.Ranges.{cut_range, last_place, named, range_of};

use vme_line_map::{Group, Place, Wanted};

/// Which bits of a variable are which lines of their group.
#[derive(Clone, Copy, Debug, PartialEq, Eq)]
pub(crate) struct Mapped {
    pub(crate) group: Group,
    /// The bits before the first line, from the right.
    pub(crate) right: u8,
    /// The line of that bit.
    pub(crate) first: u8,
    /// The lines of the group.
    pub(crate) mask: u32,
    pub(crate) size: u16,
    pub(crate) is_inverted: bool,
}

/// Returns the name without the range that may be appended, and the range.
pub(crate) fn named_variable(name: &[u8]) -> (&[u8], Option<(u16, u16)>)
    ensures { (result.0.now, result.1) ≡ named name.now }
{
    let Some((before, inner)) = cut_range(name) else {
        return (name, None);
    };
    match range_of(inner) {
        Some(range) => (before, Some(range)),
        None => (name, None),
    }
}

/// The last index of `[`.
fn last_bracket(text: &[u8]) -> Option<usize>
    ensures place { result ≡ last_place 91 text.now }
    ensures within { IfSome result (λ place. place < length text.now) }
{
    let mut last = None;
    for (place, byte) in text.iter().enumerate() {
        if *byte == b'[' {
            last = Some(place);
        }
    }
    last
}

/// The name before the last `[`, and what stands between it and `]` at the end.
fn cut_range(whole: &[u8]) -> Option<(&[u8], &[u8])>
    ensures { option_map (λ cut. (cut.0.now, cut.1.now)) result ≡ cut_range whole.now }
{
    let inner = whole.strip_suffix(b"]")?;
    let place = last_bracket(inner)?;
    Some((&inner[..place], &inner[place + 1..]))
}

/// The first index of `:`.
fn colon(text: &[u8]) -> Option<usize>
    ensures place { result ≡ position (λ b. b == 58) text.now }
    ensures within { IfSome result (λ place. place < length text.now) }
{
    text.iter().position(|byte| *byte == b':')
}

/// The two indices of a range, or one index twice.
fn range_of(inner: &[u8]) -> Option<(u16, u16)>
    ensures { result ≡ range_of inner.now }
{
    let Some(place) = colon(inner) else {
        let one = number(inner)?;
        return Some((one, one));
    };
    let one = number(&inner[..place])?;
    let other = number(&inner[place + 1..])?;
    Some((one, other))
}

/// Returns a number with one more decimal digit, if it is below 65536.
fn with_digit(number: u16, byte: u8) -> Option<u16>
    ensures { result ≡ with_small_digit number byte }
{
    if byte < b'0' || b'9' < byte {
        return None;
    }
    number.checked_mul(10)?.checked_add(u16::from(byte - b'0'))
}

/// The number that one to five decimal digits spell, if it is below 65536.
pub(crate) fn number(digits: &[u8]) -> Option<u16>
    ensures { result ≡ small_number digits.now }
{
    if digits.is_empty() || 5 < digits.len() {
        return None;
    }
    let mut number: u16 = 0;
    for byte in digits {
        number = with_digit(number, *byte)?;
    }
    Some(number)
}

/// A variable that the header declares.
#[derive(Clone, Copy)]
pub(crate) struct Declared<'a> {
    /// Its path, without the range behind it.
    pub(crate) path: &'a [u8],
    /// The number of scopes that were opened before it.
    pub(crate) scope: u64,
    pub(crate) identifier: u64,
    pub(crate) size: u16,
    /// The indices of its first and its last bit, if it has a range.
    pub(crate) range: Option<(u16, u16)>,
}

/// Some bits of a variable as lines.
#[derive(Clone, Copy, Debug)]
pub(crate) struct Span {
    /// The bits before the first line, from the right.
    right: u32,
    /// The line of that bit.
    first: u32,
    count: u32,
}

/// The number of bits right of that with an index.
fn right_of(range: Option<(u16, u16)>, index: u16) -> u16
    ensures { result ≡ right_of range index }
{
    match range {
        Some((_, last)) => index.max(last) - index.min(last),
        None => index,
    }
}

/// The lowest line of an address whose variable has no range.
fn lowest_address(size: u16) -> u16
    ensures { result ≡ lowest_address size }
{
    if size % 2 == 1 {
        1
    } else if size % 8 == 6 {
        2
    } else {
        0
    }
}

/// The lowest line of a variable that has all bits from some line on.
fn lowest_line(group: Group, size: u16, range: Option<(u16, u16)>) -> u16
    ensures { result ≡ lowest_line group size range }
{
    match (range, group) {
        (Some((one, other)), _) => one.min(other),
        (None, Group::Address) => lowest_address(size),
        (None, _) => 0,
    }
}

/// The lines from one to before another, of at most 32.
fn lines_between(first: u32, end: u32) -> u32
    requires order { first ≤ end }
    requires most { end ≤ 32 }
    ensures { result ≡ 2 ^ end - 2 ^ first }
{
    ((1u64 << end) - (1u64 << first)) as u32
}

/// The bits that a place says.
fn span_of(group: Group, place: Place, size: u16, range: Option<(u16, u16)>) -> Option<Span>
    ensures span { result ≡ span_of group place size range }
    ensures within { 1 ≤ size → IfSome result (λ s. s.right < size) }
    ensures some { 1 ≤ size → IfSome result (λ s. 1 ≤ s.count) }
    ensures few { IfSome result (λ s. s.first + s.count < 2 ^ 18) }
{
    match place {
        Place::From(first) => Some(Span {
            right: 0,
            first: u32::from(first),
            count: u32::from(size),
        }),
        Place::Ranged(more) => Some(Span {
            right: 0,
            first: u32::from(lowest_line(group, size, range)) + u32::from(more),
            count: u32::from(size),
        }),
        Place::Bits { high, low, first } => {
            let (above, below) = (right_of(range, high), right_of(range, low));
            if above < size && below < size && low <= high {
                Some(Span {
                    right: u32::from(above.min(below)),
                    first: u32::from(first),
                    count: u32::from(high - low) + 1,
                })
            } else {
                None
            }
        }
    }
}

impl Declared<'_> {
    /// Returns which bits are lines, or `None` if they are others than the map says, or more than 64.
    pub(crate) fn mapped(&self, wanted: &Wanted<'_>) -> Option<Mapped>
        ensures { result ≡ mapped_of (shown wanted.now) (declaration_of self.now) }
    {
        if self.size < 1 || 64 < self.size {
            return None;
        }
        let span = span_of(wanted.group, wanted.place, self.size, self.range)?;
        let end = span.first + span.count;
        if u32::from(wanted.group.lines()) < end {
            return None;
        }
        Some(Mapped {
            group: wanted.group,
            right: span.right as u8,
            first: span.first as u8,
            mask: lines_between(span.first, end),
            size: self.size,
            is_inverted: wanted.is_inverted,
        })
    }
}
