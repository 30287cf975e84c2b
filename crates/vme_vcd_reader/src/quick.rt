//! Times, and changes of 0 and 1, that stand whole on a line: most of a dump, read at once.
ghost use Rattle.std.specs.Prelude.{◌≡◌, ◌≢◌, ◌∷◌, IfSome};
ghost use Rattle.vme_vcd_reader.specs.declared.bits.Bits.{Bits};
ghost use Rattle.vme_vcd_reader.specs.Lines.{IsChangeLine, IsNameLine, IsTimeLine};
ghost use Rattle.vme_vcd_reader.specs.Names.{no_identifier};

use crate::bits::Bits;
use crate::identifier::{NO_IDENTIFIER, with_character};

/// A change that stands whole on a line at the start of a text.
#[derive(Clone, Copy)]
pub(crate) struct Quick<'a> {
    pub(crate) identifier: u64,
    pub(crate) bits: Bits,
    /// The text after the line.
    pub(crate) rest: &'a [u8],
}

/// A time that stands whole on a line at the start of a text.
#[derive(Clone, Copy)]
pub(crate) struct QuickTime<'a> {
    pub(crate) time: u64,
    /// The text after the line.
    pub(crate) rest: &'a [u8],
}

/// The greatest time to which a digit is appended here.
const MOST: u64 = 1 << 60;

/// Returns the time of less than 2^60 that stands whole on a line at the start of a text, if there is
/// one.
#[inline]
pub(crate) fn quick_time(text: &[u8]) -> Option<QuickTime<'_>>
    ensures { IfSome result (λ quick. IsTimeLine text.now quick.rest.now quick.time) }
{
    let [b'#', digits @ ..] = text else {
        return None;
    };
    let mut time: u64 = 0;
    for (place, byte) in digits.iter().enumerate() {
        let digit = byte.wrapping_sub(b'0');
        if digit <= 9 {
            time = time.wrapping_mul(10).wrapping_add(u64::from(digit));
            if MOST <= time {
                return None;
            }
        } else if *byte == b'\n' {
            if place == 0 {
                return None;
            }
            let rest = digits.get(place.saturating_add(1)..)?;
            return Some(QuickTime { time, rest });
        } else {
            return None;
        }
    }
    None
}

/// Returns the change of 0 and 1 that stands whole on a line at the start of a text, with one space
/// and an identifier of at most three characters, if there is one.
#[inline]
pub(crate) fn quick_change(text: &[u8]) -> Option<Quick<'_>>
    ensures { IfSome result (λ quick. IsChangeLine text.now quick.rest.now quick.identifier quick.bits) }
{
    let [first, rest @ ..] = text else {
        return None;
    };
    if *first == b'b' {
        return quick_vector(rest);
    }
    let bit = first.wrapping_sub(b'0');
    if bit <= 1 {
        return quick_end(u64::from(bit), rest);
    }
    None
}

/// The change of a vector after its `b`.
#[inline]
fn quick_vector(digits: &[u8]) -> Option<Quick<'_>>
    ensures { IfSome result (λ quick. IsChangeLine (98 ∷ digits.now) quick.rest.now quick.identifier quick.bits) }
{
    let mut ones: u64 = 0;
    for (place, digit) in digits.iter().enumerate() {
        let bit = digit.wrapping_sub(b'0');
        if bit <= 1 {
            ones = ones.wrapping_shl(1) | u64::from(bit);
        } else if *digit == b' ' {
            if place == 0 {
                return None;
            }
            let rest = digits.get(place.saturating_add(1)..)?;
            return quick_end(ones, rest);
        } else {
            return None;
        }
    }
    None
}

/// The identifier and the end of a line.
#[inline]
fn quick_end(ones: u64, text: &[u8]) -> Option<Quick<'_>>
    ensures name { IfSome result (λ quick. IsNameLine text.now quick.rest.now quick.identifier) }
    ensures bits { IfSome result (λ quick. quick.bits ≡ record { ones = ones; free = 0; undefined = 0 }) }
{
    let [one, two, rest @ ..] = text else {
        return None;
    };
    let first = with_character(0, *one);
    if *two == b'\n' {
        return named(ones, first, rest);
    }
    let [three, rest @ ..] = rest else {
        return None;
    };
    let second = with_character(first, *two);
    if *three == b'\n' {
        return named(ones, second, rest);
    }
    let [four, rest @ ..] = rest else {
        return None;
    };
    let third = with_character(second, *three);
    if *four == b'\n' {
        return named(ones, third, rest);
    }
    None
}

/// The change of a variable, unless its identifier is none.
#[inline]
fn named(ones: u64, identifier: u64, rest: &[u8]) -> Option<Quick<'_>>
    ensures some { IfSome result (λ quick. identifier ≢ no_identifier) }
    ensures number { IfSome result (λ quick. quick.identifier ≡ identifier) }
    ensures rest { IfSome result (λ quick. quick.rest.now ≡ rest.now) }
    ensures bits { IfSome result (λ quick. quick.bits ≡ record { ones = ones; free = 0; undefined = 0 }) }
{
    if identifier == NO_IDENTIFIER {
        return None;
    }
    Some(Quick {
        identifier,
        bits: Bits {
            ones,
            free: 0,
            undefined: 0,
        },
        rest,
    })
}
