//! The body of a dump, byte by byte.
ghost use Rattle.std.specs.Prelude.{◌≡◌, ◌==◌, ◌++◌, ◌∷◌, ℕ, List, [], codes, if◌then◌else◌, true, None, IfOk, IfErr, OnOk, OnErr, IsTrue, ◌↔◌};
ghost use Rattle.vme_vcd_reader.specs.declared.bits.Level.{Level};
ghost use Rattle.vme_vcd_reader.specs.declared.body.Place.TheVariants.{Gap, Comment};
ghost use Rattle.vme_vcd_reader.specs.declared.fault.VcdFault.TheVariants.{BadTime, BadValue, UnknownWord};
ghost use Rattle.vme_vcd_reader.specs.Faults.{word_fault};
ghost use Rattle.vme_vcd_reader.specs.Levels.{IsValue, level_of, value_of};
ghost use Rattle.vme_vcd_reader.specs.Names.{identifier_of};
ghost use Rattle.vme_vcd_reader.specs.Places.{HasDigits, HasOpened, HasTime, IsAt, Takes, may_end};
ghost use Rattle.vme_vcd_reader.specs.Words.{Awaited, Statement, NoWord, blank_says, byte_says, opening, with_digit};

use crate::bits::{Bits, Level, level_of};
use crate::fault::VcdFault;
use crate::identifier::{identifier_of, with_character};
use crate::word::is_blank;

/// What the next byte of the body belongs to.
#[derive(Clone, Copy, Debug, PartialEq, Eq)]
enum Place {
    /// The blanks between words.
    Gap,
    Time,
    /// The identifier of a change.
    Identifier,
    /// The digits of a vector.
    Digits,
    /// The blanks after the digits.
    DigitsEnd,
    /// A value that is not read: a real number or a text.
    Value,
    /// The blanks after it.
    ValueEnd,
    /// The identifier after it.
    ValueIdentifier,
    Keyword,
    /// The words of a comment, and the blanks between them.
    Comment,
}

/// What a byte of the body completes.
#[derive(Clone, Copy, Debug, PartialEq, Eq)]
pub(crate) enum Said {
    Nothing,
    Time(u64),
    /// The change of the variable with this identifier.
    Change(u64),
}

/// The body as far as it is read.
#[derive(Clone, Copy, Debug)]
pub(crate) struct Body {
    place: Place,
    /// The time, identifier or keyword that is read.
    number: u64,
    bits: Bits,
    /// The first level of the value, and the number of its digits.
    first: Level,
    digits: u32,
}

/// Returns a number with one more decimal digit, if it is below 2^64.
fn with_digit(number: u64, byte: u8) -> Option<u64>
    ensures { result ≡ with_digit number byte }
{
    if byte < b'0' || b'9' < byte {
        return None;
    }
    number.checked_mul(10)?.checked_add(u64::from(byte - b'0'))
}

impl Body {
    /// Returns the body before its first byte.
    pub(crate) fn new() -> Body
        ensures { IsAt Statement [] result }
    {
        Body {
            place: Place::Gap,
            number: 0,
            bits: Bits::LOW,
            first: Level::Low,
            digits: 0,
        }
    }

    /// Returns the value of the change that was completed.
    #[inline]
    pub(crate) fn bits(&self) -> Bits
        ensures { (levels : List Level) → IsValue levels self.now.bits self.now.first self.now.digits → result ≡ value_of levels }
    {
        self.bits.extended(self.first, self.digits)
    }

    /// Takes a byte.
    #[inline]
    pub(crate) fn push(&mut self, byte: u8) -> Result<Said, VcdFault>
        ensures says { (awaited : Awaited) → (word : List ℕ) → IsAt awaited word self.old →
            IfOk result (λ said. Takes (byte_says awaited word byte) said self.new) }
        ensures fault { (awaited : Awaited) → (word : List ℕ) → IsAt awaited word self.old →
            OnErr result (NoWord awaited word byte) }
        ensures why { (awaited : Awaited) → (word : List ℕ) → IsAt awaited word self.old →
            IfErr result (λ fault. fault ≡ word_fault awaited word) }
    {
        if is_blank(byte) {
            return self.end_word();
        }
        match self.place {
            Place::Identifier | Place::Keyword => {
                self.number = with_character(self.number, byte);
            }
            Place::Digits => self.digit(byte)?,
            Place::Gap => self.begin(byte)?,
            Place::Time => self.time(byte)?,
            Place::DigitsEnd => {
                self.place = Place::Identifier;
                self.number = with_character(0, byte);
            }
            Place::ValueEnd => self.place = Place::ValueIdentifier,
            Place::Comment => self.number = with_character(self.number, byte),
            Place::Value | Place::ValueIdentifier => {}
        }
        Ok(Said::Nothing)
    }

    /// Begins a word.
    #[inline]
    fn begin(&mut self, byte: u8) -> Result<(), VcdFault>
        ensures begun { OnOk result (HasOpened byte [] self.new (opening byte)) }
        ensures fault { OnErr result (opening byte ≡ None) }
        ensures why { IfErr result (λ fault. fault ≡ UnknownWord) }
    {
        self.number = 0;
        match byte {
            b'#' => {
                self.place = Place::Time;
                self.digits = 0;
            }
            b'b' | b'B' => {
                self.place = Place::Digits;
                self.bits = Bits::LOW;
                self.first = Level::Low;
                self.digits = 0;
            }
            b'r' | b'R' | b's' | b'S' => self.place = Place::Value,
            b'$' => {
                self.place = Place::Keyword;
                self.number = with_character(0, byte);
            }
            _ => {
                let Some(level) = level_of(byte) else {
                    return Err(VcdFault::UnknownWord);
                };
                self.place = Place::Identifier;
                self.bits = Bits::LOW.with(level);
                self.first = level;
                self.digits = 1;
            }
        }
        Ok(())
    }

    /// Takes a digit of a vector.
    #[inline]
    fn digit(&mut self, byte: u8) -> Result<(), VcdFault>
        ensures more { OnOk result ((digits : List ℕ) → HasDigits digits self.old → HasDigits (digits ++ byte ∷ []) self.new) }
        ensures fault { OnErr result (level_of byte ≡ None) }
        ensures why { IfErr result (λ fault. fault ≡ BadValue) }
    {
        let Some(level) = level_of(byte) else {
            return Err(VcdFault::BadValue);
        };
        self.first = if self.digits == 0 { level } else { self.first };
        self.bits = self.bits.with(level);
        self.digits = self.digits.saturating_add(1);
        Ok(())
    }

    /// Takes a digit of a time.
    fn time(&mut self, byte: u8) -> Result<(), VcdFault>
        ensures more { OnOk result ((digits : List ℕ) → HasTime digits self.old → HasTime (digits ++ byte ∷ []) self.new) }
        ensures fault { OnErr result (with_digit self.old.number byte ≡ None) }
        ensures why { IfErr result (λ fault. fault ≡ BadTime) }
    {
        let Some(number) = with_digit(self.number, byte) else {
            return Err(VcdFault::BadTime);
        };
        self.number = number;
        self.digits = self.digits.saturating_add(1);
        Ok(())
    }

    /// Ends a word at a blank.
    #[inline]
    fn end_word(&mut self) -> Result<Said, VcdFault>
        ensures says { (awaited : Awaited) → (word : List ℕ) → IsAt awaited word self.old →
            IfOk result (λ said. Takes (blank_says awaited word) said self.new) }
        ensures fault { (awaited : Awaited) → (word : List ℕ) → IsAt awaited word self.old →
            OnErr result (blank_says awaited word ≡ None) }
        ensures why { (awaited : Awaited) → (word : List ℕ) → IsAt awaited word self.old →
            IfErr result (λ fault. fault ≡ word_fault awaited word) }
    {
        match self.place {
            Place::Gap | Place::DigitsEnd | Place::ValueEnd => {}
            Place::Identifier => {
                self.place = Place::Gap;
                if self.number == 0 {
                    return Err(VcdFault::NoIdentifier);
                }
                return Ok(Said::Change(self.number));
            }
            Place::Time if self.digits == 0 => return Err(VcdFault::BadTime),
            Place::Time => {
                self.place = Place::Gap;
                return Ok(Said::Time(self.number));
            }
            Place::Digits if self.digits == 0 => return Err(VcdFault::BadValue),
            Place::Digits => self.place = Place::DigitsEnd,
            Place::Value => self.place = Place::ValueEnd,
            Place::ValueIdentifier => self.place = Place::Gap,
            Place::Keyword => self.end_keyword(),
            Place::Comment => {
                if self.number == identifier_of(b"$end") {
                    self.place = Place::Gap;
                }
                self.number = 0;
            }
        }
        Ok(Said::Nothing)
    }

    /// Ends a keyword: a comment goes on to `$end`.
    fn end_keyword(&mut self)
        ensures place { self.new.place ≡ (if self.old.number == identifier_of (codes "$comment") then Comment else Gap) }
        ensures number { self.new.number ≡ 0 }
    {
        self.place = if self.number == identifier_of(b"$comment") {
            Place::Comment
        } else {
            Place::Gap
        };
        self.number = 0;
    }

    /// Returns whether the next byte begins a word.
    #[inline]
    pub(crate) fn is_between(&self) -> bool
        ensures { IsTrue result ↔ (self.now.place ≡ Gap) }
    {
        self.place == Place::Gap
    }

    /// Returns whether the text may end here, after a blank.
    pub(crate) fn may_end(&self) -> bool
        ensures { (awaited : Awaited) → IsAt awaited [] self.now → result ≡ may_end awaited }
    {
        self.place == Place::Gap || self.place == Place::Comment
    }
}
