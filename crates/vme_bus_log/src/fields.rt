//! The fields of a line, one after another.
ghost use Rattle.std.specs.Prelude.{◌≡◌, ◌≤◌, length, codes, is_some, true, IfOk, IfErr, IsTrue};
ghost use Rattle.std.specs.Option.{option_map};
ghost use Rattle.std.specs.Result.{result_ok};
ghost use Rattle.vme_lexer.specs.Numbers.{hex_digit};
ghost use Rattle.vme_bus_log.specs.Words.{next_word};
ghost use Rattle.vme_bus_log.specs.Faults.{reported, word_fault};
ghost use Rattle.vme_bus_log.specs.Fields.{after_name, value_in, level, level_in, count, count_in, hex_in, is_idle, four_by, shifted, data_lines, data_of, data_in};

use crate::fault::LogFault;
use crate::word::{decimal, next_word};
use vme_lexer::hex_number;

/// The part of a line that is not yet read.
#[derive(Clone, Copy)]
pub(crate) struct Fields<'a> {
    pub(crate) rest: &'a [u8],
}

impl<'a> Fields<'a> {
    /// Returns the fields of a line.
    pub(crate) fn new(line: &'a [u8]) -> Fields<'a>
        ensures { result.rest.now ≡ line.now }
    {
        Fields { rest: line }
    }

    /// Returns the next word without taking it.
    pub(crate) fn peek(&self) -> Option<&'a [u8]>
        ensures { option_map (λ word. word.now) result ≡ option_map (λ word. word.0) (next_word self.now.rest.now) }
    {
        match next_word(self.rest) {
            Some((word, _)) => Some(word),
            None => None,
        }
    }

    /// Takes the next word.
    pub(crate) fn word(&mut self) -> Option<&'a [u8]>
        ensures { option_map (λ word. (word.now, self.new.rest.now)) result ≡ next_word self.old.rest.now }
    {
        let (word, rest) = next_word(self.rest)?;
        self.rest = rest;
        Some(word)
    }

    /// Takes the next word, which begins with this name, and returns what follows the name.
    pub(crate) fn value(&mut self, name: &'static str) -> Result<&'a [u8], LogFault>
        ensures says { option_map (λ value. (value.now, self.new.rest.now)) (result_ok result) ≡ value_in name.now self.old.rest.now }
        ensures why { IfErr result (λ fault. reported fault ≡ word_fault name.now self.old.rest.now) }
        ensures there { IfOk result (λ _. is_some (next_word self.old.rest.now) ≡ true) }
    {
        let Some(word) = self.word() else {
            return Err(LogFault::Missing(name));
        };
        match word.strip_prefix(name.as_bytes()) {
            Some(value) => Ok(value),
            None => Err(LogFault::BadWord(name)),
        }
    }

    /// Takes a level: 0 or 1. Another level is one that a line must not have at an answer.
    pub(crate) fn level(&mut self, name: &'static str) -> Result<bool, LogFault>
        ensures says { option_map (λ it. (it, self.new.rest.now)) (result_ok result) ≡ level_in name.now self.old.rest.now }
        ensures why { IfErr result (λ fault. reported fault ≡ word_fault name.now self.old.rest.now) }
    {
        match self.value(name)? {
            b"0" => Ok(false),
            b"1" => Ok(true),
            _ => Err(LogFault::BadWord(name)),
        }
    }

    /// Takes a decimal number below 2^32.
    pub(crate) fn count(&mut self, name: &'static str) -> Result<u32, LogFault>
        ensures says { option_map (λ it. (it, self.new.rest.now)) (result_ok result) ≡ count_in name.now self.old.rest.now }
        ensures why { IfErr result (λ fault. reported fault ≡ word_fault name.now self.old.rest.now) }
        ensures there { IfOk result (λ _. is_some (next_word self.old.rest.now) ≡ true) }
    {
        match count_of(self.value(name)?) {
            Some(number) => Ok(number),
            None => Err(LogFault::BadWord(name)),
        }
    }

    /// Takes a hexadecimal number of so many digits, at most eight.
    pub(crate) fn hex(&mut self, name: &'static str, digits: usize) -> Result<u32, LogFault>
        requires { digits ≤ 8 }
        ensures says { option_map (λ it. (it, self.new.rest.now)) (result_ok result) ≡ hex_in name.now digits self.old.rest.now }
        ensures why { IfErr result (λ fault. reported fault ≡ word_fault name.now self.old.rest.now) }
        ensures there { IfOk result (λ _. is_some (next_word self.old.rest.now) ≡ true) }
    {
        match hex_number(digits, self.value(name)?) {
            Some(number) => Ok(number),
            None => Err(LogFault::BadWord(name)),
        }
    }

    /// Takes the data lines: eight or sixteen digits, of which those of idle lines are none. Returns
    /// the levels, the idle lines, and whether there are sixteen.
    pub(crate) fn data(&mut self, name: &'static str) -> Result<(u64, u64, bool), LogFault>
        ensures says { option_map (λ it. (it, self.new.rest.now)) (result_ok result) ≡ data_in name.now self.old.rest.now }
        ensures why { IfErr result (λ fault. reported fault ≡ word_fault name.now self.old.rest.now) }
    {
        let word = self.value(name)?;
        match data_lines(word) {
            Some((lines, idle)) => Ok((lines, idle, word.len() == 16)),
            None => Err(LogFault::BadWord(name)),
        }
    }
}

/// The decimal number below 2^32 that a word spells.
fn count_of(word: &[u8]) -> Option<u32>
    ensures { result ≡ count word.now }
{
    u32::try_from(decimal(word)?).ok()
}

/// The levels of the data lines that a word spells, and those that carry nothing.
fn data_lines(word: &[u8]) -> Option<(u64, u64)>
    ensures { result ≡ data_lines word.now }
{
    if word.len() != 8 && word.len() != 16 {
        return None;
    }
    let mut lines: u64 = 0;
    let mut idle: u64 = 0;
    for byte in word {
        let (four, none) = four_of(*byte)?;
        lines = shifted(lines, four);
        idle = shifted(idle, none);
    }
    Some((lines, idle))
}

/// The levels of lines with those of four more below them.
fn shifted(lines: u64, four: u64) -> u64
    ensures { result ≡ shifted lines four }
{
    lines.wrapping_mul(16).wrapping_add(four)
}

/// The levels of four lines by a digit, and those that carry nothing.
fn four_of(byte: u8) -> Option<(u64, u64)>
    ensures { result ≡ four_by (is_idle byte) (hex_digit byte) }
{
    match byte {
        b'0'..=b'9' => Some((u64::from(byte - b'0'), 0)),
        b'a'..=b'f' => Some((u64::from(byte - b'a') + 10, 0)),
        b'A'..=b'F' => Some((u64::from(byte - b'A') + 10, 0)),
        b'-' | b'z' | b'Z' | b'x' | b'X' | b'u' | b'U' | b'w' | b'W' => Some((0, 15)),
        _ => None,
    }
}
