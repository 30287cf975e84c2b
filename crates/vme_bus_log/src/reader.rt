//! The lines of a log, of which a text comes in pieces.
ghost use Rattle.std.specs.Prelude.{◌≡◌, ◌≢◌, true, ◌+◌, ◌-◌, ◌^◌, List, ℕ, [], ◌∷◌, ◌++◌, Ok, min, OnOk, OnErr};
ghost use Rattle.vme_bus_log.specs.declared.entry.LogEntry.TheVariants.{Nothing};
ghost use Rattle.vme_bus_log.specs.Faults.{returned};
ghost use Rattle.vme_bus_log.specs.Texts.{log_says, EndsNoLine, SaysAs};

use crate::entry::LogEntry;
use crate::fault::LogFault;
use crate::parse::{parse_entry, parse_line};
use arrayvec::ArrayVec;
use std::marker::Model;

/// The greatest number of bytes of a line, without its comment.
pub const LINE_LIMIT: usize = 255;

/// A reader of a log: it takes the lines of a text one after another, and keeps the begin of one that
/// is not at its end.
#[derive(Drop)]
pub struct LogReader {
    line: ArrayVec<u8, LINE_LIMIT>,
    number: u64,
    is_comment: bool,
    is_long: bool,
}

impl Model for LogReader {
    ghost use Rattle.vme_bus_log.specs.Texts.{Reading, line_so_far, IsKept};

    ghost Value = { Reading };

    ghost view = { λ r. record { line = line_so_far r.line.items r.is_long r.is_comment; number = r.number } };

    ghost invariant = { λ r. IsKept r.line.items r.is_long };
}

impl LogReader {
    /// Returns a reader before the first byte.
    pub fn new() -> LogReader
        ensures { result ≡ record { line = []; number = 1 } }
    {
        LogReader {
            line: ArrayVec::new(),
            number: 1,
            is_comment: false,
            is_long: false,
        }
    }

    /// Returns the number of the line that has the next byte, from 1.
    pub fn number(&self) -> u64
        ensures { result ≡ self.now.number }
    {
        self.number
    }

    /// Takes bytes of a line, none of which ends it.
    #[tactic(auto, using(crate::proofs::Lines::says_more))]
    pub fn keep_all(&mut self, part: &[u8])
        requires { EndsNoLine part.now }
        ensures begin { SaysAs (self.old.line ++ part.now) self.new.line }
        ensures number { self.new.number ≡ self.old.number }
    {
        for byte in part {
            self.keep(*byte);
        }
    }

    /// Takes the rest of a line, without its line feed, and returns what the line says. A line of
    /// which nothing was taken before is read where it lies.
    ///
    /// # Errors
    ///
    /// Why the line is none of a bus log. `number` is then its number.
    pub fn end_with(&mut self, part: &[u8]) -> Result<LogEntry, LogFault>
        requires { EndsNoLine part.now }
        ensures ends { (rest : List ℕ) →
            log_says (self.old.line ++ (part.now ++ 10 ∷ rest)) ≡ returned result ∷ log_says rest }
        ensures next { OnOk result (self.new ≡
            record { line = []; number = min (self.old.number + 1) (2 ^ 64 - 1) }) }
        ensures number { OnErr result (self.new.number ≡ self.old.number) }
    {
        let ended = self.ended_with(part);
        if ended.is_ok() {
            self.number = self.number.saturating_add(1);
        }
        ended
    }

    /// What a line says that has this rest.
    #[tactic(auto, using(crate::proofs::Lines::whole_line, crate::proofs::Lines::kept_line))]
    fn ended_with(&mut self, part: &[u8]) -> Result<LogEntry, LogFault>
        requires { EndsNoLine part.now }
        ensures ends { (rest : List ℕ) →
            log_says (self.old.line ++ (part.now ++ 10 ∷ rest)) ≡ returned result ∷ log_says rest }
        ensures next { OnOk result (self.new ≡ record { line = []; number = self.old.number }) }
        ensures number { OnErr result (self.new.number ≡ self.old.number) }
    {
        if self.is_fresh() {
            return parse_line(part);
        }
        self.keep_all(part);
        self.end()
    }

    /// Whether no byte of the line was taken before.
    fn is_fresh(&self) -> bool
        ensures { result ≡ true → self.now.line ≡ [] }
    {
        self.line.is_empty() && !self.is_comment && !self.is_long
    }

    /// Takes a byte within a line: it is kept unless it is part of a comment or past the limit.
    fn keep(&mut self, byte: u8)
        requires { byte ≢ 10 }
        ensures begin { SaysAs (self.old.line ++ byte ∷ []) self.new.line }
        ensures number { self.new.number ≡ self.old.number }
    {
        if self.is_comment {
            return;
        }
        if byte == b'#' {
            self.is_comment = true;
            return;
        }
        if self.line.is_full() {
            self.is_long = true;
            return;
        }
        self.line.push(byte);
    }

    /// Ends the line, as at the end of the text, and returns what it says.
    ///
    /// # Errors
    ///
    /// Why the line is none of a bus log.
    pub fn end(&mut self) -> Result<LogEntry, LogFault>
        ensures says { log_says self.old.line ≡ returned result ∷ [] }
        ensures more { (rest : List ℕ) → log_says (self.old.line ++ 10 ∷ rest) ≡ returned result ∷ log_says rest }
        ensures next { OnOk result (self.new ≡ record { line = []; number = self.old.number }) }
        ensures fault { OnErr result (self.new ≡ self.old) }
    {
        if self.is_long {
            return Err(LogFault::LineTooLong);
        }
        let entry = match parse_entry(self.line.as_slice()) {
            Ok(entry) => entry,
            Err(fault) => return Err(fault),
        };
        self.line.clear();
        self.is_comment = false;
        Ok(entry)
    }
}
