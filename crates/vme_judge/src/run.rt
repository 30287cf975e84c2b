//! A trace, byte by byte.
ghost use Rattle.std.specs.Prelude.{◌≡◌, ℕ, List, [], ◌∷◌, ◌++◌, true, Ok, Some, None, replicate, is_some, IfOk, if◌then◌else◌};
ghost use Rattle.vme_judge.specs.declared.run.Kind.TheVariants.{Dump, Unknown};
ghost use Rattle.vme_bus_log.specs.declared.entry.LogEntry.TheVariants.{Datum, Nothing};
ghost use Rattle.vme_bus_log.specs.Texts.{EndsNoLine};
ghost use Rattle.vme_line_map.specs.Variables.{Map};
ghost use Rattle.vme_vcd_reader.specs.Headers.{beginning};
ghost use Rattle.vme_vcd_reader.specs.Readers.{IsHeader};
ghost use Rattle.vme_judge.specs.Blanks.{AreBlanks, IsAtStart, IsBlankLine, IsBlankSoFar, line_past, SkipsBlanks, TakesBlanks, TakesFirst, TakesFurther};
ghost use Rattle.vme_judge.specs.DumpRuns.{dump_so_far, EndsDump, HasReached, Reached, TakesPiece};
ghost use Rattle.vme_judge.specs.Dumps.{Legal as LegalDump};
ghost use Rattle.vme_judge.specs.Logs.{Legal as LegalSoFar};
ghost use Rattle.vme_judge.specs.Openings.{opening};
ghost use Rattle.vme_judge.specs.Runs.{cause_by, cause_of, form_after, is_going, is_no_dump, log_whole, run_so_far, IsGoing, Judges, KeepsReader, TakesLine, TakesLog};
ghost use Rattle.vme_judge.specs.Verdicts.{is_space};

use crate::boards::Board;
use crate::dump::Ports;
use crate::judge::Judge;
use crate::log::{LogState, take_access};
use crate::options::Options;
use crate::rejection::{Rejection, Why};
use std::alloc::{AllocError, Global};
use vme_bus_log::{LogDatum, LogEntry, LogReader, cut_line};
use vme_line_map::LineMap;
use vme_vcd_reader::VcdReader;

/// The form of a trace, by its first byte that is no blank.
#[derive(Clone, Copy, Debug, PartialEq, Eq)]
pub(crate) enum Kind {
    Unknown,
    Dump,
    Log,
}

/// A trace as far as it is judged.
#[derive(Drop)]
pub(crate) struct Run<'a> {
    pub(crate) judge: Judge<'a>,
    pub(crate) vcd: VcdReader<'a>,
    pub(crate) kind: Kind,
    pub(crate) rejection: Option<Rejection>,
    log: LogReader,
    state: LogState,
    pub(crate) ports: Ports,
}

impl<'a> Run<'a> {
    /// Returns a trace before its first byte.
    ///
    /// # Errors
    ///
    /// An allocation failed.
    pub(crate) fn new(
        alloc: Global,
        options: &'a Options<'a>,
        map: &'a LineMap,
        boards: &'a [Board],
    ) -> Result<Run<'a>, AllocError>
        ensures opens { IfOk result (λ run. run_so_far run ≡ LegalSoFar (opening options.now boards.now) None) }
        ensures dump { IfOk result (λ run. dump_so_far run ≡ LegalDump (opening options.now boards.now) (replicate 21 None)) }
        ensures reader { IfOk result (λ run. IsAtStart map.now run.vcd) }
        ensures going { IfOk result IsGoing }
        ensures line { IfOk result (λ run. run.log.line ≡ []) }
        ensures number { IfOk result (λ run. run.log.number ≡ 1) }
        ensures kind { IfOk result (λ run. run.kind ≡ Unknown) }
    {
        let Ok(vcd) = VcdReader::new(alloc, map) else {
            return Err(AllocError);
        };
        let judge = Judge::new(alloc, options, boards)?;
        let state = LogState::new();
        let ports = Ports::new();
        Ok(Run {
            judge,
            vcd,
            kind: Kind::Unknown,
            rejection: None,
            log: LogReader::new(),
            state,
            ports,
        })
    }

    /// Takes bytes, and returns whether the judgement goes on.
    ///
    /// # Errors
    ///
    /// An allocation failed.
    pub(crate) fn push_all(&mut self, bytes: &[u8]) -> Result<bool, AllocError>
        ensures going { IsGoing self.old → IfOk result (λ goes_on. goes_on ≡ is_going self.new) }
        ensures log { is_no_dump (form_after self.old.kind bytes.now) ≡ true → IsGoing self.old →
            IfOk result (λ _. TakesLog self.old self.new bytes.now) }
        ensures blanks { (map : Map) (line : List ℕ) → self.old.kind ≡ Unknown → AreBlanks bytes.now →
            IsBlankSoFar map line self.old → IfOk result (TakesFurther map line self.old self.new bytes.now) }
        ensures first { (map : Map) (line : List ℕ) → self.old.kind ≡ Unknown → form_after Unknown bytes.now ≡ Dump →
            IsBlankSoFar map line self.old → IsGoing self.old → IfOk result (TakesFirst map line self.old self.new bytes.now) }
        ensures dump { (map : Map) (reached : Reached) → self.old.kind ≡ Dump → HasReached map reached self.old.vcd →
            IsGoing self.old → IfOk result (TakesPiece map self.old self.new reached bytes.now) }
    {
        match self.kind {
            Kind::Dump => self.push_dump_all(bytes),
            Kind::Log => self.push_log_all(bytes),
            Kind::Unknown => self.push_unknown(bytes),
        }
    }

    /// Takes bytes before the form is known: that of the first one that is no blank.
    fn push_unknown(&mut self, bytes: &[u8]) -> Result<bool, AllocError>
        ensures going { IsGoing self.old → IfOk result (λ goes_on. goes_on ≡ is_going self.new) }
        ensures log { is_no_dump (form_after Unknown bytes.now) ≡ true → self.old.kind ≡ Unknown → IsGoing self.old →
            IfOk result (λ _. TakesLog self.old self.new bytes.now) }
        ensures blanks { (map : Map) (line : List ℕ) → AreBlanks bytes.now → IsBlankSoFar map line self.old →
            IfOk result (TakesFurther map line self.old self.new bytes.now) }
        ensures first { (map : Map) (line : List ℕ) → form_after Unknown bytes.now ≡ Dump → IsBlankSoFar map line self.old →
            IsGoing self.old → IfOk result (TakesFirst map line self.old self.new bytes.now) }
    {
        self.kind = form_of(bytes);
        match self.kind {
            Kind::Dump => self.begin_dump(bytes),
            Kind::Log => self.push_log_all(bytes),
            Kind::Unknown => self.push_blanks(bytes),
        }
    }

    /// Takes blanks before the form is known, which are lines of either.
    pub(crate) fn push_blanks(&mut self, bytes: &[u8]) -> Result<bool, AllocError>
        ensures going { IsGoing self.old → IfOk result (λ goes_on. goes_on ≡ is_going self.new) }
        ensures judges { IsGoing self.old → IfOk result (λ _. Judges self.old self.new bytes.now) }
        ensures kind { IfOk result (λ _. self.new.kind ≡ self.old.kind) }
        ensures blanks { (map : Map) (line : List ℕ) → AreBlanks bytes.now → IsBlankSoFar map line self.old →
            IfOk result (SkipsBlanks map line self.old self.new bytes.now) }
    {
        skip_blanks(&mut self.vcd, bytes)?;
        self.push_log_all(bytes)
    }

    /// Takes bytes of a log.
    fn push_log_all(&mut self, bytes: &[u8]) -> Result<bool, AllocError>
        ensures going { IsGoing self.old → IfOk result (λ goes_on. goes_on ≡ is_going self.new) }
        ensures judges { IsGoing self.old → IfOk result (λ _. Judges self.old self.new bytes.now) }
        ensures kind { IfOk result (λ _. self.new.kind ≡ self.old.kind) }
        ensures vcd { IfOk result (λ _. self.new.vcd ≡ self.old.vcd) }
        ensures blanks { (line : List ℕ) → AreBlanks bytes.now → IsBlankLine line self.old.log →
            IfOk result (TakesBlanks line self.old self.new bytes.now) }
    {
        let mut rest = bytes;
        while let Some((line, after)) = cut_line(rest) {
            let goes_on = self.push_line(line)?;
            if !goes_on {
                return Ok(false);
            }
            rest = after;
        }
        self.log.keep_all(rest);
        Ok(true)
    }

    /// Takes the rest of a line of a log, without its line feed.
    fn push_line(&mut self, line: &[u8]) -> Result<bool, AllocError>
        requires { EndsNoLine line.now }
        ensures going { IsGoing self.old → IfOk result (λ goes_on. goes_on ≡ is_going self.new) }
        ensures judges { IsGoing self.old → IfOk result (λ _. Judges self.old self.new (line.now ++ 10 ∷ [])) }
        ensures kind { IfOk result (λ _. self.new.kind ≡ self.old.kind) }
        ensures vcd { IfOk result (λ _. self.new.vcd ≡ self.old.vcd) }
        ensures blanks { (begin : List ℕ) → AreBlanks line.now → IsBlankLine begin self.old.log →
            IfOk result (TakesBlanks begin self.old self.new (line.now ++ 10 ∷ [])) }
    {
        let number = self.log.number();
        match self.log.end_with(line) {
            Ok(entry) => self.take_entry(&entry, number),
            Err(fault) => {
                self.reject(Why::Log(fault), number);
                Ok(false)
            }
        }
    }

    /// Rejects a line of the trace, unless one was rejected before.
    pub(crate) fn reject(&mut self, why: Why, line: u64)
        ensures rejected { is_some self.new.rejection ≡ true }
        ensures cause { cause_of self.new.rejection
            ≡ (if is_some self.old.rejection then cause_of self.old.rejection else cause_by why (Some line)) }
        ensures judge { self.new.judge ≡ self.old.judge }
        ensures rest { KeepsReader self.old self.new }
    {
        if self.rejection.is_none() {
            self.rejection = Some(Rejection {
                why,
                line: Some(line),
            });
        }
    }

    /// Takes what a line of a log says.
    fn take_entry(&mut self, entry: &LogEntry, line: u64) -> Result<bool, AllocError>
        ensures going { IsGoing self.old → IfOk result (λ goes_on. goes_on ≡ is_going self.new) }
        ensures line { IsGoing self.old → IfOk result (λ _. TakesLine self.old self.new line (Ok entry.now)) }
        ensures log { IfOk result (λ _. self.new.log ≡ self.old.log) }
        ensures kind { IfOk result (λ _. self.new.kind ≡ self.old.kind) }
        ensures vcd { IfOk result (λ _. self.new.vcd ≡ self.old.vcd) }
        ensures nothing { entry.now ≡ Nothing → IfOk result (λ goes_on. (goes_on ≡ true) × (self.new ≡ self.old)) }
    {
        match entry {
            LogEntry::Nothing => Ok(true),
            LogEntry::Datum(datum) => self.take_datum(datum, line),
            LogEntry::Access(access) => take_access(&mut self.judge, access, line),
        }
    }

    /// Takes the datum of a line of a log, or rejects one that does not go on from the line before.
    fn take_datum(&mut self, datum: &LogDatum, line: u64) -> Result<bool, AllocError>
        ensures going { IsGoing self.old → IfOk result (λ goes_on. goes_on ≡ is_going self.new) }
        ensures line { IsGoing self.old → IfOk result (λ _. TakesLine self.old self.new line (Ok (Datum datum.now))) }
        ensures log { IfOk result (λ _. self.new.log ≡ self.old.log) }
        ensures kind { IfOk result (λ _. self.new.kind ≡ self.old.kind) }
        ensures vcd { IfOk result (λ _. self.new.vcd ≡ self.old.vcd) }
    {
        if let Some(why) = self.state.break_after(datum) {
            self.reject(Why::Break(why), line);
            return Ok(false);
        }
        self.state.datum(&mut self.judge, datum, line)
    }

    /// Ends the trace. One of blanks alone is a log.
    ///
    /// # Errors
    ///
    /// An allocation failed.
    pub(crate) fn end(&mut self) -> Result<(), AllocError>
        ensures judges { is_no_dump self.old.kind ≡ true → IsGoing self.old →
            IfOk result (λ _. log_whole self.old [] ≡ run_so_far self.new) }
        ensures dump { (map : Map) (reached : Reached) → self.old.kind ≡ Dump → HasReached map reached self.old.vcd →
            IsGoing self.old → IfOk result (λ _. EndsDump map self.old self.new reached) }
        ensures kind { IfOk result (λ _. self.new.kind ≡ self.old.kind) }
    {
        match self.kind {
            Kind::Dump => self.end_dump(),
            Kind::Log | Kind::Unknown => self.end_log(),
        }
    }

    /// Ends a log, whose last line may have no line feed.
    fn end_log(&mut self) -> Result<(), AllocError>
        ensures judges { IsGoing self.old → IfOk result (λ _. log_whole self.old [] ≡ run_so_far self.new) }
        ensures kind { IfOk result (λ _. self.new.kind ≡ self.old.kind) }
    {
        let line = self.log.number();
        match self.log.end() {
            Ok(entry) => {
                self.take_entry(&entry, line)?;
                Ok(())
            }
            Err(fault) => {
                self.reject(Why::Log(fault), line);
                Ok(())
            }
        }
    }
}

/// Whether a byte is a blank between the lines of a trace.
pub(crate) fn is_space(byte: u8) -> bool
    ensures { result ≡ is_space byte }
{
    matches!(byte, b' ' | b'\t' | b'\r' | b'\n')
}

/// The form of a trace by its first bytes.
fn form_of(bytes: &[u8]) -> Kind
    ensures { result ≡ form_after Unknown bytes.now }
{
    for byte in bytes {
        if !is_space(*byte) {
            return if *byte == b'$' { Kind::Dump } else { Kind::Log };
        }
    }
    Kind::Unknown
}

/// Takes blanks of a dump: one before its first word says nothing.
fn skip_blanks(vcd: &mut VcdReader<'_>, blanks: &[u8]) -> Result<(), AllocError>
    ensures reader { (map : Map) → AreBlanks blanks.now → IsHeader map beginning [] vcd.old →
        IfOk result (λ _. IsHeader map beginning [] vcd.new) }
    ensures line { IfOk result (λ _. vcd.new.line ≡ line_past blanks.now vcd.old.line) }
{
    for byte in blanks {
        let Ok(_step) = vcd.push(*byte) else {
            return Err(AllocError);
        };
    }
    Ok(())
}
