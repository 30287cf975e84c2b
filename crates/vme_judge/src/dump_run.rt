//! A dump, byte by byte.
ghost use Rattle.std.specs.Prelude.{◌≡◌, ◌≢◌, ℕ, [], ◌∷◌, ◌++◌, List, slice_get, true, false, is_some, Some, IfOk, Option, if◌then◌else◌};
ghost use Rattle.vme_line_map.specs.Variables.{Map};
ghost use Rattle.vme_vcd_reader.specs.declared.fault.VcdFault.TheVariants.{Memory};
ghost use Rattle.vme_vcd_reader.specs.declared.reader.Step.TheVariants as steps;
ghost use Rattle.vme_vcd_reader.specs.Bodies.{Shown};
ghost use Rattle.vme_vcd_reader.specs.Readers.{ReportsLast, ReportsSample};
ghost use Rattle.vme_vcd_reader.specs.Samples.{Samples};
ghost use Rattle.vme_judge.specs.declared.run.Kind.TheVariants.{Dump, Unknown};
ghost use Rattle.vme_judge.specs.Blanks.{AreBlanks, BeginsDump, IsBlankSoFar};
ghost use Rattle.vme_judge.specs.DumpRuns.{shown_by, BeginsBody, EndsDump, HasReached, Reached, TakesDump, TakesLast, TakesNext};
ghost use Rattle.vme_judge.specs.Logs.{NoDump};
ghost use Rattle.vme_judge.specs.Runs.{cause_of, form_after, is_going, IsGoing};

use crate::dump::{set_scope, take_sample};
use crate::rejection::Why;
use crate::run::{Run, is_space};
use std::alloc::AllocError;
use vme_vcd_reader::{Step, VcdFault};

impl Run<'_> {
    /// Takes the first bytes of a dump, with the blanks before them.
    pub(crate) fn begin_dump(&mut self, bytes: &[u8]) -> Result<bool, AllocError>
        ensures first { (map : Map) (line : List ℕ) → form_after Unknown bytes.now ≡ Dump → IsBlankSoFar map line self.old →
            IsGoing self.old → IfOk result (BeginsDump map line self.old self.new bytes.now) }
        ensures going { IsGoing self.old → IfOk result (λ goes_on. goes_on ≡ is_going self.new) }
        ensures kind { IfOk result (λ _. self.new.kind ≡ self.old.kind) }
    {
        let (blanks, text) = cut_blanks(bytes);
        if !self.push_blanks(blanks)? {
            return Ok(false);
        }
        self.push_dump_all(text)
    }

    /// Takes bytes of a dump.
    pub(crate) fn push_dump_all(&mut self, bytes: &[u8]) -> Result<bool, AllocError>
        ensures dump { (map : Map) (reached : Reached) → HasReached map reached self.old.vcd → IsGoing self.old →
            IfOk result (TakesDump map self.old self.new reached bytes.now) }
        ensures going { IsGoing self.old → IfOk result (λ goes_on. goes_on ≡ is_going self.new) }
        ensures kind { IfOk result (λ _. self.new.kind ≡ self.old.kind) }
    {
        let mut rest = bytes;
        // A step takes a byte at least.
        for _step in 0..bytes.len() {
            let [byte, tail @ ..] = rest else {
                break;
            };
            match self.vcd.push_line(rest) {
                Ok(None) => {}
                Ok(Some((step, after))) => {
                    if !self.take_step(step)? {
                        return Ok(false);
                    }
                    rest = after;
                    continue;
                }
                Err(fault) => return self.reject_dump(fault),
            }
            rest = tail;
            if !self.push_dump(*byte)? {
                return Ok(false);
            }
        }
        Ok(true)
    }

    /// Takes a byte of a dump.
    #[inline]
    fn push_dump(&mut self, byte: u8) -> Result<bool, AllocError>
        ensures dump { (map : Map) (reached : Reached) → HasReached map reached self.old.vcd → IsGoing self.old →
            IfOk result (TakesDump map self.old self.new reached (byte ∷ [])) }
        ensures going { IsGoing self.old → IfOk result (λ goes_on. goes_on ≡ is_going self.new) }
        ensures kind { IfOk result (λ _. self.new.kind ≡ self.old.kind) }
    {
        match self.vcd.push(byte) {
            Ok(step) => self.take_step(step),
            Err(fault) => self.reject_dump(fault),
        }
    }

    /// Takes what a dump has completed.
    #[inline]
    fn take_step(&mut self, step: Step) -> Result<bool, AllocError>
        ensures sample { (shown : Option Shown) → ReportsSample shown step self.old.vcd → IsGoing self.old →
            IfOk result (λ _. TakesNext self.old self.new shown) }
        ensures header { step ≡ steps.Header → IfOk result (λ _. BeginsBody self.old self.new) }
        ensures going { IsGoing self.old → IfOk result (λ goes_on. goes_on ≡ is_going self.new) }
        ensures kind { IfOk result (λ _. self.new.kind ≡ self.old.kind) }
    {
        match step {
            Step::More => Ok(true),
            Step::Header => {
                set_scope(&mut self.judge, &self.vcd.presence());
                Ok(true)
            }
            Step::Sample => self.take_shown(),
        }
    }

    /// Takes the sample that a dump has completed.
    fn take_shown(&mut self) -> Result<bool, AllocError>
        ensures sample { IsGoing self.old → IfOk result (λ _. TakesNext self.old self.new (Some (shown_by self.old.vcd))) }
        ensures going { IsGoing self.old → IfOk result (λ goes_on. goes_on ≡ is_going self.new) }
        ensures kind { IfOk result (λ _. self.new.kind ≡ self.old.kind) }
    {
        take_sample(&mut self.judge, &mut self.ports, &self.vcd)
    }

    /// Rejects a dump, unless it was rejected before.
    fn reject_dump(&mut self, fault: VcdFault) -> Result<bool, AllocError>
        ensures stops { IfOk result (λ goes_on. goes_on ≡ false) }
        ensures rejected { IfOk result (λ _. is_some self.new.rejection ≡ true) }
        ensures judge { IfOk result (λ _. self.new.judge ≡ self.old.judge) }
        ensures why { IfOk result (λ _. fault ≢ Memory) }
        ensures cause { IfOk result (λ _. cause_of self.new.rejection
            ≡ (if is_some self.old.rejection then cause_of self.old.rejection else NoDump self.old.vcd.line fault)) }
        ensures kind { IfOk result (λ _. self.new.kind ≡ self.old.kind) }
    {
        if fault == VcdFault::Memory {
            return Err(AllocError);
        }
        let line = self.vcd.line();
        self.reject(Why::Dump(fault), line);
        Ok(false)
    }

    /// Ends a dump, whose last two times may still be open.
    pub(crate) fn end_dump(&mut self) -> Result<(), AllocError>
        ensures dump { (map : Map) (reached : Reached) → HasReached map reached self.old.vcd → IsGoing self.old →
            IfOk result (λ _. EndsDump map self.old self.new reached) }
        ensures kind { IfOk result (λ _. self.new.kind ≡ self.old.kind) }
    {
        match self.vcd.end() {
            Ok(step) => self.take_last(step),
            Err(fault) => {
                self.reject_dump(fault)?;
                Ok(())
            }
        }
    }

    /// Takes the last samples of a dump.
    fn take_last(&mut self, step: Step) -> Result<(), AllocError>
        ensures samples { (samples : Samples) → ReportsLast samples step self.old.vcd → IsGoing self.old →
            IfOk result (λ _. TakesLast self.old self.new samples) }
        ensures kind { IfOk result (λ _. self.new.kind ≡ self.old.kind) }
    {
        let Step::Sample = step else {
            return Ok(());
        };
        let goes_on = self.take_shown()?;
        if !goes_on {
            return Ok(());
        }
        let Step::Sample = self.vcd.last_sample() else {
            return Ok(());
        };
        self.take_shown()?;
        Ok(())
    }
}

/// The bytes before the first one that is no blank, and those from it on.
fn cut_blanks(bytes: &[u8]) -> (&[u8], &[u8])
    ensures blanks { AreBlanks result.0.now }
    ensures parts { bytes.now ≡ result.0.now ++ result.1.now }
    ensures first { form_after Unknown bytes.now ≡ Dump → slice_get result.1.now 0 ≡ Some 36 }
{
    for (index, byte) in bytes.iter().enumerate() {
        if !is_space(*byte) {
            return bytes.split_at(index);
        }
    }
    (bytes, &[])
}
