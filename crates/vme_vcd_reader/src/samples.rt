//! The samples of a dump's body.
ghost use Rattle.std.specs.Prelude.{◌≡◌, ◌||◌, List, [], true, false, Ok, None, IfOk, IfErr, IfSome, OnErr};
ghost use Rattle.vme_vcd_reader.specs.declared.bits.Level.{Level};
ghost use Rattle.vme_vcd_reader.specs.declared.body.Place.TheVariants.{Gap};
ghost use Rattle.vme_vcd_reader.specs.Bodies.{Reading, byte_said, time_taken};
ghost use Rattle.vme_vcd_reader.specs.declared.fault.VcdFault.TheVariants.{TimeFalls};
ghost use Rattle.vme_vcd_reader.specs.declared.reader.Step.TheVariants.{More};
ghost use Rattle.vme_vcd_reader.specs.Faults.{byte_fault, end_fault, end_flaw};
ghost use Rattle.vme_vcd_reader.specs.Levels.{IsValue, value_of};
ghost use Rattle.vme_vcd_reader.specs.Ports.{without_changes};
ghost use Rattle.vme_vcd_reader.specs.Readers.{IsBroken, IsBrokenText, IsReading, ReportsLast, TakesLine, TakesRead, rows_of, samples_left};
ghost use Rattle.vme_vcd_reader.specs.Samples.{Broken, samples_of};
ghost use Rattle.vme_vcd_reader.specs.Tables.{IsLinked, has_variable, variables_after};
ghost use Rattle.vme_vcd_reader.specs.Words.{is_blank};

use crate::bits::Bits;
use crate::body::Said;
use crate::fault::VcdFault;
use crate::quick::{quick_change, quick_time};
use crate::reader::{Step, VcdReader};

impl VcdReader<'_> {
    /// Takes the time, or the change of 0 and 1, that stands whole on a line at the start of a text,
    /// if there is one, and returns what it completes and the text after it. `push` of each byte of
    /// the line does the same.
    ///
    /// # Errors
    ///
    /// The time falls.
    #[inline]
    pub fn push_line<'b>(&mut self, text: &'b [u8]) -> Result<Option<(Step, &'b [u8])>, VcdFault>
        ensures before { self.old.is_body ≡ false → result ≡ Ok None }
        ensures none { IfOk result (λ taken. taken ≡ None → self.new ≡ self.old) }
        ensures says { (r : Reading) → IsReading r self.old →
            IfOk result (λ taken. IfSome taken (λ taken. TakesLine (rows_of self.old) r text.now taken.1.now taken.0 self.new)) }
        ensures fault { (r : Reading) → IsReading r self.old → OnErr result (IsBrokenText (rows_of self.old) r text.now) }
        ensures why { IfErr result (λ fault. fault ≡ TimeFalls) }
        ensures same_line { OnErr result (self.new.line ≡ self.old.line) }
        ensures table { self.new.table ≡ self.old.table }
    {
        if !self.is_body {
            return Ok(None);
        }
        if !self.body.is_between() {
            return Ok(None);
        }
        if let Some(quick) = quick_change(text) {
            self.change_to(quick.identifier, &quick.bits);
            self.line = self.line.wrapping_add(1);
            return Ok(Some((Step::More, quick.rest)));
        }
        self.push_time(text)
    }

    /// Takes the time that stands whole on a line at the start of a text, if there is one.
    #[inline]
    fn push_time<'b>(&mut self, text: &'b [u8]) -> Result<Option<(Step, &'b [u8])>, VcdFault>
        ensures none { IfOk result (λ taken. taken ≡ None → self.new ≡ self.old) }
        ensures says { (r : Reading) → IsReading r self.old → self.old.body.place ≡ Gap →
            IfOk result (λ taken. IfSome taken (λ taken. TakesLine (rows_of self.old) r text.now taken.1.now taken.0 self.new)) }
        ensures fault { (r : Reading) → IsReading r self.old → self.old.body.place ≡ Gap →
            OnErr result (IsBrokenText (rows_of self.old) r text.now) }
        ensures why { IfErr result (λ fault. fault ≡ TimeFalls) }
        ensures same_line { OnErr result (self.new.line ≡ self.old.line) }
        ensures table { self.new.table ≡ self.old.table }
    {
        let Some(quick) = quick_time(text) else {
            return Ok(None);
        };
        let step = self.at_time(quick.time)?;
        self.line = self.line.wrapping_add(1);
        Ok(Some((step, quick.rest)))
    }

    /// Ends the text of a body. A blank ends its last word.
    pub(crate) fn end_body(&mut self) -> Result<Step, VcdFault>
        ensures says { (r : Reading) → IsReading r self.old →
            IfOk result (λ step. ReportsLast (samples_of (rows_of self.old) r []) step self.new) }
        ensures fault { (r : Reading) → IsReading r self.old → OnErr result (samples_of (rows_of self.old) r [] ≡ Broken (end_flaw (rows_of self.old) r)) }
        ensures why { (r : Reading) → IsReading r self.old → IfErr result (λ fault. fault ≡ end_fault (rows_of self.old) r) }
        ensures same_line { OnErr result (self.new.line ≡ self.old.line) }
    {
        let step = self.push_body(b' ')?;
        if !self.body.may_end() {
            return Err(VcdFault::EndsInChange);
        }
        if step == Step::Sample {
            return Ok(Step::Sample);
        }
        Ok(self.last_sample())
    }

    /// Returns the last sample, if there is one that was not completed before.
    pub fn last_sample(&mut self) -> Step
        ensures { ReportsLast (samples_left self.old) result self.new }
    {
        if !self.is_begun {
            return Step::More;
        }
        self.complete();
        self.is_begun = false;
        Step::Sample
    }

    /// Takes a byte of the body.
    #[inline]
    pub(crate) fn push_body(&mut self, byte: u8) -> Result<Step, VcdFault>
        ensures says { (r : Reading) → IsReading r self.old →
            IfOk result (λ step. TakesRead (byte_said (rows_of self.old) r byte) step self.new) }
        ensures fault { (r : Reading) → IsReading r self.old → OnErr result (IsBroken (rows_of self.old) r byte) }
        ensures why { (r : Reading) → IsReading r self.old → IfErr result (λ fault. fault ≡ byte_fault r byte) }
        ensures blank { (r : Reading) → IsReading r self.old → is_blank byte ≡ true →
            OnErr result (byte_said (rows_of self.old) r byte ≡ None) }
        ensures table { self.new.table ≡ self.old.table }
        ensures line { self.new.line ≡ self.old.line }
    {
        match self.body.push(byte)? {
            Said::Nothing => Ok(Step::More),
            Said::Change(identifier) => {
                self.change(identifier);
                Ok(Step::More)
            }
            Said::Time(time) => self.at_time(time),
        }
    }

    /// Takes the change of a variable.
    #[inline]
    fn change(&mut self, identifier: u64)
        ensures lines { (levels : List Level) → IsValue levels self.old.body.bits self.old.body.first self.old.body.digits →
            IsLinked self.old.table.rows.items self.old.table.heads.items →
            self.new ≡ record self.old {
              bus = variables_after (rows_of self.old) identifier (value_of levels) self.old.bus;
              is_changed = self.old.is_changed || has_variable (rows_of self.old) identifier;
            } }
        ensures table { self.new.table ≡ self.old.table }
        ensures line { self.new.line ≡ self.old.line }
    {
        let bits = self.body.bits();
        self.change_to(identifier, &bits);
    }

    /// Takes the change of the variables with an identifier to some bits.
    #[inline]
    fn change_to(&mut self, identifier: u64, bits: &Bits)
        ensures lines { IsLinked self.old.table.rows.items self.old.table.heads.items →
            self.new ≡ record self.old {
              bus = variables_after (rows_of self.old) identifier bits.now self.old.bus;
              is_changed = self.old.is_changed || has_variable (rows_of self.old) identifier;
            } }
        ensures table { self.new.table ≡ self.old.table }
        ensures line { self.new.line ≡ self.old.line }
    {
        if self.table.change(identifier, bits, &mut self.bus) {
            self.is_changed = true;
        }
    }

    /// Takes a time. A time that repeats the one before it completes nothing.
    fn at_time(&mut self, time: u64) -> Result<Step, VcdFault>
        ensures says { (r : Reading) → IsReading r self.old →
            IfOk result (λ step. TakesRead (time_taken r r.time time) step self.new) }
        ensures fault { (r : Reading) → IsReading r self.old → OnErr result (time_taken r r.time time ≡ None) }
        ensures why { IfErr result (λ fault. fault ≡ TimeFalls) }
        ensures table { self.new.table ≡ self.old.table }
        ensures line { self.new.line ≡ self.old.line }
    {
        if !self.is_begun {
            self.is_begun = true;
            self.time = time;
            self.time_line = self.line;
            return Ok(Step::More);
        }
        if time < self.time {
            return Err(VcdFault::TimeFalls);
        }
        if time == self.time {
            return Ok(Step::More);
        }
        self.complete();
        self.time = time;
        self.time_line = self.line;
        Ok(Step::Sample)
    }

    /// Completes the sample of the time before.
    fn complete(&mut self)
        ensures { self.new ≡ record self.old {
          sample_time = self.old.time;
          sample_line = self.old.time_line;
          sample_is_changed = self.old.is_changed;
          sample_ports = self.old.bus.changed_ports;
          bus = without_changes self.old.bus;
          is_changed = false;
        } }
    {
        self.sample_time = self.time;
        self.sample_line = self.time_line;
        self.sample_is_changed = self.is_changed;
        self.sample_ports = self.bus.take_changed_ports();
        self.is_changed = false;
    }
}
