//! A dump as the levels of lines at its times.
ghost use Rattle.std.specs.Prelude.{◌≡◌, ◌++◌, ◌∷◌, List, [], true, false, None, Ok, IfOk, IfErr, OnErr};
ghost use Rattle.vme_vcd_reader.specs.Bodies.{Reading, byte_taken, line_after};
ghost use Rattle.vme_vcd_reader.specs.declared.fault.VcdFault.TheVariants.{Memory};
ghost use Rattle.vme_vcd_reader.specs.declared.reader.Step.TheVariants.{More, Header as HeaderRead};
ghost use Rattle.vme_line_map.specs.Variables.{Map};
ghost use Rattle.vme_vcd_reader.specs.Faults.{byte_fault, end_fault, end_flaw};
ghost use Rattle.vme_vcd_reader.specs.Found.{IsMapFault, IsMatching};
ghost use Rattle.vme_vcd_reader.specs.Headers.{Heading, beginning, byte_read, header_end, is_long};
ghost use Rattle.vme_vcd_reader.specs.Mapping.{Declaration, declaration};
ghost use Rattle.vme_vcd_reader.specs.Matches.{lines_of};
ghost use Rattle.vme_vcd_reader.specs.Readers.{Enters, EntersBody, IsBefore, IsEndFault, IsHeader, IsHeadingFault, IsBroken, IsReading, ReportsLast, TakesHeading, TakesRead, rows_of};
ghost use Rattle.vme_vcd_reader.specs.Samples.{Broken, End, samples_of};

use crate::body::Body;
use crate::bus::BusLines;
use crate::fault::VcdFault;
use crate::header::{Header, Progress};
use crate::matching::Matching;
use crate::presence::Presence;
use crate::table::Table;
use std::alloc::Global;
use vme_line_map::LineMap;

/// What a byte completes.
#[derive(Clone, Copy, Debug, PartialEq, Eq)]
pub enum Step {
    /// Nothing.
    More,
    /// The header: `presence` says which lines the dump has.
    Header,
    /// The lines at a time, which `time` and `sample_line` name.
    Sample,
}

/// A reader of a dump. It takes the bytes of the text one after another.
#[derive(Drop)]
pub struct VcdReader<'a> {
    map: &'a LineMap,
    header: Header,
    matching: Matching,
    pub(crate) table: Table,
    pub(crate) body: Body,
    pub(crate) bus: BusLines,
    presence: Presence,
    pub(crate) is_body: bool,
    /// The number of the line that has the next byte.
    pub(crate) line: u64,
    /// The time whose changes are read, and the line that has it.
    pub(crate) time: u64,
    pub(crate) time_line: u64,
    pub(crate) is_begun: bool,
    /// The time of the sample that was completed, and its line.
    pub(crate) sample_time: u64,
    pub(crate) sample_line: u64,
    /// Whether a mapped variable changed since the sample before, and before that sample.
    pub(crate) is_changed: bool,
    pub(crate) sample_is_changed: bool,
    /// The slots whose local ports changed before that sample.
    pub(crate) sample_ports: u32,
}

impl<'a> VcdReader<'a> {
    /// Returns a reader before the first byte of a dump.
    ///
    /// # Errors
    ///
    /// An allocation failed.
    pub fn new(alloc: Global, map: &'a LineMap) -> Result<VcdReader<'a>, VcdFault>
        ensures before { IfOk result IsBefore }
        ensures heading { IfOk result (IsHeader map.now beginning []) }
        ensures line { IfOk result (λ reader. reader.line ≡ 1) }
    {
        let matching = Matching::new(alloc, map)?;
        Ok(VcdReader {
            map,
            header: Header::new(alloc),
            matching,
            table: Table::new(alloc),
            body: Body::new(),
            bus: BusLines::new(),
            presence: Presence::NONE,
            is_body: false,
            line: 1,
            time: 0,
            time_line: 1,
            is_begun: false,
            sample_time: 0,
            sample_line: 1,
            is_changed: true,
            sample_is_changed: true,
            sample_ports: 0,
        })
    }

    /// Returns the number of the line that has the next byte, from 1.
    pub fn line(&self) -> u64
        ensures { result ≡ self.now.line }
    {
        self.line
    }

    /// Returns which lines the dump has, once its header was read.
    pub fn presence(&self) -> Presence
        ensures { result ≡ self.now.presence }
    {
        self.presence
    }

    /// Returns the time of the sample that was completed.
    pub fn time(&self) -> u64
        ensures { result ≡ self.now.sample_time }
    {
        self.sample_time
    }

    /// Returns the number of the line that has this time.
    pub fn sample_line(&self) -> u64
        ensures { result ≡ self.now.sample_line }
    {
        self.sample_line
    }

    /// Returns whether a mapped variable has a change at this time.
    pub fn is_changed(&self) -> bool
        ensures { result ≡ self.now.sample_is_changed }
    {
        self.sample_is_changed
    }

    /// Returns the slots whose local ports have a change at this time, the lowest bit for slot 1.
    pub fn changed_ports(&self) -> u32
        ensures { result ≡ self.now.sample_ports }
    {
        self.sample_ports
    }

    /// Returns the lines of the bus.
    pub fn bus(&self) -> &BusLines
        ensures { result.now ≡ self.now.bus }
    {
        &self.bus
    }

    /// Takes a byte.
    ///
    /// # Errors
    ///
    /// Why the text is no dump; `line` is then the number of its line.
    #[inline]
    pub fn push(&mut self, byte: u8) -> Result<Step, VcdFault>
        ensures header { IsBefore self.old → IfOk result (λ step. Enters step self.new) }
        ensures heading { (map : Map) (h : Heading) (ds : List Declaration) → IsHeader map h ds self.old →
            IfOk result (λ step. TakesHeading map (byte_read h byte) ds step self.new) }
        ensures rejects { (map : Map) (h : Heading) (ds : List Declaration) → IsHeader map h ds self.old →
            IfErr result (IsHeadingFault (byte_read h byte) (lines_of map ds)) }
        ensures says { (r : Reading) → IsReading r self.old →
            IfOk result (λ step. TakesRead (byte_taken (rows_of self.old) r byte) step self.new) }
        ensures fault { (r : Reading) → IsReading r self.old → OnErr result (IsBroken (rows_of self.old) r byte) }
        ensures why { (r : Reading) → IsReading r self.old → IfErr result (λ fault. fault ≡ byte_fault r byte) }
        ensures rows { (r : Reading) → IsReading r self.old → rows_of self.new ≡ rows_of self.old }
        ensures line { IfOk result (λ _. self.new.line ≡ line_after byte self.old.line) }
        ensures same_line { OnErr result (self.new.line ≡ self.old.line) }
    {
        let step = if self.is_body {
            self.push_body(byte)?
        } else {
            self.push_header(byte)?
        };
        if byte == b'\n' {
            self.line = self.line.wrapping_add(1);
        }
        Ok(step)
    }

    /// Ends the text, and returns whether it completes a sample.
    ///
    /// # Errors
    ///
    /// Why the text is no dump; `line` is then the number of its line.
    pub fn end(&mut self) -> Result<Step, VcdFault>
        ensures header { IsBefore self.old → IfOk result (λ step. ReportsLast End step self.new) }
        ensures says { (r : Reading) → IsReading r self.old →
            IfOk result (λ step. ReportsLast (samples_of (rows_of self.old) r []) step self.new) }
        ensures fault { (r : Reading) → IsReading r self.old → OnErr result (samples_of (rows_of self.old) r [] ≡ Broken (end_flaw (rows_of self.old) r)) }
        ensures why { (r : Reading) → IsReading r self.old → IfErr result (λ fault. fault ≡ end_fault (rows_of self.old) r) }
        ensures heading { (map : Map) (h : Heading) (ds : List Declaration) → IsHeader map h ds self.old →
            IfOk result (λ _. header_end (byte_read h 32) (lines_of map ds) ≡ None) }
        ensures rejects { (map : Map) (h : Heading) (ds : List Declaration) → IsHeader map h ds self.old →
            IfErr result (IsEndFault (header_end (byte_read h 32) (lines_of map ds))) }
        ensures same_line { OnErr result (self.new.line ≡ self.old.line) }
    {
        if self.is_body {
            return self.end_body();
        }
        match self.push_header(b' ')? {
            Step::Header => self.end_body(),
            Step::More | Step::Sample => Err(VcdFault::EndsInHeader),
        }
    }

    /// Takes a byte of the header.
    fn push_header(&mut self, byte: u8) -> Result<Step, VcdFault>
        ensures header { IsBefore self.old → IfOk result (λ step. Enters step self.new) }
        ensures heading { (map : Map) (h : Heading) (ds : List Declaration) → IsHeader map h ds self.old →
            IfOk result (λ step. TakesHeading map (byte_read h byte) ds step self.new) }
        ensures rejects { (map : Map) (h : Heading) (ds : List Declaration) → IsHeader map h ds self.old →
            IfErr result (IsHeadingFault (byte_read h byte) (lines_of map ds)) }
        ensures line { self.new.line ≡ self.old.line }
    {
        let progress = match self.header.push(byte) {
            Ok(progress) => progress,
            Err(fault) => return Err(fault),
        };
        match progress {
            Progress::More => Ok(Step::More),
            Progress::Variable => self.take_variable(),
            Progress::Ended => self.enter(),
        }
    }

    /// Takes the variable that the header has declared.
    fn take_variable(&mut self) -> Result<Step, VcdFault>
        ensures header { (map : Map) (h : Heading) (ds : List Declaration) → IsHeader map h ds self.old → is_long h.name ≡ false →
            IfOk result (λ step. (step ≡ More) × IsHeader map h (ds ++ declaration h ∷ []) self.new) }
        ensures before { IsBefore self.old → IfOk result (λ step. Enters step self.new) }
        ensures fault { IfErr result (λ fault. fault ≡ Memory) }
        ensures line { self.new.line ≡ self.old.line }
    {
        match self.header.map_variable(self.map, &mut self.matching) {
            Ok(()) => Ok(Step::More),
            Err(_) => Err(VcdFault::Memory),
        }
    }

    /// Begins with the body.
    fn enter(&mut self) -> Result<Step, VcdFault>
        ensures body { (ds : List Declaration) → IsBefore self.old → IsMatching self.old.map.now ds self.old.matching →
            IfOk result (λ step. (step ≡ HeaderRead) × EntersBody (lines_of self.old.map.now ds) self.new) }
        ensures fault { (ds : List Declaration) → IsBefore self.old → IsMatching self.old.map.now ds self.old.matching →
            IfErr result (IsMapFault (lines_of self.old.map.now ds)) }
        ensures header { IsBefore self.old → IfOk result (λ step. Enters step self.new) }
        ensures line { self.new.line ≡ self.old.line }
    {
        if let Err(fault) = self.matching.end(self.map, &mut self.table) {
            return Err(fault);
        }
        self.presence = self.table.presence();
        self.bus.set_has_busy(self.presence.busy);
        self.is_body = true;
        Ok(Step::Header)
    }
}
