//! A bus log, judged: each datum as the samples of a handshake that shows it.
ghost use Rattle.std.specs.Prelude.{◌≡◌, [], ◌∷◌, true, false, None, not, IfOk};
ghost use Rattle.vme_judge.specs.LogLines.{lanes_from, lanes_of, log_datum};
ghost use Rattle.vme_judge.specs.Logs.{access_spot, access_taken, addressed_by, begun_by, break_after, break_of, datum_on, datum_spot, first_taken, local_of, log_by, shown_by};
ghost use Rattle.vme_judge.specs.Samples.{address_lines, datum_samples, driver_bit, handshake_samples, lines_of, quiet, with_data};
ghost use Rattle.vme_judge.specs.Standing.{course_then, resumed, samples_taken, standing, stands, IsStanding, Standing, Stands};

use crate::judge::{Judge, Spot};
use std::alloc::AllocError;
use vme_bus_log::{LogAccess, LogDatum};
use vme_protocol::{Datum, Local, Sample};

/// Why a line of a log does not go on from the line before.
#[derive(Clone, Copy, Debug, PartialEq, Eq)]
pub(crate) enum LogBreak {
    /// Its number is neither 0 nor the next one.
    Number,
    /// Its code or its address is another one than that of its transfer.
    Address,
}

/// What is remembered of a log.
#[derive(Clone, Copy, Debug)]
pub(crate) struct LogState {
    /// The datum before, if its transfer may go on.
    last: Option<LogDatum>,
}

/// Returns the line of a log for a datum.
#[tactic(auto, unfolding(crate::specs::LogLines::log_datum))]
pub(crate) fn log_datum(datum: &Datum, time: Option<u64>, slot: Option<u8>) -> LogDatum
    ensures { result ≡ log_datum datum.now time slot }
{
    let is_wide = datum.len == 8;
    let shows = !datum.write || !datum.dtack;
    let used = if shows { lanes_of(datum) } else { 0 };
    LogDatum {
        time,
        index: datum.index,
        am: datum.am,
        address: datum.base,
        ds1: datum.ds1,
        ds0: datum.ds0,
        a01: datum.a01,
        lword: datum.lword,
        write: datum.write,
        lines: datum.lines,
        idle: !used,
        is_wide,
        is_acknowledged: !datum.dtack,
        slot,
    }
}

/// The lines of the lanes of a datum.
fn lanes_of(datum: &Datum) -> u64
    ensures { result ≡ lanes_of datum.now }
{
    let lane = u32::from(datum.lane);
    let end = lane + u32::from(datum.len);
    lanes_from(lane).saturating_sub(lanes_from(end))
}

/// The lines of the lanes from one of eight on.
fn lanes_from(lane: u32) -> u64
    ensures { result ≡ lanes_from lane }
{
    if lane < 8 {
        u64::MAX.wrapping_shr(8 * lane)
    } else {
        0
    }
}

/// The bit of the slot that drives BBSY*, if it is known.
fn driver_bit(slot: Option<u8>) -> u32
    ensures { result ≡ driver_bit slot }
{
    match slot {
        None | Some(0) => 0,
        Some(slot) => 1u32.wrapping_shl(u32::from(slot - 1)),
    }
}

/// A31 to A01, and LWORD* below them.
fn address_lines(datum: &LogDatum) -> u64
    ensures { result ≡ address_lines datum.now }
{
    let a01 = if datum.a01 { 2 } else { 0 };
    let lword = if datum.lword { 1 } else { 0 };
    u64::from(datum.address) | a01 | lword
}

/// The address lines above D31 to D00.
fn lines_of(datum: &LogDatum) -> u64
    ensures { result ≡ lines_of datum.now }
{
    address_lines(datum).wrapping_shl(32) | datum.lines & 0xffff_ffff
}

/// The sample of a datum's lines with no strobe and no answer, as AS* is.
#[tactic(auto, unfolding(crate::specs::Samples::quiet))]
fn quiet(datum: &LogDatum, address_strobe: bool) -> Sample
    ensures { result ≡ quiet datum.now address_strobe }
{
    let drivers = driver_bit(datum.slot);
    Sample {
        time: datum.time.unwrap_or(0),
        address_strobe,
        ds1: true,
        ds0: true,
        dtack: true,
        berr: true,
        iack: true,
        busy: drivers == 0,
        undefined: false,
        write: datum.write,
        write_undefined: false,
        am: datum.am,
        am_undefined: false,
        lines: lines_of(datum),
        lines_undefined: datum.idle & 0xffff_ffff,
        drivers,
        requests: 0,
        grants: 0,
    }
}

/// The sample of a datum's lines while its address lines carry data, if it has eight bytes.
fn with_data(datum: &LogDatum, sample: Sample) -> Sample
    ensures { result ≡ with_data datum.now sample }
{
    if !datum.is_wide {
        return sample;
    }
    Sample {
        lines: datum.lines,
        lines_undefined: datum.idle,
        ..sample
    }
}

/// Why a datum does not go on from the one before it, if it does not.
fn break_of(last: &LogDatum, datum: &LogDatum) -> Option<LogBreak>
    ensures { result ≡ break_of last.now datum.now }
{
    if u64::from(datum.index) != u64::from(last.index) + 1 {
        return Some(LogBreak::Number);
    }
    if last.am != datum.am || last.address != datum.address {
        return Some(LogBreak::Address);
    }
    None
}

impl LogState {
    /// Returns what is remembered before the first line.
    pub(crate) fn new() -> LogState
        ensures { result.last ≡ None }
    {
        LogState { last: None }
    }

    /// Why a datum does not go on from the line before, if it does not.
    pub(crate) fn break_after(&self, datum: &LogDatum) -> Option<LogBreak>
        ensures { result ≡ break_after self.now.last datum.now }
    {
        let last = self.last?;
        if datum.index == 0 {
            return None;
        }
        break_of(&last, datum)
    }

    /// Takes a datum that goes on from the line before, and returns whether the judgement goes on.
    ///
    /// # Errors
    ///
    /// An allocation failed.
    pub(crate) fn datum(
        &mut self,
        judge: &mut Judge<'_>,
        datum: &LogDatum,
        line: u64,
    ) -> Result<bool, AllocError>
        ensures taken { (m : Standing) → standing judge.old ≡ Stands m → IfOk result (λ _.
            log_by self.new.last (standing judge.new) ≡ datum_on (datum_spot line datum.now) m self.old.last datum.now) }
        ensures goes { IsStanding (standing judge.old) → IfOk result (λ goes_on. goes_on ≡ stands (standing judge.new)) }
    {
        let spot = Spot {
            line,
            time: datum.time,
        };
        if datum.index == 0 {
            return self.begin(judge, datum, spot);
        }
        if self.last.is_none() {
            // A log may begin within a transfer, which is not judged.
            judge.skip();
            return Ok(true);
        }
        self.exchange(judge, datum, spot)
    }

    /// Takes a datum that begins a transfer.
    fn begin(
        &mut self,
        judge: &mut Judge<'_>,
        datum: &LogDatum,
        spot: Spot,
    ) -> Result<bool, AllocError>
        ensures taken { IsStanding (standing judge.old) → IfOk result (λ _. log_by self.new.last (standing judge.new)
            ≡ shown_by datum.now (course_then (first_taken spot datum.now) (standing judge.old))) }
        ensures goes { IsStanding (standing judge.old) → IfOk result (λ goes_on. goes_on ≡ stands (standing judge.new)) }
    {
        let is_legal = open(judge, datum, spot)?;
        if is_legal {
            return self.exchange(judge, datum, spot);
        }
        self.illegal(judge)
    }

    /// Takes the handshake of a datum.
    fn exchange(
        &mut self,
        judge: &mut Judge<'_>,
        datum: &LogDatum,
        spot: Spot,
    ) -> Result<bool, AllocError>
        ensures taken { IsStanding (standing judge.old) → IfOk result (λ _. log_by self.new.last (standing judge.new)
            ≡ shown_by datum.now (course_then (samples_taken spot (datum_samples datum.now)) (standing judge.old))) }
        ensures goes { IsStanding (standing judge.old) → IfOk result (λ goes_on. goes_on ≡ stands (standing judge.new)) }
    {
        self.last = Some(*datum);
        let lines = with_data(datum, quiet(datum, false));
        let is_legal = handshake(judge, datum, lines, spot, datum.is_acknowledged)?;
        if is_legal {
            return Ok(true);
        }
        self.illegal(judge)
    }

    /// Takes an illegal datum: if the judgement goes on, the rest of its transfer is left out.
    fn illegal(&mut self, judge: &mut Judge<'_>) -> Result<bool, AllocError>
        ensures taken { IfOk result (λ _. standing judge.new ≡ resumed (standing judge.old)) }
        ensures last { self.new.last ≡ None }
        ensures goes { IfOk result (λ goes_on. goes_on ≡ stands (standing judge.new)) }
    {
        self.last = None;
        judge.goes_on()
    }
}

/// Takes a local access of a line, and returns whether the judgement goes on.
///
/// # Errors
///
/// An allocation failed.
pub(crate) fn take_access(
    judge: &mut Judge<'_>,
    access: &LogAccess,
    line: u64,
) -> Result<bool, AllocError>
    ensures taken { IsStanding (standing judge.old) → IfOk result (λ _. standing judge.new ≡ course_then
        (λ m. resumed (access_taken (access_spot line access.now) access.now.slot (local_of access.now) m)) (standing judge.old)) }
    ensures goes { IfOk result (λ goes_on. goes_on ≡ stands (standing judge.new)) }
{
    let spot = Spot {
        line,
        time: access.time,
    };
    let local = Local {
        write: access.is_write,
        offset: access.offset,
        len: access.len,
        data: access.bytes,
    };
    if judge.access(access.slot, &local, spot)? {
        return Ok(true);
    }
    judge.goes_on()
}

/// Takes samples, and returns whether all are legal.
fn take_all(judge: &mut Judge<'_>, samples: &[Sample], spot: Spot) -> Result<bool, AllocError>
    ensures standing { IfOk result (λ _.
        standing judge.new ≡ course_then (samples_taken spot samples.now) (standing judge.old)) }
    ensures legal { IfOk result (λ legal. IsStanding (standing judge.old) → legal ≡ stands (standing judge.new)) }
{
    for sample in samples {
        let is_legal = judge.take(sample, spot, None)?;
        if !is_legal {
            return Ok(false);
        }
    }
    Ok(true)
}

/// Ends the transfer before, if there is one, and begins that of a datum.
fn open(judge: &mut Judge<'_>, datum: &LogDatum, spot: Spot) -> Result<bool, AllocError>
    ensures standing { IfOk result (λ _.
        standing judge.new ≡ course_then (addressed_by spot datum.now) (standing judge.old)) }
    ensures legal { IfOk result (λ legal. IsStanding (standing judge.old) → legal ≡ stands (standing judge.new)) }
{
    if !datum.is_wide {
        return fall(judge, datum, spot);
    }
    let begins = fall(judge, datum, spot)?;
    if begins {
        return handshake(judge, datum, quiet(datum, false), spot, true);
    }
    Ok(false)
}

/// AS* falls.
fn fall(judge: &mut Judge<'_>, datum: &LogDatum, spot: Spot) -> Result<bool, AllocError>
    ensures standing { IfOk result (λ _. standing judge.new ≡ course_then (begun_by spot datum.now) (standing judge.old)) }
    ensures legal { IfOk result (λ legal. IsStanding (standing judge.old) → legal ≡ stands (standing judge.new)) }
{
    let begins = take_all(judge, &[quiet(datum, true), quiet(datum, false)], spot)?;
    judge.forget_start();
    Ok(begins)
}

/// The strobes fall, the answer falls, the strobes rise, the answer rises.
#[tactic(auto, unfolding(crate::specs::Samples::handshake_samples))]
fn handshake(
    judge: &mut Judge<'_>,
    datum: &LogDatum,
    quiet: Sample,
    spot: Spot,
    is_acknowledged: bool,
) -> Result<bool, AllocError>
    ensures standing { IfOk result (λ _. standing judge.new ≡
        course_then (samples_taken spot (handshake_samples datum.now quiet is_acknowledged)) (standing judge.old)) }
    ensures legal { IfOk result (λ legal. IsStanding (standing judge.old) → legal ≡ stands (standing judge.new)) }
{
    let strobed = Sample {
        ds1: datum.ds1,
        ds0: datum.ds0,
        ..quiet
    };
    let answered = Sample {
        dtack: !is_acknowledged,
        berr: is_acknowledged,
        ..strobed
    };
    let released = Sample {
        ds1: true,
        ds0: true,
        ..answered
    };
    take_all(judge, &[quiet, strobed, answered, released, quiet], spot)
}
