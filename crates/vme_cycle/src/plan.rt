ghost use Rattle.std.specs.Prelude.{◌≡◌, ◌<◌, ◌≤◌, ◌+◌, ◌*◌, ◌^◌, ◌%◌, ◌↔◌, length, Some, None, IsSome, IsTrue, IsOk, IfErr, IfSome};
ghost use Rattle.vme_lanes.specs.Rows.{row_of};
ghost use Rattle.std.specs.Option.{option_map};
ghost use Rattle.vme_cycle.specs.Functions.{has_len};
ghost use Rattle.vme_cycle.specs.Requests.{addr_of, function_of, reads, datum_len, count_of, address_of, read_len};
ghost use Rattle.vme_cycle.specs.Lawful.{location_for, first_refusal, transfer_of, IsLawfulTransfer};
ghost use Rattle.vme_cycle.specs.Parts.{IsLawful};
ghost use Rattle.vme_cycle.specs.SignalLines.{chosen_len, row_len, first_byte, sensed_at, len_at};
ghost use Rattle.vme_cycle.specs.Plans.{shown_strobes, own_location, signals_of, write_half_of};

use crate::fault::CycleFault;
use crate::modify::Modify;
use crate::request::{Request, location_for};
use crate::signals::{Signals, placed};
use std::marker::Model;
use vme_am::Am;
use vme_lanes::{DataLines, Datum, Location, place};

/// The plan of a lawful request: the signals of each datum.
#[derive(Debug, Drop)]
pub struct Plan<'a> {
    am: Am,
    request: &'a Request,
}

impl<'a> Model for Plan<'a> {
    ghost use Rattle.std.specs.Prelude.{◌≡◌, Ok, None};
    ghost use Rattle.vme_am.specs.Codes.{read_code};
    ghost use Rattle.vme_cycle.specs.Requests.{code_of};
    ghost use Rattle.vme_cycle.specs.Lawful.{Transfer, first_refusal};

    ghost Value = { Transfer };

    ghost view = { λ p. record { am = p.am; request = p.request.now } };

    ghost invariant = { λ p. (read_code (code_of p.request.now) ≡ Ok p.am) × (first_refusal p.request.now ≡ None) };
}

impl<'a> Plan<'a> {
    /// Returns the plan of a lawful request.
    ///
    /// # Errors
    ///
    /// The first refusal of the request, in the order K9, K2, K1, K5, K7, K8, K4, K3, K6.
    #[tactic(auto, unfolding(crate::specs::Lawful::transfer_of, crate::specs::Lawful::first_refusal))]
    #[inline(always)]
    pub fn of(request: &'a Request) -> Result<Plan<'a>, CycleFault>
        ensures plan { result ≡ transfer_of request.now }
        ensures lawful { IsOk result ↔ (first_refusal request.now ≡ None) }
        ensures refused { IfErr result (λ fault. first_refusal request.now ≡ Some fault) }
    {
        let am = Am::from_code(request.code())?;
        if am.kind().is_block() != request.is_block() {
            return Err(CycleFault::WrongKindOfCode);
        }
        if request.function().is_some() && am.kind().is_program() {
            return Err(CycleFault::ProgramModify);
        }
        if !request.is_counted(am.wide()) {
            return Err(CycleFault::BadCount);
        }
        if request.end() > am.space().addresses() {
            return Err(CycleFault::OutsideSpace);
        }
        if request.first_location().is_none() {
            return Err(CycleFault::NoCycle);
        }
        if request.crosses_boundary() {
            return Err(CycleFault::CrossesBoundary);
        }
        Ok(Plan { am, request })
    }

    /// The plan of a request that is known to be lawful, with the address modifier of its code.
    pub(crate) fn of_lawful(am: Am, request: &'a Request) -> Plan<'a>
        requires { IsLawfulTransfer (record { am = am; request = request.now }) }
        ensures { result ≡ record { am = am; request = request.now } }
    {
        Plan { am, request }
    }

    /// Returns the request, which is lawful.
    #[tactic(auto, using(crate::proofs::Lawful::lawful))]
    pub fn request(&self) -> &'a Request
        ensures value { result.now ≡ self.now.request }
        ensures lawful { IsLawful self.now.am self.now.request }
    {
        self.request
    }

    /// Returns the number of data: 1, or 1 to 256 for a block.
    pub fn len(&self) -> u16
        ensures value { result ≡ count_of self.now.request }
        ensures some { 0 < result }
        ensures unit { datum_len self.now.request * result ≤ 2048 }
        ensures end { addr_of self.now.request + datum_len self.now.request * result ≤ 2 ^ 32 }
    {
        self.request().count()
    }

    /// Returns the number of bytes of each datum, 1 to 8.
    pub fn datum_len(&self) -> u8
        ensures value { result ≡ datum_len self.now.request }
        ensures size { (1 ≤ result) × (result ≤ 8) }
    {
        self.request().datum_len()
    }

    /// Returns the number of bytes that the request reads in all; 0 for a write.
    pub fn read_len(&self) -> usize
        ensures { result ≡ read_len self.now.request }
    {
        self.request().read_len()
    }

    /// Returns the function of a read-modify-write, and `None` for every other request.
    pub fn modify(&self) -> Option<&Modify>
        ensures value { option_map (λ f. f.now) result ≡ function_of self.now.request }
        ensures len { IfSome result (λ f. IsTrue (has_len f.now (datum_len self.now.request))) }
        ensures one { IsSome result → count_of self.now.request ≡ 1 }
    {
        self.request().function()
    }

    /// Returns whether the request only reads.
    pub fn reads(&self) -> bool
        ensures { result ≡ reads self.now.request }
    {
        self.request().reads()
    }

    /// Returns the address modifier of the request's code.
    pub fn am(&self) -> Am
        ensures { result ≡ self.now.am }
    {
        self.am
    }

    /// Returns the address of the first byte.
    pub fn addr(&self) -> u32
        ensures { result ≡ addr_of self.now.request }
    {
        self.request().addr()
    }

    /// Returns the signals of datum `i` before a slave replies: IEEE 1014-1987, 2.3.6 (basic data
    /// transfer) and 2.3.7 (block transfer).
    ///
    /// In a block, the address lines, A01 and LWORD* stay those of the first datum. A slave that
    /// increments the address senses the location of each datum.
    #[inline(always)]
    #[tactic(auto, unfolding(crate::specs::Plans::signals_of))]
    pub fn signals(&self, i: u16) -> Signals
        requires { i < count_of self.now.request }
        ensures value { result ≡ signals_of self.now i }
        ensures sensed { sensed_at result (address_of self.now.request i)
            ≡ location_for (address_of self.now.request i) (datum_len self.now.request) }
        ensures first { i ≡ 0 → first_byte result ≡ Some (addr_of self.now.request) }
        ensures len { (row_len result.am.wide result.strobes ≡ Some (datum_len self.now.request))
            × (len_at result (address_of self.now.request i) ≡ Some (datum_len self.now.request)) }
    {
        let request = self.request();
        let bytes = request.datum(i);
        let own = self.location(i);
        let location = self.shown(i, own);
        let read = bytes.is_none();
        let lines = match bytes {
            Some(bytes) => placed(self.am().wide(), location, bytes),
            None => DataLines::idle(),
        };
        Signals::new(self.am(), request.addr(), location, read, lines)
    }

    /// Returns the signals of the write half of a read-modify-write that drives these bytes: IEEE
    /// 1014-1987, 2.3.8 (read-modify-write). Its read half is `signals(0)`.
    #[tactic(auto, unfolding(crate::specs::Plans::signals_of, crate::specs::Plans::write_half_of))]
    pub fn write_half(&self, bytes: &Datum) -> Signals
        requires modify { IsSome (function_of self.now.request) }
        requires len { length bytes.now.items ≡ datum_len self.now.request }
        ensures { result ≡ write_half_of self.now bytes.now.items }
    {
        let request = self.request();
        let location = self.location(0);
        let lines = place(location, bytes.as_slice());
        Signals::new(self.am(), request.addr(), location, false, lines)
    }

    /// The location whose strobes datum `i` shows, by the datum's own location.
    fn shown(&self, i: u16, own: Location) -> Location
        requires in_count { i < count_of self.now.request }
        requires own { own ≡ own_location self.now i }
        requires found { location_for (address_of self.now.request i) (datum_len self.now.request)
            ≡ Some own }
        requires len { chosen_len self.now.am.wide own ≡ Some (datum_len self.now.request) }
        requires lawful { IsLawful self.now.am self.now.request }
        ensures first { location_for (address_of self.now.request 0) (datum_len self.now.request)
            ≡ Some (own_location self.now 0) }
        ensures strobes { (row_of result).strobes
            ≡ shown_strobes (row_of (own_location self.now 0)).strobes (row_of own).strobes }
        ensures lane { (row_of result).lane ≡ (row_of own).lane }
        ensures len { (row_of result).len ≡ (row_of own).len }
    {
        if i == 0 {
            return own;
        }
        shown_location(self.location(0), own)
    }

    /// The location of datum `i` on its own.
    #[tactic(auto, unfolding(crate::specs::Plans::location_from))]
    fn location(&self, i: u16) -> Location
        requires { i < count_of self.now.request }
        ensures value { result ≡ own_location self.now i }
        ensures found { location_for (address_of self.now.request i) (datum_len self.now.request)
            ≡ Some result }
        ensures first { (row_of result).first ≡ address_of self.now.request i % 4 }
        ensures len { chosen_len self.now.am.wide result ≡ Some (datum_len self.now.request) }
    {
        let request = self.request();
        let n = request.datum_len();
        let address = request.addr() + u32::from(i) * u32::from(n);
        location_for(address, n).unwrap()
    }
}

/// The location whose strobes a datum shows: DS1* and DS0* are those of its own location, A01 and
/// LWORD* those of the first datum.
fn shown_location(first: Location, own: Location) -> Location
    requires len { (row_of first).len ≡ (row_of own).len }
    requires lword { (row_of first).strobes.lword ≡ (row_of own).strobes.lword }
    ensures strobes { (row_of result).strobes
        ≡ shown_strobes (row_of first).strobes (row_of own).strobes }
    ensures lane { (row_of result).lane ≡ (row_of own).lane }
    ensures len { (row_of result).len ≡ (row_of own).len }
{
    match (first, own) {
        (Location::Byte0 | Location::Byte1, Location::Byte2) => Location::Byte0,
        (Location::Byte0 | Location::Byte1, Location::Byte3) => Location::Byte1,
        (Location::Byte2 | Location::Byte3, Location::Byte0) => Location::Byte2,
        (Location::Byte2 | Location::Byte3, Location::Byte1) => Location::Byte3,
        (Location::Bytes01, Location::Bytes23) => Location::Bytes01,
        (Location::Bytes23, Location::Bytes01) => Location::Bytes23,
        _ => own,
    }
}
