ghost use Rattle.std.specs.Prelude.{◌≡◌, Option};
ghost use Rattle.vme_protocol.specs.Places.{a01_at, location_in, addr_of, len_of, place_in, place_of, lanes_in, data_lanes, unit_of, is_placed, differs_from_block, misfits_block, misfits_cycle, misfits, breaks_transfer, datum_at};

use crate::datum::Datum;
use crate::lines::{lane_of, lanes_of};
use crate::sample::Sample;
use crate::transfer::Transfer;
use vme_lanes::{Location, Strobes};

/// Where a datum is.
#[derive(Clone, Copy, Debug, PartialEq, Eq)]
pub struct Place {
    /// Its byte location.
    pub location: Location,
    /// The address of its first byte.
    pub addr: u32,
    /// The number of its bytes.
    pub len: u8,
}

impl Transfer {
    /// A01 as the slave senses it: in a block it increments the address.
    fn a01_at(&self) -> bool
        ensures { result ≡ a01_at self.now }
    {
        if self.block && self.count > 0 {
            self.next % 4 >= 2
        } else {
            self.a01
        }
    }

    /// The byte location that the strobes of a sample select.
    fn location_in(&self, s: &Sample) -> Option<Location>
        ensures { result ≡ location_in self.now s.now }
    {
        Location::sense(Strobes {
            ds1: s.ds1,
            ds0: s.ds0,
            a01: self.a01_at(),
            lword: self.lword,
        })
    }

    fn addr_of(&self, location: Location) -> u32
        ensures { result ≡ addr_of self.now location }
    {
        if self.block && self.count > 0 {
            self.next
        } else {
            self.base.wrapping_add(u32::from(location.first()))
        }
    }

    fn len_of(&self, location: Location) -> u8
        ensures { result ≡ len_of self.now location }
    {
        if self.wide { 8 } else { location.len() }
    }

    /// Returns where the datum of a sample is, if its strobes select one.
    #[tactic(auto, unfolding(crate::specs::Places::place_in))]
    pub fn place_in(&self, s: &Sample) -> Option<Place>
        ensures { result ≡ place_in self.now s.now }
    {
        match self.location_in(s) {
            Some(location) => Some(Place {
                location,
                addr: self.addr_of(location),
                len: self.len_of(location),
            }),
            None => None,
        }
    }

    /// Returns the place of the datum of a sample, if its cycle is judged and the code has a row.
    pub fn place_of(&self, s: &Sample) -> Option<Place>
        ensures { result ≡ place_of self.now s.now }
    {
        if self.judged && self.has_row {
            self.place_in(s)
        } else {
            None
        }
    }

    /// The data lines of a place.
    fn lanes_in(&self, place: Option<Place>) -> u64
        ensures { result ≡ lanes_in self.now place }
    {
        match place {
            Some(_) if self.wide => u64::MAX,
            Some(place) => lanes_of(place.location),
            None => 0,
        }
    }

    /// Returns the data lines that the datum of a sample uses; none in an address phase.
    #[tactic(auto, unfolding(crate::specs::Places::data_lanes))]
    pub fn data_lanes(&self, s: &Sample) -> u64
        ensures { result ≡ data_lanes self.now s.now }
    {
        if self.wide && !self.addressed {
            0
        } else {
            self.lanes_in(self.place_of(s))
        }
    }

    /// The bytes of a block that does not pass its unit.
    fn unit_of(&self) -> u32
        ensures { result ≡ unit_of self.now }
    {
        if self.wide { 2048 } else { 256 }
    }

    /// Whether a datum of a block is at a multiple of its length, or one of eight bytes at one of
    /// four.
    fn is_placed(&self, place: &Place) -> bool
        ensures { result ≡ is_placed self.now place.now }
    {
        if self.wide {
            return place.location == Location::Bytes03 && place.addr % 4 == 0;
        }
        match place.len {
            1 => true,
            2 => place.addr % 2 == 0,
            4 => place.addr % 4 == 0,
            _ => false,
        }
    }

    /// Whether a datum has another length or direction than the block, or is in another unit.
    fn differs_from_block(&self, place: &Place, s: &Sample) -> bool
        ensures { result ≡ differs_from_block self.now place.now s.now }
    {
        let unit = self.unit_of();
        place.len != self.len || s.write != self.write || place.addr / unit != self.first / unit
    }

    /// Whether a datum may not come in a block.
    fn misfits_block(&self, place: &Place, s: &Sample) -> bool
        ensures { result ≡ misfits_block self.now place.now s.now }
    {
        let unit = self.unit_of();
        let first = u32::from(place.location.first());
        !self.is_placed(place)
            || first != place.addr % 4
            || place.addr % unit + u32::from(place.len) > unit
            || self.count > 0 && self.differs_from_block(place, s)
    }

    /// Whether a cycle is a second one that does not write what the first has read, or a third.
    fn misfits_cycle(&self, s: &Sample) -> bool
        ensures { result ≡ misfits_cycle self.now s.now }
    {
        let is_half = self.write && !s.write && s.ds1 == self.ds1 && s.ds0 == self.ds0;
        self.count > 1 || self.count == 1 && !is_half
    }

    fn misfits(&self, place: &Place, s: &Sample) -> bool
        ensures { result ≡ misfits self.now place.now s.now }
    {
        if self.block {
            self.misfits_block(place, s)
        } else {
            self.misfits_cycle(s)
        }
    }

    /// Returns whether the datum of a sample may not come in this transfer.
    #[tactic(auto, unfolding(crate::specs::Places::breaks_transfer))]
    pub fn breaks_transfer(&self, s: &Sample) -> bool
        ensures { result ≡ breaks_transfer self.now s.now }
    {
        match self.place_in(s) {
            None => true,
            Some(place) => self.failed || self.misfits(&place, s),
        }
    }

    /// Returns the datum of a sample at a place.
    #[tactic(auto, unfolding(crate::specs::Places::datum_at))]
    pub fn datum_at(&self, place: &Place, s: &Sample) -> Datum
        ensures { result ≡ datum_at self.now place.now s.now }
    {
        Datum {
            am: self.am,
            base: self.base,
            first: if self.count == 0 {
                place.addr
            } else {
                self.first
            },
            index: self.count,
            addr: place.addr,
            len: place.len,
            lane: if self.wide {
                0
            } else {
                lane_of(place.location)
            },
            ds1: s.ds1,
            ds0: s.ds0,
            a01: self.a01,
            lword: self.lword,
            write: s.write,
            dtack: s.dtack,
            lines: s.lines,
        }
    }
}
