ghost use Rattle.std.specs.Prelude.{◌≡◌, ◌-◌, ◌%◌, ◌<◌, Some, IfSome, IsNone, ◌↔◌, length};
ghost use Rattle.vme_am.specs.Spaces.{addresses_of};
ghost use Rattle.vme_lanes.specs.Rows.{row_of, location_sensed};
ghost use Rattle.vme_cycle.specs.SignalLines.{chosen_len, placed_lanes};

use std::marker::Model;
use vme_am::Am;
use vme_lanes::{DataLines, Location, Strobes, place, place_wide};

/// The signals of one cycle: the address modifier, the address lines from A02 up, the strobes with
/// A01 and LWORD*, WRITE*, and the data lanes; IEEE 1014-1987, 2.2 (data transfer bus lines). The
/// strobes always select a byte location.
#[derive(Clone, Copy, Debug, PartialEq, Eq)]
pub struct Signals {
    am: Am,
    addr: u32,
    location: Location,
    write: bool,
    lines: DataLines,
}

impl Model for Signals {
    ghost use Rattle.std.specs.Prelude.{◌≡◌, ◌%◌, ◌<◌};
    ghost use Rattle.std.proofs.Common.{ap};
    ghost use Rattle.vme_am.specs.Spaces.{addresses_of};
    ghost use Rattle.vme_lanes.specs.Rows.{row_of};
    ghost use Rattle.vme_cycle.specs.SignalLines.{SignalLines};
    ghost use Rattle.vme_cycle.specs.Inverse.{location_of, location_of-strobes};

    ghost Value = { SignalLines };

    ghost view = { λ s. record {
      am = s.am;
      addr = s.addr;
      strobes = (row_of s.location).strobes;
      write = s.write;
      lanes = s.lines.lanes;
    } };

    ghost invariant = { λ s. (s.addr % 4 ≡ 0) × (s.addr < addresses_of s.am.space) };

    ghost inverse = { λ v. record {
      am = v.am;
      addr = v.addr;
      location = location_of v.strobes;
      write = v.write;
      lines = record { lanes = v.lanes };
    } };

    ghost inverse_ok = { λ s _. ap (λ l. record s { location = l }) (location_of-strobes s.location) };
}

impl Signals {
    ghost use Rattle.vme_cycle.specs.SignalLines.{row_len, answered_lines, sensed_at};

    /// Returns the signals with these lines, or `None` where the strobes select no bytes.
    ///
    /// `addr` is the address lines from A02 up, as the address of a group of four. `write` is the
    /// level of WRITE*: `true` is high, as in a read.
    pub fn from_lines(
        am: Am,
        addr: u32,
        strobes: Strobes,
        write: bool,
        lines: DataLines,
    ) -> Option<Signals>
        requires aligned { addr % 4 ≡ 0 }
        requires in_space { addr < addresses_of am.space }
        ensures none { IsNone result ↔ IsNone (location_sensed strobes) }
        ensures lines { IfSome result (λ s. s ≡ record {
          am = am;
          addr = addr;
          strobes = strobes;
          write = write;
          lanes = lines.lanes;
        }) }
    {
        let location = Location::sense(strobes)?;
        Some(Signals {
            am,
            addr,
            location,
            write,
            lines,
        })
    }

    /// The signals of a cycle at a byte location of the group of four that contains `addr`.
    pub(crate) fn new(
        am: Am,
        addr: u32,
        location: Location,
        write: bool,
        lines: DataLines,
    ) -> Signals
        requires { addr < addresses_of am.space }
        ensures { result ≡ record {
          am = am;
          addr = addr - addr % 4;
          strobes = (row_of location).strobes;
          write = write;
          lanes = lines.lanes;
        } }
    {
        Signals {
            am,
            addr: addr - addr % 4,
            location,
            write,
            lines,
        }
    }

    /// Returns the address modifier.
    pub fn am(&self) -> Am
        ensures { result ≡ self.now.am }
    {
        self.am
    }

    /// Returns the address lines from A02 up, as the address of a group of four.
    pub fn addr(&self) -> u32
        ensures value { result ≡ self.now.addr }
        ensures aligned { result % 4 ≡ 0 }
        ensures in_space { result < addresses_of self.now.am.space }
    {
        self.addr
    }

    /// Returns the levels of DS1*, DS0*, A01 and LWORD*.
    pub fn strobes(&self) -> Strobes
        ensures { result ≡ self.now.strobes }
    {
        Strobes::of(self.location)
    }

    /// Returns the byte location that the strobes select.
    #[tactic(auto, unfolding(vme_lanes::specs::Rows::location_sensed))]
    pub fn location(&self) -> Location
        ensures sensed { location_sensed self.now.strobes ≡ Some result }
        ensures strobes { self.now.strobes ≡ (row_of result).strobes }
    {
        self.location
    }

    /// Returns the byte location that a slave senses when its address counter is at `at`, or `None`
    /// where there is none. In a block the slave takes A01 from bit 1 of `at`: IEEE 1014-1987,
    /// 2.3.7 (block transfer).
    pub fn sensed_at(&self, at: u32) -> Option<Location>
        ensures { result ≡ sensed_at self.now at }
    {
        if !self.am.kind().is_block() {
            return Some(self.location());
        }
        self.location.with_a01(at % 4 >= 2)
    }

    /// Returns the level of WRITE*: `false`, low, for a write.
    pub fn write(&self) -> bool
        ensures { result ≡ self.now.write }
    {
        self.write
    }

    /// Returns the data lanes.
    pub fn lines(&self) -> DataLines
        ensures { result.lanes ≡ self.now.lanes }
    {
        self.lines
    }

    /// Puts the bytes of a slave's reply to a read on the lanes that the code and the strobes select.
    // In place, because a printed datum changes only the two words of its lanes.
    pub fn answer(&mut self, bytes: &[u8])
        requires { row_len self.old.am.wide self.old.strobes ≡ Some (length bytes.now) }
        ensures { self.new ≡ answered_lines self.old bytes.now }
    {
        self.lines = placed(self.am.wide(), self.location(), bytes);
    }

    /// Returns the signals after a slave has replied to a read: it drives the bytes on the lanes
    /// that the code and the strobes select.
    pub fn answered(self, bytes: &[u8]) -> Signals
        requires { row_len self.am.wide self.strobes ≡ Some (length bytes.now) }
        ensures { result ≡ answered_lines self bytes.now }
    {
        let mut signals = self;
        signals.answer(bytes);
        signals
    }
}

/// The lanes with bytes on those that the code and the location select: all lanes with a code of
/// eight-byte data.
pub(crate) fn placed(wide: bool, location: Location, bytes: &[u8]) -> DataLines
    requires { chosen_len wide location ≡ Some (length bytes.now) }
    ensures { result.lanes ≡ placed_lanes wide location bytes.now }
{
    if wide {
        place_wide(bytes)
    } else {
        place(location, bytes)
    }
}
