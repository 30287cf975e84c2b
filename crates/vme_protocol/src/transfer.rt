ghost use Rattle.std.specs.Prelude.{◌≡◌};
ghost use Rattle.vme_protocol.specs.Transfers.{opened, is_block_code, is_wide_code, has_row, is_address_phase, after_answer, next_count, took};

use crate::lines::{A01, BELOW_A02, LWORD, counted_lines, meet};
use crate::place::Place;
use crate::sample::Sample;
use crate::scope::Scope;
use vme_am::Am;

/// What is remembered of a transfer, from the fall of AS* on.
#[derive(Clone, Copy, Debug, PartialEq, Eq)]
pub struct Transfer {
    /// Whether its cycles are judged: IACK* is high, and the code is not ignored.
    pub judged: bool,
    /// The address modifier code.
    pub am: u8,
    /// Whether the table has the code.
    pub has_row: bool,
    /// Whether the code is one of a block.
    pub block: bool,
    /// Whether each datum has eight bytes.
    pub wide: bool,
    /// The address and LWORD* as AS* fell, as in a sample.
    pub lines: u64,
    /// Those of the lines that count with the code.
    pub counted: u64,
    /// A31 to A02 as AS* fell: a multiple of four.
    pub base: u32,
    /// A01 as AS* fell.
    pub a01: bool,
    /// LWORD* as AS* fell.
    pub lword: bool,
    /// Whether an answer has come.
    pub answered: bool,
    /// Whether the address phase of eight-byte data has been answered.
    pub addressed: bool,
    /// Whether BERR* has answered.
    pub failed: bool,
    /// The number of data.
    pub count: u32,
    /// The address of the first byte of the first datum.
    pub first: u32,
    /// The address after the last datum.
    pub next: u32,
    /// The length of the last datum.
    pub len: u8,
    /// WRITE* at the first datum.
    pub write: bool,
    /// DS1* at the last datum.
    pub ds1: bool,
    /// DS0* at the last datum.
    pub ds0: bool,
}

impl Transfer {
    /// Returns the transfer that a sample begins.
    #[tactic(auto, unfolding(crate::specs::Transfers::opened))]
    pub fn opened(scope: &Scope, s: &Sample) -> Transfer
        ensures { result ≡ opened scope.now s.now }
    {
        let counted = counted_lines(s.am);
        Transfer {
            judged: s.iack && !scope.is_ignored(s.am),
            am: s.am,
            has_row: has_row(s.am),
            block: is_block_code(s.am),
            wide: is_wide_code(s.am),
            lines: s.lines,
            counted,
            base: ((s.lines & counted) / BELOW_A02 * 4) as u32,
            a01: meet(s.lines, A01),
            lword: meet(s.lines, LWORD),
            answered: false,
            addressed: false,
            failed: false,
            count: 0,
            first: 0,
            next: 0,
            len: 0,
            write: false,
            ds1: true,
            ds0: true,
        }
    }

    /// Returns whether an answer is that of the address phase of eight-byte data.
    pub fn is_address_phase(&self, s: &Sample) -> bool
        ensures { result ≡ is_address_phase self.now s.now }
    {
        self.wide && !self.addressed && !s.dtack
    }

    /// Takes an answer, which is that of a datum at a place, if at one.
    #[tactic(auto, unfolding(crate::specs::Transfers::after_answer))]
    pub(crate) fn answer(&mut self, place: Option<Place>, s: &Sample)
        ensures { self.new ≡ after_answer self.old place s.now }
    {
        match place {
            Some(place) if !self.is_address_phase(s) => self.take(&place, s),
            _ => {
                self.answered = true;
                self.addressed = true;
            }
        }
    }

    /// Takes a datum.
    #[tactic(auto, unfolding(crate::specs::Transfers::took))]
    fn take(&mut self, place: &Place, s: &Sample)
        ensures { self.new ≡ took self.old place.now s.now }
    {
        if self.count == 0 {
            self.first = place.addr;
            self.write = s.write;
        }
        self.answered = true;
        self.addressed = true;
        self.failed = self.failed || s.dtack;
        self.count = self.count.saturating_add(1);
        self.next = place.addr.wrapping_add(u32::from(place.len));
        self.len = place.len;
        self.ds1 = s.ds1;
        self.ds0 = s.ds0;
    }
}

/// Whether the table has a code.
fn has_row(am: u8) -> bool
    ensures { result ≡ has_row am }
{
    Am::from_code(am).is_ok()
}

/// Whether a code is one of a block.
fn is_block_code(am: u8) -> bool
    ensures { result ≡ is_block_code am }
{
    match Am::from_code(am) {
        Ok(am) => am.kind().is_block(),
        Err(_) => false,
    }
}

/// Whether the data of a code have eight bytes.
fn is_wide_code(am: u8) -> bool
    ensures { result ≡ is_wide_code am }
{
    match Am::from_code(am) {
        Ok(am) => am.wide(),
        Err(_) => false,
    }
}
