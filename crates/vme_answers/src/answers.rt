ghost use Rattle.std.specs.Prelude.{◌≡◌, ◌+◌, ◌≤◌, length, replicate, None, Ok, Err, IsErr, IsOk, IfOk, IfErr, IfSome};
ghost use Rattle.vme_answers.specs.Forgetting.{forgot};
ghost use Rattle.vme_answers.specs.Selecting.{select, board_at};
ghost use Rattle.vme_answers.specs.Starting.{started};
ghost use Rattle.vme_answers.specs.Taking.{place, rested, half_after, half_torn, is_torn, read_taken, write_taken, taken_at, taken_in, taken_by, taken, local_taken_at, local_taken_in, local_taken};
ghost use Rattle.vme_answers.specs.Wrongs.{local_wrong_of, wrong_at, wrong_by, wrong_of};

use crate::board::{BoardRule, Half, Open, Row};
use crate::bytes::{bytes_of, find_all, known_from, local_bytes, store_all};
use crate::forgetting::forget_range;
use crate::selected::{Selected, is_block, is_second};
use crate::starting::{entries_of, open_all, rows_of};
use crate::wrong::Wrong;
use std::alloc::Global;
use std::marker::Model;
use vme_am::Am;
use vme_decode::{AddressMap, MapFault};
use vme_known::{Byte, KnownBytes};
use vme_protocol::{Datum, Local, Rule};

/// What is known of the memory of each board.
#[derive(Debug, Drop)]
pub struct Answers {
    map: AddressMap,
    rows: Vec<Row>,
    /// The bytes of all boards, one board after another.
    bytes: KnownBytes,
    others: bool,
    half: Option<Half>,
}

impl Model for Answers {
    ghost use Rattle.vme_answers.specs.Taking.{Judged};

    ghost Value = { Judged };

    ghost view = { λ a. record {
      entries = a.map;
      rows = a.rows.items;
      bytes = a.bytes;
      others = a.others;
      half = a.half;
    } };
}

impl Answers {
    /// Returns the boards before the trace: each byte is unseen, zero, or open. An address that no
    /// board covers may belong to another board, or no board answers there.
    ///
    /// # Errors
    ///
    /// The fault of the boards' address map, or an allocation failed.
    #[tactic(auto, unfolding(crate::specs::Starting::started))]
    pub fn new(
        alloc: Global,
        boards: &[BoardRule],
        opens: &[Open],
        zero: bool,
        others: bool,
    ) -> Result<Answers, MapFault>
        ensures { IfOk result (λ answers. answers ≡ started boards.now opens.now zero others) }
    {
        let map = AddressMap::new(alloc, entries_of(alloc, boards)?.as_slice())?;
        let (rows, len) = rows_of(alloc, boards)?;
        let byte = if zero { Byte::Known(0) } else { Byte::Unseen };
        let mut bytes = KnownBytes::new(alloc, len, byte)?;
        open_all(&mut bytes, rows.as_slice(), opens);
        Ok(Answers {
            map,
            rows,
            bytes,
            others,
            half: None,
        })
    }

    /// Takes the next datum.
    ///
    /// # Errors
    ///
    /// It is not the answer of a board: J21 to J24.
    #[tactic(auto, unfolding(crate::specs::Taking::taken, crate::specs::Wrongs::wrong_of))]
    pub fn take(&mut self, datum: &Datum) -> Result<(), Wrong>
        ensures wrong { IfErr result (λ wrong. taken self.old datum.now ≡ Err wrong.rule) }
        ensures shows { IfErr result (λ wrong. wrong ≡ wrong_of self.old datum.now wrong.rule) }
        ensures taken { IsOk result → taken self.old datum.now ≡ Ok self.new }
        ensures kept { IsErr result → self.new ≡ self.old }
    {
        match self.select(datum) {
            None => self.take_elsewhere(datum),
            Some(selected) => self.take_in(&selected, datum),
        }
    }

    /// Takes the next access by the local port of a board. One that is not within the board changes
    /// nothing.
    ///
    /// # Errors
    ///
    /// It finds other bytes than the memory may have: J23.
    #[tactic(auto, unfolding(crate::specs::Taking::local_taken, crate::specs::Wrongs::local_wrong_of))]
    pub fn take_local(&mut self, board: usize, access: &Local) -> Result<(), Wrong>
        ensures wrong { IfErr result (λ wrong. local_taken self.old board access.now ≡ Err wrong.rule) }
        ensures shows { IfErr result (λ wrong. wrong ≡ local_wrong_of self.old board access.now wrong.rule) }
        ensures taken { IsOk result → local_taken self.old board access.now ≡ Ok self.new }
        ensures kept { IsErr result → self.new ≡ self.old }
    {
        let row = match self.rows.get(board) {
            Some(row) => *row,
            None => return Ok(()),
        };
        let selected = Selected {
            board,
            offset: access.offset,
            row,
        };
        match self.place(&selected, access.len) {
            Some(at) => self.take_local_at(&selected, at, access),
            None => Ok(()),
        }
    }

    /// Returns the board that an address selects under a code, and the offset there.
    pub fn board_at(&self, am: u8, addr: u32) -> Option<(usize, u32)>
        ensures { result ≡ board_at self.now.entries am addr }
    {
        match Am::from_code(am) {
            Ok(am) => self.map.select_at(am, addr),
            Err(_) => None,
        }
    }

    /// Forgets the bytes of a board from one offset to another: something unseen may have written them.
    /// Bytes that are not there are left out.
    pub fn forget(&mut self, board: usize, from: u32, to: u32)
        ensures { self.new ≡ forgot self.old board from to }
    {
        forget_range(&mut self.bytes, self.rows.as_slice(), board, from, to);
        self.half = None;
    }

    /// The board that a datum selects, and the offset of its first byte.
    #[tactic(auto, unfolding(crate::specs::Selecting::select))]
    fn select(&self, datum: &Datum) -> Option<Selected>
        ensures { result ≡ select self.now.entries self.now.rows datum.now }
    {
        let Ok(am) = Am::from_code(datum.am) else {
            return None;
        };
        let (board, first) = self.map.select_at(am, datum.first)?;
        let row = *self.rows.get(board)?;
        let offset = first.checked_add(datum.addr.checked_sub(datum.first)?)?;
        Some(Selected { board, offset, row })
    }

    /// The place of some bytes of a board, if they are within it.
    fn place(&self, selected: &Selected, len: u8) -> Option<usize>
        ensures value { result ≡ place self.now selected.now len }
        ensures within { IfSome result (λ at. at + len ≤ length self.now.bytes) }
    {
        let end = u64::from(selected.offset) + u64::from(len);
        let left = self.bytes.len().checked_sub(selected.row.start)?;
        if end > u64::from(selected.row.size) || end > left as u64 {
            return None;
        }
        Some(selected.row.start + selected.offset as usize)
    }

    /// Takes a datum that selects no board.
    fn take_elsewhere(&mut self, datum: &Datum) -> Result<(), Wrong>
        ensures wrong { IfErr result (λ wrong. taken_by self.old datum.now None ≡ Err wrong.rule) }
        ensures shows { IfErr result (λ wrong. wrong ≡ wrong_by self.old wrong.rule datum.now None) }
        ensures taken { IsOk result → taken_by self.old datum.now None ≡ Ok self.new }
        ensures kept { IsErr result → self.new ≡ self.old }
    {
        if datum.dtack || self.others {
            self.half = None;
            return Ok(());
        }
        Err(Wrong {
            rule: Rule::NoBoard,
            board: None,
            offset: 0,
            len: datum.len,
            known: [None; 8],
        })
    }

    /// Takes a datum that selects a board.
    fn take_in(&mut self, selected: &Selected, datum: &Datum) -> Result<(), Wrong>
        ensures wrong { IfErr result (λ wrong.
            taken_in self.old datum.now selected.now (place self.old selected.now datum.now.len) ≡ Err wrong.rule) }
        ensures shows { IfErr result (λ wrong. wrong ≡ wrong_at self.old wrong.rule selected.now datum.now.len) }
        ensures taken { IsOk result →
            taken_in self.old datum.now selected.now (place self.old selected.now datum.now.len) ≡ Ok self.new }
        ensures kept { IsErr result → self.new ≡ self.old }
    {
        if let Some(at) = self.place(selected, datum.len) {
            return self.take_at(selected, at, datum);
        }
        if datum.dtack {
            self.half = None;
            return Ok(());
        }
        Err(self.wrong(Rule::NoBoard, selected, datum.len))
    }

    /// Takes a datum that is within a board.
    #[tactic(auto, unfolding(crate::specs::Taking::taken_at))]
    fn take_at(&mut self, selected: &Selected, at: usize, datum: &Datum) -> Result<(), Wrong>
        requires { at + datum.now.len ≤ length self.old.bytes }
        ensures wrong { IfErr result (λ wrong. taken_at self.old datum.now selected.now at ≡ Err wrong.rule) }
        ensures shows { IfErr result (λ wrong. wrong ≡ wrong_at self.old wrong.rule selected.now datum.now.len) }
        ensures taken { IsOk result → taken_at self.old datum.now selected.now at ≡ Ok self.new }
        ensures kept { IsErr result → self.new ≡ self.old }
    {
        let has_cycle = selected.has_cycle_of(datum);
        if datum.dtack {
            if has_cycle && !selected.may_refuse(datum) {
                return Err(self.wrong(Rule::BusError, selected, datum.len));
            }
            self.half = None;
            return Ok(());
        }
        if !has_cycle {
            return Err(self.wrong(Rule::NoBoard, selected, datum.len));
        }
        if datum.write {
            self.take_read(selected, at, datum)
        } else {
            self.take_write(selected, at, datum)
        }
    }

    /// Takes a read.
    #[tactic(auto, unfolding(crate::specs::Taking::read_taken))]
    fn take_read(&mut self, selected: &Selected, at: usize, datum: &Datum) -> Result<(), Wrong>
        requires { at + datum.now.len ≤ length self.old.bytes }
        ensures wrong { IfErr result (λ wrong. read_taken self.old datum.now selected.now at ≡ Err wrong.rule) }
        ensures shows { IfErr result (λ wrong. wrong ≡ wrong_at self.old wrong.rule selected.now datum.now.len) }
        ensures taken { IsOk result → read_taken self.old datum.now selected.now at ≡ Ok self.new }
        ensures kept { IsErr result → self.new ≡ self.old }
    {
        let wrong = self.wrong(Rule::WrongBytes, selected, datum.len);
        let bytes = bytes_of(datum);
        if !find_all(&mut self.bytes, at, bytes.as_slice()) {
            return Err(wrong);
        }
        self.half = half_after(selected, datum);
        Ok(())
    }

    /// Takes a write.
    #[tactic(auto, unfolding(crate::specs::Taking::write_taken))]
    fn take_write(&mut self, selected: &Selected, at: usize, datum: &Datum) -> Result<(), Wrong>
        requires { at + datum.now.len ≤ length self.old.bytes }
        ensures wrong { IfErr result (λ wrong. write_taken self.old datum.now at ≡ Err wrong.rule) }
        ensures shows { IfErr result (λ wrong. wrong ≡ wrong_at self.old wrong.rule selected.now datum.now.len) }
        ensures taken { IsOk result → write_taken self.old datum.now at ≡ Ok self.new }
        ensures kept { IsErr result → self.new ≡ self.old }
    {
        if is_second(datum) && is_torn(self.half) {
            return Err(self.wrong(Rule::TornModify, selected, datum.len));
        }
        let bytes = bytes_of(datum);
        store_all(&mut self.bytes, at, bytes.as_slice());
        self.half = None;
        Ok(())
    }

    /// Takes a local access that is within a board.
    #[tactic(auto, unfolding(crate::specs::Taking::local_taken_at))]
    fn take_local_at(&mut self, selected: &Selected, at: usize, access: &Local) -> Result<(), Wrong>
        requires { at + access.now.len ≤ length self.old.bytes }
        ensures wrong { IfErr result (λ wrong. local_taken_at self.old access.now selected.now at ≡ Err wrong.rule) }
        ensures shows { IfErr result (λ wrong. wrong ≡ wrong_at self.old wrong.rule selected.now access.now.len) }
        ensures taken { IsOk result → local_taken_at self.old access.now selected.now at ≡ Ok self.new }
        ensures kept { IsErr result → self.new ≡ self.old }
    {
        let wrong = self.wrong(Rule::WrongBytes, selected, access.len);
        let bytes = local_bytes(access);
        if access.write {
            store_all(&mut self.bytes, at, bytes.as_slice());
            self.half = half_torn(selected, access.len, self.half);
            return Ok(());
        }
        if !find_all(&mut self.bytes, at, bytes.as_slice()) {
            return Err(wrong);
        }
        Ok(())
    }

    /// Why an answer is not that of a board.
    fn wrong(&self, rule: Rule, selected: &Selected, len: u8) -> Wrong
        ensures { result ≡ wrong_at self.now rule selected.now len }
    {
        let at = selected.row.start.saturating_add(selected.offset as usize);
        Wrong {
            rule,
            board: Some(selected.board),
            offset: selected.offset,
            len,
            known: known_from(&self.bytes, at, len),
        }
    }
}

/// The read half that a read may be.
fn half_after(selected: &Selected, datum: &Datum) -> Option<Half>
    ensures { result ≡ half_after selected.now datum.now }
{
    if is_block(datum.am) {
        return None;
    }
    Some(Half {
        board: selected.board,
        offset: selected.offset,
        len: datum.len,
        torn: false,
    })
}

/// A read half after a local write.
fn half_torn(selected: &Selected, len: u8, half: Option<Half>) -> Option<Half>
    ensures { result ≡ half_torn selected.now len half }
{
    match half {
        Some(half) => Some(Half {
            torn: half.torn || selected.overlaps(len, &half),
            ..half
        }),
        None => None,
    }
}

/// Whether a local write has come to the bytes of a read half.
fn is_torn(half: Option<Half>) -> bool
    ensures { result ≡ is_torn half }
{
    match half {
        Some(half) => half.torn,
        None => false,
    }
}
