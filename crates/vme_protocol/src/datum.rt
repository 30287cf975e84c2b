ghost use Rattle.std.specs.Prelude.{◌≡◌, ◌+◌, ◌≤◌, slice_range};
ghost use Rattle.std.specs.Int.{w64, to_be_bytes};

use vme_lanes::Datum as Bytes;

/// One datum of a transfer: what an answer ends.
#[derive(Clone, Copy, Debug, PartialEq, Eq)]
pub struct Datum {
    /// The address modifier code.
    pub am: u8,
    /// A31 to A02 as AS* fell, those that count with the code: a multiple of four.
    pub base: u32,
    /// The address of the transfer's first byte.
    pub first: u32,
    /// The number of data of the transfer before it.
    pub index: u32,
    /// The address of its own first byte.
    pub addr: u32,
    /// The number of its bytes: one to four, or eight.
    pub len: u8,
    /// The first of its lanes, of eight.
    pub lane: u8,
    /// DS1* at the answer.
    pub ds1: bool,
    /// DS0* at the answer.
    pub ds0: bool,
    /// A01 as AS* fell.
    pub a01: bool,
    /// LWORD* as AS* fell.
    pub lword: bool,
    /// WRITE*: it is high in a read.
    pub write: bool,
    /// DTACK* at the answer: it is high where BERR* answers.
    pub dtack: bool,
    /// The data lines, as in a sample. Only those of its lanes count.
    pub lines: u64,
}

impl Datum {
    /// Returns its bytes, in order of address.
    pub fn bytes(&self) -> Bytes
        requires { self.now.lane + self.now.len ≤ 8 }
        ensures { result.items ≡ slice_range (to_be_bytes w64 self.now.lines) self.now.lane (self.now.lane + self.now.len) }
    {
        let bytes = self.lines.to_be_bytes();
        let first = usize::from(self.lane);
        Bytes::try_from(&bytes[first..first + usize::from(self.len)]).unwrap()
    }
}
