//! The functions of read-modify-writes, as C has them.
ghost use Rattle.std.specs.Prelude.{◌≡◌};
ghost use Rattle.vme_c_types.specs.Data.{modify_of};

use crate::datum::{VmeDatum, datum_of};
use vme_cycle::Modify;

/// The function of a read-modify-write cycle: IEEE 1014-1987, 2.3.8 (read-modify-write).
#[repr(C)]
#[derive(Clone, Copy)]
pub struct VmeModify {
    /// 0: the cycle is not a read-modify-write. 1: set. 2: exchange. 3: add. Every other number:
    /// compare. Where a function is required, 0 is compare too.
    pub function: u8,
    /// The bytes that are exchanged, added or expected.
    pub operand: VmeDatum,
    /// The bytes that replace the expected ones.
    pub put: VmeDatum,
}

/// The function of a read-modify-write.
pub fn modify_of(f: &VmeModify) -> Modify
    ensures { result ≡ modify_of f.now }
{
    match f.function {
        1 => Modify::Set,
        2 => Modify::Exchange(datum_of(&f.operand)),
        3 => Modify::Add(datum_of(&f.operand)),
        _ => Modify::Compare {
            expect: datum_of(&f.operand),
            put: datum_of(&f.put),
        },
    }
}
