ghost use Rattle.std.specs.Prelude.{◌≡◌};
ghost use Rattle.vme_cycle.specs.declared.fault.CycleFault.TheVariants.{Code};

use vme_am::AmFault;

/// Why a request is refused. The variants are in the order of the checks.
#[derive(Clone, Copy, Debug, PartialEq, Eq)]
pub enum CycleFault {
    /// K9, K2 or K1: the code is not an address modifier of the table.
    Code(AmFault),
    /// K5: a block request without a block code, or a block code without a block request.
    WrongKindOfCode,
    /// K7: a read-modify-write with a program code.
    ProgramModify,
    /// K8: a length or a number of data that no cycle or no block has, or bytes that do not match
    /// them.
    BadCount,
    /// K4: the first or the last byte is outside the code's space.
    OutsideSpace,
    /// K3: no byte location has these bytes, or a block or a read-modify-write does not begin at a
    /// multiple of its datum length.
    NoCycle,
    /// K6: the first and the last byte of a block lie in different units of 256 bytes, or of 2,048
    /// bytes where its data have eight bytes.
    CrossesBoundary,
}

impl From<AmFault> for CycleFault {
    ghost from_gives = { λ fault error. error ≡ Code fault };

    fn from(fault: AmFault) -> CycleFault {
        CycleFault::Code(fault)
    }
}
