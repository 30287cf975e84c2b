//! The numbers of results that both libraries have, those of refusals among them.
ghost use Rattle.std.specs.Prelude.{◌≡◌};
ghost use Rattle.vme_c_types.specs.Results.{code_refusal_number, refusal_number, map_refusal_number};

use vme_am::AmFault;
use vme_cycle::CycleFault;
use vme_decode::MapFault;

/// The call succeeded; of a slave, DTACK*.
pub const OK: u8 = 0;

/// K3: no single cycle reaches the bytes.
pub const NO_CYCLE: u8 = 3;

/// K8: the operands of a function, or the bytes of a write, have a length that does not exist.
pub const BAD_COUNT: u8 = 8;

/// A bus error.
pub const BUS_ERROR: u8 = 0x20;

/// No board responds.
pub const NO_BOARD: u8 = 0x21;

/// An argument does not match the others, the lines or the machine.
pub const BAD_CALL: u8 = 0x23;

/// An allocation failed.
pub const NO_MEMORY: u8 = 0x25;

/// The number of a refusal of a code: K1, K2 or K9.
pub fn code_refusal_number(fault: AmFault) -> u8
    ensures { result ≡ code_refusal_number fault }
{
    match fault {
        AmFault::Reserved => 1,
        AmFault::UserDefined => 2,
        AmFault::TooLarge => 9,
    }
}

/// The number of a refusal of a request: K1 to K9.
pub fn refusal_number(fault: CycleFault) -> u8
    ensures { result ≡ refusal_number fault }
{
    match fault {
        CycleFault::Code(fault) => code_refusal_number(fault),
        CycleFault::NoCycle => NO_CYCLE,
        CycleFault::OutsideSpace => 4,
        CycleFault::WrongKindOfCode => 5,
        CycleFault::CrossesBoundary => 6,
        CycleFault::ProgramModify => 7,
        CycleFault::BadCount => BAD_COUNT,
    }
}

/// The number of a refusal of a map: C1 to C4, or a failed allocation.
pub fn map_refusal_number(fault: MapFault) -> u8
    ensures { result ≡ map_refusal_number fault }
{
    match fault {
        MapFault::OutOfMemory => NO_MEMORY,
        MapFault::Overlap => 0x11,
        MapFault::OutsideSpace => 0x12,
        MapFault::Misaligned => 0x13,
        MapFault::TooMany => 0x14,
    }
}
