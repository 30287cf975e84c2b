//! The cause of a request's refusal, and the word of its line that is at fault.
ghost use Rattle.std.specs.Prelude.{◌≡◌};
ghost use Rattle.vme_cycle.specs.declared.fault.CycleFault.TheVariants as cycle;
ghost use Rattle.vme_faults.specs.Causes.{cycle_fault};

use crate::cause::CycleCause;
use vme_am::{Am, AmFault};
use vme_cycle::{CycleFault, Request};

/// The greatest number of data of a block.
const MOST_DATA: usize = 256;

/// The distance between the addresses that no block crosses: IEEE 1014-1987, 2.3.7 (block
/// transfer).
const BOUNDARY: u16 = 256;

/// The distance between the addresses that no block of eight-byte data crosses.
const WIDE_BOUNDARY: u16 = 2048;

/// The parts of a request on which its refusals depend.
#[derive(Clone, Copy)]
struct Parts {
    am: u8,
    addr: u32,
    /// The number of bytes of each datum.
    datum: usize,
    /// The number of data.
    count: usize,
    /// The number of bytes in all.
    bytes: usize,
    is_block: bool,
    is_modify: bool,
}

/// The whole quotient of two numbers, or 0 if the divisor is 0.
fn quotient(bytes: usize, n: u8) -> usize {
    if n == 0 { 0 } else { bytes / usize::from(n) }
}

/// The parts of a request.
fn parts_of(request: &Request) -> Parts {
    match request {
        Request::Read { am, addr, n } => single(*am, *addr, usize::from(*n), false),
        Request::Write { am, addr, bytes } => single(*am, *addr, bytes.as_slice().len(), false),
        Request::Modify { am, addr, n, .. } => single(*am, *addr, usize::from(*n), true),
        Request::BlockRead { am, addr, n, count }
        | Request::BlockFill {
            am,
            addr,
            n,
            count,
            ..
        } => {
            let datum = usize::from(*n);
            let count = usize::from(*count);
            block(*am, *addr, datum, count, datum.saturating_mul(count))
        }
        Request::BlockWrite { am, addr, n, bytes } => {
            let len = bytes.len();
            block(*am, *addr, usize::from(*n), quotient(len, *n), len)
        }
    }
}

/// The parts of a request of one datum.
fn single(am: u8, addr: u32, datum: usize, is_modify: bool) -> Parts {
    Parts {
        am,
        addr,
        datum,
        count: 1,
        bytes: datum,
        is_block: false,
        is_modify,
    }
}

/// The parts of a block.
fn block(am: u8, addr: u32, datum: usize, count: usize, bytes: usize) -> Parts {
    Parts {
        am,
        addr,
        datum,
        count,
        bytes,
        is_block: true,
        is_modify: false,
    }
}

impl Parts {
    /// The address of the last byte.
    fn last(&self) -> u64 {
        let bytes = self.bytes as u64;
        u64::from(self.addr).saturating_add(bytes.saturating_sub(1))
    }

    /// The number of bytes of each datum, or 0 if it is above 255.
    fn datum_byte(&self) -> u8 {
        match u8::try_from(self.datum) {
            Ok(datum) => datum,
            Err(_) => 0,
        }
    }

    /// Whether the code is one of eight-byte data.
    fn is_wide(&self) -> bool {
        match Am::from_code(self.am) {
            Ok(am) => am.wide(),
            Err(_) => false,
        }
    }
}

/// Returns the cause of a request's refusal.
pub fn request_cause(request: &Request, fault: CycleFault) -> CycleCause
    ensures { cycle_fault result ≡ fault }
{
    let parts = &parts_of(request);
    let am = parts.am;
    match fault {
        CycleFault::Code(AmFault::TooLarge) => CycleCause::NoCode { am },
        CycleFault::Code(AmFault::UserDefined) => CycleCause::UserCode { am },
        CycleFault::Code(AmFault::Reserved) => CycleCause::ReservedCode { am },
        CycleFault::WrongKindOfCode if parts.is_block => CycleCause::NoBlockCode { am },
        CycleFault::WrongKindOfCode => CycleCause::BlockCode { am },
        CycleFault::ProgramModify => CycleCause::ProgramModify { am },
        CycleFault::BadCount => count_cause(parts),
        CycleFault::OutsideSpace => space_cause(parts),
        CycleFault::NoCycle => location_cause(parts),
        CycleFault::CrossesBoundary => CycleCause::Crosses {
            addr: parts.addr,
            last: parts.last(),
            boundary: if parts.is_wide() {
                WIDE_BOUNDARY
            } else {
                BOUNDARY
            },
        },
    }
}

/// The cause of K8: which number of bytes or of data is not lawful.
fn count_cause(parts: &Parts) -> CycleCause
    ensures { cycle_fault result ≡ cycle.BadCount }
{
    let am = parts.am;
    let bytes = parts.datum;
    if parts.is_modify {
        return CycleCause::ModifyLength { bytes };
    }
    if !parts.is_block {
        return CycleCause::SingleLength { bytes };
    }
    if parts.is_wide() {
        if bytes != 8 {
            return CycleCause::WideLength { am, bytes };
        }
    } else if bytes != 1 && bytes != 2 && bytes != 4 {
        return CycleCause::DatumLength { am, bytes };
    }
    if parts.bytes == 0 || parts.count > MOST_DATA {
        return CycleCause::DataCount { data: parts.count };
    }
    CycleCause::BytesLeft {
        bytes: parts.bytes,
        datum: parts.datum_byte(),
    }
}

/// The cause of K4: the space and the address of the last byte. A code that has no space is refused
/// before.
fn space_cause(parts: &Parts) -> CycleCause
    ensures { cycle_fault result ≡ cycle.OutsideSpace }
{
    let space = match Am::from_code(parts.am) {
        Ok(am) => am.space(),
        Err(_) => vme_am::Space::A32,
    };
    CycleCause::OutsideSpace {
        space,
        last: parts.last(),
    }
}

/// The cause of K3: an address that is not aligned, or bytes that have no byte location.
fn location_cause(parts: &Parts) -> CycleCause
    ensures { cycle_fault result ≡ cycle.NoCycle }
{
    let addr = parts.addr;
    let datum = parts.datum_byte();
    if parts.is_block || parts.is_modify {
        return CycleCause::AddressNotAligned { addr, datum };
    }
    CycleCause::NoLocation { addr, bytes: datum }
}

/// Returns the index, from 0, of the word at fault in a request line with this cause.
pub fn faulty_word(cause: CycleCause) -> usize {
    match cause {
        CycleCause::NoCode { .. }
        | CycleCause::UserCode { .. }
        | CycleCause::ReservedCode { .. }
        | CycleCause::BlockCode { .. }
        | CycleCause::NoBlockCode { .. }
        | CycleCause::ProgramModify { .. } => 1,
        CycleCause::SingleLength { .. }
        | CycleCause::ModifyLength { .. }
        | CycleCause::DatumLength { .. }
        | CycleCause::WideLength { .. } => 3,
        CycleCause::DataCount { .. } | CycleCause::BytesLeft { .. } => 4,
        CycleCause::OutsideSpace { .. }
        | CycleCause::NoLocation { .. }
        | CycleCause::AddressNotAligned { .. }
        | CycleCause::Crosses { .. } => 2,
    }
}
