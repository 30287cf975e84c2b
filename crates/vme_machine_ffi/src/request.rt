//! The requests of a master, as C has them.
ghost use Rattle.std.specs.Prelude.{◌≡◌};
ghost use Rattle.vme_machine_ffi.specs.Requests.{read_request, modify_request, AsksWrite};

use std::alloc::Global;
use vme_c_types::{BAD_COUNT, NO_MEMORY, VmeModify, VmeRequest, modify_of};
use vme_cycle::{Block, BlockFault, Request};
use vme_lanes::Datum;

/// The request of a read: a block read if the kind is 2, and otherwise a single one.
pub(crate) fn read_request(r: &VmeRequest) -> Request
    ensures { result ≡ read_request r.now }
{
    let (am, addr, n, count) = (r.am, r.addr, r.n, r.count);
    if r.kind == 2 {
        Request::BlockRead { am, addr, n, count }
    } else {
        Request::Read { am, addr, n }
    }
}

/// The request of a write of some bytes: a block write if the kind is 3, and otherwise a single one.
/// Returns the number of K8 for more bytes than such a request can have, or of a failed allocation.
pub(crate) fn write_request(alloc: Global, r: &VmeRequest, bytes: &[u8]) -> Result<Request, u8>
    ensures { AsksWrite r.now bytes.now result }
{
    let (am, addr, n) = (r.am, r.addr, r.n);
    if r.kind == 3 {
        return match Block::from_slice(alloc, bytes) {
            Ok(bytes) => Ok(Request::BlockWrite { am, addr, n, bytes }),
            Err(BlockFault::TooLong) => Err(BAD_COUNT),
            Err(BlockFault::Memory) => Err(NO_MEMORY),
        };
    }
    match Datum::try_from(bytes) {
        Ok(bytes) => Ok(Request::Write { am, addr, bytes }),
        Err(_) => Err(BAD_COUNT),
    }
}

/// The request of a read-modify-write.
pub(crate) fn modify_request(r: &VmeRequest, f: &VmeModify) -> Request
    ensures { result ≡ modify_request r.now f.now }
{
    Request::Modify {
        am: r.am,
        addr: r.addr,
        n: r.n,
        f: modify_of(f),
    }
}
