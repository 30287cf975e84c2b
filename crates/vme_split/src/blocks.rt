//! Blocks of eight-byte data as blocks of four-byte data.
use crate::form::Reason;
use crate::line::LineSplit;
use std::alloc::{AllocError, Global};
use vme_cycle::{Block, Plan, Request};
use vme_grammar::Line;
use vme_lanes::Datum;

/// The number of bytes of a datum that is split.
const WHOLE: u8 = 8;

/// The number of bytes of each of its halves.
pub(crate) const HALF: u8 = 4;

/// The distance between the addresses that no block of four-byte data crosses: IEEE 1014-1987,
/// 2.3.7 (block transfer).
const BOUNDARY: u32 = 256;

/// The bits that a code of four-byte blocks has besides those of the code of eight-byte data.
const HALF_CODE: u8 = 0x03;

/// Consecutive bytes of a block.
#[derive(Clone, Copy, Debug)]
struct Piece {
    at: u32,
    /// The offset of the first byte in the block.
    from: usize,
    len: u32,
}

impl Piece {
    /// The number of data of four bytes.
    fn count(self) -> u16 {
        (self.len / u32::from(HALF)).min(BOUNDARY) as u16
    }
}

/// Splits a request. One that is refused, or whose data do not have eight bytes, stays.
pub(crate) fn split_request(
    alloc: Global,
    request: &Request,
    is_inside: bool,
) -> Result<LineSplit, AllocError> {
    match request {
        Request::Modify { n, .. } if *n == WHOLE => return Ok(LineSplit::Left(Reason::WideModify)),
        _ => {}
    }
    let Ok(plan) = Plan::of(request) else {
        return Ok(LineSplit::Whole);
    };
    if plan.datum_len() != WHOLE {
        return Ok(LineSplit::Whole);
    }
    if !is_inside {
        return Ok(LineSplit::Left(Reason::Outside));
    }
    if let Request::BlockFill { bytes, .. } = request {
        if half_of(bytes).is_none() {
            return Ok(LineSplit::Left(Reason::WideFill));
        }
    }
    let len = u32::from(WHOLE) * u32::from(plan.len());
    Ok(LineSplit::Parts(block_parts(alloc, request, plan.addr(), len)?))
}

/// The lines of the parts of a block of `len` bytes from `addr` on.
fn block_parts(
    alloc: Global,
    request: &Request,
    addr: u32,
    len: u32,
) -> Result<Vec<Line>, AllocError> {
    let mut lines = Vec::new(alloc);
    let (mut at, mut from) = (addr, 0);
    'pieces: while from < len {
        let unit = BOUNDARY - at % BOUNDARY;
        let piece = Piece {
            at,
            from: from as usize,
            len: unit.min(len - from),
        };
        if let Some(part) = part_of(alloc, request, piece)? {
            lines.push(Line::Bus(part))?;
        }
        at = at.wrapping_add(piece.len);
        from += piece.len;
    }
    Ok(lines)
}

/// The block of four-byte data with the bytes of a piece.
fn part_of(alloc: Global, request: &Request, piece: Piece) -> Result<Option<Request>, AllocError> {
    Ok(match request {
        Request::BlockRead { am, .. } => Some(Request::BlockRead {
            am: *am | HALF_CODE,
            addr: piece.at,
            n: HALF,
            count: piece.count(),
        }),
        Request::BlockWrite { am, bytes, .. } => {
            let all = bytes.as_slice();
            let start = piece.from.min(all.len());
            let end = (start + piece.len as usize).min(all.len());
            let part = Block::from_slice(alloc, &all[start..end]).map_err(|_| AllocError)?;
            Some(Request::BlockWrite {
                am: *am | HALF_CODE,
                addr: piece.at,
                n: HALF,
                bytes: part,
            })
        }
        Request::BlockFill { am, bytes, .. } => match half_of(bytes) {
            Some(half) => Some(Request::BlockFill {
                am: *am | HALF_CODE,
                addr: piece.at,
                n: HALF,
                count: piece.count(),
                bytes: half,
            }),
            None => None,
        },
        Request::Read { .. } | Request::Write { .. } | Request::Modify { .. } => None,
    })
}

/// The first half of a datum of eight bytes, if it equals the second.
fn half_of(bytes: &Datum) -> Option<Datum> {
    match bytes.as_slice() {
        [a, b, c, d, e, f, g, h] if a == e && b == f && c == g && d == h => {
            Some(Datum::try_from(&[*a, *b, *c, *d][..]).unwrap())
        }
        _ => None,
    }
}
