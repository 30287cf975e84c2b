//! Buffers that are allocated before a run and used at its end.
ghost use Rattle.std.specs.Prelude.{◌≡◌, ◌≤◌, IfOk, vec_len, vec_capacity};

use crate::report::BoardReport;
use std::alloc::{AllocError, Global};
use vme_bus_objects::BusObject;
use vme_port::Home;
use vme_port_array::Pass;
use vme_shared::LineReply;

/// The greatest number of boards on a backplane: it has 21 slots (ANSI/IEEE Std 1014-1987).
const MOST_BOARDS: usize = 21;

/// Empty buffers for all passes of an array and for its objects.
#[derive(Drop)]
pub struct PassBuffers {
    pub(crate) passes: Vec<Pass<BusObject>>,
    pub(crate) homes: Vec<Home<BusObject>>,
    ghost passes_len: { vec_len passes ≡ 0 },
    ghost passes_capacity: { 21 ≤ vec_capacity passes },
    ghost homes_len: { vec_len homes ≡ 0 },
    ghost homes_capacity: { 22 ≤ vec_capacity homes },
}

impl PassBuffers {
    /// Allocates the buffers for `MOST_BOARDS` passes, the same number of boards, and the arbiter.
    ///
    /// # Errors
    /// `AllocError` if an allocation fails.
    pub(crate) fn new(alloc: Global) -> Result<PassBuffers, AllocError> {
        Ok(PassBuffers {
            passes: Vec::with_capacity(alloc, MOST_BOARDS)?,
            homes: Vec::with_capacity(alloc, MOST_BOARDS + 1)?,
        })
    }
}

/// Buffers for the report. `counts` receives the counts of each worker, and `made` those of each
/// board.
#[derive(Drop)]
pub struct ReportBuffers {
    pub(crate) lines: Vec<Vec<(u16, LineReply)>>,
    pub(crate) boards: Vec<BoardReport>,
    pub(crate) counts: Vec<Vec<u64>>,
    pub(crate) made: Vec<Vec<u64>>,
    pub(crate) bus_made: Vec<u64>,
}

impl ReportBuffers {
    ghost use Rattle.vme_threads.specs.RunBuffers.{AreEmptyBuffers};

    /// Allocates the buffers for the report of `count` boards.
    ///
    /// # Errors
    /// `AllocError` if an allocation fails.
    pub(crate) fn new(alloc: Global, count: usize) -> Result<ReportBuffers, AllocError>
        ensures { IfOk result (AreEmptyBuffers count) }
    {
        let mut made = Vec::with_capacity(alloc, count)?;
        for _ in 0..count {
            made.push_reserved(Vec::with_capacity(alloc, count)?);
        }
        Ok(ReportBuffers {
            lines: Vec::with_capacity(alloc, count)?,
            boards: Vec::with_capacity(alloc, count)?,
            counts: Vec::with_capacity(alloc, count)?,
            made,
            bus_made: Vec::with_capacity(alloc, count)?,
        })
    }
}
