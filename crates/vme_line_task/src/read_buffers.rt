//! Buffers for the bytes that the lines of a script read.
ghost use Rattle.std.specs.Prelude.{◌≡◌, ◌<◌, ◌≤◌, ◌∷◌, length, IfOk};
ghost use Rattle.vme_cycle.specs.BlockBuffers.{inline_capacity};
ghost use Rattle.vme_line_task.specs.ReadBuffers.{line_read_len, buffers_of};

use std::alloc::{AllocError, Global};
use std::marker::Model;
use std::vec::IntoIter;
use vme_cycle::{BlockBuffer, INLINE_LEN, Plan};
use vme_grammar::Line;
use vme_script::Script;

/// Empty buffers for the lines of a script that have not begun, in order.
///
/// Only buffers that allocate are kept. Any other buffer is made when its line begins, so that a
/// line with an inline buffer needs one byte here.
#[derive(Drop)]
pub struct ReadBuffers {
    /// Whether the buffer of each line allocates.
    are_long: IntoIter<bool, Global>,
    /// The buffers that allocate.
    long: IntoIter<BlockBuffer, Global>,
}

impl Model for ReadBuffers {
    ghost use Rattle.std.specs.Prelude.{◌≡◌, List, length};
    ghost use Rattle.std.specs.Vec.Iter.{into_iter_items, into_iter_len};
    ghost use Rattle.vme_cycle.specs.BlockBuffers.{BufferView};
    ghost use Rattle.vme_line_task.specs.ReadBuffers.{buffers_kept};

    ghost Value = { List BufferView };

    ghost view = { λ r. buffers_kept (into_iter_items r.are_long) (into_iter_items r.long) };

    ghost invariant = { λ r.
        (into_iter_len r.are_long ≡ length (into_iter_items r.are_long))
        × (into_iter_len r.long ≡ length (into_iter_items r.long)) };
}

impl ReadBuffers {
    /// Returns a buffer for each line of a script, and allocates everything that the bytes of the
    /// lines need.
    ///
    /// # Errors
    ///
    /// `AllocError`: an allocation failed.
    pub fn new(alloc: Global, script: &Script) -> Result<ReadBuffers, AllocError>
        ensures { IfOk result (λ buffers. buffers ≡ buffers_of script.now) }
    {
        let mut are_long = Vec::with_capacity(alloc, script.len())?;
        let mut long = Vec::new(alloc);
        for line in 0..script.len() {
            let count = long_buffer(script.line(line));
            let is_long = INLINE_LEN < count;
            if is_long {
                long.push(BlockBuffer::with_capacity(alloc, count)?)?;
            }
            are_long.push_reserved(is_long);
        }
        Ok(ReadBuffers {
            are_long: are_long.into_iter(),
            long: long.into_iter(),
        })
    }

    /// Removes the buffer of the next line and returns it.
    pub fn take(&mut self) -> BlockBuffer
        requires { 0 < length self.old }
        ensures { self.old ≡ result ∷ self.new }
    {
        if self.are_long.next().unwrap() {
            self.long.next().unwrap()
        } else {
            BlockBuffer::new()
        }
    }
}

/// Returns the number of bytes that a line reads if they may be more than a buffer holds inline,
/// otherwise 0. Only a request that may read so many bytes is checked here.
fn long_buffer(line: &Line) -> usize
    ensures long { inline_capacity < result → result ≡ line_read_len line.now }
    ensures short { result ≤ inline_capacity → line_read_len line.now ≤ inline_capacity }
{
    match line {
        Line::Bus(request) if INLINE_LEN < request.read_len() => line_read_len(line),
        _ => 0,
    }
}

/// Returns the number of bytes that a line reads by a request over the bus. It is 0 for a refused
/// request and for any other line.
pub fn line_read_len(line: &Line) -> usize
    ensures { result ≡ line_read_len line.now }
{
    match line {
        Line::Bus(request) => match Plan::of(request) {
            Ok(plan) => plan.read_len(),
            Err(_) => 0,
        },
        _ => 0,
    }
}
