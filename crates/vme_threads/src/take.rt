//! Replies to the data of a read.
ghost use Rattle.vme_line_task.specs.Tables.{await_reply, asks_again};
ghost use Rattle.std.specs.Prelude.{◌≡◌, ◌≤◌, ◌++◌, length};
ghost use Rattle.vme_cycle.specs.BlockBuffers.{block_limit};
ghost use Rattle.vme_threads.specs.Reads.{IsTaken, read_outcome};

use crate::read::ReadEnd;
use arrayvec::ArrayVec;
use vme_cycle::BlockBuffer;
use vme_master::Outcome;
use vme_memory::Reply;
use vme_shared::LineReply;

/// What became of the reply to one datum.
#[derive(Clone, Copy)]
pub(crate) enum Taken {
    /// Its bytes were appended.
    Bytes,
    /// It is a bus error.
    Berr,
    /// It does not fit.
    Denied,
}

/// The bytes of data that were read since the last of them went to the bytes of their block.
pub(crate) type Gathered = ArrayVec<u8, 64>;

/// With at most so many gathered bytes another datum fits behind them.
const MOST_BEFORE: usize = 56;

/// Appends the bytes of a board's reply to a datum of `n` bytes to those that were gathered.
#[inline(always)]
pub(crate) fn take(reply: &Reply, n: u8, gathered: &mut Gathered) -> Taken
    requires { length gathered.old.items ≤ 56 }
    ensures { IsTaken n reply.now gathered.old.items gathered.new.items result }
{
    let datum = match reply {
        Reply::Bytes(datum) => datum.as_slice(),
        Reply::Berr => return Taken::Berr,
        Reply::Done => return Taken::Denied,
    };
    // Short literals are copied in place.
    match (n, datum) {
        (1, [a]) => gathered.push(*a),
        (4, [a, b, c, d]) => gathered.try_extend_from_slice(&[*a, *b, *c, *d]).unwrap(),
        (_, datum) if datum.len() == usize::from(n) => {
            gathered.try_extend_from_slice(datum).unwrap()
        }
        _ => return Taken::Denied,
    }
    Taken::Bytes
}

/// Appends the gathered bytes to those of their block, unless another datum fits behind them.
#[inline(always)]
pub(crate) fn make_room(gathered: &mut Gathered, bytes: &mut BlockBuffer)
    requires { length (bytes.old.items ++ gathered.old.items) ≤ bytes.old.capacity }
    ensures bytes { bytes.new.items ++ gathered.new.items ≡ bytes.old.items ++ gathered.old.items }
    ensures capacity { bytes.new.capacity ≡ bytes.old.capacity }
    ensures fits { length gathered.new.items ≤ 56 }
{
    if gathered.len() <= MOST_BEFORE {
        return;
    }
    bytes.extend_from_slice(gathered.as_slice());
    gathered.clear();
}

/// Returns the outcome of a read that has ended, with the bytes that were read.
pub(crate) fn outcome_of(end: ReadEnd, bytes: BlockBuffer) -> Outcome
    requires { length bytes.items ≤ block_limit }
    ensures { result ≡ read_outcome end bytes.items }
{
    match end {
        ReadEnd::Ended { berr: None } => Outcome::Read(bytes.into_block()),
        ReadEnd::Ended { berr: Some(count) } => Outcome::Berr {
            count,
            bytes: bytes.into_block(),
        },
        ReadEnd::Denied => Outcome::Denied,
    }
}

/// Returns whether a read that has ended asks for another, since it read other bytes than `want`.
#[inline(always)]
pub(crate) fn has_to_read_again(end: ReadEnd, bytes: &BlockBuffer, want: &[u8]) -> bool
    ensures { result ≡ asks_again (await_reply want.now (read_outcome end bytes.now.items)) }
{
    match end {
        ReadEnd::Ended { berr: None } => !(bytes.as_slice() == want),
        ReadEnd::Ended { berr: Some(_) } => false,
        ReadEnd::Denied => false,
    }
}

/// Returns the reply to a line that waits for the bytes `want`, by its last read.
pub(crate) fn reply_of(end: ReadEnd, bytes: BlockBuffer, want: &[u8]) -> LineReply
    requires { length bytes.items ≤ block_limit }
    ensures { result ≡ await_reply want.now (read_outcome end bytes.items) }
{
    match end {
        ReadEnd::Ended { berr: None } if bytes.as_slice() == want => LineReply::Met,
        ReadEnd::Ended { berr: None } => LineReply::Timeout,
        end => LineReply::Transfer(outcome_of(end, bytes)),
    }
}
