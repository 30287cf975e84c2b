ghost use Rattle.std.specs.Prelude.{◌≡◌, ◌≤◌, ◌-◌};
ghost use Rattle.vme_cycle.specs.Requests.{read_len};
ghost use Rattle.vme_shared.specs.Layout.{mailbox_len};
ghost use Rattle.vme_shared.specs.Mailboxes.{IsMailbox, put_count_at, take_count_at, word_at, set_lock, clear_lock, read_word, write_word, mailbox_request, refusal_in, mailbox_refusal};
ghost use Rattle.vme_cycle.specs.Lawful.{transfer_of};

use crate::stage::Stage;
use crate::word::word_bytes;
use vme_cycle::{CycleFault, Modify, Request, Transfer};
use vme_lanes::Datum;

/// The offset of the count of words put.
const PUT_COUNT_AT: u32 = 4;

/// The offset of the count of words taken.
const TAKE_COUNT_AT: u32 = 8;

/// The offset of the first word.
const WORDS_AT: u32 = 16;

/// The number of bytes of a word.
const WORD_LEN: u32 = 4;

/// A mailbox of words in the memory of a board: the address modifier code of its transfers, the
/// address of its first byte, and its number of slots.
///
/// The lock byte lies at `addr`, the count of words put at `addr + 4`, the count of words taken at
/// `addr + 8`, and the words from `addr + 16` on. Each count and each word has four bytes, the most
/// significant first. A put or a take requires that `addr` is a multiple of four, that `slots` is 1
/// to 64, and that the mailbox ends within the 32-bit addresses.
#[derive(Clone, Copy, Debug, PartialEq, Eq)]
pub struct Mailbox {
    /// The address modifier code of its transfers.
    pub am: u8,
    /// The address of its first byte, the lock.
    pub addr: u32,
    /// The number of slots, each for one word.
    pub slots: u8,
}

impl Mailbox {
    /// Returns the number of bytes, from the lock to the end of the last word.
    pub fn len(self) -> u32
        ensures { result ≡ mailbox_len self.slots }
    {
        WORDS_AT + WORD_LEN * u32::from(self.slots)
    }

    fn put_count_at(self) -> u32
        requires { IsMailbox self }
        ensures { result ≡ put_count_at self }
    {
        self.addr + PUT_COUNT_AT
    }

    fn take_count_at(self) -> u32
        requires { IsMailbox self }
        ensures { result ≡ take_count_at self }
    {
        self.addr + TAKE_COUNT_AT
    }

    /// Returns the address of the word with this number.
    fn word_at(self, number: u32) -> u32
        requires { IsMailbox self }
        ensures { result ≡ word_at self number }
    {
        self.addr + WORDS_AT + WORD_LEN * (number % u32::from(self.slots))
    }

    /// Returns the refusal of the lock's transfer, or else that of a read of the last word.
    pub(crate) fn check(self) -> Result<(), CycleFault>
        requires { IsMailbox self }
        ensures { refusal_in result ≡ mailbox_refusal self }
    {
        check_request(&set_lock(self.am, self.addr))?;
        let last = self.word_at(u32::from(self.slots) - 1);
        check_request(&read_word(self.am, last))
    }

    /// Returns the transfer of a stage of a put or a take.
    pub(crate) fn request(self, stage: Stage) -> Request
        requires { IsMailbox self }
        ensures value { result ≡ mailbox_request self stage }
        ensures capacity { read_len result ≤ 4 }
    {
        let am = self.am;
        match stage {
            Stage::Locks => set_lock(am, self.addr),
            Stage::ReadsPutCount => read_word(am, self.put_count_at()),
            Stage::ReadsTakeCount { .. } => read_word(am, self.take_count_at()),
            Stage::WritesWord { put_count, word } => write_word(am, self.word_at(put_count), word),
            Stage::RaisesPutCount { put_count } => {
                write_word(am, self.put_count_at(), put_count.wrapping_add(1))
            }
            Stage::ReadsWord { take_count } => read_word(am, self.word_at(take_count)),
            Stage::RaisesTakeCount { take_count, .. } => {
                write_word(am, self.take_count_at(), take_count.wrapping_add(1))
            }
            Stage::Unlocks { .. } => clear_lock(am, self.addr),
        }
    }
}

/// Returns the read-modify-write that takes a lock.
pub(crate) fn set_lock(am: u8, addr: u32) -> Request
    ensures { result ≡ set_lock am addr }
{
    Request::Modify {
        am,
        addr,
        n: 1,
        f: Modify::Set,
    }
}

/// Returns the write that releases a lock.
pub(crate) fn clear_lock(am: u8, addr: u32) -> Request
    ensures { result ≡ clear_lock am addr }
{
    let bytes = Datum::try_from(&[0][..]).unwrap();
    Request::Write { am, addr, bytes }
}

fn read_word(am: u8, addr: u32) -> Request
    ensures { result ≡ read_word am addr }
{
    Request::Read { am, addr, n: 4 }
}

fn write_word(am: u8, addr: u32, word: u32) -> Request
    ensures { result ≡ write_word am addr word }
{
    let bytes = word_bytes(word);
    Request::Write { am, addr, bytes }
}

/// Returns the refusal of a request.
pub(crate) fn check_request(request: &Request) -> Result<(), CycleFault>
    ensures { refusal_in result ≡ refusal_in (transfer_of request.now) }
{
    Transfer::of(request)?;
    Ok(())
}
