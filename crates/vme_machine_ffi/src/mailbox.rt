//! Mailboxes of words, as C has them.
ghost use Rattle.vme_machine_ffi.specs.Shared.{ReadsMailbox};

use crate::results::BAD_MAILBOX;
use vme_shared::Mailbox;

/// The greatest number of slots of a mailbox.
const MOST_SLOTS: u16 = 64;

/// The number of addresses of the bus.
const ADDRESSES: u64 = 1 << 32;

/// A mailbox of words in the memory of a board.
#[repr(C)]
#[derive(Clone, Copy)]
pub struct VmeMailbox {
    /// The address of its first byte, the lock.
    pub addr: u32,
    /// The number of its slots.
    pub slots: u16,
    /// The address modifier code of its transfers.
    pub am: u8,
}

/// The mailbox of a struct, or the number of C13: its address is no multiple of four, its slots are
/// not 1 to 64, or it ends after the 32-bit addresses.
pub(crate) fn mailbox_of(m: &VmeMailbox) -> Result<Mailbox, u8>
    ensures { ReadsMailbox m.now result }
{
    let (am, addr) = (m.am, m.addr);
    if addr % 4 != 0 || m.slots == 0 || m.slots > MOST_SLOTS {
        return Err(BAD_MAILBOX);
    }
    let slots = m.slots as u8;
    let mailbox = Mailbox { am, addr, slots };
    if u64::from(addr) + u64::from(mailbox.len()) > ADDRESSES {
        return Err(BAD_MAILBOX);
    }
    Ok(mailbox)
}
