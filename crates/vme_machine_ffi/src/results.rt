//! The numbers of results that this library alone has.

/// Fewer processors were given than the machine has, though the test before found all.
pub(crate) const BAD_STATE: u8 = 0x24;

/// C13: a mailbox is not lawful.
pub(crate) const BAD_MAILBOX: u8 = 0x1d;

/// The arbiter granted the bus.
pub(crate) const GRANTED: u8 = 0x30;

/// The bus is not granted yet.
pub(crate) const WAITING: u8 = 0x31;

/// The arbiter denied a command.
pub(crate) const DENIED: u8 = 0x32;

/// The bus was released.
pub(crate) const FREED: u8 = 0x33;

/// The transfer, lock, unlock, put or take goes on.
pub(crate) const MORE: u8 = 0x34;

/// Another processor holds the object, and nothing has happened.
pub(crate) const BUSY: u8 = 0x50;

/// The struct has no processor.
pub(crate) const CLOSED: u8 = 0x51;

/// The object has made as many steps as can be counted, or a mailbox has had as many words.
pub(crate) const SPENT: u8 = 0x52;

/// Another processor has the lock.
pub(crate) const HELD: u8 = 0x53;

/// The mailbox has as many words as slots.
pub(crate) const FULL: u8 = 0x54;

/// The mailbox has no word.
pub(crate) const EMPTY: u8 = 0x55;
