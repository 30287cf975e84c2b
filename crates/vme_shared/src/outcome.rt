/// The outcome of a lock, an unlock, a put or a take.
#[derive(Clone, Copy, Debug, PartialEq, Eq)]
pub enum SharedOutcome {
    /// The lock was free, and is taken now.
    Taken,
    /// The lock is released.
    Unlocked,
    /// The lock was already taken.
    Busy,
    /// The word was put.
    Put,
    /// This word was taken.
    Took(u32),
    /// The mailbox has a word in every slot.
    Full,
    /// The mailbox has no word.
    Empty,
    /// The mailbox's count of words put is at its greatest value.
    Spent,
    /// A bus error of a board or of the bus timer:
    /// IEEE 1014-1987, 2.3.3 (bus timer).
    Berr,
    /// The arbiter denied a command, or a reply did not fit, was absent or came before the first
    /// call.
    Denied,
}
