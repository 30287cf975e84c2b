use crate::outcome::SharedOutcome;

/// A transfer of a lock, an unlock, a put or a take.
#[derive(Clone, Copy, Debug, PartialEq, Eq)]
pub enum Stage {
    /// Sets the lock and reads whether it was free.
    Locks,
    /// Reads the count of words put.
    ReadsPutCount,
    /// Reads the count of words taken.
    ReadsTakeCount { put_count: u32 },
    /// Writes the word that is put.
    WritesWord { put_count: u32, word: u32 },
    /// Writes the count of words put, plus one.
    RaisesPutCount { put_count: u32 },
    /// Reads the word that is taken.
    ReadsWord { take_count: u32 },
    /// Writes the count of words taken, plus one.
    RaisesTakeCount { take_count: u32, word: u32 },
    /// Releases the lock. The task then ends with `end`.
    Unlocks { end: SharedOutcome },
}

/// What follows a transfer.
#[derive(Clone, Copy, Debug, PartialEq, Eq)]
pub enum StageResult {
    /// The transfer of this stage.
    Continue(Stage),
    /// The end of the task.
    Finish(SharedOutcome),
}
