/// An allocation failed.
#[derive(Clone, Copy, Debug, PartialEq, Eq)]
pub struct OutOfMemory;

/// The object has made 2^64 - 1 steps, the last number that can be counted.
#[derive(Clone, Copy, Debug, PartialEq, Eq)]
pub struct Spent;

/// Why a run of events ended before its last event.
#[derive(Clone, Copy, Debug, PartialEq, Eq)]
pub enum RunStop {
    /// The allocation for the replies failed. Nothing was done.
    OutOfMemory,
    /// The object of an event can count no further step. The events before it were done.
    Spent,
}
