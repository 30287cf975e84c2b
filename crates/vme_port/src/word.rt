//! The values of the word that guards an object.
ghost use Rattle.std.specs.Prelude.{◌<◌};

/// The word while the object is in its slot.
pub const FREE: u64 = 0;

/// The word while a pass holds the object, and no call is known to wait for it.
pub const TAKEN: u64 = 1;

/// The word while a pass holds the object, and a call may wait for it.
pub const WANTED: u64 = 2;

/// How a call takes the object.
#[derive(Clone, Copy)]
pub enum Taking {
    /// No call is known to wait for the object.
    Alone,
    /// A call may wait for the object, so the put wakes one.
    Wanted,
}

impl Taking {
    /// Returns the value of the word while the object is taken.
    pub fn word(self) -> u64
        ensures { 0 < result }
    {
        match self {
            Taking::Alone => TAKEN,
            Taking::Wanted => WANTED,
        }
    }
}
