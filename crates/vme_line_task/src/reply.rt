//! The reply to a line, by reference.
use vme_cycle::CycleFault;
use vme_master::OutcomeRef;
use vme_shared::SharedOutcome;

/// The reply to a line that has ended, by reference: it borrows the bytes that the line's task
/// holds.
#[derive(Clone, Copy, Debug, PartialEq, Eq)]
pub enum LineReplyRef<'a> {
    /// The outcome of the line's transfer over the bus, or of its command to the local port.
    Transfer(OutcomeRef<'a>),
    /// The refusal of the line's request.
    Refused(CycleFault),
    /// A line that waits read the bytes that it waits for.
    Met,
    /// A line that waits made all the reads that it may make, and found other bytes.
    Timeout,
    /// The outcome of the line's lock, unlock, put or take.
    Shared(SharedOutcome),
}
