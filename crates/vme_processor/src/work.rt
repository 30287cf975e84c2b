use std::marker::Model;
use vme_master::Task;
use vme_shared::{CurrentTransfer, SharedRequest};

/// A request to a lock or a mailbox, and its current transfer. The map and the place of the processor
/// give the next transfer.
#[derive(Drop)]
pub(crate) struct SharedWork {
    pub(crate) request: SharedRequest,
    pub(crate) current: CurrentTransfer<'static>,
}

impl Model for SharedWork {
    ghost use Rattle.vme_processor.specs.Progress.{SharedProgress, IsSound};

    ghost Value = { SharedProgress };

    ghost view = { λ w. record { request = w.request; current = w.current } };

    ghost invariant = { λ w. IsSound w.request w.current };
}

/// What a processor does over the bus.
#[derive(Drop)]
pub(crate) enum Work {
    /// A transfer.
    Transfer(Task<'static>),
    /// A lock, an unlock, a put or a take.
    Shared(SharedWork),
}
