//! The other place that a cause names: that of an earlier board or mailbox.
use vme_positions::{Key, Place, TableName};
use vme_script::{BoardCause, MailboxCause};

/// The place of the other board's slot or base, if the fault is one of two boards.
pub(crate) fn other_board(cause: BoardCause) -> Option<Place> {
    match cause {
        BoardCause::SlotTaken { other, .. } | BoardCause::SlotOrder { other, .. } => {
            Some(Place::Value {
                table: TableName::Board,
                index: other,
                key: Key::Slot,
            })
        }
        BoardCause::Overlap { other, .. } => Some(Place::Key {
            table: TableName::Board,
            index: other,
            key: Key::Base,
        }),
        _ => None,
    }
}

/// The place of the other mailbox's address, if the fault is one of two mailboxes.
pub(crate) fn other_mailbox(cause: MailboxCause) -> Option<Place> {
    match cause {
        MailboxCause::Shared { other, .. } => Some(Place::Value {
            table: TableName::Mailbox,
            index: other,
            key: Key::Addr,
        }),
        _ => None,
    }
}
