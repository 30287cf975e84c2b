//! The text of a refusal without a cause: that of `bendrika explain`.
use crate::texts::message::{Message, Value, plain, with};
use vme_explain::text_of;
use vme_faults::Cause;

/// The title of the refusal.
pub(crate) fn message_of(cause: Cause) -> Message {
    match text_of(cause.code()) {
        Some(text) => with("{}", Value::Word(text.title)),
        None => plain("refused"),
    }
}
