//! The text of an outcome.
use vme_states::ListedOutcome;

/// An outcome with its text. Two paragraphs compare by their texts.
#[derive(Drop)]
#[derive_where(PartialEq, Eq, PartialOrd, Ord)]
pub(crate) struct Paragraph<'a> {
    pub(crate) text: Vec<u8>,
    #[derive_where(skip(EqHashOrd))]
    pub(crate) outcome: &'a ListedOutcome,
}
