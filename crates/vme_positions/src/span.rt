//! A part of a text, as a range of its bytes.
ghost use Rattle.std.specs.Prelude.{◌≡◌, ◌↔◌, ◌<◌, ◌≤◌, length, slice_range, IsTrue};

/// The bytes of a text from `from` to before `to`, counted from 0.
#[derive(Clone, Copy, PartialEq, Eq, PartialOrd, Ord, Debug)]
pub struct Span {
    pub from: usize,
    pub to: usize,
}

impl Span {
    /// No bytes, at the start of a text.
    pub const START: Span = Span { from: 0, to: 0 };

    /// The part of `text` between two of its suffixes: from the first byte of `at` to before the
    /// first of `after`.
    pub(crate) fn between(text: &str, at: &str, after: &str) -> Span {
        Span {
            from: text.len().saturating_sub(at.len()),
            to: text.len().saturating_sub(after.len()),
        }
    }

    /// The first byte of the span.
    pub(crate) fn first_byte(self) -> Span {
        Span {
            from: self.from,
            to: self.from.saturating_add(1),
        }
    }

    /// Returns whether the byte at `offset` belongs to the span.
    pub fn contains(self, offset: usize) -> bool
        ensures { IsTrue result ↔ ((self.from ≤ offset) × (offset < self.to)) }
    {
        self.from <= offset && offset < self.to
    }

    /// The part of the span that lies in `text`.
    pub(crate) fn within(self, text: &[u8]) -> Span
        ensures order { result.from ≤ result.to }
        ensures within { result.to ≤ length text.now }
        ensures unchanged { self.from ≤ self.to → self.to ≤ length text.now → result ≡ self }
    {
        let to = self.to.min(text.len());
        Span {
            from: self.from.min(to),
            to,
        }
    }

    /// Returns the bytes of the span in `text`, without those past the end of the text. A span that
    /// ends before it begins has none.
    pub fn bytes(self, text: &[u8]) -> &[u8]
        ensures { self.from ≤ self.to → self.to ≤ length text.now →
            result.now ≡ slice_range text.now self.from self.to }
    {
        let Span { from, to } = self.within(text);
        &text[from..to]
    }
}
