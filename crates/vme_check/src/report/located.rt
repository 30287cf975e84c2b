//! Findings with the bytes where they are.
use crate::report::Form;
use std::alloc::{AllocError, Global};
use vme_faults::{Cause, Finding, Severity};
use vme_positions::{Outline, Place, Span};

/// A finding, and the bytes of its place.
#[derive(Clone, Copy)]
pub(crate) struct Located {
    pub(crate) finding: Finding,
    pub(crate) span: Span,
    /// Whether it is the first finding, which has the refusal of the input.
    pub(crate) is_first: bool,
}

impl Located {
    /// Whether the finding is an error.
    pub(crate) fn is_error(&self) -> bool {
        self.finding.cause.severity() == Severity::Error
    }

    /// Whether the finding has a cause and a place of its own, and not the refusal alone.
    pub(crate) fn is_located(&self) -> bool {
        !matches!(self.finding.cause, Cause::Refused(_))
    }
}

/// The text of an input and, if it is a configuration file, its outline.
#[derive(Clone, Copy)]
pub(crate) struct Input<'a> {
    pub(crate) text: &'a [u8],
    pub(crate) outline: Option<&'a Outline>,
}

impl<'a> Input<'a> {
    /// A configuration file with its outline.
    pub(crate) fn of_file(text: &'a [u8], outline: &'a Outline) -> Input<'a> {
        Input {
            text,
            outline: Some(outline),
        }
    }

    /// Request lines.
    pub(crate) fn of_lines(text: &'a [u8]) -> Input<'a> {
        Input {
            text,
            outline: None,
        }
    }

    /// The bytes of a place. Without an outline only places of bytes are known.
    pub(crate) fn span(&self, place: Place) -> Span {
        match (self.outline, place) {
            (_, Place::Bytes { from, to }) => Span { from, to },
            (Some(outline), _) => outline.range(self.text, &place),
            (None, _) => Span::START,
        }
    }

    /// A finding with the bytes of its place.
    pub(crate) fn located(&self, finding: Finding, is_first: bool) -> Located {
        Located {
            finding,
            span: self.span(finding.place),
            is_first,
        }
    }

    /// Those of the findings that are printed, in the order of their places; at one place in the
    /// order of their codes. The first finding is kept, as the last if it is past the limit.
    ///
    /// # Errors
    ///
    /// An allocation failed.
    pub(crate) fn locate(
        &self,
        alloc: Global,
        findings: &[Finding],
        form: &Form,
    ) -> Result<Vec<Located>, AllocError> {
        let most = form.most();
        let full = most.saturating_mul(2);
        let mut located = Vec::new(alloc);
        for (at, finding) in findings.iter().enumerate() {
            if form.shows(finding.cause) {
                located.push(self.located(*finding, at == 0))?;
            }
            if full <= located.len() {
                keep(&mut located, most)?;
            }
        }
        keep(&mut located, most)?;
        Ok(located)
    }
}

/// Sorts findings, and keeps the first ones: at most `most`, and the first finding of the input.
fn keep(located: &mut Vec<Located>, most: usize) -> Result<(), AllocError> {
    located.sort_by_key(|one: &Located| (one.span.from, one.finding.cause.code()))?;
    let first = located.iter().skip(most).find(|one| one.is_first).copied();
    located.truncate(most);
    if let Some(first) = first {
        located.truncate(most.saturating_sub(1));
        located.push(first)?;
    }
    Ok(())
}
