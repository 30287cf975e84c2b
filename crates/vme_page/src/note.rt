//! The note where events are not shown, and the end of the page.

use std::alloc::AllocError;
use vme_grammar::print_number;
use vme_trace::EventRange;

/// Appends which events are shown, if some are not. `count` is the number of events so far, of which
/// the last may be past those that are shown.
pub(crate) fn print_note(
    text: &mut Vec<u8>,
    range: EventRange,
    count: u32,
) -> Result<(), AllocError> {
    if count < range.first {
        return print_none(text, count);
    }
    if range.last < count {
        print_some(text, range.first, range.last)?;
        return print_more(text);
    }
    if 1 < range.first {
        print_some(text, range.first, count)?;
        return print_last(text);
    }
    Ok(())
}

/// Appends that no event is shown.
fn print_none(text: &mut Vec<u8>, count: u32) -> Result<(), AllocError> {
    text.extend_from_slice(b"<p class='w'>None of the ")?;
    print_number(text, u64::from(count))?;
    text.extend_from_slice(b" events of the run is shown.</p>\n")
}

/// Appends which events are shown.
fn print_some(text: &mut Vec<u8>, first: u32, last: u32) -> Result<(), AllocError> {
    text.extend_from_slice(b"<p class='w'>Events ")?;
    print_number(text, u64::from(first))?;
    text.extend_from_slice(b" to ")?;
    print_number(text, u64::from(last))?;
    text.extend_from_slice(b" are shown.")
}

/// Appends that the run has more events.
fn print_more(text: &mut Vec<u8>) -> Result<(), AllocError> {
    text.extend_from_slice(b" The run has more events after them.</p>\n")
}

/// Appends that the run has no more events.
fn print_last(text: &mut Vec<u8>) -> Result<(), AllocError> {
    text.extend_from_slice(b" They are the last of the run.</p>\n")
}

/// Returns the end of the page, after the report.
pub(crate) fn page_end() -> &'static [u8] {
    b"</pre></div>\n</body>\n</html>\n"
}
