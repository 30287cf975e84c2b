//! The events that are shown.

/// The numbers of the events that are shown, the last included. Events are numbered from 1.
#[derive(Clone, Copy, Debug, PartialEq, Eq)]
pub struct EventRange {
    /// The first event.
    pub first: u32,
    /// The last event.
    pub last: u32,
}

impl EventRange {
    /// All events.
    pub const ALL: EventRange = EventRange {
        first: 1,
        last: u32::MAX,
    };

    /// Reads a range, as `11-20`: two decimal numbers without signs and of at most ten digits, the
    /// first at least 1 and at most the last.
    pub fn parse(text: &str) -> Option<EventRange> {
        let (first, last) = text.split_once('-')?;
        let (first, last) = (number(first)?, number(last)?);
        if first < 1 || last < first {
            return None;
        }
        Some(EventRange { first, last })
    }
}

/// The greatest number of digits of a number.
const DIGITS: usize = 10;

/// Reads a decimal number without a sign.
fn number(text: &str) -> Option<u32> {
    if DIGITS < text.len() || !text.bytes().all(|byte| byte.is_ascii_digit()) {
        return None;
    }
    text.parse().ok()
}
