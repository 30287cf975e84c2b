//! The words of a line, with the places of their bytes.
use vme_lexer::{Words, words_of};

/// The bytes of a line from `from` to before `to`.
#[derive(Clone, Copy, Debug, PartialEq, Eq)]
pub struct WordSpan {
    /// The index of the first byte, from 0.
    pub from: usize,
    /// The index after the last byte.
    pub to: usize,
}

/// Returns the bytes of the word with this index, from 0. If the line has fewer words, no bytes, at
/// its end.
pub fn span_of(line: &[u8], word: usize) -> WordSpan {
    let mut ended: usize = 0;
    let mut start: Option<usize> = None;
    for (at, byte) in line.iter().enumerate() {
        match start {
            None if *byte != b' ' => start = Some(at),
            Some(from) if *byte == b' ' => {
                if ended == word {
                    return WordSpan { from, to: at };
                }
                ended = ended.saturating_add(1);
                start = None;
            }
            _ => {}
        }
    }
    match start {
        Some(from) if ended == word => WordSpan {
            from,
            to: line.len(),
        },
        _ => WordSpan {
            from: line.len(),
            to: line.len(),
        },
    }
}

/// The word with this index, from 0, or no bytes if the line has fewer words.
pub(crate) fn word_of(line: &[u8], word: usize) -> &[u8] {
    let mut words = words_of(line);
    match words.nth(word) {
        Some(word) => word,
        None => &[],
    }
}

/// The number of words of a line, even if it is a comment.
pub(crate) fn word_count(line: &[u8]) -> usize {
    let mut count: usize = 0;
    for _word in Words::new(line) {
        count = count.saturating_add(1);
    }
    count
}
