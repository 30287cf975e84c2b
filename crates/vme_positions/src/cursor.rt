//! Lines and columns.
ghost use Rattle.std.specs.Prelude.{◌≡◌, ◌+◌, ◌<◌, ◌≤◌, length, min};
ghost use Rattle.vme_positions.specs.Lines.{line_feeds_before};

/// A position in a text: a line and a column, both counted from 1. A column counts characters; a
/// byte that belongs to no character of UTF-8 counts as one.
#[derive(Clone, Copy, PartialEq, Eq, PartialOrd, Ord, Debug)]
pub struct Position {
    pub line: usize,
    pub column: usize,
}

impl Position {
    /// Returns the position of the character in which an offset of a text lies, or that of the end
    /// of the text if the offset is past it. Walks the text up to there.
    pub fn of(text: &[u8], offset: usize) -> Position
        ensures { result.line ≡ line_feeds_before offset text.now + 1 }
    {
        Cursor::new(text).move_to(offset)
    }
}

/// A walk over a text that finds positions. A move forward reads only the bytes in between, so
/// offsets in rising order cost one walk. A move back begins the walk again.
#[derive(Clone, Copy)]
pub struct Cursor<'a> {
    /// The whole text.
    pub text: &'a [u8],
    /// The offset that the cursor moved to.
    pub offset: usize,
    /// The number of line ends before the offset.
    line_ends: usize,
    /// How many characters of the line begin before the offset.
    begun: usize,
    /// The end of the last character that begins before the offset.
    character_end: usize,
    /// The line in which the offset lies, without its line end.
    line: &'a [u8],
    ghost inside: { offset ≤ length text.now },
    ghost counted: { line_ends ≡ line_feeds_before offset text.now },
}

impl<'a> Cursor<'a> {
    /// Returns a cursor at the start of a text.
    pub fn new(text: &'a [u8]) -> Cursor<'a>
        ensures text { result.text.now ≡ text.now }
        ensures start { result.offset ≡ 0 }
    {
        Cursor {
            text,
            offset: 0,
            line_ends: 0,
            begun: 0,
            character_end: 0,
            line: first_line(text),
        }
    }

    /// Moves to an offset of the text, or to the end of the text if the offset is past it. Returns
    /// the position of the character in which the offset lies.
    pub fn move_to(&mut self, offset: usize) -> Position
        ensures line { result.line ≡ line_feeds_before offset self.old.text.now + 1 }
        ensures text { self.new.text.now ≡ self.old.text.now }
        ensures offset { self.new.offset ≡ min offset (length self.old.text.now) }
    {
        if offset < self.offset {
            *self = Cursor::new(self.text);
        }
        let text = self.text;
        let end = offset.min(text.len());
        let mut line_ends = self.line_ends;
        let mut begun = self.begun;
        let mut character_end = self.character_end;
        let mut line_from = None;
        'bytes: for at in self.offset..end {
            if text[at] == b'\n' {
                line_ends += 1;
                begun = 0;
                character_end = at + 1;
                line_from = Some(at + 1);
            } else if character_end <= at {
                begun = begun.saturating_add(1);
                character_end = at + character_len(&text[at..]);
            }
        }
        let line = match line_from {
            Some(from) => first_line(text.get(from..).unwrap_or(&[])),
            None => self.line,
        };
        *self = Cursor {
            text,
            offset: end,
            line_ends,
            begun,
            character_end,
            line,
        };
        self.position()
    }

    /// The position of the character in which the offset lies.
    fn position(&self) -> Position
        ensures { result.line ≡ self.now.line_ends + 1 }
    {
        let before = if self.offset < self.character_end {
            self.begun.saturating_sub(1)
        } else {
            self.begun
        };
        Position {
            line: self.line_ends + 1,
            column: before.saturating_add(1),
        }
    }

    /// Returns the line in which the cursor's offset lies, without its line end.
    pub fn line(&self) -> &'a [u8] {
        self.line
    }
}

/// The number of bytes of the first character of a text.
fn character_len(text: &[u8]) -> usize
    requires { 0 < length text.now }
    ensures some { 0 < result }
    ensures within { result ≤ length text.now }
{
    let len = match text[0] {
        0xc2..=0xdf => 2,
        0xe0..=0xef => 3,
        0xf0..=0xf4 => 4,
        _ => return 1,
    };
    if len <= text.len() && std::str::from_utf8(&text[..len]).is_ok() {
        len
    } else {
        1
    }
}

/// The first line of a text, without its line end.
fn first_line(text: &[u8]) -> &[u8] {
    let end = text
        .iter()
        .position(|byte| *byte == b'\n')
        .unwrap_or(text.len());
    match &text[..end] {
        [line @ .., b'\r'] => line,
        line => line,
    }
}
