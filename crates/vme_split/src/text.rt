//! The text of the split file: that of the file, with other lines in place of some.
ghost use Rattle.std.specs.Prelude.{◌≤◌, length};

use crate::print::{print_comment, print_part};
use std::alloc::{AllocError, Global};
use vme_grammar::Line;
use vme_positions::{Key, Outline, Place, Span, TableName};

/// How a script is written in the file, by which its lines end.
#[derive(Clone, Copy, PartialEq, Eq, Debug)]
enum Quotes {
    /// A string over several lines.
    Lines,
    /// A string in one line, with escape sequences.
    Escapes,
    /// A string in one line, without.
    Literal,
}

impl Quotes {
    /// How the string with these bytes is written.
    fn of(value: &[u8]) -> Quotes {
        match value {
            [b'"', b'"', b'"', ..] | [b'\'', b'\'', b'\'', ..] => Quotes::Lines,
            [b'\'', ..] => Quotes::Literal,
            _ => Quotes::Escapes,
        }
    }
}

/// A line of a script that is split.
#[derive(Clone, Copy)]
pub(crate) struct SplitLine<'a> {
    /// The index of the script's board.
    pub(crate) board: usize,
    /// The number of the line, from 1.
    pub(crate) number: u16,
    /// The number of its bytes in the script.
    pub(crate) len: usize,
    /// The lines that stand for it.
    pub(crate) parts: &'a [Line],
}

/// The text of the split file up to some offset of the file.
#[derive(Drop)]
pub(crate) struct SplitText<'a> {
    file: &'a [u8],
    outline: Outline,
    text: Vec<u8>,
    /// How many bytes of the file are in the text.
    copied: usize,
    ghost inside: { copied ≤ length file.now },
}

impl<'a> SplitText<'a> {
    /// No text yet.
    pub(crate) fn new(alloc: Global, file: &'a [u8]) -> Result<SplitText<'a>, AllocError> {
        Ok(SplitText {
            file,
            outline: Outline::of(alloc, file)?,
            text: Vec::new(alloc),
            copied: 0,
        })
    }

    /// The bytes of the file at a line.
    pub(crate) fn range(&self, board: usize, number: u16, len: usize) -> Span {
        let place = Place::Word {
            board,
            line: usize::from(number),
            from: 0,
            to: len,
        };
        self.outline.range(self.file, &place)
    }

    /// Appends the text up to a line, and the lines that stand for it. Returns whether the line was
    /// found after those before it.
    pub(crate) fn replace(&mut self, line: SplitLine<'_>) -> Result<bool, AllocError> {
        let file = self.file;
        let script = Place::Value {
            table: TableName::Board,
            index: line.board,
            key: Key::Script,
        };
        let value = self.outline.range(file, &script);
        let quotes = Quotes::of(value.bytes(file));
        let at = match quotes {
            Quotes::Literal => value,
            _ => self.range(line.board, line.number, line.len),
        };
        let copied = self.copied;
        if at.from < copied || at.from < value.from || value.to < at.to || at.to <= at.from {
            return Ok(false);
        }
        if file.len() < at.to {
            return Ok(false);
        }
        let before = &file[copied..at.from];
        self.text.extend_from_slice(before)?;
        self.copied = at.to;
        self.push_lines(line, quotes)?;
        Ok(true)
    }

    /// Appends the comment and the lines that stand for a line. A string in one line without escape
    /// sequences becomes one with them.
    fn push_lines(&mut self, line: SplitLine<'_>, quotes: Quotes) -> Result<(), AllocError> {
        let quote: &[u8] = if quotes == Quotes::Literal {
            b"\""
        } else {
            b""
        };
        self.text.extend_from_slice(quote)?;
        print_comment(&mut self.text, line.number, line.parts.len())?;
        for part in line.parts {
            let end = self.line_end(quotes);
            self.text.extend_from_slice(end)?;
            print_part(&mut self.text, part)?;
        }
        self.text.extend_from_slice(quote)
    }

    /// What ends a line: a sequence, or what ends the file's first line.
    fn line_end(&self, quotes: Quotes) -> &'static [u8] {
        if quotes != Quotes::Lines {
            return b"\\n";
        }
        let file = self.file;
        let first = file.iter().take_while(|byte| **byte != b'\n').count();
        match &file[..first] {
            [.., b'\r'] => b"\r\n",
            _ => b"\n",
        }
    }

    /// Returns the text with the rest of the file.
    pub(crate) fn finish(mut self) -> Result<Vec<u8>, AllocError> {
        let rest = &self.file[self.copied..];
        self.text.extend_from_slice(rest)?;
        Ok(self.text)
    }
}
