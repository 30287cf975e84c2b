//! The entry of a code: its texts and its example.
use crate::dump::HEAD;

/// The texts of a code or of a reply.
#[derive(Clone, Copy, Debug)]
pub struct Text {
    /// The code, as `vme` or `bendrika` prints it.
    pub code: &'static str,
    /// Other codes with the same entry.
    pub others: &'static [&'static str],
    /// The meaning in a few words. For a fault of the program this is what `vme` prints.
    pub title: &'static str,
    /// The cause and the rule.
    pub cause: &'static str,
    /// The sections of IEEE 1014-1987 that state the rule. Empty: no section states it.
    pub sections: &'static str,
    /// What to do. Empty: nothing.
    pub help: &'static str,
    /// An input that `vme`, or of a rule of traces `bendrika judge`, answers with the code. A fault of
    /// the program, a warning and an answer of `bendrika serve` alone have none.
    pub example: Option<Example>,
}

/// An input, and what its answer shows.
#[derive(Clone, Copy, Debug)]
pub struct Example {
    /// The part of the input that matters, in one line.
    pub brief: &'static str,
    /// The whole input.
    pub input: Input,
    /// The line of the answer that names the code; of a trace with the levels below it.
    pub shows: &'static str,
}

/// The input of an example.
#[derive(Clone, Copy, Debug)]
pub enum Input {
    /// The brief text, as a line for `vme cycles`.
    Line,
    /// A file for `vme step`.
    File(&'static str),
    /// A file for `vme step`, one part of which is repeated.
    LongFile {
        head: &'static str,
        repeated: &'static str,
        times: u16,
        tail: &'static str,
    },
    /// A bus log for `bendrika judge`.
    Log(&'static str),
    /// The changes of a value change dump for `bendrika judge` with these words.
    Dump {
        words: &'static str,
        changes: &'static str,
    },
}

impl Example {
    /// The command that takes the input: `judge` of `bendrika`, or one of `vme`.
    pub(crate) fn form(&self) -> &'static str {
        match self.input {
            Input::Line => "cycles",
            Input::File(_) | Input::LongFile { .. } => "step",
            Input::Log(_) | Input::Dump { .. } => "judge",
        }
    }

    /// The input in three parts, and how often each is repeated.
    pub(crate) fn parts(&self) -> [(&'static str, u16); 3] {
        match self.input {
            Input::Line => [(self.brief, 1), ("", 0), ("", 0)],
            Input::File(text) | Input::Log(text) => [(text, 1), ("", 0), ("", 0)],
            Input::Dump { changes, .. } => [(HEAD, 1), (changes, 1), ("", 0)],
            Input::LongFile {
                head,
                repeated,
                times,
                tail,
            } => [(head, 1), (repeated, times), (tail, 1)],
        }
    }
}
