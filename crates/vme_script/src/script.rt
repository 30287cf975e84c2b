//! Scripts: the lines of a text that are not empty or comments.
ghost use Rattle.std.specs.Prelude.{◌≡◌, ◌<◌, ◌≤◌, ◌∷◌, ◌++◌, [], nat_lt, length, slice_get, Some, Ok, Err, IfOk, IfErr, map};
ghost use Rattle.std.specs.Str.Lines.{lines};
ghost use Rattle.vme_script.specs.Contexts.{refusal_of};
ghost use Rattle.vme_script.specs.Scripts.{script_of, script_within, lines_from, IsRefusalOf, IsProcessed};

use crate::context::ScriptContext;
use crate::fault::{ScriptFault, ScriptRefusal};
use crate::limits::MOST_LINES;
use std::alloc::{AllocError, Global};
use std::marker::Model;
use vme_grammar::{Line, LineFault, parse_canonical, parse_words};
use vme_lexer::Lines;

/// The length in bytes of a short line, its end included. It determines the initial capacity. Only
/// a script with many takes has shorter lines, and may reallocate.
const SHORT_LINE: usize = 14;

/// A line of a script.
#[derive(Debug, Drop)]
pub struct ScriptLine {
    /// The line's number among all lines of the text, from 1.
    pub number: u16,
    /// What the line requests.
    pub line: Line,
}

/// The lines of a text that request something, in order.
#[derive(Debug, Drop)]
pub struct Script {
    lines: Vec<ScriptLine>,
}

impl Model for Script {
    ghost use Rattle.std.specs.Prelude.{List};
    ghost use Rattle.vme_script.specs.declared.script.ScriptLine.{ScriptLine};

    ghost Value = { List ScriptLine };

    ghost view = { λ s. s.lines.items };
}

impl Script {
    /// Reads a text as a script by itself, which may name any mailbox.
    ///
    /// The text has at most 1,000 lines, empty lines and comments included.
    ///
    /// # Errors
    ///
    /// `Refused`: `TooManyLines`, or the first line that is refused. `OutOfMemory`: an allocation
    /// failed.
    pub fn read(alloc: Global, text: &[u8]) -> Result<Script, ScriptFault>
        ensures script { IfOk result (λ script. script_of text.now ≡ Ok script) }
        ensures refused { IfErr result (IsRefusalOf (script_of text.now)) }
    {
        Script::within(alloc, text, &ScriptContext::Alone)
    }

    /// Reads a text as a script in a context.
    #[tactic(auto, unfolding(crate::specs::Scripts::script_within), using(crate::proofs::Taking::taken, crate::proofs::Taking::untaken))]
    pub(crate) fn within(
        alloc: Global,
        text: &[u8],
        rules: &ScriptContext<'_>,
    ) -> Result<Script, ScriptFault>
        ensures script { IfOk result (λ script. script_within rules.now text.now ≡ Ok script) }
        ensures refused { IfErr result (IsRefusalOf (script_within rules.now text.now)) }
    {
        let capacity = usize::from(MOST_LINES).min(text.len() / SHORT_LINE + 1);
        let mut lines = Vec::with_capacity(alloc, capacity)?;
        let mut number = 0;
        for line in Lines::new(text) {
            if number == MOST_LINES {
                return Err(ScriptFault::Refused(ScriptRefusal::TooManyLines));
            }
            number += 1;
            if let Some(fault) = push_line(&mut lines, number, line, rules)? {
                return Err(fault_of(text, rules, ScriptRefusal::BadLine { number, fault }));
            }
        }
        Ok(Script { lines })
    }

    /// Returns the number of lines that request something.
    pub fn len(&self) -> usize
        ensures { result ≡ length self.now }
    {
        self.lines.len()
    }

    /// Returns line `j` of those that request something.
    pub fn line(&self, j: usize) -> &Line
        requires { j < length self.now }
        ensures { slice_get (map (λ line. line.line) self.now) j ≡ Some result.now }
    {
        &self.lines[j].line
    }

    /// Returns the number, among all lines of the text and from 1, of line `j` of those that
    /// request something.
    pub fn number(&self, j: usize) -> u16
        requires { j < length self.now }
        ensures { slice_get (map (λ line. line.number) self.now) j ≡ Some result }
    {
        self.lines[j].number
    }
}

/// Appends a line if it requests something, or returns its refusal.
#[tactic(auto, using(crate::proofs::Taking::kept))]
fn push_line(
    lines: &mut Vec<ScriptLine>,
    number: u16,
    text: &[u8],
    rules: &ScriptContext<'_>,
) -> Result<Option<LineFault>, AllocError>
    ensures { IfOk result (IsProcessed rules.now number text.now lines.old.items lines.new.items) }
{
    match parse_canonical(text) {
        Some(line) => keep(lines, ScriptLine { number, line }, rules),
        None => take_any(lines, number, text, rules),
    }
}

/// Appends a line in any form if it requests something, or returns its refusal.
#[tactic(auto, using(crate::proofs::Taking::kept, crate::proofs::Taking::passed_over, crate::proofs::Asked::refused))]
fn take_any(
    lines: &mut Vec<ScriptLine>,
    number: u16,
    text: &[u8],
    rules: &ScriptContext<'_>,
) -> Result<Option<LineFault>, AllocError>
    ensures { IfOk result (IsProcessed rules.now number text.now lines.old.items lines.new.items) }
{
    match parse_words(text) {
        Ok(Some(line)) => keep(lines, ScriptLine { number, line }, rules),
        Ok(None) => Ok(None),
        Err(fault) => Ok(Some(fault)),
    }
}

/// Appends a line, and returns its refusal if the context does not allow it. The line is checked in
/// its final place, so it is moved once.
#[inline(always)]
fn keep(
    lines: &mut Vec<ScriptLine>,
    line: ScriptLine,
    rules: &ScriptContext<'_>,
) -> Result<Option<LineFault>, AllocError>
    ensures kept { IfOk result (λ _. lines.new.items ≡ lines.old.items ++ line ∷ []) }
    ensures refusal { IfOk result (λ refusal. refusal ≡ refusal_of rules.now line.line) }
{
    lines.push(line)?;
    let last = lines.len() - 1;
    Ok(rules.refusal(&lines[last].line))
}

/// The refusal of a text of which a line is refused: `TooManyLines` if it has too many lines,
/// otherwise the refusal of the line.
#[tactic(auto, unfolding(crate::specs::Scripts::script_within))]
fn fault_of(text: &[u8], rules: &ScriptContext<'_>, refusal: ScriptRefusal) -> ScriptFault
    requires { lines_from rules.now 1 (lines text.now) ≡ Err refusal }
    ensures { IsRefusalOf (script_within rules.now text.now) result }
{
    if has_too_many_lines(text) {
        ScriptFault::Refused(ScriptRefusal::TooManyLines)
    } else {
        ScriptFault::Refused(refusal)
    }
}

/// Whether a text has more than 1,000 lines.
fn has_too_many_lines(text: &[u8]) -> bool
    ensures { result ≡ nat_lt 1000 (length (lines text.now)) }
{
    let mut left = MOST_LINES;
    for _line in Lines::new(text) {
        if left == 0 {
            return true;
        }
        left -= 1;
    }
    false
}
