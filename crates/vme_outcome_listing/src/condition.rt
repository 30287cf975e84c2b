//! Conditions on the outcomes, as texts.
ghost use Rattle.std.specs.Prelude.{◌≡◌, ◌<◌, ◌++◌, IfOk, OnOk, map, option_map};
ghost use Rattle.vme_outcome_listing.specs.Conditions.{kind_text, wanted_text, verdict_text, trimmed_parts};
ghost use Rattle.vme_grammar.specs.Texts.{output_line};

use crate::print::{append_schedule, append_tries_after};
use std::alloc::{AllocError, Global};
use std::marker::Model;
use vme_states::ListedOutcome;

/// What a condition wants of its lines.
#[derive(Clone, Copy, Debug, PartialEq, Eq)]
pub enum Kind {
    /// No outcome has all of them.
    Never,
    /// Each outcome has all of them.
    Always,
}

/// A condition on the outcomes: that none has these lines, or that each has them.
///
/// A line may be one of several, which stand between `|`.
#[derive(Drop)]
pub struct Condition<'a> {
    kind: Kind,
    wanted: Vec<&'a str>,
}

impl<'a> Model for Condition<'a> {
    ghost use Rattle.std.specs.Prelude.{map};
    ghost use Rattle.vme_outcome_listing.specs.Conditions.{ConditionView};

    ghost Value = { ConditionView };

    ghost view = { λ c. record { kind = c.kind; wanted = map (λ line. line.now) c.wanted.items } };
}

impl<'a> Condition<'a> {
    /// Returns the condition on the lines of a text, which are separated by `;`. Spaces around a
    /// line are left out.
    ///
    /// # Errors
    ///
    /// An allocation failed.
    pub fn new(alloc: Global, kind: Kind, text: &'a str) -> Result<Condition<'a>, AllocError>
        ensures kind { IfOk result (λ condition. condition.kind ≡ kind) }
        ensures wanted { IfOk result (λ condition. condition.wanted ≡ trimmed_parts 59 text.now) }
    {
        let wanted = trimmed_parts(alloc, text, ';')?;
        Ok(Condition { kind, wanted })
    }

    /// Returns what the condition wants of its lines.
    pub(crate) fn kind(&self) -> Kind
        ensures { result ≡ self.now.kind }
    {
        self.kind
    }

    /// Returns the lines.
    pub(crate) fn wanted(&self) -> &[&'a str]
        ensures { map (λ line. line.now) result.now ≡ self.now.wanted }
    {
        self.wanted.as_slice()
    }

    /// Appends the line of the condition, with the first outcome that breaks it.
    pub(crate) fn append(
        &self,
        breaking: Option<&ListedOutcome>,
        text: &mut Vec<u8>,
    ) -> Result<(), AllocError>
        ensures { OnOk result (text.new.items ≡ text.old.items
            ++ output_line (kind_text self.now.kind ++ (wanted_text self.now.wanted
            ++ verdict_text (option_map (λ o. o.now) breaking.entry)))) }
    {
        append_kind(self.kind, text)?;
        append_wanted(self.wanted(), text)?;
        append_verdict(breaking, text)
    }
}

/// Returns the parts of a text that end with a character, without the spaces around each.
pub(crate) fn trimmed_parts(alloc: Global, text: &str, end: char) -> Result<Vec<&str>, AllocError>
    requires { end < 128 }
    ensures { IfOk result (λ parts. map (λ part. part.now) parts.items ≡ trimmed_parts end text.now) }
{
    let mut parts = Vec::new(alloc);
    let mut rest = text;
    while let Some((part, more)) = rest.split_once(end) {
        parts.push(part.trim())?;
        rest = more;
    }
    parts.push(rest.trim())?;
    Ok(parts)
}

/// Appends the word of a kind.
fn append_kind(kind: Kind, text: &mut Vec<u8>) -> Result<(), AllocError>
    ensures { OnOk result (text.new.items ≡ text.old.items ++ kind_text kind) }
{
    match kind {
        Kind::Never => text.extend_from_slice(b"never "),
        Kind::Always => text.extend_from_slice(b"always "),
    }
}

/// Appends the lines of a condition.
fn append_wanted(wanted: &[&str], text: &mut Vec<u8>) -> Result<(), AllocError>
    ensures { OnOk result (text.new.items ≡ text.old.items
        ++ wanted_text (map (λ line. line.now) wanted.now)) }
{
    let Some((first, rest)) = wanted.split_first() else {
        return Ok(());
    };
    text.extend_from_slice(first.as_bytes())?;
    for line in rest {
        text.extend_from_slice(b"; ")?;
        text.extend_from_slice(line.as_bytes())?;
    }
    Ok(())
}

/// Appends whether a condition holds, and the end of its line.
fn append_verdict(breaking: Option<&ListedOutcome>, text: &mut Vec<u8>) -> Result<(), AllocError>
    ensures { OnOk result (text.new.items ≡ text.old.items
        ++ output_line (verdict_text (option_map (λ o. o.now) breaking.entry))) }
{
    match breaking {
        None => text.extend_from_slice(b": holds\n"),
        Some(outcome) => {
            text.extend_from_slice(b": fails, ")?;
            append_schedule(outcome.schedule(), text)?;
            append_tries_after(outcome.tries(), text)?;
            text.extend_from_slice(b"\n")
        }
    }
}
