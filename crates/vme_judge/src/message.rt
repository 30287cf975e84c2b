//! A finding as text.
ghost use Rattle.std.specs.Prelude.{◌≡◌, ◌++◌, replicate, string_bytes, OnOk};
ghost use Rattle.vme_judge.specs.Levels.{level_line, level_lines, levels_of, padded_name};
ghost use Rattle.vme_judge.specs.Messages.{address_text, answer_help, count_text, expected_line, expected_text, explain_code, explain_line, head_line, help_line, help_text, is_of_no_board, lines_text, message, notes, place_text, read_line, samples_text, section_text, since_text, slot_text, time_text, transfer_text};

use crate::expected::expected;
use crate::finding::{Asked, Broken, Finding};
use crate::shown::{Shown, shown_lines};
use crate::title::{is_of_bytes, write_bytes, write_known, write_title};
use crate::transfer::OpenTransfer;
use std::alloc::{AllocError, Global};
use std::fmt::Write;
use vme_protocol::{Rule, Sample};

/// The column of the levels, after that of their names.
const COLUMN: usize = 12;

/// Appends a finding.
///
/// # Errors
///
/// An allocation failed.
#[tactic(auto, unfolding(crate::specs::Messages::message))]
pub(crate) fn write_message(
    alloc: Global,
    name: &str,
    finding: &Finding,
    to: &mut String,
) -> Result<(), AllocError>
    ensures { OnOk result (string_bytes to.new ≡ string_bytes to.old ++ message name.now finding.now) }
{
    write_head(name, finding, to)?;
    write_lines(finding, to)?;
    write_place(finding, to)?;
    write_notes(alloc, finding, to)
}

/// Appends the file, the line, what is wrong and the number of the rule.
fn write_head(name: &str, finding: &Finding, to: &mut String) -> Result<(), AllocError>
    ensures { OnOk result (string_bytes to.new ≡ string_bytes to.old ++ head_line name.now finding.now) }
{
    let (line, code) = (finding.line, finding.rule().code());
    write!(to, "{name}:{line}: error: ")?;
    write_title(finding, to)?;
    write!(to, " [J{code}]\n")
}

/// Appends the levels of a finding, or the bytes that a board reads.
fn write_lines(finding: &Finding, to: &mut String) -> Result<(), AllocError>
    ensures { OnOk result (string_bytes to.new ≡ string_bytes to.old ++ lines_text finding.now finding.now.broken) }
{
    match &finding.broken {
        Broken::Answer(wrong, asked, _) if is_of_bytes(wrong.rule) => write_read(asked, to),
        _ => write_samples(finding.rule(), &finding.samples, to),
    }
}

/// Appends the line of the bytes that a board reads.
#[tactic(auto, unfolding(crate::specs::Messages::read_line))]
fn write_read(asked: &Asked, to: &mut String) -> Result<(), AllocError>
    ensures { OnOk result (string_bytes to.new ≡ string_bytes to.old ++ read_line asked.now) }
{
    to.push_str("    data         ")?;
    write_bytes(asked, to)?;
    to.push_str("\n")
}

/// Appends the levels of lines before a sample and at it.
fn write_samples(
    rule: Rule,
    samples: &Option<(Sample, Sample)>,
    to: &mut String,
) -> Result<(), AllocError>
    ensures { OnOk result (string_bytes to.new ≡ string_bytes to.old ++ samples_text rule samples.now) }
{
    let Some((before, after)) = samples else {
        return Ok(());
    };
    write_level_lines(rule, before, after, to)
}

/// Appends the levels of the lines that a rule is about.
#[tactic(auto, unfolding(crate::specs::Levels::level_lines))]
fn write_level_lines(
    rule: Rule,
    before: &Sample,
    after: &Sample,
    to: &mut String,
) -> Result<(), AllocError>
    ensures { OnOk result (string_bytes to.new ≡ string_bytes to.old ++ level_lines rule before.now after.now) }
{
    let lines = shown_lines(rule, before, after);
    write_shown_lines(&lines, before, after, to)
}

/// Appends the levels of lines, one after another.
fn write_shown_lines(
    lines: &[Option<Shown>],
    before: &Sample,
    after: &Sample,
    to: &mut String,
) -> Result<(), AllocError>
    ensures { OnOk result (string_bytes to.new ≡ string_bytes to.old ++ levels_of before.now after.now lines.now) }
{
    for shown in lines {
        write_shown(*shown, before, after, to)?;
    }
    Ok(())
}

/// Appends the levels of some lines, if there are lines.
fn write_shown(
    shown: Option<Shown>,
    before: &Sample,
    after: &Sample,
    to: &mut String,
) -> Result<(), AllocError>
    ensures { OnOk result (string_bytes to.new ≡ string_bytes to.old ++ level_line before.now after.now shown) }
{
    let Some(shown) = shown else {
        return Ok(());
    };
    to.push_str("    ")?;
    write_padded(shown, to)?;
    shown.write_levels(before, to)?;
    to.push_str(" -> ")?;
    shown.write_levels(after, to)?;
    to.push_str("\n")
}

/// Appends the name of lines, up to the column of the levels.
fn write_padded(shown: Shown, to: &mut String) -> Result<(), AllocError>
    ensures { OnOk result (string_bytes to.new ≡ string_bytes to.old ++ padded_name shown) }
{
    let start = to.len();
    shown.write_name(to)?;
    write_blanks(COLUMN.saturating_sub(to.len().saturating_sub(start)), to)?;
    to.push_str(" ")
}

/// Appends blanks.
fn write_blanks(count: usize, to: &mut String) -> Result<(), AllocError>
    ensures { OnOk result (string_bytes to.new ≡ string_bytes to.old ++ replicate count 32) }
{
    for _place in 0..count {
        to.push_str(" ")?;
    }
    Ok(())
}

/// Appends the time and the transfer.
fn write_place(finding: &Finding, to: &mut String) -> Result<(), AllocError>
    ensures { OnOk result (string_bytes to.new ≡ string_bytes to.old ++ place_text finding.now) }
{
    to.push_str("    = ")?;
    write_time(finding.time, to)?;
    write_transfer(&finding.transfer, to)?;
    to.push_str("\n")
}

/// Appends a time, if it is known.
fn write_time(time: Option<u64>, to: &mut String) -> Result<(), AllocError>
    ensures { OnOk result (string_bytes to.new ≡ string_bytes to.old ++ time_text time) }
{
    match time {
        Some(time) => write!(to, "at time {time}, "),
        None => Ok(()),
    }
}

/// Appends the transfer in which a finding lies, if it lies in one.
fn write_transfer(transfer: &Option<OpenTransfer>, to: &mut String) -> Result<(), AllocError>
    ensures { OnOk result (string_bytes to.new ≡ string_bytes to.old ++ transfer_text transfer.now) }
{
    let Some(transfer) = transfer else {
        return to.push_str("between transfers");
    };
    write_address(transfer.am, transfer.address, to)?;
    write_slot(transfer.slot, to)?;
    write_count(transfer.data, to)?;
    write_since(transfer.since, to)
}

/// Appends the address of a transfer.
#[tactic(auto, unfolding(crate::specs::Messages::address_text))]
fn write_address(am: u8, address: u32, to: &mut String) -> Result<(), AllocError>
    ensures { OnOk result (string_bytes to.new ≡ string_bytes to.old ++ address_text am address) }
{
    write!(to, "in the transfer with am={am:02x} a={address:08x}")
}

/// Appends the number of a datum within a transfer.
#[tactic(auto, unfolding(crate::specs::Messages::count_text))]
fn write_count(count: u64, to: &mut String) -> Result<(), AllocError>
    ensures { OnOk result (string_bytes to.new ≡ string_bytes to.old ++ count_text count) }
{
    write!(to, ", datum {count}")
}

/// Appends the slot of a transfer, if it is known.
fn write_slot(slot: Option<u8>, to: &mut String) -> Result<(), AllocError>
    ensures { OnOk result (string_bytes to.new ≡ string_bytes to.old ++ slot_text slot) }
{
    match slot {
        Some(slot) => write!(to, " of slot {slot}"),
        None => Ok(()),
    }
}

/// Appends the time from which AS* is low, if it is known.
fn write_since(since: Option<u64>, to: &mut String) -> Result<(), AllocError>
    ensures { OnOk result (string_bytes to.new ≡ string_bytes to.old ++ since_text since) }
{
    match since {
        Some(since) => write!(to, ", AS* low from {since}"),
        None => Ok(()),
    }
}

/// Appends what is expected, the section of the standard, and help.
#[tactic(auto, unfolding(crate::specs::Messages::notes))]
fn write_notes(alloc: Global, finding: &Finding, to: &mut String) -> Result<(), AllocError>
    ensures { OnOk result (string_bytes to.new ≡ string_bytes to.old ++ notes finding.now.broken) }
{
    write_expected_line(finding, to)?;
    write_section(finding.rule(), to)?;
    write_help_line(alloc, finding, to)?;
    write_explain(finding.rule(), to)
}

/// Appends the line of what is expected.
#[tactic(auto, unfolding(crate::specs::Messages::expected_line))]
fn write_expected_line(finding: &Finding, to: &mut String) -> Result<(), AllocError>
    ensures { OnOk result (string_bytes to.new ≡ string_bytes to.old ++ expected_line finding.now.broken) }
{
    to.push_str("    = expected: ")?;
    write_expected(finding, to)?;
    to.push_str("\n")
}

/// Appends what is expected.
///
/// # Errors
///
/// An allocation failed.
#[tactic(auto, unfolding(crate::specs::Messages::expected_text))]
pub(crate) fn write_expected(finding: &Finding, to: &mut String) -> Result<(), AllocError>
    ensures { OnOk result (string_bytes to.new ≡ string_bytes to.old ++ expected_text finding.now.broken) }
{
    match &finding.broken {
        Broken::Answer(wrong, _, _) if is_of_bytes(wrong.rule) => write_known(wrong, to),
        _ => to.push_str(expected(finding.rule())),
    }
}

/// Appends the section of the standard that has a rule, if one has it.
fn write_section(rule: Rule, to: &mut String) -> Result<(), AllocError>
    ensures { OnOk result (string_bytes to.new ≡ string_bytes to.old ++ section_text rule) }
{
    let section = rule.section();
    if section.is_empty() {
        return Ok(());
    }
    write!(to, "    = IEEE 1014-1987, {section}\n")
}

/// Appends the line of help, if there is help.
fn write_help_line(alloc: Global, finding: &Finding, to: &mut String) -> Result<(), AllocError>
    ensures { OnOk result (string_bytes to.new ≡ string_bytes to.old ++ help_line (help_text finding.now.broken)) }
{
    let mut help = String::new(alloc);
    write_help(finding, &mut help)?;
    write_help_of(&help, to)
}

/// Appends a line of help, if there is help.
fn write_help_of(help: &str, to: &mut String) -> Result<(), AllocError>
    ensures { OnOk result (string_bytes to.new ≡ string_bytes to.old ++ help_line help.now) }
{
    if help.is_empty() {
        return Ok(());
    }
    write!(to, "    = help: {help}\n")
}

/// Appends the line that names the explanation of a rule.
fn write_explain(rule: Rule, to: &mut String) -> Result<(), AllocError>
    ensures { OnOk result (string_bytes to.new ≡ string_bytes to.old ++ explain_line rule) }
{
    write_explain_code(rule.code(), to)
}

/// Appends the line that names the explanation of a number.
#[tactic(auto, unfolding(crate::specs::Messages::explain_code))]
fn write_explain_code(code: u8, to: &mut String) -> Result<(), AllocError>
    ensures { OnOk result (string_bytes to.new ≡ string_bytes to.old ++ explain_code code) }
{
    write!(
        to,
        "    = help: `bendrika explain J{code}` explains the rule\n"
    )
}

/// Appends the help, or nothing.
///
/// # Errors
///
/// An allocation failed.
pub(crate) fn write_help(finding: &Finding, to: &mut String) -> Result<(), AllocError>
    ensures { OnOk result (string_bytes to.new ≡ string_bytes to.old ++ help_text finding.now.broken) }
{
    match &finding.broken {
        Broken::Order(_) | Broken::Port(_, _) => Ok(()),
        Broken::Answer(wrong, _, slot) => write_answer_help(wrong.rule, *slot, to),
    }
}

/// Appends the help for an answer, or nothing.
fn write_answer_help(rule: Rule, slot: Option<u8>, to: &mut String) -> Result<(), AllocError>
    ensures { OnOk result (string_bytes to.new ≡ string_bytes to.old ++ answer_help rule slot) }
{
    match slot {
        Some(slot) if is_of_bytes(rule) => write!(
            to,
            "if its local port may have written there, add `--open {slot}`"
        ),
        None if is_of_no_board(rule) => {
            to.push_str("if a board that FILE does not name answers there, add `--others`")
        }
        _ => Ok(()),
    }
}

/// Whether a rule is that of addresses at which no board answers.
fn is_of_no_board(rule: Rule) -> bool
    ensures { result ≡ is_of_no_board rule }
{
    matches!(rule, Rule::NoBoard)
}
