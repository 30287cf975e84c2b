//! A finding and a verdict as JSON objects.
ghost use Rattle.std.specs.Prelude.{◌≡◌, ◌∷◌, ◌++◌, codes, map, string_bytes, true, OnOk};
ghost use Rattle.std.specs.List.{join_by};
ghost use Rattle.vme_judge.specs.JsonTexts.{address_json, code_json, comma, counts_json, field_json, field_unless_empty, file_json, finding_json, head_json, key_json, levels_json, line_json, lines_json, modifier_json, notes_json, number_if_known, number_json, place_json, quoted, rejection_json, texts_json, transfer_json, verdict_json, within_json, word_json};
ghost use Rattle.vme_judge.specs.Messages.{broken_rule, expected_text, help_text, title_text};

use crate::counts::Counts;
use crate::finding::Finding;
use crate::message::{write_expected, write_help};
use crate::shown::{Shown, shown_lines};
use crate::title::write_title;
use crate::transfer::OpenTransfer;
use std::alloc::{AllocError, Global};
use std::fmt::Write;
use vme_explain::write_escaped;
use vme_protocol::{Rule, Sample};

/// Appends a text in quotes.
#[tactic(auto, unfolding(crate::specs::JsonTexts::quoted))]
fn write_quoted(text: &str, to: &mut String) -> Result<(), AllocError>
    ensures { OnOk result (string_bytes to.new ≡ string_bytes to.old ++ quoted text.now) }
{
    to.push_str("\"")?;
    write_escaped(text, to)?;
    to.push_str("\"")
}

/// Appends a further key.
#[tactic(auto, unfolding(crate::specs::JsonTexts::key_json))]
fn write_key(key: &str, to: &mut String) -> Result<(), AllocError>
    ensures { OnOk result (string_bytes to.new ≡ string_bytes to.old ++ key_json key.now) }
{
    write!(to, ",\"{key}\":")
}

/// Appends a further key and a number.
#[tactic(auto, unfolding(crate::specs::JsonTexts::number_json))]
fn write_number(key: &str, number: u64, to: &mut String) -> Result<(), AllocError>
    ensures { OnOk result (string_bytes to.new ≡ string_bytes to.old ++ number_json key.now number) }
{
    write_key(key, to)?;
    write!(to, "{number}")
}

/// Appends a further key and a text.
#[tactic(auto, unfolding(crate::specs::JsonTexts::field_json))]
fn write_field(key: &str, text: &str, to: &mut String) -> Result<(), AllocError>
    ensures { OnOk result (string_bytes to.new ≡ string_bytes to.old ++ field_json key.now text.now) }
{
    write_key(key, to)?;
    write_quoted(text, to)
}

/// Appends a further key and a text, if it is not empty.
fn write_unless_empty(key: &str, text: &str, to: &mut String) -> Result<(), AllocError>
    ensures { OnOk result (string_bytes to.new ≡ string_bytes to.old ++ field_unless_empty key.now text.now) }
{
    if text.is_empty() {
        return Ok(());
    }
    write_field(key, text, to)
}

/// Appends a further key and a number, if it is known.
fn write_if_known(key: &str, number: Option<u64>, to: &mut String) -> Result<(), AllocError>
    ensures { OnOk result (string_bytes to.new ≡ string_bytes to.old ++ number_if_known key.now number) }
{
    match number {
        Some(number) => write_number(key, number, to),
        None => Ok(()),
    }
}

/// Appends the name of the file.
#[tactic(auto, unfolding(crate::specs::JsonTexts::file_json))]
fn write_file(name: &str, to: &mut String) -> Result<(), AllocError>
    ensures { OnOk result (string_bytes to.new ≡ string_bytes to.old ++ file_json name.now) }
{
    to.push_str("{\"file\":")?;
    write_quoted(name, to)
}

/// Appends a finding as one line. An absent part has no key.
///
/// # Errors
///
/// An allocation failed.
#[tactic(auto, unfolding(crate::specs::JsonTexts::finding_json))]
pub(crate) fn write_finding(
    alloc: Global,
    name: &str,
    finding: &Finding,
    to: &mut String,
) -> Result<(), AllocError>
    ensures { OnOk result (string_bytes to.new ≡ string_bytes to.old ++ finding_json name.now finding.now) }
{
    write_head(alloc, name, finding, to)?;
    write_place(finding, to)?;
    write_notes(alloc, finding, to)?;
    to.push_str("}\n")
}

/// Appends where a finding is, and what is wrong.
#[tactic(auto, unfolding(crate::specs::JsonTexts::head_json))]
fn write_head(
    alloc: Global,
    name: &str,
    finding: &Finding,
    to: &mut String,
) -> Result<(), AllocError>
    ensures { OnOk result (string_bytes to.new ≡ string_bytes to.old ++ head_json name.now finding.now) }
{
    let mut title = String::new(alloc);
    write_title(finding, &mut title)?;
    write_file(name, to)?;
    write_number("line", finding.line, to)?;
    write_code(finding.rule().code(), to)?;
    write_field("message", &title, to)
}

/// Appends the severity and the number of a rule.
#[tactic(auto, unfolding(crate::specs::JsonTexts::code_json))]
fn write_code(code: u8, to: &mut String) -> Result<(), AllocError>
    ensures { OnOk result (string_bytes to.new ≡ string_bytes to.old ++ code_json code) }
{
    write!(to, ",\"severity\":\"error\",\"code\":\"J{code}\"")
}

/// Appends the time, the levels and the transfer.
#[tactic(auto, unfolding(crate::specs::JsonTexts::place_json))]
fn write_place(finding: &Finding, to: &mut String) -> Result<(), AllocError>
    ensures { OnOk result (string_bytes to.new ≡ string_bytes to.old ++ place_json finding.now) }
{
    write_if_known("time", finding.time, to)?;
    write_levels(finding.rule(), &finding.samples, to)?;
    write_transfer(&finding.transfer, to)
}

/// Appends the levels of the lines that a message shows.
fn write_levels(
    rule: Rule,
    samples: &Option<(Sample, Sample)>,
    to: &mut String,
) -> Result<(), AllocError>
    ensures { OnOk result (string_bytes to.new ≡ string_bytes to.old ++ levels_json rule samples.now) }
{
    let Some((before, after)) = samples else {
        return Ok(());
    };
    let lines = shown_lines(rule, before, after);
    to.push_str(",\"lines\":[")?;
    write_lines(&lines, before, after, to)?;
    to.push_str("]")
}

/// Appends the levels of lines, with commas between them.
fn write_lines(
    lines: &[Option<Shown>],
    before: &Sample,
    after: &Sample,
    to: &mut String,
) -> Result<(), AllocError>
    ensures { OnOk result (
        string_bytes to.new ≡ string_bytes to.old ++ lines_json before.now after.now true lines.now) }
{
    let mut is_first = true;
    for shown in lines {
        let Some(shown) = shown else {
            continue;
        };
        write_comma(is_first, to)?;
        is_first = false;
        write_line(*shown, before, after, to)?;
    }
    Ok(())
}

/// Appends a comma, except before the first one.
fn write_comma(is_first: bool, to: &mut String) -> Result<(), AllocError>
    ensures { OnOk result (string_bytes to.new ≡ string_bytes to.old ++ comma is_first) }
{
    if is_first { Ok(()) } else { to.push_str(",") }
}

/// Appends lines: their name, and their levels before a sample and at it.
#[tactic(auto, unfolding(crate::specs::JsonTexts::line_json))]
fn write_line(
    shown: Shown,
    before: &Sample,
    after: &Sample,
    to: &mut String,
) -> Result<(), AllocError>
    ensures { OnOk result (string_bytes to.new ≡ string_bytes to.old ++ line_json before.now after.now shown) }
{
    to.push_str("{\"name\":\"")?;
    shown.write_name(to)?;
    to.push_str("\",\"before\":\"")?;
    shown.write_levels(before, to)?;
    to.push_str("\",\"after\":\"")?;
    shown.write_levels(after, to)?;
    to.push_str("\"}")
}

/// Appends the transfer in which a finding lies, if it lies in one.
fn write_transfer(transfer: &Option<OpenTransfer>, to: &mut String) -> Result<(), AllocError>
    ensures { OnOk result (string_bytes to.new ≡ string_bytes to.old ++ transfer_json transfer.now) }
{
    let Some(transfer) = transfer else {
        return Ok(());
    };
    write_modifier(transfer.am, to)?;
    write_address(transfer.address, to)?;
    write_number("datum", transfer.data, to)?;
    write_if_known("slot", transfer.slot.map(u64::from), to)?;
    write_if_known("since", transfer.since, to)?;
    to.push_str("}")
}

/// Appends the address modifier of a transfer.
#[tactic(auto, unfolding(crate::specs::JsonTexts::modifier_json))]
fn write_modifier(am: u8, to: &mut String) -> Result<(), AllocError>
    ensures { OnOk result (string_bytes to.new ≡ string_bytes to.old ++ modifier_json am) }
{
    write!(to, ",\"transfer\":{{\"am\":\"{am:02x}\"")
}

/// Appends the address of a transfer.
#[tactic(auto, unfolding(crate::specs::JsonTexts::address_json))]
fn write_address(address: u32, to: &mut String) -> Result<(), AllocError>
    ensures { OnOk result (string_bytes to.new ≡ string_bytes to.old ++ address_json address) }
{
    write_key("address", to)?;
    write!(to, "\"{address:08x}\"")
}

/// Appends what is expected, the section of the standard, and help.
#[tactic(auto, unfolding(crate::specs::JsonTexts::notes_json))]
fn write_notes(alloc: Global, finding: &Finding, to: &mut String) -> Result<(), AllocError>
    ensures { OnOk result (string_bytes to.new ≡ string_bytes to.old ++ notes_json finding.now.broken) }
{
    let mut expected = String::new(alloc);
    write_expected(finding, &mut expected)?;
    let mut help = String::new(alloc);
    write_help(finding, &mut help)?;
    write_field("expected", &expected, to)?;
    write_unless_empty("section", finding.rule().section(), to)?;
    write_unless_empty("help", &help, to)
}

/// Appends a verdict as one line.
///
/// # Errors
///
/// An allocation failed.
#[tactic(auto, unfolding(crate::specs::JsonTexts::verdict_json))]
pub(crate) fn write_verdict(
    verdict: &str,
    counts: &Counts,
    is_within: bool,
    absent: &[String],
    assumed: &[String],
    to: &mut String,
) -> Result<(), AllocError>
    ensures { OnOk result (string_bytes to.new ≡ string_bytes to.old ++ verdict_json verdict.now counts.now is_within
        (map string_bytes absent.now) (map string_bytes assumed.now)) }
{
    write_word(verdict, to)?;
    write_counts(counts, to)?;
    write_within(is_within, to)?;
    write_texts("absent", absent, to)?;
    write_texts("assumed", assumed, to)?;
    to.push_str("}\n")
}

/// Appends the word for a verdict.
#[tactic(auto, unfolding(crate::specs::JsonTexts::word_json))]
fn write_word(verdict: &str, to: &mut String) -> Result<(), AllocError>
    ensures { OnOk result (string_bytes to.new ≡ string_bytes to.old ++ word_json verdict.now) }
{
    write!(to, "{{\"verdict\":\"{verdict}\"")
}

/// Appends what was seen of a trace.
#[tactic(auto, unfolding(crate::specs::JsonTexts::counts_json))]
fn write_counts(counts: &Counts, to: &mut String) -> Result<(), AllocError>
    ensures { OnOk result (string_bytes to.new ≡ string_bytes to.old ++ counts_json counts.now) }
{
    write_number("transfers", counts.transfers, to)?;
    write_number("handshakes", counts.data, to)?;
    write_number("tenures", counts.tenures, to)?;
    write_number("local_accesses", counts.accesses, to)?;
    write_number("samples", counts.samples, to)?;
    write_number("skipped", counts.skipped, to)
}

/// Appends whether a dump ends within a transfer.
#[tactic(auto, unfolding(crate::specs::JsonTexts::within_json))]
fn write_within(is_within: bool, to: &mut String) -> Result<(), AllocError>
    ensures { OnOk result (string_bytes to.new ≡ string_bytes to.old ++ within_json is_within) }
{
    write_key("ends_within", to)?;
    to.push_str(if is_within { "true" } else { "false" })
}

/// Appends a key and a list of texts.
#[tactic(auto, unfolding(crate::specs::JsonTexts::texts_json))]
fn write_texts(key: &str, texts: &[String], to: &mut String) -> Result<(), AllocError>
    ensures { OnOk result (
        string_bytes to.new ≡ string_bytes to.old ++ texts_json key.now (map string_bytes texts.now)) }
{
    write_key(key, to)?;
    to.push_str("[")?;
    write_all_quoted(texts, to)?;
    to.push_str("]")
}

/// Appends texts in quotes, with commas between them.
fn write_all_quoted(texts: &[String], to: &mut String) -> Result<(), AllocError>
    ensures { OnOk result (
        string_bytes to.new
        ≡ string_bytes to.old ++ join_by (λ text. quoted (string_bytes text)) (codes ",") texts.now) }
{
    let Some((first, others)) = texts.split_first() else {
        return Ok(());
    };
    write_quoted(first, to)?;
    for text in others {
        write_next_quoted(text, to)?;
    }
    Ok(())
}

/// Appends a comma and a text in quotes.
fn write_next_quoted(text: &str, to: &mut String) -> Result<(), AllocError>
    ensures { OnOk result (string_bytes to.new ≡ string_bytes to.old ++ (codes "," ++ quoted text.now)) }
{
    to.push_str(",")?;
    write_quoted(text, to)
}

/// Appends why a text is no trace, as one line.
///
/// # Errors
///
/// An allocation failed.
#[tactic(auto, unfolding(crate::specs::JsonTexts::rejection_json))]
pub(crate) fn write_rejection(
    name: &str,
    line: Option<u64>,
    text: &str,
    to: &mut String,
) -> Result<(), AllocError>
    ensures { OnOk result (string_bytes to.new ≡ string_bytes to.old ++ rejection_json name.now line text.now) }
{
    write_file(name, to)?;
    write_if_known("line", line, to)?;
    to.push_str(",\"severity\":\"error\"")?;
    write_field("message", text, to)?;
    to.push_str("}\n")
}
