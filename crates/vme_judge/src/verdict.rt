//! The text of a verdict.
ghost use Rattle.std.specs.Prelude.{◌≡◌, ◌++◌, map, string_bytes, IfOk, OnOk};
ghost use Rattle.vme_judge.specs.AssumedTexts.{ports_shown};
ghost use Rattle.vme_judge.specs.DumpRuns.{dump_so_far};
ghost use Rattle.vme_judge.specs.Dumps.{dump_status};
ghost use Rattle.vme_judge.specs.FindingTexts.{beside, comment, commented, finding_text, found_text};
ghost use Rattle.vme_judge.specs.Logs.{status_of};
ghost use Rattle.vme_judge.specs.RejectionTexts.{rejected_text};
ghost use Rattle.vme_judge.specs.Runs.{run_so_far};
ghost use Rattle.vme_judge.specs.VerdictTexts.{ending_of, ending_status, is_dump, last_finding, lists_text, rejection_of, rest_lines, rest_text, seen_text, text_by, verdict_name, verdict_text};

use crate::assumed::assumed;
use crate::boards::Board;
use crate::counts::Counts;
use crate::fault::Status;
use crate::finding::Finding;
use crate::json::{write_finding, write_verdict};
use crate::message::write_message;
use crate::options::Options;
use crate::rejection::{Rejection, Why};
use crate::run::{Kind, Run};
use crate::seen::write_legal;
use crate::tail::{absent, write_list};
use std::alloc::{AllocError, Global};
use std::fmt::Write;
use vme_line_map::LineMap;
use vme_vcd_reader::Presence;

/// Appends the text of the end of a trace, and returns the status. Beside a bus log it is a comment.
///
/// # Errors
///
/// An allocation failed.
#[tactic(auto, unfolding(crate::specs::VerdictTexts::verdict_text))]
pub(crate) fn write_end(
    alloc: Global,
    run: &Run<'_>,
    options: &Options<'_>,
    map: &LineMap,
    boards: &[Board],
    to: &mut String,
) -> Result<Status, AllocError>
    ensures log { IfOk result (λ status. status ≡ status_of (run_so_far run.now)) }
    ensures dump { IfOk result (λ status. status ≡ dump_status (dump_so_far run.now)) }
    ensures text { OnOk result (string_bytes to.new
        ≡ string_bytes to.old ++ verdict_text options.now map.now boards.now (ending_of run.now)) }
{
    let status = status_of(run);
    let mut text = String::new(alloc);
    write_text(alloc, run, status, options, map, boards, &mut text)?;
    write_beside(options.log, &text, to)?;
    Ok(status)
}

/// The verdict on what was read: something was found, nothing was judged, or the trace is legal.
#[tactic(auto, unfolding(crate::specs::Runs::run_so_far, crate::specs::Standing::standing, crate::specs::VerdictTexts::ending_of))]
fn status_of(run: &Run<'_>) -> Status
    ensures log { result ≡ status_of (run_so_far run.now) }
    ensures dump { result ≡ dump_status (dump_so_far run.now) }
    ensures ending { result ≡ ending_status (ending_of run.now) }
{
    if run.rejection.is_some() {
        return Status::Rejected;
    }
    if run.judge.found != 0 {
        return Status::Illegal;
    }
    if run.judge.finding.is_some() {
        return Status::Illegal;
    }
    if run.judge.counts.data == 0 && run.judge.counts.accesses == 0 {
        return Status::Rejected;
    }
    Status::Legal
}

/// Appends lines, beside a bus log as comments.
fn write_beside(log: bool, text: &str, to: &mut String) -> Result<(), AllocError>
    ensures { OnOk result (string_bytes to.new ≡ string_bytes to.old ++ beside log text.now) }
{
    if log {
        write_commented(text, to)
    } else {
        to.push_str(text)
    }
}

/// Appends lines as comments of a log.
fn write_commented(text: &str, to: &mut String) -> Result<(), AllocError>
    ensures { OnOk result (string_bytes to.new ≡ string_bytes to.old ++ commented text.now) }
{
    for line in text.lines() {
        write_comment(line, to)?;
    }
    Ok(())
}

/// Appends a comment.
fn write_comment(line: &str, to: &mut String) -> Result<(), AllocError>
    ensures { OnOk result (string_bytes to.new ≡ string_bytes to.old ++ comment line.now) }
{
    write!(to, "# {line}\n")
}

/// Appends a finding after which the judgement goes on, unless nothing is to be printed.
///
/// # Errors
///
/// An allocation failed.
pub(crate) fn write_found(
    alloc: Global,
    options: &Options<'_>,
    finding: &Finding,
    to: &mut String,
) -> Result<(), AllocError>
    ensures { OnOk result (string_bytes to.new ≡ string_bytes to.old ++ found_text options.now finding.now) }
{
    if options.quiet {
        return Ok(());
    }
    let mut text = String::new(alloc);
    write_one(alloc, options, finding, &mut text)?;
    write_beside(options.log, &text, to)
}

/// Appends the text of a verdict.
fn write_text(
    alloc: Global,
    run: &Run<'_>,
    status: Status,
    options: &Options<'_>,
    map: &LineMap,
    boards: &[Board],
    to: &mut String,
) -> Result<(), AllocError>
    ensures { OnOk result (string_bytes to.new
        ≡ string_bytes to.old ++ text_by options.now map.now boards.now (ending_of run.now) status) }
{
    match status {
        Status::Rejected => write_rejected(alloc, run, options, map, to),
        Status::Illegal | Status::Legal => write_judged(alloc, run, status, options, boards, to),
    }
}

/// Appends why a trace is rejected: by default nothing in it is judged.
#[tactic(auto, unfolding(crate::specs::VerdictTexts::ending_of))]
fn write_rejected(
    alloc: Global,
    run: &Run<'_>,
    options: &Options<'_>,
    map: &LineMap,
    to: &mut String,
) -> Result<(), AllocError>
    ensures { OnOk result (string_bytes to.new ≡ string_bytes to.old
        ++ rejected_text options.now.json options.now.name.now map.now (rejection_of (ending_of run.now).rejection)) }
{
    let rejection = run.rejection.unwrap_or(Rejection {
        why: Why::Nothing,
        line: None,
    });
    rejection.write(alloc, options.name, map, options.json, to)
}

/// Appends the last finding, and the rest.
#[tactic(auto, unfolding(crate::specs::VerdictTexts::ending_of))]
fn write_judged(
    alloc: Global,
    run: &Run<'_>,
    status: Status,
    options: &Options<'_>,
    boards: &[Board],
    to: &mut String,
) -> Result<(), AllocError>
    ensures { OnOk result (string_bytes to.new ≡ string_bytes to.old
        ++ (last_finding options.now (ending_of run.now).finding
        ++ rest_text options.now boards.now (ending_of run.now) status)) }
{
    write_last(alloc, options, &run.judge.finding, to)?;
    write_rest(alloc, options, run, status, boards, to)
}

/// Appends the finding at the end of a trace, if there is one.
fn write_last(
    alloc: Global,
    options: &Options<'_>,
    finding: &Option<Finding>,
    to: &mut String,
) -> Result<(), AllocError>
    ensures { OnOk result (string_bytes to.new ≡ string_bytes to.old ++ last_finding options.now finding.now) }
{
    match finding {
        Some(finding) => write_one(alloc, options, finding, to),
        None => Ok(()),
    }
}

/// Appends a finding.
fn write_one(
    alloc: Global,
    options: &Options<'_>,
    finding: &Finding,
    to: &mut String,
) -> Result<(), AllocError>
    ensures { OnOk result (string_bytes to.new ≡ string_bytes to.old ++ finding_text options.now finding.now) }
{
    if options.json {
        write_finding(alloc, options.name, finding, to)
    } else {
        write_message(alloc, options.name, finding, to)
    }
}

/// Appends what was seen of a legal trace, what it lacks and what is assumed.
#[tactic(auto, unfolding(crate::specs::VerdictTexts::rest_text, crate::specs::VerdictTexts::ending_of))]
fn write_rest(
    alloc: Global,
    options: &Options<'_>,
    run: &Run<'_>,
    status: Status,
    boards: &[Board],
    to: &mut String,
) -> Result<(), AllocError>
    ensures { OnOk result (string_bytes to.new
        ≡ string_bytes to.old ++ rest_text options.now boards.now (ending_of run.now) status) }
{
    let is_dump = is_dump(run.kind);
    let is_within = run.judge.transfer.is_some() && is_dump;
    let presence = &run.judge.presence;
    let absent = absent(alloc, is_dump, presence, boards)?;
    let ports = ports_shown(is_dump, presence);
    let assumed = assumed(alloc, options, boards, ports)?;
    let counts = &run.judge.counts;
    if options.json {
        let verdict = verdict_name(status);
        return write_verdict(verdict, counts, is_within, &absent, &assumed, to);
    }
    write_rest_lines(status, is_dump, is_within, counts, &absent, &assumed, to)
}

/// Appends what was seen of a legal trace, what it lacks and what is assumed, as text.
fn write_rest_lines(
    status: Status,
    is_dump: bool,
    is_within: bool,
    counts: &Counts,
    absent: &[String],
    assumed: &[String],
    to: &mut String,
) -> Result<(), AllocError>
    ensures { OnOk result (string_bytes to.new ≡ string_bytes to.old ++ rest_lines status is_dump is_within counts.now
        (map string_bytes absent.now) (map string_bytes assumed.now)) }
{
    write_seen(status, is_dump, is_within, counts, to)?;
    write_lists(absent, assumed, to)
}

/// Appends what a trace lacks, and what is assumed.
fn write_lists(absent: &[String], assumed: &[String], to: &mut String) -> Result<(), AllocError>
    ensures { OnOk result (string_bytes to.new
        ≡ string_bytes to.old ++ lists_text (map string_bytes absent.now) (map string_bytes assumed.now)) }
{
    write_list("not in the trace: ", absent, ", ", to)?;
    write_list("assumed: ", assumed, "; ", to)
}

/// Whether a trace is a dump.
fn is_dump(kind: Kind) -> bool
    ensures { result ≡ is_dump kind }
{
    match kind {
        Kind::Dump => true,
        Kind::Unknown | Kind::Log => false,
    }
}

/// The slots whose local ports a trace shows: those of a dump's lines, and all of a log.
fn ports_shown(is_dump: bool, presence: &Presence) -> u32
    ensures { result ≡ ports_shown is_dump presence.now }
{
    if is_dump { presence.ports } else { u32::MAX }
}

/// The word for a verdict.
fn verdict_name(status: Status) -> &'static str
    ensures { result.now ≡ verdict_name status }
{
    match status {
        Status::Legal => "legal",
        Status::Illegal | Status::Rejected => "illegal",
    }
}

/// Appends what was seen of a trace, if it is legal.
fn write_seen(
    status: Status,
    is_dump: bool,
    is_within: bool,
    counts: &Counts,
    to: &mut String,
) -> Result<(), AllocError>
    ensures { OnOk result (
        string_bytes to.new ≡ string_bytes to.old ++ seen_text status is_dump is_within counts.now) }
{
    match status {
        Status::Legal => write_legal(is_dump, is_within, counts, to),
        Status::Illegal | Status::Rejected => Ok(()),
    }
}
