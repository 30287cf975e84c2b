//! The findings of request lines.
ghost use Rattle.std.specs.Prelude.{◌≡◌, ◌<◌, ◌^◌, length, if◌then◌else◌, is_some};
ghost use Rattle.std.specs.Str.Lines.{lines};
ghost use Rattle.vme_engines.specs.Lines.{request_of};
ghost use Rattle.vme_check.specs.Requests.{request_refusal, is_warned, AreCountsOf};

use crate::findings::request_finding;
use crate::report::Counts;
use memchr::memchr;
use vme_faults::Finding;
use vme_lexer::Lines;
use vme_positions::Place;

/// Returns how many errors and warnings there are among the request lines of a text.
pub(crate) fn counts_of_lines(text: &[u8]) -> Counts
    requires { length text.now < 2 ^ 32 }
    ensures { AreCountsOf (lines text.now) result }
{
    let mut counts = Counts::NONE;
    for line in Lines::new(text) {
        counts = counts.and(counts_of_line(line));
    }
    counts
}

/// Returns the counts of a request line alone.
fn counts_of_line(line: &[u8]) -> Counts
    ensures errors { result.errors ≡ (if is_some (request_refusal (request_of line.now)) then 1 else 0) }
    ensures warnings { result.warnings ≡ (if is_warned (request_of line.now) then 1 else 0) }
{
    match request_finding(line, 1) {
        Some(finding) => Counts::of(finding.cause),
        None => Counts::NONE,
    }
}

/// Returns the finding of a line that begins at `start`, if there is one, with its place in the
/// text.
pub(crate) fn finding_from(start: usize, line: &[u8]) -> Option<Finding> {
    Some(at(start, request_finding(line, 1)?))
}

/// Moves the place of a finding of a line that begins at `start` into the text.
fn at(start: usize, finding: Finding) -> Finding {
    let place = match finding.place {
        Place::Word { from, to, .. } => Place::Bytes {
            from: start.saturating_add(from),
            to: start.saturating_add(to),
        },
        place => place,
    };
    Finding {
        cause: finding.cause,
        place,
    }
}

/// Returns the start of the line after the one that begins at `start`.
pub(crate) fn line_after(text: &[u8], start: usize) -> usize {
    let rest = text.get(start..).unwrap_or(&[]);
    match memchr(b'\n', rest) {
        Some(length) => start.saturating_add(length).saturating_add(1),
        None => text.len(),
    }
}
