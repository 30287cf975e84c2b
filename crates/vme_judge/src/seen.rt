//! What was seen of a trace, as text.
ghost use Rattle.std.specs.Prelude.{◌≡◌, ◌++◌, codes, string_bytes, OnOk};
ghost use Rattle.std.specs.Fmt.{decimal};
ghost use Rattle.vme_judge.specs.VerdictTexts.{accesses_text, bus_counts, counted, counts_text, dump_counts, further, legal_text, log_counts, other_counts, skipped_name, skipped_text, within_text};

use crate::counts::Counts;
use std::alloc::AllocError;
use std::fmt::Write;

/// Appends what was seen of a legal trace.
///
/// # Errors
///
/// An allocation failed.
#[tactic(auto, unfolding(crate::specs::VerdictTexts::legal_text))]
pub(crate) fn write_legal(
    is_dump: bool,
    is_within: bool,
    counts: &Counts,
    to: &mut String,
) -> Result<(), AllocError>
    ensures { OnOk result (string_bytes to.new ≡ string_bytes to.old ++ legal_text is_dump is_within counts.now) }
{
    to.push_str("legal: ")?;
    write_counts(is_dump, counts, to)?;
    write_within(is_within, to)?;
    to.push_str("\n")?;
    write_skipped(is_dump, counts.skipped, to)
}

/// Appends what was seen of a trace.
fn write_counts(is_dump: bool, counts: &Counts, to: &mut String) -> Result<(), AllocError>
    ensures { OnOk result (string_bytes to.new ≡ string_bytes to.old ++ counts_text is_dump counts.now) }
{
    if is_dump {
        write_dump_counts(counts, to)
    } else {
        write_log_counts(counts, to)
    }
}

/// Appends what was seen of a dump.
#[tactic(auto, unfolding(crate::specs::VerdictTexts::dump_counts))]
fn write_dump_counts(counts: &Counts, to: &mut String) -> Result<(), AllocError>
    ensures { OnOk result (string_bytes to.new ≡ string_bytes to.old ++ dump_counts counts.now) }
{
    write_bus_counts(counts, to)?;
    write_other_counts(counts, to)
}

/// Appends what was seen of the bus in a dump.
#[tactic(auto, unfolding(crate::specs::VerdictTexts::bus_counts))]
fn write_bus_counts(counts: &Counts, to: &mut String) -> Result<(), AllocError>
    ensures { OnOk result (string_bytes to.new ≡ string_bytes to.old ++ bus_counts counts.now) }
{
    write_count(counts.transfers, "transfer", "transfers", to)?;
    write_further(counts.data, "handshake", "handshakes", to)?;
    write_further(counts.tenures, "tenure", "tenures", to)
}

/// Appends what was seen of local ports, and the number of samples.
#[tactic(auto, unfolding(crate::specs::VerdictTexts::other_counts))]
fn write_other_counts(counts: &Counts, to: &mut String) -> Result<(), AllocError>
    ensures { OnOk result (string_bytes to.new ≡ string_bytes to.old ++ other_counts counts.now) }
{
    write_further(counts.accesses, "local access", "local accesses", to)?;
    write_further(counts.samples, "sample", "samples", to)
}

/// Appends what was seen of a log.
#[tactic(auto, unfolding(crate::specs::VerdictTexts::log_counts))]
fn write_log_counts(counts: &Counts, to: &mut String) -> Result<(), AllocError>
    ensures { OnOk result (string_bytes to.new ≡ string_bytes to.old ++ log_counts counts.now) }
{
    write_count(counts.data, "datum", "data", to)?;
    write_accesses(counts.accesses, to)
}

/// Appends the local accesses of a log, if it has some.
fn write_accesses(count: u64, to: &mut String) -> Result<(), AllocError>
    ensures { OnOk result (string_bytes to.new ≡ string_bytes to.old ++ accesses_text count) }
{
    if count == 0 {
        return Ok(());
    }
    write_further(count, "local access", "local accesses", to)
}

/// Appends a further count.
#[tactic(auto, unfolding(crate::specs::VerdictTexts::further))]
fn write_further(count: u64, one: &str, many: &str, to: &mut String) -> Result<(), AllocError>
    ensures { OnOk result (string_bytes to.new ≡ string_bytes to.old ++ further count one.now many.now) }
{
    to.push_str(", ")?;
    write_count(count, one, many, to)
}

/// Appends a count and the word for what is counted, in the plural unless the count is 1.
#[tactic(auto, unfolding(crate::specs::VerdictTexts::counted))]
fn write_count(count: u64, one: &str, many: &str, to: &mut String) -> Result<(), AllocError>
    ensures { OnOk result (string_bytes to.new ≡ string_bytes to.old ++ counted count one.now many.now) }
{
    if count == 1 {
        write!(to, "{count} {one}")
    } else {
        write!(to, "{count} {many}")
    }
}

/// Appends that a dump ends within a transfer, if it does.
fn write_within(is_within: bool, to: &mut String) -> Result<(), AllocError>
    ensures { OnOk result (string_bytes to.new ≡ string_bytes to.old ++ within_text is_within) }
{
    if is_within {
        to.push_str("; it ends within a transfer")
    } else {
        Ok(())
    }
}

/// Appends the line of what is skipped, if something is.
fn write_skipped(is_dump: bool, skipped: u64, to: &mut String) -> Result<(), AllocError>
    ensures { OnOk result (string_bytes to.new ≡ string_bytes to.old ++ skipped_text is_dump skipped) }
{
    if skipped == 0 {
        return Ok(());
    }
    let what = skipped_name(is_dump);
    write!(to, "skipped: {skipped} {what}\n")
}

/// What is skipped at the start of a trace.
fn skipped_name(is_dump: bool) -> &'static str
    ensures { result.now ≡ skipped_name is_dump }
{
    if is_dump {
        "samples before the first at rest"
    } else {
        "data of a transfer that began before"
    }
}
