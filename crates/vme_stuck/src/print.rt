//! Dead ends and the last line, appended to a buffer.
ghost use Rattle.std.specs.Prelude.{◌≡◌, ◌++◌, flat_map, OnOk};
ghost use Rattle.vme_stuck.specs.Texts.{end_text, count_text};

use crate::wait::append_waits;
use std::alloc::AllocError;
use vme_outcome_listing::{append_count, append_schedule, append_tries_line};
use vme_script::Config;
use vme_states::ListedOutcome;

/// Appends dead ends.
pub(crate) fn append_ends(
    config: &Config,
    ends: &[ListedOutcome],
    text: &mut Vec<u8>,
) -> Result<(), AllocError>
    ensures { OnOk result (text.new.items ≡ text.old.items ++ flat_map (end_text config.now) ends.now) }
{
    for end in ends {
        append_end(config, end, text)?;
    }
    Ok(())
}

/// Appends a dead end.
#[tactic(auto, unfolding(crate::specs::Texts::end_text))]
fn append_end(config: &Config, end: &ListedOutcome, text: &mut Vec<u8>) -> Result<(), AllocError>
    ensures { OnOk result (text.new.items ≡ text.old.items ++ end_text config.now end.now) }
{
    append_schedule(end.schedule(), text)?;
    text.extend_from_slice(b"\n")?;
    append_tries_line(end.tries(), text)?;
    append_waits(config, end.state(), text)?;
    text.extend_from_slice(b"\n")
}

/// Appends the last line: the numbers of dead ends and of states.
pub(crate) fn append_counts(
    ends: usize,
    states: usize,
    text: &mut Vec<u8>,
) -> Result<(), AllocError>
    ensures { OnOk result (text.new.items ≡ text.old.items ++ count_text ends states) }
{
    append_count(ends, b"dead end", text)?;
    text.extend_from_slice(b", ")?;
    append_count(states, b"state", text)?;
    text.extend_from_slice(b"\n")
}
