//! The text that `bendrika outcomes --stuck` prints.
ghost use Rattle.std.specs.Prelude.{◌≡◌, ◌++◌, IfOk, OnOk};
ghost use Rattle.vme_stuck.specs.Texts.{ends_text, IsStuckText};

use crate::fault::StuckFault;
use crate::list::list_dead_ends;
use crate::print::{append_counts, append_ends};
use std::alloc::{AllocError, Global};
use vme_explore::Watch;
use vme_script::Config;
use vme_states::ListedOutcome;

/// The text of the dead ends of a configuration.
#[derive(Drop)]
pub struct StuckText {
    /// The lines of each dead end, unless they are left out, and the line of their number.
    pub text: Vec<u8>,
    /// The number of dead ends.
    pub ends: usize,
}

/// Returns the text of the dead ends of a configuration. With `quiet` it is the last line alone.
/// `watch` notes how far the search is.
///
/// # Errors
///
/// Those of [`list_dead_ends`](crate::list_dead_ends).
pub fn stuck_text<W: Watch>(
    alloc: Global,
    config: &Config,
    limit: usize,
    quiet: bool,
    watch: &mut W,
) -> Result<StuckText, StuckFault>
    ensures { IfOk result (λ found. IsStuckText config.now quiet found.text.items found.ends) }
{
    let found = list_dead_ends(alloc, config, limit, watch)?;
    let ends = found.ends.len();
    let mut text = Vec::new(alloc);
    append_unless_quiet(config, quiet, found.ends.as_slice(), &mut text)?;
    append_counts(ends, found.states, &mut text)?;
    Ok(StuckText { text, ends })
}

/// Appends dead ends, unless they are left out.
fn append_unless_quiet(
    config: &Config,
    quiet: bool,
    ends: &[ListedOutcome],
    text: &mut Vec<u8>,
) -> Result<(), AllocError>
    ensures { OnOk result (text.new.items ≡ text.old.items ++ ends_text config.now quiet ends.now) }
{
    if quiet {
        return Ok(());
    }
    append_ends(config, ends, text)
}
