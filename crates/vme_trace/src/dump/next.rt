//! The text that one event adds to a dump.
ghost use Rattle.std.specs.Prelude.{◌≡◌, ◌≤◌, ◌<◌, ◌-◌, ◌^◌, ◌+◌, ◌++◌, [], if◌then◌else◌, OnOk};
ghost use Rattle.vme_trace.specs.Selections.{is_shown, next_progress};
ghost use Rattle.vme_trace.specs.Changes.{event_text, end_text};
ghost use Rattle.vme_trace.specs.Dumps.{next_values, opening_text, next_text};

use crate::dump::change::Change;
use crate::dump::event::push_event;
use crate::dump::header::print_header;
use crate::dump::print::{print_end, print_event};
use crate::dump::values::{Shown, record_values};
use crate::observation::Observation;
use crate::progress::Progress;
use std::alloc::AllocError;
use vme_script::Config;

/// Appends the text of the next event, if it is shown, after the header if that is not written yet.
/// Before the events that are shown it records the changes in the values.
pub(crate) fn print_next(
    text: &mut Vec<u8>,
    config: &Config,
    progress: &mut Progress,
    values: &mut Vec<Shown>,
    changes: &mut Vec<Change>,
    event: &Observation,
) -> Result<(), AllocError>
    requires few { progress.old.number < 2 ^ 32 - 1 }
    requires within { progress.old.shown ≤ progress.old.number }
    ensures progress { OnOk result (progress.new ≡ next_progress progress.old event.now) }
    ensures values { OnOk result
        (values.new.items ≡ next_values config.now progress.old event.now values.old.items) }
    ensures text { OnOk result (text.new.items ≡ text.old.items
        ++ next_text config.now progress.old values.old.items event.now) }
{
    changes.clear();
    push_event(changes, config.boards(), progress.number + 1, event)?;
    if progress.comes_before() {
        record_values(values, changes.as_slice());
    } else {
        print_opening(text, config, *progress, values.as_slice())?;
        print_if_shown(text, *progress, event, changes.as_slice())?;
    }
    *progress = progress.next(event);
    Ok(())
}

/// Appends the header with values, unless it is written.
fn print_opening(
    text: &mut Vec<u8>,
    config: &Config,
    progress: Progress,
    values: &[Shown],
) -> Result<(), AllocError>
    ensures { OnOk result
        (text.new.items ≡ text.old.items ++ opening_text config.now progress values.now) }
{
    if progress.opened {
        return Ok(());
    }
    print_header(text, config, values)
}

/// Appends the text of the next event, which has these changes, if it is shown.
fn print_if_shown(
    text: &mut Vec<u8>,
    progress: Progress,
    event: &Observation,
    changes: &[Change],
) -> Result<(), AllocError>
    requires few { progress.number < 2 ^ 32 - 1 }
    requires within { progress.shown ≤ progress.number }
    ensures { OnOk result (text.new.items ≡ text.old.items
        ++ (if is_shown progress event.now then event_text (progress.shown + 1) changes.now else [])) }
{
    if !progress.shows(event) {
        return Ok(());
    }
    print_event(text, progress.shown + 1, changes)
}

/// Appends the end of a dump, after the header if that is not written yet.
pub(crate) fn print_ending(
    text: &mut Vec<u8>,
    config: &Config,
    progress: Progress,
    values: &[Shown],
) -> Result<(), AllocError>
    ensures { OnOk result (text.new.items ≡ text.old.items
        ++ (opening_text config.now progress values.now ++ end_text progress.shown)) }
{
    print_opening(text, config, progress, values)?;
    print_end(text, progress.shown)
}
