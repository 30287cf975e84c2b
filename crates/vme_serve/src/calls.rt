//! The calls of a line, one after another, up to its end.
ghost use Rattle.std.specs.Prelude.{◌≡◌, ◌<◌, ◌∷◌, [], length, None};
ghost use Rattle.vme_core.specs.Machines.{process_count};
ghost use Rattle.vme_core.specs.NextSteps.{result_in};
ghost use Rattle.vme_line_task.specs.Machine.{IsLineBelow};
ghost use Rattle.vme_serve.specs.Calls.{CanCountMore, calls_made, next_of_task};

use vme_core::Core;
use vme_line_task::LineTask;
use vme_shared::LineReply;

/// Makes the calls of a line for the processor `who`, from its first one on, as long as `left` more
/// can be counted, and returns the line's reply, if the line has ended.
pub(crate) fn make_calls(
    core: &mut Core,
    left: &mut u64,
    who: usize,
    mut task: LineTask<'_>,
) -> Option<LineReply>
    requires below { IsLineBelow (length core.old.boards) task }
    requires who { who < process_count core.old }
    requires capacity { CanCountMore left.old core.old }
    ensures machine { core.new
        ≡ (calls_made (next_of_task task.entry) who left.old core.old (None ∷ [])).machine }
    ensures left { left.new
        ≡ (calls_made (next_of_task task.entry) who left.old core.old (None ∷ [])).left }
    ensures reply { result ≡ result_in (next_of_task task.entry
        (calls_made (next_of_task task.entry) who left.old core.old (None ∷ [])).given) }
    ensures boards { length core.new.boards ≡ length core.old.boards }
    ensures process_count { process_count core.new ≡ process_count core.old }
    ensures steps { CanCountMore left.new core.new }
{
    task.advance(None);
    while 0 < *left && !task.is_finished() {
        task.step_on(core, who);
        *left -= 1;
    }
    task.into_reply()
}
