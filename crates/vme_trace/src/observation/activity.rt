//! What a processor does in a turn.
ghost use Rattle.std.specs.Prelude.{◌≡◌, ◌<◌, option_map};
ghost use Rattle.vme_core.specs.Calls.{Call};
ghost use Rattle.vme_core.specs.NextSteps.{Invokes, MakesCall};
ghost use Rattle.vme_line_task.specs.Machine.{line_to_do};
ghost use Rattle.vme_line_task.specs.CurrentData.{line_datum, line_command};
ghost use Rattle.vme_trace.specs.Activities.{unanswered, transferred, board_activity, activity_of};

use vme_arbiter::ArbCmd;
use vme_core::EventRef;
use vme_cycle::{Modify, Signals};
use vme_line_task::LineTask;
use vme_master::CurrentDatum;
use vme_memory::BoardCmd;

/// A datum of a transfer to or from a board.
#[derive(Debug, Drop)]
pub struct TransferredDatum {
    /// The index of the board that is selected.
    pub board: usize,
    /// The signals before the board replies.
    pub signals: Signals,
    /// The function of a read-modify-write.
    pub function: Option<Modify>,
    /// Whether it is the first datum of the transfer.
    pub first: bool,
    /// Whether it is the last datum of the request.
    pub last: bool,
}

/// What a processor does in a turn.
#[derive(Debug, Drop)]
pub enum Activity {
    /// Its slot requests the bus.
    Requests,
    /// It polls whether its slot holds the bus.
    Polls,
    /// Its slot releases the bus. If the transfer before selected no board, these are the signals of
    /// the cycle that the bus timer ended.
    Releases(Option<Signals>),
    /// A datum of a transfer goes to or from a board.
    Transfers(TransferredDatum),
    /// A command goes to the local port of its own board.
    Local(BoardCmd),
    /// A command to a board that is neither. No line of a script makes one.
    Other,
}

/// Returns what a line does with its next event.
pub(crate) fn activity_of(task: &LineTask<'_>) -> Activity
    requires { MakesCall (line_to_do task.now) }
    ensures { (call : Call) → line_to_do task.now ≡ Invokes call →
        result ≡ activity_of task.now call }
{
    match task.event_ref().unwrap() {
        EventRef::Bus(ArbCmd::Ask { .. }) => Activity::Requests,
        EventRef::Bus(ArbCmd::Look { .. }) => Activity::Polls,
        EventRef::Bus(ArbCmd::Done { .. }) => Activity::Releases(unanswered(task)),
        EventRef::Board { board, .. } | EventRef::Datum { board, .. } => {
            board_activity(task, board)
        }
    }
}

/// Returns what a line does with an event of a board.
fn board_activity(task: &LineTask<'_>, board: usize) -> Activity
    ensures { result ≡ board_activity board (line_datum task.now) (line_command task.now) }
{
    if let Some(datum) = task.current_datum() {
        return Activity::Transfers(transferred(&datum, board));
    }
    match task.local_command() {
        Some(cmd) => Activity::Local(cmd),
        None => Activity::Other,
    }
}

/// Returns the signals of the cycle that no board answers, if the transfer selects none.
fn unanswered(task: &LineTask<'_>) -> Option<Signals>
    ensures { result ≡ unanswered (line_datum task.now) }
{
    let datum = task.current_datum()?;
    if datum.is_selected() {
        return None;
    }
    prove!(datum.number() < datum.plan().len());
    Some(datum.plan().signals(0))
}

/// Returns the datum that a transfer is at, for the board that is selected.
fn transferred(datum: &CurrentDatum<'_>, board: usize) -> TransferredDatum
    ensures { result ≡ transferred board datum.now }
{
    let plan = datum.plan();
    let number = datum.number();
    prove!(number < plan.len());
    TransferredDatum {
        board,
        signals: plan.signals(number),
        function: copied(plan.modify()),
        first: number == 0,
        last: number + 1 == plan.len(),
    }
}

/// Returns a copy of a function.
fn copied(function: Option<&Modify>) -> Option<Modify>
    ensures { result ≡ option_map (λ f. f.now) function.entry }
{
    match function {
        Some(function) => Some(function.copy()),
        None => None,
    }
}
