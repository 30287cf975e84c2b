//! Laws of runs whose transitions have one order.
ghost use Rattle.std.specs.Prelude.{◌≡◌, ℕ, List};
ghost use Rattle.vme_core.specs.Runs.{Machine, Transition};
ghost use Rattle.vme_shared.specs.declared.reply.LineReply.{LineReply};
ghost use Rattle.vme_script.specs.Configurations.{Configuration};
ghost use Rattle.vme_script.specs.Lawful.{IsLawful};
ghost use Rattle.vme_stepper.specs.Turns.{state_after};
ghost use Rattle.vme_threads.specs.declared.report.Report.{Report};
ghost use Rattle.vme_threads.specs.Reports.{IsReportOf};
ghost use Rattle.vme_run.specs.Orders.{IsOneOrder, IsReportOfState, ended_state};
ghost use Rattle.vme_threads.specs.OneOrder.{IsReportOfOneOrder};

/// If the configuration is lawful, one order of the transitions of all processors leads where some
/// turns lead: after these turns of slots on one thread, the machine and the replies to all lines
/// are the same.
pub fn one_order_is_a_run_of_turns()
    ensures { (config : Configuration) (run : List Transition) (answers : List (List LineReply))
        (machine : Machine) → IsLawful config → IsOneOrder config run answers machine →
        (slots : List ℕ) × (state_after config slots ≡ ended_state machine answers) }
{}

/// If the configuration is lawful, a report of one order is that of the state after some turns on
/// one thread: replies, memories, and the steps of each board and of the arbiter. Which turns they
/// are is not stated, and there may be more of them than a file's schedule and rounds can state.
pub fn a_run_of_threads_is_a_run_of_turns()
    ensures { (config : Configuration) (report : Report) →
        IsLawful config → IsReportOfOneOrder config report →
        (slots : List ℕ)
        × IsReportOfState config report (state_after config slots) }
{}

/// A report of one order is a report with one history for each object, so that each law of these
/// reports holds for it.
pub fn one_order_has_a_history_of_each_object()
    ensures { (config : Configuration) (report : Report) →
        IsReportOfOneOrder config report → IsReportOf config report }
{}
