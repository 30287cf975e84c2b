//! The clauses of the machine's theorems, from the laws of `vme_order`.
ghost use Rattle.std.specs.Prelude.{◌≡◌, ℕ, List};
ghost use Rattle.vme_port.specs.declared.home.Home.{Home};
ghost use Rattle.vme_core.specs.Runs.{Machine, Transition};
ghost use Rattle.vme_shared.specs.declared.reply.LineReply.{LineReply};
ghost use Rattle.vme_report.specs.Reports.{report_text, report_status};
ghost use Rattle.vme_script.specs.Configurations.{Configuration};
ghost use Rattle.vme_script.specs.Lawful.{IsLawful};
ghost use Rattle.vme_stepper.specs.Turns.{state_after};
ghost use Rattle.vme_bus_objects.specs.declared.object.BusObject.{BusObject};
ghost use Rattle.vme_threads.specs.declared.report.Report.{Report};
ghost use Rattle.vme_threads.specs.ReportTexts.{texts_of_report};
ghost use Rattle.vme_threads.specs.Settlements.{BusPass};
ghost use Rattle.vme_threads.specs.Gatherings.{IsGathered};
ghost use Rattle.vme_threads.specs.OneOrder.{IsReportOfOneOrder};
ghost use Rattle.vme_engines.specs.Files.{Configures};
ghost use Rattle.vme_run.specs.Orders.{IsOneOrder, IsReportOfState, ended_state};
ghost use Rattle.vme_run.specs.RunTexts.{IsRunText};
ghost use Rattle.vme_order.specs.ArrayOrders.{gathered};
ghost use Rattle.vme_order_laws.specs.Processors.{answers_in};
ghost use Rattle.vme_order_laws.specs.MachineObjects.{machine_objects};

/// What `run_threads` states of its report, from `a_settled_array_has_one_order`: the history of the
/// settled array is the one order.
pub fn gathered_reports_are_of_one_order()
    ensures { (config : Configuration) (passes : List BusPass) (homes : List (Home BusObject))
        (report : Report) → IsGathered config passes homes report →
        IsReportOfOneOrder config report }
{}

/// What `one_order_is_a_run_of_turns` states, from `one_order_of_calls_is_a_run_of_turns`: a turn of
/// a slot is a turn of its processor.
pub fn transitions_of_one_order_are_turns()
    ensures { (config : Configuration) (run : List Transition) (answers : List (List LineReply))
        (machine : Machine) → IsLawful config → IsOneOrder config run answers machine →
        (slots : List ℕ) × (state_after config slots ≡ ended_state machine answers) }
{}

/// `what_is_gathered_is_a_run_of_turns`, of the machine: some turns of slots lead to a machine whose
/// objects, with their counts, are those gathered from the port array, and to the replies to all
/// lines.
pub fn what_threads_gather_is_a_run_of_turns()
    ensures { (config : Configuration) (passes : List BusPass) (homes : List (Home BusObject))
        (report : Report) → IsLawful config → IsGathered config passes homes report →
        (slots : List ℕ) × (machine : Machine)
        × (state_after config slots ≡ ended_state machine (answers_in report))
        × (machine_objects machine ≡ gathered passes homes) }
{}

/// What `a_run_of_threads_is_a_run_of_turns` states, of a gathered report: it is that of the state
/// after these turns.
pub fn gathered_reports_are_of_turns()
    ensures { (config : Configuration) (passes : List BusPass) (homes : List (Home BusObject))
        (report : Report) → IsLawful config → IsGathered config passes homes report →
        (slots : List ℕ) × IsReportOfState config report (state_after config slots) }
{}

/// What `run_engine` states of its text and its status: those of a gathered report are those of some
/// turns.
pub fn gathered_texts_are_run_texts()
    ensures { (input : List ℕ) (config : Configuration) (passes : List BusPass)
        (homes : List (Home BusObject)) (report : Report) →
        Configures input config → IsGathered config passes homes report →
        IsRunText input (report_text (texts_of_report report))
        (report_status (texts_of_report report)) }
{}
