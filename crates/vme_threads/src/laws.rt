//! Laws of settled port arrays of boards and their arbiter.
ghost use Rattle.std.specs.Prelude.{List};
ghost use Rattle.vme_script.specs.Configurations.{Configuration};
ghost use Rattle.vme_port.specs.declared.home.Home.{Home};
ghost use Rattle.vme_bus_objects.specs.declared.object.BusObject.{BusObject};
ghost use Rattle.vme_bus_objects.specs.Runs.{run_of};
ghost use Rattle.vme_threads.specs.declared.report.Report.{Report};
ghost use Rattle.vme_threads.specs.OneOrder.{IsReportOfOneOrder};
ghost use Rattle.vme_threads.specs.Settlements.{BusPass, IsSettled, IsRunOfArray};
ghost use Rattle.vme_threads.specs.Gatherings.{IsGathered};

/// The one history of a settled port array of boards and their arbiter is a run of transitions of
/// the processors that made the calls.
pub fn a_settled_array_is_a_run()
    ensures { (config : Configuration) (passes : List BusPass) (homes : List (Home BusObject)) →
        (s : IsSettled config passes homes) →
        IsRunOfArray config passes homes (run_of s.settles.history) }
{}

/// A report that is gathered from a settled port array is a report of one order: one run has the
/// transitions of all processors, and the part of each object in it leads to the object's entry.
pub fn gathered_reports_have_one_order()
    ensures { (config : Configuration) (passes : List BusPass) (homes : List (Home BusObject))
        (report : Report) → IsGathered config passes homes report →
        IsReportOfOneOrder config report }
{}
