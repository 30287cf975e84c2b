//! Laws of the texts that the engine writes. A law is a function with an empty body: a call of it
//! makes its clauses known.
ghost use Rattle.std.specs.Prelude.{ℕ, ◌≡◌, Bool, true, false, List, All, Contains};
ghost use Rattle.vme_shared.specs.declared.status.Status.{Status};
ghost use Rattle.vme_report.specs.Reports.{report_text};
ghost use Rattle.vme_threads.specs.declared.report.Report.{Report};
ghost use Rattle.vme_threads.specs.OneOrder.{IsReportOfOneOrder};
ghost use Rattle.vme_threads.specs.ReportTexts.{texts_of_report};
ghost use Rattle.vme_run.specs.RunTexts.{IsRunText};
ghost use Rattle.vme_states.specs.Outcomes.{outcome_of_report};
ghost use Rattle.vme_outcome_listing.specs.Texts.{listed_text};
ghost use Rattle.vme_outcome_listing.specs.ListedTexts.{texts_in};
ghost use Rattle.vme_outcome_listing.specs.Conditions.{ClaimView, IsKept, IsBroken};
ghost use Rattle.vme_outcome_listing.specs.Outputs.{AskedView};
ghost use Rattle.vme_outcome_listing.specs.EngineTexts.{IsOutcomesText};

use vme_states::reports_have_a_listed_outcome;

/// If `outcomes_engine` returns that each condition holds, no outcome that some turns give breaks
/// one; if it returns that one fails, some turns give an outcome that breaks it.
pub fn conditions_hold_of_each_outcome()
    ensures kept { (asked : AskedView) (input text : List ℕ) →
        (outcomes : IsOutcomesText asked input text true) →
        All (IsKept outcomes.config) outcomes.claims }
    ensures broken { (asked : AskedView) (input text : List ℕ) →
        (outcomes : IsOutcomesText asked input text false) →
        (claim : ClaimView) × Contains outcomes.claims claim × IsBroken outcomes.config claim }
{}

/// Each text that `run_engine` may write for a file is that of some report of one order. The text
/// of this report's outcome is in each list that `outcomes_engine` may write for the file.
pub fn run_texts_have_a_listed_text()
    ensures { (asked : AskedView) (holds : Bool) (input run text : List ℕ)
        (status : Status) → IsRunText input run status →
        (outcomes : IsOutcomesText asked input text holds) →
        (report : Report) × (run ≡ report_text (texts_of_report report))
        × IsReportOfOneOrder outcomes.config report
        × Contains (texts_in outcomes.listed)
        (listed_text outcomes.config asked.kept (outcome_of_report report)) }
{
    reports_have_a_listed_outcome();
}
