ghost use Rattle.std.specs.Prelude.{◌≢◌, ℕ, List, All};
ghost use Rattle.vme_object.specs.declared.history.Entry.{Entry};
ghost use Rattle.vme_object.specs.History.{IsLegal};
ghost use Rattle.vme_object.specs.Each.{Each};
ghost use Rattle.vme_arbiter.specs.declared.command.ArbCmd.{ArbCmd};
ghost use Rattle.vme_arbiter.specs.declared.command.ArbReply.{ArbReply};
ghost use Rattle.vme_arbiter.specs.declared.command.ArbReply.TheVariants.{Denied};
ghost use Rattle.vme_arbiter.specs.declared.kind.ArbiterKind.{ArbiterKind};
ghost use Rattle.vme_arbiter.specs.Arbitration.{opening_bus, arbiter_step};
ghost use Rattle.vme_arbiter.specs.Masters.{FollowReplies};
ghost use Rattle.vme_core.specs.Runs.{bus_part};
ghost use Rattle.vme_script.specs.Configurations.{Configuration};
ghost use Rattle.vme_script.specs.Lawful.{IsLawful};
ghost use Rattle.vme_threads.specs.declared.report.Report.{Report};
ghost use Rattle.vme_threads.specs.OneOrder.{IsReportOfOneOrder};
ghost use Rattle.vme_runner.specs.Finished.{AreFinished};
ghost use Rattle.vme_runner.specs.Granted.{AreGranted};

/// No line of a report of one order is unfinished, whatever the configuration.
pub fn no_line_is_unfinished()
    ensures { (config : Configuration) (report : Report) → IsReportOfOneOrder config report →
        Each (λ who lines. AreFinished lines.items) report.lines.items }
{}

/// No line of a report of one order of a lawful configuration is denied the bus.
pub fn no_line_is_denied()
    ensures { (config : Configuration) (report : Report) → IsLawful config →
        IsReportOfOneOrder config report →
        Each (λ who lines. AreGranted lines.items) report.lines.items }
{}

/// The arbiter, of either kind, denies no command. Consider a legal history from a free bus in
/// which each processor's commands name one slot, its own, and follow its last reply, with slots
/// and levels in range. Then no reply is `Denied`. In the part of the arbiter in a report of one
/// order of a lawful configuration, no reply is `Denied` either.
pub fn the_arbiter_denies_no_command()
    ensures law { (kind : ArbiterKind) (k : ℕ) (slots : ℕ → ℕ) (h : List (Entry ArbCmd ArbReply)) →
        IsLegal arbiter_step (opening_bus kind) h → FollowReplies k slots h →
        All (λ e. e.reply ≢ Denied) h }
    ensures report { (config : Configuration) (report : Report) → IsLawful config →
        (is : IsReportOfOneOrder config report) → All (λ e. e.reply ≢ Denied) (bus_part is.run) }
{}
