ghost use Rattle.std.specs.Prelude.{◌≡◌, ◌∷◌, ◌++◌, ℕ, List, All};
ghost use Rattle.vme_cycle.specs.declared.request.Request.{Request};
ghost use Rattle.vme_core.specs.Runs.{Transition};
ghost use Rattle.vme_master.specs.declared.job.BusJob.{BusJob};
ghost use Rattle.vme_master.specs.declared.job.Job.TheVariants as jobs;
ghost use Rattle.vme_master.specs.Tables.{Inputs, next_of};
ghost use Rattle.vme_grammar.specs.declared.line.Line.{Line};
ghost use Rattle.vme_grammar.specs.declared.line.Line.TheVariants.{Bus};
ghost use Rattle.vme_script.specs.Configurations.{Configuration};
ghost use Rattle.vme_script.specs.Lawful.{IsLawful};
ghost use Rattle.vme_threads.specs.declared.report.Report.{Report};
ghost use Rattle.vme_threads.specs.OneOrder.{IsReportOfOneOrder};
ghost use Rattle.vme_runner.specs.OrderLaws.{MovesData};
ghost use Rattle.vme_runner.specs.TransferTenures.{CallsBoard, AnswersDatum, IsLineIn, IsOfLine, IsOneTenure};

/// The data of a transfer come one after another. Between two of them the transfer makes no other
/// call: it does not release the bus, and is not granted it anew. Each reply between them is a
/// board's, and no bus error.
pub fn data_come_one_after_another()
    ensures calls { (job : BusJob) (given older newer : Inputs) →
        CallsBoard (next_of (jobs.Bus job) given) →
        CallsBoard (next_of (jobs.Bus job) (newer ++ (older ++ given))) →
        CallsBoard (next_of (jobs.Bus job) (older ++ given)) }
    ensures replies { (job : BusJob) (given between : Inputs) →
        CallsBoard (next_of (jobs.Bus job) given) →
        CallsBoard (next_of (jobs.Bus job) (between ++ given)) → All AnswersDatum between }
{}

/// A block transfer has one tenure of the bus. In the one order of a report of a lawful
/// configuration, each transition is of a line of its processor's script. Between two data of a line
/// that requests a transfer, its processor does nothing but move data over the bus, no other
/// processor does so, and the processor's slot holds the bus throughout.
pub fn a_block_has_one_tenure()
    ensures line { (config : Configuration) (report : Report)
        (is : IsReportOfOneOrder config report) (before after : List Transition) (m : Transition) →
        IsLawful config → is.run ≡ before ++ m ∷ after →
        (index : ℕ) × (line : Line) × (earlier : List Transition) × (own : List Transition)
        × (later : List Transition) × IsLineIn config is.run m.who index line earlier own later
        × IsOfLine m.who earlier own before m }
    ensures tenure { (config : Configuration) (report : Report)
        (is : IsReportOfOneOrder config report) (who index : ℕ) (request : Request)
        (earlier own later before between after : List Transition) (m n : Transition) →
        IsLawful config → IsLineIn config is.run who index (Bus request) earlier own later →
        is.run ≡ before ++ m ∷ (between ++ n ∷ after) → MovesData m → MovesData n →
        IsOfLine who earlier own before m → IsOfLine who earlier own (before ++ m ∷ between) n →
        IsOneTenure config who before m between }
{}
