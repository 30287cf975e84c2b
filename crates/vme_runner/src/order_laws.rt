ghost use Rattle.std.specs.Prelude.{◌≡◌, ◌++◌, ◌∷◌, List, Some, All};
ghost use Rattle.vme_arbiter.specs.Orderly.{IsOrderly};
ghost use Rattle.vme_core.specs.Runs.{Transition};
ghost use Rattle.vme_script.specs.Configurations.{Configuration};
ghost use Rattle.vme_script.specs.Lawful.{IsLawful};
ghost use Rattle.vme_line_task.specs.Scripts.{slot_at};
ghost use Rattle.vme_threads.specs.declared.report.Report.{Report};
ghost use Rattle.vme_threads.specs.OneOrder.{IsReportOfOneOrder};
ghost use Rattle.vme_run.specs.Orders.{machine_after};
ghost use Rattle.vme_runner.specs.OrderLaws.{IsTurnAfter, MovesData, Releases};

/// Each transition in the one order of a report of a lawful configuration is the call of a turn,
/// and its reply is that of the whole machine after all transitions before it. These include all
/// earlier transitions of the same processor.
pub fn each_transition_is_a_turn()
    ensures { (config : Configuration) (report : Report) (is : IsReportOfOneOrder config report)
        (before after : List Transition) (m : Transition) → IsLawful config →
        is.run ≡ before ++ m ∷ after → IsTurnAfter config before m }
{}

/// At each place in the one order of a report of a lawful configuration, the arbiter's state is
/// orderly, with at most one holder. A transition that moves data over the bus is made by the
/// processor of the holder.
pub fn data_move_for_the_holder()
    ensures orderly { (config : Configuration) (report : Report)
        (is : IsReportOfOneOrder config report) (before after : List Transition) →
        IsLawful config → is.run ≡ before ++ after →
        IsOrderly (machine_after config before).bus.object }
    ensures holder { (config : Configuration) (report : Report)
        (is : IsReportOfOneOrder config report) (before after : List Transition) (m : Transition) →
        IsLawful config → is.run ≡ before ++ m ∷ after → MovesData m →
        (machine_after config before).bus.object.holder ≡ Some (slot_at config m.who) }
{}

/// Blocks of two masters do not interleave, on any board. In the one order of a report of a lawful
/// configuration, from a transition of a processor that moves data over the bus until the processor
/// gives the bus back, all data that move over the bus are its own. A transfer gives the bus back
/// after its last datum.
pub fn blocks_do_not_interleave()
    ensures { (config : Configuration) (report : Report) (is : IsReportOfOneOrder config report)
        (before between after : List Transition) (m n : Transition) → IsLawful config →
        is.run ≡ before ++ m ∷ (between ++ n ∷ after) → MovesData m → MovesData n →
        All (λ o. Releases m.who o → ⊥) between → n.who ≡ m.who }
{}
