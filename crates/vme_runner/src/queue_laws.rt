ghost use Rattle.std.specs.Prelude.{◌≡◌, ◌+◌, ◌≤◌, ◌<◌, ℕ, List, length};
ghost use Rattle.vme_object.specs.declared.history.Entry.{Entry};
ghost use Rattle.vme_object.specs.History.{IsPrefix};
ghost use Rattle.vme_object.specs.Each.{Each};
ghost use Rattle.vme_memory.specs.declared.command.BoardCmd.{BoardCmd};
ghost use Rattle.vme_memory.specs.declared.reply.Reply.{Reply};
ghost use Rattle.vme_shared.specs.MailboxSteps.{BoardMailbox};
ghost use Rattle.vme_shared.specs.Phases.{IsProper};
ghost use Rattle.vme_shared.specs.Words.{words_put, words_taken};
ghost use Rattle.vme_shared.specs.declared.status.Status.{Status};
ghost use Rattle.vme_script.specs.Configurations.{Configuration};
ghost use Rattle.vme_script.specs.Lawful.{IsLawful};
ghost use Rattle.vme_line_task.specs.Scripts.{lines_at};
ghost use Rattle.vme_mailbox_laws.specs.Names.{lines_put, lines_taken};
ghost use Rattle.vme_mailbox_laws.specs.Groups.{own_words_put, own_words_taken};
ghost use Rattle.vme_threads.specs.declared.report.Report.{Report};
ghost use Rattle.vme_threads.specs.Rans.{replies_of_lines};
ghost use Rattle.vme_threads.specs.OneOrder.{IsReportOfOneOrder};
ghost use Rattle.vme_run.specs.RunTexts.{IsRunText};
ghost use Rattle.vme_runner.specs.DeclaredMailboxes.{IsDeclaredIn};

/// In every report of one order of a lawful configuration, each declared mailbox is a queue. The
/// part of its board in that order is proper for it. The words taken are a prefix of the words put,
/// and at most as many more words are put as the mailbox has slots. The words of each processor's
/// own puts and takes, in order, are those that the report's lines show.
pub fn declared_mailboxes_are_queues()
    ensures each { (config : Configuration) (report : Report)
        (is : IsReportOfOneOrder config report) (k : ℕ) → IsLawful config →
        k < length config.mailboxes →
        (m : BoardMailbox) × (h : List (Entry BoardCmd Reply))
        × IsDeclaredIn config report is (k + 1) m h }
    ensures proper { (config : Configuration) (report : Report)
        (is : IsReportOfOneOrder config report) (box : ℕ) (m : BoardMailbox)
        (h : List (Entry BoardCmd Reply)) → IsLawful config →
        IsDeclaredIn config report is box m h →
        IsProper m h }
    ensures order { (config : Configuration) (report : Report)
        (is : IsReportOfOneOrder config report) (box : ℕ) (m : BoardMailbox)
        (h : List (Entry BoardCmd Reply)) → IsLawful config →
        IsDeclaredIn config report is box m h →
        IsPrefix (words_taken m h) (words_put m h) }
    ensures capacity { (config : Configuration) (report : Report)
        (is : IsReportOfOneOrder config report) (box : ℕ) (m : BoardMailbox)
        (h : List (Entry BoardCmd Reply)) → IsLawful config →
        IsDeclaredIn config report is box m h →
        length (words_put m h) ≤ length (words_taken m h) + m.slots }
    ensures put { (config : Configuration) (report : Report)
        (is : IsReportOfOneOrder config report) (box : ℕ) (m : BoardMailbox)
        (h : List (Entry BoardCmd Reply)) → IsLawful config →
        IsDeclaredIn config report is box m h →
        Each (λ who lines. own_words_put who m h
        ≡ lines_put box (lines_at config who) (replies_of_lines lines.items)) report.lines.items }
    ensures taken { (config : Configuration) (report : Report)
        (is : IsReportOfOneOrder config report) (box : ℕ) (m : BoardMailbox)
        (h : List (Entry BoardCmd Reply)) → IsLawful config →
        IsDeclaredIn config report is box m h →
        Each (λ who lines. own_words_taken who m h
        ≡ lines_taken box (lines_at config who) (replies_of_lines lines.items)) report.lines.items }
{}

/// If `run_engine` returns `Ok`, it has written the text of a report of one order of the
/// configuration in its input (`IsRunText`). That configuration is lawful. In that order each
/// declared mailbox is a queue: the part of its board is proper for it, the words taken are a
/// prefix of the words put, at most as many more words are put as the mailbox has slots, and the
/// words of each processor's own puts and takes are those that the report's lines show.
pub fn texts_show_queues()
    ensures lawful { (input text : List ℕ) (status : Status) →
        (reported : IsRunText input text status) → IsLawful reported.config }
    ensures each { (input text : List ℕ) (status : Status)
        (reported : IsRunText input text status) (k : ℕ) → k < length reported.config.mailboxes →
        (m : BoardMailbox) × (h : List (Entry BoardCmd Reply))
        × IsDeclaredIn reported.config reported.report reported.order (k + 1) m h }
    ensures proper { (input text : List ℕ) (status : Status)
        (reported : IsRunText input text status) (box : ℕ) (m : BoardMailbox)
        (h : List (Entry BoardCmd Reply)) →
        IsDeclaredIn reported.config reported.report reported.order box m h →
        IsProper m h }
    ensures order { (input text : List ℕ) (status : Status)
        (reported : IsRunText input text status) (box : ℕ) (m : BoardMailbox)
        (h : List (Entry BoardCmd Reply)) →
        IsDeclaredIn reported.config reported.report reported.order box m h →
        IsPrefix (words_taken m h) (words_put m h) }
    ensures capacity { (input text : List ℕ) (status : Status)
        (reported : IsRunText input text status) (box : ℕ) (m : BoardMailbox)
        (h : List (Entry BoardCmd Reply)) →
        IsDeclaredIn reported.config reported.report reported.order box m h →
        length (words_put m h) ≤ length (words_taken m h) + m.slots }
    ensures put { (input text : List ℕ) (status : Status)
        (reported : IsRunText input text status) (box : ℕ) (m : BoardMailbox)
        (h : List (Entry BoardCmd Reply)) →
        IsDeclaredIn reported.config reported.report reported.order box m h →
        Each (λ who lines. own_words_put who m h
        ≡ lines_put box (lines_at reported.config who) (replies_of_lines lines.items))
        reported.report.lines.items }
    ensures taken { (input text : List ℕ) (status : Status)
        (reported : IsRunText input text status) (box : ℕ) (m : BoardMailbox)
        (h : List (Entry BoardCmd Reply)) →
        IsDeclaredIn reported.config reported.report reported.order box m h →
        Each (λ who lines. own_words_taken who m h
        ≡ lines_taken box (lines_at reported.config who) (replies_of_lines lines.items))
        reported.report.lines.items }
{}
