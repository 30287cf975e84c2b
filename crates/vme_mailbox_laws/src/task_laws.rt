//! Laws of the commands that locks, puts and takes send to boards.
ghost use Rattle.std.specs.Prelude.{◌≡◌, ◌≢◌, ◌≤◌, ◌∷◌, [], ℕ, false, Option, Some, IsTrue, is_some};
ghost use Rattle.vme_cycle.specs.declared.modify.Modify.TheVariants.{Set};
ghost use Rattle.vme_memory.specs.Boards.{Board};
ghost use Rattle.vme_memory.specs.Steps.{Command, Write, Modify};
ghost use Rattle.vme_core.specs.declared.event.EventReply.TheVariants as replies;
ghost use Rattle.vme_core.specs.Calls.{OnBoard, command_step};
ghost use Rattle.vme_core.specs.NextSteps.{Invokes, Returns};
ghost use Rattle.vme_master.specs.Tables.{Inputs};
ghost use Rattle.vme_shared.specs.MailboxSteps.{BoardMailbox, LiesIn, touches};
ghost use Rattle.vme_shared.specs.Phases.{Idle};
ghost use Rattle.vme_shared.specs.Words.{put_by, taken_by};
ghost use Rattle.vme_shared.specs.declared.mailbox.Mailbox.{Mailbox};
ghost use Rattle.vme_shared.specs.declared.outcome.SharedOutcome.{SharedOutcome};
ghost use Rattle.vme_shared.specs.declared.outcome.SharedOutcome.TheVariants.{Berr, Denied};
ghost use Rattle.vme_shared.specs.declared.request.SharedRequest.TheVariants.{Lock, Unlock};
ghost use Rattle.vme_shared.specs.Tables.{SharedJob, shared_next};
ghost use Rattle.vme_mailbox_laws.specs.Along.{mailbox_in, LiesAt, IsWithin, overlap, UsesMailbox, IsGood, AllGood, AllCounts, phase_along, words_given, put_by_outcome, taken_by_outcome, GoesTo};

/// Each command that a put or a take sends to a board goes to the board of its mailbox and touches
/// the mailbox. If the mailbox lies wholly in a board that answers quad-byte cycles and
/// read-modify-writes, the reply is good: it fits and is not a bus error.
pub fn puts_and_takes_touch_their_mailbox()
    ensures touches { (s : SharedJob) (given : Inputs) (board x : ℕ) (m : BoardMailbox)
        (command : Option Command) → UsesMailbox s board m →
        shared_next s given ≡ Invokes (OnBoard x command) →
        (x ≡ board) × ((c : Command) × (command ≡ Some c) × IsTrue (touches m c)) }
    ensures answered { (s : SharedJob) (given : Inputs) (board x : ℕ) (m : BoardMailbox)
        (command : Option Command) (memory : Board) → UsesMailbox s board m → LiesIn memory m →
        shared_next s given ≡ Invokes (OnBoard x command) →
        IsGood (shared_next s given) (Some (replies.Board (command_step memory command).1)) }
{}

/// Whatever the replies are, each command that a put or a take sends to a board goes to the board
/// of its mailbox and lies wholly within the bytes of that mailbox. So it touches no other mailbox
/// there that shares no byte with it.
pub fn puts_and_takes_stay_in_their_mailbox()
    ensures within { (s : SharedJob) (given : Inputs) (mailbox : Mailbox) (board x : ℕ)
        (mine : BoardMailbox) (command : Option Command) → mailbox_in s.request ≡ Some mailbox →
        LiesAt s.map mailbox board mine → 1 ≤ mailbox.slots →
        shared_next s given ≡ Invokes (OnBoard x command) →
        (x ≡ board) × ((c : Command) × (command ≡ Some c) × IsWithin mine c) }
    ensures others { (s : SharedJob) (given : Inputs) (mailbox : Mailbox) (board x : ℕ)
        (mine other : BoardMailbox) (command : Command) → mailbox_in s.request ≡ Some mailbox →
        LiesAt s.map mailbox board mine → 1 ≤ mailbox.slots → overlap mine other ≡ false →
        shared_next s given ≡ Invokes (OnBoard x (Some command)) → touches other command ≡ false }
{}

/// With good replies, and put counts below 2^32, a put or a take follows the mailbox protocol: each
/// of its commands, with its reply, is an access that may come next. When it ends, it has left the
/// mailbox, its outcome is neither a bus error nor a denial, and the words that it has put or taken
/// are those that its outcome reports.
pub fn puts_and_takes_follow_the_protocol()
    ensures rows { (s : SharedJob) (given : Inputs) (board : ℕ) (m : BoardMailbox) →
        UsesMailbox s board m → AllGood s given → AllCounts m board s given →
        IsTrue (is_some (phase_along m board s given)) }
    ensures leaves { (s : SharedJob) (given : Inputs) (board : ℕ) (m : BoardMailbox)
        (outcome : SharedOutcome) → UsesMailbox s board m → AllGood s given →
        AllCounts m board s given → shared_next s given ≡ Returns outcome →
        phase_along m board s given ≡ Some Idle }
    ensures fine { (s : SharedJob) (given : Inputs) (board : ℕ) (m : BoardMailbox)
        (outcome : SharedOutcome) → UsesMailbox s board m → AllGood s given →
        AllCounts m board s given → shared_next s given ≡ Returns outcome →
        (outcome ≢ Berr) × (outcome ≢ Denied) }
    ensures put { (s : SharedJob) (given : Inputs) (board : ℕ) (m : BoardMailbox)
        (outcome : SharedOutcome) → UsesMailbox s board m → AllGood s given →
        AllCounts m board s given → shared_next s given ≡ Returns outcome →
        words_given put_by m board s given ≡ put_by_outcome outcome s.request }
    ensures taken { (s : SharedJob) (given : Inputs) (board : ℕ) (m : BoardMailbox)
        (outcome : SharedOutcome) → UsesMailbox s board m → AllGood s given →
        AllCounts m board s given → shared_next s given ≡ Returns outcome →
        words_given taken_by m board s given ≡ taken_by_outcome outcome }
{}

/// Each command that a lock sends to a board is the read-modify-write that sets bit 7 of its byte,
/// and each command that an unlock sends is the write of zero over the byte. The board and the
/// offset are those that its address selects.
pub fn locks_touch_their_byte_alone()
    ensures taken { (s : SharedJob) (given : Inputs) (am addr board : ℕ) (command : Option Command) →
        s.request ≡ Lock am addr → shared_next s given ≡ Invokes (OnBoard board command) →
        GoesTo s.map am addr board (λ offset. Modify offset 1 Set) command }
    ensures lock_cleared { (s : SharedJob) (given : Inputs) (am addr board : ℕ)
        (command : Option Command) → s.request ≡ Unlock am addr →
        shared_next s given ≡ Invokes (OnBoard board command) →
        GoesTo s.map am addr board (λ offset. Write offset (0 ∷ [])) command }
{}
