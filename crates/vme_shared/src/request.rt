ghost use Rattle.std.specs.Prelude.{◌≡◌, ◌≤◌, ℕ, List, Some};
ghost use Rattle.vme_cycle.specs.Requests.{read_len};
ghost use Rattle.vme_master.specs.Events.{outcome_in};
ghost use Rattle.vme_master.specs.declared.outcome.Outcome.TheVariants as outcomes;
ghost use Rattle.vme_shared.specs.Mailboxes.{IsWellFormed, stage_request, refusal_in, shared_refusal};
ghost use Rattle.vme_shared.specs.declared.request.SharedRequest.{SharedRequest as AnyRequest};
ghost use Rattle.vme_shared.specs.Steps.{first_stage, has_top_bit, words_between, word_in, counted_stage, lock_step, unlock_step, mailbox_step, step_after};

use crate::mailbox::{Mailbox, check_request, clear_lock, set_lock};
use crate::outcome::SharedOutcome;
use crate::stage::{Stage, StageResult};
use crate::word::word_in;
use vme_cycle::{CycleFault, Request};
use vme_master::OutcomeRef;

/// A request to a lock or a mailbox.
#[derive(Clone, Copy, Debug, PartialEq, Eq)]
pub enum SharedRequest {
    /// Takes the lock in bit 7 of a byte.
    Lock { am: u8, addr: u32 },
    /// Releases the lock in bit 7 of a byte.
    Unlock { am: u8, addr: u32 },
    /// Puts a word into a mailbox.
    Put { mailbox: Mailbox, word: u32 },
    /// Takes a word from a mailbox.
    Take { mailbox: Mailbox },
}

impl SharedRequest {
    /// Returns the refusal of the transfer of a lock or an unlock. For a put or a take, returns the
    /// refusal of the lock's transfer, or else that of a read of the mailbox's last word.
    pub fn check(self) -> Result<(), CycleFault>
        requires { IsWellFormed self }
        ensures { refusal_in result ≡ shared_refusal self }
    {
        match self {
            SharedRequest::Lock { am, addr } => check_request(&set_lock(am, addr)),
            SharedRequest::Unlock { am, addr } => check_request(&clear_lock(am, addr)),
            SharedRequest::Put { mailbox, .. } | SharedRequest::Take { mailbox } => mailbox.check(),
        }
    }

    /// Returns the stage of the first transfer.
    pub(crate) fn first_stage(self) -> Stage
        ensures { result ≡ first_stage self }
    {
        match self {
            SharedRequest::Unlock { .. } => Stage::Unlocks {
                end: SharedOutcome::Unlocked,
            },
            _ => Stage::Locks,
        }
    }

    /// Returns the transfer of a stage.
    pub(crate) fn transfer(self, stage: Stage) -> Request
        requires { IsWellFormed self }
        ensures value { result ≡ stage_request self stage }
        ensures capacity { read_len result ≤ 4 }
    {
        match self {
            SharedRequest::Lock { am, addr } => set_lock(am, addr),
            SharedRequest::Unlock { am, addr } => clear_lock(am, addr),
            SharedRequest::Put { mailbox, .. } | SharedRequest::Take { mailbox } => {
                mailbox.request(stage)
            }
        }
    }

    /// Returns what follows the outcome of a stage's transfer.
    pub(crate) fn step_after(self, stage: Stage, outcome: OutcomeRef<'_>) -> StageResult
        ensures { result ≡ step_after self stage (outcome_in outcome.entry) }
    {
        match self {
            SharedRequest::Lock { .. } => lock_step(outcome),
            SharedRequest::Unlock { .. } => unlock_step(SharedOutcome::Unlocked, outcome),
            SharedRequest::Put { .. } | SharedRequest::Take { .. } => {
                self.mailbox_step(stage, outcome)
            }
        }
    }

    /// Returns what follows the outcome of a transfer of a put or a take.
    fn mailbox_step(self, stage: Stage, outcome: OutcomeRef<'_>) -> StageResult
        ensures { result ≡ mailbox_step self stage (outcome_in outcome.entry) }
    {
        match (stage, outcome) {
            (Stage::Locks, OutcomeRef::Old(old)) => {
                if has_top_bit(old) {
                    StageResult::Finish(SharedOutcome::Busy)
                } else {
                    StageResult::Continue(Stage::ReadsPutCount)
                }
            }
            (Stage::Locks, OutcomeRef::Berr { .. }) => StageResult::Finish(SharedOutcome::Berr),
            (Stage::Unlocks { end }, outcome) => unlock_step(end, outcome),
            (_, OutcomeRef::Berr { .. }) => StageResult::Continue(Stage::Unlocks {
                end: SharedOutcome::Berr,
            }),
            (stage, OutcomeRef::Read(bytes)) => match word_in(bytes) {
                Some(word) => self.read_step(stage, word),
                None => StageResult::Finish(SharedOutcome::Denied),
            },
            (stage, OutcomeRef::Done) => write_step(stage),
            _ => StageResult::Finish(SharedOutcome::Denied),
        }
    }

    /// Returns what follows a transfer of a put or a take that has read a count or a word.
    fn read_step(self, stage: Stage, word: u32) -> StageResult
        ensures { (bytes : List ℕ) → word_in bytes ≡ Some word →
            result ≡ mailbox_step self stage (outcomes.Read (record { items = bytes })) }
    {
        match stage {
            Stage::ReadsPutCount => StageResult::Continue(Stage::ReadsTakeCount {
                put_count: word,
            }),
            Stage::ReadsTakeCount { put_count } => StageResult::Continue(self.counted_stage(
                put_count, word,
            )),
            Stage::ReadsWord { take_count } => {
                StageResult::Continue(Stage::RaisesTakeCount { take_count, word })
            }
            _ => StageResult::Finish(SharedOutcome::Denied),
        }
    }

    /// Returns the next stage, once both counts are known.
    fn counted_stage(self, put_count: u32, take_count: u32) -> Stage
        ensures { result ≡ counted_stage self put_count take_count }
    {
        match self {
            SharedRequest::Put { mailbox, word } => {
                if put_count == u32::MAX {
                    Stage::Unlocks {
                        end: SharedOutcome::Spent,
                    }
                } else if u32::from(mailbox.slots) <= words_between(put_count, take_count) {
                    Stage::Unlocks {
                        end: SharedOutcome::Full,
                    }
                } else {
                    Stage::WritesWord { put_count, word }
                }
            }
            _ if put_count == take_count => Stage::Unlocks {
                end: SharedOutcome::Empty,
            },
            _ => Stage::ReadsWord { take_count },
        }
    }
}

/// Returns what follows a transfer of a put or a take that has written.
fn write_step(stage: Stage) -> StageResult
    ensures { (request : AnyRequest) → result ≡ mailbox_step request stage outcomes.Done }
{
    match stage {
        Stage::WritesWord { put_count, .. } => StageResult::Continue(Stage::RaisesPutCount {
            put_count,
        }),
        Stage::RaisesPutCount { .. } => StageResult::Continue(Stage::Unlocks {
            end: SharedOutcome::Put,
        }),
        Stage::RaisesTakeCount { word, .. } => StageResult::Continue(Stage::Unlocks {
            end: SharedOutcome::Took(word),
        }),
        Stage::Unlocks { end } => StageResult::Finish(end),
        _ => StageResult::Finish(SharedOutcome::Denied),
    }
}

/// Returns what follows the outcome of a lock's transfer.
fn lock_step(outcome: OutcomeRef<'_>) -> StageResult
    ensures { result ≡ lock_step (outcome_in outcome.entry) }
{
    StageResult::Finish(match outcome {
        OutcomeRef::Old(old) if has_top_bit(old) => SharedOutcome::Busy,
        OutcomeRef::Old(_) => SharedOutcome::Taken,
        OutcomeRef::Berr { .. } => SharedOutcome::Berr,
        _ => SharedOutcome::Denied,
    })
}

/// Returns what follows the outcome of an unlock's transfer, which ends the task with `end`.
fn unlock_step(end: SharedOutcome, outcome: OutcomeRef<'_>) -> StageResult
    ensures { result ≡ unlock_step end (outcome_in outcome.entry) }
{
    StageResult::Finish(match outcome {
        OutcomeRef::Done => end,
        OutcomeRef::Berr { .. } => SharedOutcome::Berr,
        _ => SharedOutcome::Denied,
    })
}

/// Returns whether bit 7 of the byte at the lowest address is set.
fn has_top_bit(bytes: &[u8]) -> bool
    ensures { result ≡ has_top_bit bytes.now }
{
    match bytes {
        [byte, ..] => *byte >= 0x80,
        [] => false,
    }
}

/// Returns the number of words in a mailbox by its counts, modulo 2^32.
fn words_between(put_count: u32, take_count: u32) -> u32
    ensures { result ≡ words_between put_count take_count }
{
    put_count.wrapping_sub(take_count)
}
