//! The schedule of a configuration, and its checks.
ghost use Rattle.std.specs.Prelude.{◌≡◌, nat_le, not, ◌&&◌, is_some, IfSome};
ghost use Rattle.vme_script.specs.declared.fault.ConfigFault.TheVariants.{BadSchedule};
ghost use Rattle.vme_script.specs.Answers.{Gives, refuse};
ghost use Rattle.vme_script.specs.declared.cause.schedule.ScheduleCause.TheVariants.{TriesRange, RoundsRange};
ghost use Rattle.vme_script.specs.Causes.{schedule_refusal, refused_as};
ghost use Rattle.vme_script.specs.CauseRules.{cause_if};
ghost use Rattle.vme_script.specs.Schedules.{has_slot, lawful_schedule, schedule_of};

use crate::board::BoardConfig;
use crate::cause::ScheduleCause;
use crate::fault::ConfigFault;
use crate::limits::MOST_TURNS;
use std::alloc::Global;
use vme_config_toml::FileTable;

/// Checks the number of tries: it is from 1 to 1,000,000.
pub fn check_tries(tries: u32) -> Result<(), ScheduleCause>
    ensures refusal { refused_as schedule_refusal result ≡
        refuse (not (nat_le 1 tries && nat_le tries 1000000)) BadSchedule }
    ensures cause { result ≡ cause_if (not (nat_le 1 tries && nat_le tries 1000000)) (TriesRange tries) }
{
    if tries < 1 || tries > MOST_TURNS {
        return Err(ScheduleCause::TriesRange { tries });
    }
    Ok(())
}

/// Checks the number of rounds: it is at most 1,000,000.
pub fn check_rounds(rounds: u32) -> Result<(), ScheduleCause>
    ensures refusal { refused_as schedule_refusal result ≡ refuse (not (nat_le rounds 1000000)) BadSchedule }
    ensures cause { result ≡ cause_if (not (nat_le rounds 1000000)) (RoundsRange rounds) }
{
    if rounds > MOST_TURNS {
        return Err(ScheduleCause::RoundsRange { rounds });
    }
    Ok(())
}

/// Returns the slot if there is a board in it.
#[tactic(auto, unfolding(crate::specs::Schedules::has_slot))]
fn slot_among(boards: &[BoardConfig], slot: u32) -> Option<u16>
    ensures there { is_some result ≡ has_slot boards.now slot }
    ensures same { IfSome result (λ found. found ≡ slot) }
{
    for board in boards {
        if u32::from(board.slot) == slot {
            return Some(board.slot);
        }
    }
    None
}

/// Returns the pairs of a schedule if they are lawful, otherwise `BadSchedule`.
#[tactic(auto, unfolding(crate::specs::Schedules::lawful_schedule))]
fn lawful_schedule(
    alloc: Global,
    boards: &[BoardConfig],
    pairs: &[(u32, u32)],
) -> Result<Vec<(u16, u32)>, ConfigFault>
    ensures { Gives (λ schedule. schedule.items) result (lawful_schedule boards.now pairs.now) }
{
    let mut schedule = Vec::with_capacity(alloc, pairs.len())?;
    let mut left = MOST_TURNS;
    for (slot, turns) in pairs {
        let slot = slot_among(boards, *slot).ok_or(ConfigFault::BadSchedule)?;
        if *turns > left {
            return Err(ConfigFault::BadSchedule);
        }
        left -= *turns;
        schedule.push((slot, *turns))?;
    }
    Ok(schedule)
}

/// Returns the schedule of a file if the schedule, the tries and the rounds are lawful, otherwise
/// `BadSchedule`.
#[tactic(auto, unfolding(crate::specs::Schedules::schedule_of))]
pub(crate) fn schedule_of(
    alloc: Global,
    boards: &[BoardConfig],
    file: &FileTable<'_>,
) -> Result<Vec<(u16, u32)>, ConfigFault>
    ensures { Gives (λ schedule. schedule.items) result (schedule_of boards.now file.now) }
{
    check_tries(file.tries)?;
    check_rounds(file.rounds)?;
    lawful_schedule(alloc, boards, &file.schedule)
}
