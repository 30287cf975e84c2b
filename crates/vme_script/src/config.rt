//! The configuration of a backplane.
ghost use Rattle.std.specs.Prelude.{◌≡◌, ◌<◌, ◌≤◌, length, slice_get, Some, IfOk, map, true};
ghost use Rattle.vme_arbiter.specs.Arbitration.{opening_bus};
ghost use Rattle.vme_script.specs.Answers.{Gives};
ghost use Rattle.vme_script.specs.Boards.{entries_of};
ghost use Rattle.vme_script.specs.Scripts.{script_within, script_in, scripts_of, has_slots};
ghost use Rattle.vme_script.specs.Configurations.{configuration_of, opening_memory};
ghost use Rattle.vme_script.specs.Lawful.{IsLawful};

use crate::arbiter::kind_named;
use crate::board::{BoardConfig, board_configs, map_of};
use crate::context::{MailboxDeclarations, ScriptContext};
use crate::fault::{ConfigFault, ScriptFault};
use crate::limits::MOST_BOARDS;
use crate::mailboxes::mailboxes_of;
use crate::schedule::schedule_of;
use crate::script::Script;
use std::alloc::Global;
use std::marker::Model;
use vme_arbiter::{Arbiter, ArbiterKind};
use vme_config_toml::{BoardTable, FileTable};
use vme_core::OutOfMemory;
use vme_decode::AddressMap;
use vme_memory::ByteMemory;
use vme_shared::Mailbox;

/// A checked configuration: the boards on one backplane in order of slots, the scripts of their
/// processors, the arbiter, the schedule and the mailboxes.
///
/// Every `Config` is the configuration of some file.
#[derive(Drop)]
pub struct Config {
    boards: Vec<BoardConfig>,
    scripts: Vec<Script>,
    map: AddressMap,
    arbiter: ArbiterKind,
    tries: u32,
    schedule: Vec<(u16, u32)>,
    rounds: u32,
    mailboxes: Vec<Mailbox>,
}

impl Model for Config {
    ghost use Rattle.std.specs.Prelude.{◌≡◌, Ok};
    ghost use Rattle.vme_script.specs.Boards.{entries_of};
    ghost use Rattle.vme_config_toml.specs.Files.{FileValues};
    ghost use Rattle.vme_script.specs.Configurations.{Configuration, configuration_of};

    ghost Value = { Configuration };

    ghost view = { λ c. record {
      boards = c.boards.items;
      scripts = c.scripts.items;
      arbiter = c.arbiter;
      tries = c.tries;
      schedule = c.schedule.items;
      rounds = c.rounds;
      mailboxes = c.mailboxes.items;
    } };

    ghost invariant = { λ c.
        (c.map ≡ entries_of c.boards.items)
        × ((file : FileValues) × (configuration_of file ≡ Ok (record {
          boards = c.boards.items;
          scripts = c.scripts.items;
          arbiter = c.arbiter;
          tries = c.tries;
          schedule = c.schedule.items;
          rounds = c.rounds;
          mailboxes = c.mailboxes.items;
        }))) };
}

impl Config {
    /// Returns the configuration of a file's values, or its first refusal.
    #[tactic(auto, unfolding(crate::specs::Configurations::configuration_of))]
    pub(crate) fn of(alloc: Global, file: &FileTable<'_>) -> Result<Config, ConfigFault>
        ensures { Gives (λ config. config) result (configuration_of file.now) }
    {
        if file.boards.is_empty() {
            return Err(ConfigFault::NoBoard);
        }
        if file.boards.len() > MOST_BOARDS {
            return Err(ConfigFault::TooMany);
        }
        let boards = board_configs(alloc, &file.boards)?;
        let map = map_of(alloc, &boards)?;
        let arbiter = kind_named(file.arbiter)?;
        let schedule = schedule_of(alloc, &boards, file)?;
        let mailboxes = mailboxes_of(alloc, &boards, &map, &file.mailboxes)?;
        let scripts = scripts_of(alloc, &file.boards, &map, &mailboxes)?;
        Ok(Config {
            boards,
            scripts,
            map,
            arbiter,
            tries: file.tries,
            schedule,
            rounds: file.rounds,
            mailboxes,
        })
    }
}

impl Config {
    /// Returns the number of boards.
    ///
    /// The contract also states that the configuration is lawful: for example 1 to 21 boards, each
    /// in a slot of its own, and ranges that share no address.
    pub fn boards(&self) -> usize
        ensures value { result ≡ length self.now.boards }
        ensures lawful { IsLawful self.now }
    {
        self.boards.len()
    }

    /// Returns what the file says of board `i`: its slot, level and addresses, and its class.
    pub fn board(&self, i: usize) -> BoardConfig
        requires { i < length self.now.boards }
        ensures { slice_get self.now.boards i ≡ Some result }
    {
        self.boards[i]
    }

    /// Returns the slot of board `i`, which is also the slot of its processor.
    pub fn slot(&self, i: usize) -> u16
        requires { i < length self.now.boards }
        ensures { slice_get (map (λ board. board.slot) self.now.boards) i ≡ Some result }
    {
        self.boards[i].slot
    }

    /// Returns the level, from 0 to 3, on which the processor of board `i` requests the bus.
    pub fn level(&self, i: usize) -> u8
        requires { i < length self.now.boards }
        ensures { slice_get (map (λ board. board.level) self.now.boards) i ≡ Some result }
    {
        self.boards[i].level
    }

    /// Returns the address map: the ranges at which the boards respond, in order of slots.
    pub fn map(&self) -> &AddressMap
        ensures { result.now ≡ entries_of self.now.boards }
    {
        &self.map
    }

    /// Returns the memory of board `i` before anything is written; every byte is zero.
    ///
    /// # Errors
    ///
    /// `OutOfMemory`: an allocation failed.
    pub fn memory(&self, alloc: Global, i: usize) -> Result<ByteMemory, OutOfMemory>
        requires { i < length self.now.boards }
        ensures { IfOk result (λ memory. slice_get (map opening_memory self.now.boards) i ≡ Some memory) }
    {
        let board = self.boards[i];
        match ByteMemory::new(alloc, board.entry.size, board.class) {
            Ok(memory) => Ok(memory),
            Err(_) => Err(OutOfMemory),
        }
    }

    /// Returns the script of the processor of board `i`.
    pub fn script(&self, i: usize) -> &Script
        requires { i < length self.now.boards }
        ensures { slice_get self.now.scripts i ≡ Some result.now }
    {
        &self.scripts[i]
    }

    /// Returns the greatest number of attempts at an `await`, a `lock`, a `put` or a `take`.
    pub fn tries(&self) -> u32
        ensures { result ≡ self.now.tries }
    {
        self.tries
    }

    /// Returns the schedule: slots of boards, each with a number of turns.
    pub fn schedule(&self) -> &[(u16, u32)]
        ensures { result.now ≡ self.now.schedule }
    {
        self.schedule.as_slice()
    }

    /// Returns an arbiter of the file's kind in its initial state.
    pub fn arbiter(&self) -> Arbiter
        ensures { result ≡ opening_bus self.now.arbiter }
    {
        Arbiter::of(self.arbiter)
    }

    /// Returns the number of rounds that follow the schedule. A round is one turn of each board's
    /// slot, in order of slots.
    pub fn rounds(&self) -> u32
        ensures { result ≡ self.now.rounds }
    {
        self.rounds
    }

    /// Returns the mailboxes. A script names them by their numbers, which begin at 1.
    pub fn mailboxes(&self) -> &[Mailbox]
        ensures { result.now ≡ self.now.mailboxes }
    {
        self.mailboxes.as_slice()
    }
}

/// The script of the processor in `slot`.
fn script_in(
    alloc: Global,
    slot: u16,
    text: &str,
    rules: &ScriptContext<'_>,
) -> Result<Script, ConfigFault>
    ensures { Gives (λ script. script) result (script_in slot (script_within rules.now text.now)) }
{
    match Script::within(alloc, text.as_bytes(), rules) {
        Ok(script) => Ok(script),
        Err(ScriptFault::Refused(refusal)) => Err(ConfigFault::BadScript { slot, refusal }),
        Err(ScriptFault::OutOfMemory) => Err(ConfigFault::OutOfMemory),
    }
}

/// The scripts of boards, each checked in the context of its board.
fn scripts_of(
    alloc: Global,
    boards: &[BoardTable<'_>],
    map: &AddressMap,
    mailboxes: &[Mailbox],
) -> Result<Vec<Script>, ConfigFault>
    requires { has_slots boards.now ≡ true }
    ensures { Gives (λ scripts. scripts.items) result (scripts_of map.now mailboxes.now boards.now) }
{
    let mut scripts = Vec::with_capacity(alloc, boards.len())?;
    for board in boards {
        let rules = ScriptContext::InFile(MailboxDeclarations {
            map,
            mailboxes,
            board: scripts.len(),
        });
        scripts.push(script_in(alloc, board.slot as u16, board.script, &rules)?)?;
    }
    Ok(scripts)
}
