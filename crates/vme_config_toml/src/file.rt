//! The values of a configuration file, as plain data.

use std::marker::Model;

/// The values of a board's range: its address space, its base address, its size in bytes, and
/// whether only supervisory codes select it.
#[derive(Drop)]
pub struct RangeTable<'a> {
    pub space: &'a str,
    pub base: u32,
    pub size: u32,
    pub supervisory: bool,
}

impl<'a> Model for RangeTable<'a> {
    ghost use Rattle.vme_config_toml.specs.Files.{RangeValues};

    ghost Value = { RangeValues };

    ghost view = { λ r. record {
      space = r.space.now;
      base = r.base;
      size = r.size;
      supervisory = r.supervisory;
    } };
}

/// The values of a board's slave: its number of data lines, and whether it responds to unaligned
/// transfers, block transfers and read-modify-writes.
#[derive(Clone, Copy)]
pub struct ClassTable {
    pub width: u32,
    pub uat: bool,
    pub blt: bool,
    pub rmw: bool,
}

/// The values of a table `board`: its slot, its request level, its range, its class, and the text
/// of its processor's script.
#[derive(Drop)]
pub struct BoardTable<'a> {
    pub slot: u32,
    pub level: u32,
    pub range: RangeTable<'a>,
    pub class: ClassTable,
    pub script: &'a str,
}

impl<'a> Model for BoardTable<'a> {
    ghost use Rattle.vme_config_toml.specs.Files.{BoardValues};

    ghost Value = { BoardValues };

    ghost view = { λ b. record {
      slot = b.slot;
      level = b.level;
      range = b.range;
      class = b.class;
      script = b.script.now;
    } };
}

/// The values of a table `mailbox`: its address modifier code, its address, and its number of
/// slots.
#[derive(Clone, Copy)]
pub struct MailboxTable {
    pub am: u32,
    pub addr: u32,
    pub slots: u32,
}

/// The values of a file: the name of the arbiter, the number of tries, the schedule as pairs of a
/// slot and a number of turns, the number of rounds, the boards, and the mailboxes.
#[derive(Drop)]
pub struct FileTable<'a> {
    pub arbiter: &'a str,
    pub tries: u32,
    pub schedule: Vec<(u32, u32)>,
    pub rounds: u32,
    pub boards: Vec<BoardTable<'a>>,
    pub mailboxes: Vec<MailboxTable>,
}

impl<'a> Model for FileTable<'a> {
    ghost use Rattle.vme_config_toml.specs.Files.{FileValues};

    ghost Value = { FileValues };

    ghost view = { λ f. record {
      arbiter = f.arbiter.now;
      tries = f.tries;
      schedule = f.schedule.items;
      rounds = f.rounds;
      boards = f.boards.items;
      mailboxes = f.mailboxes.items;
    } };
}
