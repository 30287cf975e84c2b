//! A file as its split file.
ghost use Rattle.std.specs.Prelude.{◌≡◌, IfOk};
ghost use Rattle.vme_script.specs.Configurations.{Configuration};
ghost use Rattle.vme_engines.specs.Files.{Configures};

use crate::fault::SplitFault;
use crate::form::{Reason, SplitForm};
use crate::line::{LineSplit, split_line};
use crate::text::{SplitLine, SplitText};
use std::alloc::Global;
use vme_config_toml::{BoardTable, file_values, table_of};
use vme_grammar::{Line, parse_line};
use vme_lexer::Lines;
use vme_positions::{Cursor, Position};
use vme_script::{Config, ConfigFault, line_bytes};

/// A line that stays although it is made in parts.
#[derive(Clone, Copy, Debug)]
pub struct LeftLine {
    /// Where it begins in the file.
    pub position: Position,
    /// The slot of the script.
    pub slot: u16,
    /// The number of the line in the script, from 1.
    pub number: u16,
    pub reason: Reason,
}

/// A split file.
#[derive(Drop)]
pub struct Split {
    pub text: Vec<u8>,
    /// The lines that stay, in order of the file.
    pub left: Vec<LeftLine>,
}

/// Returns the split file of a configuration file.
///
/// # Errors
///
/// `Config`: the file is no configuration. `NoBoard`: the form names a slot without a board.
/// `NotFound`: a line was not found in the file. `Refused`: the split file would be no
/// configuration. `Memory`: an allocation failed.
pub fn split_file(alloc: Global, form: &SplitForm, file: &[u8]) -> Result<Split, SplitFault>
    ensures { IfOk result (λ split. (config : Configuration) × Configures split.text.items config) }
{
    let table = match table_of(alloc, file) {
        Ok(table) => table,
        Err(fault) => return Err(SplitFault::from(ConfigFault::from(fault))),
    };
    let config = Config::of_document(alloc, &table)?;
    let values = match file_values(alloc, &table) {
        Ok(values) => values,
        Err(fault) => return Err(SplitFault::from(ConfigFault::from(fault))),
    };
    let mut splitter = Splitter {
        alloc,
        form: *form,
        config: &config,
        boards: values.boards.as_slice(),
        text: SplitText::new(alloc, file)?,
        cursor: Cursor::new(file),
        left: Vec::new(alloc),
    };
    splitter.split_boards()?;
    let Splitter { text, left, .. } = splitter;
    let text = text.finish()?;
    let _config = read_again(alloc, text.as_slice())?;
    Ok(Split { text, left })
}

/// Reads a split file, as `vme` does.
fn read_again(alloc: Global, text: &[u8]) -> Result<Config, SplitFault>
    ensures { IfOk result (Configures text.now) }
{
    match Config::read(alloc, text) {
        Ok(config) => Ok(config),
        Err(ConfigFault::OutOfMemory) => Err(SplitFault::Memory),
        Err(fault) => Err(SplitFault::Refused(fault)),
    }
}

/// A file that is being split.
#[derive(Drop)]
struct Splitter<'a, 't> {
    alloc: Global,
    form: SplitForm,
    config: &'a Config,
    boards: &'a [BoardTable<'t>],
    text: SplitText<'a>,
    cursor: Cursor<'a>,
    left: Vec<LeftLine>,
}

impl<'a, 't> Splitter<'a, 't> {
    /// Splits the scripts of the form's boards.
    fn split_boards(&mut self) -> Result<(), SplitFault> {
        let boards = self.boards;
        let only = self.form.slot;
        let mut is_found = only.is_none();
        for (board, table) in boards.iter().enumerate() {
            let slot = u16::try_from(table.slot).unwrap_or(0);
            if only.is_none_or(|one| one == slot) {
                is_found = true;
                self.split_script(board, slot, table.script)?;
            }
        }
        match only {
            Some(slot) if !is_found => Err(SplitFault::NoBoard { slot }),
            _ => Ok(()),
        }
    }

    /// Splits the lines of a script.
    fn split_script(&mut self, board: usize, slot: u16, script: &str) -> Result<(), SplitFault> {
        let mut number: u16 = 0;
        for text in Lines::new(script.as_bytes()) {
            number = number.saturating_add(1);
            if let Ok(Some(line)) = parse_line(text) {
                let is_inside = self.is_inside(board, &line);
                let form = self.form;
                match split_line(self.alloc, &form, &line, is_inside)? {
                    LineSplit::Whole => {}
                    LineSplit::Left(reason) => self.leave(board, slot, number, text.len(), reason)?,
                    LineSplit::Parts(parts) => {
                        let line = SplitLine {
                            board,
                            number,
                            len: text.len(),
                            parts: parts.as_slice(),
                        };
                        if !self.text.replace(line)? {
                            return Err(SplitFault::NotFound { slot, number });
                        }
                    }
                }
            }
        }
        Ok(())
    }

    /// Whether all bytes of a line of a board's script are on one board.
    fn is_inside(&self, board: usize, line: &Line) -> bool {
        match line_bytes(self.config.map(), board, line) {
            Some(range) => match self.boards.get(range.board) {
                Some(table) => range.is_within(table.range.size),
                None => false,
            },
            None => false,
        }
    }

    /// Notes a line that stays.
    fn leave(
        &mut self,
        board: usize,
        slot: u16,
        number: u16,
        len: usize,
        reason: Reason,
    ) -> Result<(), SplitFault> {
        let at = self.text.range(board, number, len);
        let position = self.cursor.move_to(at.from);
        let line = LeftLine {
            position,
            slot,
            number,
            reason,
        };
        match self.left.push(line) {
            Ok(()) => Ok(()),
            Err(_) => Err(SplitFault::Memory),
        }
    }
}
