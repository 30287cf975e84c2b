//! A log: the lines of each processor, with the replies that were recorded.
ghost use Rattle.std.specs.Prelude.{◌≡◌, ◌<◌, ◌+◌, ◌^◌, ◌++◌, ◌∷◌, [], true, IfOk, IfSome, OnOk, length, map, option_map, replicate, slice_set};
ghost use Rattle.vme_history.specs.Logs.{accesses_once};
ghost use Rattle.vme_history.specs.Histories.{lines_of, made_of, next_line};
ghost use Rattle.vme_history.specs.Reading.{empty_log, is_empty};

use crate::stage::Stage;
use std::alloc::{AllocError, Global};
use std::marker::Model;
use vme_cycle::Request;
use vme_grammar::Line;
use vme_script::Config;

/// A line of a processor, the text of the reply that was recorded, and the number of the line in the
/// text of the log.
#[derive(Drop)]
pub struct Recorded {
    line: Line,
    reply: Vec<u8>,
    number: usize,
}

impl Model for Recorded {
    ghost use Rattle.std.specs.Prelude.{◌≡◌, true};
    ghost use Rattle.vme_history.specs.Logs.{RecordedView, accesses_once};

    ghost Value = { RecordedView };

    ghost view = { λ r. record { line = r.line; reply = r.reply.items } };

    ghost invariant = { λ r. accesses_once r.line ≡ true };
}

impl Recorded {
    /// Returns a line with the text of its reply.
    pub fn new(line: Line, reply: Vec<u8>, number: usize) -> Recorded
        requires { accesses_once line ≡ true }
        ensures { result ≡ record { line = line; reply = reply.items } }
    {
        Recorded {
            line,
            reply,
            number,
        }
    }

    /// Returns the line.
    pub fn line(&self) -> &Line
        ensures line { result.now ≡ self.now.line }
        ensures once { accesses_once result.now ≡ true }
    {
        &self.line
    }

    /// Returns the text of the reply.
    pub fn reply(&self) -> &[u8]
        ensures { result.now ≡ self.now.reply }
    {
        self.reply.as_slice()
    }

    /// Returns the number of the line in the text of the log.
    pub fn number(&self) -> usize {
        self.number
    }
}

/// Returns whether an attempt at a line accesses a board at most once.
pub(crate) fn accesses_once(line: &Line) -> bool
    ensures { result ≡ accesses_once line.now }
{
    match line {
        Line::Bus(
            Request::BlockRead { .. } | Request::BlockWrite { .. } | Request::BlockFill { .. },
        ) => false,
        Line::Put { .. } | Line::Take { .. } => false,
        _ => true,
    }
}

/// The boards of a configuration, and the lines of each board's processor in its own order.
///
/// The scripts, the schedule, the rounds and the tries of the configuration play no part.
#[derive(Drop)]
pub struct Log<'a> {
    config: &'a Config,
    lines: Vec<Vec<Recorded>>,
}

impl<'a> Model for Log<'a> {
    ghost use Rattle.std.specs.Prelude.{map};
    ghost use Rattle.vme_history.specs.Logs.{LogView, HasLinesOfEach};

    ghost Value = { LogView };

    ghost view = { λ l. record {
      config = l.config.now;
      lines = map (λ lines. lines.items) l.lines.items;
    } };

    ghost invariant = { λ l. HasLinesOfEach (record {
      config = l.config.now;
      lines = map (λ lines. lines.items) l.lines.items;
    }) };
}

impl<'a> Log<'a> {
    /// Returns a log without lines.
    ///
    /// # Errors
    ///
    /// `AllocError`: an allocation failed.
    pub fn new(alloc: Global, config: &'a Config) -> Result<Log<'a>, AllocError>
        ensures { IfOk result (λ log. log ≡ empty_log config.now) }
    {
        let mut lines = Vec::with_capacity(alloc, config.boards())?;
        for _board in 0..config.boards() {
            lines.push(Vec::new(alloc))?;
        }
        Ok(Log { config, lines })
    }

    /// Returns the configuration.
    pub fn config(&self) -> &'a Config
        ensures { result.now ≡ self.now.config }
    {
        self.config
    }

    /// Appends a line to those of a board's processor.
    ///
    /// # Errors
    ///
    /// `AllocError`: an allocation failed.
    #[tactic(auto, using(crate::proofs::Logs::line_pushed))]
    pub fn push(&mut self, board: usize, one: Recorded) -> Result<(), AllocError>
        requires { board < length self.old.config.boards }
        ensures { OnOk result (self.new ≡ record self.old {
          lines = slice_set self.old.lines board (lines_of self.old board ++ one ∷ []);
        }) }
    {
        prove!(board < self.lines.len());
        self.lines[board].push(one)?;
        Ok(())
    }

    /// Returns the number of processors.
    pub fn processors(&self) -> usize
        ensures value { result ≡ length self.now.lines }
        ensures boards { result ≡ length self.now.config.boards }
    {
        self.lines.len()
    }

    /// Returns the lines of a board's processor.
    pub fn lines(&self, board: usize) -> &[Recorded]
        ensures { result.now ≡ lines_of self.now board }
    {
        match self.lines.get(board) {
            Some(lines) => lines.as_slice(),
            None => &[],
        }
    }

    /// Returns whether no processor has a line.
    ///
    /// # Errors
    ///
    /// `AllocError`: an allocation failed.
    pub(crate) fn is_empty(&self, alloc: Global) -> Result<bool, AllocError>
        ensures { IfOk result (λ empty. empty ≡ is_empty self.now) }
    {
        let counts = self.counts(alloc)?;
        Ok(counts.iter().all(|count| *count == 0))
    }

    /// Returns the number of lines of each processor.
    #[tactic(auto, using(crate::proofs::Logs::counts_more))]
    pub(crate) fn counts(&self, alloc: Global) -> Result<Vec<usize>, AllocError>
        ensures { IfOk result (λ counts. counts.items ≡ map length self.now.lines) }
    {
        let mut counts = Vec::with_capacity(alloc, self.processors())?;
        for board in 0..self.processors() {
            counts.push(self.lines(board).len())?;
        }
        Ok(counts)
    }

    /// Returns the next line of a processor, if one is left.
    pub(crate) fn next_line(&self, stage: &Stage, board: usize) -> Option<&Recorded>
        ensures next { option_map (λ one. one.now) result ≡ next_line self.now stage.now board }
        ensures fits { IfSome result (λ _. made_of stage.now board + 1 < 2 ^ 64) }
    {
        let lines = self.lines(board);
        let made = stage.made_of(board);
        if made < lines.len() {
            Some(&lines[made])
        } else {
            None
        }
    }
}
