//! The boards and the arbiter of a session, and the answer to each line.
ghost use Rattle.std.specs.Prelude.{◌≡◌, ◌<◌, ◌++◌, length, IfOk, OnOk, OnErr};
ghost use Rattle.vme_grammar.specs.Texts.{output_line};
ghost use Rattle.vme_script.specs.ReplyTexts.{reply_text};
ghost use Rattle.vme_line_task.specs.Scripts.{HasItsMailbox};
ghost use Rattle.vme_serve.specs.Services.{opening_service, line_served, answer};

use crate::calls::make_calls;
use crate::request::{Asked, asked_of};
use std::alloc::{AllocError, Global};
use std::marker::Model;
use vme_core::{Core, OutOfMemory};
use vme_cycle::BlockBuffer;
use vme_grammar::{Line, print_line_refusal};
use vme_line_task::{LineTask, line_read_len};
use vme_script::{Config, reply_line};
use vme_shared::LineReply;
use vme_stepper::zero_memories;

/// The number of calls that can be counted.
const MOST_CALLS: u64 = u64::MAX;

/// The number of attempts at a line.
const ATTEMPTS: u32 = 1;

/// The number of bytes before the reply in the report's line `1` of slot `1`.
const PLACE_LEN: usize = 4;

/// The boards and the arbiter of a configuration, which answer the lines of a session.
///
/// The scripts, the schedule, the rounds and the tries of the configuration play no part.
#[derive(Drop)]
pub struct Service<'a> {
    alloc: Global,
    config: &'a Config,
    core: Core,
    /// The number of further calls that can be counted.
    left: u64,
    /// The last reply as a line of a report.
    report_line: Vec<u8>,
}

impl<'a> Model for Service<'a> {
    ghost use Rattle.vme_serve.specs.Services.{ServiceView, IsSound};

    ghost Value = { ServiceView };

    ghost view = { λ s. record { config = s.config.now; machine = s.core; left = s.left } };

    ghost invariant = { λ s. IsSound (record { config = s.config.now; machine = s.core; left = s.left }) };
}

impl<'a> Service<'a> {
    /// Returns the service before its first line: memories of zeros and a free bus.
    ///
    /// # Errors
    ///
    /// `OutOfMemory`: an allocation failed.
    pub fn new(alloc: Global, config: &'a Config) -> Result<Service<'a>, OutOfMemory>
        ensures { IfOk result (λ service. service ≡ opening_service config.now) }
    {
        let memories = zero_memories(alloc, config)?;
        let core = Core::with_arbiter(alloc, memories, config.arbiter(), config.boards())?;
        Ok(Service {
            alloc,
            config,
            core,
            left: MOST_CALLS,
            report_line: Vec::new(alloc),
        })
    }

    /// Appends the answer to a line, without its end, to `text`.
    ///
    /// A line is `SLOT LINE`: the slot of a board in one or two digits, a space, and a line of a
    /// script, at which one attempt is made. The answer is one line of text.
    ///
    /// # Errors
    ///
    /// `AllocError`: an allocation failed, before the line's first call or after its last. The text
    /// is unchanged.
    pub fn answer(&mut self, line: &[u8], text: &mut Vec<u8>) -> Result<(), AllocError>
        ensures text { OnOk result
            (text.new.items ≡ text.old.items ++ (answer self.old line.now).text) }
        ensures service { OnOk result (self.new ≡ (answer self.old line.now).service) }
        ensures kept { OnErr result (text.new.items ≡ text.old.items) }
    {
        match asked_of(self.config, line) {
            Asked::NoBoard => text.extend_from_slice(b"slot refused\n"),
            Asked::Refused(fault) => print_line_refusal(text, fault),
            Asked::Nothing => text.extend_from_slice(b"nothing\n"),
            Asked::Request { board, line } => {
                let reply = self.reply_to(board, &line)?;
                print_reply(&reply, &mut self.report_line, text)
            }
        }
    }

    /// Makes one attempt at a line of a board's processor, and returns its reply: `Unfinished` if no
    /// more calls can be counted before its end.
    ///
    /// # Errors
    ///
    /// `AllocError`: an allocation failed before the line's first call.
    #[tactic(auto, unfolding(crate::specs::Services::line_served))]
    pub fn reply_to(&mut self, board: usize, line: &Line) -> Result<LineReply, AllocError>
        requires board { board < length self.old.config.boards }
        requires mailbox { HasItsMailbox self.old.config line.now }
        ensures reply { IfOk result (λ reply. reply ≡ (line_served self.old board line.now).reply) }
        ensures service { OnOk result (self.new ≡ (line_served self.old board line.now).service) }
    {
        let buffer = BlockBuffer::with_capacity(self.alloc, line_read_len(line))?;
        let task = LineTask::of(self.config, board, line, ATTEMPTS, buffer);
        let reply = make_calls(&mut self.core, &mut self.left, board, task);
        Ok(reply.unwrap_or(LineReply::Unfinished))
    }
}

/// Appends the text of a reply as a line of its own: the line of a report without the slot and the
/// number before the reply. `report_line` is a buffer.
#[tactic(auto, unfolding(vme_script::specs::ReplyTexts::line_text))]
fn print_reply(
    reply: &LineReply,
    report_line: &mut Vec<u8>,
    text: &mut Vec<u8>,
) -> Result<(), AllocError>
    ensures text { OnOk result
        (text.new.items ≡ text.old.items ++ output_line (reply_text reply.now)) }
    ensures kept { OnErr result (text.new.items ≡ text.old.items) }
{
    report_line.clear();
    reply_line(1, 1, reply, report_line)?;
    let (_place, reply_text) = report_line.as_slice().split_at(PLACE_LEN);
    text.extend_from_slice(reply_text)
}
