//! What the tests share: checks of a file's first refusal, of the steps of lines with listed
//! replies, and of the end of a run with what it wrote.
ghost use Rattle.std.specs.Prelude.{◌≡◌, ◌<◌, false};
ghost use Rattle.vme_io.specs.Devices.{is_marked_sink};

use std::alloc::{AllocError, Global};
use std::process::Abort;
use vme_arbiter::{ArbCmd, ArbReply};
use vme_core::{Event, EventReply};
use vme_cycle::{BlockBuffer, INLINE_LEN};
use vme_io::RoomSink;
use vme_lanes::Datum;
use vme_line_task::{LineReplyRef, LineTask, LineTodo, line_count, line_read_len};
use vme_master::{Outcome, OutcomeRef};
use vme_memory::{BoardCmd, Reply};
use vme_report::RunFault;
use vme_script::Config;
use vme_shared::{LineReply, Status};

/// Returns the text of a file's first refusal, or `lawful`.
fn reported(alloc: Global, file: &[u8]) -> Result<String, AllocError> {
    match Config::read(alloc, file) {
        Ok(_) => String::from_str(alloc, "lawful"),
        Err(fault) => fault.to_string(alloc),
    }
}

/// Checks the first refusal of a file, or that it is lawful.
pub fn check(rt: &impl Abort, alloc: Global, file: &[u8], wanted: &str) {
    let text = reported(alloc, file).expect(rt, "no memory");
    assert_eq!(rt; text.as_str(), wanted);
}

/// Checks the first refusal of each file of a table.
pub fn check_files(rt: &impl Abort, alloc: Global, files: &[(&str, &str)]) {
    for (file, wanted) in files {
        check(rt, alloc, file.as_bytes(), wanted);
    }
}

/// Reads a file that is lawful.
pub fn config_of(rt: &impl Abort, alloc: Global, file: &str) -> Config {
    Config::read(alloc, file.as_bytes()).expect(rt, "refused")
}

pub const ASK: Step = Step::Bus(ArbCmd::Ask { slot: 2, level: 3 });

pub const LOOK: Step = Step::Bus(ArbCmd::Look { slot: 2 });

pub const DONE: Step = Step::Bus(ArbCmd::Done { slot: 2 });

/// The step of a line, without the signals of a cycle.
#[derive(Clone, Copy, Debug, PartialEq, Eq)]
pub enum Step {
    Bus(ArbCmd),
    /// A cycle of the board with this index, at this offset.
    Cycle(usize, u32),
    /// A command to the local port of the board with this index.
    Local(usize),
    End,
}

fn step_of(todo: &LineTodo) -> Step {
    match todo {
        LineTodo::Call(Event::Bus(cmd)) => Step::Bus(*cmd),
        LineTodo::Call(Event::Board { board, cmd }) => match cmd {
            BoardCmd::Cycle { at, .. } => Step::Cycle(*board, *at),
            _ => Step::Local(*board),
        },
        LineTodo::Ended => Step::End,
    }
}

/// The reply that is given to a line.
#[derive(Clone, Copy, Debug, PartialEq, Eq)]
pub enum Given {
    Nothing,
    Turn(ArbReply),
    /// This byte, from a board.
    Byte(u8),
    /// This number, as four bytes from a board.
    Word(u32),
    Done,
    Berr,
}

pub const GRANTED: Given = Given::Turn(ArbReply::Granted);

pub const FREED: Given = Given::Turn(ArbReply::Freed);

fn read(bytes: &[u8]) -> Reply {
    Reply::Bytes(Datum::try_from(bytes).unwrap_or_default())
}

/// Returns the reply that `given` names.
fn reply(given: Given) -> Option<EventReply> {
    let of_board = match given {
        Given::Nothing => return None,
        Given::Turn(turn) => return Some(EventReply::Bus(turn)),
        Given::Byte(byte) => read(&[byte]),
        Given::Word(number) => read(&number.to_be_bytes()),
        Given::Done => Reply::Done,
        Given::Berr => Reply::Berr,
    };
    Some(EventReply::Board(of_board))
}

/// Returns the task of a line of the first board.
fn started<'a>(rt: &impl Abort, config: &'a Config, line: usize) -> LineTask<'a> {
    if config.boards() == 0 || line_count(config, 0) <= line {
        panic!(rt; "no such line");
    }
    if line_read_len(config.script(0).line(line)) > INLINE_LEN {
        panic!(rt; "a long line");
    }
    LineTask::start(config, 0, line, BlockBuffer::new())
}

/// Gives a line a reply, and checks the next step.
fn check_step(rt: &impl Abort, task: &mut LineTask<'_>, given: Given, wanted: Step) {
    let step = step_of(&task.next(reply(given)));
    assert_eq!(rt; step, wanted, "{given:?}");
}

/// Gives a line replies, one after another, and checks the step after each.
fn lead(rt: &impl Abort, task: &mut LineTask<'_>, course: &[(Given, Step)]) {
    for (given, wanted) in course {
        check_step(rt, task, *given, *wanted);
    }
}

/// Gives a line the bus at once and the reply to each of some cycles, each at an offset of the
/// first board, and checks the steps.
fn lead_through(rt: &impl Abort, task: &mut LineTask<'_>, cycles: &[(u32, Given)]) {
    let mut given = Given::Nothing;
    for (at, replied) in cycles {
        check_step(rt, task, given, ASK);
        check_step(rt, task, GRANTED, Step::Cycle(0, *at));
        check_step(rt, task, *replied, DONE);
        given = FREED;
    }
    check_step(rt, task, given, Step::End);
}

/// Checks the reply of a line, by reference.
fn check_lent(rt: &impl Abort, task: &LineTask<'_>, wanted: LineReplyRef<'static>) {
    assert_eq!(rt; task.reply(), Some(wanted));
}

/// Checks the reply of a line that has ended: by reference, before and after two more calls of
/// `next`, and then by value.
fn check_reply(rt: &impl Abort, mut task: LineTask<'_>, wanted: LineReplyRef<'static>) {
    check_lent(rt, &task, wanted);
    check_step(rt, &mut task, Given::Nothing, Step::End);
    check_lent(rt, &task, wanted);
    check_step(rt, &mut task, GRANTED, Step::End);
    check_lent(rt, &task, wanted);
    check_taken(rt, &task.into_reply(), wanted);
}

/// Checks a reply by value.
fn check_taken(rt: &impl Abort, taken: &Option<LineReply>, wanted: LineReplyRef<'static>) {
    let lent = match taken {
        Some(reply) => borrowed(reply),
        None => None,
    };
    assert_eq!(rt; lent, Some(wanted));
}

/// Returns a reply by reference, or `None` for the reply of a line that has not ended.
fn borrowed(reply: &LineReply) -> Option<LineReplyRef<'_>> {
    match reply {
        LineReply::Transfer(outcome) => Some(LineReplyRef::Transfer(borrowed_outcome(outcome))),
        LineReply::Refused(fault) => Some(LineReplyRef::Refused(*fault)),
        LineReply::Met => Some(LineReplyRef::Met),
        LineReply::Timeout => Some(LineReplyRef::Timeout),
        LineReply::Shared(outcome) => Some(LineReplyRef::Shared(*outcome)),
        LineReply::Unfinished => None,
    }
}

/// Returns an outcome by reference.
fn borrowed_outcome(outcome: &Outcome) -> OutcomeRef<'_> {
    match outcome {
        Outcome::Read(bytes) => OutcomeRef::Read(bytes.as_slice()),
        Outcome::Done => OutcomeRef::Done,
        Outcome::Old(bytes) => OutcomeRef::Old(bytes.as_slice()),
        Outcome::Berr { count, bytes } => OutcomeRef::Berr {
            count: *count,
            bytes: bytes.as_slice(),
        },
        Outcome::Denied => OutcomeRef::Denied,
    }
}

/// Gives a line of the first board the listed replies, and checks its steps and its reply.
pub fn check_course(
    rt: &impl Abort,
    config: &Config,
    line: usize,
    course: &[(Given, Step)],
    wanted: LineReplyRef<'static>,
) {
    let mut task = started(rt, config, line);
    lead(rt, &mut task, course);
    check_reply(rt, task, wanted);
}

/// Gives a line of the first board the bus for each of the listed cycles, and checks its steps and
/// its reply.
pub fn check_cycles(
    rt: &impl Abort,
    config: &Config,
    line: usize,
    cycles: &[(u32, Given)],
    wanted: LineReplyRef<'static>,
) {
    let mut task = started(rt, config, line);
    lead_through(rt, &mut task, cycles);
    check_reply(rt, task, wanted);
}

/// Returns an empty sink that takes at most `most` bytes a call and fails after `capacity` bytes.
pub fn sink_of(rt: &impl Abort, alloc: Global, most: usize, capacity: usize) -> RoomSink
    requires { 0 < most }
    ensures { is_marked_sink result ≡ false }
{
    match RoomSink::new(alloc, most, capacity) {
        Ok(sink) => sink,
        Err(_) => panic!(rt; "no memory"),
    }
}

/// Checks that a run ended with a status and wrote a text.
pub fn expect_text(
    rt: &impl Abort,
    end: Result<Status, RunFault>,
    status: Status,
    sink: &RoomSink,
    text: &str,
) {
    assert_eq!(rt; end, Ok(status));
    assert_eq!(rt; sink.bytes(), text.as_bytes());
}

/// Checks that a run into a sink that fails after `capacity` bytes wrote just the first `capacity`
/// bytes of a text.
pub fn expect_prefix(
    rt: &impl Abort,
    end: Result<Status, RunFault>,
    sink: &RoomSink,
    text: &str,
    capacity: usize,
) {
    assert_eq!(rt; end, Err(RunFault::Write));
    assert_eq!(rt; Some(sink.bytes()), text.as_bytes().get(..capacity));
}

/// Checks that a run wrote a whole text or, if an allocation failed, a prefix of it.
pub fn expect_text_or_refusal(
    rt: &impl Abort,
    end: Result<Status, RunFault>,
    status: Status,
    sink: &RoomSink,
    text: &str,
) {
    if let Err(fault) = end {
        assert_eq!(rt; fault, RunFault::Memory);
        assert!(rt; text.as_bytes().starts_with(sink.bytes()));
    } else {
        expect_text(rt, end, status, sink, text);
    }
}
