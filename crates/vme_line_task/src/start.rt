//! The attempt at a line, before its first call.
ghost use Rattle.std.specs.Prelude.{◌≡◌, ◌<◌, ◌≤◌, [], length, Ok};
ghost use Rattle.vme_cycle.specs.BlockBuffers.{inline_capacity};
ghost use Rattle.vme_cycle.specs.declared.request.Request.TheVariants.{Read};
ghost use Rattle.vme_cycle.specs.Requests.{read_len};
ghost use Rattle.vme_cycle.specs.Lawful.{Transfer as LawfulRequest, transfer_of};
ghost use Rattle.vme_script.specs.Boards.{entries_of};
ghost use Rattle.vme_master.specs.Machine.{bus_task};
ghost use Rattle.vme_shared.specs.Mailboxes.{IsWellFormed};
ghost use Rattle.vme_shared.specs.Machine.{shared_task};
ghost use Rattle.vme_line_task.specs.Scripts.{slot_at, level_at, mailbox_at, HasMailbox, HasItsMailbox, Awaiting, transfer_job, request_attempt, shared_job, shared_attempt, line_attempt};
ghost use Rattle.vme_line_task.specs.ReadBuffers.{request_read_len, line_read_len};
ghost use Rattle.vme_line_task.specs.Machine.{fresh_of};

use crate::attempt::AttemptTask;
use crate::wait::AwaitTask;
use vme_cycle::{BlockBuffer, CycleFault, Request};
use vme_grammar::Line;
use vme_lanes::{Datum, copy_bytes};
use vme_master::Task;
use vme_script::Config;
use vme_shared::{Mailbox, SharedRequest, SharedTask};

/// Returns the attempt at a line of a board's processor, or the refusal of its request. A request
/// over the bus reads into `buffer`.
pub(crate) fn attempt_of<'a>(
    config: &'a Config,
    board: usize,
    line: &'a Line,
    buffer: BlockBuffer,
) -> Result<AttemptTask<'a>, CycleFault>
    requires board { board < length config.now.boards }
    requires mailbox { HasItsMailbox config.now line.now }
    requires none { buffer.items ≡ [] }
    requires capacity { line_read_len line.now ≤ buffer.capacity }
    ensures { result ≡ fresh_of (line_attempt config.now board line.now) }
{
    match line {
        Line::Bus(request) => Ok(AttemptTask::Transfer(transfer(config, board, request, buffer)?)),
        Line::Local(cmd) => Ok(AttemptTask::Transfer(Task::local(board, cmd.copy()))),
        Line::Await { am, addr, bytes } => waits(config, board, *am, *addr, bytes),
        Line::Lock { am, addr } => shares(
            config,
            board,
            SharedRequest::Lock {
                am: *am,
                addr: *addr,
            },
        ),
        Line::Unlock { am, addr } => shares(
            config,
            board,
            SharedRequest::Unlock {
                am: *am,
                addr: *addr,
            },
        ),
        Line::Put { mailbox, word } => {
            let mailbox = mailbox_at(config, *mailbox);
            shares(
                config,
                board,
                SharedRequest::Put {
                    mailbox,
                    word: *word,
                },
            )
        }
        Line::Take { mailbox } => {
            let mailbox = mailbox_at(config, *mailbox);
            shares(config, board, SharedRequest::Take { mailbox })
        }
    }
}

/// Returns the task of a request of a board's processor, or the refusal of the request.
pub(crate) fn transfer<'a>(
    config: &Config,
    board: usize,
    request: &'a Request,
    buffer: BlockBuffer,
) -> Result<Task<'a>, CycleFault>
    requires board { board < length config.now.boards }
    requires none { buffer.items ≡ [] }
    requires capacity { request_read_len (transfer_of request.now) ≤ buffer.capacity }
    ensures { result ≡ bus_task (entries_of config.now.boards) (slot_at config.now board)
        (level_at config.now board) (transfer_of request.now) }
{
    let slot = config.slot(board);
    let level = config.level(board);
    Task::start(config.map(), slot, level, request, buffer)
}

/// Returns a read over the bus that waits for these bytes, or the refusal of the read.
fn waits<'a>(
    config: &Config,
    board: usize,
    am: u8,
    addr: u32,
    bytes: &Datum,
) -> Result<AttemptTask<'a>, CycleFault>
    requires { board < length config.now.boards }
    ensures { result
        ≡ fresh_of (request_attempt (λ t. Awaiting (transfer_job config.now board t) bytes.now.items)
        (transfer_of (Read am addr (length bytes.now.items)))) }
{
    let n = bytes.as_slice().len() as u8;
    let task = short_transfer(config, board, Request::Read { am, addr, n })?;
    let want = copy_bytes(bytes);
    Ok(AttemptTask::Await(AwaitTask::of(task, want)))
}

/// Returns the task of a request of a board's processor that reads few bytes, or the refusal of the
/// request.
fn short_transfer<'a>(
    config: &Config,
    board: usize,
    request: Request,
) -> Result<Task<'a>, CycleFault>
    requires board { board < length config.now.boards }
    requires capacity { (t : LawfulRequest) → transfer_of request ≡ Ok t → read_len t.request ≤ inline_capacity }
    ensures { result ≡ bus_task (entries_of config.now.boards) (slot_at config.now board)
        (level_at config.now board) (transfer_of request) }
{
    Task::start_owned(
        config.map(),
        config.slot(board),
        config.level(board),
        request,
    )
}

/// Returns a request to a lock or a mailbox, or its refusal.
fn shares<'a>(
    config: &'a Config,
    board: usize,
    request: SharedRequest,
) -> Result<AttemptTask<'a>, CycleFault>
    requires board { board < length config.now.boards }
    requires request { IsWellFormed request }
    ensures { result ≡ fresh_of (shared_attempt config.now board request) }
{
    let task = shared_task(config, board, request)?;
    Ok(AttemptTask::Shared(task))
}

/// Returns the task of a request to a lock or a mailbox, or its refusal.
fn shared_task<'a>(
    config: &'a Config,
    board: usize,
    request: SharedRequest,
) -> Result<SharedTask<'a>, CycleFault>
    requires board { board < length config.now.boards }
    requires request { IsWellFormed request }
    ensures { result ≡ shared_task (shared_job config.now board request) }
{
    SharedTask::start(
        config.map(),
        config.slot(board),
        config.level(board),
        request,
    )
}

/// Returns the mailbox with a number; numbers start at 1.
fn mailbox_at(config: &Config, number: u8) -> Mailbox
    requires { HasMailbox config.now number }
    ensures { result ≡ mailbox_at config.now number }
{
    config.mailboxes()[usize::from(number) - 1]
}
