//! The end of a run: the array of ports is settled with the passes of all workers.
ghost use Rattle.std.specs.Prelude.{ℕ, ◌≡◌, ◌<◌, ◌≤◌, length, map, slice_index_or, vec_len, vec_capacity, All};
ghost use Rattle.vme_object.specs.Each.{AllAt};
ghost use Rattle.vme_script.specs.Configurations.{Configuration};
ghost use Rattle.vme_threads.specs.RunBuffers.{AreForCounts};
ghost use Rattle.vme_threads.specs.Reports.{CanGather};
ghost use Rattle.vme_threads.specs.OneOrder.{IsReportOfOneOrder};
ghost use Rattle.vme_threads.specs.Gatherings.{IsBoardHome, IsEntryOfHome, IsGatheredFrom};

use crate::ports::Ports;
use crate::processor_pass::ProcessorPass;
use crate::report::{BoardReport, Report};
use crate::run_buffers::{PassBuffers, ReportBuffers};
use crate::worker::Ran;
use std::alloc::Global;
use std::mem;
use vme_bus_objects::BusObject;
use vme_port::Home;
use vme_port_array::Pass;
use vme_shared::LineReply;

/// Appends the pass, the counts and the lines of each finished worker, in order.
fn collect_passes(
    rans: Vec<Ran>,
    passes: &mut Vec<Pass<BusObject>>,
    counts: &mut Vec<Vec<u64>>,
    lines: &mut Vec<Vec<(u16, LineReply)>>,
)
    requires passes { vec_len passes.old ≡ 0 }
    requires passes_capacity { vec_len rans ≤ vec_capacity passes.old }
    requires counts { vec_len counts.old ≡ 0 }
    requires counts_capacity { vec_len rans ≤ vec_capacity counts.old }
    requires lines { vec_len lines.old ≡ 0 }
    requires lines_capacity { vec_len rans ≤ vec_capacity lines.old }
    ensures passes { passes.new.items ≡ map (λ r. r.processor_pass.pass) rans.items }
    ensures counts { counts.new.items ≡ map (λ r. r.processor_pass.made) rans.items }
    ensures lines { lines.new.items ≡ map (λ r. r.lines) rans.items }
{
    for ran in rans {
        let Ran {
            processor_pass,
            lines: answered,
        } = ran;
        let ProcessorPass {
            who: _,
            boards: _,
            pass,
            made,
            wait_state: _wait_state,
        } = processor_pass;
        passes.push_reserved(pass);
        counts.push_reserved(made);
        lines.push_reserved(answered);
    }
}

/// Appends how often each worker called the object at `index`. `counts` has the counts of each
/// worker, in order.
fn collect_counts(counts: &Vec<Vec<u64>>, index: usize, made: &mut Vec<u64>)
    requires within { All (λ own. index < vec_len own) counts.now.items }
    requires none { vec_len made.old ≡ 0 }
    requires capacity { vec_len counts.now ≤ vec_capacity made.old }
    ensures { made.new.items ≡ map (λ own. slice_index_or own.items index 0) counts.now.items }
{
    for own in counts {
        made.push_reserved(own[index]);
    }
}

/// Returns the report's entry for the board at index `board`. `home` is that board after the array
/// was settled, `counts` has the counts of each worker, and `made` is empty.
fn report_board(
    board: usize,
    slot: u16,
    home: Home<BusObject>,
    counts: &Vec<Vec<u64>>,
    mut made: Vec<u64>,
) -> BoardReport
    requires is { IsBoardHome home }
    requires within { All (λ own. board < vec_len own) counts.now.items }
    requires none { vec_len made ≡ 0 }
    requires capacity { vec_len counts.now ≤ vec_capacity made }
    ensures { IsEntryOfHome counts.now.items board slot home result }
{
    collect_counts(counts, board, &mut made);
    let (object, steps) = home.into_parts();
    let BusObject::Board(memory) = object else {
        unreachable!()
    };
    BoardReport {
        slot,
        memory,
        steps,
        made,
    }
}

/// Appends the report's entries for all boards. `homes` are the boards after the array was settled,
/// `counts` has the counts of each worker, and `made` has an empty buffer for each board.
fn report_boards(
    alloc: Global,
    slots: &Vec<u16>,
    homes: Vec<Home<BusObject>>,
    counts: &Vec<Vec<u64>>,
    made: &mut Vec<Vec<u64>>,
    ends: &mut Vec<BoardReport>,
)
    requires slots { vec_len slots.now ≡ vec_len homes }
    requires boards { All IsBoardHome homes.items }
    requires within { All (λ own. vec_len homes ≤ vec_len own) counts.now.items }
    requires made_count { vec_len made.old ≡ vec_len homes }
    requires made { AreForCounts (vec_len counts.now) made.old.items }
    requires none { vec_len ends.old ≡ 0 }
    requires capacity { vec_len homes ≤ vec_capacity ends.old }
    ensures { AllAt (λ x home end. (d : ℕ) →
        IsEntryOfHome counts.now.items x (slice_index_or slots.now.items x d) home end)
        homes.items ends.new.items }
{
    for home in homes {
        let board = ends.len();
        let made = mem::replace(&mut made[board], Vec::new(alloc));
        ends.push_reserved(report_board(board, slots[board], home, counts, made));
    }
}

/// Ends a run: settles the array of ports with the passes of all workers, and returns the report.
/// `rans` are the finished workers of these ports, one for each board, in order. It allocates
/// nothing.
pub fn gather(ports: Ports, rans: Vec<Ran>) -> Report
    requires { (config : Configuration) × CanGather config ports rans.items }
    ensures gathered { (config : Configuration) → CanGather config ports rans.items →
        IsGatheredFrom config rans.items result }
    ensures one_order { (config : Configuration) → CanGather config ports rans.items →
        IsReportOfOneOrder config result }
{
    let Ports {
        array,
        slots,
        waiters: _waiters,
        report_buffers,
        buffers,
        stop: _stop,
        alloc,
    } = ports;
    let ReportBuffers {
        mut lines,
        boards: mut ends,
        mut counts,
        mut made,
        mut bus_made,
    } = report_buffers;
    let PassBuffers {
        mut passes,
        mut homes,
    } = buffers.into_inner();
    collect_passes(rans, &mut passes, &mut counts, &mut lines);
    let Ok(()) = array.settle(passes, &mut homes) else {
        unreachable!()
    };
    let Some(arbiter) = homes.pop() else {
        unreachable!()
    };
    collect_counts(&counts, slots.len(), &mut bus_made);
    report_boards(alloc, &slots, homes, &counts, &mut made, &mut ends);
    let (_object, arbiter_steps) = arbiter.into_parts();
    Report {
        lines,
        boards: ends,
        arbiter_steps,
        arbiter_made: bus_made,
    }
}
