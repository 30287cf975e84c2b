ghost use Rattle.std.specs.Prelude.{ℕ, ◌≡◌, ◌<◌, ◌≤◌, ◌+◌, IfOk, length, replicate, vec_len, vec_capacity};
ghost use Rattle.vme_line_task.specs.ReadBuffers.{buffers_of};

use crate::gate::Gate;
use crate::ports::Ports;
use crate::processor_pass::ProcessorPass;
use std::alloc::{AllocError, Global};
use std::sync::Wait;
use std::sync::atomic::Ordering;
use vme_bus_objects::BusObject;
use vme_bus_wait::WaitState;
use vme_line_task::{ReadBuffers, line_count};
use vme_port_array::Pass;
use vme_report::RunFault;
use vme_script::{Config, Script};
use vme_shared::LineReply;

/// The unused places behind the counts of a processor. They keep the counts of two processors out
/// of one pair of cache lines of 64 bytes, which processors often fetch together.
const COUNTS_APART: usize = 32;

/// A processor before its script: its pass, a buffer for what each line reads, and a buffer for
/// the replies.
#[derive(Drop)]
pub struct Worker {
    pub(crate) processor_pass: ProcessorPass,
    pub(crate) buffers: ReadBuffers,
    pub(crate) lines: Vec<(u16, LineReply)>,
}

/// A processor after its script: its pass, and the number of each line with the reply to that
/// line.
#[derive(Drop)]
pub struct Ran {
    pub(crate) processor_pass: ProcessorPass,
    pub(crate) lines: Vec<(u16, LineReply)>,
}

impl Worker {
    ghost use Rattle.vme_threads.specs.Ports.{IsBuilt, IsWorkerOf};
    ghost use Rattle.vme_threads.specs.Rans.{IsEndOfRun};

    /// Returns the worker of a pass, with the number of the pass. It allocates the counts of
    /// `boards` boards and the arbiter, with `COUNTS_APART` unused places behind them, and the
    /// buffers for what each line of the script reads and for the replies.
    ///
    /// # Errors
    /// `AllocError` if an allocation fails.
    pub(crate) fn new(
        alloc: Global,
        boards: usize,
        script: &Script,
        pass: Pass<BusObject>,
    ) -> Result<Worker, AllocError>
        requires { boards ≤ 21 }
        ensures who { IfOk result (λ w. w.processor_pass.who ≡ pass.who) }
        ensures boards { IfOk result (λ w. w.processor_pass.boards ≡ boards) }
        ensures pass { IfOk result (λ w. w.processor_pass.pass ≡ pass) }
        ensures made { IfOk result (λ w.
            w.processor_pass.made.items ≡ replicate {A = ℕ} (boards + 1) 0) }
        ensures lines { IfOk result (λ w. vec_len w.lines ≡ 0) }
        ensures lines_capacity { IfOk result (λ w. length script.now ≤ vec_capacity w.lines) }
        ensures buffers { IfOk result (λ w. w.buffers ≡ buffers_of script.now) }
    {
        let mut made = vec![in alloc; 0u64; boards + 1]?;
        made.reserve(COUNTS_APART)?;
        let lines = Vec::with_capacity(alloc, script.len())?;
        let buffers = ReadBuffers::new(alloc, script)?;
        let processor_pass = ProcessorPass {
            who: pass.who(),
            boards,
            pass,
            made,
            wait_state: WaitState::new(),
        };
        Ok(Worker {
            processor_pass,
            buffers,
            lines,
        })
    }

    /// Runs the script of the processor on the caller's thread, line by line, and calls the gate
    /// before and after each line. It may wait for the bus and for ports.
    ///
    /// # Errors
    /// `Spent` if an object has made 2^64 - 1 steps, or if the workers of these ports have to stop.
    /// All workers of these ports then stop before their next event, and the pass is dropped.
    pub fn run<R: Wait, G: Gate>(
        self,
        rt: &R,
        config: &Config,
        ports: &Ports,
        gate: &G,
    ) -> Result<Ran, RunFault>
        requires built { IsBuilt config.now ports.now }
        requires worker { IsWorkerOf config.now ports.now self.processor_pass.who self }
        requires board { self.processor_pass.who < length config.now.boards }
        ensures { IsEndOfRun config.now ports.now self.processor_pass.who result }
    {
        let Worker {
            mut processor_pass,
            mut buffers,
            mut lines,
        } = self;
        let slot = config.slot(processor_pass.who);
        for line in 0..line_count(config, processor_pass.who) {
            let number = config.script(processor_pass.who).number(line);
            let buffer = buffers.take();
            gate.before(slot, number);
            let Ok(answer) = processor_pass.run_line(rt, config, ports, line, buffer) else {
                ports.stop.store(true, Ordering::SeqCst);
                return Err(RunFault::Spent);
            };
            gate.after(slot, number);
            lines.push_reserved((number, answer));
        }
        Ok(Ran {
            processor_pass,
            lines,
        })
    }
}
