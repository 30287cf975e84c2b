//! The local port of a board.
ghost use Rattle.std.specs.Prelude.{◌≡◌, ◌&&◌, IfSome, is_some};
ghost use Rattle.vme_memory.specs.Classes.{is_local_len};

use crate::board::ByteMemory;
use crate::command::BoardCmd;
use crate::reply::Reply;
use vme_cycle::Modify;
use vme_lanes::Datum;

impl ByteMemory {
    ghost use Rattle.vme_memory.specs.Steps as Steps;
    ghost use Rattle.vme_memory.specs.Steps.{fits, step};
    ghost use Rattle.vme_memory.specs.Locals.{answer_given, only_reads};

    /// Returns the reply to a command by either port. The reply and the new memory are those of the
    /// command. After `Berr` nothing has changed. The local port accepts any offset and ignores the
    /// board's class.
    #[tactic(auto, unfolding(crate::specs::Locals::answer_given, crate::specs::Steps::cycle))]
    pub fn local(&mut self, command: &BoardCmd) -> Reply
        ensures reply { result ≡ (answer_given self.old command.now).0 }
        ensures memory { self.new ≡ (answer_given self.old command.now).1 }
        ensures berr { result ≡ Reply.Berr → self.new ≡ self.old }
    {
        match command {
            BoardCmd::LocalRead { offset, n } => self.local_read(*offset, *n),
            BoardCmd::LocalWrite { offset, bytes } => self.local_write(*offset, bytes),
            BoardCmd::LocalModify { offset, n, f } => self.local_modify(*offset, *n, f),
            BoardCmd::Cycle { signals, at, f } => self.cycle(signals, *at, f.as_ref()),
        }
    }

    /// Returns the reply to a command that only reads, as `local` does, without changing anything;
    /// `None` for the other commands.
    #[tactic(auto, unfolding(crate::specs::Locals::answer_given, crate::specs::Steps::cycle))]
    pub fn peek(&self, command: &BoardCmd) -> Option<Reply>
        ensures reply { IfSome result (λ reply. (reply, self.now) ≡ answer_given self.now command.now) }
        ensures reads { is_some result ≡ only_reads command.now }
    {
        match command {
            BoardCmd::LocalRead { offset, n } => Some(self.local_read(*offset, *n)),
            BoardCmd::Cycle {
                signals,
                at,
                f: None,
            } if signals.write() => Some(self.read_cycle(signals, *at)),
            _ => None,
        }
    }

    fn local_read(&self, at: u32, n: u8) -> Reply
        ensures reply { result ≡ (step self.now (Steps.LocalRead at n)).0 }
        ensures memory { self.now ≡ (step self.now (Steps.LocalRead at n)).1 }
    {
        if !self.is_local_place(at, n) {
            return Reply::Berr;
        }
        Reply::Bytes(self.storage.datum(at, n))
    }

    fn local_write(&mut self, at: u32, bytes: &Datum) -> Reply
        ensures reply { result ≡ (step self.old (Steps.LocalWrite at bytes.now.items)).0 }
        ensures memory { self.new ≡ (step self.old (Steps.LocalWrite at bytes.now.items)).1 }
    {
        if !self.is_local_place(at, bytes.as_slice().len() as u8) {
            return Reply::Berr;
        }
        self.storage.overwrite(at, bytes.as_slice());
        Reply::Done
    }

    fn local_modify(&mut self, at: u32, n: u8, f: &Modify) -> Reply
        ensures reply { result ≡ (step self.old (Steps.LocalModify at n f.now)).0 }
        ensures memory { self.new ≡ (step self.old (Steps.LocalModify at n f.now)).1 }
    {
        if !self.is_local_place(at, n) {
            return Reply::Berr;
        }
        if !f.has_len(n) {
            return Reply::Berr;
        }
        let old = self.storage.datum(at, n);
        let new = f.value(&old);
        self.storage.overwrite(at, new.as_slice());
        Reply::Bytes(old)
    }

    /// Whether the local port reaches `n` bytes at `at`.
    fn is_local_place(&self, at: u32, n: u8) -> bool
        ensures { result ≡ (fits self.now at n && is_local_len n) }
    {
        self.fits(at, n) && (n == 1 || n == 2 || n == 4)
    }
}
