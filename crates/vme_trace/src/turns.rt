//! The turns of a file, one after another.
ghost use Rattle.std.specs.Prelude.{◌≡◌, ◌≤◌, ◌∷◌, [], length, MatchOption};
ghost use Rattle.vme_stepper.specs.Schedules.{file_turns};
ghost use Rattle.vme_trace.specs.Turns.{turns_left, round_left, IsTurnsOf};

use vme_script::Config;

/// Which turns of a configuration's file are left: those of its schedule, and then its rounds over
/// all slots. No list of them is made.
#[derive(Clone, Copy, Debug, PartialEq, Eq)]
pub struct FileTurns {
    /// The slot of the current pair of the schedule.
    slot: u16,
    /// The turns that are left of this pair.
    left: u32,
    /// The index of the next pair.
    pair: usize,
    /// The index of the next board in the current round.
    board: usize,
    /// The rounds after it.
    rounds: u32,
}

impl FileTurns {
    /// Returns all turns of a configuration's file.
    #[tactic(auto, using(crate::proofs::TurnsLeft::all_turns))]
    pub fn new(config: &Config) -> FileTurns
        ensures turns { turns_left config.now result ≡ file_turns config.now }
        ensures board { IsTurnsOf config.now result }
    {
        FileTurns {
            slot: 0,
            left: 0,
            pair: 0,
            board: config.boards(),
            rounds: config.rounds(),
        }
    }

    /// Returns the slot of the next turn, or `None` if no turn is left.
    pub fn next(&mut self, config: &Config) -> Option<u16>
        requires { IsTurnsOf config.now self.old }
        ensures next { MatchOption result (turns_left config.now self.old ≡ [])
            (λ slot. turns_left config.now self.old ≡ slot ∷ turns_left config.now self.new) }
        ensures board { IsTurnsOf config.now self.new }
    {
        self.begin_pair(config);
        if self.left == 0 {
            return self.next_in_round(config);
        }
        self.left -= 1;
        Some(self.slot)
    }

    /// Begins the next pair of the schedule that has turns, if the current pair has none left.
    fn begin_pair(&mut self, config: &Config)
        ensures same { turns_left config.now self.new ≡ turns_left config.now self.old }
        ensures over { self.new.left ≡ 0 → length config.now.schedule ≤ self.new.pair }
        ensures board { self.new.board ≡ self.old.board }
    {
        let schedule = config.schedule();
        while self.left == 0 && self.pair < schedule.len() {
            let (slot, left) = schedule[self.pair];
            self.slot = slot;
            self.left = left;
            self.pair += 1;
        }
    }

    /// Returns the slot of the next turn of the rounds, or `None` if no round is left.
    fn next_in_round(&mut self, config: &Config) -> Option<u16>
        requires board { self.old.board ≤ length config.now.boards }
        requires left { self.old.left ≡ 0 }
        requires pair { length config.now.schedule ≤ self.old.pair }
        ensures next { MatchOption result (turns_left config.now self.old ≡ [])
            (λ slot. turns_left config.now self.old ≡ slot ∷ turns_left config.now self.new) }
        ensures board { self.new.board ≤ length config.now.boards }
    {
        self.begin_round(config);
        if self.board == config.boards() {
            return None;
        }
        let slot = config.slot(self.board);
        self.board += 1;
        Some(slot)
    }

    /// Begins the next round, if the current one is over.
    fn begin_round(&mut self, config: &Config)
        requires { self.old.board ≤ length config.now.boards }
        ensures same { round_left config.now self.new ≡ round_left config.now self.old }
        ensures over { self.new.board ≡ length config.now.boards → self.new.rounds ≡ 0 }
        ensures board { self.new.board ≤ length config.now.boards }
        ensures left { self.new.left ≡ self.old.left }
        ensures pair { self.new.pair ≡ self.old.pair }
    {
        if self.board == config.boards() && self.rounds > 0 {
            self.rounds -= 1;
            self.board = 0;
        }
    }
}
