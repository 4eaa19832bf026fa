//! Runs by turns.

ghost use Rattle.std.specs.Prelude.{◌≡◌, ◌+◌, ◌<◌, ◌≤◌, ◌^◌, IfOk};
ghost use Rattle.step_machine.specs.Runs.{counted, nothing_counted};
ghost use Rattle.step_engine.specs.TurnRuns.{is_running, run_of, counts_of, turns_in};

use crate::engine::Engine;
use agxx_base::Memory;
use step_machine::{State, StepKind};
use step_world::Heap;

/// How many turns of a run were of each kind.
#[derive(Clone, Copy, Debug, PartialEq, Eq)]
pub struct Counts {
    pub source: u64,
    pub inserted: u64,
    pub blocked: u64,
    pub idle: u64,
}

/// Which thread takes each turn, counted from 0.
pub trait Turns {
    ghost use Rattle.std.specs.Prelude.{ℕ};

    /// The number of the thread.
    ghost thread: { Self → ℕ → ℕ };

    /// The thread that takes a turn.
    fn turn(&self, index: u64) -> u32
        ensures { result ≡ thread self.now index };
}

impl Counts {
    /// No turns.
    pub fn new() -> Counts
        ensures { counts_of result ≡ nothing_counted }
    {
        Counts {
            source: 0,
            inserted: 0,
            blocked: 0,
            idle: 0,
        }
    }

    /// One more turn.
    pub fn add(&mut self, kind: StepKind)
        requires { turns_in self.old + 1 < 2 ^ 64 }
        ensures { counts_of self.new ≡ counted kind (counts_of self.old) }
    {
        match kind {
            StepKind::Source => self.source += 1,
            StepKind::Inserted => self.inserted += 1,
            StepKind::Blocked => self.blocked += 1,
            StepKind::Idle => self.idle += 1,
        }
    }
}

impl<'p, H: Heap> Engine<'p, H> {
    /// Whether the run goes on.
    pub fn is_running(&self) -> bool
        ensures { result ≡ is_running self.now.state }
    {
        matches!(self.state(), State::Running)
    }

    /// Takes turns while the run goes on, so many at most, and counts them. After `Memory` the run is lost.
    #[tactic(auto, using(crate::proofs::Overs::over_at))]
    pub fn run<T: Turns>(&mut self, turns: &T, limit: u64) -> Result<Counts, Memory>
        ensures ran { IfOk result (λ counts.
            (self.new, counts_of counts) ≡ run_of (T.thread turns.now) limit self.old) }
        ensures few { IfOk result (λ counts. turns_in counts ≤ limit) }
    {
        let mut counts = Counts::new();
        for index in 0..limit {
            if !self.is_running() {
                return Ok(counts);
            }
            let kind = self.step(turns.turn(index))?;
            counts.add(kind);
        }
        Ok(counts)
    }
}
