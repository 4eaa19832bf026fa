//! Plans.

ghost use Rattle.std.specs.Prelude.{◌≡◌, ◌∷◌, [], IfOk, OnOk};
ghost use Rattle.flip_plan.specs.Plans as spec;
ghost use Rattle.flip_plan.specs.Plans.{turn_of, IsNumbered};
ghost use Rattle.flip_plan.specs.Reading as reading;

use crate::build::{add_flip, add_items, default_cycle};
use crate::flip::PlannedFlip;
use crate::line::{Line, LineKind};
use crate::numbers::number_at;
use crate::runs::Runs;
use agxx_base::{ListOf, Memory};
use std::alloc::Global;
use std::marker::Model;

/// How many turns a run has at most, whose turns they are, and what flips.
#[derive(Drop)]
pub struct Plan {
    limit: u64,
    turns: Runs,
    cycle: Runs,
    flips: ListOf<PlannedFlip>,
}

impl Model for Plan {
    ghost use Rattle.flip_plan.specs.Plans.{PlanMeaning, IsNumbered};

    ghost Value = { PlanMeaning };

    ghost view = { λ p. record { limit = p.limit; turns = p.turns; cycle = p.cycle; flips = p.flips } };

    ghost invariant = { λ p. IsNumbered 1 p.flips };
}

fn cycle_at(cycle: &Runs, index: u64) -> u32
    ensures { result ≡ spec.cycle_at cycle.now index }
{
    let total = cycle.total();
    if total == 0 {
        return 0;
    }
    match cycle.thread_at(index % total) {
        None => 0,
        Some(thread) => thread,
    }
}

impl Plan {
    /// No turns and no flips, which takes no memory.
    pub(crate) fn empty(alloc: Global) -> Plan
        ensures { result ≡ reading.nothing_planned }
    {
        Plan {
            limit: 0,
            turns: Runs::new(alloc),
            cycle: Runs::new(alloc),
            flips: ListOf::new(alloc),
        }
    }

    /// Adds what a line gives.
    #[tactic(auto, using(crate::proofs::Rooms::behind_few), unfolding(crate::specs::Reading::with_line))]
    pub(crate) fn add_line(&mut self, line: &Line) -> Result<(), Memory>
        requires { reading.HasRoomFor self.old (line.now ∷ []) }
        ensures { OnOk result (self.new ≡ reading.with_line self.old line.now) }
    {
        match line.kind() {
            LineKind::Limit => {
                self.limit = number_at(line.behind(), 0) as u64;
                Ok(())
            }
            LineKind::Turns => add_items(&mut self.turns, line.behind()),
            LineKind::Cycle => add_items(&mut self.cycle, line.behind()),
            LineKind::Flip => add_flip(&mut self.flips, false, line.behind()),
            LineKind::Free => add_flip(&mut self.flips, true, line.behind()),
            _ => Ok(()),
        }
    }

    /// Gives the default cycle where there is none.
    pub(crate) fn complete(&mut self, alloc: Global) -> Result<(), Memory>
        ensures { OnOk result (self.new ≡ reading.with_cycle self.old) }
    {
        if self.cycle.total() == 0 {
            self.cycle = default_cycle(alloc)?;
        }
        Ok(())
    }

    /// How many turns a run has at most.
    pub fn limit(&self) -> u64
        ensures { result ≡ self.now.limit }
    {
        self.limit
    }

    /// The thread whose turn it is. Turns count from 0. It takes no memory, and time logarithmic in the number of
    /// items.
    pub fn turn(&self, index: u64) -> u32
        ensures { result ≡ turn_of self.now index }
    {
        match self.turns.thread_at(index) {
            Some(thread) => thread,
            None => cycle_at(&self.cycle, index.saturating_sub(self.turns.total())),
        }
    }

    /// The flips, in the order of their lines.
    pub fn flips(&self) -> &[PlannedFlip]
        ensures flips { result.now ≡ self.now.flips }
        ensures numbered { IsNumbered 1 self.now.flips }
    {
        self.flips.as_slice()
    }
}

/// The plan where none is given: 1,000,000 turns, of threads 0 to 7 again and again.
pub fn default_plan(alloc: Global) -> Result<Plan, Memory>
    ensures { IfOk result (λ plan. plan ≡ spec.default_plan) }
{
    Ok(Plan {
        limit: 1_000_000,
        turns: Runs::new(alloc),
        cycle: default_cycle(alloc)?,
        flips: ListOf::new(alloc),
    })
}
