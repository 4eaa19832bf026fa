//! Runs by plans.

ghost use Rattle.std.specs.Prelude.{◌≡◌, ◌+◌, ◌<◌, ◌≤◌, ◌^◌, IfOk, OnOk};
ghost use Rattle.plan_runs.specs.Begins.{IsBegun};
ghost use Rattle.plan_runs.specs.Reports.{report_by, report_of, report_of_run};
ghost use Rattle.plan_runs.specs.Runs.{planned, unflipped, ComesTo};
ghost use Rattle.plan_runs.specs.Watches.{StandsAt};
ghost use Rattle.step_engine.specs.TurnRuns.{counts_of, turns_in};
ghost use Rattle.step_machine.specs.Total.{reading};

use crate::moments::take_flips;
use crate::report::Report;
use crate::turn::take_turn;
use crate::watch::Watch;
use agxx_base::Memory;
use flip_plan::Plan;
use step_engine::{Counts, Engine, Turns};
use step_machine::State;
use step_world::Heap;

/// The turns of a plan.
#[derive(Drop)]
struct PlanTurns<'a> {
    plan: &'a Plan,
}

impl<'a> Turns for PlanTurns<'a> {
    ghost use Rattle.flip_plan.specs.Plans.{turn_of};

    ghost thread = { λ turns. turn_of turns.plan.now };

    fn turn(&self, index: u64) -> u32 {
        self.plan.turn(index)
    }
}

/// What is told of a run.
fn report(state: State, counts: Counts, flips: u64) -> Report
    requires { turns_in counts < 2 ^ 64 }
    ensures { result ≡ report_by state (counts_of counts) flips }
{
    Report {
        state,
        turns: counts.source + counts.inserted + counts.blocked + counts.idle,
        source: counts.source,
        inserted: counts.inserted,
        blocked: counts.blocked,
        idle: counts.idle,
        flips,
    }
}

/// The flips before a turn, and the turn.
fn take_moment<H: Heap>(
    engine: &mut Engine<'_, H>,
    plan: &Plan,
    watch: &mut Watch,
    turn: u64,
) -> Result<(), Memory>
    requires few { turns_in watch.old.counts ≤ turn }
    requires room { turn + 1 < 2 ^ 64 }
    ensures comes { OnOk result (ComesTo plan.now turn engine.old watch.old engine.new watch.new) }
    ensures few { OnOk result (turns_in watch.new.counts ≤ turn + 1) }
{
    take_flips(engine, watch, turn)?;
    take_turn(engine, watch, plan.turn(turn))
}

/// The turns of a plan with their flips, while the run goes on.
fn take_moments<H: Heap>(
    engine: &mut Engine<'_, H>,
    plan: &Plan,
    watch: &mut Watch,
) -> Result<(), Memory>
    requires { IsBegun plan.now watch.old }
    ensures runs { OnOk result (StandsAt (planned plan.now engine.old) engine.new watch.new) }
    ensures few { OnOk result (turns_in watch.new.counts < 2 ^ 64) }
{
    for turn in 0..plan.limit() {
        if !engine.is_running() {
            return Ok(());
        }
        take_moment(engine, plan, watch, turn)?;
    }
    Ok(())
}

/// Runs an engine by a plan: before each turn the flips of its moment fall, and those that waited and are admissible
/// now; and the run goes on while it is running, for as many turns as the plan has at most.
pub fn run_plan<H: Heap>(
    engine: &mut Engine<'_, H>,
    plan: &Plan,
    watch: &mut Watch,
) -> Result<Report, Memory>
    requires { IsBegun plan.now watch.old }
    ensures total { OnOk result (reading engine.new ≡ (planned plan.now engine.old).total) }
    ensures output { OnOk result (engine.new.world.output ≡ (planned plan.now engine.old).total.output) }
    ensures report { IfOk result (λ report. report ≡ report_of_run (planned plan.now engine.old)) }
    ensures erased { OnOk result (watch.new.erased ≡ (planned plan.now engine.old).erased) }
    ensures verdict { OnOk result (watch.new.verdict ≡ (planned plan.now engine.old).verdict) }
{
    take_moments(engine, plan, watch)?;
    Ok(report(engine.state(), watch.counts(), watch.changes()))
}

/// Runs an engine by a plan with its flips set aside.
pub fn run_unflipped<H: Heap>(engine: &mut Engine<'_, H>, plan: &Plan) -> Result<Report, Memory>
    ensures machine { OnOk result (engine.new ≡ (unflipped plan.now engine.old).0) }
    ensures report { IfOk result (λ report. report ≡ report_of (unflipped plan.now engine.old) 0) }
{
    let counts = engine.run(&PlanTurns { plan }, plan.limit())?;
    Ok(report(engine.state(), counts, 0))
}
