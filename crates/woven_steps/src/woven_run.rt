//! Runs of woven programs.

ghost use Rattle.std.specs.Prelude.{◌≡◌, IfOk, OnOk, OnErr};
ghost use Rattle.plan_runs.specs.Begins.{IsBegun};
ghost use Rattle.plan_runs.specs.Outputs.{WritesOutput};
ghost use Rattle.plan_runs.specs.Reports.{report_of_run};
ghost use Rattle.plan_runs.specs.Runs.{planned};
ghost use Rattle.step_machine.specs.Total.{reading};
ghost use Rattle.step_machine.specs.Machine.{next};
ghost use Rattle.step_machine.specs.Start.{start};

use crate::ListWords;
use agxx_base::{Memory, Sink};
use flip_plan::Plan;
use plan_runs::{Report, RunError, Watch, run_plan, write_output};
use std::alloc::Global;
use std::marker::Model;
use step_engine::Engine;
use step_machine::{State, StepKind};
use step_setting::Setting;
use step_world::Objects;

/// A run of a woven program, whose objects are lists of words.
#[derive(Drop)]
pub struct WovenRun<'p> {
    engine: Engine<'p, Objects<ListWords>>,
}

impl<'p> Model for WovenRun<'p> {
    ghost use Rattle.cxx_core.specs.Codes.{core_codes};
    ghost use Rattle.std.specs.Coded.{codes};
    ghost use Rattle.step_machine.specs.Machine.{Machine};

    ghost Value = { Machine };

    ghost coded = { Prim.hlevel (codes, core_codes) };

    ghost view = { λ run. run.engine };
}

impl<'p> WovenRun<'p> {
    /// A run before its first turn.
    pub fn start(alloc: Global, setting: &'p Setting<'p>) -> Result<WovenRun<'p>, Memory>
        ensures { IfOk result (λ run. run ≡ start setting.now) }
    {
        let engine = Engine::start(alloc, setting, Objects::new(alloc))?;
        Ok(WovenRun { engine })
    }

    /// One turn of a thread. After `Memory` the run is lost: each later turn is idle.
    pub fn step(&mut self, thread: u32) -> Result<StepKind, Memory>
        ensures ok { IfOk result (λ kind. (self.new, kind) ≡ next self.old thread) }
        ensures err { OnErr result (self.new.state ≡ State.Lost) }
    {
        self.engine.step(thread)
    }

    /// What has become of the run.
    pub fn state(&self) -> State
        ensures { result ≡ self.now.state }
    {
        self.engine.state()
    }

    /// All that was printed.
    pub fn output(&self) -> &[u8]
        ensures { result.now ≡ self.now.world.output }
    {
        self.engine.output()
    }

    /// Runs a plan from the start on and writes the output. After an error neither the run nor the watch is to be used
    /// any more.
    #[tactic(auto, using(plan_runs::proofs::Outputs::writes_nothing))]
    pub fn run<O: Sink>(
        &mut self,
        plan: &Plan,
        sink: &mut O,
        watch: &mut Watch,
    ) -> Result<Report, RunError>
        // No turn was taken.
        requires begun { self.old ≡ start self.old.setting }
        requires new { IsBegun plan.now watch.old }
        ensures total { OnOk result (reading self.new ≡ (planned plan.now self.old).total) }
        ensures report { IfOk result (λ report. report ≡ report_of_run (planned plan.now self.old)) }
        ensures erased { OnOk result (watch.new.erased ≡ (planned plan.now self.old).erased) }
        ensures verdict { OnOk result (watch.new.verdict ≡ (planned plan.now self.old).verdict) }
        ensures output { WritesOutput (O.taken sink.old) (O.taken sink.new)
            (planned plan.now self.old).total.output (O.faults sink.old) (O.faults sink.new) result }
    {
        let Ok(report) = run_plan(&mut self.engine, plan, watch) else {
            return Err(RunError::Memory);
        };
        write_output(report, self.engine.output(), sink)
    }
}
