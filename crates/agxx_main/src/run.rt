//! The run of a program that is accepted.

ghost use Rattle.std.specs.Prelude.{◌≡◌, IfOk};
ghost use Rattle.cxx_tree.specs.ProgramTree.{program_tree};
ghost use Rattle.agxx_main.specs.RunAnswers as spec;

use crate::answer::Answer;
use crate::buffer::Buffer;
use crate::summary::{run_status, summary, woven_summary};
use crate::way::Way;
use agxx_base::{Memory, Names, Text};
use cxx_elaborate::elaborate;
use cxx_names::Declared;
use cxx_tree::Program;
use fault_model::Verdict;
use flip_plan::Plan;
use plan_runs::{Report, RunError, Watch};
use source_steps::SourceRun;
use std::alloc::Global;
use step_machine::State;
use step_setting::Setting;
use woven_steps::WovenRun;

/// What a run comes to that printed this and tells this.
fn answer_run(state: State, out: Text, diag: Text) -> Answer
    ensures { result ≡ record { status = spec.run_status state; out = out; diag = diag } }
{
    Answer {
        status: run_status(state),
        out,
        diag,
    }
}

/// What the run of a woven program comes to.
fn answer_woven(
    alloc: Global,
    file: &Text,
    setting: &Setting,
    out: Text,
    report: Report,
    verdict: Verdict,
) -> Result<Answer, Memory>
    ensures { IfOk result (λ answer. answer ≡
        spec.told_answer file.now setting.now out report verdict) }
{
    let diag = woven_summary(alloc, file.bytes(), setting, report, verdict)?;
    Ok(answer_run(report.state, out, diag))
}

/// Runs a woven program.
fn run_woven(alloc: Global, plan: &Plan, file: &Text, setting: &Setting) -> Result<Answer, Memory>
    ensures { IfOk result (λ answer. answer ≡ spec.woven_run_answer plan.now file.now setting.now) }
{
    let mut run = WovenRun::start(alloc, setting)?;
    let mut watch = Watch::new(alloc, plan)?;
    let mut out = Buffer::new(alloc);
    match run.run(plan, &mut out, &mut watch) {
        Ok(report) => {
            let verdict = watch.verdict();
            answer_woven(alloc, file, setting, out.into_text(), report, verdict)
        }
        Err(RunError::Memory | RunError::WriteFault) => Err(Memory),
    }
}

/// Runs a source.
fn run_source(alloc: Global, plan: &Plan, file: &Text, setting: &Setting) -> Result<Answer, Memory>
    ensures { IfOk result (λ answer. answer ≡ spec.source_run_answer plan.now file.now setting.now) }
{
    let mut run = SourceRun::start(alloc, setting)?;
    let mut out = Buffer::new(alloc);
    match run.run(plan, &mut out) {
        Ok(report) => {
            let diag = summary(alloc, file.bytes(), setting, report)?;
            Ok(answer_run(report.state, out.into_text(), diag))
        }
        Err(RunError::Memory | RunError::WriteFault) => Err(Memory),
    }
}

/// Runs a program in the way that is asked for.
fn run_setting(alloc: Global, way: &Way, file: &Text, setting: &Setting) -> Result<Answer, Memory>
    ensures { IfOk result (λ answer. answer ≡ spec.run_answer way.now file.now setting.now) }
{
    match way {
        Way::Woven(plan) => run_woven(alloc, plan, file, setting),
        Way::Source(plan) => run_source(alloc, plan, file, setting),
    }
}

/// The answer for a program in normal form that violates no rule.
pub(crate) fn run(
    alloc: Global,
    way: &Way,
    file: &Text,
    names: &Names,
    program: &Program,
) -> Result<Answer, Memory>
    ensures { IfOk result (λ answer.
        answer ≡ spec.way_answer way.now file.now names.now (program_tree program.now)) }
{
    let declared = Declared::of(alloc, names, program)?;
    let core = elaborate(alloc, names, &declared, program)?;
    let setting = Setting::of(alloc, names, &core)?;
    run_setting(alloc, way, file, &setting)
}
