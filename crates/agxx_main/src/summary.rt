//! What a run tells on standard error.

ghost use Rattle.std.specs.Prelude.{◌≡◌, slice_get, IfOk};
ghost use Rattle.step_machine.specs.Setting.{class_at};
ghost use Rattle.agxx_main.specs.RunAnswers as spec;

use crate::line::Line;
use agxx_base::{ClassId, Memory, NameId, ObjectId, Status, Text};
use fault_model::Verdict;
use plan_runs::Report;
use std::alloc::Global;
use step_machine::{State, Stop};
use step_setting::Setting;

/// The status of a run.
pub(crate) fn run_status(state: State) -> Status
    ensures { result ≡ spec.run_status state }
{
    match state {
        State::Ended(_) => Status::Done,
        State::Stopped(_, _) => Status::Stopped,
        State::Halted(_, _) => Status::Halted,
        _ => Status::Unfinished,
    }
}

fn cause_text(cause: Stop) -> &'static str
    ensures { result.now ≡ spec.cause_text cause }
{
    match cause {
        Stop::Overflow => "Overflow",
        Stop::ZeroDivisor => "ZeroDivisor",
        Stop::Shift => "Shift",
        Stop::Null => "Null",
        Stop::Dead => "Dead",
        Stop::WrongDelete => "WrongDelete",
        Stop::Busy => "Busy",
        Stop::SelfLock => "SelfLock",
        Stop::NotHeld => "NotHeld",
        Stop::NotJoinable => "NotJoinable",
        Stop::Joinable => "Joinable",
        Stop::NoReturn => "NoReturn",
        Stop::Objects => "Objects",
        Stop::Threads => "Threads",
        Stop::Depth => "Depth",
        Stop::Output => "Output",
    }
}

/// The text of a name, or none where it has no such number.
fn name_text<'p>(setting: &Setting<'p>, name: NameId) -> &'p [u8]
    ensures { result.now ≡ spec.text_or_none (slice_get setting.now.names name.0) }
{
    let names = setting.names();
    if (name.0 as usize) < names.len() {
        names.text_of(name)
    } else {
        b"".as_slice()
    }
}

fn class_text<'p>(setting: &Setting<'p>, class: ClassId) -> &'p [u8]
    ensures { result.now ≡ spec.class_text setting.now (class_at setting.now class) }
{
    match setting.program().classes.as_slice().get(class.0 as usize) {
        None => b"".as_slice(),
        Some(class) => name_text(setting, class.name.item),
    }
}

fn halted_text(
    alloc: Global,
    setting: &Setting,
    object: Option<ObjectId>,
    class: Option<ClassId>,
) -> Result<Text, Memory>
    ensures { IfOk result (λ text. text ≡ spec.halted_text setting.now object class) }
{
    let mut line = Line::new(alloc);
    match (object, class) {
        (Some(object), Some(class)) => {
            line.text(b"halted object ".as_slice())?;
            line.number(u64::from(object.0))?;
            line.text(b" part ".as_slice())?;
            line.text(class_text(setting, class))?;
            Ok(line.whole())
        }
        _ => {
            line.text(b"halted".as_slice())?;
            Ok(line.whole())
        }
    }
}

/// What has become of a run.
fn state_text(alloc: Global, file: &[u8], setting: &Setting, state: State) -> Result<Text, Memory>
    ensures { IfOk result (λ text. text ≡ spec.state_text file.now setting.now state) }
{
    let mut line = Line::new(alloc);
    match state {
        State::Ended(value) => {
            line.text(b"ended ".as_slice())?;
            line.signed(value)?;
            Ok(line.whole())
        }
        State::Stopped(cause, at) => {
            line.text(b"stopped ".as_slice())?;
            line.text(cause_text(cause).as_bytes())?;
            line.text(b" ".as_slice())?;
            line.text(file)?;
            line.text(b":".as_slice())?;
            line.number(u64::from(at.line))?;
            line.text(b":".as_slice())?;
            line.number(u64::from(at.column))?;
            Ok(line.whole())
        }
        State::Halted(object, class) => halted_text(alloc, setting, object, class),
        _ => {
            line.text(b"running".as_slice())?;
            Ok(line.whole())
        }
    }
}

/// How many turns there were, of each kind, and how many flips changed a bit.
fn turns_text(alloc: Global, report: Report) -> Result<Text, Memory>
    ensures { IfOk result (λ text. text ≡ spec.turns_text report) }
{
    let mut line = Line::new(alloc);
    line.text(b"turns ".as_slice())?;
    line.number(report.turns)?;
    line.text(b" source ".as_slice())?;
    line.number(report.source)?;
    line.text(b" inserted ".as_slice())?;
    line.number(report.inserted)?;
    line.text(b" blocked ".as_slice())?;
    line.number(report.blocked)?;
    line.text(b" idle ".as_slice())?;
    line.number(report.idle)?;
    line.text(b" flips ".as_slice())?;
    line.number(report.flips)?;
    Ok(line.whole())
}

/// The summary of a run without flips.
pub(crate) fn summary(
    alloc: Global,
    file: &[u8],
    setting: &Setting,
    report: Report,
) -> Result<Text, Memory>
    ensures { IfOk result (λ text. text ≡ spec.summary file.now setting.now report) }
{
    let mut line = Line::new(alloc);
    line.text(state_text(alloc, file, setting, report.state)?.bytes())?;
    line.text(b"\n".as_slice())?;
    line.text(turns_text(alloc, report)?.bytes())?;
    line.end()
}

/// Whether the flips that came were admissible.
fn verdict_text(alloc: Global, verdict: Verdict) -> Result<Text, Memory>
    ensures { IfOk result (λ text. text ≡ spec.verdict_text verdict) }
{
    let mut line = Line::new(alloc);
    match verdict {
        Verdict::Admissible => {
            line.text(b"verdict admissible".as_slice())?;
            Ok(line.whole())
        }
        Verdict::First(number) => {
            line.text(b"verdict inadmissible flip ".as_slice())?;
            line.number(u64::from(number))?;
            Ok(line.whole())
        }
    }
}

/// The summary of a run with its flips.
pub(crate) fn woven_summary(
    alloc: Global,
    file: &[u8],
    setting: &Setting,
    report: Report,
    verdict: Verdict,
) -> Result<Text, Memory>
    ensures { IfOk result (λ text. text ≡ spec.woven_summary file.now setting.now report verdict) }
{
    let mut line = Line::new(alloc);
    line.text(summary(alloc, file, setting, report)?.bytes())?;
    line.text(verdict_text(alloc, verdict)?.bytes())?;
    line.end()
}
