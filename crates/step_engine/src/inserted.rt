//! Which steps are inserted.

ghost use Rattle.std.specs.Prelude.{◌≡◌};
ghost use Rattle.step_machine.specs.Inserted as spec;
ghost use Rattle.step_frame.specs.Works.{item_of};

use step_frame::{Frame, Work};
use step_setting::Setting;

fn item_by_protection(setting: &Setting, work: Work<'_>) -> bool
    ensures { result ≡ spec.item_by_protection setting.now (item_of work.entry) }
{
    match work {
        Work::Stmt(statement) => setting.stmt_by_protection(statement),
        Work::Expr(value) => setting.expr_by_protection(value),
        Work::Call(callee) => setting.calls_generated(&callee),
        _ => false,
    }
}

fn item_by_advice(setting: &Setting, work: Work<'_>) -> bool
    ensures { result ≡ spec.item_by_advice setting.now (item_of work.entry) }
{
    match work {
        Work::Stmt(statement) => setting.stmt_by_advice(statement),
        Work::Expr(value) => setting.expr_by_advice(value),
        Work::Read(left) => setting.is_parameter_read(&left),
        _ => false,
    }
}

fn by_protection(setting: &Setting, work: Work<'_>, frame: &Frame) -> bool
    ensures { result ≡ spec.by_protection setting.now (item_of work.entry) frame.now }
{
    frame.is_generated || item_by_protection(setting, work)
}

fn by_advice(setting: &Setting, work: Work<'_>, frame: &Frame) -> bool
    ensures { result ≡ spec.by_advice setting.now (item_of work.entry) frame.now }
{
    item_by_advice(setting, work) || frame.agenda.calls_body_level(setting)
}

/// Whether the step of an item that was taken off a frame is inserted.
pub(crate) fn is_inserted(setting: &Setting, work: Work<'_>, frame: &Frame) -> bool
    ensures { result ≡ spec.is_inserted setting.now (item_of work.entry) frame.now }
{
    by_protection(setting, work, frame) || by_advice(setting, work, frame)
}
