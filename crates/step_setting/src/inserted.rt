//! Which steps are inserted, as far as the program tells it: two tests, one for what protection made and one for what
//! weaving advice made, both by the names that generated code has.

ghost use Rattle.std.specs.Prelude.{◌≡◌, option_map};
ghost use Rattle.cxx_core.specs.ExprView.{callee_core, left_core, expr_core};
ghost use Rattle.cxx_core.specs.ProgramView.{name_core};
ghost use Rattle.cxx_core.specs.StmtView.{stmt_core, source_core};
ghost use Rattle.step_machine.specs.Inserted as spec;

use crate::setting::Setting;
use agxx_base::NameId;
use cxx_core::{Callee, Expr, Left, Object, Source, Stmt, Variable};

/// The name that is read, where it stands alone.
fn plain_name(left: &Left) -> Option<NameId>
    ensures { option_map name_core result ≡ spec.plain_name (left_core left.now) }
{
    match left {
        Left::Variable(Variable::Local(name, _)) => Some(*name),
        Left::Variable(Variable::Global(true, _, _)) => None,
        Left::Variable(Variable::Global(false, name, _)) => Some(*name),
        Left::Member(member) => match member.object {
            Object::Own => Some(member.name),
            _ => None,
        },
    }
}

fn expr_name(expr: &Expr) -> Option<NameId>
    ensures { option_map name_core result ≡ spec.expr_name (expr_core expr.now) }
{
    match expr {
        Expr::Read(left) => plain_name(left),
        _ => None,
    }
}

/// The name whose value is bound or returned.
fn source_name(source: &Source) -> Option<NameId>
    ensures { option_map name_core result ≡ spec.source_name (source_core source.now) }
{
    match source {
        Source::Copy(from, _) => Some(*from),
        Source::Value(expr) => expr_name(expr.get()),
    }
}

impl<'p> Setting<'p> {
    /// Whether there is a name, and it is this beginning with a number from 1 on.
    fn is_numbered_by(&self, name: Option<NameId>, beginning: &[u8]) -> bool
        ensures { result ≡ spec.is_numbered_by self.now (option_map name_core name) beginning.now }
    {
        match name {
            None => false,
            Some(name) => self.is_numbered(name, beginning),
        }
    }

    /// Whether a call calls a function that protection made.
    pub fn calls_generated(&self, callee: &Callee) -> bool
        ensures { result ≡ spec.calls_generated self.now (callee_core callee.now) }
    {
        self.begins(callee.name, b"__gop_")
    }

    /// Whether protection made an expression.
    pub fn expr_by_protection(&self, expr: &Expr) -> bool
        ensures { result ≡ spec.expr_by_protection self.now (expr_core expr.now) }
    {
        match expr {
            Expr::Call(callee, _) => self.calls_generated(callee),
            _ => false,
        }
    }

    /// Whether protection made a statement.
    pub fn stmt_by_protection(&self, stmt: &Stmt) -> bool
        ensures { result ≡ spec.stmt_by_protection self.now (stmt_core stmt.now) }
    {
        match stmt {
            Stmt::Run(expr) => self.expr_by_protection(expr.get()),
            Stmt::ReturnValue(_, _, source) => {
                self.is_numbered_by(source_name(source), b"__gop_r_")
            }
            _ => false,
        }
    }

    /// Whether there is a name, and it is that of a parameter of a level.
    fn is_level_parameter(&self, name: Option<NameId>) -> bool
        ensures { result ≡ spec.is_level_parameter self.now (option_map name_core name) }
    {
        self.is_numbered_by(name, b"__ag_a")
    }

    /// Whether a call calls a level at a construction or destruction.
    pub fn calls_body_level(&self, callee: &Callee) -> bool
        ensures { result ≡ spec.calls_body_level self.now (callee_core callee.now) }
    {
        !callee.is_global && self.is_numbered(callee.name, b"__ag_c_")
    }

    /// Whether it is read by its name alone, and that is one of a parameter of a level.
    pub fn is_parameter_read(&self, left: &Left) -> bool
        ensures { result ≡ spec.is_level_parameter self.now (spec.plain_name (left_core left.now)) }
    {
        self.is_level_parameter(plain_name(left))
    }

    /// Whether weaving advice made an expression.
    pub fn expr_by_advice(&self, expr: &Expr) -> bool
        ensures { result ≡ spec.expr_by_advice self.now (expr_core expr.now) }
    {
        match expr {
            Expr::Read(left) => self.is_parameter_read(left),
            Expr::Call(callee, _) => self.calls_body_level(callee),
            _ => false,
        }
    }

    fn runs_body_level(&self, expr: &Expr) -> bool
        ensures { result ≡ spec.runs_body_level self.now (expr_core expr.now) }
    {
        match expr {
            Expr::Call(callee, _) => self.calls_body_level(callee),
            _ => false,
        }
    }

    /// Whether weaving advice made a statement.
    pub fn stmt_by_advice(&self, stmt: &Stmt) -> bool
        ensures { result ≡ spec.stmt_by_advice self.now (stmt_core stmt.now) }
    {
        match stmt {
            Stmt::Run(expr) => self.runs_body_level(expr.get()),
            Stmt::Declare(name, _, None) => self.is_text(*name, b"__ag_r"),
            Stmt::Declare(name, _, Some(source)) => {
                self.is_level_parameter(source_name(source)) && !self.begins(*name, b"__gop_r_")
            }
            _ => false,
        }
    }
}
