//! Statements without statements in them.

ghost use Rattle.std.specs.Prelude.{◌≡◌, IfOk, OnOk, map, option_map};
ghost use Rattle.cxx_tree.specs.ExprTree.{expr_tree, exprs_tree, call_tree};
ghost use Rattle.cxx_tree.specs.StmtTree.{initial_tree, local_tree, simple_tree};
ghost use Rattle.cxx_tree.specs.StmtTree.{printed_tree, thread_tree, start_tree};
ghost use Rattle.cxx_core.specs.ExprView.{left_core, expr_core, exprs_core};
ghost use Rattle.cxx_core.specs.StmtView.{source_core, printed_core, stmt_core, stmts_core};
ghost use Rattle.cxx_core.specs.ElaboratedExpr.{core_expr};
ghost use Rattle.cxx_core.specs.ElaboratedStmt as spec;

use crate::elaborator::Elaborator;
use agxx_base::{Memory, NameId, NumKind, Place, Text};
use cxx_arith::{Value, flag};
use cxx_core::{Expr, Left, Printed, Source, Stmt, Variable, binary_type, left_type, type_of};
use cxx_names::{Table, Thing, ValueType};
use cxx_tree::{BinOp, Bump, Call, Initial, Local, Placed, Quoted, Simple, Start, Thread};
use sqlite_items::{Boxed, Items};
use std::alloc::Global;

/// Whether an expression is a name with nothing round it.
fn is_name(expr: &cxx_tree::Expr) -> bool
    ensures { result ≡ spec.is_name (expr_tree expr.now) }
{
    matches!(expr, cxx_tree::Expr::Left(cxx_tree::Left::Name(_)))
}

fn source_as(alloc: Global, is_name: bool, expr: Expr) -> Result<Source, Memory>
    ensures { IfOk result (λ s. source_core s ≡ spec.source_as is_name (expr_core expr)) }
{
    if !is_name {
        return Ok(Source::Value(Boxed::new(alloc, expr)?));
    }
    match expr {
        Expr::Read(Left::Variable(Variable::Local(name, value_type))) => {
            Ok(Source::Copy(name, value_type))
        }
        other => Ok(Source::Value(Boxed::new(alloc, other)?)),
    }
}

/// A statement alone.
pub(crate) fn one_stmt(alloc: Global, stmt: Stmt) -> Result<Items<Stmt>, Memory>
    ensures { IfOk result (λ ss. stmts_core ss ≡ spec.one_stmt (stmt_core stmt)) }
{
    let mut stmts = Items::new(alloc);
    stmts.push(stmt)?;
    Ok(stmts)
}

/// The number 1.
fn one() -> Expr
    ensures { expr_core result ≡ spec.one }
{
    Expr::Number(Value {
        kind: NumKind::I32,
        bits: 1,
    })
}

fn bump_operator(adds: bool) -> BinOp
    ensures { result ≡ spec.bump_operator adds }
{
    if adds { BinOp::Add } else { BinOp::Subtract }
}

fn declare_as(at: Place, name: NameId, thing: Thing, source: Option<Source>) -> Stmt
    ensures { stmt_core result ≡ spec.declare_as at name.0 thing (option_map source_core source) }
{
    match thing {
        Thing::Value(value_type) => Stmt::Declare(name, value_type, source),
        _ => Stmt::Wrong(at),
    }
}

fn assign_as(at: Place, left: Option<Left>, expr: Boxed<Expr>) -> Stmt
    ensures { stmt_core result ≡ spec.assign_as at (option_map left_core left) (expr_core expr) }
{
    match left {
        None => Stmt::Wrong(at),
        Some(left) => Stmt::Assign(left, expr),
    }
}

fn update_by(
    at: Place,
    op: BinOp,
    types: (ValueType, Option<ValueType>),
    left: Left,
    expr: Boxed<Expr>,
) -> Stmt
    ensures { stmt_core result ≡ spec.update_by at op types.0 types.1 (left_core left) (expr_core expr) }
{
    match types {
        (s, Some(t)) => {
            if binary_type(op, s, t).is_some() {
                Stmt::Update(at, op, s, t, left, expr)
            } else {
                Stmt::Wrong(at)
            }
        }
        _ => Stmt::Wrong(at),
    }
}

fn update_as(at: Place, op: BinOp, left: Option<Left>, expr: Boxed<Expr>) -> Stmt
    ensures { stmt_core result ≡ spec.update_as at op (option_map left_core left) (expr_core expr) }
{
    match left {
        None => Stmt::Wrong(at),
        Some(left) => {
            let types = (left_type(left), type_of(expr.get()));
            update_by(at, op, types, left, expr)
        }
    }
}

/// A `delete`, by the type of its operand.
pub(crate) fn delete_as(at: Place, expr: Boxed<Expr>) -> Stmt
    ensures { stmt_core result ≡ spec.delete_as at (expr_core expr) }
{
    match type_of(expr.get()) {
        Some(ValueType::Pointer(class)) => Stmt::Delete(at, class, expr),
        _ => Stmt::Wrong(at),
    }
}

fn printed_as(at: Place, expr: Expr) -> Printed
    ensures { printed_core result ≡ spec.printed_as at (expr_core expr) }
{
    match type_of(&expr) {
        Some(ValueType::Number(kind)) => Printed::Operand(at, kind, expr),
        _ => Printed::Unprintable(at),
    }
}

fn return_as(at: Place, result_type: Option<ValueType>, source: Source) -> Stmt
    ensures { stmt_core result ≡ spec.return_as at result_type (source_core source) }
{
    match result_type {
        None => Stmt::Wrong(at),
        Some(value_type) => Stmt::ReturnValue(at, value_type, source),
    }
}

impl<'a> Elaborator<'a> {
    fn source(&self, scope: &Table<Thing>, value: &cxx_tree::Expr) -> Result<Source, Memory>
        ensures { IfOk result (λ s. source_core s ≡ spec.core_source self.now scope.now (expr_tree value.now)) }
    {
        let expr = self.expr(scope, value)?;
        source_as(self.alloc, is_name(value), expr)
    }

    fn initial(
        &self,
        scope: &Table<Thing>,
        initial: Option<&Initial>,
    ) -> Result<Option<Source>, Memory>
        ensures { IfOk result (λ s. option_map source_core s ≡ spec.core_initial self.now scope.now
            (option_map (λ i. initial_tree i.now) initial.entry)) }
    {
        match initial {
            None => Ok(None),
            Some(initial) => Ok(Some(self.source(scope, &initial.value)?)),
        }
    }

    /// The declaration of a local.
    pub(crate) fn local(&self, scope: &Table<Thing>, local: &Local) -> Result<Stmt, Memory>
        ensures { IfOk result (λ s. stmt_core s ≡ spec.core_local self.now scope.now (local_tree local.now)) }
    {
        let type_name = local.type_name;
        let source = self.initial(scope, local.initial.as_ref())?;
        let thing = self.declared.thing_of(type_name.item);
        Ok(declare_as(type_name.at, local.name.item, thing, source))
    }

    /// Lets the name of a local stand for what it holds.
    pub(crate) fn declare_local(
        &self,
        scope: &mut Table<Thing>,
        local: &Local,
    ) -> Result<(), Memory>
        ensures { OnOk result (scope.new ≡ spec.with_local self.now scope.old (local_tree local.now)) }
    {
        let thing = self.declared.thing_of(local.type_name.item);
        scope.declare(local.name.item, thing)
    }

    fn assigned(
        &self,
        scope: &Table<Thing>,
        left: cxx_tree::Left,
        sign: Placed<Option<BinOp>>,
        expr: Boxed<Expr>,
    ) -> Stmt
        ensures { stmt_core result ≡ spec.assigned self.now scope.now left sign.at sign.item (expr_core expr) }
    {
        let target = self.left_at(scope, left);
        match sign.item {
            None => assign_as(left.node().at, target, expr),
            Some(op) => update_as(sign.at, op, target, expr),
        }
    }

    fn bump(&self, scope: &Table<Thing>, bump: Bump) -> Result<Stmt, Memory>
        ensures { IfOk result (λ s. stmt_core s ≡ spec.core_bump self.now scope.now bump) }
    {
        let target = self.left_at(scope, bump.left);
        let one = Boxed::new(self.alloc, one())?;
        Ok(update_as(bump.sign, bump_operator(bump.adds), target, one))
    }

    /// An expression in memory of its own.
    pub(crate) fn boxed(
        &self,
        scope: &Table<Thing>,
        expr: &cxx_tree::Expr,
    ) -> Result<Boxed<Expr>, Memory>
        ensures { IfOk result (λ e. expr_core e ≡ core_expr self.now scope.now (expr_tree expr.now)) }
    {
        Ok(Boxed::new(self.alloc, self.expr(scope, expr)?)?)
    }

    fn call_stmt(&self, scope: &Table<Thing>, call: &Call) -> Result<Stmt, Memory>
        ensures { IfOk result (λ s. stmt_core s ≡ spec.core_call_stmt self.now scope.now (call_tree call.now)) }
    {
        let expr = Boxed::new(self.alloc, self.call(scope, call)?)?;
        Ok(self.on_callee(scope, call.node.at, call.callee, Stmt::Run(expr)))
    }

    /// What may also stand in the head of a `for`.
    pub(crate) fn simple(&self, scope: &Table<Thing>, simple: &Simple) -> Result<Stmt, Memory>
        ensures { IfOk result (λ s. stmt_core s ≡
            spec.core_simple self.now scope.now (simple_tree simple.now)) }
    {
        match simple {
            Simple::Assign(assign) => {
                let expr = self.boxed(scope, &assign.value)?;
                Ok(self.assigned(scope, assign.left, assign.sign, expr))
            }
            Simple::Bump(bump) => self.bump(scope, *bump),
            Simple::CallStmt(call) => self.call_stmt(scope, call),
            Simple::Proceed(at) => Ok(Stmt::Wrong(*at)),
        }
    }

    /// What a `for` does first.
    pub(crate) fn start(
        &self,
        scope: &Table<Thing>,
        start: Option<&Start>,
    ) -> Result<Items<Stmt>, Memory>
        ensures { IfOk result (λ ss. stmts_core ss ≡
            spec.core_start self.now scope.now (option_map (λ f. start_tree f.now) start.entry)) }
    {
        match start {
            None => Ok(Items::new(self.alloc)),
            Some(Start::Local(local)) => one_stmt(self.alloc, self.local(scope, local)?),
            Some(Start::Simple(simple)) => one_stmt(self.alloc, self.simple(scope, simple)?),
        }
    }

    /// Lets the local that a `for` declares stand for what it holds.
    pub(crate) fn declare_start(
        &self,
        scope: &mut Table<Thing>,
        start: Option<&Start>,
    ) -> Result<(), Memory>
        ensures { OnOk result (scope.new ≡
            spec.scope_in_for self.now scope.old (option_map (λ f. start_tree f.now) start.entry)) }
    {
        match start {
            Some(Start::Local(local)) => self.declare_local(scope, local),
            _ => Ok(()),
        }
    }

    /// The condition of a `for`.
    pub(crate) fn condition(
        &self,
        scope: &Table<Thing>,
        condition: Option<&cxx_tree::Expr>,
    ) -> Result<Boxed<Expr>, Memory>
        ensures { IfOk result (λ e. expr_core e ≡ spec.core_condition self.now scope.now
            (option_map (λ c. expr_tree c.now) condition.entry)) }
    {
        match condition {
            None => Ok(Boxed::new(self.alloc, Expr::Number(flag(true)))?),
            Some(condition) => self.boxed(scope, condition),
        }
    }

    /// What a `for` does after each round.
    pub(crate) fn step(
        &self,
        scope: &Table<Thing>,
        step: Option<&Simple>,
    ) -> Result<Items<Stmt>, Memory>
        ensures { IfOk result (λ ss. stmts_core ss ≡
            spec.core_step self.now scope.now (option_map (λ i. simple_tree i.now) step.entry)) }
    {
        match step {
            None => Ok(Items::new(self.alloc)),
            Some(step) => one_stmt(self.alloc, self.simple(scope, step)?),
        }
    }

    fn text(&self, quoted: &Quoted) -> Result<Text, Memory>
        ensures { IfOk result (λ text. text ≡ quoted.now.bytes) }
    {
        Text::from_bytes(self.alloc, quoted.bytes.bytes())
    }

    fn printed(&self, scope: &Table<Thing>, printed: &cxx_tree::Printed) -> Result<Printed, Memory>
        ensures { IfOk result (λ p. printed_core p ≡
            spec.core_printed self.now scope.now (printed_tree printed.now)) }
    {
        match printed {
            cxx_tree::Printed::Text(quoted) => Ok(Printed::Text(quoted.at, self.text(quoted)?)),
            cxx_tree::Printed::Endl(at) => Ok(Printed::Endl(*at)),
            cxx_tree::Printed::Value(value) => {
                let expr = self.expr(scope, value)?;
                Ok(printed_as(value.node().at, expr))
            }
        }
    }

    /// The operands of a print.
    pub(crate) fn operands(
        &self,
        scope: &Table<Thing>,
        operands: &[cxx_tree::Printed],
    ) -> Result<Items<Printed>, Memory>
        ensures { IfOk result (λ ps. map printed_core ps ≡
            map (spec.core_printed self.now scope.now) (map printed_tree operands.now)) }
    {
        let mut made = Items::new(self.alloc);
        for operand in operands {
            made.push(self.printed(scope, operand)?)?;
        }
        Ok(made)
    }

    /// A `return`.
    pub(crate) fn returned(
        &self,
        scope: &Table<Thing>,
        at: Place,
        value: Option<&cxx_tree::Expr>,
    ) -> Result<Stmt, Memory>
        ensures { IfOk result (λ s. stmt_core s ≡ spec.core_return self.now scope.now at
            (option_map (λ e. expr_tree e.now) value.entry)) }
    {
        match value {
            None => Ok(Stmt::Return(at)),
            Some(value) => {
                let source = self.source(scope, value)?;
                Ok(return_as(at, self.result, source))
            }
        }
    }

    /// The start of a thread.
    pub(crate) fn thread(&self, scope: &Table<Thing>, thread: &Thread) -> Result<Stmt, Memory>
        ensures { IfOk result (λ s. stmt_core s ≡
            spec.core_thread self.now scope.now (thread_tree thread.now)) }
    {
        let called = thread.function.name.item;
        let arguments = self.exprs(scope, thread.arguments.as_slice())?;
        match self.declared.free_function(called) {
            None => Ok(Stmt::Wrong(thread.at)),
            Some(function) => Ok(Stmt::Thread(
                thread.at,
                thread.name.item,
                function.id,
                called,
                arguments,
            )),
        }
    }
}
