//! Expressions and statements that only give more items, or look at the locals of their frame.

ghost use Rattle.std.specs.Prelude.{◌≡◌, ◌∷◌, IfOk, map, option_map};
ghost use Rattle.std.specs.Option.{option_copied};
ghost use Rattle.cxx_core.specs.CoreExpr as c;
ghost use Rattle.cxx_core.specs.ExprView.{expr_core, exprs_core, left_core, callee_core, object_core};
ghost use Rattle.cxx_core.specs.StmtView.{stmts_core, source_core, printed_core};
ghost use Rattle.step_machine.specs.Act as act;
ghost use Rattle.step_machine.specs.ActValues as spec;
ghost use Rattle.step_machine.specs.Effects.{stays};
ghost use Rattle.step_machine.specs.Frame.{pushed};
ghost use Rattle.step_machine.specs.Item as it;
ghost use Rattle.step_machine.specs.Item.{stmts_on, exprs_on, printed_on};
ghost use Rattle.step_frame.specs.Outcomes.{HasDone, HasPlanned};
ghost use Rattle.step_frame.specs.Works.{item_of, while_of, for_test_of};

use crate::data::{converted, is_true, or_zero, zero_of};
use crate::frame::Frame;
use crate::outcome::Outcome;
use crate::work::Work;
use agxx_base::{Memory, NameId, Place};
use cxx_core::{Callee, Expr, Left, Object, Printed, Source, Stmt, type_of};
use cxx_names::ValueType;
use cxx_tree::{BinOp, UnOp};
use step_machine::Datum;

impl<'p> Frame<'p> {
    /// The value of a local or parameter.
    pub fn local(&self, name: NameId, value_type: ValueType) -> Datum
        ensures { result ≡ act.local_now self.now name.0 value_type }
    {
        or_zero(value_type, self.locals.get(name.0).copied())
    }

    /// A value that takes no further step.
    pub fn push_value(&mut self, datum: Datum) -> Result<Outcome, Memory>
        ensures { IfOk result (λ r. HasDone self.old self.new r (stays (pushed datum self.old))) }
    {
        self.values.push(datum)?;
        Ok(Outcome::Stays)
    }

    /// An operator of one operand, which is evaluated first.
    pub fn unary(&mut self, at: Place, op: UnOp, operand: &'p Expr) -> Result<Outcome, Memory>
        ensures { IfOk result (λ r. HasPlanned self.old self.new r
            (it.expr (expr_core operand.now) ∷ it.op_one at op ∷ self.old.items)) }
    {
        self.agenda.push(Work::OpOne(at, op))?;
        self.agenda.push(Work::Expr(operand))?;
        Ok(Outcome::Stays)
    }

    /// An operator of two operands, which are evaluated from left to right.
    pub fn binary(
        &mut self,
        at: Place,
        op: BinOp,
        left: &'p Expr,
        right: &'p Expr,
    ) -> Result<Outcome, Memory>
        ensures { IfOk result (λ r. HasPlanned self.old self.new r
            (it.expr (expr_core left.now) ∷ it.expr (expr_core right.now) ∷ it.op_two at op ∷ self.old.items)) }
    {
        self.agenda.push(Work::OpTwo(at, op))?;
        self.agenda.push(Work::Expr(right))?;
        self.agenda.push(Work::Expr(left))?;
        Ok(Outcome::Stays)
    }

    /// `&&`, else `||`, whose left side is evaluated first.
    pub fn logical(
        &mut self,
        is_and: bool,
        left: &'p Expr,
        right: &'p Expr,
    ) -> Result<Outcome, Memory>
        ensures { IfOk result (λ r. HasPlanned self.old self.new r
            (it.expr (expr_core left.now) ∷ it.short is_and (expr_core right.now) ∷ self.old.items)) }
    {
        self.agenda.push(Work::Short(is_and, right))?;
        self.agenda.push(Work::Expr(left))?;
        Ok(Outcome::Stays)
    }

    /// An expression, and then one more item.
    pub fn evaluate(&mut self, value: &'p Expr, then: Work<'p>) -> Result<Outcome, Memory>
        ensures { IfOk result (λ r. HasPlanned self.old self.new r
            (it.expr (expr_core value.now) ∷ item_of then.entry ∷ self.old.items)) }
    {
        self.agenda.push(then)?;
        self.agenda.push(Work::Expr(value))?;
        Ok(Outcome::Stays)
    }

    /// Several expressions one after the other, and then one more item.
    pub fn evaluate_all(&mut self, values: &'p [Expr], then: Work<'p>) -> Result<Outcome, Memory>
        ensures { IfOk result (λ r. HasPlanned self.old self.new r
            (exprs_on (exprs_core values.now) (item_of then.entry ∷ self.old.items))) }
    {
        self.agenda.push(then)?;
        self.agenda.push_exprs(values)?;
        Ok(Outcome::Stays)
    }

    /// A call, whose pointer and arguments are evaluated first.
    pub fn call(&mut self, callee: Callee, arguments: &'p [Expr]) -> Result<Outcome, Memory>
        ensures { IfOk result (λ r. HasPlanned self.old self.new r
            (act.pointer_on (option_map object_core callee.object)
            (exprs_on (exprs_core arguments.now) (it.call (callee_core callee) ∷ self.old.items)))) }
    {
        self.agenda.push(Work::Call(callee))?;
        self.agenda.push_exprs(arguments)?;
        if let Some(Object::Pointed(variable)) = callee.object {
            self.agenda.push(Work::Read(Left::Variable(variable)))?;
        }
        Ok(Outcome::Stays)
    }

    // ---- statements

    /// The statements of a block.
    pub fn block(&mut self, body: &'p [Stmt]) -> Result<Outcome, Memory>
        ensures { IfOk result (λ r. HasPlanned self.old self.new r
            (stmts_on (stmts_core body.now) self.old.items)) }
    {
        self.agenda.push_stmts(body)?;
        Ok(Outcome::Stays)
    }

    /// The declaration of a local.
    pub fn declare(
        &mut self,
        name: NameId,
        value_type: ValueType,
        source: Option<&'p Source>,
    ) -> Result<Outcome, Memory>
        ensures { IfOk result (λ r. HasDone self.old self.new r
            (act.declare name.0 value_type (option_map source_core (option_copied source.entry)) self.old)) }
    {
        match source {
            None => {
                self.locals.set(name.0, zero_of(value_type))?;
                Ok(Outcome::Stays)
            }
            Some(Source::Copy(from, from_type)) => {
                let datum = self.local(*from, *from_type);
                self.locals.set(name.0, converted(value_type, datum))?;
                Ok(Outcome::Stays)
            }
            Some(Source::Value(value)) => self.evaluate(value.get(), Work::Bind(name, value_type)),
        }
    }

    /// `l op= e`, which reads `l` behind `e`.
    pub fn update(
        &mut self,
        at: Place,
        op: BinOp,
        left: Left,
        value: &'p Expr,
    ) -> Result<Outcome, Memory>
        ensures { IfOk result (λ r. HasPlanned self.old self.new r
            (it.expr (expr_core value.now) ∷ it.expr (c.read (left_core left)) ∷ it.op_left at op
            ∷ it.put (left_core left) ∷ self.old.items)) }
    {
        self.agenda.push(Work::Put(left))?;
        self.agenda.push(Work::OpLeft(at, op))?;
        self.agenda.push(Work::Read(left))?;
        self.agenda.push(Work::Expr(value))?;
        Ok(Outcome::Stays)
    }

    /// A call as a statement, whose value is dropped where it has one.
    pub fn run(&mut self, call: &'p Expr) -> Result<Outcome, Memory>
        ensures { IfOk result (λ r. HasPlanned self.old self.new r
            (it.expr (expr_core call.now) ∷ act.drop_on (c.type_of (expr_core call.now)) self.old.items)) }
    {
        match type_of(call) {
            None => {
                self.agenda.push(Work::Expr(call))?;
                Ok(Outcome::Stays)
            }
            Some(_) => self.evaluate(call, Work::Drop),
        }
    }

    /// A `for`: what is done first, and then the test of its condition.
    pub fn for_from(
        &mut self,
        start: &'p [Stmt],
        condition: &'p Expr,
        step: &'p [Stmt],
        body: &'p [Stmt],
    ) -> Result<Outcome, Memory>
        ensures { IfOk result (λ r. HasPlanned self.old self.new r
            (stmts_on (stmts_core start.now)
            (for_test_of condition.now step.now body.now ∷ self.old.items))) }
    {
        self.agenda.push(Work::ForTest(condition, step, body))?;
        self.agenda.push_stmts(start)?;
        Ok(Outcome::Stays)
    }

    /// `return;`
    pub fn leave_next(&mut self, at: Place) -> Result<Outcome, Memory>
        ensures { IfOk result (λ r. HasPlanned self.old self.new r (it.leave at ∷ self.old.items)) }
    {
        self.agenda.push(Work::Leave(at))?;
        Ok(Outcome::Stays)
    }

    /// `return e;`
    pub fn return_value(
        &mut self,
        at: Place,
        value_type: ValueType,
        source: &'p Source,
    ) -> Result<Outcome, Memory>
        ensures { IfOk result (λ r. HasDone self.old self.new r
            (act.returned at value_type (source_core source.now) self.old)) }
    {
        self.agenda.push(Work::Leave(at))?;
        match source {
            Source::Copy(from, from_type) => {
                let datum = self.local(*from, *from_type);
                self.kept = Some(converted(value_type, datum));
                Ok(Outcome::Stays)
            }
            Source::Value(value) => self.evaluate(value.get(), Work::Keep(value_type)),
        }
    }

    /// The operands of a print.
    pub fn print(&mut self, operands: &'p [Printed]) -> Result<Outcome, Memory>
        ensures { IfOk result (λ r. HasPlanned self.old self.new r
            (printed_on (map printed_core operands.now) self.old.items)) }
    {
        self.agenda.push_printed(operands)?;
        Ok(Outcome::Stays)
    }

    // ---- loops

    /// Once more the body of a `while`, where its condition is true.
    pub fn loop_while(&mut self, condition: &'p Expr, body: &'p [Stmt]) -> Result<Outcome, Memory>
        ensures { IfOk result (λ r. HasDone self.old self.new r
            (spec.again (stmts_on (stmts_core body.now) (while_of condition.now body.now ∷ self.old.items)) self.old)) }
    {
        if is_true(self.values.take()) {
            self.agenda.push(Work::While(condition, body))?;
            self.agenda.push_stmts(body)?;
        }
        Ok(Outcome::Stays)
    }

    /// Once more the body and the step of a `for`, where its condition is true.
    pub fn loop_for(
        &mut self,
        condition: &'p Expr,
        step: &'p [Stmt],
        body: &'p [Stmt],
    ) -> Result<Outcome, Memory>
        ensures { IfOk result (λ r. HasDone self.old self.new r
            (spec.again (stmts_on (stmts_core body.now) (stmts_on (stmts_core step.now)
            (for_test_of condition.now step.now body.now ∷ self.old.items))) self.old)) }
    {
        if is_true(self.values.take()) {
            self.agenda.push(Work::ForTest(condition, step, body))?;
            self.agenda.push_stmts(step)?;
            self.agenda.push_stmts(body)?;
        }
        Ok(Outcome::Stays)
    }
}
