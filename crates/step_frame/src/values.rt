//! Items that look at the values of their frame alone.

ghost use Rattle.std.specs.Prelude.{◌≡◌, IfOk};
ghost use Rattle.cxx_core.specs.ExprView.{expr_core};
ghost use Rattle.cxx_core.specs.StmtView.{stmts_core};
ghost use Rattle.step_machine.specs.ActValues as spec;
ghost use Rattle.step_frame.specs.Outcomes.{HasDone, HasPlanned};

use crate::data::{converted, is_true, of_kind, one_of, stop_of, truth_value, two_of};
use crate::frame::Frame;
use crate::outcome::Outcome;
use crate::work::Work;
use agxx_base::{Memory, NameId, NumKind, Place};
use cxx_core::{Expr, Stmt};
use cxx_names::ValueType;
use cxx_tree::{BinOp, UnOp};

impl<'p> Frame<'p> {
    /// An operator of one operand.
    pub fn op_one(&mut self, at: Place, op: UnOp) -> Result<Outcome, Memory>
        ensures { IfOk result (λ r. HasDone self.old self.new r (spec.op_one at op self.old)) }
    {
        match one_of(op, self.values.top()) {
            Err(stop) => Ok(Outcome::Stops(stop_of(stop), at)),
            Ok(datum) => {
                let _ = self.values.take();
                self.values.push(datum)?;
                Ok(Outcome::Stays)
            }
        }
    }

    /// An operator of two operands, the right one on top.
    pub fn op_two(&mut self, at: Place, op: BinOp) -> Result<Outcome, Memory>
        ensures { IfOk result (λ r. HasDone self.old self.new r (spec.op_two at op self.old)) }
    {
        match two_of(op, self.values.below(), self.values.top()) {
            Err(stop) => Ok(Outcome::Stops(stop_of(stop), at)),
            Ok(datum) => {
                let _ = self.values.take();
                let _ = self.values.take();
                self.values.push(datum)?;
                Ok(Outcome::Stays)
            }
        }
    }

    /// An operator of two operands, the left one on top.
    pub fn op_left(&mut self, at: Place, op: BinOp) -> Result<Outcome, Memory>
        ensures { IfOk result (λ r. HasDone self.old self.new r (spec.op_left at op self.old)) }
    {
        match two_of(op, self.values.top(), self.values.below()) {
            Err(stop) => Ok(Outcome::Stops(stop_of(stop), at)),
            Ok(datum) => {
                let _ = self.values.take();
                let _ = self.values.take();
                self.values.push(datum)?;
                Ok(Outcome::Stays)
            }
        }
    }

    /// A conversion to a number type.
    pub fn cast(&mut self, kind: NumKind) -> Result<Outcome, Memory>
        ensures { IfOk result (λ r. HasDone self.old self.new r (spec.cast kind self.old)) }
    {
        let datum = self.values.take();
        self.values.push(of_kind(kind, datum))?;
        Ok(Outcome::Stays)
    }

    /// A conversion to a truth value.
    pub fn truth(&mut self) -> Result<Outcome, Memory>
        ensures { IfOk result (λ r. HasDone self.old self.new r (spec.truth self.old)) }
    {
        let datum = self.values.take();
        self.values.push(truth_value(is_true(datum)))?;
        Ok(Outcome::Stays)
    }

    /// `&&`, else `||`, once its left side is evaluated.
    pub fn short(&mut self, is_and: bool, right: &'p Expr) -> Result<Outcome, Memory>
        ensures { IfOk result (λ r. HasDone self.old self.new r (spec.short is_and (expr_core right.now) self.old)) }
    {
        if is_true(self.values.top()) == is_and {
            let _ = self.values.take();
            self.agenda.push(Work::Truth)?;
            self.agenda.push(Work::Expr(right))?;
            Ok(Outcome::Stays)
        } else {
            self.truth()
        }
    }

    /// Lets go of the value of a call.
    pub fn drop_value(&mut self) -> Outcome
        ensures { HasDone self.old self.new result (spec.drop self.old) }
    {
        let _ = self.values.take();
        Outcome::Stays
    }

    /// Gives the value to a local.
    pub fn bind(&mut self, name: NameId, value_type: ValueType) -> Result<Outcome, Memory>
        ensures { IfOk result (λ r. HasDone self.old self.new r (spec.bind name.0 value_type self.old)) }
    {
        let datum = self.values.take();
        self.locals.set(name.0, converted(value_type, datum))?;
        Ok(Outcome::Stays)
    }

    /// Keeps the value as the function's result.
    pub fn keep(&mut self, value_type: ValueType) -> Outcome
        ensures { HasDone self.old self.new result (spec.keep value_type self.old) }
    {
        let datum = self.values.take();
        self.kept = Some(converted(value_type, datum));
        Outcome::Stays
    }

    /// Goes on with one of two blocks.
    pub fn branch(&mut self, yes: &'p [Stmt], otherwise: &'p [Stmt]) -> Result<Outcome, Memory>
        ensures { IfOk result (λ r. HasDone self.old self.new r
            (spec.branch (stmts_core yes.now) (stmts_core otherwise.now) self.old)) }
    {
        if is_true(self.values.take()) {
            self.agenda.push_stmts(yes)?;
        } else {
            self.agenda.push_stmts(otherwise)?;
        }
        Ok(Outcome::Stays)
    }
}
