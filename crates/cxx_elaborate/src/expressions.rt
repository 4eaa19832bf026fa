//! Expressions.

ghost use Rattle.std.specs.Prelude.{◌≡◌, option_map, IfOk};
ghost use Rattle.cxx_tree.specs.ExprTree.{expr_tree, exprs_tree, call_tree};
ghost use Rattle.cxx_core.specs.CoreExpr.{type_of};
ghost use Rattle.cxx_core.specs.ExprView.{left_core, callee_core, expr_core, exprs_core};
ghost use Rattle.cxx_core.specs.Meanings as meanings;
ghost use Rattle.cxx_core.specs.Meanings.{addressed};
ghost use Rattle.cxx_core.specs.ElaboratedExpr as spec;
ghost use Rattle.cxx_elaborate.specs.Views.{object_in};

use crate::elaborator::Elaborator;
use agxx_base::{ClassId, Memory, NumKind, Place};
use cxx_arith::{Value, flag};
use cxx_core::{Callee, Expr, Left, Object, binary_type, type_of, unary_type};
use cxx_names::{Table, Thing, ValueType};
use cxx_tree::{BinOp, Call, Node, Number, Placed, TypeName, UnOp};
use sqlite_items::{Boxed, Items};
use std::alloc::Global;

/// The value of a number in the text.
pub(crate) fn literal(number: Number) -> Value
    ensures { result ≡ spec.literal number }
{
    Value {
        kind: number.kind,
        bits: number.bits,
    }
}

fn this_as(at: Place, class: Option<ClassId>) -> Expr
    ensures { expr_core result ≡ spec.this_as at class }
{
    match class {
        None => Expr::Wrong(at),
        Some(class) => Expr::This(class),
    }
}

fn read_as(at: Place, left: Option<Left>) -> Expr
    ensures { expr_core result ≡ spec.read_as at (option_map left_core left) }
{
    match left {
        None => Expr::Wrong(at),
        Some(left) => Expr::Read(left),
    }
}

fn address_as(at: Place, object: Option<(Object, ClassId)>) -> Expr
    ensures { expr_core result ≡ spec.address_as at (option_map object_in object) }
{
    match object {
        Some((Object::Named(name, class), _)) => Expr::Address(name, class),
        _ => Expr::Wrong(at),
    }
}

fn unary_by(
    alloc: Global,
    at: Place,
    op: UnOp,
    operand_type: Option<ValueType>,
    operand: Expr,
) -> Result<Expr, Memory>
    ensures { IfOk result (λ e. expr_core e ≡ spec.unary_by at op operand_type (expr_core operand)) }
{
    match operand_type {
        None => Ok(Expr::Wrong(at)),
        Some(operand_type) => {
            if unary_type(op, operand_type).is_some() {
                let operand = Boxed::new(alloc, operand)?;
                Ok(Expr::Unary(at, op, operand_type, operand))
            } else {
                Ok(Expr::Wrong(at))
            }
        }
    }
}

fn joined(
    alloc: Global,
    op: Placed<BinOp>,
    types: (ValueType, ValueType),
    left: Expr,
    right: Expr,
) -> Result<Expr, Memory>
    ensures { IfOk result (λ e. expr_core e ≡
        spec.joined op.at op.item types.0 types.1 (expr_core left) (expr_core right)) }
{
    let (s, t) = types;
    let has_type = binary_type(op.item, s, t).is_some();
    let left = Boxed::new(alloc, left)?;
    let right = Boxed::new(alloc, right)?;
    match op.item {
        BinOp::Or => Ok(Expr::Or(s, t, left, right)),
        BinOp::And => Ok(Expr::And(s, t, left, right)),
        _ => {
            if has_type {
                Ok(Expr::Binary(op.at, op.item, s, t, left, right))
            } else {
                Ok(Expr::Wrong(op.at))
            }
        }
    }
}

fn binary_as(alloc: Global, op: Placed<BinOp>, left: Expr, right: Expr) -> Result<Expr, Memory>
    ensures { IfOk result (λ e. expr_core e ≡ spec.binary_as op.at op.item (expr_core left) (expr_core right)) }
{
    match (type_of(&left), type_of(&right)) {
        (Some(s), Some(t)) => joined(alloc, op, (s, t), left, right),
        _ => Ok(Expr::Wrong(op.at)),
    }
}

fn cast_by(
    alloc: Global,
    at: Place,
    kind: Option<NumKind>,
    from: Option<ValueType>,
    operand: Expr,
) -> Result<Expr, Memory>
    ensures { IfOk result (λ e. expr_core e ≡ spec.cast_by at kind from (expr_core operand)) }
{
    match (kind, from) {
        (Some(kind), Some(ValueType::Number(from))) => {
            let operand = Boxed::new(alloc, operand)?;
            Ok(Expr::Cast(kind, ValueType::Number(from), operand))
        }
        (Some(NumKind::Bool), Some(from)) => {
            let operand = Boxed::new(alloc, operand)?;
            Ok(Expr::Cast(NumKind::Bool, from, operand))
        }
        _ => Ok(Expr::Wrong(at)),
    }
}

fn call_as(at: Place, callee: Option<Callee>, arguments: Items<Expr>) -> Expr
    ensures { expr_core result ≡ spec.call_as at (option_map callee_core callee) (exprs_core arguments) }
{
    match callee {
        None => Expr::Wrong(at),
        Some(callee) => Expr::Call(callee, arguments),
    }
}

fn value_as(at: Place, expr: Expr) -> Expr
    ensures { expr_core result ≡ spec.value_as at (expr_core expr) }
{
    match type_of(&expr) {
        None => Expr::Wrong(at),
        Some(_) => expr,
    }
}

fn new_as(at: Place, class: Option<ClassId>, arguments: Items<Expr>) -> Expr
    ensures { expr_core result ≡ spec.new_as at class (exprs_core arguments) }
{
    match class {
        None => Expr::Wrong(at),
        Some(class) => Expr::New(at, class, arguments),
    }
}

impl<'a> Elaborator<'a> {
    #[cycle(expr)]
    fn unary(
        &self,
        scope: &Table<Thing>,
        node: Node,
        op: UnOp,
        operand: &cxx_tree::Expr,
    ) -> Result<Expr, Memory>
        ensures { IfOk result (λ e. expr_core e ≡ spec.unary_as node.at op
            (addressed self.now scope.now (expr_tree operand.now))
            (spec.core_expr self.now scope.now (expr_tree operand.now))) }
    {
        match op {
            UnOp::AddressOf => Ok(address_as(node.at, self.addressed(scope, operand))),
            _ => {
                let operand = self.expr(scope, operand)?;
                unary_by(self.alloc, node.at, op, type_of(&operand), operand)
            }
        }
    }

    #[cycle(expr)]
    fn cast(
        &self,
        scope: &Table<Thing>,
        at: Place,
        type_name: TypeName,
        operand: &cxx_tree::Expr,
    ) -> Result<Expr, Memory>
        ensures { IfOk result (λ e. expr_core e ≡ spec.cast_as at
            (meanings.kind_named self.now.declared type_name)
            (spec.core_expr self.now scope.now (expr_tree operand.now))) }
    {
        let kind = self.kind_named(type_name);
        let operand = self.expr(scope, operand)?;
        cast_by(self.alloc, at, kind, type_of(&operand), operand)
    }

    #[cycle(expr)]
    fn created(
        &self,
        scope: &Table<Thing>,
        at: Place,
        class: Option<ClassId>,
        arguments: &[cxx_tree::Expr],
    ) -> Result<Expr, Memory>
        ensures { IfOk result (λ e. expr_core e ≡
            spec.new_as at class (spec.core_exprs self.now scope.now (exprs_tree arguments.now))) }
    {
        let arguments = self.exprs(scope, arguments)?;
        Ok(new_as(at, class, arguments))
    }

    /// An expression, where these locals and parameters are in scope.
    #[cycle(expr)]
    pub(crate) fn expr(&self, scope: &Table<Thing>, expr: &cxx_tree::Expr) -> Result<Expr, Memory>
        ensures { IfOk result (λ e. expr_core e ≡ spec.core_expr self.now scope.now (expr_tree expr.now)) }
    {
        match expr {
            cxx_tree::Expr::Lit(_, number) => Ok(Expr::Number(literal(*number))),
            cxx_tree::Expr::Flag(_, is_set) => Ok(Expr::Number(flag(*is_set))),
            cxx_tree::Expr::Null(_) => Ok(Expr::Null),
            cxx_tree::Expr::This(node) => Ok(this_as(node.at, self.class)),
            cxx_tree::Expr::Left(left) => Ok(read_as(left.node().at, self.left_at(scope, *left))),
            cxx_tree::Expr::Unary(node, op, operand) => {
                self.unary(scope, *node, *op, operand.get())
            }
            cxx_tree::Expr::Binary(_, op, left, right) => {
                let left = self.expr(scope, left.get())?;
                let right = self.expr(scope, right.get())?;
                binary_as(self.alloc, *op, left, right)
            }
            cxx_tree::Expr::Paren(_, inner) => self.expr(scope, inner.get()),
            cxx_tree::Expr::Cast(node, type_name, operand) => {
                self.cast(scope, node.at, *type_name, operand.get())
            }
            cxx_tree::Expr::Call(call) => Ok(value_as(expr.node().at, self.call(scope, call)?)),
            cxx_tree::Expr::New(node, class, None) => {
                let class = self.declared.class_named(class.item);
                Ok(new_as(node.at, class, Items::new(self.alloc)))
            }
            cxx_tree::Expr::New(node, class, Some(arguments)) => {
                let class = self.declared.class_named(class.item);
                self.created(scope, node.at, class, arguments.as_slice())
            }
        }
    }

    /// Expressions one after another.
    #[cycle(expr)]
    pub(crate) fn exprs(
        &self,
        scope: &Table<Thing>,
        exprs: &[cxx_tree::Expr],
    ) -> Result<Items<Expr>, Memory>
        ensures { IfOk result (λ es. exprs_core es ≡
            spec.core_exprs self.now scope.now (exprs_tree exprs.now)) }
    {
        let mut made = Items::new(self.alloc);
        for expr in exprs {
            made.push(self.expr(scope, expr)?)?;
        }
        Ok(made)
    }

    /// A call, with or without a value.
    #[cycle(expr)]
    pub(crate) fn call(&self, scope: &Table<Thing>, call: &Call) -> Result<Expr, Memory>
        ensures { IfOk result (λ e. expr_core e ≡ spec.core_call self.now scope.now (call_tree call.now)) }
    {
        let at = call.node.at;
        let callee = self.callee_at(scope, at, call.callee);
        let arguments = self.exprs(scope, call.arguments.as_slice())?;
        Ok(call_as(at, callee, arguments))
    }
}
