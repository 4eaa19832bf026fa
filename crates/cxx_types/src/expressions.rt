//! Expressions.

ghost use Rattle.std.specs.Prelude.{◌≡◌, true, IfOk};
ghost use Rattle.cxx_tree.specs.ExprTree.{new_with, expr_tree, exprs_tree, call_tree};
ghost use Rattle.cxx_types.specs.Expressions as spec;

use crate::calls::{Called, Use};
use crate::checker::Checker;
use crate::context::Context;
use crate::conversion::{binary_type, cast_type, casts, may_convert, takes, takes_one, unary_type};
use crate::entry::Meaning;
use crate::selections::value_of;
use agxx_base::{ClassId, Memory, NumKind, Place, Rule};
use cxx_names::{Thing, ValueType, Variable};
use cxx_tree::{BinOp, Call, Expr, Left, Name, Node, Param, Placed, Ref, TypeName, UnOp};

fn own_type(class: Option<ClassId>) -> Option<ValueType>
    ensures { result ≡ spec.own_type class }
{
    match class {
        None => None,
        Some(class) => Some(ValueType::Pointer(class)),
    }
}

fn kind_of(type_name: TypeName) -> NumKind
    ensures { result ≡ spec.kind_of type_name }
{
    match type_name {
        TypeName::Num(kind) => kind,
        TypeName::Int => NumKind::I32,
        TypeName::Unsigned => NumKind::U32,
        _ => NumKind::I32,
    }
}

fn object_in(variable: Option<Variable>) -> Option<Option<ClassId>>
    ensures { result ≡ spec.object_in variable }
{
    match variable {
        Some(Variable::Global(Thing::Object(class))) => Some(class),
        _ => None,
    }
}

fn called_type(called: &Called, fit: bool) -> Option<ValueType>
    ensures { result ≡ spec.called_type called.now fit }
{
    if called.is_right && fit {
        called.result
    } else {
        None
    }
}

/// How many arguments there are.
#[tactic(auto, using(crate::proofs::Counts::count_is))]
pub(crate) fn count(arguments: &[Expr]) -> usize
    ensures { result ≡ spec.count (exprs_tree arguments.now) }
{
    arguments.len()
}

impl<'a> Checker<'a> {
    fn simple(&mut self, value_type: Option<ValueType>) -> Result<Option<ValueType>, Memory>
        ensures { IfOk result (λ t. (self.new, t) ≡ spec.simple value_type self.old) }
    {
        self.node(value_type, Meaning::Other)?;
        Ok(value_type)
    }

    fn own(&mut self, context: Context, node: Node) -> Result<Option<ValueType>, Memory>
        ensures { IfOk result (λ t. (self.new, t) ≡ spec.own context node self.old) }
    {
        self.require(Rule::N8, node.at, context.class.is_some())?;
        self.simple(own_type(context.class))
    }

    /// What may stand on the left of an assignment, as a value.
    #[tactic(auto, unfolding(crate::specs::Expressions::left))]
    pub(crate) fn left(&mut self, context: Context, left: Left) -> Result<Option<ValueType>, Memory>
        ensures { IfOk result (λ t. (self.new, t) ≡ spec.left context left self.old) }
    {
        match left {
            Left::Name(reference) => self.read(context, reference),
            Left::Member(node, selector) => self.selected(context, node, selector),
            Left::Result(_) => self.simple(Some(ValueType::Number(NumKind::I64))),
        }
    }

    fn operated(
        &mut self,
        index: usize,
        node: Node,
        op: UnOp,
        operand: Option<ValueType>,
    ) -> Result<Option<ValueType>, Memory>
        ensures { IfOk result (λ t. (self.new, t) ≡ spec.operated index node op (self.old, operand)) }
    {
        self.require(Rule::N3, node.at, takes_one(op, operand))?;
        let value_type = unary_type(op, operand);
        self.close_node(index, value_type);
        Ok(value_type)
    }

    fn joined(
        &mut self,
        index: usize,
        op: Placed<BinOp>,
        left: Option<ValueType>,
        right: Option<ValueType>,
    ) -> Result<Option<ValueType>, Memory>
        ensures { IfOk result (λ t. (self.new, t) ≡ spec.joined index op left (self.old, right)) }
    {
        let declared = self.declared;
        self.require(Rule::N3, op.at, takes(declared, op.item, left, right))?;
        let value_type = binary_type(declared, op.item, left, right);
        self.close_node(index, value_type);
        Ok(value_type)
    }

    fn cast(
        &mut self,
        index: usize,
        kind: NumKind,
        at: Place,
        operand: Option<ValueType>,
    ) -> Result<Option<ValueType>, Memory>
        ensures { IfOk result (λ t. (self.new, t) ≡ spec.cast index kind at (self.old, operand)) }
    {
        self.require(Rule::N3, at, casts(kind, operand))?;
        let value_type = cast_type(kind, operand);
        self.close_node(index, value_type);
        Ok(value_type)
    }

    fn addressed_left(&self, context: Context, left: Left) -> Option<(Ref, Option<ClassId>)>
        ensures { result ≡ spec.addressed_left context left self.now }
    {
        match left {
            Left::Name(reference) => match object_in(self.meant(context, reference)) {
                None => None,
                Some(class) => Some((reference, class)),
            },
            _ => None,
        }
    }

    /// The global object whose address is taken, and its class.
    fn addressed(&self, context: Context, operand: &Expr) -> Option<(Ref, Option<ClassId>)>
        ensures { result ≡ spec.addressed context (expr_tree operand.now) self.now }
    {
        match operand {
            Expr::Left(left) => self.addressed_left(context, *left),
            _ => None,
        }
    }

    fn address(
        &mut self,
        context: Context,
        reference: Ref,
        class: Option<ClassId>,
    ) -> Result<Option<ValueType>, Memory>
        ensures { IfOk result (λ t. (self.new, t) ≡ spec.address context (reference, class) self.old) }
    {
        let pointer = own_type(class);
        let variable = self.meant(context, reference);
        self.node(pointer, Meaning::Other)?;
        self.variable_node(context, reference, variable)?;
        Ok(pointer)
    }

    fn param_type(&self, param: &Param) -> Option<ValueType>
        ensures { result ≡ spec.param_type self.now param.now }
    {
        value_of(self.declared.thing_of(param.type_name.item))
    }

    fn passes(&self, from: Option<ValueType>, to: Option<ValueType>) -> bool
        ensures { result ≡ spec.passes self.now from to }
    {
        match (from, to) {
            (Some(from), Some(to)) => may_convert(self.declared, Some(from), Some(to)),
            _ => false,
        }
    }

    fn passed(
        &mut self,
        at: Place,
        param: &Param,
        argument: Option<ValueType>,
    ) -> Result<bool, Memory>
        ensures { IfOk result (λ right.
            (self.new, right) ≡ spec.passed at param.now (self.old, argument)) }
    {
        let to = self.param_type(param);
        let is_right = self.passes(argument, to);
        let converts = may_convert(self.declared, argument, to);
        self.require(Rule::N3, at, converts)?;
        Ok(is_right)
    }

    /// `&` and its operand.
    #[cycle(expr)]
    fn address_of(
        &mut self,
        context: Context,
        node: Node,
        operand: &Expr,
    ) -> Result<Option<ValueType>, Memory>
        ensures { IfOk result (λ t.
            (self.new, t) ≡ spec.address_of context node (expr_tree operand.now) self.old) }
    {
        match self.addressed(context, operand) {
            Some((reference, class)) => self.address(context, reference, class),
            None => {
                self.require(Rule::N7, node.at, false)?;
                self.node(None, Meaning::Other)?;
                self.expr(context, operand)?;
                Ok(None)
            }
        }
    }

    #[cycle(expr)]
    fn created_with(
        &mut self,
        context: Context,
        node: Node,
        class: Name,
        arguments: &[Expr],
    ) -> Result<Option<ValueType>, Memory>
        ensures { IfOk result (λ t.
            (self.new, t) ≡ spec.expr context
            (new_with node class (exprs_tree arguments.now)) self.old) }
    {
        let called = self.created(context, class, count(arguments))?;
        let fit = self.arguments(context, called.params, arguments)?;
        Ok(called_type(&called, fit))
    }

    /// An expression as a value.
    #[cycle(expr)]
    pub(crate) fn expr(
        &mut self,
        context: Context,
        expr: &Expr,
    ) -> Result<Option<ValueType>, Memory>
        ensures { IfOk result (λ t. (self.new, t) ≡ spec.expr context (expr_tree expr.now) self.old) }
    {
        match expr {
            Expr::Lit(_, number) => self.simple(Some(ValueType::Number(number.kind))),
            Expr::Flag(_, _) => self.simple(Some(ValueType::Number(NumKind::Bool))),
            Expr::Null(_) => self.simple(Some(ValueType::Null)),
            Expr::This(node) => self.own(context, *node),
            Expr::Left(left) => self.left(context, *left),
            Expr::Unary(node, UnOp::AddressOf, operand) => {
                self.address_of(context, *node, operand.get())
            }
            Expr::Unary(node, op, operand) => {
                let index = self.open_node()?;
                let value_type = self.expr(context, operand.get())?;
                self.operated(index, *node, *op, value_type)
            }
            Expr::Binary(_, op, left, right) => {
                let index = self.open_node()?;
                let first = self.expr(context, left.get())?;
                let second = self.expr(context, right.get())?;
                self.joined(index, *op, first, second)
            }
            Expr::Paren(_, inner) => {
                let index = self.open_node()?;
                let value_type = self.expr(context, inner.get())?;
                self.close_node(index, value_type);
                Ok(value_type)
            }
            Expr::Cast(_, type_name, operand) => {
                let index = self.open_node()?;
                let value_type = self.expr(context, operand.get())?;
                let at = operand.get().node().at;
                self.cast(index, kind_of(*type_name), at, value_type)
            }
            Expr::Call(call) => self.call(context, true, call),
            Expr::New(_, class, None) => {
                let called = self.created(context, *class, 0)?;
                Ok(called_type(&called, true))
            }
            Expr::New(node, class, Some(arguments)) => {
                self.created_with(context, *node, *class, arguments.as_slice())
            }
        }
    }

    /// Arguments for parameters, and whether all have a type that converts to that of their parameter.
    #[cycle(expr)]
    pub(crate) fn arguments(
        &mut self,
        context: Context,
        params: &[Param],
        arguments: &[Expr],
    ) -> Result<bool, Memory>
        ensures { IfOk result (λ right.
            (self.new, right) ≡ spec.exprs context params.now true
            (exprs_tree arguments.now) self.old) }
    {
        let mut left = params;
        let mut fit = true;
        for argument in arguments {
            let value_type = self.expr(context, argument)?;
            match left {
                [] => fit = false,
                [param, rest @ ..] => {
                    let is_right = self.passed(argument.node().at, param, value_type)?;
                    fit = fit && is_right;
                    left = rest;
                }
            }
        }
        Ok(fit)
    }

    /// A call, as a value or as a statement.
    #[cycle(expr)]
    pub(crate) fn call(
        &mut self,
        context: Context,
        as_value: bool,
        call: &Call,
    ) -> Result<Option<ValueType>, Memory>
        ensures { IfOk result (λ t.
            (self.new, t) ≡ spec.call context as_value (call_tree call.now) self.old) }
    {
        let arguments = call.arguments.as_slice();
        let used = Use {
            count: count(arguments),
            as_value,
        };
        let called = self.called(context, call.node, call.callee, used)?;
        let fit = self.arguments(context, called.params, arguments)?;
        Ok(called_type(&called, fit))
    }
}
