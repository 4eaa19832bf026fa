//! Expressions.

ghost use Rattle.std.specs.Prelude.{◌≡◌};
ghost use Rattle.cxx_print.specs.Document.{◌⨾◌};
ghost use Rattle.cxx_print.specs.Expressions as form;
ghost use Rattle.cxx_print.specs.Listed.{listed, listed_part};
ghost use Rattle.cxx_print.specs.Printing.{Prints};
ghost use Rattle.cxx_tree.specs.ExprTree.{expr_tree, exprs_tree, call_tree};
ghost use Rattle.cxx_tree.specs.Spelling.{binary_sign, unary_sign};

use crate::printer::Printer;
use agxx_base::{Keyword, NameId, Sign, Sink, SpecialName};
use cxx_tree::{
    Base, BinOp, Call, Callee, Expr, Left, Name, Placed, Ref, Selector, TypeName, UnOp,
};

pub(crate) fn binary_text(op: BinOp) -> Sign
    ensures { result ≡ binary_sign op }
{
    match op {
        BinOp::Or => Sign::OrOr,
        BinOp::And => Sign::AndAnd,
        BinOp::BitOr => Sign::Or,
        BinOp::BitXor => Sign::Caret,
        BinOp::BitAnd => Sign::And,
        BinOp::Equal => Sign::EqualEqual,
        BinOp::NotEqual => Sign::NotEqual,
        BinOp::Less => Sign::Less,
        BinOp::LessEqual => Sign::LessEqual,
        BinOp::Greater => Sign::Greater,
        BinOp::GreaterEqual => Sign::GreaterEqual,
        BinOp::ShiftLeft => Sign::ShiftLeft,
        BinOp::ShiftRight => Sign::ShiftRight,
        BinOp::Add => Sign::Plus,
        BinOp::Subtract => Sign::Minus,
        BinOp::Multiply => Sign::Star,
        BinOp::Divide => Sign::Slash,
        BinOp::Remainder => Sign::Percent,
    }
}

fn unary_text(op: UnOp) -> Sign
    ensures { result ≡ unary_sign op }
{
    match op {
        UnOp::Negate => Sign::Minus,
        UnOp::Not => Sign::Not,
        UnOp::Complement => Sign::Tilde,
        UnOp::AddressOf => Sign::And,
    }
}

fn would_join(op: UnOp, next: UnOp) -> bool
    ensures { result ≡ form.would_join op next }
{
    match (op, next) {
        (UnOp::Negate, UnOp::Negate) => true,
        (UnOp::AddressOf, UnOp::AddressOf) => true,
        _ => false,
    }
}

fn joins(op: UnOp, operand: &Expr) -> bool
    ensures { result ≡ form.joins op (expr_tree operand.now) }
{
    match operand {
        Expr::Unary(_, next, _) => would_join(op, *next),
        Expr::Binary(_, _, left, _) => joins(op, left.get()),
        _ => false,
    }
}

impl<'n> Printer<'n> {
    pub(crate) fn flag<O: Sink>(&mut self, sink: &mut O, is_set: bool)
        ensures { Prints O.taken O.faults (self.old, sink.old) (self.new, sink.new) (form.flag is_set) }
    {
        if is_set {
            self.keyword(sink, Keyword::True);
        } else {
            self.keyword(sink, Keyword::False);
        }
    }

    pub(crate) fn name<O: Sink>(&mut self, sink: &mut O, name: Name)
        ensures { Prints O.taken O.faults (self.old, sink.old) (self.new, sink.new) (form.name name) }
    {
        self.id(sink, name.item);
    }

    pub(crate) fn std_name<O: Sink>(&mut self, sink: &mut O, what: SpecialName)
        ensures { Prints O.taken O.faults (self.old, sink.old) (self.new, sink.new) (form.std_name what) }
    {
        self.special_name(sink, SpecialName::Std);
        self.sign(sink, Sign::ColonColon);
        self.special_name(sink, what);
    }

    fn scope<O: Sink>(&mut self, sink: &mut O, is_global: bool)
        ensures { Prints O.taken O.faults (self.old, sink.old) (self.new, sink.new) (form.scope is_global) }
    {
        if is_global {
            self.sign(sink, Sign::ColonColon);
        }
    }

    pub(crate) fn reference<O: Sink>(&mut self, sink: &mut O, reference: Ref)
        ensures { Prints O.taken O.faults (self.old, sink.old) (self.new, sink.new) (form.ref reference) }
    {
        self.scope(sink, reference.global);
        self.name(sink, reference.name);
    }

    // A reference, and the sign before the name of a member of it.
    fn reference_with<O: Sink>(&mut self, sink: &mut O, reference: Ref, sign: Sign)
        ensures { Prints O.taken O.faults (self.old, sink.old) (self.new, sink.new)
            (form.ref reference ⨾ form.sign sign) }
    {
        self.reference(sink, reference);
        self.sign(sink, sign);
    }

    // A keyword, and the sign before the name of a member of it.
    fn keyword_with<O: Sink>(&mut self, sink: &mut O, keyword: Keyword, sign: Sign)
        ensures { Prints O.taken O.faults (self.old, sink.old) (self.new, sink.new)
            (form.keyword keyword ⨾ form.sign sign) }
    {
        self.keyword(sink, keyword);
        self.sign(sink, sign);
    }

    fn base<O: Sink>(&mut self, sink: &mut O, base: Base)
        ensures { Prints O.taken O.faults (self.old, sink.old) (self.new, sink.new) (form.base base) }
    {
        match base {
            Base::This => self.keyword_with(sink, Keyword::This, Sign::Arrow),
            Base::Dot(reference) => self.reference_with(sink, reference, Sign::Dot),
            Base::Arrow(reference) => self.reference_with(sink, reference, Sign::Arrow),
        }
    }

    fn selector<O: Sink>(&mut self, sink: &mut O, selector: Selector)
        ensures { Prints O.taken O.faults (self.old, sink.old) (self.new, sink.new) (form.selector selector) }
    {
        self.base(sink, selector.base);
        self.name(sink, selector.name);
    }

    fn callee<O: Sink>(&mut self, sink: &mut O, callee: Callee)
        ensures { Prints O.taken O.faults (self.old, sink.old) (self.new, sink.new) (form.callee callee) }
    {
        match callee {
            Callee::Bare(reference) => self.reference(sink, reference),
            Callee::Member(selector) => self.selector(sink, selector),
        }
    }

    /// Two parentheses with nothing in them.
    pub(crate) fn no_arguments<O: Sink>(&mut self, sink: &mut O)
        ensures { Prints O.taken O.faults (self.old, sink.old) (self.new, sink.new) form.no_arguments }
    {
        self.sign(sink, Sign::OpenParen);
        self.sign(sink, Sign::CloseParen);
    }

    pub(crate) fn of_join_point<O: Sink>(&mut self, sink: &mut O, what: SpecialName)
        ensures { Prints O.taken O.faults (self.old, sink.old) (self.new, sink.new) (form.of_join_point what) }
    {
        self.keyword(sink, Keyword::Tjp);
        self.sign(sink, Sign::Arrow);
        self.special_name(sink, what);
        self.no_arguments(sink);
    }

    fn joined_result<O: Sink>(&mut self, sink: &mut O)
        ensures { Prints O.taken O.faults (self.old, sink.old) (self.new, sink.new) form.joined_result }
    {
        self.sign(sink, Sign::Star);
        self.of_join_point(sink, SpecialName::Result);
    }

    pub(crate) fn left<O: Sink>(&mut self, sink: &mut O, left: Left)
        ensures { Prints O.taken O.faults (self.old, sink.old) (self.new, sink.new) (form.left left) }
    {
        match left {
            Left::Name(reference) => self.reference(sink, reference),
            Left::Member(_, selector) => self.selector(sink, selector),
            Left::Result(_) => self.joined_result(sink),
        }
    }

    fn pointer<O: Sink>(&mut self, sink: &mut O, class: NameId)
        ensures { Prints O.taken O.faults (self.old, sink.old) (self.new, sink.new) (form.pointer class) }
    {
        self.id(sink, class);
        self.sign(sink, Sign::Star);
    }

    pub(crate) fn type_name<O: Sink>(&mut self, sink: &mut O, type_name: TypeName)
        ensures { Prints O.taken O.faults (self.old, sink.old) (self.new, sink.new) (form.type_name type_name) }
    {
        match type_name {
            TypeName::Num(kind) => self.keyword(sink, Keyword::Number(kind)),
            TypeName::Int => self.keyword(sink, Keyword::Int),
            TypeName::Unsigned => self.keyword(sink, Keyword::Unsigned),
            TypeName::Void => self.keyword(sink, Keyword::Void),
            TypeName::Pointer(class) => self.pointer(sink, class),
            TypeName::Mutex => self.std_name(sink, SpecialName::Mutex),
        }
    }

    /// A type and the name that it is declared with.
    pub(crate) fn typed<O: Sink>(&mut self, sink: &mut O, type_name: Placed<TypeName>, name: Name)
        ensures { Prints O.taken O.faults (self.old, sink.old) (self.new, sink.new) (form.typed type_name name) }
    {
        self.type_name(sink, type_name.item);
        self.gap(sink);
        self.name(sink, name);
    }

    fn apart<O: Sink>(&mut self, sink: &mut O, is_apart: bool)
        ensures { Prints O.taken O.faults (self.old, sink.old) (self.new, sink.new) (form.apart is_apart) }
    {
        if is_apart {
            self.gap(sink);
        }
    }

    fn new_object<O: Sink>(&mut self, sink: &mut O, class: Name)
        ensures { Prints O.taken O.faults (self.old, sink.old) (self.new, sink.new) (form.created class) }
    {
        self.keyword(sink, Keyword::New);
        self.gap(sink);
        self.name(sink, class);
    }

    #[cycle(expr)]
    pub(crate) fn expr<O: Sink>(&mut self, sink: &mut O, expr: &Expr)
        ensures { Prints O.taken O.faults (self.old, sink.old) (self.new, sink.new)
            (form.expr (expr_tree expr.now)) }
    {
        match expr {
            Expr::Lit(_, number) => self.number(sink, *number),
            Expr::Flag(_, is_set) => self.flag(sink, *is_set),
            Expr::Null(_) => self.keyword(sink, Keyword::Nullptr),
            Expr::This(_) => self.keyword(sink, Keyword::This),
            Expr::Left(left) => self.left(sink, *left),
            Expr::Unary(_, op, operand) => self.unary(sink, *op, operand.get()),
            Expr::Binary(_, op, left, right) => {
                self.expr(sink, left.get());
                self.sign_and_right(sink, op.item, right.get());
                return;
            }
            Expr::Paren(_, inner) => self.parenthesized(sink, inner.get()),
            Expr::Cast(_, type_name, operand) => self.cast(sink, *type_name, operand.get()),
            Expr::Call(call) => self.call(sink, call),
            Expr::New(_, class, None) => self.new_object(sink, *class),
            Expr::New(_, class, Some(arguments)) => {
                self.new_with(sink, *class, arguments.as_slice());
            }
        }
    }

    #[cycle(expr)]
    fn unary<O: Sink>(&mut self, sink: &mut O, op: UnOp, operand: &Expr)
        ensures { Prints O.taken O.faults (self.old, sink.old) (self.new, sink.new)
            (form.unary op (form.joins op (expr_tree operand.now)) (form.expr (expr_tree operand.now))) }
    {
        self.sign(sink, unary_text(op));
        self.apart(sink, joins(op, operand));
        self.expr(sink, operand);
    }

    #[cycle(expr)]
    fn sign_and_right<O: Sink>(&mut self, sink: &mut O, op: BinOp, right: &Expr)
        ensures { Prints O.taken O.faults (self.old, sink.old) (self.new, sink.new)
            (form.spaced (binary_sign op) ⨾ form.expr (expr_tree right.now)) }
    {
        self.spaced(sink, binary_text(op));
        self.expr(sink, right);
    }

    #[cycle(expr)]
    pub(crate) fn parenthesized<O: Sink>(&mut self, sink: &mut O, inner: &Expr)
        ensures { Prints O.taken O.faults (self.old, sink.old) (self.new, sink.new)
            (form.in_parentheses (form.expr (expr_tree inner.now))) }
    {
        self.sign(sink, Sign::OpenParen);
        self.expr(sink, inner);
        self.sign(sink, Sign::CloseParen);
    }

    #[cycle(expr)]
    fn cast<O: Sink>(&mut self, sink: &mut O, type_name: TypeName, operand: &Expr)
        ensures { Prints O.taken O.faults (self.old, sink.old) (self.new, sink.new)
            (form.type_name type_name ⨾ form.in_parentheses (form.expr (expr_tree operand.now))) }
    {
        self.type_name(sink, type_name);
        self.parenthesized(sink, operand);
    }

    #[cycle(expr)]
    fn new_with<O: Sink>(&mut self, sink: &mut O, class: Name, arguments: &[Expr])
        ensures { Prints O.taken O.faults (self.old, sink.old) (self.new, sink.new)
            (form.created class ⨾ form.arguments (exprs_tree arguments.now)) }
    {
        self.new_object(sink, class);
        self.arguments(sink, arguments);
    }

    #[cycle(expr)]
    pub(crate) fn arguments<O: Sink>(&mut self, sink: &mut O, arguments: &[Expr])
        ensures { Prints O.taken O.faults (self.old, sink.old) (self.new, sink.new)
            (form.arguments (exprs_tree arguments.now)) }
    {
        self.sign(sink, Sign::OpenParen);
        self.separated(sink, arguments);
        self.sign(sink, Sign::CloseParen);
    }

    #[cycle(expr)]
    fn separated<O: Sink>(&mut self, sink: &mut O, exprs: &[Expr])
        ensures { Prints O.taken O.faults (self.old, sink.old) (self.new, sink.new)
            (form.separated (exprs_tree exprs.now)) }
    {
        self.listed(sink, exprs, true);
    }

    pub(crate) fn after_commas<O: Sink>(&mut self, sink: &mut O, exprs: &[Expr])
        ensures { Prints O.taken O.faults (self.old, sink.old) (self.new, sink.new)
            (form.after_commas (exprs_tree exprs.now)) }
    {
        self.listed(sink, exprs, false);
    }

    // Several expressions, the first without a comma before it where that is said.
    #[cycle(expr)]
    fn listed<O: Sink>(&mut self, sink: &mut O, exprs: &[Expr], is_first: bool)
        ensures { Prints O.taken O.faults (self.old, sink.old) (self.new, sink.new)
            (listed is_first (exprs_tree exprs.now)) }
    {
        let mut is_first = is_first;
        for expr in exprs {
            self.listed_part(sink, expr, is_first);
            is_first = false;
        }
    }

    #[cycle(expr)]
    fn listed_part<O: Sink>(&mut self, sink: &mut O, expr: &Expr, is_first: bool)
        ensures { Prints O.taken O.faults (self.old, sink.old) (self.new, sink.new)
            (listed_part is_first (form.expr (expr_tree expr.now))) }
    {
        if is_first {
            self.expr(sink, expr);
        } else {
            self.after_comma(sink, expr);
        }
    }

    #[cycle(expr)]
    fn after_comma<O: Sink>(&mut self, sink: &mut O, expr: &Expr)
        ensures { Prints O.taken O.faults (self.old, sink.old) (self.new, sink.new)
            (form.comma ⨾ form.expr (expr_tree expr.now)) }
    {
        self.comma(sink);
        self.expr(sink, expr);
    }

    #[cycle(expr)]
    pub(crate) fn call<O: Sink>(&mut self, sink: &mut O, call: &Call)
        ensures { Prints O.taken O.faults (self.old, sink.old) (self.new, sink.new)
            (form.call (call_tree call.now)) }
    {
        self.callee(sink, call.callee);
        self.arguments(sink, call.arguments.as_slice());
    }
}
