//! Statements without a block, and the heads of the others.

ghost use Rattle.std.specs.Prelude.{◌≡◌, map, option_map};
ghost use Rattle.agxx_base.specs.declared.vocabulary.Keyword.TheVariants as k;
ghost use Rattle.agxx_base.specs.declared.vocabulary.Sign.TheVariants as sg;
ghost use Rattle.cxx_print.specs.Document.{◌⨾◌};
ghost use Rattle.cxx_print.specs.Expressions as base;
ghost use Rattle.cxx_print.specs.Printing.{Prints};
ghost use Rattle.cxx_print.specs.Statements as form;
ghost use Rattle.cxx_tree.specs.ExprTree.{expr_tree};
ghost use Rattle.cxx_tree.specs.Spelling as spelled;
ghost use Rattle.cxx_tree.specs.StmtTree.{initial_tree, local_tree, assign_tree, simple_tree};
ghost use Rattle.cxx_tree.specs.StmtTree.{printed_tree, print_tree, thread_tree, start_tree};

use crate::expr::binary_text;
use crate::printer::Printer;
use agxx_base::{Keyword, Sign, Sink, SpecialName};
use cxx_tree::{
    Assign, BinOp, Bump, Expr, For, Initial, Left, Local, Print, Printed, Simple, Start, Thread,
};

fn assign_sign(op: Option<BinOp>) -> Sign
    ensures { result ≡ spelled.assign_sign op }
{
    match op {
        None => Sign::Assign,
        Some(BinOp::Add) => Sign::PlusAssign,
        Some(BinOp::Subtract) => Sign::MinusAssign,
        Some(BinOp::Multiply) => Sign::StarAssign,
        Some(BinOp::Divide) => Sign::SlashAssign,
        Some(BinOp::Remainder) => Sign::PercentAssign,
        Some(other) => binary_text(other),
    }
}

fn bump_sign(adds: bool) -> Sign
    ensures { result ≡ spelled.bump_sign adds }
{
    if adds {
        Sign::PlusPlus
    } else {
        Sign::MinusMinus
    }
}

impl<'n> Printer<'n> {
    fn value<O: Sink>(&mut self, sink: &mut O, initial: &Initial)
        ensures { Prints O.taken O.faults (self.old, sink.old) (self.new, sink.new)
            (form.initial (initial_tree initial.now)) }
    {
        self.spaced(sink, Sign::Assign);
        self.expr(sink, &initial.value);
    }

    fn initial<O: Sink>(&mut self, sink: &mut O, initial: &Option<Initial>)
        ensures { Prints O.taken O.faults (self.old, sink.old) (self.new, sink.new)
            (form.optional form.initial (option_map initial_tree initial.now)) }
    {
        if let Some(initial) = initial {
            self.value(sink, initial);
        }
    }

    fn local<O: Sink>(&mut self, sink: &mut O, local: &Local)
        ensures { Prints O.taken O.faults (self.old, sink.old) (self.new, sink.new)
            (form.local (local_tree local.now)) }
    {
        self.typed(sink, local.type_name, local.name);
        self.initial(sink, &local.initial);
    }

    fn assign<O: Sink>(&mut self, sink: &mut O, assign: &Assign)
        ensures { Prints O.taken O.faults (self.old, sink.old) (self.new, sink.new)
            (form.assign (assign_tree assign.now)) }
    {
        self.left(sink, assign.left);
        self.spaced(sink, assign_sign(assign.sign.item));
        self.expr(sink, &assign.value);
    }

    fn sign_before<O: Sink>(&mut self, sink: &mut O, sign: Sign, left: Left)
        ensures { Prints O.taken O.faults (self.old, sink.old) (self.new, sink.new)
            (base.sign sign ⨾ base.left left) }
    {
        self.sign(sink, sign);
        self.left(sink, left);
    }

    fn sign_behind<O: Sink>(&mut self, sink: &mut O, sign: Sign, left: Left)
        ensures { Prints O.taken O.faults (self.old, sink.old) (self.new, sink.new)
            (base.left left ⨾ base.sign sign) }
    {
        self.left(sink, left);
        self.sign(sink, sign);
    }

    fn bump<O: Sink>(&mut self, sink: &mut O, bump: Bump)
        ensures { Prints O.taken O.faults (self.old, sink.old) (self.new, sink.new) (form.bump bump) }
    {
        let sign = bump_sign(bump.adds);
        if bump.in_front {
            self.sign_before(sink, sign, bump.left);
        } else {
            self.sign_behind(sink, sign, bump.left);
        }
    }

    fn simple<O: Sink>(&mut self, sink: &mut O, simple: &Simple)
        ensures { Prints O.taken O.faults (self.old, sink.old) (self.new, sink.new)
            (form.simple (simple_tree simple.now)) }
    {
        match simple {
            Simple::Assign(assign) => self.assign(sink, assign),
            Simple::Bump(bump) => self.bump(sink, *bump),
            Simple::CallStmt(call) => self.call(sink, call),
            Simple::Proceed(_) => self.of_join_point(sink, SpecialName::Proceed),
        }
    }

    fn operand<O: Sink>(&mut self, sink: &mut O, operand: &Printed)
        ensures { Prints O.taken O.faults (self.old, sink.old) (self.new, sink.new)
            (form.operand (printed_tree operand.now)) }
    {
        match operand {
            Printed::Text(string) => self.string(sink, string),
            Printed::Endl(_) => self.std_name(sink, SpecialName::Endl),
            Printed::Value(value) => self.expr(sink, value),
        }
    }

    fn signed_operand<O: Sink>(&mut self, sink: &mut O, operand: &Printed)
        ensures { Prints O.taken O.faults (self.old, sink.old) (self.new, sink.new)
            (base.spaced sg.ShiftLeft ⨾ form.operand (printed_tree operand.now)) }
    {
        self.spaced(sink, Sign::ShiftLeft);
        self.operand(sink, operand);
    }

    fn operands<O: Sink>(&mut self, sink: &mut O, operands: &[Printed])
        ensures { Prints O.taken O.faults (self.old, sink.old) (self.new, sink.new)
            (form.operands (map printed_tree operands.now)) }
    {
        for operand in operands {
            self.signed_operand(sink, operand);
        }
    }

    fn start<O: Sink>(&mut self, sink: &mut O, start: &Option<Start>)
        ensures { Prints O.taken O.faults (self.old, sink.old) (self.new, sink.new)
            (form.optional form.start (option_map start_tree start.now)) }
    {
        match start {
            None => {}
            Some(Start::Local(local)) => self.local(sink, local),
            Some(Start::Simple(simple)) => self.simple(sink, simple),
        }
    }

    fn optional<O: Sink>(&mut self, sink: &mut O, expr: &Option<Expr>)
        ensures { Prints O.taken O.faults (self.old, sink.old) (self.new, sink.new)
            (form.optional base.expr (option_map expr_tree expr.now)) }
    {
        if let Some(expr) = expr {
            self.expr(sink, expr);
        }
    }

    // The first part of a `for`, and its semicolon.
    fn first<O: Sink>(&mut self, sink: &mut O, start: &Option<Start>)
        ensures { Prints O.taken O.faults (self.old, sink.old) (self.new, sink.new)
            (base.ended (form.optional form.start (option_map start_tree start.now))) }
    {
        self.start(sink, start);
        self.semicolon(sink);
    }

    // The second part of a `for`, and its semicolon.
    fn condition<O: Sink>(&mut self, sink: &mut O, condition: &Option<Expr>)
        ensures { Prints O.taken O.faults (self.old, sink.old) (self.new, sink.new)
            (base.ended (form.optional base.expr (option_map expr_tree condition.now))) }
    {
        self.optional(sink, condition);
        self.semicolon(sink);
    }

    fn step<O: Sink>(&mut self, sink: &mut O, step: &Option<Simple>)
        ensures { Prints O.taken O.faults (self.old, sink.old) (self.new, sink.new)
            (form.optional form.simple (option_map simple_tree step.now)) }
    {
        if let Some(step) = step {
            self.simple(sink, step);
        }
    }

    /// A keyword, and the condition in its parentheses.
    pub(crate) fn with_condition<O: Sink>(
        &mut self,
        sink: &mut O,
        keyword: Keyword,
        condition: &Expr,
    )
        ensures { Prints O.taken O.faults (self.old, sink.old) (self.new, sink.new)
            (form.with_condition keyword (expr_tree condition.now)) }
    {
        self.keyword(sink, keyword);
        self.gap(sink);
        self.parenthesized(sink, condition);
    }

    /// What stands behind the `}` of an `if` and before its other part.
    pub(crate) fn otherwise<O: Sink>(&mut self, sink: &mut O)
        ensures { Prints O.taken O.faults (self.old, sink.old) (self.new, sink.new) form.otherwise }
    {
        self.gap(sink);
        self.keyword(sink, Keyword::Else);
        self.gap(sink);
    }

    fn for_parts<O: Sink>(&mut self, sink: &mut O, repeat: &For)
        ensures { Prints O.taken O.faults (self.old, sink.old) (self.new, sink.new)
            (form.for_parts (option_map start_tree repeat.now.start)
            (option_map expr_tree repeat.now.condition) (option_map simple_tree repeat.now.step)) }
    {
        self.first(sink, &repeat.start);
        self.gap(sink);
        self.condition(sink, &repeat.condition);
        self.gap(sink);
        self.step(sink, &repeat.step);
    }

    pub(crate) fn for_head<O: Sink>(&mut self, sink: &mut O, repeat: &For)
        ensures { Prints O.taken O.faults (self.old, sink.old) (self.new, sink.new)
            (form.for_head (option_map start_tree repeat.now.start)
            (option_map expr_tree repeat.now.condition) (option_map simple_tree repeat.now.step)) }
    {
        self.keyword(sink, Keyword::For);
        self.gap(sink);
        self.sign(sink, Sign::OpenParen);
        self.for_parts(sink, repeat);
        self.sign(sink, Sign::CloseParen);
    }

    pub(crate) fn semicolon<O: Sink>(&mut self, sink: &mut O)
        ensures { Prints O.taken O.faults (self.old, sink.old) (self.new, sink.new) (base.sign sg.Semicolon) }
    {
        self.sign(sink, Sign::Semicolon);
    }

    pub(crate) fn local_stmt<O: Sink>(&mut self, sink: &mut O, local: &Local)
        ensures { Prints O.taken O.faults (self.old, sink.old) (self.new, sink.new)
            (base.ended (form.local (local_tree local.now))) }
    {
        self.local(sink, local);
        self.semicolon(sink);
    }

    pub(crate) fn simple_stmt<O: Sink>(&mut self, sink: &mut O, simple: &Simple)
        ensures { Prints O.taken O.faults (self.old, sink.old) (self.new, sink.new)
            (base.ended (form.simple (simple_tree simple.now))) }
    {
        self.simple(sink, simple);
        self.semicolon(sink);
    }

    fn value_behind<O: Sink>(&mut self, sink: &mut O, value: &Expr)
        ensures { Prints O.taken O.faults (self.old, sink.old) (self.new, sink.new)
            (form.returned (expr_tree value.now)) }
    {
        self.gap(sink);
        self.expr(sink, value);
    }

    fn returned<O: Sink>(&mut self, sink: &mut O, value: &Option<Expr>)
        ensures { Prints O.taken O.faults (self.old, sink.old) (self.new, sink.new)
            (form.optional form.returned (option_map expr_tree value.now)) }
    {
        if let Some(value) = value {
            self.value_behind(sink, value);
        }
    }

    fn return_word<O: Sink>(&mut self, sink: &mut O, value: &Option<Expr>)
        ensures { Prints O.taken O.faults (self.old, sink.old) (self.new, sink.new)
            (base.keyword k.Return ⨾ form.optional form.returned (option_map expr_tree value.now)) }
    {
        self.keyword(sink, Keyword::Return);
        self.returned(sink, value);
    }

    pub(crate) fn return_stmt<O: Sink>(&mut self, sink: &mut O, value: &Option<Expr>)
        ensures { Prints O.taken O.faults (self.old, sink.old) (self.new, sink.new)
            (form.return_stmt (option_map expr_tree value.now)) }
    {
        self.return_word(sink, value);
        self.semicolon(sink);
    }

    fn delete_word<O: Sink>(&mut self, sink: &mut O, pointer: &Expr)
        ensures { Prints O.taken O.faults (self.old, sink.old) (self.new, sink.new)
            (base.keyword k.Delete ⨾ form.returned (expr_tree pointer.now)) }
    {
        self.keyword(sink, Keyword::Delete);
        self.value_behind(sink, pointer);
    }

    pub(crate) fn delete_stmt<O: Sink>(&mut self, sink: &mut O, pointer: &Expr)
        ensures { Prints O.taken O.faults (self.old, sink.old) (self.new, sink.new)
            (form.delete_stmt (expr_tree pointer.now)) }
    {
        self.delete_word(sink, pointer);
        self.semicolon(sink);
    }

    fn print<O: Sink>(&mut self, sink: &mut O, print: &Print)
        ensures { Prints O.taken O.faults (self.old, sink.old) (self.new, sink.new)
            (form.print (print_tree print.now)) }
    {
        self.std_name(sink, SpecialName::Cout);
        self.operands(sink, print.operands.as_slice());
    }

    pub(crate) fn print_stmt<O: Sink>(&mut self, sink: &mut O, print: &Print)
        ensures { Prints O.taken O.faults (self.old, sink.old) (self.new, sink.new)
            (base.ended (form.print (print_tree print.now))) }
    {
        self.print(sink, print);
        self.semicolon(sink);
    }

    fn started<O: Sink>(&mut self, sink: &mut O, thread: &Thread)
        ensures { Prints O.taken O.faults (self.old, sink.old) (self.new, sink.new)
            (form.started (thread_tree thread.now)) }
    {
        self.sign(sink, Sign::OpenParen);
        self.function_and_arguments(sink, thread);
        self.sign(sink, Sign::CloseParen);
    }

    fn function_and_arguments<O: Sink>(&mut self, sink: &mut O, thread: &Thread)
        ensures { Prints O.taken O.faults (self.old, sink.old) (self.new, sink.new)
            (form.function_and_arguments (thread_tree thread.now)) }
    {
        self.reference(sink, thread.function);
        self.after_commas(sink, thread.arguments.as_slice());
    }

    fn thread<O: Sink>(&mut self, sink: &mut O, thread: &Thread)
        ensures { Prints O.taken O.faults (self.old, sink.old) (self.new, sink.new)
            (form.thread (thread_tree thread.now)) }
    {
        self.std_name(sink, SpecialName::Thread);
        self.gap(sink);
        self.name(sink, thread.name);
        self.started(sink, thread);
    }

    pub(crate) fn thread_stmt<O: Sink>(&mut self, sink: &mut O, thread: &Thread)
        ensures { Prints O.taken O.faults (self.old, sink.old) (self.new, sink.new)
            (base.ended (form.thread (thread_tree thread.now))) }
    {
        self.thread(sink, thread);
        self.semicolon(sink);
    }

    fn abort<O: Sink>(&mut self, sink: &mut O)
        ensures { Prints O.taken O.faults (self.old, sink.old) (self.new, sink.new) form.abort }
    {
        self.std_name(sink, SpecialName::Abort);
        self.no_arguments(sink);
    }

    pub(crate) fn abort_stmt<O: Sink>(&mut self, sink: &mut O)
        ensures { Prints O.taken O.faults (self.old, sink.old) (self.new, sink.new) (base.ended form.abort) }
    {
        self.abort(sink);
        self.semicolon(sink);
    }
}
