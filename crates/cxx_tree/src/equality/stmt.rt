//! Equality of statements but for places and numbers of nodes.

ghost use Rattle.std.specs.Prelude.{◌≡◌, ◌↔◌, IsTrue, option_map, map};
ghost use Rattle.cxx_tree.specs.ExprTree.{expr_tree};
ghost use Rattle.cxx_tree.specs.StmtTree.{local_tree, assign_tree, simple_tree, printed_tree, print_tree};
ghost use Rattle.cxx_tree.specs.StmtTree.{thread_tree, start_tree, stmt_tree, stmts_tree, block_tree, if_tree};
ghost use Rattle.cxx_tree.specs.StmtTree.{else_tree, while_tree, for_tree, initial_tree};
ghost use Rattle.cxx_tree.specs.Blank.{blank_quoted, blank_local, blank_initial, blank_assign, blank_bump};
ghost use Rattle.cxx_tree.specs.Blank.{blank_simple, blank_printed, blank_print, blank_thread, blank_start};
ghost use Rattle.cxx_tree.specs.Blank.{blank_stmt, blank_stmts, blank_block, blank_if, blank_else, blank_expr};

use super::expr::{same_call, same_expr, same_exprs, same_left, same_ref};
use crate::expr::Expr;
use crate::node::Quoted;
use crate::stmt::{
    Assign, Block, Bump, Else, For, If, Initial, Local, Print, Printed, Simple, Start, Stmt,
    Thread, While,
};

fn same_quoted(a: &Quoted, b: &Quoted) -> bool
    ensures { IsTrue result ↔ (blank_quoted a.now ≡ blank_quoted b.now) }
{
    a.bytes.bytes() == b.bytes.bytes()
}

fn same_initial(a: &Option<Initial>, b: &Option<Initial>) -> bool
    ensures { IsTrue result ↔
        (option_map blank_initial (option_map initial_tree a.now)
        ≡ option_map blank_initial (option_map initial_tree b.now)) }
{
    match (a, b) {
        (None, None) => true,
        (Some(a), Some(b)) => same_expr(&a.value, &b.value),
        _ => false,
    }
}

fn same_optional(a: &Option<Expr>, b: &Option<Expr>) -> bool
    ensures { IsTrue result ↔
        (option_map blank_expr (option_map expr_tree a.now)
        ≡ option_map blank_expr (option_map expr_tree b.now)) }
{
    match (a, b) {
        (None, None) => true,
        (Some(a), Some(b)) => same_expr(a, b),
        _ => false,
    }
}

fn same_local(a: &Local, b: &Local) -> bool
    ensures { IsTrue result ↔ (blank_local (local_tree a.now) ≡ blank_local (local_tree b.now)) }
{
    a.type_name.item == b.type_name.item
        && a.name.item == b.name.item
        && same_initial(&a.initial, &b.initial)
}

fn same_assign(a: &Assign, b: &Assign) -> bool
    ensures { IsTrue result ↔ (blank_assign (assign_tree a.now) ≡ blank_assign (assign_tree b.now)) }
{
    same_left(&a.left, &b.left) && a.sign.item == b.sign.item && same_expr(&a.value, &b.value)
}

fn same_bump(a: &Bump, b: &Bump) -> bool
    ensures { IsTrue result ↔ (blank_bump a.now ≡ blank_bump b.now) }
{
    same_left(&a.left, &b.left) && a.adds == b.adds && a.in_front == b.in_front
}

fn same_simple(a: &Simple, b: &Simple) -> bool
    ensures { IsTrue result ↔ (blank_simple (simple_tree a.now) ≡ blank_simple (simple_tree b.now)) }
{
    match (a, b) {
        (Simple::Assign(a), Simple::Assign(b)) => same_assign(a, b),
        (Simple::Bump(a), Simple::Bump(b)) => same_bump(a, b),
        (Simple::CallStmt(a), Simple::CallStmt(b)) => same_call(a, b),
        (Simple::Proceed(_), Simple::Proceed(_)) => true,
        _ => false,
    }
}

fn same_step(a: &Option<Simple>, b: &Option<Simple>) -> bool
    ensures { IsTrue result ↔
        (option_map blank_simple (option_map simple_tree a.now)
        ≡ option_map blank_simple (option_map simple_tree b.now)) }
{
    match (a, b) {
        (None, None) => true,
        (Some(a), Some(b)) => same_simple(a, b),
        _ => false,
    }
}

fn same_start(a: &Option<Start>, b: &Option<Start>) -> bool
    ensures { IsTrue result ↔
        (option_map blank_start (option_map start_tree a.now)
        ≡ option_map blank_start (option_map start_tree b.now)) }
{
    match (a, b) {
        (None, None) => true,
        (Some(Start::Local(a)), Some(Start::Local(b))) => same_local(a, b),
        (Some(Start::Simple(a)), Some(Start::Simple(b))) => same_simple(a, b),
        _ => false,
    }
}

fn same_printed(a: &Printed, b: &Printed) -> bool
    ensures { IsTrue result ↔ (blank_printed (printed_tree a.now) ≡ blank_printed (printed_tree b.now)) }
{
    match (a, b) {
        (Printed::Text(a), Printed::Text(b)) => same_quoted(a, b),
        (Printed::Endl(_), Printed::Endl(_)) => true,
        (Printed::Value(a), Printed::Value(b)) => same_expr(a, b),
        _ => false,
    }
}

fn same_operands(a: &[Printed], b: &[Printed]) -> bool
    ensures { IsTrue result ↔
        (map blank_printed (map printed_tree a.now)
        ≡ map blank_printed (map printed_tree b.now)) }
{
    all_same!(a, b, same_printed)
}

fn same_print(a: &Print, b: &Print) -> bool
    ensures { IsTrue result ↔ (blank_print (print_tree a.now) ≡ blank_print (print_tree b.now)) }
{
    same_operands(a.operands.as_slice(), b.operands.as_slice())
}

fn same_thread(a: &Thread, b: &Thread) -> bool
    ensures { IsTrue result ↔ (blank_thread (thread_tree a.now) ≡ blank_thread (thread_tree b.now)) }
{
    a.name.item == b.name.item
        && same_ref(&a.function, &b.function)
        && same_exprs(a.arguments.as_slice(), b.arguments.as_slice())
}

#[cycle(same_stmt)]
fn same_stmt(a: &Stmt, b: &Stmt) -> bool
    ensures { IsTrue result ↔ (blank_stmt (stmt_tree a.now) ≡ blank_stmt (stmt_tree b.now)) }
{
    match (a, b) {
        (Stmt::Block(a), Stmt::Block(b)) => same_block(a, b),
        (Stmt::Local(a), Stmt::Local(b)) => same_local(a, b),
        (Stmt::Simple(a), Stmt::Simple(b)) => same_simple(a, b),
        (Stmt::If(a), Stmt::If(b)) => same_if(a, b),
        (Stmt::While(a), Stmt::While(b)) => same_while(a, b),
        (Stmt::For(a), Stmt::For(b)) => same_for(a, b),
        (Stmt::Return(_, a), Stmt::Return(_, b)) => same_optional(a, b),
        (Stmt::Delete(_, a), Stmt::Delete(_, b)) => same_expr(a, b),
        (Stmt::Print(a), Stmt::Print(b)) => same_print(a, b),
        (Stmt::Thread(a), Stmt::Thread(b)) => same_thread(a, b),
        (Stmt::Abort(_), Stmt::Abort(_)) => true,
        _ => false,
    }
}

#[cycle(same_stmt)]
fn same_stmts(a: &[Stmt], b: &[Stmt]) -> bool
    ensures { IsTrue result ↔ (blank_stmts (stmts_tree a.now) ≡ blank_stmts (stmts_tree b.now)) }
{
    all_same!(a, b, same_stmt)
}

#[cycle(same_stmt)]
pub(super) fn same_block(a: &Block, b: &Block) -> bool
    ensures { IsTrue result ↔ (blank_block (block_tree a.now) ≡ blank_block (block_tree b.now)) }
{
    same_stmts(a.stmts.as_slice(), b.stmts.as_slice())
}

#[cycle(same_stmt)]
fn same_if(a: &If, b: &If) -> bool
    ensures { IsTrue result ↔ (blank_if (if_tree a.now) ≡ blank_if (if_tree b.now)) }
{
    if !(same_expr(&a.condition, &b.condition) && same_block(&a.body, &b.body)) {
        return false;
    }
    match (&a.otherwise, &b.otherwise) {
        (None, None) => true,
        (Some(a), Some(b)) => same_else(a, b),
        _ => false,
    }
}

#[cycle(same_stmt)]
fn same_else(a: &Else, b: &Else) -> bool
    ensures { IsTrue result ↔ (blank_else (else_tree a.now) ≡ blank_else (else_tree b.now)) }
{
    match (a, b) {
        (Else::Branch(a), Else::Branch(b)) => same_if(a.get(), b.get()),
        (Else::Body(a), Else::Body(b)) => same_block(a, b),
        _ => false,
    }
}

#[cycle(same_stmt)]
fn same_while(a: &While, b: &While) -> bool
    ensures { IsTrue result ↔ (blank_stmt (while_tree a.now) ≡ blank_stmt (while_tree b.now)) }
{
    same_expr(&a.condition, &b.condition) && same_block(&a.body, &b.body)
}

#[cycle(same_stmt)]
fn same_for(a: &For, b: &For) -> bool
    ensures { IsTrue result ↔ (blank_stmt (for_tree a.now) ≡ blank_stmt (for_tree b.now)) }
{
    same_start(&a.start, &b.start)
        && same_optional(&a.condition, &b.condition)
        && same_step(&a.step, &b.step)
        && same_block(&a.body, &b.body)
}
