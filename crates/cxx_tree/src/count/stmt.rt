//! The nodes of statements.

ghost use Rattle.std.specs.Prelude.{◌≡◌, ◌+◌, map, sum_by, option_map};
ghost use Rattle.cxx_tree.specs.ExprTree.{expr_tree};
ghost use Rattle.cxx_tree.specs.StmtTree.{local_tree, simple_tree, printed_tree, start_tree, stmt_tree, stmts_tree};
ghost use Rattle.cxx_tree.specs.StmtTree.{block_tree, if_tree, else_tree, while_tree, for_tree};
ghost use Rattle.cxx_tree.specs.Nodes.{capped, nodes_in_optional, nodes_in_expr, nodes_in_local, nodes_in_simple};
ghost use Rattle.cxx_tree.specs.Nodes.{nodes_in_printed, nodes_in_start, nodes_in_stmt, nodes_in_stmts};
ghost use Rattle.cxx_tree.specs.Nodes.{nodes_in_block, nodes_in_if, nodes_in_else};

use super::expr::{with_call, with_expr, with_exprs, with_left};
use crate::expr::Expr;
use crate::stmt::{Block, Else, For, If, Local, Printed, Simple, Start, Stmt, While};

fn with_optional(count: u64, expr: &Option<Expr>) -> u64
    ensures { result ≡ capped (count + nodes_in_optional nodes_in_expr (option_map expr_tree expr.now)) }
{
    match expr {
        None => count,
        Some(expr) => with_expr(count, expr),
    }
}

fn with_local(count: u64, local: &Local) -> u64
    ensures { result ≡ capped (count + nodes_in_local (local_tree local.now)) }
{
    match &local.initial {
        None => count,
        Some(initial) => with_expr(count, &initial.value),
    }
}

fn with_simple(count: u64, simple: &Simple) -> u64
    ensures { result ≡ capped (count + nodes_in_simple (simple_tree simple.now)) }
{
    match simple {
        Simple::Assign(assign) => with_expr(with_left(count, &assign.left), &assign.value),
        Simple::Bump(bump) => with_left(count, &bump.left),
        Simple::CallStmt(call) => with_call(count, call),
        Simple::Proceed(_) => count,
    }
}

fn with_step(count: u64, step: &Option<Simple>) -> u64
    ensures { result ≡ capped (count + nodes_in_optional nodes_in_simple (option_map simple_tree step.now)) }
{
    match step {
        None => count,
        Some(step) => with_simple(count, step),
    }
}

fn with_start(count: u64, start: &Option<Start>) -> u64
    ensures { result ≡ capped (count + nodes_in_optional nodes_in_start (option_map start_tree start.now)) }
{
    match start {
        None => count,
        Some(Start::Local(local)) => with_local(count, local),
        Some(Start::Simple(simple)) => with_simple(count, simple),
    }
}

fn with_operands(count: u64, operands: &[Printed]) -> u64
    ensures { result ≡ capped (count + sum_by nodes_in_printed (map printed_tree operands.now)) }
{
    let mut total = count;
    for operand in operands {
        if let Printed::Value(value) = operand {
            total = with_expr(total, value);
        }
    }
    total
}

#[cycle(with_stmt)]
fn with_stmt(count: u64, stmt: &Stmt) -> u64
    ensures { result ≡ capped (count + nodes_in_stmt (stmt_tree stmt.now)) }
{
    match stmt {
        Stmt::Block(block) => with_block(count, block),
        Stmt::Local(local) => with_local(count, local),
        Stmt::Simple(simple) => with_simple(count, simple),
        Stmt::If(branch) => with_if(count, branch),
        Stmt::While(repeat) => with_while(count, repeat),
        Stmt::For(repeat) => with_for(count, repeat),
        Stmt::Return(_, value) => with_optional(count, value),
        Stmt::Delete(_, pointer) => with_expr(count, pointer),
        Stmt::Print(print) => with_operands(count, print.operands.as_slice()),
        Stmt::Thread(thread) => with_exprs(count.saturating_add(1), thread.arguments.as_slice()),
        Stmt::Abort(_) => count,
    }
}

#[cycle(with_stmt)]
fn with_stmts(count: u64, stmts: &[Stmt]) -> u64
    ensures { result ≡ capped (count + nodes_in_stmts (stmts_tree stmts.now)) }
{
    let mut total = count;
    for stmt in stmts {
        total = with_stmt(total, stmt);
    }
    total
}

#[cycle(with_stmt)]
pub(super) fn with_block(count: u64, block: &Block) -> u64
    ensures { result ≡ capped (count + nodes_in_block (block_tree block.now)) }
{
    with_stmts(count, block.stmts.as_slice())
}

#[cycle(with_stmt)]
fn with_if(count: u64, branch: &If) -> u64
    ensures { result ≡ capped (count + nodes_in_if (if_tree branch.now)) }
{
    let head = with_block(with_expr(count, &branch.condition), &branch.body);
    match &branch.otherwise {
        None => head,
        Some(otherwise) => with_else(head, otherwise),
    }
}

#[cycle(with_stmt)]
fn with_else(count: u64, otherwise: &Else) -> u64
    ensures { result ≡ capped (count + nodes_in_else (else_tree otherwise.now)) }
{
    match otherwise {
        Else::Branch(branch) => with_if(count, branch.get()),
        Else::Body(block) => with_block(count, block),
    }
}

#[cycle(with_stmt)]
fn with_while(count: u64, repeat: &While) -> u64
    ensures { result ≡ capped (count + nodes_in_stmt (while_tree repeat.now)) }
{
    with_block(with_expr(count, &repeat.condition), &repeat.body)
}

#[cycle(with_stmt)]
fn with_for(count: u64, repeat: &For) -> u64
    ensures { result ≡ capped (count + nodes_in_stmt (for_tree repeat.now)) }
{
    let started = with_start(count, &repeat.start);
    let tested = with_optional(started, &repeat.condition);
    with_block(with_step(tested, &repeat.step), &repeat.body)
}
