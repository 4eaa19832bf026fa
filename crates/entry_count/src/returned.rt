//! How many statements return a value.

ghost use Rattle.std.specs.Prelude.{◌≡◌, ◌+◌, IfOk};
ghost use Rattle.cxx_tree.specs.StmtTree.{stmt_tree, stmts_tree, block_tree, if_tree, else_tree};
ghost use Rattle.entry_count.specs.Wrapping as spec;

use agxx_base::Memory;
use cxx_tree::{Block, Else, If, Stmt};

/// How many statements of a body return a value. Where there would be 2^32, memory doesn't do.
pub fn returns_in(block: &Block) -> Result<u32, Memory>
    ensures { IfOk result (λ n. n ≡ spec.returns_in_block (block_tree block.now)) }
{
    with_block(0, block)
}

#[cycle(with_stmt)]
fn with_stmt(count: u32, stmt: &Stmt) -> Result<u32, Memory>
    ensures { IfOk result (λ n. n ≡ count + spec.returns_in (stmt_tree stmt.now)) }
{
    match stmt {
        Stmt::Block(block) => with_block(count, block),
        Stmt::Local(_) => Ok(count),
        Stmt::Simple(_) => Ok(count),
        Stmt::If(branch) => with_if(count, branch),
        Stmt::While(repeat) => with_block(count, &repeat.body),
        Stmt::For(repeat) => with_block(count, &repeat.body),
        Stmt::Return(_, None) => Ok(count),
        Stmt::Return(_, Some(_)) => one_more(count),
        Stmt::Delete(_, _) => Ok(count),
        Stmt::Print(_) => Ok(count),
        Stmt::Thread(_) => Ok(count),
        Stmt::Abort(_) => Ok(count),
    }
}

/// The next count, if it is below 2^32.
pub(crate) fn one_more(count: u32) -> Result<u32, Memory>
    ensures { IfOk result (λ n. n ≡ count + 1) }
{
    if count == u32::MAX {
        return Err(Memory);
    }
    Ok(count + 1)
}

#[cycle(with_stmt)]
fn with_stmts(count: u32, stmts: &[Stmt]) -> Result<u32, Memory>
    ensures { IfOk result (λ n. n ≡ count + spec.returns_in_stmts (stmts_tree stmts.now)) }
{
    let mut total = count;
    for stmt in stmts {
        total = with_stmt(total, stmt)?;
    }
    Ok(total)
}

#[cycle(with_stmt)]
fn with_block(count: u32, block: &Block) -> Result<u32, Memory>
    ensures { IfOk result (λ n. n ≡ count + spec.returns_in_block (block_tree block.now)) }
{
    with_stmts(count, block.stmts.as_slice())
}

#[cycle(with_stmt)]
fn with_if(count: u32, branch: &If) -> Result<u32, Memory>
    ensures { IfOk result (λ n. n ≡ count + spec.returns_in_if (if_tree branch.now)) }
{
    let head = with_block(count, &branch.body)?;
    match &branch.otherwise {
        None => Ok(head),
        Some(otherwise) => with_else(head, otherwise),
    }
}

#[cycle(with_stmt)]
fn with_else(count: u32, otherwise: &Else) -> Result<u32, Memory>
    ensures { IfOk result (λ n. n ≡ count + spec.returns_in_else (else_tree otherwise.now)) }
{
    match otherwise {
        Else::Branch(branch) => with_if(count, branch.get()),
        Else::Body(block) => with_block(count, block),
    }
}
