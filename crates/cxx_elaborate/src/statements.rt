//! Statements, and what is in scope at each.

ghost use Rattle.std.specs.Prelude.{◌≡◌, IfOk, OnOk};
ghost use Rattle.cxx_tree.specs.StmtTree.{stmt_tree, stmts_tree, block_tree, if_tree, else_tree};
ghost use Rattle.cxx_tree.specs.StmtTree.{while_tree, for_tree};
ghost use Rattle.cxx_core.specs.StmtView.{stmt_core, stmts_core};
ghost use Rattle.cxx_core.specs.ElaboratedStmt as spec;

use crate::elaborator::Elaborator;
use crate::simple::{delete_as, one_stmt};
use agxx_base::Memory;
use cxx_core::Stmt;
use cxx_names::{Table, Thing};
use cxx_tree::{Block, Else, For, If, While};
use sqlite_items::Items;

impl<'a> Elaborator<'a> {
    /// A statement, after which a local that it declares is in scope.
    #[cycle(stmt)]
    fn stmt(&self, scope: &mut Table<Thing>, stmt: &cxx_tree::Stmt) -> Result<Stmt, Memory>
        ensures core { IfOk result (λ s. stmt_core s ≡ spec.core_stmt self.now scope.old (stmt_tree stmt.now)) }
        ensures scope { OnOk result (scope.new ≡ spec.scope_after self.now scope.old (stmt_tree stmt.now)) }
    {
        match stmt {
            cxx_tree::Stmt::Block(block) => Ok(Stmt::Block(self.block(scope, block)?)),
            cxx_tree::Stmt::Local(local) => {
                let made = self.local(scope, local)?;
                self.declare_local(scope, local)?;
                Ok(made)
            }
            cxx_tree::Stmt::Simple(simple) => self.simple(scope, simple),
            cxx_tree::Stmt::If(branch) => self.branch(scope, branch),
            cxx_tree::Stmt::While(repeat) => self.repeat_while(scope, repeat),
            cxx_tree::Stmt::For(repeat) => self.repeat_for(scope, repeat),
            cxx_tree::Stmt::Return(at, value) => self.returned(scope, *at, value.as_ref()),
            cxx_tree::Stmt::Delete(at, pointer) => Ok(delete_as(*at, self.boxed(scope, pointer)?)),
            cxx_tree::Stmt::Print(print) => {
                let operands = self.operands(scope, print.operands.as_slice())?;
                Ok(Stmt::Print(operands))
            }
            cxx_tree::Stmt::Thread(thread) => {
                let made = self.thread(scope, thread)?;
                scope.declare(thread.name.item, Thing::Thread)?;
                Ok(made)
            }
            cxx_tree::Stmt::Abort(_) => Ok(Stmt::Abort),
        }
    }

    /// The statements of a block, after which their locals are no longer in scope.
    #[cycle(stmt)]
    fn stmts(
        &self,
        scope: &mut Table<Thing>,
        stmts: &[cxx_tree::Stmt],
    ) -> Result<Items<Stmt>, Memory>
        ensures core { IfOk result (λ ss. stmts_core ss ≡
            spec.core_stmts self.now scope.old (stmts_tree stmts.now)) }
        ensures scope { OnOk result (scope.new ≡ scope.old) }
    {
        let before = scope.len();
        let mut made = Items::new(self.alloc);
        for stmt in stmts {
            made.push(self.stmt(scope, stmt)?)?;
        }
        scope.truncate(before);
        Ok(made)
    }

    /// A block.
    #[cycle(stmt)]
    pub(crate) fn block(
        &self,
        scope: &mut Table<Thing>,
        block: &Block,
    ) -> Result<Items<Stmt>, Memory>
        ensures core { IfOk result (λ ss. stmts_core ss ≡
            spec.core_block self.now scope.old (block_tree block.now)) }
        ensures scope { OnOk result (scope.new ≡ scope.old) }
    {
        self.stmts(scope, block.stmts.as_slice())
    }

    #[cycle(stmt)]
    fn branch(&self, scope: &mut Table<Thing>, branch: &If) -> Result<Stmt, Memory>
        ensures core { IfOk result (λ s. stmt_core s ≡ spec.core_if self.now scope.old (if_tree branch.now)) }
        ensures scope { OnOk result (scope.new ≡ scope.old) }
    {
        let condition = self.boxed(scope, &branch.condition)?;
        let body = self.block(scope, &branch.body)?;
        match &branch.otherwise {
            None => Ok(Stmt::Branch(condition, body, Items::new(self.alloc))),
            Some(otherwise) => {
                let otherwise = self.otherwise(scope, otherwise)?;
                Ok(Stmt::Branch(condition, body, otherwise))
            }
        }
    }

    #[cycle(stmt)]
    fn otherwise(&self, scope: &mut Table<Thing>, otherwise: &Else) -> Result<Items<Stmt>, Memory>
        ensures core { IfOk result (λ ss. stmts_core ss ≡
            spec.core_else self.now scope.old (else_tree otherwise.now)) }
        ensures scope { OnOk result (scope.new ≡ scope.old) }
    {
        match otherwise {
            Else::Branch(branch) => {
                let made = self.branch(scope, branch.get())?;
                one_stmt(self.alloc, made)
            }
            Else::Body(block) => self.block(scope, block),
        }
    }

    #[cycle(stmt)]
    fn repeat_while(&self, scope: &mut Table<Thing>, repeat: &While) -> Result<Stmt, Memory>
        ensures core { IfOk result (λ s. stmt_core s ≡
            spec.core_stmt self.now scope.old (while_tree repeat.now)) }
        ensures scope { OnOk result (scope.new ≡ spec.scope_after self.now scope.old (while_tree repeat.now)) }
    {
        let condition = self.boxed(scope, &repeat.condition)?;
        let body = self.block(scope, &repeat.body)?;
        Ok(Stmt::While(condition, body))
    }

    #[cycle(stmt)]
    fn repeat_for(&self, scope: &mut Table<Thing>, repeat: &For) -> Result<Stmt, Memory>
        ensures core { IfOk result (λ s. stmt_core s ≡
            spec.core_stmt self.now scope.old (for_tree repeat.now)) }
        ensures scope { OnOk result (scope.new ≡ spec.scope_after self.now scope.old (for_tree repeat.now)) }
    {
        let before = scope.len();
        let start = self.start(scope, repeat.start.as_ref())?;
        self.declare_start(scope, repeat.start.as_ref())?;
        let condition = self.condition(scope, repeat.condition.as_ref())?;
        let step = self.step(scope, repeat.step.as_ref())?;
        let body = self.block(scope, &repeat.body)?;
        scope.truncate(before);
        Ok(Stmt::For(start, condition, step, body))
    }
}
