//! Statements.

ghost use Rattle.cxx_tree.specs.StmtTree.{stmt_tree, stmts_tree, block_tree, if_tree, else_tree, while_tree, for_tree};
ghost use Rattle.cxx_normal.specs.Gives.{Gives};
ghost use Rattle.cxx_normal.specs.Numbers.{number_stmt, number_stmts, number_block, number_if, number_else};

use crate::numbering::Numbering;
use agxx_base::Memory;
use cxx_tree::{Block, Else, For, If, Stmt, While};
use sqlite_items::{Boxed, Items};

impl Numbering {
    #[cycle(stmt)]
    fn stmt(&mut self, stmt: &Stmt) -> Result<Stmt, Memory>
        ensures { Gives stmt_tree (number_stmt (stmt_tree stmt.now) self.old.next) result self.new.next }
    {
        match stmt {
            Stmt::Block(block) => Ok(Stmt::Block(self.block(block)?)),
            Stmt::Local(local) => Ok(Stmt::Local(self.local(local)?)),
            Stmt::Simple(simple) => Ok(Stmt::Simple(self.simple(simple)?)),
            Stmt::If(branch) => Ok(Stmt::If(self.branch(branch)?)),
            Stmt::While(repeat) => Ok(Stmt::While(self.repeat_while(repeat)?)),
            Stmt::For(repeat) => Ok(Stmt::For(self.repeat_for(repeat)?)),
            Stmt::Return(at, value) => Ok(Stmt::Return(*at, self.optional(value)?)),
            Stmt::Delete(at, pointer) => Ok(Stmt::Delete(*at, self.expr(pointer)?)),
            Stmt::Print(print) => Ok(Stmt::Print(self.print(print)?)),
            Stmt::Thread(thread) => Ok(Stmt::Thread(self.thread(thread)?)),
            Stmt::Abort(at) => Ok(Stmt::Abort(*at)),
        }
    }

    #[cycle(stmt)]
    pub(crate) fn stmts(&mut self, stmts: &[Stmt]) -> Result<Items<Stmt>, Memory>
        ensures { Gives stmts_tree (number_stmts (stmts_tree stmts.now) self.old.next) result self.new.next }
    {
        let mut copies = Items::new(self.alloc);
        for stmt in stmts {
            copies.push(self.stmt(stmt)?)?;
        }
        Ok(copies)
    }

    #[cycle(stmt)]
    pub(crate) fn block(&mut self, block: &Block) -> Result<Block, Memory>
        ensures { Gives block_tree (number_block (block_tree block.now) self.old.next) result self.new.next }
    {
        let stmts = self.stmts(block.stmts.as_slice())?;
        Ok(Block {
            at: block.at,
            stmts,
        })
    }

    #[cycle(stmt)]
    fn branch(&mut self, branch: &If) -> Result<If, Memory>
        ensures { Gives if_tree (number_if (if_tree branch.now) self.old.next) result self.new.next }
    {
        let condition = self.expr(&branch.condition)?;
        let body = self.block(&branch.body)?;
        let otherwise = match &branch.otherwise {
            None => None,
            Some(otherwise) => Some(self.otherwise(otherwise)?),
        };
        Ok(If {
            at: branch.at,
            condition,
            body,
            otherwise,
        })
    }

    #[cycle(stmt)]
    fn otherwise(&mut self, otherwise: &Else) -> Result<Else, Memory>
        ensures { Gives else_tree (number_else (else_tree otherwise.now) self.old.next) result self.new.next }
    {
        match otherwise {
            Else::Branch(branch) => {
                let branch = self.branch(branch.get())?;
                Ok(Else::Branch(Boxed::new(self.alloc, branch)?))
            }
            Else::Body(block) => Ok(Else::Body(self.block(block)?)),
        }
    }

    #[cycle(stmt)]
    fn repeat_while(&mut self, repeat: &While) -> Result<While, Memory>
        ensures { Gives while_tree (number_stmt (while_tree repeat.now) self.old.next) result self.new.next }
    {
        let condition = self.expr(&repeat.condition)?;
        let body = self.block(&repeat.body)?;
        Ok(While {
            at: repeat.at,
            condition,
            body,
        })
    }

    #[cycle(stmt)]
    fn repeat_for(&mut self, repeat: &For) -> Result<For, Memory>
        ensures { Gives for_tree (number_stmt (for_tree repeat.now) self.old.next) result self.new.next }
    {
        let start = self.start(&repeat.start)?;
        let condition = self.optional(&repeat.condition)?;
        let step = self.step(&repeat.step)?;
        let body = self.block(&repeat.body)?;
        Ok(For {
            at: repeat.at,
            start,
            condition,
            step,
            body,
        })
    }
}
