//! Statements.

ghost use Rattle.std.specs.Prelude.{◌≡◌, IfOk};
ghost use Rattle.cxx_tree.specs.StmtTree.{stmt_tree, stmts_tree, block_tree, if_tree, else_tree, while_tree, for_tree};

use crate::copier::Copier;
use agxx_base::Memory;
use cxx_tree::{Block, Else, For, If, Stmt, While};
use sqlite_items::{Boxed, Items};

impl Copier {
    /// A statement.
    #[cycle(stmt)]
    pub fn stmt(self, stmt: &Stmt) -> Result<Stmt, Memory>
        ensures { IfOk result (λ s. stmt_tree s ≡ stmt_tree stmt.now) }
    {
        match stmt {
            Stmt::Block(block) => Ok(Stmt::Block(self.block(block)?)),
            Stmt::Local(local) => Ok(Stmt::Local(self.local(local)?)),
            Stmt::Simple(simple) => Ok(Stmt::Simple(self.simple(simple)?)),
            Stmt::If(branch) => Ok(Stmt::If(self.branch(branch)?)),
            Stmt::While(repeat) => Ok(Stmt::While(self.repeat_while(repeat)?)),
            Stmt::For(repeat) => Ok(Stmt::For(self.repeat_for(repeat)?)),
            Stmt::Return(at, value) => Ok(Stmt::Return(*at, self.optional(value)?)),
            Stmt::Delete(at, pointer) => Ok(Stmt::Delete(*at, self.expr(pointer)?)),
            Stmt::Print(print) => Ok(Stmt::Print(self.print(print)?)),
            Stmt::Thread(thread) => Ok(Stmt::Thread(self.thread(thread)?)),
            Stmt::Abort(at) => Ok(Stmt::Abort(*at)),
        }
    }

    /// Statements that follow each other.
    #[cycle(stmt)]
    pub fn stmts(self, stmts: &[Stmt]) -> Result<Items<Stmt>, Memory>
        ensures { IfOk result (λ ss. stmts_tree ss ≡ stmts_tree stmts.now) }
    {
        let mut copies = Items::new(self.alloc);
        for stmt in stmts {
            copies.push(self.stmt(stmt)?)?;
        }
        Ok(copies)
    }

    /// Statements in braces.
    #[cycle(stmt)]
    pub fn block(self, block: &Block) -> Result<Block, Memory>
        ensures { IfOk result (λ b. block_tree b ≡ block_tree block.now) }
    {
        let stmts = self.stmts(block.stmts.as_slice())?;
        Ok(Block {
            at: block.at,
            stmts,
        })
    }

    #[cycle(stmt)]
    fn branch(self, branch: &If) -> Result<If, Memory>
        ensures { IfOk result (λ b. if_tree b ≡ if_tree branch.now) }
    {
        let condition = self.expr(&branch.condition)?;
        let body = self.block(&branch.body)?;
        let otherwise = match &branch.otherwise {
            None => None,
            Some(otherwise) => Some(self.otherwise(otherwise)?),
        };
        Ok(If {
            at: branch.at,
            condition,
            body,
            otherwise,
        })
    }

    #[cycle(stmt)]
    fn otherwise(self, otherwise: &Else) -> Result<Else, Memory>
        ensures { IfOk result (λ o. else_tree o ≡ else_tree otherwise.now) }
    {
        match otherwise {
            Else::Branch(branch) => {
                let branch = self.branch(branch.get())?;
                Ok(Else::Branch(Boxed::new(self.alloc, branch)?))
            }
            Else::Body(block) => Ok(Else::Body(self.block(block)?)),
        }
    }

    #[cycle(stmt)]
    fn repeat_while(self, repeat: &While) -> Result<While, Memory>
        ensures { IfOk result (λ w. while_tree w ≡ while_tree repeat.now) }
    {
        let condition = self.expr(&repeat.condition)?;
        let body = self.block(&repeat.body)?;
        Ok(While {
            at: repeat.at,
            condition,
            body,
        })
    }

    #[cycle(stmt)]
    fn repeat_for(self, repeat: &For) -> Result<For, Memory>
        ensures { IfOk result (λ f. for_tree f ≡ for_tree repeat.now) }
    {
        let start = self.start(&repeat.start)?;
        let condition = self.optional(&repeat.condition)?;
        let step = self.step(&repeat.step)?;
        let body = self.block(&repeat.body)?;
        Ok(For {
            at: repeat.at,
            start,
            condition,
            step,
            body,
        })
    }
}
