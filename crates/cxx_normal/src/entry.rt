//! The end of `main`.

ghost use Rattle.std.specs.Prelude.{◌≡◌, false};
ghost use Rattle.cxx_tree.specs.StmtTree.{stmt_tree, stmts_tree, block_tree};
ghost use Rattle.cxx_tree.specs.ProgramTree.{function_tree};
ghost use Rattle.cxx_normal.specs.Entry as spec;
ghost use Rattle.cxx_normal.specs.Entry.{returning, returning_block, returning_stmts, followed_by};
ghost use Rattle.cxx_normal.specs.Gives.{Gives};
ghost use Rattle.cxx_normal.specs.Numbers.{number_stmt, number_stmts, number_block, number_function};

use crate::numbering::Numbering;
use agxx_base::{Memory, NameId, NodeId, NumKind, Place};
use cxx_tree::{Block, Expr, Function, Node, Number, Stmt};
use sqlite_items::Items;

fn is_return(stmt: &Stmt) -> bool
    ensures { result ≡ spec.is_return (stmt_tree stmt.now) }
{
    matches!(stmt, Stmt::Return(_, _))
}

#[tactic(auto, using(crate::proofs::Bodies::last_return))]
fn ends_with_return(stmts: &[Stmt]) -> bool
    ensures { result ≡ spec.ends_with_return false (stmts_tree stmts.now) }
{
    match stmts.last() {
        None => false,
        Some(last) => is_return(last),
    }
}

impl Numbering {
    /// `return 0;`
    fn return_zero(&mut self, at: Place) -> Result<Stmt, Memory>
        ensures { Gives stmt_tree (number_stmt (spec.return_zero at) self.old.next) result self.new.next }
    {
        let node = self.node(Node { at, id: NodeId(0) })?;
        let zero = Number {
            bits: 0,
            kind: NumKind::I32,
        };
        Ok(Stmt::Return(at, Some(Expr::Lit(node, zero))))
    }

    #[tactic(auto, using(crate::proofs::Bodies::at_end))]
    fn with_return_zero(&mut self, at: Place, stmts: &[Stmt]) -> Result<Items<Stmt>, Memory>
        ensures { Gives stmts_tree
            (number_stmts (followed_by (stmts_tree stmts.now) (spec.return_zero at)) self.old.next)
            result self.new.next }
    {
        let mut copies = self.stmts(stmts)?;
        copies.push(self.return_zero(at)?)?;
        Ok(copies)
    }

    fn returning_stmts(&mut self, at: Place, stmts: &[Stmt]) -> Result<Items<Stmt>, Memory>
        ensures { Gives stmts_tree
            (number_stmts (returning_stmts at (stmts_tree stmts.now)) self.old.next)
            result self.new.next }
    {
        if ends_with_return(stmts) {
            return self.stmts(stmts);
        }
        self.with_return_zero(at, stmts)
    }

    fn returning_block(&mut self, at: Place, block: &Block) -> Result<Block, Memory>
        ensures { Gives block_tree
            (number_block (returning_block at (block_tree block.now)) self.old.next)
            result self.new.next }
    {
        let stmts = self.returning_stmts(at, block.stmts.as_slice())?;
        Ok(Block {
            at: block.at,
            stmts,
        })
    }

    /// A free function, where `main` is the number of the name `main`.
    pub(crate) fn free_function(
        &mut self,
        main: NameId,
        function: &Function,
    ) -> Result<Function, Memory>
        ensures { Gives function_tree
            (number_function (returning main.0 (function_tree function.now)) self.old.next)
            result self.new.next }
    {
        if function.name.item.0 != main.0 {
            return self.function(function);
        }
        let params = self.params(function.params.as_slice())?;
        let body = self.returning_block(function.name.at, &function.body)?;
        Ok(Function {
            result: function.result,
            name: function.name,
            params,
            body,
        })
    }
}
