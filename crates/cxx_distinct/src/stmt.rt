//! The names in statements.
#![tactic(auto, using(crate::proofs::Runs::seen_append))]

ghost use Rattle.std.specs.Prelude.{◌≡◌, OnOk, option_map, map};
ghost use Rattle.cxx_tree.specs.ExprTree.{expr_tree};
ghost use Rattle.cxx_tree.specs.StmtTree.{initial_tree, local_tree, simple_tree, printed_tree};
ghost use Rattle.cxx_tree.specs.StmtTree.{start_tree, thread_tree, stmt_tree, stmts_tree};
ghost use Rattle.cxx_tree.specs.StmtTree.{block_tree, if_tree, else_tree, while_tree, for_tree};
ghost use Rattle.cxx_distinct.specs.NamesIn.{names_in_each, names_in_optional, names_in_expr, names_in_initial};
ghost use Rattle.cxx_distinct.specs.NamesIn.{names_in_local, names_in_simple, names_in_printed};
ghost use Rattle.cxx_distinct.specs.NamesIn.{names_in_start, names_in_thread, names_in_stmt, names_in_stmts};
ghost use Rattle.cxx_distinct.specs.NamesIn.{names_in_block, names_in_if, names_in_else};
ghost use Rattle.cxx_distinct.specs.Sights.{seen};

use crate::sights::Sights;
use agxx_base::Memory;
use cxx_tree::{
    Block, Else, Expr, For, If, Initial, Local, Printed, Simple, Start, Stmt, Thread, While,
};

impl Sights {
    fn optional(&mut self, expr: &Option<Expr>) -> Result<(), Memory>
        ensures { OnOk result (self.new
            ≡ seen self.old (names_in_optional names_in_expr (option_map expr_tree expr.now))) }
    {
        match expr {
            None => Ok(()),
            Some(expr) => self.expr(expr),
        }
    }

    fn initial(&mut self, initial: &Option<Initial>) -> Result<(), Memory>
        ensures { OnOk result (self.new
            ≡ seen self.old (names_in_optional names_in_initial (option_map initial_tree initial.now))) }
    {
        match initial {
            None => Ok(()),
            Some(initial) => self.expr(&initial.value),
        }
    }

    fn local(&mut self, local: &Local) -> Result<(), Memory>
        ensures { OnOk result (self.new ≡ seen self.old (names_in_local (local_tree local.now))) }
    {
        self.type_name(local.type_name)?;
        self.name(local.name)?;
        self.initial(&local.initial)
    }

    fn simple(&mut self, simple: &Simple) -> Result<(), Memory>
        ensures { OnOk result (self.new ≡ seen self.old (names_in_simple (simple_tree simple.now))) }
    {
        match simple {
            Simple::Assign(assign) => {
                self.left(assign.left)?;
                self.expr(&assign.value)
            }
            Simple::Bump(bump) => self.left(bump.left),
            Simple::CallStmt(call) => self.call(call),
            Simple::Proceed(_) => Ok(()),
        }
    }

    fn step(&mut self, step: &Option<Simple>) -> Result<(), Memory>
        ensures { OnOk result (self.new
            ≡ seen self.old (names_in_optional names_in_simple (option_map simple_tree step.now))) }
    {
        match step {
            None => Ok(()),
            Some(step) => self.simple(step),
        }
    }

    fn start(&mut self, start: &Option<Start>) -> Result<(), Memory>
        ensures { OnOk result (self.new
            ≡ seen self.old (names_in_optional names_in_start (option_map start_tree start.now))) }
    {
        match start {
            None => Ok(()),
            Some(Start::Local(local)) => self.local(local),
            Some(Start::Simple(simple)) => self.simple(simple),
        }
    }

    fn printed(&mut self, printed: &Printed) -> Result<(), Memory>
        ensures { OnOk result (self.new ≡ seen self.old (names_in_printed (printed_tree printed.now))) }
    {
        match printed {
            Printed::Text(_) => Ok(()),
            Printed::Endl(_) => Ok(()),
            Printed::Value(value) => self.expr(value),
        }
    }

    fn operands(&mut self, operands: &[Printed]) -> Result<(), Memory>
        ensures { OnOk result (self.new
            ≡ seen self.old (names_in_each names_in_printed (map printed_tree operands.now))) }
    {
        for operand in operands {
            self.printed(operand)?;
        }
        Ok(())
    }

    fn thread(&mut self, thread: &Thread) -> Result<(), Memory>
        ensures { OnOk result (self.new ≡ seen self.old (names_in_thread (thread_tree thread.now))) }
    {
        self.name(thread.name)?;
        self.name(thread.function.name)?;
        self.exprs(thread.arguments.as_slice())
    }

    #[cycle(stmt)]
    fn stmt(&mut self, stmt: &Stmt) -> Result<(), Memory>
        ensures { OnOk result (self.new ≡ seen self.old (names_in_stmt (stmt_tree stmt.now))) }
    {
        match stmt {
            Stmt::Block(block) => self.block(block),
            Stmt::Local(local) => self.local(local),
            Stmt::Simple(simple) => self.simple(simple),
            Stmt::If(branch) => self.branch(branch),
            Stmt::While(repeat) => self.repeat_while(repeat),
            Stmt::For(repeat) => self.repeat_for(repeat),
            Stmt::Return(_, value) => self.optional(value),
            Stmt::Delete(_, pointer) => self.expr(pointer),
            Stmt::Print(print) => self.operands(print.operands.as_slice()),
            Stmt::Thread(thread) => self.thread(thread),
            Stmt::Abort(_) => Ok(()),
        }
    }

    #[cycle(stmt)]
    fn stmts(&mut self, stmts: &[Stmt]) -> Result<(), Memory>
        ensures { OnOk result (self.new ≡ seen self.old (names_in_stmts (stmts_tree stmts.now))) }
    {
        for stmt in stmts {
            self.stmt(stmt)?;
        }
        Ok(())
    }

    #[cycle(stmt)]
    pub(crate) fn block(&mut self, block: &Block) -> Result<(), Memory>
        ensures { OnOk result (self.new ≡ seen self.old (names_in_block (block_tree block.now))) }
    {
        self.stmts(block.stmts.as_slice())
    }

    #[cycle(stmt)]
    fn branch(&mut self, branch: &If) -> Result<(), Memory>
        ensures { OnOk result (self.new ≡ seen self.old (names_in_if (if_tree branch.now))) }
    {
        self.expr(&branch.condition)?;
        self.block(&branch.body)?;
        match &branch.otherwise {
            None => Ok(()),
            Some(otherwise) => self.otherwise(otherwise),
        }
    }

    #[cycle(stmt)]
    fn otherwise(&mut self, otherwise: &Else) -> Result<(), Memory>
        ensures { OnOk result (self.new ≡ seen self.old (names_in_else (else_tree otherwise.now))) }
    {
        match otherwise {
            Else::Branch(branch) => self.branch(branch.get()),
            Else::Body(block) => self.block(block),
        }
    }

    #[cycle(stmt)]
    fn repeat_while(&mut self, repeat: &While) -> Result<(), Memory>
        ensures { OnOk result (self.new ≡ seen self.old (names_in_stmt (while_tree repeat.now))) }
    {
        self.expr(&repeat.condition)?;
        self.block(&repeat.body)
    }

    #[cycle(stmt)]
    fn repeat_for(&mut self, repeat: &For) -> Result<(), Memory>
        ensures { OnOk result (self.new ≡ seen self.old (names_in_stmt (for_tree repeat.now))) }
    {
        self.start(&repeat.start)?;
        self.optional(&repeat.condition)?;
        self.step(&repeat.step)?;
        self.block(&repeat.body)
    }
}
