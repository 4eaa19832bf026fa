//! Members that statements reach.

ghost use Rattle.std.specs.Prelude.{◌≡◌, map, option_map};
ghost use Rattle.cxx_tree.specs.ExprTree.{expr_tree};
ghost use Rattle.cxx_tree.specs.StmtTree.{local_tree, simple_tree, printed_tree, start_tree, stmt_tree, stmts_tree};
ghost use Rattle.cxx_tree.specs.StmtTree.{block_tree, if_tree, else_tree, while_tree, for_tree};
ghost use Rattle.guard_rules.specs.ThroughMembers as spec;
ghost use Rattle.guard_rules.specs.Nearest.{through_each, through_optional};

use crate::known::Known;
use agxx_base::Refusal;
use cxx_tree::{Block, Else, Expr, For, If, Local, Printed, Simple, Start, Stmt, While};

impl<'a> Known<'a> {
    fn reached_in_optional(&self, found: Option<Refusal>, expr: &Option<Expr>) -> Option<Refusal>
        ensures { result ≡ through_optional (spec.through_expr self.now)
            (option_map expr_tree expr.now) found }
    {
        match expr {
            None => found,
            Some(expr) => self.reached_in(found, expr),
        }
    }

    fn reached_in_local(&self, found: Option<Refusal>, local: &Local) -> Option<Refusal>
        ensures { result ≡ spec.through_local self.now (local_tree local.now) found }
    {
        match &local.initial {
            None => found,
            Some(initial) => self.reached_in(found, &initial.value),
        }
    }

    fn reached_in_simple(&self, found: Option<Refusal>, simple: &Simple) -> Option<Refusal>
        ensures { result ≡ spec.through_simple self.now (simple_tree simple.now) found }
    {
        match simple {
            Simple::Assign(assign) => {
                self.reached_in(self.reached_in_left(found, &assign.left), &assign.value)
            }
            Simple::Bump(bump) => self.reached_in_left(found, &bump.left),
            Simple::CallStmt(call) => self.reached_in_call(found, call),
            Simple::Proceed(_) => found,
        }
    }

    fn reached_in_step(&self, found: Option<Refusal>, step: &Option<Simple>) -> Option<Refusal>
        ensures { result ≡ through_optional (spec.through_simple self.now)
            (option_map simple_tree step.now) found }
    {
        match step {
            None => found,
            Some(step) => self.reached_in_simple(found, step),
        }
    }

    fn reached_in_start(&self, found: Option<Refusal>, start: &Option<Start>) -> Option<Refusal>
        ensures { result ≡ through_optional (spec.through_start self.now)
            (option_map start_tree start.now) found }
    {
        match start {
            None => found,
            Some(Start::Local(local)) => self.reached_in_local(found, local),
            Some(Start::Simple(simple)) => self.reached_in_simple(found, simple),
        }
    }

    fn reached_in_operands(&self, found: Option<Refusal>, operands: &[Printed]) -> Option<Refusal>
        ensures { result ≡ through_each (spec.through_printed self.now)
            (map printed_tree operands.now) found }
    {
        let mut first = found;
        for operand in operands {
            if let Printed::Value(value) = operand {
                first = self.reached_in(first, value);
            }
        }
        first
    }

    #[cycle(reached_in_stmts)]
    fn reached_in_stmt(&self, found: Option<Refusal>, stmt: &Stmt) -> Option<Refusal>
        ensures { result ≡ spec.through_stmt self.now (stmt_tree stmt.now) found }
    {
        match stmt {
            Stmt::Block(block) => self.reached_in_block(found, block),
            Stmt::Local(local) => self.reached_in_local(found, local),
            Stmt::Simple(simple) => self.reached_in_simple(found, simple),
            Stmt::If(branch) => self.reached_in_if(found, branch),
            Stmt::While(repeat) => self.reached_in_while(found, repeat),
            Stmt::For(repeat) => self.reached_in_for(found, repeat),
            Stmt::Return(_, value) => self.reached_in_optional(found, value),
            Stmt::Delete(_, pointer) => self.reached_in(found, pointer),
            Stmt::Print(print) => self.reached_in_operands(found, print.operands.as_slice()),
            Stmt::Thread(thread) => self.reached_in_exprs(found, thread.arguments.as_slice()),
            Stmt::Abort(_) => found,
        }
    }

    #[cycle(reached_in_stmts)]
    fn reached_in_stmts(&self, found: Option<Refusal>, stmts: &[Stmt]) -> Option<Refusal>
        ensures { result ≡ spec.through_stmts self.now (stmts_tree stmts.now) found }
    {
        let mut first = found;
        for stmt in stmts {
            first = self.reached_in_stmt(first, stmt);
        }
        first
    }

    #[cycle(reached_in_stmts)]
    pub(super) fn reached_in_block(&self, found: Option<Refusal>, block: &Block) -> Option<Refusal>
        ensures { result ≡ spec.through_block self.now (block_tree block.now) found }
    {
        self.reached_in_stmts(found, block.stmts.as_slice())
    }

    #[cycle(reached_in_stmts)]
    fn reached_in_if(&self, found: Option<Refusal>, branch: &If) -> Option<Refusal>
        ensures { result ≡ spec.through_if self.now (if_tree branch.now) found }
    {
        let condition = self.reached_in(found, &branch.condition);
        let body = self.reached_in_block(condition, &branch.body);
        match &branch.otherwise {
            None => body,
            Some(otherwise) => self.reached_in_else(body, otherwise),
        }
    }

    #[cycle(reached_in_stmts)]
    fn reached_in_else(&self, found: Option<Refusal>, otherwise: &Else) -> Option<Refusal>
        ensures { result ≡ spec.through_else self.now (else_tree otherwise.now) found }
    {
        match otherwise {
            Else::Branch(branch) => self.reached_in_if(found, branch.get()),
            Else::Body(block) => self.reached_in_block(found, block),
        }
    }

    #[cycle(reached_in_stmts)]
    fn reached_in_while(&self, found: Option<Refusal>, repeat: &While) -> Option<Refusal>
        ensures { result ≡ spec.through_stmt self.now (while_tree repeat.now) found }
    {
        self.reached_in_block(self.reached_in(found, &repeat.condition), &repeat.body)
    }

    #[cycle(reached_in_stmts)]
    fn reached_in_for(&self, found: Option<Refusal>, repeat: &For) -> Option<Refusal>
        ensures { result ≡ spec.through_stmt self.now (for_tree repeat.now) found }
    {
        let start = self.reached_in_start(found, &repeat.start);
        let condition = self.reached_in_optional(start, &repeat.condition);
        let step = self.reached_in_step(condition, &repeat.step);
        self.reached_in_block(step, &repeat.body)
    }
}
