//! Statements without a block, and their parts.

ghost use Rattle.std.specs.Prelude.{map, option_map};
ghost use Rattle.cxx_tree.specs.ExprTree.{expr_tree};
ghost use Rattle.cxx_tree.specs.StmtTree.{initial_tree, local_tree, assign_tree, simple_tree};
ghost use Rattle.cxx_tree.specs.StmtTree.{printed_tree, print_tree, thread_tree, start_tree};
ghost use Rattle.cxx_normal.specs.Gives.{Gives};
ghost use Rattle.cxx_normal.specs.Numbers.{number_optional, number_each, number_expr, number_initial};
ghost use Rattle.cxx_normal.specs.Numbers.{number_local, number_assign, number_bump, number_simple};
ghost use Rattle.cxx_normal.specs.Numbers.{number_printed, number_print, number_thread, number_start};

use crate::numbering::Numbering;
use agxx_base::Memory;
use cxx_tree::{Assign, Bump, Expr, Initial, Local, Print, Printed, Simple, Start, Thread};
use sqlite_items::Items;

impl Numbering {
    pub(crate) fn optional(&mut self, expr: &Option<Expr>) -> Result<Option<Expr>, Memory>
        ensures { Gives (option_map expr_tree)
            (number_optional number_expr (option_map expr_tree expr.now) self.old.next)
            result self.new.next }
    {
        match expr {
            None => Ok(None),
            Some(expr) => Ok(Some(self.expr(expr)?)),
        }
    }

    fn initial(&mut self, initial: &Option<Initial>) -> Result<Option<Initial>, Memory>
        ensures { Gives (option_map initial_tree)
            (number_optional number_initial (option_map initial_tree initial.now) self.old.next)
            result self.new.next }
    {
        match initial {
            None => Ok(None),
            Some(initial) => {
                let value = self.expr(&initial.value)?;
                Ok(Some(Initial {
                    sign: initial.sign,
                    value,
                }))
            }
        }
    }

    pub(crate) fn local(&mut self, local: &Local) -> Result<Local, Memory>
        ensures { Gives local_tree (number_local (local_tree local.now) self.old.next) result self.new.next }
    {
        let initial = self.initial(&local.initial)?;
        Ok(Local {
            type_name: local.type_name,
            name: local.name,
            initial,
        })
    }

    fn assign(&mut self, assign: &Assign) -> Result<Assign, Memory>
        ensures { Gives assign_tree (number_assign (assign_tree assign.now) self.old.next) result self.new.next }
    {
        let left = self.left(assign.left)?;
        let value = self.expr(&assign.value)?;
        Ok(Assign {
            left,
            sign: assign.sign,
            value,
        })
    }

    fn bump(&mut self, bump: Bump) -> Result<Bump, Memory>
        ensures { Gives (λ b. b) (number_bump bump self.old.next) result self.new.next }
    {
        let left = self.left(bump.left)?;
        Ok(Bump {
            left,
            sign: bump.sign,
            adds: bump.adds,
            in_front: bump.in_front,
        })
    }

    pub(crate) fn simple(&mut self, simple: &Simple) -> Result<Simple, Memory>
        ensures { Gives simple_tree (number_simple (simple_tree simple.now) self.old.next) result self.new.next }
    {
        match simple {
            Simple::Assign(assign) => Ok(Simple::Assign(self.assign(assign)?)),
            Simple::Bump(bump) => Ok(Simple::Bump(self.bump(*bump)?)),
            Simple::CallStmt(call) => Ok(Simple::CallStmt(self.call(call)?)),
            Simple::Proceed(at) => Ok(Simple::Proceed(*at)),
        }
    }

    pub(crate) fn step(&mut self, step: &Option<Simple>) -> Result<Option<Simple>, Memory>
        ensures { Gives (option_map simple_tree)
            (number_optional number_simple (option_map simple_tree step.now) self.old.next)
            result self.new.next }
    {
        match step {
            None => Ok(None),
            Some(step) => Ok(Some(self.simple(step)?)),
        }
    }

    pub(crate) fn start(&mut self, start: &Option<Start>) -> Result<Option<Start>, Memory>
        ensures { Gives (option_map start_tree)
            (number_optional number_start (option_map start_tree start.now) self.old.next)
            result self.new.next }
    {
        match start {
            None => Ok(None),
            Some(Start::Local(local)) => Ok(Some(Start::Local(self.local(local)?))),
            Some(Start::Simple(simple)) => Ok(Some(Start::Simple(self.simple(simple)?))),
        }
    }

    fn printed(&mut self, printed: &Printed) -> Result<Printed, Memory>
        ensures { Gives printed_tree (number_printed (printed_tree printed.now) self.old.next) result self.new.next }
    {
        match printed {
            Printed::Text(quoted) => Ok(Printed::Text(self.quoted(quoted)?)),
            Printed::Endl(at) => Ok(Printed::Endl(*at)),
            Printed::Value(value) => Ok(Printed::Value(self.expr(value)?)),
        }
    }

    fn operands(&mut self, operands: &[Printed]) -> Result<Items<Printed>, Memory>
        ensures { Gives (map printed_tree)
            (number_each number_printed (map printed_tree operands.now) self.old.next)
            result self.new.next }
    {
        let mut copies = Items::new(self.alloc);
        for operand in operands {
            copies.push(self.printed(operand)?)?;
        }
        Ok(copies)
    }

    pub(crate) fn print(&mut self, print: &Print) -> Result<Print, Memory>
        ensures { Gives print_tree (number_print (print_tree print.now) self.old.next) result self.new.next }
    {
        let operands = self.operands(print.operands.as_slice())?;
        Ok(Print {
            at: print.at,
            operands,
        })
    }

    pub(crate) fn thread(&mut self, thread: &Thread) -> Result<Thread, Memory>
        ensures { Gives thread_tree (number_thread (thread_tree thread.now) self.old.next) result self.new.next }
    {
        let function = self.reference(thread.function)?;
        let arguments = self.exprs(thread.arguments.as_slice())?;
        Ok(Thread {
            at: thread.at,
            name: thread.name,
            function,
            arguments,
        })
    }
}
