//! Statements without a block, and their parts.

ghost use Rattle.std.specs.Prelude.{◌≡◌, IfOk, map, option_map};
ghost use Rattle.cxx_tree.specs.ExprTree.{expr_tree};
ghost use Rattle.cxx_tree.specs.StmtTree.{initial_tree, local_tree, assign_tree, simple_tree};
ghost use Rattle.cxx_tree.specs.StmtTree.{printed_tree, print_tree, thread_tree, start_tree};

use crate::copier::Copier;
use agxx_base::Memory;
use cxx_tree::{Assign, Expr, Initial, Local, Print, Printed, Simple, Start, Thread};
use sqlite_items::Items;

impl Copier {
    /// An expression that may be missing.
    pub fn optional(self, expr: &Option<Expr>) -> Result<Option<Expr>, Memory>
        ensures { IfOk result (λ e. option_map expr_tree e ≡ option_map expr_tree expr.now) }
    {
        match expr {
            None => Ok(None),
            Some(expr) => Ok(Some(self.expr(expr)?)),
        }
    }

    /// The value after the `=` of a declaration.
    pub fn initial(self, initial: &Option<Initial>) -> Result<Option<Initial>, Memory>
        ensures { IfOk result (λ i. option_map initial_tree i ≡ option_map initial_tree initial.now) }
    {
        match initial {
            None => Ok(None),
            Some(initial) => {
                let value = self.expr(&initial.value)?;
                Ok(Some(Initial {
                    sign: initial.sign,
                    value,
                }))
            }
        }
    }

    /// The declaration of a local.
    pub fn local(self, local: &Local) -> Result<Local, Memory>
        ensures { IfOk result (λ l. local_tree l ≡ local_tree local.now) }
    {
        let initial = self.initial(&local.initial)?;
        Ok(Local {
            type_name: local.type_name,
            name: local.name,
            initial,
        })
    }

    /// An assignment.
    pub fn assign(self, assign: &Assign) -> Result<Assign, Memory>
        ensures { IfOk result (λ a. assign_tree a ≡ assign_tree assign.now) }
    {
        let value = self.expr(&assign.value)?;
        Ok(Assign {
            left: assign.left,
            sign: assign.sign,
            value,
        })
    }

    /// What may also stand in the head of a `for`.
    pub fn simple(self, simple: &Simple) -> Result<Simple, Memory>
        ensures { IfOk result (λ s. simple_tree s ≡ simple_tree simple.now) }
    {
        match simple {
            Simple::Assign(assign) => Ok(Simple::Assign(self.assign(assign)?)),
            Simple::Bump(bump) => Ok(Simple::Bump(*bump)),
            Simple::CallStmt(call) => Ok(Simple::CallStmt(self.call(call)?)),
            Simple::Proceed(at) => Ok(Simple::Proceed(*at)),
        }
    }

    /// What stands last in the head of a `for`.
    pub fn step(self, step: &Option<Simple>) -> Result<Option<Simple>, Memory>
        ensures { IfOk result (λ s. option_map simple_tree s ≡ option_map simple_tree step.now) }
    {
        match step {
            None => Ok(None),
            Some(step) => Ok(Some(self.simple(step)?)),
        }
    }

    /// What stands first in the head of a `for`.
    pub fn start(self, start: &Option<Start>) -> Result<Option<Start>, Memory>
        ensures { IfOk result (λ s. option_map start_tree s ≡ option_map start_tree start.now) }
    {
        match start {
            None => Ok(None),
            Some(Start::Local(local)) => Ok(Some(Start::Local(self.local(local)?))),
            Some(Start::Simple(simple)) => Ok(Some(Start::Simple(self.simple(simple)?))),
        }
    }

    /// An operand of a print.
    pub fn printed(self, printed: &Printed) -> Result<Printed, Memory>
        ensures { IfOk result (λ p. printed_tree p ≡ printed_tree printed.now) }
    {
        match printed {
            Printed::Text(quoted) => Ok(Printed::Text(self.quoted(quoted)?)),
            Printed::Endl(at) => Ok(Printed::Endl(*at)),
            Printed::Value(value) => Ok(Printed::Value(self.expr(value)?)),
        }
    }

    /// The operands of a print.
    pub fn operands(self, operands: &[Printed]) -> Result<Items<Printed>, Memory>
        ensures { IfOk result (λ ps. map printed_tree ps ≡ map printed_tree operands.now) }
    {
        let mut copies = Items::new(self.alloc);
        for operand in operands {
            copies.push(self.printed(operand)?)?;
        }
        Ok(copies)
    }

    /// A print.
    pub fn print(self, print: &Print) -> Result<Print, Memory>
        ensures { IfOk result (λ p. print_tree p ≡ print_tree print.now) }
    {
        let operands = self.operands(print.operands.as_slice())?;
        Ok(Print {
            at: print.at,
            operands,
        })
    }

    /// The declaration of a thread.
    pub fn thread(self, thread: &Thread) -> Result<Thread, Memory>
        ensures { IfOk result (λ t. thread_tree t ≡ thread_tree thread.now) }
    {
        let arguments = self.exprs(thread.arguments.as_slice())?;
        Ok(Thread {
            at: thread.at,
            name: thread.name,
            function: thread.function,
            arguments,
        })
    }
}
