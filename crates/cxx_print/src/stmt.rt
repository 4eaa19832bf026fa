//! Statements. The level is that of the line on which a statement begins.

ghost use Rattle.std.specs.Prelude.{◌≡◌, option_map};
ghost use Rattle.cxx_print.specs.Document.{deeper, line, ◌⨾◌};
ghost use Rattle.cxx_print.specs.Printing.{Prints};
ghost use Rattle.cxx_print.specs.Statements as form;
ghost use Rattle.cxx_tree.specs.StmtTree.{stmt_tree, stmts_tree, block_tree, if_tree, else_tree};
ghost use Rattle.cxx_tree.specs.StmtTree.{else_or_none, while_tree, for_tree};

use crate::printer::Printer;
use agxx_base::{Keyword, Sign, Sink};
use cxx_tree::{Block, Else, For, If, Stmt, While};

// One level deeper.
fn one_deeper(level: u32) -> u32
    ensures { result ≡ deeper level }
{
    level.saturating_add(1)
}

impl<'n> Printer<'n> {
    #[cycle(stmt)]
    fn stmt<O: Sink>(&mut self, sink: &mut O, level: u32, stmt: &Stmt)
        ensures { Prints O.taken O.faults (self.old, sink.old) (self.new, sink.new)
            (form.stmt level (stmt_tree stmt.now)) }
    {
        match stmt {
            Stmt::Block(block) => self.block(sink, level, block),
            Stmt::Local(local) => self.local_stmt(sink, local),
            Stmt::Simple(simple) => self.simple_stmt(sink, simple),
            Stmt::If(branch) => self.branch(sink, level, branch),
            Stmt::While(repeat) => self.repeat_while(sink, level, repeat),
            Stmt::For(repeat) => self.repeat_for(sink, level, repeat),
            Stmt::Return(_, value) => self.return_stmt(sink, value),
            Stmt::Delete(_, pointer) => self.delete_stmt(sink, pointer),
            Stmt::Print(print) => self.print_stmt(sink, print),
            Stmt::Thread(thread) => self.thread_stmt(sink, thread),
            Stmt::Abort(_) => self.abort_stmt(sink),
        }
    }

    // A statement with its margin, and the end of its last line.
    #[cycle(stmt)]
    fn stmt_line<O: Sink>(&mut self, sink: &mut O, level: u32, stmt: &Stmt)
        ensures { Prints O.taken O.faults (self.old, sink.old) (self.new, sink.new)
            (line level (form.stmt level (stmt_tree stmt.now))) }
    {
        self.indented(sink, level);
        self.stmt(sink, level, stmt);
        self.newline(sink);
    }

    #[cycle(stmt)]
    fn stmts<O: Sink>(&mut self, sink: &mut O, level: u32, stmts: &[Stmt])
        ensures { Prints O.taken O.faults (self.old, sink.old) (self.new, sink.new)
            (form.stmts level (stmts_tree stmts.now)) }
    {
        for stmt in stmts {
            self.stmt_line(sink, level, stmt);
        }
    }

    #[cycle(stmt)]
    pub(crate) fn block<O: Sink>(&mut self, sink: &mut O, level: u32, block: &Block)
        ensures { Prints O.taken O.faults (self.old, sink.old) (self.new, sink.new)
            (form.block level (block_tree block.now)) }
    {
        self.sign(sink, Sign::OpenBrace);
        self.newline(sink);
        self.stmts(sink, one_deeper(level), block.stmts.as_slice());
        self.indented(sink, level);
        self.sign(sink, Sign::CloseBrace);
    }

    #[cycle(stmt)]
    fn branch<O: Sink>(&mut self, sink: &mut O, level: u32, branch: &If)
        ensures { Prints O.taken O.faults (self.old, sink.old) (self.new, sink.new)
            (form.branch level (if_tree branch.now)) }
    {
        self.with_condition(sink, Keyword::If, &branch.condition);
        self.gap(sink);
        self.block(sink, level, &branch.body);
        self.alternative(sink, level, &branch.otherwise);
    }

    #[cycle(stmt)]
    fn alternative<O: Sink>(&mut self, sink: &mut O, level: u32, otherwise: &Option<Else>)
        ensures { Prints O.taken O.faults (self.old, sink.old) (self.new, sink.new)
            (form.alternative level (else_or_none (option_map else_tree otherwise.now))) }
    {
        match otherwise {
            None => {}
            Some(Else::Branch(branch)) => self.else_if(sink, level, branch.get()),
            Some(Else::Body(block)) => self.else_block(sink, level, block),
        }
    }

    #[cycle(stmt)]
    fn else_if<O: Sink>(&mut self, sink: &mut O, level: u32, next: &If)
        ensures { Prints O.taken O.faults (self.old, sink.old) (self.new, sink.new)
            (form.otherwise ⨾ form.branch level (if_tree next.now)) }
    {
        self.otherwise(sink);
        self.branch(sink, level, next);
    }

    #[cycle(stmt)]
    fn else_block<O: Sink>(&mut self, sink: &mut O, level: u32, body: &Block)
        ensures { Prints O.taken O.faults (self.old, sink.old) (self.new, sink.new)
            (form.otherwise ⨾ form.block level (block_tree body.now)) }
    {
        self.otherwise(sink);
        self.block(sink, level, body);
    }

    #[cycle(stmt)]
    fn repeat_while<O: Sink>(&mut self, sink: &mut O, level: u32, repeat: &While)
        ensures { Prints O.taken O.faults (self.old, sink.old) (self.new, sink.new)
            (form.stmt level (while_tree repeat.now)) }
    {
        self.with_condition(sink, Keyword::While, &repeat.condition);
        self.gap(sink);
        self.block(sink, level, &repeat.body);
    }

    #[cycle(stmt)]
    fn repeat_for<O: Sink>(&mut self, sink: &mut O, level: u32, repeat: &For)
        ensures { Prints O.taken O.faults (self.old, sink.old) (self.new, sink.new)
            (form.stmt level (for_tree repeat.now)) }
    {
        self.for_head(sink, repeat);
        self.gap(sink);
        self.block(sink, level, &repeat.body);
    }
}
