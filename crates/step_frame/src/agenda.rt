//! What is left to do in a frame, in order.

ghost use Rattle.std.specs.Prelude.{◌≡◌, [], ◌∷◌, map, OnOk, IfOk};
ghost use Rattle.cxx_core.specs.ExprView.{exprs_core};
ghost use Rattle.cxx_core.specs.StmtView.{stmts_core, printed_core};
ghost use Rattle.step_machine.specs.Item.{stmts_on, exprs_on, printed_on};
ghost use Rattle.step_frame.specs.Works.{item_of};
ghost use Rattle.std.specs.List.{list_any};
ghost use Rattle.step_machine.specs.Inserted.{is_body_level_call};
ghost use Rattle.step_frame.specs.Agendas.{entries_on, IsNext, IsFirst, is_call, any_call};
ghost use Rattle.step_frame.specs.declared.agenda.Entry.TheVariants as entry;

use crate::stack::Stack;
use crate::work::Work;
use agxx_base::Memory;
use cxx_core::{Expr, Printed, Stmt};
use std::alloc::Global;
use std::marker::Model;
use step_setting::Setting;

/// One item, or several that stand one after the other in the program.
#[derive(Clone, Copy)]
enum Entry<'p> {
    One(Work<'p>),
    Stmts(&'p [Stmt]),
    Exprs(&'p [Expr]),
    Printed(&'p [Printed]),
}

/// What is left to do, which contracts see as the list of its items, the next at the head. The
/// statements of a block take one entry, however many they are.
#[derive(Drop)]
pub struct Agenda<'p> {
    entries: Stack<Entry<'p>>,
}

impl<'p> Model for Agenda<'p> {
    ghost use Rattle.std.specs.Prelude.{List};
    ghost use Rattle.step_machine.specs.Item.{Item};
    ghost use Rattle.cxx_core.specs.Codes.{core_codes};
    ghost use Rattle.std.specs.Coded.{codes};

    ghost Value = { List Item };

    ghost coded = { Prim.hlevel (codes, core_codes) };

    ghost use Rattle.step_frame.specs.Agendas.{entries_on};

    ghost view = { λ agenda. entries_on agenda.entries };
}

const LINE_END: &[u8] = b"\n";

impl<'p> Agenda<'p> {
    /// Nothing, which takes no memory.
    pub fn new(alloc: Global) -> Agenda<'p>
        ensures { result ≡ [] }
    {
        Agenda {
            entries: Stack::new(alloc),
        }
    }

    /// Puts an item before what is left to do.
    pub fn push(&mut self, work: Work<'p>) -> Result<(), Memory>
        ensures { OnOk result (self.new ≡ item_of work.entry ∷ self.old) }
    {
        self.entries.push(Entry::One(work))
    }

    /// Puts statements before what is left to do.
    pub fn push_stmts(&mut self, stmts: &'p [Stmt]) -> Result<(), Memory>
        ensures { OnOk result (self.new ≡ stmts_on (stmts_core stmts.now) self.old) }
    {
        match stmts {
            [] => Ok(()),
            _ => self.entries.push(Entry::Stmts(stmts)),
        }
    }

    /// Puts expressions, which are evaluated one after the other, before what is left to do.
    pub fn push_exprs(&mut self, exprs: &'p [Expr]) -> Result<(), Memory>
        ensures { OnOk result (self.new ≡ exprs_on (exprs_core exprs.now) self.old) }
    {
        match exprs {
            [] => Ok(()),
            _ => self.entries.push(Entry::Exprs(exprs)),
        }
    }

    /// Puts the operands of a print before what is left to do.
    pub fn push_printed(&mut self, operands: &'p [Printed]) -> Result<(), Memory>
        ensures { OnOk result (self.new ≡ printed_on (map printed_core operands.now) self.old) }
    {
        self.entries.push(Entry::Printed(operands))
    }

    /// Takes the next item, if there is one.
    pub fn pop(&mut self) -> Result<Option<Work<'p>>, Memory>
        ensures { IfOk result (λ next. IsNext self.old self.new next) }
    {
        pop(&mut self.entries)
    }

    /// Whether a call of a level at a construction or destruction is among what is left to do.
    #[tactic(auto, using(crate::proofs::Calls::calls_are))]
    pub fn calls_body_level(&self, setting: &Setting) -> bool
        ensures { result ≡ list_any (is_body_level_call setting.now) self.now }
    {
        any_call(&self.entries, setting)
    }
}

/// Whether an entry is a call of a level at a construction or destruction.
fn is_call(entry: Entry<'_>, setting: &Setting) -> bool
    ensures { result ≡ is_call setting.now entry.entry }
{
    match entry {
        Entry::One(Work::Call(callee)) => setting.calls_body_level(&callee),
        _ => false,
    }
}

/// Whether some entry is such a call.
fn any_call(entries: &Stack<Entry<'_>>, setting: &Setting) -> bool
    ensures { result ≡ any_call setting.now entries.now }
{
    let list = entries.as_slice();
    let mut index = list.len();
    while index > 0 {
        index -= 1;
        let entry = list[index];
        if is_call(entry, setting) {
            return true;
        }
    }
    false
}

/// Takes the next item off entries.
fn pop<'p>(entries: &mut Stack<Entry<'p>>) -> Result<Option<Work<'p>>, Memory>
    ensures { IfOk result (λ next. IsNext (entries_on entries.old) (entries_on entries.new) next) }
{
    while let Some(entry) = entries.pop() {
        if let Some(work) = first_of(entries, entry)? {
            return Ok(Some(work));
        }
    }
    Ok(None)
}

/// Takes the first item of an entry that was taken off, if it has one, and puts back the others.
fn first_of<'p>(
    entries: &mut Stack<Entry<'p>>,
    entry: Entry<'p>,
) -> Result<Option<Work<'p>>, Memory>
    ensures { IfOk result (λ first. IsFirst entry.entry entries.old entries.new first) }
{
    match entry {
        Entry::One(work) => Ok(Some(work)),
        Entry::Stmts(stmts) => first_stmt(entries, stmts),
        Entry::Exprs(exprs) => first_expr(entries, exprs),
        Entry::Printed(operands) => first_printed(entries, operands),
    }
}

fn first_stmt<'p>(
    entries: &mut Stack<Entry<'p>>,
    stmts: &'p [Stmt],
) -> Result<Option<Work<'p>>, Memory>
    ensures { IfOk result (λ first. IsFirst (entry.Stmts stmts.entry) entries.old entries.new first) }
{
    match stmts {
        [] => Ok(None),
        [stmt] => Ok(Some(Work::Stmt(stmt))),
        [stmt, rest @ ..] => {
            entries.push(Entry::Stmts(rest))?;
            Ok(Some(Work::Stmt(stmt)))
        }
    }
}

fn first_expr<'p>(
    entries: &mut Stack<Entry<'p>>,
    exprs: &'p [Expr],
) -> Result<Option<Work<'p>>, Memory>
    ensures { IfOk result (λ first. IsFirst (entry.Exprs exprs.entry) entries.old entries.new first) }
{
    match exprs {
        [] => Ok(None),
        [expr] => Ok(Some(Work::Expr(expr))),
        [expr, rest @ ..] => {
            entries.push(Entry::Exprs(rest))?;
            Ok(Some(Work::Expr(expr)))
        }
    }
}

fn first_printed<'p>(
    entries: &mut Stack<Entry<'p>>,
    operands: &'p [Printed],
) -> Result<Option<Work<'p>>, Memory>
    ensures { IfOk result (λ first. IsFirst (entry.Printed operands.entry) entries.old entries.new first) }
{
    match operands {
        [] => Ok(None),
        [operand, rest @ ..] => match operand {
            Printed::Text(at, text) => {
                entries.push(Entry::Printed(rest))?;
                Ok(Some(Work::Show(*at, text.bytes())))
            }
            Printed::Endl(at) => {
                entries.push(Entry::Printed(rest))?;
                Ok(Some(Work::Show(*at, LINE_END)))
            }
            Printed::Operand(at, _, value) => {
                entries.push(Entry::Printed(rest))?;
                entries.push(Entry::One(Work::Print(*at)))?;
                Ok(Some(Work::Expr(value)))
            }
            Printed::Unprintable(_) => first_printed(entries, rest),
        },
    }
}
