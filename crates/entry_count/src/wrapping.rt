//! Bodies that enter parts and leave them.

ghost use Rattle.std.specs.Prelude.{◌≡◌, ◌+◌, ◌∷◌, ◌++◌, [], false, None, map, IfOk, OnOk};
ghost use Rattle.cxx_tree.specs.ExprTree.{expr_tree};
ghost use Rattle.cxx_tree.specs.StmtTree.{stmt_tree, stmts_tree, block_tree, if_tree, else_tree, while_tree, for_tree};
ghost use Rattle.cxx_tree.specs.StmtTree.{return};
ghost use Rattle.cxx_normal.specs.Entry as entry;
ghost use Rattle.entry_count.specs.Wrapping as spec;

use crate::part_names::PartName;
use crate::returned::one_more;
use agxx_base::{Memory, NameId, Names, Place};
use cxx_copy::Copier;
use cxx_make::{Maker, named_after, numbered};
use cxx_tree::{Block, Else, Expr, For, If, Stmt, TypeName, While};
use sqlite_items::{Boxed, Items};
use std::alloc::Global;

/// Goes through a body of a function of this result type that enters these parts. `before` is how many returned values
/// stand before.
#[derive(Drop)]
struct Wrapping<'n> {
    alloc: Global,
    names: &'n Names,
    result: TypeName,
    parts: &'n [NameId],
}

impl<'n> Wrapping<'n> {
    fn maker(&self, at: Place) -> Maker
        ensures { result ≡ record { alloc = self.now.alloc; at = at } }
    {
        Maker {
            alloc: self.alloc,
            at,
        }
    }

    fn copier(&self) -> Copier {
        Copier { alloc: self.alloc }
    }

    /// The call that enters the part of a class.
    #[tactic(auto, unfolding(crate::specs::Wrapping::entering_one))]
    fn enter_one(&self, at: Place, class: NameId) -> Result<Stmt, Memory>
        ensures { IfOk result (λ stmt. stmt_tree stmt ≡ spec.entering_one self.now.names.now at class) }
    {
        let name = named_after(self.alloc, self.names, PartName::Enter.beginning(), class)?;
        Ok(self.maker(at).call(name))
    }

    /// The call that leaves the part of a class.
    #[tactic(auto, unfolding(crate::specs::Wrapping::leaving_one))]
    fn leave_one(&self, at: Place, class: NameId) -> Result<Stmt, Memory>
        ensures { IfOk result (λ stmt. stmt_tree stmt ≡ spec.leaving_one self.now.names.now at class) }
    {
        let name = named_after(self.alloc, self.names, PartName::Leave.beginning(), class)?;
        Ok(self.maker(at).call(name))
    }

    /// Enters the parts.
    #[tactic(auto, unfolding(crate::specs::Wrapping::entering))]
    fn enter(&self, at: Place, stmts: &mut Items<Stmt>) -> Result<(), Memory>
        ensures { OnOk result (map stmt_tree stmts.new
            ≡ map stmt_tree stmts.old ++ spec.entering self.now.names.now self.now.parts.now at) }
    {
        for class in self.parts {
            stmts.push(self.enter_one(at, *class)?)?;
        }
        Ok(())
    }

    /// Leaves these parts, the last one first.
    #[tactic(auto, using(crate::proofs::Leaves::leaving_last), unfolding(crate::specs::Wrapping::leaving))]
    fn leave_each(&self, at: Place, parts: &[NameId], stmts: &mut Items<Stmt>) -> Result<(), Memory>
        ensures { OnOk result (map stmt_tree stmts.new
            ≡ map stmt_tree stmts.old ++ spec.leaving self.now.names.now parts.now at) }
    {
        let mut entered = parts;
        while let [others @ .., last] = entered {
            stmts.push(self.leave_one(at, *last)?)?;
            entered = others;
        }
        Ok(())
    }

    /// Leaves the parts.
    fn leave(&self, at: Place, stmts: &mut Items<Stmt>) -> Result<(), Memory>
        ensures { OnOk result (map stmt_tree stmts.new
            ≡ map stmt_tree stmts.old ++ spec.leaving self.now.names.now self.now.parts.now at) }
    {
        self.leave_each(at, self.parts, stmts)
    }

    #[tactic(auto, unfolding(crate::specs::Wrapping::value_name))]
    fn value_name(&self, number: u32) -> Result<NameId, Memory>
        ensures { IfOk result (λ name. name ≡ spec.value_name self.now.names.now number) }
    {
        numbered(self.alloc, self.names, b"__gop_r_", number)
    }

    /// The local that takes the value.
    #[tactic(auto, unfolding(crate::specs::Wrapping::taken))]
    fn taken(&self, at: Place, value: &Expr, name: NameId) -> Result<Stmt, Memory>
        ensures { IfOk result (λ stmt. stmt_tree stmt
            ≡ spec.taken self.now.result at name (expr_tree value.now)) }
    {
        let copy = self.copier().expr(value)?;
        Ok(self.maker(at).local(self.result, name, copy))
    }

    /// The return of what a local has.
    #[tactic(auto, unfolding(crate::specs::Wrapping::given))]
    fn given(&self, at: Place, name: NameId) -> Stmt
        ensures { stmt_tree result ≡ spec.given at name }
    {
        Stmt::Return(at, Some(self.maker(at).variable(name)))
    }

    /// The return of a value by the `return` with this number.
    #[tactic(auto, unfolding(crate::specs::Wrapping::returning))]
    fn put_value(
        &self,
        at: Place,
        value: &Expr,
        number: u32,
        stmts: &mut Items<Stmt>,
    ) -> Result<(), Memory>
        ensures { OnOk result (map stmt_tree stmts.new ≡ map stmt_tree stmts.old
            ++ spec.returning self.now.names.now self.now.result self.now.parts.now at number
            (expr_tree value.now)) }
    {
        let name = self.value_name(number)?;
        stmts.push(self.taken(at, value, name)?)?;
        self.leave(at, stmts)?;
        stmts.push(self.given(at, name))?;
        Ok(())
    }

    /// The return of nothing.
    fn put_return(&self, at: Place, stmts: &mut Items<Stmt>) -> Result<(), Memory>
        ensures { OnOk result (map stmt_tree stmts.new ≡ map stmt_tree stmts.old
            ++ (spec.leaving self.now.names.now self.now.parts.now at ++ return at None ∷ [])) }
    {
        self.leave(at, stmts)?;
        stmts.push(Stmt::Return(at, None))?;
        Ok(())
    }

    #[cycle(stmt)]
    fn stmt(&self, stmt: &Stmt, before: &mut u32, stmts: &mut Items<Stmt>) -> Result<(), Memory>
        ensures stmts { OnOk result (map stmt_tree stmts.new ≡ map stmt_tree stmts.old
            ++ spec.wrapped self.now.names.now self.now.result self.now.parts.now before.old
            (stmt_tree stmt.now)) }
        ensures before { OnOk result (before.new ≡ before.old + spec.returns_in (stmt_tree stmt.now)) }
    {
        let copier = self.copier();
        match stmt {
            Stmt::Block(block) => stmts.push(Stmt::Block(self.block(block, before)?))?,
            Stmt::Local(local) => stmts.push(Stmt::Local(copier.local(local)?))?,
            Stmt::Simple(simple) => stmts.push(Stmt::Simple(copier.simple(simple)?))?,
            Stmt::If(branch) => stmts.push(Stmt::If(self.branch(branch, before)?))?,
            Stmt::While(repeat) => stmts.push(Stmt::While(self.repeat_while(repeat, before)?))?,
            Stmt::For(repeat) => stmts.push(Stmt::For(self.repeat_for(repeat, before)?))?,
            Stmt::Return(at, None) => self.put_return(*at, stmts)?,
            Stmt::Return(at, Some(value)) => {
                *before = one_more(*before)?;
                self.put_value(*at, value, *before, stmts)?;
            }
            Stmt::Delete(at, pointer) => stmts.push(Stmt::Delete(*at, copier.expr(pointer)?))?,
            Stmt::Print(print) => stmts.push(Stmt::Print(copier.print(print)?))?,
            Stmt::Thread(thread) => stmts.push(Stmt::Thread(copier.thread(thread)?))?,
            Stmt::Abort(at) => stmts.push(Stmt::Abort(*at))?,
        }
        Ok(())
    }

    #[cycle(stmt)]
    fn stmts(
        &self,
        wrapped: &[Stmt],
        before: &mut u32,
        stmts: &mut Items<Stmt>,
    ) -> Result<(), Memory>
        ensures stmts { OnOk result (map stmt_tree stmts.new ≡ map stmt_tree stmts.old
            ++ spec.wrapped_stmts self.now.names.now self.now.result self.now.parts.now before.old
            (stmts_tree wrapped.now)) }
        ensures before { OnOk result (before.new ≡ before.old + spec.returns_in_stmts (stmts_tree wrapped.now)) }
    {
        for stmt in wrapped {
            self.stmt(stmt, before, stmts)?;
        }
        Ok(())
    }

    #[cycle(stmt)]
    fn block(&self, block: &Block, before: &mut u32) -> Result<Block, Memory>
        ensures block { IfOk result (λ b. block_tree b
            ≡ spec.wrapped_block self.now.names.now self.now.result self.now.parts.now before.old
            (block_tree block.now)) }
        ensures before { OnOk result (before.new ≡ before.old + spec.returns_in_block (block_tree block.now)) }
    {
        let mut stmts = Items::new(self.alloc);
        self.stmts(block.stmts.as_slice(), before, &mut stmts)?;
        Ok(Block {
            at: block.at,
            stmts,
        })
    }

    #[cycle(stmt)]
    fn branch(&self, branch: &If, before: &mut u32) -> Result<If, Memory>
        ensures branch { IfOk result (λ b. if_tree b
            ≡ spec.wrapped_if self.now.names.now self.now.result self.now.parts.now before.old
            (if_tree branch.now)) }
        ensures before { OnOk result (before.new ≡ before.old + spec.returns_in_if (if_tree branch.now)) }
    {
        let condition = self.copier().expr(&branch.condition)?;
        let body = self.block(&branch.body, before)?;
        let otherwise = match &branch.otherwise {
            None => None,
            Some(otherwise) => Some(self.otherwise(otherwise, before)?),
        };
        Ok(If {
            at: branch.at,
            condition,
            body,
            otherwise,
        })
    }

    #[cycle(stmt)]
    fn otherwise(&self, otherwise: &Else, before: &mut u32) -> Result<Else, Memory>
        ensures otherwise { IfOk result (λ o. else_tree o
            ≡ spec.wrapped_else self.now.names.now self.now.result self.now.parts.now before.old
            (else_tree otherwise.now)) }
        ensures before { OnOk result (before.new ≡ before.old + spec.returns_in_else (else_tree otherwise.now)) }
    {
        match otherwise {
            Else::Branch(branch) => {
                let branch = self.branch(branch.get(), before)?;
                Ok(Else::Branch(Boxed::new(self.alloc, branch)?))
            }
            Else::Body(block) => Ok(Else::Body(self.block(block, before)?)),
        }
    }

    #[cycle(stmt)]
    fn repeat_while(&self, repeat: &While, before: &mut u32) -> Result<While, Memory>
        ensures repeat { IfOk result (λ w. while_tree w ∷ []
            ≡ spec.wrapped self.now.names.now self.now.result self.now.parts.now before.old
            (while_tree repeat.now)) }
        ensures before { OnOk result (before.new ≡ before.old + spec.returns_in (while_tree repeat.now)) }
    {
        let condition = self.copier().expr(&repeat.condition)?;
        let body = self.block(&repeat.body, before)?;
        Ok(While {
            at: repeat.at,
            condition,
            body,
        })
    }

    #[cycle(stmt)]
    fn repeat_for(&self, repeat: &For, before: &mut u32) -> Result<For, Memory>
        ensures repeat { IfOk result (λ f. for_tree f ∷ []
            ≡ spec.wrapped self.now.names.now self.now.result self.now.parts.now before.old
            (for_tree repeat.now)) }
        ensures before { OnOk result (before.new ≡ before.old + spec.returns_in (for_tree repeat.now)) }
    {
        let copier = self.copier();
        let start = copier.start(&repeat.start)?;
        let condition = copier.optional(&repeat.condition)?;
        let step = copier.step(&repeat.step)?;
        let body = self.block(&repeat.body, before)?;
        Ok(For {
            at: repeat.at,
            start,
            condition,
            step,
            body,
        })
    }

    /// Leaves the parts at the end, unless the last statement is a `return`.
    #[tactic(auto, unfolding(crate::specs::Wrapping::at_end))]
    fn leave_at_end(&self, body: &Block, stmts: &mut Items<Stmt>) -> Result<(), Memory>
        ensures { OnOk result (map stmt_tree stmts.new ≡ map stmt_tree stmts.old
            ++ spec.at_end self.now.names.now self.now.result self.now.parts.now body.now.at
            (stmts_tree body.now.stmts)) }
    {
        if !ends_with_return(body.stmts.as_slice()) {
            self.leave(body.at, stmts)?;
        }
        Ok(())
    }

    fn entered(&self, body: &Block) -> Result<Block, Memory>
        ensures { IfOk result (λ b. block_tree b
            ≡ spec.entered self.now.names.now self.now.result self.now.parts.now (block_tree body.now)) }
    {
        let mut before = 0;
        let mut stmts = Items::new(self.alloc);
        self.enter(body.at, &mut stmts)?;
        self.stmts(body.stmts.as_slice(), &mut before, &mut stmts)?;
        self.leave_at_end(body, &mut stmts)?;
        Ok(Block { at: body.at, stmts })
    }
}

fn is_return(stmt: &Stmt) -> bool
    ensures { result ≡ entry.is_return (stmt_tree stmt.now) }
{
    matches!(stmt, Stmt::Return(_, _))
}

#[tactic(auto, using(crate::proofs::Leaves::last_return))]
fn ends_with_return(stmts: &[Stmt]) -> bool
    ensures { result ≡ entry.ends_with_return false (stmts_tree stmts.now) }
{
    match stmts.last() {
        None => false,
        Some(last) => is_return(last),
    }
}

/// A body of a function of this result type as a new tree, in which the parts of these classes are entered at its
/// beginning, the first one first, and left before each of its exits. Without parts it is a copy.
pub fn wrap(
    alloc: Global,
    names: &Names,
    body: &Block,
    result_type: TypeName,
    parts: &[NameId],
) -> Result<Block, Memory>
    ensures { IfOk result (λ b. block_tree b
        ≡ spec.wrapped_body names.now result_type parts.now (block_tree body.now)) }
{
    if parts.is_empty() {
        return Copier { alloc }.block(body);
    }
    let wrapping = Wrapping {
        alloc,
        names,
        result: result_type,
        parts,
    };
    wrapping.entered(body)
}
