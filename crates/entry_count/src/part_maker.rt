//! The trees of what is generated for a part, but for its code's.

ghost use Rattle.std.specs.Prelude.{◌≡◌, [], ◌∷◌, map, IfOk};
ghost use Rattle.cxx_tree.specs.ExprTree.{expr_tree};
ghost use Rattle.cxx_tree.specs.StmtTree.{stmt_tree};
ghost use Rattle.cxx_tree.specs.ProgramTree.{function_tree};
ghost use Rattle.cxx_make.specs.Generated.{named};
ghost use Rattle.cxx_make.specs.Made as made;
ghost use Rattle.entry_count.specs.PartCode as spec;

use crate::part_names::PartName;
use agxx_base::{Memory, NameId, Names, NumKind, Place};
use cxx_make::{Maker, named_after};
use cxx_tree::{BinOp, Expr, Function, Member, Stmt, TypeName};
use sqlite_items::Items;
use std::alloc::Global;

/// Makes what is generated for the part of a class.
#[derive(Drop)]
pub(crate) struct PartMaker<'n> {
    pub(crate) alloc: Global,
    pub(crate) names: &'n Names,
    pub(crate) at: Place,
    pub(crate) class: NameId,
}

/// Four statements that follow each other.
fn four(
    alloc: Global,
    first: Stmt,
    second: Stmt,
    third: Stmt,
    last: Stmt,
) -> Result<Items<Stmt>, Memory>
    ensures { IfOk result (λ stmts. stmts ≡ first ∷ second ∷ third ∷ last ∷ []) }
{
    let mut stmts = Items::new(alloc);
    stmts.push(first)?;
    stmts.push(second)?;
    stmts.push(third)?;
    stmts.push(last)?;
    Ok(stmts)
}

impl<'n> PartMaker<'n> {
    fn maker(&self) -> Maker
        ensures { result ≡ record { alloc = self.now.alloc; at = self.now.at } }
    {
        Maker {
            alloc: self.alloc,
            at: self.at,
        }
    }

    pub(crate) fn name(&self, which: PartName) -> Result<NameId, Memory>
        ensures { IfOk result (λ name. name ≡ spec.name_of self.now.names.now self.now.class which) }
    {
        named_after(self.alloc, self.names, which.beginning(), self.class)
    }

    /// A call of a function of the lock.
    fn lock_call(&self, function: &[u8]) -> Result<Stmt, Memory>
        ensures { IfOk result (λ stmt. stmt_tree stmt
            ≡ made.call_on self.now.at (spec.mutex self.now.names.now self.now.class)
            (named self.now.names.now function.now)) }
    {
        let mutex = self.name(PartName::Lock)?;
        Ok(self.maker().call_on(mutex, self.names.number(function)))
    }

    #[tactic(auto, unfolding(crate::specs::PartCode::take_lock))]
    fn take_lock(&self) -> Result<Stmt, Memory>
        ensures { IfOk result (λ stmt. stmt_tree stmt
            ≡ spec.take_lock self.now.names.now self.now.at self.now.class) }
    {
        self.lock_call(b"lock")
    }

    #[tactic(auto, unfolding(crate::specs::PartCode::free_lock))]
    fn free_lock(&self) -> Result<Stmt, Memory>
        ensures { IfOk result (λ stmt. stmt_tree stmt
            ≡ spec.free_lock self.now.names.now self.now.at self.now.class) }
    {
        self.lock_call(b"unlock")
    }

    fn counter(&self) -> Result<NameId, Memory>
        ensures { IfOk result (λ name. name ≡ spec.counter self.now.names.now self.now.class) }
    {
        self.name(PartName::Counter)
    }

    /// Whether the counter is 0.
    #[tactic(auto, unfolding(crate::specs::PartCode::is_zero))]
    fn is_zero(&self) -> Result<Expr, Memory>
        ensures { IfOk result (λ expr. expr_tree expr
            ≡ spec.is_zero self.now.names.now self.now.at self.now.class) }
    {
        let maker = self.maker();
        let count = maker.variable(self.counter()?);
        maker.binary(BinOp::Equal, count, maker.number(NumKind::U32, 0))
    }

    /// The change of the counter by 1.
    #[tactic(auto, unfolding(crate::specs::PartCode::counts))]
    fn counts(&self, op: BinOp) -> Result<Stmt, Memory>
        ensures { IfOk result (λ stmt. stmt_tree stmt
            ≡ spec.counts self.now.names.now self.now.at self.now.class op) }
    {
        let maker = self.maker();
        let counter = self.counter()?;
        let count = maker.variable(counter);
        let value = maker.binary(op, count, maker.number(NumKind::U32, 1))?;
        Ok(maker.assign(counter, value))
    }

    /// The call of a function of the part where the counter is 0.
    #[tactic(auto, unfolding(crate::specs::PartCode::when_zero))]
    fn when_zero(&self, which: PartName) -> Result<Stmt, Memory>
        ensures { IfOk result (λ stmt. stmt_tree stmt
            ≡ spec.when_zero self.now.names.now self.now.at self.now.class
            (spec.name_of self.now.names.now self.now.class which)) }
    {
        let maker = self.maker();
        let function = self.name(which)?;
        let condition = self.is_zero()?;
        let mut stmts = Items::new(self.alloc);
        stmts.push(maker.call(function))?;
        Ok(maker.when(condition, stmts))
    }

    #[tactic(auto, unfolding(crate::specs::PartCode::repairs))]
    fn repairs(&self) -> Result<Stmt, Memory>
        ensures { IfOk result (λ stmt. stmt_tree stmt
            ≡ spec.repairs self.now.names.now self.now.at self.now.class) }
    {
        self.when_zero(PartName::Repair)
    }

    #[tactic(auto, unfolding(crate::specs::PartCode::renews))]
    fn renews(&self) -> Result<Stmt, Memory>
        ensures { IfOk result (λ stmt. stmt_tree stmt
            ≡ spec.renews self.now.names.now self.now.at self.now.class) }
    {
        self.when_zero(PartName::Renew)
    }

    #[tactic(auto, unfolding(crate::specs::PartCode::enter_body))]
    fn enter_body(&self) -> Result<Items<Stmt>, Memory>
        ensures { IfOk result (λ stmts. map stmt_tree stmts
            ≡ spec.enter_body self.now.names.now self.now.at self.now.class) }
    {
        let take = self.take_lock()?;
        let repair = self.repairs()?;
        let count = self.counts(BinOp::Add)?;
        four(self.alloc, take, repair, count, self.free_lock()?)
    }

    #[tactic(auto, unfolding(crate::specs::PartCode::leave_body))]
    fn leave_body(&self) -> Result<Items<Stmt>, Memory>
        ensures { IfOk result (λ stmts. map stmt_tree stmts
            ≡ spec.leave_body self.now.names.now self.now.at self.now.class) }
    {
        let take = self.take_lock()?;
        let count = self.counts(BinOp::Subtract)?;
        let renew = self.renews()?;
        four(self.alloc, take, count, renew, self.free_lock()?)
    }

    /// A function of the part.
    pub(crate) fn procedure(&self, which: PartName, stmts: Items<Stmt>) -> Result<Function, Memory>
        ensures { IfOk result (λ function. function_tree function
            ≡ made.procedure self.now.at (spec.name_of self.now.names.now self.now.class which)
            (map stmt_tree stmts)) }
    {
        let name = self.name(which)?;
        Ok(self.maker().procedure(name, stmts))
    }

    pub(crate) fn enter_function(&self) -> Result<Function, Memory>
        ensures { IfOk result (λ function. function_tree function
            ≡ spec.enter_function self.now.names.now self.now.at self.now.class) }
    {
        self.procedure(PartName::Enter, self.enter_body()?)
    }

    pub(crate) fn leave_function(&self) -> Result<Function, Memory>
        ensures { IfOk result (λ function. function_tree function
            ≡ spec.leave_function self.now.names.now self.now.at self.now.class) }
    {
        self.procedure(PartName::Leave, self.leave_body()?)
    }

    /// The member that counts the threads inside the part.
    pub(crate) fn counter_member(&self) -> Result<Member, Memory>
        ensures { IfOk result (λ member. member
            ≡ spec.counter_member self.now.names.now self.now.at self.now.class) }
    {
        let counter = self.counter()?;
        Ok(self.maker().member(TypeName::Num(NumKind::U32), counter))
    }

    /// The member that is the part's lock.
    pub(crate) fn lock_member(&self) -> Result<Member, Memory>
        ensures { IfOk result (λ member. member
            ≡ spec.lock_member self.now.names.now self.now.at self.now.class) }
    {
        let mutex = self.name(PartName::Lock)?;
        Ok(self.maker().member(TypeName::Mutex, mutex))
    }
}
