//! Aspects and pointcuts.

ghost use Rattle.std.specs.Prelude.{◌≡◌, [], OnOk, OnErr};
ghost use Rattle.cxx_tree.specs.AspectTree.{aspects_tree, followed_by};

use crate::node::{Name, Placed, Quoted};
use crate::program::{Access, ClassWord, Directive, Function, Member, Param};
use crate::stmt::Block;
use agxx_base::{Memory, Place};
use sqlite_items::{Boxed, Items};
use std::alloc::Global;

/// An operator between two pointcuts.
#[derive(Clone, Copy, Debug, PartialEq, Eq)]
pub enum PointcutOp {
    Or,
    And,
}

/// A function of pointcuts.
#[derive(Clone, Copy, Debug, PartialEq, Eq)]
pub enum PointcutFunction {
    Call,
    Execution,
    Construction,
    Destruction,
    Within,
    That,
    Target,
    Derived,
}

/// An entry of `args`: a type pattern, or the name of a parameter of the advice.
#[derive(Drop)]
pub enum ArgsEntry {
    Pattern(Quoted),
    Bound(Name),
}

/// An expression for classes, functions or join points.
#[derive(Drop)]
pub enum Pointcut {
    Binary(Placed<PointcutOp>, Boxed<Pointcut>, Boxed<Pointcut>),
    /// `!`
    Not(Place, Boxed<Pointcut>),
    Paren(Place, Boxed<Pointcut>),
    Match(Quoted),
    /// The name of a pointcut and `()`.
    Named(Name),
    Apply(Placed<PointcutFunction>, Boxed<Pointcut>),
    Args(Place, Items<ArgsEntry>),
}

/// A named pointcut.
#[derive(Drop)]
pub struct PointcutDecl {
    pub at: Place,
    pub is_virtual: bool,
    pub name: Name,
    /// None for `= 0`.
    pub definition: Option<Pointcut>,
}

/// When an advice runs.
#[derive(Clone, Copy, Debug, PartialEq, Eq)]
pub enum Moment {
    Before,
    After,
    Around,
}

/// An advice with a body.
#[derive(Drop)]
pub struct Advice {
    pub at: Place,
    pub pointcut: Pointcut,
    pub moment: Moment,
    pub params: Items<Param>,
    pub body: Block,
}

/// An order line, with at least two names of aspects.
#[derive(Drop)]
pub struct Order {
    pub at: Place,
    pub pointcut: Pointcut,
    pub aspects: Items<Quoted>,
}

/// What stands in the braces of a slice.
#[derive(Drop)]
pub enum SliceItem {
    Label(Place, Access),
    Member(Member),
    Function(Function),
}

/// Members and functions for the classes of a pointcut.
#[derive(Drop)]
pub struct Slice {
    pub at: Place,
    pub pointcut: Pointcut,
    pub word: ClassWord,
    pub items: Items<SliceItem>,
}

/// What stands in the braces of an aspect.
#[derive(Drop)]
pub enum AspectItem {
    Label(Place, Access),
    Member(Member),
    Function(Function),
    Pointcut(PointcutDecl),
    Advice(Advice),
    Order(Order),
    Slice(Slice),
}

/// An aspect with its items.
#[derive(Drop)]
pub struct Aspect {
    pub at: Place,
    pub name: Name,
    pub base: Option<Name>,
    pub items: Items<AspectItem>,
}

/// The aspects of one or several files, in order.
#[derive(Drop)]
pub struct Aspects {
    pub directives: Vec<Directive>,
    pub aspects: Vec<Aspect>,
}

impl Aspects {
    /// No aspect, which takes no memory.
    pub fn new(alloc: Global) -> Aspects
        ensures { aspects_tree result ≡ record { directives = []; aspects = [] } }
    {
        Aspects {
            directives: Vec::new(alloc),
            aspects: Vec::new(alloc),
        }
    }

    /// Puts what the next file has behind what was there. Without memory all stays as it was, and `more` is dropped.
    pub fn append(&mut self, more: Aspects) -> Result<(), Memory>
        ensures ok { OnOk result (aspects_tree self.new ≡ followed_by (aspects_tree self.old) (aspects_tree more)) }
        ensures err { OnErr result (aspects_tree self.new ≡ aspects_tree self.old) }
    {
        let Aspects {
            mut directives,
            mut aspects,
        } = more;
        self.directives.reserve(directives.len())?;
        self.aspects.append(&mut aspects)?;
        self.directives.append(&mut directives)?;
        Ok(())
    }
}
