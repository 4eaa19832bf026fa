//! What is found as a program is gone through.

ghost use Rattle.std.specs.Prelude.{◌≡◌, IfOk, OnOk, [], length};
ghost use Rattle.cxx_types.specs.Checking as spec;

use crate::entries::EntryList;
use crate::entry::{Entry, Meaning};
use crate::limits::Counts;
use agxx_base::{ListOf, Memory, Names, Place, Refusal, Rule};
use cxx_names::{Declared, Table, Thing, ValueType};
use cxx_tree::TypeName;
use std::alloc::Global;
use std::marker::Model;

/// Goes through a program, and finds the rules that it violates and what is known of its nodes.
#[derive(Drop)]
pub(crate) struct Checker<'a> {
    pub(crate) alloc: Global,
    pub(crate) names: &'a Names,
    pub(crate) declared: &'a Declared,
    /// How many things there may be.
    pub(crate) most: Counts,
    /// The violations so far.
    pub(crate) found: ListOf<Refusal>,
    /// What is known of the nodes so far.
    pub(crate) entries: EntryList,
    /// The locals and parameters in scope.
    pub(crate) scope: Table<Thing>,
    /// How many locals the function has so far.
    pub(crate) locals: usize,
    /// How many `return`s the function has so far.
    pub(crate) returns: usize,
}

impl<'a> Model for Checker<'a> {
    ghost use Rattle.cxx_types.specs.State.{State};

    ghost Value = { State };

    ghost view = { λ c. record {
      names = c.names.now;
      declared = c.declared.now;
      most = c.most;
      found = c.found;
      entries = c.entries;
      scope = c.scope;
      locals = c.locals;
      returns = c.returns;
    } };
}

impl<'a> Checker<'a> {
    /// Takes down that a rule is violated, unless it holds.
    pub(crate) fn require(&mut self, rule: Rule, place: Place, holds: bool) -> Result<(), Memory>
        ensures { OnOk result (self.new ≡ spec.required rule place holds self.old) }
    {
        if !holds {
            self.found.push(Refusal { rule, place })?;
        }
        Ok(())
    }

    /// The type of a node, as a program would spell it.
    pub(crate) fn shown_type(&self, value_type: Option<ValueType>) -> TypeName
        ensures { result ≡ spec.shown_type self.now.declared value_type }
    {
        match value_type {
            Some(ValueType::Number(kind)) => TypeName::Num(kind),
            Some(ValueType::Pointer(class)) => match self.declared.class(class) {
                None => TypeName::Void,
                Some(info) => TypeName::Pointer(info.name.item),
            },
            _ => TypeName::Void,
        }
    }

    /// Takes down what the next node is.
    pub(crate) fn node(
        &mut self,
        value_type: Option<ValueType>,
        meaning: Meaning,
    ) -> Result<(), Memory>
        ensures { OnOk result (self.new ≡ spec.noted value_type meaning self.old) }
    {
        let type_name = self.shown_type(value_type);
        self.entries.push(Entry { type_name, meaning })?;
        Ok(())
    }

    /// Takes down that the next node's type follows, and tells the node's place among the nodes.
    pub(crate) fn open_node(&mut self) -> Result<usize, Memory>
        ensures index { IfOk result (λ index. index ≡ length self.old.entries) }
        ensures state { OnOk result (self.new ≡ spec.opened self.old) }
    {
        let index = self.entries.len();
        self.node(None, Meaning::Other)?;
        Ok(index)
    }

    /// Takes down the type of a node whose parts are done.
    pub(crate) fn close_node(&mut self, index: usize, value_type: Option<ValueType>)
        ensures { self.new ≡ spec.closed index value_type self.old }
    {
        let type_name = self.shown_type(value_type);
        self.entries.set(
            index,
            Entry {
                type_name,
                meaning: Meaning::Other,
            },
        );
    }
}
