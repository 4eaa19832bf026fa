//! What is known where a program is protected.

ghost use Rattle.std.specs.Prelude.{◌≡◌, option_map};
ghost use Rattle.std.specs.List.{list_any};
ghost use Rattle.cxx_names.specs.LookUp.{upwards, above};
ghost use Rattle.guard_rules.specs.Parts as spec;

use crate::firsts::Firsts;
use agxx_base::{ClassId, NameId};
use cxx_names::{ClassInfo, Declared};
use cxx_types::Typed;
use std::marker::Model;

/// A program with what is known of it, and its guards.
#[derive(Drop)]
pub(crate) struct Known<'a> {
    pub(crate) typed: &'a Typed,
    pub(crate) declared: &'a Declared,
    pub(crate) firsts: &'a Firsts<'a>,
}

impl<'a> Model for Known<'a> {
    ghost use Rattle.guard_rules.specs.Parts.{Known};

    ghost Value = { Known };

    ghost view = { λ k. record {
      guards = k.firsts.now;
      declared = k.declared.now;
      entries = k.typed.now.entries;
    } };
}

impl<'a> Known<'a> {
    pub(crate) fn is_guarded(&self, class: NameId) -> bool
        ensures { result ≡ spec.is_guarded self.now.guards class }
    {
        self.firsts.has(class)
    }

    pub(crate) fn class_is_guarded(&self, class: ClassId) -> bool
        ensures { result ≡ spec.class_is_guarded self.now.guards self.now.declared class }
    {
        match self.declared.class(class) {
            None => false,
            Some(info) => self.firsts.has(info.name.item),
        }
    }

    fn has_part(&self, class: Option<&ClassInfo>) -> bool
        ensures { result ≡ spec.info_has_part self.now.guards (option_map spec.lent class.entry) }
    {
        match class {
            None => false,
            Some(info) => self.firsts.has(info.name.item) && info.members.len() > 0,
        }
    }

    /// Whether a class, if there is one, or one above it has a part, of so many above it at most.
    fn any_has_part(&self, class: Option<ClassId>, left: usize) -> bool
        ensures { result ≡ list_any (spec.has_part self.now.guards self.now.declared)
            (upwards (above self.now.declared.classes left) class) }
    {
        let Some(class) = class else { return false };
        let info = self.declared.class(class);
        if self.has_part(info) {
            return true;
        }
        match info {
            None => false,
            Some(info) => left > 0 && self.any_has_part(info.base, left - 1),
        }
    }

    /// Whether objects of the class of a number have a part.
    pub(crate) fn holds_part(&self, class: usize) -> bool
        ensures { result ≡ spec.holds_part self.now.guards self.now.declared (spec.numbered class) }
    {
        let info = self.declared.classes().get(class);
        if self.has_part(info) {
            return true;
        }
        match info {
            None => false,
            Some(info) => info.ancestors > 0 && self.any_has_part(info.base, info.ancestors - 1),
        }
    }
}
