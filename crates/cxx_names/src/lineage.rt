//! Classes and the classes above them.

ghost use Rattle.std.specs.Prelude.{◌≡◌, [], ◌∷◌, MatchOption, slice_get};
ghost use Rattle.cxx_names.specs.LookUp as spec;

use crate::declarations::{ClassInfo, Declared};
use agxx_base::ClassId;
use std::marker::Model;

fn base_of(declared: &Declared, class: ClassId) -> Option<ClassId>
    ensures { result ≡ spec.base_by (slice_get declared.now.classes class.0) }
{
    match declared.class(class) {
        None => None,
        Some(info) => info.base,
    }
}

/// A class and the classes above it, of which each is told in turn, from the class upwards.
#[derive(Drop)]
pub(crate) struct Lineage<'d> {
    declared: &'d Declared,
    next: Option<ClassId>,
    /// How many classes are above the next one.
    left: usize,
}

impl<'d> Model for Lineage<'d> {
    ghost use Rattle.std.specs.Prelude.{List};
    ghost use Rattle.agxx_base.specs.declared.ids.ClassId.{ClassId};

    ghost Value = { List ClassId };

    ghost use Rattle.cxx_names.specs.LookUp.{upwards, above};

    ghost view = { λ l. upwards (above l.declared.now.classes l.left) l.next };
}

impl<'d> Lineage<'d> {
    pub(crate) fn of(declared: &'d Declared, class: ClassId) -> Lineage<'d>
        ensures { result ≡ spec.lineage declared.now class }
    {
        let ancestors = match declared.class(class) {
            None => 0,
            Some(info) => info.ancestors,
        };
        Lineage {
            declared,
            next: Some(class),
            left: ancestors,
        }
    }

    /// The next class upwards, which is no longer left.
    pub(crate) fn next(&mut self) -> Option<ClassId>
        ensures { MatchOption result (self.old ≡ []) (λ class. self.old ≡ class ∷ self.new) }
    {
        match self.next {
            None => None,
            Some(class) => {
                if self.left == 0 {
                    self.next = None;
                } else {
                    self.left -= 1;
                    self.next = base_of(self.declared, class);
                }
                Some(class)
            }
        }
    }
}
