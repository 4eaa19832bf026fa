//! Names as they are first seen.

ghost use Rattle.std.specs.Prelude.{◌≡◌, [], ◌∷◌, OnOk};
ghost use Rattle.std.specs.Option.{option_copied};
ghost use Rattle.cxx_names.specs.Tables.{thing_at};
ghost use Rattle.cxx_distinct.specs.NamesIn.{names_in_type};
ghost use Rattle.cxx_distinct.specs.Sights.{seen};

use agxx_base::{Memory, Place};
use cxx_names::Table;
use cxx_tree::{Name, Placed, TypeName};
use std::alloc::Global;
use std::marker::Model;

/// The distinct names that were gone through, each with its first place.
#[derive(Drop)]
pub(crate) struct Sights {
    table: Table<Place>,
}

impl Model for Sights {
    ghost use Rattle.std.specs.Prelude.{List, ℕ};
    ghost use Rattle.agxx_base.specs.declared.place.Place.{Place};

    ghost Value = { List (ℕ × Place) };

    ghost view = { λ sights. sights.table };
}

impl Sights {
    pub(crate) fn new(alloc: Global) -> Sights
        ensures { result ≡ [] }
    {
        Sights {
            table: Table::new(alloc),
        }
    }

    /// Goes through a name.
    pub(crate) fn name(&mut self, name: Name) -> Result<(), Memory>
        ensures { OnOk result (self.new ≡ seen self.old (name ∷ [])) }
    {
        self.table.declare(name.item, name.at)
    }

    /// Goes through a type.
    pub(crate) fn type_name(&mut self, type_name: Placed<TypeName>) -> Result<(), Memory>
        ensures { OnOk result (self.new ≡ seen self.old (names_in_type type_name)) }
    {
        match type_name.item {
            TypeName::Pointer(class) => self.name(Placed {
                at: type_name.at,
                item: class,
            }),
            _ => Ok(()),
        }
    }

    /// The place of the name past so many.
    pub(crate) fn past(&self, limit: usize) -> Option<Place>
        ensures { result ≡ thing_at self.now limit }
    {
        self.table.at(limit).copied()
    }
}
