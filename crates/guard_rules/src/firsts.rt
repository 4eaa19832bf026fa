//! Which classes are guarded, and by which aspect first.

ghost use Rattle.std.specs.Prelude.{◌≡◌, [], IfOk, option_map};
ghost use Rattle.guards.specs.Guarding.{guard_of};
ghost use Rattle.guard_rules.specs.Parts.{is_guarded, place_of, first_places};

use agxx_base::{Memory, NameId, Place};
use cxx_names::Table;
use guards::Guards;
use std::alloc::Global;
use std::marker::Model;

/// Guards by classes. To find a class takes the same time however many there are.
#[derive(Drop)]
pub(crate) struct Firsts<'g> {
    guards: &'g Guards,
    /// Each guarded class with the place of its first guard.
    places: Table<Place>,
}

impl<'g> Model for Firsts<'g> {
    ghost use Rattle.std.specs.Prelude.{List, ◌≡◌, []};
    ghost use Rattle.guards.specs.declared.guard.Guard.{Guard};
    ghost use Rattle.guard_rules.specs.Parts.{first_places};

    ghost Value = { List Guard };

    ghost view = { λ f. f.guards.now };

    ghost invariant = { λ f. f.places ≡ first_places [] f.guards.now };
}

fn places_of(alloc: Global, guards: &Guards) -> Result<Table<Place>, Memory>
    ensures { IfOk result (λ places. places ≡ first_places [] guards.now) }
{
    let mut places = Table::new(alloc);
    for guard in guards.as_slice() {
        places.declare(guard.class, guard.at)?;
    }
    Ok(places)
}

impl<'g> Firsts<'g> {
    pub(crate) fn of(alloc: Global, guards: &'g Guards) -> Result<Firsts<'g>, Memory>
        ensures { IfOk result (λ firsts. firsts ≡ guards.now) }
    {
        let places = places_of(alloc, guards)?;
        Ok(Firsts { guards, places })
    }

    /// All guards, in order.
    pub(crate) fn guards(&self) -> &Guards
        ensures { result.now ≡ self.now }
    {
        self.guards
    }

    /// The place of the first guard of a class.
    #[tactic(auto, using(crate::proofs::FirstGuards::first_named))]
    pub(crate) fn place(&self, class: NameId) -> Option<Place>
        ensures { result ≡ option_map place_of (guard_of self.now class) }
    {
        self.places.find(class).copied()
    }

    pub(crate) fn has(&self, class: NameId) -> bool
        ensures { result ≡ is_guarded self.now class }
    {
        self.place(class).is_some()
    }
}
