//! The members of a class, found by their names.

ghost use Rattle.std.specs.Prelude.{◌≡◌, ℕ, IfOk, map};
ghost use Rattle.std.specs.List.{flat_map};
ghost use Rattle.cxx_tree.specs.ProgramTree.{item_tree};
ghost use Rattle.cxx_normal.specs.Initialisers.{members_in};
ghost use Rattle.cxx_normal.specs.Places.{ids_at, places_of};

use agxx_base::{Memory, NameId};
use cxx_tree::Item;
use sqlite_items::Items;
use std::alloc::Global;
use std::collections::BTreeMap;
use std::marker::Model;

/// The members of a class in order of declaration. To find the places of a name in this order takes few steps, however
/// many members there are.
#[derive(Drop)]
pub(crate) struct Members {
    ids: Items<NameId>,
    /// The places of each name, by its number.
    places: BTreeMap<u32, Vec<usize>>,
}

impl Model for Members {
    ghost use Rattle.std.specs.Prelude.{◌≡◌, ℕ, List};
    ghost use Rattle.agxx_base.specs.declared.ids.NameId.{NameId};
    ghost use Rattle.cxx_normal.specs.Places.{ids_at, places_of};

    ghost Value = { List NameId };

    ghost view = { λ m. m.ids };

    ghost invariant = { λ m. (number : ℕ) → ids_at m.places number ≡ places_of number m.ids };
}

/// The names of the members.
fn ids_of(alloc: Global, items: &[Item]) -> Result<Items<NameId>, Memory>
    ensures { IfOk result (λ ids. ids ≡ flat_map members_in (map item_tree items.now)) }
{
    let mut ids = Items::new(alloc);
    for item in items {
        if let Item::Member(member) = item {
            ids.push(member.name.item)?;
        }
    }
    Ok(ids)
}

/// The places of each name among these.
fn places_by_name(alloc: Global, ids: &[NameId]) -> Result<BTreeMap<u32, Vec<usize>>, Memory>
    ensures { IfOk result (λ places. (number : ℕ) → ids_at places number ≡ places_of number ids.now) }
{
    let mut places = BTreeMap::new(alloc);
    for (place, id) in ids.iter().enumerate() {
        places.entry(id.0)?.or_insert(Vec::new(alloc)).push(place)?;
    }
    Ok(places)
}

impl Members {
    pub(crate) fn of(alloc: Global, items: &[Item]) -> Result<Members, Memory>
        ensures { IfOk result (λ members. members ≡ flat_map members_in (map item_tree items.now)) }
    {
        let ids = ids_of(alloc, items)?;
        let places = places_by_name(alloc, ids.as_slice())?;
        Ok(Members { ids, places })
    }

    /// The places of a name, none if it is no member's.
    pub(crate) fn places(&self, id: NameId) -> &[usize]
        ensures { result.now ≡ places_of id.0 self.now }
    {
        match self.places.get(&id.0) {
            Some(places) => places.as_slice(),
            None => &[],
        }
    }
}
