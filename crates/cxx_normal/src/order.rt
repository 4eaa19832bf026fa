//! The order in which the initialisers of members become assignments.

ghost use Rattle.std.specs.Prelude.{◌≡◌, ℕ, if◌then◌else◌, Some, IfOk, OnOk, nat_eq, map};
ghost use Rattle.std.specs.BTreeMap.{get};
ghost use Rattle.std.specs.List.{list_any};
ghost use Rattle.std.specs.Ordering.{nat_cmp};
ghost use Rattle.cxx_tree.specs.ProgramTree.{init_tree};
ghost use Rattle.cxx_normal.specs.Places.{init_at, order_of};

use crate::members::Members;
use crate::names::names_base;
use agxx_base::Memory;
use cxx_tree::{Init, Name};
use std::alloc::Global;
use std::collections::BTreeMap;

/// Puts a number at each of the places.
fn put_at(
    numbers: &mut BTreeMap<usize, usize>,
    places: &[usize],
    number: usize,
) -> Result<(), Memory>
    ensures { OnOk result ((place : ℕ) → get nat_cmp numbers.new place
        ≡ (if list_any (nat_eq place) places.now then Some number else get nat_cmp numbers.old place)) }
{
    for place in places {
        numbers.insert(*place, number)?;
    }
    Ok(())
}

/// The place of the initialiser of each member that has one, by the place of the member.
fn numbers_by_place(
    alloc: Global,
    base: Option<Name>,
    members: &Members,
    inits: &[Init],
) -> Result<BTreeMap<usize, usize>, Memory>
    ensures { IfOk result (λ numbers. (place : ℕ) → get nat_cmp numbers place
        ≡ init_at base members.now (map init_tree inits.now) place) }
{
    let mut numbers = BTreeMap::new(alloc);
    for (number, init) in inits.iter().enumerate() {
        if !names_base(base, init) {
            put_at(&mut numbers, members.places(init.name.item), number)?;
        }
    }
    Ok(numbers)
}

/// The places of the initialisers of members, in the order in which the members are declared.
pub(crate) fn order(
    alloc: Global,
    base: Option<Name>,
    members: &Members,
    inits: &[Init],
) -> Result<Vec<usize>, Memory>
    ensures { IfOk result (λ found. found.items ≡ order_of base members.now (map init_tree inits.now)) }
{
    let numbers = numbers_by_place(alloc, base, members, inits)?;
    Ok(numbers.values().copied().collect(alloc)?)
}
