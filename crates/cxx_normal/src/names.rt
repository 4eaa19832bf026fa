//! What the initialisers of a constructor name.

ghost use Rattle.std.specs.Prelude.{◌≡◌, IfOk, map};
ghost use Rattle.cxx_tree.specs.ProgramTree.{init_tree};
ghost use Rattle.cxx_normal.specs.Initialisers as spec;

use crate::members::Members;
use agxx_base::{Memory, NameId};
use cxx_tree::{Init, Name};
use std::alloc::Global;
use std::collections::BTreeSet;

fn names(id: NameId, name: Name) -> bool
    ensures { result ≡ spec.names id name }
{
    id.0 == name.item.0
}

pub(crate) fn names_base(base: Option<Name>, init: &Init) -> bool
    ensures { result ≡ spec.names_base base (init_tree init.now) }
{
    match base {
        None => false,
        Some(base) => names(base.item, init.name),
    }
}

#[tactic(auto, using(crate::proofs::Places::none_is))]
fn names_member(members: &Members, init: &Init) -> bool
    ensures { result ≡ spec.names_member members.now (init_tree init.now) }
{
    !members.places(init.name.item).is_empty()
}

#[tactic(auto, using(crate::proofs::Bodies::one_is))]
fn is_one(init: &Init) -> bool
    ensures { result ≡ spec.is_one (init_tree init.now).arguments }
{
    init.arguments.len() == 1
}

fn is_meant(base: Option<Name>, members: &Members, init: &Init) -> bool
    ensures { result ≡ spec.is_meant base members.now (init_tree init.now) }
{
    names_base(base, init) || names_member(members, init) && is_one(init)
}

/// Whether each initialiser names the base, or a member to which it gives one argument, and none names what another
/// does.
pub(crate) fn are_meant(
    alloc: Global,
    base: Option<Name>,
    members: &Members,
    inits: &[Init],
) -> Result<bool, Memory>
    ensures { IfOk result (λ all. all ≡ spec.are_meant base members.now (map init_tree inits.now)) }
{
    let mut named = BTreeSet::new(alloc);
    for init in inits {
        if !is_meant(base, members, init) || !named.insert(init.name.item.0)? {
            return Ok(false);
        }
    }
    Ok(true)
}
