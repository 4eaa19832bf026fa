//! Functions, constructors and destructors that enter parts and leave them.

ghost use Rattle.std.specs.Prelude.{◌≡◌, IfOk, map};
ghost use Rattle.cxx_tree.specs.ProgramTree.{function_tree, ctor_tree, dtor_tree, item_tree};
ghost use Rattle.protect.specs.Protected as spec;

use agxx_base::{Memory, NameId, Names};
use cxx_copy::Copier;
use cxx_tree::{Ctor, Dtor, Function, Item, TypeName};
use entry_count::wrap;
use sqlite_items::Items;
use std::alloc::Global;

fn wrapped_function(
    alloc: Global,
    names: &Names,
    parts: &[NameId],
    function: &Function,
) -> Result<Function, Memory>
    ensures { IfOk result (λ f. function_tree f
        ≡ spec.wrapped_function names.now parts.now (function_tree function.now)) }
{
    let copier = Copier { alloc };
    let params = copier.params(function.params.as_slice())?;
    let body = wrap(alloc, names, &function.body, function.result.item, parts)?;
    Ok(Function {
        result: function.result,
        name: function.name,
        params,
        body,
    })
}

fn wrapped_ctor(alloc: Global, names: &Names, parts: &[NameId], ctor: &Ctor) -> Result<Ctor, Memory>
    ensures { IfOk result (λ c. ctor_tree c ≡ spec.wrapped_ctor names.now parts.now (ctor_tree ctor.now)) }
{
    let copier = Copier { alloc };
    let params = copier.params(ctor.params.as_slice())?;
    let inits = copier.inits(ctor.inits.as_slice())?;
    let body = wrap(alloc, names, &ctor.body, TypeName::Void, parts)?;
    Ok(Ctor {
        name: ctor.name,
        params,
        inits,
        body,
    })
}

fn wrapped_dtor(alloc: Global, names: &Names, parts: &[NameId], dtor: &Dtor) -> Result<Dtor, Memory>
    ensures { IfOk result (λ d. dtor_tree d ≡ spec.wrapped_dtor names.now parts.now (dtor_tree dtor.now)) }
{
    let body = wrap(alloc, names, &dtor.body, TypeName::Void, parts)?;
    Ok(Dtor {
        at: dtor.at,
        name: dtor.name,
        body,
    })
}

fn wrapped_item(alloc: Global, names: &Names, parts: &[NameId], item: &Item) -> Result<Item, Memory>
    ensures { IfOk result (λ i. item_tree i ≡ spec.wrapped_item names.now parts.now (item_tree item.now)) }
{
    match item {
        Item::Label(at, access) => Ok(Item::Label(*at, *access)),
        Item::Member(member) => Ok(Item::Member(*member)),
        Item::Function(function) => Ok(Item::Function(wrapped_function(
            alloc, names, parts, function,
        )?)),
        Item::Ctor(ctor) => Ok(Item::Ctor(wrapped_ctor(alloc, names, parts, ctor)?)),
        Item::Dtor(dtor) => Ok(Item::Dtor(wrapped_dtor(alloc, names, parts, dtor)?)),
    }
}

/// The items of a class, of which each function enters these parts.
pub(crate) fn wrapped_items(
    alloc: Global,
    names: &Names,
    parts: &[NameId],
    items: &[Item],
) -> Result<Items<Item>, Memory>
    ensures { IfOk result (λ is. map item_tree is
        ≡ map (spec.wrapped_item names.now parts.now) (map item_tree items.now)) }
{
    let mut wrapped = Items::new(alloc);
    for item in items {
        wrapped.push(wrapped_item(alloc, names, parts, item)?)?;
    }
    Ok(wrapped)
}
