//! The texts of the names that are generated.

ghost use Rattle.std.specs.Prelude.{◌≡◌, ◌++◌, map, OnOk, IfOk};
ghost use Rattle.std.specs.List.{flat_map};
ghost use Rattle.cxx_tree.specs.ProgramTree.{item_tree, class_tree, decl_tree, program_tree};
ghost use Rattle.cxx_make.specs.Generated as generated;
ghost use Rattle.codec.specs.Codes.{code_texts};
ghost use Rattle.protect.specs.GuardedParts as parts;
ghost use Rattle.protect.specs.Protected.{code_of};
ghost use Rattle.protect.specs.GeneratedNames as spec;

use crate::kinds::Kinds;
use crate::parts::part_of;
use agxx_base::{ListOf, Memory, NameId, Names, Text};
use codec::{Codec, Copies, Part};
use cxx_tree::{Decl, Item, Program};
use entry_count::{mutex_texts, part_texts, returns_in, value_texts};
use guards::GuardKind;
use hamming_gen::Hamming;
use std::alloc::Global;

/// The text of a name, or none where no name has this number.
fn text_of(names: &Names, name: NameId) -> &[u8]
    ensures { result.now ≡ generated.text_of names.now name }
{
    if (name.0 as usize) < names.len() {
        return names.text_of(name);
    }
    b"".as_slice()
}

/// Appends the texts of a part's code.
fn add_code_texts(
    alloc: Global,
    names: &Names,
    kind: GuardKind,
    part: &Part,
    texts: &mut ListOf<Text>,
) -> Result<(), Memory>
    ensures { OnOk result (texts.new ≡ texts.old ++ code_texts (code_of kind) names.now part.now) }
{
    match kind {
        GuardKind::Copies => Copies.add_texts(alloc, names, part, texts),
        GuardKind::Hamming => Hamming.add_texts(alloc, names, part, texts),
    }
}

/// Appends the texts of a part with this guard.
fn add_own_texts(
    alloc: Global,
    names: &Names,
    kind: GuardKind,
    part: &Part,
    texts: &mut ListOf<Text>,
) -> Result<(), Memory>
    ensures { OnOk result (texts.new ≡ texts.old ++ spec.own_texts names.now kind part.now) }
{
    part_texts(alloc, text_of(names, part.class.item), texts)?;
    add_code_texts(alloc, names, kind, part, texts)?;
    Ok(())
}

/// Appends the texts of a part.
fn add_part_texts(
    alloc: Global,
    names: &Names,
    part: Option<(GuardKind, Part)>,
    texts: &mut ListOf<Text>,
) -> Result<(), Memory>
    ensures { OnOk result (texts.new ≡ texts.old ++ spec.texts_of_part names.now part) }
{
    match part {
        None => Ok(()),
        Some((kind, part)) => add_own_texts(alloc, names, kind, &part, texts),
    }
}

fn add_decl_texts(
    alloc: Global,
    names: &Names,
    kinds: &Kinds,
    decl: &Decl,
    texts: &mut ListOf<Text>,
) -> Result<(), Memory>
    ensures { OnOk result (texts.new ≡ texts.old ++ spec.texts_of_decl names.now kinds.now (decl_tree decl.now)) }
{
    match decl {
        Decl::Class(class) => {
            let part = part_of(alloc, kinds, class)?;
            add_part_texts(alloc, names, part, texts)
        }
        Decl::ClassName(_) => Ok(()),
        Decl::Function(_) => Ok(()),
        Decl::Proto(_) => Ok(()),
        Decl::Global(_) => Ok(()),
    }
}

/// The texts of all parts.
fn texts_of_parts(
    alloc: Global,
    names: &Names,
    kinds: &Kinds,
    decls: &[Decl],
) -> Result<ListOf<Text>, Memory>
    ensures { IfOk result (λ texts. texts
        ≡ flat_map (spec.texts_of_decl names.now kinds.now) (map decl_tree decls.now)) }
{
    let mut texts = ListOf::new(alloc);
    for decl in decls {
        add_decl_texts(alloc, names, kinds, decl, &mut texts)?;
    }
    Ok(texts)
}

/// How many values an item that is a function returns.
fn returns_of(item: &Item) -> Result<u32, Memory>
    ensures { IfOk result (λ n. n ≡ spec.returns_of (item_tree item.now)) }
{
    match item {
        Item::Label(_, _) => Ok(0),
        Item::Member(_) => Ok(0),
        Item::Function(function) => returns_in(&function.body),
        Item::Ctor(ctor) => returns_in(&ctor.body),
        Item::Dtor(dtor) => returns_in(&dtor.body),
    }
}

/// The most values that one of the items returns, or this many.
fn most_returns(least: u32, items: &[Item]) -> Result<u32, Memory>
    ensures { IfOk result (λ n. n ≡ spec.most_returns least (map item_tree items.now)) }
{
    let mut most = least;
    for item in items {
        most = most.max(returns_of(item)?);
    }
    Ok(most)
}

/// The most values that a function of a class returns.
fn most_in_decls(decls: &[Decl]) -> Result<u32, Memory>
    ensures { IfOk result (λ n. n ≡ spec.most_in_decls 0 (map decl_tree decls.now)) }
{
    let mut most = 0;
    for decl in decls {
        if let Decl::Class(class) = decl {
            most = most_returns(most, class.items.as_slice())?;
        }
    }
    Ok(most)
}

/// The texts of all names that are generated for a program.
pub(crate) fn generated_texts(
    alloc: Global,
    names: &Names,
    kinds: &Kinds,
    program: &Program,
) -> Result<ListOf<Text>, Memory>
    ensures { IfOk result (λ texts. texts
        ≡ spec.generated_texts names.now kinds.now (program_tree program.now)) }
{
    let decls = program.decls.as_slice();
    let mut texts = texts_of_parts(alloc, names, kinds, decls)?;
    mutex_texts(alloc, &mut texts)?;
    value_texts(alloc, most_in_decls(decls)?, &mut texts)?;
    Ok(texts)
}
