//! What is generated for a part.

ghost use Rattle.std.specs.Prelude.{◌≡◌, ◌++◌, ◌∷◌, [], map, IfOk};
ghost use Rattle.std.specs.List.{range_with_len};
ghost use Rattle.cxx_tree.specs.StmtTree.{stmt_tree};
ghost use Rattle.codec.specs.Part.{place_of};
ghost use Rattle.hamming_gen.specs.HammingNames as generated;
ghost use Rattle.hamming_gen.specs.HammingTrees as spec;

use crate::names::{check_name, parity_name};
use crate::positions::check_words;
use crate::renewal::renew_words;
use crate::repair::repair_words;
use crate::words::part_words;
use agxx_base::{Memory, NameId, Names, NumKind};
use codec::Part;
use cxx_make::Maker;
use cxx_tree::{Member, Stmt, TypeName};
use sqlite_items::Items;
use std::alloc::Global;

/// Makes what is generated for a part.
fn maker_at(alloc: Global, part: &Part) -> Maker
    ensures { result.at ≡ place_of part.now }
{
    Maker {
        alloc,
        at: part.class.at,
    }
}

/// `uint64_t name;`
fn word_member(maker: Maker, name: NameId) -> Member
    ensures { result ≡ spec.word_member maker.at name }
{
    maker.member(TypeName::Num(NumKind::U64), name)
}

fn check_members(
    maker: Maker,
    names: &Names,
    class: NameId,
    count: usize,
) -> Result<Items<Member>, Memory>
    ensures { IfOk result (λ members. members
        ≡ map (λ j. spec.word_member maker.at (generated.check_name names.now class j))
        (range_with_len 0 count)) }
{
    let mut members = Items::new(maker.alloc);
    for number in 0..count {
        let name = check_name(maker.alloc, names, class, number)?;
        members.push(word_member(maker, name))?;
    }
    Ok(members)
}

/// The members for the words that are added to a part.
pub(crate) fn part_members(
    alloc: Global,
    names: &Names,
    part: &Part,
) -> Result<Items<Member>, Memory>
    ensures { IfOk result (λ members. members ≡ spec.part_members names.now part.now) }
{
    let maker = maker_at(alloc, part);
    let class = part.class.item;
    let count = check_words(part.members.as_slice().len());
    let mut members = check_members(maker, names, class, count)?;
    members.push(word_member(maker, parity_name(alloc, names, class)?))?;
    Ok(members)
}

/// The statements that repair a part.
pub(crate) fn part_repair(alloc: Global, names: &Names, part: &Part) -> Result<Items<Stmt>, Memory>
    ensures { IfOk result (λ stmts. map stmt_tree stmts ≡ spec.part_repair names.now part.now) }
{
    let words = part_words(alloc, names, part)?;
    repair_words(maker_at(alloc, part), &words)
}

/// The statements that renew what was added to a part.
pub(crate) fn part_renew(alloc: Global, names: &Names, part: &Part) -> Result<Items<Stmt>, Memory>
    ensures { IfOk result (λ stmts. map stmt_tree stmts ≡ spec.part_renew names.now part.now) }
{
    let words = part_words(alloc, names, part)?;
    renew_words(maker_at(alloc, part), &words)
}
