//! What is generated for a part.

ghost use Rattle.std.specs.Prelude.{◌≡◌, map, IfOk};
ghost use Rattle.cxx_tree.specs.ProgramTree.{function_tree};
ghost use Rattle.entry_count.specs.PartCode as spec;

use crate::part_maker::PartMaker;
use crate::part_names::PartName;
use agxx_base::{Memory, Names};
use codec::{Codec, Part};
use cxx_tree::{Function, Member};
use sqlite_items::Items;
use std::alloc::Global;

/// What is generated for a part.
#[derive(Drop)]
pub struct PartCode {
    /// The code's words, the counter and the lock.
    pub members: Items<Member>,
    /// Repair, renewal, entering and leaving.
    pub functions: Items<Function>,
}

fn part_members<C: Codec>(
    maker: &PartMaker,
    part: &Part,
    codec: &C,
) -> Result<Items<Member>, Memory>
    requires at { maker.now.at ≡ part.now.class.at }
    requires class { maker.now.class ≡ part.now.class.item }
    ensures { IfOk result (λ members. members
        ≡ spec.part_members (C.code codec.now) maker.now.names.now part.now) }
{
    let mut members = codec.emit_members(maker.alloc, maker.names, part)?;
    members.push(maker.counter_member()?)?;
    members.push(maker.lock_member()?)?;
    Ok(members)
}

fn part_functions<C: Codec>(
    maker: &PartMaker,
    part: &Part,
    codec: &C,
) -> Result<Items<Function>, Memory>
    requires at { maker.now.at ≡ part.now.class.at }
    requires class { maker.now.class ≡ part.now.class.item }
    ensures { IfOk result (λ functions. map function_tree functions
        ≡ spec.part_functions (C.code codec.now) maker.now.names.now part.now) }
{
    let repair = codec.emit_repair(maker.alloc, maker.names, part)?;
    let renew = codec.emit_renew(maker.alloc, maker.names, part)?;
    let mut functions = Items::new(maker.alloc);
    functions.push(maker.procedure(PartName::Repair, repair)?)?;
    functions.push(maker.procedure(PartName::Renew, renew)?)?;
    functions.push(maker.enter_function()?)?;
    functions.push(maker.leave_function()?)?;
    Ok(functions)
}

/// What is generated for a part with this code. All generated names have numbers in `names` before.
pub fn enter_leave<C: Codec>(
    alloc: Global,
    names: &Names,
    part: &Part,
    codec: &C,
) -> Result<PartCode, Memory>
    ensures members { IfOk result (λ made. made.members
        ≡ spec.part_members (C.code codec.now) names.now part.now) }
    ensures functions { IfOk result (λ made. map function_tree made.functions
        ≡ spec.part_functions (C.code codec.now) names.now part.now) }
{
    let maker = PartMaker {
        alloc,
        names,
        at: part.class.at,
        class: part.class.item,
    };
    let members = part_members(&maker, part, codec)?;
    let functions = part_functions(&maker, part, codec)?;
    Ok(PartCode { members, functions })
}
