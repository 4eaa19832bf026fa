//! Whole programs.

ghost use Rattle.std.specs.Prelude.{◌≡◌, ◌⊎◌, IfOk, OnOk, OnErr};
ghost use Rattle.cxx_tree.specs.ProgramTree.{program_tree};
ghost use Rattle.cxx_normal.specs.Directives as directives;
ghost use Rattle.cxx_normal.specs.Normal.{normal_among, normal_tree, with_main};

use crate::numbering::Numbering;
use agxx_base::{Header, Memory, NameId, Names};
use cxx_tree::{Directive, Program};
use sqlite_items::Items;
use std::alloc::Global;

fn all_includes(alloc: Global) -> Result<Items<Directive>, Memory>
    ensures { IfOk result (λ all. all ≡ directives.all_includes) }
{
    let all = [
        Directive::Include(Header::Cstdint),
        Directive::Include(Header::Cstdlib),
        Directive::Include(Header::Iostream),
        Directive::Include(Header::Mutex),
        Directive::Include(Header::Thread),
    ];
    Ok(Items::from_slice(alloc, &all)?)
}

fn normal_with(alloc: Global, program: &Program, main: NameId) -> Result<Program, Memory>
    ensures { IfOk result (λ p. program_tree p ≡ normal_tree main.0 (program_tree program.now)) }
{
    let directives = all_includes(alloc)?;
    let mut numbering = Numbering { alloc, next: 0 };
    let decls = numbering.decls(main, program.decls.as_slice())?;
    Ok(Program {
        at: program.at,
        directives,
        decls,
    })
}

/// The normal form of a program, as a new tree. `main` gets a number among the names. Without memory, and where a
/// program would have more than 2^32 nodes, there is none.
pub fn normal(alloc: Global, program: &Program, names: &mut Names) -> Result<Program, Memory>
    ensures normal { IfOk result (λ p. program_tree p ≡ normal_among names.new (program_tree program.now)) }
    ensures names { OnOk result (names.new ≡ with_main names.old) }
    ensures err { OnErr result ((names.new ≡ names.old) ⊎ (names.new ≡ with_main names.old)) }
{
    let main = names.intern(b"main".as_slice())?;
    normal_with(alloc, program, main)
}
