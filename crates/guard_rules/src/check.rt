//! All rules on protection.

ghost use Rattle.std.specs.Prelude.{◌≡◌, Some, None, IfOk, IfErr, OnOk, map};
ghost use Rattle.agxx_base.specs.Refusals.{IfRefused};
ghost use Rattle.cxx_tree.specs.ProgramTree.{decl_tree, program_tree};
ghost use Rattle.cxx_names.specs.Declarations.{declared};
ghost use Rattle.guard_rules.specs.FirstFound as spec;
ghost use Rattle.guard_rules.specs.Violations.{refusal_of_guards, IfNumbered};

use crate::firsts::Firsts;
use crate::known::Known;
use agxx_base::{Fault, Memory, Names, Refusal};
use cxx_names::Declared;
use cxx_tree::{Decl, Program};
use cxx_types::Typed;
use guards::Guards;
use std::alloc::Global;

impl<'a> Known<'a> {
    /// The first violation.
    fn first(&self, decls: &[Decl]) -> Option<Refusal>
        ensures { result ≡ spec.first_by_walks self.now (map decl_tree decls.now) }
    {
        let reached = self.reached(None, decls);
        let bools = self.bool_members(reached, decls);
        let past = self.members_past(bools, decls);
        let twice = self.guarded_twice(past, self.firsts.guards().as_slice());
        self.deletes(twice, decls)
    }
}

/// The first violation in a program, which declares what is known of it.
fn first_of(names: &Names, known: &Known<'_>, program: &Program) -> Option<Refusal>
    requires { known.now.declared ≡ declared names.now (program_tree program.now) }
    ensures { result ≡ spec.first_found names.now known.now.guards known.now.entries
        (program_tree program.now) }
{
    known.first(program.decls.as_slice())
}

fn refusal_of(
    alloc: Global,
    names: &Names,
    typed: &Typed,
    guards: &Guards,
) -> Result<Option<Refusal>, Memory>
    ensures { IfOk result (λ refusal. refusal ≡ spec.first_found names.now guards.now
        typed.now.entries (program_tree typed.now.program)) }
{
    let declared = Declared::of(alloc, names, typed.program())?;
    let firsts = Firsts::of(alloc, guards)?;
    let known = Known {
        typed,
        declared: &declared,
        firsts: &firsts,
    };
    Ok(first_of(names, &known, typed.program()))
}

/// Whether a program in normal form keeps the rules on protection where it has these guards, or the rule that it
/// violates and where: of several the first, by place and then by rule. Names have the texts with which the program was
/// checked.
pub fn check_guards(
    alloc: Global,
    names: &Names,
    typed: &Typed,
    guards: &Guards,
) -> Result<(), Fault>
    ensures kept { OnOk result (IfNumbered names.now typed.now (λ q.
        refusal_of_guards names.now guards.now q ≡ None)) }
    ensures refused { IfErr result (λ fault. IfRefused fault (λ refusal.
        IfNumbered names.now typed.now (λ q.
        refusal_of_guards names.now guards.now q ≡ Some refusal))) }
{
    match refusal_of(alloc, names, typed, guards) {
        Ok(None) => Ok(()),
        Ok(Some(refusal)) => Err(Fault::Refused(refusal)),
        Err(Memory) => Err(Fault::Memory),
    }
}
