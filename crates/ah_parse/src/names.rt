//! The names in a program's text, and the guards of aspects.

ghost use Rattle.std.specs.Prelude.{◌≡◌, ◌++◌, IfOk, OnOk};
ghost use Rattle.cxx_lex.specs.TokList.{tokens_of};
ghost use Rattle.ah_parse.specs.GuardFiles as spec;

use crate::aspect::GuardAspect;
use agxx_base::{ListOf, Memory, Names, Place, Text};
use cxx_lex::{TokKind, Toks};
use guards::{Guard, GuardKind, Guards};
use std::alloc::Global;

fn is_name(kind: TokKind) -> bool
    ensures { result ≡ spec.is_name kind }
{
    match kind {
        TokKind::Name => true,
        _ => false,
    }
}

/// The names that stand as tokens.
pub fn names_in(alloc: Global, toks: &Toks) -> Result<Names, Memory>
    ensures { IfOk result (λ names. names ≡ spec.names_in (tokens_of toks.now.items)) }
{
    let mut names = Names::new(alloc);
    for tok in toks.as_slice() {
        if is_name(tok.kind) {
            names.intern(tok.text)?;
        }
    }
    Ok(names)
}

/// Appends an aspect's guards, one for each class.
fn add_guards(names: &Names, aspect: &GuardAspect, guards: &mut Guards) -> Result<(), Memory>
    ensures { OnOk result (guards.new ≡ guards.old ++ spec.guards_by names.now aspect.now) }
{
    for class in aspect.classes.as_slice() {
        guards.push(Guard {
            class: names.number(class.bytes()),
            kind: aspect.kind,
            at: aspect.at,
        })?;
    }
    Ok(())
}

/// Appends the guards of all aspects, where classes have the numbers of their names.
pub fn guards_of(
    alloc: Global,
    names: &Names,
    aspects: &[GuardAspect],
    guards: &mut Guards,
) -> Result<(), Memory>
    ensures { OnOk result (guards.new ≡ guards.old ++ spec.guards_of names.now aspects.now) }
{
    for aspect in aspects {
        add_guards(names, aspect, guards)?;
    }
    Ok(())
}
