//! Reading of guard files.

ghost use Rattle.std.specs.Prelude.{◌≡◌, ◌≤◌, ℕ, List, length, IfOk, IfSome, MatchOption};
ghost use Rattle.agxx_base.specs.Names.{interned};
ghost use Rattle.cxx_lex.specs.TokList.{tokens_of};
ghost use Rattle.ah_parse.specs.Descent.{AreFile, AreNoFile, IsFresh, IsNoFresh};
ghost use Rattle.ah_parse.specs.GuardFiles.{IsGuardFile, taken_after, GrowsTo};
ghost use Rattle.ah_parse.specs.declared.aspect.GuardAspect as declared;

use crate::aspect::GuardAspect;
use crate::reader::Reader;
use agxx_base::{Fault, LARGEST_TEXT, ListOf, Memory, Mode, Names, Text};
use cxx_lex::{Tok, lex_all};
use std::alloc::Global;

/// The aspect with which the tokens begin, where its name isn't taken. It is taken then.
fn take_aspect<'t>(
    alloc: Global,
    reader: &mut Reader<'t>,
    taken: &mut Names,
) -> Result<Option<GuardAspect>, Memory>
    ensures found { IfOk result (λ found. MatchOption found
        (IsNoFresh taken.old reader.old)
        (λ aspect. IsFresh taken.old aspect reader.old reader.new)) }
    ensures taken { IfOk result (λ found. IfSome found
        (λ aspect. taken.new ≡ interned taken.old aspect.name)) }
    ensures grows { GrowsTo taken.old taken.new }
{
    let Some(aspect) = reader.aspect(alloc)? else {
        return Ok(None);
    };
    if taken.knows(aspect.name.bytes()) {
        return Ok(None);
    }
    taken.intern(aspect.name.bytes())?;
    Ok(Some(aspect))
}

/// The aspects that all tokens are.
fn read_aspects<'t>(
    alloc: Global,
    toks: &'t [Tok<'t>],
    taken: &mut Names,
) -> Result<Option<ListOf<GuardAspect>>, Memory>
    ensures read { IfOk result (λ found. MatchOption found
        (AreNoFile taken.old (tokens_of toks.now))
        (λ aspects. AreFile taken.old aspects (tokens_of toks.now))) }
    ensures taken { IfOk result (λ found. IfSome found
        (λ aspects. taken.new ≡ taken_after taken.old aspects)) }
    ensures grows { GrowsTo taken.old taken.new }
{
    let mut aspects = ListOf::new(alloc);
    let mut reader = Reader::new(toks);
    'aspects: loop {
        if reader.is_empty() {
            return Ok(Some(aspects));
        }
        let Some(aspect) = take_aspect(alloc, &mut reader, taken)? else {
            return Ok(None);
        };
        aspects.push(aspect)?;
    }
}

/// The aspects of a guard file, or none where the text is no guard file. `file` is the number of the text's file in
/// places, and `taken` has the names that the aspects may not have; theirs are added at its end.
pub fn read_guards(
    alloc: Global,
    text: &Text,
    file: u32,
    taken: &mut Names,
) -> Result<Option<ListOf<GuardAspect>>, Memory>
    requires { length text.now ≤ LARGEST_TEXT }
    ensures read { IfOk result (λ found. MatchOption found
        ((aspects : List declared.GuardAspect) → IsGuardFile file taken.old text.now aspects → ⊥)
        (λ aspects. IsGuardFile file taken.old text.now aspects)) }
    ensures taken { IfOk result (λ found. IfSome found
        (λ aspects. taken.new ≡ taken_after taken.old aspects)) }
    // Where the text is no guard file, some names may have been added.
    ensures grows { GrowsTo taken.old taken.new }
{
    match lex_all(alloc, text.bytes(), file, Mode::Source) {
        Ok(toks) => read_aspects(alloc, toks.as_slice(), taken),
        Err(Fault::Refused(_)) => Ok(None),
        Err(Fault::Memory) => Err(Memory),
    }
}
