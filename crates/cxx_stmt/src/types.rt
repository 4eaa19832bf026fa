//! Types, but that of a mutex, and parameters.

ghost use Rattle.std.specs.Prelude.{◌≡◌, ◌<◌, ◌≤◌, length, map, OnOk};
ghost use Rattle.cxx_expr.specs.Outcome.{Reads};
ghost use Rattle.cxx_stmt.specs.Parts as parts;
ghost use Rattle.cxx_stmt.specs.Types as grammar;

use crate::parts::open_paren;
use agxx_base::{Keyword, Sign};
use cxx_expr::{Parser, Stop, Word};
use cxx_tree::{Name, Param, Placed, TypeName};
use sqlite_items::Items;

/// The type that a keyword is.
pub fn word_type(keyword: Keyword) -> Option<TypeName>
    ensures { result ≡ grammar.word_type keyword }
{
    match keyword {
        Keyword::Number(kind) => Some(TypeName::Num(kind)),
        Keyword::Int => Some(TypeName::Int),
        Keyword::Unsigned => Some(TypeName::Unsigned),
        Keyword::Void => Some(TypeName::Void),
        _ => None,
    }
}

/// The type of pointers to objects of a class, where the class's name stands.
pub fn pointer_to(class: Name) -> Placed<TypeName>
    ensures { result ≡ grammar.pointer_to class }
{
    Placed {
        at: class.at,
        item: TypeName::Pointer(class.item),
    }
}

/// A type.
#[tactic(auto, unfolding(crate::specs::Types::plain_type))]
pub fn plain_type(words: &mut Parser<'_>) -> Result<Placed<TypeName>, Stop>
    ensures reads { Reads (λ t. t) (grammar.plain_type words.old) result words.new }
    ensures left { length words.new ≤ length words.old }
    ensures eats { OnOk result (length words.new < length words.old) }
{
    let Some(next) = words.peek() else {
        return Err(Stop::Syntax);
    };
    match next.item {
        Word::Keyword(keyword) => {
            let Some(item) = word_type(keyword) else {
                return Err(Stop::Syntax);
            };
            words.advance();
            Ok(Placed { at: next.at, item })
        }
        Word::Name(item) => {
            words.advance();
            words.expect(Sign::Star)?;
            Ok(pointer_to(Placed { at: next.at, item }))
        }
        _ => Err(Stop::Syntax),
    }
}

/// A parameter.
#[tactic(auto, unfolding(crate::specs::Types::param))]
pub fn param(words: &mut Parser<'_>) -> Result<Param, Stop>
    ensures reads { Reads (λ p. p) (grammar.param words.old) result words.new }
    ensures left { length words.new ≤ length words.old }
    ensures eats { OnOk result (length words.new < length words.old) }
{
    let type_name = plain_type(words)?;
    let name = words.name()?;
    Ok(Param { type_name, name })
}

/// Parameters up to a closing parenthesis, with commas between.
fn any_params(words: &mut Parser<'_>) -> Result<Items<Param>, Stop>
    ensures reads { Reads (λ ps. ps) (parts.any grammar.param words.old) result words.new }
    ensures left { length words.new ≤ length words.old }
{
    let mut found = Items::new(words.alloc());
    if words.sees(Sign::CloseParen) {
        return Ok(found);
    }
    'items: loop {
        let item = param(words)?;
        found.push(item)?;
        if !words.sees(Sign::Comma) {
            break;
        }
        words.advance();
    }
    Ok(found)
}

/// Parameters, with their parentheses.
#[tactic(auto, unfolding(crate::specs::Types::params))]
pub fn params(words: &mut Parser<'_>, depth: usize) -> Result<Items<Param>, Stop>
    ensures reads { Reads (λ ps. ps) (grammar.params depth words.old) result words.new }
    ensures left { length words.new ≤ length words.old }
    ensures eats { OnOk result (length words.new < length words.old) }
{
    open_paren(words, depth)?;
    let found = any_params(words)?;
    words.expect(Sign::CloseParen)?;
    Ok(found)
}
