//! Parts that the rules of statements and declarations share.

ghost use Rattle.std.specs.Prelude.{◌≡◌, ◌<◌, ◌≤◌, [], length, map, OnOk, if◌then◌else◌};
ghost use Rattle.agxx_base.specs.declared.vocabulary.Sign.TheVariants as sg;
ghost use Rattle.cxx_tree.specs.ExprTree.{expr_tree};
ghost use Rattle.cxx_expr.specs.declared.stop.Stop.TheVariants as stop;
ghost use Rattle.cxx_expr.specs.Full.{most_operators};
ghost use Rattle.cxx_expr.specs.Outcome.{Reads, done, failed};
ghost use Rattle.cxx_expr.specs.Tokens as tokens;
ghost use Rattle.cxx_stmt.specs.Parts as grammar;

use agxx_base::{NameId, Place, Sign};
use cxx_expr::{Parser, Stop, Word};
use cxx_tree::{Expr, Ref};
use sqlite_items::Items;

/// Where this sign stands, if it comes next.
pub fn sign_at(words: &Parser<'_>, sign: Sign) -> Option<Place>
    ensures { result ≡ grammar.sign_at sign words.now }
{
    if !words.sees(sign) {
        return None;
    }
    let next = words.peek()?;
    Some(next.at)
}

fn is_name(word: Word<'_>, wanted: NameId) -> bool
    ensures { result ≡ grammar.is_name wanted.0 (tokens.word_of word.entry) }
{
    match word {
        Word::Name(found) => found.0 == wanted.0,
        _ => false,
    }
}

/// Whether the name of this number comes next.
pub fn sees_name(words: &Parser<'_>, wanted: NameId) -> bool
    ensures { result ≡ grammar.sees_name wanted.0 words.now }
{
    match words.peek() {
        Some(next) => is_name(next.item, wanted),
        None => false,
    }
}

/// Passes an opening parenthesis, and says how deep parentheses may nest behind it.
pub fn open_paren(words: &mut Parser<'_>, depth: usize) -> Result<usize, Stop>
    ensures reads { Reads (λ below. below)
        (if tokens.sees sg.OpenParen words.old
        then grammar.opens depth done words.old
        else failed stop.Syntax words.old)
        result words.new }
    ensures left { length words.new ≤ length words.old }
    ensures eats { OnOk result (length words.new < length words.old) }
{
    if !words.sees(Sign::OpenParen) {
        return Err(Stop::Syntax);
    }
    if depth == 0 {
        return Err(Stop::Deep);
    }
    words.advance();
    Ok(depth - 1)
}

/// A pair of parentheses with nothing in it.
#[tactic(auto, unfolding(crate::specs::Parts::no_parts))]
pub fn no_parts(words: &mut Parser<'_>, depth: usize) -> Result<(), Stop>
    ensures reads { Reads (λ u. u) (grammar.no_parts depth words.old) result words.new }
    ensures left { length words.new ≤ length words.old }
    ensures eats { OnOk result (length words.new < length words.old) }
{
    open_paren(words, depth)?;
    words.expect(Sign::CloseParen)
}

/// One full expression or more, with commas between.
#[tactic(auto, unfolding(crate::specs::Parts::expressions))]
pub fn expressions(words: &mut Parser<'_>, depth: usize) -> Result<Items<Expr>, Stop>
    ensures reads { Reads (map expr_tree) (grammar.expressions most_operators depth words.old)
        result words.new }
    ensures left { length words.new ≤ length words.old }
{
    let mut found = Items::new(words.alloc());
    'items: loop {
        let item = words.expr(depth)?;
        found.push(item)?;
        if !words.sees(Sign::Comma) {
            break;
        }
        words.advance();
    }
    Ok(found)
}

/// Expressions up to a closing parenthesis, with commas between.
fn any_expressions(words: &mut Parser<'_>, depth: usize) -> Result<Items<Expr>, Stop>
    ensures reads { Reads (map expr_tree)
        (if tokens.sees sg.CloseParen words.old
        then done [] words.old
        else grammar.expressions most_operators depth words.old)
        result words.new }
    ensures left { length words.new ≤ length words.old }
{
    if words.sees(Sign::CloseParen) {
        return Ok(Items::new(words.alloc()));
    }
    expressions(words, depth)
}

/// Arguments that are each a full expression, with their parentheses.
#[tactic(auto, unfolding(crate::specs::Parts::arguments))]
pub fn arguments(words: &mut Parser<'_>, depth: usize) -> Result<Items<Expr>, Stop>
    ensures reads { Reads (map expr_tree) (grammar.arguments most_operators depth words.old)
        result words.new }
    ensures left { length words.new ≤ length words.old }
    ensures eats { OnOk result (length words.new < length words.old) }
{
    let below = open_paren(words, depth)?;
    let found = any_expressions(words, below)?;
    words.expect(Sign::CloseParen)?;
    Ok(found)
}

/// A reference to a name, where it stands.
#[tactic(auto, unfolding(crate::specs::Parts::placed_ref))]
pub fn placed_ref(words: &mut Parser<'_>) -> Result<Ref, Stop>
    ensures reads { Reads (λ r. r) (grammar.placed_ref words.old) result words.new }
    ensures left { length words.new ≤ length words.old }
    ensures eats { OnOk result (length words.new < length words.old) }
{
    let Some(next) = words.peek() else {
        return Err(Stop::Syntax);
    };
    words.reference(next.at)
}
