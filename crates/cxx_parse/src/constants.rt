//! The initial values of global numbers and pointers.

ghost use Rattle.std.specs.Prelude.{◌≡◌, ◌<◌, ◌≤◌, length, OnOk};
ghost use Rattle.cxx_expr.specs.Outcome.{Reads};
ghost use Rattle.cxx_expr.specs.Tokens as tokens;
ghost use Rattle.cxx_parse.specs.Constants as grammar;

use agxx_base::{Keyword, Sign};
use cxx_expr::{Parser, Stop, Word};
use cxx_tree::Const;

/// Behind `-`.
#[tactic(auto, unfolding(crate::specs::Constants::negative))]
fn negative(words: &mut Parser<'_>) -> Result<Const, Stop>
    ensures reads { Reads (λ c. c) (grammar.negative words.old) result words.new }
    ensures left { length words.new ≤ length words.old }
    ensures eats { OnOk result (length words.new < length words.old) }
{
    let Some(next) = words.peek() else {
        return Err(Stop::Syntax);
    };
    let Word::Number(number) = next.item else {
        return Err(Stop::Syntax);
    };
    words.advance();
    Ok(Const::Number(true, number))
}

/// What this word, which comes next, begins.
fn constant_at(words: &mut Parser<'_>, word: Word<'_>) -> Result<Const, Stop>
    ensures reads { Reads (λ c. c) (grammar.constant_at (tokens.word_of word.entry) words.old)
        result words.new }
    ensures left { length words.new ≤ length words.old }
{
    let found = match word {
        Word::Number(number) => Const::Number(false, number),
        Word::Keyword(Keyword::True) => Const::Flag(true),
        Word::Keyword(Keyword::False) => Const::Flag(false),
        Word::Keyword(Keyword::Nullptr) => Const::Null,
        Word::Sign(Sign::Minus) => {
            words.advance();
            return negative(words);
        }
        _ => return Err(Stop::Syntax),
    };
    words.advance();
    Ok(found)
}

/// The initial value of a global number or pointer.
#[tactic(auto, unfolding(crate::specs::Constants::constant))]
pub(crate) fn constant(words: &mut Parser<'_>) -> Result<Const, Stop>
    ensures reads { Reads (λ c. c) (grammar.constant words.old) result words.new }
    ensures left { length words.new ≤ length words.old }
{
    let Some(next) = words.peek() else {
        return Err(Stop::Syntax);
    };
    constant_at(words, next.item)
}
