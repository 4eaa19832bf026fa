//! Whole programs.

ghost use Rattle.std.specs.Prelude.{◌≡◌, ◌≤◌, length, map};
ghost use Rattle.cxx_tree.specs.ProgramTree.{decl_tree, program_tree};
ghost use Rattle.cxx_expr.specs.Full.{most_operators};
ghost use Rattle.cxx_expr.specs.Outcome.{Reads};
ghost use Rattle.cxx_expr.specs.Tokens as tokens;
ghost use Rattle.cxx_parse.specs.Declarations as declarations;
ghost use Rattle.cxx_parse.specs.Programs as grammar;

use crate::declarations::decl;
use agxx_base::Place;
use cxx_expr::{Parser, Stop, Word};
use cxx_stmt::Dialect;
use cxx_tree::{Decl, Directive, Program};
use sqlite_items::Items;

/// The directive that comes next.
fn directive(words: &Parser<'_>) -> Option<Directive>
    ensures { result ≡ grammar.directive_next (tokens.next words.now) }
{
    let next = words.peek()?;
    match next.item {
        Word::Include(header) => Some(Directive::Include(header)),
        Word::Pragma => Some(Directive::Pragma),
        _ => None,
    }
}

/// The directives at the beginning.
fn directives(words: &mut Parser<'_>) -> Result<Items<Directive>, Stop>
    ensures reads { Reads (λ ds. ds) (grammar.directives words.old) result words.new }
    ensures left { length words.new ≤ length words.old }
{
    let mut found = Items::new(words.alloc());
    'items: while let Some(item) = directive(words) {
        words.advance();
        found.push(item)?;
    }
    Ok(found)
}

/// Declarations up to the end.
fn decls(dialect: &Dialect, words: &mut Parser<'_>, depth: usize) -> Result<Items<Decl>, Stop>
    ensures reads { Reads (map decl_tree)
        (grammar.decls (declarations.decl most_operators dialect.now depth) words.old)
        result words.new }
    ensures left { length words.new ≤ length words.old }
{
    let mut found = Items::new(words.alloc());
    'items: while !words.is_empty() {
        let item = decl(dialect, words, depth)?;
        found.push(item)?;
    }
    Ok(found)
}

/// A program that is all the words, at this place, in which braces, parentheses and `else if` nest no deeper
/// than `depth`.
#[tactic(auto, unfolding(crate::specs::Programs::program))]
pub(crate) fn program(
    dialect: &Dialect,
    words: &mut Parser<'_>,
    depth: usize,
    at: Place,
) -> Result<Program, Stop>
    ensures reads { Reads program_tree
        (grammar.program most_operators dialect.now depth at words.old)
        result words.new }
    ensures left { length words.new ≤ length words.old }
{
    let directives = directives(words)?;
    let decls = decls(dialect, words, depth)?;
    Ok(Program {
        at,
        directives,
        decls,
    })
}
