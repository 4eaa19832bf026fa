//! An expression that is all the words, and what is known of the spelling of expressions.

ghost use Rattle.std.specs.Prelude.{◌≡◌, ◌≤◌, length, IfOk, IfErr};
ghost use Rattle.cxx_tree.specs.ExprTree.{expr_tree};
ghost use Rattle.cxx_expr.specs.Outcome.{Reads};
ghost use Rattle.cxx_expr.specs.Tokens.{tokens_of, words_of};
ghost use Rattle.cxx_expr.specs.Whole as spec;
ghost use Rattle.cxx_expr.specs.Whole.{IsExpr, Refuses, SpellingIsUnique};

use crate::parser::Parser;
use crate::stop::Stop;
use crate::word::WordAt;
use cxx_tree::Expr;
use std::alloc::Global;

/// Why words are no expression.
#[derive(Clone, Copy, Debug, PartialEq, Eq)]
pub enum Unread {
    /// The index of the first word that can't stand in its place.
    Syntax(usize),
    /// The index of the word with which parentheses nest too deep, or operators are too many.
    Deep(usize),
    Memory,
}

impl<'w> Parser<'w> {
    #[tactic(auto, unfolding(crate::specs::Whole::whole))]
    fn whole(&mut self, depth: usize) -> Result<Expr, Stop>
        ensures reads { Reads expr_tree (spec.whole depth self.old) result self.new }
        ensures left { length self.new ≤ length self.old }
    {
        let found = self.expr(depth)?;
        if self.is_empty() {
            Ok(found)
        } else {
            Err(Stop::Syntax)
        }
    }
}

/// The full expression that the words are, in which parentheses nest no deeper than `depth`.
pub fn read_expr<'w>(alloc: Global, words: &'w [WordAt<'w>], depth: usize) -> Result<Expr, Unread>
    // The tree is spelled as all the words,
    ensures read { IfOk result (λ t. IsExpr depth (expr_tree t) (words_of (tokens_of words.now))) }
    // or no tree is, and the first word is told that can't stand in its place.
    ensures refused { IfErr result (Refuses depth (words_of (tokens_of words.now))) }
{
    let mut parser = Parser::new(alloc, words);
    match parser.whole(depth) {
        Ok(found) => Ok(found),
        Err(Stop::Syntax) => Err(Unread::Syntax(words.len() - parser.len())),
        Err(Stop::Deep) => Err(Unread::Deep(words.len() - parser.len())),
        Err(Stop::Memory) => Err(Unread::Memory),
    }
}

/// Says that expressions of one spelling are the same but for places and numbers of nodes.
pub fn spelling_is_unique()
    ensures { SpellingIsUnique }
{}
