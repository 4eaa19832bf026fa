//! Full expressions: those that are no part of another one.

ghost use Rattle.std.specs.Prelude.{◌≡◌, ◌≤◌, length};
ghost use Rattle.cxx_tree.specs.ExprTree.{expr_tree};
ghost use Rattle.cxx_expr.specs.Full as grammar;
ghost use Rattle.cxx_expr.specs.Outcome.{Reads};

use crate::operator::{EXPR_LEVEL, SUM_LEVEL};
use crate::parser::Parser;
use crate::stop::Stop;
use crate::within::Within;
use cxx_tree::Expr;

/// How many operators a full expression may have.
const MOST_OPERATORS: usize = 400;

impl<'w> Parser<'w> {
    /// A full expression, in which parentheses nest no deeper than `depth`.
    pub fn expr(&mut self, depth: usize) -> Result<Expr, Stop>
        ensures reads { Reads expr_tree (grammar.full_expr depth self.old) result self.new }
        ensures left { length self.new ≤ length self.old }
    {
        self.full_level(depth, EXPR_LEVEL)
    }

    /// A sum that is a full expression, in which parentheses nest no deeper than `depth`.
    pub fn sum(&mut self, depth: usize) -> Result<Expr, Stop>
        ensures reads { Reads expr_tree (grammar.full_sum depth self.old) result self.new }
        ensures left { length self.new ≤ length self.old }
    {
        self.full_level(depth, SUM_LEVEL)
    }

    #[tactic(auto, unfolding(crate::specs::Full::full_level))]
    fn full_level(&mut self, depth: usize, level: u8) -> Result<Expr, Stop>
        ensures reads { Reads expr_tree
            (grammar.full_level grammar.most_operators depth level self.old)
            result self.new }
        ensures left { length self.new ≤ length self.old }
    {
        let mut within = self.enter();
        let found = within.level(depth, level);
        self.leave(within);
        found
    }

    /// A parser that stands here, at the beginning of a full expression.
    fn enter(&self) -> Within<'w>
        ensures { result ≡ record { words = self.now; operators = grammar.most_operators } }
    {
        Within {
            words: Parser::new(self.alloc, self.left),
            operators: MOST_OPERATORS,
        }
    }

    /// Goes to where a full expression ends.
    fn leave(&mut self, within: Within<'w>)
        ensures { self.new ≡ within.entry.words }
    {
        self.left = within.words.left;
    }
}
