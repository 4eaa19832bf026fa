//! A parser within a full expression, which counts operators.

ghost use Rattle.std.specs.Prelude.{◌≡◌, ◌≤◌, ◌-◌, length};
ghost use Rattle.cxx_expr.specs.Descent as grammar;
ghost use Rattle.cxx_expr.specs.Outcome as outcome;
ghost use Rattle.cxx_expr.specs.Outcome.{Reads};
ghost use Rattle.cxx_expr.specs.Tokens as tokens;
ghost use Rattle.cxx_expr.specs.Within as spec;

use crate::operator::{binary_operator, level_of, unary_operator};
use crate::parser::Parser;
use crate::stop::Stop;
use crate::word::Word;
use agxx_base::Sign;
use cxx_tree::{BinOp, Placed, UnOp};
use std::marker::Model;

/// A parser, and how many more operators the full expression that it reads may have.
#[derive(Drop)]
pub struct Within<'w> {
    pub(crate) words: Parser<'w>,
    pub(crate) operators: usize,
}

impl<'w> Model for Within<'w> {
    ghost use Rattle.cxx_expr.specs.Within.{Within};

    ghost Value = { Within };

    ghost view = { λ p. record { words = p.words; operators = p.operators } };
}

impl<'w> Parser<'w> {
    /// The operator of this level that comes next.
    pub(crate) fn operator(&self, level: u8) -> Option<Placed<BinOp>>
        ensures { result ≡ grammar.operator level self.now }
    {
        let [next, ..] = self.left else {
            return None;
        };
        let Word::Sign(sign) = next.item else {
            return None;
        };
        match binary_operator(sign) {
            Some(item) if level_of(item) == level => Some(Placed { at: next.at, item }),
            _ => None,
        }
    }

    /// The operator before an operand that comes next.
    pub(crate) fn prefix_operator(&self) -> Option<Placed<UnOp>>
        ensures { result ≡ grammar.prefix_operator self.now }
    {
        let [next, ..] = self.left else {
            return None;
        };
        let Word::Sign(sign) = next.item else {
            return None;
        };
        let item = unary_operator(sign)?;
        Some(Placed { at: next.at, item })
    }
}

impl<'w> Within<'w> {
    /// Whether this sign comes next.
    pub(crate) fn sees(&self, sign: Sign) -> bool
        ensures { result ≡ tokens.sees sign self.now.words }
    {
        self.words.sees(sign)
    }

    /// Passes the next word, which is no operator.
    pub(crate) fn advance(&mut self)
        ensures after { self.new ≡ spec.advanced self.old }
        ensures shorter { length self.new.words ≡ length self.old.words - 1 }
    {
        self.words.advance();
    }

    /// Passes this sign, which has to come next.
    pub(crate) fn expect(&mut self, sign: Sign) -> Result<(), Stop>
        ensures reads { Reads (λ u. u) (spec.on_words (outcome.expect sign) self.old)
            result self.new }
        ensures left { length self.new.words ≤ length self.old.words }
    {
        self.words.expect(sign)
    }

    /// The operator of this level that comes next.
    pub(crate) fn operator(&self, level: u8) -> Option<Placed<BinOp>>
        ensures { result ≡ grammar.operator level self.now.words }
    {
        self.words.operator(level)
    }

    /// The operator before an operand that comes next.
    pub(crate) fn prefix_operator(&self) -> Option<Placed<UnOp>>
        ensures { result ≡ grammar.prefix_operator self.now.words }
    {
        self.words.prefix_operator()
    }

    /// Passes the operator that comes next, if there may be one more.
    pub(crate) fn take_operator(&mut self) -> Result<(), Stop>
        ensures reads { Reads (λ u. u) (spec.operator_taken self.old) result self.new }
        ensures left { length self.new.words ≤ length self.old.words }
    {
        if self.operators == 0 {
            return Err(Stop::Deep);
        }
        self.operators -= 1;
        self.words.advance();
        Ok(())
    }
}
