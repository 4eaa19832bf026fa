//! Expressions, rule by rule.

ghost use Rattle.std.specs.Prelude.{◌≡◌, ◌<◌, ◌≤◌, length, map, OnOk, IfOk};
ghost use Rattle.cxx_tree.specs.ExprTree.{expr_tree};
ghost use Rattle.cxx_expr.specs.Descent as grammar;
ghost use Rattle.cxx_expr.specs.Descent.{inner_at};
ghost use Rattle.cxx_expr.specs.Outcome.{Reads};

use crate::operator::EXPR_LEVEL;
use crate::parser::{left_of, unnumbered};
use crate::stop::Stop;
use crate::within::Within;
use crate::word::Word;
use agxx_base::{Keyword, Place, Sign};
use cxx_tree::{Base, BinOp, Call, Callee, Expr, Name, Node, Placed, TypeName};
use sqlite_items::{Boxed, Items};
use std::alloc::{AllocError, Global};

/// Two operands and the operator between them.
fn joined(alloc: Global, op: Placed<BinOp>, first: Expr, second: Expr) -> Result<Expr, AllocError>
    ensures { IfOk result (λ t. expr_tree t ≡ grammar.joined op (expr_tree first) (expr_tree second)) }
{
    let node = unnumbered(first.node().at);
    Ok(Expr::Binary(
        node,
        op,
        Boxed::new(alloc, first)?,
        Boxed::new(alloc, second)?,
    ))
}

/// The number type that a keyword is.
fn number_type(keyword: Keyword) -> Option<TypeName>
    ensures { result ≡ grammar.number_type keyword }
{
    match keyword {
        Keyword::Number(kind) => Some(TypeName::Num(kind)),
        Keyword::Int => Some(TypeName::Int),
        Keyword::Unsigned => Some(TypeName::Unsigned),
        _ => None,
    }
}

impl<'w> Within<'w> {
    /// An expression in which parentheses nest no deeper than `depth`.
    #[cycle(expr)]
    #[tactic(auto, unfolding(crate::specs::Descent::expr))]
    pub(crate) fn expr(&mut self, depth: usize) -> Result<Expr, Stop>
        ensures reads { Reads expr_tree (grammar.expr depth self.old) result self.new }
        ensures left { length self.new.words ≤ length self.old.words }
    {
        self.level(depth, EXPR_LEVEL)
    }

    /// An expression with operators up to a level outside parentheses.
    #[cycle(expr)]
    #[tactic(auto, unfolding(crate::specs::Descent::level))]
    pub(crate) fn level(&mut self, depth: usize, level: u8) -> Result<Expr, Stop>
        ensures reads { Reads expr_tree (grammar.level (inner_at depth) level self.old)
            result self.new }
        ensures left { length self.new.words ≤ length self.old.words }
    {
        if level == 0 {
            return self.unary(depth);
        }
        let mut first = self.level(depth, level - 1)?;
        while let Some(op) = self.operator(level) {
            self.take_operator()?;
            let second = self.level(depth, level - 1)?;
            first = joined(self.words.alloc, op, first, second)?;
        }
        Ok(first)
    }

    #[cycle(expr)]
    #[tactic(auto, unfolding(crate::specs::Descent::unary, crate::specs::Descent::unary_from))]
    fn unary(&mut self, depth: usize) -> Result<Expr, Stop>
        ensures reads { Reads expr_tree (grammar.unary (inner_at depth) self.old) result self.new }
        ensures left { length self.new.words ≤ length self.old.words }
    {
        let Some(op) = self.prefix_operator() else {
            return self.primary(depth);
        };
        self.take_operator()?;
        let operand = self.unary(depth)?;
        Ok(Expr::Unary(
            unnumbered(op.at),
            op.item,
            Boxed::new(self.words.alloc, operand)?,
        ))
    }

    #[cycle(expr)]
    #[tactic(auto, unfolding(crate::specs::Descent::primary))]
    fn primary(&mut self, depth: usize) -> Result<Expr, Stop>
        ensures reads { Reads expr_tree (grammar.primary (inner_at depth) self.old)
            result self.new }
        ensures left { length self.new.words ≤ length self.old.words }
    {
        let [next, ..] = self.words.left else {
            return Err(Stop::Syntax);
        };
        match next.item {
            Word::Number(number) => {
                self.advance();
                Ok(Expr::Lit(unnumbered(next.at), number))
            }
            Word::Name(_) => self.named(depth, next.at),
            Word::Keyword(keyword) => self.keyword(depth, next.at, keyword),
            Word::Sign(Sign::ColonColon) => self.named(depth, next.at),
            Word::Sign(Sign::OpenParen) => self.grouped(depth, next.at),
            _ => Err(Stop::Syntax),
        }
    }

    /// What begins with a keyword, which comes next.
    #[cycle(expr)]
    fn keyword(&mut self, depth: usize, at: Place, keyword: Keyword) -> Result<Expr, Stop>
        ensures reads { Reads expr_tree (grammar.keyword_by (inner_at depth) at keyword self.old)
            result self.new }
        ensures left { length self.new.words ≤ length self.old.words }
    {
        match keyword {
            Keyword::True => {
                self.advance();
                Ok(Expr::Flag(unnumbered(at), true))
            }
            Keyword::False => {
                self.advance();
                Ok(Expr::Flag(unnumbered(at), false))
            }
            Keyword::Nullptr => {
                self.advance();
                Ok(Expr::Null(unnumbered(at)))
            }
            Keyword::This => {
                self.advance();
                self.own(depth, at)
            }
            Keyword::New => {
                self.advance();
                self.created(depth, at)
            }
            other => self.converted(depth, at, number_type(other)),
        }
    }

    /// A number type, which comes next, and an operand in parentheses.
    #[cycle(expr)]
    #[tactic(auto, unfolding(crate::specs::Descent::converted))]
    fn converted(
        &mut self,
        depth: usize,
        at: Place,
        type_name: Option<TypeName>,
    ) -> Result<Expr, Stop>
        ensures reads { Reads expr_tree
            (grammar.converted_by (inner_at depth) at type_name self.old)
            result self.new }
        ensures left { length self.new.words ≤ length self.old.words }
    {
        let Some(type_name) = type_name else {
            return Err(Stop::Syntax);
        };
        self.advance();
        let operand = self.enclosed(depth)?;
        Ok(Expr::Cast(
            unnumbered(at),
            type_name,
            Boxed::new(self.words.alloc, operand)?,
        ))
    }

    /// What begins with a reference to a name.
    #[cycle(expr)]
    #[tactic(auto, unfolding(crate::specs::Descent::named))]
    fn named(&mut self, depth: usize, at: Place) -> Result<Expr, Stop>
        ensures reads { Reads expr_tree (grammar.named (inner_at depth) at self.old)
            result self.new }
        ensures left { length self.new.words ≤ length self.old.words }
    {
        let target = self.words.target(at)?;
        self.called(depth, unnumbered(at), target)
    }

    /// Behind `this`.
    #[cycle(expr)]
    #[tactic(auto, unfolding(crate::specs::Descent::own))]
    fn own(&mut self, depth: usize, at: Place) -> Result<Expr, Stop>
        ensures reads { Reads expr_tree (grammar.own (inner_at depth) at self.old) result self.new }
        ensures left { length self.new.words ≤ length self.old.words }
    {
        if !self.sees(Sign::Arrow) {
            return Ok(Expr::This(unnumbered(at)));
        }
        self.advance();
        let target = self.words.selected(Base::This)?;
        self.called(depth, unnumbered(at), target)
    }

    /// A call, if arguments come next, or a value.
    #[cycle(expr)]
    #[tactic(auto, unfolding(crate::specs::Descent::called))]
    fn called(&mut self, depth: usize, node: Node, callee: Callee) -> Result<Expr, Stop>
        ensures reads { Reads expr_tree (grammar.called (inner_at depth) node callee self.old)
            result self.new }
        ensures left { length self.new.words ≤ length self.old.words }
    {
        if !self.sees(Sign::OpenParen) {
            return Ok(Expr::Left(left_of(node, callee)));
        }
        let arguments = self.arguments(depth)?;
        Ok(Expr::Call(Call {
            node,
            callee,
            arguments,
        }))
    }

    /// Behind `new`.
    #[cycle(expr)]
    #[tactic(auto, unfolding(crate::specs::Descent::created))]
    fn created(&mut self, depth: usize, at: Place) -> Result<Expr, Stop>
        ensures reads { Reads expr_tree (grammar.created (inner_at depth) at self.old)
            result self.new }
        ensures left { length self.new.words ≤ length self.old.words }
    {
        let class = self.words.name()?;
        self.created_with(depth, at, class)
    }

    /// The arguments of a new object, if there are parentheses.
    #[cycle(expr)]
    #[tactic(auto, unfolding(crate::specs::Descent::created_with))]
    fn created_with(&mut self, depth: usize, at: Place, class: Name) -> Result<Expr, Stop>
        ensures reads { Reads expr_tree (grammar.created_with (inner_at depth) at class self.old)
            result self.new }
        ensures left { length self.new.words ≤ length self.old.words }
    {
        if !self.sees(Sign::OpenParen) {
            return Ok(Expr::New(unnumbered(at), class, None));
        }
        let arguments = self.arguments(depth)?;
        Ok(Expr::New(unnumbered(at), class, Some(arguments)))
    }

    #[cycle(expr)]
    #[tactic(auto, unfolding(crate::specs::Descent::grouped))]
    fn grouped(&mut self, depth: usize, at: Place) -> Result<Expr, Stop>
        ensures reads { Reads expr_tree (grammar.grouped (inner_at depth) at self.old)
            result self.new }
        ensures left { length self.new.words ≤ length self.old.words }
    {
        let inside = self.enclosed(depth)?;
        Ok(Expr::Paren(unnumbered(at), Boxed::new(self.words.alloc, inside)?))
    }

    /// An expression in parentheses.
    #[cycle(expr)]
    #[tactic(auto, unfolding(crate::specs::Descent::enclosed))]
    fn enclosed(&mut self, depth: usize) -> Result<Expr, Stop>
        ensures reads { Reads expr_tree (grammar.enclosed (inner_at depth) self.old)
            result self.new }
        ensures left { length self.new.words ≤ length self.old.words }
    {
        if !self.sees(Sign::OpenParen) {
            return Err(Stop::Syntax);
        }
        if depth == 0 {
            return Err(Stop::Deep);
        }
        self.advance();
        let inside = self.expr(depth - 1)?;
        self.expect(Sign::CloseParen)?;
        Ok(inside)
    }

    /// Arguments in parentheses, of which the opening one comes next.
    #[cycle(expr)]
    #[tactic(auto, unfolding(crate::specs::Descent::arguments))]
    fn arguments(&mut self, depth: usize) -> Result<Items<Expr>, Stop>
        ensures reads { Reads (map expr_tree) (grammar.arguments (inner_at depth) self.old)
            result self.new }
        ensures left { length self.new.words ≤ length self.old.words }
    {
        if depth == 0 {
            return Err(Stop::Deep);
        }
        self.advance();
        self.items(depth - 1)
    }

    #[cycle(expr)]
    #[tactic(auto, unfolding(crate::specs::Descent::items))]
    fn items(&mut self, depth: usize) -> Result<Items<Expr>, Stop>
        ensures reads { Reads (map expr_tree) (grammar.items (grammar.expr depth) self.old)
            result self.new }
        ensures left { length self.new.words ≤ length self.old.words }
    {
        let mut found = Items::new(self.words.alloc);
        if self.sees(Sign::CloseParen) {
            self.advance();
            return Ok(found);
        }
        'items: loop {
            let item = self.expr(depth)?;
            found.push(item)?;
            if !self.sees(Sign::Comma) {
                break;
            }
            self.advance();
        }
        self.expect(Sign::CloseParen)?;
        Ok(found)
    }
}
