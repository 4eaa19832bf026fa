//! Statements, rule by rule.

ghost use Rattle.std.specs.Prelude.{◌≡◌, ◌<◌, ◌≤◌, length, map, option_map, OnOk};
ghost use Rattle.agxx_base.specs.declared.vocabulary.Sign.TheVariants as sg;
ghost use Rattle.cxx_tree.specs.ExprTree.{expr_tree};
ghost use Rattle.cxx_tree.specs.Fits.{expr_level};
ghost use Rattle.cxx_tree.specs.StmtTree.{
  block_tree,
  else_or_none,
  else_tree,
  for_tree,
  if_tree,
  simple_tree,
  start_tree,
  stmt_tree,
  while_tree,
};
ghost use Rattle.cxx_expr.specs.Full.{full_level, most_operators};
ghost use Rattle.cxx_expr.specs.Outcome.{Reads};
ghost use Rattle.cxx_expr.specs.Tokens as tokens;
ghost use Rattle.cxx_stmt.specs.Parts as parts;
ghost use Rattle.cxx_stmt.specs.Simples as simples;
ghost use Rattle.cxx_stmt.specs.Statements as grammar;
ghost use Rattle.cxx_stmt.specs.Statements.{inner_branch, inner_stmt};

use crate::dialect::Dialect;
use crate::parts::{open_paren, sign_at};
use crate::simples::{simple, start, start_behind};
use agxx_base::{Keyword, Place, Sign};
use cxx_expr::{Parser, Stop, Word};
use cxx_tree::{Block, Else, Expr, For, If, Name, Placed, Simple, Start, Stmt, While};
use sqlite_items::{Boxed, Items};

/// What stands in the parentheses of a `for`.
#[derive(Drop)]
struct ForHead {
    start: Option<Start>,
    condition: Option<Expr>,
    step: Option<Simple>,
}

/// Whether `else` comes next.
fn sees_else(words: &Parser<'_>) -> bool
    ensures { result ≡ grammar.sees_else words.now }
{
    match words.peek() {
        Some(next) => is_else(next.item),
        None => false,
    }
}

fn is_else(word: Word<'_>) -> bool
    ensures { result ≡ grammar.is_else (tokens.word_of word.entry) }
{
    match word {
        Word::Keyword(Keyword::Else) => true,
        _ => false,
    }
}

/// Where `if` stands, if it comes next.
fn if_at(words: &Parser<'_>) -> Option<Place>
    ensures { result ≡ grammar.if_at words.now }
{
    let next = words.peek()?;
    match next.item {
        Word::Keyword(Keyword::If) => Some(next.at),
        _ => None,
    }
}

/// A local or a simple statement, which was read, with its semicolon.
fn ended(words: &mut Parser<'_>, start: Start) -> Result<Stmt, Stop>
    ensures reads { Reads stmt_tree (grammar.ended_start (start_tree start) words.old)
        result words.new }
    ensures left { length words.new ≤ length words.old }
    ensures eats { OnOk result (length words.new < length words.old) }
{
    words.expect(Sign::Semicolon)?;
    match start {
        Start::Local(local) => Ok(Stmt::Local(local)),
        Start::Simple(simple) => Ok(Stmt::Simple(simple)),
    }
}

/// A local or a simple statement.
fn start_stmt(words: &mut Parser<'_>, depth: usize) -> Result<Stmt, Stop>
    ensures reads { Reads stmt_tree (grammar.start_stmt most_operators depth words.old)
        result words.new }
    ensures left { length words.new ≤ length words.old }
    ensures eats { OnOk result (length words.new < length words.old) }
{
    let start = start(words, depth)?;
    ended(words, start)
}

/// A condition in parentheses.
#[tactic(auto, unfolding(crate::specs::Statements::condition))]
fn condition(words: &mut Parser<'_>, depth: usize) -> Result<Expr, Stop>
    ensures reads { Reads expr_tree (grammar.condition most_operators depth words.old)
        result words.new }
    ensures left { length words.new ≤ length words.old }
    ensures eats { OnOk result (length words.new < length words.old) }
{
    let below = open_paren(words, depth)?;
    let condition = words.expr(below)?;
    words.expect(Sign::CloseParen)?;
    Ok(condition)
}

/// An expression, unless a semicolon comes next.
fn optional_expr(words: &mut Parser<'_>, depth: usize) -> Result<Option<Expr>, Stop>
    ensures reads { Reads (option_map expr_tree)
        (parts.unless sg.Semicolon (λ ts. full_level most_operators depth expr_level ts) words.old)
        result words.new }
    ensures left { length words.new ≤ length words.old }
{
    if words.sees(Sign::Semicolon) {
        return Ok(None);
    }
    Ok(Some(words.expr(depth)?))
}

/// What stands first in the head of a `for`.
fn optional_start(words: &mut Parser<'_>, depth: usize) -> Result<Option<Start>, Stop>
    ensures reads { Reads (option_map start_tree)
        (parts.unless sg.Semicolon (λ ts. simples.start most_operators depth ts) words.old)
        result words.new }
    ensures left { length words.new ≤ length words.old }
{
    if words.sees(Sign::Semicolon) {
        return Ok(None);
    }
    Ok(Some(start(words, depth)?))
}

/// What stands last in the head of a `for`.
fn optional_step(words: &mut Parser<'_>, depth: usize) -> Result<Option<Simple>, Stop>
    ensures reads { Reads (option_map simple_tree)
        (parts.unless sg.CloseParen (λ ts. simples.simple most_operators depth ts) words.old)
        result words.new }
    ensures left { length words.new ≤ length words.old }
{
    if words.sees(Sign::CloseParen) {
        return Ok(None);
    }
    Ok(Some(simple(words, depth)?))
}

/// Behind the second semicolon in the head of a `for`.
#[tactic(auto, unfolding(crate::specs::Statements::for_step))]
fn for_step(
    words: &mut Parser<'_>,
    depth: usize,
    start: Option<Start>,
    condition: Option<Expr>,
) -> Result<ForHead, Stop>
    ensures reads { Reads
        (λ h. (option_map start_tree h.start, (option_map expr_tree h.condition, option_map simple_tree h.step)))
        (grammar.for_step most_operators depth (option_map start_tree start) (option_map expr_tree condition)
        words.old)
        result words.new }
    ensures left { length words.new ≤ length words.old }
{
    let step = optional_step(words, depth)?;
    Ok(ForHead {
        start,
        condition,
        step,
    })
}

/// What stands in the parentheses of a `for`.
#[tactic(auto, unfolding(crate::specs::Statements::for_head, crate::specs::Statements::for_condition))]
fn for_head(words: &mut Parser<'_>, depth: usize) -> Result<ForHead, Stop>
    ensures reads { Reads
        (λ h. (option_map start_tree h.start, (option_map expr_tree h.condition, option_map simple_tree h.step)))
        (grammar.for_head most_operators depth words.old)
        result words.new }
    ensures left { length words.new ≤ length words.old }
{
    let start = optional_start(words, depth)?;
    words.expect(Sign::Semicolon)?;
    let condition = optional_expr(words, depth)?;
    words.expect(Sign::Semicolon)?;
    for_step(words, depth, start, condition)
}

/// The head of a `for`, with its parentheses.
fn enclosed_head(words: &mut Parser<'_>, depth: usize) -> Result<ForHead, Stop>
    ensures reads { Reads
        (λ h. (option_map start_tree h.start, (option_map expr_tree h.condition, option_map simple_tree h.step)))
        (parts.in_parens depth (λ below ts. grammar.for_head most_operators below ts) words.old)
        result words.new }
    ensures left { length words.new ≤ length words.old }
    ensures eats { OnOk result (length words.new < length words.old) }
{
    let below = open_paren(words, depth)?;
    let head = for_head(words, below)?;
    words.expect(Sign::CloseParen)?;
    Ok(head)
}

/// Behind `return`.
#[tactic(auto, unfolding(crate::specs::Statements::return_stmt))]
fn return_stmt(words: &mut Parser<'_>, depth: usize, at: Place) -> Result<Stmt, Stop>
    ensures reads { Reads stmt_tree (grammar.return_stmt most_operators depth at words.old)
        result words.new }
    ensures left { length words.new ≤ length words.old }
    ensures eats { OnOk result (length words.new < length words.old) }
{
    let value = optional_expr(words, depth)?;
    words.expect(Sign::Semicolon)?;
    Ok(Stmt::Return(at, value))
}

/// Behind `delete`.
#[tactic(auto, unfolding(crate::specs::Statements::delete_stmt))]
fn delete_stmt(words: &mut Parser<'_>, depth: usize, at: Place) -> Result<Stmt, Stop>
    ensures reads { Reads stmt_tree (grammar.delete_stmt most_operators depth at words.old)
        result words.new }
    ensures left { length words.new ≤ length words.old }
    ensures eats { OnOk result (length words.new < length words.old) }
{
    let pointer = words.expr(depth)?;
    words.expect(Sign::Semicolon)?;
    Ok(Stmt::Delete(at, pointer))
}

impl Dialect {
    /// Behind a name.
    #[tactic(auto, unfolding(crate::specs::Statements::name_stmt))]
    fn name_stmt(&self, words: &mut Parser<'_>, depth: usize, name: Name) -> Result<Stmt, Stop>
        ensures reads { Reads stmt_tree (grammar.name_stmt most_operators self.now depth
            (inner_stmt most_operators self.now depth) (inner_branch most_operators self.now depth)
            name words.old)
            result words.new }
        ensures left { length words.new ≤ length words.old }
        ensures eats { OnOk result (length words.new < length words.old) }
    {
        if !words.sees(Sign::ColonColon) {
            let start = start_behind(words, depth, name)?;
            return ended(words, start);
        }
        if name.item.0 != self.std.0 {
            return Err(Stop::Syntax);
        }
        words.advance();
        let stmt = self.std_stmt(words, depth, name.at)?;
        words.expect(Sign::Semicolon)?;
        Ok(stmt)
    }

    /// A statement in which braces, parentheses and `else if` nest no deeper than `depth`.
    #[cycle(stmt)]
    #[tactic(auto, using(crate::proofs::Turns::by_depth), unfolding(crate::specs::Statements::stmt_of_depth))]
    pub fn stmt(&self, words: &mut Parser<'_>, depth: usize) -> Result<Stmt, Stop>
        ensures reads { Reads stmt_tree (grammar.stmt most_operators self.now depth words.old)
            result words.new }
        ensures left { length words.new ≤ length words.old }
        ensures eats { OnOk result (length words.new < length words.old) }
    {
        let Some(next) = words.peek() else {
            return Err(Stop::Syntax);
        };
        let at = next.at;
        match next.item {
            Word::Keyword(item) => self.keyword_stmt(words, depth, Placed { at, item }),
            Word::Name(item) => {
                words.advance();
                self.name_stmt(words, depth, Placed { at, item })
            }
            Word::Sign(sign) => self.sign_stmt(words, depth, sign),
            _ => Err(Stop::Syntax),
        }
    }

    /// What begins with a keyword, which comes next.
    #[cycle(stmt)]
    fn keyword_stmt(
        &self,
        words: &mut Parser<'_>,
        depth: usize,
        next: Placed<Keyword>,
    ) -> Result<Stmt, Stop>
        ensures reads { Reads stmt_tree (grammar.keyword_stmt most_operators self.now depth
            (inner_stmt most_operators self.now depth) (inner_branch most_operators self.now depth)
            next.at next.item words.old)
            result words.new }
        ensures left { length words.new ≤ length words.old }
        ensures eats { OnOk result (length words.new < length words.old) }
    {
        match next.item {
            Keyword::If => {
                words.advance();
                Ok(Stmt::If(self.branch(words, depth, next.at)?))
            }
            Keyword::While => {
                words.advance();
                Ok(Stmt::While(self.while_of(words, depth, next.at)?))
            }
            Keyword::For => {
                words.advance();
                Ok(Stmt::For(self.for_of(words, depth, next.at)?))
            }
            Keyword::Return => {
                words.advance();
                return_stmt(words, depth, next.at)
            }
            Keyword::Delete => {
                words.advance();
                delete_stmt(words, depth, next.at)
            }
            _ => start_stmt(words, depth),
        }
    }

    /// What begins with a sign, which comes next.
    #[cycle(stmt)]
    fn sign_stmt(&self, words: &mut Parser<'_>, depth: usize, next: Sign) -> Result<Stmt, Stop>
        ensures reads { Reads stmt_tree (grammar.sign_stmt most_operators self.now depth
            (inner_stmt most_operators self.now depth) (inner_branch most_operators self.now depth)
            next words.old)
            result words.new }
        ensures left { length words.new ≤ length words.old }
        ensures eats { OnOk result (length words.new < length words.old) }
    {
        match next {
            Sign::OpenBrace => Ok(Stmt::Block(self.block(words, depth)?)),
            _ => start_stmt(words, depth),
        }
    }

    /// Statements in braces, in which braces, parentheses and `else if` nest no deeper than `depth`.
    #[cycle(stmt)]
    #[tactic(auto, unfolding(crate::specs::Statements::block_of))]
    pub fn block(&self, words: &mut Parser<'_>, depth: usize) -> Result<Block, Stop>
        ensures reads { Reads block_tree (grammar.block most_operators self.now depth words.old)
            result words.new }
        ensures left { length words.new ≤ length words.old }
        ensures eats { OnOk result (length words.new < length words.old) }
    {
        let Some(at) = sign_at(words, Sign::OpenBrace) else {
            return Err(Stop::Syntax);
        };
        if depth == 0 {
            return Err(Stop::Deep);
        }
        words.advance();
        let stmts = self.braced(words, depth - 1)?;
        Ok(Block { at, stmts })
    }

    /// Statements up to a closing brace, which is passed.
    #[cycle(stmt)]
    fn braced(&self, words: &mut Parser<'_>, depth: usize) -> Result<Items<Stmt>, Stop>
        ensures reads { Reads (map stmt_tree)
            (parts.braced (λ ts. grammar.stmt most_operators self.now depth ts) words.old)
            result words.new }
        ensures left { length words.new ≤ length words.old }
        ensures eats { OnOk result (length words.new < length words.old) }
    {
        let mut found = Items::new(words.alloc());
        'stmts: while !words.sees(Sign::CloseBrace) {
            let stmt = self.stmt(words, depth)?;
            found.push(stmt)?;
        }
        words.advance();
        Ok(found)
    }

    /// Behind `if`.
    #[cycle(stmt)]
    #[tactic(auto, using(crate::proofs::Turns::by_depth), unfolding(crate::specs::Statements::branch_of))]
    fn branch(&self, words: &mut Parser<'_>, depth: usize, at: Place) -> Result<If, Stop>
        ensures reads { Reads if_tree (grammar.branch most_operators self.now depth at words.old)
            result words.new }
        ensures left { length words.new ≤ length words.old }
        ensures eats { OnOk result (length words.new < length words.old) }
    {
        let condition = condition(words, depth)?;
        let body = self.block(words, depth)?;
        let otherwise = self.otherwise(words, depth)?;
        Ok(If {
            at,
            condition,
            body,
            otherwise,
        })
    }

    /// What stands after the block of an `if`.
    #[cycle(stmt)]
    #[tactic(auto, unfolding(crate::specs::Statements::otherwise))]
    fn otherwise(&self, words: &mut Parser<'_>, depth: usize) -> Result<Option<Else>, Stop>
        ensures reads { Reads (λ o. else_or_none (option_map else_tree o))
            (grammar.otherwise most_operators self.now depth
            (inner_stmt most_operators self.now depth) (inner_branch most_operators self.now depth)
            words.old)
            result words.new }
        ensures left { length words.new ≤ length words.old }
    {
        if !sees_else(words) {
            return Ok(None);
        }
        words.advance();
        Ok(Some(self.behind_else(words, depth)?))
    }

    /// Behind `else`.
    #[cycle(stmt)]
    fn behind_else(&self, words: &mut Parser<'_>, depth: usize) -> Result<Else, Stop>
        ensures reads { Reads else_tree (grammar.behind_else most_operators self.now depth
            (inner_stmt most_operators self.now depth) (inner_branch most_operators self.now depth)
            (grammar.if_at words.old) words.old)
            result words.new }
        ensures left { length words.new ≤ length words.old }
    {
        let Some(at) = if_at(words) else {
            return Ok(Else::Body(self.block(words, depth)?));
        };
        if depth == 0 {
            return Err(Stop::Deep);
        }
        words.advance();
        let branch = self.branch(words, depth - 1, at)?;
        Ok(Else::Branch(Boxed::new(words.alloc(), branch)?))
    }

    /// Behind `while`.
    #[cycle(stmt)]
    #[tactic(auto, unfolding(crate::specs::Statements::while_of))]
    fn while_of(&self, words: &mut Parser<'_>, depth: usize, at: Place) -> Result<While, Stop>
        ensures reads { Reads while_tree (grammar.while_of most_operators self.now depth
            (inner_stmt most_operators self.now depth) (inner_branch most_operators self.now depth)
            at words.old)
            result words.new }
        ensures left { length words.new ≤ length words.old }
        ensures eats { OnOk result (length words.new < length words.old) }
    {
        let condition = condition(words, depth)?;
        let body = self.block(words, depth)?;
        Ok(While {
            at,
            condition,
            body,
        })
    }

    /// Behind `for`.
    #[cycle(stmt)]
    #[tactic(auto, unfolding(crate::specs::Statements::for_of))]
    fn for_of(&self, words: &mut Parser<'_>, depth: usize, at: Place) -> Result<For, Stop>
        ensures reads { Reads for_tree (grammar.for_of most_operators self.now depth
            (inner_stmt most_operators self.now depth) (inner_branch most_operators self.now depth)
            at words.old)
            result words.new }
        ensures left { length words.new ≤ length words.old }
        ensures eats { OnOk result (length words.new < length words.old) }
    {
        let head = enclosed_head(words, depth)?;
        let body = self.block(words, depth)?;
        Ok(For {
            at,
            start: head.start,
            condition: head.condition,
            step: head.step,
            body,
        })
    }
}
